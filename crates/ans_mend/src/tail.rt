//! What follows a record and is not part of the drawing.

ghost use Rattle.std.specs.Prelude.{◌≡◌, ℕ, ◌+◌, ◌-◌, ◌<◌, ◌≤◌, IfNone, IfSome, length};
ghost use Rattle.std.specs.List.{list_all};
ghost use Rattle.ans_model.specs.File.Record.{field, number};
ghost use Rattle.ans_mend.specs.Drafts.{memory_of};
ghost use Rattle.ans_mend.specs.LastEnds.{times_at};
ghost use Rattle.ans_mend.specs.Tail.{HasTail, IsTailCut, ends_in_ansi, ends_in_tail, is_beyond_limits};
ghost use Rattle.ans_mend.specs.Tail.{is_tail_byte};

use crate::draft::Draft;
use crate::last_ends::times_at;
use ans_model::limits::{MAX_LINES, MAX_WIDTH};
use ans_pens::Times;
use ans_sauce::fields::{RECORD_SIZE, TINFO_1, TINFO_2};
use ans_sauce::{cut_record, grown_by, last_record_place};

fn is_tail_byte(byte: u8) -> bool
    ensures { result ≡ is_tail_byte byte }
{
    matches!(byte, 0x00 | b'\n' | b'\r' | 0x1A)
}

pub(crate) fn is_tail(bytes: &[u8]) -> bool
    ensures { result ≡ list_all is_tail_byte bytes.now }
{
    bytes.iter().all(|byte| is_tail_byte(*byte))
}

fn ends_in_ansi(file: &[u8]) -> bool
    ensures { result ≡ ends_in_ansi file.now }
{
    match cut_record(file) {
        Some((_, sauce)) => sauce.is_character_ansi(),
        None => false,
    }
}

/// A number of two bytes of a record, the least first.
fn number_at(sauce: &[u8], offset: usize) -> usize
    requires { offset + 1 < length sauce.now }
    ensures { result ≡ number (field offset 2 sauce.now) }
{
    usize::from(sauce[offset]) + 256 * usize::from(sauce[offset + 1])
}

/// Whether a record states more columns or lines than a drawing may have.
fn is_beyond_limits(sauce: &[u8]) -> bool
    requires { length sauce.now ≡ 128 }
    ensures { result ≡ is_beyond_limits sauce.now }
{
    number_at(sauce, TINFO_1) > MAX_WIDTH || number_at(sauce, TINFO_2) > MAX_LINES
}

/// Whether bytes that begin with a record are that record and a tail.
fn ends_in_tail(bytes: &[u8]) -> bool
    requires { 128 ≤ length bytes.now }
    ensures { result ≡ ends_in_tail bytes.now }
{
    let (sauce, tail) = bytes.split_at(RECORD_SIZE);
    is_tail(tail) && grown_by(bytes).is_none() && !is_beyond_limits(sauce)
}

/// Where the tail of a file begins, if it has one: after the last record.
fn tail_start(file: &[u8]) -> Option<usize>
    ensures some { IfSome result (λ start. (place : ℕ) × HasTail file.now place × (start ≡ place + 128)) }
    ensures none { IfNone result ((place : ℕ) → ¬ HasTail file.now place) }
    ensures within { IfSome result (λ start. start ≤ length file.now) }
{
    if ends_in_ansi(file) {
        return None;
    }
    match last_record_place(file) {
        Some(place) if ends_in_tail(&file[place..]) => Some(place + RECORD_SIZE),
        _ => None,
    }
}

impl<'a> Draft<'a> {
    /// Cuts off what follows the last record of version 00, if that is only zero bytes, line feeds,
    /// returns and end marks; but nothing of a file that ends in a record of type Character/ANSi. Nothing is
    /// cut either if a transfer as text may have made the record longer, or if the record states more
    /// columns or lines than a drawing may have. Returns how many bytes were cut, and where the first of
    /// them was, in bytes from the file's start.
    pub(crate) fn cut_tail(&mut self) -> Option<Times>
        ensures cut { IsTailCut self.old.file self.new.file }
        ensures times { result
            ≡ times_at (length self.old.file - length self.new.file) (length self.new.file) }
        ensures no_longer { length self.new.file ≤ length self.old.file }
        ensures memory { memory_of self.new ≡ memory_of self.old }
    {
        let file = self.file();
        let length = file.len();
        let start = tail_start(file)?;
        self.cut(start);
        times_at(length - start, start)
    }
}
