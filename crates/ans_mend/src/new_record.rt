//! A record for a file that has none.

ghost use Rattle.std.specs.Prelude.{◌≡◌, ◌≤◌, IfNone, IfSome, true, false};
ghost use Rattle.ans_model.specs.File.Layout.{after_content, content};
ghost use Rattle.ans_mend.specs.Drafts.{memory_of};
ghost use Rattle.ans_mend.specs.NewRecord.{begins_sauce, holds_sauce, new_record, record_given};
ghost use Rattle.ans_mend.specs.NewRecord.{refusal_of, takes_record, with_new_record};

use crate::draft::Draft;
use crate::outcome::{GivenRecord, Unmended};
use crate::tail::is_tail;
use ans_model::fault::{Cause, Fault};
use ans_sauce::fields::END_MARK;
use ans_sauce::{cut_content, cut_record};

/// The record except for its width: version 00, blank texts, a date of eight zeros, Character/ANSi (SAUCE
/// 00.5, record layout).
const BLANK: &[u8; 128] = b"SAUCE00\
    \x20                                  \
    \x20                                       00000000\
    \x00\x00\x00\x00\x01\x01\x00\x00\x00\x00\x00\x00\x00\x00\x00\x00\
    \x00\x00\x00\x00\x00\x00\x00\x00\x00\x00\x00\x00\x00\x00\x00\x00\x00\x00\x00\x00\x00\x00";

/// Where the width is (TInfo1).
const TINFO_1: usize = 96;

fn new_record(width: u16) -> [u8; 128]
    ensures { result ≡ new_record width }
{
    let mut bytes = *BLANK;
    bytes[TINFO_1..TINFO_1 + 2].copy_from_slice(&width.to_le_bytes());
    bytes
}

fn begins_sauce(bytes: &[u8]) -> bool
    ensures { result ≡ begins_sauce bytes.now }
{
    matches!(bytes, [b'S', b'A', b'U', b'C', b'E', b'0', b'0', ..])
}

fn holds_sauce(bytes: &[u8]) -> bool
    ensures { result ≡ holds_sauce bytes.now }
{
    let mut rest = bytes;
    'bytes: while let [_, behind @ ..] = rest {
        if begins_sauce(rest) {
            return true;
        }
        rest = behind;
    }
    false
}

/// The content of a file that takes a record, and what follows it.
fn cut_for_record(file: &[u8]) -> Option<(&[u8], &[u8])>
    ensures takes { IfSome result (λ cut. takes_record file.now ≡ true) }
    ensures content { IfSome result (λ cut. cut.0.now ≡ content file.now) }
    ensures rest { IfSome result (λ cut. cut.1.now ≡ after_content file.now) }
    ensures none { IfNone result (takes_record file.now ≡ false) }
{
    let (content, rest) = cut_content(file);
    if cut_record(file).is_some() || holds_sauce(file) || !is_tail(rest) {
        return None;
    }
    Some((content, rest))
}

/// Why a file is not mended whose record or layout has this fault: if there is no record, whether one could be added is
/// part of it.
pub(crate) fn refusal_of(file: &[u8], fault: Fault) -> Unmended
    ensures { result ≡ refusal_of file.now fault }
{
    match fault.cause {
        Cause::NoRecord if cut_for_record(file).is_none() => Unmended::TakesNoRecord(fault),
        _ => Unmended::Refused(fault),
    }
}

impl<'a> Draft<'a> {
    /// Adds an end mark and a record of this width, in columns, after the content of a file that has no
    /// record, in place of what is there, if that is only end marks, zero bytes, line feeds and
    /// returns, and `SAUCE00` appears nowhere in the file. Returns what was added. The draft needs room for 129
    /// bytes.
    pub fn give_record(&mut self, width: u16) -> Option<GivenRecord>
        requires { 129 ≤ self.old.room }
        ensures file { self.new.file ≡ with_new_record width self.old.file }
        ensures given { result ≡ record_given width self.old.file }
        ensures memory { memory_of self.new ≡ memory_of self.old }
    {
        let Some((content, rest)) = cut_for_record(self.file()) else {
            return None;
        };
        let count = content.len();
        let cut = rest.len();
        self.cut(count);
        self.append(&[END_MARK]);
        self.append(&new_record(width));
        Some(GivenRecord {
            width,
            place: count,
            cut,
        })
    }
}
