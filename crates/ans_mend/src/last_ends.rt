//! What prints nothing at the very end of a content and is removed: line ends, bytes 00h and sequences.

ghost use Rattle.std.specs.Prelude.{◌≡◌, ℕ, ◌-◌, ◌<◌, ◌≤◌, true, false, IfNone, IfSome, length, drop, slice_index};
ghost use Rattle.std.specs.Prelude.{◌&&◌, ◌==◌, nat_le};
ghost use Rattle.std.specs.List.{list_all};
ghost use Rattle.ans_model.specs.Bytes.{bracket, escape, longest_file};
ghost use Rattle.ans_mend.specs.Drafts.{memory_of};
ghost use Rattle.ans_mend.specs.LastEnds.{EndsInSequence, FrontPasses, HasFewerEnds, IsQuietSequence, LeavesMost};
ghost use Rattle.ans_mend.specs.LastEnds.{NeverPasses, begins_end, is_line_end, is_parameter, is_quiet_letter};
ghost use Rattle.ans_mend.specs.LastEnds.{line_ends, most_sequences, splits_line_end, times_at};

use crate::draft::Draft;
use crate::keeping::keep;
use crate::line_ends::content_of;
use ans_model::size::Size;
use ans_pens::{Times, is_good};

fn is_line_end(byte: u8) -> bool
    ensures { result ≡ is_line_end byte }
{
    matches!(byte, b'\n' | b'\r' | 0)
}

/// Whether a return is before the offset and its line feed after it.
fn splits_line_end(bytes: &[u8], at: usize) -> bool
    ensures { result ≡ splits_line_end bytes.now at }
{
    at > 0 && at < bytes.len() && bytes[at - 1] == b'\r' && bytes[at] == b'\n'
}

/// How many bytes come before the line feeds, returns and bytes 00h at the end.
fn count_before_ends(bytes: &[u8]) -> usize
    ensures within { result ≤ length bytes.now }
    ensures ends { list_all is_line_end (drop result bytes.now) ≡ true }
    ensures others { (count : ℕ) → count < result → list_all is_line_end (drop count bytes.now) ≡ false }
{
    let mut count = bytes.len();
    'ends: while count > 0 && is_line_end(bytes[count - 1]) {
        count -= 1;
    }
    count
}

/// How many of the first bytes at most pass from the cleared start, if enough of them do and only line feeds,
/// returns and bytes 00h follow these.
fn most_passing(size: Size, bytes: &[u8], enough: usize) -> usize
    requires length { length bytes.now ≤ longest_file }
    requires within { enough ≤ length bytes.now }
    requires ends { list_all is_line_end (drop enough bytes.now) ≡ true }
    requires passes { FrontPasses size bytes.now enough }
    ensures from { enough ≤ result }
    ensures within { result ≤ length bytes.now }
    ensures passes { FrontPasses size bytes.now result }
    ensures most { (more : ℕ) → result < more → more ≤ length bytes.now → ¬ FrontPasses size bytes.now more }
{
    let mut passing = enough;
    let mut refused = bytes.len() + 1;
    'halves: while passing + 1 < refused {
        let middle = passing + (refused - passing) / 2;
        if is_good(size, &bytes[..middle]) {
            passing = middle;
        } else {
            refused = middle;
        }
    }
    passing
}

/// How many bytes of a content are left if as few line ends and bytes 00h at its very end go as must for it to
/// pass from the cleared start. None if it does not pass, however many go.
fn count_before_line_ends(size: Size, content: &[u8]) -> Option<usize>
    requires { length content.now ≤ longest_file }
    ensures some { IfSome result (LeavesMost 0 size content.now) }
    ensures none { IfNone result (NeverPasses 0 size content.now) }
{
    if is_good(size, content) {
        return Some(content.len());
    }
    let enough = count_before_ends(content);
    if !is_good(size, &content[..enough]) {
        return None;
    }
    let count = most_passing(size, content, enough);
    if splits_line_end(content, count) {
        return Some(count - 1);
    }
    Some(count)
}

fn is_quiet_letter(byte: u8) -> bool
    ensures { result ≡ is_quiet_letter byte }
{
    matches!(byte, b'H' | b'f' | b'h' | b'l' | b'm' | b's' | b'u')
}

fn is_parameter(byte: u8) -> bool
    ensures { result ≡ is_parameter byte }
{
    matches!(byte, 0x30..=0x3F)
}

/// From where on there are only parameters before an offset.
fn parameters_from(bytes: &[u8], end: usize) -> usize
    requires { end ≤ length bytes.now }
    ensures within { result ≤ end }
    ensures parameters { (at : ℕ) → result ≤ at → at < end → is_parameter (slice_index bytes.now at) ≡ true }
    ensures others { 0 < result → is_parameter (slice_index bytes.now (result - 1)) ≡ false }
{
    let mut start = end;
    'parameters: while start > 0 && is_parameter(bytes[start - 1]) {
        start -= 1;
    }
    start
}

/// Whether ESC and `[` are directly before an offset.
fn opens_before(bytes: &[u8], at: usize) -> bool
    requires { at ≤ length bytes.now }
    ensures { result ≡ (nat_le 2 at
        && (slice_index bytes.now (at - 2) == escape && slice_index bytes.now (at - 1) == bracket)) }
{
    at >= 2 && bytes[at - 2] == 0x1B && bytes[at - 1] == b'['
}

/// Where the sequence begins whose letter is at an offset, if it is one that prints nothing.
fn sequence_to(bytes: &[u8], letter: usize) -> Option<usize>
    requires { letter < length bytes.now }
    ensures some { IfSome result (λ start. IsQuietSequence bytes.now start letter) }
    ensures none { IfNone result ((start : ℕ) → ¬ IsQuietSequence bytes.now start letter) }
{
    if !is_quiet_letter(bytes[letter]) {
        return None;
    }
    let start = parameters_from(bytes, letter);
    if opens_before(bytes, start) {
        Some(start - 2)
    } else {
        None
    }
}

/// Where the last sequence begins, if it prints nothing and at most line ends and bytes 00h follow it.
fn last_sequence(bytes: &[u8]) -> Option<usize>
    ensures some { IfSome result (EndsInSequence bytes.now) }
    ensures none { IfNone result ((start : ℕ) → ¬ EndsInSequence bytes.now start) }
    ensures within { IfSome result (λ start. start ≤ length bytes.now) }
{
    let end = count_before_ends(bytes);
    if end == 0 {
        return None;
    }
    sequence_to(bytes, end - 1)
}

/// The same as [`count_passing`], if at most that many sequences go.
fn count_before_sequences(size: Size, content: &[u8], sequences: usize) -> Option<usize>
    requires { length content.now ≤ longest_file }
    ensures some { IfSome result (LeavesMost sequences size content.now) }
    ensures none { IfNone result (NeverPasses sequences size content.now) }
{
    if let Some(count) = count_before_line_ends(size, content) {
        return Some(count);
    }
    if sequences == 0 {
        return None;
    }
    let start = last_sequence(content)?;
    count_before_sequences(size, &content[..start], sequences - 1)
}

/// How many sequences at most go.
const MOST_SEQUENCES: usize = 8;

/// How many bytes of a content are left if as few line ends, bytes 00h and sequences that print nothing go from its
/// very end as must for it to pass from the cleared start. None if it does not pass, however many go; of sequences at
/// most 8 go. It takes no memory.
pub fn count_passing(size: Size, content: &[u8]) -> Option<usize>
    requires { length content.now ≤ longest_file }
    ensures some { IfSome result (LeavesMost most_sequences size content.now) }
    ensures none { IfNone result (NeverPasses most_sequences size content.now) }
    ensures within { IfSome result (λ count. count ≤ length content.now) }
{
    count_before_sequences(size, content, MOST_SEQUENCES)
}

/// Whether a line end, a byte 00h or a sequence begins with a byte, after the last one.
fn begins_end(last: u8, byte: u8) -> bool
    ensures { result ≡ begins_end last byte }
{
    (is_line_end(byte) || byte == 0x1B) && !(last == b'\r' && byte == b'\n')
}

/// How many line ends, bytes 00h and sequences there are, if the bytes are only these: a return and a line feed are
/// one.
pub fn count_line_ends(bytes: &[u8]) -> usize
    ensures count { result ≡ line_ends bytes.now }
    ensures within { result ≤ length bytes.now }
{
    let mut count = 0;
    let mut last = 0;
    for byte in bytes {
        if begins_end(last, *byte) {
            count += 1;
        }
        last = *byte;
    }
    count
}

/// That many, from this offset on.
pub(crate) fn times_at(count: usize, first: usize) -> Option<Times>
    ensures { result ≡ times_at count first }
{
    if count == 0 {
        return None;
    }
    Some(Times { count, first })
}

/// How many line ends, bytes 00h and sequences come after an offset, and that offset.
fn ends_behind(content: &[u8], left: usize) -> Option<Times>
    requires { left ≤ length content.now }
    ensures { result ≡ times_at (line_ends (drop left content.now)) left }
{
    times_at(count_line_ends(&content[left..]), left)
}

impl<'a> Draft<'a> {
    /// Removes as few line ends, bytes 00h and sequences that print nothing, at the very end of the content of a file
    /// that has a record, as must go for it to pass from the cleared start on a screen of this size, if it then does.
    /// Returns how many, and the offset of the first, in bytes from the file's start.
    pub(crate) fn take_out_last_ends(&mut self, size: Size) -> Option<Times>
        requires { length self.old.file ≤ longest_file }
        ensures file { HasFewerEnds size self.old.file self.new.file result }
        ensures no_longer { length self.new.file ≤ length self.old.file }
        ensures memory { memory_of self.new ≡ memory_of self.old }
    {
        let content = content_of(self.file())?;
        let count = content.len();
        let left = count_passing(size, content)?;
        let times = ends_behind(content, left);
        self.used = keep(self.memory, left, count, self.used);
        times
    }
}
