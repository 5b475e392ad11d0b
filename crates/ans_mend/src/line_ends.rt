//! Returns before line feeds that have none.

ghost use Rattle.std.specs.Prelude.{◌≡◌, ◌+◌, ◌≤◌, ◌++◌, ℕ, length, take, drop, IfSome, IfNone, true, false};
ghost use Rattle.ans_model.specs.File.Refusals.{has_record};
ghost use Rattle.std.specs.List.{list_any};
ghost use Rattle.ans_mend.specs.Drafts.{memory_of};
ghost use Rattle.ans_mend.specs.LineEnds.{AreReturns, ArePut, is_return};
ghost use Rattle.ans_sauce.specs.Contents.{content_in};
ghost use Rattle.ans_mend.specs.LineEnds.{is_line_feed, line_feeds, byte_returned, wants_returns, with_line_ends};
ghost use Rattle.ans_mend.specs.LineEnds.{bare_feeds, first_bare, needs_return, with_returns};

use crate::draft::Draft;
use ans_pens::Times;
use ans_sauce::{body_before, cut_content, cut_record};

fn is_line_feed(byte: u8) -> bool
    ensures { result ≡ is_line_feed byte }
{
    byte == b'\n'
}

/// How many line feeds there are.
pub(crate) fn count_line_feeds(bytes: &[u8]) -> usize
    ensures count { result ≡ line_feeds bytes.now }
    ensures within { result ≤ length bytes.now }
{
    let mut count = 0;
    for byte in bytes {
        if is_line_feed(*byte) {
            count += 1;
        }
    }
    count
}

/// Whether a byte is a line feed, and the one before it no return.
fn needs_return(last: u8, byte: u8) -> bool
    ensures { result ≡ needs_return last byte }
{
    is_line_feed(byte) && last != b'\r'
}

/// How many line feeds no return comes before.
fn count_bare_feeds(bytes: &[u8]) -> usize
    ensures count { result ≡ bare_feeds 0 bytes.now }
    ensures within { result ≤ length bytes.now }
{
    let mut count = 0;
    let mut last = 0;
    for byte in bytes {
        if needs_return(last, *byte) {
            count += 1;
        }
        last = *byte;
    }
    count
}

/// Where the first line feed is that no return comes before.
fn first_bare_feed(bytes: &[u8]) -> Option<usize>
    ensures { result ≡ first_bare 0 0 bytes.now }
{
    let mut last = 0;
    for index in 0..bytes.len() {
        let byte = bytes[index];
        if needs_return(last, byte) {
            return Some(index);
        }
        last = byte;
    }
    None
}

/// Writes a byte after the first ones, after a return if it needs one. Returns how many bytes there are then.
fn write_returned(memory: &mut [u8], count: usize, last: u8, byte: u8) -> usize
    requires { count + length (byte_returned last byte) ≤ length memory.old }
    ensures count { result ≡ count + length (byte_returned last byte) }
    ensures same_length { length memory.new ≡ length memory.old }
    ensures written { take result memory.new ≡ take count memory.old ++ byte_returned last byte }
    ensures behind { (place : ℕ) → result ≤ place → drop place memory.new ≡ drop place memory.old }
{
    let mut end = count;
    if needs_return(last, byte) {
        memory[end] = b'\r';
        end += 1;
    }
    memory[end] = byte;
    end + 1
}

/// The `count` bytes after a gap are written to the front, each line feed after a return. The gap has
/// room for as many returns as are needed.
fn close_gap(memory: &mut [u8], gap: usize, count: usize)
    requires within { gap + count ≤ length memory.old }
    requires room { bare_feeds 0 (take count (drop gap memory.old)) ≤ gap }
    ensures same_length { length memory.new ≡ length memory.old }
    ensures written { take (count + bare_feeds 0 (take count (drop gap memory.old))) memory.new
        ≡ with_returns 0 (take count (drop gap memory.old)) }
    ensures behind { drop (gap + count) memory.new ≡ drop (gap + count) memory.old }
{
    let mut written = 0;
    let mut last = 0;
    for index in 0..count {
        let byte = memory[gap + index];
        written = write_returned(memory, written, last, byte);
        last = byte;
    }
}

/// Adds the returns that are needed in the first `count` of the bytes that are used, for which there
/// is a gap after these.
fn put_returns_in(memory: &mut [u8], used: usize, count: usize, gap: usize)
    requires room { used + gap ≤ length memory.old }
    requires within { count ≤ used }
    requires gap { gap ≡ bare_feeds 0 (take count memory.old) }
    ensures same_length { length memory.new ≡ length memory.old }
    ensures returned { take (used + gap) memory.new
        ≡ with_returns 0 (take count memory.old) ++ drop count (take used memory.old) }
{
    memory.copy_within(0..used, gap);
    close_gap(memory, gap, count);
}

fn has_return(bytes: &[u8]) -> bool
    ensures { result ≡ list_any is_return bytes.now }
{
    bytes.iter().any(|byte| *byte == b'\r')
}

/// The line feeds that need a return, if there is no return, or also if there are some: how many, and the place
/// of the first.
fn wanted_returns(content: &[u8], mixed: bool) -> Option<Times>
    ensures { AreReturns mixed content.now result }
{
    if !mixed && has_return(content) {
        return None;
    }
    let first = first_bare_feed(content)?;
    Some(Times {
        count: count_bare_feeds(content),
        first,
    })
}

/// The content of a file that has a record.
pub(crate) fn content_of(file: &[u8]) -> Option<&[u8]>
    ensures some { IfSome result (λ bytes. (has_record file.now ≡ true) × (bytes.now ≡ content_in file.now)) }
    ensures none { IfNone result (has_record file.now ≡ false) }
{
    let (front, sauce) = cut_record(file)?;
    let (content, _) = cut_content(body_before(front, &sauce));
    Some(content)
}

impl<'a> Draft<'a> {
    /// Adds a return before each line feed of the content of a file that has a record, if it has line
    /// feeds and no return; or if they are `mixed`, before each that has none. Returns how many, and the place
    /// of the first line feed, in bytes from the file's start. The draft needs room for as many bytes as are added.
    pub(crate) fn put_returns(&mut self, mixed: bool) -> Option<Times>
        requires { bare_feeds 0 (content_in self.old.file) ≤ self.old.room }
        ensures file { self.new.file ≡ with_line_ends mixed self.old.file }
        ensures times { ArePut mixed self.old.file result }
        ensures memory { memory_of self.new ≡ memory_of self.old }
    {
        let Some(content) = content_of(self.file()) else {
            return None;
        };
        let count = content.len();
        let Some(times) = wanted_returns(content, mixed) else {
            return None;
        };
        put_returns_in(self.memory, self.used, count, times.count);
        self.used += times.count;
        Some(times)
    }
}
