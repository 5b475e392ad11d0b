//! Line ends after full rows that are removed.

ghost use Rattle.std.specs.Prelude.{◌≡◌, ◌↔◌, ◌+◌, ◌-◌, ◌≤◌, ◌<◌, ◌++◌, ℕ, IsTrue, List, length, take, drop, true};
ghost use Rattle.std.specs.Prelude.{false};
ghost use Rattle.ans_model.specs.Bytes.{longest_file};
ghost use Rattle.ans_pens.specs.Counted.{count_of, counted};
ghost use Rattle.ans_hints.specs.FullRowEnds.{AreEndsOver, StandsBetween, bytes_of, full_row_ends, without};
ghost use Rattle.ans_hints.specs.FullRowEnds.{without_ends};
ghost use Rattle.ans_hints.specs.RowEnds.{written_by};
ghost use Rattle.ans_model.specs.Sequence.Reads.{ReadsAs};
ghost use Rattle.ans_hints.specs.declared.full_row_ends.FullRowEnd.{FullRowEnd};
ghost use Rattle.ans_mend.specs.Drafts.{memory_of};
ghost use Rattle.ans_mend.specs.FullRows.{AllCount, HasFullRows, MayGo, first_byte, times_with};
ghost use Rattle.ans_model.specs.Sequence.TokenKind.{TokenKind};

use crate::draft::Draft;
use crate::keeping::keep;
use crate::line_ends::content_of;
use crate::reading::is_read;
use ans_hints::{FullRowEnd, Hints, RowPlay, ends_full_rows};
use ans_model::size::Size;
use ans_pens::Times;
use ans_pens::times::count_of;

/// What was removed, how often, and how many bytes are left of those that were looked at.
#[derive(Clone, Copy)]
struct RowsLeft {
    times: Option<Times>,
    count: usize,
}

fn first_byte(end: &FullRowEnd) -> usize
    ensures { result ≡ first_byte end.now }
{
    end.return_at.unwrap_or(end.line_feed)
}

/// One time more, at this offset.
pub(crate) fn once_more(times: Option<Times>, offset: usize) -> Option<Times>
    requires { count_of times ≤ longest_file }
    ensures { result ≡ counted times true offset }
{
    match times {
        None => Some(Times {
            count: 1,
            first: offset,
        }),
        Some(times) => Some(Times {
            count: times.count + 1,
            first: times.first,
        }),
    }
}

/// Removes a line end: the bytes from an offset up to it are moved after the first ones, whose number
/// is given. Returns how many there are then.
fn take_out_end(memory: &mut [u8], count: usize, from: usize, end: &FullRowEnd) -> usize
    requires behind { count ≤ from }
    requires stands { StandsBetween from end.now.return_at end.now.line_feed }
    requires within { end.now.line_feed < length memory.old }
    ensures few { result ≤ end.now.line_feed }
    ensures same_length { length memory.new ≡ length memory.old }
    ensures kept { take result memory.new ≡ take count memory.old
        ++ without from (bytes_of end.now) (take (end.now.line_feed + 1 - from) (drop from memory.old)) }
    ensures left { drop (end.now.line_feed + 1) memory.new ≡ drop (end.now.line_feed + 1) memory.old }
{
    match end.return_at {
        None => keep(memory, count, from, end.line_feed),
        Some(at) => {
            let kept = keep(memory, count, from, at);
            keep(memory, kept, at + 1, end.line_feed)
        }
    }
}

/// Removes the line ends after full rows from the first `count` bytes, which a play is to go over.
fn take_out_ends(memory: &mut [u8], count: usize, mut rows: RowPlay) -> RowsLeft
    requires within { count ≤ length memory.old }
    requires limit { count ≤ longest_file }
    requires begins { rows.played ≡ 0 }
    ensures few { result.count ≤ count }
    ensures same_length { length memory.new ≡ length memory.old }
    ensures left { (ends : List FullRowEnd) → AreEndsOver rows (take count memory.old) ends
        → take result.count memory.new ≡ without_ends 0 ends (take count memory.old) }
    ensures times { (ends : List FullRowEnd) → AreEndsOver rows (take count memory.old) ends
        → result.times ≡ times_with None ends }
    ensures behind { drop count memory.new ≡ drop count memory.old }
{
    let mut kept = 0;
    let mut read = 0;
    let mut times = None;
    'ends: while let Some(end) = rows.next_end(&memory[read..count]) {
        times = once_more(times, first_byte(&end));
        kept = take_out_end(memory, kept, read, &end);
        read = rows.played;
    }
    RowsLeft {
        times,
        count: keep(memory, kept, read, count),
    }
}

/// How many line ends come after full rows in a content, which a play is to go over.
fn count_ends(content: &[u8], mut rows: RowPlay) -> usize
    requires limit { length content.now ≤ longest_file }
    requires begins { rows.played ≡ 0 }
    ensures { (ends : List FullRowEnd) → AreEndsOver rows content.now ends → result ≡ length ends }
{
    let mut count = 0;
    let mut read = 0;
    'ends: while let Some(_) = rows.next_end(&content[read..]) {
        count += 1;
        read = rows.played;
    }
    count
}

/// Whether as many of them count as there are, if the content is read.
fn ends_count(size: Size, content: &[u8]) -> bool
    requires { length content.now ≤ longest_file }
    ensures { (tokens : List TokenKind) (texts : List (List ℕ)) → ReadsAs content.now tokens texts
        → (IsTrue result ↔ (count_of (written_by size tokens texts).ends.ended
        ≡ length (full_row_ends size tokens texts))) }
{
    let hints = Hints::of(size, false, content, content.len());
    count_of(hints.row_ends.ended) == count_ends(content, RowPlay::new(size))
}

/// Whether a content is read, and all line ends after its full rows count.
fn all_count(size: Size, content: &[u8]) -> bool
    requires { length content.now ≤ longest_file }
    ensures all { result ≡ true
        → (tokens : List TokenKind) × (texts : List (List ℕ)) × AllCount size content.now tokens texts }
    ensures other { result ≡ false
        → (tokens : List TokenKind) (texts : List (List ℕ)) → ¬ AllCount size content.now tokens texts }
{
    is_read(content) && ends_count(size, content)
}

/// Whether the line ends after full rows may be removed: one follows every full row that something is printed
/// after, and there are two of these; or they are `mixed`, and all that there are count.
fn may_go(size: Size, content: &[u8], mixed: bool) -> bool
    requires { length content.now ≤ longest_file }
    ensures may { result ≡ true
        → (tokens : List TokenKind) × (texts : List (List ℕ)) × MayGo mixed size content.now tokens texts }
    ensures other { result ≡ false
        → (tokens : List TokenKind) (texts : List (List ℕ)) → ¬ MayGo mixed size content.now tokens texts }
{
    if mixed {
        return all_count(size, content);
    }
    ends_full_rows(size, content)
}

impl<'a> Draft<'a> {
    /// Removes the line ends after full rows from the content of a file that has a record, in the play
    /// from the cleared start on a screen of this size: if a line end follows every full row that
    /// something is printed after, and there are two of these. After a full row the cursor is in the
    /// next row already, so a line end there makes an empty one. If the rows are `mixed`, those line ends are
    /// removed that are there, unless something is printed above where one of them led. Returns how many line ends, and the offset of the first, in bytes from the file's
    /// start.
    pub(crate) fn take_out_row_ends(&mut self, size: Size, mixed: bool) -> Option<Times>
        requires { length self.old.file ≤ longest_file }
        ensures file { HasFullRows mixed size self.old.file self.new.file result }
        ensures no_longer { length self.new.file ≤ length self.old.file }
        ensures memory { memory_of self.new ≡ memory_of self.old }
    {
        let content = content_of(self.file())?;
        let count = content.len();
        if !may_go(size, content, mixed) {
            return None;
        }
        let left = take_out_ends(self.memory, count, RowPlay::new(size));
        self.used = keep(self.memory, left.count, count, self.used);
        left.times
    }
}
