//! The colours of a content that are named.

ghost use Rattle.std.specs.Prelude.{◌≡◌, ◌+◌, ◌-◌, ◌≤◌, ◌++◌, ℕ, List, length, take, drop, IfErr, IfOk, OnOk};
ghost use Rattle.std.specs.Prelude.{IfSome, IfNone, MatchOption};
ghost use Rattle.ans_mend.specs.declared.outcome.Unmended.TheVariants.{TooLong};
ghost use Rattle.ans_model.specs.Bytes.{longest_file};
ghost use Rattle.ans_model.specs.Sequence.TokenKind.{TokenKind};
ghost use Rattle.ans_model.specs.Sequence.Reads.{Reads, ReadsAs};
ghost use Rattle.ans_players.specs.Situations.{spelled};
ghost use Rattle.ans_mend.specs.Drafts.{memory_of};
ghost use Rattle.ans_mend.specs.NamedColours.{HasNamedColours, IsTooLongNamed, named_content, names_room};
ghost use Rattle.ans_mend.specs.NameSearch.{IsNamedFirst, Grows, HaveNamedLength, NoneIsNamed};

use crate::draft::Draft;
use crate::full_rows::once_more;
use crate::keeping::keep;
use crate::line_ends::content_of;
use crate::name_search::{NamingPlace, next_naming};
use crate::outcome::Unmended;
use ans_model::limits::MAX_FILE;
use ans_pens::Times;
use ans_sauce::overwrite;

/// What naming adds to a content.
#[derive(Clone, Copy)]
struct Growth {
    times: Option<Times>,
    bytes: usize,
}

/// What naming adds. None if the content cannot be read.
fn growth_of(content: &[u8]) -> Option<Growth>
    requires { length content.now ≤ longest_file }
    ensures some { IfSome result (Grows content.now) }
    ensures none { IfNone result ((tokens : List TokenKind) → ¬ Reads content.now tokens) }
{
    let mut read = 0;
    let mut times = None;
    let mut bytes = 0;
    'sequences: loop {
        let Ok(next) = next_naming(&content[read..]) else {
            return None;
        };
        let Some(going) = next else {
            return Some(Growth { times, bytes });
        };
        times = once_more(times, read + going.start);
        bytes += going.put.len() - (going.rest - going.zero);
        read += going.end;
    }
}

/// Writes bytes after the first ones, whose number is given. Returns how many there are then.
fn write_behind(memory: &mut [u8], count: usize, bytes: &[u8]) -> usize
    requires { count + length bytes.now ≤ length memory.old }
    ensures count { result ≡ count + length bytes.now }
    ensures same_length { length memory.new ≡ length memory.old }
    ensures written { take result memory.new ≡ take count memory.old ++ bytes.now }
    ensures left { (place : ℕ) → result ≤ place → drop place memory.new ≡ drop place memory.old }
{
    overwrite(memory, count, bytes);
    count + bytes.len()
}

/// The first sequence that is to name colours, in bytes that can be read.
fn naming_in(bytes: &[u8]) -> Option<NamingPlace>
    requires limit { length bytes.now ≤ longest_file }
    requires reads { (tokens : List TokenKind) × Reads bytes.now tokens }
    ensures { MatchOption result (NoneIsNamed bytes.now) (IsNamedFirst bytes.now) }
{
    match next_naming(bytes) {
        Ok(going) => going,
        Err(_) => None,
    }
}

/// The content from an offset up to an end is written to the front, with its colours named. The offset is by as
/// much as that adds.
fn write_named(memory: &mut [u8], gap: usize, end: usize)
    requires order { gap ≤ end }
    requires within { end ≤ length memory.old }
    requires limit { end - gap ≤ longest_file }
    requires room { HaveNamedLength (take (end - gap) (drop gap memory.old)) end }
    ensures same_length { length memory.new ≡ length memory.old }
    ensures written { (tokens : List TokenKind) (texts : List (List ℕ))
        → ReadsAs (take (end - gap) (drop gap memory.old)) tokens texts
        → take end memory.new ≡ named_content (spelled tokens texts) }
    ensures behind { drop end memory.new ≡ drop end memory.old }
{
    let mut written = 0;
    let mut read = gap;
    'sequences: while let Some(going) = naming_in(&memory[read..end]) {
        written = keep(memory, written, read, read + going.zero);
        written = write_behind(memory, written, going.put);
        written = keep(memory, written, read + going.rest, read + going.end);
        read += going.end;
    }
    keep(memory, written, read, end);
}

/// Names the colours of the first `count` of the bytes that are used, for which there is a gap after these.
fn name_in(memory: &mut [u8], used: usize, count: usize, gap: usize)
    requires room { used + gap ≤ length memory.old }
    requires within { count ≤ used }
    requires limit { count ≤ longest_file }
    requires gap { HaveNamedLength (take count memory.old) (gap + count) }
    ensures same_length { length memory.new ≡ length memory.old }
    ensures named { (tokens : List TokenKind) (texts : List (List ℕ)) → ReadsAs (take count memory.old) tokens texts
        → take (used + gap) memory.new ≡ named_content (spelled tokens texts) ++ drop count (take used memory.old) }
{
    memory.copy_within(0..used, gap);
    write_named(memory, gap, gap + count);
}

impl<'a> Draft<'a> {
    /// Names the colours of the content of a file that has a record: a colour sequence with a 0 or an omitted
    /// number gets 37, 40 or both after the last of them, if something is printed or cleared in a player's own
    /// white or black after it. If it would be too long for ansilove, or has an omitted number, the names are
    /// in a sequence of their own. A content that cannot be read stays. Returns how many sequences, and the
    /// offset of the first, in bytes from the file's start, as it was before. `Err` says that the file would be too
    /// long; the draft is then as it was. The draft needs room for four bytes for each byte before the record, up to
    /// the longest file.
    pub fn name_colours(&mut self) -> Result<Option<Times>, Unmended>
        requires length { length self.old.file ≤ longest_file }
        requires room { names_room self.old.file ≤ self.old.room }
        ensures file { IfOk result (HasNamedColours self.old.file self.new.file) }
        ensures fits { OnOk result (length self.new.file ≤ longest_file) }
        ensures memory { memory_of self.new ≡ memory_of self.old }
        ensures too_long { IfErr result (λ reason. (self.new ≡ self.old)
            × (reason ≡ TooLong) × IsTooLongNamed self.old.file longest_file) }
    {
        let Some(content) = content_of(self.file()) else {
            return Ok(None);
        };
        let count = content.len();
        let Some(growth) = growth_of(content) else {
            return Ok(None);
        };
        if growth.bytes > MAX_FILE - self.used {
            return Err(Unmended::TooLong);
        }
        name_in(self.memory, self.used, count, growth.bytes);
        self.used += growth.bytes;
        Ok(growth.times)
    }
}
