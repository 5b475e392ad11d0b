//! How many comments a record counts.

ghost use Rattle.std.specs.Prelude.{◌≡◌, ◌≤◌, ◌∷◌, [], length, IfNone, IfSome, true, false};
ghost use Rattle.ans_model.specs.File.Record.{comment_count};
ghost use Rattle.ans_model.specs.File.Refusals.{has_record};
ghost use Rattle.ans_mend.specs.Drafts.{draft_of, memory_of};
ghost use Rattle.ans_mend.specs.Recounted.{blocks, comments_for, comments_in, comments_set, is_block, recounted};
ghost use Rattle.ans_mend.specs.Recounted.{with_comments};
ghost use Rattle.ans_sauce.specs.Fields.{with_record};
ghost use Rattle.ans_sauce.specs.Found.{record_in};

use crate::draft::Draft;
use ans_sauce::fields::RECORD_SIZE;
use ans_sauce::{Reset, cut_record, overwrite};

/// Where the number of comments is in a record (Comments).
const COMMENTS: usize = 104;

/// Whether a block of this many comments ends the bytes before a record.
fn is_block(front: &[u8], number: usize) -> bool
    requires { number ≤ 255 }
    ensures { result ≡ is_block front.now number }
{
    let size = 5 + 64 * number;
    front.len() >= size && front[front.len() - size..].starts_with(b"COMNT")
}

/// How many comments a record is to count after these bytes, if it counts this many: those of the only block,
/// or none if there is no block. If there are several, the number stays.
fn comments_for(front: &[u8], count: u8) -> u8
    ensures { result ≡ comments_for count (blocks front.now) }
{
    let mut only = 0;
    for index in 0..255 {
        let number = index + 1;
        if is_block(front, number) {
            if only != 0 {
                return count;
            }
            only = number;
        }
    }
    only as u8
}

/// How many comments a record counts, and how many it is to count.
#[derive(Clone, Copy)]
struct Counted {
    was: u8,
    is: u8,
}

/// How many comments the record of a file counts, and is to count. None if there is no record.
fn counted_in(file: &[u8]) -> Option<Counted>
    ensures some { IfSome result (λ counted. (has_record file.now ≡ true)
        × (counted.was ≡ comment_count (record_in file.now)) × (counted.is ≡ comments_in file.now)) }
    ensures none { IfNone result (has_record file.now ≡ false) }
{
    let (front, sauce) = cut_record(file)?;
    let was = sauce.comment_count();
    Some(Counted {
        was,
        is: comments_for(front, was),
    })
}

/// States this number of comments in the record at the end of a file (Comments).
fn set_comments(file: &mut [u8], count: u8)
    requires { 128 ≤ length file.old }
    ensures { file.new ≡ with_record (with_comments count (record_in file.old)) file.old }
{
    let start = file.len() - RECORD_SIZE;
    overwrite(file, start + COMMENTS, &[count]);
}

impl<'a> Draft<'a> {
    /// States this number of comments in the record.
    fn state_comments(&mut self, count: u8)
        requires { 128 ≤ length self.old.file }
        ensures { self.new
            ≡ draft_of (with_record (with_comments count (record_in self.old.file)) self.old.file) self.old.room }
    {
        set_comments(&mut self.memory[..self.used], count);
    }

    /// Has the record of a file that has one count the comments that are before it, if only one number of
    /// them is possible. Returns the number that it counted, and the one that it counts now.
    pub(crate) fn recount(&mut self) -> Option<Reset>
        ensures file { self.new.file ≡ recounted self.old.file }
        ensures set { result ≡ comments_set self.old.file }
        ensures memory { memory_of self.new ≡ memory_of self.old }
    {
        let counted = counted_in(self.file())?;
        self.state_comments(counted.is);
        Some(Reset {
            was: u32::from(counted.was),
            is: u32::from(counted.is),
        })
    }
}
