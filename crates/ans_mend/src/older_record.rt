//! An older record between a drawing and its record.

ghost use Rattle.std.specs.Prelude.{◌≡◌, ◌+◌, ◌≤◌, IfSome, length};
ghost use Rattle.ans_mend.specs.Drafts.{memory_of};
ghost use Rattle.ans_mend.specs.OlderRecord.{is_older_record, older_gone, without_older};

use crate::draft::Draft;
use crate::keeping::keep;
use crate::tail::is_tail;
use ans_pens::Times;
use ans_sauce::fields::RECORD_SIZE;
use ans_sauce::{body_before, cut_content, cut_record};

/// Whether the bytes are a record of version 00, and after it only what transfers and editors put after a file.
fn is_older_record(bytes: &[u8]) -> bool
    ensures { result ≡ is_older_record bytes.now }
{
    if bytes.len() < RECORD_SIZE {
        return false;
    }
    let (_, tail) = bytes.split_at(RECORD_SIZE);
    bytes.starts_with(b"SAUCE00") && is_tail(tail)
}

/// Where an older record is in a file that has a record, and how many bytes it is with what follows it, if nothing
/// else follows the first end mark, up to the comments that the record counts.
fn older_in(file: &[u8]) -> Option<Times>
    ensures place { result ≡ older_gone file.now }
    ensures within { IfSome result (λ times. times.first + times.count ≤ length file.now) }
{
    let (front, sauce) = cut_record(file)?;
    let (content, rest) = cut_content(body_before(front, &sauce));
    let [_, after @ ..] = rest else {
        return None;
    };
    if !is_older_record(after) {
        return None;
    }
    Some(Times {
        count: after.len(),
        first: content.len() + 1,
    })
}

impl<'a> Draft<'a> {
    /// Removes an older record from a file that has one, if nothing else follows the first end mark, up to the
    /// comments that the record counts. Returns how many bytes were removed, and where the first of them was, in
    /// bytes from the file's start.
    pub(crate) fn drop_older_record(&mut self) -> Option<Times>
        ensures file { self.new.file ≡ without_older self.old.file }
        ensures gone { result ≡ older_gone self.old.file }
        ensures memory { memory_of self.new ≡ memory_of self.old }
    {
        let times = older_in(self.file())?;
        let end = times.first + times.count;
        self.used = keep(self.memory, times.first, end, self.used);
        Some(times)
    }
}
