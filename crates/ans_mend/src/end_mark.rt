//! The end mark after the content.

ghost use Rattle.std.specs.Prelude.{◌≡◌, ◌≤◌};
ghost use Rattle.std.specs.List.{list_any};
ghost use Rattle.ans_model.specs.File.Layout.{is_end_mark};
ghost use Rattle.ans_model.specs.File.Refusals.{has_record};
ghost use Rattle.ans_sauce.specs.Found.{body_in};
ghost use Rattle.ans_mend.specs.Drafts.{memory_of};
ghost use Rattle.ans_mend.specs.EndMark.{end_mark_put, with_end_mark};

use crate::draft::Draft;
use ans_sauce::fields::END_MARK;
use ans_sauce::{body_before, cut_content, cut_record};

fn has_end_mark(body: &[u8]) -> bool
    ensures { result ≡ list_any is_end_mark body.now }
{
    let (content, _) = cut_content(body);
    content.len() != body.len()
}

/// Where the end mark is to be added, in bytes from the file's start.
fn place_of_end_mark(file: &[u8]) -> Option<usize>
    ensures { result ≡ end_mark_put file.now }
{
    let (front, sauce) = cut_record(file)?;
    let body = body_before(front, &sauce);
    if has_end_mark(body) {
        return None;
    }
    Some(body.len())
}

impl<'a> Draft<'a> {
    /// Adds an end mark after the content of a file that has a record, before the comments that the
    /// record counts, if there is none (SAUCE 00.5, file layout). Returns its offset, in bytes from the
    /// file's start. The draft needs room for a byte.
    pub(crate) fn put_end_mark(&mut self) -> Option<usize>
        requires { 1 ≤ self.old.room }
        ensures file { self.new.file ≡ with_end_mark self.old.file }
        ensures offset { result ≡ end_mark_put self.old.file }
        ensures memory { memory_of self.new ≡ memory_of self.old }
    {
        let Some(place) = place_of_end_mark(self.file()) else {
            return None;
        };
        self.insert(place, END_MARK);
        Some(place)
    }
}
