//! The width that a record states.

ghost use Rattle.std.specs.Prelude.{◌≡◌, ◌≤◌, length, IfNone, IfSome, true, false};
ghost use Rattle.ans_model.specs.File.Record.{stated_width};
ghost use Rattle.ans_model.specs.File.Refusals.{has_record};
ghost use Rattle.ans_mend.specs.Columns.{columns_set, with_columns, with_width};
ghost use Rattle.ans_mend.specs.Drafts.{draft_of, memory_of};
ghost use Rattle.ans_sauce.specs.Fields.{with_record};
ghost use Rattle.ans_sauce.specs.Found.{record_in};

use crate::draft::Draft;
use ans_sauce::fields::{RECORD_SIZE, TINFO_1};
use ans_sauce::{Reset, cut_record, overwrite};

/// The width that the record of a file states, in columns. None if there is no record.
fn stated_width(file: &[u8]) -> Option<u32>
    ensures some { IfSome result (λ width. (has_record file.now ≡ true)
        × (width ≡ stated_width (record_in file.now))) }
    ensures none { IfNone result (has_record file.now ≡ false) }
{
    let (_, sauce) = cut_record(file)?;
    match sauce.tinfo(1) {
        0 => Some(80),
        width => Some(u32::from(width)),
    }
}

/// States this width in the record at the end of a file, in columns (TInfo1).
fn set_width(file: &mut [u8], width: u16)
    requires { 128 ≤ length file.old }
    ensures { file.new ≡ with_record (with_width width (record_in file.old)) file.old }
{
    let start = file.len() - RECORD_SIZE;
    overwrite(file, start + TINFO_1, &width.to_le_bytes());
}

impl<'a> Draft<'a> {
    /// States this width in the record, in columns (TInfo1).
    fn state_width(&mut self, width: u16)
        requires { 128 ≤ length self.old.file }
        ensures { self.new
            ≡ draft_of (with_record (with_width width (record_in self.old.file)) self.old.file) self.old.room }
    {
        set_width(&mut self.memory[..self.used], width);
    }

    /// States this width in the record of a file that has one. Returns the width that was stated, and this
    /// one, in columns.
    pub(crate) fn state_columns(&mut self, width: u16) -> Option<Reset>
        ensures file { self.new.file ≡ with_columns width self.old.file }
        ensures set { result ≡ columns_set width self.old.file }
        ensures memory { memory_of self.new ≡ memory_of self.old }
    {
        let was = stated_width(self.file())?;
        self.state_width(width);
        Some(Reset {
            was,
            is: u32::from(width),
        })
    }
}
