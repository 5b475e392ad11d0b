//! Fields of a record that are set.

ghost use Rattle.std.specs.Prelude.{◌≡◌, ◌≤◌, length};
ghost use Rattle.ans_sauce.specs.Found.{record_in};
ghost use Rattle.ans_sauce.specs.Fields.{with_file_size, with_lines, with_non_blink, with_record};
ghost use Rattle.ans_mend.specs.Drafts.{draft_of};

use crate::draft::Draft;

impl<'a> Draft<'a> {
    /// States this number of lines in the record (TInfo2).
    pub(crate) fn state_lines(&mut self, lines: u16)
        requires { 128 ≤ length self.old.file }
        ensures { self.new
            ≡ draft_of (with_record (with_lines lines (record_in self.old.file)) self.old.file) self.old.room }
    {
        ans_sauce::state_lines(&mut self.memory[..self.used], lines);
    }

    /// Sets the non-blink flag of the record, or clears it (TFlags, bit 0).
    pub(crate) fn state_non_blink(&mut self, on: bool)
        requires { 128 ≤ length self.old.file }
        ensures { self.new
            ≡ draft_of (with_record (with_non_blink on (record_in self.old.file)) self.old.file) self.old.room }
    {
        ans_sauce::state_non_blink(&mut self.memory[..self.used], on);
    }

    /// States this size of the file without its comments and its record, in bytes (FileSize).
    pub(crate) fn state_file_size(&mut self, size: u32)
        requires { 128 ≤ length self.old.file }
        ensures { self.new
            ≡ draft_of (with_record (with_file_size size (record_in self.old.file)) self.old.file) self.old.room }
    {
        ans_sauce::state_file_size(&mut self.memory[..self.used], size);
    }
}
