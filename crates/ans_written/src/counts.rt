//! How many files became what.
ghost use Rattle.std.specs.Prelude.{◌≡◌, ◌<◌, ◌≤◌, ◌++◌, [], ◌∷◌, List};
ghost use Rattle.ans_write.specs.Puts.{Puts};
ghost use Rattle.ans_report.specs.Message.{message_line};
ghost use Rattle.ans_written.specs.Outcomes.{counts_of, counts_status, counts_text, files_word, unwritten_note};
ghost use Rattle.ans_written.specs.declared.counts.FileOutcome.{FileOutcome};

use ans_write::Outbox;
use std::io::Write;

/// What became of a file that was to be written.
#[derive(Debug, Clone, Copy, PartialEq, Eq)]
pub enum FileOutcome {
    /// A new file was written, and it differs from the old one.
    Changed,
    /// The new file is the old one: it was copied, or left as it is.
    Unchanged,
    /// A new file would have been written, which differs from the old one. Nothing is written in this run.
    ToChange,
    /// The old file would have been copied. Nothing is written in this run.
    ToCopy,
    /// There is no new file.
    NotDone,
    /// There is a new file, and it could not be written.
    NotWritten,
    /// The old file was not read.
    NotRead,
}

/// How many files there are, and how many became what.
#[derive(Debug, Clone, Copy, PartialEq, Eq)]
pub struct FileCounts {
    /// How many there are.
    pub files: usize,
    /// How many differ from the old one, written or not.
    pub changed: usize,
    /// How many are the old one.
    pub unchanged: usize,
    /// How many have no new file.
    pub not_done: usize,
    /// How many could not be written.
    pub not_written: usize,
    /// How many were not read.
    pub not_read: usize,
    /// How many would have been written in a run that writes nothing.
    pub to_write: usize,
}

impl FileCounts {
    /// No file.
    pub const NONE: FileCounts = FileCounts {
        files: 0,
        changed: 0,
        unchanged: 0,
        not_done: 0,
        not_written: 0,
        not_read: 0,
        to_write: 0,
    };

    /// Counts one file more, which became this.
    pub fn add(&mut self, outcome: FileOutcome)
        requires room { self.old.files < usize.MAX }
        requires changed { self.old.changed ≤ self.old.files }
        requires unchanged { self.old.unchanged ≤ self.old.files }
        requires not_done { self.old.not_done ≤ self.old.files }
        requires not_written { self.old.not_written ≤ self.old.files }
        requires not_read { self.old.not_read ≤ self.old.files }
        requires to_write { self.old.to_write ≤ self.old.files }
        ensures { (before : List FileOutcome) → self.old ≡ counts_of before
            → self.new ≡ counts_of (before ++ outcome ∷ []) }
    {
        self.files += 1;
        match outcome {
            FileOutcome::Changed => self.changed += 1,
            FileOutcome::Unchanged => self.unchanged += 1,
            FileOutcome::ToChange => {
                self.changed += 1;
                self.to_write += 1;
            }
            FileOutcome::ToCopy => {
                self.unchanged += 1;
                self.to_write += 1;
            }
            FileOutcome::NotDone => self.not_done += 1,
            FileOutcome::NotWritten => self.not_written += 1,
            FileOutcome::NotRead => self.not_read += 1,
        }
    }

    /// The exit status: 2 if a file was not read or not written; else 1 if one has no new file, or would have been
    /// written in a run that writes nothing; else 0.
    pub fn status(&self) -> u8
        ensures { result ≡ counts_status self.now }
    {
        if self.not_read > 0 || self.not_written > 0 {
            2
        } else if self.not_done > 0 || self.to_write > 0 {
            1
        } else {
            0
        }
    }
}

fn files_word(files: usize) -> &'static [u8]
    ensures { result.now ≡ files_word files }
{
    if files == 1 { b" file: " } else { b" files: " }
}

/// Puts that nothing was written, if anything would have been.
fn put_unwritten_note<W: Write>(out: &mut Outbox<'_, W>, to_write: usize)
    ensures { Puts W.contents out.old out.new (unwritten_note to_write) }
{
    if to_write > 0 {
        out.put(b"; nothing was written");
    }
}

/// Puts the line of standard error that says how many files became what.
pub fn put_file_counts<W: Write>(out: &mut Outbox<'_, W>, counts: &FileCounts)
    ensures { Puts W.contents out.old out.new (message_line (counts_text counts.now)) }
{
    out.put(b"anscheck: ");
    out.put_decimal(counts.files as u64);
    out.put(files_word(counts.files));
    out.put_decimal(counts.changed as u64);
    out.put(b" changed, ");
    out.put_decimal(counts.unchanged as u64);
    out.put(b" unchanged, ");
    out.put_decimal(counts.not_done as u64);
    out.put(b" not done, ");
    out.put_decimal(counts.not_written as u64);
    out.put(b" not written, ");
    out.put_decimal(counts.not_read as u64);
    out.put(b" not read");
    put_unwritten_note(out, counts.to_write);
    out.put(b"\n");
}
