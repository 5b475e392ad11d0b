//! How many files have each outcome.

ghost use Rattle.std.specs.Prelude.{◌≡◌, ◌+◌, ◌<◌, ◌≤◌, ◌++◌, [], ◌∷◌, List};
ghost use Rattle.ans_write.specs.Puts.{Puts};
ghost use Rattle.ans_report.specs.Message.{message_line};
ghost use Rattle.ans_table.specs.Counting.{counts_of, counts_status, counts_text, files_word, counts_as_pass};
ghost use Rattle.ans_table.specs.Counting.{is_cleared, is_refused, is_unread, one_if};
ghost use Rattle.ans_table.specs.declared.counts.Outcome.{Outcome};

use ans_write::Outbox;
use std::io::Write;

/// The outcome of a file.
#[derive(Debug, Clone, Copy, PartialEq, Eq)]
pub enum Outcome {
    /// It passes from each start: it needs nothing.
    Pass,
    /// It passes from the cleared start, and needs a part of it.
    Cleared,
    /// It is refused.
    Refused,
    /// It was not read.
    Unread,
}

/// How many files there are, and how many with each outcome.
#[derive(Debug, Clone, Copy, PartialEq, Eq)]
pub struct Counts {
    pub files: usize,
    pub pass: usize,
    pub cleared: usize,
    pub refused: usize,
    pub unread: usize,
}

impl Counts {
    /// No file.
    pub const NONE: Counts = Counts {
        files: 0,
        pass: 0,
        cleared: 0,
        refused: 0,
        unread: 0,
    };

    /// Counts one file more, with this outcome.
    pub fn add(&mut self, outcome: Outcome)
        requires room { self.old.files < usize.MAX }
        requires pass { self.old.pass ≤ self.old.files }
        requires cleared { self.old.cleared ≤ self.old.files }
        requires refused { self.old.refused ≤ self.old.files }
        requires unread { self.old.unread ≤ self.old.files }
        ensures counts { (before : List Outcome) → self.old ≡ counts_of before
            → self.new ≡ counts_of (before ++ outcome ∷ []) }
        ensures files_more { self.new.files ≡ self.old.files + 1 }
        ensures pass_more { self.new.pass ≡ self.old.pass + one_if (counts_as_pass outcome) }
        ensures cleared_more { self.new.cleared ≡ self.old.cleared + one_if (is_cleared outcome) }
        ensures refused_more { self.new.refused ≡ self.old.refused + one_if (is_refused outcome) }
        ensures unread_more { self.new.unread ≡ self.old.unread + one_if (is_unread outcome) }
    {
        self.files += 1;
        match outcome {
            Outcome::Pass => self.pass += 1,
            Outcome::Cleared => self.cleared += 1,
            Outcome::Refused => self.refused += 1,
            Outcome::Unread => self.unread += 1,
        }
    }

    /// The exit status: 0 if every file passes, or passes on a cleared screen; 1 if one is refused and all were read;
    /// and 2 if one was not read.
    pub fn status(&self) -> u8
        ensures { result ≡ counts_status self.now }
    {
        if self.unread > 0 {
            2
        } else if self.refused > 0 {
            1
        } else {
            0
        }
    }
}

fn files_word(files: usize) -> &'static [u8]
    ensures { result.now ≡ files_word files }
{
    if files == 1 { b" file: " } else { b" files: " }
}

/// Puts the line of standard error that says how many files have each outcome.
pub fn put_counts<W: Write>(out: &mut Outbox<'_, W>, counts: &Counts)
    ensures { Puts W.contents out.old out.new (message_line (counts_text counts.now)) }
{
    out.put(b"anscheck: ");
    out.put_decimal(counts.files as u64);
    out.put(files_word(counts.files));
    out.put_decimal(counts.pass as u64);
    out.put(b" pass, ");
    out.put_decimal(counts.cleared as u64);
    out.put(b" pass on a cleared screen, ");
    out.put_decimal(counts.refused as u64);
    out.put(b" refused, ");
    out.put_decimal(counts.unread as u64);
    out.put(b" not read\n");
}
