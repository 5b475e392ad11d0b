//! How the program ends: its exit status, and what it says on standard error.

ghost use Rattle.std.specs.Prelude.{◌≡◌, option_map};
ghost use Rattle.ans_check.specs.Ending.{ending_message, ending_of_mending, ending_of_redrawing, ending_of_words};
ghost use Rattle.ans_check.specs.Ending.{ending_of_checking, ending_status};
ghost use Rattle.ans_check.specs.Run.{status_of};

use crate::check_file::Checked;
use crate::errors::RunError;
use ans_fix::Unhelped;
use ans_mend::Mended;
use ans_options::{Mends, Mistake, WordsError};
use ans_redraw::{Redrawn, Unredrawn};
use ans_save::SaveError;
use ans_table::{Counts, Unopened};
use ans_written::FileCounts;
use clap::error::ErrorKind;

/// The exit status of what a run returned: 0 where the file passes, 1 where it is refused, and 2
/// where there is no answer.
pub fn status(answer: &Result<bool, RunError>) -> u8
    ensures { result ≡ status_of answer.now }
{
    match answer {
        Ok(true) => 0,
        Ok(false) => 1,
        Err(_) => 2,
    }
}

/// How the program ends.
#[derive(Debug, Clone, Copy, PartialEq, Eq)]
pub enum Ending {
    /// A run has returned this.
    Run(Result<bool, RunError>),
    /// A check refused the file for a fault of what is unknown of the start, F22 to F25. From the cleared start the
    /// file may pass, and `why` says more.
    MayPassCleared,
    /// Help or the version was asked for: `clap`'s text goes to standard output, or what a fault or a
    /// note means.
    Help,
    /// The words are rejected: `clap`'s text goes to standard error.
    Usage,
    /// The command line cannot be read: a word is not text, or memory ran out.
    UnreadableWords,
    /// The file that the words name cannot be opened, for this reason.
    UnopenedFile(Unopened),
    /// What is wrong with several files was written: how many came out how.
    Explained(Counts),
    /// The words name `-` among several files of `why`.
    InputAmong,
    /// A table was written: how many of its files came out how.
    Table(Counts),
    /// The words name `-` among the files of a table.
    NamedInput,
    /// The names for a table could not be read to their end. The rows of those that were read are written.
    UnreadNames,
    /// A file was mended and written, and this was changed of it.
    Mended(Mended),
    /// The file is not mended by what was asked for, for this reason, and nothing was written. These flags would not
    /// help it.
    NotMended(Mends, Unhelped),
    /// The words contradict themselves.
    Mistaken(Mistake),
    /// A mended or redrawn file would go to a terminal.
    ToTerminal,
    /// Files were mended or redrawn to be written: how many became what.
    Filed(FileCounts),
    /// A file was mended or redrawn, and could not be written, for this reason.
    Unsaved(SaveError),
    /// A file was redrawn and written, and this was changed of it.
    Redrawn(Redrawn),
    /// The file is not redrawn, for this reason, and nothing was written.
    NotRedrawn(Unredrawn),
}

impl Ending {
    /// How the program ends where its words give no options: with `clap`'s text, on standard output
    /// where help was asked for and on standard error where the words are rejected; or without it
    /// where memory ran out.
    pub fn of_words(error: &WordsError) -> Ending
        ensures { result ≡ ending_of_words error.now }
    {
        let WordsError::Clap(error) = error else {
            return Ending::UnreadableWords;
        };
        match error.kind() {
            ErrorKind::DisplayHelp | ErrorKind::DisplayVersion => Ending::Help,
            ErrorKind::OutOfMemory => Ending::UnreadableWords,
            _ => Ending::Usage,
        }
    }

    /// How the program ends at what came of checking a file.
    pub(crate) fn of_checking(answer: &Result<Checked, RunError>) -> Ending
        ensures { result ≡ ending_of_checking answer.now }
    {
        match answer {
            Ok(Checked::Pass) => Ending::Run(Ok(true)),
            Ok(Checked::Refused) => Ending::Run(Ok(false)),
            Ok(Checked::RefusedByStart) => Ending::MayPassCleared,
            Err(error) => Ending::Run(Err(*error)),
        }
    }

    /// How the program ends at what came of mending a file, for which this was asked.
    pub fn of_mending(asked: &Mends, answer: &Result<Result<Mended, Unhelped>, RunError>) -> Ending
        ensures { result ≡ ending_of_mending asked.now answer.now }
    {
        match answer {
            Ok(Ok(mended)) => Ending::Mended(*mended),
            Ok(Err(unhelped)) => Ending::NotMended(*asked, *unhelped),
            Err(error) => Ending::Run(Err(*error)),
        }
    }

    /// How the program ends at what came of redrawing a file.
    pub fn of_redrawing(answer: &Result<Result<Redrawn, Unredrawn>, RunError>) -> Ending
        ensures { result ≡ ending_of_redrawing answer.now }
    {
        match answer {
            Ok(Ok(redrawn)) => Ending::Redrawn(*redrawn),
            Ok(Err(reason)) => Ending::NotRedrawn(*reason),
            Err(error) => Ending::Run(Err(*error)),
        }
    }

    /// The exit status: that of the run or of the counts of a table or of files that are written, 0 for help and for a
    /// mended or redrawn file, 1 for one that is neither and for one that may pass from the cleared start, and 2 where
    /// no run began, where the names for a table were not all read, and for a file that could not be written.
    pub fn status(&self) -> u8
        ensures { result ≡ ending_status self.now }
    {
        match self {
            Ending::Run(answer) => status(answer),
            Ending::Help | Ending::Mended(_) | Ending::Redrawn(_) => 0,
            Ending::MayPassCleared => 1,
            Ending::NotMended(..) | Ending::NotRedrawn(_) => 1,
            Ending::Table(counts) | Ending::Explained(counts) => counts.status(),
            Ending::Usage | Ending::UnreadableWords | Ending::UnopenedFile(_) => 2,
            Ending::NamedInput | Ending::InputAmong | Ending::UnreadNames => 2,
            Ending::Mistaken(_) | Ending::ToTerminal | Ending::Unsaved(_) => 2,
            Ending::Filed(counts) => counts.status(),
        }
    }

    /// Why there is no answer, for standard error after `anscheck: `, without the name and the system's reason; or that
    /// `why` says more of a file that a check refuses for a fault of the start. There is none if the file has another
    /// answer, none if `clap`'s text says it, none for a table and for several files, whose counts are reported, and
    /// none for mending and redrawing, which report more. Of a file that could not be written it is the cause.
    pub fn message(&self) -> Option<&'static str>
        ensures { option_map (λ text. text.now) result ≡ ending_message self.now }
    {
        match self {
            Ending::Run(Err(error)) => Some(error.text()),
            Ending::Run(Ok(_)) | Ending::Help | Ending::Usage | Ending::Table(_) => None,
            Ending::Explained(_) | Ending::Mended(_) | Ending::NotMended(..) => None,
            Ending::Redrawn(_) | Ending::NotRedrawn(_) => None,
            Ending::MayPassCleared => Some("it may pass on a cleared screen: see anscheck why"),
            Ending::UnreadableWords => Some("cannot read the command line"),
            Ending::UnopenedFile(reason) => Some(reason.text()),
            Ending::NamedInput => {
                Some("table takes no '-': without FILE it reads file names from standard input")
            }
            Ending::InputAmong => Some("'-' is standard input, and cannot be one of several files"),
            Ending::UnreadNames => Some("cannot read the names"),
            Ending::Mistaken(mistake) => Some(mistake.text()),
            Ending::ToTerminal => {
                Some("standard output is a terminal: give -o FILE, or pipe it")
            }
            Ending::Filed(_) => None,
            Ending::Unsaved(error) => Some(error.text()),
        }
    }
}
