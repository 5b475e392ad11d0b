//! Why a run has no answer.
ghost use Rattle.std.specs.Prelude.{◌≡◌};
ghost use Rattle.ans_check.specs.Run.{run_error_of, run_error_text};

use ans_table::Unread;
use thiserror::Error;

/// Why a run has no answer.
#[derive(Debug, Clone, Copy, PartialEq, Eq, Error)]
pub enum RunError {
    /// The reader failed.
    #[error("{}", self.text())]
    Read,
    /// The input has more than 16,777,216 bytes.
    #[error("{}", self.text())]
    TooLong,
    /// Memory ran out for the file, for its screen, or for the text of a row as a JSON object.
    #[error("{}", self.text())]
    Memory,
    /// The writer failed.
    #[error("{}", self.text())]
    Write,
}

impl RunError {
    /// The text for the user.
    pub fn text(&self) -> &'static str
        ensures { result.now ≡ run_error_text self.now }
    {
        match self {
            RunError::Read => Unread::ReadFailed.text(),
            RunError::TooLong => Unread::TooLong.text(),
            RunError::Memory => Unread::Memory.text(),
            RunError::Write => "cannot write the report",
        }
    }
}

impl From<Unread> for RunError {
    ghost from_gives = { λ why e. e ≡ run_error_of why };

    /// Why there is no answer where the input was not read.
    fn from(why: Unread) -> RunError {
        match why {
            Unread::TooLong => RunError::TooLong,
            Unread::Memory => RunError::Memory,
            Unread::Unopened(_) | Unread::ReadFailed | Unread::NameNotText => RunError::Read,
        }
    }
}
