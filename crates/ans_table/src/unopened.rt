//! Why a file was not opened.

ghost use Rattle.std.specs.Prelude.{◌≡◌};
ghost use Rattle.std.specs.IoError.{error_kind};
ghost use Rattle.ans_table.specs.Unopened.{is_missing, plain_text, reason_text, unopened_of};

use std::io::{self, ErrorKind};

/// Why a file was not opened, by the system's error.
#[derive(Debug, Clone, Copy, PartialEq, Eq)]
pub enum Unopened {
    /// There is no file of this name.
    Missing,
    /// It may not be read.
    Denied,
    /// It is a folder.
    Folder,
    /// Another reason.
    Other,
}

impl Unopened {
    /// The reason by the kind of the system's error.
    pub fn of(error: &io::Error) -> Unopened
        ensures { result ≡ unopened_of (error_kind error.now) }
    {
        match error.kind() {
            ErrorKind::NotFound => Unopened::Missing,
            ErrorKind::PermissionDenied => Unopened::Denied,
            ErrorKind::IsADirectory => Unopened::Folder,
            _ => Unopened::Other,
        }
    }

    /// Whether there is no file of this name.
    pub fn is_missing(self) -> bool
        ensures { result ≡ is_missing self }
    {
        self == Unopened::Missing
    }

    /// The reason in words, for after a file's name.
    pub fn reason(self) -> &'static str
        ensures { result.now ≡ reason_text self }
    {
        match self {
            Unopened::Missing => "no such file",
            Unopened::Denied => "permission denied",
            Unopened::Folder => "is a folder",
            Unopened::Other => "cannot open the file",
        }
    }

    /// What is said if neither the name nor the reason is.
    pub fn text(self) -> &'static str
        ensures { result.now ≡ plain_text self }
    {
        match self {
            Unopened::Folder => "cannot read the file",
            Unopened::Missing | Unopened::Denied | Unopened::Other => "cannot open the file",
        }
    }
}
