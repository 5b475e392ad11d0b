//! Why a file is not written.
ghost use Rattle.std.specs.Prelude.{◌≡◌};
ghost use Rattle.std.specs.IoError.{error_kind};
ghost use Rattle.ans_save.specs.Reasons.{error_text, reason_in, reason_of, reason_text, unopened_of};
ghost use Rattle.ans_save.specs.Reasons.{unwritable_of, unwritten_of};

use std::alloc::AllocError;
use std::io::{self, ErrorKind};

/// The system's reason.
#[derive(Debug, Clone, Copy, PartialEq, Eq)]
pub enum Reason {
    /// There is no such file, or no folder for it.
    Missing,
    /// It is not permitted.
    Denied,
    /// It is a folder.
    Folder,
    /// What should be a folder is none.
    NoFolder,
    /// It is neither a file nor a folder, but a device or the like.
    Special,
    /// No room is left for it.
    Full,
    /// Nothing may be written there.
    ReadOnly,
    /// All names for a new file beside it are taken.
    Taken,
    /// Another reason.
    Other,
}

impl Reason {
    /// The reason by the kind of the system's error.
    fn of(kind: ErrorKind) -> Reason
        ensures { result ≡ reason_of kind }
    {
        match kind {
            ErrorKind::NotFound => Reason::Missing,
            ErrorKind::PermissionDenied => Reason::Denied,
            ErrorKind::IsADirectory => Reason::Folder,
            ErrorKind::NotADirectory | ErrorKind::AlreadyExists => Reason::NoFolder,
            ErrorKind::StorageFull | ErrorKind::QuotaExceeded => Reason::Full,
            ErrorKind::ReadOnlyFilesystem => Reason::ReadOnly,
            _ => Reason::Other,
        }
    }

    /// The reason in words, for after what is said of the file.
    pub fn text(self) -> &'static str
        ensures { result.now ≡ reason_text self }
    {
        match self {
            Reason::Missing => "no such file or folder",
            Reason::Denied => "permission denied",
            Reason::Folder => "is a folder",
            Reason::NoFolder => "not a folder",
            Reason::Special => "not a regular file",
            Reason::Full => "no room left",
            Reason::ReadOnly => "read-only file system",
            Reason::Taken => "no free name for a new file beside it",
            Reason::Other => "the system refuses it",
        }
    }
}

/// Why a file is not written. What is under its target stays as it is.
#[derive(Debug, Clone, Copy, PartialEq, Eq)]
pub enum SaveError {
    /// Standard input was to be written over, or into a folder, and it has no name.
    NoName,
    /// The target cannot be opened or looked at, or it is no file; or the input cannot be looked at.
    Unopened(Reason),
    /// The target is an input of this run.
    IsInput,
    /// The target was written before in this run.
    WrittenBefore,
    /// The target may not be written.
    NotWritable,
    /// The folder or the new file could not be made, or the new file not be written, flushed or renamed.
    Unwritten(Reason),
    /// Memory ran out.
    Memory,
}

impl SaveError {
    /// The error of a look that failed.
    pub(crate) fn unopened(error: &io::Error) -> SaveError
        ensures { result ≡ unopened_of (error_kind error.now) }
    {
        match error.kind() {
            ErrorKind::OutOfMemory => SaveError::Memory,
            kind => SaveError::Unopened(Reason::of(kind)),
        }
    }

    /// The error of a file that does not open for writing.
    pub(crate) fn unwritable(error: &io::Error) -> SaveError
        ensures { result ≡ unwritable_of (error_kind error.now) }
    {
        match error.kind() {
            ErrorKind::PermissionDenied => SaveError::NotWritable,
            _ => SaveError::unopened(error),
        }
    }

    /// The error of a change that failed.
    pub(crate) fn unwritten(kind: ErrorKind) -> SaveError
        ensures { result ≡ unwritten_of kind }
    {
        match kind {
            ErrorKind::OutOfMemory => SaveError::Memory,
            _ => SaveError::Unwritten(Reason::of(kind)),
        }
    }

    /// The system's reason, if there is one.
    pub fn reason(self) -> Option<Reason>
        ensures { result ≡ reason_in self }
    {
        match self {
            SaveError::Unopened(reason) | SaveError::Unwritten(reason) => Some(reason),
            _ => None,
        }
    }

    /// What is said after a file's name, before the reason if there is one.
    pub fn text(self) -> &'static str
        ensures { result.now ≡ error_text self }
    {
        match self {
            SaveError::NoName => "standard input has no name",
            SaveError::Unopened(_) => "cannot open the file",
            SaveError::IsInput => "is an input",
            SaveError::WrittenBefore => "has been written before",
            SaveError::NotWritable => "no write permission",
            SaveError::Unwritten(_) => "cannot write the file",
            SaveError::Memory => "not enough memory",
        }
    }
}

impl From<AllocError> for SaveError {
    ghost use Rattle.ans_save.specs.declared.save_error.SaveError.TheVariants.{Memory};

    ghost from_gives = { λ _ error. error ≡ Memory };

    fn from(_: AllocError) -> SaveError {
        SaveError::Memory
    }
}
