//! What a folder lists.

ghost use Rattle.std.specs.Prelude.{◌≡◌};
ghost use Rattle.ans_folders.specs.Paths.{is_folder};

use std::io::ErrorKind;

/// Why something in a folder cannot be read.
#[derive(Debug, Clone, Copy, PartialEq, Eq)]
pub enum Unread {
    /// Its name is not UTF-8.
    NameNotText,
    /// The system reports an error of this kind.
    Failed(ErrorKind),
}

/// What an entry of a folder is.
#[derive(Debug, Clone, Copy, PartialEq, Eq)]
pub enum Kind {
    /// A file, or a link to a file.
    File,
    /// A folder.
    Folder,
    /// Neither, such as a pipe or a device; or a link to anything but a file.
    Other,
    /// This is not known, for this reason.
    Unread(Unread),
}

impl Kind {
    /// Whether it is a folder.
    pub fn is_folder(self) -> bool
        ensures { result ≡ is_folder self }
    {
        match self {
            Kind::Folder => true,
            Kind::File | Kind::Other | Kind::Unread(_) => false,
        }
    }
}

/// An entry of a folder.
#[derive(Drop)]
pub struct Entry {
    /// Its name in the folder; nothing if that is not UTF-8.
    pub name: String,
    /// What it is.
    pub kind: Kind,
}
