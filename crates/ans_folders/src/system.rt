//! The folders of the system that runs the program.

ghost use Rattle.std.specs.Prelude.{⊤};

use crate::entry::{Entry, Kind, Unread};
use crate::folders::Folders;
use std::alloc::Global;
use std::fs::{self, DirEntry};
use std::io::{self, ErrorKind};

/// The folders of the system. What they list is not known.
#[derive(Clone, Copy)]
pub struct SystemFolders<'a> {
    rt: &'a HostRuntime,
}

impl<'a> SystemFolders<'a> {
    /// The folders of the system of this runtime.
    pub fn new(rt: &'a HostRuntime) -> SystemFolders<'a> {
        SystemFolders { rt }
    }

    /// What an entry is.
    fn kind_of(self, entry: &DirEntry) -> Kind {
        let found = match entry.file_type() {
            Ok(found) => found,
            Err(error) => return Kind::Unread(Unread::Failed(error.kind())),
        };
        if found.is_file() {
            Kind::File
        } else if found.is_dir() {
            Kind::Folder
        } else if found.is_symlink() {
            self.kind_of_link(entry)
        } else {
            Kind::Other
        }
    }

    /// A file if the link is to one.
    fn kind_of_link(self, link: &DirEntry) -> Kind {
        match fs::metadata(self.rt, link.path()) {
            Ok(found) if found.is_file() => Kind::File,
            _ => Kind::Other,
        }
    }

    /// An entry as the system lists it. An error that is not about its name fails the listing.
    fn entry(self, alloc: Global, listed: io::Result<DirEntry>) -> io::Result<Entry> {
        match listed {
            Ok(found) => {
                let name = String::from_str(alloc, found.file_name())?;
                let kind = self.kind_of(&found);
                Ok(Entry { name, kind })
            }
            Err(error) if error.kind() == ErrorKind::InvalidFilename => Ok(Entry {
                name: String::new(alloc),
                kind: Kind::Unread(Unread::NameNotText),
            }),
            Err(error) => Err(error),
        }
    }
}

impl Folders for SystemFolders<'_> {
    ghost lists = { λ _ _ _. ⊤ };

    ghost fails = { λ _ _ _. ⊤ };

    fn list(self, alloc: Global, folder: &str) -> io::Result<Vec<Entry>> {
        let mut entries = Vec::new(alloc);
        for listed in fs::read_dir(self.rt, folder)? {
            let entry = self.entry(alloc, listed)?;
            entries.push(entry)?;
        }
        Ok(entries)
    }
}
