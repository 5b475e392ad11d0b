//! Folders in memory.

ghost use Rattle.std.specs.Prelude.{⊤};

use ans_folders::{Entry, Folders, Kind};
use std::alloc::Global;
use std::io::{self, ErrorKind};

/// A folder in memory: its path, and the names that it lists, with what each is.
pub(crate) type Folder<'a> = (&'a str, &'a [(&'a str, Kind)]);

/// Folders in memory. Any other has no entry that can be listed.
#[derive(Clone, Copy)]
pub(crate) struct Shelf<'a> {
    pub(crate) folders: &'a [Folder<'a>],
}

fn entries_of(alloc: Global, names: &[(&str, Kind)]) -> io::Result<Vec<Entry>> {
    let mut entries = Vec::new(alloc);
    for (name, kind) in names {
        let name = String::from_str(alloc, name)?;
        entries.push(Entry { name, kind: *kind })?;
    }
    Ok(entries)
}

impl Folders for Shelf<'_> {
    ghost lists = { λ _ _ _. ⊤ };

    ghost fails = { λ _ _ _. ⊤ };

    fn list(self, alloc: Global, folder: &str) -> io::Result<Vec<Entry>> {
        for (path, names) in self.folders {
            if *path == folder {
                return entries_of(alloc, names);
            }
        }
        Err(io::Error::from(ErrorKind::PermissionDenied))
    }
}
