//! A disk in memory, to which files are written.

ghost use Rattle.std.specs.Prelude.{⊤};

use ans_save::{Disk, Found, Identity, Kind, Made};
use std::alloc::{AllocError, Global};
use std::io::{self, ErrorKind};

/// A file, the bytes of it, and whether it may be written.
#[derive(Drop)]
struct Entry {
    name: String,
    bytes: Vec<u8>,
    inode: u64,
    is_new: bool,
}

/// A disk in memory. Files whose names begin with `locked` may not be written, and none is made beside those whose
/// names begin with `full`.
#[derive(Drop)]
pub(crate) struct Drive {
    alloc: Global,
    entries: Vec<Entry>,
    next: u64,
}

/// A file that was made.
#[derive(Drop)]
pub(crate) struct Open {
    inode: u64,
}

impl Drive {
    /// An empty disk.
    pub(crate) fn new(alloc: Global) -> Drive {
        Drive {
            alloc,
            entries: Vec::new(alloc),
            next: 1,
        }
    }

    /// Adds a file. Returns its number.
    fn add(&mut self, name: &str, bytes: &[u8], is_new: bool) -> Result<u64, AllocError> {
        let inode = self.next;
        self.next = inode.saturating_add(1);
        self.entries.push(Entry {
            name: String::from_str(self.alloc, name)?,
            bytes: bytes.to_vec(self.alloc)?,
            inode,
            is_new,
        })?;
        Ok(inode)
    }

    /// Adds a file that is there before anything is written.
    pub(crate) fn put(&mut self, name: &str, bytes: &[u8]) -> Result<(), AllocError> {
        self.add(name, bytes, false)?;
        Ok(())
    }

    /// How many files were written and stayed.
    pub(crate) fn written(&self) -> usize {
        self.entries.iter().filter(|entry| entry.is_new).count()
    }

    /// The bytes that were written to a name.
    pub(crate) fn bytes_written(&self, name: &str) -> Option<&[u8]> {
        for entry in &self.entries {
            if entry.is_new && entry.name.as_str() == name {
                return Some(entry.bytes.as_slice());
            }
        }
        None
    }

    /// Where the file of this name is.
    fn place(&self, name: &str) -> Option<usize> {
        self.entries
            .iter()
            .position(|entry| entry.name.as_str() == name)
    }

    /// Removes the file of this name.
    fn take(&mut self, name: &str) -> io::Result<Entry> {
        match self.place(name) {
            Some(place) if place < self.entries.len() => Ok(self.entries.remove(place)),
            _ => Err(io::Error::from(ErrorKind::NotFound)),
        }
    }
}

impl Disk for Drive {
    type File = Open;

    ghost did = { λ _ _ _ _. ⊤ };

    ghost leads = { λ _ _ _. ⊤ };

    ghost sees = { λ _ _ _. ⊤ };

    ghost fails = { λ _ _ _. ⊤ };

    ghost opens = { λ _ _. ⊤ };

    ghost identifies = { λ _ _ _. ⊤ };

    fn resolve(&self, alloc: Global, name: &str) -> io::Result<String> {
        Ok(String::from_str(alloc, name)?)
    }

    fn look(&self, name: &str) -> io::Result<Option<Found>> {
        for entry in &self.entries {
            if entry.name.as_str() == name {
                return Ok(Some(Found {
                    identity: Identity {
                        device: 1,
                        inode: entry.inode,
                    },
                    kind: Kind::File,
                    permissions: 0o644,
                }));
            }
        }
        Ok(None)
    }

    fn try_open(&self, name: &str) -> io::Result<()> {
        if name.starts_with("locked") {
            return Err(io::Error::from(ErrorKind::PermissionDenied));
        }
        Ok(())
    }

    fn make_folder(&mut self, name: &str) -> io::Result<()> {
        if name.starts_with("full") {
            return Err(io::Error::from(ErrorKind::StorageFull));
        }
        Ok(())
    }

    fn make(&mut self, name: &str, _permissions: u32) -> io::Result<Made<Open>> {
        if self.place(name).is_some() {
            return Err(io::Error::from(ErrorKind::AlreadyExists));
        }
        let inode = self.add(name, b"", true)?;
        Ok(Made {
            file: Open { inode },
            identity: Identity { device: 1, inode },
        })
    }

    fn write(&mut self, file: &mut Open, bytes: &[u8]) -> io::Result<()> {
        for entry in &mut self.entries {
            if entry.inode == file.inode {
                entry.bytes.extend_from_slice(bytes)?;
            }
        }
        Ok(())
    }

    fn permit(&mut self, _file: &mut Open, _permissions: u32) -> io::Result<()> {
        Ok(())
    }

    fn sync(&mut self, _file: &mut Open) -> io::Result<()> {
        Ok(())
    }

    fn rename(&mut self, from: &str, to: &str) -> io::Result<()> {
        let mut entry = self.take(from)?;
        let _ = self.take(to);
        entry.name = String::from_str(self.alloc, to)?;
        self.entries.push(entry)?;
        Ok(())
    }

    fn remove(&mut self, name: &str) -> io::Result<()> {
        self.take(name)?;
        Ok(())
    }
}
