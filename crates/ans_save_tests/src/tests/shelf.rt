//! A disk in memory, of which one call fails.
ghost use Rattle.std.specs.Prelude.{⊤};

use ans_save::{Disk, Found, Identity, Kind, Made};
use std::alloc::{AllocError, Global};
use std::cell::Cell;
use std::io::{self, ErrorKind};

/// Something that has a name.
#[derive(Drop)]
pub struct Entry {
    pub name: String,
    pub bytes: Vec<u8>,
    pub found: Found,
    pub opens: bool,
}

/// A disk in memory. It writes down what it is asked to change.
#[derive(Drop)]
pub struct Shelf {
    alloc: Global,
    pub entries: Vec<Entry>,
    pub log: String,
    next: u64,
    calls: Cell<u64>,
    fails_at: u64,
}

/// A file that was made.
#[derive(Drop)]
pub struct Open {
    inode: u64,
}

impl Shelf {
    /// An empty disk, of which this call fails, counted from 1.
    pub fn new(alloc: Global, fails_at: u64) -> Shelf {
        Shelf {
            alloc,
            entries: Vec::new(alloc),
            log: String::new(alloc),
            next: 1,
            calls: Cell::new(0),
            fails_at,
        }
    }

    /// How many calls were made.
    pub fn calls(&self) -> u64 {
        self.calls.get()
    }

    /// Puts something there.
    pub fn put(
        &mut self,
        name: &str,
        kind: Kind,
        permissions: u32,
        bytes: &[u8],
    ) -> Result<u64, AllocError> {
        let inode = self.next;
        self.next = inode.saturating_add(1);
        let mut held = Vec::new(self.alloc);
        held.extend_from_slice(bytes)?;
        let entry = Entry {
            name: String::from_str(self.alloc, name)?,
            bytes: held,
            found: Found {
                identity: Identity { device: 1, inode },
                kind,
                permissions,
            },
            opens: permissions & 0o200 != 0,
        };
        self.entries.push(entry)?;
        Ok(inode)
    }

    /// The bytes under a name.
    pub fn bytes(&self, name: &str) -> Option<&[u8]> {
        for entry in &self.entries {
            if entry.name.as_str() == name {
                return Some(entry.bytes.as_slice());
            }
        }
        None
    }

    /// What is under a name.
    pub fn found(&self, name: &str) -> Option<Found> {
        for entry in &self.entries {
            if entry.name.as_str() == name {
                return Some(entry.found);
            }
        }
        None
    }

    /// Counts a call, which may fail.
    fn count(&self) -> io::Result<()> {
        let calls = self.calls.get().saturating_add(1);
        self.calls.set(calls);
        if calls == self.fails_at {
            return Err(io::Error::from(ErrorKind::StorageFull));
        }
        Ok(())
    }

    /// Counts a call that changes the disk, and writes it down.
    fn note(&mut self, deed: &str, name: &str) -> io::Result<()> {
        self.log.push_str(deed)?;
        self.log.push_str(name)?;
        self.log.push_str("\n")?;
        self.count()
    }

    /// Where the entry of this name is.
    fn place(&self, name: &str) -> Option<usize> {
        self.entries
            .iter()
            .position(|entry| entry.name.as_str() == name)
    }

    /// Removes the entry of this name.
    fn take(&mut self, name: &str) -> io::Result<Entry> {
        match self.place(name) {
            Some(place) if place < self.entries.len() => Ok(self.entries.remove(place)),
            _ => Err(io::Error::from(ErrorKind::NotFound)),
        }
    }
}

impl Disk for Shelf {
    type File = Open;

    ghost did = { λ _ _ _ _. ⊤ };

    ghost leads = { λ _ _ _. ⊤ };

    ghost sees = { λ _ _ _. ⊤ };

    ghost fails = { λ _ _ _. ⊤ };

    ghost opens = { λ _ _. ⊤ };

    ghost identifies = { λ _ _ _. ⊤ };

    fn resolve(&self, alloc: Global, name: &str) -> io::Result<String> {
        self.count()?;
        Ok(String::from_str(alloc, name)?)
    }

    fn look(&self, name: &str) -> io::Result<Option<Found>> {
        self.count()?;
        Ok(self.found(name))
    }

    fn try_open(&self, name: &str) -> io::Result<()> {
        self.count()?;
        for entry in &self.entries {
            if entry.name.as_str() == name && !entry.opens {
                return Err(io::Error::from(ErrorKind::PermissionDenied));
            }
        }
        Ok(())
    }

    fn make_folder(&mut self, name: &str) -> io::Result<()> {
        self.note("folder ", name)
    }

    fn make(&mut self, name: &str, permissions: u32) -> io::Result<Made<Open>> {
        self.note("make ", name)?;
        if self.place(name).is_some() {
            return Err(io::Error::from(ErrorKind::AlreadyExists));
        }
        let inode = self.put(name, Kind::File, permissions & 0o755, b"")?;
        Ok(Made {
            file: Open { inode },
            identity: Identity { device: 1, inode },
        })
    }

    fn write(&mut self, file: &mut Open, bytes: &[u8]) -> io::Result<()> {
        let outcome = self.note("write", "");
        for entry in &mut self.entries {
            if entry.found.identity.inode == file.inode {
                let half = bytes.len() / 2;
                let taken = if outcome.is_ok() {
                    bytes
                } else {
                    &bytes[..half]
                };
                entry.bytes.extend_from_slice(taken)?;
            }
        }
        outcome
    }

    fn permit(&mut self, file: &mut Open, permissions: u32) -> io::Result<()> {
        self.note("permit", "")?;
        for entry in &mut self.entries {
            if entry.found.identity.inode == file.inode {
                entry.found.permissions = permissions;
            }
        }
        Ok(())
    }

    fn sync(&mut self, _file: &mut Open) -> io::Result<()> {
        self.note("sync", "")
    }

    fn rename(&mut self, from: &str, to: &str) -> io::Result<()> {
        self.note("rename to ", to)?;
        let mut entry = self.take(from)?;
        let _ = self.take(to);
        entry.name = String::from_str(self.alloc, to)?;
        self.entries.push(entry)?;
        Ok(())
    }

    fn remove(&mut self, name: &str) -> io::Result<()> {
        self.note("remove ", name)?;
        self.take(name)?;
        Ok(())
    }
}
