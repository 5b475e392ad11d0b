//! The disk of the system.
ghost use Rattle.std.specs.Prelude.{⊤};

use crate::disk::{Disk, Found, Identity, Kind, Made};
use std::alloc::Global;
use std::fs::{self, File, Metadata, OpenOptions, Permissions};
use std::io::{self, ErrorKind, Write};
use std::os::unix::fs::{MetadataExt, OpenOptionsExt, PermissionsExt};

/// The bits of a mode that `chmod` takes.
const PERMISSIONS: u32 = 0o7777;

/// Those that a new file is made with.
const ACCESS: u32 = 0o777;

/// The disk of the system. What its files hold is not known to a proof.
#[derive(Clone, Copy)]
pub struct System<'a> {
    rt: &'a HostRuntime,
}

impl<'a> System<'a> {
    /// The disk of this system.
    pub fn new(rt: &'a HostRuntime) -> System<'a> {
        System { rt }
    }
}

/// Which file it is.
fn identity_of(about: &Metadata) -> Identity {
    Identity {
        device: about.dev(),
        inode: about.ino(),
    }
}

/// What a look finds.
fn found_of(about: &Metadata) -> Found {
    let kind = if about.is_file() {
        Kind::File
    } else if about.is_dir() {
        Kind::Folder
    } else {
        Kind::Special
    };
    Found {
        identity: identity_of(about),
        kind,
        permissions: about.mode() & PERMISSIONS,
    }
}

/// Nothing if an error says that there is nothing of that name.
fn if_any<T: Drop>(outcome: io::Result<T>) -> io::Result<Option<T>> {
    match outcome {
        Ok(found) => Ok(Some(found)),
        Err(error) if error.kind() == ErrorKind::NotFound => Ok(None),
        Err(error) => Err(error),
    }
}

impl System<'_> {
    /// A name with the links of its folder followed.
    fn resolve_folder(&self, alloc: Global, name: &str) -> io::Result<String> {
        let (folder, last) = match name.rsplit_once('/') {
            Some(("", last)) => ("/", last),
            Some((folder, last)) => (folder, last),
            None => (".", name),
        };
        let mut own = fs::canonicalize(self.rt, folder)?.into_string();
        if !own.as_str().ends_with('/') {
            own.push('/')?;
        }
        own.push_str(last)?;
        Ok(own)
    }
}

impl Disk for System<'_> {
    type File = File;

    ghost did = { λ _ _ _ _. ⊤ };

    ghost leads = { λ _ _ _. ⊤ };

    ghost sees = { λ _ _ _. ⊤ };

    ghost fails = { λ _ _ _. ⊤ };

    ghost opens = { λ _ _. ⊤ };

    ghost identifies = { λ _ _ _. ⊤ };

    fn resolve(&self, alloc: Global, name: &str) -> io::Result<String> {
        match if_any(fs::canonicalize(self.rt, name))? {
            Some(own) => Ok(own.into_string()),
            None => match if_any(fs::symlink_metadata(self.rt, name))? {
                Some(_) => Err(io::Error::from(ErrorKind::NotFound)),
                None => self.resolve_folder(alloc, name),
            },
        }
    }

    fn look(&self, name: &str) -> io::Result<Option<Found>> {
        match if_any(fs::metadata(self.rt, name))? {
            Some(about) => Ok(Some(found_of(&about))),
            None => Ok(None),
        }
    }

    fn try_open(&self, name: &str) -> io::Result<()> {
        OpenOptions::new().write(true).open(self.rt, name)?;
        Ok(())
    }

    fn make_folder(&mut self, name: &str) -> io::Result<()> {
        fs::create_dir_all(self.rt, name)
    }

    fn make(&mut self, name: &str, permissions: u32) -> io::Result<Made<File>> {
        let mut options = OpenOptions::new();
        options
            .write(true)
            .create_new(true)
            .mode(permissions & ACCESS);
        let file = options.open(self.rt, name)?;
        match file.metadata() {
            Ok(about) => Ok(Made {
                file,
                identity: identity_of(&about),
            }),
            Err(error) => {
                let _ = fs::remove_file(self.rt, name);
                Err(error)
            }
        }
    }

    fn write(&mut self, file: &mut File, bytes: &[u8]) -> io::Result<()> {
        file.write_all(bytes)
    }

    fn permit(&mut self, file: &mut File, permissions: u32) -> io::Result<()> {
        file.set_permissions(Permissions::from_mode(permissions))
    }

    fn sync(&mut self, file: &mut File) -> io::Result<()> {
        file.sync_all()
    }

    fn rename(&mut self, from: &str, to: &str) -> io::Result<()> {
        fs::rename(self.rt, from, to)
    }

    fn remove(&mut self, name: &str) -> io::Result<()> {
        fs::remove_file(self.rt, name)
    }
}
