//! What is asked of a disk.
ghost use Rattle.std.specs.Prelude.{ℕ, List, Option, string_bytes, IfOk, IfErr};
ghost use Rattle.std.specs.IoError.{error_kind};
ghost use Rattle.std.specs.declared.io.ErrorKind.{ErrorKind};
ghost use Rattle.ans_save.specs.Names.{Name};
ghost use Rattle.ans_save.specs.Deeds.{Deed, fault_of};
ghost use Rattle.ans_save.specs.Deeds.Deed.{Make, MakeFolder, Permit, Remove, Rename, Sync, Write};
ghost use Rattle.ans_save.specs.declared.disk.Found.{Found};
ghost use Rattle.ans_save.specs.declared.disk.Identity.{Identity};

use std::alloc::Global;
use std::io;

/// Which file something is, whatever its names are.
#[derive(Debug, Clone, Copy, PartialEq, Eq)]
pub struct Identity {
    /// The device that it is on.
    pub device: u64,
    /// Its number there.
    pub inode: u64,
}

/// What kind of thing has a name.
#[derive(Debug, Clone, Copy, PartialEq, Eq)]
pub enum Kind {
    /// A file that holds bytes.
    File,
    /// A folder.
    Folder,
    /// A device, a pipe or the like.
    Special,
}

/// What a look finds under a name, links followed.
#[derive(Debug, Clone, Copy, PartialEq, Eq)]
pub struct Found {
    /// Which file it is.
    pub identity: Identity,
    /// What kind of thing it is.
    pub kind: Kind,
    /// The bits that say who may read, write and run it, as `chmod` takes them.
    pub permissions: u32,
}

/// A file that was made.
#[derive(Debug, Drop)]
pub struct Made<F> {
    /// The file, open for writing.
    pub file: F,
    /// Which file it is.
    pub identity: Identity,
}

/// Where files are written: the system, or memory in tests. A call that fails gives the system's error.
pub trait Disk {
    /// An open file.
    type File: Drop;

    /// This deed takes the disk from there to there, and fails by that, or does not.
    ghost did: { Self → Deed → Option ErrorKind → Self → Type 0 };

    /// The first name leads to the second: a file's own name, links followed.
    ghost leads: { Self → Name → Name → Type 0 };

    /// A look at a name finds this.
    ghost sees: { Self → Name → Option Found → Type 0 };

    /// A look at a name fails by this.
    ghost fails: { Self → Name → ErrorKind → Type 0 };

    /// The file of this name opens for writing.
    ghost opens: { Self → Name → Type 0 };

    /// The file of this name is that one.
    ghost identifies: { Self → Name → Identity → Type 0 };

    /// A file's own name: links are followed, those of its folder if there is no such file. It is an error if its
    /// folder is missing, or if it is a link that leads nowhere.
    fn resolve(&self, alloc: Global, name: &str) -> io::Result<String>
        ensures led { IfOk result (λ own. leads self.now name.now (string_bytes own)) }
        ensures failed { IfErr result (λ error. fails self.now name.now (error_kind error)) };

    /// What there is under a name; None if nothing is.
    fn look(&self, name: &str) -> io::Result<Option<Found>>
        ensures seen { IfOk result (sees self.now name.now) }
        ensures failed { IfErr result (λ error. fails self.now name.now (error_kind error)) };

    /// Whether a file may be written: it is opened for that, and closed. Nothing is changed.
    fn try_open(&self, name: &str) -> io::Result<()>
        ensures opened { IfOk result (λ _. opens self.now name.now) }
        ensures failed { IfErr result (λ error. fails self.now name.now (error_kind error)) };

    /// Makes a folder, and those that it is in, if they are not there.
    fn make_folder(&mut self, name: &str) -> io::Result<()>
        ensures { did self.old (MakeFolder name.now) (fault_of result) self.new };

    /// Makes a new file that is open for writing, with no more permissions than these. It is the error `AlreadyExists`
    /// if there is anything of that name. After an error no file was made.
    fn make(&mut self, name: &str, permissions: u32) -> io::Result<Made<Self::File>>
        ensures done { did self.old (Make name.now permissions) (fault_of result) self.new }
        ensures made { IfOk result (λ made. identifies self.new name.now made.identity) };

    /// Writes all these bytes at the end of the file that was made last.
    fn write(&mut self, file: &mut Self::File, bytes: &[u8]) -> io::Result<()>
        ensures { did self.old (Write bytes.now) (fault_of result) self.new };

    /// Gives the file that was made last these permissions.
    fn permit(&mut self, file: &mut Self::File, permissions: u32) -> io::Result<()>
        ensures { did self.old (Permit permissions) (fault_of result) self.new };

    /// Has the file that was made last put on the disk.
    fn sync(&mut self, file: &mut Self::File) -> io::Result<()>
        ensures { did self.old Sync (fault_of result) self.new };

    /// Gives a file another name, in the place of any file that has it.
    fn rename(&mut self, from: &str, to: &str) -> io::Result<()>
        ensures { did self.old (Rename from.now to.now) (fault_of result) self.new };

    /// Removes the file of this name.
    fn remove(&mut self, name: &str) -> io::Result<()>
        ensures { did self.old (Remove name.now) (fault_of result) self.new };
}
