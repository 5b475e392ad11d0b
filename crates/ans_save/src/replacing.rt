//! A file is written beside its target, and renamed over it.
ghost use Rattle.std.specs.Prelude.{◌≡◌, string_bytes, IfErr, IfOk};
ghost use Rattle.ans_save.specs.Deeds.{Follows, fault_of};
ghost use Rattle.ans_save.specs.Replacing.{GivesUp, MakesBeside, NotMade, Replaces, permissions_of, permits, syncs};
ghost use Rattle.ans_save.specs.Replacing.{work_of};

use crate::disk::{Disk, Identity, Made};
use crate::names::beside_name;
use crate::save_error::{Reason, SaveError};
use std::alloc::Global;
use std::io::{self, ErrorKind};

/// How many names for a file beside the target are tried.
const MOST_TRIES: usize = 100;

/// Who may read, write and run a file that is written.
#[derive(Debug, Clone, Copy, PartialEq, Eq)]
pub(crate) enum Permissions {
    /// Those of a new file: these, without those that the system withholds from each new file.
    New(u32),
    /// Those of the file that is replaced.
    Kept(u32),
}

impl Permissions {
    /// Those that the file is made with.
    fn bits(self) -> u32
        ensures { result ≡ permissions_of self }
    {
        match self {
            Permissions::New(bits) | Permissions::Kept(bits) => bits,
        }
    }
}

/// What a file that takes a target's place is to be.
#[derive(Debug, Clone, Copy)]
pub(crate) struct Work<'a> {
    /// Its bytes.
    pub(crate) bytes: &'a [u8],
    /// Its permissions.
    pub(crate) permissions: Permissions,
    /// Whether it is flushed to the disk first.
    pub(crate) syncs: bool,
}

/// A new file beside a target, and its name.
#[derive(Drop)]
struct Beside<F> {
    name: String,
    made: Made<F>,
}

/// Makes a new file beside a target, under the first name that no other file has.
fn make_beside<D: Disk>(
    alloc: Global,
    disk: &mut D,
    target: &str,
    permissions: u32,
) -> Result<Beside<D::File>, SaveError>
    ensures made { IfOk result (λ beside. MakesBeside D.did D.identifies target.now permissions disk.old disk.new
        (string_bytes beside.name) beside.made.identity) }
    ensures failed { IfErr result (NotMade D.did target.now permissions disk.old disk.new) }
{
    for number in 0..MOST_TRIES {
        let name = beside_name(alloc, target, number)?;
        match disk.make(name.as_str(), permissions) {
            Ok(made) => return Ok(Beside { name, made }),
            Err(error) if error.kind() == ErrorKind::AlreadyExists => {}
            Err(error) => return Err(SaveError::unwritten(error.kind())),
        }
    }
    Err(SaveError::Unwritten(Reason::Taken))
}

/// Gives the new file the permissions of the one that it replaces.
fn permit<D: Disk>(disk: &mut D, file: &mut D::File, permissions: Permissions) -> io::Result<()>
    ensures { Follows D.did disk.old (permits permissions) (fault_of result) disk.new }
{
    match permissions {
        Permissions::New(_) => Ok(()),
        Permissions::Kept(bits) => disk.permit(file, bits),
    }
}

/// Has the new file put on the disk if it is to be.
fn sync<D: Disk>(disk: &mut D, file: &mut D::File, wanted: bool) -> io::Result<()>
    ensures { Follows D.did disk.old (syncs wanted) (fault_of result) disk.new }
{
    if wanted { disk.sync(file) } else { Ok(()) }
}

/// Writes the new file, and renames it over the target.
fn fill<D: Disk>(
    disk: &mut D,
    file: &mut D::File,
    name: &str,
    target: &str,
    work: &Work<'_>,
) -> io::Result<()>
    ensures { Follows D.did disk.old (work_of name.now target.now work.now) (fault_of result) disk.new }
{
    disk.write(file, work.bytes)?;
    permit(disk, file, work.permissions)?;
    sync(disk, file, work.syncs)?;
    disk.rename(name, target)
}

/// Writes a file beside a target, renames it over that, and returns which file it is. If that fails, the file beside
/// the target is removed, and what is under the target's name stays.
pub(crate) fn replace<D: Disk>(
    alloc: Global,
    disk: &mut D,
    target: &str,
    work: &Work<'_>,
) -> Result<Identity, SaveError>
    ensures replaced { IfOk result (Replaces D.did D.identifies target.now work.now disk.old disk.new) }
    ensures kept { IfErr result (GivesUp D.did target.now work.now disk.old disk.new) }
{
    let Beside { name, made } = make_beside(alloc, disk, target, work.permissions.bits())?;
    let Made { mut file, identity } = made;
    match fill(disk, &mut file, name.as_str(), target, work) {
        Ok(()) => Ok(identity),
        Err(error) => {
            let _ = disk.remove(name.as_str());
            Err(SaveError::unwritten(error.kind()))
        }
    }
}
