//! The files of a run are written.
ghost use Rattle.std.specs.Prelude.{◌≡◌, [], IfErr, IfOk, OnErr, OnOk, map, string_bytes};
ghost use Rattle.std.specs.Option.{option_map};
ghost use Rattle.std.specs.declared.io.ErrorKind.{ErrorKind};
ghost use Rattle.ans_save.specs.Deeds.{Follows, fault_of};
ghost use Rattle.ans_save.specs.Places.{is_among, is_in_place, refusal_of};
ghost use Rattle.ans_save.specs.Reasons.{unopened_of};
ghost use Rattle.ans_save.specs.Saving.{Adds, IsAim, IsAimless, IsModeless, IsNewMode, IsReady, IsRefused, IsSaved};
ghost use Rattle.ans_save.specs.Saving.{IsUnsaved, Knows, folders, inputs_of, written_of};
ghost use Rattle.ans_save.specs.Sparing.{Spares};

use crate::disk::{Disk, Found, Identity, Kind};
use crate::replacing::{Permissions, Work, replace};
use crate::save_error::{Reason, SaveError};
use crate::saving::Saving;
use std::alloc::{AllocError, Global};
use std::io;

/// The permissions of a new file for standard input: all may read and write it, unless the system withholds that from
/// each new file.
const PLAIN: u32 = 0o666;

/// The inputs of a run, and the files that were written in it.
#[derive(Debug, Drop)]
pub struct Saves {
    inputs: Vec<Identity>,
    written: Vec<Identity>,
}

/// Whether a file is among these.
fn is_among(files: &[Identity], file: Identity) -> bool
    ensures { result ≡ is_among files.now file }
{
    for other in files {
        if file == *other {
            return true;
        }
    }
    false
}

/// What there is under a name.
fn look<D: Disk>(disk: &D, name: &str) -> Result<Option<Found>, SaveError>
    ensures seen { IfOk result (D.sees disk.now name.now) }
    ensures failed { IfErr result (λ error. (kind : ErrorKind) × D.fails disk.now name.now kind
        × (error ≡ unopened_of kind)) }
{
    match disk.look(name) {
        Ok(found) => Ok(found),
        Err(error) => Err(SaveError::unopened(&error)),
    }
}

/// Makes the folder that files go into.
fn make_folder<D: Disk>(disk: &mut D, saving: Saving<'_>) -> io::Result<()>
    ensures { Follows D.did disk.old (folders saving.entry) (fault_of result) disk.new }
{
    match saving {
        Saving::InPlace | Saving::File(_) => Ok(()),
        Saving::Folder(folder) => disk.make_folder(folder),
    }
}

/// Where a file goes, and with which permissions.
#[derive(Drop)]
struct Place {
    target: String,
    permissions: Permissions,
}

/// Adds the input of this name to those that are known, if a look finds it.
fn add_input<D: Disk>(disk: &D, known: &mut Vec<Identity>, name: &str) -> Result<(), AllocError>
    ensures { OnOk result (Adds D.sees D.fails disk.now known.old.items name.now known.new.items) }
{
    match disk.look(name) {
        Ok(Some(found)) => Ok(known.push(found.identity)?),
        Ok(None) | Err(_) => Ok(()),
    }
}

impl Saves {
    /// A run with inputs of these names, of which nothing was written. An input that a look does not find is left out.
    /// `Err` comes if memory runs out.
    pub fn new<D: Disk>(alloc: Global, disk: &D, inputs: &[&str]) -> Result<Saves, AllocError>
        ensures inputs { IfOk result (λ saves. Knows D.sees D.fails disk.now [] (map (λ n. n.now) inputs.now)
            (inputs_of saves)) }
        ensures written { IfOk result (λ saves. written_of saves ≡ []) }
    {
        let mut known = Vec::new(alloc);
        for input in inputs {
            add_input(disk, &mut known, input)?;
        }
        Ok(Saves {
            inputs: known,
            written: Vec::new(alloc),
        })
    }

    /// Why a file that is found under a target is not to be replaced.
    fn refusal(&self, saving: Saving<'_>, found: &Found) -> Option<SaveError>
        ensures { result ≡ refusal_of (is_in_place saving.entry) (inputs_of self.now) (written_of self.now) found.now }
    {
        match found.kind {
            Kind::File if is_among(self.written.as_slice(), found.identity) => {
                Some(SaveError::WrittenBefore)
            }
            Kind::File => {
                let is_input = is_among(self.inputs.as_slice(), found.identity);
                (!saving.is_in_place() && is_input).then_some(SaveError::IsInput)
            }
            Kind::Folder => Some(SaveError::Unopened(Reason::Folder)),
            Kind::Special => Some(SaveError::Unopened(Reason::Special)),
        }
    }
}

/// The permissions of a new file: those of its input.
fn new_permissions<D: Disk>(disk: &D, input: Option<&str>) -> Result<u32, SaveError>
    ensures mode { IfOk result (IsNewMode D.sees D.fails disk.now (option_map (λ n. n.now) input.entry)) }
    ensures refused { IfErr result (IsModeless D.sees D.fails disk.now (option_map (λ n. n.now) input.entry)) }
{
    let Some(name) = input else {
        return Ok(PLAIN);
    };
    match look(disk, name)? {
        Some(found) => Ok(found.permissions),
        None => Err(SaveError::Unopened(Reason::Missing)),
    }
}

/// The permissions of the file that replaces a target, or why that is not to be replaced.
fn permissions<D: Disk>(
    disk: &D,
    saves: &Saves,
    saving: Saving<'_>,
    input: Option<&str>,
    target: &str,
) -> Result<Permissions, SaveError>
    ensures ready { IfOk result (IsReady D.leads D.sees D.fails D.opens disk.now saves.now saving.entry
        (option_map (λ n. n.now) input.entry) target.now) }
    ensures refused { IfErr result (IsRefused D.leads D.sees D.fails D.opens disk.now saves.now saving.entry
        (option_map (λ n. n.now) input.entry) target.now) }
{
    let Some(found) = look(disk, target)? else {
        return Ok(Permissions::New(new_permissions(disk, input)?));
    };
    if let Some(error) = saves.refusal(saving, &found) {
        return Err(error);
    }
    match disk.try_open(target) {
        Ok(()) => Ok(Permissions::Kept(found.permissions)),
        Err(error) => Err(SaveError::unwritable(&error)),
    }
}

/// Finds where a file goes that is to be written to a name.
fn aim<D: Disk>(
    alloc: Global,
    disk: &D,
    saves: &Saves,
    saving: Saving<'_>,
    input: Option<&str>,
    named: &str,
) -> Result<Place, SaveError>
    ensures aimed { IfOk result (λ place. IsAim D.leads D.sees D.fails D.opens disk.now saves.now saving.entry
        (option_map (λ n. n.now) input.entry) named.now (string_bytes place.target) place.permissions) }
    ensures aimless { IfErr result (IsAimless D.leads D.sees D.fails D.opens disk.now saves.now saving.entry
        (option_map (λ n. n.now) input.entry) named.now) }
{
    match disk.resolve(alloc, named) {
        Ok(target) => {
            let permissions = permissions(disk, saves, saving, input, target.as_str())?;
            Ok(Place {
                target,
                permissions,
            })
        }
        Err(error) => Err(SaveError::unopened(&error)),
    }
}

/// Writes the bytes that an input of this name comes to, or standard input, which has none, to where files go. They are
/// written to a new file beside the target, which is then renamed over it; in place it is flushed to the disk before.
/// What is under the target's name is replaced if it is a file that may be written, and keeps its permissions; other
/// names of that file keep the old bytes. A link is followed, and stays. A new file has the permissions of the input.
/// Its owner is whoever runs this. A kill leaves at most the file beside the target, whose name is `.anscheck-` and a
/// number.
///
/// `Err` says why nothing was written. Then what is under the target's name stays, and the file beside it is removed if
/// it can be. `NoName` comes if there is no name to write to; `IsInput` if the target is an input of the run, unless in
/// place; `WrittenBefore` if it was written in the run; `NotWritable` if it may not be written; `Unopened` if it is no
/// file, if a link of it leads nowhere, if its folder is missing, or if it or the input cannot be looked at;
/// `Unwritten` if a folder or the new file cannot be made, or the new file not be written, flushed or renamed; `Memory`
/// if memory runs out.
pub fn save<D: Disk>(
    alloc: Global,
    disk: &mut D,
    saves: &mut Saves,
    saving: Saving<'_>,
    input: Option<&str>,
    bytes: &[u8],
) -> Result<(), SaveError>
    ensures saved { IfOk result (λ _. IsSaved D.did D.leads D.sees D.fails D.opens D.identifies disk.old disk.new
        saves.old saves.new saving.entry (option_map (λ n. n.now) input.entry) bytes.now) }
    ensures unsaved { IfErr result (IsUnsaved D.did D.leads D.sees D.fails D.opens disk.old disk.new
        saves.old saving.entry (option_map (λ n. n.now) input.entry) bytes.now) }
    ensures spared { OnErr result (Spares D.did disk.old disk.new) }
    ensures unnoted { OnErr result (written_of saves.new ≡ written_of saves.old) }
    ensures inputs { inputs_of saves.new ≡ inputs_of saves.old }
{
    let named = saving.target(alloc, input)?;
    if let Err(error) = make_folder(disk, saving) {
        return Err(SaveError::unwritten(error.kind()));
    }
    let Place {
        target,
        permissions,
    } = aim(alloc, disk, saves, saving, input, named.as_str())?;
    saves.written.reserve(1)?;
    let work = Work {
        bytes,
        permissions,
        syncs: saving.is_in_place(),
    };
    let file = replace(alloc, disk, target.as_str(), &work)?;
    let _ = saves.written.push(file);
    Ok(())
}
