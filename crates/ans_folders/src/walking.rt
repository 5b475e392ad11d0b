//! The walk over a folder and all folders below it.

ghost use Rattle.std.specs.Prelude.{◌≡◌, ◌∷◌, ◌++◌, [], IfOk, OnOk, map, vec_items};
ghost use Rattle.ans_folders.specs.Paths.{place_in};
ghost use Rattle.ans_folders.specs.Walk.{Hands, IsInOrder, Walked, after_handing, folder_at, found_at};
ghost use Rattle.ans_folders.specs.declared.taken.Taken.{Taken};
ghost use Rattle.ans_folders.specs.Pending.{pending_places, place_of};

use crate::entry::{Entry, Kind, Unread};
use crate::folders::Folders;
use crate::path::path_in;
use crate::taken::Taken;
use crate::visitor::Visitor;
use std::alloc::{AllocError, Global};

/// Why a walk ended before all was visited.
#[derive(Drop)]
pub enum Ended<S> {
    /// The visitor stopped it.
    Stopped(S),
    /// Memory ran out.
    Memory,
}

/// What is still to be visited.
#[derive(Drop)]
pub(crate) struct Pending {
    path: String,
    kind: Kind,
}

/// Brings the entries into the order of their names.
fn sort(entries: &mut Vec<Entry>)
    ensures { IsInOrder (vec_items entries.old) (vec_items entries.new) }
{
    entries.sort_unstable_by(|a, b| a.name.cmp(&b.name));
}

impl Pending {
    /// An entry of the folder of this path.
    fn of(alloc: Global, folder: &str, entry: &Entry) -> Result<Pending, AllocError>
        ensures { IfOk result (λ pending. place_of pending ≡ place_in folder.now entry.now) }
    {
        let kind = entry.kind;
        let path = match kind {
            Kind::Unread(Unread::NameNotText) => String::from_str(alloc, folder)?,
            _ => path_in(alloc, folder, entry.name.as_str())?,
        };
        Ok(Pending { path, kind })
    }

    /// Hands a visitor what is here, unless it is a folder.
    fn hand<V: Visitor>(&self, taken: Taken, visitor: &mut V) -> Result<(), V::Stop>
        ensures { Hands V.takes V.stops (found_at taken (place_of self.now)) visitor.old visitor.new result }
    {
        let path = self.path.as_str();
        match self.kind {
            Kind::File if taken.takes(path) => visitor.file(path),
            Kind::File => visitor.passed(path),
            Kind::Unread(why) => visitor.unreadable(path, why),
            Kind::Folder | Kind::Other => Ok(()),
        }
    }
}

/// Puts the entries of a folder before what is still to be visited. The last of `pending` comes first.
fn push_entries(
    alloc: Global,
    folder: &str,
    mut entries: Vec<Entry>,
    pending: &mut Vec<Pending>,
) -> Result<(), AllocError>
    ensures { OnOk result (pending_places (vec_items pending.new)
        ≡ map (place_in folder.now) (vec_items entries) ++ pending_places (vec_items pending.old)) }
{
    while let Some(entry) = entries.pop() {
        let place = Pending::of(alloc, folder, &entry)?;
        pending.push(place)?;
    }
    Ok(())
}

/// How a walk goes on after the visitor was handed something.
fn after<S>(handed: Result<(), S>) -> Result<(), Ended<S>>
    ensures { result ≡ after_handing handed }
{
    match handed {
        Ok(()) => Ok(()),
        Err(why) => Err(Ended::Stopped(why)),
    }
}

/// Puts the entries of the folder of this path before what is still to be visited. If it cannot be listed, the visitor
/// is handed its path.
fn enter<F: Folders, V: Visitor>(
    alloc: Global,
    folders: F,
    folder: &str,
    pending: &mut Vec<Pending>,
    visitor: &mut V,
) -> Result<(), Ended<V::Stop>>
    ensures { (taken : Taken) → Walked (F.lists folders) (F.fails folders) V.takes V.stops taken
        (folder_at folder.now ∷ pending_places (vec_items pending.old)) (pending_places (vec_items pending.new))
        visitor.old visitor.new result }
{
    match folders.list(alloc, folder) {
        Ok(mut entries) => {
            sort(&mut entries);
            match push_entries(alloc, folder, entries, pending) {
                Ok(()) => Ok(()),
                Err(AllocError) => Err(Ended::Memory),
            }
        }
        Err(error) => after(visitor.unreadable(folder, Unread::Failed(error.kind()))),
    }
}

/// Visits what is in this place: enters a folder, and hands the visitor what is not a folder.
fn visit<F: Folders, V: Visitor>(
    alloc: Global,
    folders: F,
    taken: Taken,
    place: &Pending,
    pending: &mut Vec<Pending>,
    visitor: &mut V,
) -> Result<(), Ended<V::Stop>>
    ensures { Walked (F.lists folders) (F.fails folders) V.takes V.stops taken
        (place_of place.now ∷ pending_places (vec_items pending.old)) (pending_places (vec_items pending.new))
        visitor.old visitor.new result }
{
    if place.kind.is_folder() {
        enter(alloc, folders, place.path.as_str(), pending, visitor)
    } else {
        after(place.hand(taken, visitor))
    }
}

/// The folder of this path as all that is still to be visited.
fn pending_folder(alloc: Global, folder: &str) -> Result<Vec<Pending>, AllocError>
    ensures { IfOk result (λ pending. pending_places (vec_items pending) ≡ folder_at folder.now ∷ []) }
{
    let mut pending = Vec::new(alloc);
    let path = String::from_str(alloc, folder)?;
    pending.push(Pending {
        path,
        kind: Kind::Folder,
    })?;
    Ok(pending)
}

/// Hands a visitor what is in the folder of this path and in all folders below it, in the order that
/// `specs/Walk.antt` defines. A link of this path is followed, and no other to a folder.
///
/// `Err(Stopped)` comes exactly if the visitor stopped, with its reason; it was then handed nothing more.
/// `Err(Memory)` comes if there is no memory to list what is still to be visited; the visitor was then handed the
/// first part of what the walk finds. While a folder is visited, the names of its entries and of those of the folders
/// that it is in are in memory, and no others.
pub fn walk<F: Folders, V: Visitor>(
    alloc: Global,
    folders: F,
    folder: &str,
    taken: Taken,
    visitor: &mut V,
) -> Result<(), Ended<V::Stop>>
    ensures { Walked (F.lists folders) (F.fails folders) V.takes V.stops taken (folder_at folder.now ∷ []) []
        visitor.old visitor.new result }
{
    let Ok(mut pending) = pending_folder(alloc, folder) else {
        return Err(Ended::Memory);
    };
    for _ in 0..u64::MAX {
        let Some(place) = pending.pop() else {
            return Ok(());
        };
        visit(alloc, folders, taken, &place, &mut pending, visitor)?;
    }
    Err(Ended::Memory)
}
