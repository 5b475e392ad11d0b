//! What the plays of a file come to.
ghost use Rattle.std.specs.Prelude.{◌≤◌, length, IsOk, IsSome, IfOk};
ghost use Rattle.ans_model.specs.Bytes.{longest_file};
ghost use Rattle.ans_model.specs.File.Refusals.{record_fault};
ghost use Rattle.ans_verdict.specs.FilePlayed.{IsPlayedFile};
ghost use Rattle.ans_verdict.specs.ScreenRoom.{AnswersWithin};

use crate::least_class::{Least, least_class};
use crate::screens::Screens;
use ans_model::fault::Fault;
use ans_sauce::{Judged, split};
use std::alloc::AllocError;

/// What the plays of a file come to: where its record or its layout is refused, nothing is played; its
/// content is refused from the cleared start, or passes from there.
pub(crate) type Played<'a> = Judged<'a, Fault, Fault, Least>;

/// Plays a file's content from all starts, and if its fault depends on the start, from classes that know one
/// part more, until it passes or its fault is that from the cleared start; then from the classes that show
/// what it needs. `Err` says that there is no room for the screen that the file's record states.
pub(crate) fn play_file<'a, S: Screens>(
    screens: &mut S,
    file: &'a [u8],
) -> Result<Played<'a>, AllocError>
    requires { length file.now ≤ longest_file }
    ensures played { IfOk result (IsPlayedFile file.now) }
    ensures memory { IsSome (record_fault file.now) → IsOk result }
    ensures room { AnswersWithin S.has_room S.may_lack file.now screens.old result }
{
    let parts = match split(file) {
        Ok(parts) => parts,
        Err(fault) => return Ok(Judged::NoContent(fault)),
    };
    match least_class(screens, &parts)? {
        Ok(least) => Ok(Judged::Passes(parts, least)),
        Err(fault) => Ok(Judged::Refused(parts, fault)),
    }
}
