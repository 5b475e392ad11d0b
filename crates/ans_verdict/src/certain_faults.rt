//! Which fault from all starts is the fault from the cleared one as well.
ghost use Rattle.std.specs.Prelude.{◌↔◌, ◌≤◌, IsTrue, length, IfOk};
ghost use Rattle.ans_model.specs.Bytes.{longest_file};
ghost use Rattle.ans_model.specs.Screen.StartClass.{all_known, none_known};
ghost use Rattle.ans_model.specs.Verdict.Certain.{IsCertain};
ghost use Rattle.ans_sauce.specs.Parts.{content_of, size_of};
ghost use Rattle.ans_verdict.specs.ScreenRoom.{TakesRoom};
ghost use Rattle.ans_verdict.specs.StartParts.{EndsFrom};

use crate::screens::Screens;
use ans_model::fault::{Cause, Fault};
use ans_model::start::Start;
use ans_sauce::Parts;
use std::alloc::AllocError;

/// Whether a fault of this cause does not depend on the start: F22 to F25 do.
pub(crate) fn is_certain(cause: Cause) -> bool
    ensures { IsTrue result ↔ IsCertain cause }
{
    !matches!(
        cause,
        Cause::PrintUnknownPlace
            | Cause::EraseUnknownPlace
            | Cause::MayScroll
            | Cause::UnknownCell { .. }
    )
}

/// The fault of a content from the cleared start, by its fault from all starts: there is none where it
/// passes from all, and a certain fault is the same from each. So only where the fault depends on the
/// start is the content played once more.
///
/// Fails where there is no room for a screen.
pub fn cleared_fault<S: Screens>(
    screens: &mut S,
    parts: &Parts<'_>,
    fault_from_any: Option<Fault>,
) -> Result<Option<Fault>, AllocError>
    requires length { length (content_of parts.now) ≤ longest_file }
    requires ends { EndsFrom (size_of parts.now) (content_of parts.now) none_known fault_from_any }
    ensures fault { IfOk result (EndsFrom (size_of parts.now) (content_of parts.now) all_known) }
    ensures room { TakesRoom S.has_room S.may_lack (size_of parts.now) screens.old screens.new result }
{
    let Some(fault) = fault_from_any else {
        return Ok(None);
    };
    if is_certain(fault.cause) {
        return Ok(Some(fault));
    }
    screens.fault_from(parts, Start::CLEARED)
}
