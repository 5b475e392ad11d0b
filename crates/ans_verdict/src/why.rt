//! What there is to say of a file: why it is refused, or what it relies on.
ghost use Rattle.std.specs.Prelude.{◌≤◌, length, IsOk, IsSome, IfOk};
ghost use Rattle.ans_model.specs.Bytes.{longest_file};
ghost use Rattle.ans_model.specs.File.Refusals.{record_fault};
ghost use Rattle.ans_why.specs.Explained.{IsTrueOf};
ghost use Rattle.ans_verdict.specs.ScreenRoom.{AnswersWithin};

use crate::played::play_file;
use crate::screens::Screens;
use ans_sauce::Judged;
use ans_why::{Pass, RecordRefusal, Refusal, Why};
use std::alloc::AllocError;

/// Finds what there is to say of a file of at most 16,777,216 bytes: why it is refused, or what it
/// needs, as `needs` finds that, and its fault from all starts where it needs anything.
///
/// `Err` says that there is no room for the screen that the file's record states.
pub fn why_on<'a, S: Screens>(screens: &mut S, file: &'a [u8]) -> Result<Why<'a>, AllocError>
    requires { length file.now ≤ longest_file }
    ensures why { IfOk result (IsTrueOf file.now) }
    ensures memory { IsSome (record_fault file.now) → IsOk result }
    ensures room { AnswersWithin S.has_room S.may_lack file.now screens.old result }
{
    match play_file(screens, file)? {
        Judged::NoContent(fault) => Ok(Judged::NoContent(RecordRefusal::of(file, fault))),
        Judged::Refused(parts, fault) => {
            let refusal = Refusal::of(&parts, fault);
            Ok(Judged::Refused(parts, refusal))
        }
        Judged::Passes(parts, least) => {
            let pass = Pass::of(&parts, file.len(), least.class, least.fault);
            Ok(Judged::Passes(parts, pass))
        }
    }
}
