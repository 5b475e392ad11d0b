//! Which parts of the start a file's content needs to be known.
ghost use Rattle.std.specs.Prelude.{◌≡◌, ◌≤◌, length, None, IsOk, IsSome, IfOk, IfSome};
ghost use Rattle.ans_model.specs.Bytes.{longest_file};
ghost use Rattle.ans_model.specs.File.Refusals.{record_fault};
ghost use Rattle.ans_model.specs.Screen.StartClass.{all_known};
ghost use Rattle.ans_verdict.specs.FileNeeds.{IsNeedsOf, needs_fault};
ghost use Rattle.ans_verdict.specs.FileVerdict.{IsGoodFile};
ghost use Rattle.ans_verdict.specs.ScreenRoom.{AnswersWithin};

use crate::played::play_file;
use crate::screens::{NewScreens, Screens};
use ans_report::Needs;
use ans_sauce::Judged;
use ans_screen::Grid;
use std::alloc::{AllocError, Global};

/// Finds what a file of at most 16,777,216 bytes needs. Its content is played from all starts, and if its
/// fault depends on the start, from classes that know some parts, one play after the other, each up to its
/// first fault.
///
/// Fails where memory runs out; a file that is refused for its record or its layout takes none.
/// An offset counts bytes from the file's start, which is the content's too.
pub fn needs<G: Grid>(alloc: Global, file: &[u8]) -> Result<Needs<'_>, AllocError>
    requires { length file.now ≤ longest_file }
    ensures needs { IfOk result (IsNeedsOf file.now) }
    ensures exact { IfOk result (λ n. IsGoodFile file.now all_known → needs_fault n ≡ None) }
    ensures offset { IfOk result (λ n. IfSome (needs_fault n) (λ f. f.offset ≤ length file.now)) }
    ensures memory { IsSome (record_fault file.now) → IsOk result }
{
    needs_on(&mut NewScreens::<G>::new(alloc), file)
}

/// The same, on screens from elsewhere. `Err` says that there is no room for the screen that the file's
/// record states.
pub fn needs_on<'a, S: Screens>(screens: &mut S, file: &'a [u8]) -> Result<Needs<'a>, AllocError>
    requires { length file.now ≤ longest_file }
    ensures needs { IfOk result (IsNeedsOf file.now) }
    ensures exact { IfOk result (λ n. IsGoodFile file.now all_known → needs_fault n ≡ None) }
    ensures offset { IfOk result (λ n. IfSome (needs_fault n) (λ f. f.offset ≤ length file.now)) }
    ensures memory { IsSome (record_fault file.now) → IsOk result }
    ensures room { AnswersWithin S.has_room S.may_lack file.now screens.old result }
{
    match play_file(screens, file)? {
        Judged::NoContent(fault) => Ok(Judged::NoContent(fault)),
        Judged::Refused(parts, fault) => Ok(Judged::Refused(parts, fault)),
        Judged::Passes(parts, least) => Ok(Judged::Passes(parts, least.class)),
    }
}
