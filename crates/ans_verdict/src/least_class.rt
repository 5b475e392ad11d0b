//! The least class of starts from which a content passes, by few plays.
ghost use Rattle.std.specs.Prelude.{◌≡◌, ◌↔◌, ◌≤◌, true, false, length, IfOk, IfErr, IfSome};
ghost use Rattle.ans_model.specs.Bytes.{longest_file};
ghost use Rattle.ans_model.specs.Screen.StartClass.{all_known, none_known};
ghost use Rattle.ans_model.specs.Verdict.Good.{IsGood};
ghost use Rattle.ans_model.specs.Verdict.Needs.{IsFoundByParts};
ghost use Rattle.ans_sauce.specs.Parts.{content_of, size_of};
ghost use Rattle.ans_verdict.specs.FileVerdict.{Deserves};
ghost use Rattle.ans_verdict.specs.FilePlayed.{IsLeastOf};
ghost use Rattle.ans_verdict.specs.ScreenRoom.{TakesRoom};
ghost use Rattle.ans_verdict.specs.StartParts.{EndsFrom, all_but, knows, with_part, IsPassingClass};

use crate::certain_faults::is_certain;
use crate::part::Part;
use crate::screens::Screens;
use ans_model::fault::{Cause, Fault};
use ans_model::start::Start;
use ans_sauce::Parts;
use memchr::arch::all::twoway::Finder;
use std::alloc::AllocError;

/// The class that a content needs, and its fault from all starts, where it needs anything.
#[derive(Clone, Copy)]
pub(crate) struct Least {
    pub(crate) class: Start,
    pub(crate) fault: Option<Fault>,
}

/// A class from which a content passes, and one from which it does not.
#[derive(Clone, Copy)]
pub(crate) struct PassingClass {
    pub(crate) class: Start,
    pub(crate) refused: Start,
}

/// How a play ends where one part more is known.
#[derive(Clone, Copy)]
pub(crate) struct MadeKnown {
    pub(crate) part: Part,
    pub(crate) fault: Option<Fault>,
}

/// How a sequence begins that clears the screen. A quoted string may have it too, and then one play more
/// is made.
const CLEAR: &[u8] = b"\x1b[2J";

/// The parts that may be missing where a content has this fault, the likeliest first. They decide
/// how many plays it takes to find the class, and not which class that is. Where the screen was
/// cleared before, its cells are in the current colours, and the cursor was at home.
fn likely_parts(content: &[u8], fault: Fault) -> &'static [Part]
    requires { length content.now ≤ longest_file }
{
    let before = fault.offset.min(content.len());
    let found = Finder::new(CLEAR).find(&content[..before], CLEAR);
    match (fault.cause, found.is_some()) {
        (Cause::UnknownCell { .. }, false) => &[Part::Screen, Part::Colours],
        (Cause::UnknownCell { .. }, true) => &[Part::Colours, Part::Screen],
        (_, false) => &[Part::Cursor, Part::Wrap, Part::Saved],
        (_, true) => &[Part::Wrap, Part::Saved, Part::Cursor],
    }
}

/// Looks for a part that makes a difference: with it known too, the content passes or has another
/// fault.
fn part_that_mends<S: Screens>(
    screens: &mut S,
    parts: &Parts<'_>,
    class: Start,
    fault: Fault,
) -> Result<Option<MadeKnown>, AllocError>
    requires { length (content_of parts.now) ≤ longest_file }
    ensures unknown { IfOk result (λ found. IfSome found (λ m. knows class m.part ≡ false)) }
    ensures room { TakesRoom S.has_room S.may_lack (size_of parts.now) screens.old screens.new result }
    ensures end { IfOk result (λ found. IfSome found (λ m.
        EndsFrom (size_of parts.now) (content_of parts.now) (with_part m.part true class) m.fault)) }
{
    for part in likely_parts(parts.content(), fault) {
        if !part.is_known_in(class) {
            let next = screens.fault_from(parts, part.made_known(true, class))?;
            if next != Some(fault) {
                return Ok(Some(MadeKnown {
                    part: *part,
                    fault: next,
                }));
            }
        }
    }
    Ok(None)
}

/// The class of the cleared start, if the content passes from there, and else its fault. It has a fault from
/// the class that is given.
fn cleared_class<S: Screens>(
    screens: &mut S,
    parts: &Parts<'_>,
    refused: Start,
    fault: Fault,
) -> Result<Result<PassingClass, Fault>, AllocError>
    requires length { length (content_of parts.now) ≤ longest_file }
    requires fault { Deserves (size_of parts.now) refused (content_of parts.now) fault }
    ensures room { TakesRoom S.has_room S.may_lack (size_of parts.now) screens.old screens.new result }
    ensures passes { IfOk result (λ end. IfOk end (IsPassingClass (size_of parts.now) (content_of parts.now))) }
    ensures refused { IfOk result (λ end. IfErr end
        (Deserves (size_of parts.now) all_known (content_of parts.now))) }
{
    match screens.fault_from(parts, Start::CLEARED)? {
        Some(cleared) => Ok(Err(cleared)),
        None => Ok(Ok(PassingClass {
            class: Start::CLEARED,
            refused,
        })),
    }
}

/// Finds a class from which the content passes: from all starts it has this fault, and as long as it
/// has one, the part is made known that mends it. Where no part does so by itself, it is the class of
/// the cleared start. A content that passes from no class has the fault from the cleared start that is
/// answered; one that does not depend on the start ends the search.
fn passing_class<S: Screens>(
    screens: &mut S,
    parts: &Parts<'_>,
    fault_from_any: Fault,
) -> Result<Result<PassingClass, Fault>, AllocError>
    requires length { length (content_of parts.now) ≤ longest_file }
    requires fault { Deserves (size_of parts.now) none_known (content_of parts.now) fault_from_any }
    ensures room { TakesRoom S.has_room S.may_lack (size_of parts.now) screens.old screens.new result }
    ensures passes { IfOk result (λ end. IfOk end (IsPassingClass (size_of parts.now) (content_of parts.now))) }
    ensures refused { IfOk result (λ end. IfErr end
        (Deserves (size_of parts.now) all_known (content_of parts.now))) }
{
    let mut class = Start::ANY;
    let mut fault = fault_from_any;
    for _ in 0..5 {
        if is_certain(fault.cause) {
            return Ok(Err(fault));
        }
        let Some(mended) = part_that_mends(screens, parts, class, fault)? else {
            return cleared_class(screens, parts, class, fault);
        };
        let wider = mended.part.made_known(true, class);
        match mended.fault {
            Some(next) => {
                class = wider;
                fault = next;
            }
            None => {
                return Ok(Ok(PassingClass {
                    class: wider,
                    refused: class,
                }));
            }
        }
    }
    cleared_class(screens, parts, class, fault)
}

/// Whether the content needs a part, by a class from which it passes.
fn needs_part<S: Screens>(
    screens: &mut S,
    parts: &Parts<'_>,
    passing: &PassingClass,
    part: Part,
) -> Result<bool, AllocError>
    requires length { length (content_of parts.now) ≤ longest_file }
    requires passes { IsPassingClass (size_of parts.now) (content_of parts.now) passing.now }
    ensures room { TakesRoom S.has_room S.may_lack (size_of parts.now) screens.old screens.new result }
    ensures needed { IfOk result (λ needed. (needed ≡ false)
        ↔ IsGood (size_of parts.now) (all_but part) (content_of parts.now)) }
{
    if !part.is_known_in(passing.class) {
        return Ok(false);
    }
    let without = part.made_known(false, passing.class);
    if without.covers(passing.refused) {
        return Ok(true);
    }
    let fault = screens.fault_from(parts, without)?;
    Ok(fault.is_some())
}

/// The class of the parts that the content cannot do without, where it passes from a class.
fn class_by_parts<S: Screens>(
    screens: &mut S,
    parts: &Parts<'_>,
    passing: &PassingClass,
) -> Result<Start, AllocError>
    requires length { length (content_of parts.now) ≤ longest_file }
    requires passes { IsPassingClass (size_of parts.now) (content_of parts.now) passing.now }
    ensures room { TakesRoom S.has_room S.may_lack (size_of parts.now) screens.old screens.new result }
    ensures found { IfOk result (IsFoundByParts (size_of parts.now) (content_of parts.now)) }
{
    Ok(Start {
        screen: needs_part(screens, parts, passing, Part::Screen)?,
        cursor: needs_part(screens, parts, passing, Part::Cursor)?,
        saved: needs_part(screens, parts, passing, Part::Saved)?,
        colours: needs_part(screens, parts, passing, Part::Colours)?,
        wrap: needs_part(screens, parts, passing, Part::Wrap)?,
    })
}

/// Finds the least class of a content that passes from the cleared start, or its fault from there. It is
/// played from all starts first. If it has a fault, a class from which it passes is looked for by the
/// faults, and then each part of that class is tried: the content is played without it.
///
/// Fails if there is no room for a screen.
pub(crate) fn least_class<S: Screens>(
    screens: &mut S,
    parts: &Parts<'_>,
) -> Result<Result<Least, Fault>, AllocError>
    requires { length (content_of parts.now) ≤ longest_file }
    ensures room { TakesRoom S.has_room S.may_lack (size_of parts.now) screens.old screens.new result }
    ensures least { IfOk result (λ end. IfOk end (IsLeastOf parts.now)) }
    ensures refused { IfOk result (λ end. IfErr end
        (Deserves (size_of parts.now) all_known (content_of parts.now))) }
{
    let Some(fault) = screens.fault_from(parts, Start::ANY)? else {
        return Ok(Ok(Least {
            class: Start::ANY,
            fault: None,
        }));
    };
    match passing_class(screens, parts, fault)? {
        Err(cleared) => Ok(Err(cleared)),
        Ok(passing) => {
            let class = class_by_parts(screens, parts, &passing)?;
            Ok(Ok(Least {
                class,
                fault: Some(fault),
            }))
        }
    }
}
