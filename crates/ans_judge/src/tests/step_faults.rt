//! The faults of a step: for each of them, what the two plays show before the step.

use super::slow_machine::SlowMachine;
use ans_model::fault::Cause;
use ans_model::kind::Kind;
use std::process::Abort;

/// F15: a key is reassigned, whatever the plays show.
fn reassigns_key(step: &Kind) -> bool {
    matches!(step, Kind::Keys)
}

/// F16: a screen mode is set, whatever the plays show.
fn sets_mode(step: &Kind) -> bool {
    matches!(step, Kind::Mode)
}

/// F17: a report is asked for, whatever the plays show.
fn asks_report(step: &Kind) -> bool {
    matches!(step, Kind::Ask)
}

/// F19: a row below the spare row or a column right of the last is named, both counted from 1.
fn places_outside(plays: &SlowMachine, step: &Kind) -> bool {
    match step {
        Kind::Place(row, column) => {
            let row = *row as usize;
            row > plays.lines.wrapping_add(1) || *column as usize > plays.width
        }
        _ => false,
    }
}

/// F20: a byte is printed where both cursors are at the same place, in the spare row.
fn prints_below(plays: &SlowMachine, step: &Kind) -> bool {
    let (low, high) = plays.cursors();
    matches!(step, Kind::Glyph(_)) && low == high && low.row == plays.lines
}

/// F21: both plays scroll at a line feed.
fn scrolls_in_both(plays: &SlowMachine, step: &Kind) -> bool {
    let (low, high) = plays.cursors();
    matches!(step, Kind::LineFeed) && low.row == plays.lines && high.row == plays.lines
}

/// F22: a byte is printed where the two cursors differ.
fn prints_at_two_places(plays: &SlowMachine, step: &Kind) -> bool {
    let (low, high) = plays.cursors();
    matches!(step, Kind::Glyph(_)) && low != high
}

/// F23: a line is erased where the two cursors differ.
fn erases_at_two_places(plays: &SlowMachine, step: &Kind) -> bool {
    let (low, high) = plays.cursors();
    matches!(step, Kind::EraseLine) && low != high
}

/// F24: exactly one of the two plays scrolls at a line feed.
fn scrolls_in_one(plays: &SlowMachine, step: &Kind) -> bool {
    let (low, high) = plays.cursors();
    matches!(step, Kind::LineFeed) && (low.row == plays.lines) != (high.row == plays.lines)
}

/// The faults of a step.
const CAUSES: [Cause; 9] = [
    Cause::KeyReassigned,
    Cause::ScreenMode,
    Cause::ReportAsked,
    Cause::OutsideScreen,
    Cause::PrintBelow,
    Cause::Scrolls,
    Cause::PrintUnknownPlace,
    Cause::EraseUnknownPlace,
    Cause::MayScroll,
];

/// Whether the two plays, as they are before a step, show this fault of it.
fn shows(plays: &SlowMachine, step: &Kind, cause: Cause) -> bool {
    match cause {
        Cause::KeyReassigned => reassigns_key(step),
        Cause::ScreenMode => sets_mode(step),
        Cause::ReportAsked => asks_report(step),
        Cause::OutsideScreen => places_outside(plays, step),
        Cause::PrintBelow => prints_below(plays, step),
        Cause::Scrolls => scrolls_in_both(plays, step),
        Cause::PrintUnknownPlace => prints_at_two_places(plays, step),
        Cause::EraseUnknownPlace => erases_at_two_places(plays, step),
        Cause::MayScroll => scrolls_in_one(plays, step),
        _ => false,
    }
}

/// The fault that the two plays show of a step, if they show one. They show no two.
pub fn fault_of_step(rt: &impl Abort, plays: &SlowMachine, step: &Kind) -> Option<Cause> {
    let mut fault = None;
    for cause in CAUSES {
        if shows(plays, step, cause) {
            assert!(rt; fault.is_none(), "{step:?} has {fault:?} and {cause:?}");
            fault = Some(cause);
        }
    }
    fault
}
