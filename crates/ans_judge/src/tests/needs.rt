//! What contents need, compared with the classes of starts from which the slow machine finds them
//! good.

use super::slow_machine::SlowMachine;
use super::{CLASSES, class, file_of};
use ans_check::{Judged, needs};
use ans_model::fault::Fault;
use ans_model::limits::MAX_FILE;
use ans_model::start::Start;
use ans_samples::rows::Row;
use ans_screen::{Grid, PlainGrid, PlaneGrid};
use std::alloc::{AllocError, Global};
use std::process::Abort;

/// Whether a class knows each part that another one knows.
fn knows_all_of(class: Start, other: Start) -> bool {
    (class.screen || !other.screen)
        && (class.cursor || !other.cursor)
        && (class.saved || !other.saved)
        && (class.colours || !other.colours)
        && (class.wrap || !other.wrap)
}

/// The fault that the slow machine finds of bytes, if it finds one.
fn fault_from(
    rt: &impl Abort,
    alloc: Global,
    row: &Row,
    bytes: &[u8],
    start: Start,
) -> Result<Option<Fault>, AllocError> {
    let mut plays = SlowMachine::new(rt, alloc, row.width, row.lines, start)?;
    plays.play_up_to(rt, bytes);
    Ok(plays.finding(rt, bytes.len()).err())
}

/// The faults that the slow machine finds of some bytes, one from each class by its number.
type Findings = [Option<Fault>; CLASSES as usize];

fn faults_from_all(
    rt: &impl Abort,
    alloc: Global,
    row: &Row,
    bytes: &[u8],
) -> Result<Findings, AllocError> {
    let mut faults = [None; CLASSES as usize];
    for number in 0..CLASSES {
        faults[number as usize] = fault_from(rt, alloc, row, bytes, class(number))?;
    }
    Ok(faults)
}

/// Judges what a file of these bytes needs. If the answer is a class, the bytes are good from it, and from
/// exactly the classes that know all that it knows. If the answer is a fault, it is that of the cleared
/// start, and the bytes are good from no class.
fn judge_needs<G: Grid>(
    rt: &impl Abort,
    alloc: Global,
    row: &Row,
    bytes: &[u8],
    faults: &Findings,
) -> Result<(), AllocError> {
    let file = file_of(rt, alloc, bytes, row.width, row.lines)?;
    assert!(rt; file.len() <= MAX_FILE);
    let told = match needs::<G>(alloc, &file)? {
        Judged::Passes(_, least) => Ok(least),
        Judged::NoContent(fault) | Judged::Refused(_, fault) => Err(fault),
    };
    for number in 0..CLASSES {
        let start = class(number);
        let fault = faults[number as usize];
        let agrees = match told {
            Ok(least) => fault.is_none() == knows_all_of(start, least),
            Err(_) if number < CLASSES - 1 => fault.is_some(),
            Err(refused) => fault == Some(refused),
        };
        assert!(rt;
            agrees,
            "{told:?} told of {bytes:?}, and {fault:?} found from {start:?}"
        );
    }
    Ok(())
}

/// Judges what each prefix of a content needs, on both grids.
pub fn judge_needs_of_prefixes(
    rt: &impl Abort,
    alloc: Global,
    row: &Row,
) -> Result<(), AllocError> {
    for length in 0..row.content.len() + 1 {
        let bytes = &row.content[..length];
        let faults = faults_from_all(rt, alloc, row, bytes)?;
        judge_needs::<PlainGrid>(rt, alloc, row, bytes, &faults)?;
        judge_needs::<PlaneGrid>(rt, alloc, row, bytes, &faults)?;
    }
    Ok(())
}
