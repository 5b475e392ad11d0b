//! What the slow machine finds, and what the checker has to find too.

mod long_contents;
mod machine;
mod needs;
mod prefixes;
mod reading;
mod rows;
mod slow_machine;
mod starts;
mod step_faults;
mod verdicts;

use ans_model::limits::{MAX_FILE, MAX_LINES, MAX_WIDTH};
use ans_model::start::Start;
use ans_samples::sample_file;
use std::alloc::{AllocError, Global};
use std::process::Abort;

/// The number of classes of starts.
const CLASSES: u8 = 32;

fn has_bit(number: u8, bit: u8) -> bool {
    number & bit != 0
}

/// The class of a number below 32: each bit is a part that is known.
fn class(number: u8) -> Start {
    Start {
        screen: has_bit(number, 1),
        cursor: has_bit(number, 2),
        saved: has_bit(number, 4),
        colours: has_bit(number, 8),
        wrap: has_bit(number, 16),
    }
}

/// A file of this content: then an end mark, and the plain record of this width and these lines. It
/// fails where memory runs out.
fn file_of(
    rt: &impl Abort,
    alloc: Global,
    content: &[u8],
    width: usize,
    lines: usize,
) -> Result<Vec<u8>, AllocError> {
    assert!(rt; content.len() < MAX_FILE && width <= MAX_WIDTH && lines <= MAX_LINES);
    let mut front = content.to_vec(alloc)?;
    front.push(0x1A)?;
    let file_size = (content.len() as u32).to_le_bytes();
    let width = (width as u16).to_le_bytes();
    let lines = (lines as u16).to_le_bytes();
    sample_file(
        alloc,
        &front,
        &[(90, &file_size), (96, &width), (98, &lines)],
    )
}
