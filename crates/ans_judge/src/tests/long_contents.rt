//! Contents that are too long for `ans_samples`, and wide and long screens.

use super::prefixes::{judge_classes, judge_prefixes};
use super::verdicts::Screen;
use ans_model::start::Start;
use std::alloc::{AllocError, Global};
use std::process::Abort;

/// From the cleared start.
fn cleared(width: usize, lines: usize) -> Screen {
    Screen {
        width,
        lines,
        start: Start::cleared(),
    }
}

/// Judges prefixes of 4095 letters, a sequence across the end of the 4096th byte, and a letter more:
/// those from the shortest of these lengths to the longest, from the cleared start and where only the
/// screen is not known.
fn judge_letters(
    rt: &impl Abort,
    alloc: Global,
    shortest: usize,
    longest: usize,
) -> Result<(), AllocError> {
    let mut content = [b'a'; 4100];
    content[4095..].copy_from_slice(b"\x1b[1mb");
    let screen = cleared(80, 52);
    judge_prefixes(rt, alloc, screen, &content, (shortest, longest))?;
    let mut unknown = screen;
    unknown.start.screen = false;
    judge_prefixes(rt, alloc, unknown, &content, (shortest, longest))
}

#[test]
fn a_sequence_after_many_letters(rt: HostRuntime) -> Result<(), AllocError> {
    for (shortest, longest) in [(0, 1024), (1025, 2048), (2049, 3072), (3073, 4100)] {
        judge_letters(&rt, rt.alloc(), shortest, longest)?;
    }
    Ok(())
}

/// Overwrites bytes of a content from an offset on.
fn put(rt: &impl Abort, content: &mut [u8], at: usize, bytes: &[u8]) {
    assert!(rt; at <= content.len() && bytes.len() <= content.len() - at);
    content[at..at + bytes.len()].copy_from_slice(bytes);
}

/// One sequence crosses the end of the first 4096 bytes, and another the end of the next 4096; the bytes
/// around them are returns. The prefixes end before, in and after these sequences.
#[test]
fn two_sequences_cross_three_pieces(rt: HostRuntime) -> Result<(), AllocError> {
    let mut content = [b'\r'; 8195];
    put(&rt, &mut content, 4093, b"a\x1b[1mb");
    put(&rt, &mut content, 8190, b"\x1b[2Cc");
    for lengths in [(4092, 4100), (8188, 8195)] {
        judge_prefixes(&rt, rt.alloc(), cleared(3, 1), &content, lengths)?;
    }
    Ok(())
}

#[test]
fn a_number_of_many_digits(rt: HostRuntime) -> Result<(), AllocError> {
    let mut content = [b'0'; 1004];
    content[..2].copy_from_slice(b"\x1b[");
    content[1002..].copy_from_slice(b"5C");
    judge_prefixes(&rt, rt.alloc(), cleared(2, 1), &content, (0, 1004))
}

#[test]
fn a_string_that_does_not_end(rt: HostRuntime) -> Result<(), AllocError> {
    let mut content = [0x1B; 100_003];
    content[1..3].copy_from_slice(b"[\"");
    let screen = cleared(2, 1);
    judge_prefixes(&rt, rt.alloc(), screen, &content, (0, 100))?;
    judge_prefixes(&rt, rt.alloc(), screen, &content, (99_903, 100_003))
}

#[test]
fn two_letters_on_a_wide_line(rt: HostRuntime) -> Result<(), AllocError> {
    judge_classes(&rt, rt.alloc(), 80, 1, b"Hi")
}

#[test]
fn the_widest_screen(rt: HostRuntime) -> Result<(), AllocError> {
    judge_classes(&rt, rt.alloc(), 1024, 1, b"\x1b[0m\x1b[2J")
}

#[test]
fn the_longest_screen(rt: HostRuntime) -> Result<(), AllocError> {
    judge_classes(&rt, rt.alloc(), 1, 8192, b"\x1b[0m\x1b[2J")
}

/// The largest screen, from any start.
const LARGEST: Screen = Screen {
    width: 1024,
    lines: 8192,
    start: Start::ANY,
};

/// From any start the screen is erased.
#[test]
fn the_largest_screen_erased(rt: HostRuntime) -> Result<(), AllocError> {
    judge_prefixes(&rt, rt.alloc(), LARGEST, b"\x1b[0m\x1b[2J", (8, 8))
}

/// From any start the screen is erased, and then a letter is printed in its last stated cell.
#[test]
fn the_largest_screen(rt: HostRuntime) -> Result<(), AllocError> {
    let mut content = b"\x1b[0m\x1b[2J".to_vec(rt.alloc())?;
    for _ in 0..33 {
        content.extend_from_slice(b"\x1b[255B\x1b[255C")?;
    }
    content.extend_from_slice(b"\x1b[Az")?;
    let whole = (content.len(), content.len());
    judge_prefixes(&rt, rt.alloc(), LARGEST, &content, whole)
}
