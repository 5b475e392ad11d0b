//! Every prefix of each content of `ans_samples`: what is found of it from each of the 32 classes of
//! starts, and what it needs.

use super::needs::judge_needs_of_prefixes;
use super::slow_machine::SlowMachine;
use super::verdicts::{Screen, judge};
use super::{CLASSES, class};
use ans_samples::rows::{Row, tables};
use std::alloc::{AllocError, Global};
use std::process::Abort;

/// Judges the prefixes of a content from the shortest of these lengths to the longest. The slow
/// machine goes from one to the next by a byte.
pub fn judge_prefixes(
    rt: &impl Abort,
    alloc: Global,
    screen: Screen,
    content: &[u8],
    lengths: (usize, usize),
) -> Result<(), AllocError> {
    let mut plays = SlowMachine::new(rt, alloc, screen.width, screen.lines, screen.start)?;
    let (shortest, longest) = lengths;
    assert!(rt; shortest <= longest && longest <= content.len());
    for length in shortest..longest + 1 {
        let bytes = &content[..length];
        plays.play_up_to(rt, bytes);
        judge(rt, alloc, screen, bytes, &plays)?;
    }
    Ok(())
}

/// Judges each prefix of a content from each class.
pub fn judge_classes(
    rt: &impl Abort,
    alloc: Global,
    width: usize,
    lines: usize,
    content: &[u8],
) -> Result<(), AllocError> {
    for number in 0..CLASSES {
        let screen = Screen {
            width,
            lines,
            start: class(number),
        };
        judge_prefixes(rt, alloc, screen, content, (0, content.len()))?;
    }
    Ok(())
}

fn judge_rows(rt: &impl Abort, alloc: Global, rows: &[Row]) -> Result<(), AllocError> {
    for row in rows {
        judge_classes(rt, alloc, row.width, row.lines, row.content)?;
        judge_needs_of_prefixes(rt, alloc, row)?;
    }
    Ok(())
}

#[test]
fn prefixes_of_the_rows(rt: HostRuntime) -> Result<(), AllocError> {
    for rows in tables() {
        judge_rows(&rt, rt.alloc(), rows)?;
    }
    Ok(())
}
