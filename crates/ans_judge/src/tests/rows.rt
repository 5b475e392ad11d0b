//! The slow machine by itself: the rows of `ans_samples`, and a screen that scrolls, which none of them
//! shows.

use super::machine::Machine;
use super::slow_machine::SlowMachine;
use ans_model::cell::{Cell, Position};
use ans_model::fault::Fault;
use ans_model::kind::Kind;
use ans_model::size::Size;
use ans_model::start::Start;
use ans_samples::rows::Expected::{Refused, Shows};
use ans_samples::rows::{Row, tables};
use arrayvec::ArrayVec;
use std::alloc::{AllocError, Global};
use std::process::Abort;

/// Asserts the bytes of the first cells, and their attributes where these are compared.
fn assert_cells(rt: &impl Abort, cells: &[Cell], bytes: &[u8], attributes: &[u8]) {
    assert!(rt; bytes.len() <= cells.len());
    assert!(rt; attributes.is_empty() || attributes.len() == bytes.len());
    for i in 0..bytes.len() {
        assert_eq!(rt; cells[i].byte, bytes[i]);
        if let Some(attribute) = attributes.get(i) {
            assert_eq!(rt; cells[i].attribute, *attribute);
        }
    }
}

/// Asserts that the slow machine finds what is expected of a row.
fn expect_finding(rt: &impl Abort, alloc: Global, row: &Row) -> Result<(), AllocError> {
    let Row {
        width,
        lines,
        content,
        ..
    } = *row;
    let mut plays = SlowMachine::new(rt, alloc, width, lines, row.start)?;
    plays.play_up_to(rt, content);
    match (plays.finding(rt, content.len()), row.expected) {
        (Ok(cells), Shows(bytes, attributes)) => {
            assert_eq!(rt; bytes.len(), width.wrapping_mul(lines));
            assert_cells(rt, cells, bytes, attributes);
        }
        (Err(fault), Refused(offset, cause)) => {
            assert_eq!(rt; fault, Fault { offset, cause }, "in {content:?}");
        }
        _ => panic!(rt; "a picture where a fault was expected, or the reverse, in {content:?}"),
    }
    Ok(())
}

fn expect_findings(rt: &impl Abort, alloc: Global, rows: &[Row]) -> Result<(), AllocError> {
    for row in rows {
        expect_finding(rt, alloc, row)?;
    }
    Ok(())
}

#[test]
fn rows_are_found(rt: HostRuntime) -> Result<(), AllocError> {
    for rows in tables() {
        expect_findings(&rt, rt.alloc(), rows)?;
    }
    Ok(())
}

fn print(rt: &impl Abort, machine: &mut Machine, bytes: &[u8]) {
    for byte in bytes {
        machine.step(rt, &Kind::Glyph(*byte));
    }
}

/// A line of glyphs wraps at once: after the last column the cursor is in the row below.
#[test]
fn wrap_is_immediate(rt: HostRuntime) -> Result<(), AllocError> {
    let mut machine = Machine::low(rt.alloc(), Size::new(2, 1), Start::CLEARED)?;
    print(&rt, &mut machine, b"Hi");
    assert_eq!(rt; machine.cursor(), Position { row: 1, column: 0 });
    Ok(())
}

/// A line feed in the spare row scrolls: the first line is gone, and the last row is blank in the
/// current colours.
#[test]
fn line_feeds_scroll(rt: HostRuntime) -> Result<(), AllocError> {
    let mut machine = Machine::low(rt.alloc(), Size::new(2, 2), Start::CLEARED)?;
    print(&rt, &mut machine, b"abcd");
    let mut red = ArrayVec::new();
    let _ = red.try_push(41);
    machine.step(&rt, &Kind::Colours(red));
    machine.step(&rt, &Kind::LineFeed);
    print(&rt, &mut machine, b"x");
    let attributes = [0x07, 0x07, 0x07, 0x07, 0x47, 0x47];
    assert_eq!(rt; machine.cells().len(), 6);
    assert_cells(&rt, machine.cells(), b"cd  x ", &attributes);
    Ok(())
}
