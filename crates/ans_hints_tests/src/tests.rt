//! Small contents, and what the plays from the low and the high start show of their faults.

ghost use Rattle.std.specs.Prelude.{◌≡◌, ◌≤◌, IfOk, IfSome, None, length};
ghost use Rattle.ans_model.specs.Bytes.{longest_file, most_columns, most_lines};
ghost use Rattle.ans_model.specs.Screen.State.{sized};
ghost use Rattle.ans_model.specs.Verdict.Good.{IsGood};
ghost use Rattle.ans_model.specs.Verdict.LastFault.{IsDeserved};

mod full_rows;
mod kinds;
mod lines;
mod modern_numbers;
mod taller;
mod widths;

use ans_model::cell::{Cell, Position};
use ans_model::fault::{Cause, Fault};
use ans_model::size::Size;
use ans_model::start::Start;
use ans_pens::{cells_of_fault, cursors_before};
use ans_play::Player;
use ans_screen::PlainGrid;
use std::alloc::Global;
use std::process::Abort;
use std::test::Fail;

/// A content on a small screen, from the starts of a class.
#[derive(Clone, Copy)]
struct Played {
    start: Start,
    width: usize,
    lines: usize,
    content: &'static [u8],
}

/// A content, its fault, and where the two cursors are before it: their rows and columns, counted from
/// 0.
struct Stand {
    played: Played,
    fault: Fault,
    low: (usize, usize),
    high: (usize, usize),
}

/// A content that leaves a cell unknown: its row and column, counted from 1, and the byte and the
/// attribute in both plays.
struct Left {
    played: Played,
    named: (u16, u16),
    low: (u8, u8),
    high: (u8, u8),
}

macro_rules! start {
    (any) => {
        Start::ANY
    };
    (cleared) => {
        Start::CLEARED
    };
    (all but $part:ident) => {
        Start { $part: false, ..Start::CLEARED }
    };
}

macro_rules! played {
    ($($start:ident)+ $width:literal x $lines:literal, $content:literal) => {
        Played { start: start!($($start)+), width: $width, lines: $lines, content: $content }
    };
}

macro_rules! stands {
    ($($($start:ident)+ $width:literal x $lines:literal, $content:literal =>
        $offset:literal $cause:ident, $low:expr, $high:expr;)*) => {
        [$(Stand {
            played: played!($($start)+ $width x $lines, $content),
            fault: Fault { offset: $offset, cause: Cause::$cause },
            low: $low,
            high: $high,
        }),*]
    };
}

macro_rules! left {
    ($($($start:ident)+ $width:literal x $lines:literal, $content:literal =>
        $named:expr, $low:expr, $high:expr;)*) => {
        [$(Left {
            played: played!($($start)+ $width x $lines, $content),
            named: $named,
            low: $low,
            high: $high,
        }),*]
    };
}

/// A low start is at the first position, with wrap off; a high start is in the last column of the spare
/// row, with wrap on.
static STANDS: [Stand; 27] = stands! {
    any 3 x 2, b"A" => 0 PrintUnknownPlace, (0, 0), (2, 2);
    any 10 x 5, b"\x1b[5C\x1b[3B\x1b[2DA" => 12 PrintUnknownPlace, (3, 3), (5, 7);
    any 10 x 5, b"\x1b[2A\x1b[4D\x08A" => 9 PrintUnknownPlace, (0, 0), (3, 4);
    any 3 x 2, b"\x07\rA" => 2 PrintUnknownPlace, (0, 0), (2, 0);
    all but saved 6 x 2, b"Hello\x1b[uA" => 8 PrintUnknownPlace, (0, 0), (2, 5);
    all but cursor 3 x 2, b"\x1b[s\x1b[2;2H\x1b[uA" => 12 PrintUnknownPlace, (0, 0), (2, 2);
    all but wrap 2 x 2, b"abc" => 2 PrintUnknownPlace, (0, 1), (1, 0);
    all but wrap 3 x 2, b"\x1b[?7h\x1b[?7labc\x1b[?7hdefgh" => 22 PrintBelow, (2, 0), (2, 0);
    any 3 x 2, b"\t" => 0 PrintUnknownPlace, (0, 0), (2, 2);
    any 9 x 2, b"\x1b[2C\t" => 4 PrintUnknownPlace, (0, 2), (2, 8);
    all but wrap 4 x 2, b"\t" => 0 PrintUnknownPlace, (0, 3), (1, 0);
    all but wrap 4 x 2, b"a\t" => 1 PrintUnknownPlace, (0, 3), (1, 0);
    all but wrap 12 x 2, b"\t\t" => 1 PrintUnknownPlace, (0, 11), (1, 0);
    cleared 2 x 1, b"abc" => 2 PrintBelow, (1, 0), (1, 0);
    cleared 4 x 1, b"a\t" => 1 PrintBelow, (1, 0), (1, 0);
    cleared 4 x 1, b"\n\t" => 1 PrintBelow, (1, 0), (1, 0);
    any 3 x 2, b"\x1b[K" => 0 EraseUnknownPlace, (0, 0), (2, 2);
    any 3 x 2, b"\r\x1b[K" => 1 EraseUnknownPlace, (0, 0), (2, 0);
    any 3 x 2, b"\n" => 0 MayScroll, (0, 0), (2, 2);
    any 3 x 2, b"\x1b[1A\n\n" => 5 MayScroll, (1, 0), (2, 2);
    cleared 3 x 2, b"a\x1b[9;9H" => 1 OutsideScreen, (0, 1), (0, 1);
    any 3 x 2, b"\x1b[1C\x1b[9;9H" => 4 OutsideScreen, (0, 1), (2, 2);
    cleared 3 x 2, b"\n\n\n" => 2 Scrolls, (2, 0), (2, 0);
    cleared 3 x 2, b"\n\n\x1b[1C\n" => 6 Scrolls, (2, 1), (2, 1);
    cleared 3 x 2, b"ab\x1bX" => 2 BrokenSequence, (0, 2), (0, 2);
    cleared 3 x 2, b"a\x1b[" => 1 EndInSequence, (0, 1), (0, 1);
    cleared 20 x 2, b"a\x1b[13;\"dir\";13p" => 1 KeyReassigned, (0, 1), (0, 1);
};

/// The low start has the byte 00h and the attribute 00h in each cell, and the high start FFh.
static LEFT: [Left; 13] = left! {
    any 3 x 2, b"" => (1, 1), (0x00, 0x00), (0xFF, 0xFF);
    any 2 x 1, b"\x1b[HA" => (1, 1), (b'A', 0x00), (b'A', 0xFF);
    any 2 x 1, b"\x1b[0m\x1b[HA" => (1, 2), (0x00, 0x00), (0xFF, 0xFF);
    any 2 x 1, b"\x1b[1;2HB\x1b[0m\x1b[1;1HA" => (1, 2), (b'B', 0x00), (b'B', 0xFF);
    any 2 x 1, b"\x1b[H\x1b[K\x1b[0mA" => (1, 2), (b' ', 0x00), (b' ', 0xFF);
    all but colours 3 x 2, b"\x1b[2;3H\x1b[K" => (2, 3), (b' ', 0x00), (b' ', 0xFF);
    all but screen 3 x 2, b"\x1b[2;1H\x1b[K\x1b[1;1Hab" => (1, 3), (0x00, 0x00), (0xFF, 0xFF);
    all but screen 3 x 2, b"\x1b[1;2H\x1b[K" => (1, 1), (0x00, 0x00), (0xFF, 0xFF);
    any 2 x 1, b"\x1b[2J\x1b[0mA" => (1, 2), (b' ', 0x00), (b' ', 0xFF);
    any 2 x 1, b"\x1b[1;31m\x1b[2J" => (1, 1), (b' ', 0x0C), (b' ', 0xFC);
    any 9 x 1, b"\x1b[1;1H\t" => (1, 1), (b' ', 0x00), (b' ', 0xFF);
    all but screen 3 x 2, b"abc" => (2, 1), (0x00, 0x00), (0xFF, 0xFF);
    all but colours 2 x 2, b"\x1b[2;2HA" => (2, 2), (b'A', 0x00), (b'A', 0xFF);
};

/// The fault of a content, if the play finds one.
fn fault_of(
    alloc: Global,
    width: usize,
    lines: usize,
    start: Start,
    content: &[u8],
) -> Result<Option<Fault>, Fail>
    requires some_columns { 1 ≤ width }
    requires columns { width ≤ most_columns }
    requires some_lines { 1 ≤ lines }
    requires lines { lines ≤ most_lines }
    requires length { length content.now ≤ longest_file }
    ensures fault { IfOk result (λ found. IfSome found (IsDeserved (sized width lines) start content.now)) }
    ensures good { IfOk result (λ found. found ≡ None → IsGood (sized width lines) start content.now) }
{
    let mut player = Player::<PlainGrid>::new(alloc, width, lines, start)?;
    if let Err(fault) = player.feed(content) {
        return Ok(Some(fault));
    }
    let Err(fault) = player.finish() else {
        return Ok(None);
    };
    Ok(Some(fault))
}

/// The size of the screen that a content is played on, and the fault that it has.
fn faulty(rt: &impl Abort, alloc: Global, played: Played) -> Result<(Size, Fault), Fail>
    ensures length { length played.content.now ≤ longest_file }
    ensures deserved { IfOk result (λ r. IsDeserved r.0 played.start played.content.now r.1) }
{
    let Played {
        start,
        width,
        lines,
        content,
    } = played;
    assert!(rt; 1 <= width && width <= 20 && 1 <= lines && lines <= 10 && content.len() < 200);
    match fault_of(alloc, width, lines, start, content)? {
        Some(fault) => Ok((Size::new(width, lines), fault)),
        None => panic!(rt; "no fault, in {content:?}"),
    }
}

/// Asserts the fault of a content, and where the two cursors are before it.
fn expect_stand(rt: &impl Abort, alloc: Global, row: &Stand) -> Result<(), Fail> {
    let Stand {
        played,
        fault,
        low,
        high,
    } = *row;
    let content = played.content;
    let (size, found) = faulty(rt, alloc, played)?;
    let (low_cursor, high_cursor) = cursors_before(size, played.start, content, found);
    let stand = (
        found,
        (low_cursor.row, low_cursor.column),
        (high_cursor.row, high_cursor.column),
    );
    assert!(rt; stand == (fault, low, high), "in {content:?}");
    Ok(())
}

/// Asserts the cell that a content leaves unknown, and what it holds in both plays.
fn expect_left(rt: &impl Abort, alloc: Global, row: &Left) -> Result<(), Fail> {
    let Left {
        played,
        named: (row, col),
        low,
        high,
    } = *row;
    let content = played.content;
    let (size, found) = faulty(rt, alloc, played)?;
    let named = Cause::UnknownCell { row, col };
    assert_eq!(rt; found.cause, named, "in {content:?}");
    match cells_of_fault(size, played.start, content, found) {
        Some((low_cell, high_cell)) => {
            let low_found = (low_cell.byte, low_cell.attribute);
            let high_found = (high_cell.byte, high_cell.attribute);
            assert!(rt; (low_found, high_found) == (low, high), "in {content:?}");
        }
        None => panic!(rt; "no cell where one was named, in {content:?}"),
    }
    Ok(())
}

#[test]
fn plays_show_their_faults(rt: HostRuntime) -> Result<(), Fail> {
    for row in &STANDS {
        expect_stand(&rt, rt.alloc(), row)?;
    }
    for row in &LEFT {
        expect_left(&rt, rt.alloc(), row)?;
    }
    Ok(())
}
