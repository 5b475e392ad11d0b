//! What the checker finds of bytes, compared with what the slow machine finds.

use super::file_of;
use super::slow_machine::SlowMachine;
use ans_check::{Verdict, check};
use ans_model::cell::Cell;
use ans_model::fault::Fault;
use ans_model::limits::{MAX_FILE, MAX_LINES, MAX_WIDTH};
use ans_model::start::Start;
use ans_play::{Picture, Player};
use ans_screen::{Grid, PlainGrid, PlaneGrid};
use std::alloc::{AllocError, Global};
use std::process::Abort;

/// Where bytes are played.
#[derive(Debug, Clone, Copy)]
pub struct Screen {
    pub width: usize,
    pub lines: usize,
    pub start: Start,
}

/// Asserts that a row of a picture, counted from 0, has the cells of that row.
fn assert_row<G: Grid>(rt: &impl Abort, picture: &Picture<G>, row: usize, cells: &[Cell]) {
    assert!(rt; row < picture.lines());
    for col in 0..picture.width() {
        let cell = Cell {
            byte: picture.glyph(row, col),
            attribute: picture.attr(row, col),
        };
        let place = row.wrapping_mul(picture.width()).wrapping_add(col);
        assert_eq!(rt;
            Some(&cell),
            cells.get(place),
            "row {row} and column {col} from 0"
        );
    }
}

/// Asserts that a picture has this size and these cells.
fn assert_shows<G: Grid>(rt: &impl Abort, screen: Screen, picture: &Picture<G>, cells: &[Cell]) {
    let size = (picture.width(), picture.lines());
    assert_eq!(rt; size, (screen.width, screen.lines));
    for row in 0..screen.lines {
        assert_row(rt, picture, row, cells);
    }
}

/// Bytes, and what the slow machine finds of them: the cells with which both screens begin, or a fault.
#[derive(Clone, Copy)]
struct Judged<'a> {
    screen: Screen,
    bytes: &'a [u8],
    finding: Result<&'a [Cell], Fault>,
}

impl Judged<'_> {
    /// Asserts that a play ends as the slow machine finds.
    fn assert_end<G: Grid>(self, rt: &impl Abort, end: &Result<Picture<G>, Fault>) {
        let screen = self.screen;
        match (end, self.finding) {
            (Ok(picture), Ok(cells)) => assert_shows(rt, screen, picture, cells),
            (end, found) => assert_eq!(rt;
                end.as_ref().err(),
                found.as_ref().err(),
                "on {screen:?}"
            ),
        }
    }

    /// Judges a check of a file of these bytes.
    fn judge_check<G: Grid>(self, rt: &impl Abort, alloc: Global) -> Result<(), AllocError> {
        let Judged { screen, bytes, .. } = self;
        let file = file_of(rt, alloc, bytes, screen.width, screen.lines)?;
        assert!(rt; file.len() <= MAX_FILE);
        let (parts, end) = match check::<G>(alloc, &file, screen.start)? {
            Verdict::Pass(parts, picture) => (Some(parts), Ok(picture)),
            Verdict::Refused(parts, fault) => (parts, Err(fault)),
        };
        let parts = parts.expect(rt, "the record is accepted");
        assert_eq!(rt;
            (parts.content(), parts.width(), parts.lines()),
            (bytes, screen.width, screen.lines)
        );
        self.assert_end(rt, &end);
        Ok(())
    }

    /// The end of a player to which the bytes are fed at once.
    fn end_of_player(
        self,
        rt: &impl Abort,
        alloc: Global,
    ) -> Result<Result<Picture<PlaneGrid>, Fault>, AllocError> {
        let Screen {
            width,
            lines,
            start,
        } = self.screen;
        assert!(rt; 1 <= width && width <= MAX_WIDTH && 1 <= lines && lines <= MAX_LINES);
        assert!(rt; self.bytes.len() <= MAX_FILE);
        let mut player = Player::<PlaneGrid>::new(alloc, width, lines, start)?;
        assert!(rt; player.fed() == 0);
        let fed = player.feed(self.bytes);
        let end = player.finish();
        if let Err(fault) = fed {
            assert_eq!(rt; end.err(), Some(fault));
            return Ok(Err(fault));
        }
        Ok(end)
    }
}

/// Judges all that is found of the bytes which the slow machine has played: by a check on both
/// grids and by a player. It fails where memory runs out.
pub fn judge(
    rt: &impl Abort,
    alloc: Global,
    screen: Screen,
    bytes: &[u8],
    plays: &SlowMachine,
) -> Result<(), AllocError> {
    let judged = Judged {
        screen,
        bytes,
        finding: plays.finding(rt, bytes.len()),
    };
    judged.judge_check::<PlainGrid>(rt, alloc)?;
    judged.judge_check::<PlaneGrid>(rt, alloc)?;
    let end = judged.end_of_player(rt, alloc)?;
    judged.assert_end(rt, &end);
    Ok(())
}
