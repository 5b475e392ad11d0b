//! What the plays from the low and the high start show of a fault.
//!
//! They are played over the tokens before the fault, none of which scrolls. So of each play one cell
//! is enough, and no memory is taken.

ghost use Rattle.std.specs.Prelude.{◌≡◌, ◌≤◌, ℕ, List, length};
ghost use Rattle.ans_model.specs.Bytes.{longest_file};
ghost use Rattle.ans_model.specs.File.Refusals.{fault_at};
ghost use Rattle.ans_model.specs.Sequence.TokenKind.{TokenKind};
ghost use Rattle.ans_model.specs.Sequence.Reads.{Reads};
ghost use Rattle.ans_model.specs.Screen.State.{IsOnScreen};
ghost use Rattle.ans_model.specs.declared.fault.Cause.TheVariants.{UnknownCell};
ghost use Rattle.ans_model.specs.Verdict.TokenFault.{IsClean};
ghost use Rattle.ans_model.specs.Verdict.LastFault.{IsLastFault, IsDeserved};
ghost use Rattle.ans_pens.specs.CellPlays.{AreKept, BothStandOn};
ghost use Rattle.ans_pens.specs.Evidence.{ShowsCursors, ShowsCells, ShowsNamed, begins_with_tab};

use crate::pen::HOME;
use crate::two_cell_plays::TwoCellPlays;
use ans_model::cell::{Cell, Position};
use ans_model::fault::{Cause, Fault};
use ans_model::size::Size;
use ans_model::start::Start;
use ans_tokens::{Token, Walker, walk};

/// The two plays over the tokens of a content.
#[derive(Clone, Copy)]
struct CellWalk {
    size: Size,
    at: Position,
    plays: TwoCellPlays,
}

impl Walker for CellWalk {
    ghost use Rattle.ans_tokens.specs.Walk.{StaysPast};
    ghost use Rattle.ans_model.specs.Screen.State.{IsOnScreen};
    ghost use Rattle.ans_pens.specs.CellPlays.{BothStandOn, HasKept};

    ghost ready = { λ w offset. IsOnScreen w.size w.at × BothStandOn w.size w.plays };

    ghost walked = { λ first front now goes_on. HasKept first front.tokens goes_on now };

    ghost takes = { StaysPast (λ first front now goes_on. HasKept first front.tokens goes_on now) };

    #[inline(always)]
    fn token(&mut self, token: &Token, _behind: &[u8]) -> bool {
        self.plays.step(self.size, self.at, token.kind());
        true
    }

    fn room(&self) -> usize {
        0
    }

    fn take(&mut self, _run: &[u8], _offset: usize) {}
}

/// The two plays after bytes that are read as clean tokens.
fn play_tokens(size: Size, start: Start, at: Position, bytes: &[u8]) -> TwoCellPlays
    requires length { length bytes.now ≤ longest_file }
    requires at { IsOnScreen size at }
    ensures stand { BothStandOn size result }
    ensures kept { (tokens : List TokenKind) → Reads bytes.now tokens → IsClean size start tokens
        → AreKept size start at tokens result }
{
    let plays = TwoCellPlays::new(size, start, at);
    let mut cell_walk = CellWalk { size, at, plays };
    let _ = walk(bytes, bytes.len(), &mut cell_walk);
    cell_walk.plays
}

fn begins_with_tab(bytes: &[u8]) -> bool
    ensures { result ≡ begins_with_tab bytes.now }
{
    matches!(bytes, [b'\t', ..])
}

/// Where the cursor is before a fault in the plays from the low and from the high start of a class:
/// before the fault's token, and in a tab before the blank that decides. It takes no memory.
pub fn cursors_before(
    size: Size,
    start: Start,
    content: &[u8],
    fault: Fault,
) -> (Position, Position)
    requires length { length content.now ≤ longest_file }
    requires deserved { IsDeserved size start content.now fault }
    ensures shows { ShowsCursors size start content.now fault result.0 result.1 }
    ensures low_on_screen { IsOnScreen size result.0 }
    ensures high_on_screen { IsOnScreen size result.1 }
{
    let (front, rest) = content.split_at(fault.offset);
    let mut plays = play_tokens(size, start, HOME, front);
    if begins_with_tab(rest) {
        plays.blanks(size, HOME);
    }
    (plays.low.pen.cursor, plays.high.pen.cursor)
}

/// The cell in a row and a column, counted from 1, at the end of both plays.
fn play_cell(size: Size, start: Start, content: &[u8], row: u16, column: u16) -> (Cell, Cell)
    requires length { length content.now ≤ longest_file }
    requires named { IsLastFault size start content.now
        (fault_at (length content.now) (UnknownCell row column)) }
    ensures { ShowsCells size start content.now row column result.0 result.1 }
{
    let at = Position {
        row: row as usize - 1,
        column: column as usize - 1,
    };
    let plays = play_tokens(size, start, at, content);
    (plays.low.cell, plays.high.cell)
}

/// The cell that F25 names at the end of the play from the low and of that from the high start of a
/// class: they differ in it. None for another fault. It takes no memory.
pub fn cells_of_fault(
    size: Size,
    start: Start,
    content: &[u8],
    fault: Fault,
) -> Option<(Cell, Cell)>
    requires length { length content.now ≤ longest_file }
    requires deserved { IsDeserved size start content.now fault }
    ensures { ShowsNamed size start content.now fault.cause result }
{
    match fault.cause {
        Cause::UnknownCell { row, col } => Some(play_cell(size, start, content, row, col)),
        _ => None,
    }
}
