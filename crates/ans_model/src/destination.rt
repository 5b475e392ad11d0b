//! Where moves end.

ghost use Rattle.std.specs.Prelude.{◌≡◌};
ghost use Rattle.ans_model.specs.Inside.ShownKind.{shown_kind};
ghost use Rattle.ans_model.specs.Screen.State.{IsOnScreen};
ghost use Rattle.ans_model.specs.Screen.Step.{destination};

use crate::cell::Position;
use crate::kind::Kind;
use crate::size::Size;

/// Where a token takes a cursor, by row and column from 0, if that is all that it does. A move stops at the
/// screen's edge, also one to a row and a column (ANSI.SYS). For any other token it is the place
/// given, though a printed byte moves a cursor on.
#[inline(always)]
pub fn destination(position: Position, kind: &Kind, size: Size) -> Position
    requires { IsOnScreen size position }
    ensures { result ≡ destination size (shown_kind kind.now) position }
{
    let Position { row, column } = position;
    let last_row = size.lines();
    let last_column = size.width() - 1;
    match kind {
        Kind::Up(rows) => Position {
            row: row.saturating_sub(*rows as usize),
            column,
        },
        Kind::Down(rows) => Position {
            row: (row + *rows as usize).min(last_row),
            column,
        },
        Kind::Forward(columns) => Position {
            row,
            column: (column + *columns as usize).min(last_column),
        },
        Kind::Backward(columns) => Position {
            row,
            column: column.saturating_sub(*columns as usize),
        },
        Kind::Place(to_row, to_column) => Position {
            row: (*to_row as usize).saturating_sub(1).min(last_row),
            column: (*to_column as usize).saturating_sub(1).min(last_column),
        },
        Kind::BackSpace => Position {
            row,
            column: column.saturating_sub(1),
        },
        Kind::CarriageReturn => Position { row, column: 0 },
        _ => position,
    }
}
