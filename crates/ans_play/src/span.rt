//! Where a cursor may be.

ghost use Rattle.std.specs.Prelude.{◌≡◌, ◌<◌};
ghost use Rattle.ans_model.specs.Inside.ShownKind.{shown_kind};

use ans_model::cell::Position;
use ans_model::destination::destination;
use ans_model::kind::Kind;
use ans_model::size::Size;

/// A lowest and a highest row and column. The cursor of every play is between them, and in each direction that of some
/// play is at either end.
#[derive(Clone, Copy)]
pub struct Span {
    pub low: Position,
    pub high: Position,
}

impl Span {
    ghost use Rattle.ans_play.specs.HalfState.{one_position, IsSpanOnScreen};
    ghost use Rattle.ans_play.specs.HalfStart.{start_span};
    ghost use Rattle.ans_play.specs.HalfStep.{after_move, one_row_down};
    ghost use Rattle.ans_play.specs.HalfFault.{is_one_position};

    pub fn at(row: usize, column: usize) -> Span
        ensures { result ≡ one_position row column }
    {
        let position = Position { row, column };
        Span {
            low: position,
            high: position,
        }
    }

    pub fn of_start(known: bool, size: Size) -> Span
        ensures of_start { result ≡ start_span size known }
        ensures on_screen { IsSpanOnScreen size result }
    {
        if known {
            return Span::at(0, 0);
        }
        Span {
            low: Position { row: 0, column: 0 },
            high: Position {
                row: size.lines(),
                column: size.width() - 1,
            },
        }
    }

    /// Whether the cursor of every play is at one position.
    pub fn is_one_position(self) -> bool
        ensures { result ≡ is_one_position self }
    {
        self.low.row == self.high.row && self.low.column == self.high.column
    }

    #[inline(always)]
    pub fn after_move(self, kind: &Kind, size: Size) -> Span
        requires { IsSpanOnScreen size self }
        ensures after_move { result ≡ after_move size (shown_kind kind.now) self }
        ensures on_screen { IsSpanOnScreen size result }
    {
        Span {
            low: destination(self.low, kind, size),
            high: destination(self.high, kind, size),
        }
    }

    /// One row down, above the spare row of a screen of this size.
    pub fn one_row_down(self, size: Size) -> Span
        requires on_screen { IsSpanOnScreen size self }
        requires above { self.high.row < size.lines }
        ensures one_row_down { result ≡ one_row_down self }
        ensures on_screen { IsSpanOnScreen size result }
    {
        let low = Position {
            row: self.low.row + 1,
            column: self.low.column,
        };
        let high = Position {
            row: self.high.row + 1,
            column: self.high.column,
        };
        Span { low, high }
    }
}
