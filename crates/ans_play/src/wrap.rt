//! What is known of wrap.

ghost use Rattle.std.specs.Prelude.{◌≡◌, ◌≤◌, Some, None, IfOk, IfErr};
ghost use Rattle.ans_model.specs.Screen.State.{IsStated};

use crate::span::Span;
use ans_model::cell::Position;
use ans_model::fault::Cause;
use ans_model::size::Size;

/// Whether a byte printed in the last column takes the cursor to the next row.
#[derive(Clone, Copy)]
pub enum WrapMode {
    On,
    Off,
    /// On from some starts and off from others.
    Unknown,
}

impl WrapMode {
    ghost use Rattle.ans_play.specs.HalfState.{IsSpanOnScreen};
    ghost use Rattle.ans_play.specs.HalfStart.{start_wrap};
    ghost use Rattle.ans_play.specs.HalfStep.{wrap_of, after_print};
    ghost use Rattle.ans_play.specs.HalfBlanks.{fault_of_blanks, end_of_blanks, after_blanks};

    pub fn of(on: bool) -> WrapMode
        ensures { result ≡ wrap_of on }
    {
        if on { WrapMode::On } else { WrapMode::Off }
    }

    pub fn of_start(known: bool) -> WrapMode
        ensures { result ≡ start_wrap known }
    {
        if known {
            WrapMode::On
        } else {
            WrapMode::Unknown
        }
    }

    /// Where the cursor may be after a byte printed at one position of the stated lines.
    pub fn after_print(self, position: Position, size: Size) -> Span
        requires { IsStated size position }
        ensures after_print { result ≡ after_print size self position }
        ensures on_screen { IsSpanOnScreen size result }
    {
        let Position { row, column } = position;
        if column + 1 < size.width() {
            return Span::at(row, column + 1);
        }
        match self {
            WrapMode::On => Span::at(row + 1, 0),
            WrapMode::Off => Span::at(row, column),
            WrapMode::Unknown => Span {
                low: Position { row, column: 0 },
                high: Position {
                    row: row + 1,
                    column: size.width() - 1,
                },
            },
        }
    }

    /// Where the cursor may be after a run of blanks printed from one position of the stated lines. An error is the
    /// fault of the first of them that has one: F20 if it is in the spare row, F22 if wrap is unknown and the row has
    /// ended.
    pub fn after_blanks(self, position: Position, blanks: usize, size: Size) -> Result<Span, Cause>
        requires stated { IsStated size position }
        requires some { 1 ≤ blanks }
        requires few { blanks ≤ 8 }
        ensures ok { IfOk result (λ _. fault_of_blanks size self position blanks ≡ None) }
        ensures after { IfOk result (λ span. span ≡ after_blanks size self position blanks) }
        ensures on_screen { IfOk result (IsSpanOnScreen size) }
        ensures fault { IfErr result (λ cause. fault_of_blanks size self position blanks ≡ Some cause) }
    {
        let width = size.width();
        let Position { row, column } = position;
        match self {
            WrapMode::On => {
                let end = row * width + column + blanks;
                if end > size.lines() * width {
                    return Err(Cause::PrintBelow);
                }
                Ok(Span::at(end / width, end % width))
            }
            WrapMode::Off => Ok(Span::at(row, (column + blanks).min(width - 1))),
            WrapMode::Unknown => {
                if column + blanks > width {
                    return Err(Cause::PrintUnknownPlace);
                }
                let last = Position {
                    row,
                    column: column + blanks - 1,
                };
                Ok(self.after_print(last, size))
            }
        }
    }

    /// The index after the last cell that a run of blanks changes, printed from one position of the
    /// stated lines.
    pub fn end_of_blanks(self, position: Position, blanks: usize, size: Size) -> usize
        requires stated { IsStated size position }
        requires few { blanks ≤ 8 }
        ensures { result ≡ end_of_blanks size self position blanks }
    {
        let Position { row, column } = position;
        let end = row * size.width() + column + blanks;
        match self {
            WrapMode::Off => end.min((row + 1) * size.width()),
            WrapMode::On | WrapMode::Unknown => end,
        }
    }
}
