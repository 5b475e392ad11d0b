//! A play of which one cell of the screen is kept.

ghost use Rattle.std.specs.Prelude.{◌≡◌};
ghost use Rattle.ans_model.specs.Screen.State.{State, FitsScreen, IsOnScreen};
ghost use Rattle.ans_model.specs.Screen.StartClass.{start_with, low_start, high_start, uniform_state};
ghost use Rattle.ans_model.specs.Screen.Step.{blank_cell, printed, step};
ghost use Rattle.ans_model.specs.Sequence.TokenKind.{Glyph, Clear, EraseLine, Tab};
ghost use Rattle.ans_model.specs.Inside.ShownKind.{shown_kind};
ghost use Rattle.ans_pens.specs.Pens.{StandsOn};
ghost use Rattle.ans_pens.specs.CellPlays.{kept, WritesAbove};

use crate::pen::{HOME, Pen};
use ans_model::cell::{Cell, Position};
use ans_model::kind::Kind;
use ans_model::size::Size;
use ans_model::start::Start;
use ans_model::tab::tab_blanks;

const BLANK: u8 = 0x20;

/// White on black, the attribute of the cleared start.
const WHITE: u8 = 0x07;

/// A cell of the cleared screen.
const CLEARED_CELL: Cell = Cell {
    byte: BLANK,
    attribute: WHITE,
};

/// What is kept of a state: its pen, and one cell of its screen.
#[derive(Clone, Copy)]
pub struct CellPlay {
    pub pen: Pen,
    pub(crate) cell: Cell,
}

impl CellPlay {
    /// The play from the start of a class in which each part that is not known has the value given:
    /// `byte` is each byte and attribute, `corner` both cursors, and `wrap` whether wrap is on.
    fn from_class(
        size: Size,
        start: Start,
        at: Position,
        byte: u8,
        corner: Position,
        wrap: bool,
    ) -> CellPlay
        requires at { IsOnScreen size at }
        requires corner { IsOnScreen size corner }
        ensures play { result ≡ kept size at
            (start_with size start (uniform_state size byte corner wrap)) }
        ensures stands { StandsOn size result.pen }
    {
        CellPlay {
            pen: Pen {
                cursor: if start.cursor { HOME } else { corner },
                saved: if start.saved { HOME } else { corner },
                attribute: if start.colours { WHITE } else { byte },
                wrap: start.wrap || wrap,
            },
            cell: if start.screen {
                CLEARED_CELL
            } else {
                Cell {
                    byte,
                    attribute: byte,
                }
            },
        }
    }

    /// The play from the low start of a class: each part that is not known has its least value.
    pub fn low(size: Size, start: Start, at: Position) -> CellPlay
        requires at { IsOnScreen size at }
        ensures play { result ≡ kept size at (low_start size start) }
        ensures stands { StandsOn size result.pen }
    {
        CellPlay::from_class(size, start, at, 0x00, HOME, false)
    }

    /// The play from the high start of a class: each part that is not known has its greatest value.
    pub fn high(size: Size, start: Start, at: Position) -> CellPlay
        requires at { IsOnScreen size at }
        ensures play { result ≡ kept size at (high_start size start) }
        ensures stands { StandsOn size result.pen }
    {
        let last = Position {
            row: size.lines(),
            column: size.width() - 1,
        };
        CellPlay::from_class(size, start, at, 0xFF, last, true)
    }

    /// A blank of the current attribute.
    fn blank(&self) -> Cell
        ensures { result ≡ blank_cell self.now.pen.attribute }
    {
        Cell {
            byte: BLANK,
            attribute: self.pen.attribute,
        }
    }

    /// A byte in the cursor's cell.
    #[inline(always)]
    fn put(&mut self, size: Size, at: Position, byte: u8)
        requires at { IsOnScreen size at }
        requires stands { StandsOn size self.old.pen }
        ensures stands { StandsOn size self.new.pen }
        ensures play { (s : State) → self.old ≡ kept size at s → FitsScreen size s
            → self.new ≡ kept size at (printed size s byte) }
    {
        if self.pen.cursor == at {
            self.cell = Cell {
                byte,
                attribute: self.pen.attribute,
            };
        }
    }

    /// A byte at the cursor, which then goes on.
    #[inline(always)]
    pub(crate) fn print(&mut self, size: Size, at: Position, byte: u8)
        requires at { IsOnScreen size at }
        requires stands { StandsOn size self.old.pen }
        ensures stands { StandsOn size self.new.pen }
        ensures play { (s : State) → self.old ≡ kept size at s → FitsScreen size s
            → WritesAbove size s (Glyph byte)
            → self.new ≡ kept size at (step size s (Glyph byte)) }
    {
        self.put(size, at, byte);
        self.pen.advance(size);
    }

    /// Blanks from the cursor on, up to the next column that 8 divides.
    fn tab(&mut self, size: Size, at: Position)
        requires at { IsOnScreen size at }
        requires stands { StandsOn size self.old.pen }
        ensures stands { StandsOn size self.new.pen }
        ensures play { (s : State) → self.old ≡ kept size at s → FitsScreen size s
            → WritesAbove size s Tab → self.new ≡ kept size at (step size s Tab) }
    {
        let blanks = tab_blanks(self.pen.cursor.column);
        for _ in 0..blanks {
            self.print(size, at, BLANK);
        }
    }

    /// The cursor's cell and those right of it become blank.
    fn erase_line(&mut self, size: Size, at: Position)
        requires at { IsOnScreen size at }
        requires stands { StandsOn size self.old.pen }
        ensures stands { StandsOn size self.new.pen }
        ensures play { (s : State) → self.old ≡ kept size at s → FitsScreen size s
            → self.new ≡ kept size at (step size s EraseLine) }
    {
        if at.row == self.pen.cursor.row && self.pen.cursor.column <= at.column {
            self.cell = self.blank();
        }
    }

    /// The whole screen becomes blank, and the cursor goes home.
    fn clear(&mut self, size: Size, at: Position)
        requires at { IsOnScreen size at }
        requires stands { StandsOn size self.old.pen }
        ensures stands { StandsOn size self.new.pen }
        ensures play { (s : State) → self.old ≡ kept size at s
            → self.new ≡ kept size at (step size s Clear) }
    {
        self.cell = self.blank();
        self.pen.cursor = HOME;
    }

    /// One token, by the table of steps. What is kept of a state becomes that of the next one, unless
    /// the screen scrolls.
    pub(crate) fn step(&mut self, size: Size, at: Position, kind: &Kind)
        requires at { IsOnScreen size at }
        requires stands { StandsOn size self.old.pen }
        ensures stands { StandsOn size self.new.pen }
        ensures play { (s : State) → self.old ≡ kept size at s → FitsScreen size s
            → WritesAbove size s (shown_kind kind.now)
            → self.new ≡ kept size at (step size s (shown_kind kind.now)) }
    {
        match kind {
            Kind::Glyph(byte) => self.print(size, at, *byte),
            Kind::Tab => self.tab(size, at),
            Kind::Clear => self.clear(size, at),
            Kind::EraseLine => self.erase_line(size, at),
            _ => self.pen.step(size, kind),
        }
    }
}
