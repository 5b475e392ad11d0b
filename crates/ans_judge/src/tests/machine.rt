//! The machine, played on one whole state: what each token does, as plainly as can be.

use ans_model::attribute::attribute_after_all;
use ans_model::cell::{Cell, Position};
use ans_model::kind::Kind;
use ans_model::size::Size;
use ans_model::start::Start;
use std::alloc::{AllocError, Global};
use std::process::Abort;

const HOME: Position = Position { row: 0, column: 0 };

/// A blank of an attribute.
fn blank(attribute: u8) -> Cell {
    Cell {
        byte: b' ',
        attribute,
    }
}

/// The machine: its size, its screen in row order, the spare row included, and what it keeps beside it.
#[derive(Drop)]
pub struct Machine {
    size: Size,
    screen: Vec<Cell>,
    cursor: Position,
    saved: Position,
    attribute: u8,
    wrap: bool,
}

impl Machine {
    /// The start of a class in which each part that is not known has the value given: `byte` is
    /// each byte and attribute, `corner` both cursors, and `wrap` whether wrap is on. It fails where
    /// memory runs out.
    fn from_class(
        alloc: Global,
        size: Size,
        start: Start,
        byte: u8,
        corner: Position,
        wrap: bool,
    ) -> Result<Machine, AllocError> {
        let unknown = Cell {
            byte,
            attribute: byte,
        };
        let cell = if start.screen { blank(0x07) } else { unknown };
        Ok(Machine {
            size,
            screen: vec![in alloc; cell; (size.lines() + 1) * size.width()]?,
            cursor: if start.cursor { HOME } else { corner },
            saved: if start.saved { HOME } else { corner },
            attribute: if start.colours { 0x07 } else { byte },
            wrap: start.wrap || wrap,
        })
    }

    /// The low start of a class: each part that is not known has its least value. It fails where memory
    /// runs out.
    pub fn low(alloc: Global, size: Size, start: Start) -> Result<Machine, AllocError> {
        Machine::from_class(alloc, size, start, 0x00, HOME, false)
    }

    /// The high start of a class: each part that is not known has its greatest value. It fails where
    /// memory runs out.
    pub fn high(alloc: Global, size: Size, start: Start) -> Result<Machine, AllocError> {
        let last = Position {
            row: size.lines(),
            column: size.width() - 1,
        };
        Machine::from_class(alloc, size, start, 0xFF, last, true)
    }

    /// The cursor's position.
    pub fn cursor(&self) -> Position {
        self.cursor
    }

    /// The cells of the stated lines and of the spare row, in row order.
    pub fn cells(&self) -> &[Cell] {
        &self.screen
    }

    /// Blanks of the current attribute, from an index up to and without another.
    fn erase(&mut self, rt: &impl Abort, from: usize, to: usize) {
        assert!(rt; from <= to && to <= self.screen.len());
        self.screen[from..to].fill(blank(self.attribute));
    }

    /// The index at which the cursor's row begins.
    fn row_start(&self) -> usize {
        self.cursor.row.wrapping_mul(self.size.width())
    }

    /// One row down; in the spare row the screen scrolls.
    fn line_feed(&mut self, rt: &impl Abort) {
        if self.cursor.row < self.size.lines() {
            self.cursor.row += 1;
        } else {
            let (start, end) = (self.row_start(), self.screen.len());
            assert!(rt; self.size.width() <= end);
            self.screen.rotate_left(self.size.width());
            self.erase(rt, start, end);
        }
    }

    /// A byte at the cursor, which then goes on.
    fn print(&mut self, rt: &impl Abort, byte: u8) {
        let at = self.row_start().wrapping_add(self.cursor.column);
        assert!(rt; at < self.screen.len());
        self.screen[at] = Cell {
            byte,
            attribute: self.attribute,
        };
        if self.cursor.column < self.size.width() - 1 {
            self.cursor.column += 1;
        } else if self.wrap {
            self.cursor.column = 0;
            self.line_feed(rt);
        }
    }

    /// The cursor's cell and those right of it become blank.
    fn erase_line(&mut self, rt: &impl Abort) {
        let from = self.row_start().wrapping_add(self.cursor.column);
        let to = self.row_start().wrapping_add(self.size.width());
        self.erase(rt, from, to);
    }

    /// The whole screen becomes blank, and the cursor goes home.
    fn clear(&mut self, rt: &impl Abort) {
        let end = self.screen.len();
        self.erase(rt, 0, end);
        self.cursor = HOME;
    }

    /// One token, by the table of steps; a tab is played as its blanks by the caller.
    pub fn step(&mut self, rt: &impl Abort, token: &Kind) {
        let last_row = self.size.lines();
        let last_column = self.size.width() - 1;
        let Position { row, column } = self.cursor;
        match token {
            Kind::Glyph(byte) => self.print(rt, *byte),
            Kind::LineFeed => self.line_feed(rt),
            Kind::Clear => self.clear(rt),
            Kind::EraseLine => self.erase_line(rt),
            Kind::Up(n) => self.cursor.row = row.saturating_sub(*n as usize),
            Kind::Down(n) => self.cursor.row = row.saturating_add(*n as usize).min(last_row),
            Kind::Forward(n) => {
                self.cursor.column = column.saturating_add(*n as usize).min(last_column)
            }
            Kind::Backward(n) => self.cursor.column = column.saturating_sub(*n as usize),
            Kind::Place(row, column) => {
                self.cursor = Position {
                    row: (*row as usize).saturating_sub(1).min(last_row),
                    column: (*column as usize).saturating_sub(1).min(last_column),
                }
            }
            Kind::BackSpace => self.cursor.column = column.saturating_sub(1),
            Kind::CarriageReturn => self.cursor.column = 0,
            Kind::Save => self.saved = self.cursor,
            Kind::Restore => self.cursor = self.saved,
            Kind::Colours(parameters) => {
                self.attribute = attribute_after_all(self.attribute, parameters)
            }
            Kind::Wrap(on) => self.wrap = *on,
            Kind::Tab | Kind::Bell | Kind::Mode | Kind::Keys | Kind::Ask => {}
        }
    }
}
