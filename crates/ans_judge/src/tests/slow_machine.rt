//! The slow machine: two whole states, played side by side from the low and the high start of a
//! class.

use super::machine::Machine;
use super::reading::{Front, read_front};
use super::step_faults::fault_of_step;
use ans_model::cell::{Cell, Position};
use ans_model::fault::{Cause, Fault};
use ans_model::kind::Kind;
use ans_model::limits::{MAX_LINES, MAX_WIDTH};
use ans_model::size::Size;
use ans_model::start::Start;
use std::alloc::{AllocError, Global};
use std::process::Abort;

/// The plays from the low and the high start, on a screen of a width and of stated lines.
#[derive(Drop)]
pub struct SlowMachine {
    pub width: usize,
    pub lines: usize,
    low: Machine,
    high: Machine,
    /// How many bytes the tokens have that are played.
    played: usize,
    /// The first fault.
    fault: Option<Fault>,
}

impl SlowMachine {
    /// The two starts of a class. It fails where memory runs out.
    pub fn new(
        rt: &impl Abort,
        alloc: Global,
        width: usize,
        lines: usize,
        start: Start,
    ) -> Result<SlowMachine, AllocError> {
        assert!(rt; 1 <= width && width <= MAX_WIDTH && 1 <= lines && lines <= MAX_LINES);
        let size = Size::new(width, lines);
        Ok(SlowMachine {
            width,
            lines,
            low: Machine::low(alloc, size, start)?,
            high: Machine::high(alloc, size, start)?,
            played: 0,
            fault: None,
        })
    }

    /// Where the two cursors are.
    pub fn cursors(&self) -> (Position, Position) {
        (self.low.cursor(), self.high.cursor())
    }

    /// How many steps a token is: a tab is one for each blank up to the next column that 8 divides,
    /// and every other token is one.
    fn steps(&self, token: &Kind) -> usize {
        match token {
            Kind::Tab => 8 - self.low.cursor().column % 8,
            _ => 1,
        }
    }

    /// Plays a token in both plays, up to its first step that has a fault, and returns the fault.
    fn play(&mut self, rt: &impl Abort, token: &Kind) -> Option<Cause> {
        let blank = Kind::Glyph(b' ');
        let step = match token {
            Kind::Tab => &blank,
            _ => token,
        };
        for _ in 0..self.steps(token) {
            let fault = fault_of_step(rt, self, step);
            if fault.is_some() {
                return fault;
            }
            self.low.step(rt, step);
            self.high.step(rt, step);
        }
        None
    }

    /// Plays the token that comes after the bytes played so far, and returns whether there is one without
    /// a fault.
    fn play_next(&mut self, rt: &impl Abort, bytes: &[u8]) -> bool {
        assert!(rt; self.played <= bytes.len());
        let cause = match read_front(&bytes[self.played..]) {
            Front::Unfinished => return false,
            Front::Refused(cause) => Some(cause),
            Front::Token(token, after) => match self.play(rt, &token) {
                None => {
                    self.played = bytes.len().wrapping_sub(after.len());
                    None
                }
                cause => cause,
            },
        };
        self.fault = cause.map(|cause| Fault {
            offset: self.played,
            cause,
        });
        self.fault.is_none()
    }

    /// Plays bytes up to their first fault. They begin with those that were played before.
    pub fn play_up_to(&mut self, rt: &impl Abort, bytes: &[u8]) {
        for _ in self.played..bytes.len() {
            if self.fault.is_some() || !self.play_next(rt, bytes) {
                return;
            }
        }
    }

    /// The first column of a row, counted from 0, in which the two screens differ.
    fn unknown_column(&self, rt: &impl Abort, row: usize) -> Option<usize> {
        let (low, high) = (self.low.cells(), self.high.cells());
        for column in 0..self.width {
            let place = row.wrapping_mul(self.width).wrapping_add(column);
            assert!(rt; place < low.len() && place < high.len());
            if low[place] != high[place] {
                return Some(column);
            }
        }
        None
    }

    /// The cause of the first stated cell in which the two screens differ.
    fn unknown_cell(&self, rt: &impl Abort) -> Option<Cause> {
        for row in 0..self.lines {
            if let Some(column) = self.unknown_column(rt, row) {
                assert!(rt; row < MAX_LINES && column < MAX_WIDTH);
                return Some(Cause::UnknownCell {
                    row: (row + 1) as u16,
                    col: (column + 1) as u16,
                });
            }
        }
        None
    }

    /// What the bytes, of this length, are: good, and then both screens begin with these cells of the
    /// stated lines, or refused for this fault.
    pub fn finding(&self, rt: &impl Abort, length: usize) -> Result<&[Cell], Fault> {
        if let Some(fault) = self.fault {
            return Err(fault);
        }
        if self.played < length {
            return Err(Fault {
                offset: self.played,
                cause: Cause::EndInSequence,
            });
        }
        match self.unknown_cell(rt) {
            Some(cause) => Err(Fault {
                offset: length,
                cause,
            }),
            None => Ok(self.low.cells()),
        }
    }
}
