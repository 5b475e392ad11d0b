//! What the ends of a drawing's rows tell.

ghost use Rattle.std.specs.Prelude.{◌≡◌, ◌+◌, ◌≤◌, ◌<◌};
ghost use Rattle.ans_model.specs.Bytes.{longest_file};
ghost use Rattle.ans_pens.specs.Counted.{count_of};
ghost use Rattle.ans_hints.specs.RowEnds.{CountsRows, no_row_ends, over_with, wider_rows};
ghost use Rattle.ans_hints.specs.RowEnds.{are_all_ended, printed_in, with_end, with_glyph};

use crate::row::EndedRow;
use ans_pens::times::{Times, count, count_of};

/// Rows with a line end that take more columns than the screen has.
#[derive(Debug, Clone, Copy, PartialEq, Eq)]
pub struct RowsOver {
    /// How often, and the offset of the first one's line end.
    pub times: Option<Times>,
    /// How many columns the widest takes, or 0.
    pub widest: usize,
}

/// Rows of a drawing that was made for more columns: how many run over the edge and then end, the offset
/// of the first one's line end, and how many columns the widest takes.
#[derive(Debug, Clone, Copy, PartialEq, Eq)]
pub struct WiderRows {
    pub times: Times,
    pub columns: usize,
}

/// What the ends of a drawing's rows show. A *line end* is a line feed, or a return and then a line
/// feed; a row is *full* where its last glyph wraps. Colours, wrap, a save, a bell or an erased line may
/// come between the glyph and the line end, and between return and line feed.
#[derive(Debug, Clone, Copy, PartialEq, Eq)]
pub struct RowEnds {
    /// How many columns the screen has.
    pub width: usize,
    /// How many glyphs wrap: the full rows.
    pub full: usize,
    /// How many line ends there are.
    pub line_ends: usize,
    /// Full rows with a line end after them, at the offset of the line end: unless what is printed next is
    /// above the row to which it led.
    pub ended: Option<Times>,
    /// How many rows were full when something was printed last.
    pub full_before: usize,
    /// Those of them that had a line end after them.
    pub ended_before: Option<Times>,
    /// The row of the screen to which the last line end after a full row led, counted from 0.
    pub led_to: usize,
    pub over: RowsOver,
    /// Glyphs that are printed over the glyph before them, in the last column with wrap off.
    pub overprints: Option<Times>,
    /// Whether some token is a return.
    pub returns: bool,
}

impl RowsOver {
    /// One row more has ended, on a screen with this many columns.
    fn end(&mut self, width: usize, row: EndedRow)
        requires times { count_of self.old.times ≤ longest_file }
        ensures over { self.new ≡ over_with width self.old row }
        ensures times { count_of self.new.times ≤ count_of self.old.times + 1 }
    {
        if row.columns <= width {
            return;
        }
        count(&mut self.times, true, row.offset);
        self.widest = self.widest.max(row.columns);
    }
}

impl RowEnds {
    /// Those before the first token.
    pub(crate) fn none(width: usize) -> RowEnds
        ensures { result ≡ no_row_ends width }
    {
        RowEnds {
            width,
            full: 0,
            line_ends: 0,
            ended: None,
            full_before: 0,
            ended_before: None,
            led_to: 0,
            over: RowsOver {
                times: None,
                widest: 0,
            },
            overprints: None,
            returns: false,
        }
    }

    /// Something is printed in this row of the screen. A line end after a full row counts only if that is
    /// not above the row to which it led: a move up takes it back.
    #[inline(always)]
    pub(crate) fn print_in(&mut self, row: usize)
        ensures { self.new ≡ printed_in row self.old }
    {
        if row < self.led_to {
            self.ended = self.ended_before;
        }
        self.full_before = self.full;
        self.ended_before = self.ended;
    }

    /// A glyph is printed in this row at this offset: it wraps or not, and it is printed over the one before
    /// it or not.
    #[inline(always)]
    pub(crate) fn glyph(&mut self, row: usize, offset: usize, wraps: bool, is_over: bool)
        requires within { CountsRows self.old offset }
        requires room { offset < longest_file }
        ensures rows { self.new ≡ with_glyph self.old row offset wraps is_over }
        ensures within { CountsRows self.new (offset + 1) }
    {
        self.print_in(row);
        self.full += usize::from(wraps);
        count(&mut self.overprints, is_over, offset);
    }

    /// A row ends with a line end, which leads to this row of the screen.
    pub(crate) fn end(&mut self, offset: usize, below: usize, row: EndedRow)
        requires within { CountsRows self.old offset }
        requires room { offset < longest_file }
        ensures rows { self.new ≡ with_end self.old below row }
        ensures within { CountsRows self.new (offset + 1) }
    {
        self.line_ends += 1;
        count(&mut self.ended, row.is_full, row.offset);
        if row.is_full {
            self.led_to = below;
        }
        self.over.end(self.width, row);
    }

    /// Whether every full row that something is printed after has a line end after it that counts, and
    /// there are at least two of these.
    pub fn are_all_ended(&self) -> bool
        ensures { result ≡ are_all_ended self.now }
    {
        count_of(self.ended_before) >= 2 && count_of(self.ended_before) == self.full_before
    }

    /// The rows of a drawing that was made for more columns: four rows run over the edge and then end, none
    /// of them twice over it, and they are more than half of all that end. None if it is not so. A row that
    /// fills the screen's last column and ends there does not run over the edge.
    pub fn wider_rows(&self) -> Option<WiderRows>
        ensures { result ≡ wider_rows self.now }
    {
        let times = self.over.times?;
        let is_once_over = self.over.widest.saturating_sub(self.width) <= self.width;
        let are_most = self.line_ends.saturating_sub(times.count) < times.count;
        if times.count >= 4 && is_once_over && are_most {
            Some(WiderRows {
                times,
                columns: self.over.widest,
            })
        } else {
            None
        }
    }
}
