//! Byte planes whose rows are held only once they are written, wherever their memory comes from.

ghost use Rattle.std.specs.Prelude.{◌≡◌, ◌+◌, ◌*◌, ◌<◌, ◌≤◌, length, take};
ghost use Rattle.std.specs.Prelude.{slice_index, slice_index_or};
ghost use Rattle.ans_model.specs.Screen.Step.{filled};
ghost use Rattle.ans_screen.specs.CellPlanes.{IsFront};
ghost use Rattle.ans_screen.specs.GridEdits.{written};
ghost use Rattle.ans_screen.specs.RowCells.{Planes, SameRows, SameShown, SameKnown, HasRow, BeginsRound};
ghost use Rattle.ans_screen.specs.RowCells.{never_written, held_row, shown_plane, known_plane};

pub(crate) mod cells;
pub(crate) mod copies;
pub(crate) mod rows;

use crate::cell::{CellByte, HalfCell};

/// A row as it was last written.
#[derive(Clone, Copy)]
pub(crate) struct RowState {
    /// The round of that write. In a later round the row holds no cell.
    pub(crate) round: u32,
    /// Whether all cells that are held are known: then only the planes of glyphs and of values count.
    pub(crate) known: bool,
    /// The first cell that is held, by its index in the grid.
    pub(crate) first: usize,
    /// The cell after the last one that is held.
    pub(crate) end: usize,
}

/// A row that was never written.
pub(crate) const NEVER: RowState = RowState {
    round: 0,
    known: true,
    first: 0,
    end: 0,
};

/// How large a grid is, and what its cells are that no row holds.
#[derive(Clone, Copy)]
pub(crate) struct Frame {
    pub(crate) width: usize,
    pub(crate) rows: usize,
    pub(crate) blank: HalfCell,
}

/// Cell `i` is byte `i` of each plane where its row holds it, and else the blank. A fill of the whole
/// grid begins a new round, in which no row holds a cell, so it writes neither planes nor rows. A write
/// to a row writes no more of it than what lies between the cells that are held, and of a known row
/// half the planes are neither written nor read.
pub(crate) trait RowPlanes {
    ghost planes_of: { Self → Planes };

    fn frame(&self) -> &Frame
        ensures width { result.now.width ≡ (planes_of self.now).width }
        ensures rows { result.now.rows ≡ (planes_of self.now).rows }
        ensures blank { result.now.blank ≡ (planes_of self.now).blank };

    fn round(&self) -> u32
        ensures { result ≡ (planes_of self.now).round };

    /// The row as it was last written.
    fn row(&self, row: usize) -> RowState
        requires { row < (planes_of self.now).rows }
        ensures { result ≡ slice_index_or (planes_of self.now).held row never_written };

    fn hold(&mut self, row: usize, known: bool, first: usize, end: usize)
        requires { row < (planes_of self.old).rows }
        ensures { HasRow (planes_of self.old) (planes_of self.new) row
            (held_row (planes_of self.old).round known first end) };

    /// Sets all rows and the round back to 0.
    fn set_back(&mut self)
        ensures round { (planes_of self.new).round ≡ 0 }
        ensures width { (planes_of self.new).width ≡ (planes_of self.old).width }
        ensures rows { (planes_of self.new).rows ≡ (planes_of self.old).rows };

    fn begin_round(&mut self, round: u32, blank: HalfCell)
        requires { (planes_of self.old).round ≤ round }
        ensures { BeginsRound (planes_of self.old) (planes_of self.new) round blank };

    fn shown(&self, i: usize) -> (u8, u8)
        requires { i < (planes_of self.now).width * (planes_of self.now).rows }
        ensures glyph { result.0 ≡ slice_index (planes_of self.now).glyphs i }
        ensures value { result.1 ≡ slice_index (planes_of self.now).values i };

    fn known(&self, i: usize) -> (u8, u8)
        requires { i < (planes_of self.now).width * (planes_of self.now).rows }
        ensures glyph { result.0 ≡ slice_index (planes_of self.now).glyphs_known i }
        ensures value { result.1 ≡ slice_index (planes_of self.now).bits_known i };

    /// The first of those bytes of a plane. Each of the others is 00h.
    fn shown_bytes(&self, which: CellByte, from: usize, to: usize) -> &[u8]
        requires ordered { from ≤ to }
        requires within { to ≤ (planes_of self.now).width * (planes_of self.now).rows }
        ensures { IsFront result.now (shown_plane which (planes_of self.now)) from to };

    /// The first of those bytes of a plane. Each of the others is 00h.
    fn known_bytes(&self, which: CellByte, from: usize, to: usize) -> &[u8]
        requires ordered { from ≤ to }
        requires within { to ≤ (planes_of self.now).width * (planes_of self.now).rows }
        ensures { IsFront result.now (known_plane which (planes_of self.now)) from to };

    fn fill_shown(&mut self, from: usize, to: usize, glyph: u8, value: u8)
        requires ordered { from ≤ to }
        requires within { to ≤ (planes_of self.old).width * (planes_of self.old).rows }
        ensures glyphs { (planes_of self.new).glyphs ≡ filled (planes_of self.old).glyphs from to glyph }
        ensures values { (planes_of self.new).values ≡ filled (planes_of self.old).values from to value }
        ensures known { SameKnown (planes_of self.old) (planes_of self.new) }
        ensures same { SameRows (planes_of self.old) (planes_of self.new) };

    fn fill_known(&mut self, from: usize, to: usize, glyph_known: u8, bits_known: u8)
        requires ordered { from ≤ to }
        requires within { to ≤ (planes_of self.old).width * (planes_of self.old).rows }
        ensures glyphs_known { (planes_of self.new).glyphs_known
            ≡ filled (planes_of self.old).glyphs_known from to glyph_known }
        ensures bits_known { (planes_of self.new).bits_known
            ≡ filled (planes_of self.old).bits_known from to bits_known }
        ensures shown { SameShown (planes_of self.old) (planes_of self.new) }
        ensures same { SameRows (planes_of self.old) (planes_of self.new) };

    fn write_shown(&mut self, from: usize, bytes: &[u8], count: usize, value: u8)
        requires count { count ≤ length bytes.now }
        requires within { from + count ≤ (planes_of self.old).width * (planes_of self.old).rows }
        ensures glyphs { (planes_of self.new).glyphs
            ≡ written (planes_of self.old).glyphs from (take count bytes.now) }
        ensures values { (planes_of self.new).values
            ≡ filled (planes_of self.old).values from (from + count) value }
        ensures known { SameKnown (planes_of self.old) (planes_of self.new) }
        ensures same { SameRows (planes_of self.old) (planes_of self.new) };
}
