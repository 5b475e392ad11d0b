//! A grid of byte planes that owns its memory.

ghost use Rattle.std.specs.Prelude.{◌≡◌, ◌*◌, ◌^◌, ◌<◌, ◌≤◌, replicate, IfOk, length};
ghost use Rattle.std.specs.List.{All};
ghost use Rattle.ans_model.specs.Bytes.{most_columns};
ghost use Rattle.ans_screen.specs.GridEdits.{most_rows};
ghost use Rattle.ans_screen.specs.CellPlanes.{with_zeros};
ghost use Rattle.ans_screen.specs.RowCells.{cells_of_grid, length_grid};

use crate::attr::Attr;
use crate::cell::{CellByte, HalfCell};
use crate::grid::Grid;
use crate::plane_pair::PlanePair;
use crate::row_planes::{Frame, NEVER, RowPlanes, RowState, cells, copies};
use std::alloc::{AllocError, Global};

/// Cell `i` is byte `i` of each of four planes where its row holds it, and else the blank. A fill of
/// the whole grid writes neither planes nor rows. The planes' memory is touched from the front as far as
/// cells were written, in steps of 64 KiB, and that of two of them only once a row is written of which
/// not all is known.
#[derive(Drop)]
pub struct PlaneGrid {
    frame: Frame,
    round: u32,
    held: Vec<RowState>,
    shown: PlanePair,
    // FFh where the glyph is known, else 00h, and the bits of the attribute that are known
    known: PlanePair,
    ghost some_width: { 1 ≤ frame.width },
    ghost indexed: { frame.width * frame.rows < 2 ^ 64 },
    ghost whole_held: { length held.items ≡ frame.rows },
    ghost no_later_round: { All (λ row. row.round ≤ round) held.items },
    ghost whole_glyphs: { length (with_zeros shown.glyphs.items shown.zeros) ≡ frame.width * frame.rows },
    ghost whole_glyphs_known: { length (with_zeros known.glyphs.items known.zeros) ≡ frame.width * frame.rows },
    ghost whole_bits_known: { length (with_zeros known.attributes.items known.zeros) ≡ frame.width * frame.rows },
    ghost whole_values: { length (with_zeros shown.attributes.items shown.zeros) ≡ frame.width * frame.rows },
}

impl PlaneGrid {
    /// A grid begins in round 1.
    pub(crate) fn in_round(alloc: Global, frame: Frame, round: u32) -> Result<Self, AllocError>
        requires some_width { 1 ≤ frame.width }
        requires width { frame.width ≤ most_columns }
        requires rows { frame.rows ≤ most_rows }
        requires some_round { 1 ≤ round }
        ensures frame { IfOk result (λ g. g.frame ≡ frame) }
        ensures cells { IfOk result (λ g. cells_of_grid (⟦<PlaneGrid as RowPlanes>⟧.planes_of g)
            ≡ replicate (frame.width * frame.rows) frame.blank) }
    {
        let count = frame.width * frame.rows;
        let held = vec![in alloc; NEVER; frame.rows]?;
        let shown = PlanePair::new(alloc, count)?;
        let known = PlanePair::new(alloc, count)?;
        Ok(PlaneGrid {
            frame,
            round,
            held,
            shown,
            known,
        })
    }
}

impl RowPlanes for PlaneGrid {
    ghost planes_of = { λ g. record {
      width = g.frame.width;
      rows = g.frame.rows;
      blank = g.frame.blank;
      round = g.round;
      held = g.held.items;
      glyphs = with_zeros g.shown.glyphs.items g.shown.zeros;
      glyphs_known = with_zeros g.known.glyphs.items g.known.zeros;
      bits_known = with_zeros g.known.attributes.items g.known.zeros;
      values = with_zeros g.shown.attributes.items g.shown.zeros;
      some_width = g.some_width;
      indexed = g.indexed;
      whole_held = g.whole_held;
      no_later_round = g.no_later_round;
      whole_glyphs = g.whole_glyphs;
      whole_glyphs_known = g.whole_glyphs_known;
      whole_bits_known = g.whole_bits_known;
      whole_values = g.whole_values;
    } };

    #[inline(always)]
    fn frame(&self) -> &Frame {
        &self.frame
    }

    #[inline(always)]
    fn round(&self) -> u32 {
        self.round
    }

    #[inline(always)]
    fn row(&self, row: usize) -> RowState {
        self.held[row]
    }

    #[inline(always)]
    fn hold(&mut self, row: usize, known: bool, first: usize, end: usize) {
        self.held[row] = RowState {
            round: self.round,
            known,
            first,
            end,
        };
    }

    #[cold]
    #[inline(never)]
    fn set_back(&mut self) {
        self.held.fill(NEVER);
        self.round = 0;
    }

    #[inline(always)]
    fn begin_round(&mut self, round: u32, blank: HalfCell) {
        self.round = round;
        self.frame.blank = blank;
    }

    #[inline(always)]
    fn shown(&self, i: usize) -> (u8, u8) {
        self.shown.bytes(i)
    }

    fn known(&self, i: usize) -> (u8, u8) {
        self.known.bytes(i)
    }

    fn shown_bytes(&self, which: CellByte, from: usize, to: usize) -> &[u8] {
        match which {
            CellByte::Glyph => self.shown.glyphs(from, to),
            CellByte::Attribute => self.shown.attributes(from, to),
        }
    }

    fn known_bytes(&self, which: CellByte, from: usize, to: usize) -> &[u8] {
        match which {
            CellByte::Glyph => self.known.glyphs(from, to),
            CellByte::Attribute => self.known.attributes(from, to),
        }
    }

    #[inline(always)]
    fn fill_shown(&mut self, from: usize, to: usize, glyph: u8, value: u8) {
        self.shown.fill(from, to, glyph, value);
    }

    #[inline(never)]
    fn fill_known(&mut self, from: usize, to: usize, glyph_known: u8, bits_known: u8) {
        self.known.fill(from, to, glyph_known, bits_known);
    }

    #[inline(always)]
    fn write_shown(&mut self, from: usize, bytes: &[u8], count: usize, value: u8) {
        self.shown.write(from, bytes, count, value);
    }
}

impl Grid for PlaneGrid {
    ghost width_of = { λ g. g.frame.width };

    ghost rows_of = { λ g. g.frame.rows };

    ghost cells_of = { λ g. cells_of_grid (⟦<PlaneGrid as RowPlanes>⟧.planes_of g) };

    fn new(alloc: Global, width: usize, rows: usize, cell: HalfCell) -> Result<Self, AllocError> {
        let frame = Frame {
            width,
            rows,
            blank: cell,
        };
        PlaneGrid::in_round(alloc, frame, 1)
    }

    fn width(&self) -> usize {
        self.frame.width
    }

    fn rows(&self) -> usize {
        self.frame.rows
    }

    fn get(&self, i: usize) -> HalfCell {
        cells::get(self, i)
    }

    fn put(&mut self, i: usize, cell: HalfCell) {
        cells::put(self, i, cell);
    }

    fn fill(&mut self, from: usize, to: usize, cell: HalfCell) {
        cells::fill(self, from, to, cell);
    }

    fn first_unknown(&self, to: usize) -> Option<usize> {
        cells::first_unknown(self, to)
    }

    #[inline(always)]
    fn fill_row(&mut self, row: usize, from: usize, to: usize, cell: HalfCell) {
        cells::fill_row(self, row, from, to, cell);
    }

    #[inline(always)]
    fn clear(&mut self, cell: HalfCell) {
        cells::clear(self, cell);
    }

    #[inline(always)]
    fn write_run(&mut self, row: usize, column: usize, bytes: &[u8], count: usize, attr: Attr) {
        cells::write_run(self, row, column, bytes, count, attr);
    }

    fn copy_glyphs(&self, row: usize, glyphs: &mut [u8]) {
        copies::copy_bytes(self, row, CellByte::Glyph, glyphs);
    }

    fn copy_attributes(&self, row: usize, values: &mut [u8]) {
        copies::copy_bytes(self, row, CellByte::Attribute, values);
    }

    ghost whole = { λ g. length_grid (⟦<PlaneGrid as RowPlanes>⟧.planes_of g) };

    ghost indexed = { λ g. g.indexed };
}
