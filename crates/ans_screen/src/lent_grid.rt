//! A grid of byte planes on memory that its owner lends.

ghost use Rattle.std.specs.Prelude.{◌≡◌, ◌↔◌, ◌*◌, ◌^◌, ◌<◌, ◌≤◌, replicate, length, map, IfSome, IsTrue, is_some};
ghost use Rattle.std.specs.List.{All};
ghost use Rattle.ans_screen.specs.LentRows.{row_of, rows_whole, rows_of_rounds, HasRoom};
ghost use Rattle.ans_screen.specs.RowCells.{cells_of_grid, length_grid};

use crate::attr::Attr;
use crate::cell::{CellByte, HalfCell};
use crate::lent_row::LentRow;
use crate::planes::{fill_bytes, write_bytes};
use crate::row_planes::{Frame, RowPlanes, RowState, cells, copies};
use crate::screen::Screen;
use ans_model::limits::{MAX_LINES, MAX_WIDTH};

/// Cell `i` is byte `i` of each of four planes where its row holds it, and else the blank. A fill of
/// the whole grid writes neither planes nor rows.
#[derive(Drop)]
pub struct LentGrid<'a> {
    frame: Frame,
    round: u32,
    held: &'a mut [LentRow],
    glyphs: &'a mut [u8],
    // FFh where the glyph is known, else 00h
    glyphs_known: &'a mut [u8],
    // the bits of the attribute that are known
    bits_known: &'a mut [u8],
    values: &'a mut [u8],
    ghost some_width: { 1 ≤ frame.width },
    ghost indexed: { frame.width * frame.rows < 2 ^ 64 },
    ghost whole_held: { length held.now ≡ frame.rows },
    ghost no_later_round: { All (λ row. row.round ≤ round) held.now },
    ghost whole_glyphs: { length glyphs.now ≡ frame.width * frame.rows },
    ghost whole_glyphs_known: { length glyphs_known.now ≡ frame.width * frame.rows },
    ghost whole_bits_known: { length bits_known.now ≡ frame.width * frame.rows },
    ghost whole_values: { length values.now ≡ frame.width * frame.rows },
}

impl<'a> LentGrid<'a> {
    /// A grid of equal cells on memory that is lent: a record for each row, and four bytes for each
    /// cell. It is `None` where the width is not 1 to 1024 columns, where there are not 1 to 8193 rows,
    /// or where fewer than `rows` records or fewer than `4 * width * rows` bytes are lent. Nothing of
    /// what the memory held is shown. What it holds afterwards is not stated. No memory is asked for.
    pub fn on(
        held: &'a mut [LentRow],
        bytes: &'a mut [u8],
        width: usize,
        rows: usize,
        cell: HalfCell,
    ) -> Option<LentGrid<'a>>
        ensures room { IsTrue (is_some result) ↔ HasRoom width rows (length held.old) (length bytes.old) }
        ensures width { IfSome result (λ g. ⟦<LentGrid<'a> as Screen>⟧.width_of g ≡ width) }
        ensures rows { IfSome result (λ g. ⟦<LentGrid<'a> as Screen>⟧.rows_of g ≡ rows) }
        ensures cells { IfSome result (λ g. ⟦<LentGrid<'a> as Screen>⟧.cells_of g ≡ replicate (width * rows) cell) }
    {
        if width < 1 || width > MAX_WIDTH || rows < 1 || rows > MAX_LINES + 1 {
            return None;
        }
        if held.len() < rows || bytes.len() < 4 * (width * rows) {
            return None;
        }
        let frame = Frame {
            width,
            rows,
            blank: cell,
        };
        Some(LentGrid::cut(held, bytes, frame))
    }

    fn cut(held: &'a mut [LentRow], bytes: &'a mut [u8], frame: Frame) -> LentGrid<'a>
        requires { HasRoom frame.width frame.rows (length held.old) (length bytes.old) }
        ensures frame { result.frame ≡ frame }
        ensures cells { cells_of_grid (⟦<LentGrid<'a> as RowPlanes>⟧.planes_of result)
            ≡ replicate (frame.width * frame.rows) frame.blank }
    {
        let count = frame.width * frame.rows;
        let (held, _) = held.split_at_mut(frame.rows);
        let (glyphs, bytes) = bytes.split_at_mut(count);
        let (glyphs_known, bytes) = bytes.split_at_mut(count);
        let (bits_known, bytes) = bytes.split_at_mut(count);
        let (values, _) = bytes.split_at_mut(count);
        held.fill(LentRow::new());
        LentGrid {
            frame,
            round: 1,
            held,
            glyphs,
            glyphs_known,
            bits_known,
            values,
        }
    }
}

impl<'a> RowPlanes for LentGrid<'a> {
    ghost planes_of = { λ g. record {
      width = g.frame.width;
      rows = g.frame.rows;
      blank = g.frame.blank;
      round = g.round;
      held = map row_of g.held.now;
      glyphs = g.glyphs.now;
      glyphs_known = g.glyphs_known.now;
      bits_known = g.bits_known.now;
      values = g.values.now;
      some_width = g.some_width;
      indexed = g.indexed;
      whole_held = rows_whole g.held.now g.frame.rows g.whole_held;
      no_later_round = rows_of_rounds g.held.now g.round g.no_later_round;
      whole_glyphs = g.whole_glyphs;
      whole_glyphs_known = g.whole_glyphs_known;
      whole_bits_known = g.whole_bits_known;
      whole_values = g.whole_values;
    } };

    #[inline(always)]
    fn frame(&self) -> &Frame {
        &self.frame
    }

    #[inline(always)]
    fn round(&self) -> u32 {
        self.round
    }

    #[inline(always)]
    fn row(&self, row: usize) -> RowState {
        self.held[row].row()
    }

    #[inline(always)]
    fn hold(&mut self, row: usize, known: bool, first: usize, end: usize) {
        self.held[row] = LentRow::of(RowState {
            round: self.round,
            known,
            first,
            end,
        });
    }

    #[cold]
    #[inline(never)]
    fn set_back(&mut self) {
        self.held.fill(LentRow::new());
        self.round = 0;
    }

    #[inline(always)]
    fn begin_round(&mut self, round: u32, blank: HalfCell) {
        self.round = round;
        self.frame.blank = blank;
    }

    #[inline(always)]
    fn shown(&self, i: usize) -> (u8, u8) {
        (self.glyphs[i], self.values[i])
    }

    fn known(&self, i: usize) -> (u8, u8) {
        (self.glyphs_known[i], self.bits_known[i])
    }

    fn shown_bytes(&self, which: CellByte, from: usize, to: usize) -> &[u8] {
        match which {
            CellByte::Glyph => &self.glyphs[from..to],
            CellByte::Attribute => &self.values[from..to],
        }
    }

    fn known_bytes(&self, which: CellByte, from: usize, to: usize) -> &[u8] {
        match which {
            CellByte::Glyph => &self.glyphs_known[from..to],
            CellByte::Attribute => &self.bits_known[from..to],
        }
    }

    #[inline(always)]
    fn fill_shown(&mut self, from: usize, to: usize, glyph: u8, value: u8) {
        fill_bytes(self.glyphs, from, to, glyph);
        fill_bytes(self.values, from, to, value);
    }

    #[inline(always)]
    fn fill_known(&mut self, from: usize, to: usize, glyph_known: u8, bits_known: u8) {
        fill_bytes(self.glyphs_known, from, to, glyph_known);
        fill_bytes(self.bits_known, from, to, bits_known);
    }

    #[inline(always)]
    fn write_shown(&mut self, from: usize, bytes: &[u8], count: usize, value: u8) {
        write_bytes(self.glyphs, self.values, from, bytes, count, value);
    }
}

impl<'a> Screen for LentGrid<'a> {
    ghost width_of = { λ g. g.frame.width };

    ghost rows_of = { λ g. g.frame.rows };

    ghost cells_of = { λ g. cells_of_grid (⟦<LentGrid<'a> as RowPlanes>⟧.planes_of g) };

    fn width(&self) -> usize {
        self.frame.width
    }

    fn rows(&self) -> usize {
        self.frame.rows
    }

    fn get(&self, i: usize) -> HalfCell {
        cells::get(self, i)
    }

    fn fill(&mut self, from: usize, to: usize, cell: HalfCell) {
        cells::fill(self, from, to, cell);
    }

    fn first_unknown(&self, to: usize) -> Option<usize> {
        cells::first_unknown(self, to)
    }

    #[inline(always)]
    fn fill_row(&mut self, row: usize, from: usize, to: usize, cell: HalfCell) {
        cells::fill_row(self, row, from, to, cell);
    }

    #[inline(always)]
    fn clear(&mut self, cell: HalfCell) {
        cells::clear(self, cell);
    }

    #[inline(always)]
    fn write_run(&mut self, row: usize, column: usize, bytes: &[u8], count: usize, attr: Attr) {
        cells::write_run(self, row, column, bytes, count, attr);
    }

    fn copy_glyphs(&self, row: usize, glyphs: &mut [u8]) {
        copies::copy_bytes(self, row, CellByte::Glyph, glyphs);
    }

    fn copy_attributes(&self, row: usize, values: &mut [u8]) {
        copies::copy_bytes(self, row, CellByte::Attribute, values);
    }

    ghost whole = { λ g. length_grid (⟦<LentGrid<'a> as RowPlanes>⟧.planes_of g) };

    ghost indexed = { λ g. g.indexed };
}
