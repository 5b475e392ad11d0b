//! Grids of half-known cells.

ghost use Rattle.std.specs.Prelude.{◌≡◌, ℕ, ◌+◌, ◌*◌, ◌^◌, ◌<◌, ◌≤◌, List, length, map, take, set};
ghost use Rattle.std.specs.Prelude.{replicate, slice_get, Some, IfOk};
ghost use Rattle.ans_model.specs.Bytes.{most_columns};
ghost use Rattle.ans_model.specs.Screen.Step.{filled};
ghost use Rattle.ans_screen.specs.declared.cell.HalfCell.{HalfCell};
ghost use Rattle.ans_screen.specs.GridEdits.{most_rows, row_cells, written, printed_run, first_unknown};
ghost use Rattle.ans_screen.specs.HalfCells.{glyph_byte, attribute_byte};

use crate::attr::Attr;
use crate::cell::HalfCell;
use std::alloc::{AllocError, Global};

/// Cells in row order: cell `i` is in row `i / width` and column `i % width`, counted from 0. The calls that go
/// by row and column have defaults, which use those that go by cells.
pub trait Grid: Sized + Drop {
    ghost width_of: { Self → ℕ };

    ghost rows_of: { Self → ℕ };

    ghost cells_of: { Self → List HalfCell };

    /// A grid of `width * rows` equal cells, of 1 to 1024 columns and 1 to 8193 rows. It fails where
    /// memory runs out.
    fn new(alloc: Global, width: usize, rows: usize, cell: HalfCell) -> Result<Self, AllocError>
        requires some_width { 1 ≤ width }
        requires width { width ≤ most_columns }
        requires some_rows { 1 ≤ rows }
        requires rows { rows ≤ most_rows }
        ensures width { IfOk result (λ g. width_of g ≡ width) }
        ensures rows { IfOk result (λ g. rows_of g ≡ rows) }
        ensures cells { IfOk result (λ g. cells_of g ≡ replicate (width * rows) cell) };

    /// The number of columns.
    fn width(&self) -> usize
        ensures { result ≡ width_of self.now };

    /// The number of rows.
    fn rows(&self) -> usize
        ensures { result ≡ rows_of self.now };

    /// Cell `i`.
    fn get(&self, i: usize) -> HalfCell
        requires { i < length (cells_of self.now) }
        ensures { slice_get (cells_of self.now) i ≡ Some result };

    /// Makes cell `i` this one.
    fn put(&mut self, i: usize, cell: HalfCell)
        requires { i < length (cells_of self.old) }
        ensures cells { cells_of self.new ≡ set (cells_of self.old) i cell }
        ensures width { width_of self.new ≡ width_of self.old }
        ensures rows { rows_of self.new ≡ rows_of self.old };

    /// Makes the cells from `from` up to and without `to` this one.
    fn fill(&mut self, from: usize, to: usize, cell: HalfCell)
        requires ordered { from ≤ to }
        requires within { to ≤ length (cells_of self.old) }
        ensures cells { cells_of self.new ≡ filled (cells_of self.old) from to cell }
        ensures width { width_of self.new ≡ width_of self.old }
        ensures rows { rows_of self.new ≡ rows_of self.old };

    /// The least `i` below `to` whose cell is not known.
    fn first_unknown(&self, to: usize) -> Option<usize>
        requires { to ≤ length (cells_of self.now) }
        ensures { result ≡ first_unknown (cells_of self.now) to };

    /// Makes the cells of a row from column `from` up to and without `to` this one.
    fn fill_row(&mut self, row: usize, from: usize, to: usize, cell: HalfCell)
        requires row { row < rows_of self.old }
        requires ordered { from ≤ to }
        requires within { to ≤ width_of self.old }
        ensures cells { cells_of self.new ≡ filled (cells_of self.old)
            (row * width_of self.old + from) (row * width_of self.old + to) cell }
        ensures width { width_of self.new ≡ width_of self.old }
        ensures rows { rows_of self.new ≡ rows_of self.old }
    {
        let start = row * self.width();
        self.fill(start + from, start + to, cell);
    }

    /// Makes every cell this one.
    fn clear(&mut self, cell: HalfCell)
        ensures cells { cells_of self.new ≡ replicate (width_of self.old * rows_of self.old) cell }
        ensures width { width_of self.new ≡ width_of self.old }
        ensures rows { rows_of self.new ≡ rows_of self.old }
    {
        self.fill(0, self.width() * self.rows(), cell);
    }

    /// Writes the first `count` bytes side by side in a row from a column on, each with this
    /// attribute. The bytes after them are not written.
    fn write_run(&mut self, row: usize, column: usize, bytes: &[u8], count: usize, attr: Attr)
        requires count { count ≤ length bytes.now }
        requires row { row < rows_of self.old }
        requires column { column + count ≤ width_of self.old }
        ensures cells { cells_of self.new ≡ written (cells_of self.old)
            (row * width_of self.old + column) (printed_run attr (take count bytes.now)) }
        ensures width { width_of self.new ≡ width_of self.old }
        ensures rows { rows_of self.new ≡ rows_of self.old }
    {
        let from = row * self.width() + column;
        for i in 0..count {
            let cell = HalfCell {
                glyph: Some(bytes[i]),
                attr,
            };
            self.put(from + i, cell);
        }
    }

    /// Copies the glyphs of a row: 0 for one that is not known.
    fn copy_glyphs(&self, row: usize, glyphs: &mut [u8])
        requires row { row < rows_of self.now }
        requires width { length glyphs.old ≡ width_of self.now }
        ensures { glyphs.new ≡ map glyph_byte (row_cells (width_of self.now) row (cells_of self.now)) }
    {
        let from = row * self.width();
        for i in 0..glyphs.len() {
            glyphs[i] = self.get(from + i).glyph_byte();
        }
    }

    /// Copies the attributes' values of a row, with 0 for each bit that is not known.
    fn copy_attributes(&self, row: usize, values: &mut [u8])
        requires row { row < rows_of self.now }
        requires width { length values.old ≡ width_of self.now }
        ensures { values.new ≡ map attribute_byte (row_cells (width_of self.now) row (cells_of self.now)) }
    {
        let from = row * self.width();
        for i in 0..values.len() {
            values[i] = self.get(from + i).attribute_byte();
        }
    }

    // a cell for each row and column
    ghost whole: { (g : Self) → length (cells_of g) ≡ width_of g * rows_of g };

    // each cell has an index
    ghost indexed: { (g : Self) → width_of g * rows_of g < 2 ^ 64 };
}
