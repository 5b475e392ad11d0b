//! Half-known cells in memory that is there already, so that none is asked for.

ghost use Rattle.std.specs.Prelude.{◌≡◌, ℕ, ◌+◌, ◌*◌, ◌^◌, ◌<◌, ◌≤◌, List, length, map, take};
ghost use Rattle.std.specs.Prelude.{replicate, slice_get, Some};
ghost use Rattle.ans_model.specs.Screen.Step.{filled};
ghost use Rattle.ans_screen.specs.declared.cell.HalfCell.{HalfCell};
ghost use Rattle.ans_screen.specs.GridEdits.{row_cells, written, printed_run, first_unknown};
ghost use Rattle.ans_screen.specs.HalfCells.{glyph_byte, attribute_byte};

use crate::attr::Attr;
use crate::cell::HalfCell;
use crate::grid::Grid;

/// Cells in row order, wherever their memory comes from: cell `i` is in row `i / width` and column `i % width`, counted
/// from 0. Every [`Grid`] is one, and so is a grid whose memory is lent.
pub trait Screen: Sized + Drop {
    ghost width_of: { Self → ℕ };

    ghost rows_of: { Self → ℕ };

    ghost cells_of: { Self → List HalfCell };

    /// The number of columns.
    fn width(&self) -> usize
        ensures { result ≡ width_of self.now };

    /// The number of rows.
    fn rows(&self) -> usize
        ensures { result ≡ rows_of self.now };

    /// Cell `i`.
    fn get(&self, i: usize) -> HalfCell
        requires { i < length (cells_of self.now) }
        ensures { slice_get (cells_of self.now) i ≡ Some result };

    /// Makes the cells from `from` up to and without `to` this one.
    fn fill(&mut self, from: usize, to: usize, cell: HalfCell)
        requires ordered { from ≤ to }
        requires within { to ≤ length (cells_of self.old) }
        ensures cells { cells_of self.new ≡ filled (cells_of self.old) from to cell }
        ensures width { width_of self.new ≡ width_of self.old }
        ensures rows { rows_of self.new ≡ rows_of self.old };

    /// The least `i` below `to` whose cell is not known.
    fn first_unknown(&self, to: usize) -> Option<usize>
        requires { to ≤ length (cells_of self.now) }
        ensures { result ≡ first_unknown (cells_of self.now) to };

    /// Makes the cells of a row from column `from` up to and without `to` this one.
    fn fill_row(&mut self, row: usize, from: usize, to: usize, cell: HalfCell)
        requires row { row < rows_of self.old }
        requires ordered { from ≤ to }
        requires within { to ≤ width_of self.old }
        ensures cells { cells_of self.new ≡ filled (cells_of self.old)
            (row * width_of self.old + from) (row * width_of self.old + to) cell }
        ensures width { width_of self.new ≡ width_of self.old }
        ensures rows { rows_of self.new ≡ rows_of self.old };

    /// Makes every cell this one.
    fn clear(&mut self, cell: HalfCell)
        ensures cells { cells_of self.new ≡ replicate (width_of self.old * rows_of self.old) cell }
        ensures width { width_of self.new ≡ width_of self.old }
        ensures rows { rows_of self.new ≡ rows_of self.old };

    /// Writes the first `count` bytes side by side in a row from a column on, each with this
    /// attribute. The bytes after them are not written.
    fn write_run(&mut self, row: usize, column: usize, bytes: &[u8], count: usize, attr: Attr)
        requires count { count ≤ length bytes.now }
        requires row { row < rows_of self.old }
        requires column { column + count ≤ width_of self.old }
        ensures cells { cells_of self.new ≡ written (cells_of self.old)
            (row * width_of self.old + column) (printed_run attr (take count bytes.now)) }
        ensures width { width_of self.new ≡ width_of self.old }
        ensures rows { rows_of self.new ≡ rows_of self.old };

    /// Copies the glyphs of a row: 0 for one that is not known.
    fn copy_glyphs(&self, row: usize, glyphs: &mut [u8])
        requires row { row < rows_of self.now }
        requires width { length glyphs.old ≡ width_of self.now }
        ensures { glyphs.new ≡ map glyph_byte (row_cells (width_of self.now) row (cells_of self.now)) };

    /// Copies the attributes' values of a row, with 0 for each bit that is not known.
    fn copy_attributes(&self, row: usize, values: &mut [u8])
        requires row { row < rows_of self.now }
        requires width { length values.old ≡ width_of self.now }
        ensures { values.new ≡ map attribute_byte (row_cells (width_of self.now) row (cells_of self.now)) };

    // a cell for each row and column
    ghost whole: { (g : Self) → length (cells_of g) ≡ width_of g * rows_of g };

    // each cell has an index
    ghost indexed: { (g : Self) → width_of g * rows_of g < 2 ^ 64 };
}

impl<G: Grid> Screen for G {
    ghost width_of = { λ g. G.width_of g };

    ghost rows_of = { λ g. G.rows_of g };

    ghost cells_of = { λ g. G.cells_of g };

    fn width(&self) -> usize {
        Grid::width(self)
    }

    fn rows(&self) -> usize {
        Grid::rows(self)
    }

    fn get(&self, i: usize) -> HalfCell {
        Grid::get(self, i)
    }

    fn fill(&mut self, from: usize, to: usize, cell: HalfCell) {
        Grid::fill(self, from, to, cell);
    }

    fn first_unknown(&self, to: usize) -> Option<usize> {
        Grid::first_unknown(self, to)
    }

    #[inline(always)]
    fn fill_row(&mut self, row: usize, from: usize, to: usize, cell: HalfCell) {
        Grid::fill_row(self, row, from, to, cell);
    }

    #[inline(always)]
    fn clear(&mut self, cell: HalfCell) {
        Grid::clear(self, cell);
    }

    #[inline(always)]
    fn write_run(&mut self, row: usize, column: usize, bytes: &[u8], count: usize, attr: Attr) {
        Grid::write_run(self, row, column, bytes, count, attr);
    }

    fn copy_glyphs(&self, row: usize, glyphs: &mut [u8]) {
        Grid::copy_glyphs(self, row, glyphs);
    }

    fn copy_attributes(&self, row: usize, values: &mut [u8]) {
        Grid::copy_attributes(self, row, values);
    }

    ghost whole = { λ g. G.whole g };

    ghost indexed = { λ g. G.indexed g };
}
