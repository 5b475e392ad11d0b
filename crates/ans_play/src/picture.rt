//! The picture that the content shows.

ghost use Rattle.std.specs.Prelude.{◌≡◌, ◌<◌, ◌≤◌, length, Some};

use ans_model::size::Size;
use ans_screen::{HalfCell, Screen};
use std::marker::Model;

/// A byte and an attribute at each row and column of the stated size.
#[derive(Drop)]
pub struct Picture<G: Screen> {
    size: Size,
    grid: G,
    ghost grid_width: { G.width_of grid ≡ size.width },
    ghost grid_rows: { size.lines ≤ G.rows_of grid },
}

impl<G: Screen> Model for Picture<G> {
    ghost use Rattle.ans_model.specs.Verdict.Good.{Picture};
    ghost use Rattle.ans_play.specs.Shown.{picture_of, AreShownCells};

    ghost Value = { Picture };

    ghost view = { λ p. picture_of p.size (G.cells_of p.grid) };

    ghost invariant = { λ p. AreShownCells p.size (G.cells_of p.grid) };
}

impl<G: Screen> Picture<G> {
    ghost use Rattle.ans_model.specs.Screen.State.{at, cell_at, IsPlayableSize};
    ghost use Rattle.ans_model.specs.Verdict.Good.{IsPictureOf};
    ghost use Rattle.ans_play.specs.Shown.{AreShownCells, picture_of, known_cell, byte_at, attribute_at};
    ghost use Rattle.ans_play.specs.Shown.{bytes_of_row, attributes_of_row};

    pub(crate) fn new(size: Size, grid: G) -> Picture<G>
        requires shown { AreShownCells size (G.cells_of grid) }
        requires width { G.width_of grid ≡ size.width }
        requires rows { size.lines ≤ G.rows_of grid }
        ensures { result ≡ picture_of size (G.cells_of grid) }
    {
        Picture { size, grid }
    }

    /// The number of columns.
    pub fn width(&self) -> usize
        ensures width { result ≡ self.now.size.width }
        ensures limits { IsPlayableSize self.now.size }
        ensures whole { IsPictureOf self.now.size self.now }
    {
        self.size.width()
    }

    /// The number of lines.
    pub fn lines(&self) -> usize
        ensures lines { result ≡ self.now.size.lines }
        ensures whole { IsPictureOf self.now.size self.now }
    {
        self.size.lines()
    }

    fn cell(&self, row: usize, column: usize) -> HalfCell
        requires row { row < self.now.size.lines }
        requires column { column < self.now.size.width }
        ensures { cell_at self.now.size self.now.cells (at row column) ≡ Some (known_cell result) }
    {
        self.grid.get(row * self.size.width() + column)
    }

    /// The byte at a row and a column, counted from 0.
    pub fn glyph(&self, row: usize, column: usize) -> u8
        requires row { row < self.now.size.lines }
        requires column { column < self.now.size.width }
        ensures { byte_at self.now row column ≡ Some result }
    {
        self.cell(row, column).glyph.unwrap_or(0)
    }

    /// The attribute at a row and a column, counted from 0.
    pub fn attr(&self, row: usize, column: usize) -> u8
        requires row { row < self.now.size.lines }
        requires column { column < self.now.size.width }
        ensures { attribute_at self.now row column ≡ Some result }
    {
        let attr = self.cell(row, column).attr;
        attr.value
    }

    /// Copies the bytes of a row, counted from 0, one for each column.
    pub fn copy_glyphs(&self, row: usize, bytes: &mut [u8])
        requires row { row < self.now.size.lines }
        requires width { length bytes.old ≡ self.now.size.width }
        ensures { bytes.new ≡ bytes_of_row self.now row }
    {
        self.grid.copy_glyphs(row, bytes);
    }

    /// Copies the attributes of a row, counted from 0, one for each column.
    pub fn copy_attributes(&self, row: usize, attributes: &mut [u8])
        requires row { row < self.now.size.lines }
        requires width { length attributes.old ≡ self.now.size.width }
        ensures { attributes.new ≡ attributes_of_row self.now row }
    {
        self.grid.copy_attributes(row, attributes);
    }
}
