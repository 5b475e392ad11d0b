//! A grid that is a vector of cells.

ghost use Rattle.std.specs.Prelude.{◌≡◌, ◌*◌, ◌^◌, ◌<◌, length};

use crate::cell::HalfCell;
use crate::grid::Grid;
use std::alloc::{AllocError, Global};

/// The cells one after the other.
#[derive(Drop)]
pub struct PlainGrid {
    width: usize,
    rows: usize,
    items: Vec<HalfCell>,
    ghost whole: { length items.items ≡ width * rows },
    ghost indexed: { width * rows < 2 ^ 64 },
}

impl Grid for PlainGrid {
    ghost width_of = { λ g. g.width };

    ghost rows_of = { λ g. g.rows };

    ghost cells_of = { λ g. g.items.items };

    fn new(alloc: Global, width: usize, rows: usize, cell: HalfCell) -> Result<Self, AllocError> {
        let items = vec![in alloc; cell; width * rows]?;
        Ok(PlainGrid { width, rows, items })
    }

    fn width(&self) -> usize {
        self.width
    }

    fn rows(&self) -> usize {
        self.rows
    }

    fn get(&self, i: usize) -> HalfCell {
        self.items[i]
    }

    fn put(&mut self, i: usize, cell: HalfCell) {
        self.items[i] = cell;
    }

    fn fill(&mut self, from: usize, to: usize, cell: HalfCell) {
        self.items[from..to].fill(cell);
    }

    fn first_unknown(&self, to: usize) -> Option<usize> {
        self.items[..to].iter().position(|cell| !cell.is_known())
    }

    ghost whole = { λ g. g.whole };

    ghost indexed = { λ g. g.indexed };
}
