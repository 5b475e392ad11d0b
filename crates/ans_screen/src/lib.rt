//! What is known of a screen's cells: half-known attributes and cells, and grids of them.
//!
//! An attribute is known by its bits, a glyph whole or not at all. [`Attr::apply`] keeps all that can be known, and no
//! more. A [`Grid`] is a width, a number of rows and a list of half-known cells in row order; each call of it is exact,
//! and all grids keep that one contract. [`PlainGrid`] is a vector of cells, [`PlaneGrid`] four planes of bytes and a
//! record for each row. A [`Screen`] is all of that except for `new` and `put`: each grid is one, and so is
//! [`LentGrid`], which keeps the same planes in memory that its owner lends, and asks for none. The definitions are in
//! `specs/KnownBits.antt`, `specs/HalfCells.antt` and `specs/GridEdits.antt`; `specs/CellPlanes.antt` says which cell
//! four bytes stand for, `specs/RowCells.antt` which cells planes and rows do, and `specs/LentRows.antt` what room is
//! lent.
#![tactic(auto)]

mod attr;
mod cell;
mod grid;
mod lent_grid;
mod lent_row;
mod plain;
mod plane_grid;
mod plane_pair;
mod planes;
mod row_planes;
mod screen;

pub use attr::Attr;
pub use cell::HalfCell;
pub use grid::Grid;
pub use lent_grid::LentGrid;
pub use lent_row::LentRow;
pub use plain::PlainGrid;
pub use plane_grid::PlaneGrid;
pub use screen::Screen;

#[cfg(test)]
mod tests;
