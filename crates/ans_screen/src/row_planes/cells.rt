//! A grid of planes read and written by its cells.

ghost use Rattle.std.specs.Prelude.{◌≡◌, ◌+◌, ◌*◌, ◌^◌, ◌<◌, ◌≤◌, length, take, set, replicate, slice_get, Some};
ghost use Rattle.ans_model.specs.Screen.Step.{filled};
ghost use Rattle.ans_screen.specs.GridEdits.{written, printed_run, first_unknown};
ghost use Rattle.ans_screen.specs.RowCells.{cells_of_grid};

use super::RowPlanes;
use super::rows::{fill_planes, first_unknown_of_row, held_row, open, row_start};
use crate::attr::Attr;
use crate::cell::HalfCell;
use crate::planes::{CellBytes, cell_of_bytes};

#[tactic(auto, using(crate::specs::RowCells::length_grid, crate::proofs::Places::row_below))]
pub(crate) fn get<P: RowPlanes>(grid: &P, i: usize) -> HalfCell
    requires { i < length (cells_of_grid (P.planes_of grid.now)) }
    ensures { slice_get (cells_of_grid (P.planes_of grid.now)) i ≡ Some result }
{
    let row = i / grid.frame().width;
    let held = held_row(grid, row, row_start(grid, row));
    if i < held.first || held.end <= i {
        return grid.frame().blank;
    }
    let (glyph, value) = grid.shown(i);
    if held.known {
        cell_of_bytes(CellBytes::known(glyph, value))
    } else {
        let (glyph_known, bits_known) = grid.known(i);
        cell_of_bytes(CellBytes {
            glyph,
            glyph_known,
            bits_known,
            value,
        })
    }
}

#[tactic(auto, using(crate::specs::RowCells::length_grid, crate::proofs::Places::row_below))]
pub(crate) fn put<P: RowPlanes>(grid: &mut P, i: usize, cell: HalfCell)
    requires { i < length (cells_of_grid (P.planes_of grid.old)) }
    ensures cells { cells_of_grid (P.planes_of grid.new)
        ≡ set (cells_of_grid (P.planes_of grid.old)) i cell }
    ensures width { (P.planes_of grid.new).width ≡ (P.planes_of grid.old).width }
    ensures rows { (P.planes_of grid.new).rows ≡ (P.planes_of grid.old).rows }
{
    let row = i / grid.frame().width;
    let column = i % grid.frame().width;
    fill_row(grid, row, column, column + 1, cell);
}

#[tactic(auto, using(crate::specs::RowCells::length_grid))]
pub(crate) fn fill<P: RowPlanes>(grid: &mut P, from: usize, to: usize, cell: HalfCell)
    requires ordered { from ≤ to }
    requires within { to ≤ length (cells_of_grid (P.planes_of grid.old)) }
    ensures cells { cells_of_grid (P.planes_of grid.new)
        ≡ filled (cells_of_grid (P.planes_of grid.old)) from to cell }
    ensures width { (P.planes_of grid.new).width ≡ (P.planes_of grid.old).width }
    ensures rows { (P.planes_of grid.new).rows ≡ (P.planes_of grid.old).rows }
{
    if from == 0 && to == grid.frame().width * grid.frame().rows {
        clear(grid, cell);
    } else if from < to {
        fill_rows(grid, from, to, &cell);
    }
}

#[tactic(auto, using(crate::specs::RowCells::length_grid))]
pub(crate) fn first_unknown<P: RowPlanes>(grid: &P, to: usize) -> Option<usize>
    requires { to ≤ length (cells_of_grid (P.planes_of grid.now)) }
    ensures { result ≡ first_unknown (cells_of_grid (P.planes_of grid.now)) to }
{
    for row in 0..grid.frame().rows {
        let start = row_start(grid, row);
        if start >= to {
            return None;
        }
        if let Some(i) = first_unknown_of_row(grid, row, to.min(start + grid.frame().width)) {
            return Some(i);
        }
    }
    None
}

#[inline(always)]
pub(crate) fn fill_row<P: RowPlanes>(
    grid: &mut P,
    row: usize,
    from: usize,
    to: usize,
    cell: HalfCell,
)
    requires row { row < (P.planes_of grid.old).rows }
    requires ordered { from ≤ to }
    requires within { to ≤ (P.planes_of grid.old).width }
    ensures cells { cells_of_grid (P.planes_of grid.new) ≡ filled (cells_of_grid (P.planes_of grid.old))
        (row * (P.planes_of grid.old).width + from) (row * (P.planes_of grid.old).width + to) cell }
    ensures width { (P.planes_of grid.new).width ≡ (P.planes_of grid.old).width }
    ensures rows { (P.planes_of grid.new).rows ≡ (P.planes_of grid.old).rows }
{
    let start = row_start(grid, row);
    let bytes = CellBytes::of_cell(cell);
    let known = open(grid, row, start + from, start + to, bytes.is_known());
    fill_planes(grid, start + from, start + to, bytes, known);
}

#[inline(never)]
fn fill_rows<P: RowPlanes>(grid: &mut P, from: usize, to: usize, cell: &HalfCell)
    requires ordered { from < to }
    requires within { to ≤ (P.planes_of grid.old).width * (P.planes_of grid.old).rows }
    ensures cells { cells_of_grid (P.planes_of grid.new)
        ≡ filled (cells_of_grid (P.planes_of grid.old)) from to cell.now }
    ensures width { (P.planes_of grid.new).width ≡ (P.planes_of grid.old).width }
    ensures rows { (P.planes_of grid.new).rows ≡ (P.planes_of grid.old).rows }
{
    let columns = grid.frame().width;
    let last = (to - 1) / columns;
    for row in from / columns..last + 1 {
        let start = row_start(grid, row);
        let end = columns.min(to - start);
        fill_row(grid, row, from.saturating_sub(start), end, *cell);
    }
}

#[inline(always)]
pub(crate) fn clear<P: RowPlanes>(grid: &mut P, cell: HalfCell)
    ensures cells { cells_of_grid (P.planes_of grid.new)
        ≡ replicate ((P.planes_of grid.old).width * (P.planes_of grid.old).rows) cell }
    ensures width { (P.planes_of grid.new).width ≡ (P.planes_of grid.old).width }
    ensures rows { (P.planes_of grid.new).rows ≡ (P.planes_of grid.old).rows }
{
    if grid.round() == u32::MAX {
        grid.set_back();
    }
    begin_next(grid, cell);
}

#[inline(always)]
fn begin_next<P: RowPlanes>(grid: &mut P, blank: HalfCell)
    requires { (P.planes_of grid.old).round + 1 < 2 ^ 32 }
    ensures cells { cells_of_grid (P.planes_of grid.new)
        ≡ replicate ((P.planes_of grid.old).width * (P.planes_of grid.old).rows) blank }
    ensures width { (P.planes_of grid.new).width ≡ (P.planes_of grid.old).width }
    ensures rows { (P.planes_of grid.new).rows ≡ (P.planes_of grid.old).rows }
{
    let round = grid.round();
    grid.begin_round(round + 1, blank);
}

#[inline(always)]
#[tactic(auto, using(crate::specs::RowCells::length_grid))]
pub(crate) fn write_run<P: RowPlanes>(
    grid: &mut P,
    row: usize,
    column: usize,
    bytes: &[u8],
    count: usize,
    attr: Attr,
)
    requires count { count ≤ length bytes.now }
    requires row { row < (P.planes_of grid.old).rows }
    requires column { column + count ≤ (P.planes_of grid.old).width }
    ensures cells { cells_of_grid (P.planes_of grid.new) ≡ written (cells_of_grid (P.planes_of grid.old))
        (row * (P.planes_of grid.old).width + column) (printed_run attr (take count bytes.now)) }
    ensures width { (P.planes_of grid.new).width ≡ (P.planes_of grid.old).width }
    ensures rows { (P.planes_of grid.new).rows ≡ (P.planes_of grid.old).rows }
{
    let from = row_start(grid, row) + column;
    let known = open(grid, row, from, from + count, attr.is_known());
    grid.write_shown(from, bytes, count, attr.value);
    if !known {
        grid.fill_known(from, from + count, 0xFF, attr.known);
    }
}
