//! A byte of each cell copied from the rows of a grid of planes.

ghost use Rattle.std.specs.Prelude.{◌≡◌, ◌+◌, ◌<◌, length, map};
ghost use Rattle.ans_screen.specs.GridEdits.{row_cells};
ghost use Rattle.ans_screen.specs.HalfCells.{byte_of};
ghost use Rattle.ans_screen.specs.RowCells.{cells_of_grid, IsHeldRow, IsCopied};

use super::rows::{held_row, row_start};
use super::{RowPlanes, RowState};
use crate::cell::CellByte;
use crate::planes::copy_known;

fn copy_held<P: RowPlanes>(grid: &P, row: usize, held: RowState, which: CellByte, copied: &mut [u8])
    requires row { row < (P.planes_of grid.now).rows }
    requires held { IsHeldRow (P.planes_of grid.now) row held }
    requires all { held.first + length copied.old ≡ held.end }
    ensures { IsCopied (byte_of which) (P.planes_of grid.now) held.first (length copied.old) copied.new }
{
    copied.fill(0);
    let shown = grid.shown_bytes(which, held.first, held.end);
    if held.known {
        copied[..shown.len()].copy_from_slice(shown);
    } else {
        let known = grid.known_bytes(which, held.first, held.end);
        let count = shown.len().min(known.len());
        copy_known(
            which,
            &shown[..count],
            &known[..count],
            &mut copied[..count],
        );
    }
}

pub(crate) fn copy_bytes<P: RowPlanes>(grid: &P, row: usize, which: CellByte, copied: &mut [u8])
    requires row { row < (P.planes_of grid.now).rows }
    requires width { length copied.old ≡ (P.planes_of grid.now).width }
    ensures { copied.new ≡ map (byte_of which)
        (row_cells (P.planes_of grid.now).width row (cells_of_grid (P.planes_of grid.now))) }
{
    let start = row_start(grid, row);
    let held = held_row(grid, row, start);
    copied.fill(grid.frame().blank.byte(which));
    let place = held.first - start..held.end - start;
    copy_held(grid, row, held, which, &mut copied[place]);
}
