//! The rows of a grid of planes, and what the planes hold of them.

ghost use Rattle.std.specs.Prelude.{◌≡◌, ◌+◌, ◌-◌, ◌*◌, ◌<◌, ◌≤◌, ℕ, true, IsTrue, slice_range};
ghost use Rattle.ans_screen.specs.CellPlanes.{IsFirstGap};
ghost use Rattle.ans_screen.specs.HalfCells.{is_known};
ghost use Rattle.ans_screen.specs.RowCells.{AreFilled, cell_in_grid, states_of, state_of, holds_none, IsHeldRow};
ghost use Rattle.ans_screen.specs.RowCells.{SameRows, HasBlanks, IsMarked, ShowsSame, FindsUnknown};

use super::{RowPlanes, RowState};
use crate::cell::CellByte;
use crate::planes::{CellBytes, first_gap};

/// At least this many cells of a row are held after those that are written, since what is written next mostly goes
/// there. With one cell written, one blend fills them.
const AHEAD: usize = 15;

#[inline(always)]
pub(crate) fn row_start<P: RowPlanes>(grid: &P, row: usize) -> usize
    requires { row < (P.planes_of grid.now).rows }
    ensures start { result ≡ row * (P.planes_of grid.now).width }
    ensures end { result + (P.planes_of grid.now).width ≤ (P.planes_of grid.now).width * (P.planes_of grid.now).rows }
{
    row * grid.frame().width
}

/// The row as this round holds it. If it holds no cell, what it holds begins and ends at `at`.
#[inline(always)]
pub(crate) fn held_row<P: RowPlanes>(grid: &P, row: usize, at: usize) -> RowState
    requires row { row < (P.planes_of grid.now).rows }
    requires start { row * (P.planes_of grid.now).width ≤ at }
    requires end { at ≤ row * (P.planes_of grid.now).width + (P.planes_of grid.now).width }
    ensures { IsHeldRow (P.planes_of grid.now) row result }
{
    let RowState {
        round,
        known,
        first,
        end,
    } = grid.row(row);
    if round != grid.round() {
        return RowState {
            round: grid.round(),
            known: true,
            first: at,
            end: at,
        };
    }
    let start = row_start(grid, row);
    let stop = start + grid.frame().width;
    let first = first.max(start).min(stop);
    let end = end.max(first).min(stop);
    RowState {
        round,
        known,
        first,
        end,
    }
}

/// Has the four planes say of a row's cells what two of them say, if the two no longer count by themselves.
fn mark_known<P: RowPlanes>(grid: &mut P, held: RowState, known: bool)
    requires ordered { held.first ≤ held.end }
    requires within { held.end ≤ (P.planes_of grid.old).width * (P.planes_of grid.old).rows }
    requires known { known ≡ true → held.known ≡ true }
    ensures marked { IsMarked held known (P.planes_of grid.old) (P.planes_of grid.new) }
    ensures same { SameRows (P.planes_of grid.old) (P.planes_of grid.new) }
{
    if held.known && !known {
        grid.fill_known(held.first, held.end, 0xFF, 0xFF);
    }
}

#[inline(always)]
pub(crate) fn fill_planes<P: RowPlanes>(
    grid: &mut P,
    from: usize,
    to: usize,
    bytes: CellBytes,
    known: bool,
)
    requires ordered { from ≤ to }
    requires within { to ≤ (P.planes_of grid.old).width * (P.planes_of grid.old).rows }
    requires known { known ≡ true → (bytes.glyph_known ≡ 0xFF) × (bytes.bits_known ≡ 0xFF) }
    ensures { AreFilled (P.planes_of grid.old) (P.planes_of grid.new) known from to
        bytes.glyph bytes.glyph_known bytes.bits_known bytes.value }
{
    grid.fill_shown(from, to, bytes.glyph, bytes.value);
    if !known {
        grid.fill_known(from, to, bytes.glyph_known, bytes.bits_known);
    }
}

fn write_blank<P: RowPlanes>(grid: &mut P, from: usize, to: usize, known: bool)
    requires within { to ≤ (P.planes_of grid.old).width * (P.planes_of grid.old).rows }
    requires known { known ≡ true → IsTrue (is_known (P.planes_of grid.old).blank) }
    ensures blanks { HasBlanks (state_of known) (P.planes_of grid.old) (P.planes_of grid.new) from to }
    ensures same { SameRows (P.planes_of grid.old) (P.planes_of grid.new) }
{
    if from < to {
        let blank = CellBytes::of_cell(grid.frame().blank);
        fill_planes(grid, from, to, blank, known);
    }
}

/// Where the cells of a row end that are to be held, if those before `to` are: as many more as it
/// holds, and 15 at least, as far as the row goes. So a row that is written from the left is
/// widened a few times.
fn stop_ahead<P: RowPlanes>(grid: &P, row: usize, held: RowState, to: usize) -> usize
    requires row { row < (P.planes_of grid.now).rows }
    requires end { to ≤ row * (P.planes_of grid.now).width + (P.planes_of grid.now).width }
    ensures from { to ≤ result }
    ensures within { result ≤ row * (P.planes_of grid.now).width + (P.planes_of grid.now).width }
{
    let more = held.end.saturating_sub(held.first).max(AHEAD);
    to.saturating_add(more)
        .min(row_start(grid, row) + grid.frame().width)
}

/// Has a row that holds no cell hold those from `from` up to and without `to`, and 16 at least, as
/// far as the row goes.
#[inline(always)]
fn begin<P: RowPlanes>(grid: &mut P, row: usize, from: usize, to: usize, known: bool)
    requires row { row < (P.planes_of grid.old).rows }
    requires ordered { from ≤ to }
    requires start { row * (P.planes_of grid.old).width ≤ from }
    requires end { to ≤ row * (P.planes_of grid.old).width + (P.planes_of grid.old).width }
    requires known { known ≡ true → IsTrue (is_known (P.planes_of grid.old).blank) }
    requires empty { IsHeldRow (P.planes_of grid.old) row (holds_none (P.planes_of grid.old).round from) }
    ensures same { ShowsSame (P.planes_of grid.old) (P.planes_of grid.new) }
    ensures held { (i : ℕ) → from ≤ i → i < to → states_of (P.planes_of grid.new) i ≡ state_of known }
{
    let start = row_start(grid, row);
    let stop = to
        .max(from.saturating_add(AHEAD + 1))
        .min(start + grid.frame().width);
    write_blank(grid, from, stop, known);
    grid.hold(row, known, from, stop);
}

/// Has the row hold the cells from `from` up to and without `to` too, and those between them and
/// the ones that it holds, and says whether it is known then.
#[cold]
#[inline(never)]
fn widen<P: RowPlanes>(grid: &mut P, row: usize, from: usize, to: usize, known: bool) -> bool
    requires row { row < (P.planes_of grid.old).rows }
    requires ordered { from ≤ to }
    requires start { row * (P.planes_of grid.old).width ≤ from }
    requires end { to ≤ row * (P.planes_of grid.old).width + (P.planes_of grid.old).width }
    requires known { known ≡ true → IsTrue (is_known (P.planes_of grid.old).blank) }
    ensures same { ShowsSame (P.planes_of grid.old) (P.planes_of grid.new) }
    ensures held { (i : ℕ) → from ≤ i → i < to → states_of (P.planes_of grid.new) i ≡ state_of result }
    ensures known { result ≡ true → known ≡ true }
{
    let held = held_row(grid, row, from);
    if held.first == held.end {
        begin(grid, row, from, to, known);
        return known;
    }
    let stop = stop_ahead(grid, row, held, to);
    let known = held.known && known;
    mark_known(grid, held, known);
    write_blank(grid, from, held.first, known);
    write_blank(grid, held.end, stop, known);
    grid.hold(row, known, held.first.min(from), held.end.max(stop));
    known
}

/// Has the row hold the cells from `from` up to and without `to`, known ones or any, and says
/// whether it is known then, so that only the planes of glyphs and of values count.
#[inline(always)]
pub(crate) fn open<P: RowPlanes>(
    grid: &mut P,
    row: usize,
    from: usize,
    to: usize,
    known: bool,
) -> bool
    requires row { row < (P.planes_of grid.old).rows }
    requires ordered { from ≤ to }
    requires start { row * (P.planes_of grid.old).width ≤ from }
    requires end { to ≤ row * (P.planes_of grid.old).width + (P.planes_of grid.old).width }
    ensures same { ShowsSame (P.planes_of grid.old) (P.planes_of grid.new) }
    ensures held { (i : ℕ) → from ≤ i → i < to → states_of (P.planes_of grid.new) i ≡ state_of result }
    ensures known { result ≡ true → known ≡ true }
{
    let held = grid.row(row);
    if holds(grid, held, from, to) && (known || !held.known) {
        held.known
    } else {
        widen(grid, row, from, to, known && grid.frame().blank.is_known())
    }
}

#[inline(always)]
fn holds<P: RowPlanes>(grid: &P, held: RowState, from: usize, to: usize) -> bool
    ensures { IsTrue result → (held.round ≡ (P.planes_of grid.now).round) × (held.first ≤ from) × (to ≤ held.end) }
{
    held.round == grid.round() && held.first <= from && to <= held.end
}

pub(crate) fn first_unknown_of_row<P: RowPlanes>(grid: &P, row: usize, to: usize) -> Option<usize>
    requires row { row < (P.planes_of grid.now).rows }
    requires from { row * (P.planes_of grid.now).width ≤ to }
    requires to { to ≤ row * (P.planes_of grid.now).width + (P.planes_of grid.now).width }
    ensures { FindsUnknown (cell_in_grid (P.planes_of grid.now)) (row * (P.planes_of grid.now).width) to result }
{
    let start = row_start(grid, row);
    let held = held_row(grid, row, start);
    let first = held.first.min(to);
    let end = held.end.min(to);
    if start < first && !grid.frame().blank.is_known() {
        return Some(start);
    }
    if let Some(i) = first_unknown_held(grid, first, end, held.known) {
        return Some(i);
    }
    if end < to && !grid.frame().blank.is_known() {
        return Some(end);
    }
    None
}

fn first_gap_from<P: RowPlanes>(grid: &P, from: usize, to: usize) -> Option<usize>
    requires ordered { from ≤ to }
    requires within { to ≤ (P.planes_of grid.now).width * (P.planes_of grid.now).rows }
    ensures { IsFirstGap (slice_range (P.planes_of grid.now).glyphs_known from to)
        (slice_range (P.planes_of grid.now).bits_known from to) (to - from) result }
{
    let glyphs_known = grid.known_bytes(CellByte::Glyph, from, to);
    let bits_known = grid.known_bytes(CellByte::Attribute, from, to);
    let count = glyphs_known.len().min(bits_known.len());
    if let Some(i) = first_gap(glyphs_known, bits_known, count) {
        return Some(i);
    }
    if count < to - from { Some(count) } else { None }
}

fn first_unknown_held<P: RowPlanes>(grid: &P, from: usize, to: usize, known: bool) -> Option<usize>
    requires ordered { from ≤ to }
    requires within { to ≤ (P.planes_of grid.now).width * (P.planes_of grid.now).rows }
    requires held { (i : ℕ) → from ≤ i → i < to → states_of (P.planes_of grid.now) i ≡ state_of known }
    ensures { FindsUnknown (cell_in_grid (P.planes_of grid.now)) from to result }
{
    if known {
        return None;
    }
    match first_gap_from(grid, from, to) {
        Some(i) => Some(from + i),
        None => None,
    }
}
