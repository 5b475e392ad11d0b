//! The record of a row in memory that is lent.

ghost use Rattle.std.specs.Prelude.{◌≡◌};
ghost use Rattle.ans_screen.specs.LentRows.{row_of, never_lent};

use crate::row_planes::RowState;

/// The record of a row in memory that is lent to a grid. Its fields are the grid's own, which sets
/// them whatever they held. In C it is a `uint32_t`, a `uint32_t`, a `size_t` and a `size_t`.
#[repr(C)]
#[derive(Clone, Copy)]
pub struct LentRow {
    pub round: u32,
    pub known: u32,
    pub first: usize,
    pub end: usize,
}

impl LentRow {
    /// A record that says of no cell that it is held.
    pub fn new() -> LentRow
        ensures { result ≡ never_lent }
    {
        LentRow {
            round: 0,
            known: 1,
            first: 0,
            end: 0,
        }
    }

    #[inline(always)]
    pub(crate) fn of(row: RowState) -> LentRow
        ensures row { row_of result ≡ row }
        ensures round { result.round ≡ row.round }
    {
        LentRow {
            round: row.round,
            known: if row.known { 1 } else { 0 },
            first: row.first,
            end: row.end,
        }
    }

    #[inline(always)]
    pub(crate) fn row(self) -> RowState
        ensures { result ≡ row_of self }
    {
        RowState {
            round: self.round,
            known: self.known != 0,
            first: self.first,
            end: self.end,
        }
    }
}
