//! What is worth a look in a drawing, though it changes no verdict.
//!
//! [`Hints::of`] counts it along a pen. [`Overview::of`] finds hints, players and taller screens
//! together, with fewer walks. [`ends_full_rows`] says whether all full rows end in line ends, and
//! [`RowPlay`] finds these one by one. [`OtherWidths`] are signs that a record states a wrong width. Nothing
//! here takes memory. What is proved of rows is in `ans_play_laws`.
//!
//! What each hint is about is in `specs/Conditions.antt`, `specs/RowEnds.antt`, `specs/Rows.antt` and
//! `specs/OtherWidths.antt`, and how it is counted in `specs/Places.antt`.
#![tactic(auto)]

mod conditions;
mod full_row_ends;
mod hints;
mod other_widths;
mod row;
mod row_ends;
mod row_play;
mod seen;
mod survey;
mod walk;

pub use full_row_ends::{FullRowEnd, ends_full_rows};
pub use hints::Hints;
pub use other_widths::OtherWidths;
pub use row::{EndedRow, Row, Seam};
pub use row_ends::{RowEnds, RowsOver, WiderRows};
pub use row_play::RowPlay;
pub use survey::Overview;
