//! How a drawing is mended: its file is changed in place, one change after the other.
//!
//! [`Draft`] is the file. Each change is a method of it, whose contract says by a definition which file
//! is left. [`mend_on`] makes the changes that are asked for, and sees that what they leave passes from
//! every start; what a mended file is, and why there is none, is in `specs/Mending.antt`.
#![tactic(auto)]

mod columns;
mod comments;
mod draft;
mod editing;
mod end_mark;
mod fields;
mod full_rows;
mod helping;
mod idle;
mod judging;
mod keeping;
mod last_ends;
mod line_ends;
mod lines;
mod mended_text;
mod mending;
mod name_colours;
mod name_search;
mod names;
mod naming;
mod new_record;
mod older_record;
mod outcome;
mod reading;
mod room;
mod tail;
mod taking_out;

pub use draft::Draft;
pub use helping::put_unmended;
pub use last_ends::{count_line_ends, count_passing};
pub use mended_text::put_mended;
pub use mending::mend_on;
pub use name_search::begins_unnamed;
pub use outcome::{Edits, GivenRecord, MendError, Mended, NonBlink, Reset, Unmended};
pub use room::room_for;
pub use taking_out::{Excerpt, TakenOut, Told};
