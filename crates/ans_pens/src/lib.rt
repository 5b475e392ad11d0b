//! Plays without a screen: of only the cursors, the colours and wrap.
//!
//! A [`pen::Pen`] is all of a state except its cells. Where a token takes it depends on no cell, so it goes on
//! without them, even if the screen scrolls (`specs/Pens.antt`). For a fault that is deserved,
//! [`cursors_before`] and [`cells_of_fault`] give what the plays from the low and the high start of a class
//! show, with one cell of each. [`is_good`] says whether a content passes from the cleared start,
//! [`least_lines`] with how many lines it does, and [`is_taller`] whether it plays on taller screens as on the
//! stated one. [`Times`] is how often something occurs, and where first. Nothing here takes memory. What is
//! proved of these plays is in `ans_play_laws`.
#![tactic(auto)]

pub mod cell_play;
mod evidence;
mod lines;
pub mod pen;
mod taller;
pub mod times;
mod two_cell_plays;

pub use evidence::{cells_of_fault, cursors_before};
pub use lines::{is_good, least_lines};
pub use taller::{is_taller, moved_with};
pub use times::Times;
