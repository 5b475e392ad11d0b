//! The verdict on a file, and what its content needs.
//!
//! [`check`] finds the verdict on a file from a class of starts, and [`needs`] which parts of the start its
//! content needs. [`play_on`] plays on a screen that is there already; [`needs_on`] and [`why_on`] take
//! theirs from [`Screens`]: [`NewScreens`], [`LentScreens`], [`KeptScreens`] or [`FileScreens`].
//!
//! What a verdict says of a file is in `specs/FileVerdict.antt`, what its needs say in
//! `specs/FileNeeds.antt`, and when there is no room for a screen in `specs/ScreenRoom.antt`.
#![tactic(auto)]

mod certain_faults;
mod least_class;
mod part;
mod parts_needed;
mod played;
mod screens;
mod verdict;
mod why;

pub use certain_faults::cleared_fault;
pub use parts_needed::{needs, needs_on};
pub use screens::{FileScreens, KeptScreens, LentScreens, NewScreens, Screens};
pub use verdict::{Verdict, check, play_on};
pub use why::why_on;
