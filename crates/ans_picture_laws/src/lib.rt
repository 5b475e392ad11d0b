//! Laws of pictures that are shown or redrawn, each the contract of a function without a body. No program is
//! built on them.
//!
//! [`show_laws`] say what a reader sees of a picture in colour, and [`form_laws`] where a picture's plainest form
//! shows it, with the bytes of small pictures in [`form_examples`]. [`redrawn_file_laws`] say what is true of a
//! file whose content is such a form.
#![tactic(auto)]

pub mod form_examples;
pub mod form_laws;
pub mod redrawn_file_laws;
pub mod show_laws;
