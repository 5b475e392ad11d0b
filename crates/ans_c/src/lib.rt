//! The checker for C, on memory that its caller lends.
//!
//! Each call takes a file of at most 16,777,216 bytes and answers by a number: [`PASS`], [`REFUSED`],
//! [`TOO_LONG`], [`NO_ROOM`] or, only from [`ans_mend_on`], [`WRONG_NUMBER`]. It asks for no memory, keeps
//! nothing and calls nobody back. An array comes as a pointer and a length. The caller sees to it that it
//! exists, and that arrays which are written do not overlap others. Whatever an answer does not set has any
//! content afterwards.
//!
//! The definitions that the program answers to say what is reported about a file (`specs/Told.antt`), and
//! `specs/Numbers.antt` the numbers. `library/ans.h` is the header.
#![tactic(auto)]

mod cells;
mod files;
mod mending;
mod numbers;
mod redrawing;
mod row;
mod row_fields;
mod row_numbers;
mod texts;

pub use files::{ans_check_on, ans_needs_on, ans_size};
pub use mending::ans_mend_on;
pub use numbers::{NO_ROOM, PASS, PictureSize, REFUSED, TOO_LONG, ToldFault, WRONG_NUMBER};
pub use redrawing::ans_redraw_on;
pub use row::ans_row_on;
pub use row_numbers::{Blame, Passing, Piece, ToldFields, ToldParts, ToldPlace, ToldRow};
pub use texts::{
    ans_copy_fault_text, ans_copy_note_text, ans_copy_version, ans_record, ans_why_on,
};

#[cfg(test)]
mod tests;
