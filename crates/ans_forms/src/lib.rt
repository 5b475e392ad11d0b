//! Sequences that are known by their bytes.
//!
//! A form is a list of [`FormPiece`]s, and [`behind_form`] says what comes after one. The forms that artists and their
//! programs are known to write are constants here. [`next_unwanted`] finds, one after the other, the sequences that may
//! be taken out of a drawing, since what is shown does not need them; which these are is defined in
//! `specs/Unwanted.antt`.
#![tactic(auto)]

mod kinds;
mod next;
mod pieces;
mod table;

pub use kinds::{Before, Going, Unwanted};
pub use next::next_unwanted;
pub use pieces::{
    BRIGHT_BACKGROUNDS, CURSOR_SWITCH, DOS_MODE, FONT_SELECTION, FormPiece, MUSIC, TRUE_COLOUR,
    begins_with_form, behind_form,
};
