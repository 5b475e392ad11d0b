//! Which bytes of the content form which token: the sequences of ANSI.SYS, exactly.
//!
//! A `Scanner` is given one byte at a time. It returns a token where the bytes since the last one
//! spell it, nothing where they begin a spelling, and a fault where they begin none.
//!
//! [`walk`] goes over a content and hands its tokens to a [`Walker`], common ones read whole, and plain
//! bytes at once.
//!
//! Other functions are for a caller that plays as it reads and makes no token. [`count_glyphs`] counts a run, and
//! [`count_text`] one of which only the first bytes are needed. [`read_sequence`] reads a sequence's numbers and
//! letter, and [`number_at`] a short number within one; [`distance`], [`place`] and [`is_just`] read in the numbers
//! what the letter takes. [`Scanner::skip`] then goes on over the bytes. The definitions are in `ans_model`'s room
//! `Sequence`: `Spelling`, `Meaning` and `Reads`.
#![tactic(auto)]

mod colours;
mod glyphs;
mod handing;
pub mod laws;
mod mark;
mod meaning;
mod plain;
mod scanner;
mod token;
mod unfinished;
mod walker;
mod whole;

pub use ans_model::fault::{Cause, Fault};
pub use ans_model::kind::Kind;
pub use colours::ColourSequence;
pub use glyphs::{count_glyphs, count_text};
pub use meaning::{distance, is_just, place};
pub use scanner::{ESCAPE, Scanner};
pub use token::Token;
pub use walker::{Walker, walk};
pub use whole::{Letter, number_at, read_sequence};
