//! The plainest form of a picture: a content that shows it the same from every start on every player.
//!
//! After the mending come the cells that are no blanks, in reading order, each with the way to it, its
//! colours and its byte; then `ESC[0m`. Before a full row wraps into the row below, that row is there, and
//! black; after it the place of that row follows, so a screen may have more columns, or fewer rows. What is
//! proved of the form speaks of the stated columns and lines. That it shows on other screens, of two rows or
//! more, is only tried.
//!
//! `specs/Form.antt` has the form, and `specs/Colours.antt` how one attribute becomes another. [`form_length`] counts
//! its bytes, [`put_form`] puts them, and [`give_form`] gives them to any [`Sink`]: each goes over the picture row by
//! row, with no memory beyond a row. What is proved of the form, and the bytes of small pictures, are in
//! `ans_picture_laws`.
//!
//! A file is redrawn if the form becomes its content, followed by all that came after the old content. [`redrawn_with`]
//! says what that changes in the file, or how long the file would be if it is too long. [`put_redrawn_file`] puts the
//! new file, and [`copy_redrawn_file`] copies it to an array. Which file that is, is in `specs/RedrawnFile.antt`, and
//! what is said of it in `specs/RedrawnText.antt`. That the picture is the one that the file shows is for the crate
//! above to see to.
#![tactic(auto)]

mod colours;
mod ends;
mod form;
mod new_file;
mod outcome;
mod pen;
mod piece;
mod redrawn_text;
mod row;
mod run;
mod sink;
mod way;

pub use form::{form_length, give_form, put_form};
pub use new_file::{copy_redrawn_file, put_redrawn_file, redrawn_with};
pub use outcome::{Redrawn, Unredrawn};
pub use pen::RowPen;
pub use redrawn_text::{put_redrawn, put_unredrawn};
pub use sink::Sink;
