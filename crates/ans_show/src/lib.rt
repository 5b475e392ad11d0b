//! The picture of a content in its colours: for a terminal, or as a page.
//!
//! Both are put into an outbox of `ans_write`. The texts are defined in `specs/TerminalText.antt` and
//! `specs/PageText.antt`.
//! What a reader sees of them is the picture: the laws of `ans_picture_laws` say so.
#![tactic(auto)]

mod look;
mod markup;
mod markup_tables;
mod page;
mod rows;
mod short_text;
mod terminal;

pub use page::put_page;
pub use terminal::put_terminal;
