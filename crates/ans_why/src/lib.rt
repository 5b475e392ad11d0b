//! What `why` says about a file, and its text.
//!
//! [`RecordRefusal::of`], [`Refusal::of`] and [`Pass::of`] find what to say: about a file whose record or layout is
//! refused, about a content that is refused from the cleared start, and about one that passes from there.
//! [`put_why`] puts the text in an outbox. [`bytes_to_blame`] gives the bytes at which a content fails.
//! [`known_sequence`], [`known_behind_end_mark`] and [`known_found`] recognise what artists and their programs write,
//! and [`known_file`] other kinds of file.
//! [`put_hints`] puts the lines of the hints, and [`put_damage`] those of [`TextDamage`]: what seems to have happened
//! to a text on its way. [`font_name`] reads a font's name in the record's field, and [`has_other_code_page`] says
//! whether its code page is another one than 437. What is said is true by `specs/Explained.antt`; the text is in
//! `specs/WhyText.antt`, `specs/PlayersText.antt`, `specs/HintsText.antt` and `specs/WidthsText.antt`, what the hints
//! say in `specs/HintRows.antt`, and what is damage in `specs/TextDamage.antt`.
#![tactic(auto)]

mod blamed;
mod explain;
mod font;
mod hint_rows;
mod hints_text;
mod known_bytes;
mod other_files;
mod players_text;
mod terminal_letters;
mod text_damage;
mod why;
mod why_text;
mod widths_text;

pub use blamed::bytes_to_blame;
pub use font::{font_name, has_other_code_page};
pub use hints_text::{put_damage, put_hints};
pub use known_bytes::{Known, known_behind_end_mark, known_sequence};
pub use other_files::known_file;
pub use terminal_letters::Terminal;
pub use text_damage::TextDamage;
pub use why::{Enough, Pass, RecordRefusal, Refusal, Reliance, Shown, Why};
pub use why_text::{known_found, put_why, told_hints};
