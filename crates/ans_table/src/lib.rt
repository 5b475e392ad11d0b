//! The rows of a table: one for each of many files.
//!
//! A [`Finding`] is what a row says of a file that was read: that it passes from the cleared start,
//! what it needs, and on which players it shows its picture; or that it is refused, and where. Of
//! another file a row says why it was not read ([`Unread`]). The [`Outcome`] of a file is its verdict:
//! it passes, passes on a cleared screen, is refused, or was not read.
//!
//! [`put_row`] puts the row of a named file, [`put_header`] the line of the columns' names, and
//! [`put_counts`] how many files have each outcome. `specs/Findings.antt` says which finding is true of
//! a file, `specs/RowText.antt` what a row is, and `specs/NameText.antt` how a name is shown.
//! [`json_row`] gives the row as a JSON object instead, by `specs/JsonRow.antt`. [`put_shell_word`] puts a name as a word
//! of a command, by `specs/ShellWord.antt`.
#![tactic(auto)]

mod columns;
mod counts;
mod finding;
mod json_object;
mod labels;
mod name_text;
mod row_text;
mod shell_word;
mod unopened;

pub use counts::{Counts, Outcome, put_counts};
pub use finding::{FaultFinding, Finding, PassFinding, RecordFinding, RowFinding, Unread};
pub use json_object::json_row;
pub use name_text::put_name;
pub use row_text::{put_header, put_line, put_pictured_header, put_pictured_row, put_row};
pub use shell_word::{can_be_typed, put_shell_word};
pub use unopened::Unopened;
