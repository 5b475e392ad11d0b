//! What is said of files that are written.
//!
//! [`FileOutcome`] is what became of one of many files, and [`FileCounts`] how many files became what: an exit status,
//! and the line that [`put_file_counts`] puts. [`put_named_lines`] puts a text with the name of a file before each
//! line. What they say is in `specs/Outcomes.antt` and `specs/NamedLines.antt`.
#![tactic(auto)]

mod counts;
mod named_lines;
mod nowhere;

pub use counts::{FileCounts, FileOutcome, put_file_counts};
pub use named_lines::{put_front, put_named_lines};
pub use nowhere::Nowhere;
