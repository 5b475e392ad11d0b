//! The SAUCE record of a file (SAUCE 00.5): where it is, what it says of the file, and the comments
//! and the content before it.
//!
//! `split` takes a file apart. Others rely on its contract: it returns `Ok` exactly if some
//! body, comments and record lay the file out and nothing in it is refused, with the parts that
//! they determine; otherwise the first refusal that applies, in the order of its table. Which parts
//! belong to which file is in `specs/Split.antt`, and what the parts show in `specs/Parts.antt` and
//! `specs/RecordBytes.antt`, over the definitions of `ans_model`: its `Layout`, `Record`, `Refusals`
//! and `NoteConditions`. `find` returns what is in a file that is refused, and `without_lines` the
//! content and the record of one that lacks nothing but the number of its lines.
#![tactic(auto)]

pub mod fields;
mod found;
mod grown;
mod judged;
mod layout;
mod no_lines;
mod note_conditions;
mod padding;
mod parts;
mod record;
mod writing;

pub use ans_model::fault::{Cause, Fault};
pub use ans_model::limits::MAX_FILE;
pub use ans_model::note::Note;
pub use found::{Found, find, last_record_place};
pub use grown::grown_by;
pub use judged::Judged;
pub use layout::{body_before, cut_content, cut_record, split};
pub use no_lines::{WithoutLines, without_lines};
pub use parts::Parts;
pub use record::Record;
pub use writing::{Reset, overwrite, state_file_size, state_lines, state_non_blink};
