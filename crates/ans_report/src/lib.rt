//! The texts that the checker writes.
//!
//! Each text is put into an outbox of `ans_write`, by a call whose contract says which text it is. The
//! four `write_` calls make an outbox of their own: at `Ok` exactly the text was appended, at `Err` a
//! prefix of it, and `Err` comes exactly if the device failed in the call. The texts are defined in
//! `ans_model`; which of them says what is in `specs/ReportBytes.antt`, `specs/NeedsBytes.antt`,
//! `specs/RecordLines.antt` and `specs/TokenLines.antt`, and the line that says why there is no answer is
//! in `specs/Message.antt`. What a fault or a note means is in `src/meanings.rt`, which
//! `specs/Meanings.antt` cites.
//!
//! The text of `why` (`ans_why`) has some of the same lines. How bytes are quoted is in `specs/Quoted.antt`, and how
//! many there are of a thing, and how often it comes, in `specs/Counted.antt`. Two lines that report changes to a file,
//! which `mend` and `redraw` share, are in `specs/Changes.antt`.
#![tactic(auto)]

mod changes;
mod counted;
mod fault_lines;
mod heading;
mod lines;
mod meanings;
mod message;
mod needs_text;
mod picture_text;
mod quoted;
mod record_text;
mod report;
mod tokens_text;

pub use ans_write::{DeviceFault, Tried, WriteFault, glyph_text};
pub use changes::{put_end_mark_line, put_reset_line};
pub use counted::{put_counted, put_times};
pub use fault_lines::{put_fault, put_fault_line, put_refusal};
pub use heading::put_notes;
pub use lines::{answer_text, put_named_line, put_number_line, put_size_line, put_words};
pub use meanings::{Help, fault_help, fault_meaning, fault_text, note_meaning, note_text};
pub use message::put_message;
pub use needs_text::{Needs, put_needed_parts, put_needs};
pub use quoted::{put_quoted, put_quoted_byte, put_quoted_bytes};
pub use record_text::{put_record, write_record};
pub use report::{Report, put_report, write_refusal, write_report};
pub use tokens_text::{put_tokens, write_tokens};
