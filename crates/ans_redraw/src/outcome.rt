//! What comes of redrawing.

use ans_model::fault::Fault;
use ans_sauce::Reset;

/// What was changed of a file that is redrawn.
#[derive(Debug, Clone, Copy, PartialEq, Eq)]
pub struct Redrawn {
    /// How many bytes the content had, and how many it has now.
    pub content: Reset,
    /// Where an end mark was put, in bytes from the new file's start.
    pub end_mark: Option<usize>,
    /// The size of the file that the record stated, and the one that it states now, in bytes.
    pub file_size: Reset,
    /// How many bytes the new file has, with its comments and its record.
    pub whole: usize,
}

/// Why a file is not redrawn.
#[derive(Debug, Clone, Copy, PartialEq, Eq)]
pub enum Unredrawn {
    /// Its record or its layout has this fault, or its content has it from the cleared start.
    Refused(Fault),
    /// The new file would have this many bytes, more than 16,777,216; or 2^64 - 1, if it would have more.
    TooLong(usize),
}
