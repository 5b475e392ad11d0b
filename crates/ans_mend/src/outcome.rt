//! What comes of mending.

ghost use Rattle.std.specs.Prelude.{◌≡◌};
ghost use Rattle.ans_mend.specs.declared.outcome.MendError.TheVariants.{Memory, NotMended};

use crate::taking_out::Told;
use ans_model::fault::Fault;
use ans_model::mends::Mends;
use ans_pens::Times;
pub use ans_sauce::Reset;
use std::alloc::AllocError;

/// What was changed in a content. Offsets are in bytes from the file's start, in the file as the changes
/// before this one left it.
#[derive(Debug, Clone, Copy, PartialEq, Eq)]
pub struct Edits {
    /// How many returns were added before line feeds, and where the first of these was.
    pub returns: Option<Times>,
    /// The sequences that were removed.
    pub told: Told,
    /// How many line ends after full rows were removed, and where the first began.
    pub row_ends: Option<Times>,
    /// How many line ends, bytes 00h and sequences at the very end were removed, and where the first began.
    pub last_ends: Option<Times>,
    /// How many colour sequences got names of colours, and where the first was.
    pub named_colours: Option<Times>,
}

/// What was changed in a file that is mended.
#[derive(Debug, Clone, Copy, PartialEq, Eq)]
pub struct Mended {
    /// What was asked for.
    pub asked: Mends,
    /// How many bytes were cut off after the record, and where the first of them was, in bytes from the
    /// file's start.
    pub tail: Option<Times>,
    /// The record that was added after the content, if one was.
    pub given_record: Option<GivenRecord>,
    /// The width that the record stated, and the one that it states now, in columns, if a width was asked
    /// for.
    pub width: Option<Reset>,
    /// How many comments the record counted, and counts now, if it was to be repaired.
    pub comments: Option<Reset>,
    /// How many bytes an older record had with the tail after it, which were removed, and where the first of them
    /// was, in bytes from the file's start, if there was one and the record was to be repaired.
    pub older: Option<Times>,
    pub edits: Edits,
    /// The record's non-blink flag, before and now.
    pub non_blink: NonBlink,
    /// The number of lines that the record stated, and the one that it states now.
    pub lines: Reset,
    /// Where an end mark was added, in bytes from the file's start, without the safe beginning.
    pub end_mark: Option<usize>,
    /// Whether the safe beginning is to come before the bytes of the draft.
    pub front: bool,
    /// The size of the file that the record stated, and the one that it states now, in bytes.
    pub file_size: Reset,
}

/// A record that was added after a content, with an end mark before it.
#[derive(Debug, Clone, Copy, PartialEq, Eq)]
pub struct GivenRecord {
    /// Its width, in columns.
    pub width: u16,
    /// Where the end mark is, in bytes from the file's start.
    pub place: usize,
    /// How many bytes it replaced: end marks, zero bytes, line feeds and returns.
    pub cut: usize,
}

/// A flag in a record that was set, to the same or to the other value.
#[derive(Debug, Clone, Copy, PartialEq, Eq)]
pub struct NonBlink {
    pub was: bool,
    pub is: bool,
}

/// Why a file is not mended.
#[derive(Debug, Clone, Copy, PartialEq, Eq)]
pub enum Unmended {
    /// Its record or its layout has this fault, or its content has it from the cleared start, when all that
    /// was asked for is done.
    Refused(Fault),
    /// It has no record, which is this fault, F1, and none can be added: `SAUCE00` is in it, or more than end marks,
    /// zero bytes and line ends follows its content.
    TakesNoRecord(Fault),
    /// The smallest number of lines was asked for, and its rows look broken, or made for another width.
    Torn,
    /// It states no lines. The smallest number was asked for, and it passes with none up to 8192.
    NoLines,
    /// With what is added to it, a record, returns, names of colours, an end mark or the safe beginning, it would have
    /// more than 16,777,216 bytes.
    TooLong,
}

/// Why there is no mended file.
#[derive(Debug, Clone, Copy, PartialEq, Eq)]
pub enum MendError {
    /// There is no room for what may be added to the file, or for its screen.
    Memory,
    /// The file is not mended, for this reason.
    NotMended(Unmended),
}

impl From<AllocError> for MendError {
    ghost from_gives = { λ _ e. e ≡ Memory };

    fn from(_error: AllocError) -> MendError {
        MendError::Memory
    }
}

impl From<Unmended> for MendError {
    ghost from_gives = { λ reason e. e ≡ NotMended reason };

    fn from(reason: Unmended) -> MendError {
        MendError::NotMended(reason)
    }
}
