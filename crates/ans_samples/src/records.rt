//! Files whose record or layout is refused, and files that are accepted, with their notes.
//!
//! [`sample_file`](crate::sample_file) makes each from what comes before the record and from the
//! fields of the plain record that are changed.

use ans_model::fault::Cause;
use ans_model::note::Note;

/// Fields of a record that are changed: an offset in the record, and the bytes there.
pub type Edits = &'static [(usize, &'static [u8])];

/// A file that is refused for its record or its layout.
#[derive(Debug, Clone, Copy)]
pub struct RefusedFile {
    /// What is odd about it.
    pub what: &'static str,
    /// What comes before the record.
    pub front: &'static [u8],
    /// The fields changed.
    pub edits: Edits,
    /// The fault's offset, in bytes from the file's start.
    pub offset: usize,
    /// The fault's cause.
    pub cause: Cause,
}

/// A file whose record and layout are accepted.
#[derive(Debug, Clone, Copy)]
pub struct AcceptedFile {
    /// What is odd about it.
    pub what: &'static str,
    /// What comes before the record.
    pub front: &'static [u8],
    /// The fields changed.
    pub edits: Edits,
    /// What is played.
    pub content: &'static [u8],
    /// The stated width, in columns.
    pub width: usize,
    /// The stated lines.
    pub lines: usize,
    /// The notes, in their order.
    pub notes: &'static [Note],
}

macro_rules! refused {
    ($($what:literal, $front:literal, [$($at:literal => $bytes:literal),*], $offset:literal $cause:ident;)*) => {
        [$(RefusedFile {
            what: $what,
            front: $front,
            edits: &[$(($at, $bytes)),*],
            offset: $offset,
            cause: Cause::$cause,
        }),*]
    };
}

/// Files that are refused, each for the first refusal that applies.
pub static REFUSED: [RefusedFile; 20] = refused! {
    "ID SAUCX", b"Hi\x1a", [4 => b"X"], 131 NoRecord;
    "version 01", b"Hi\x1a", [5 => b"01"], 8 WrongVersion;
    "version 01 and FileType 2", b"Hi\x1a", [5 => b"01", 95 => b"\x02"], 8 WrongVersion;
    "FileType 2", b"Hi\x1a", [95 => b"\x02"], 97 WrongKind;
    "DataType 2", b"Hi\x1a", [94 => b"\x02"], 97 WrongKind;
    "FileType 2 and no block for 1 comment", b"Hi\x1a", [95 => b"\x02", 104 => b"\x01"], 97 WrongKind;
    "no room for the block of 1 comment", b"Hi\x1a", [104 => b"\x01"], 107 CommentsMissing;
    "one byte less than the block of 1 comment",
        b"COMNTaaaaaaaaaaaaaaaaaaaaaaaaaaaaaaaaaaaaaaaaaaaaaaaaaaaaaaaaaaaaaaa",
        [104 => b"\x01"], 172 CommentsMissing;
    "68 times a and no block for 1 comment",
        b"aaaaaaaaaaaaaaaaaaaaaaaaaaaaaaaaaaaaaaaaaaaaaaaaaaaaaaaaaaaaaaaaaaaa\x1a",
        [104 => b"\x01"], 173 CommentsMissing;
    "block COMNX",
        b"Hi\x1aCOMNXhello                                                           ",
        [104 => b"\x01"], 176 CommentsMissing;
    "no block for 1 comment and lines 0", b"Hi\x1a", [98 => b"\x00\x00", 104 => b"\x01"], 107 CommentsMissing;
    "lines 0", b"Hi\x1a", [98 => b"\x00\x00"], 101 LinesUnstated;
    "lines 0 and width 1025", b"Hi\x1a", [96 => b"\x01\x04\x00\x00"], 101 LinesUnstated;
    "width 1025", b"Hi\x1a", [96 => b"\x01\x04"], 99 WidthTooLarge;
    "width 1025 and lines 8193", b"Hi\x1a", [96 => b"\x01\x04\x01\x20"], 99 WidthTooLarge;
    "lines 8193", b"Hi\x1a", [98 => b"\x01\x20"], 101 LinesTooLarge;
    "lines 8193 and a byte after the end mark", b"a\x1ab\x1a", [98 => b"\x01\x20"], 102 LinesTooLarge;
    "a byte after the end mark", b"a\x1ab\x1a", [], 2 BytesAfterEndMark;
    "a byte after two end marks", b"\x1a\x1ab", [], 2 BytesAfterEndMark;
    "a block that is not counted",
        b"Hi\x1aCOMNThello                                                           ",
        [], 3 BytesAfterEndMark;
};

macro_rules! accepted {
    ($($what:literal, $front:literal, [$($at:literal => $bytes:literal),*]
        => $content:literal $width:literal x $lines:literal, [$($note:ident),*];)*) => {
        [$(AcceptedFile {
            what: $what,
            front: $front,
            edits: &[$(($at, $bytes)),*],
            content: $content,
            width: $width,
            lines: $lines,
            notes: &[$(Note::$note),*],
        }),*]
    };
}

/// Files that are accepted, with all that their record says of them.
pub static ACCEPTED: [AcceptedFile; 29] = accepted! {
    "nothing", b"Hi\x1a", [] => b"Hi" 2 x 1, [];
    "two end marks", b"Hi\x1a\x1a", [] => b"Hi" 2 x 1, [];
    "width 0", b"Hi\x1a", [96 => b"\x00"] => b"Hi" 80 x 1, [WidthAssumed];
    "width 1", b"Hi\x1a", [96 => b"\x01"] => b"Hi" 1 x 1, [];
    "width 256", b"Hi\x1a", [96 => b"\x00\x01"] => b"Hi" 256 x 1, [];
    "width 1024", b"Hi\x1a", [96 => b"\x00\x04"] => b"Hi" 1024 x 1, [];
    "lines 8192", b"Hi\x1a", [98 => b"\x00\x20"] => b"Hi" 2 x 8192, [];
    "no end mark", b"Hi", [] => b"Hi" 2 x 1, [NoEndMark];
    "the record alone", b"", [90 => b"\x00"] => b"" 2 x 1, [NoEndMark];
    "only an end mark", b"\x1a", [90 => b"\x00"] => b"" 2 x 1, [];
    "a block right behind the content",
        b"HiCOMNThello                                                           ",
        [104 => b"\x01"] => b"Hi" 2 x 1, [NoEndMark];
    "end marks inside a comment",
        b"Hi\x1aCOMNTa\x1ab\x1a                                                            ",
        [104 => b"\x01"] => b"Hi" 2 x 1, [];
    "FileSize 1", b"Hi\x1a", [90 => b"\x01"] => b"Hi" 2 x 1, [SizeDiffers];
    "FileSize 3", b"Hi\x1a", [90 => b"\x03"] => b"Hi" 2 x 1, [];
    "FileSize 4", b"Hi\x1a", [90 => b"\x04"] => b"Hi" 2 x 1, [SizeDiffers];
    "FileSize 65538", b"Hi\x1a", [90 => b"\x02\x00\x01"] => b"Hi" 2 x 1, [SizeDiffers];
    "flags 20", b"Hi\x1a", [105 => b"\x20"] => b"Hi" 2 x 1, [FlagBits];
    "flags 40", b"Hi\x1a", [105 => b"\x40"] => b"Hi" 2 x 1, [FlagBits];
    "flags 80", b"Hi\x1a", [105 => b"\x80"] => b"Hi" 2 x 1, [FlagBits];
    "flags 06", b"Hi\x1a", [105 => b"\x06"] => b"Hi" 2 x 1, [FlagPair];
    "flags 18", b"Hi\x1a", [105 => b"\x18"] => b"Hi" 2 x 1, [FlagPair];
    "flags 0d", b"Hi\x1a", [105 => b"\x0d"] => b"Hi" 2 x 1, [];
    "flags 15", b"Hi\x1a", [105 => b"\x15"] => b"Hi" 2 x 1, [];
    "flags 02", b"Hi\x1a", [105 => b"\x02"] => b"Hi" 2 x 1, [];
    "flags 10", b"Hi\x1a", [105 => b"\x10"] => b"Hi" 2 x 1, [];
    "date 1996010a", b"Hi\x1a", [89 => b"a"] => b"Hi" 2 x 1, [OddDate];
    "a date of seven digits", b"Hi\x1a", [89 => b" "] => b"Hi" 2 x 1, [OddDate];
    "date of blanks, flags fe and FileSize 9",
        b"Hi\x1a",
        [82 => b"        \x09", 105 => b"\xfe"] => b"Hi" 2 x 1, [SizeDiffers, OddDate, FlagBits, FlagPair];
    "everything that is noted",
        b"Hi",
        [82 => b"        \x09", 96 => b"\x00", 105 => b"\xfe"]
        => b"Hi" 80 x 1, [WidthAssumed, NoEndMark, SizeDiffers, OddDate, FlagBits, FlagPair];
};
