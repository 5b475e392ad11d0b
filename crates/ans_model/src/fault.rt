//! Why a file is refused, and where.

ghost use Rattle.std.specs.Prelude.{◌≡◌};
ghost use Rattle.ans_model.specs.Text.FaultText.{cause_number};

/// Why a file is refused: the faults F1 to F25, in their order; there is no F18. F22 to F25 are the
/// unknown faults, which depend on the start; the others are certain.
#[derive(Debug, Clone, Copy, PartialEq, Eq)]
pub enum Cause {
    /// F1: there is no SAUCE record.
    NoRecord,
    /// F2: the record's version is not `00`.
    WrongVersion,
    /// F3: the record is not of type Character/ANSi.
    WrongKind,
    /// F4: the comment block that the record counts is missing.
    CommentsMissing,
    /// F5: the record states no lines.
    LinesUnstated,
    /// F6: the width is above 1024.
    WidthTooLarge,
    /// F7: there are more than 8192 lines.
    LinesTooLarge,
    /// F8: a byte after the first end mark is not an end mark.
    BytesAfterEndMark,
    /// F9: a byte that no sequence has at its place.
    BrokenSequence,
    /// F10: a number above 255.
    NumberTooLarge,
    /// F11: more than 16 parameters.
    TooManyParameters,
    /// F12: the content ends in a sequence.
    EndInSequence,
    /// F13: a sequence that MS-DOS ANSI.SYS gives no meaning.
    UnknownSequence,
    /// F14: parameters that the sequence does not take.
    WrongParameters,
    /// F15: a key is reassigned.
    KeyReassigned,
    /// F16: a screen mode is set.
    ScreenMode,
    /// F17: a cursor report is asked for.
    ReportAsked,
    /// F19: a position outside the screen is named.
    OutsideScreen,
    /// F20: a byte is printed below the stated lines.
    PrintBelow,
    /// F21: a line feed scrolls the screen.
    Scrolls,
    /// F22: a byte is printed at a position that differs between starts.
    PrintUnknownPlace,
    /// F23: a line is erased from a position that differs between starts.
    EraseUnknownPlace,
    /// F24: a line feed scrolls from some start and not from every one.
    MayScroll,
    /// F25: in the end this cell differs between starts. Row and column are counted from 1.
    UnknownCell { row: u16, col: u16 },
}

impl Cause {
    /// One cause of each number, in their order; F25 for the cell at row 1 and column 1.
    pub const EACH: [Cause; 24] = [
        Cause::NoRecord,
        Cause::WrongVersion,
        Cause::WrongKind,
        Cause::CommentsMissing,
        Cause::LinesUnstated,
        Cause::WidthTooLarge,
        Cause::LinesTooLarge,
        Cause::BytesAfterEndMark,
        Cause::BrokenSequence,
        Cause::NumberTooLarge,
        Cause::TooManyParameters,
        Cause::EndInSequence,
        Cause::UnknownSequence,
        Cause::WrongParameters,
        Cause::KeyReassigned,
        Cause::ScreenMode,
        Cause::ReportAsked,
        Cause::OutsideScreen,
        Cause::PrintBelow,
        Cause::Scrolls,
        Cause::PrintUnknownPlace,
        Cause::EraseUnknownPlace,
        Cause::MayScroll,
        Cause::UnknownCell { row: 1, col: 1 },
    ];

    /// The number of a cause: n for the fault Fn.
    pub fn number(self) -> u32
        ensures { result ≡ cause_number self }
    {
        match self {
            Cause::NoRecord => 1,
            Cause::WrongVersion => 2,
            Cause::WrongKind => 3,
            Cause::CommentsMissing => 4,
            Cause::LinesUnstated => 5,
            Cause::WidthTooLarge => 6,
            Cause::LinesTooLarge => 7,
            Cause::BytesAfterEndMark => 8,
            Cause::BrokenSequence => 9,
            Cause::NumberTooLarge => 10,
            Cause::TooManyParameters => 11,
            Cause::EndInSequence => 12,
            Cause::UnknownSequence => 13,
            Cause::WrongParameters => 14,
            Cause::KeyReassigned => 15,
            Cause::ScreenMode => 16,
            Cause::ReportAsked => 17,
            Cause::OutsideScreen => 19,
            Cause::PrintBelow => 20,
            Cause::Scrolls => 21,
            Cause::PrintUnknownPlace => 22,
            Cause::EraseUnknownPlace => 23,
            Cause::MayScroll => 24,
            Cause::UnknownCell { .. } => 25,
        }
    }
}

/// A cause and its offset, in bytes from the file's start.
#[derive(Debug, Clone, Copy, PartialEq, Eq)]
pub struct Fault {
    pub offset: usize,
    pub cause: Cause,
}
