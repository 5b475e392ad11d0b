//! What is given in numbers.

ghost use Rattle.std.specs.Prelude.{◌≡◌, ◌≤◌, ◌≢◌, IfSome, IsNone, map};
ghost use Rattle.ans_model.specs.Bytes.{most_columns, most_lines};
ghost use Rattle.ans_model.specs.MendFlags.{row_of_flag, with_given};
ghost use Rattle.ans_model.specs.declared.fault.Cause.{Cause};
ghost use Rattle.ans_model.specs.declared.note.Note.{Note};
ghost use Rattle.ans_sauce.specs.Parts.{size_of};
ghost use Rattle.ans_model.specs.Text.FaultText.{cause_number, note_number};
ghost use Rattle.ans_c.specs.Numbers.{class_of, has_bit, IsSizeOf, mends_of, NamesClass, number_if, number_or_none};
ghost use Rattle.ans_c.specs.Numbers.{TellsFault};

use ans_model::fault::{Cause, Fault};
use ans_model::mends::{MendFlag, Mends, mend_flags};
use ans_model::note::Note;
use ans_model::start::Start;
use ans_sauce::Parts;

/// The file passes; from a call that judges nothing, there is an answer.
pub const PASS: u32 = 0;

/// The file is refused, and the fault is set.
pub const REFUSED: u32 = 1;

/// The file has more than 16,777,216 bytes.
pub const TOO_LONG: u32 = 3;

/// An array has no room for what it is lent for.
pub const NO_ROOM: u32 = 4;

/// A number is above the largest that the call takes.
pub const WRONG_NUMBER: u32 = 5;

/// How many bytes the record of a row takes, a `LentRow`.
const ROW_SIZE: usize = 24;

/// Why a file is refused.
#[repr(C)]
#[derive(Clone, Copy, Default)]
pub struct ToldFault {
    /// n for the fault Fn.
    pub number: u32,
    /// For F25 the row and the column of the cell, counted from 1; otherwise 0.
    pub row: u32,
    pub column: u32,
    /// In bytes from the file's start.
    pub offset: usize,
}

/// The size of a file's picture, and what is to be lent for a check of it.
#[repr(C)]
#[derive(Clone, Copy, Default)]
pub struct PictureSize {
    pub columns: u32,
    pub lines: u32,
    /// How many bytes for the glyphs of the picture, and as many for its attributes.
    pub cells: usize,
    /// How many bytes the screen takes: for each line, and for one row more, the 24 of the row's record and four
    /// for each column.
    pub scratch: usize,
}

/// The class of starts that these bits name: 1 the screen, 2 the cursor, 4 the saved cursor, 8 the
/// colours, 16 wrap. Other bits are ignored.
pub(crate) fn class_of(known: u32) -> Start
    ensures { result ≡ class_of known }
{
    Start {
        screen: known & 1 != 0,
        cursor: known & 2 != 0,
        saved: known & 4 != 0,
        colours: known & 8 != 0,
        wrap: known & 16 != 0,
    }
}

/// A number if this is so, or 0.
pub(crate) fn number_if(so: bool, number: u32) -> u32
    ensures number { result ≡ number_if so number }
    ensures bound { result ≤ number }
{
    if so { number } else { 0 }
}

/// The bits that name a class.
pub(crate) fn bits_of(class: Start) -> u32
    ensures { NamesClass class result }
{
    number_if(class.screen, 1)
        | number_if(class.cursor, 2)
        | number_if(class.saved, 4)
        | number_if(class.colours, 8)
        | number_if(class.wrap, 16)
}

/// A number, or none if it is 0.
fn number_or_none(number: u16) -> Option<u16>
    ensures { result ≡ number_or_none number }
{
    if number == 0 { None } else { Some(number) }
}

/// With each change asked for whose flag's bit is set.
fn with_bits(mends: Mends, bits: u32, flags: &[MendFlag]) -> Mends
    ensures { result ≡ with_given (λ f. has_bit bits f.bit) mends (map row_of_flag flags.now) }
{
    let mut mends = mends;
    for flag in flags {
        mends = mends.with(flag.step, bits & flag.bit != 0);
    }
    mends
}

/// What these bits and numbers ask for in a file that is fixed: the bits of the flags ([`mend_flags`]), the columns of
/// a record to add, the columns and the lines to state, if they are not 0. Other bits are ignored.
pub(crate) fn mends_of(classes: u32, add_record: u32, columns: u32, lines: u32) -> Mends
    requires add_record { add_record ≤ most_columns }
    requires columns { columns ≤ most_columns }
    requires lines { lines ≤ most_lines }
    ensures { result ≡ mends_of classes add_record columns lines }
{
    let numbers = Mends {
        add_record: number_or_none(add_record as u16),
        columns: number_or_none(columns as u16),
        lines: number_or_none(lines as u16),
        ..Mends::NONE
    };
    with_bits(numbers, classes, mend_flags())
}

/// A cause of a number.
pub(crate) fn cause_of(number: u32) -> Option<Cause>
    ensures some { IfSome result (λ cause. cause_number cause ≡ number) }
    ensures none { IsNone result → (cause : Cause) → cause_number cause ≢ number }
{
    for cause in &Cause::EACH {
        if cause.number() == number {
            return Some(*cause);
        }
    }
    None
}

/// The note of a number.
pub(crate) fn note_of(number: u32) -> Option<Note>
    ensures some { IfSome result (λ note. note_number note ≡ number) }
    ensures none { IsNone result → (note : Note) → note_number note ≢ number }
{
    for note in &Note::EACH {
        if note.number() == number {
            return Some(*note);
        }
    }
    None
}

/// A fault in numbers.
pub(crate) fn told(fault: &Fault) -> ToldFault
    ensures { TellsFault result fault.now }
{
    let (row, column) = match fault.cause {
        Cause::UnknownCell { row, col } => (u32::from(row), u32::from(col)),
        _ => (0, 0),
    };
    ToldFault {
        number: fault.cause.number(),
        row,
        column,
        offset: fault.offset,
    }
}

/// The size that a file's record states, and what a check needs.
pub(crate) fn told_size(parts: &Parts<'_>) -> PictureSize
    ensures { IsSizeOf (size_of parts.now) result }
{
    let columns = parts.width();
    let lines = parts.lines();
    PictureSize {
        columns: columns as u32,
        lines: lines as u32,
        cells: columns * lines,
        scratch: (lines + 1) * (ROW_SIZE + 4 * columns),
    }
}
