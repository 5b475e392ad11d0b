//! What `why` says about a file.

use crate::known_bytes::Known;
use crate::text_damage::TextDamage;
use ans_hints::{Hints, OtherWidths};
use ans_kinds::Players;
use ans_model::cell::Cell;
use ans_model::fault::Fault;
use ans_model::start::Start;
use ans_sauce::{Found, Judged};

/// A position on the screen, with its row and its column counted from 1.
#[derive(Debug, Clone, Copy, PartialEq, Eq)]
pub struct Place {
    pub row: usize,
    pub column: usize,
}

/// What two plays show of a fault: those from the low and the high one of all starts. The low one begins with
/// the cursor at the top left, the high one at the bottom right, in the row below the last line.
#[derive(Debug, Clone, Copy, PartialEq, Eq)]
pub enum Shown {
    /// Where their cursors are before it.
    Cursors { low: Place, high: Place },
    /// For F25 what the cell that it names holds in the end.
    Cells { low: Cell, high: Cell },
}

/// What a content relies on, by the fault that it has from every start.
#[derive(Debug, Clone, Copy)]
pub struct Reliance<'a> {
    pub fault: Fault,
    /// The offending bytes: none for F25.
    pub bytes: &'a [u8],
    pub shown: Shown,
    /// Whether the file has room for the 25 bytes of the safe beginning, with which it relies on nothing.
    pub mends: bool,
}

/// What there is to say about a content that passes from the cleared start.
#[derive(Debug, Clone, Copy)]
pub struct Pass<'a> {
    /// The least class of starts from which it passes.
    pub needs: Start,
    /// On which players it shows its picture.
    pub players: Players,
    /// Whether its moves are free, so that it plays on taller screens as on the stated one.
    pub taller: bool,
    /// What it relies on, if it does not pass from every start.
    pub reliance: Option<Reliance<'a>>,
    pub hints: Hints,
    /// What the record shows of other widths, if lines are empty at the end or it states fewer than 40 columns.
    pub widths: OtherWidths,
    pub damage: TextDamage,
}

/// What there is to say about a content that is refused from the cleared start.
#[derive(Debug, Clone, Copy)]
pub struct Refusal<'a> {
    pub fault: Fault,
    /// The offending bytes.
    pub bytes: &'a [u8],
    /// What they are known as.
    pub known: Option<Known>,
    /// Where the cursor is before the fault.
    pub cursor: Place,
    /// For F19 to F21 the least number of lines with which it passes, if there is one.
    pub lines: Option<u16>,
    /// Those of all of the content on that many lines; or if there is no such number, those of its tokens up to
    /// the one to blame.
    pub hints: Hints,
    /// What the record shows of other widths, if there is such a number of lines.
    pub widths: OtherWidths,
    /// That of all of the content.
    pub damage: TextDamage,
}

/// How many lines are enough for a content whose record states none.
#[derive(Debug, Clone, Copy, PartialEq, Eq)]
pub struct Enough<'a> {
    /// The least number of lines with which it passes from the cleared start.
    pub lines: u16,
    /// Those of all of the content on that many lines.
    pub hints: Hints,
    /// The record's field of the font, without its trailing blanks and zero bytes.
    pub font: &'a [u8],
}

/// What there is to say about a record or a layout that is refused: what is found there.
#[derive(Debug, Clone, Copy, PartialEq, Eq)]
pub struct RecordRefusal<'a> {
    pub fault: Fault,
    pub found: Found<'a>,
    /// Which other kind of file it is, if it is known as one.
    pub other: Option<Known>,
    /// That of the bytes up to the first end mark.
    pub damage: TextDamage,
    /// For F5, if neither F6 nor F8 would follow: the number of lines, if one is enough.
    pub enough: Option<Enough<'a>>,
}

/// What `why` says about a file: about its record or its layout, about a content that is refused even from the
/// cleared start, or about one that passes from there.
pub type Why<'a> = Judged<'a, RecordRefusal<'a>, Refusal<'a>, Pass<'a>>;
