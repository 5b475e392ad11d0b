//! The row of a file in numbers.

ghost use Rattle.std.specs.Prelude.{◌≡◌};
ghost use Rattle.ans_c.specs.Row.{IsBlameOfPass, IsPassing, IsRecordBlame, IsRefusalBlame, IsRelianceBlame};
ghost use Rattle.ans_c.specs.Row.{TellsBlame, TellsPassing, TellsPlayers, enough_or_0, high_place, kinds_sum};
ghost use Rattle.ans_c.specs.Row.{known_number, lines_or_0, low_place};

use crate::numbers::{ToldFault, bits_of, number_if, told};
use ans_kinds::{KindsUsed, Players};
use ans_players::difference::Difference;
use ans_sauce::Judged;
use ans_why::{Enough, Known, Pass, RecordRefusal, Refusal, Reliance, Shown, Why, known_found};

/// Bytes of a file: that many, from this offset on. The length is 0 if there are none.
#[repr(C)]
#[derive(Clone, Copy, Default)]
pub struct Piece {
    /// In bytes from the file's start.
    pub start: usize,
    pub length: usize,
}

/// A row and a column, counted from 1; the row may be the spare one below the stated lines. Both are 0 if there
/// is no position.
#[repr(C)]
#[derive(Clone, Copy, Default)]
pub struct ToldPlace {
    pub row: usize,
    pub column: usize,
}

/// What a content that passes from the cleared start relies on; for any other file all is 0.
#[repr(C)]
#[derive(Clone, Copy, Default)]
pub struct Passing {
    /// The parts of the start that have to be known, by the bits of `ans_check_on`; 0 if it passes from every start.
    pub needs: u32,
    /// The ways in which players differ that it runs into, added up: 1 wrap-at-once, 2 line-ends,
    /// 4 home-on-clear, 8 clear-in-colour, 16 save-place-only, 32 dos-colours, 64 tab-prints,
    /// 128 line-erased, 256 wrap-off, 512 stops-at-edge, 1024 page-controls, 2048 terminal-controls,
    /// 4096 own-colours.
    pub players: u32,
    /// If it runs into none, or only into own-colours, the parts that have to be known for it to look the same
    /// on all players, in named colours; else 0.
    pub needs_on_all_players: u32,
    /// 1: its picture is the same on every taller screen. 0: that was not shown.
    pub taller_screens: u32,
}

/// The fault of a file that is refused from the cleared start, or the one that a content which passes from
/// there has if nothing is known of the start. All is 0 if there is no such fault.
#[repr(C)]
#[derive(Clone, Copy, Default)]
pub struct Blame {
    pub fault: ToldFault,
    /// The offending bytes: none for F1 to F8 and for F25.
    pub bytes: Piece,
    /// Where the cursor is before the fault: from the cleared start, twice the same; or, for a content that
    /// passes, from the low and from the high start. No position for F1 to F8 and for F25.
    pub low: ToldPlace,
    pub high: ToldPlace,
    /// What the bytes are recognised as: 1 ANSI music, 2 a font selection, 3 a 24-bit colour, 4 the switch for
    /// bright backgrounds, 5 the switch that hides or shows the cursor, 6 a screen mode of DOS, 7 a
    /// reassigned key; and those after the end mark: 8 comments that the record does not count, 9 an older
    /// record, 10 an arrow in the drawing, 12 another drawing; 11 a sequence of modern terminals; or the file as 13
    /// XBin, 14 a ZIP archive, 15 AVATAR, 16 BinaryText, or a text with the colour codes of 17 PCBoard, 18 Renegade
    /// or Telegard, 19 Wildcat. 0 for nothing.
    pub known: u32,
    /// For F5 and F19 to F21 the smallest number of lines with which the file passes from the cleared start, if
    /// there is one; else 0.
    pub lines: u32,
    /// 1 if the content passes and relies on something, and the file has room for the safe beginning, with which
    /// it relies on nothing; else 0.
    pub mends: u32,
}

/// The parts of a file whose record and layout are accepted; for any other all is 0.
#[repr(C)]
#[derive(Clone, Copy, Default)]
pub struct ToldParts {
    /// How many bytes the content has, from the file's start on.
    pub content: usize,
    /// The lines of the comments (SAUCE 00.5, comment block) after `COMNT`, 64 bytes each.
    pub comments: Piece,
    /// 2 to the power of n for each note Nn, added up.
    pub notes: u32,
}

/// What the record in a file's last 128 bytes says, accepted or not; if there is none all is 0.
#[repr(C)]
#[derive(Clone, Copy, Default)]
pub struct ToldFields {
    /// 1 if there is a record.
    pub is_there: u32,
    /// The byte of the flags (TFlags).
    pub flags: u32,
    /// 1 if bit 7 of an attribute is a bright background, and not blink: bit 0 of the flags.
    pub ice: u32,
    /// Letters of 8 or of 9 pixels; 0 if the flags do not say.
    pub spacing: u32,
    /// 1 for pixels to be stretched, 2 for square ones; 0 if the flags do not say.
    pub aspect: u32,
    /// In columns; 80 if the record states 0.
    pub width: usize,
    /// As the record states them; 0 if it states none.
    pub lines: usize,
    /// The texts, without trailing blanks and zero bytes, in code page 437.
    pub font: Piece,
    pub date: Piece,
    pub title: Piece,
    pub author: Piece,
    pub group: Piece,
}

/// What there is to say of a file.
#[repr(C)]
#[derive(Clone, Copy, Default)]
pub struct ToldRow {
    pub passing: Passing,
    pub blame: Blame,
    pub parts: ToldParts,
    pub fields: ToldFields,
}

/// The numbers of the ways that it runs into, added up.
fn kinds_sum(used: &KindsUsed) -> u32
    ensures { result ≡ kinds_sum used.now }
{
    number_if(used.of(Difference::WrapAtOnce).is_some(), 1)
        + number_if(used.of(Difference::LineEnds).is_some(), 2)
        + number_if(used.of(Difference::HomeOnClear).is_some(), 4)
        + number_if(used.of(Difference::ClearInColour).is_some(), 8)
        + number_if(used.of(Difference::SavePlaceOnly).is_some(), 16)
        + number_if(used.of(Difference::DosColours).is_some(), 32)
        + number_if(used.of(Difference::TabPrints).is_some(), 64)
        + number_if(used.of(Difference::LineErased).is_some(), 128)
        + number_if(used.of(Difference::WrapOff).is_some(), 256)
        + number_if(used.of(Difference::StopsAtEdge).is_some(), 512)
        + number_if(used.of(Difference::PageControls).is_some(), 1024)
        + number_if(used.of(Difference::TerminalControls).is_some(), 2048)
        + number_if(used.of(Difference::OwnColours).is_some(), 4096)
}

/// The number of what bytes are recognised as; 0 for nothing.
fn known_number(known: Option<Known>) -> u32
    ensures { result ≡ known_number known }
{
    match known {
        None => 0,
        Some(Known::Music) => 1,
        Some(Known::FontSelection) => 2,
        Some(Known::TrueColour) => 3,
        Some(Known::BrightBackgrounds) => 4,
        Some(Known::CursorSwitch) => 5,
        Some(Known::DosMode) => 6,
        Some(Known::ReassignedKey) => 7,
        Some(Known::UncountedComments) => 8,
        Some(Known::OlderRecord) => 9,
        Some(Known::Arrow) => 10,
        Some(Known::Terminal(_)) => 11,
        Some(Known::AnotherDrawing) => 12,
        Some(Known::XBin) => 13,
        Some(Known::Zip) => 14,
        Some(Known::Avatar) => 15,
        Some(Known::BinaryText) => 16,
        Some(Known::PcBoard) => 17,
        Some(Known::Pipe) => 18,
        Some(Known::Wildcat) => 19,
    }
}

/// The ways in which players differ, and the parts of the start that have to be known if there are none but
/// own colours.
fn players_told(players: &Players) -> (u32, u32)
    ensures { TellsPlayers players.now result.0 result.1 }
{
    match players {
        Players::Any(class) => (0, bits_of(*class)),
        Players::InNamedColours(class, _) => (4096, bits_of(*class)),
        Players::Agreeing(used) => (kinds_sum(used), 0),
    }
}

fn passing_of(pass: &Pass<'_>) -> Passing
    ensures { IsPassing pass.now result }
{
    let (players, needs_on_all_players) = players_told(&pass.players);
    Passing {
        needs: bits_of(pass.needs),
        players,
        needs_on_all_players,
        taller_screens: number_if(pass.taller, 1),
    }
}

/// The positions of the cursors from the low and from the high start, if these are shown.
fn places_told(shown: &Shown) -> (ToldPlace, ToldPlace)
    ensures low { result.0 ≡ low_place shown.now }
    ensures high { result.1 ≡ high_place shown.now }
{
    match shown {
        Shown::Cursors { low, high } => (
            ToldPlace {
                row: low.row,
                column: low.column,
            },
            ToldPlace {
                row: high.row,
                column: high.column,
            },
        ),
        Shown::Cells { .. } => (ToldPlace::default(), ToldPlace::default()),
    }
}

fn enough_or_0(enough: &Option<Enough<'_>>) -> u32
    ensures { result ≡ enough_or_0 enough.now }
{
    match enough {
        Some(enough) => u32::from(enough.lines),
        None => 0,
    }
}

fn lines_or_0(lines: Option<u16>) -> u32
    ensures { result ≡ lines_or_0 lines }
{
    match lines {
        Some(lines) => u32::from(lines),
        None => 0,
    }
}

fn blame_of_record(said: &RecordRefusal<'_>) -> Blame
    ensures { IsRecordBlame said.now result }
{
    Blame {
        fault: told(&said.fault),
        known: known_number(said.other.or(known_found(&said.found))),
        lines: enough_or_0(&said.enough),
        ..Blame::default()
    }
}

fn blame_of_refusal(said: &Refusal<'_>) -> Blame
    ensures { IsRefusalBlame said.now result }
{
    let cursor = ToldPlace {
        row: said.cursor.row,
        column: said.cursor.column,
    };
    Blame {
        fault: told(&said.fault),
        bytes: Piece {
            start: said.fault.offset,
            length: said.bytes.len(),
        },
        low: cursor,
        high: cursor,
        known: known_number(said.known),
        lines: lines_or_0(said.lines),
        mends: 0,
    }
}

fn blame_of_reliance(said: &Reliance<'_>) -> Blame
    ensures { IsRelianceBlame said.now result }
{
    let (low, high) = places_told(&said.shown);
    Blame {
        fault: told(&said.fault),
        bytes: Piece {
            start: said.fault.offset,
            length: said.bytes.len(),
        },
        low,
        high,
        known: 0,
        lines: 0,
        mends: number_if(said.mends, 1),
    }
}

fn blame_of_pass(reliance: &Option<Reliance<'_>>) -> Blame
    ensures { IsBlameOfPass reliance.now result }
{
    match reliance {
        Some(reliance) => blame_of_reliance(reliance),
        None => Blame::default(),
    }
}

/// The fault of a file, and what belongs to it.
pub(crate) fn blame_of(why: &Why<'_>) -> Blame
    ensures { TellsBlame why.now result }
{
    match why {
        Judged::NoContent(said) => blame_of_record(said),
        Judged::Refused(_, said) => blame_of_refusal(said),
        Judged::Passes(_, said) => blame_of_pass(&said.reliance),
    }
}

/// What a file that passes relies on.
pub(crate) fn passing_in(why: &Why<'_>) -> Passing
    ensures { TellsPassing why.now result }
{
    match why {
        Judged::Passes(_, said) => passing_of(said),
        _ => Passing::default(),
    }
}
