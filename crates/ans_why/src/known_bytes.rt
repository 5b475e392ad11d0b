//! What the offending bytes are known as.

ghost use Rattle.std.specs.Prelude.{◌≡◌, ◌≤◌, count_by, drop, length, nat_lt, not};
ghost use Rattle.std.specs.List.{list_all, list_any, position};
ghost use Rattle.ans_model.specs.File.Layout.{is_end_mark};
ghost use Rattle.ans_why.specs.Known.{after_older_record, behind_end_marks, has_few_controls, is_arrow};
ghost use Rattle.ans_why.specs.Known.{is_comment_block, is_control, known_behind_end_mark, known_form};
ghost use Rattle.ans_why.specs.Known.{known_terminal};
ghost use Rattle.ans_why.specs.TerminalLetters.{terminal_form};
ghost use Rattle.ans_why.specs.Known.{known_sequence, known_text, known_with_record, may_be_drawing};

use crate::terminal_letters::{Terminal, terminal_form};
use ans_forms::{
    BRIGHT_BACKGROUNDS, CURSOR_SWITCH, DOS_MODE, FONT_SELECTION, MUSIC, TRUE_COLOUR,
    begins_with_form,
};
use ans_model::fault::Cause;
use ans_sauce::cut_content;
use ans_sauce::fields::{END_MARK, RECORD_SIZE};

/// What refused bytes are: things that artists and their programs are known to write.
#[derive(Debug, Clone, Copy, PartialEq, Eq)]
pub enum Known {
    /// Notes of a melody for programs of bulletin boards: `ESC[M`, `ESC[N` or `ESC[|`, up to the byte 0Eh.
    Music,
    /// `ESC[n;n D`, a blank before the letter.
    FontSelection,
    /// `ESC[0;r;g;bt` or `ESC[1;r;g;bt`, as PabloDraw writes colours of 24 bits.
    TrueColour,
    /// `ESC[?33h` and `ESC[?33l`.
    BrightBackgrounds,
    /// `ESC[?25h` and `ESC[?25l`.
    CursorSwitch,
    /// `ESC[=nh` and `ESC[=nl`.
    DosMode,
    /// A sequence that modern terminals know.
    Terminal(Terminal),
    /// A sequence that ends in `p`.
    ReassignedKey,
    /// A block of comments after the end mark.
    UncountedComments,
    /// A record after the end mark.
    OlderRecord,
    /// More of a drawing after such a record.
    AnotherDrawing,
    /// The byte 1Ah, an arrow to the right in code page 437, with more of the drawing after it.
    Arrow,
    /// `XBIN` and 1Ah.
    XBin,
    /// `PK`, 03h and 04h.
    Zip,
    /// Codes of AVATAR, a byte 16h each, in place of sequences.
    Avatar,
    /// Pairs of a character and a colour.
    BinaryText,
    /// A text with colours as PCBoard writes them: `@X1F`.
    PcBoard,
    /// A text with colours as Renegade and Telegard write them: `|07`.
    Pipe,
    /// A text with colours as Wildcat writes them: `@1F@`.
    Wildcat,
}

impl Known {
    /// What they are, as the line `is:` says.
    pub fn text(self) -> &'static str
        ensures { result.now ≡ known_text self }
    {
        match self {
            Known::Music => "ANSI music",
            Known::FontSelection => "a font selection",
            Known::TrueColour => "a 24-bit colour",
            Known::BrightBackgrounds => "the switch for bright backgrounds",
            Known::CursorSwitch => "the switch that hides or shows the cursor",
            Known::DosMode => "a screen mode of DOS",
            Known::Terminal(what) => what.text(),
            Known::ReassignedKey => "a reassigned key",
            Known::UncountedComments => "comments that the record does not count",
            Known::OlderRecord => "an older record",
            Known::AnotherDrawing => "another drawing",
            Known::Arrow => "an arrow in the drawing",
            Known::XBin => "an XBin file",
            Known::Zip => "a ZIP archive",
            Known::Avatar => "a drawing in AVATAR codes",
            Known::BinaryText => "BinaryText, pairs of a character and a colour",
            Known::PcBoard => "text with PCBoard colour codes (@X1F)",
            Known::Pipe => "text with Renegade or Telegard colour codes (|07)",
            Known::Wildcat => "text with Wildcat colour codes (@1F@)",
        }
    }
}

/// A sequence that modern terminals know, if the bytes begin with one.
fn known_terminal(bytes: &[u8]) -> Option<Known>
    ensures { result ≡ known_terminal (terminal_form bytes.now) }
{
    match terminal_form(bytes) {
        Some(what) => Some(Known::Terminal(what)),
        None => None,
    }
}

/// The first form that the bytes begin with.
fn known_form(bytes: &[u8]) -> Option<Known>
    ensures { result ≡ known_form bytes.now }
{
    if begins_with_form(bytes, &MUSIC) {
        Some(Known::Music)
    } else if begins_with_form(bytes, &FONT_SELECTION) {
        Some(Known::FontSelection)
    } else if begins_with_form(bytes, &TRUE_COLOUR) {
        Some(Known::TrueColour)
    } else if begins_with_form(bytes, &BRIGHT_BACKGROUNDS) {
        Some(Known::BrightBackgrounds)
    } else if begins_with_form(bytes, &CURSOR_SWITCH) {
        Some(Known::CursorSwitch)
    } else if begins_with_form(bytes, &DOS_MODE) {
        Some(Known::DosMode)
    } else {
        known_terminal(bytes)
    }
}

/// What a content's bytes are known as, from the offset at which it is refused: a reassigned key, by the
/// fault, or the first form that they begin with.
pub fn known_sequence(bytes: &[u8], cause: &Cause) -> Option<Known>
    ensures { result ≡ known_sequence cause.now bytes.now }
{
    match cause {
        Cause::KeyReassigned => Some(Known::ReassignedKey),
        _ => known_form(bytes),
    }
}

fn first_no_end_mark(bytes: &[u8]) -> Option<usize>
    ensures { result ≡ position (λ b. not (is_end_mark b)) bytes.now }
{
    bytes.iter().position(|byte| *byte != END_MARK)
}

/// The bytes after the end marks that they begin with.
fn behind_end_marks(bytes: &[u8]) -> &[u8]
    ensures { result.now ≡ behind_end_marks bytes.now }
{
    let end = first_no_end_mark(bytes).unwrap_or(bytes.len());
    bytes.split_at(end).1
}

/// Whether the bytes are a block of comments (SAUCE 00.5, comment block): `COMNT`, and 64 bytes for each.
fn is_comment_block(bytes: &[u8]) -> bool
    ensures { result ≡ is_comment_block bytes.now }
{
    bytes.starts_with(b"COMNT") && bytes.len() > 5 && (bytes.len() - 5) % 64 == 0
}

/// Whether one of them is neither a control byte nor a blank.
fn prints_something(bytes: &[u8]) -> bool
    ensures { result ≡ list_any (λ b. nat_lt 0x20 b) bytes.now }
{
    bytes.iter().any(|byte| *byte > b' ')
}

/// Whether the bytes may be more of a drawing: they begin neither like comments nor like a record, and
/// print something.
fn may_be_drawing(bytes: &[u8]) -> bool
    ensures { result ≡ may_be_drawing bytes.now }
{
    !bytes.starts_with(b"COMNT") && !bytes.starts_with(b"SAUCE") && prints_something(bytes)
}

fn is_control(byte: u8) -> bool
    ensures { result ≡ is_control byte }
{
    byte < 0x20 && !matches!(byte, b'\r' | b'\n' | 0x1B)
}

/// How many of them are such bytes.
fn count_controls(bytes: &[u8]) -> usize
    ensures count { result ≡ count_by is_control bytes.now }
    ensures within { result ≤ length bytes.now }
{
    let mut count = 0;
    for i in 0..bytes.len() {
        if is_control(bytes[i]) {
            count += 1;
        }
    }
    count
}

/// Whether at most 2 in 100 of them are below 20h, except for returns, line feeds and ESC.
fn has_few_controls(bytes: &[u8]) -> bool
    ensures { result ≡ has_few_controls bytes.now }
{
    count_controls(bytes) <= bytes.len() / 50
}

fn are_end_marks(bytes: &[u8]) -> bool
    ensures { result ≡ list_all is_end_mark bytes.now }
{
    bytes.iter().all(|byte| *byte == END_MARK)
}

/// Whether the end mark before the bytes is an arrow: a drawing goes on, up to its end marks.
fn is_arrow(bytes: &[u8]) -> bool
    ensures { result ≡ is_arrow bytes.now }
{
    let (drawing, rest) = cut_content(bytes);
    are_end_marks(rest) && may_be_drawing(drawing) && has_few_controls(drawing)
}

/// What comes after the first 128 bytes.
fn after_128(bytes: &[u8]) -> &[u8]
    ensures { result.now ≡ drop 128 bytes.now }
{
    bytes.split_at(RECORD_SIZE.min(bytes.len())).1
}

/// What comes after the first record of version 00: nothing if there is none.
fn after_older_record(bytes: &[u8]) -> &[u8]
    ensures { result.now ≡ after_older_record bytes.now }
{
    let mut rest = bytes;
    'bytes: while let [_, more @ ..] = rest {
        if rest.starts_with(b"SAUCE00") {
            return after_128(rest);
        }
        rest = more;
    }
    rest
}

/// What the bytes are that hold an older record: another drawing, if one goes on after it.
fn known_with_record(bytes: &[u8]) -> Known
    ensures { result ≡ known_with_record bytes.now }
{
    if may_be_drawing(behind_end_marks(after_older_record(bytes))) {
        Known::AnotherDrawing
    } else {
        Known::OlderRecord
    }
}

/// What the bytes after the first end mark are known as. If they hold an older record: that, or another drawing, if one
/// goes on after it. Else comments that the record does not count; else an arrow, if they may be more of the drawing
/// and have no other end mark before its end. They are known as nothing if none of these fits.
pub fn known_behind_end_mark(bytes: &[u8], holds_record: bool) -> Option<Known>
    ensures { result ≡ known_behind_end_mark holds_record bytes.now }
{
    if holds_record {
        Some(known_with_record(bytes))
    } else if is_comment_block(behind_end_marks(bytes)) {
        Some(Known::UncountedComments)
    } else if is_arrow(bytes) {
        Some(Known::Arrow)
    } else {
        None
    }
}
