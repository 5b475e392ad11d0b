//! Sequences by their bytes, piece by piece.

ghost use Rattle.std.specs.Prelude.{◌≡◌, ◌≤◌, length, not};
ghost use Rattle.std.specs.List.{position};
ghost use Rattle.std.specs.Option.{option_copied};
ghost use Rattle.ans_forms.specs.Pieces.{allows, begins_with_form, behind_byte, behind_form, behind_mark, behind_piece};
ghost use Rattle.ans_forms.specs.Pieces.{count_front, is_digit, is_note, is_parameter};

/// A piece of the form of a sequence.
#[derive(Debug, Clone, Copy)]
pub enum FormPiece {
    /// This byte.
    Byte(u8),
    /// One of these two bytes.
    Either(u8, u8),
    /// `M`, `N` or `|`.
    MusicLetter,
    /// Digits, at least one.
    Digits,
    /// Notes of a melody, at most 250 bytes.
    Notes,
    /// `=` or `?`, or nothing.
    Mark,
    /// Digits and semicolons, or nothing.
    Parameters,
}

use FormPiece::{Byte, Digits, Either, Mark, MusicLetter, Notes, Parameters};

/// Notes of a melody for programs of bulletin boards: `ESC[M`, `ESC[N` or `ESC[|`, up to the byte 0Eh.
pub const MUSIC: [FormPiece; 5] = [Byte(0x1B), Byte(b'['), MusicLetter, Notes, Byte(0x0E)];

/// A font: `ESC[n;n D`, a blank before the letter.
pub const FONT_SELECTION: [FormPiece; 7] = [
    Byte(0x1B),
    Byte(b'['),
    Digits,
    Byte(b';'),
    Digits,
    Byte(b' '),
    Byte(b'D'),
];

/// A colour of 24 bits, as PabloDraw writes it: `ESC[0;r;g;bt` or `ESC[1;r;g;bt`.
pub const TRUE_COLOUR: [FormPiece; 10] = [
    Byte(0x1B),
    Byte(b'['),
    Either(b'0', b'1'),
    Byte(b';'),
    Digits,
    Byte(b';'),
    Digits,
    Byte(b';'),
    Digits,
    Byte(b't'),
];

/// Whether a colour that blinks is a bright background: `ESC[?33h` or `ESC[?33l`.
pub const BRIGHT_BACKGROUNDS: [FormPiece; 6] = [
    Byte(0x1B),
    Byte(b'['),
    Byte(b'?'),
    Byte(b'3'),
    Byte(b'3'),
    Either(b'h', b'l'),
];

/// Whether the cursor blinks: `ESC[?12h` or `ESC[?12l`.
pub(crate) const BLINKING_CURSOR: [FormPiece; 6] = [
    Byte(0x1B),
    Byte(b'['),
    Byte(b'?'),
    Byte(b'1'),
    Byte(b'2'),
    Either(b'h', b'l'),
];

/// Whether the cursor shows: `ESC[?25h` or `ESC[?25l`.
pub const CURSOR_SWITCH: [FormPiece; 6] = [
    Byte(0x1B),
    Byte(b'['),
    Byte(b'?'),
    Byte(b'2'),
    Byte(b'5'),
    Either(b'h', b'l'),
];

/// A switch for what blinks: `ESC[?35h` or `ESC[?35l`.
pub(crate) const BLINK_SWITCH: [FormPiece; 6] = [
    Byte(0x1B),
    Byte(b'['),
    Byte(b'?'),
    Byte(b'3'),
    Byte(b'5'),
    Either(b'h', b'l'),
];

/// A screen mode of DOS: `ESC[=nh` or `ESC[=nl`.
pub const DOS_MODE: [FormPiece; 5] = [
    Byte(0x1B),
    Byte(b'['),
    Byte(b'='),
    Digits,
    Either(b'h', b'l'),
];

/// A mode of any terminal: `ESC[`, a mark or none, parameters, and `h` or `l`.
pub(crate) const MODE: [FormPiece; 5] = [
    Byte(0x1B),
    Byte(b'['),
    Mark,
    Parameters,
    Either(b'h', b'l'),
];

/// Asks whether the terminal is well: `ESC[5n`.
pub(crate) const STATUS_REPORT: [FormPiece; 4] = [Byte(0x1B), Byte(b'['), Byte(b'5'), Byte(b'n')];

/// Asks where the cursor is: `ESC[6n`.
pub(crate) const CURSOR_REPORT: [FormPiece; 4] = [Byte(0x1B), Byte(b'['), Byte(b'6'), Byte(b'n')];

/// Asks which terminal it is: `ESC[c`.
pub(crate) const TERMINAL_REPORT: [FormPiece; 3] = [Byte(0x1B), Byte(b'['), Byte(b'c')];

/// The same with its parameter: `ESC[0c`.
pub(crate) const TERMINAL_REPORT_0: [FormPiece; 4] = [
    Byte(0x1B),
    Byte(b'['),
    Byte(b'0'),
    Byte(b'c'),
];

/// How many bytes the notes of a melody have at most.
const MOST_NOTES: usize = 250;

fn is_digit(byte: u8) -> bool
    ensures { result ≡ is_digit byte }
{
    byte.is_ascii_digit()
}

/// A note's length and pitch, an octave, a tempo, a rest and the like.
fn is_note(byte: u8) -> bool
    ensures { result ≡ is_note byte }
{
    matches!(byte, b'A'..=b'Z' | b'a'..=b'z' | b'0'..=b'9')
        || matches!(byte, b'#' | b'+' | b'-' | b'.' | b'<' | b'>' | b' ')
}

fn is_parameter(byte: u8) -> bool
    ensures { result ≡ is_parameter byte }
{
    is_digit(byte) || byte == b';'
}

fn first_no_digit(bytes: &[u8]) -> Option<usize>
    ensures { result ≡ position (λ b. not (is_digit b)) bytes.now }
{
    bytes.iter().position(|byte| !is_digit(*byte))
}

fn first_no_note(bytes: &[u8]) -> Option<usize>
    ensures { result ≡ position (λ b. not (is_note b)) bytes.now }
{
    bytes.iter().position(|byte| !is_note(*byte))
}

fn first_no_parameter(bytes: &[u8]) -> Option<usize>
    ensures { result ≡ position (λ b. not (is_parameter b)) bytes.now }
{
    bytes.iter().position(|byte| !is_parameter(*byte))
}

/// How many digits the bytes begin with.
fn count_digits(bytes: &[u8]) -> usize
    ensures count { result ≡ count_front is_digit bytes.now }
    ensures within { result ≤ length bytes.now }
{
    first_no_digit(bytes).unwrap_or(bytes.len())
}

/// How many notes the bytes begin with.
fn count_notes(bytes: &[u8]) -> usize
    ensures count { result ≡ count_front is_note bytes.now }
    ensures within { result ≤ length bytes.now }
{
    first_no_note(bytes).unwrap_or(bytes.len())
}

/// How many digits and semicolons the bytes begin with.
fn count_parameters(bytes: &[u8]) -> usize
    ensures count { result ≡ count_front is_parameter bytes.now }
    ensures within { result ≤ length bytes.now }
{
    first_no_parameter(bytes).unwrap_or(bytes.len())
}

/// What comes after the first byte, if there is one and it is allowed.
fn behind_byte(bytes: &[u8], piece: FormPiece) -> Option<&[u8]>
    ensures { option_copied result ≡ behind_byte piece bytes.now }
{
    match bytes {
        [first, rest @ ..] if allows(piece, *first) => Some(rest),
        _ => None,
    }
}

/// Whether a byte is one that a piece of one byte may be.
fn allows(piece: FormPiece, byte: u8) -> bool
    ensures { result ≡ allows piece byte }
{
    match piece {
        Byte(only) => byte == only,
        Either(one, other) => byte == one || byte == other,
        MusicLetter => matches!(byte, b'M' | b'N' | b'|'),
        Digits | Notes | Mark | Parameters => false,
    }
}

/// What comes after the mark, if the bytes begin with one.
fn behind_mark(bytes: &[u8]) -> &[u8]
    ensures { result.now ≡ behind_mark bytes.now }
{
    match bytes {
        [first, rest @ ..] if *first == b'=' || *first == b'?' => rest,
        _ => bytes,
    }
}

/// What comes after a piece, if the bytes begin with it.
fn behind_piece(bytes: &[u8], piece: FormPiece) -> Option<&[u8]>
    ensures { option_copied result ≡ behind_piece piece bytes.now }
{
    match piece {
        Digits => match count_digits(bytes) {
            0 => None,
            count => Some(&bytes[count..]),
        },
        Notes => {
            let count = count_notes(bytes);
            if count > MOST_NOTES {
                return None;
            }
            Some(&bytes[count..])
        }
        Mark => Some(behind_mark(bytes)),
        Parameters => Some(&bytes[count_parameters(bytes)..]),
        _ => behind_byte(bytes, piece),
    }
}

/// What comes after the pieces, if the bytes begin with them, one after the other; None if they do not.
pub fn behind_form<'a>(bytes: &'a [u8], pieces: &[FormPiece]) -> Option<&'a [u8]>
    ensures { option_copied result ≡ behind_form pieces.now bytes.now }
{
    let mut rest = bytes;
    for piece in pieces {
        let Some(behind) = behind_piece(rest, *piece) else {
            return None;
        };
        rest = behind;
    }
    Some(rest)
}

/// Whether the bytes begin with the pieces, one after the other.
pub fn begins_with_form(bytes: &[u8], pieces: &[FormPiece]) -> bool
    ensures { result ≡ begins_with_form pieces.now bytes.now }
{
    behind_form(bytes, pieces).is_some()
}
