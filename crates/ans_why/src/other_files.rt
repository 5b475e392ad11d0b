//! Other kinds of file, by their first bytes or by the codes in them.

ghost use Rattle.std.specs.Prelude.{◌≡◌};
ghost use Rattle.std.specs.List.{list_any};
ghost use Rattle.ans_why.specs.OtherFiles.{begins_with_code, count_codes, count_colours, has_codes, is_binary_text};
ghost use Rattle.ans_why.specs.OtherFiles.{is_colour, is_hex_digit, is_pipe_number, known_by_codes, known_file};
ghost use Rattle.ans_why.specs.OtherFiles.{is_code_end, is_escape, known_without_escapes};

use crate::known_bytes::Known;

/// A code of programs for bulletin boards.
#[derive(Debug, Clone, Copy, PartialEq, Eq)]
pub enum Code {
    /// AVATAR: 16h and 01h, before the byte of a colour.
    Avatar,
    /// PCBoard: `@X` and two hexadecimal digits.
    PcBoard,
    /// Renegade and Telegard: `|` and the two digits of a number up to 23.
    Pipe,
    /// Wildcat: two hexadecimal digits between two `@`.
    Wildcat,
}

/// How often a code comes at least in a file that is known by it.
const SEVERAL: usize = 3;

/// A row of 80 columns, two bytes each.
const ROW_OF_PAIRS: usize = 160;

fn is_hex_digit(byte: u8) -> bool
    ensures { result ≡ is_hex_digit byte }
{
    matches!(byte, b'0'..=b'9' | b'A'..=b'F')
}

/// Whether two digits are those of a number up to 23.
fn is_pipe_number(tens: u8, ones: u8) -> bool
    ensures { result ≡ is_pipe_number tens ones }
{
    let is_small = matches!(tens, b'0' | b'1') && matches!(ones, b'0'..=b'9');
    is_small || (tens == b'2' && matches!(ones, b'0'..=b'3'))
}

/// Whether a byte may follow a pipe code: a table of numbers has a blank, a digit or another pipe there.
fn is_code_end(byte: u8) -> bool
    ensures { result ≡ is_code_end byte }
{
    byte > b' ' && byte != b'|' && !matches!(byte, b'0'..=b'9')
}

/// Whether the bytes begin with such a code.
fn begins_with_code(code: Code, bytes: &[u8]) -> bool
    ensures { result ≡ begins_with_code code bytes.now }
{
    match (code, bytes) {
        (Code::Avatar, [0x16, 0x01, ..]) => true,
        (Code::PcBoard, [b'@', b'X', high, low, ..]) => is_hex_digit(*high) && is_hex_digit(*low),
        (Code::Pipe, [b'|', tens, ones, end, ..]) => {
            is_pipe_number(*tens, *ones) && is_code_end(*end)
        }
        (Code::Wildcat, [b'@', high, low, b'@', ..]) => is_hex_digit(*high) && is_hex_digit(*low),
        _ => false,
    }
}

/// At how many places such a code begins.
fn count_codes(code: Code, bytes: &[u8]) -> usize
    ensures { result ≡ count_codes code bytes.now }
{
    let mut count = 0;
    let mut rest = bytes;
    'bytes: while let [_, more @ ..] = rest {
        if begins_with_code(code, rest) {
            count += 1;
        }
        rest = more;
    }
    count
}

fn has_codes(code: Code, bytes: &[u8]) -> bool
    ensures { result ≡ has_codes code bytes.now }
{
    count_codes(code, bytes) >= SEVERAL
}

/// Whether a byte is a colour on black or on blue. A text has returns, line feeds and ESC.
fn is_colour(byte: u8) -> bool
    ensures { result ≡ is_colour byte }
{
    matches!(byte, 0x01..=0x1F) && !matches!(byte, b'\n' | b'\r' | 0x1B)
}

/// Of the bytes in pairs, in how many of them the second one is such a colour.
fn count_colours(bytes: &[u8]) -> usize
    ensures { result ≡ count_colours bytes.now }
{
    let mut count = 0;
    let mut rest = bytes;
    'pairs: while let [_, colour, more @ ..] = rest {
        if is_colour(*colour) {
            count += 1;
        }
        rest = more;
    }
    count
}

/// Whether there is a row of pairs at least, and in half of them the second byte is a colour.
fn is_binary_text(bytes: &[u8]) -> bool
    ensures { result ≡ is_binary_text bytes.now }
{
    bytes.len() >= ROW_OF_PAIRS && count_colours(bytes) >= bytes.len() / 4
}

fn has_escape(bytes: &[u8]) -> bool
    ensures { result ≡ list_any is_escape bytes.now }
{
    bytes.iter().any(|byte| *byte == 0x1B)
}

/// What the bytes are where none of them is ESC.
fn known_without_escapes(bytes: &[u8]) -> Option<Known>
    ensures { result ≡ known_without_escapes bytes.now }
{
    if has_escape(bytes) {
        None
    } else if has_codes(Code::Avatar, bytes) {
        Some(Known::Avatar)
    } else if is_binary_text(bytes) {
        Some(Known::BinaryText)
    } else {
        None
    }
}

/// What the bytes are by the codes of boards in them.
fn known_by_codes(bytes: &[u8]) -> Option<Known>
    ensures { result ≡ known_by_codes bytes.now }
{
    if has_codes(Code::PcBoard, bytes) {
        Some(Known::PcBoard)
    } else if has_codes(Code::Pipe, bytes) {
        Some(Known::Pipe)
    } else if has_codes(Code::Wildcat, bytes) {
        Some(Known::Wildcat)
    } else {
        None
    }
}

/// Which other kind of file the bytes are, or begin: XBin or a ZIP archive by their first bytes, AVATAR or
/// BinaryText if there is no ESC, or a text with the codes of a board.
pub fn known_file(bytes: &[u8]) -> Option<Known>
    ensures { result ≡ known_file bytes.now }
{
    if bytes.starts_with(b"XBIN\x1A") {
        return Some(Known::XBin);
    }
    if bytes.starts_with(b"PK\x03\x04") {
        return Some(Known::Zip);
    }
    if let Some(known) = known_without_escapes(bytes) {
        return Some(known);
    }
    known_by_codes(bytes)
}
