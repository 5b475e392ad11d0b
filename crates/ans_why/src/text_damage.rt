//! Damage on the way of a text, by the forms of its bytes.

ghost use Rattle.std.specs.Prelude.{◌≡◌, ◌≤◌, ℕ, drop, length};
ghost use Rattle.std.specs.List.{count_by, list_any, position};
ghost use Rattle.ans_model.specs.Bytes.{longest_file};
ghost use Rattle.ans_why.specs.TextDamage.{IsDamage, at_least, begins_with_mark, comes_in, converted, form_of};
ghost use Rattle.ans_why.specs.TextDamage.{is_escape, is_line_feed, is_pair, is_return, lone_returns, lost_escape};
ghost use Rattle.ans_why.specs.TextDamage.{lone_returns_from};
ghost use Rattle.ans_why.specs.TextDamage.{lost_told, moves_row, other_high, pair_of_pairs, shown_escape, times_of};
ghost use Rattle.ans_why.specs.TextDamage.{times_unless, wide_character, wide_characters};

use FormPiece::{Byte, Digits, Either, Parameters};
use ans_forms::{FormPiece, begins_with_form};
use ans_pens::times::{Times, count, count_of};
use memchr::{memchr, memchr2};

/// Colours or a place, without the ESC: `[`, numbers, and `m` or `H`.
const COLOURS_OR_PLACE: [FormPiece; 4] = [Byte(b'['), Digits, Parameters, Either(b'm', b'H')];

/// A move right or a clear, without the ESC: `[`, numbers, and `C` or `J`.
const CLEAR_OR_RIGHT: [FormPiece; 4] = [Byte(b'['), Digits, Parameters, Either(b'C', b'J')];

/// Colours with `^[` in place of ESC.
const CARET: [FormPiece; 6] = [
    Byte(b'^'),
    Byte(b'['),
    Byte(b'['),
    Digits,
    Parameters,
    Byte(b'm'),
];

/// Colours with `<-` in place of ESC.
const ARROW: [FormPiece; 6] = [
    Byte(b'<'),
    Byte(b'-'),
    Byte(b'['),
    Digits,
    Parameters,
    Byte(b'm'),
];

/// Colours with 9Bh in place of ESC and `[`.
const SHORT: [FormPiece; 4] = [Byte(0x9B), Digits, Parameters, Byte(b'm')];

/// A place: `ESC[`, numbers or none, and `H` or `f`.
const PLACE: [FormPiece; 4] = [Byte(0x1B), Byte(b'['), Parameters, Either(b'H', b'f')];

/// A move up or down: `ESC[`, a number or none, and `A` or `B`.
const UP_OR_DOWN: [FormPiece; 4] = [Byte(0x1B), Byte(b'['), Parameters, Either(b'A', b'B')];

/// A form of bytes that is looked for.
#[derive(Debug, Clone, Copy, PartialEq, Eq)]
enum Sought {
    Lost,
    Shown,
    Short,
    Pairs,
    Wide,
    OtherHigh,
    MovesRow,
}

/// What seems to have happened to a content on its way as a text. None is no damage. Offsets are in bytes from the
/// content's start.
#[derive(Debug, Clone, Copy, PartialEq, Eq)]
pub struct TextDamage {
    /// Sequences without their ESC in a content without ESC, at least 4.
    pub lost_escapes: Option<Times>,
    /// Sequences with `^[` or `<-` in place of ESC in a content without ESC, at least 2.
    pub shown_escapes: Option<Times>,
    /// Sequences with 9Bh in place of ESC and `[` in a content without ESC, at least 2.
    pub short_escapes: Option<Times>,
    /// Characters of Latin-1 in UTF-8, each followed by another, at least 8, in a content without other bytes
    /// above 7Fh.
    pub converted: Option<Times>,
    /// Characters of UTF-8 in three bytes: blocks, boxes and arrows.
    pub wide_characters: Option<Times>,
    /// Returns in a content without line feeds, at least 4, if no sequence after the first one takes the cursor to
    /// another row.
    pub returns: Option<Times>,
    /// Whether the content begins with the mark of UTF-8.
    pub mark: bool,
}

fn is_lost_escape(bytes: &[u8]) -> bool
    ensures { (before : ℕ) → result ≡ lost_escape before bytes.now }
{
    begins_with_form(bytes, &COLOURS_OR_PLACE) || begins_with_form(bytes, &CLEAR_OR_RIGHT)
}

fn is_shown_escape(bytes: &[u8]) -> bool
    ensures { (before : ℕ) → result ≡ shown_escape before bytes.now }
{
    begins_with_form(bytes, &CARET) || begins_with_form(bytes, &ARROW)
}

fn is_pair(first: u8, second: u8) -> bool
    ensures { result ≡ is_pair first second }
{
    matches!(first, 0xC2 | 0xC3) && matches!(second, 0x80..=0xBF)
}

fn is_pair_of_pairs(bytes: &[u8]) -> bool
    ensures { (before : ℕ) → result ≡ pair_of_pairs before bytes.now }
{
    match bytes {
        [first, second, third, fourth, ..] => is_pair(*first, *second) && is_pair(*third, *fourth),
        _ => false,
    }
}

fn is_wide_character(bytes: &[u8]) -> bool
    ensures { (before : ℕ) → result ≡ wide_character before bytes.now }
{
    matches!(bytes, [0xE2, 0x80..=0xAF, 0x80..=0xBF, ..])
}

fn is_other_high(before: u8, bytes: &[u8]) -> bool
    ensures { result ≡ other_high before bytes.now }
{
    match bytes {
        [first, second, ..] => {
            *first >= 0x80 && !is_pair(*first, *second) && !is_pair(before, *first)
        }
        [first] => *first >= 0x80 && !is_pair(before, *first),
        [] => false,
    }
}

fn is_row_move(bytes: &[u8]) -> bool
    ensures { (before : ℕ) → result ≡ moves_row before bytes.now }
{
    begins_with_form(bytes, &PLACE) || begins_with_form(bytes, &UP_OR_DOWN)
}

/// Whether the form begins with these bytes, after that one.
fn begins(sought: Sought, before: u8, bytes: &[u8]) -> bool
    ensures { result ≡ form_of sought before bytes.now }
{
    match sought {
        Sought::Lost => is_lost_escape(bytes),
        Sought::Shown => is_shown_escape(bytes),
        Sought::Short => begins_with_form(bytes, &SHORT),
        Sought::Pairs => is_pair_of_pairs(bytes),
        Sought::Wide => is_wide_character(bytes),
        Sought::OtherHigh => is_other_high(before, bytes),
        Sought::MovesRow => is_row_move(bytes),
    }
}

/// How often a form comes, and where first.
fn count_form(sought: Sought, bytes: &[u8]) -> Option<Times>
    requires { length bytes.now ≤ longest_file }
    ensures { result ≡ times_of (form_of sought) bytes.now }
{
    let mut times = None;
    let mut before = 0;
    let mut rest = bytes;
    'bytes: while let [first, more @ ..] = rest {
        count(
            &mut times,
            begins(sought, before, rest),
            bytes.len() - rest.len(),
        );
        before = *first;
        rest = more;
    }
    times
}

/// Whether a form comes anywhere.
fn has_form(sought: Sought, bytes: &[u8]) -> bool
    ensures { result ≡ comes_in (form_of sought) 0x00 bytes.now }
{
    let mut before = 0;
    let mut rest = bytes;
    'bytes: while let [first, more @ ..] = rest {
        if begins(sought, before, rest) {
            return true;
        }
        before = *first;
        rest = more;
    }
    false
}

fn at_least(least: usize, times: Option<Times>) -> Option<Times>
    ensures { result ≡ at_least least times }
{
    if count_of(times) >= least {
        times
    } else {
        None
    }
}

/// How often a form comes, if it comes so often at least, and if nothing speaks against it.
fn times_unless(not: bool, least: usize, sought: Sought, bytes: &[u8]) -> Option<Times>
    requires { length bytes.now ≤ longest_file }
    ensures { result ≡ times_unless not least (form_of sought) bytes.now }
{
    if not {
        return None;
    }
    at_least(least, count_form(sought, bytes))
}

fn has_escape(bytes: &[u8]) -> bool
    ensures { result ≡ list_any is_escape bytes.now }
{
    memchr(0x1B, bytes).is_some()
}

fn has_line_feed(bytes: &[u8]) -> bool
    ensures { result ≡ list_any is_line_feed bytes.now }
{
    memchr(b'\n', bytes).is_some()
}

fn first_return(bytes: &[u8]) -> Option<usize>
    ensures { result ≡ position is_return bytes.now }
{
    memchr(b'\r', bytes)
}

fn count_returns(bytes: &[u8]) -> usize
    ensures count { result ≡ count_by is_return bytes.now }
    ensures within { result ≤ length bytes.now }
{
    let mut count = 0;
    for byte in bytes {
        if *byte == b'\r' {
            count += 1;
        }
    }
    count
}

fn converted(bytes: &[u8]) -> Option<Times>
    requires { length bytes.now ≤ longest_file }
    ensures { result ≡ converted bytes.now }
{
    if memchr2(0xC2, 0xC3, bytes).is_none() {
        return None;
    }
    times_unless(has_form(Sought::OtherHigh, bytes), 8, Sought::Pairs, bytes)
}

fn wide_characters(bytes: &[u8]) -> Option<Times>
    requires { length bytes.now ≤ longest_file }
    ensures { result ≡ wide_characters bytes.now }
{
    if memchr(0xE2, bytes).is_none() {
        return None;
    }
    count_form(Sought::Wide, bytes)
}

/// The returns from the first one on, in bytes that begin with it at an offset.
fn lone_returns_from(first: usize, rest: &[u8]) -> Option<Times>
    ensures { result ≡ lone_returns_from first rest.now }
{
    if has_form(Sought::MovesRow, rest) {
        return None;
    }
    at_least(
        4,
        Some(Times {
            count: count_returns(rest),
            first,
        }),
    )
}

fn lone_returns(bytes: &[u8]) -> Option<Times>
    ensures { result ≡ lone_returns bytes.now }
{
    if has_line_feed(bytes) {
        return None;
    }
    let first = first_return(bytes)?;
    lone_returns_from(first, &bytes[first..])
}

fn begins_with_mark(bytes: &[u8]) -> bool
    ensures { result ≡ begins_with_mark bytes.now }
{
    bytes.starts_with(b"\xEF\xBB\xBF")
}

impl TextDamage {
    /// What seems to have happened to a content. It takes no memory. Of a content that has ESC and a line feed it
    /// mostly reads no more than a search for some bytes does.
    pub fn of(content: &[u8]) -> TextDamage
        requires { length content.now ≤ longest_file }
        ensures { IsDamage content.now result }
    {
        let is_escaped = has_escape(content);
        TextDamage {
            lost_escapes: times_unless(is_escaped, 4, Sought::Lost, content),
            shown_escapes: times_unless(is_escaped, 2, Sought::Shown, content),
            short_escapes: times_unless(is_escaped, 2, Sought::Short, content),
            converted: converted(content),
            wide_characters: wide_characters(content),
            returns: lone_returns(content),
            mark: begins_with_mark(content),
        }
    }

    /// The sequences without their ESC, unless others have two characters in its place.
    pub(crate) fn lost_told(&self) -> Option<Times>
        ensures { result ≡ lost_told self.now }
    {
        match self.shown_escapes {
            Some(_) => None,
            None => self.lost_escapes,
        }
    }
}
