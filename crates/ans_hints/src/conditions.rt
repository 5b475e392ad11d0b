//! What the hints of tokens are about.

ghost use Rattle.std.specs.Prelude.{◌≡◌, ◌≢◌, ◌≤◌, ◌∷◌, ◌&&◌, false, nat_lt, take, slice_index};
ghost use Rattle.std.specs.List.{list_any};
ghost use Rattle.std.specs.Str.{is_utf8};
ghost use Rattle.ans_hints.specs.Conditions.{begins_with_pipe_number, begins_with_two_byte_letter, begins_with_wide};
ghost use Rattle.ans_hints.specs.Conditions.{begins_with_x_number, is_digit, is_hex_digit, is_later_colour};
ghost use Rattle.ans_hints.specs.Conditions.{is_modern, is_off_switch};
ghost use Rattle.ans_hints.specs.Conditions.{is_latin_letter, is_letter, is_second_byte, is_seen, is_small_letter};
ghost use Rattle.ans_hints.specs.Conditions.{wide_size};

fn is_utf8(bytes: &[u8]) -> bool
    ensures { result ≡ is_utf8 bytes.now }
{
    std::str::from_utf8(bytes).is_ok()
}

/// Whether the first `count` bytes, or all where there are fewer, are UTF-8.
#[cold]
#[inline(never)]
fn front_is_utf8(first: u8, rest: &[u8], count: usize) -> bool
    requires some { 1 ≤ count }
    requires few { count ≤ 4 }
    ensures { result ≡ is_utf8 (take count (first ∷ rest.now)) }
{
    let more = (count - 1).min(rest.len());
    let mut text = [first; 4];
    text[1..1 + more].copy_from_slice(&rest[..more]);
    is_utf8(&text[..1 + more])
}

fn wide_size(first: u8) -> usize
    ensures size { result ≡ wide_size first }
    ensures some { 1 ≤ result }
    ensures few { result ≤ 4 }
{
    if first < 0xF0 { 3 } else { 4 }
}

/// Whether the first of the bytes, if there is one, is below the shades and boxes of code page 437.
#[inline(always)]
fn is_below_shades(bytes: &[u8]) -> bool
    ensures { result ≡ nat_lt (slice_index bytes.now 0) 0xB0 }
{
    match bytes {
        [first, ..] => *first < 0xB0,
        [] => true,
    }
}

/// Whether the bytes begin with a character of UTF-8 (RFC 3629) that takes three bytes or four.
#[inline(always)]
pub(crate) fn begins_with_wide(first: u8, rest: &[u8]) -> bool
    ensures { result ≡ begins_with_wide (first ∷ rest.now) }
{
    first >= 0xE0 && is_below_shades(rest) && front_is_utf8(first, rest, wide_size(first))
}

fn is_later_colour(number: u8) -> bool
    ensures { result ≡ is_later_colour number }
{
    matches!(number, 38 | 48 | 90..=97 | 100..=107)
}

fn is_off_switch(number: u8) -> bool
    ensures { result ≡ is_off_switch number }
{
    matches!(number, 22 | 27 | 39 | 49)
}

fn is_modern(number: u8) -> bool
    ensures { result ≡ is_modern number }
{
    is_later_colour(number) || is_off_switch(number)
}

/// Whether one of the numbers means something on later terminals only. It is asked of each sequence of colours, and
/// mostly it is not so.
pub(crate) fn has_modern(numbers: &[u8]) -> bool
    ensures { result ≡ list_any is_modern numbers.now }
{
    numbers.iter().any(|number| is_modern(*number))
}

/// Whether one of the numbers switches something off on later terminals, and nothing by ANSI.SYS.
pub(crate) fn has_off_switch(numbers: &[u8]) -> bool
    ensures { result ≡ list_any is_off_switch numbers.now }
{
    numbers.iter().any(|number| is_off_switch(*number))
}

/// Whether one of the numbers sets a colour on later terminals, and none by ANSI.SYS.
pub(crate) fn has_later_colour(numbers: &[u8]) -> bool
    ensures { result ≡ list_any is_later_colour numbers.now }
{
    numbers.iter().any(|number| is_later_colour(*number))
}

fn is_small_letter(byte: u8) -> bool
    ensures { result ≡ is_small_letter byte }
{
    matches!(byte, b'a'..=b'z')
}

pub(crate) fn is_letter(byte: u8) -> bool
    ensures { result ≡ is_letter byte }
{
    matches!(byte, b'A'..=b'Z' | b'a'..=b'z')
}

fn begins_with_letter(bytes: &[u8]) -> bool
    ensures { result ≡ is_letter (slice_index bytes.now 0) }
{
    match bytes {
        [first, ..] => is_letter(*first),
        [] => false,
    }
}

fn is_second_byte(byte: u8) -> bool
    ensures { result ≡ is_second_byte byte }
{
    matches!(byte, 0x80..=0x96 | 0x98..=0xB6 | 0xB8..=0xBF)
}

/// Whether the bytes begin with a letter of Latin-1 in two bytes of UTF-8.
pub(crate) fn begins_with_two_byte_letter(bytes: &[u8]) -> bool
    ensures { result ≡ begins_with_two_byte_letter bytes.now }
{
    match bytes {
        [0xC3, second, rest @ ..] => {
            is_second_byte(*second) && (*second < 0xB0 || begins_with_letter(rest))
        }
        _ => false,
    }
}

fn is_latin_letter(byte: u8) -> bool
    ensures { result ≡ is_latin_letter byte }
{
    matches!(byte, 0xE4 | 0xE8..=0xEA | 0xF1..=0xF4 | 0xF6 | 0xFC)
}

/// Whether the bytes begin with a letter of Latin-1, and a small letter.
pub(crate) fn begins_with_latin_letter(bytes: &[u8]) -> bool
    ensures { result ≡ (is_latin_letter (slice_index bytes.now 0)
        && is_small_letter (slice_index bytes.now 1)) }
{
    match bytes {
        [first, second, ..] => is_latin_letter(*first) && is_small_letter(*second),
        _ => false,
    }
}

/// Whether a glyph before these bytes may be the last letter before one of another system, or begin a code. It is
/// asked of each glyph, and mostly it is not so.
#[inline(always)]
pub(crate) fn may_be_foreign(byte: u8, behind: &[u8]) -> bool
    ensures letter { result ≡ false → begins_with_two_byte_letter behind.now ≡ false }
    ensures latin { result ≡ false → is_latin_letter (slice_index behind.now 0) ≡ false }
    ensures pipe { result ≡ false → byte ≢ 0x7C }
    ensures at { result ≡ false → byte ≢ 0x40 }
{
    match behind {
        // Not the blocks, which many drawings are made of.
        [next, ..] if matches!(*next, 0xC3 | 0xE4..=0xFF) => true,
        _ => matches!(byte, b'|' | b'@'),
    }
}

/// Whether a glyph is seen at all.
#[inline(always)]
pub(crate) fn is_seen(byte: u8) -> bool
    ensures { result ≡ is_seen byte }
{
    !matches!(byte, 0x20 | 0x00 | 0xFF)
}

fn is_digit(byte: u8) -> bool
    ensures { result ≡ is_digit byte }
{
    byte.is_ascii_digit()
}

fn is_hex_digit(byte: u8) -> bool
    ensures { result ≡ is_hex_digit byte }
{
    matches!(byte, b'0'..=b'9' | b'A'..=b'F')
}

/// Whether the bytes begin with the number of a pipe code, and a letter.
pub(crate) fn begins_with_pipe_number(bytes: &[u8]) -> bool
    ensures { result ≡ begins_with_pipe_number bytes.now }
{
    match bytes {
        [tens, ones, behind, ..] => {
            let is_small = matches!(*tens, b'0' | b'1');
            is_digit(*ones)
                && is_letter(*behind)
                && (is_small || (*tens == b'2' && matches!(*ones, b'0'..=b'3')))
        }
        _ => false,
    }
}

/// Whether the bytes begin with the letter and the number of a code of PCBoard.
pub(crate) fn begins_with_x_number(bytes: &[u8]) -> bool
    ensures { result ≡ begins_with_x_number bytes.now }
{
    match bytes {
        [b'X', high, low, ..] => is_hex_digit(*high) && is_hex_digit(*low),
        _ => false,
    }
}
