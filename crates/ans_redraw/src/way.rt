//! The way over blanks.
ghost use Rattle.std.specs.Prelude.{◌≡◌, ◌+◌, ◌*◌, ◌≤◌, ◌<◌, [], ◌∷◌, ◌==◌, ◌++◌, decimal, if◌then◌else◌, length, take};
ghost use Rattle.ans_redraw.specs.Form.{over, over_few, skip, texts};
ghost use Rattle.ans_model.specs.Bytes.{bracket, escape};

use crate::colours::GREY;
use crate::piece::write;

/// Writes a number's digits.
fn write_decimal(text: &mut [u8], end: usize, number: u8) -> usize
    requires { end + 3 ≤ length text.old }
    ensures within { result ≤ end + 3 }
    ensures length { length text.new ≡ length text.old }
    ensures text { take result text.new ≡ take end text.old ++ decimal number }
{
    let ones = b'0' + number % 10;
    if number < 10 {
        return write(text, end, &[ones], 1);
    }
    let tens = b'0' + number / 10 % 10;
    if number < 100 {
        return write(text, end, &[tens, ones], 2);
    }
    write(text, end, &[b'0' + number / 100, tens, ones], 3)
}

/// Writes `ESC[`, a number and a letter: at most six bytes.
pub(crate) fn write_move(text: &mut [u8], number: u8, letter: u8) -> usize
    requires { 6 ≤ length text.old }
    ensures within { result ≤ 6 }
    ensures text { take result text.new ≡ escape ∷ bracket ∷ (decimal number ++ letter ∷ []) }
{
    let start = write(text, 0, b"\x1b[", 2);
    let end = write_decimal(text, start, number);
    write(text, end, &[letter], 1)
}

/// Writes the number of a skip, where it is not 1.
fn write_count(text: &mut [u8], end: usize, count: u8) -> usize
    requires { end + 3 ≤ length text.old }
    ensures within { result ≤ end + 3 }
    ensures length { length text.new ≡ length text.old }
    ensures text { take result text.new
        ≡ take end text.old ++ (if count == 1 then [] else decimal count) }
{
    if count == 1 {
        return end;
    }
    write_decimal(text, end, count)
}

/// Writes the sequence that leads this many columns on.
fn write_skip(text: &mut [u8], end: usize, count: u8) -> usize
    requires { end + 6 ≤ length text.old }
    ensures within { result ≤ end + 6 }
    ensures length { length text.new ≡ length text.old }
    ensures text { take result text.new ≡ take end text.old ++ (skip count).text }
{
    let number = write(text, end, b"\x1b[", 2);
    let letter = write_count(text, number, count);
    write(text, letter, b"C", 1)
}

/// Writes the way over at most 254 blanks.
fn write_few(text: &mut [u8], end: usize, attribute: u8, blanks: usize) -> usize
    requires few { blanks < 255 }
    requires room { end + 6 * blanks + 6 ≤ length text.old }
    ensures within { result ≤ end + 6 * blanks }
    ensures length { length text.new ≡ length text.old }
    ensures text { take result text.new ≡ take end text.old ++ texts (over_few attribute blanks) }
{
    if attribute == GREY && blanks <= 4 {
        return write(text, end, b"    ", blanks);
    }
    if blanks == 0 {
        return end;
    }
    write_skip(text, end, blanks as u8)
}

/// Writes the way over blanks.
#[inline(never)]
fn write_way(text: &mut [u8], end: usize, attribute: u8, blanks: usize) -> usize
    requires { end + 6 * blanks + 6 ≤ length text.old }
    ensures within { result ≤ end + 6 * blanks }
    ensures length { length text.new ≡ length text.old }
    ensures text { take result text.new ≡ take end text.old ++ texts (over attribute blanks) }
{
    let mut reached = end;
    for _skip in 0..blanks / 255 {
        reached = write(text, reached, b"\x1b[255C", 6);
    }
    write_few(text, reached, attribute, blanks % 255)
}

/// Writes the way over blanks, if there are any, to a text from `end` on, and returns where it ends.
#[inline(always)]
pub(crate) fn write_over(text: &mut [u8], end: usize, attribute: u8, blanks: usize) -> usize
    requires { end + 6 * blanks + 6 ≤ length text.old }
    ensures within { result ≤ end + 6 * blanks }
    ensures length { length text.new ≡ length text.old }
    ensures text { take result text.new ≡ take end text.old ++ texts (over attribute blanks) }
{
    if blanks == 0 {
        return end;
    }
    if attribute == GREY && blanks <= 4 {
        return write(text, end, b"    ", blanks);
    }
    write_way(text, end, attribute, blanks)
}
