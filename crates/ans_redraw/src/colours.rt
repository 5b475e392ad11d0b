//! How one attribute becomes another.
ghost use Rattle.std.specs.Prelude.{◌≡◌, ◌≢◌, ◌==◌, not, ◌&&◌, ◌+◌, ◌≤◌, ◌<◌, ◌++◌, length, take, if◌then◌else◌};
ghost use Rattle.ans_redraw.specs.Colours.{anew, background_of, blinks, changes, ansi_number, colours_to};
ghost use Rattle.ans_redraw.specs.Colours.{foreground_of, is_bright, parameter_if, numbers_to, only_adds};
ghost use Rattle.ans_redraw.specs.Form.{texts};
ghost use Rattle.ans_redraw.specs.Numbers.{listed};

use crate::piece::write;

/// White on black.
pub(crate) const GREY: u8 = 0x07;

/// Where ANSI.SYS has the colours, whose bits are blue, green and red.
const COLOUR_NUMBERS: [u8; 8] = [0, 4, 2, 6, 1, 5, 3, 7];

fn foreground_of(attribute: u8) -> u8
    ensures { result ≡ foreground_of attribute }
{
    attribute % 8
}

fn is_bright(attribute: u8) -> bool
    ensures { result ≡ is_bright attribute }
{
    attribute / 8 % 2 == 1
}

fn background_of(attribute: u8) -> u8
    ensures { result ≡ background_of attribute }
{
    attribute / 16 % 8
}

fn blinks(attribute: u8) -> bool
    ensures { result ≡ blinks attribute }
{
    attribute / 128 % 2 == 1
}

fn ansi_number(colour: u8) -> u8
    requires { colour < 8 }
    ensures { result ≡ ansi_number colour }
{
    COLOUR_NUMBERS[colour as usize]
}

/// Whether bright comes.
#[inline(always)]
fn brightens(from: u8, to: u8) -> bool
    ensures { result ≡ (not (is_bright from) && is_bright to) }
{
    !is_bright(from) && is_bright(to)
}

/// Whether blink comes.
#[inline(always)]
fn starts_blinking(from: u8, to: u8) -> bool
    ensures { result ≡ (not (blinks from) && blinks to) }
{
    !blinks(from) && blinks(to)
}

/// Whether the foreground changes.
#[inline(always)]
fn recolours_front(from: u8, to: u8) -> bool
    ensures { result ≡ not (foreground_of from == foreground_of to) }
{
    foreground_of(from) != foreground_of(to)
}

/// Whether the background changes.
#[inline(always)]
fn recolours_back(from: u8, to: u8) -> bool
    ensures { result ≡ not (background_of from == background_of to) }
{
    background_of(from) != background_of(to)
}

/// Whether neither bright nor blink goes.
fn only_adds(from: u8, to: u8) -> bool
    ensures { result ≡ only_adds from to }
{
    (!is_bright(from) || is_bright(to)) && (!blinks(from) || blinks(to))
}

/// Writes a number below 10, where it is there, and a semicolon.
#[inline(always)]
fn write_digit(text: &mut [u8], end: usize, number: u8, is_there: bool) -> usize
    requires room { end + 2 ≤ length text.old }
    requires digit { number < 10 }
    ensures within { result ≤ end + 2 }
    ensures length { length text.new ≡ length text.old }
    ensures text { take result text.new ≡ take end text.old ++ listed (parameter_if is_there number) }
{
    write(text, end, &[b'0' + number, b';'], length_if(is_there, 2))
}

/// Writes a number of two digits, where it is there, and a semicolon.
#[inline(always)]
fn write_number(text: &mut [u8], end: usize, number: u8, is_there: bool) -> usize
    requires room { end + 3 ≤ length text.old }
    requires two { 10 ≤ number }
    requires digits { number < 100 }
    ensures within { result ≤ end + 3 }
    ensures length { length text.new ≡ length text.old }
    ensures text { take result text.new ≡ take end text.old ++ listed (parameter_if is_there number) }
{
    write(
        text,
        end,
        &[b'0' + number / 10, b'0' + number % 10, b';'],
        length_if(is_there, 3),
    )
}

/// Writes the numbers of what changes, each with a semicolon.
#[inline(always)]
fn write_changes(text: &mut [u8], end: usize, from: u8, to: u8) -> usize
    requires { end + 10 ≤ length text.old }
    ensures within { result ≤ end + 10 }
    ensures length { length text.new ≡ length text.old }
    ensures text { take result text.new ≡ take end text.old ++ listed (changes from to) }
{
    let bright = write_digit(text, end, 1, brightens(from, to));
    let blink = write_digit(text, bright, 5, starts_blinking(from, to));
    let number = 30 + ansi_number(foreground_of(to));
    let front = write_number(text, blink, number, recolours_front(from, to));
    let number = 40 + ansi_number(background_of(to));
    write_number(text, front, number, recolours_back(from, to))
}

/// Writes 0, 1 and 5 if they are set, the foreground and the background, each with a semicolon.
fn write_anew(text: &mut [u8], end: usize, to: u8) -> usize
    requires { end + 12 ≤ length text.old }
    ensures within { result ≤ end + 12 }
    ensures length { length text.new ≡ length text.old }
    ensures text { take result text.new ≡ take end text.old ++ listed (anew to) }
{
    let zero = write_digit(text, end, 0, true);
    let bright = write_digit(text, zero, 1, is_bright(to));
    let blink = write_digit(text, bright, 5, blinks(to));
    let number = 30 + ansi_number(foreground_of(to));
    let front = write_number(text, blink, number, true);
    let number = 40 + ansi_number(background_of(to));
    write_number(text, front, number, true)
}

/// This length if the bytes are there, and otherwise 0.
#[inline(always)]
fn length_if(is_there: bool, length: usize) -> usize
    ensures { result ≡ (if is_there then length else 0) }
{
    if is_there { length } else { 0 }
}

/// Writes the numbers from one attribute to another, each with a semicolon.
#[inline(always)]
fn write_numbers(text: &mut [u8], end: usize, from: u8, to: u8) -> usize
    requires { end + 12 ≤ length text.old }
    ensures within { result ≤ length text.new }
    ensures length { length text.new ≡ length text.old }
    ensures text { take result text.new ≡ take end text.old ++ listed (numbers_to from to) }
{
    if only_adds(from, to) {
        return write_changes(text, end, from, to);
    }
    write_anew(text, end, to)
}

/// Writes the sequence from one attribute to another.
#[inline(never)]
fn write_sequence(text: &mut [u8], end: usize, from: u8, to: u8) -> usize
    requires apart { from ≢ to }
    requires room { end + 14 ≤ length text.old }
    ensures within { result ≤ end + 12 }
    ensures length { length text.new ≡ length text.old }
    ensures text { take result text.new ≡ take end text.old ++ texts (colours_to from to) }
{
    let start = write(text, end, b"\x1b[", 2);
    let numbers = write_numbers(text, start, from, to);
    write(text, numbers - 1, b"m", 1)
}

/// Writes what leads from one attribute to another to a text from `end` on, and returns where it ends.
#[inline(always)]
pub(crate) fn write_colours(text: &mut [u8], end: usize, from: u8, to: u8) -> usize
    requires { end + 14 ≤ length text.old }
    ensures within { result ≤ end + 12 }
    ensures length { length text.new ≡ length text.old }
    ensures text { take result text.new ≡ take end text.old ++ texts (colours_to from to) }
{
    if from == to {
        return end;
    }
    write_sequence(text, end, from, to)
}
