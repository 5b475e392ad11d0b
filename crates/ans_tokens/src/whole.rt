//! Sequences of numbers that are read whole from a slice.
//!
//! A reader here answers only if the whole sequence is in the slice, and is meant for its common form. If it declines,
//! the bytes are left to be taken one by one, so each rarer form is decided in one place.

ghost use Rattle.std.specs.Prelude.{◌≡◌, ◌≢◌, ◌⊎◌, ◌<◌, ◌≤◌, ◌+◌, ◌++◌, ◌∷◌, [], length, take, drop, false};
ghost use Rattle.std.specs.Prelude.{IfSome, slice_index_or};
ghost use Rattle.ans_model.specs.Bytes.{most_parameters, escape};
ghost use Rattle.arrayvec.specs.ArrayVec.{array_vec_len};
ghost use Rattle.ans_model.specs.declared.mark.Mark.TheVariants.{Unmarked};
ghost use Rattle.ans_tokens.specs.ScannerView.{Keeps, Sequence, Fresh};
ghost use Rattle.ans_tokens.specs.WholeToken.{IsNumberFront, IsSequenceFront, IsTokenAt, OpensMember};
ghost use Rattle.ans_model.specs.Sequence.Omitted.{omits};

use crate::mark::mark_of_byte;
use crate::meaning::kind_meant;
use crate::token::Token;
use ans_model::limits::MAX_PARAMETERS;
use ans_model::mark::Mark;
use arrayvec::ArrayVec;

/// The letter that ends a sequence, and the index of the byte after it.
#[derive(Debug, Clone, Copy)]
pub struct Letter {
    pub byte: u8,
    pub end: usize,
    /// Whether a number is omitted, as in `;1` or in nothing at all.
    pub omits: bool,
}

/// The value of the digits that the bytes begin with, and their count: 0 and 0 where there are
/// none. It declines where the value is above 255, or where no other byte follows.
fn read_digits(bytes: &[u8]) -> Option<(u8, usize)>
    ensures { IfSome result (λ read. IsNumberFront bytes.now read.0 read.1) }
{
    let mut value = 0u8;
    for (i, byte) in bytes.iter().enumerate() {
        if !byte.is_ascii_digit() {
            return Some((value, i));
        }
        let next = value as u16 * 10 + (*byte - b'0') as u16;
        if next > u8::MAX as u16 {
            return None;
        }
        value = next as u8;
    }
    None
}

/// The value of the digits at an index of the bytes, three at most, and their count: 0 and 0 if there are none. It
/// declines if the value is above 255, or if there are more digits.
#[inline(always)]
pub fn number_at(bytes: &[u8], at: usize) -> Option<(u8, usize)>
    requires { at + 4 ≤ length bytes.now }
    ensures number { IfSome result (λ read. IsNumberFront (drop at bytes.now) read.0 read.1) }
    ensures short { IfSome result (λ read. read.1 ≤ 3) }
{
    let first = bytes[at];
    if !first.is_ascii_digit() {
        return Some((0, 0));
    }
    let second = bytes[at + 1];
    if !second.is_ascii_digit() {
        return Some((first - b'0', 1));
    }
    let two = (first - b'0') * 10 + (second - b'0');
    let third = bytes[at + 2];
    if !third.is_ascii_digit() {
        return Some((two, 2));
    }
    let three = two as u16 * 10 + (third - b'0') as u16;
    if three > u8::MAX as u16 || bytes[at + 3].is_ascii_digit() {
        return None;
    }
    Some((three as u8, 3))
}

/// Reads as `read_digits` does, at an index of the bytes. Most numbers are short, and these need no loop.
#[inline(always)]
fn read_number(bytes: &[u8], at: usize) -> Option<(u8, usize)>
    requires { at ≤ length bytes.now }
    ensures { IfSome result (λ read. IsNumberFront (drop at bytes.now) read.0 read.1) }
{
    if bytes.len() - at >= 4 {
        if let Some(read) = number_at(bytes, at) {
            return Some(read);
        }
    }
    read_digits(&bytes[at..])
}

/// Adds the number of the last member, where the letter comes next. If nothing comes before the letter, there is no
/// member at all.
fn add_last(numbers: &mut ArrayVec<u8, MAX_PARAMETERS>, value: u8, digits: usize)
    requires { array_vec_len numbers.old < most_parameters }
    ensures none { digits ≡ 0 → numbers.old.items ≡ [] → numbers.new.items ≡ [] }
    ensures one { (0 < digits) ⊎ (numbers.old.items ≢ [])
        → numbers.new.items ≡ numbers.old.items ++ value ∷ [] }
{
    if digits > 0 || !numbers.is_empty() {
        numbers.push(value);
    }
}

/// Reads the members and the letter of a sequence from the index after its mark, and puts a number
/// for each member into an empty list. It declines where a byte is neither a digit nor a `;` nor a
/// letter, where a number is above 255, where the members are more than 16, and where the bytes end
/// before the letter.
#[inline(always)]
fn read_members(
    bytes: &[u8],
    mark: Mark,
    from: usize,
    numbers: &mut ArrayVec<u8, MAX_PARAMETERS>,
) -> Option<Letter>
    requires within { from ≤ length bytes.now }
    requires begun { Keeps (Sequence mark [] false Fresh) (take from bytes.now) }
    requires empty { numbers.old.items ≡ [] }
    ensures front { IfSome result (λ letter.
        IsSequenceFront bytes.now mark numbers.new.items letter.byte letter.end) }
    ensures omits { OpensMember bytes.now from → IfSome result (λ letter. letter.byte ≡ 0x6D
        → letter.omits ≡ omits (take letter.end bytes.now)) }
{
    let mut at = from;
    let mut omits = false;
    for _ in 0..MAX_PARAMETERS {
        let (value, digits) = read_number(bytes, at)?;
        let stop = at + digits;
        let byte = bytes[stop];
        at = stop + 1;
        omits |= digits == 0;
        if byte == b';' {
            numbers.push(value);
            continue;
        }
        if !byte.is_ascii_alphabetic() {
            return None;
        }
        add_last(numbers, value, digits);
        return Some(Letter {
            byte,
            end: at,
            omits,
        });
    }
    None
}

/// Reads the sequence that the bytes begin with if a letter is all that it has, as `ESC[s`, and returns the
/// letter. It declines any other bytes.
#[inline(always)]
pub(crate) fn read_letter(bytes: &[u8]) -> Option<Letter>
    ensures front { IfSome result (λ letter.
        IsSequenceFront bytes.now Unmarked [] letter.byte letter.end) }
    ensures omits { IfSome result (λ letter. letter.byte ≡ 0x6D
        → letter.omits ≡ omits (take letter.end bytes.now)) }
{
    match bytes {
        // mostly it is a digit
        [0x1B, b'[', byte, ..] if *byte > b'9' && byte.is_ascii_alphabetic() => Some(Letter {
            byte: *byte,
            end: 3,
            omits: true,
        }),
        _ => None,
    }
}

/// Reads the sequence that the bytes begin with, where it is whole and has neither a mark nor a
/// string: it puts a number for each member into an empty list, 0 for one that is omitted, and
/// returns the letter. It declines any other bytes, and then the list holds any numbers.
#[inline(always)]
pub fn read_sequence(bytes: &[u8], numbers: &mut ArrayVec<u8, MAX_PARAMETERS>) -> Option<Letter>
    requires { numbers.old.items ≡ [] }
    ensures front { IfSome result (λ letter.
        IsSequenceFront bytes.now Unmarked numbers.new.items letter.byte letter.end) }
    ensures omits { IfSome result (λ letter. letter.byte ≡ 0x6D
        → letter.omits ≡ omits (take letter.end bytes.now)) }
{
    match bytes {
        [0x1B, b'[', _, ..] => read_members(bytes, Mark::Unmarked, 2, numbers),
        _ => None,
    }
}

/// The token of the sequence that the bytes begin with, at this offset. It declines if there is no sequence, or if it
/// is not whole, has a string, or is refused.
#[inline(always)]
pub(crate) fn whole_sequence(bytes: &[u8], start: usize) -> Option<Token>
    ensures { IfSome result (IsTokenAt start bytes.now) }
{
    let [0x1B, b'[', next, ..] = bytes else {
        return None;
    };
    let (mark, from) = match mark_of_byte(*next) {
        Some(mark) => (mark, 3),
        None => (Mark::Unmarked, 2),
    };
    let mut numbers = ArrayVec::new();
    let letter = read_members(bytes, mark, from, &mut numbers)?;
    match kind_meant(mark, numbers, false, letter.byte) {
        Ok(kind) => Some(Token::new(kind, start, letter.end)),
        Err(_) => None,
    }
}
