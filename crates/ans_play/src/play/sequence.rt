//! A sequence that is read without a list of its numbers.

ghost use Rattle.std.specs.Prelude.{◌≤◌, length, IfSome};
ghost use Rattle.ans_play.specs.Brushes.{IsReadFront};

use ans_model::limits::MAX_PARAMETERS;
use ans_screen::Attr;
use ans_tokens::{ESCAPE, number_at};

/// How many bytes the longest sequence that is read here has: `ESC [`, and for each number three digits and the byte
/// after them.
pub(super) const LONGEST_FRONT: usize = 66;

/// What is kept of a sequence.
#[derive(Clone, Copy)]
pub(super) struct ReadSequence {
    /// The byte after the numbers.
    pub(super) letter: u8,
    /// The index of the byte after that.
    pub(super) end: usize,
    /// How many semicolons are between its numbers.
    pub(super) semicolons: usize,
    /// The last number but one, 0 where there is none.
    pub(super) previous: u8,
    /// The last number, 0 where there is none.
    pub(super) last: u8,
    /// The attribute after all numbers but the last as colours.
    pub(super) coloured: Attr,
}

/// Reads the numbers after `ESC [`, at most 16, each of three digits at most and not above 255, and the byte after
/// them. If that is a letter, the bytes begin with the sequence; otherwise they begin with none that is read here. All
/// numbers but the last are put into an attribute as colours while they are read.
#[inline(always)]
pub(super) fn read_front(bytes: &[u8], attribute: Attr) -> Option<ReadSequence>
    requires { 66 ≤ length bytes.now }
    ensures { IfSome result (IsReadFront bytes.now attribute) }
{
    if bytes[0] != ESCAPE || bytes[1] != b'[' {
        return None;
    }
    let mut coloured = attribute;
    let mut previous = 0;
    let mut at = 2;
    for semicolons in 0..MAX_PARAMETERS {
        let (last, digits) = number_at(bytes, at)?;
        let letter = bytes[at + digits];
        at = at + digits + 1;
        if letter != b';' {
            return Some(ReadSequence {
                letter,
                end: at,
                semicolons,
                previous,
                last,
                coloured,
            });
        }
        coloured = coloured.apply(last);
        previous = last;
    }
    None
}
