//! Sequences of modern terminals, by the letter that they end in.

ghost use Rattle.std.specs.Prelude.{◌≡◌};
ghost use Rattle.ans_why.specs.TerminalLetters.{escape_does, letter_after_numbers, letter_does, terminal_form};
ghost use Rattle.ans_why.specs.TerminalLetters.{terminal_text};

use ans_forms::FormPiece::{Byte, Digits, Parameters};
use ans_forms::{FormPiece, begins_with_form, behind_form};

/// What a sequence does that modern terminals know and ANSI.SYS does not.
#[derive(Debug, Clone, Copy, PartialEq, Eq)]
pub enum Terminal {
    /// `ESC[nb`.
    Repeats,
    /// `ESC[nG` and the same with a grave accent.
    Column,
    /// `ESC[nd`.
    Row,
    /// `ESC[nX`.
    Blanks,
    /// `ESC[n@`.
    Inserts,
    /// `ESC[nP`.
    Deletes,
    /// `ESC[nL`.
    MoreRows,
    /// `ESC[nM`, with a number: without one it may be music.
    LessRows,
    /// `ESC[nS` and `ESC[nT`.
    Scrolls,
    /// `ESC[nE`.
    Below,
    /// `ESC[nF`.
    Above,
    /// `ESC[na`.
    Right,
    /// `ESC[ne`.
    Down,
    /// `ESC7`.
    Saves,
    /// `ESC8`.
    Restores,
    /// `ESCc`.
    Resets,
}

use Terminal::{
    Above, Below, Blanks, Column, Deletes, Down, Inserts, LessRows, MoreRows, Repeats, Resets,
    Restores, Right, Row, Saves, Scrolls,
};

/// `ESC[`, and digits and semicolons or nothing.
pub const NUMBERS: [FormPiece; 3] = [Byte(0x1B), Byte(b'['), Parameters];

/// `ESC[nM`.
pub const ROWS_DELETED: [FormPiece; 4] = [Byte(0x1B), Byte(b'['), Digits, Byte(b'M')];

impl Terminal {
    /// What it does, and what to write for it.
    pub fn text(self) -> &'static str
        ensures { result.now ≡ terminal_text self }
    {
        match self {
            Repeats => "a sequence of modern terminals: repeats a character; write it out",
            Column => "a sequence of modern terminals: goes to a column; write ESC[row;columnH",
            Row => "a sequence of modern terminals: goes to a row; write ESC[row;columnH",
            Blanks => "a sequence of modern terminals: blanks cells; write blanks, then ESC[nD",
            Inserts => "a sequence of modern terminals: inserts cells; write the row again",
            Deletes => "a sequence of modern terminals: deletes cells; write the row again",
            MoreRows => "a sequence of modern terminals: inserts rows; write the rows again",
            LessRows => "a sequence of modern terminals: deletes rows; write the rows again",
            Scrolls => "a sequence of modern terminals: scrolls; write the rows again",
            Below => "a sequence of modern terminals: starts a row below; write CR ESC[nB",
            Above => "a sequence of modern terminals: starts a row above; write CR ESC[nA",
            Right => "a sequence of modern terminals: goes right; write ESC[nC",
            Down => "a sequence of modern terminals: goes down; write ESC[nB",
            Saves => "a sequence of modern terminals: saves the place; write ESC[s",
            Restores => "a sequence of modern terminals: goes to the saved place; write ESC[u",
            Resets => "a sequence of modern terminals: resets; write ESC[0m ESC[2J ESC[?7h",
        }
    }
}

/// What a letter does after `ESC[` and numbers, if it is one of modern terminals.
fn letter_does(letter: u8) -> Option<Terminal>
    ensures { result ≡ letter_does letter }
{
    match letter {
        b'b' => Some(Repeats),
        b'G' | b'`' => Some(Column),
        b'd' => Some(Row),
        b'X' => Some(Blanks),
        b'@' => Some(Inserts),
        b'P' => Some(Deletes),
        b'L' => Some(MoreRows),
        b'S' | b'T' => Some(Scrolls),
        b'E' => Some(Below),
        b'F' => Some(Above),
        b'a' => Some(Right),
        b'e' => Some(Down),
        _ => None,
    }
}

/// What a byte does directly after ESC, if it is one of modern terminals.
fn escape_does(byte: u8) -> Option<Terminal>
    ensures { result ≡ escape_does byte }
{
    match byte {
        b'7' => Some(Saves),
        b'8' => Some(Restores),
        b'c' => Some(Resets),
        _ => None,
    }
}

/// The byte after `ESC[` and numbers; 0 if there is none.
fn letter_after_numbers(bytes: &[u8]) -> u8
    ensures { result ≡ letter_after_numbers bytes.now }
{
    match behind_form(bytes, &NUMBERS) {
        Some([letter, ..]) => *letter,
        _ => 0,
    }
}

/// What the sequence does that the bytes begin with, if it is one of modern terminals.
pub(crate) fn terminal_form(bytes: &[u8]) -> Option<Terminal>
    ensures { result ≡ terminal_form bytes.now }
{
    if begins_with_form(bytes, &ROWS_DELETED) {
        return Some(LessRows);
    }
    if begins_with_form(bytes, &NUMBERS) {
        return letter_does(letter_after_numbers(bytes));
    }
    match bytes {
        [0x1B, byte, ..] => escape_does(*byte),
        _ => None,
    }
}
