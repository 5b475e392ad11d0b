//! What a token is.

use crate::limits::MAX_PARAMETERS;
use arrayvec::ArrayVec;

/// A byte outside sequences, or what an escape sequence means (ANSI.SYS). Rows and columns are
/// counted from 1, as in the sequences.
#[derive(Debug, Drop)]
pub enum Kind {
    /// A byte that is printed in the cursor's cell; the cursor then goes on.
    Glyph(u8),
    /// 07h: does nothing to the screen.
    Bell,
    /// 08h: one column back, at most to the first.
    BackSpace,
    /// 0Ah: one row down; in the last row the screen scrolls.
    LineFeed,
    /// 0Dh: to the first column.
    CarriageReturn,
    /// 09h: prints blanks up to the next column that 8 divides, columns counted from 0 (profile).
    Tab,
    /// `ESC[nA`: up by this many rows, at most to the first.
    Up(u8),
    /// `ESC[nB`: down by this many rows, at most to the last.
    Down(u8),
    /// `ESC[nC`: right by this many columns, at most to the last.
    Forward(u8),
    /// `ESC[nD`: left by this many columns, at most to the first.
    Backward(u8),
    /// `ESC[row;columnH` or `ESC[row;columnf`: to this row and column.
    Place(u8, u8),
    /// `ESC[2J`: blanks every cell and takes the cursor home, to row 1 and column 1.
    Clear,
    /// `ESC[K`: blanks the cursor's cell and those to its right.
    EraseLine,
    /// `ESC[s`: saves the cursor's position.
    Save,
    /// `ESC[u`: takes the cursor back to the saved position.
    Restore,
    /// `ESC[..m`: colour parameters, applied one after the other.
    Colours(ArrayVec<u8, MAX_PARAMETERS>),
    /// `ESC[?7h` or `ESC[?7l`: whether a byte printed in the last column takes the cursor to the
    /// next row.
    Wrap(bool),
    /// `ESC[=..h` and the like: sets a screen mode.
    Mode,
    /// `ESC[..p`: reassigns a key.
    Keys,
    /// `ESC[6n`: asks for a cursor report.
    Ask,
}
