//! A cell of the screen, and a position on it.

/// A byte of code page 437 and its attribute: bits 0 to 2 are the foreground's blue, green and red,
/// 3 is bright, 4 to 6 are the background's blue, green and red, 7 is blink.
#[derive(Debug, Clone, Copy, PartialEq, Eq)]
pub struct Cell {
    pub byte: u8,
    pub attribute: u8,
}

/// A row and a column, counted from 0.
#[derive(Debug, Clone, Copy, PartialEq, Eq)]
pub struct Position {
    pub row: usize,
    pub column: usize,
}
