//! What may come directly after `[`.

/// The mark of a sequence (ANSI.SYS): none, `=` or `?`.
#[derive(Debug, Clone, Copy, PartialEq, Eq)]
pub enum Mark {
    Unmarked,
    Equals,
    Question,
}
