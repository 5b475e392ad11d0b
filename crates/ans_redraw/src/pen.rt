//! How far a row is drawn.

/// The current attribute, and how many cells were passed over since the last byte. The definition of the form
/// names it, so it is public.
#[derive(Clone, Copy)]
pub struct RowPen {
    pub attribute: u8,
    pub passed: usize,
}
