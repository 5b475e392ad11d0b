//! A character in UTF-8.
ghost use Rattle.std.specs.Prelude.{◌≤◌};

/// A character in UTF-8: the first `count` bytes spell it.
#[derive(Clone, Copy)]
pub(crate) struct Utf8Character {
    pub(crate) bytes: [u8; 4],
    pub(crate) count: usize,
    ghost within: { count ≤ 4 },
}
