//! A short text.
ghost use Rattle.std.specs.Prelude.{◌≡◌, ◌+◌, ◌≤◌, [], ◌++◌, length, take};

/// A short text: the first `count` bytes. All of them are copied at once, without a loop.
#[derive(Clone, Copy)]
pub(crate) struct ShortText<const N: usize> {
    pub(crate) bytes: [u8; N],
    pub(crate) count: usize,
    ghost within: { count ≤ N },
}

impl<const N: usize> ShortText<N> {
    ghost use Rattle.ans_show.specs.ShortTexts.{short_bytes};

    /// No text.
    pub(crate) fn empty() -> ShortText<N>
        ensures { short_bytes result ≡ [] }
    {
        ShortText {
            bytes: [0; N],
            count: 0,
        }
    }

    /// This text and another after it.
    pub(crate) fn then(self, text: &[u8]) -> ShortText<N>
        requires { length (short_bytes self) + length text.now ≤ N }
        ensures { short_bytes result ≡ short_bytes self.entry ++ text.now }
    {
        let mut bytes = self.bytes;
        let room = &mut bytes[..];
        let count = self.count + text.len();
        room[self.count..count].copy_from_slice(text);
        ShortText { bytes, count }
    }

    /// Four texts, one after the other.
    pub(crate) fn joined(first: &[u8], second: &[u8], third: &[u8], fourth: &[u8]) -> ShortText<N>
        requires { length first.now + length second.now + length third.now + length fourth.now ≤ N }
        ensures { short_bytes result ≡ first.now ++ (second.now ++ (third.now ++ fourth.now)) }
    {
        ShortText::empty()
            .then(first)
            .then(second)
            .then(third)
            .then(fourth)
    }

    /// Writes this text to a longer one from `end` on, and returns where it ends there. What comes after
    /// it is written over next.
    #[inline(always)]
    pub(crate) fn write_to(&self, text: &mut [u8], end: usize) -> usize
        requires { end + N ≤ length text.old }
        ensures within { result ≤ end + N }
        ensures length { length text.new ≡ length text.old }
        ensures text { take result text.new ≡ take end text.old ++ short_bytes self.now }
    {
        text[end..end + N].copy_from_slice(&self.bytes);
        end + self.count
    }
}
