//! A piece of a text.
ghost use Rattle.std.specs.Prelude.{◌≡◌, ◌+◌, ◌≤◌, ◌++◌, length, take};

/// Writes the first `count` bytes of a piece to a text from `end` on, and returns where they end. The whole piece is
/// copied, without a loop: what comes after its first bytes is overwritten next.
#[inline(always)]
pub(crate) fn write<const N: usize>(
    text: &mut [u8],
    end: usize,
    piece: &[u8; N],
    count: usize,
) -> usize
    requires room { end + N ≤ length text.old }
    requires count { count ≤ N }
    ensures end { result ≡ end + count }
    ensures length { length text.new ≡ length text.old }
    ensures text { take result text.new ≡ take end text.old ++ take count piece.now }
{
    text[end..end + N].copy_from_slice(piece);
    end + count
}
