//! Bytes that are printed as they are, one token each.

ghost use Rattle.std.specs.Prelude.{◌≡◌, ◌+◌, ◌<◌, ◌≤◌, ◌↔◌, ℕ, IsTrue, false, All, length, map, take, slice_index_or};
ghost use Rattle.std.specs.Simd.Lanes.{mask_l};
ghost use Rattle.ans_tokens.specs.Glyphs.{IsGlyphByte, IsGlyphFront, is_low};

use std::simd::prelude::*;

fn is_glyph(byte: u8) -> bool
    ensures { IsTrue result ↔ IsGlyphByte byte }
{
    !matches!(byte, 0x07 | 0x08 | b'\t' | b'\n' | b'\r' | 0x1B)
}

/// A bit for each of 16 bytes that is below 20h.
#[inline(always)]
fn low_bytes(bytes: u8x16) -> u64
    ensures { result ≡ mask_l (map is_low bytes) }
{
    bytes.simd_lt(u8x16::splat(0x20)).to_bitmask()
}

/// How many of the 16 bytes from `from` on come before the first one below 20h.
#[inline(always)]
fn text_of_chunk(bytes: &[u8], from: usize) -> usize
    requires { from + 16 ≤ length bytes.now }
    ensures within { result ≤ 16 }
    ensures text { (k : ℕ) → from ≤ k → k < from + result
        → is_low (slice_index_or bytes.now k 0) ≡ false }
{
    let low = low_bytes(u8x16::from_slice(&bytes[from..]));
    if low == 0 {
        16
    } else {
        low.trailing_zeros() as usize
    }
}

/// How many of the first `most` bytes come before the first one below 20h, as far as whole chunks of 16 bytes show.
/// They are glyphs.
#[inline(always)]
pub fn count_text(bytes: &[u8], most: usize) -> usize
    ensures most { result ≤ most }
    ensures within { result ≤ length bytes.now }
    ensures glyphs { All IsGlyphByte (take result bytes.now) }
{
    if bytes.len() < 16 {
        return 0;
    }
    let mut count = text_of_chunk(bytes, 0);
    if count < 16 {
        return count.min(most);
    }
    while count < most && bytes.len() - count >= 16 {
        let text = text_of_chunk(bytes, count);
        count += text;
        if text < 16 {
            break;
        }
    }
    count.min(most)
}

/// How many glyphs come before the first byte that is not one. All bytes but BEL, BS, TAB, LF, CR and ESC are glyphs
/// (ANSI.SYS).
pub fn count_glyphs(bytes: &[u8]) -> usize
    ensures { IsGlyphFront bytes.now result }
{
    for i in count_text(bytes, bytes.len())..bytes.len() {
        if !is_glyph(bytes[i]) {
            return i;
        }
    }
    bytes.len()
}
