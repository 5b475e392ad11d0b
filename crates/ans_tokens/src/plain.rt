//! Plain bytes, which a walker may take at once.

ghost use Rattle.std.specs.Prelude.{◌≡◌, ◌+◌, ◌<◌, ◌≤◌, ℕ, IsTrue, false, All, length, map, take};
ghost use Rattle.std.specs.Prelude.{drop, slice_index, slice_index_or};
ghost use Rattle.std.specs.Simd.Lanes.{mask_l};
ghost use Rattle.ans_tokens.specs.Glyphs.{is_stop};
ghost use Rattle.ans_tokens.specs.Walk.{NoCodeBegins, begins_as_code, begins_plainly, is_plain};

use std::simd::prelude::*;

/// A bit for each of 16 bytes that is not plain, or `@` or `|`.
#[inline(always)]
fn stops(bytes: u8x16) -> u64
    ensures { result ≡ mask_l (map is_stop bytes) }
{
    // Bytes below 20h become E0h and above, and E0h and above C0h and above.
    let outside = (bytes - u8x16::splat(0x20)).simd_ge(u8x16::splat(0xC0));
    let signs = bytes.simd_eq(u8x16::splat(b'@')) | bytes.simd_eq(u8x16::splat(b'|'));
    let others = bytes.simd_eq(u8x16::splat(0x7F)) | bytes.simd_eq(u8x16::splat(0xC3));
    (outside | signs | others).to_bitmask()
}

/// How many of the 16 bytes from `from` on come before the first one that is not plain, or is `@` or `|`.
#[inline(always)]
fn plain_of_chunk(bytes: &[u8], from: usize) -> usize
    requires { from + 16 ≤ length bytes.now }
    ensures within { result ≤ 16 }
    ensures plain { (k : ℕ) → from ≤ k → k < from + result
        → is_stop (slice_index_or bytes.now k 0) ≡ false }
{
    let found = stops(u8x16::from_slice(&bytes[from..]));
    if found == 0 {
        16
    } else {
        found.trailing_zeros() as usize
    }
}

/// Whether the bytes begin with `@` or `|`, and with no colour code of a bulletin board.
#[inline(always)]
fn begins_with_sign(bytes: &[u8]) -> bool
    requires { 1 < length bytes.now }
    ensures plain { IsTrue result → IsTrue (is_plain (slice_index bytes.now 0)) }
    ensures code { IsTrue result → begins_as_code bytes.now ≡ false }
{
    // What stops a run most often is below both: ESC, and the ends of lines.
    let byte = bytes[0];
    if byte < b'@' {
        return false;
    }
    match byte {
        b'@' => bytes[1] != b'X',
        b'|' => bytes[1] < b'0' || bytes[1] > b'9',
        _ => false,
    }
}

/// How many of the first `most` bytes come before the first one that is not plain, or with which a code may begin, as
/// far as whole chunks of 16 bytes show.
#[inline(always)]
fn count_plain(bytes: &[u8], most: usize) -> usize
    requires { 0 < length bytes.now }
    ensures most { result ≤ most }
    ensures within { result < length bytes.now }
    ensures plain { All (λ byte. IsTrue (is_plain byte)) (take result bytes.now) }
    ensures codes { NoCodeBegins result bytes.now }
{
    let mut count = 0;
    // There is a byte after each chunk, so there is a byte at the count, and one after a sign.
    while count < most && bytes.len() - count > 16 {
        let plain = plain_of_chunk(bytes, count);
        count += plain;
        if plain < 16 {
            if !begins_with_sign(&bytes[count..]) {
                break;
            }
            count += 1;
        }
    }
    count.min(most)
}

/// Whether the bytes begin with no letter of UTF-8 or of Latin-1.
#[inline(always)]
fn begins_plainly(bytes: &[u8]) -> bool
    requires { 0 < length bytes.now }
    ensures { result ≡ begins_plainly bytes.now }
{
    bytes[0] != 0xC3 && bytes[0] < 0xE0
}

/// How many plain bytes a walker takes at once, of the first `most` and as far as whole chunks of 16
/// bytes tell. If such a letter comes next, the byte before it is left too.
#[inline(always)]
pub(crate) fn count_run(bytes: &[u8], most: usize) -> usize
    ensures most { result ≤ most }
    ensures within { result ≤ length bytes.now }
    ensures plain { All (λ byte. IsTrue (is_plain byte)) (take result bytes.now) }
    ensures codes { NoCodeBegins result bytes.now }
    ensures ends { 0 < result → IsTrue (begins_plainly (drop result bytes.now)) }
{
    let [first, ..] = bytes else {
        return 0;
    };
    // ESC comes next most often, and no chunk is looked at for it.
    if most == 0 || *first < 0x20 {
        return 0;
    }
    let count = count_plain(bytes, most);
    if begins_plainly(&bytes[count..]) {
        count
    } else {
        count.saturating_sub(1)
    }
}
