//! Cells of one attribute, one after the other.
ghost use Rattle.std.specs.Prelude.{◌≡◌, ◌+◌, ◌≤◌, ◌<◌, ◌==◌, ◌++◌, ℕ, IsTrue, false, not};
ghost use Rattle.std.specs.Prelude.{length, take, drop, map, slice_index_or};
ghost use Rattle.std.specs.List.{list_all};
ghost use Rattle.std.specs.Simd.Lanes.{mask_l, zip2};
ghost use Rattle.ans_model.specs.Screen.State.{cell};
ghost use Rattle.ans_redraw.specs.Form.{drawn, is_blank, pen, pen_behind, texts};

use crate::colours::GREY;
use crate::piece::write;
use std::simd::prelude::*;

/// A bit for each of 16 bytes that is not this one.
#[inline(always)]
fn others(bytes: u8x16, byte: u8) -> u64
    ensures { result ≡ mask_l (map (λ (b : ℕ). not (b == byte)) bytes) }
{
    bytes.simd_ne(u8x16::splat(byte)).to_bitmask()
}

/// A bit for each of 16 bytes that is this one.
#[inline(always)]
fn places(bytes: u8x16, byte: u8) -> u64
    ensures { result ≡ mask_l (map (λ (b : ℕ). b == byte) bytes) }
{
    bytes.simd_eq(u8x16::splat(byte)).to_bitmask()
}

/// How many of the first 16 bytes come before the first one that is another.
#[inline(always)]
fn count_same(bytes: &[u8], byte: u8) -> usize
    requires { 16 ≤ length bytes.now }
    ensures within { result ≤ 16 }
    ensures same { (k : ℕ) → k < result → slice_index_or bytes.now k 0 ≡ byte }
{
    let mask = others(u8x16::from_slice(bytes), byte);
    if mask == 0 {
        16
    } else {
        mask.trailing_zeros() as usize
    }
}

/// How many of the first 16 bytes come before the first one that is this one.
#[inline(always)]
fn count_before(bytes: &[u8], byte: u8) -> usize
    requires { 16 ≤ length bytes.now }
    ensures within { result ≤ 16 }
    ensures others { (k : ℕ) → k < result → (slice_index_or bytes.now k 0 == byte) ≡ false }
{
    let mask = places(u8x16::from_slice(bytes), byte);
    if mask == 0 {
        16
    } else {
        mask.trailing_zeros() as usize
    }
}

/// How many of the first 16 cells come before the first one that has another attribute, or is a blank.
#[inline(always)]
fn count_run(attribute: u8, bytes: &[u8], attributes: &[u8]) -> usize
    requires bytes { 16 ≤ length bytes.now }
    requires attributes { 16 ≤ length attributes.now }
    ensures within { result ≤ 16 }
    ensures same { (k : ℕ) → k < result → slice_index_or attributes.now k 0 ≡ attribute }
    ensures no_blanks { (k : ℕ) → k < result
        → is_blank (cell (slice_index_or bytes.now k 0) attribute) ≡ false }
{
    let same = count_same(attributes, attribute);
    if attribute != GREY {
        return same;
    }
    same.min(count_before(bytes, b' '))
}

/// Writes leading cells that have this attribute and are no blanks, just by their bytes, to a text from `end` on.
/// Returns how many: at most 16, and none if there are fewer than 16 cells.
#[inline(always)]
pub(crate) fn write_run(
    text: &mut [u8],
    end: usize,
    attribute: u8,
    bytes: &[u8],
    attributes: &[u8],
) -> usize
    requires same { length attributes.now ≡ length bytes.now }
    requires room { end + 16 ≤ length text.old }
    ensures within { result ≤ length bytes.now }
    ensures length { length text.new ≡ length text.old }
    ensures text { take (end + result) text.new ++ texts (drawn (pen attribute 0)
        (zip2 cell (drop result bytes.now) (drop result attributes.now)))
        ≡ take end text.old
        ++ texts (drawn (pen attribute 0) (zip2 cell bytes.now attributes.now)) }
    ensures pen { pen_behind (pen attribute 0)
        (zip2 cell (drop result bytes.now) (drop result attributes.now))
        ≡ pen_behind (pen attribute 0) (zip2 cell bytes.now attributes.now) }
{
    if bytes.len() < 16 {
        return 0;
    }
    let count = count_run(attribute, bytes, attributes);
    write(text, end, &u8x16::from_slice(bytes).to_array(), count);
    count
}

/// Whether the first 16 cells are blanks.
#[inline(always)]
fn begins_with_blanks(bytes: &[u8], attributes: &[u8]) -> bool
    requires bytes { 16 ≤ length bytes.now }
    requires attributes { 16 ≤ length attributes.now }
    ensures { IsTrue result
        → list_all is_blank (zip2 cell (drop 16 bytes.now) (drop 16 attributes.now))
        ≡ list_all is_blank (zip2 cell bytes.now attributes.now) }
{
    count_same(bytes, b' ') == 16 && count_same(attributes, GREY) == 16
}

/// How many cells at the front are blanks, as far as whole chunks of 16 tell.
pub(crate) fn count_blanks(bytes: &[u8], attributes: &[u8]) -> usize
    requires { length attributes.now ≡ length bytes.now }
    ensures within { result ≤ length bytes.now }
    ensures blanks { list_all is_blank (zip2 cell (drop result bytes.now) (drop result attributes.now))
        ≡ list_all is_blank (zip2 cell bytes.now attributes.now) }
{
    let mut count = 0;
    while bytes.len() - count >= 16 && begins_with_blanks(&bytes[count..], &attributes[count..]) {
        count += 16;
    }
    count
}
