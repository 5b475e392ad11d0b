//! Planes of bytes, one a cell.

ghost use Rattle.std.specs.Prelude.{◌≡◌, ◌↔◌, ◌+◌, ◌-◌, ◌*◌, ◌≤◌, ◌++◌, length, take, drop};
ghost use Rattle.std.specs.Prelude.{ℕ, ◌<◌, IsTrue, slice_index, unwrap_or, bit_and};
ghost use Rattle.ans_model.specs.Screen.Step.{filled};
ghost use Rattle.ans_screen.specs.GridEdits.{written};
ghost use Rattle.ans_screen.specs.CellPlanes.{glyph_of, cell_of, known_byte, AreKnown, IsFirstGap};

use crate::attr::Attr;
use crate::cell::{CellByte, HalfCell};
use std::simd::prelude::*;

/// A cell's byte in each plane.
#[derive(Drop)]
pub(crate) struct CellBytes {
    pub(crate) glyph: u8,
    pub(crate) glyph_known: u8,
    pub(crate) bits_known: u8,
    pub(crate) value: u8,
}

impl CellBytes {
    pub(crate) fn known(glyph: u8, value: u8) -> CellBytes
        ensures { cell_of result.glyph result.glyph_known result.bits_known result.value
            ≡ cell_of glyph 0xFF 0xFF value }
    {
        CellBytes {
            glyph,
            glyph_known: 0xFF,
            bits_known: 0xFF,
            value,
        }
    }

    pub(crate) fn of_cell(cell: HalfCell) -> CellBytes
        ensures { cell_of result.glyph result.glyph_known result.bits_known result.value ≡ cell }
    {
        let (glyph, glyph_known) = bytes_of_glyph(cell.glyph);
        CellBytes {
            glyph,
            glyph_known,
            bits_known: cell.attr.known,
            value: cell.attr.value,
        }
    }

    pub(crate) fn is_known(&self) -> bool
        ensures { IsTrue result ↔ ((self.now.glyph_known ≡ 0xFF) × (self.now.bits_known ≡ 0xFF)) }
    {
        self.glyph_known == 0xFF && self.bits_known == 0xFF
    }
}

/// The bytes that stand for a glyph: itself, and whether it is known.
fn bytes_of_glyph(glyph: Option<u8>) -> (u8, u8)
    ensures { glyph_of result.0 result.1 ≡ glyph }
{
    match glyph {
        Some(byte) => (byte, 0xFF),
        None => (0x00, 0x00),
    }
}

#[inline(always)]
pub(crate) fn cell_of_bytes(bytes: CellBytes) -> HalfCell
    ensures { result ≡ cell_of bytes.glyph bytes.glyph_known bytes.bits_known bytes.value }
{
    HalfCell {
        glyph: if bytes.glyph_known == 0xFF {
            Some(bytes.glyph)
        } else {
            None
        },
        attr: Attr {
            known: bytes.bits_known,
            value: bytes.value & bytes.bits_known,
        },
    }
}

#[inline(always)]
fn blend(place: &mut [u8], new: u8x16, count: usize)
    requires lanes { length new ≡ 16 }
    requires place { length place.old ≡ 16 }
    requires count { count ≤ 16 }
    ensures { place.new ≡ take count new ++ drop count place.old }
{
    let old = u8x16::from_slice(place);
    let lanes = u8x16::from_array([0, 1, 2, 3, 4, 5, 6, 7, 8, 9, 10, 11, 12, 13, 14, 15]);
    let written = lanes.simd_lt(u8x16::splat(count as u8));
    written.select(new, old).copy_to_slice(place);
}

#[inline(always)]
fn blend_at(bytes: &mut [u8], from: usize, new: u8x16, count: usize)
    requires lanes { length new ≡ 16 }
    requires count { count ≤ 16 }
    requires within { from + 16 ≤ length bytes.old }
    ensures { bytes.new ≡ written bytes.old from (take count new) }
{
    blend(&mut bytes[from..from + 16], new, count);
}

/// A fill of 16 bytes at the most.
#[inline(always)]
pub(crate) fn blend_fill(plane: &mut [u8], from: usize, to: usize, byte: u8)
    requires ordered { from ≤ to }
    requires short { to - from ≤ 16 }
    requires lanes { from + 16 ≤ length plane.old }
    ensures items { plane.new ≡ filled plane.old from to byte }
    ensures len { length plane.new ≡ length plane.old }
{
    blend_at(plane, from, u8x16::splat(byte), to - from);
}

/// A run of 16 bytes at the most.
#[inline(always)]
pub(crate) fn blend_run(plane: &mut [u8], from: usize, bytes: &[u8], count: usize)
    requires count { count ≤ 16 }
    requires bytes { 16 ≤ length bytes.now }
    requires lanes { from + 16 ≤ length plane.old }
    ensures items { plane.new ≡ written plane.old from (take count bytes.now) }
    ensures len { length plane.new ≡ length plane.old }
{
    blend_at(plane, from, u8x16::from_slice(bytes), count);
}

/// A short fill is a blend, since a call that fills memory costs more than it.
#[inline(always)]
pub(crate) fn fill_bytes(plane: &mut [u8], from: usize, to: usize, byte: u8)
    requires ordered { from ≤ to }
    requires within { to ≤ length plane.old }
    ensures items { plane.new ≡ filled plane.old from to byte }
    ensures len { length plane.new ≡ length plane.old }
{
    if to - from <= 16 && plane.len() - from >= 16 {
        blend_fill(plane, from, to, byte);
    } else {
        plane[from..to].fill(byte);
    }
}

/// A short run is two blends, since a call that copies memory costs more than they do.
#[inline(always)]
pub(crate) fn write_bytes(
    glyphs: &mut [u8],
    values: &mut [u8],
    from: usize,
    bytes: &[u8],
    count: usize,
    value: u8,
)
    requires count { count ≤ length bytes.now }
    requires within { from + count ≤ length glyphs.old }
    requires level { length values.old ≡ length glyphs.old }
    ensures glyphs { glyphs.new ≡ written glyphs.old from (take count bytes.now) }
    ensures glyphs_len { length glyphs.new ≡ length glyphs.old }
    ensures values { values.new ≡ filled values.old from (from + count) value }
    ensures values_len { length values.new ≡ length values.old }
{
    // in one branch, so that the compiler can make one mask for both
    if count <= 16 && bytes.len() >= 16 && glyphs.len() - from >= 16 {
        blend_run(glyphs, from, bytes, count);
        blend_fill(values, from, from + count, value);
    } else {
        glyphs[from..from + count].copy_from_slice(&bytes[..count]);
        values[from..from + count].fill(value);
    }
}

#[inline(always)]
fn is_known_chunk(glyphs_known: u8x32, bits_known: u8x32) -> bool
    ensures { IsTrue result ↔ AreKnown glyphs_known bits_known 32 }
{
    let known = glyphs_known & bits_known;
    known.simd_ne(u8x32::splat(0xFF)).to_bitmask() == 0
}

/// How many cells the leading known chunks have, each of 32 cells below `to`.
fn known_chunks(glyphs_known: &[u8], bits_known: &[u8], to: usize) -> usize
    requires glyphs_known { to ≤ length glyphs_known.now }
    requires bits_known { to ≤ length bits_known.now }
    ensures within { result ≤ to }
    ensures known { AreKnown glyphs_known.now bits_known.now result }
    ensures longest { result + 32 ≤ to
        → AreKnown glyphs_known.now bits_known.now (result + 32) → ⊥ }
{
    let (glyph_chunks, _) = glyphs_known.as_chunks::<32>();
    let (bit_chunks, _) = bits_known.as_chunks::<32>();
    for i in 0..to / 32 {
        let glyphs_known = u8x32::from_slice(&glyph_chunks[i]);
        let bits_known = u8x32::from_slice(&bit_chunks[i]);
        if !is_known_chunk(glyphs_known, bits_known) {
            return 32 * i;
        }
    }
    to / 32 * 32
}

pub(crate) fn first_gap(glyphs_known: &[u8], bits_known: &[u8], to: usize) -> Option<usize>
    requires glyphs_known { to ≤ length glyphs_known.now }
    requires bits_known { to ≤ length bits_known.now }
    ensures { IsFirstGap glyphs_known.now bits_known.now to result }
{
    for i in known_chunks(glyphs_known, bits_known, to)..to {
        if glyphs_known[i] != 0xFF || bits_known[i] != 0xFF {
            return Some(i);
        }
    }
    None
}

fn copy_known_glyphs(glyphs: &[u8], glyphs_known: &[u8], copied: &mut [u8])
    requires glyphs { length glyphs.now ≡ length copied.old }
    requires glyphs_known { length glyphs_known.now ≡ length copied.old }
    ensures { (k : ℕ) → k < length copied.old → slice_index copied.new k
        ≡ unwrap_or (glyph_of (slice_index glyphs.now k) (slice_index glyphs_known.now k)) 0 }
{
    for i in 0..copied.len() {
        copied[i] = if glyphs_known[i] == 0xFF {
            glyphs[i]
        } else {
            0
        };
    }
}

fn copy_known_bits(values: &[u8], bits_known: &[u8], copied: &mut [u8])
    requires values { length values.now ≡ length copied.old }
    requires bits_known { length bits_known.now ≡ length copied.old }
    ensures { (k : ℕ) → k < length copied.old → slice_index copied.new k
        ≡ bit_and (slice_index values.now k) (slice_index bits_known.now k) }
{
    for i in 0..copied.len() {
        copied[i] = values[i] & bits_known[i];
    }
}

pub(crate) fn copy_known(which: CellByte, shown: &[u8], known: &[u8], copied: &mut [u8])
    requires shown { length shown.now ≡ length copied.old }
    requires known { length known.now ≡ length copied.old }
    ensures { (k : ℕ) → k < length copied.old → slice_index copied.new k
        ≡ known_byte which (slice_index shown.now k) (slice_index known.now k) }
{
    match which {
        CellByte::Glyph => copy_known_glyphs(shown, known, copied),
        CellByte::Attribute => copy_known_bits(shown, known, copied),
    }
}
