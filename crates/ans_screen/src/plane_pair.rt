//! Two planes of bytes, held from the front as far as cells were written.

ghost use Rattle.std.specs.Prelude.{◌≡◌, ◌+◌, ◌<◌, ◌≤◌, ℕ, length, take, replicate, slice_index};
ghost use Rattle.std.specs.Prelude.{vec_capacity, IfOk, IsTrue};
ghost use Rattle.ans_model.specs.Screen.Step.{filled};
ghost use Rattle.ans_screen.specs.CellPlanes.{with_zeros, IsFront};
ghost use Rattle.ans_screen.specs.GridEdits.{written};

use crate::planes::{blend_fill, blend_run, fill_bytes, write_bytes};
use std::alloc::{AllocError, Global};

/// How many bytes more of each plane are held at the least, as far as it goes.
const STEP: usize = 0x10000;

/// A plane of glyphs and one of attributes. The same number of bytes of each is held, and each byte after them is 00h.
#[derive(Drop)]
pub(crate) struct PlanePair {
    glyphs: Vec<u8>,
    attributes: Vec<u8>,
    // how many bytes of each are not held: there is room for them
    zeros: usize,
    ghost level: { length attributes.items ≡ length glyphs.items },
    ghost glyphs_room: { length glyphs.items + zeros ≤ vec_capacity glyphs },
    ghost attributes_room: { length attributes.items + zeros ≤ vec_capacity attributes },
}

/// The vector has the room, so this cannot fail.
fn hold_zeros(bytes: &mut Vec<u8>, more: usize)
    requires { length bytes.old.items + more ≤ vec_capacity bytes.old }
    ensures items { bytes.new.items ≡ with_zeros bytes.old.items more }
    ensures room { vec_capacity bytes.old ≤ vec_capacity bytes.new }
{
    bytes.resize(bytes.len() + more, 0x00).unwrap();
}

impl PlanePair {
    /// None of the bytes is held.
    pub(crate) fn new(alloc: Global, size: usize) -> Result<PlanePair, AllocError>
        ensures glyphs { IfOk result (λ pair. with_zeros pair.glyphs.items pair.zeros ≡ replicate size 0) }
        ensures attributes { IfOk result (λ pair. with_zeros pair.attributes.items pair.zeros ≡ replicate size 0) }
    {
        Ok(PlanePair {
            glyphs: Vec::with_capacity(alloc, size)?,
            attributes: Vec::with_capacity(alloc, size)?,
            zeros: size,
        })
    }

    /// Holds the bytes before `to`, and 16 after them as far as the planes go.
    #[cold]
    #[inline(never)]
    fn hold(&mut self, to: usize)
        requires { to ≤ length (with_zeros self.old.glyphs.items self.old.zeros) }
        ensures held { to ≤ length self.new.glyphs.items }
        ensures glyphs { with_zeros self.new.glyphs.items self.new.zeros
            ≡ with_zeros self.old.glyphs.items self.old.zeros }
        ensures attributes { with_zeros self.new.attributes.items self.new.zeros
            ≡ with_zeros self.old.attributes.items self.old.zeros }
    {
        let needed = to.saturating_add(16).saturating_sub(self.glyphs.len());
        let more = needed.max(STEP).min(self.zeros);
        hold_zeros(&mut self.glyphs, more);
        hold_zeros(&mut self.attributes, more);
        self.zeros -= more;
    }

    /// The same, where they are not held yet.
    #[inline(always)]
    fn reach(&mut self, to: usize)
        requires { to ≤ length (with_zeros self.old.glyphs.items self.old.zeros) }
        ensures held { to ≤ length self.new.glyphs.items }
        ensures glyphs { with_zeros self.new.glyphs.items self.new.zeros
            ≡ with_zeros self.old.glyphs.items self.old.zeros }
        ensures attributes { with_zeros self.new.attributes.items self.new.zeros
            ≡ with_zeros self.old.attributes.items self.old.zeros }
    {
        if self.zeros > 0 && self.glyphs.len() < to.saturating_add(16) {
            self.hold(to);
        }
    }

    /// Whether 16 bytes from this one on are held.
    #[inline(always)]
    fn holds_lanes(&self, from: usize) -> bool
        ensures { IsTrue result → from + 16 ≤ length self.now.glyphs.items }
    {
        self.glyphs.len().saturating_sub(from) >= 16
    }

    #[inline(always)]
    pub(crate) fn fill(&mut self, from: usize, to: usize, glyph: u8, attribute: u8)
        requires ordered { from ≤ to }
        requires within { to ≤ length (with_zeros self.old.glyphs.items self.old.zeros) }
        ensures glyphs { with_zeros self.new.glyphs.items self.new.zeros
            ≡ filled (with_zeros self.old.glyphs.items self.old.zeros) from to glyph }
        ensures attributes { with_zeros self.new.attributes.items self.new.zeros
            ≡ filled (with_zeros self.old.attributes.items self.old.zeros) from to attribute }
    {
        if to - from <= 16 && self.holds_lanes(from) {
            blend_fill(&mut self.glyphs, from, to, glyph);
            blend_fill(&mut self.attributes, from, to, attribute);
        } else {
            self.fill_long(from, to, glyph, attribute);
        }
    }

    #[inline(never)]
    fn fill_long(&mut self, from: usize, to: usize, glyph: u8, attribute: u8)
        requires ordered { from ≤ to }
        requires within { to ≤ length (with_zeros self.old.glyphs.items self.old.zeros) }
        ensures glyphs { with_zeros self.new.glyphs.items self.new.zeros
            ≡ filled (with_zeros self.old.glyphs.items self.old.zeros) from to glyph }
        ensures attributes { with_zeros self.new.attributes.items self.new.zeros
            ≡ filled (with_zeros self.old.attributes.items self.old.zeros) from to attribute }
    {
        self.reach(to);
        fill_bytes(&mut self.glyphs, from, to, glyph);
        fill_bytes(&mut self.attributes, from, to, attribute);
    }

    #[inline(always)]
    pub(crate) fn write(&mut self, from: usize, bytes: &[u8], count: usize, attribute: u8)
        requires count { count ≤ length bytes.now }
        requires within { from + count ≤ length (with_zeros self.old.glyphs.items self.old.zeros) }
        ensures glyphs { with_zeros self.new.glyphs.items self.new.zeros
            ≡ written (with_zeros self.old.glyphs.items self.old.zeros) from (take count bytes.now) }
        ensures attributes { with_zeros self.new.attributes.items self.new.zeros
            ≡ filled (with_zeros self.old.attributes.items self.old.zeros) from (from + count) attribute }
    {
        if count <= 16 && bytes.len() >= 16 && self.holds_lanes(from) {
            blend_run(&mut self.glyphs, from, bytes, count);
            blend_fill(&mut self.attributes, from, from + count, attribute);
        } else {
            self.write_long(from, bytes, count, attribute);
        }
    }

    #[inline(never)]
    fn write_long(&mut self, from: usize, bytes: &[u8], count: usize, attribute: u8)
        requires count { count ≤ length bytes.now }
        requires within { from + count ≤ length (with_zeros self.old.glyphs.items self.old.zeros) }
        ensures glyphs { with_zeros self.new.glyphs.items self.new.zeros
            ≡ written (with_zeros self.old.glyphs.items self.old.zeros) from (take count bytes.now) }
        ensures attributes { with_zeros self.new.attributes.items self.new.zeros
            ≡ filled (with_zeros self.old.attributes.items self.old.zeros) from (from + count) attribute }
    {
        self.reach(from + count);
        write_bytes(
            &mut self.glyphs,
            &mut self.attributes,
            from,
            bytes,
            count,
            attribute,
        );
    }

    #[inline(always)]
    pub(crate) fn bytes(&self, i: usize) -> (u8, u8)
        requires { i < length (with_zeros self.now.glyphs.items self.now.zeros) }
        ensures glyph { result.0 ≡ slice_index (with_zeros self.now.glyphs.items self.now.zeros) i }
        ensures attribute { result.1 ≡ slice_index (with_zeros self.now.attributes.items self.now.zeros) i }
    {
        if i < self.glyphs.len() {
            (self.glyphs[i], self.attributes[i])
        } else {
            (0x00, 0x00)
        }
    }

    /// Those glyphs from `from` up to and without `to` that are held.
    pub(crate) fn glyphs(&self, from: usize, to: usize) -> &[u8]
        requires { from ≤ to }
        ensures { IsFront result.now (with_zeros self.now.glyphs.items self.now.zeros) from to }
    {
        held_of(&self.glyphs, from, to)
    }

    /// Those attributes that are held.
    pub(crate) fn attributes(&self, from: usize, to: usize) -> &[u8]
        requires { from ≤ to }
        ensures { IsFront result.now (with_zeros self.now.attributes.items self.now.zeros) from to }
    {
        held_of(&self.attributes, from, to)
    }
}

fn held_of(bytes: &[u8], from: usize, to: usize) -> &[u8]
    requires { from ≤ to }
    ensures { (zeros : ℕ) → IsFront result.now (with_zeros bytes.now zeros) from to }
{
    let to = to.min(bytes.len());
    &bytes[from.min(to)..to]
}
