//! The characters of bytes in UTF-8, in a table.
ghost use Rattle.std.specs.Prelude.{◌≡◌, ◌+◌, ◌<◌, ◌≤◌, ◌*◌, ◌++◌, IsTrue, All, length, take};
ghost use Rattle.ans_model.specs.Text.Characters.{shown_bytes};
ghost use Rattle.ans_write.specs.Tables.{byte_text, spelling, IsAscii, ShowsBytes};

use crate::characters::glyph_text;
use crate::utf8::Utf8Character;
use std::simd::prelude::*;

/// How many bytes are written at once where each is its own character.
const CHUNK: usize = 16;

/// Whether 16 bytes all are from 20h to 7Eh.
#[inline(always)]
fn are_ascii(bytes: &[u8]) -> bool
    requires { length bytes.now ≡ 16 }
    ensures { IsTrue result → All IsAscii bytes.now }
{
    let lanes = u8x16::from_slice(bytes);
    let low = lanes.simd_lt(u8x16::splat(0x20)).to_bitmask();
    let high = lanes.simd_gt(u8x16::splat(0x7E)).to_bitmask();
    low == 0 && high == 0
}

/// The character of each byte: of its four bytes the first spell it, as many as its count says.
#[derive(Drop)]
pub(crate) struct CharacterTable {
    bytes: [[u8; 4]; 256],
    counts: [usize; 256],
    ghost shown: { ShowsBytes bytes counts },
}

impl CharacterTable {
    pub(crate) fn new() -> CharacterTable {
        let mut bytes = [[0; 4]; 256];
        let mut counts = [0; 256];
        for byte in 0..256 {
            let Utf8Character { bytes: four, count } = utf8_character(byte as u8);
            bytes[byte] = four;
            counts[byte] = count;
        }
        CharacterTable { bytes, counts }
    }

    /// Writes the characters of bytes to the start of a text, and returns where they end.
    pub(crate) fn write(&self, bytes: &[u8], text: &mut [u8]) -> usize
        requires { 4 * length bytes.now ≤ length text.old }
        ensures within { result ≤ 4 * length bytes.now }
        ensures text { take result text.new ≡ shown_bytes bytes.now }
    {
        let mut from = 0;
        let mut end = 0;
        while bytes.len() - from >= CHUNK {
            end = self.write_chunk(&bytes[from..from + CHUNK], text, end);
            from += CHUNK;
        }
        self.write_each(&bytes[from..], text, end)
    }

    /// Writes the characters of 16 bytes from `start` on, and returns where they end.
    #[inline(always)]
    fn write_chunk(&self, bytes: &[u8], text: &mut [u8], start: usize) -> usize
        requires chunk { length bytes.now ≡ 16 }
        requires room { start + 64 ≤ length text.old }
        ensures length { length text.new ≡ length text.old }
        ensures within { result ≤ start + 64 }
        ensures text { take result text.new ≡ take start text.old ++ shown_bytes bytes.now }
    {
        if are_ascii(bytes) {
            text[start..start + CHUNK].copy_from_slice(bytes);
            start + CHUNK
        } else {
            self.write_each(bytes, text, start)
        }
    }

    /// Writes the characters of bytes from `start` on, and returns where they end.
    #[inline(always)]
    fn write_each(&self, bytes: &[u8], text: &mut [u8], start: usize) -> usize
        requires { start + 4 * length bytes.now ≤ length text.old }
        ensures length { length text.new ≡ length text.old }
        ensures within { result ≤ start + 4 * length bytes.now }
        ensures text { take result text.new ≡ take start text.old ++ shown_bytes bytes.now }
    {
        let mut end = start;
        for byte in bytes {
            let byte = *byte as usize;
            text[end..end + 4].copy_from_slice(&self.bytes[byte]);
            end += self.counts[byte];
        }
        end
    }
}

fn utf8_character(byte: u8) -> Utf8Character
    ensures { spelling result ≡ byte_text byte }
{
    let mut buffer = [0; 4];
    let text = glyph_text(byte).encode_utf8(&mut buffer).as_bytes();
    let mut bytes = [0; 4];
    let count = text.len();
    bytes[..count].copy_from_slice(text);
    Utf8Character { bytes, count }
}
