//! How runs begin and bytes are shown in a markup, in tables.
ghost use Rattle.std.specs.Prelude.{◌≡◌, ◌==◌, ◌+◌, ◌*◌, ◌≤◌, ◌<◌, [], ◌++◌, length, take, if◌then◌else◌};
ghost use Rattle.std.specs.List.{flat_map};
ghost use Rattle.std.specs.Simd.Lanes.{zip2};
ghost use Rattle.ans_model.specs.Screen.State.{cell};
ghost use Rattle.ans_write.specs.Puts.{Puts};
ghost use Rattle.ans_write.specs.Tables.{byte_text};
ghost use Rattle.ans_show.specs.MarkupTables.{IsTableOf, cells_shown};
ghost use Rattle.ans_show.specs.Markups.{break_in, character_in};
ghost use Rattle.ans_show.specs.PageText.{page_character};
ghost use Rattle.ans_show.specs.ShortTexts.{short_bytes};

use crate::markup::Markup;
use crate::page::span_break;
use crate::short_text::ShortText;
use crate::terminal::colours;
use ans_write::{Outbox, glyph_text};
use std::io::Write;

/// How many bytes are written for a cell at most: 48 where a run begins, and 8 for a character.
pub(crate) const CELL: usize = 48 + 8;

/// What is written where a run begins.
pub(crate) type Break = ShortText<48>;

/// A character, or its name on a page.
type Character = ShortText<8>;

/// What no attribute is.
const NO_ATTRIBUTE: usize = 256;

/// What is written where a run begins after another, by its attribute, and the character of each
/// byte.
#[derive(Drop)]
pub(crate) struct MarkupTables {
    pub(crate) markup: Markup,
    pub(crate) breaks: [Break; 256],
    pub(crate) characters: [Character; 256],
    ghost broken: { IsTableOf (break_in markup) breaks },
    ghost shown: { IsTableOf (character_in markup) characters },
}

impl MarkupTables {
    pub(crate) fn new(markup: Markup) -> MarkupTables
        ensures { result.markup ≡ markup }
    {
        let mut breaks = [run_break(markup, 0); 256];
        let mut characters = [character(markup, 0); 256];
        for byte in 0..256 {
            breaks[byte] = run_break(markup, byte as u8);
            characters[byte] = character(markup, byte as u8);
        }
        MarkupTables {
            markup,
            breaks,
            characters,
        }
    }

    /// Writes to a text from `end` on what comes before a cell, after one of the attribute `last`, and
    /// returns where that ends.
    #[inline(always)]
    fn write_break(&self, last: usize, attribute: u8, text: &mut [u8], end: usize) -> usize
        requires { end + 48 ≤ length text.old }
        ensures within { result ≤ end + 48 }
        ensures length { length text.new ≡ length text.old }
        ensures text { take result text.new
            ≡ take end text.old ++ (if last == attribute then [] else break_in self.now.markup attribute) }
    {
        if last == attribute as usize {
            return end;
        }
        self.breaks[attribute as usize].write_to(text, end)
    }

    /// Writes to a text from `end` on the character of a byte, and returns where that ends.
    #[inline(always)]
    fn write_character(&self, byte: u8, text: &mut [u8], end: usize) -> usize
        requires { end + 8 ≤ length text.old }
        ensures within { result ≤ end + 8 }
        ensures length { length text.new ≡ length text.old }
        ensures text { take result text.new ≡ take end text.old ++ character_in self.now.markup byte }
    {
        self.characters[byte as usize].write_to(text, end)
    }

    /// Writes the cells of a row to the start of a text, and returns where they end. Each run, even the
    /// first, begins as if another came before it; after the last nothing is written.
    pub(crate) fn write_row(&self, bytes: &[u8], attributes: &[u8], text: &mut [u8]) -> usize
        requires same { length attributes.now ≡ length bytes.now }
        requires room { 56 * length bytes.now ≤ length text.old }
        ensures within { result ≤ length text.new }
        ensures length { length text.new ≡ length text.old }
        ensures text { take result text.new
            ≡ cells_shown self.now.markup 256 (zip2 cell bytes.now attributes.now) }
    {
        let mut end = 0;
        let mut last = NO_ATTRIBUTE;
        for i in 0..bytes.len() {
            let behind = self.write_break(last, attributes[i], text, end);
            end = self.write_character(bytes[i], text, behind);
            last = attributes[i] as usize;
        }
        end
    }

    /// Puts the characters of bytes.
    pub(crate) fn put_characters<W: Write>(&self, out: &mut Outbox<'_, W>, bytes: &[u8])
        ensures { Puts W.contents out.old out.new (flat_map (character_in self.now.markup) bytes.now) }
    {
        for byte in bytes {
            let character = &self.characters[*byte as usize];
            out.put(&character.bytes[..character.count]);
        }
    }
}

fn spelled(text: &[u8]) -> Character
    requires { length text.now ≤ 8 }
    ensures { short_bytes result ≡ text.now }
{
    Character::empty().then(text)
}

fn utf8_character(byte: u8) -> Character
    ensures { short_bytes result ≡ byte_text byte }
{
    let mut buffer = [0; 4];
    spelled(glyph_text(byte).encode_utf8(&mut buffer).as_bytes())
}

fn page_character(byte: u8) -> Character
    ensures { short_bytes result ≡ page_character byte }
{
    match byte {
        b'&' => spelled(b"&amp;"),
        b'<' => spelled(b"&lt;"),
        b'>' => spelled(b"&gt;"),
        b'"' => spelled(b"&quot;"),
        b'\'' => spelled(b"&apos;"),
        _ => utf8_character(byte),
    }
}

fn character(markup: Markup, byte: u8) -> Character
    ensures { short_bytes result ≡ character_in markup byte }
{
    match markup {
        Markup::Terminal { .. } => utf8_character(byte),
        Markup::Page { .. } => page_character(byte),
    }
}

fn run_break(markup: Markup, attribute: u8) -> Break
    ensures { short_bytes result ≡ break_in markup attribute }
{
    match markup {
        Markup::Terminal { vga, non_blink } => colours(attribute, non_blink, vga),
        Markup::Page { non_blink } => span_break(attribute, non_blink),
    }
}
