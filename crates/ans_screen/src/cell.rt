//! A half-known cell.

use crate::attr::Attr;

/// What is copied of a cell as a byte.
#[derive(Clone, Copy)]
pub(crate) enum CellByte {
    Glyph,
    Attribute,
}

/// A byte, where it is known, and what is known of its attribute.
#[derive(Debug, Clone, Copy, PartialEq, Eq)]
pub struct HalfCell {
    pub glyph: Option<u8>,
    pub attr: Attr,
}

impl HalfCell {
    ghost use Rattle.std.specs.Prelude.{◌≡◌, Some, None};
    ghost use Rattle.ans_screen.specs.KnownBits.{known_bits};
    ghost use Rattle.ans_screen.specs.HalfCells.{half_cell, is_known, glyph_byte, attribute_byte, byte_of};

    /// A byte and an attribute, both known.
    pub fn known(glyph: u8, attr: u8) -> HalfCell
        ensures { result ≡ half_cell (Some glyph) (known_bits 0xFF attr) }
    {
        HalfCell {
            glyph: Some(glyph),
            attr: Attr::whole(attr),
        }
    }

    /// A cell of which nothing is known.
    pub fn unknown() -> HalfCell
        ensures { result ≡ half_cell None (known_bits 0x00 0x00) }
    {
        HalfCell {
            glyph: None,
            attr: Attr::none(),
        }
    }

    /// Whether the byte and all bits of the attribute are known.
    pub fn is_known(self) -> bool
        ensures { result ≡ is_known self }
    {
        self.glyph.is_some() && self.attr.is_known()
    }

    /// The byte, or 0 where it is not known.
    pub fn glyph_byte(self) -> u8
        ensures { result ≡ glyph_byte self }
    {
        self.glyph.unwrap_or(0)
    }

    /// The attribute's value, in which each bit that is not known is 0.
    pub fn attribute_byte(self) -> u8
        ensures { result ≡ attribute_byte self }
    {
        self.attr.value
    }

    pub(crate) fn byte(self, which: CellByte) -> u8
        ensures { result ≡ byte_of which self }
    {
        match which {
            CellByte::Glyph => self.glyph_byte(),
            CellByte::Attribute => self.attribute_byte(),
        }
    }
}
