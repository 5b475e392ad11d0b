//! How bytes are shown, in tables.
ghost use Rattle.std.specs.Prelude.{◌≡◌, ◌≤◌, ◌*◌, length, take};
ghost use Rattle.std.specs.List.{flat_map};
ghost use Rattle.std.specs.Simd.Lanes.{zip2};
ghost use Rattle.ans_model.specs.Screen.State.{cell};
ghost use Rattle.ans_model.specs.Text.Characters.{shown_bytes};
ghost use Rattle.ans_model.specs.Text.ReportText.{cell_digits};
ghost use Rattle.ans_write.specs.Tables.{TellsBytes};

use crate::character_table::CharacterTable;
use crate::hexadecimal::hex_byte;

/// The character and the digits of each byte. With them a long text is written without a call for
/// each byte.
#[derive(Drop)]
pub struct Tables {
    characters: CharacterTable,
    pub(crate) digits: [[u8; 2]; 256],
    ghost told: { TellsBytes digits },
}

impl Tables {
    /// Makes the tables.
    pub fn new() -> Tables {
        Tables {
            characters: CharacterTable::new(),
            digits: digit_table(),
        }
    }

    /// Writes the characters of bytes to the start of a text in UTF-8, up to four bytes for each, and
    /// returns where they end. After them the text may be anything.
    pub fn write_characters(&self, bytes: &[u8], text: &mut [u8]) -> usize
        requires { 4 * length bytes.now ≤ length text.old }
        ensures within { result ≤ 4 * length bytes.now }
        ensures text { take result text.new ≡ shown_bytes bytes.now }
    {
        self.characters.write(bytes, text)
    }

    /// Writes the digits of cells to the start of a text, four for each: two for its byte, then two
    /// for its attribute. After them the text may be anything.
    pub fn write_digits(&self, bytes: &[u8], attributes: &[u8], text: &mut [u8])
        requires same { length attributes.now ≡ length bytes.now }
        requires room { 4 * length bytes.now ≤ length text.old }
        ensures { take (4 * length bytes.now) text.new
            ≡ flat_map cell_digits (zip2 cell bytes.now attributes.now) }
    {
        for i in 0..bytes.len() {
            text[4 * i..4 * i + 2].copy_from_slice(&self.digits[bytes[i] as usize]);
            text[4 * i + 2..4 * i + 4].copy_from_slice(&self.digits[attributes[i] as usize]);
        }
    }
}

fn digit_table() -> [[u8; 2]; 256]
    ensures { TellsBytes result }
{
    let mut table = [[0; 2]; 256];
    for byte in 0..256 {
        table[byte] = hex_byte(byte as u8);
    }
    table
}
