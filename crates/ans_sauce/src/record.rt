//! The SAUCE record: its fields, and what in it is refused.
ghost use Rattle.std.specs.Prelude.{◌≡◌, ◌+◌, ◌≤◌, ◌<◌, ◌==◌, ◌&&◌, not, nat_lt, length, bytes_eq, codes};
ghost use Rattle.ans_model.specs.Bytes.{most_columns, most_lines};
ghost use Rattle.ans_model.specs.File.Record.{number, field, version_field, title_field, author_field, group_field};
ghost use Rattle.ans_model.specs.File.Record.{date_field, font_field, file_size, data_type, file_type, tinfo, trimmed};
ghost use Rattle.ans_model.specs.File.Record.{comment_count, flags, is_non_blink, letter_spacing, aspect_ratio};
ghost use Rattle.ans_model.specs.File.Record.{stated_width, stated_lines};

use crate::fields::{
    AUTHOR, COMMENT_COUNT, DATA_TYPE, DATE, FILE_SIZE, FILE_TYPE, FLAGS, FONT, GROUP, TINFO_1,
    TITLE, VERSION,
};
use crate::padding::trimmed;
use ans_model::limits::{MAX_LINES, MAX_WIDTH};
use byteorder::{ByteOrder, LittleEndian};

/// The record of a file (SAUCE 00.5, record layout), by its fields. It has 128 bytes. Numbers are
/// unsigned, their least byte first. Texts come without their trailing blanks and zero bytes; a
/// byte of them is a character of code page 437.
#[derive(Debug, Clone, Copy)]
pub struct Record<'a> {
    pub(crate) bytes: &'a [u8],
    pub(crate) ghost whole: { length bytes.now ≡ 128 },
}

impl<'a> Record<'a> {
    ghost use Rattle.ans_sauce.specs.RecordBytes.{sauce_bytes};

    /// The version's two bytes. A record that is accepted has `00`.
    pub(crate) fn version(&self) -> &'a [u8]
        ensures { result.now ≡ version_field (sauce_bytes self.now) }
    {
        self.field(VERSION, 2)
    }

    /// The title, of at most 35 bytes.
    pub fn title(&self) -> &'a [u8]
        ensures { result.now ≡ trimmed (title_field (sauce_bytes self.now)) }
    {
        trimmed(self.field(TITLE, 35))
    }

    /// The author's name, of at most 20 bytes.
    pub fn author(&self) -> &'a [u8]
        ensures { result.now ≡ trimmed (author_field (sauce_bytes self.now)) }
    {
        trimmed(self.field(AUTHOR, 20))
    }

    /// The name of the author's group, of at most 20 bytes.
    pub fn group(&self) -> &'a [u8]
        ensures { result.now ≡ trimmed (group_field (sauce_bytes self.now)) }
    {
        trimmed(self.field(GROUP, 20))
    }

    /// The date, as CCYYMMDD where the record keeps to its layout; `Note::OddDate` says
    /// where it does not.
    pub fn date(&self) -> &'a [u8]
        ensures { result.now ≡ trimmed (date_field (sauce_bytes self.now)) }
    {
        trimmed(self.date_bytes())
    }

    /// The name of the font (TInfoS), of at most 22 bytes.
    pub fn font(&self) -> &'a [u8]
        ensures { result.now ≡ trimmed (font_field (sauce_bytes self.now)) }
    {
        trimmed(self.field(FONT, 22))
    }

    /// The stated size in bytes of the file without its record (FileSize). Nothing else rests on
    /// it; `Note::SizeDiffers` says where it does not fit.
    pub fn file_size(&self) -> u32
        ensures { result ≡ file_size (sauce_bytes self.now) }
    {
        LittleEndian::read_u32(self.field(FILE_SIZE, 4))
    }

    /// The kind of file (DataType). A record that is accepted has 1, Character.
    pub(crate) fn data_type(&self) -> u8
        ensures { result ≡ data_type (sauce_bytes self.now) }
    {
        self.byte(DATA_TYPE)
    }

    /// Which of its kind (FileType). A record that is accepted has 1, ANSi.
    pub(crate) fn file_type(&self) -> u8
        ensures { result ≡ file_type (sauce_bytes self.now) }
    {
        self.byte(FILE_TYPE)
    }

    /// TInfo1 to TInfo4, by their numbers from 1. For Character/ANSi the first is the width in
    /// columns and the second the number of lines.
    pub fn tinfo(&self, i: usize) -> u16
        requires first { 1 ≤ i }
        requires last { i ≤ 4 }
        ensures { result ≡ tinfo i (sauce_bytes self.now) }
    {
        LittleEndian::read_u16(self.field(TINFO_1 - 2 + 2 * i, 2))
    }

    /// How many lines of 64 bytes the comment block has (Comments), from 0 to 255.
    pub fn comment_count(&self) -> u8
        ensures { result ≡ comment_count (sauce_bytes self.now) }
    {
        self.byte(COMMENT_COUNT)
    }

    /// The flags (TFlags, for Character/ANSi the ANSiFlags).
    pub fn flags(&self) -> u8
        ensures { result ≡ flags (sauce_bytes self.now) }
    {
        self.byte(FLAGS)
    }

    /// Whether the flags' bit 0, non-blink, is set: bit 7 of an attribute is then a bright background,
    /// and no blink.
    pub fn is_non_blink(&self) -> bool
        ensures { result ≡ is_non_blink (sauce_bytes self.now) }
    {
        self.flags() % 2 == 1
    }

    /// The flags' bits 1 and 2, the letter spacing: 1 for letters of 8 pixels, 2 for letters of 9, and 0
    /// where nothing is said. 3 has no meaning.
    pub fn letter_spacing(&self) -> u8
        ensures { result ≡ letter_spacing (sauce_bytes self.now) }
    {
        self.flags() / 2 % 4
    }

    /// The flags' bits 3 and 4, the aspect ratio: 1 for pixels to be stretched, 2 for square ones, and 0
    /// where nothing is said. 3 has no meaning.
    pub fn aspect_ratio(&self) -> u8
        ensures { result ≡ aspect_ratio (sauce_bytes self.now) }
    {
        self.flags() / 8 % 4
    }

    /// The stated width in columns (TInfo1). 0 stands for 80. A record that is accepted states at most 1024.
    pub fn width(&self) -> usize
        ensures { result ≡ stated_width (sauce_bytes self.now) }
    {
        match self.tinfo(1) {
            0 => 80,
            width => width as usize,
        }
    }

    /// The stated number of lines (TInfo2). A record that is accepted states 1 to 8192.
    pub fn lines(&self) -> usize
        ensures { result ≡ stated_lines (sauce_bytes self.now) }
    {
        self.tinfo(2) as usize
    }

    pub(crate) fn date_bytes(&self) -> &'a [u8]
        ensures { result.now ≡ date_field (sauce_bytes self.now) }
    {
        self.field(DATE, 8)
    }

    pub(crate) fn is_version_00(&self) -> bool
        ensures { result ≡ bytes_eq (version_field (sauce_bytes self.now)) (codes "00") }
    {
        self.version() == b"00".as_slice()
    }

    /// Whether it is of type Character/ANSi: DataType 1 and FileType 1 (SAUCE 00.5).
    pub fn is_character_ansi(&self) -> bool
        ensures { result ≡ (data_type (sauce_bytes self.now) == 1
            && file_type (sauce_bytes self.now) == 1) }
    {
        self.data_type() == 1 && self.file_type() == 1
    }

    pub(crate) fn states_no_lines(&self) -> bool
        ensures { result ≡ (tinfo 2 (sauce_bytes self.now) == 0) }
    {
        self.tinfo(2) == 0
    }

    pub(crate) fn is_too_wide(&self) -> bool
        ensures { result ≡ nat_lt most_columns (tinfo 1 (sauce_bytes self.now)) }
    {
        self.tinfo(1) as usize > MAX_WIDTH
    }

    pub(crate) fn is_too_long(&self) -> bool
        ensures { result ≡ nat_lt most_lines (tinfo 2 (sauce_bytes self.now)) }
    {
        self.tinfo(2) as usize > MAX_LINES
    }

    fn byte(&self, offset: usize) -> u8
        requires { offset < 128 }
        ensures { result ≡ number (field offset 1 (sauce_bytes self.now)) }
    {
        self.bytes[offset]
    }

    fn field(&self, offset: usize, size: usize) -> &'a [u8]
        requires { offset + size ≤ 128 }
        ensures bytes { result.now ≡ field offset size (sauce_bytes self.now) }
        ensures size { length result.now ≡ size }
    {
        &self.bytes[offset..offset + size]
    }
}
