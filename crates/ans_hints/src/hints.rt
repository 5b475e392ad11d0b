//! The hints of a content.

ghost use Rattle.std.specs.Prelude.{◌≡◌, ◌≤◌, ℕ, List, length, take, drop};
ghost use Rattle.ans_model.specs.Bytes.{longest_file};
ghost use Rattle.ans_model.specs.Sequence.TokenKind.{TokenKind};
ghost use Rattle.ans_model.specs.Sequence.Reads.{ReadsAs};
ghost use Rattle.ans_hints.specs.Hints.{AreHints, are_torn, much_dark};

use crate::row::Row;
use crate::row_ends::RowEnds;
use crate::walk::Walk;
use ans_model::size::Size;
use ans_pens::pen::Pen;
use ans_pens::times::{Times, count_of};

/// What is worth a hint, in the play from the cleared start. None, or 0 rows, is no hint.
#[derive(Debug, Clone, Copy, PartialEq, Eq)]
pub struct Hints {
    /// Line feeds that come with the cursor not in the first column, and that no return follows. They do not
    /// count if a return, a restored place or a place comes before the next byte that is printed.
    pub loose_line_feeds: Option<Times>,
    /// What the ends of the rows tell.
    pub row_ends: RowEnds,
    /// Characters of UTF-8 in three or four bytes.
    pub wide_characters: Option<Times>,
    /// Letters of Latin-1 in two bytes of UTF-8, after a letter.
    pub two_byte_letters: Option<Times>,
    /// The letters ä è é ê ñ ò ó ô ö ü of Latin-1 in one byte, after a letter and before a small one.
    pub latin_letters: Option<Times>,
    /// Colour codes of programs for bulletin boards, `|07` and `@X1F`, that are printed.
    pub board_codes: Option<Times>,
    /// Sequences with colours that only later terminals know.
    pub later_colours: Option<Times>,
    /// Sequences with 22, 27, 39 or 49, by which only later terminals switch something off, and with none of those
    /// colours.
    pub off_switches: Option<Times>,
    /// Glyphs that blink.
    pub blinking_glyphs: Option<Times>,
    /// Glyphs that are seen: all but 20h, 00h and FFh. They are no hint and have no line.
    pub seen_glyphs: Option<Times>,
    /// Glyphs that are seen and are dark grey on black, attribute 08h.
    pub dark_glyphs: Option<Times>,
    /// How many lines of the given size lie below all that is printed.
    pub empty_rows: usize,
}

impl Hints {
    /// The hints of the first bytes of a content, as many as `end` says, which are read as tokens: of
    /// all of a content, or of a refused one up to the end of the offending token, or up to the sequence
    /// that means nothing. The bytes after them decide what the last tokens are. If these bytes are not
    /// read as tokens, nothing is promised. Offsets are in bytes from the content's start. Glyphs that
    /// blink are none if the record sets the non-blink flag. It takes no memory, and reads the bytes
    /// once.
    pub fn of(size: Size, non_blink: bool, content: &[u8], end: usize) -> Hints
        requires length { length content.now ≤ longest_file }
        requires end { end ≤ length content.now }
        ensures { (tokens : List TokenKind) (texts : List (List ℕ))
            → ReadsAs (take end content.now) tokens texts
            → AreHints size non_blink tokens texts (drop end content.now) result }
    {
        let mut walk = Walk::begun(size, non_blink);
        let _ = ans_tokens::walk(content, end, &mut walk);
        walk.hints
    }

    /// The glyphs that are dark grey on black, if they are more than a tenth of those that are seen.
    pub fn much_dark(&self) -> Option<Times>
        ensures { result ≡ much_dark self.now }
    {
        let tenth = count_of(self.seen_glyphs) / 10;
        if tenth < count_of(self.dark_glyphs) {
            self.dark_glyphs
        } else {
            None
        }
    }

    /// Whether the rows are broken, so that more lines would keep a drawing that nobody meant: line
    /// feeds go straight down and there is no return; every full row that something is printed after has
    /// a line end after it, and there are at least two of these; the rows are those of a drawing for
    /// more columns; or characters are in three or four bytes of UTF-8.
    pub fn are_torn(&self) -> bool
        ensures { result ≡ are_torn self.now }
    {
        (self.loose_line_feeds.is_some() && !self.row_ends.returns)
            || self.row_ends.are_all_ended()
            || self.row_ends.wider_rows().is_some()
            || self.wide_characters.is_some()
    }
}
