//! A walk over the tokens of a content that finds its hints.

ghost use Rattle.std.specs.Prelude.{◌≡◌, ◌+◌, ◌-◌, ◌<◌, ◌≤◌, ◌&&◌, ◌||◌, ◌==◌, ℕ, List, true, false, length};
ghost use Rattle.std.specs.Prelude.{min, not, slice_index};
ghost use Rattle.ans_model.specs.Bytes.{longest_file};
ghost use Rattle.ans_model.specs.Sequence.TokenKind.{Colours, Glyph, LineFeed};
ghost use Rattle.ans_model.specs.Screen.Attribute.{attribute_after_all};
ghost use Rattle.ans_model.specs.Screen.State.{State};
ghost use Rattle.ans_model.specs.Inside.ShownKind.{shown_kind};
ghost use Rattle.ans_hints.specs.Conditions.{begins_with_pipe_number, begins_with_two_byte_letter, is_latin_letter};
ghost use Rattle.ans_hints.specs.Conditions.{begins_with_x_number, is_later_colour, is_letter, is_off_switch};
ghost use Rattle.ans_hints.specs.Conditions.{is_small_letter};
ghost use Rattle.std.specs.List.{list_any};
ghost use Rattle.ans_pens.specs.Counted.{count_of, counted};
ghost use Rattle.ans_pens.specs.Pens.{glyph_wraps, pen_of};
ghost use Rattle.ans_hints.specs.RowEnds.{is_stuck, with_glyph, CountsRows};
ghost use Rattle.ans_hints.specs.Walks.{CountsWithin, GoesOver, HasWalked, IsAt, StaysInRow, hints_past, hints_with};
ghost use Rattle.ans_hints.specs.Walks.{loose_before_with, walk_past};
ghost use Rattle.ans_tokens.specs.Walk.{no_front};

use crate::conditions::{
    begins_with_latin_letter, begins_with_pipe_number, begins_with_two_byte_letter,
    begins_with_wide, begins_with_x_number, has_later_colour, has_modern, has_off_switch,
    is_letter, is_seen, may_be_foreign,
};
use crate::hints::Hints;
use crate::row::Row;
use crate::row_ends::RowEnds;
use crate::seen::{count_dark, count_seen};
use ans_model::attribute::attribute_after_all;
use ans_model::kind::Kind;
use ans_model::size::Size;
use ans_pens::pen::Pen;
use ans_pens::times::{Times, count, count_times};
use ans_tokens::{ColourSequence, Token, Walker};

/// A play from the cleared start without its screen, and the hints of its tokens so far.
#[derive(Clone, Copy)]
pub(crate) struct Walk {
    pub(crate) size: Size,
    pub(crate) non_blink: bool,
    pub(crate) pen: Pen,
    pub(crate) row: Row,
    /// Those of the loose line feeds that something was printed after.
    pub(crate) loose_before: Option<Times>,
    pub(crate) hints: Hints,
}

impl Walk {
    /// Before the first token.
    pub(crate) fn begun(size: Size, non_blink: bool) -> Walk
        ensures at { IsAt result 0 }
        ensures walked { (content : List ℕ) → HasWalked result (no_front content) true result }
        ensures size { result.size ≡ size }
        ensures non_blink { result.non_blink ≡ non_blink }
    {
        Walk {
            size,
            non_blink,
            pen: Pen::cleared(),
            row: Row::FIRST,
            loose_before: None,
            hints: Hints {
                loose_line_feeds: None,
                row_ends: RowEnds::none(size.width()),
                wide_characters: None,
                two_byte_letters: None,
                latin_letters: None,
                board_codes: None,
                later_colours: None,
                off_switches: None,
                blinking_glyphs: None,
                seen_glyphs: None,
                dark_glyphs: None,
                empty_rows: size.lines(),
            },
        }
    }

    fn line_feed(&mut self, offset: usize, behind: &[u8])
        requires room { offset < longest_file }
        requires at { IsAt self.old offset }
        ensures within { CountsWithin self.new.hints (offset + 1) }
        ensures kept { self.new ≡ record self.old { hints = self.new.hints } }
        ensures hints { (s : State) → self.old.pen ≡ pen_of s
            → self.new.hints ≡ hints_with self.old s offset LineFeed behind.now }
    {
        let comes = self.pen.cursor.column != 0 && !behind.starts_with(b"\r");
        count(&mut self.hints.loose_line_feeds, comes, offset);
        let row = self.row.ended(self.size, &self.pen, offset);
        let lines = self.size.lines();
        let below = (self.pen.cursor.row + 1).min(lines);
        self.hints.row_ends.end(offset, below, row);
    }

    /// Something is printed in a row.
    #[inline(always)]
    fn print_in(&mut self, row: usize)
        requires { row ≤ self.old.size.lines }
        ensures { self.new ≡ record self.old {
          hints = record self.old.hints {
            empty_rows = min self.old.hints.empty_rows (self.old.size.lines - (row + 1));
          };
        } }
    {
        let below = self.size.lines().saturating_sub(row + 1);
        if below < self.hints.empty_rows {
            self.hints.empty_rows = below;
        }
    }

    /// A glyph before a letter of another system, or at a code of one.
    #[cold]
    #[inline(never)]
    fn count_foreign(&mut self, offset: usize, byte: u8, behind: &[u8])
        requires room { offset < longest_file }
        requires within { CountsWithin self.old.hints offset }
        ensures within { CountsWithin self.new.hints (offset + 1) }
        ensures hints { self.new ≡ record self.old {
          hints = record self.old.hints {
            two_byte_letters = counted self.old.hints.two_byte_letters
                (is_letter byte && begins_with_two_byte_letter behind.now) (offset + 1);
            latin_letters = counted self.old.hints.latin_letters
                (is_letter byte && is_latin_letter (slice_index behind.now 0)
                && is_small_letter (slice_index behind.now 1)) (offset + 1);
            board_codes = counted self.old.hints.board_codes
                ((byte == 0x7C && begins_with_pipe_number behind.now)
                || (byte == 0x40 && begins_with_x_number behind.now)) offset;
          };
        } }
    {
        let is_two_bytes = is_letter(byte) && begins_with_two_byte_letter(behind);
        let is_latin = is_letter(byte) && begins_with_latin_letter(behind);
        let is_code = (byte == b'|' && begins_with_pipe_number(behind))
            || (byte == b'@' && begins_with_x_number(behind));
        count(&mut self.hints.two_byte_letters, is_two_bytes, offset + 1);
        count(&mut self.hints.latin_letters, is_latin, offset + 1);
        count(&mut self.hints.board_codes, is_code, offset);
    }

    /// A glyph that may be one of these; most are not.
    #[inline(always)]
    fn foreign(&mut self, offset: usize, byte: u8, behind: &[u8])
        requires room { offset < longest_file }
        requires within { CountsWithin self.old.hints offset }
        ensures within { CountsWithin self.new.hints (offset + 1) }
        ensures hints { self.new ≡ record self.old {
          hints = record self.old.hints {
            two_byte_letters = counted self.old.hints.two_byte_letters
                (is_letter byte && begins_with_two_byte_letter behind.now) (offset + 1);
            latin_letters = counted self.old.hints.latin_letters
                (is_letter byte && is_latin_letter (slice_index behind.now 0)
                && is_small_letter (slice_index behind.now 1)) (offset + 1);
            board_codes = counted self.old.hints.board_codes
                ((byte == 0x7C && begins_with_pipe_number behind.now)
                || (byte == 0x40 && begins_with_x_number behind.now)) offset;
          };
        } }
    {
        if may_be_foreign(byte, behind) {
            self.count_foreign(offset, byte, behind);
        }
    }

    /// Whether the next glyph may be printed in the last column, or over the one before it.
    #[inline(always)]
    fn is_at_edge(&self) -> bool
        ensures inside { result ≡ false → glyph_wraps self.now.size self.now.pen ≡ false }
        ensures beside { result ≡ false → is_stuck self.now.row.seam ≡ false }
    {
        self.pen.cursor.column == self.size.width() - 1 || self.row.is_stuck()
    }

    #[cold]
    #[inline(never)]
    fn glyph_at_edge(&mut self, offset: usize)
        requires room { offset < longest_file }
        requires within { CountsRows self.old.hints.row_ends offset }
        ensures within { CountsRows self.new.hints.row_ends (offset + 1) }
        ensures hints { self.new ≡ record self.old {
          hints = record self.old.hints {
            row_ends = with_glyph self.old.hints.row_ends self.old.pen.cursor.row offset
                (glyph_wraps self.old.size self.old.pen) (is_stuck self.old.row.seam);
          };
        } }
    {
        let wraps = self.pen.glyph_wraps(self.size);
        let is_over = self.row.is_stuck();
        self.hints
            .row_ends
            .glyph(self.pen.cursor.row, offset, wraps, is_over);
    }

    /// A glyph of its row; most are inside it.
    #[inline(always)]
    fn glyph_in_row(&mut self, offset: usize)
        requires room { offset < longest_file }
        requires within { CountsRows self.old.hints.row_ends offset }
        ensures within { CountsRows self.new.hints.row_ends (offset + 1) }
        ensures hints { self.new ≡ record self.old {
          hints = record self.old.hints {
            row_ends = with_glyph self.old.hints.row_ends self.old.pen.cursor.row offset
                (glyph_wraps self.old.size self.old.pen) (is_stuck self.old.row.seam);
          };
        } }
    {
        if self.is_at_edge() {
            self.glyph_at_edge(offset);
        } else {
            self.hints.row_ends.print_in(self.pen.cursor.row);
        }
    }

    #[inline(always)]
    fn glyph(&mut self, offset: usize, byte: u8, behind: &[u8])
        requires room { offset < longest_file }
        requires at { IsAt self.old offset }
        ensures within { CountsWithin self.new.hints (offset + 1) }
        ensures kept { self.new ≡ record self.old { hints = self.new.hints } }
        ensures hints { (s : State) → self.old.pen ≡ pen_of s
            → self.new.hints ≡ hints_with self.old s offset (Glyph byte) behind.now }
    {
        let wide = begins_with_wide(byte, behind);
        let blinks = !self.non_blink && self.pen.attribute >= 0x80;
        let seen = is_seen(byte);
        let dark = seen && self.pen.attribute == 0x08;
        self.foreign(offset, byte, behind);
        self.glyph_in_row(offset);
        count(&mut self.hints.wide_characters, wide, offset);
        count(&mut self.hints.blinking_glyphs, blinks, offset);
        count(&mut self.hints.seen_glyphs, seen, offset);
        count(&mut self.hints.dark_glyphs, dark, offset);
        self.print_in(self.pen.cursor.row);
    }

    /// Plain bytes, which stay in their row, at this offset.
    #[inline(always)]
    fn look_at_run(&mut self, run: &[u8], offset: usize)
        requires room { offset + length run.now ≤ longest_file }
        requires at { IsAt self.old offset }
        ensures within { CountsWithin self.new.hints (offset + length run.now) }
        ensures kept { self.new ≡ record self.old { hints = self.new.hints } }
        ensures hints { self.new.hints ≡ hints_past self.old run.now offset }
    {
        let blinks = !self.non_blink && self.pen.attribute >= 0x80;
        let count = run.len();
        count_times(&mut self.hints.blinking_glyphs, blinks, count, offset);
        count_seen(&mut self.hints.seen_glyphs, run, offset);
        count_dark(&mut self.hints.dark_glyphs, self.pen.attribute, run, offset);
        self.hints.row_ends.print_in(self.pen.cursor.row);
        self.print_in(self.pen.cursor.row);
    }

    /// A sequence of colours with a number that only later terminals know.
    #[cold]
    #[inline(never)]
    fn count_modern(&mut self, offset: usize, numbers: &[u8])
        requires room { offset < longest_file }
        requires within { CountsWithin self.old.hints offset }
        ensures within { CountsWithin self.new.hints (offset + 1) }
        ensures hints { self.new ≡ record self.old {
          hints = record self.old.hints {
            later_colours = counted self.old.hints.later_colours (list_any is_later_colour numbers.now) offset;
            off_switches = counted self.old.hints.off_switches
                (list_any is_off_switch numbers.now && not (list_any is_later_colour numbers.now)) offset;
          };
        } }
    {
        let is_later = has_later_colour(numbers);
        let is_off = has_off_switch(numbers) && !is_later;
        count(&mut self.hints.later_colours, is_later, offset);
        count(&mut self.hints.off_switches, is_off, offset);
    }

    /// A sequence of colours; most have no such number.
    #[inline(always)]
    fn look_at_colours(&mut self, offset: usize, numbers: &[u8])
        requires room { offset < longest_file }
        requires within { CountsWithin self.old.hints offset }
        ensures within { CountsWithin self.new.hints (offset + 1) }
        ensures hints { self.new ≡ record self.old {
          hints = record self.old.hints {
            later_colours = counted self.old.hints.later_colours (list_any is_later_colour numbers.now) offset;
            off_switches = counted self.old.hints.off_switches
                (list_any is_off_switch numbers.now && not (list_any is_later_colour numbers.now)) offset;
          };
        } }
    {
        if has_modern(numbers) {
            self.count_modern(offset, numbers);
        }
    }

    /// Looks at a token at this offset, before it is played.
    #[inline(always)]
    fn look(&mut self, offset: usize, kind: &Kind, behind: &[u8])
        requires room { offset < longest_file }
        requires at { IsAt self.old offset }
        ensures within { CountsWithin self.new.hints (offset + 1) }
        ensures few { count_of self.new.loose_before ≤ offset + 1 }
        ensures kept { self.new ≡ record self.old {
          loose_before = loose_before_with self.old (shown_kind kind.now);
          hints = self.new.hints;
        } }
        ensures hints { (s : State) → self.old.pen ≡ pen_of s
            → self.new.hints ≡ hints_with self.old s offset (shown_kind kind.now) behind.now }
    {
        match kind {
            Kind::Glyph(byte) => {
                self.loose_before = self.hints.loose_line_feeds;
                self.glyph(offset, *byte, behind);
            }
            Kind::LineFeed => self.line_feed(offset, behind),
            Kind::CarriageReturn => {
                self.hints.loose_line_feeds = self.loose_before;
                self.hints.row_ends.returns = true;
            }
            Kind::Place(_, _) | Kind::Restore => self.hints.loose_line_feeds = self.loose_before,
            Kind::Tab => {
                self.loose_before = self.hints.loose_line_feeds;
                self.hints.row_ends.print_in(self.pen.cursor.row);
                let pen = self.pen;
                self.print_in(pen.row_of_tab(self.size));
            }
            Kind::Colours(numbers) => self.look_at_colours(offset, numbers),
            _ => {}
        }
    }

    /// Goes over a token at this offset: looks at it, and plays it. `behind` is the content's bytes
    /// after it.
    #[inline(always)]
    pub(crate) fn go_over(&mut self, offset: usize, kind: &Kind, behind: &[u8])
        requires room { offset < longest_file }
        requires at { IsAt self.old offset }
        ensures at { IsAt self.new (offset + 1) }
        ensures over { GoesOver self.old self.new offset (shown_kind kind.now) behind.now }
    {
        self.look(offset, kind, behind);
        let before = self.pen;
        self.pen.step(self.size, kind);
        let column = self.pen.cursor.column;
        self.row.step(self.size, &before, column, offset, kind);
    }

    /// Goes over a sequence of colours at this offset, as it goes over its token. The attribute is given
    /// to which its numbers lead.
    #[inline(always)]
    pub(crate) fn go_over_colours(&mut self, offset: usize, numbers: &[u8], attribute: u8)
        requires room { offset < longest_file }
        requires attribute { attribute ≡ attribute_after_all self.old.pen.attribute numbers.now }
        requires at { IsAt self.old offset }
        ensures at { IsAt self.new (offset + 1) }
        ensures over { (behind : List ℕ) → GoesOver self.old self.new offset (Colours numbers.now) behind }
    {
        self.look_at_colours(offset, numbers);
        self.pen.attribute = attribute;
    }

    /// Goes past plain bytes, which stay in their row: looks at them, and plays them. The first is at
    /// this offset.
    #[inline(always)]
    pub(crate) fn go_past(&mut self, run: &[u8], offset: usize)
        requires room { offset + length run.now ≤ longest_file }
        requires stays { StaysInRow self.old (length run.now) }
        requires at { IsAt self.old offset }
        ensures at { IsAt self.new (offset + length run.now) }
        ensures past { self.new ≡ walk_past self.old run.now offset }
    {
        self.loose_before = self.hints.loose_line_feeds;
        self.look_at_run(run, offset);
        self.row.go_on();
        self.pen.go_on(self.size, run.len());
    }
}

impl Walker for Walk {
    ghost use Rattle.ans_hints.specs.Walks.{IsAt, HasWalked, StaysInRow};

    ghost ready = { λ walk offset. IsAt walk offset };

    ghost walked = { λ first front now goes_on. HasWalked first front goes_on now };

    ghost takes = { λ walk count. StaysInRow walk count };

    #[inline(always)]
    fn token(&mut self, token: &Token, behind: &[u8]) -> bool {
        self.go_over(token.start(), token.kind(), behind);
        true
    }

    #[inline(always)]
    fn colours(&mut self, colours: &ColourSequence<'_>, _behind: &[u8]) -> bool {
        let attribute = attribute_after_all(self.pen.attribute, colours.numbers);
        self.go_over_colours(colours.start, colours.numbers, attribute);
        true
    }

    #[inline(always)]
    fn room(&self) -> usize {
        if self.row.is_stuck() {
            0
        } else {
            self.pen.columns_left(self.size)
        }
    }

    #[inline(always)]
    fn take(&mut self, run: &[u8], offset: usize) {
        self.go_past(run, offset);
    }
}
