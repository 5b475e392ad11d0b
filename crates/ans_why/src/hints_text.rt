//! The lines of hints.

ghost use Rattle.std.specs.Prelude.{◌≡◌};
ghost use Rattle.ans_why.specs.HintsText.{colour_hints, empty_rows_line, font_line, foreign_hints, hints_text};
ghost use Rattle.ans_why.specs.HintsText.{counted_line, counted_words, latin_told, row_hints, wider_line};
ghost use Rattle.ans_why.specs.HintsText.{mark_line, pass_hints_text, text_lines};
ghost use Rattle.ans_why.specs.HintsText.{told_text, wider_told};
ghost use Rattle.ans_why.specs.HintRows.{hint_of, words_of};
ghost use Rattle.ans_write.specs.Puts.{Puts};

use crate::font::{font_name, has_other_code_page, is_latin_font};
use crate::hint_rows::{
    BLINKING, BOARD_CODES, CONVERTED, DARK_GREY, HintRow, LATIN_LETTERS, LONE_RETURNS,
    LOST_ESCAPES, MODERN_COLOURS, OFF_SWITCHES, OVERPRINTS, ROWS_OVER, SHORT_ESCAPES,
    SHOWN_ESCAPES, TWO_BYTE_LETTERS, WIDE_CHARACTERS, Wording, bare_line_feeds, ended_rows,
};
use crate::text_damage::TextDamage;
use ans_hints::{Hints, WiderRows};
use ans_pens::Times;
use ans_write::{Outbox, put_characters};
use std::io::Write;

/// What comes between the words and the offset of the first.
const FIRST_AT: Wording = Wording {
    one: b", at ",
    more: b", first at ",
};

/// Puts how many there are, and where the first is.
fn put_counted_words<W: Write>(out: &mut Outbox<'_, W>, what: Wording, times: Times)
    ensures { Puts W.contents out.old out.new (counted_words (words_of what) times) }
{
    out.put_decimal(times.count as u64);
    out.put(b" ");
    out.put(what.of(times.count));
    out.put(FIRST_AT.of(times.count));
    out.put_decimal(times.first as u64);
}

pub(crate) fn put_counted_line<W: Write>(
    out: &mut Outbox<'_, W>,
    row: &HintRow,
    times: Option<Times>,
)
    ensures { Puts W.contents out.old out.new (counted_line (hint_of row.now) times) }
{
    let Some(times) = times else {
        return;
    };
    out.put(b"hint: ");
    out.put(row.before);
    put_counted_words(out, row.what, times);
    out.put(row.advice.of(times.count));
    out.put(b"\n");
}

fn put_font_line<W: Write>(out: &mut Outbox<'_, W>, field: &[u8])
    ensures { Puts W.contents out.old out.new (font_line field.now) }
{
    let name = font_name(field);
    if has_other_code_page(name) {
        out.put(b"hint: the font ");
        put_characters(out, name);
        out.put(b" is not a code page 437 font; some characters may look different\n");
    }
}

fn put_empty_rows_line<W: Write>(out: &mut Outbox<'_, W>, rows: usize)
    ensures { Puts W.contents out.old out.new (empty_rows_line rows) }
{
    if rows == 0 {
        return;
    }
    if rows == 1 {
        out.put(b"hint: the last line is empty\n");
        return;
    }
    out.put(b"hint: the last ");
    out.put_decimal(rows as u64);
    out.put(b" lines are empty\n");
}

fn put_wider_line<W: Write>(out: &mut Outbox<'_, W>, rows: Option<WiderRows>)
    ensures { Puts W.contents out.old out.new (wider_line rows) }
{
    let Some(rows) = rows else {
        return;
    };
    let columns = rows.columns as u64;
    out.put(b"hint: ");
    put_counted_words(out, ROWS_OVER, rows.times);
    out.put(b"; they need at least ");
    out.put_decimal(columns);
    out.put(b" columns: --columns ");
    out.put_decimal(columns);
    out.put(b"\n");
}

fn put_row_hints<W: Write>(out: &mut Outbox<'_, W>, hints: &Hints, wider: Option<WiderRows>)
    ensures { Puts W.contents out.old out.new (row_hints hints.now wider) }
{
    put_counted_line(
        out,
        &bare_line_feeds(hints.row_ends.returns),
        hints.loose_line_feeds,
    );
    put_counted_line(
        out,
        &ended_rows(!hints.row_ends.are_all_ended()),
        hints.row_ends.ended,
    );
    put_wider_line(out, wider);
    put_counted_line(out, &OVERPRINTS, hints.row_ends.overprints);
}

/// Letters of Latin-1, unless the font has them.
fn latin_told(field: &[u8], letters: Option<Times>) -> Option<Times>
    ensures { result ≡ latin_told field.now letters }
{
    if is_latin_font(font_name(field)) {
        None
    } else {
        letters
    }
}

fn put_foreign_hints<W: Write>(out: &mut Outbox<'_, W>, hints: &Hints, field: &[u8])
    ensures { Puts W.contents out.old out.new (foreign_hints hints.now field.now) }
{
    put_counted_line(out, &WIDE_CHARACTERS, hints.wide_characters);
    put_counted_line(out, &TWO_BYTE_LETTERS, hints.two_byte_letters);
    put_counted_line(out, &LATIN_LETTERS, latin_told(field, hints.latin_letters));
    put_counted_line(out, &BOARD_CODES, hints.board_codes);
}

fn put_colour_hints<W: Write>(out: &mut Outbox<'_, W>, hints: &Hints)
    ensures { Puts W.contents out.old out.new (colour_hints hints.now) }
{
    put_counted_line(out, &MODERN_COLOURS, hints.later_colours);
    put_counted_line(out, &OFF_SWITCHES, hints.off_switches);
    put_counted_line(out, &BLINKING, hints.blinking_glyphs);
    put_counted_line(out, &DARK_GREY, hints.much_dark());
}

/// Puts the lines of hints, of wider rows only these.
fn put_told_hints<W: Write>(
    out: &mut Outbox<'_, W>,
    hints: &Hints,
    wider: Option<WiderRows>,
    font_field: &[u8],
)
    ensures { Puts W.contents out.old out.new (told_text hints.now wider font_field.now) }
{
    put_row_hints(out, hints, wider);
    put_foreign_hints(out, hints, font_field);
    put_colour_hints(out, hints);
    put_font_line(out, font_field);
    put_empty_rows_line(out, hints.empty_rows);
}

/// Puts a line for each hint that there is: `hint: `, how many there are, what it is, the offset of the first
/// in bytes from the content's start, and what to do about it. Two lines have no count: on the font, if the
/// record's field names one that is not of code page 437, and on empty lines at the end.
pub fn put_hints<W: Write>(out: &mut Outbox<'_, W>, hints: &Hints, font_field: &[u8])
    ensures { Puts W.contents out.old out.new (hints_text hints.now font_field.now) }
{
    put_told_hints(out, hints, hints.row_ends.wider_rows(), font_field);
}

/// The rows of a drawing for more columns, if it does not need all lines that are stated.
fn wider_told(hints: &Hints) -> Option<WiderRows>
    ensures { result ≡ wider_told hints.now }
{
    if hints.empty_rows == 0 {
        None
    } else {
        hints.row_ends.wider_rows()
    }
}

/// The same for a content that passes: wider rows are a hint only if lines are empty at the end.
pub(crate) fn put_pass_hints<W: Write>(out: &mut Outbox<'_, W>, hints: &Hints, font_field: &[u8])
    ensures { Puts W.contents out.old out.new (pass_hints_text hints.now font_field.now) }
{
    put_told_hints(out, hints, wider_told(hints), font_field);
}

fn put_mark_line<W: Write>(out: &mut Outbox<'_, W>, mark: bool)
    ensures { Puts W.contents out.old out.new (mark_line mark) }
{
    if mark {
        out.put(b"hint: the file begins with EF BB BF, the mark of UTF-8: remove these bytes\n");
    }
}

/// Puts a line for each thing that seems to have happened to a text on its way.
pub fn put_damage<W: Write>(out: &mut Outbox<'_, W>, damage: &TextDamage)
    ensures { Puts W.contents out.old out.new (text_lines damage.now) }
{
    put_counted_line(out, &LOST_ESCAPES, damage.lost_told());
    put_counted_line(out, &SHOWN_ESCAPES, damage.shown_escapes);
    put_counted_line(out, &SHORT_ESCAPES, damage.short_escapes);
    put_counted_line(out, &CONVERTED, damage.converted);
    put_counted_line(out, &LONE_RETURNS, damage.returns);
    put_mark_line(out, damage.mark);
}
