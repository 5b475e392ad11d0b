//! The form of a picture, row by row.
ghost use Rattle.std.specs.Prelude.{◌≡◌, ◌+◌, ◌-◌, ◌*◌, ◌≤◌, ◌<◌, ◌^◌, length, take, drop, min};
ghost use Rattle.std.specs.Prelude.{true, false, nat_lt};
ghost use Rattle.std.specs.List.{list_all};
ghost use Rattle.std.specs.Simd.Lanes.{zip2};
ghost use Rattle.ans_model.specs.Screen.State.{IsPlayableSize, cell};
ghost use Rattle.ans_model.specs.Text.ReportText.{rows_of};
ghost use Rattle.ans_model.specs.Verdict.Good.{IsPictureOf};
ghost use Rattle.ans_play.specs.Shown.{cells_of_row};
ghost use Rattle.ans_redraw.specs.Form.{are_blank, attribute_after_row, drawn, form_bytes, is_blank, opens_below};
ghost use Rattle.ans_redraw.specs.Form.{pen, pen_behind, row_drawn, texts};
ghost use Rattle.ans_write.specs.Puts.{Puts};

use crate::colours::GREY;
use crate::ends::{give_after, give_before, opens_below};
use crate::pen::RowPen;
use crate::row::{are_blank, write_row};
use crate::sink::{Count, Sink};
use ans_model::beginning::SAFE_BEGINNING;
use ans_model::limits::MAX_WIDTH;
use ans_play::Picture;
use ans_screen::Screen;
use ans_write::Outbox;
use std::io::Write;

/// How many bytes the cells of a row have at most, and what may be overwritten after them.
const ROW: usize = 13 * MAX_WIDTH + 24;

/// Gives the cells of a row, and returns the attribute after them. `text` is room for them.
fn give_cells<S: Sink>(
    sink: &mut S,
    attribute: u8,
    bytes: &[u8],
    attributes: &[u8],
    text: &mut [u8],
) -> u8
    requires same { length attributes.now ≡ length bytes.now }
    requires room { 13 * length bytes.now + 16 ≤ length text.old }
    ensures takes { S.takes sink.old sink.new
        (texts (drawn (pen attribute 0) (zip2 cell bytes.now attributes.now))) }
    ensures attribute { result ≡ (pen_behind (pen attribute 0) (zip2 cell bytes.now attributes.now)).attribute }
    ensures length { length text.new ≡ length text.old }
{
    let mut pen = RowPen {
        attribute,
        passed: 0,
    };
    let end = write_row(text, &mut pen, bytes, attributes);
    sink.take(&text[..end]);
    pen.attribute
}

/// Gives a row, with what comes before and after it, and returns the attribute there. `follows` says whether rows are
/// drawn below it; `text` is room for its cells.
fn give_row<S: Sink, G: Screen>(
    sink: &mut S,
    picture: &Picture<G>,
    row: usize,
    follows: bool,
    attribute: u8,
    text: &mut [u8],
) -> u8
    requires row { row < picture.now.size.lines }
    requires room { 13336 ≤ length text.old }
    ensures takes { S.takes sink.old sink.new (texts (row_drawn
        (opens_below follows (nat_lt (row + 1) picture.now.size.lines) (cells_of_row picture.now row)) follows row
        attribute (cells_of_row picture.now row))) }
    ensures attribute { result ≡ attribute_after_row
        (opens_below follows (nat_lt (row + 1) picture.now.size.lines) (cells_of_row picture.now row)) follows
        attribute (cells_of_row picture.now row) }
    ensures length { length text.new ≡ length text.old }
{
    let width = picture.width();
    let mut bytes = [0; MAX_WIDTH];
    let bytes = &mut bytes[..width];
    picture.copy_glyphs(row, bytes);
    let mut attributes = [0; MAX_WIDTH];
    let attributes = &mut attributes[..width];
    picture.copy_attributes(row, attributes);
    let is_there = row + 1 < picture.lines();
    let opens = opens_below(bytes[width - 1], attributes[width - 1], follows, is_there);
    let before = give_before(sink, opens, attribute);
    let after = give_cells(sink, before, bytes, attributes, text);
    give_after(sink, opens, follows, row, after)
}

/// The row from which on there is nothing but blanks.
fn end_of_rows<G: Screen>(picture: &Picture<G>) -> usize
    ensures limits { IsPlayableSize picture.now.size }
    ensures whole { IsPictureOf picture.now.size picture.now }
    ensures within { result ≤ picture.now.size.lines }
    ensures behind { are_blank (drop result (rows_of picture.now)) ≡ true }
    ensures before { 0 < result → list_all is_blank (cells_of_row picture.now (result - 1)) ≡ false }
{
    let width = picture.width();
    let mut bytes = [0; MAX_WIDTH];
    let bytes = &mut bytes[..width];
    let mut attributes = [0; MAX_WIDTH];
    let attributes = &mut attributes[..width];
    let mut end = picture.lines();
    while end > 0 {
        picture.copy_glyphs(end - 1, bytes);
        picture.copy_attributes(end - 1, attributes);
        if !are_blank(bytes, attributes) {
            return end;
        }
        end -= 1;
    }
    end
}

/// Gives the form of a picture, which [`put_form`] puts, to a sink.
pub fn give_form<S: Sink, G: Screen>(sink: &mut S, picture: &Picture<G>)
    ensures { S.takes sink.old sink.new (form_bytes picture.now) }
{
    let end = end_of_rows(picture);
    let mut text = [0; ROW];
    let mut attribute = GREY;
    sink.take(SAFE_BEGINNING);
    for row in 0..end {
        attribute = give_row(sink, picture, row, row + 1 < end, attribute, &mut text);
    }
    sink.take(b"\x1b[0m");
}

/// Puts the form of a picture: the content of a file that shows it the same from every start on every player, except
/// for control bytes of the picture itself.
#[inline(never)]
pub fn put_form<W: Write, G: Screen>(out: &mut Outbox<'_, W>, picture: &Picture<G>)
    ensures { Puts W.contents out.old out.new (form_bytes picture.now) }
{
    give_form(out, picture);
}

/// How many bytes the form of a picture has; 2^64 - 1 if it has more.
#[inline(never)]
pub fn form_length<G: Screen>(picture: &Picture<G>) -> usize
    ensures { result ≡ min (length (form_bytes picture.now)) (2 ^ 64 - 1) }
{
    let mut count = Count { bytes: 0 };
    give_form(&mut count, picture);
    count.bytes
}
