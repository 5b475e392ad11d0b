//! What comes before and after a row.
ghost use Rattle.std.specs.Prelude.{◌≡◌, ◌+◌, ◌≤◌, ◌<◌, ◌^◌, [], ◌∷◌, ◌++◌, length, take, not, ◌&&◌, ◌||◌, decimal};
ghost use Rattle.ans_model.specs.Bytes.{bracket, escape};
ghost use Rattle.ans_model.specs.Screen.State.{cell};
ghost use Rattle.ans_redraw.specs.Form.{after_row, at_row, before_row, below_row, black, blackened, downward};
ghost use Rattle.ans_redraw.specs.Form.{is_blank, is_coloured, row_place, texts};

use crate::colours::{GREY, write_colours};
use crate::row::is_blank;
use crate::sink::Sink;
use crate::way::write_move;

/// Whether the background is not black, or it blinks.
fn is_coloured(attribute: u8) -> bool
    ensures { result ≡ is_coloured attribute }
{
    attribute / 16 != 0
}

/// The attribute once the background is black.
fn blackened(attribute: u8) -> u8
    ensures { result ≡ blackened attribute }
{
    if is_coloured(attribute) {
        GREY
    } else {
        attribute
    }
}

/// Writes white on black if the attribute is coloured.
fn write_black(text: &mut [u8], attribute: u8) -> usize
    requires { 14 ≤ length text.old }
    ensures within { result ≤ 12 }
    ensures length { length text.new ≡ length text.old }
    ensures text { take result text.new ≡ texts (black attribute) }
{
    if !is_coloured(attribute) {
        return 0;
    }
    write_colours(text, 0, attribute, GREY)
}

/// Gives black.
fn give_black<S: Sink>(sink: &mut S, attribute: u8)
    ensures { S.takes sink.old sink.new (texts (black attribute)) }
{
    let mut text = [0; 14];
    let end = write_black(&mut text, attribute);
    sink.take(&text[..end]);
}

/// Whether the row below is opened before a row with this last cell.
pub(crate) fn opens_below(byte: u8, attribute: u8, follows: bool, is_there: bool) -> bool
    ensures { result ≡ (not (is_blank (cell byte attribute)) && (follows || is_coloured attribute && is_there)) }
{
    !is_blank(byte, attribute) && (follows || is_coloured(attribute) && is_there)
}

/// Gives what comes before a row, and returns the attribute there.
pub(crate) fn give_before<S: Sink>(sink: &mut S, opens: bool, attribute: u8) -> u8
    ensures takes { S.takes sink.old sink.new (texts (before_row opens attribute)) }
    ensures attribute { result ≡ at_row opens attribute }
{
    if !opens {
        return attribute;
    }
    give_black(sink, attribute);
    sink.take(b"\n\x1b[A");
    blackened(attribute)
}

/// Gives a sequence of a number and a letter.
fn give_move<S: Sink>(sink: &mut S, number: u8, letter: u8)
    ensures { S.takes sink.old sink.new (escape ∷ bracket ∷ (decimal number ++ letter ∷ [])) }
{
    let mut text = [0; 6];
    let end = write_move(&mut text, number, letter);
    sink.take(&text[..end]);
}

/// Gives the moves this many rows down.
fn give_downward<S: Sink>(sink: &mut S, rows: usize)
    ensures { S.takes sink.old sink.new (texts (downward rows)) }
{
    for _move in 0..rows / 255 {
        sink.take(b"\x1b[255B");
    }
    if rows % 255 != 0 {
        give_move(sink, (rows % 255) as u8, b'B');
    }
}

/// Gives the place of a row, counted from 1.
fn give_place<S: Sink>(sink: &mut S, row: usize)
    ensures { S.takes sink.old sink.new (texts (row_place row)) }
{
    if row <= 255 {
        give_move(sink, row as u8, b'H');
        return;
    }
    sink.take(b"\x1b[H");
    give_downward(sink, row - 1);
}

/// Gives what comes after a row, and returns the attribute there.
pub(crate) fn give_after<S: Sink>(
    sink: &mut S,
    opens: bool,
    follows: bool,
    row: usize,
    attribute: u8,
) -> u8
    requires { row + 2 < 2 ^ 64 }
    ensures takes { S.takes sink.old sink.new (texts (after_row opens follows row attribute)) }
    ensures attribute { result ≡ below_row opens follows attribute }
{
    if opens {
        give_place(sink, row + 2);
        return attribute;
    }
    if !follows {
        return attribute;
    }
    give_black(sink, attribute);
    sink.take(b"\r\n");
    blackened(attribute)
}
