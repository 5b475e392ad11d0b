//! The cells of a row.
ghost use Rattle.std.specs.Prelude.{◌≡◌, ◌+◌, ◌*◌, ◌≤◌, [], ◌∷◌, ◌++◌, length, take};
ghost use Rattle.std.specs.List.{list_all};
ghost use Rattle.std.specs.Simd.Lanes.{zip2};
ghost use Rattle.ans_model.specs.Screen.State.{cell};
ghost use Rattle.ans_redraw.specs.Colours.{colours_to};
ghost use Rattle.ans_redraw.specs.Form.{drawn, glyph, is_blank, over, pen, pen_behind, texts};

use crate::colours::{GREY, write_colours};
use crate::pen::RowPen;
use crate::piece::write;
use crate::run::{count_blanks, write_run};
use crate::way::write_over;

pub(crate) fn is_blank(byte: u8, attribute: u8) -> bool
    ensures { result ≡ is_blank (cell byte attribute) }
{
    byte == b' ' && attribute == GREY
}

/// Whether there is nothing in a row but blanks.
pub(crate) fn are_blank(bytes: &[u8], attributes: &[u8]) -> bool
    requires { length attributes.now ≡ length bytes.now }
    ensures { result ≡ list_all is_blank (zip2 cell bytes.now attributes.now) }
{
    for i in count_blanks(bytes, attributes)..bytes.len() {
        if !is_blank(bytes[i], attributes[i]) {
            return false;
        }
    }
    true
}

/// Writes the way to a cell, its colours and its byte to a text from `end` on, and returns where they end. The pen is
/// then after the cell.
#[inline(always)]
fn write_cell(text: &mut [u8], end: usize, from: &mut RowPen, byte: u8, attribute: u8) -> usize
    requires { end + 6 * from.old.passed + 16 ≤ length text.old }
    ensures within { result ≤ end + 6 * from.old.passed + 13 }
    ensures length { length text.new ≡ length text.old }
    ensures text { take result text.new ≡ take end text.old ++ texts
        (over from.old.attribute from.old.passed
        ++ (colours_to from.old.attribute attribute ++ glyph byte ∷ [])) }
    ensures pen { from.new ≡ pen attribute 0 }
{
    let way = write_over(text, end, from.attribute, from.passed);
    let colours = write_colours(text, way, from.attribute, attribute);
    from.attribute = attribute;
    from.passed = 0;
    write(text, colours, &[byte], 1)
}

/// Writes the cells of a row to the start of a text, and returns where they end. The pen is after them then.
pub(crate) fn write_row(text: &mut [u8], pen: &mut RowPen, bytes: &[u8], attributes: &[u8]) -> usize
    requires begins { pen.old.passed ≡ 0 }
    requires same { length attributes.now ≡ length bytes.now }
    requires room { 13 * length bytes.now + 16 ≤ length text.old }
    ensures within { result ≤ length text.new }
    ensures length { length text.new ≡ length text.old }
    ensures text { take result text.new
        ≡ texts (drawn pen.old (zip2 cell bytes.now attributes.now)) }
    ensures pen { pen.new ≡ pen_behind pen.old (zip2 cell bytes.now attributes.now) }
{
    let mut at = *pen;
    let mut end = 0;
    let mut i = 0;
    while i < bytes.len() {
        let attribute = attributes[i];
        if is_blank(bytes[i], attribute) {
            at.passed += 1;
            i += 1;
        } else {
            end = write_cell(text, end, &mut at, bytes[i], attribute);
            i += 1;
            let run = write_run(text, end, attribute, &bytes[i..], &attributes[i..]);
            end += run;
            i += run;
        }
    }
    *pen = at;
    end
}
