//! The lines of a picture.
ghost use Rattle.std.specs.Prelude.{◌≡◌, ◌<◌, ◌≤◌, ◌++◌, drop, length};
ghost use Rattle.std.specs.List.{flat_map};
ghost use Rattle.ans_model.specs.Text.ReportText.{rows_of};
ghost use Rattle.ans_play.specs.Shown.{cells_of_row};
ghost use Rattle.ans_write.specs.Puts.{Puts};
ghost use Rattle.ans_show.specs.Markups.{end_in, line_in, run_end_in};

use crate::markup::{Markup, line_end, run_end};
use crate::markup_tables::{CELL, MarkupTables};
use ans_model::limits::MAX_WIDTH;
use ans_play::Picture;
use ans_screen::Screen;
use ans_write::Outbox;
use std::io::Write;

/// How many bytes the cells of a row have at most.
const ROW: usize = CELL * MAX_WIDTH;

/// Puts cells that were written as if a run stood before them, and ends their line.
fn put_cells<W: Write>(out: &mut Outbox<'_, W>, cells: &[u8], markup: Markup)
    requires { length (run_end_in markup) ≤ length cells.now }
    ensures { Puts W.contents out.old out.new
        (drop (length (run_end_in markup)) cells.now ++ (run_end_in markup ++ end_in markup)) }
{
    out.put(&cells[run_end(markup).len()..]);
    out.put(line_end(markup));
}

/// Puts the line of a row. `text` is room for its cells.
fn put_row<W: Write, G: Screen>(
    out: &mut Outbox<'_, W>,
    picture: &Picture<G>,
    row: usize,
    tables: &MarkupTables,
    text: &mut [u8],
)
    requires row { row < picture.now.size.lines }
    requires room { 57344 ≤ length text.old }
    ensures puts { Puts W.contents out.old out.new
        (line_in tables.now.markup (cells_of_row picture.now row)) }
    ensures length { length text.new ≡ length text.old }
{
    let width = picture.width();
    let mut bytes = [0; MAX_WIDTH];
    let bytes = &mut bytes[..width];
    picture.copy_glyphs(row, bytes);
    let mut attributes = [0; MAX_WIDTH];
    let attributes = &mut attributes[..width];
    picture.copy_attributes(row, attributes);
    let end = tables.write_row(bytes, attributes, text);
    put_cells(out, &text[..end], tables.markup);
}

pub(crate) fn put_rows<W: Write, G: Screen>(
    out: &mut Outbox<'_, W>,
    picture: &Picture<G>,
    tables: &MarkupTables,
)
    ensures { Puts W.contents out.old out.new
        (flat_map (line_in tables.now.markup) (rows_of picture.now)) }
{
    let mut text = [0; ROW];
    for row in 0..picture.lines() {
        if out.has_failed() {
            return;
        }
        put_row(out, picture, row, tables, &mut text);
    }
}
