//! The lines of a picture and of its cells.
ghost use Rattle.std.specs.Prelude.{◌≡◌, ◌<◌, ◌≤◌, [], length, take, if◌then◌else◌, Some};
ghost use Rattle.std.specs.List.{flat_map};
ghost use Rattle.ans_model.specs.Verdict.Good.{IsPictureOf};
ghost use Rattle.ans_model.specs.Text.ReportText.{Passed, cell_digits, cells_text, report_text, rows_of};
ghost use Rattle.ans_write.specs.Puts.{Puts};
ghost use Rattle.ans_report.specs.Headings.{heading_of};
ghost use Rattle.ans_play.specs.Shown.{bytes_of_row, cells_of_row};
ghost use Rattle.ans_report.specs.Rows.{line_text};

use crate::heading::put_heading;
use ans_model::limits::MAX_WIDTH;
use ans_model::start::Start;
use ans_play::Picture;
use ans_sauce::Parts;
use ans_screen::Screen;
use ans_write::{Outbox, Tables};
use std::io::Write;

/// How the cells of a picture are shown: each by its character, or by four digits.
#[derive(Clone, Copy)]
pub(crate) enum CellsForm {
    Characters,
    Digits,
}

/// How many bytes a row has at most: four for each column.
const ROW: usize = 4 * MAX_WIDTH;

/// Writes the digits of a row to the start of a text, and returns where they end. `bytes` are the row's.
fn write_digits<G: Screen>(
    picture: &Picture<G>,
    row: usize,
    bytes: &[u8],
    tables: &Tables,
    text: &mut [u8],
) -> usize
    requires row { row < picture.now.size.lines }
    requires width { length bytes.now ≡ picture.now.size.width }
    requires bytes { bytes.now ≡ bytes_of_row picture.now row }
    requires room { 4096 ≤ length text.old }
    ensures length { length text.new ≡ length text.old }
    ensures within { result ≤ length text.new }
    ensures text { take result text.new ≡ flat_map cell_digits (cells_of_row picture.now row) }
{
    let width = picture.width();
    let mut attributes = [0; MAX_WIDTH];
    let attributes = &mut attributes[..width];
    picture.copy_attributes(row, attributes);
    tables.write_digits(bytes, attributes, text);
    4 * width
}

/// Puts the line of a row. `text` is room for it.
fn put_row<W: Write, G: Screen>(
    out: &mut Outbox<'_, W>,
    picture: &Picture<G>,
    row: usize,
    shown: CellsForm,
    tables: &Tables,
    text: &mut [u8],
)
    requires row { row < picture.now.size.lines }
    requires room { 4096 ≤ length text.old }
    ensures puts { Puts W.contents out.old out.new (line_text shown (cells_of_row picture.now row)) }
    ensures length { length text.new ≡ length text.old }
{
    let mut bytes = [0; MAX_WIDTH];
    let bytes = &mut bytes[..picture.width()];
    picture.copy_glyphs(row, bytes);
    let end = match shown {
        CellsForm::Characters => tables.write_characters(bytes, text),
        CellsForm::Digits => write_digits(picture, row, bytes, tables, text),
    };
    out.put(&text[..end]);
    out.put(b"\n");
}

fn put_rows<W: Write, G: Screen>(out: &mut Outbox<'_, W>, picture: &Picture<G>, shown: CellsForm)
    ensures text { Puts W.contents out.old out.new
        (flat_map (line_text shown) (rows_of picture.now)) }
    ensures whole { IsPictureOf picture.now.size picture.now }
{
    let tables = Tables::new();
    let mut text = [0; ROW];
    for row in 0..picture.lines() {
        if out.has_failed() {
            return;
        }
        put_row(out, picture, row, shown, &tables, &mut text);
    }
}

fn put_cells<W: Write, G: Screen>(out: &mut Outbox<'_, W>, picture: &Picture<G>, cells: bool)
    ensures { Puts W.contents out.old out.new (if cells then cells_text picture.now else []) }
{
    if !cells {
        return;
    }
    out.put(b"cells:\n");
    put_rows(out, picture, CellsForm::Digits);
}

pub(crate) fn put_pass<W: Write, G: Screen>(
    out: &mut Outbox<'_, W>,
    parts: &Parts<'_>,
    start: Start,
    picture: &Picture<G>,
    cells: bool,
)
    ensures text { Puts W.contents out.old out.new
        (report_text (heading_of parts.now (Some start)) (Passed picture.now cells)) }
    ensures whole { IsPictureOf picture.now.size picture.now }
{
    put_heading(out, parts, Some(start));
    out.put(b"verdict: pass\npicture:\n");
    put_rows(out, picture, CellsForm::Characters);
    put_cells(out, picture, cells);
}
