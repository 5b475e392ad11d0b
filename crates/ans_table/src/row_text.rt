//! The rows of a table.

ghost use Rattle.std.specs.Prelude.{[], option_map, unwrap_or};
ghost use Rattle.std.specs.Str.{IsUtf8};
ghost use Rattle.ans_model.specs.Text.FaultText.{line_of};
ghost use Rattle.ans_write.specs.Puts.{Puts};
ghost use Rattle.ans_table.specs.NameText.{name_text};
ghost use Rattle.ans_table.specs.RowText.{header_line, pictured_header_line, pictured_row_line, row_line, row_text};

use crate::columns::{put_content, put_record, put_stated_size, put_verdict};
use crate::finding::{RowFinding, parts_of, sauce_of};
use crate::name_text::put_name;
use ans_write::Outbox;
use std::io::Write;

/// The columns' names before that of the file's name.
const COLUMNS: &[u8] =
    b"verdict\tneeds\tplayers\tneeds_on_all_players\ttaller_screens\tfault\tat\trow\tcolumn\twidth\tlines\t\
    content\tnotes\tice\tspacing\taspect\tfont\tdate\ttitle\tauthor\tgroup\t";

/// Puts the row of a file of this name without its end.
fn put_columns<W: Write>(out: &mut Outbox<'_, W>, name: &[u8], finding: &RowFinding<'_>)
    ensures puts { Puts W.contents out.old out.new (row_text name.now finding.now) }
    ensures utf8 { IsUtf8 (name_text name.now) }
{
    let sauce = sauce_of(finding);
    put_verdict(out, finding);
    put_stated_size(out, sauce);
    put_content(out, parts_of(finding));
    put_record(out, sauce);
    put_name(out, name);
}

/// Puts the row of a file of this name: its columns with a tab after each, and then the name, whose
/// text is UTF-8 whatever the name is.
pub fn put_row<W: Write>(out: &mut Outbox<'_, W>, name: &[u8], finding: &RowFinding<'_>)
    ensures puts { Puts W.contents out.old out.new (row_line name.now finding.now) }
    ensures utf8 { IsUtf8 (name_text name.now) }
{
    put_columns(out, name, finding);
    out.put(b"\n");
}

/// Puts a text, if there is one.
fn put_present<W: Write>(out: &mut Outbox<'_, W>, text: Option<&[u8]>)
    ensures { Puts W.contents out.old out.new (unwrap_or (option_map (λ t. t.now) text.entry) []) }
{
    if let Some(text) = text {
        out.put(text);
    }
}

/// Puts the same with one more column after the name: the checksum of the picture that the file shows, if it shows one.
pub fn put_pictured_row<W: Write>(
    out: &mut Outbox<'_, W>,
    name: &[u8],
    finding: &RowFinding<'_>,
    picture: Option<&[u8]>,
)
    ensures { Puts W.contents out.old out.new
        (pictured_row_line name.now finding.now (option_map (λ t. t.now) picture.entry)) }
{
    put_columns(out, name, finding);
    out.put(b"\t");
    put_present(out, picture);
    out.put(b"\n");
}

/// Puts the line of the columns' names.
pub fn put_header<W: Write>(out: &mut Outbox<'_, W>)
    ensures { Puts W.contents out.old out.new header_line }
{
    out.put(COLUMNS);
    out.put(b"file\n");
}

/// Puts the same with the name of the column that [`put_pictured_row`] puts last.
pub fn put_pictured_header<W: Write>(out: &mut Outbox<'_, W>)
    ensures { Puts W.contents out.old out.new pictured_header_line }
{
    out.put(COLUMNS);
    out.put(b"file\tpicture\n");
}

/// Puts a text, such as that of a [`json_row`](crate::json_row), and a line feed after it.
pub fn put_line<W: Write>(out: &mut Outbox<'_, W>, text: &[u8])
    ensures { Puts W.contents out.old out.new (line_of text.now) }
{
    out.put(text);
    out.put(b"\n");
}
