//! The lines of a report before its verdict, or before what a content needs.
ghost use Rattle.std.specs.Prelude.{ℕ, ◌++◌, codes, decimal, length};
ghost use Rattle.std.specs.List.{flat_map};
ghost use Rattle.ans_model.specs.Text.FaultText.{line_of, note_line};
ghost use Rattle.ans_model.specs.Text.ReportText.{start_name, start_line, heading_text};
ghost use Rattle.ans_write.specs.Puts.{Puts};
ghost use Rattle.ans_sauce.specs.Parts.{content_of, notes_of};
ghost use Rattle.ans_report.specs.Headings.{heading_of};

use crate::lines::{put_named_line, put_size_line, put_words};
use crate::meanings::note_text;
use ans_model::start::Start;
use ans_sauce::{Note, Parts};
use ans_write::Outbox;
use std::io::Write;

fn put_start_name<W: Write>(out: &mut Outbox<'_, W>, start: Start)
    ensures { Puts W.contents out.old out.new (start_name start) }
{
    if start == Start::any() {
        out.put(b"any");
        return;
    }
    if start == Start::cleared() {
        out.put(b"cleared");
        return;
    }
    out.put(b"known ");
    put_words(out, start.part_names().as_slice());
}

fn put_start_line<W: Write>(out: &mut Outbox<'_, W>, start: Option<Start>)
    ensures { Puts W.contents out.old out.new (start_line start) }
{
    let Some(start) = start else {
        return;
    };
    out.put(b"start: ");
    put_start_name(out, start);
    out.put(b"\n");
}

fn put_length_line<W: Write>(out: &mut Outbox<'_, W>, length: usize)
    ensures { Puts W.contents out.old out.new
        (line_of (codes "content: " ++ (decimal length ++ codes " bytes"))) }
{
    out.put(b"content: ");
    out.put_decimal(length as u64);
    out.put(b" bytes\n");
}

/// Puts a line for each note, in their order: `note: ` and its text.
pub fn put_notes<W: Write>(out: &mut Outbox<'_, W>, notes: &[Note])
    ensures { Puts W.contents out.old out.new (flat_map note_line notes.now) }
{
    for note in notes {
        put_named_line(out, b"note", note_text(note).as_bytes());
    }
}

pub(crate) fn put_heading<W: Write>(
    out: &mut Outbox<'_, W>,
    parts: &Parts<'_>,
    start: Option<Start>,
)
    ensures { Puts W.contents out.old out.new (heading_text (heading_of parts.now start)) }
{
    put_size_line(out, parts);
    put_start_line(out, start);
    put_length_line(out, parts.content().len());
    put_notes(out, parts.notes().as_slice());
}
