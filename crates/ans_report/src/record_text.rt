//! The text of a record.
ghost use Rattle.std.specs.Prelude.{◌≡◌, ◌↔◌, false, IsTrue, IsErr};
ghost use Rattle.ans_model.specs.File.Record.{comment_count};
ghost use Rattle.ans_model.specs.Text.Characters.{shown_bytes};
ghost use Rattle.ans_model.specs.Text.RecordText.{named_line, comment_lines};
ghost use Rattle.ans_sauce.specs.Parts.{comments_of, record_of};
ghost use Rattle.ans_write.specs.Tried.{has_failed, inner_of};
ghost use Rattle.ans_write.specs.Writes.{WritesText};
ghost use Rattle.ans_write.specs.Puts.{Puts};
ghost use Rattle.ans_report.specs.RecordLines.{parts_text};

use crate::heading::put_notes;
use crate::lines::{put_named_line, put_number_line, put_size_line};
use ans_sauce::Parts;
use ans_write::{Outbox, Tried, WriteFault, hex_byte, put_characters};
use std::io::Write;

fn put_field<W: Write>(out: &mut Outbox<'_, W>, name: &[u8], text: &[u8])
    ensures { Puts W.contents out.old out.new (named_line name.now (shown_bytes text.now)) }
{
    out.put(name);
    out.put(b": ");
    put_characters(out, text);
    out.put(b"\n");
}

fn put_comments<W: Write>(out: &mut Outbox<'_, W>, parts: &Parts<'_>)
    ensures { Puts W.contents out.old out.new
        (comment_lines 0 (comment_count (record_of parts.now)) (comments_of parts.now)) }
{
    for i in 0..parts.sauce().comment_count() as usize {
        if out.has_failed() {
            return;
        }
        put_field(out, b"comment", parts.comment(i).unwrap());
    }
}

/// Puts what a file's record says, as [`write_record`] writes it.
pub fn put_record<W: Write>(out: &mut Outbox<'_, W>, parts: &Parts<'_>)
    ensures { Puts W.contents out.old out.new (parts_text parts.now) }
{
    let sauce = parts.sauce();
    put_field(out, b"title", sauce.title());
    put_field(out, b"author", sauce.author());
    put_field(out, b"group", sauce.group());
    put_field(out, b"date", sauce.date());
    put_size_line(out, parts);
    put_named_line(out, b"flags", &hex_byte(sauce.flags()));
    put_field(out, b"font", sauce.font());
    put_number_line(out, b"file size", u64::from(sauce.file_size()));
    put_number_line(out, b"comments", u64::from(sauce.comment_count()));
    put_comments(out, parts);
    put_notes(out, parts.notes().as_slice());
}

/// Writes what the record says (SAUCE 00.5, record layout): its title, author, group and date, the
/// stated size in columns and lines, the flags as two hexadecimal digits, the font, the stated file
/// size in bytes, how many comments there are, the comments, and the notes on the record. Each is on
/// a line of its own. Texts come without their trailing blanks and zero bytes, each byte by its
/// character.
///
/// `Err` comes exactly where the device failed in the call, and then a prefix of the text was
/// written.
pub fn write_record<W: Write>(w: &mut Tried<W>, parts: &Parts<'_>) -> Result<(), WriteFault>
    requires { has_failed w.old ≡ false }
    ensures device { IsErr result ↔ IsTrue (has_failed w.new) }
    ensures bytes { WritesText (W.contents (inner_of w.old)) (W.contents (inner_of w.new)) result
        (parts_text parts.now) }
{
    let mut out = Outbox::new(w);
    put_record(&mut out, parts);
    out.finish()
}
