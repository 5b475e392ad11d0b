//! The name of a file before each line of a text.
ghost use Rattle.ans_write.specs.Puts.{Puts};
ghost use Rattle.ans_written.specs.NamedLines.{byte_after, front_of, named_lines, start_of};

use ans_table::put_name;
use ans_write::Outbox;
use std::io::Write;

/// Puts the name of a file, before what is said of it.
pub fn put_front<W: Write>(out: &mut Outbox<'_, W>, name: &[u8])
    ensures { Puts W.contents out.old out.new (front_of name.now) }
{
    put_name(out, name);
    out.put(b": ");
}

/// Puts the name if a line starts.
fn put_start<W: Write>(out: &mut Outbox<'_, W>, name: &[u8], starts: bool)
    ensures { Puts W.contents out.old out.new (start_of name.now starts) }
{
    if starts {
        put_front(out, name);
    }
}

/// Puts a byte of a text, after the name of the file if a line starts there.
fn put_byte<W: Write>(out: &mut Outbox<'_, W>, name: &[u8], starts: bool, byte: u8)
    ensures { Puts W.contents out.old out.new (byte_after name.now starts byte) }
{
    put_start(out, name, starts);
    out.put(&[byte]);
}

/// Puts a text with the name of a file before each line.
pub fn put_named_lines<W: Write>(out: &mut Outbox<'_, W>, name: &[u8], text: &[u8])
    ensures { Puts W.contents out.old out.new (named_lines name.now text.now) }
{
    let mut starts = true;
    for byte in text {
        put_byte(out, name, starts, *byte);
        starts = *byte == b'\n';
    }
}
