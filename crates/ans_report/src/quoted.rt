//! Bytes of a file as a text quotes them.
ghost use Rattle.std.specs.List.{flat_map};
ghost use Rattle.ans_report.specs.Quoted.{quoted, quoted_byte};
ghost use Rattle.ans_write.specs.Puts.{Puts};

use ans_write::{Outbox, put_characters};
use std::io::Write;

/// How many bytes are quoted at most.
const QUOTED: usize = 32;

/// Puts a byte as it is quoted: a control byte of ANSI.SYS and a blank by their names, as `<ESC>` and `<SP>`, 00h as
/// `<00>`, and another byte by its character of code page 437.
pub fn put_quoted_byte<W: Write>(out: &mut Outbox<'_, W>, byte: u8)
    ensures { Puts W.contents out.old out.new (quoted_byte byte) }
{
    match byte {
        0x00 => out.put(b"<00>"),
        0x07 => out.put(b"<BEL>"),
        0x08 => out.put(b"<BS>"),
        b'\t' => out.put(b"<TAB>"),
        b'\n' => out.put(b"<LF>"),
        b'\r' => out.put(b"<CR>"),
        0x1B => out.put(b"<ESC>"),
        b' ' => out.put(b"<SP>"),
        _ => put_characters(out, &[byte]),
    }
}

/// Puts all of the bytes, quoted, one after the other.
pub fn put_quoted_bytes<W: Write>(out: &mut Outbox<'_, W>, bytes: &[u8])
    ensures { Puts W.contents out.old out.new (flat_map quoted_byte bytes.now) }
{
    for byte in bytes {
        put_quoted_byte(out, *byte);
    }
}

/// Puts the bytes, quoted, or the first 32 of them and ` ..` where there are more.
pub fn put_quoted<W: Write>(out: &mut Outbox<'_, W>, bytes: &[u8])
    ensures { Puts W.contents out.old out.new (quoted bytes.now) }
{
    if bytes.len() > QUOTED {
        put_quoted_bytes(out, &bytes[..QUOTED]);
        out.put(b" ..");
        return;
    }
    put_quoted_bytes(out, bytes);
}
