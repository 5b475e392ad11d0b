//! How the name of a file is shown.

ghost use Rattle.std.specs.Prelude.{◌≡◌, ◌<◌, ◌++◌, ℕ, List, drop, length, slice_index};
ghost use Rattle.std.specs.Str.{IsUtf8};
ghost use Rattle.ans_model.specs.Bytes.{IsByte};
ghost use Rattle.ans_write.specs.Puts.{Puts};
ghost use Rattle.ans_table.specs.NameText.{ascii_shown, byte_escape, is_shown, name_after, name_text};
ghost use Rattle.ans_table.specs.NameText.{turns_or_hides, wide_size};

use ans_write::{Outbox, hex_byte};
use bstr::decode_utf8;
use std::io::Write;

fn put_byte_escape<W: Write>(out: &mut Outbox<'_, W>, byte: u8)
    ensures { Puts W.contents out.old out.new (byte_escape byte) }
{
    out.put(b"\\x");
    out.put(&hex_byte(byte));
}

fn put_ascii<W: Write>(out: &mut Outbox<'_, W>, byte: u8)
    requires { byte < 0x80 }
    ensures { Puts W.contents out.old out.new (ascii_shown byte) }
{
    match byte {
        b'\t' => out.put(b"\\t"),
        b'\n' => out.put(b"\\n"),
        b'\\' => out.put(b"\\\\"),
        0x20..=0x7E => out.put(&[byte]),
        _ => put_byte_escape(out, byte),
    }
}

/// Whether a character turns the direction of the text around it, or hides in it.
fn turns_or_hides(character: char) -> bool
    ensures { result ≡ turns_or_hides character }
{
    matches!(
        character,
        '\u{61C}'
            | '\u{200B}'..='\u{200F}'
            | '\u{202A}'..='\u{202E}'
            | '\u{2060}'..='\u{2069}'
            | '\u{FEFF}'
    )
}

fn is_shown(character: char) -> bool
    ensures { result ≡ is_shown character }
{
    character > '\u{9F}' && !turns_or_hides(character)
}

/// The length of the character that the bytes begin with, if it is shown as itself; else 0.
pub(crate) fn wide_size(bytes: &[u8]) -> usize
    ensures { result ≡ wide_size bytes.now }
{
    match decode_utf8(bytes) {
        (Some(character), size) if is_shown(character) => size,
        _ => 0,
    }
}

/// Puts what shows the first byte of a name's rest, of which that many bytes are yet to be copied as
/// they are. Returns how many of those after it are.
fn put_first<W: Write>(out: &mut Outbox<'_, W>, rest: &[u8], copied: usize) -> usize
    requires { 0 < length rest.now }
    ensures shown { (text : List ℕ) × Puts W.contents out.old out.new text
        × (name_after copied rest.now ≡ text ++ name_after result (drop 1 rest.now)) }
    ensures byte { IsByte (slice_index rest.now 0) }
{
    let byte = rest[0];
    if copied > 0 {
        out.put(&[byte]);
        return copied - 1;
    }
    if byte < 0x80 {
        put_ascii(out, byte);
        return 0;
    }
    let size = wide_size(rest);
    if size > 0 {
        out.put(&[byte]);
        return size - 1;
    }
    put_byte_escape(out, byte);
    0
}

/// Puts the name of a file: a tab, a line end and a backslash by their escapes, and each other control
/// character, each character that turns or hides text, and what is not UTF-8, by its bytes in hexadecimal
/// digits. What is put is UTF-8.
pub fn put_name<W: Write>(out: &mut Outbox<'_, W>, name: &[u8])
    ensures puts { Puts W.contents out.old out.new (name_text name.now) }
    ensures utf8 { IsUtf8 (name_text name.now) }
{
    let mut copied = 0;
    for i in 0..name.len() {
        copied = put_first(out, &name[i..], copied);
    }
}
