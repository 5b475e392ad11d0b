//! The name of a file as a word of a command.

ghost use Rattle.std.specs.Prelude.{◌≡◌, ◌<◌, false, IfNone, IfSome, drop, length};
ghost use Rattle.std.specs.List.{flat_map, list_all};
ghost use Rattle.ans_write.specs.Puts.{Puts};
ghost use Rattle.ans_table.specs.ShellWord.{can_be_typed, dash_front, is_control, is_plain, is_plain_word, quoted_byte};
ghost use Rattle.ans_table.specs.ShellWord.{quoted_word, shell_word, shows_itself, word_text};
ghost use Rattle.std.specs.Str.{is_utf8};

use crate::name_text::wide_size;
use ans_write::Outbox;
use std::io::Write;

fn is_control(byte: u8) -> bool
    ensures { result ≡ is_control byte }
{
    byte < 0x20 || byte == 0x7F
}

/// How many bytes after the first belong to the character that a name's rest begins with, of which that many are yet to
/// be passed. None if it is not shown as itself.
fn pass_first(rest: &[u8], passed: usize) -> Option<usize>
    requires { 0 < length rest.now }
    ensures some { IfSome result (λ left. shows_itself passed rest.now ≡ shows_itself left (drop 1 rest.now)) }
    ensures none { IfNone result (shows_itself passed rest.now ≡ false) }
{
    if passed > 0 {
        return Some(passed - 1);
    }
    let byte = rest[0];
    if byte < 0x80 {
        return if is_control(byte) { None } else { Some(0) };
    }
    let size = wide_size(rest);
    if size > 0 { Some(size - 1) } else { None }
}

/// Whether each character of a name is shown as itself.
fn shows_itself(name: &[u8]) -> bool
    ensures { result ≡ shows_itself 0 name.now }
{
    let mut passed = 0;
    for i in 0..name.len() {
        match pass_first(&name[i..], passed) {
            Some(left) => passed = left,
            None => return false,
        }
    }
    true
}

fn is_utf8(name: &[u8]) -> bool
    ensures { result ≡ is_utf8 name.now }
{
    std::str::from_utf8(name).is_ok()
}

/// Whether a name can be given as a word of a command: it is UTF-8, and has no control character and none that turns
/// the direction of writing or hides.
pub fn can_be_typed(name: &[u8]) -> bool
    ensures { result ≡ can_be_typed name.now }
{
    is_utf8(name) && shows_itself(name)
}

/// Whether `sh` takes a byte as it is.
fn is_plain(byte: u8) -> bool
    ensures { result ≡ is_plain byte }
{
    byte.is_ascii_alphanumeric()
        || matches!(
            byte,
            b'_' | b'.' | b'/' | b'+' | b':' | b'@' | b'%' | b'=' | b',' | b'-'
        )
}

fn are_plain(name: &[u8]) -> bool
    ensures { result ≡ list_all is_plain name.now }
{
    name.iter().all(|byte| is_plain(*byte))
}

fn is_plain_word(name: &[u8]) -> bool
    ensures { result ≡ is_plain_word name.now }
{
    !name.is_empty() && are_plain(name)
}

fn put_quoted_byte<W: Write>(out: &mut Outbox<'_, W>, byte: u8)
    ensures { Puts W.contents out.old out.new (quoted_byte byte) }
{
    if byte == b'\'' {
        out.put(b"'\\''");
    } else {
        out.put(&[byte]);
    }
}

fn put_quoted_bytes<W: Write>(out: &mut Outbox<'_, W>, name: &[u8])
    ensures { Puts W.contents out.old out.new (flat_map quoted_byte name.now) }
{
    for byte in name {
        put_quoted_byte(out, *byte);
    }
}

/// Puts a name between quotes.
fn put_quoted_word<W: Write>(out: &mut Outbox<'_, W>, name: &[u8])
    ensures { Puts W.contents out.old out.new (quoted_word name.now) }
{
    out.put(b"'");
    put_quoted_bytes(out, name);
    out.put(b"'");
}

/// Puts what keeps a name from being taken for a flag.
fn put_dash_front<W: Write>(out: &mut Outbox<'_, W>, name: &[u8])
    ensures { Puts W.contents out.old out.new (dash_front name.now) }
{
    if name.starts_with(b"-") {
        out.put(b"./");
    }
}

/// Puts a name, between quotes if it needs them.
fn put_word<W: Write>(out: &mut Outbox<'_, W>, name: &[u8])
    ensures { Puts W.contents out.old out.new (word_text name.now) }
{
    if is_plain_word(name) {
        out.put(name);
    } else {
        put_quoted_word(out, name);
    }
}

/// Puts the name of a file as a word of a command for `sh`: in single quotes if it needs them, and after `./` if it
/// begins with a minus.
pub fn put_shell_word<W: Write>(out: &mut Outbox<'_, W>, name: &[u8])
    ensures { Puts W.contents out.old out.new (shell_word name.now) }
{
    put_dash_front(out, name);
    put_word(out, name);
}
