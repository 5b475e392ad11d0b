//! The text of the content's tokens.
ghost use Rattle.std.specs.Prelude.{◌≡◌, ◌↔◌, ◌+◌, ◌≤◌, ◌<◌, ◌++◌, ⊤, ℕ, List, Option};
ghost use Rattle.std.specs.Prelude.{false, length, IsTrue, IsErr, IfOk, IfErr, codes, decimal};
ghost use Rattle.std.specs.List.{flat_map};
ghost use Rattle.std.specs.Io.KnownBytes.{Appends};
ghost use Rattle.ans_model.specs.Bytes.{longest_file};
ghost use Rattle.ans_model.specs.declared.fault.Fault.{Fault};
ghost use Rattle.ans_model.specs.Inside.ShownKind.{shown_kind};
ghost use Rattle.ans_model.specs.Text.TokensText.{TokensText, token_name};
ghost use Rattle.ans_tokens.specs.Token.{start_of};
ghost use Rattle.ans_write.specs.Tried.{has_failed, inner_of};
ghost use Rattle.ans_write.specs.Writes.{AppendsPrefix};
ghost use Rattle.ans_write.specs.Puts.{Puts};
ghost use Rattle.ans_report.specs.TokenLines.{PutsTokens, PutsLines, token_text, numbers_text, numbers_of};
ghost use Rattle.ans_report.specs.TokenLines.{later_number};
ghost use Rattle.ans_report.specs.GlyphLines.{AreReady, glyph_line, line_end};

use crate::fault_lines::put_fault_line;
use ans_sauce::Fault;
use ans_tokens::{Kind, Token, Walker, walk};
use ans_write::{Outbox, Tried, WriteFault, hex_byte};
use arrayvec::ArrayVec;
use std::io::Write;

fn put_later_numbers<W: Write>(out: &mut Outbox<'_, W>, numbers: &[u8])
    ensures { Puts W.contents out.old out.new (flat_map later_number numbers.now) }
{
    for number in numbers {
        out.put(b";");
        out.put_decimal(u64::from(*number));
    }
}

fn put_numbers<W: Write>(out: &mut Outbox<'_, W>, numbers: &[u8])
    ensures { Puts W.contents out.old out.new (numbers_text numbers.now) }
{
    let [first, later @ ..] = numbers else {
        return;
    };
    out.put_decimal(u64::from(*first));
    put_later_numbers(out, later);
}

/// The word of a kind's name, and the blank after it where numbers follow.
fn kind_word(kind: &Kind) -> &'static [u8]
    ensures { result.now ++ numbers_of (shown_kind kind.now) ≡ token_name (shown_kind kind.now) }
{
    match kind {
        Kind::Glyph(_) => b"glyph ",
        Kind::Bell => b"bell",
        Kind::BackSpace => b"backspace",
        Kind::LineFeed => b"linefeed",
        Kind::CarriageReturn => b"return",
        Kind::Tab => b"tab",
        Kind::Up(_) => b"up ",
        Kind::Down(_) => b"down ",
        Kind::Forward(_) => b"forward ",
        Kind::Backward(_) => b"backward ",
        Kind::Place(_, _) => b"place ",
        Kind::Clear => b"clear",
        Kind::EraseLine => b"erase",
        Kind::Save => b"save",
        Kind::Restore => b"restore",
        Kind::Colours(_) => b"colours ",
        Kind::Wrap(true) => b"wrap on",
        Kind::Wrap(false) => b"wrap off",
        Kind::Mode => b"mode",
        Kind::Keys => b"keys",
        Kind::Ask => b"ask",
    }
}

fn put_numbers_of<W: Write>(out: &mut Outbox<'_, W>, kind: &Kind)
    ensures { Puts W.contents out.old out.new (numbers_of (shown_kind kind.now)) }
{
    match kind {
        Kind::Glyph(byte) => out.put(&hex_byte(*byte)),
        Kind::Up(n) | Kind::Down(n) | Kind::Forward(n) | Kind::Backward(n) => {
            out.put_decimal(u64::from(*n));
        }
        Kind::Place(row, column) => {
            out.put_decimal(u64::from(*row));
            out.put(b";");
            out.put_decimal(u64::from(*column));
        }
        Kind::Colours(parameters) => put_numbers(out, parameters.as_slice()),
        _ => {}
    }
}

/// Puts what follows the offset in the line of a token.
fn put_rest<W: Write>(out: &mut Outbox<'_, W>, length: usize, kind: &Kind)
    ensures { Puts W.contents out.old out.new (codes " "
        ++ (decimal length ++ (codes " " ++ (token_name (shown_kind kind.now) ++ codes "\n")))) }
{
    out.put(b" ");
    out.put_decimal(length as u64);
    out.put(b" ");
    out.put(kind_word(kind));
    put_numbers_of(out, kind);
    out.put(b"\n");
}

/// Ten offsets that differ only in their last digit, and what comes before it: nothing below 10, and
/// the digits of the tens from there on.
#[derive(Drop)]
struct Tens {
    start: usize,
    digits: ArrayVec<u8, 20>,
}

impl Tens {
    /// Makes them those of which this offset is one.
    #[inline(never)]
    fn go_to(&mut self, offset: usize)
        ensures ready { AreReady self.new offset }
        ensures near { offset < self.new.start + 10 }
    {
        let tens = offset / 10;
        self.start = 10 * tens;
        self.digits.clear();
        if tens > 0 {
            let mut digits = itoa::Buffer::new();
            let _ = self
                .digits
                .try_extend_from_slice(digits.format(tens as u64).as_bytes());
        }
    }
}

/// The last digit of the offset and what follows it, in the line of a glyph that one byte spells.
fn rest_of_glyph(last: usize, byte: u8) -> [u8; 13]
    requires { last < 10 }
    ensures { result ≡ line_end last byte }
{
    let digit = b'0' + last as u8;
    let [high, low] = hex_byte(byte);
    [
        digit, b' ', b'1', b' ', b'g', b'l', b'y', b'p', b'h', b' ', high, low, b'\n',
    ]
}

/// Puts the line of a glyph that the byte at this offset spells.
#[inline(always)]
fn put_glyph<W: Write>(out: &mut Outbox<'_, W>, tens: &mut Tens, offset: usize, byte: u8)
    requires { AreReady tens.old offset }
    ensures puts { Puts W.contents out.old out.new (glyph_line offset byte) }
    ensures ready { AreReady tens.new offset }
{
    if offset - tens.start >= 10 {
        tens.go_to(offset);
    }
    out.put(tens.digits.as_slice());
    out.put(&rest_of_glyph(offset - tens.start, byte));
}

fn put_token<W: Write>(out: &mut Outbox<'_, W>, tens: &mut Tens, token: &Token)
    requires { AreReady tens.old (start_of token.now) }
    ensures puts { Puts W.contents out.old out.new (token_text token.now) }
    ensures ready { AreReady tens.new (start_of token.now) }
{
    match token.kind() {
        Kind::Glyph(byte) if token.length() == 1 => put_glyph(out, tens, token.start(), *byte),
        kind => {
            out.put_decimal(token.start() as u64);
            put_rest(out, token.length(), kind);
        }
    }
}

/// Puts the line of each token, up to where the device has failed. What is put after that is dropped.
#[derive(Drop)]
struct TokenLines<'a, 'w, W> {
    out: &'a mut Outbox<'w, W>,
    tens: Tens,
}

impl<W: Write> Walker for TokenLines<'_, '_, W> {
    ghost ready = { λ lines offset. AreReady lines.tens offset };

    ghost walked = { PutsLines W.contents };

    ghost takes = { λ lines count. ⊤ };

    fn token(&mut self, token: &Token, _behind: &[u8]) -> bool {
        put_token(self.out, &mut self.tens, token);
        !self.out.has_failed()
    }

    fn room(&self) -> usize {
        usize::MAX
    }

    fn take(&mut self, run: &[u8], offset: usize) {
        let mut at = offset;
        for byte in run {
            put_glyph(self.out, &mut self.tens, at, *byte);
            at += 1;
        }
    }
}

/// Puts the tokens of the content, as [`write_tokens`] writes them, and returns the fault that ends
/// them. It stops once the device has failed.
pub fn put_tokens<W: Write>(out: &mut Outbox<'_, W>, content: &[u8]) -> Option<Fault>
    requires { length content.now ≤ longest_file }
    ensures { PutsTokens W.contents out.old out.new content.now result }
{
    let mut lines = TokenLines {
        out,
        tens: Tens {
            start: 0,
            digits: ArrayVec::new(),
        },
    };
    match walk(content, content.len(), &mut lines) {
        Ok(_) => None,
        Err(fault) => {
            put_fault_line(lines.out, &fault);
            Some(fault)
        }
    }
}

/// Writes the tokens of the content, one a line: the offset of its first byte from the content's
/// start, how many bytes spell it, and its name with its numbers. Where the reading refuses a
/// sequence or the content ends in one, F9 to F14, the line of that fault comes last, and the fault
/// is returned.
///
/// `Err` comes exactly where the device failed in the call, and then a prefix of the text was
/// written.
pub fn write_tokens<W: Write>(w: &mut Tried<W>, content: &[u8]) -> Result<Option<Fault>, WriteFault>
    requires works { has_failed w.old ≡ false }
    requires length { length content.now ≤ longest_file }
    ensures device { IsErr result ↔ IsTrue (has_failed w.new) }
    ensures text { IfOk result (λ fault. (text : List ℕ)
        × TokensText content.now fault text
        × Appends (W.contents (inner_of w.old)) (W.contents (inner_of w.new)) text) }
    ensures prefix { IfErr result (λ _. (fault : Option Fault) × (text : List ℕ)
        × TokensText content.now fault text
        × AppendsPrefix (W.contents (inner_of w.old)) (W.contents (inner_of w.new)) text) }
{
    let mut out = Outbox::new(w);
    let fault = put_tokens(&mut out, content);
    out.finish()?;
    Ok(fault)
}
