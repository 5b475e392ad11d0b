//! Words, and lines that begin with a name.
ghost use Rattle.std.specs.Prelude.{◌≡◌, codes, decimal};
ghost use Rattle.std.specs.List.{flat_map};
ghost use Rattle.ans_model.specs.Text.ReportText.{size_text};
ghost use Rattle.ans_model.specs.Text.RecordText.{named_line};
ghost use Rattle.ans_model.specs.Text.Words.{answer_text, texts_of, words_text};
ghost use Rattle.ans_report.specs.Words.{later_view};
ghost use Rattle.ans_sauce.specs.Parts.{size_of};
ghost use Rattle.ans_write.specs.Puts.{Puts};

use ans_sauce::Parts;
use ans_write::Outbox;
use std::io::Write;

/// `yes` or `no`.
pub fn answer_text(yes: bool) -> &'static [u8]
    ensures { result.now ≡ answer_text yes }
{
    if yes { b"yes" } else { b"no" }
}

fn put_later_words<W: Write>(out: &mut Outbox<'_, W>, words: &[&str])
    ensures { Puts W.contents out.old out.new (flat_map later_view words.now) }
{
    for word in words {
        out.put(b" ");
        out.put(word.as_bytes());
    }
}

/// Puts words, with a blank between each two.
pub fn put_words<W: Write>(out: &mut Outbox<'_, W>, words: &[&str])
    ensures { Puts W.contents out.old out.new (words_text (texts_of words.now)) }
{
    let [first, later @ ..] = words else {
        return;
    };
    out.put(first.as_bytes());
    put_later_words(out, later);
}

/// Puts a name, a colon and a text, as a line.
pub fn put_named_line<W: Write>(out: &mut Outbox<'_, W>, name: &[u8], text: &[u8])
    ensures { Puts W.contents out.old out.new (named_line name.now text.now) }
{
    out.put(name);
    out.put(b": ");
    out.put(text);
    out.put(b"\n");
}

/// Puts a name, a colon and a number in decimal digits, as a line.
pub fn put_number_line<W: Write>(out: &mut Outbox<'_, W>, name: &[u8], number: u64)
    ensures { Puts W.contents out.old out.new (named_line name.now (decimal number)) }
{
    out.put(name);
    out.put(b": ");
    out.put_decimal(number);
    out.put(b"\n");
}

/// Puts the line of the stated size, in columns and lines.
pub fn put_size_line<W: Write>(out: &mut Outbox<'_, W>, parts: &Parts<'_>)
    ensures { Puts W.contents out.old out.new
        (named_line (codes "size") (size_text (size_of parts.now))) }
{
    out.put(b"size: ");
    out.put_decimal(parts.width() as u64);
    out.put(b" x ");
    out.put_decimal(parts.lines() as u64);
    out.put(b"\n");
}
