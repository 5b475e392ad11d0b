//! The lines on other widths.

ghost use Rattle.std.specs.Prelude.{◌≡◌};
ghost use Rattle.ans_why.specs.WidthsText.{exchanged_line, fitting_line, fitting_lines, lines_words, widths_lines};
ghost use Rattle.ans_write.specs.Puts.{Puts};

use ans_hints::OtherWidths;
use ans_model::size::Size;
use ans_write::Outbox;
use std::io::Write;

/// Puts that the stated lines come out with this width, if there is one.
fn put_fitting_line<W: Write>(out: &mut Outbox<'_, W>, lines: usize, width: Option<u16>)
    ensures { Puts W.contents out.old out.new (fitting_line lines width) }
{
    let Some(width) = width else {
        return;
    };
    out.put(b"hint: with ");
    out.put_decimal(width as u64);
    out.put(b" columns the ");
    out.put_decimal(lines as u64);
    out.put(lines_words(lines));
    out.put_decimal(width as u64);
    out.put(b"\n");
}

fn lines_words(lines: usize) -> &'static [u8]
    ensures { result.now ≡ lines_words lines }
{
    if lines == 1 {
        b" stated line comes out: --columns "
    } else {
        b" stated lines come out: --columns "
    }
}

fn put_fitting_lines<W: Write>(out: &mut Outbox<'_, W>, lines: usize, widths: &[Option<u16>])
    ensures { Puts W.contents out.old out.new (fitting_lines lines widths.now) }
{
    for width in widths {
        put_fitting_line(out, lines, *width);
    }
}

fn put_exchanged_line<W: Write>(out: &mut Outbox<'_, W>, size: Size, exchanged: bool)
    ensures { Puts W.contents out.old out.new (exchanged_line size exchanged) }
{
    if !exchanged {
        return;
    }
    out.put(b"hint: columns and lines may be exchanged in the record: --columns ");
    out.put_decimal(size.lines() as u64);
    out.put(b" --lines ");
    out.put_decimal(size.width() as u64);
    out.put(b"\n");
}

/// Puts a line for each other width with which the lines that a record states come out, and one if it seems to have
/// columns and lines exchanged.
pub(crate) fn put_widths<W: Write>(out: &mut Outbox<'_, W>, size: Size, widths: &OtherWidths)
    ensures { Puts W.contents out.old out.new (widths_lines size widths.now) }
{
    put_fitting_lines(out, size.lines(), &widths.fitting);
    put_exchanged_line(out, size, widths.exchanged);
}
