//! What was changed in a file that is written again.

ghost use Rattle.ans_report.specs.Changes.{end_mark_line, reset_line};
ghost use Rattle.ans_write.specs.Puts.{Puts};

use ans_sauce::Reset;
use ans_write::Outbox;
use std::io::Write;

/// Puts the line of a number of the record that was corrected: what it is and was. Nothing if it is the same.
pub fn put_reset_line<W: Write>(out: &mut Outbox<'_, W>, what: &[u8], number: &Reset)
    ensures { Puts W.contents out.old out.new (reset_line what.now number.now) }
{
    if number.was == number.is {
        return;
    }
    out.put(what);
    out.put_decimal(u64::from(number.is));
    out.put(b", was ");
    out.put_decimal(u64::from(number.was));
    out.put(b"\n");
}

/// Puts the line of an end mark that was added, with its offset in bytes from the file's start. Nothing if none was.
pub fn put_end_mark_line<W: Write>(out: &mut Outbox<'_, W>, place: Option<usize>)
    ensures { Puts W.contents out.old out.new (end_mark_line place) }
{
    if let Some(place) = place {
        out.put(b"added an end mark at ");
        out.put_decimal(place as u64);
        out.put(b"\n");
    }
}
