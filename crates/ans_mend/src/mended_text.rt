//! What mending says was changed.
ghost use Rattle.std.specs.Prelude.{◌≡◌};
ghost use Rattle.std.specs.List.{flat_map};
ghost use Rattle.ans_mend.specs.MendedText.{at_text, by_count, comments_line, flag_line, front_line, has_switch};
ghost use Rattle.ans_mend.specs.MendedText.{mended_text, older_line, others_text, quoted_excerpt, record_line};
ghost use Rattle.ans_mend.specs.MendedText.{replaced_text};
ghost use Rattle.ans_mend.specs.MendedText.{tail_line, taken_line, times_line, width_line};
ghost use Rattle.ans_write.specs.Puts.{Puts};

use crate::idle::put_idle_lines;
use crate::outcome::{GivenRecord, Mended, NonBlink, Reset};
use crate::taking_out::{Excerpt, TakenOut};
use ans_pens::Times;
use ans_report::{put_counted, put_end_mark_line, put_quoted_bytes, put_reset_line};
use ans_write::Outbox;
use std::io::Write;

fn by_count<'a>(count: usize, one: &'a [u8], several: &'a [u8]) -> &'a [u8]
    ensures { result.now ≡ by_count count one.now several.now }
{
    if count == 1 { one } else { several }
}

fn put_at<W: Write>(out: &mut Outbox<'_, W>, times: &Times)
    ensures { Puts W.contents out.old out.new (at_text times.now) }
{
    out.put(by_count(times.count, b", at ", b", first at "));
    out.put_decimal(times.first as u64);
}

/// Puts what was done, to how many, and where: after the number the text for one or for several.
fn put_times_line<W: Write>(
    out: &mut Outbox<'_, W>,
    done: &[u8],
    one: &[u8],
    several: &[u8],
    times: &Option<Times>,
)
    ensures { Puts W.contents out.old out.new (times_line done.now one.now several.now times.now) }
{
    if let Some(times) = times {
        out.put(done);
        out.put_decimal(times.count as u64);
        out.put(by_count(times.count, one, several));
        put_at(out, times);
        out.put(b"\n");
    }
}

fn put_excerpt<W: Write>(out: &mut Outbox<'_, W>, text: &Excerpt)
    ensures { Puts W.contents out.old out.new (quoted_excerpt text.now) }
{
    put_quoted_bytes(out, &text.bytes[..text.length.min(32)]);
    if text.length > 32 {
        out.put(b" ..");
    }
}

fn put_others<W: Write>(out: &mut Outbox<'_, W>, count: usize)
    ensures { Puts W.contents out.old out.new (others_text count) }
{
    if count <= 1 {
        return;
    }
    out.put(b", and ");
    out.put_decimal((count - 1) as u64);
    out.put(b" more like it");
}

fn put_taken_line<W: Write>(out: &mut Outbox<'_, W>, taken: &Option<TakenOut>)
    ensures { Puts W.contents out.old out.new (taken_line taken.now) }
{
    if let Some(taken) = taken {
        out.put(b"removed ");
        put_excerpt(out, &taken.text);
        out.put(b" at ");
        out.put_decimal(taken.times.first as u64);
        put_others(out, taken.times.count);
        out.put(b"\n");
    }
}

fn put_taken_lines<W: Write>(out: &mut Outbox<'_, W>, kinds: &[Option<TakenOut>])
    ensures { Puts W.contents out.old out.new (flat_map taken_line kinds.now) }
{
    for taken in kinds {
        put_taken_line(out, taken);
    }
}

fn put_tail_line<W: Write>(out: &mut Outbox<'_, W>, cut: &Option<Times>)
    ensures { Puts W.contents out.old out.new (tail_line cut.now) }
{
    if let Some(cut) = cut {
        out.put(b"cut off ");
        put_counted(out, cut.count as u64, b"byte");
        out.put(b" after the record, at ");
        out.put_decimal(cut.first as u64);
        out.put(b"\n");
    }
}

fn put_replaced<W: Write>(out: &mut Outbox<'_, W>, count: usize)
    ensures { Puts W.contents out.old out.new (replaced_text count) }
{
    if count == 0 {
        return;
    }
    out.put(b", in place of ");
    put_counted(out, count as u64, b"byte");
}

fn put_record_line<W: Write>(out: &mut Outbox<'_, W>, given: &Option<GivenRecord>)
    ensures { Puts W.contents out.old out.new (record_line given.now) }
{
    if let Some(given) = given {
        out.put(b"added an end mark and a record for ");
        put_counted(out, u64::from(given.width), b"column");
        out.put(b", at ");
        out.put_decimal(given.place as u64);
        put_replaced(out, given.cut);
        out.put(b"\n");
    }
}

fn put_comments_line<W: Write>(out: &mut Outbox<'_, W>, comments: &Option<Reset>)
    ensures { Puts W.contents out.old out.new (comments_line comments.now) }
{
    if let Some(comments) = comments {
        put_reset_line(out, b"comments ", comments);
    }
}

fn put_older_line<W: Write>(out: &mut Outbox<'_, W>, older: &Option<Times>)
    ensures { Puts W.contents out.old out.new (older_line older.now) }
{
    if let Some(older) = older {
        out.put(b"removed an older record, ");
        put_counted(out, older.count as u64, b"byte");
        out.put(b" in all, at ");
        out.put_decimal(older.first as u64);
        out.put(b"\n");
    }
}

fn put_width_line<W: Write>(out: &mut Outbox<'_, W>, width: &Option<Reset>)
    ensures { Puts W.contents out.old out.new (width_line width.now) }
{
    if let Some(width) = width {
        put_reset_line(out, b"columns ", width);
    }
}

/// Whether a switch for bright backgrounds was removed.
fn has_switch(mended: &Mended) -> bool
    ensures { result ≡ has_switch mended.now }
{
    mended.edits.told.kinds[0].is_some()
}

fn put_flag_line<W: Write>(out: &mut Outbox<'_, W>, switched: bool, flag: &NonBlink)
    ensures { Puts W.contents out.old out.new (flag_line switched flag.now.was flag.now.is) }
{
    match (flag.was, flag.is) {
        (false, true) => out.put(b"set the non-blink flag\n"),
        (true, false) => out.put(b"cleared the non-blink flag\n"),
        (true, true) if switched => out.put(b"left the non-blink flag set\n"),
        (false, false) if switched => out.put(b"left the non-blink flag cleared\n"),
        _ => {}
    }
}

fn put_front_line<W: Write>(out: &mut Outbox<'_, W>, front: bool)
    ensures { Puts W.contents out.old out.new (front_line front) }
{
    if front {
        out.put(b"added the safe beginning, 25 bytes\n");
    }
}

/// Puts what mending changed in a file, a line for each kind of change, in the order of the changes, and a
/// line for each flag that was given and did nothing.
pub fn put_mended<W: Write>(out: &mut Outbox<'_, W>, mended: &Mended)
    ensures { Puts W.contents out.old out.new (mended_text mended.now) }
{
    put_tail_line(out, &mended.tail);
    put_record_line(out, &mended.given_record);
    put_width_line(out, &mended.width);
    put_comments_line(out, &mended.comments);
    put_older_line(out, &mended.older);
    put_times_line(
        out,
        b"added ",
        b" carriage return before a line feed",
        b" carriage returns before line feeds",
        &mended.edits.returns,
    );
    put_taken_lines(out, &mended.edits.told.kinds);
    put_flag_line(out, has_switch(mended), &mended.non_blink);
    put_times_line(
        out,
        b"removed ",
        b" line end after a full row",
        b" line ends after full rows",
        &mended.edits.row_ends,
    );
    put_times_line(
        out,
        b"removed ",
        b" line end, byte 00h or sequence at the end",
        b" line ends, bytes 00h or sequences at the end",
        &mended.edits.last_ends,
    );
    put_times_line(
        out,
        b"named the colours of ",
        b" sequence",
        b" sequences",
        &mended.edits.named_colours,
    );
    put_reset_line(out, b"lines ", &mended.lines);
    put_end_mark_line(out, mended.end_mark);
    put_front_line(out, mended.front);
    put_reset_line(out, b"file size ", &mended.file_size);
    put_idle_lines(out, mended);
}
