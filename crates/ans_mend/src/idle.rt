//! What mending says of a flag that was given and did nothing.

ghost use Rattle.std.specs.Prelude.{◌≡◌, is_some};
ghost use Rattle.std.specs.List.{list_any};
ghost use Rattle.ans_mend.specs.IdleText.{crlf_reason, idle_colours, idle_columns, idle_crlf, idle_ice};
ghost use Rattle.ans_mend.specs.IdleText.{idle_join_rows, idle_least, idle_line, idle_lines, idle_mixed, idle_record};
ghost use Rattle.ans_mend.specs.IdleText.{idle_comments, idle_take_out, idle_text, is_same, keeps_number, rows_reason};
ghost use Rattle.ans_write.specs.Puts.{Puts};

use crate::outcome::{Mended, Reset};
use crate::taking_out::TakenOut;
use ans_model::mends::Mends;
use ans_write::Outbox;
use std::io::Write;

fn is_same(number: &Reset) -> bool
    ensures { result ≡ is_same number.now }
{
    number.was == number.is
}

/// Whether no other number is stated.
fn keeps_number(number: &Option<Reset>) -> bool
    ensures { result ≡ keeps_number number.now }
{
    match number {
        None => true,
        Some(number) => is_same(number),
    }
}

fn has_some(kinds: &[Option<TakenOut>]) -> bool
    ensures { result ≡ list_any is_some kinds.now }
{
    kinds.iter().any(|kind| kind.is_some())
}

/// Whether no record was added, though that is asked for.
fn idle_record(mended: &Mended) -> bool
    ensures { result ≡ idle_record mended.now }
{
    mended.asked.add_record.is_some() && mended.given_record.is_none()
}

/// Whether no other width was stated.
fn idle_columns(mended: &Mended) -> bool
    ensures { result ≡ idle_columns mended.now }
{
    mended.asked.columns.is_some() && keeps_number(&mended.width)
}

/// Whether the number of comments was not changed, and no older record removed.
fn idle_comments(mended: &Mended) -> bool
    ensures { result ≡ idle_comments mended.now }
{
    mended.asked.repair_record && keeps_number(&mended.comments) && mended.older.is_none()
}

/// Whether no return was added.
fn idle_crlf(mended: &Mended) -> bool
    ensures { result ≡ idle_crlf mended.now }
{
    mended.asked.crlf && mended.edits.returns.is_none()
}

/// Whether no sequence was removed, and nothing at the end.
fn idle_take_out(mended: &Mended) -> bool
    ensures { result ≡ idle_take_out mended.now }
{
    mended.asked.take_out && !has_some(&mended.edits.told.kinds) && mended.edits.last_ends.is_none()
}

/// Whether the flag was set before.
fn idle_ice(mended: &Mended) -> bool
    ensures { result ≡ idle_ice mended.now }
{
    mended.asked.ice && mended.non_blink.was
}

/// Whether no line end after a full row was removed.
fn idle_join_rows(mended: &Mended) -> bool
    ensures { result ≡ idle_join_rows mended.now }
{
    mended.asked.join_rows && mended.edits.row_ends.is_none()
}

/// Whether nothing is asked for that it would change.
fn idle_mixed(mended: &Mended) -> bool
    ensures { result ≡ idle_mixed mended.now }
{
    mended.asked.mixed && !(mended.asked.crlf || mended.asked.join_rows)
}

/// Whether no colour was named.
fn idle_colours(mended: &Mended) -> bool
    ensures { result ≡ idle_colours mended.now }
{
    mended.asked.name_colours && mended.edits.named_colours.is_none()
}

/// Whether the lines that are given were not stated.
fn idle_lines(mended: &Mended) -> bool
    ensures { result ≡ idle_lines mended.now }
{
    mended.asked.lines.is_some() && is_same(&mended.lines)
}

/// Whether the least number was not stated.
fn idle_least(mended: &Mended) -> bool
    ensures { result ≡ idle_least mended.now }
{
    mended.asked.least_lines && mended.asked.lines.is_none() && is_same(&mended.lines)
}

/// What `--crlf` would take.
fn crlf_reason(asked: &Mends) -> &'static [u8]
    ensures { result.now ≡ crlf_reason asked.now }
{
    if asked.mixed {
        b"--crlf: nothing done, no line feed lacks a return\n"
    } else {
        b"--crlf: nothing done, it needs line feeds and no return (--mixed: those without one)\n"
    }
}

/// What `--join-rows` would take.
fn rows_reason(asked: &Mends) -> &'static [u8]
    ensures { result.now ≡ rows_reason asked.now }
{
    if asked.mixed {
        b"--join-rows: nothing done, no full row has a line end\n"
    } else {
        b"--join-rows: nothing done, it needs two full rows, each with a line end (--mixed: those with one)\n"
    }
}

fn put_idle<W: Write>(out: &mut Outbox<'_, W>, idle: bool, text: &[u8])
    ensures { Puts W.contents out.old out.new (idle_line idle text.now) }
{
    if idle {
        out.put(text);
    }
}

/// Puts a line for each flag that was given and did nothing, in the order of the changes.
pub(crate) fn put_idle_lines<W: Write>(out: &mut Outbox<'_, W>, mended: &Mended)
    ensures { Puts W.contents out.old out.new (idle_text mended.now) }
{
    put_idle(
        out,
        idle_record(mended),
        b"--add-record: nothing done, the file has a record\n",
    );
    put_idle(
        out,
        idle_columns(mended),
        b"--columns: nothing done, the record states them\n",
    );
    put_idle(
        out,
        idle_comments(mended),
        b"--record: nothing done, no comments to count and no older record to remove\n",
    );
    put_idle(out, idle_crlf(mended), crlf_reason(&mended.asked));
    put_idle(
        out,
        idle_take_out(mended),
        b"--take-out: nothing done, nothing of that kind is refused\n",
    );
    put_idle(
        out,
        idle_ice(mended),
        b"--ice: nothing done, the flag is set\n",
    );
    put_idle(out, idle_join_rows(mended), rows_reason(&mended.asked));
    put_idle(
        out,
        idle_mixed(mended),
        b"--mixed: nothing done, it is for --crlf and --join-rows\n",
    );
    put_idle(
        out,
        idle_colours(mended),
        b"--name-colours: nothing done, no colour lacks a name\n",
    );
    put_idle(
        out,
        idle_lines(mended),
        b"--lines: nothing done, the drawing passes with those that are stated\n",
    );
    put_idle(
        out,
        idle_least(mended),
        b"--least-lines: nothing done, the drawing passes with those that are stated\n",
    );
}
