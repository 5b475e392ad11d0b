//! The columns of a row.

ghost use Rattle.std.specs.Prelude.{◌≡◌, Some, option_map, decimal};
ghost use Rattle.std.specs.Option.{option_copied};
ghost use Rattle.ans_sauce.specs.RecordBytes.{sauce_bytes};
ghost use Rattle.ans_write.specs.Puts.{Puts};
ghost use Rattle.ans_table.specs.Columns.{by_pair, column, content_columns, escaped_byte, escaped_text};
ghost use Rattle.ans_table.specs.Columns.{fault_columns, field_columns, flag_columns, found_columns, pass_columns};
ghost use Rattle.ans_table.specs.Columns.{parts_columns, players_columns, record_columns, stated_columns};
ghost use Rattle.ans_table.specs.Columns.{verdict_columns};

use crate::counts::Outcome;
use crate::finding::{Finding, PassFinding, RowFinding};
use crate::labels::{put_labels, taller_word, verdict_word};
use ans_kinds::Players;
use ans_model::fault::Fault;
use ans_players::difference::Difference;
use ans_report::{answer_text, put_needed_parts, put_words};
use ans_sauce::{Judged, Parts, Record};
use ans_write::{Outbox, put_characters};
use std::io::Write;

fn put_column<W: Write>(out: &mut Outbox<'_, W>, text: &[u8])
    ensures { Puts W.contents out.old out.new (column text.now) }
{
    out.put(text);
    out.put(b"\t");
}

fn put_number<W: Write>(out: &mut Outbox<'_, W>, number: usize)
    ensures { Puts W.contents out.old out.new (column (decimal number)) }
{
    out.put_decimal(number as u64);
    out.put(b"\t");
}

fn put_fault<W: Write>(out: &mut Outbox<'_, W>, fault: &Fault)
    ensures { Puts W.contents out.old out.new (fault_columns fault.now) }
{
    out.put(b"refused\t\t\t\t\tF");
    put_number(out, fault.cause.number() as usize);
    put_number(out, fault.offset);
}

fn put_players<W: Write>(out: &mut Outbox<'_, W>, players: &Players)
    ensures { Puts W.contents out.old out.new (players_columns players.now) }
{
    match players {
        Players::Any(class) => {
            out.put(b"all\t");
            put_needed_parts(out, *class);
            out.put(b"\t");
        }
        Players::InNamedColours(class, _) => {
            put_column(out, Difference::OwnColours.word().as_bytes());
            put_needed_parts(out, *class);
            out.put(b"\t");
        }
        Players::Agreeing(used) => {
            put_words(out, used.words().as_slice());
            out.put(b"\t\t");
        }
    }
}

fn put_pass<W: Write>(out: &mut Outbox<'_, W>, said: &PassFinding)
    ensures { Puts W.contents out.old out.new (pass_columns said.now) }
{
    put_column(out, verdict_word(Outcome::of_pass(&said.needs)).as_bytes());
    put_needed_parts(out, said.needs);
    out.put(b"\t");
    put_players(out, &said.players);
    put_column(out, taller_word(said.taller).as_bytes());
    out.put(b"\t\t\t\t");
}

fn put_found<W: Write>(out: &mut Outbox<'_, W>, finding: &Finding<'_>)
    ensures { Puts W.contents out.old out.new (found_columns finding.now) }
{
    match finding {
        Judged::NoContent(said) => {
            put_fault(out, &said.fault);
            out.put(b"\t\t");
        }
        Judged::Refused(_, said) => {
            put_fault(out, &said.fault);
            put_number(out, said.row);
            put_number(out, said.column);
        }
        Judged::Passes(_, said) => put_pass(out, said),
    }
}

/// The columns from the verdict to the place of the fault.
pub(crate) fn put_verdict<W: Write>(out: &mut Outbox<'_, W>, finding: &RowFinding<'_>)
    ensures { Puts W.contents out.old out.new (verdict_columns finding.now) }
{
    match finding {
        Ok(finding) => put_found(out, finding),
        Err(why) => {
            out.put(b"error\t\t\t\t\t");
            put_column(out, why.text().as_bytes());
            out.put(b"\t\t\t");
        }
    }
}

fn put_size<W: Write>(out: &mut Outbox<'_, W>, sauce: &Record<'_>)
    ensures { Puts W.contents out.old out.new (stated_columns (Some (sauce_bytes sauce.now))) }
{
    put_number(out, sauce.width());
    put_number(out, sauce.lines());
}

/// The columns of the stated size.
pub(crate) fn put_stated_size<W: Write>(out: &mut Outbox<'_, W>, sauce: Option<Record<'_>>)
    ensures { Puts W.contents out.old out.new (stated_columns (option_map sauce_bytes sauce.entry)) }
{
    match sauce {
        Some(sauce) => put_size(out, &sauce),
        None => out.put(b"\t\t"),
    }
}

fn put_parts<W: Write>(out: &mut Outbox<'_, W>, parts: &Parts<'_>)
    ensures { Puts W.contents out.old out.new (parts_columns parts.now) }
{
    put_number(out, parts.content().len());
    put_labels(out, parts.notes().as_slice());
    out.put(b"\t");
}

/// The columns of the content's length and of the notes.
pub(crate) fn put_content<W: Write>(out: &mut Outbox<'_, W>, parts: Option<&Parts<'_>>)
    ensures { Puts W.contents out.old out.new (content_columns (option_copied parts.entry)) }
{
    match parts {
        Some(parts) => put_parts(out, parts),
        None => out.put(b"\t\t"),
    }
}

/// What a pair of bits of the flags says: nothing if it is 0 or 3.
fn pair_text(pair: u8, one: &'static [u8], two: &'static [u8]) -> &'static [u8]
    ensures { result.now ≡ by_pair pair one.now two.now }
{
    match pair {
        1 => one,
        2 => two,
        _ => b"",
    }
}

fn put_flags<W: Write>(out: &mut Outbox<'_, W>, sauce: &Record<'_>)
    ensures { Puts W.contents out.old out.new (flag_columns (sauce_bytes sauce.now)) }
{
    put_column(out, answer_text(sauce.is_non_blink()));
    put_column(out, pair_text(sauce.letter_spacing(), b"8", b"9"));
    put_column(out, pair_text(sauce.aspect_ratio(), b"stretch", b"square"));
}

fn put_escaped_byte<W: Write>(out: &mut Outbox<'_, W>, byte: u8)
    ensures { Puts W.contents out.old out.new (escaped_byte byte) }
{
    if byte == b'\\' {
        out.put(b"\\\\");
        return;
    }
    put_characters(out, &[byte]);
}

fn put_escaped<W: Write>(out: &mut Outbox<'_, W>, text: &[u8])
    ensures { Puts W.contents out.old out.new (escaped_text text.now) }
{
    for byte in text {
        put_escaped_byte(out, *byte);
    }
}

fn put_field<W: Write>(out: &mut Outbox<'_, W>, text: &[u8])
    ensures { Puts W.contents out.old out.new (column (escaped_text text.now)) }
{
    put_escaped(out, text);
    out.put(b"\t");
}

fn put_fields<W: Write>(out: &mut Outbox<'_, W>, sauce: &Record<'_>)
    ensures { Puts W.contents out.old out.new (field_columns (sauce_bytes sauce.now)) }
{
    put_field(out, sauce.font());
    put_field(out, sauce.date());
    put_field(out, sauce.title());
    put_field(out, sauce.author());
    put_field(out, sauce.group());
}

/// The columns of the record's flags and texts.
pub(crate) fn put_record<W: Write>(out: &mut Outbox<'_, W>, sauce: Option<Record<'_>>)
    ensures { Puts W.contents out.old out.new (record_columns (option_map sauce_bytes sauce.entry)) }
{
    match sauce {
        Some(sauce) => {
            put_flags(out, &sauce);
            put_fields(out, &sauce);
        }
        None => out.put(b"\t\t\t\t\t\t\t\t"),
    }
}
