//! The words by which mending is asked for.

ghost use Rattle.std.specs.Prelude.{◌≡◌, map};
ghost use Rattle.std.specs.List.{flat_map};
ghost use Rattle.ans_model.specs.MendFlags.{row_of_flag};
ghost use Rattle.ans_write.specs.Puts.{Puts};
ghost use Rattle.ans_fix.specs.FlagsText.{asks_for, flag_text, flags_text, number_text};

use ans_model::mends::{MendFlag, MendStep, Mends, mend_flags};
use ans_write::Outbox;
use std::io::Write;

/// Whether a step is asked for.
fn asks_for(mends: &Mends, step: MendStep) -> bool
    ensures { result ≡ asks_for mends.now step }
{
    match step {
        MendStep::TakeOut => mends.take_out,
        MendStep::Crlf => mends.crlf,
        MendStep::JoinRows => mends.join_rows,
        MendStep::Mixed => mends.mixed,
        MendStep::NameColours => mends.name_colours,
        MendStep::Ice => mends.ice,
        MendStep::RepairRecord => mends.repair_record,
        MendStep::LeastLines => mends.least_lines,
    }
}

fn put_flag<W: Write>(out: &mut Outbox<'_, W>, mends: &Mends, flag: &MendFlag)
    ensures { Puts W.contents out.old out.new (flag_text mends.now (row_of_flag flag.now)) }
{
    if asks_for(mends, flag.step) {
        out.put(b" --");
        out.put(flag.name.as_bytes());
    }
}

fn put_each<W: Write>(out: &mut Outbox<'_, W>, mends: &Mends, flags: &[MendFlag])
    ensures { Puts W.contents out.old out.new (flat_map (λ flag. flag_text mends.now (row_of_flag flag)) flags.now) }
{
    for flag in flags {
        put_flag(out, mends, flag);
    }
}

/// Puts a flag and its number, if there is one.
fn put_number<W: Write>(out: &mut Outbox<'_, W>, flag: &[u8], number: Option<u16>)
    ensures { Puts W.contents out.old out.new (number_text flag.now number) }
{
    if let Some(number) = number {
        out.put(flag);
        out.put_decimal(number as u64);
    }
}

/// Puts the flags of `mend` that ask for this, each after a blank.
pub fn put_flags<W: Write>(out: &mut Outbox<'_, W>, mends: &Mends)
    ensures { Puts W.contents out.old out.new (flags_text mends.now) }
{
    put_each(out, mends, mend_flags());
    put_number(out, b" --lines ", mends.lines);
    put_number(out, b" --columns ", mends.columns);
    put_number(out, b" --add-record ", mends.add_record);
}
