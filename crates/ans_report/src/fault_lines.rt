//! The lines of a refusal.
ghost use Rattle.ans_model.specs.Text.FaultText.{position_text, fault_line};
ghost use Rattle.ans_model.specs.Text.ReportText.{refusal_text};
ghost use Rattle.ans_report.specs.FaultTold.{fault_told};
ghost use Rattle.ans_write.specs.Puts.{Puts};

use crate::meanings::fault_text;
use ans_sauce::{Cause, Fault};
use ans_write::Outbox;
use std::io::Write;

fn put_position<W: Write>(out: &mut Outbox<'_, W>, cause: &Cause)
    ensures { Puts W.contents out.old out.new (position_text cause.now) }
{
    let Cause::UnknownCell { row, col } = *cause else {
        return;
    };
    out.put(b" (row ");
    out.put_decimal(u64::from(row));
    out.put(b", column ");
    out.put_decimal(u64::from(col));
    out.put(b")");
}

/// Puts a fault within a line: `at 249, F21 scrolls`. The offset is in bytes from the file's start; F25 has its row
/// and column after it, from 1.
pub fn put_fault<W: Write>(out: &mut Outbox<'_, W>, fault: &Fault)
    ensures { Puts W.contents out.old out.new (fault_told fault.now) }
{
    out.put(b"at ");
    out.put_decimal(fault.offset as u64);
    out.put(b", ");
    out.put(fault_text(fault).as_bytes());
    put_position(out, &fault.cause);
}

/// Puts the line of a fault: its offset, its text, and for F25 the row and the column, from 1.
pub fn put_fault_line<W: Write>(out: &mut Outbox<'_, W>, fault: &Fault)
    ensures { Puts W.contents out.old out.new (fault_line fault.now) }
{
    out.put(b"at ");
    out.put_decimal(fault.offset as u64);
    out.put(b": ");
    out.put(fault_text(fault).as_bytes());
    put_position(out, &fault.cause);
    out.put(b"\n");
}

/// Puts the two lines of a refusal: the verdict and the fault.
pub fn put_refusal<W: Write>(out: &mut Outbox<'_, W>, fault: &Fault)
    ensures { Puts W.contents out.old out.new (refusal_text fault.now) }
{
    out.put(b"verdict: refused\n");
    put_fault_line(out, fault);
}
