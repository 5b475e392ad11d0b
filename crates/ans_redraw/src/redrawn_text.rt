//! What redrawing says: what was changed, or why there is none.

ghost use Rattle.ans_redraw.specs.RedrawnText.{length_line, redrawn_text, unredrawn_text};
ghost use Rattle.ans_write.specs.Puts.{Puts};

use crate::outcome::{Redrawn, Unredrawn};
use ans_report::{put_end_mark_line, put_fault_line, put_reset_line};
use ans_sauce::Reset;
use ans_write::Outbox;
use std::io::Write;

/// What may help if the drawing is refused.
const MEND: &[u8] = b"see anscheck why; fix the drawing with mend, then redraw it\n";

/// How many bytes a file may have, and what may help if it would have more.
const TOO_LONG: &[u8] = b" bytes, and the limit is 16777216\n\
    fewer cells, end marks or changes of colour make it shorter\n";

fn put_length_line<W: Write>(out: &mut Outbox<'_, W>, length: &Reset)
    ensures { Puts W.contents out.old out.new (length_line length.now) }
{
    out.put(b"content length ");
    out.put_decimal(u64::from(length.is));
    out.put(b", was ");
    out.put_decimal(u64::from(length.was));
    out.put(b"\n");
}

/// Puts what redrawing changed in a file: how long its content is and was, the end mark if one was added, and the
/// file size if it differs.
pub fn put_redrawn<W: Write>(out: &mut Outbox<'_, W>, redrawn: &Redrawn)
    ensures { Puts W.contents out.old out.new (redrawn_text redrawn.now) }
{
    put_length_line(out, &redrawn.content);
    put_end_mark_line(out, redrawn.end_mark);
    put_reset_line(out, b"file size ", &redrawn.file_size);
}

/// Puts why a file is not redrawn, and what may help: the line of a fault as `check` has it, or how long the file
/// would be.
pub fn put_unredrawn<W: Write>(out: &mut Outbox<'_, W>, reason: &Unredrawn)
    ensures { Puts W.contents out.old out.new (unredrawn_text reason.now) }
{
    match reason {
        Unredrawn::Refused(fault) => {
            put_fault_line(out, fault);
            out.put(MEND);
        }
        Unredrawn::TooLong(whole) => {
            out.put(b"the redrawn file would have ");
            out.put_decimal(*whole as u64);
            out.put(TOO_LONG);
        }
    }
}
