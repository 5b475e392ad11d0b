//! The text of what a content needs.
ghost use Rattle.std.specs.Prelude.{None};
ghost use Rattle.ans_write.specs.Puts.{Puts};
ghost use Rattle.ans_report.specs.Headings.{heading_of};
ghost use Rattle.ans_report.specs.NeedsBytes.{needs_bytes};
ghost use Rattle.ans_model.specs.Text.NeedsText.{needed_parts, needs_text};

use crate::fault_lines::put_refusal;
use crate::heading::put_heading;
use crate::lines::put_words;
use crate::report::put_refused_content;
use ans_model::start::Start;
use ans_sauce::{Fault, Judged, Parts};
use ans_write::Outbox;
use std::io::Write;

/// What a file needs: the least class of starts from which its content passes, which passes from exactly
/// the classes that know each part which this one knows; or why it is refused even from the cleared start.
pub type Needs<'a> = Judged<'a, Fault, Fault, Start>;

/// Puts the names of the parts that a class knows, with a blank between each two, or `nothing` where it
/// knows none.
pub fn put_needed_parts<W: Write>(out: &mut Outbox<'_, W>, class: Start)
    ensures { Puts W.contents out.old out.new (needed_parts class) }
{
    if class == Start::any() {
        out.put(b"nothing");
        return;
    }
    put_words(out, class.part_names().as_slice());
}

fn put_least<W: Write>(out: &mut Outbox<'_, W>, parts: &Parts<'_>, class: Start)
    ensures { Puts W.contents out.old out.new (needs_text (heading_of parts.now None) class) }
{
    put_heading(out, parts, None);
    out.put(b"needs: ");
    put_needed_parts(out, class);
    out.put(b"\n");
}

/// Puts what a content needs: the size, the content's length and the notes, and then `needs:` and
/// the parts of the start that have to be known, or `nothing`; or the fault of a refusal. Where the
/// record or the layout is refused, only the fault is put.
pub fn put_needs<W: Write>(out: &mut Outbox<'_, W>, needs: &Needs<'_>)
    ensures { Puts W.contents out.old out.new (needs_bytes needs.now) }
{
    match needs {
        Judged::NoContent(fault) => put_refusal(out, fault),
        Judged::Refused(parts, fault) => put_refused_content(out, parts, None, fault),
        Judged::Passes(parts, class) => put_least(out, parts, *class),
    }
}
