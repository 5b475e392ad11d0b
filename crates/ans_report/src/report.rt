//! The report on a file.
ghost use Rattle.std.specs.Prelude.{◌≡◌, ◌↔◌, false, IsTrue, IsErr, OnOk};
ghost use Rattle.std.specs.Option.{option_copied};
ghost use Rattle.ans_write.specs.Tried.{has_failed, inner_of};
ghost use Rattle.ans_write.specs.Writes.{WritesText};
ghost use Rattle.ans_write.specs.Puts.{Puts};
ghost use Rattle.ans_report.specs.ReportBytes.{IsFitting, TellsCells, refused_text, report_bytes};
ghost use Rattle.ans_report.specs.Headings.{heading_of};
ghost use Rattle.ans_model.specs.Text.ReportText.{RefusedFor, refusal_text, report_text};

use crate::fault_lines::put_refusal;
use crate::heading::put_heading;
use crate::picture_text::put_pass;
use ans_model::start::Start;
use ans_play::Picture;
use ans_sauce::{Fault, Parts};
use ans_screen::Screen;
use ans_write::{Outbox, Tried, WriteFault};
use std::io::Write;

/// What a report says of a file.
#[derive(Drop)]
pub enum Report<'a, G: Screen> {
    /// The content plays well from every start of the class, and shows the picture. `cells` asks for
    /// the byte and the attribute of each cell too.
    Pass {
        parts: &'a Parts<'a>,
        start: Start,
        picture: &'a Picture<G>,
        cells: bool,
    },
    /// The file is refused: for its content, or, with no parts, for its record or its layout.
    Refused {
        parts: Option<&'a Parts<'a>>,
        start: Start,
        fault: Fault,
    },
}

pub(crate) fn put_refused_content<W: Write>(
    out: &mut Outbox<'_, W>,
    parts: &Parts<'_>,
    start: Option<Start>,
    fault: &Fault,
)
    ensures { Puts W.contents out.old out.new
        (report_text (heading_of parts.now start) (RefusedFor fault.now)) }
{
    put_heading(out, parts, start);
    put_refusal(out, fault);
}

fn put_refused<W: Write>(
    out: &mut Outbox<'_, W>,
    parts: Option<&Parts<'_>>,
    start: Start,
    fault: &Fault,
)
    ensures { Puts W.contents out.old out.new
        (refused_text (option_copied parts.entry) start fault.now) }
{
    match parts {
        Some(parts) => put_refused_content(out, parts, Some(start), fault),
        None => put_refusal(out, fault),
    }
}

/// Puts the report, as [`write_report`] writes it.
pub fn put_report<W: Write, G: Screen>(out: &mut Outbox<'_, W>, r: &Report<'_, G>)
    ensures text { Puts W.contents out.old out.new (report_bytes r.now) }
    ensures cells_back { TellsCells r.now }
{
    match r {
        Report::Pass {
            parts,
            start,
            picture,
            cells,
        } => put_pass(out, parts, *start, picture, *cells),
        Report::Refused {
            parts,
            start,
            fault,
        } => put_refused(out, *parts, *start, fault),
    }
}

/// Writes the report: the size, the start, the content's length and the notes, and then the picture
/// of a pass or the fault of a refusal. The start is `any`, `cleared`, or `known` and the parts that
/// are known. With `cells` a pass ends in a line `cells:` and one line for each row, which has four
/// lower-case hexadecimal digits a cell: two for its byte, then two for its attribute. Without parts
/// only the fault is written. The picture of a pass has the width and the lines that its parts state.
///
/// `Err` comes exactly where the device failed in the call, and then a prefix of the text was
/// written.
pub fn write_report<W: Write, G: Screen>(
    w: &mut Tried<W>,
    r: &Report<'_, G>,
) -> Result<(), WriteFault>
    requires works { has_failed w.old ≡ false }
    requires fits { IsFitting r.now }
    ensures device { IsErr result ↔ IsTrue (has_failed w.new) }
    ensures bytes { WritesText (W.contents (inner_of w.old)) (W.contents (inner_of w.new))
        result (report_bytes r.now) }
    ensures cells_back { OnOk result (TellsCells r.now) }
{
    let mut out = Outbox::new(w);
    put_report(&mut out, r);
    out.finish()
}

/// Writes just the two lines of a refusal.
///
/// `Err` comes exactly where the device failed in the call, and then a prefix of them was written.
pub fn write_refusal<W: Write>(w: &mut Tried<W>, f: &Fault) -> Result<(), WriteFault>
    requires { has_failed w.old ≡ false }
    ensures device { IsErr result ↔ IsTrue (has_failed w.new) }
    ensures bytes { WritesText (W.contents (inner_of w.old)) (W.contents (inner_of w.new))
        result (refusal_text f.now) }
{
    let mut out = Outbox::new(w);
    put_refusal(&mut out, f);
    out.finish()
}
