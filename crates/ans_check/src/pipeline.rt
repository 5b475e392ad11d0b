//! Bytes to bytes.
ghost use Rattle.std.specs.Prelude.{◌≡◌, ◌≤◌, false, length, is_some, not, option_map};
ghost use Rattle.ans_model.specs.Bytes.{longest_file};
ghost use Rattle.ans_sauce.specs.Parts.{record_of};
ghost use Rattle.ans_write.specs.Tried.{has_failed};
ghost use Rattle.ans_write.specs.Puts.{Puts};
ghost use Rattle.ans_check.specs.CommandText.{Reports, ReportsCheck, ReportsNeeds, ReportsShow};
ghost use Rattle.ans_report.specs.RecordReports.{ReportsSauce};
ghost use Rattle.ans_check.specs.CommandText.{ReportsTokens, IsReportOf, shown_text};
ghost use Rattle.ans_check.specs.CommandText.{ReportsChecked};
ghost use Rattle.ans_check.specs.WhyTold.{ReportsTold};
ghost use Rattle.ans_verdict.specs.FileVerdict.{fault_of};
ghost use Rattle.ans_check.specs.Reported.{IsPut, PutsTold};
ghost use Rattle.ans_check.specs.Served.{Serves};
ghost use Rattle.ans_check.specs.declared.exit_status.Ending.TheVariants.{Run};

use crate::check_file::Checked;
use crate::errors::RunError;
use crate::exit_status::Ending;
use crate::last_words::LastWords;
use crate::task::{Task, run_task};
use crate::why_told::put_told;
use ans_fix::fix_for;
use ans_model::start::Start;
use ans_options::{Command, Form, Options};
use ans_play::Picture;
use ans_report::{Report, Tried, put_needs, put_record, put_refusal, put_report, put_tokens};
use ans_sauce::{Parts, split};
use ans_screen::{PlaneGrid, Screen};
use ans_show::{put_page, put_terminal};
use ans_verdict::{FileScreens, Verdict, check, needs_on, why_on};
use ans_write::Outbox;
use std::alloc::{AllocError, Global};
use std::io::{Read, Write};

/// The report of a verdict.
fn report_of<'a, G: Screen>(verdict: &'a Verdict<'a, G>, start: Start, cells: bool) -> Report<'a, G>
    ensures { IsReportOf verdict.now start cells result }
{
    match verdict {
        Verdict::Pass(parts, picture) => Report::Pass {
            parts,
            start,
            picture,
            cells,
        },
        Verdict::Refused(parts, fault) => Report::Refused {
            parts: parts.as_ref(),
            start,
            fault: *fault,
        },
    }
}

/// Whether a verdict is a pass.
fn is_pass<G: Screen>(verdict: &Verdict<'_, G>) -> bool
    ensures { result ≡ not (is_some (fault_of verdict.now)) }
{
    matches!(verdict, Verdict::Pass(_, _))
}

/// Puts the report of a check. Returns what came of it.
pub(crate) fn tell_check<W: Write>(
    alloc: Global,
    out: &mut Outbox<'_, W>,
    file: &[u8],
    start: Start,
    cells: bool,
) -> Result<Checked, AllocError>
    requires { length file.now ≤ longest_file }
    ensures { PutsTold W.contents (ReportsChecked file.now start cells) out.old out.new result }
{
    let verdict = check::<PlaneGrid>(alloc, file, start)?;
    put_report(out, &report_of(&verdict, start, cells));
    Ok(Checked::of_verdict(&verdict))
}

/// Puts the report of a check. Returns whether the file passes.
fn tell_verdict<W: Write>(
    alloc: Global,
    out: &mut Outbox<'_, W>,
    file: &[u8],
    start: Start,
    cells: bool,
) -> Result<bool, AllocError>
    requires { length file.now ≤ longest_file }
    ensures { PutsTold W.contents (ReportsCheck file.now start cells) out.old out.new result }
{
    let checked = tell_check(alloc, out, file, start, cells)?;
    Ok(checked.is_pass())
}

/// Puts a picture in colour, with the title of its record and by its non-blink flag.
fn put_picture<W: Write, G: Screen>(
    out: &mut Outbox<'_, W>,
    picture: &Picture<G>,
    parts: &Parts<'_>,
    form: Form,
)
    ensures { Puts W.contents out.old out.new (shown_text form (record_of parts.now) picture.now) }
{
    let sauce = parts.sauce();
    let non_blink = sauce.is_non_blink();
    match form {
        Form::Terminal => put_terminal(out, picture, non_blink, false),
        Form::Vga => put_terminal(out, picture, non_blink, true),
        Form::Page => put_page(out, picture, sauce.title(), non_blink),
    }
}

/// Puts the picture of a file that passes, or the report of its refusal. Returns whether the file
/// passes.
fn tell_picture<W: Write>(
    alloc: Global,
    out: &mut Outbox<'_, W>,
    file: &[u8],
    start: Start,
    form: Form,
) -> Result<bool, AllocError>
    requires { length file.now ≤ longest_file }
    ensures { PutsTold W.contents (ReportsShow file.now start form) out.old out.new result }
{
    let verdict = check::<PlaneGrid>(alloc, file, start)?;
    match &verdict {
        Verdict::Pass(parts, picture) => put_picture(out, picture, parts, form),
        Verdict::Refused(_, _) => put_report(out, &report_of(&verdict, start, false)),
    }
    Ok(is_pass(&verdict))
}

/// Puts what a file's record says, or why the file is refused. Returns whether it is accepted.
fn tell_record<W: Write>(out: &mut Outbox<'_, W>, file: &[u8]) -> bool
    ensures { IsPut W.contents (ReportsSauce file.now) out.old out.new result }
{
    match split(file) {
        Ok(parts) => {
            put_record(out, &parts);
            true
        }
        Err(fault) => {
            put_refusal(out, &fault);
            false
        }
    }
}

/// Puts the tokens of a file's content, or why the file is refused. Returns whether it is accepted
/// and all of its content is read.
fn tell_tokens<W: Write>(out: &mut Outbox<'_, W>, file: &[u8]) -> bool
    requires { length file.now ≤ longest_file }
    ensures { IsPut W.contents (ReportsTokens file.now) out.old out.new result }
{
    match split(file) {
        Ok(parts) => put_tokens(out, parts.content()).is_none(),
        Err(fault) => {
            put_refusal(out, &fault);
            false
        }
    }
}

/// Puts what a file needs, or why it is refused. Returns whether it is known what it needs.
fn tell_needs<W: Write>(
    alloc: Global,
    out: &mut Outbox<'_, W>,
    file: &[u8],
) -> Result<bool, AllocError>
    requires { length file.now ≤ longest_file }
    ensures { PutsTold W.contents (ReportsNeeds file.now) out.old out.new result }
{
    let found = needs_on(&mut FileScreens::<PlaneGrid>::new(alloc), file)?;
    put_needs(out, &found);
    Ok(found.is_pass())
}

/// Puts why a file is refused, or what it relies on, and the commands that write it fixed, for the file of this name.
/// Returns whether it passes from the cleared start.
pub(crate) fn tell_why<W: Write>(
    alloc: Global,
    out: &mut Outbox<'_, W>,
    file: &[u8],
    name: Option<&str>,
) -> Result<bool, AllocError>
    requires { length file.now ≤ longest_file }
    ensures { PutsTold W.contents (ReportsTold (option_map (λ n. n.now) name.entry) file.now) out.old out.new result }
{
    let why = why_on(&mut FileScreens::<PlaneGrid>::new(alloc), file)?;
    let fix = fix_for(alloc, file, &why)?;
    let words = LastWords::of(alloc, name)?;
    put_told(out, &words, &why, &fix);
    Ok(why.is_pass())
}

/// Puts what the chosen command says of a file. Returns whether the file passes.
fn run_command<W: Write>(
    alloc: Global,
    out: &mut Outbox<'_, W>,
    file: &[u8],
    options: &Options,
) -> Result<bool, AllocError>
    requires { length file.now ≤ longest_file }
    ensures { PutsTold W.contents (Reports options.now file.now) out.old out.new result }
{
    match options.command {
        Command::Why => tell_why(alloc, out, file, None),
        Command::Check => tell_verdict(alloc, out, file, options.start, options.cells),
        Command::Show(form) => tell_picture(alloc, out, file, options.start, form),
        Command::Sauce => Ok(tell_record(out, file)),
        Command::Tokens => Ok(tell_tokens(out, file)),
        Command::Needs => tell_needs(alloc, out, file),
        // for one input they report what it needs
        Command::Table(_) | Command::Mend(_) | Command::Redraw => tell_needs(alloc, out, file),
    }
}

impl Task for Options {
    ghost use Rattle.std.proofs.Common.{rules};

    type Answer = bool;

    ghost tells = { Reports };

    ghost ending_of = { λ _. Run };

    fn put<W: Write>(
        &self,
        alloc: Global,
        out: &mut Outbox<'_, W>,
        file: Vec<u8>,
    ) -> Result<bool, AllocError> {
        run_command(alloc, out, file.as_slice(), self)
    }

    fn ending(&self, answer: &Result<bool, RunError>) -> Ending {
        Ending::Run(*answer)
    }

    ghost fails = { Prim.search rules };
}

/// Reads the whole input, and writes what the options ask of it: the report of a check, the picture
/// of a pass in colour, the text of the record (SAUCE 00.5), the tokens of the content, what the
/// content needs, or why the file is refused, the command that mends it, and what it relies on. Where
/// the content is refused, what should show its picture reports that as a check does. Where the record or the layout
/// is refused, F1 to F8, the two lines of the refusal are written instead. A table is of files by their
/// names, and [`table`](crate::table) writes it; a file is mended by [`mend`](crate::mend) and
/// redrawn by [`redraw`](crate::redraw). With one of these as the command, what the one input here needs is
/// written. `Ok` says whether the file passes: its content is found good, its record is accepted, all of its content
/// is read as tokens, or its content is good from the cleared start, so that it is known what it needs.
///
/// `Read` comes exactly where the reader failed in the call, `Write` exactly where the writer did,
/// and `TooLong` as soon as more than 16,777,216 bytes were read. `Memory` comes where memory runs
/// out for the file or, where its content is played, for its screen. After `Write` a prefix of the
/// text was written, and after any other error nothing. It makes at most 16,777,218 reads.
pub fn run<R: Read, W: Write>(
    alloc: Global,
    reader: &mut Tried<R>,
    writer: &mut Tried<W>,
    options: &Options,
) -> Result<bool, RunError>
    requires reads { has_failed reader.old ≡ false }
    requires writes { has_failed writer.old ≡ false }
    ensures { Serves R.remaining W.contents options.now reader.old reader.new writer.old writer.new result }
{
    run_task(alloc, reader, writer, options)
}
