//! What is wrong with each of many files.

ghost use Rattle.std.specs.Prelude.{◌≡◌, ◌≤◌, ◌↔◌, false, length, [], unwrap_or, IfErr, IfOk, IsErrOf, IsTrue};
ghost use Rattle.ans_model.specs.Bytes.{longest_file};
ghost use Rattle.ans_model.specs.Text.Words.{texts_of};
ghost use Rattle.ans_write.specs.Puts.{Puts};
ghost use Rattle.ans_write.specs.Tried.{has_failed};
ghost use Rattle.ans_check.specs.FileRows.{bytes_given};
ghost use Rattle.ans_check.specs.Rows.{PutsRow};
ghost use Rattle.ans_check.specs.WhyRows.{TellsWhy, TellsWhyOf, WritesWhys, error_line, file_line, outcome_of_why};
ghost use Rattle.ans_check.specs.WhyRows.{unread_counts_said};

use crate::errors::RunError;
use crate::file_rows::{FileRows, tell_rows};
use crate::inputs::Inputs;
use crate::last_words::LastWords;
use crate::why_told::put_told;
use ans_fix::fix_for;
use ans_report::{Tried, put_named_line};
use ans_sauce::Judged;
use ans_table::{Counts, Outcome, Unread, put_name};
use ans_verdict::{KeptScreens, why_on};
use ans_why::Why;
use ans_write::Outbox;
use std::alloc::{AllocError, Global};
use std::io::Write;

/// Puts the line of a file's name.
fn put_file_line<W: Write>(out: &mut Outbox<'_, W>, name: &[u8])
    ensures { Puts W.contents out.old out.new (file_line name.now) }
{
    out.put(b"file: ");
    put_name(out, name);
    out.put(b"\n");
}

/// Puts the line of a file that was not read. Returns how it came out.
fn put_error_line<W: Write>(out: &mut Outbox<'_, W>, why: Unread) -> Outcome
    ensures puts { Puts W.contents out.old out.new (error_line why) }
    ensures unread { result ≡ Outcome.Unread }
{
    put_named_line(out, b"error", why.text().as_bytes());
    Outcome::Unread
}

/// How a file came out of which this is said.
fn outcome_of_why(why: &Why<'_>) -> Outcome
    ensures { result ≡ outcome_of_why why.now }
{
    match why {
        Judged::Passes(_, pass) => Outcome::of_pass(&pass.needs),
        Judged::NoContent(_) | Judged::Refused(..) => Outcome::Refused,
    }
}

/// Puts what is wrong with a file, or what it relies on. Returns how it came out.
fn put_why_of<W: Write>(
    alloc: Global,
    screens: &mut KeptScreens,
    out: &mut Outbox<'_, W>,
    name: &[u8],
    given: Result<&[u8], Unread>,
) -> Outcome
    requires { IfOk (bytes_given given) (λ file. length file ≤ longest_file) }
    ensures { PutsRow W.contents ⊥ (TellsWhyOf name.now (bytes_given given.entry)) out.old out.new (Ok result) }
{
    let file = match given {
        Ok(file) => file,
        Err(why) => return put_error_line(out, why),
    };
    let Ok(why) = why_on(screens, file) else {
        return put_error_line(out, Unread::Memory);
    };
    let Ok(fix) = fix_for(alloc, file, &why) else {
        return put_error_line(out, Unread::Memory);
    };
    let Ok(words) = LastWords::of_bytes(alloc, name) else {
        return put_error_line(out, Unread::Memory);
    };
    put_told(out, &words, &why, &fix);
    outcome_of_why(&why)
}

/// The answers of `why`.
struct WhyRows;

impl FileRows for WhyRows {
    ghost tells = { λ _. TellsWhy };

    ghost may_lack = { λ _. ⊥ };

    fn put<W: Write>(
        &self,
        alloc: Global,
        screens: &mut KeptScreens,
        out: &mut Outbox<'_, W>,
        name: &[u8],
        given: Result<&[u8], Unread>,
    ) -> Result<Outcome, AllocError> {
        put_file_line(out, name);
        Ok(put_why_of(alloc, screens, out, name, given))
    }
}

/// Writes what is wrong with each file of these names, or what it relies on, after a line with its name. A file that
/// cannot be read has a line with the reason. Returns how many files came out how.
///
/// At `Err` a prefix was written. `Err(Write)` comes exactly if the device failed in the call; no other error comes.
pub(crate) fn explain<I: Inputs, W: Write>(
    alloc: Global,
    inputs: I,
    names: &[&[u8]],
    output: &mut Tried<W>,
) -> Result<Counts, RunError>
    requires { has_failed output.old ≡ false }
    ensures device { IsErrOf result RunError.Write ↔ IsTrue (has_failed output.new) }
    ensures errors { IfErr result (λ e. e ≡ RunError.Write) }
    ensures whys { WritesWhys W.contents I.Reader.remaining (I.is_file inputs) (I.fails inputs)
        (texts_of names.now) output.old output.new result }
{
    let mut out = Outbox::new(output);
    tell_rows(alloc, &WhyRows, inputs, names, &mut out)
}

/// Puts the line that says on standard error how many of the files were not read, if any.
pub(crate) fn put_unread_counts<W: Write>(out: &mut Outbox<'_, W>, counts: &Counts)
    ensures { Puts W.contents out.old out.new (unwrap_or (unread_counts_said counts.now) []) }
{
    if counts.unread == 0 {
        return;
    }
    out.put(b"anscheck: ");
    out.put_decimal(counts.unread as u64);
    out.put(b" of ");
    out.put_decimal(counts.files as u64);
    out.put(b" files not read\n");
}
