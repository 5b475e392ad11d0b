//! A text for each of many files, which are opened by their names.

ghost use Rattle.std.specs.Prelude.{◌≡◌, ◌≤◌, ℕ, List, Result, [], length, IfOk};
ghost use Rattle.clap.specs.Words.{Text};
ghost use Rattle.ans_model.specs.Bytes.{longest_file};
ghost use Rattle.ans_model.specs.Text.Words.{texts_of};
ghost use Rattle.ans_table.specs.declared.counts.Outcome.{Outcome};
ghost use Rattle.ans_table.specs.declared.finding.Unread.{Unread};
ghost use Rattle.ans_write.specs.Puts.{device_of};
ghost use Rattle.ans_check.specs.FileRows.{MayEndRows, TellsNamed, WritesRows, bytes_given};
ghost use Rattle.ans_check.specs.Rows.{EndsRows, IsReady, PutsRow, WritesRow};

use crate::errors::RunError;
use crate::inputs::Inputs;
use crate::reading::read_all;
use ans_report::{Tried, WriteFault};
use ans_table::{Counts, Outcome, Unopened, Unread};
use ans_verdict::KeptScreens;
use ans_write::Outbox;
use std::alloc::{AllocError, Global};
use std::io::Write;

/// What is written of each of many files.
pub(crate) trait FileRows {
    /// Of a name, what was read of its file, an outcome and a text: the outcome is right, and the text is what is
    /// written.
    ghost tells: { Self → Text → Result (List ℕ) Unread → Outcome → List ℕ → Type 0 };

    /// Whether memory may run out for the text.
    ghost may_lack: { Self → Type 0 };

    /// Puts the text of one file, of which this was read. `Err` says that memory ran out; then nothing is put.
    fn put<W: Write>(
        &self,
        alloc: Global,
        screens: &mut KeptScreens,
        out: &mut Outbox<'_, W>,
        name: &[u8],
        given: Result<&[u8], Unread>,
    ) -> Result<Outcome, AllocError>
        requires { IfOk (bytes_given given) (λ file. length file ≤ longest_file) }
        ensures { PutsRow W.contents (may_lack self.now) (tells self.now name.now (bytes_given given.entry))
            out.old out.new result };
}

/// Puts the text of one file, and has it written and handed on.
fn tell_given<T: FileRows, W: Write>(
    alloc: Global,
    rows: &T,
    screens: &mut KeptScreens,
    out: &mut Outbox<'_, W>,
    name: &[u8],
    given: Result<&[u8], Unread>,
) -> Result<Outcome, RunError>
    requires ready { IsReady out.old }
    requires length { IfOk (bytes_given given) (λ file. length file ≤ longest_file) }
    ensures { WritesRow W.contents (MayEndRows (T.may_lack rows.now))
        (T.tells rows.now name.now (bytes_given given.entry)) out.old out.new result }
{
    let Ok(outcome) = rows.put(alloc, screens, out, name, given) else {
        return Err(RunError::Memory);
    };
    match out.hand_on() {
        Ok(()) => Ok(outcome),
        Err(WriteFault) => Err(RunError::Write),
    }
}

/// Opens and reads the file of this name, and writes its text.
pub(crate) fn tell_named<T: FileRows, I: Inputs, W: Write>(
    alloc: Global,
    rows: &T,
    screens: &mut KeptScreens,
    inputs: I,
    name: &[u8],
    out: &mut Outbox<'_, W>,
) -> Result<Outcome, RunError>
    requires { IsReady out.old }
    ensures { WritesRow W.contents (MayEndRows (T.may_lack rows.now))
        (TellsNamed I.Reader.remaining (I.is_file inputs) (I.fails inputs) (T.tells rows.now) name.now)
        out.old out.new result }
{
    let Ok(text) = str::from_utf8(name) else {
        return tell_given(alloc, rows, screens, out, name, Err(Unread::NameNotText));
    };
    let input = match inputs.file(text) {
        Ok(input) => input,
        Err(error) => {
            let reason = Unopened::of(&error);
            return tell_given(
                alloc,
                rows,
                screens,
                out,
                name,
                Err(Unread::Unopened(reason)),
            );
        }
    };
    let mut reader = Tried::new(input);
    match read_all(alloc, &mut reader) {
        Ok(file) => tell_given(alloc, rows, screens, out, name, Ok(file.as_slice())),
        Err(why) => tell_given(alloc, rows, screens, out, name, Err(why)),
    }
}

/// Writes the texts of the files of these names, in their order. A text is written, and the writer is asked to hand it
/// on, before the next file is opened. A file that cannot be opened or read, or that is too long, has a text too.
/// Returns how many files came out how.
///
/// At `Err` a prefix of the texts was written. `Err(Write)` comes exactly if the device failed in the call.
pub(crate) fn tell_rows<T: FileRows, I: Inputs, W: Write>(
    alloc: Global,
    rows: &T,
    inputs: I,
    names: &[&[u8]],
    out: &mut Outbox<'_, W>,
) -> Result<Counts, RunError>
    requires { IsReady out.old }
    ensures ends { EndsRows (MayEndRows (T.may_lack rows.now)) out.old out.new result }
    ensures rows { WritesRows W.contents
        (TellsNamed I.Reader.remaining (I.is_file inputs) (I.fails inputs) (T.tells rows.now))
        [] (texts_of names.now) (device_of out.old) (device_of out.new) result }
{
    let mut counts = Counts::NONE;
    let mut screens = KeptScreens::new(alloc);
    for name in names {
        let outcome = tell_named(alloc, rows, &mut screens, inputs, name, out)?;
        counts.add(outcome);
    }
    Ok(counts)
}
