//! From an input to an output: a file is read whole, something is done with it, and a text is written.
ghost use Rattle.std.specs.Prelude.{◌≡◌, ◌↔◌, ◌≤◌, ℕ, List, Result, Err, false, length, IsErrOf};
ghost use Rattle.ans_model.specs.Bytes.{longest_file};
ghost use Rattle.ans_write.specs.Tried.{has_failed};
ghost use Rattle.ans_check.specs.Reported.{PutsTold};
ghost use Rattle.ans_check.specs.Served.{ServesAs};
ghost use Rattle.ans_check.specs.declared.errors.RunError.{RunError};
ghost use Rattle.ans_check.specs.declared.errors.RunError.TheVariants.{Write};
ghost use Rattle.ans_check.specs.declared.exit_status.Ending.{Ending};
ghost use Rattle.ans_check.specs.declared.exit_status.Ending.TheVariants.{Run};

use crate::errors::RunError;
use crate::exit_status::Ending;
use crate::reading::read_all;
use ans_report::{DeviceFault, Tried, WriteFault};
use ans_write::Outbox;
use std::alloc::{AllocError, Global};
use std::io::{Read, Write};

/// What is done with a file that was read.
pub(crate) trait Task {
    /// What comes of it.
    type Answer: Copy;

    /// Of a file, an answer and a text: the answer is right of the file, and the text is what is written.
    ghost tells: { Self → List ℕ → Self.Answer → List ℕ → Type 0 };

    /// How the program ends at what came of it.
    ghost ending_of: { Self → Result Self.Answer RunError → Ending };

    /// Does it, and puts the text. `Err` says that memory ran out; then nothing is put.
    fn put<W: Write>(
        &self,
        alloc: Global,
        out: &mut Outbox<'_, W>,
        file: Vec<u8>,
    ) -> Result<Self::Answer, AllocError>
        requires { length file.items ≤ longest_file }
        ensures { PutsTold W.contents (tells self.now file.items) out.old out.new result };

    /// How the program ends at what came of it.
    fn ending(&self, answer: &Result<Self::Answer, RunError>) -> Ending
        ensures { result ≡ ending_of self.now answer.now };

    /// It ends as after a failed write exactly there.
    ghost fails: { (task : Self) (answer : Result Self.Answer RunError)
        → (ending_of task answer ≡ Run (Err Write)) ↔ IsErrOf answer Write };
}

/// Reads the whole input, does the task, and writes its text. Nothing is written before all that is to be
/// is known.
pub(crate) fn run_task<T: Task, R: Read, W: Write>(
    alloc: Global,
    reader: &mut Tried<R>,
    writer: &mut Tried<W>,
    task: &T,
) -> Result<T::Answer, RunError>
    requires reads { has_failed reader.old ≡ false }
    requires writes { has_failed writer.old ≡ false }
    ensures { ServesAs R.remaining W.contents (T.tells task.now) reader.old reader.new writer.old writer.new result }
{
    let file = read_all(alloc, reader)?;
    let mut out = Outbox::new(writer);
    let Ok(answer) = task.put(alloc, &mut out, file) else {
        return Err(RunError::Memory);
    };
    match out.finish() {
        Ok(()) => Ok(answer),
        Err(WriteFault) => Err(RunError::Write),
    }
}

/// The same, and then has the writer hand on what it holds back of the text.
pub(crate) fn serve_task<T: Task, R: Read, W: Write>(
    alloc: Global,
    reader: &mut Tried<R>,
    writer: &mut Tried<W>,
    task: &T,
) -> Result<T::Answer, RunError>
    requires reads { has_failed reader.old ≡ false }
    requires writes { has_failed writer.old ≡ false }
    ensures { ServesAs R.remaining W.contents (T.tells task.now) reader.old reader.new writer.old writer.new result }
{
    let answer = run_task(alloc, reader, writer, task)?;
    match writer.flush() {
        Ok(()) => Ok(answer),
        Err(DeviceFault) => Err(RunError::Write),
    }
}
