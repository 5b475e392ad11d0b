//! What is written of a file that is mended by its own findings.

ghost use Rattle.std.specs.Prelude.{◌≡◌, ◌≤◌, IfOk, length};
ghost use Rattle.ans_model.specs.Bytes.{longest_file};
ghost use Rattle.ans_check.specs.Reported.{PutsTold};
ghost use Rattle.ans_check.specs.Suggesting.{AreFlagsOfFix, TellsSuggested, ending_of_suggested};

use crate::errors::RunError;
use crate::exit_status::Ending;
use crate::mend_file::mend_file;
use crate::task::Task;
use ans_fix::{Unhelped, fix_for};
use ans_mend::Mended;
use ans_options::Mends;
use ans_screen::PlaneGrid;
use ans_verdict::{FileScreens, why_on};
use ans_write::Outbox;
use std::alloc::{AllocError, Global};
use std::io::Write;

/// What came of a file that was mended by its own findings.
#[derive(Clone, Copy)]
pub(crate) struct Suggested {
    /// What they call for.
    pub mends: Mends,
    /// What that changed of the file, or why the file is not mended.
    pub came: Result<Mended, Unhelped>,
}

impl Suggested {
    /// How the program ends at what came of a file.
    fn ending(answer: &Result<Suggested, RunError>) -> Ending
        ensures { result ≡ ending_of_suggested answer.now }
    {
        match answer {
            Ok(suggested) => Ending::of_mending(&suggested.mends, &Ok(suggested.came)),
            Err(error) => Ending::Run(Err(*error)),
        }
    }
}

/// The flags of the line `fix:` that `why` has for a file, and no flags if it has no such line.
fn flags_of_fix(alloc: Global, file: &[u8]) -> Result<Mends, AllocError>
    requires { length file.now ≤ longest_file }
    ensures { IfOk result (AreFlagsOfFix file.now) }
{
    let why = why_on(&mut FileScreens::<PlaneGrid>::new(alloc), file)?;
    let fix = fix_for(alloc, file, &why)?;
    Ok(fix.unwrap_or(Mends::NONE))
}

/// Mends a copy of a file by its own findings, and puts it.
fn mend_suggested<W: Write>(
    alloc: Global,
    out: &mut Outbox<'_, W>,
    file: &[u8],
) -> Result<Suggested, AllocError>
    requires { length file.now ≤ longest_file }
    ensures { PutsTold W.contents (TellsSuggested file.now) out.old out.new result }
{
    let mends = flags_of_fix(alloc, file)?;
    let came = mend_file(alloc, out, file, &mends)?;
    Ok(Suggested { mends, came })
}

/// A file is to be mended by its own findings.
pub(crate) struct Suggesting;

impl Task for Suggesting {
    ghost use Rattle.std.proofs.Common.{rules};

    type Answer = Suggested;

    ghost tells = { λ _. TellsSuggested };

    ghost ending_of = { λ _. ending_of_suggested };

    fn put<W: Write>(
        &self,
        alloc: Global,
        out: &mut Outbox<'_, W>,
        file: Vec<u8>,
    ) -> Result<Suggested, AllocError> {
        mend_suggested(alloc, out, file.as_slice())
    }

    fn ending(&self, answer: &Result<Suggested, RunError>) -> Ending {
        Suggested::ending(answer)
    }

    ghost fails = { Prim.search rules };
}
