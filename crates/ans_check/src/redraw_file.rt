//! What is written of a file that is to be redrawn.

ghost use Rattle.std.specs.Prelude.{◌≤◌, length, Ok};
ghost use Rattle.ans_model.specs.Bytes.{longest_file};
ghost use Rattle.ans_model.specs.Screen.StartClass.{all_known};
ghost use Rattle.ans_model.specs.Verdict.Good.{GoodWith};
ghost use Rattle.ans_sauce.specs.Parts.{content_of, size_of};
ghost use Rattle.ans_sauce.specs.Split.{IsSplit};
ghost use Rattle.ans_redraw.specs.Redrawing.{TellsRedrawn};
ghost use Rattle.ans_check.specs.Ending.{ending_of_redrawing};
ghost use Rattle.ans_check.specs.Reported.{PutsTold};

use crate::errors::RunError;
use crate::exit_status::Ending;
use crate::task::Task;
use ans_model::start::Start;
use ans_play::Picture;
use ans_redraw::{Redrawn, Unredrawn, put_redrawn_file, redrawn_with};
use ans_sauce::Parts;
use ans_screen::{PlaneGrid, Screen};
use ans_verdict::{Verdict, check};
use ans_write::Outbox;
use std::alloc::{AllocError, Global};
use std::io::Write;

/// Puts the file redrawn with the picture that it shows from the cleared start, where it has room for it.
fn put_with_picture<W: Write, G: Screen>(
    out: &mut Outbox<'_, W>,
    file: &[u8],
    parts: &Parts<'_>,
    picture: &Picture<G>,
) -> Result<Redrawn, Unredrawn>
    requires length { length file.now ≤ longest_file }
    requires split { IsSplit file.now parts.now }
    requires good { GoodWith (size_of parts.now) all_known (content_of parts.now) picture.now }
    ensures { PutsTold W.contents (TellsRedrawn file.now) out.old out.new (Ok result) }
{
    let redrawn = redrawn_with(file, parts, picture)?;
    put_redrawn_file(out, file, parts, picture, &redrawn);
    Ok(redrawn)
}

/// Redraws a file, and puts it.
fn redraw_file<W: Write>(
    alloc: Global,
    out: &mut Outbox<'_, W>,
    file: &[u8],
) -> Result<Result<Redrawn, Unredrawn>, AllocError>
    requires { length file.now ≤ longest_file }
    ensures { PutsTold W.contents (TellsRedrawn file.now) out.old out.new result }
{
    let verdict = check::<PlaneGrid>(alloc, file, Start::CLEARED)?;
    match &verdict {
        Verdict::Pass(parts, picture) => Ok(put_with_picture(out, file, parts, picture)),
        Verdict::Refused(_, fault) => Ok(Err(Unredrawn::Refused(*fault))),
    }
}

/// A file is to be redrawn.
pub(crate) struct Redrawing;

impl Task for Redrawing {
    ghost use Rattle.std.proofs.Common.{rules};

    type Answer = Result<Redrawn, Unredrawn>;

    ghost tells = { λ _. TellsRedrawn };

    ghost ending_of = { λ _. ending_of_redrawing };

    fn put<W: Write>(
        &self,
        alloc: Global,
        out: &mut Outbox<'_, W>,
        file: Vec<u8>,
    ) -> Result<Result<Redrawn, Unredrawn>, AllocError> {
        redraw_file(alloc, out, file.as_slice())
    }

    fn ending(&self, answer: &Result<Result<Redrawn, Unredrawn>, RunError>) -> Ending {
        Ending::of_redrawing(answer)
    }

    ghost fails = { Prim.search rules };
}
