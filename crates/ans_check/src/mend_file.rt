//! What is written of a file that is to be mended.
ghost use Rattle.std.specs.Prelude.{◌≡◌, ◌+◌, ◌≤◌, ◌++◌, length, take};
ghost use Rattle.ans_model.specs.Bytes.{longest_file};
ghost use Rattle.ans_write.specs.Puts.{Puts};
ghost use Rattle.ans_mend.specs.Mending.{front_bytes};
ghost use Rattle.ans_mend.specs.MendingRoom.{most_put};
ghost use Rattle.ans_check.specs.Ending.{ending_of_mending};
ghost use Rattle.ans_check.specs.Reported.{PutsTold};
ghost use Rattle.ans_fix.specs.Trials.{TellsFixed};

use crate::errors::RunError;
use crate::exit_status::Ending;
use crate::task::Task;
use ans_fix::{Unhelped, with_room};
use ans_mend::{Draft, MendError, Mended, mend_on};
use ans_model::beginning::SAFE_BEGINNING;
use ans_options::Mends;
use ans_screen::PlaneGrid;
use ans_verdict::NewScreens;
use ans_write::Outbox;
use std::alloc::{AllocError, Global};
use std::io::Write;

/// Puts the bytes that come first, if they are needed.
fn put_front<W: Write>(out: &mut Outbox<'_, W>, front: bool)
    ensures { Puts W.contents out.old out.new (front_bytes front) }
{
    if front {
        out.put(SAFE_BEGINNING);
    }
}

/// Puts a mended file: the bytes that come first, if they are needed, and those of its draft.
fn put_file<W: Write>(out: &mut Outbox<'_, W>, front: bool, draft: &[u8])
    ensures { Puts W.contents out.old out.new (front_bytes front ++ draft.now) }
{
    put_front(out, front);
    out.put(draft);
}

/// Mends the file at the front of a memory, and puts it. If it is not mended, the flags that were not asked for are
/// tried on copies.
fn mend_in<W: Write>(
    alloc: Global,
    out: &mut Outbox<'_, W>,
    memory: &mut [u8],
    file: &[u8],
    mends: &Mends,
) -> Result<Result<Mended, Unhelped>, AllocError>
    requires within { length file.now + most_put mends.now file.now ≤ length memory.old }
    requires front { take (length file.now) memory.old ≡ file.now }
    requires length { length file.now ≤ longest_file }
    ensures { PutsTold W.contents (TellsFixed mends.now file.now) out.old out.new result }
{
    let mut draft = Draft::new(memory, file.len());
    match mend_on(&mut NewScreens::<PlaneGrid>::new(alloc), &mut draft, mends) {
        Ok(mended) => {
            put_file(out, mended.front, draft.file());
            Ok(Ok(mended))
        }
        Err(error) => match error {
            MendError::NotMended(reason) => {
                let unhelped = Unhelped::of(alloc, file, mends, reason)?;
                Ok(Err(unhelped))
            }
            MendError::Memory => Err(AllocError),
        },
    }
}

/// Mends a copy of a file, and puts it.
pub(crate) fn mend_file<W: Write>(
    alloc: Global,
    out: &mut Outbox<'_, W>,
    file: &[u8],
    mends: &Mends,
) -> Result<Result<Mended, Unhelped>, AllocError>
    requires { length file.now ≤ longest_file }
    ensures { PutsTold W.contents (TellsFixed mends.now file.now) out.old out.new result }
{
    let mut memory = with_room(alloc, file, mends)?;
    mend_in(alloc, out, memory.as_mut_slice(), file, mends)
}

impl Task for Mends {
    ghost use Rattle.std.proofs.Common.{rules};

    type Answer = Result<Mended, Unhelped>;

    ghost tells = { TellsFixed };

    ghost ending_of = { ending_of_mending };

    fn put<W: Write>(
        &self,
        alloc: Global,
        out: &mut Outbox<'_, W>,
        file: Vec<u8>,
    ) -> Result<Result<Mended, Unhelped>, AllocError> {
        mend_file(alloc, out, file.as_slice(), self)
    }

    fn ending(&self, answer: &Result<Result<Mended, Unhelped>, RunError>) -> Ending {
        Ending::of_mending(self, answer)
    }

    ghost fails = { Prim.search rules };
}
