//! What mending comes to.

ghost use Rattle.std.specs.Prelude.{◌≤◌, IfOk, length};
ghost use Rattle.ans_model.specs.Bytes.{longest_file};
ghost use Rattle.ans_fix.specs.Trials.{ComesTo};

use crate::copies::with_room;
use ans_mend::{Draft, MendError, Mended, Unmended, mend_on};
use ans_model::mends::Mends;
use ans_screen::PlaneGrid;
use ans_verdict::NewScreens;
use std::alloc::{AllocError, Global};

/// What mending a file comes to, tried on a copy: what would be changed, or why it is not mended. `AllocError` says
/// that memory ran out.
pub fn tried(
    alloc: Global,
    file: &[u8],
    mends: &Mends,
) -> Result<Result<Mended, Unmended>, AllocError>
    requires { length file.now ≤ longest_file }
    ensures { IfOk result (ComesTo mends.now file.now) }
{
    let mut memory = with_room(alloc, file, mends)?;
    let mut draft = Draft::new(memory.as_mut_slice(), file.len());
    match mend_on(&mut NewScreens::<PlaneGrid>::new(alloc), &mut draft, mends) {
        Ok(mended) => Ok(Ok(mended)),
        Err(error) => match error {
            MendError::NotMended(reason) => Ok(Err(reason)),
            MendError::Memory => Err(AllocError),
        },
    }
}
