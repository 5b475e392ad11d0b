//! A copy of a file that can be mended in place.

ghost use Rattle.std.specs.Prelude.{◌≡◌, ◌+◌, ◌≤◌, IfOk, length, take};
ghost use Rattle.ans_model.specs.Bytes.{longest_file};
ghost use Rattle.ans_mend.specs.MendingRoom.{most_put};

use ans_mend::room_for;
use ans_model::mends::Mends;
use std::alloc::{AllocError, Global};

/// A copy of the file, with room after it for what is added when it is mended so.
pub fn with_room(alloc: Global, file: &[u8], mends: &Mends) -> Result<Vec<u8>, AllocError>
    requires { length file.now ≤ longest_file }
    ensures room { IfOk result (λ memory.
        length file.now + most_put mends.now file.now ≤ length memory.items) }
    ensures file { IfOk result (λ memory. take (length file.now) memory.items ≡ file.now) }
{
    let mut memory = Vec::from_slice(alloc, file)?;
    memory.resize(file.len().saturating_add(room_for(file, mends)), 0)?;
    Ok(memory)
}
