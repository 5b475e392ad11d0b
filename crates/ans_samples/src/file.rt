//! Files that end in a SAUCE record.

ghost use Rattle.std.specs.Prelude.{◌≡◌, ◌++◌, IfOk};
ghost use Rattle.ans_samples.specs.Edits.{overwritten, edited};

use std::alloc::{AllocError, Global};

/// The plain record (SAUCE 00.5): Character/ANSi of 2 columns and 1 line, a file size of 2, blank
/// texts, the date 19960101, and no comments, flags or font.
const PLAIN: &[u8; 128] = b"SAUCE00\
    \x20                                  \
    \x20                                       19960101\
    \x02\x00\x00\x00\x01\x01\x02\x00\x01\x00\x00\x00\x00\x00\x00\x00\
    \x00\x00\x00\x00\x00\x00\x00\x00\x00\x00\x00\x00\x00\x00\x00\x00\x00\x00\x00\x00\x00\x00";

fn overwrite(sauce: &mut [u8], at: usize, bytes: &[u8])
    ensures { sauce.new ≡ overwritten sauce.old at bytes.now }
{
    if at <= sauce.len() && bytes.len() <= sauce.len() - at {
        sauce[at..at + bytes.len()].copy_from_slice(bytes);
    }
}

/// What comes before the record, and then the plain record with these bytes changed: each edit is
/// an offset in the record and the bytes from there on. An edit that does not fit is left out.
///
/// Fails if memory runs out.
pub fn sample_file(
    alloc: Global,
    front: &[u8],
    edits: &[(usize, &[u8])],
) -> Result<Vec<u8>, AllocError>
    ensures { IfOk result (λ v. v.items ≡ front.now ++ edited PLAIN.now edits.now) }
{
    let mut sauce = *PLAIN;
    for (at, bytes) in edits {
        overwrite(&mut sauce, *at, bytes);
    }
    let mut file = front.to_vec(alloc)?;
    file.extend_from_slice(&sauce)?;
    Ok(file)
}
