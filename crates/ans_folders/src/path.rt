//! The paths of what is in a folder.

ghost use Rattle.std.specs.Prelude.{◌≡◌, IfOk, string_bytes};
ghost use Rattle.ans_folders.specs.Paths.{path_in};

use std::alloc::{AllocError, Global};

/// The path of what has this name in the folder of this path: `FOLDER/NAME`. If the folder's path ends in a slash,
/// there is no second one.
pub(crate) fn path_in(alloc: Global, folder: &str, name: &str) -> Result<String, AllocError>
    ensures { IfOk result (λ path. string_bytes path ≡ path_in folder.now name.now) }
{
    let mut path = String::from_str(alloc, folder)?;
    if !folder.as_bytes().ends_with(b"/") {
        path.push_str("/")?;
    }
    path.push_str(name)?;
    Ok(path)
}
