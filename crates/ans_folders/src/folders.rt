//! Where folders come from.

ghost use Rattle.std.specs.Prelude.{List, IfOk, IfErr, vec_items};
ghost use Rattle.std.specs.IoError.{error_kind};
ghost use Rattle.std.specs.declared.io.ErrorKind.{ErrorKind};
ghost use Rattle.ans_folders.specs.Paths.{Text};
ghost use Rattle.ans_folders.specs.declared.entry.Entry.{Entry};

use crate::entry::Entry;
use std::alloc::Global;
use std::io;

/// Where folders come from: the system, or memory in tests.
pub trait Folders: Copy + Drop {
    /// The folder of this name lists these entries.
    ghost lists: { Self → Text → List Entry → Type 0 };

    /// Listing the folder of this name fails with an error of this kind.
    ghost fails: { Self → Text → ErrorKind → Type 0 };

    /// Lists the folder of this name: its entries in any order, without itself and the folder that it is in. A link of
    /// this name is followed. At an error, also one in the middle, no entry is returned.
    fn list(self, alloc: Global, folder: &str) -> io::Result<Vec<Entry>>
        ensures listed { IfOk result (λ entries. lists self folder.now (vec_items entries)) }
        ensures failed { IfErr result (λ error. fails self folder.now (error_kind error)) };
}
