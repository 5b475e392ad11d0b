//! Where the files of a run go.
ghost use Rattle.std.specs.Prelude.{◌≡◌, Some, IfErr, IfOk, string_bytes};
ghost use Rattle.std.specs.Option.{option_map};
ghost use Rattle.ans_save.specs.Places.{IsSavingTo, IsUnnamed, is_in_place, target_named};

use crate::names::name_in;
use crate::save_error::SaveError;
use std::alloc::{AllocError, Global};

/// Where the files of a run go.
#[derive(Debug, Clone, Copy, PartialEq, Eq)]
pub enum Saving<'a> {
    /// Each over its input, whose permissions it keeps. It is flushed to the disk before it takes the input's name.
    InPlace,
    /// To the file of this name.
    File(&'a str),
    /// Into the folder of this name, which ends in a slash, under the last component of the input's name. The folder
    /// is made if it is not there.
    Folder(&'a str),
}

impl<'a> Saving<'a> {
    /// Into the folder of this name if it ends in a slash, and else to the file of this name.
    pub fn to(output: &'a str) -> Saving<'a>
        ensures { IsSavingTo output.now result }
    {
        if output.ends_with('/') {
            Saving::Folder(output)
        } else {
            Saving::File(output)
        }
    }

    /// Whether each file goes over its input.
    pub(crate) fn is_in_place(self) -> bool
        ensures { result ≡ is_in_place self.entry }
    {
        matches!(self, Saving::InPlace)
    }

    /// The name to write to, for an input of this name, or for standard input, which has none.
    pub(crate) fn target(self, alloc: Global, input: Option<&str>) -> Result<String, SaveError>
        ensures named { IfOk result (λ name. target_named self.entry (option_map (λ n. n.now) input.entry)
            ≡ Some (string_bytes name)) }
        ensures unnamed { IfErr result (IsUnnamed self.entry (option_map (λ n. n.now) input.entry)) }
    {
        let name = match (self, input) {
            (Saving::File(name), _) => String::from_str(alloc, name),
            (Saving::InPlace, Some(input)) => String::from_str(alloc, input),
            (Saving::Folder(folder), Some(input)) => name_in(alloc, folder, input),
            (Saving::InPlace | Saving::Folder(_), None) => return Err(SaveError::NoName),
        };
        match name {
            Ok(name) => Ok(name),
            Err(AllocError) => Err(SaveError::Memory),
        }
    }
}
