//! The names of files.
ghost use Rattle.std.specs.Prelude.{◌≡◌, string_bytes, IfOk};
ghost use Rattle.std.specs.Path.{dot, rsplit_once};
ghost use Rattle.ans_save.specs.Names.{beside_name, fixed_at_split, fixed_name, last_component, name_in};

use std::alloc::{AllocError, Global};

/// What is after the last slash of a name, or all of it.
fn last_component(name: &str) -> &str
    ensures { result.now ≡ last_component name.now }
{
    match name.rsplit_once('/') {
        Some((_, last)) => last,
        None => name,
    }
}

/// The name of an input in a folder, whose name ends in a slash: the folder's name, and the last component of the
/// input's. `Err` comes if there is no memory for it.
pub fn name_in(alloc: Global, folder: &str, input: &str) -> Result<String, AllocError>
    ensures { IfOk result (λ name. string_bytes name ≡ name_in folder.now input.now) }
{
    let last = last_component(input);
    format!(in alloc; "{folder}{last}")
}

/// A last component with `-fixed` before its last dot, or at its end.
fn fixed_component(alloc: Global, last: &str) -> Result<String, AllocError>
    ensures { IfOk result (λ name. string_bytes name ≡ fixed_at_split last.now (rsplit_once dot last.now)) }
{
    match last.rsplit_once('.') {
        Some((stem, ending)) => format!(in alloc; "{stem}-fixed.{ending}"),
        None => format!(in alloc; "{last}-fixed"),
    }
}

/// The name with `-fixed` before the last dot of its last component, or at its end if that has none: `a/b.ans` gives
/// `a/b-fixed.ans`. `Err` comes if there is no memory for it.
pub fn fixed_name(alloc: Global, name: &str) -> Result<String, AllocError>
    ensures { IfOk result (λ fixed. string_bytes fixed ≡ fixed_name name.now) }
{
    match name.rsplit_once('/') {
        Some((folder, last)) => {
            let fixed = fixed_component(alloc, last)?;
            format!(in alloc; "{folder}/{fixed}")
        }
        None => fixed_component(alloc, name),
    }
}

/// One of the names that a new file beside a target may have: in the same folder, by number.
pub(crate) fn beside_name(alloc: Global, target: &str, number: usize) -> Result<String, AllocError>
    ensures { IfOk result (λ name. string_bytes name ≡ beside_name target.now number) }
{
    match target.rsplit_once('/') {
        Some((folder, _)) => format!(in alloc; "{folder}/.anscheck-{number}"),
        None => format!(in alloc; ".anscheck-{number}"),
    }
}
