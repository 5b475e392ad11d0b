//! What becomes of a file that is mended or redrawn to be written.

ghost use Rattle.std.specs.Prelude.{◌≡◌, IfOk, map, string_bytes};
ghost use Rattle.ans_model.specs.Text.Words.{texts_of};
ghost use Rattle.ans_check.specs.Fates.{IsGoalOf, files_among, has_lines, inputs_known, inputs_named, is_done};
ghost use Rattle.ans_check.specs.Fates.{is_of_memory, is_path, outcome_of, place_of, unread_fate};

use crate::errors::RunError;
use crate::exit_status::Ending;
use crate::naming::views;
use ans_options::{Target, Writing};
use ans_save::Saving;
use ans_table::Unread;
use ans_written::FileOutcome;
use std::alloc::{AllocError, Global};

/// Where the files of a run go.
#[derive(Clone, Copy)]
pub(crate) enum Goal<'a> {
    /// They are written there.
    Saved(Saving<'a>),
    /// They are not written. Whether an unchanged one would be.
    Told { copies: bool },
}

/// What became of a file.
#[derive(Clone, Copy)]
pub(crate) struct Fate {
    /// How the program would end if it were the only one, and so what is said of it.
    pub ending: Ending,
    /// What it is counted as.
    pub outcome: FileOutcome,
}

/// Whether a target is named.
fn is_path(target: &Target) -> bool
    ensures { result ≡ is_path target.now }
{
    matches!(target, Target::Path(_))
}

/// Where files go by the words. None if one goes to standard output.
pub(crate) fn goal_of(writing: &Writing) -> Option<Goal<'_>>
    ensures { IsGoalOf writing.now result }
{
    if writing.is_dry {
        return Some(Goal::Told {
            copies: is_path(&writing.target),
        });
    }
    match &writing.target {
        Target::Output => None,
        Target::InPlace => Some(Goal::Saved(Saving::InPlace)),
        Target::Path(path) => Some(Goal::Saved(Saving::to(path.as_str()))),
    }
}

impl<'a> Goal<'a> {
    /// Where a new file is written, if it is. An unchanged one is copied, but not over itself.
    pub(crate) fn place(self, changed: bool) -> Option<Saving<'a>>
        ensures { result ≡ place_of self.entry changed }
    {
        match self {
            Goal::Saved(Saving::InPlace) if !changed => None,
            Goal::Saved(saving) => Some(saving),
            Goal::Told { .. } => None,
        }
    }

    /// What becomes of a new file, if it is written where it is to be.
    pub(crate) fn outcome(self, changed: bool) -> FileOutcome
        ensures { result ≡ outcome_of self.entry changed }
    {
        match self {
            Goal::Saved(_) if changed => FileOutcome::Changed,
            Goal::Saved(_) => FileOutcome::Unchanged,
            Goal::Told { .. } if changed => FileOutcome::ToChange,
            Goal::Told { copies: true } => FileOutcome::ToCopy,
            Goal::Told { copies: false } => FileOutcome::Unchanged,
        }
    }
}

impl Fate {
    /// An input was not read.
    pub(crate) fn unread(reason: Unread) -> Fate
        ensures { result ≡ unread_fate reason }
    {
        let ending = match reason {
            Unread::Unopened(reason) => Ending::UnopenedFile(reason),
            other => Ending::Run(Err(RunError::from(other))),
        };
        Fate {
            ending,
            outcome: FileOutcome::NotRead,
        }
    }
}

/// Whether there is a new file.
pub(crate) fn is_done(ending: &Ending) -> bool
    ensures { result ≡ is_done ending.now }
{
    matches!(ending, Ending::Mended(_) | Ending::Redrawn(_))
}

/// Whether memory ran out for a file.
pub(crate) fn is_of_memory(ending: &Ending) -> bool
    ensures { result ≡ is_of_memory ending.now }
{
    matches!(ending, Ending::Run(Err(RunError::Memory)))
}

/// Whether a text of lines is said of a file: what was changed of it, or why it is not mended or redrawn.
pub(crate) fn has_lines(ending: &Ending) -> bool
    ensures { result ≡ has_lines ending.now }
{
    match ending {
        Ending::Mended(_) | Ending::NotMended(..) => true,
        Ending::Redrawn(_) | Ending::NotRedrawn(_) => true,
        _ => false,
    }
}

/// The names of the inputs: `-`, standard input, if there is none.
pub(crate) fn inputs_named(alloc: Global, names: &[String]) -> Result<Vec<&str>, AllocError>
    ensures { IfOk result (λ named. texts_of named.items ≡ inputs_named (map string_bytes names.now)) }
{
    if !names.is_empty() {
        return views(alloc, names);
    }
    let mut named = Vec::new(alloc);
    named.push("-")?;
    Ok(named)
}

/// The files among inputs: all but standard input.
fn files_among<'a>(alloc: Global, names: &[&'a str]) -> Result<Vec<&'a str>, AllocError>
    ensures { IfOk result (λ files. texts_of files.items ≡ files_among (texts_of names.now)) }
{
    let mut files = Vec::new(alloc);
    for name in names {
        if *name != "-" {
            files.push(*name)?;
        }
    }
    Ok(files)
}

/// The files among the inputs of a run that writes.
pub(crate) fn inputs_known<'a>(
    alloc: Global,
    goal: Goal<'_>,
    names: &[&'a str],
) -> Result<Vec<&'a str>, AllocError>
    ensures { IfOk result (λ known. texts_of known.items ≡ inputs_known goal.entry (texts_of names.now)) }
{
    match goal {
        Goal::Saved(_) => files_among(alloc, names),
        Goal::Told { .. } => Ok(Vec::new(alloc)),
    }
}
