//! What comes of the check of a file, and how the program ends at it.

ghost use Rattle.std.specs.Prelude.{◌≡◌};
ghost use Rattle.ans_check.specs.CommandText.{ReportsChecked, checked_of, is_passed};
ghost use Rattle.ans_check.specs.Ending.{ending_of_checking};

use crate::errors::RunError;
use crate::exit_status::Ending;
use crate::pipeline::tell_check;
use crate::task::Task;
use ans_model::start::Start;
use ans_screen::Screen;
use ans_verdict::Verdict;
use ans_write::Outbox;
use std::alloc::{AllocError, Global};
use std::io::Write;

/// What comes of the check of a file.
#[derive(Clone, Copy)]
pub(crate) enum Checked {
    /// The file passes.
    Pass,
    /// The file is refused, and for no fault of the start.
    Refused,
    /// The file is refused for a fault of what is unknown of the start, F22 to F25.
    RefusedByStart,
}

impl Checked {
    /// What a check answers at a verdict.
    pub(crate) fn of_verdict<G: Screen>(verdict: &Verdict<'_, G>) -> Checked
        ensures { result ≡ checked_of verdict.now }
    {
        match verdict {
            Verdict::Pass(_, _) => Checked::Pass,
            Verdict::Refused(Some(_), fault) if fault.cause.number() >= 22 =>
                Checked::RefusedByStart,
            Verdict::Refused(_, _) => Checked::Refused,
        }
    }

    /// Whether the file passes.
    pub(crate) fn is_pass(&self) -> bool
        ensures { result ≡ is_passed self.now }
    {
        matches!(self, Checked::Pass)
    }
}

/// A file is to be checked.
#[derive(Clone, Copy)]
pub(crate) struct Checking {
    /// From this class of starts.
    pub start: Start,
    /// With the cells of a pass, or without.
    pub cells: bool,
}

impl Task for Checking {
    ghost use Rattle.std.proofs.Common.{rules};

    type Answer = Checked;

    ghost tells = { λ checking file. ReportsChecked file checking.start checking.cells };

    ghost ending_of = { λ _. ending_of_checking };

    fn put<W: Write>(
        &self,
        alloc: Global,
        out: &mut Outbox<'_, W>,
        file: Vec<u8>,
    ) -> Result<Checked, AllocError> {
        tell_check(alloc, out, file.as_slice(), self.start, self.cells)
    }

    fn ending(&self, answer: &Result<Checked, RunError>) -> Ending {
        Ending::of_checking(answer)
    }

    ghost fails = { Prim.search rules };
}
