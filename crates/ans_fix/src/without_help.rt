//! Which flags of mending would not help a file.

ghost use Rattle.std.specs.Prelude.{◌≡◌, ◌≤◌, IfOk, length};
ghost use Rattle.ans_model.specs.Bytes.{longest_file};
ghost use Rattle.ans_fix.specs.Trials.{IsHelpKnown, IsUnhelped, same_reason};

use crate::trials::tried;
use ans_mend::Unmended;
use ans_model::mends::{MendStep, Mends};
use std::alloc::{AllocError, Global};

/// Why a file is not mended, and which flags would not help it.
#[derive(Debug, Clone, Copy, PartialEq, Eq)]
pub struct Unhelped {
    pub reason: Unmended,
    /// What was asked for, and of the steps `crlf`, `join_rows`, `take_out` and `least_lines` those with which it
    /// would not be mended for the same reason. `least_lines` is among them if another width was asked for: it would
    /// make room for rows of a wrong one.
    pub without_help: Mends,
}

/// Whether both are the same fault at the same place, or the same other reason.
fn is_same_reason(one: &Unmended, other: &Unmended) -> bool
    ensures { result ≡ same_reason one.now other.now }
{
    match (one, other) {
        (Unmended::Refused(one), Unmended::Refused(other)) => {
            one.offset == other.offset && one.cause.number() == other.cause.number()
        }
        (Unmended::TakesNoRecord(_), Unmended::TakesNoRecord(_)) => true,
        (Unmended::Torn, Unmended::Torn) => true,
        (Unmended::NoLines, Unmended::NoLines) => true,
        (Unmended::TooLong, Unmended::TooLong) => true,
        _ => false,
    }
}

/// What is tried on copies: a file, what was asked for, and why it is not mended with that.
#[derive(Clone, Copy)]
struct Trial<'a> {
    alloc: Global,
    file: &'a [u8],
    asked: &'a Mends,
    reason: &'a Unmended,
}

impl Trial<'_> {
    /// Whether a step was asked for already, or the file is not mended for the same reason with it.
    fn is_without_help(&self, step: MendStep, is_asked: bool) -> Result<bool, AllocError>
        requires { length self.now.file.now ≤ longest_file }
        ensures { IfOk result
            (IsHelpKnown self.now.asked.now self.now.file.now self.now.reason.now step is_asked) }
    {
        if is_asked {
            return Ok(true);
        }
        match tried(self.alloc, self.file, &self.asked.with(step, true))? {
            Ok(_) => Ok(false),
            Err(again) => Ok(is_same_reason(&again, self.reason)),
        }
    }
}

impl Unhelped {
    /// Of a file that is not mended for this reason, by what was asked for. Each step that was not asked for is tried
    /// on a copy.
    pub fn of(
        alloc: Global,
        file: &[u8],
        asked: &Mends,
        reason: Unmended,
    ) -> Result<Unhelped, AllocError>
        requires { length file.now ≤ longest_file }
        ensures unhelped { IfOk result (IsUnhelped asked.now file.now) }
        ensures reason { IfOk result (λ unhelped. unhelped.reason ≡ reason) }
    {
        let settles_lines = asked.least_lines || asked.columns.is_some();
        let trial = Trial {
            alloc,
            file,
            asked,
            reason: &reason,
        };
        Ok(Unhelped {
            reason,
            without_help: Mends {
                crlf: trial.is_without_help(MendStep::Crlf, asked.crlf)?,
                join_rows: trial.is_without_help(MendStep::JoinRows, asked.join_rows)?,
                take_out: trial.is_without_help(MendStep::TakeOut, asked.take_out)?,
                least_lines: trial.is_without_help(MendStep::LeastLines, settles_lines)?,
                ..*asked
            },
        })
    }
}
