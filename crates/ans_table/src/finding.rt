//! What a row says of a file.

ghost use Rattle.std.specs.Prelude.{◌≡◌, ◌≤◌, length, option_map};
ghost use Rattle.std.specs.Option.{option_copied};
ghost use Rattle.ans_model.specs.Bytes.{longest_file};
ghost use Rattle.ans_model.specs.Screen.StartClass.{all_known};
ghost use Rattle.ans_model.specs.Verdict.Needs.{IsLeast};
ghost use Rattle.ans_sauce.specs.Parts.{content_of, size_of};
ghost use Rattle.ans_sauce.specs.RecordBytes.{sauce_bytes};
ghost use Rattle.ans_sauce.specs.Judged.{IsRecordFault};
ghost use Rattle.ans_model.specs.Verdict.LastFault.{IsDeserved};
ghost use Rattle.ans_table.specs.Findings.{IsFaultFinding, IsPassFinding, IsRecordFinding, has_needs};
ghost use Rattle.ans_table.specs.Findings.{outcome_in, outcome_of, parts_of, pass_outcome, sauce_in, sauce_of};
ghost use Rattle.ans_table.specs.Findings.{unread_text};

use crate::counts::Outcome;
use crate::unopened::Unopened;
use ans_kinds::{Players, Reach};
use ans_model::fault::Fault;
use ans_model::start::Start;
use ans_pens::cursors_before;
use ans_sauce::{Judged, Parts, Record, cut_record};

/// Why a file was not read.
#[derive(Debug, Clone, Copy, PartialEq, Eq)]
pub enum Unread {
    /// It was not opened, for this reason.
    Unopened(Unopened),
    /// A read of it failed.
    ReadFailed,
    /// It has more than 16,777,216 bytes.
    TooLong,
    /// Memory ran out for it or for its screen.
    Memory,
    /// Its name is not UTF-8.
    NameNotText,
}

impl Unread {
    /// The text for the user.
    pub fn text(&self) -> &'static str
        ensures { result.now ≡ unread_text self.now }
    {
        match self {
            Unread::Unopened(reason) => reason.reason(),
            Unread::ReadFailed => "cannot read the file",
            Unread::TooLong => "file above 16777216 bytes",
            Unread::Memory => "out of memory",
            Unread::NameNotText => "name is not UTF-8",
        }
    }
}

/// What a row says of a file that was read.
pub type Finding<'a> = Judged<'a, RecordFinding<'a>, FaultFinding, PassFinding>;

/// What a row says of a file: what is found of it, or why it was not read.
pub type RowFinding<'a> = Result<Finding<'a>, Unread>;

/// What a row says of a record or a layout that is refused: its fault, and the record, except for F1.
#[derive(Debug, Clone, Copy)]
pub struct RecordFinding<'a> {
    pub fault: Fault,
    pub sauce: Option<Record<'a>>,
}

/// What a row says of a content that is refused from the cleared start: its fault, and the row and the
/// column, counted from 1, in which the cursor is before it.
#[derive(Debug, Clone, Copy, PartialEq, Eq)]
pub struct FaultFinding {
    pub fault: Fault,
    pub row: usize,
    pub column: usize,
}

/// What a row says of a content that passes from the cleared start: the least class of starts from
/// which it does, on which players it shows its picture, and whether it does on every taller screen.
#[derive(Debug, Clone, Copy, PartialEq, Eq)]
pub struct PassFinding {
    pub needs: Start,
    pub players: Players,
    pub taller: bool,
}

impl<'a> RecordFinding<'a> {
    /// Of a file that is refused for its record or its layout.
    pub fn of(file: &'a [u8], fault: Fault) -> RecordFinding<'a>
        requires { IsRecordFault file.now fault }
        ensures { IsRecordFinding file.now result }
    {
        match cut_record(file) {
            Some((_, sauce)) => RecordFinding {
                fault,
                sauce: Some(sauce),
            },
            None => RecordFinding { fault, sauce: None },
        }
    }
}

impl FaultFinding {
    /// Of a content that is refused from the cleared start, for this fault.
    pub fn of(parts: &Parts<'_>, fault: Fault) -> FaultFinding
        requires length { length (content_of parts.now) ≤ longest_file }
        requires deserved { IsDeserved (size_of parts.now) all_known (content_of parts.now) fault }
        ensures { IsFaultFinding parts.now result }
    {
        let size = parts.size();
        let (cursor, _) = cursors_before(size, Start::CLEARED, parts.content(), fault);
        FaultFinding {
            fault,
            row: cursor.row + 1,
            column: cursor.column + 1,
        }
    }
}

impl PassFinding {
    /// Of a content that passes from the cleared start: it needs this class.
    pub fn of(parts: &Parts<'_>, needs: Start) -> PassFinding
        requires length { length (content_of parts.now) ≤ longest_file }
        requires needs { IsLeast (size_of parts.now) (content_of parts.now) needs }
        ensures { IsPassFinding parts.now result }
    {
        let reach = Reach::of(parts.size(), needs, parts.content());
        PassFinding {
            needs,
            players: reach.players,
            taller: reach.taller,
        }
    }
}

/// The parts of a file that was read, unless its record or its layout is refused.
pub(crate) fn parts_of<'f, 'a>(finding: &'f RowFinding<'a>) -> Option<&'f Parts<'a>>
    ensures { option_copied result ≡ parts_of finding.now }
{
    match finding {
        Ok(finding) => finding.parts(),
        Err(_) => None,
    }
}

fn sauce_in<'a>(finding: &Finding<'a>) -> Option<Record<'a>>
    ensures { option_map sauce_bytes result ≡ sauce_in finding.now }
{
    match finding {
        Judged::NoContent(said) => said.sauce,
        Judged::Refused(parts, _) | Judged::Passes(parts, _) => Some(parts.sauce()),
    }
}

/// The record of the file, if one was read.
pub(crate) fn sauce_of<'a>(finding: &RowFinding<'a>) -> Option<Record<'a>>
    ensures { option_map sauce_bytes result ≡ sauce_of finding.now }
{
    match finding {
        Ok(finding) => sauce_in(finding),
        Err(_) => None,
    }
}

fn has_needs(needs: &Start) -> bool
    ensures { result ≡ has_needs needs.now }
{
    needs.screen || needs.cursor || needs.saved || needs.colours || needs.wrap
}

impl Outcome {
    /// Of a content that passes from the cleared start and needs these parts of it.
    pub fn of_pass(needs: &Start) -> Outcome
        ensures { result ≡ pass_outcome needs.now }
    {
        if has_needs(needs) {
            Outcome::Cleared
        } else {
            Outcome::Pass
        }
    }

    fn of_read(finding: &Finding<'_>) -> Outcome
        ensures { result ≡ outcome_in finding.now }
    {
        match finding {
            Judged::NoContent(_) | Judged::Refused(_, _) => Outcome::Refused,
            Judged::Passes(_, said) => Outcome::of_pass(&said.needs),
        }
    }

    /// Of the file of a row.
    pub fn of(finding: &RowFinding<'_>) -> Outcome
        ensures { result ≡ outcome_of finding.now }
    {
        match finding {
            Ok(finding) => Outcome::of_read(finding),
            Err(_) => Outcome::Unread,
        }
    }
}
