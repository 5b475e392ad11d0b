//! What is read of a file that is to be mended, and the verdict on one that was.
ghost use Rattle.std.specs.Prelude.{◌≡◌, ◌≤◌, ◌↔◌, IsTrue, List, false, length, IfOk, IfErr, IsErrOf, OnOk};
ghost use Rattle.ans_model.specs.Bytes.{longest_file};
ghost use Rattle.ans_model.specs.Screen.StartClass.{all_known, none_known};
ghost use Rattle.ans_model.specs.Verdict.Good.{IsGood};
ghost use Rattle.ans_sauce.specs.Parts.{content_of, record_of, size_of};
ghost use Rattle.ans_verdict.specs.StartParts.{EndsFrom};
ghost use Rattle.ans_mend.specs.Mending.{BeginsUnnamed, HasRecordFault, IfNotMended, IsRead, WantsMending};
ghost use Rattle.ans_mend.specs.MendingRoom.{LacksScreenFor};
ghost use Rattle.ans_model.specs.Sequence.TokenKind.{TokenKind};
ghost use Rattle.ans_model.specs.Sequence.Reads.{Reads};
ghost use Rattle.ans_mend.specs.MendingSteps.{IsJudgement, IsRefused, reading_by, reading_in};
ghost use Rattle.ans_mend.specs.declared.outcome.MendError.TheVariants.{Memory};

use crate::name_search::begins_unnamed;
use crate::new_record::refusal_of;
use crate::outcome::{MendError, Unmended};
use ans_kinds::is_same_where_cleared;
use ans_model::fault::Fault;
use ans_model::mends::Mends;
use ans_model::size::Size;
use ans_model::start::Start;
use ans_sauce::{Parts, split};
use ans_verdict::{Screens, cleared_fault};

/// What is read of a file that is reported or set later, of its record and of its content.
#[derive(Clone, Copy)]
pub(crate) struct Reading {
    pub(crate) size: Size,
    pub(crate) non_blink: bool,
    pub(crate) lines: u32,
    pub(crate) file_size: u32,
    // how many bytes the content has
    pub(crate) content: usize,
    // whether the FileSize is one more
    pub(crate) counts_end_mark: bool,
}

/// What is read of these parts; none of the lines, if their number is still to be settled.
fn reading_of(parts: &Parts<'_>, lacks: bool) -> Reading
    ensures { result ≡ reading_by lacks (record_of parts.now) (content_of parts.now) }
{
    let sauce = parts.sauce();
    let content = parts.content();
    Reading {
        size: parts.size(),
        non_blink: sauce.is_non_blink(),
        lines: if lacks { 0 } else { parts.lines() as u32 },
        file_size: sauce.file_size(),
        content: content.len(),
        counts_end_mark: sauce.file_size() as usize == content.len() + 1,
    }
}

/// Reads a file. `lacks` says that its number of lines is still to be settled.
pub(crate) fn read(file: &[u8], lacks: bool) -> Result<Reading, Unmended>
    ensures read { OnOk result (IsRead file.now) }
    ensures reading { IfOk result (λ reading. reading ≡ reading_in lacks file.now) }
    ensures fault { IfErr result (HasRecordFault file.now) }
{
    match split(file) {
        Ok(parts) => Ok(reading_of(&parts, lacks)),
        Err(fault) => Err(refusal_of(file, fault)),
    }
}

/// The verdict on a drawing that passes from the cleared start.
#[derive(Clone, Copy)]
pub(crate) struct Judgement {
    // whether it needs the mending before the content
    pub(crate) front: bool,
    pub(crate) reading: Reading,
}

/// Whether names of colours are asked for, and needed before a sequence that could have them.
fn wants_names(content: &[u8], mends: &Mends) -> bool
    requires length { length content.now ≤ longest_file }
    requires reads { (tokens : List TokenKind) × Reads content.now tokens }
    ensures { IsTrue result ↔ BeginsUnnamed mends.now content.now }
{
    mends.name_colours && begins_unnamed(content)
}

/// Whether a content that passes from the cleared start needs the safe beginning, by its fault from all
/// starts.
fn wants_mending(parts: &Parts<'_>, fault: Option<Fault>, mends: &Mends) -> bool
    requires length { length (content_of parts.now) ≤ longest_file }
    requires cleared { IsGood (size_of parts.now) all_known (content_of parts.now) }
    requires ends { EndsFrom (size_of parts.now) (content_of parts.now) none_known fault }
    ensures wants { IsTrue result ↔ WantsMending mends.now (size_of parts.now) (content_of parts.now) }
    ensures every { result ≡ false → IsGood (size_of parts.now) none_known (content_of parts.now) }
{
    match fault {
        Some(_) => true,
        None => {
            if !is_same_where_cleared(parts.size(), Start::ANY, parts.content()) {
                return true;
            }
            wants_names(parts.content(), mends)
        }
    }
}

/// Plays the content of a file from all starts, and if its fault depends on the start, from the cleared
/// one.
pub(crate) fn judge<S: Screens>(
    screens: &mut S,
    file: &[u8],
    mends: &Mends,
) -> Result<Judgement, MendError>
    requires { length file.now ≤ longest_file }
    ensures passes { IfOk result (IsJudgement mends.now file.now) }
    ensures fault { IfErr result (λ error. IfNotMended error (IsRefused file.now)) }
    ensures room { IsErrOf result Memory → LacksScreenFor (S.may_lack screens.old) file.now }
{
    let parts = match split(file) {
        Ok(parts) => parts,
        Err(fault) => return Err(MendError::NotMended(Unmended::Refused(fault))),
    };
    let fault = screens.fault_from(&parts, Start::ANY)?;
    if let Some(cleared) = cleared_fault(screens, &parts, fault)? {
        return Err(MendError::NotMended(Unmended::Refused(cleared)));
    }
    Ok(Judgement {
        front: wants_mending(&parts, fault, mends),
        reading: reading_of(&parts, false),
    })
}
