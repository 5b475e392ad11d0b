//! A file that is mended.
ghost use Rattle.std.specs.Prelude.{◌≡◌, ◌⊎◌, ◌+◌, ◌≤◌, ◌||◌, length, IfOk, IfErr, IsErrOf, OnOk};
ghost use Rattle.std.specs.Prelude.{None, if◌then◌else◌, option_and_then};
ghost use Rattle.ans_model.specs.Bytes.{longest_file};
ghost use Rattle.ans_mend.specs.Drafts.{memory_of};
ghost use Rattle.ans_mend.specs.Mending.{IfNotMended, IsMended, IsReason, IsReasonFor, IsSettled, lacks_lines, opened};
ghost use Rattle.ans_mend.specs.Mending.{record_added, record_put, recorded, widened, width_set};
ghost use Rattle.ans_mend.specs.Mending.{comments_put, older_put, repaired};
ghost use Rattle.ans_mend.specs.Columns.{columns_set};
ghost use Rattle.ans_mend.specs.OlderRecord.{older_gone};
ghost use Rattle.ans_mend.specs.Recounted.{comments_set, recounted};
ghost use Rattle.ans_mend.specs.MendingRoom.{LacksRoom, LacksScreenInTheEnd, most_added, most_put};
ghost use Rattle.ans_mend.specs.MendingSteps.{IsSized, IsTooLong, reading_in};
ghost use Rattle.ans_mend.specs.declared.outcome.MendError.TheVariants.{Memory};

use crate::draft::Draft;
use crate::editing::edit;
use crate::judging::{Reading, judge, read};
use crate::lines::{lines_for, open_lines, take_lines};
use crate::outcome::{Edits, GivenRecord, MendError, Mended, NonBlink, Reset, Unmended};
use crate::room::room_for;
use ans_model::beginning::SAFE_BEGINNING;
use ans_model::limits::MAX_FILE;
use ans_model::mends::Mends;
use ans_pens::Times;
use ans_verdict::Screens;

/// Gives the file a record of the width that is asked for, if it takes one. Returns what was added.
fn give_record(draft: &mut Draft<'_>, mends: &Mends) -> Option<GivenRecord>
    requires { 129 ≤ draft.old.room }
    ensures file { draft.new.file ≡ record_added mends.now draft.old.file }
    ensures given { result ≡ record_put mends.now draft.old.file }
    ensures memory { memory_of draft.new ≡ memory_of draft.old }
{
    match mends.add_record {
        Some(width) => draft.give_record(width),
        None => None,
    }
}

/// States the width that is asked for in the record. Returns the width that was stated, and this one.
fn state_columns(draft: &mut Draft<'_>, mends: &Mends) -> Option<Reset>
    ensures file { draft.new.file ≡ widened mends.now draft.old.file }
    ensures set { result ≡ option_and_then (λ width. columns_set width draft.old.file) mends.now.columns }
    ensures memory { memory_of draft.new ≡ memory_of draft.old }
{
    match mends.columns {
        Some(width) => draft.state_columns(width),
        None => None,
    }
}

/// What was done with a record that was to be repaired.
#[derive(Clone, Copy)]
struct Repairs {
    comments: Option<Reset>,
    older: Option<Times>,
}

/// Has the record count the comments that are there, and removes an older record before it, if it is to be repaired.
/// Returns the number that it counted and the one that it counts now, and what was removed.
fn repair_record(draft: &mut Draft<'_>, mends: &Mends) -> Repairs
    ensures file { draft.new.file ≡ repaired mends.now draft.old.file }
    ensures set { result.comments ≡ (if mends.now.repair_record then comments_set draft.old.file else None) }
    ensures gone { result.older ≡ (if mends.now.repair_record then older_gone (recounted draft.old.file) else None) }
    ensures memory { memory_of draft.new ≡ memory_of draft.old }
{
    if !mends.repair_record {
        return Repairs {
            comments: None,
            older: None,
        };
    }
    let comments = draft.recount();
    let older = draft.drop_older_record();
    Repairs { comments, older }
}

/// What was done with the record before it is read.
#[derive(Clone, Copy)]
struct FirstRecord {
    given: Option<GivenRecord>,
    width: Option<Reset>,
    repairs: Repairs,
}

/// Gives the file a record if that is asked for and it takes one, states the width that is asked for, and
/// repairs the record.
fn set_record(draft: &mut Draft<'_>, mends: &Mends) -> FirstRecord
    requires { 129 ≤ draft.old.room }
    ensures file { draft.new.file ≡ recorded mends.now draft.old.file }
    ensures given { result.given ≡ record_put mends.now draft.old.file }
    ensures width { result.width ≡ width_set mends.now draft.old.file }
    ensures comments { result.repairs.comments ≡ comments_put mends.now draft.old.file }
    ensures older { result.repairs.older ≡ older_put mends.now draft.old.file }
    ensures memory { memory_of draft.new ≡ memory_of draft.old }
{
    let given = give_record(draft, mends);
    let width = state_columns(draft, mends);
    let repairs = repair_record(draft, mends);
    FirstRecord {
        given,
        width,
        repairs,
    }
}

/// What is asked for of a file, of which it is known whether a record was given to it.
fn asked_where(mends: &Mends, given_record: bool) -> Mends
    ensures { result ≡ record mends.now { least_lines = mends.now.least_lines || given_record } }
{
    Mends {
        least_lines: mends.least_lines || given_record,
        ..*mends
    }
}

/// What was read of a file before its content was changed, and what was done with it.
#[derive(Clone, Copy)]
struct Settled {
    was: Reading,
    edits: Edits,
    end_mark: Option<usize>,
}

/// Changes the content, settles the lines and adds the end mark.
fn settle(draft: &mut Draft<'_>, asked: &Mends) -> Result<Settled, Unmended>
    requires length { length draft.old.file ≤ longest_file }
    requires room { most_added asked.now draft.old.file + 1 ≤ draft.old.room }
    ensures settled { IfOk result (λ s.
        IsSettled asked.now draft.old.file s.edits s.end_mark draft.new.file) }
    ensures was { IfOk result (λ s.
        s.was ≡ reading_in (lacks_lines asked.now draft.old.file) (opened asked.now draft.old.file)) }
    ensures length { OnOk result (length draft.new.file ≤ longest_file) }
    ensures reason { IfErr result (IsReasonFor asked.now draft.old.file) }
    ensures longer { OnOk result
        (length draft.new.file ≤ length draft.old.file + (most_added asked.now draft.old.file + 1)) }
{
    let lacks = open_lines(draft, asked);
    let was = read(draft.file(), lacks)?;
    let edits = edit(draft, asked, was.size)?;
    let lines = lines_for(draft.file(), asked, lacks)?;
    take_lines(draft, lines);
    let end_mark = draft.put_end_mark();
    if draft.file().len() > MAX_FILE {
        return Err(Unmended::TooLong);
    }
    Ok(Settled {
        was,
        edits,
        end_mark,
    })
}

/// Sets the file size for a content of that many bytes that passes, the safe beginning counted if it needs that, and
/// the end mark if it was counted before. Returns the size.
fn set_file_size(
    draft: &mut Draft<'_>,
    front: bool,
    content: usize,
    counts_end_mark: bool,
) -> Result<u32, Unmended>
    requires record { 128 ≤ length draft.old.file }
    requires length { length draft.old.file ≤ longest_file }
    requires within { content ≤ length draft.old.file }
    ensures sized { IfOk result (λ n. IsSized front content counts_end_mark draft.old.file n draft.new.file) }
    ensures same_length { OnOk result (length draft.new.file ≡ length draft.old.file) }
    ensures long { IfErr result (IsTooLong front draft.old.file) }
{
    let beginning = if front { SAFE_BEGINNING.len() } else { 0 };
    if draft.file().len() + beginning > MAX_FILE {
        return Err(Unmended::TooLong);
    }
    let size = (content + beginning) as u32 + counts_end_mark as u32;
    draft.state_file_size(size);
    Ok(size)
}

/// Mends a file in its draft: cuts off what follows the record and is not part of the drawing, makes the changes
/// to the content that are asked for, states the lines that are asked for if the drawing does not pass
/// with those that are stated, adds an end mark after the content, and corrects the file size. What is
/// left passes from every start, with the picture that its content has from the cleared one, after the
/// safe beginning if `front` says so: that is for the caller to write first.
///
/// `NotMended` says why the file cannot be mended this way. The draft then holds a file that is half changed.
/// `Memory` says that the draft has room for fewer bytes than [`room_for`] says, or that there is none for the
/// screen.
pub fn mend_on<S: Screens>(
    screens: &mut S,
    draft: &mut Draft<'_>,
    mends: &Mends,
) -> Result<Mended, MendError>
    requires { length draft.old.file ≤ longest_file }
    ensures mended { IfOk result (λ m. IsMended mends.now draft.old.file m draft.new.file) }
    ensures reason { IfErr result (λ error. IfNotMended error (IsReason mends.now draft.old.file)) }
    ensures longer { OnOk result
        (length draft.new.file ≤ length draft.old.file + most_put mends.now draft.old.file) }
    ensures room { IsErrOf result Memory → LacksRoom mends.now draft.old
        ⊎ LacksScreenInTheEnd (S.may_lack screens.old) mends.now draft.old.file }
{
    if draft.room() < room_for(draft.file(), mends) {
        return Err(MendError::Memory);
    }
    let tail = draft.cut_tail();
    let record = set_record(draft, mends);
    if draft.file().len() > MAX_FILE {
        return Err(MendError::NotMended(Unmended::TooLong));
    }
    let asked = asked_where(mends, record.given.is_some());
    let settled = settle(draft, &asked)?;
    let judgement = judge(screens, draft.file(), &asked)?;
    let is = judgement.reading;
    let file_size = set_file_size(
        draft,
        judgement.front,
        is.content,
        settled.was.counts_end_mark,
    )?;
    Ok(Mended {
        asked: *mends,
        tail,
        given_record: record.given,
        width: record.width,
        comments: record.repairs.comments,
        older: record.repairs.older,
        edits: settled.edits,
        non_blink: NonBlink {
            was: settled.was.non_blink,
            is: is.non_blink,
        },
        lines: Reset {
            was: settled.was.lines,
            is: is.lines,
        },
        end_mark: settled.end_mark,
        front: judgement.front,
        file_size: Reset {
            was: settled.was.file_size,
            is: file_size,
        },
    })
}
