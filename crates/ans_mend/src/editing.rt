//! The changes to the content of a file that is mended.
ghost use Rattle.std.specs.Prelude.{◌≡◌, ◌+◌, ◌≤◌, length, IfOk, IfErr, IsTrue, OnOk};
ghost use Rattle.ans_model.specs.Bytes.{longest_file};
ghost use Rattle.ans_mend.specs.declared.outcome.Unmended.TheVariants.{TooLong};
ghost use Rattle.ans_mend.specs.Mending.{AreLastEndsGone, AreNamed, AreRowsJoined, AreSequencesOut, IsEdited};
ghost use Rattle.ans_mend.specs.Mending.{AreSequencesTaken, TellsReturns, iced, returned};
ghost use Rattle.ans_mend.specs.MendingRoom.{most_added, most_returns};
ghost use Rattle.ans_mend.specs.MendingSteps.{IsEditedTooLong, IsNamedTooLong};
ghost use Rattle.ans_mend.specs.NamedColours.{names_room};
ghost use Rattle.ans_mend.specs.Drafts.{memory_of};
ghost use Rattle.ans_sauce.specs.Found.{front_in};

use crate::draft::Draft;
use crate::line_ends::content_of;
use crate::outcome::{Edits, Unmended};
use crate::taking_out::Told;
use ans_model::limits::{MAX_FILE, MAX_LINES};
use ans_model::mends::Mends;
use ans_model::size::Size;
use ans_pens::Times;

/// Adds returns before line feeds, if that is asked for.
fn put_returns(draft: &mut Draft<'_>, mends: &Mends) -> Option<Times>
    requires { most_returns mends.now (front_in draft.old.file) ≤ draft.old.room }
    ensures file { draft.new.file ≡ returned mends.now draft.old.file }
    ensures returns { TellsReturns mends.now draft.old.file result }
    ensures longer { length draft.new.file ≤ length draft.old.file + most_returns mends.now (front_in draft.old.file) }
    ensures memory { memory_of draft.new ≡ memory_of draft.old }
{
    if mends.crlf {
        return draft.put_returns(mends.mixed);
    }
    None
}

/// Removes sequences, if that is asked for.
fn take_sequences(draft: &mut Draft<'_>, mends: &Mends) -> Told
    requires { length draft.old.file ≤ longest_file }
    ensures file { AreSequencesTaken mends.now draft.old.file draft.new.file result }
    ensures no_longer { length draft.new.file ≤ length draft.old.file }
    ensures memory { memory_of draft.new ≡ memory_of draft.old }
{
    if mends.take_out {
        return draft.take_out();
    }
    Told::nothing()
}

/// Sets the non-blink flag of the record, if that is asked for.
fn set_ice(draft: &mut Draft<'_>, mends: &Mends)
    ensures file { draft.new.file ≡ iced mends.now draft.old.file }
    ensures same_length { length draft.new.file ≡ length draft.old.file }
    ensures memory { memory_of draft.new ≡ memory_of draft.old }
{
    if !mends.ice {
        return;
    }
    if let Some(_content) = content_of(draft.file()) {
        draft.state_non_blink(true);
    }
}

/// Removes sequences and sets the non-blink flag, if that is asked for.
fn take_out_sequences(draft: &mut Draft<'_>, mends: &Mends) -> Told
    requires { length draft.old.file ≤ longest_file }
    ensures file { AreSequencesOut mends.now draft.old.file draft.new.file result }
    ensures no_longer { length draft.new.file ≤ length draft.old.file }
    ensures memory { memory_of draft.new ≡ memory_of draft.old }
{
    let told = take_sequences(draft, mends);
    set_ice(draft, mends);
    told
}

/// Removes the line ends after full rows, if that is asked for.
fn join_rows(draft: &mut Draft<'_>, mends: &Mends, size: Size) -> Option<Times>
    requires { length draft.old.file ≤ longest_file }
    ensures file { AreRowsJoined mends.now size draft.old.file draft.new.file result }
    ensures no_longer { length draft.new.file ≤ length draft.old.file }
    ensures memory { memory_of draft.new ≡ memory_of draft.old }
{
    if mends.join_rows {
        return draft.take_out_row_ends(Size::new(size.width(), MAX_LINES), mends.mixed);
    }
    None
}

/// Removes as few line ends, bytes 00h and sequences at the very end as must go, if sequences are to be removed.
fn take_out_last_ends(draft: &mut Draft<'_>, mends: &Mends, size: Size) -> Option<Times>
    requires { length draft.old.file ≤ longest_file }
    ensures file { AreLastEndsGone mends.now size draft.old.file draft.new.file result }
    ensures no_longer { length draft.new.file ≤ length draft.old.file }
    ensures memory { memory_of draft.new ≡ memory_of draft.old }
{
    if mends.take_out {
        return draft.take_out_last_ends(size);
    }
    None
}

/// Names the colours, if that is asked for.
fn name_colours(draft: &mut Draft<'_>, mends: &Mends) -> Result<Option<Times>, Unmended>
    requires length { length draft.old.file ≤ longest_file }
    requires room { IsTrue mends.now.name_colours → names_room draft.old.file ≤ draft.old.room }
    ensures named { IfOk result (AreNamed mends.now draft.old.file draft.new.file) }
    ensures length { OnOk result (length draft.new.file ≤ longest_file) }
    ensures reason { IfErr result (λ reason. (reason ≡ TooLong) × IsNamedTooLong mends.now draft.old.file) }
    ensures memory { memory_of draft.new ≡ memory_of draft.old }
{
    if mends.name_colours {
        return draft.name_colours();
    }
    Ok(None)
}

/// Makes the changes to the content that are asked for, on a screen of this size. An error says that the file is
/// too long with its returns, or with names of colours.
pub(crate) fn edit(draft: &mut Draft<'_>, mends: &Mends, size: Size) -> Result<Edits, Unmended>
    requires { most_added mends.now draft.old.file ≤ draft.old.room }
    ensures edits { IfOk result (IsEdited mends.now size draft.old.file draft.new.file) }
    ensures length { OnOk result (length draft.new.file ≤ longest_file) }
    ensures reason { IfErr result (IsEditedTooLong mends.now size draft.old.file) }
    ensures longer { OnOk result (length draft.new.file ≤ length draft.old.file + most_added mends.now draft.old.file) }
    ensures memory { memory_of draft.new ≡ memory_of draft.old }
{
    let returns = put_returns(draft, mends);
    if draft.file().len() > MAX_FILE {
        return Err(Unmended::TooLong);
    }
    let told = take_out_sequences(draft, mends);
    let row_ends = join_rows(draft, mends, size);
    let last_ends = take_out_last_ends(draft, mends, size);
    let named_colours = name_colours(draft, mends)?;
    Ok(Edits {
        returns,
        told,
        row_ends,
        last_ends,
        named_colours,
    })
}
