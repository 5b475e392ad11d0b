//! The number of lines that a mended file states.
ghost use Rattle.std.specs.Prelude.{◌≡◌, ◌≤◌, true, false, length, IfOk, IfErr, IfSome, IfNone, OnOk};
ghost use Rattle.ans_model.specs.Bytes.{longest_file, most_lines};
ghost use Rattle.ans_sauce.specs.Parts.{content_of, record_of, width_of};
ghost use Rattle.ans_pens.specs.Lines.{IsNeverGood};
ghost use Rattle.ans_mend.specs.Drafts.{draft_of};
ghost use Rattle.ans_mend.specs.Mending.{AreLinesFor, HasLeast, IsReasonOfEdited, IsReasonOfLines, IsWithoutNumber};
ghost use Rattle.ans_mend.specs.Mending.{KeepsLines, PassesAsStated, TakesLines, TellsTorn, WantsLines, asks_for_lines};
ghost use Rattle.ans_mend.specs.Mending.{lines_before};
ghost use Rattle.ans_mend.specs.Mending.{IsRead, lacks_lines, lined, opened};

use crate::draft::Draft;
use crate::new_record::refusal_of;
use crate::outcome::Unmended;
use ans_hints::{Hints, OtherWidths};
use ans_model::limits::MAX_LINES;
use ans_model::mends::Mends;
use ans_model::size::Size;
use ans_pens::{is_good, least_lines};
use ans_sauce::{Parts, cut_record, split};

/// Whether a number of lines is asked for: one that is given, or the least.
fn asks_for_lines(mends: &Mends) -> bool
    ensures { result ≡ asks_for_lines mends.now }
{
    mends.lines.is_some() || mends.least_lines
}

/// Whether the record states no lines, and a number is asked for.
fn lacks_lines(file: &[u8], mends: &Mends) -> bool
    ensures { result ≡ lacks_lines mends.now file.now }
{
    match cut_record(file) {
        Some((_, sauce)) => sauce.lines() == 0 && asks_for_lines(mends),
        None => false,
    }
}

/// Has the record state the lines that are given, or else the most, until they are settled, if it states
/// none and a number is asked for. Returns whether that is so.
pub(crate) fn open_lines(draft: &mut Draft<'_>, mends: &Mends) -> bool
    ensures draft { draft.new ≡ draft_of (opened mends.now draft.old.file) draft.old.room }
    ensures lacks { result ≡ lacks_lines mends.now draft.old.file }
{
    if !lacks_lines(draft.file(), mends) {
        return false;
    }
    draft.state_lines(mends.lines.unwrap_or(MAX_LINES as u16));
    true
}

/// Whether other lines than the stated ones are needed: none are stated, or the content does not pass from
/// the cleared start with those that are.
fn wants_lines(parts: &Parts<'_>, lacks: bool) -> bool
    requires length { length (content_of parts.now) ≤ longest_file }
    ensures wanted { result ≡ true → WantsLines lacks (record_of parts.now) (content_of parts.now) }
    ensures kept { result ≡ false
        → (lacks ≡ false) × PassesAsStated (record_of parts.now) (content_of parts.now) }
{
    lacks || !is_good(parts.size(), parts.content())
}

/// How many lines the record states; none, if their number is still to be settled.
fn lines_before(parts: &Parts<'_>, lacks: bool) -> usize
    ensures lines { result ≡ lines_before lacks (record_of parts.now) }
    ensures within { result ≤ most_lines }
{
    if lacks { 0 } else { parts.lines() }
}

/// Whether the rows of a content that passes on this many lines look broken on them, or it shows another width
/// than the stated one. `lacks` says that the record states no lines.
fn looks_torn(parts: &Parts<'_>, lacks: bool, lines: u16) -> bool
    requires length { length (content_of parts.now) ≤ longest_file }
    requires some { 1 ≤ lines }
    requires lines { lines ≤ most_lines }
    ensures { TellsTorn result lacks (record_of parts.now) (content_of parts.now) lines }
{
    let content = parts.content();
    let size = Size::new(parts.width(), lines as usize);
    let hints = Hints::of(size, parts.sauce().is_non_blink(), content, content.len());
    let stated = lines_before(parts, lacks);
    let widths = OtherWidths::of(parts.width(), stated, &hints, content);
    hints.are_torn() || widths.are_some()
}

/// The smallest number of lines with which the content passes, if its rows do not look broken on them. None if
/// it passes with none, and some are stated.
fn least_wanted(parts: &Parts<'_>, lacks: bool) -> Result<Option<u16>, Unmended>
    requires length { length (content_of parts.now) ≤ longest_file }
    ensures none { IfOk result (λ n. IfNone n ((lacks ≡ false)
        × IsNeverGood (width_of parts.now) (content_of parts.now) most_lines)) }
    ensures least { IfOk result (λ n. IfSome n (HasLeast false lacks (record_of parts.now) (content_of parts.now))) }
    ensures reason { IfErr result (IsWithoutNumber lacks (record_of parts.now) (content_of parts.now)) }
{
    let content = parts.content();
    let Some(lines) = least_lines(parts.width(), content) else {
        return if lacks {
            Err(Unmended::NoLines)
        } else {
            Ok(None)
        };
    };
    if looks_torn(parts, lacks, lines) {
        return Err(Unmended::Torn);
    }
    Ok(Some(lines))
}

/// The number of lines to be stated, if it is not to stay as it is.
fn number_wanted(parts: &Parts<'_>, mends: &Mends, lacks: bool) -> Result<Option<u16>, Unmended>
    requires length { length (content_of parts.now) ≤ longest_file }
    requires asked { lacks ≡ true → asks_for_lines mends.now ≡ true }
    ensures kept { IfOk result (λ n. IfNone n
        (KeepsLines mends.now lacks (record_of parts.now) (content_of parts.now))) }
    ensures taken { IfOk result (λ n. IfSome n
        (TakesLines mends.now lacks (record_of parts.now) (content_of parts.now))) }
    ensures reason { IfErr result (IsReasonOfLines mends.now lacks (record_of parts.now) (content_of parts.now)) }
{
    if !asks_for_lines(mends) {
        return Ok(None);
    }
    if !wants_lines(parts, lacks) {
        return Ok(None);
    }
    if mends.lines.is_some() {
        return Ok(mends.lines);
    }
    least_wanted(parts, lacks)
}

/// The number of lines to be stated in a file whose content is changed.
pub(crate) fn lines_for(file: &[u8], mends: &Mends, lacks: bool) -> Result<Option<u16>, Unmended>
    requires length { length file.now ≤ longest_file }
    requires asked { lacks ≡ true → asks_for_lines mends.now ≡ true }
    ensures lines { IfOk result (AreLinesFor mends.now lacks file.now) }
    ensures record { OnOk result (128 ≤ length file.now) }
    ensures read { OnOk result (IsRead file.now) }
    ensures reason { IfErr result (IsReasonOfEdited mends.now lacks file.now) }
{
    let parts = match split(file) {
        Ok(parts) => parts,
        Err(fault) => return Err(refusal_of(file, fault)),
    };
    number_wanted(&parts, mends, lacks)
}

/// States these lines, if there are some.
pub(crate) fn take_lines(draft: &mut Draft<'_>, lines: Option<u16>)
    requires { 128 ≤ length draft.old.file }
    ensures { draft.new ≡ draft_of (lined lines draft.old.file) draft.old.room }
{
    if let Some(lines) = lines {
        draft.state_lines(lines);
    }
}
