//! Which flags of mending a drawing's own findings call for.

ghost use Rattle.std.specs.Prelude.{◌≡◌, is_some};
ghost use Rattle.std.specs.List.{list_any};
ghost use Rattle.ans_fix.specs.Suggested.{allowed, are_ended, are_mixed, are_odd, exchanged_lines, is_damaged};
ghost use Rattle.ans_fix.specs.Suggested.{mends_of_content, mends_of_enough, mends_of_found, mends_of_rows};
ghost use Rattle.ans_fix.specs.Suggested.{mends_of_width, only_width, suggested, unless_any, wanted_width};
ghost use Rattle.ans_fix.specs.Suggested.{wider_width};
ghost use Rattle.ans_model.specs.Text.FaultText.{cause_number};

use ans_hints::{Hints, OtherWidths, WiderRows};
use ans_model::limits::MAX_WIDTH;
use ans_model::mends::Mends;
use ans_model::size::Size;
use ans_sauce::{Found, Judged};
use ans_why::{Enough, Refusal, TextDamage, Why, known_file, told_hints};

/// Whether something happened to it on its way as a text that is mended by hand. Letters of Latin-1 are none of this.
fn is_damaged(damage: &TextDamage) -> bool
    ensures { result ≡ is_damaged damage.now }
{
    damage.mark
        || damage.lost_escapes.is_some()
        || damage.shown_escapes.is_some()
        || damage.short_escapes.is_some()
        || damage.converted.is_some()
        || damage.wide_characters.is_some()
        || damage.returns.is_some()
}

/// The number, if a record may state that many columns.
fn allowed(count: usize) -> Option<u16>
    ensures { result ≡ allowed count }
{
    if count <= MAX_WIDTH {
        Some(count as u16)
    } else {
        None
    }
}

fn has_some(widths: &[Option<u16>]) -> bool
    ensures { result ≡ list_any is_some widths.now }
{
    widths.iter().any(|width| width.is_some())
}

/// A width, unless there is one more.
fn unless_any(width: Option<u16>, more: &[Option<u16>]) -> Option<u16>
    ensures { result ≡ unless_any width more.now }
{
    if has_some(more) { None } else { width }
}

/// The one width that is there.
fn only_width(fitting: &[Option<u16>]) -> Option<u16>
    ensures { result ≡ only_width fitting.now }
{
    let mut rest = fitting;
    'widths: while let [width, more @ ..] = rest {
        if width.is_some() {
            return unless_any(*width, more);
        }
        rest = more;
    }
    None
}

/// That of the widest row, if rows run over the edge; else the one width that fits.
fn wider_width(rows: Option<WiderRows>, fitting: &[Option<u16>]) -> Option<u16>
    ensures { result ≡ wider_width rows fitting.now }
{
    match rows {
        Some(rows) => allowed(rows.columns),
        None => only_width(fitting),
    }
}

/// The width that the record should state: that of its lines, if columns and lines are exchanged.
fn wanted_width(size: Size, hints: &Hints, widths: &OtherWidths) -> Option<u16>
    ensures { result ≡ wanted_width size hints.now widths.now }
{
    if widths.exchanged {
        return allowed(size.lines());
    }
    wider_width(hints.row_ends.wider_rows(), &widths.fitting)
}

/// Whether full rows have a line end, or will: the widest row of a drawing for more columns is full on its own width.
fn are_ended(hints: &Hints) -> bool
    ensures { result ≡ are_ended hints.now }
{
    hints.row_ends.ended.is_some() || hints.row_ends.wider_rows().is_some()
}

/// Whether only some line feeds have no return, or only some full rows have a line end.
fn are_mixed(hints: &Hints) -> bool
    ensures { result ≡ are_mixed hints.now }
{
    (hints.loose_line_feeds.is_some() && hints.row_ends.returns)
        || (are_ended(hints) && !hints.row_ends.are_all_ended())
}

/// Whether something is wrong with the rows, or with the width.
fn are_odd(hints: &Hints, width: Option<u16>) -> bool
    ensures { result ≡ are_odd hints.now width }
{
    hints.are_torn() || hints.loose_line_feeds.is_some() || are_ended(hints) || width.is_some()
}

/// What a drawing's rows call for, with this width in its record; and if nothing is wrong with them, more lines, or
/// fewer line ends and sequences at the very end.
fn mends_of_width(width: Option<u16>, hints: &Hints) -> Mends
    ensures { result ≡ mends_of_width width hints.now }
{
    let is_even = !are_odd(hints, width);
    Mends {
        columns: width,
        crlf: hints.loose_line_feeds.is_some(),
        take_out: is_even,
        join_rows: are_ended(hints),
        mixed: are_mixed(hints),
        least_lines: is_even,
        ..Mends::NONE
    }
}

/// The lines that the record should state, if columns and lines are exchanged.
fn exchanged_lines(size: Size, widths: &OtherWidths) -> Option<u16>
    ensures { result ≡ exchanged_lines size widths.now }
{
    if widths.exchanged {
        Some(size.width() as u16)
    } else {
        None
    }
}

/// The same by the size that is stated, and what that shows of other widths.
fn mends_of_rows(size: Size, hints: &Hints, widths: &OtherWidths) -> Mends
    ensures { result ≡ mends_of_rows size hints.now widths.now }
{
    Mends {
        lines: exchanged_lines(size, widths),
        ..mends_of_width(wanted_width(size, hints, widths), hints)
    }
}

/// What a refused content of this size calls for.
fn mends_of_content(size: Size, refusal: &Refusal<'_>) -> Option<Mends>
    ensures { result ≡ mends_of_content size refusal.now (cause_number refusal.now.fault.cause) }
{
    let number = refusal.fault.cause.number();
    if 9 <= number && number <= 18 {
        return Some(Mends {
            take_out: true,
            ..Mends::NONE
        });
    }
    if 19 <= number && number <= 21 {
        let hints = told_hints(size.lines(), refusal);
        return Some(mends_of_rows(size, &hints, &refusal.widths));
    }
    None
}

/// What a file that states no lines calls for: the least number of them, and what its rows call for; but nothing if
/// they seem to be rows of another width, since there are no stated lines to show which.
fn mends_of_enough(enough: Option<Enough<'_>>) -> Option<Mends>
    ensures { result ≡ mends_of_enough enough.entry }
{
    let enough = enough?;
    if enough.hints.row_ends.wider_rows().is_some() {
        return None;
    }
    Some(Mends {
        least_lines: true,
        take_out: false,
        ..mends_of_width(None, &enough.hints)
    })
}

/// What a record or a layout that is refused calls for, by what is found there.
fn mends_of_found(found: Found<'_>, enough: Option<Enough<'_>>) -> Option<Mends>
    ensures { result ≡ mends_of_found found.entry enough.entry }
{
    match found {
        Found::NoRecord => Some(Mends {
            add_record: Some(80),
            ..Mends::NONE
        }),
        Found::Record { .. } => Some(Mends::NONE),
        Found::Comments(_) | Found::AfterEndMark { .. } => Some(Mends {
            repair_record: true,
            ..Mends::NONE
        }),
        Found::Lines(_) => mends_of_enough(enough),
        _ => None,
    }
}

/// The flags of mending that the findings of a refused drawing call for: none for a drawing that passes, for another
/// kind of file, and for a text that was damaged on its way, which is mended by hand. With them it may still be
/// refused.
pub fn suggested(why: &Why<'_>) -> Option<Mends>
    ensures { result ≡ suggested why.now }
{
    match why {
        Judged::NoContent(said) => {
            if said.other.is_some() || is_damaged(&said.damage) {
                return None;
            }
            mends_of_found(said.found, said.enough)
        }
        Judged::Refused(parts, refusal) => {
            if known_file(parts.content()).is_some() || is_damaged(&refusal.damage) {
                return None;
            }
            mends_of_content(parts.size(), refusal)
        }
        Judged::Passes(..) => None,
    }
}
