//! Signs that a drawing was made for another width than its record states.

ghost use Rattle.std.specs.Prelude.{◌≡◌, ◌≤◌, ◌<◌, ◌↔◌, ℕ, IsTrue, None, false, get_or, is_some, length, take};
ghost use Rattle.std.specs.List.{list_any};
ghost use Rattle.ans_model.specs.Bytes.{longest_file, most_columns, most_lines};
ghost use Rattle.ans_pens.specs.Lines.{IsLeastLines};
ghost use Rattle.ans_hints.specs.OtherWidths.{AreOtherWidths, IsFitting, IsPlaceOf, are_exchanged, has_other_widths};
ghost use Rattle.ans_hints.specs.OtherWidths.{is_another, is_on_its_side, is_short, tried_widths};

use crate::hints::Hints;
use crate::row_ends::RowEnds;
use ans_model::limits::{MAX_LINES, MAX_WIDTH};
use ans_model::size::Size;
use ans_pens::is_good;

/// What a record and its content show of other widths.
#[derive(Debug, Clone, Copy, PartialEq, Eq)]
pub struct OtherWidths {
    /// The widths in columns, of those that are tried, on which the content needs just the stated lines. They are
    /// tried if no line feed is in the content: 40, 80, 100, 120, 132, 160, and twice and three times the stated
    /// width, each in its place here; those below the stated width if lines are left empty, and else those above it.
    pub fitting: [Option<u16>; 8],
    /// Whether columns and lines seem to be exchanged in the record.
    pub exchanged: bool,
}

/// Whether the content needs this many lines on this width, from the cleared start.
fn needs_lines(width: usize, lines: usize, content: &[u8]) -> bool
    requires some_columns { 1 ≤ width }
    requires columns { width ≤ most_columns }
    requires some_lines { 1 ≤ lines }
    requires lines { lines ≤ most_lines }
    requires length { length content.now ≤ longest_file }
    ensures { IsTrue result ↔ IsLeastLines width content.now lines }
{
    is_good(Size::new(width, lines), content)
        && (lines == 1 || !is_good(Size::new(width, lines - 1), content))
}

fn is_short(hints: &Hints) -> bool
    ensures { result ≡ is_short hints.now }
{
    hints.empty_rows > 0
}

/// Whether a drawing with these hints may be one for this width: for fewer columns if it leaves lines empty, and
/// else for more.
fn is_on_its_side(hints: &Hints, width: usize, other: usize) -> bool
    ensures { result ≡ is_on_its_side hints.now width other }
{
    if is_short(hints) {
        other < width
    } else {
        other > width
    }
}

fn is_another(hints: &Hints, width: usize, before: &[usize], other: usize) -> bool
    ensures { result ≡ is_another hints.now width before.now other }
{
    is_on_its_side(hints, width, other) && other <= MAX_WIDTH && !before.contains(&other)
}

/// A width, if it fits; it is tried after these.
fn fitting_width(
    width: usize,
    lines: usize,
    hints: &Hints,
    content: &[u8],
    before: &[usize],
    other: usize,
) -> Option<u16>
    requires some_columns { 1 ≤ other }
    requires some_lines { 1 ≤ lines }
    requires lines { lines ≤ most_lines }
    requires length { length content.now ≤ longest_file }
    ensures { IsPlaceOf other (IsFitting width lines hints.now content.now before.now other) result }
{
    if is_another(hints, width, before, other) && needs_lines(other, lines, content) {
        Some(other as u16)
    } else {
        None
    }
}

/// Whether the stated lines come out: none is left empty, and the content needs just these.
fn comes_out(width: usize, lines: usize, hints: &Hints, content: &[u8]) -> bool
    requires some_columns { 1 ≤ width }
    requires columns { width ≤ most_columns }
    requires some_lines { 1 ≤ lines }
    requires lines { lines ≤ most_lines }
    requires length { length content.now ≤ longest_file }
    ensures { IsTrue result ↔ ((is_short hints.now ≡ false) × IsLeastLines width content.now lines) }
{
    !is_short(hints) && needs_lines(width, lines, content)
}

/// The widths that fit, each in its place.
#[cold]
#[inline(never)]
fn fitting_widths(width: usize, lines: usize, hints: &Hints, content: &[u8]) -> [Option<u16>; 8]
    requires some_columns { 1 ≤ width }
    requires columns { width ≤ most_columns }
    requires some_lines { 1 ≤ lines }
    requires lines { lines ≤ most_lines }
    requires length { length content.now ≤ longest_file }
    ensures { (k : ℕ) → k < 8 → IsPlaceOf (get_or (tried_widths width) k 0)
        (IsFitting width lines hints.now content.now (take k (tried_widths width))
        (get_or (tried_widths width) k 0))
        (get_or result k None) }
{
    let tried = [40, 80, 100, 120, 132, 160, 2 * width, 3 * width];
    let mut fitting = [None; 8];
    for i in 0..8 {
        fitting[i] = fitting_width(width, lines, hints, content, &tried[..i], tried[i]);
    }
    fitting
}

fn are_exchanged(width: usize, lines: usize, ends: &RowEnds) -> bool
    ensures { result ≡ are_exchanged width lines ends.now }
{
    width < 40 && matches!(lines, 80 | 132 | 160) && ends.full > 0
}

fn has_some(places: &[Option<u16>]) -> bool
    ensures { result ≡ list_any is_some places.now }
{
    places.iter().any(|place| place.is_some())
}

impl OtherWidths {
    pub const NONE: OtherWidths = OtherWidths {
        fitting: [None; 8],
        exchanged: false,
    };

    /// What a record that states this width and these lines, or 0 for none, shows of other widths. The hints are
    /// those of the content on the stated width, with the lines that it needs there or with the stated ones. It takes
    /// no memory, and plays the content at most 16 times, and only if nothing in it ends a line.
    pub fn of(width: usize, lines: usize, hints: &Hints, content: &[u8]) -> OtherWidths
        requires some_columns { 1 ≤ width }
        requires columns { width ≤ most_columns }
        requires lines { lines ≤ most_lines }
        requires length { length content.now ≤ longest_file }
        ensures { AreOtherWidths width lines hints.now content.now result }
    {
        let exchanged = are_exchanged(width, lines, &hints.row_ends);
        if lines == 0 || hints.row_ends.line_ends > 0 || comes_out(width, lines, hints, content) {
            return OtherWidths {
                exchanged,
                ..OtherWidths::NONE
            };
        }
        OtherWidths {
            fitting: fitting_widths(width, lines, hints, content),
            exchanged,
        }
    }

    /// Whether it shows some other width.
    pub fn are_some(&self) -> bool
        ensures { result ≡ has_other_widths self.now }
    {
        self.exchanged || has_some(&self.fitting)
    }
}
