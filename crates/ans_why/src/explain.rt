//! What there is to say of a file.

ghost use Rattle.std.specs.Prelude.{◌≡◌, ◌≢◌, ◌+◌, ◌≤◌, ◌↔◌, IsTrue, IfSome, IfNone, Some, None, length, [], true};
ghost use Rattle.ans_model.specs.Bytes.{longest_file, most_columns, most_lines};
ghost use Rattle.ans_model.specs.File.Layout.{content};
ghost use Rattle.ans_model.specs.File.Record.{stated_width};
ghost use Rattle.ans_model.specs.Screen.State.{IsOnScreen, sized};
ghost use Rattle.ans_model.specs.Screen.StartClass.{none_known, all_known};
ghost use Rattle.ans_model.specs.Verdict.Needs.{IsLeast};
ghost use Rattle.ans_sauce.specs.Found.{body_in, record_in};
ghost use Rattle.ans_sauce.specs.Parts.{content_of, record_of, size_of, width_of};
ghost use Rattle.ans_sauce.specs.WithoutLines.{lacks_lines_alone};
ghost use Rattle.ans_pens.specs.Lines.{IsLeastLines, IsNeverGood};
ghost use Rattle.ans_sauce.specs.Judged.{IsRecordFault};
ghost use Rattle.ans_model.specs.Verdict.LastFault.{IsDeserved};
ghost use Rattle.ans_why.specs.Blamed.{AreToBlame};
ghost use Rattle.ans_why.specs.Explained.{place_of, IsShown, AreHintsOf, IsReliance, IsPass};
ghost use Rattle.ans_why.specs.Explained.{IsOfReading, AreLines, AreRefusalHints, EndsHints, IsEnough};
ghost use Rattle.ans_why.specs.Explained.{AreWidths, IsRecordRefusal, IsRefusal, wants_widths};

use crate::blamed::bytes_to_blame;
use crate::known_bytes::known_sequence;
use crate::other_files::known_file;
use crate::text_damage::TextDamage;
use crate::why::{Enough, Pass, Place, RecordRefusal, Refusal, Reliance, Shown};
use ans_hints::{Hints, OtherWidths, Overview};
use ans_model::beginning::SAFE_BEGINNING;
use ans_model::cell::Position;
use ans_model::fault::{Cause, Fault};
use ans_model::limits::MAX_FILE;
use ans_model::size::Size;
use ans_model::start::Start;
use ans_pens::{cells_of_fault, cursors_before, least_lines};
use ans_sauce::{Parts, WithoutLines, cut_content, find, without_lines};

fn place(size: Size, position: Position) -> Place
    requires { IsOnScreen size position }
    ensures { result ≡ place_of position }
{
    Place {
        row: position.row + 1,
        column: position.column + 1,
    }
}

/// What the plays from the low and the high of all starts show of a fault.
fn shown(size: Size, content: &[u8], fault: Fault) -> Shown
    requires length { length content.now ≤ longest_file }
    requires deserved { IsDeserved size none_known content.now fault }
    ensures { IsShown size none_known content.now fault result }
{
    if let Some((low, high)) = cells_of_fault(size, Start::ANY, content, fault) {
        return Shown::Cells { low, high };
    }
    let (low, high) = cursors_before(size, Start::ANY, content, fault);
    Shown::Cursors {
        low: place(size, low),
        high: place(size, high),
    }
}

fn reliance(size: Size, file_length: usize, content: &[u8], fault: Fault) -> Reliance<'_>
    requires length { length content.now ≤ longest_file }
    requires file { file_length ≤ longest_file }
    requires deserved { IsDeserved size none_known content.now fault }
    ensures relies { IsReliance size file_length content.now result }
    ensures fault { result.fault ≡ fault }
{
    Reliance {
        fault,
        bytes: bytes_to_blame(content, size, Start::ANY, fault),
        shown: shown(size, content, fault),
        mends: file_length + SAFE_BEGINNING.len() <= MAX_FILE,
    }
}

/// The same, if there is a fault.
fn reliance_of(
    size: Size,
    file_length: usize,
    content: &[u8],
    fault: Option<Fault>,
) -> Option<Reliance<'_>>
    requires length { length content.now ≤ longest_file }
    requires file { file_length ≤ longest_file }
    requires deserved { IfSome fault (IsDeserved size none_known content.now) }
    ensures relies { IfSome result (λ r. IsReliance size file_length content.now r
        × (fault ≡ Some r.fault)) }
    ensures nothing { IfNone result (fault ≡ None) }
{
    match fault {
        Some(fault) => Some(reliance(size, file_length, content, fault)),
        None => None,
    }
}

/// Whether the reading refuses the sequence itself: F9 to F14.
fn is_of_reading(cause: &Cause) -> bool
    ensures { IsTrue result ↔ IsOfReading cause.now }
{
    matches!(
        cause,
        Cause::BrokenSequence
            | Cause::NumberTooLarge
            | Cause::TooManyParameters
            | Cause::EndInSequence
            | Cause::UnknownSequence
            | Cause::WrongParameters
    )
}

fn end_of_hints(fault: &Fault, bytes: &[u8]) -> usize
    requires { fault.now.offset + length bytes.now ≤ longest_file }
    ensures ends { EndsHints fault.now bytes.now result }
    ensures within { result ≤ fault.now.offset + length bytes.now }
{
    if is_of_reading(&fault.cause) {
        return fault.offset;
    }
    fault.offset + bytes.len()
}

/// For F19 to F21 the least number of lines that is enough.
fn enough_lines(width: usize, content: &[u8], cause: &Cause) -> Option<u16>
    requires some_columns { 1 ≤ width }
    requires columns { width ≤ most_columns }
    requires length { length content.now ≤ longest_file }
    ensures { AreLines width content.now cause.now result }
{
    match cause {
        Cause::OutsideScreen | Cause::PrintBelow | Cause::Scrolls => least_lines(width, content),
        _ => None,
    }
}

/// The hints of all of a content, on the least number of lines that is enough.
fn hints_on(width: usize, lines: u16, non_blink: bool, content: &[u8]) -> Hints
    requires some_columns { 1 ≤ width }
    requires columns { width ≤ most_columns }
    requires lines { lines ≤ most_lines }
    requires least { IsLeastLines width content.now lines }
    requires length { length content.now ≤ longest_file }
    ensures { AreHintsOf (sized width lines) non_blink content.now [] result }
{
    let size = Size::new(width, lines as usize);
    Hints::of(size, non_blink, content, content.len())
}

/// The number of lines that is enough, for a file that lacks only that.
fn enough(file: &[u8]) -> Option<Enough<'_>>
    requires { length file.now ≤ longest_file }
    ensures some { IfSome result (IsEnough file.now) }
    ensures none { IfNone result (lacks_lines_alone file.now ≡ true
        → IsNeverGood (stated_width (record_in file.now)) (content (body_in file.now)) most_lines) }
{
    let WithoutLines { content, sauce } = without_lines(file)?;
    let width = sauce.width();
    let Some(lines) = least_lines(width, content) else {
        return None;
    };
    Some(Enough {
        lines,
        hints: hints_on(width, lines, sauce.is_non_blink(), content),
        font: sauce.font(),
    })
}

/// The bytes up to the first end mark.
fn front(file: &[u8]) -> &[u8]
    ensures front { result.now ≡ content file.now }
    ensures within { length result.now ≤ length file.now }
{
    cut_content(file).0
}

impl<'a> RecordRefusal<'a> {
    /// For a file whose record or layout is refused. It takes no memory.
    pub fn of(file: &'a [u8], fault: Fault) -> RecordRefusal<'a>
        requires length { length file.now ≤ longest_file }
        requires refused { IsRecordFault file.now fault }
        ensures { IsRecordRefusal file.now result }
    {
        RecordRefusal {
            fault,
            found: find(file, fault),
            other: known_file(file),
            damage: TextDamage::of(front(file)),
            enough: match fault.cause {
                Cause::LinesUnstated => enough(file),
                _ => None,
            },
        }
    }
}

/// The hints of a refused content: of all of it, if this many lines are enough, and else of its tokens
/// up to the one to blame.
fn refusal_hints(parts: &Parts<'_>, fault: &Fault, bytes: &[u8], lines: Option<u16>) -> Hints
    requires length { length (content_of parts.now) ≤ longest_file }
    requires within { fault.now.offset + length bytes.now ≤ length (content_of parts.now) }
    requires least { IfSome lines (λ n. (n ≤ most_lines)
        × IsLeastLines (width_of parts.now) (content_of parts.now) n) }
    ensures { AreRefusalHints (record_of parts.now) (content_of parts.now) fault.now bytes.now lines result }
{
    let content = parts.content();
    let non_blink = parts.sauce().is_non_blink();
    match lines {
        Some(lines) => hints_on(parts.width(), lines, non_blink, content),
        None => Hints::of(parts.size(), non_blink, content, end_of_hints(fault, bytes)),
    }
}

/// Whether other widths are looked for if the content passes.
fn wants_widths(size: Size, hints: &Hints) -> bool
    ensures { result ≡ wants_widths size hints.now }
{
    hints.empty_rows > 0 || size.width() < 40
}

/// What a record of this size shows of other widths, if that is wanted.
fn other_widths(wanted: bool, size: Size, hints: &Hints, content: &[u8]) -> OtherWidths
    requires { length content.now ≤ longest_file }
    ensures { AreWidths wanted size hints.now content.now result }
{
    if wanted {
        OtherWidths::of(size.width(), size.lines(), hints, content)
    } else {
        OtherWidths::NONE
    }
}

impl<'a> Refusal<'a> {
    /// For a content that is refused from the cleared start, with this fault. It takes no memory.
    pub fn of(parts: &Parts<'a>, fault: Fault) -> Refusal<'a>
        requires length { length (content_of parts.now) ≤ longest_file }
        requires deserved { IsDeserved (size_of parts.now) all_known (content_of parts.now) fault }
        ensures { IsRefusal (record_of parts.now) (content_of parts.now) result }
    {
        let size = parts.size();
        let content = parts.content();
        let bytes = bytes_to_blame(content, size, Start::CLEARED, fault);
        let (cursor, _) = cursors_before(size, Start::CLEARED, content, fault);
        let lines = enough_lines(parts.width(), content, &fault.cause);
        let hints = refusal_hints(parts, &fault, bytes, lines);
        Refusal {
            fault,
            bytes,
            known: known_sequence(content.split_at(fault.offset).1, &fault.cause),
            cursor: place(size, cursor),
            lines,
            hints,
            widths: other_widths(lines.is_some(), size, &hints, content),
            damage: TextDamage::of(content),
        }
    }
}

impl<'a> Pass<'a> {
    /// For the content of a file of this length, which passes from the cleared start: it needs this
    /// class, and if that is not the class of all starts, it has this fault from all starts. It takes
    /// no memory.
    pub fn of(parts: &Parts<'a>, file_length: usize, needs: Start, fault: Option<Fault>) -> Pass<'a>
        requires length { length (content_of parts.now) ≤ longest_file }
        requires file { file_length ≤ longest_file }
        requires needs { IsLeast (size_of parts.now) (content_of parts.now) needs }
        requires nothing { IfNone fault (needs ≡ none_known) }
        requires fault { IfSome fault (λ f. (needs ≢ none_known)
            × IsDeserved (size_of parts.now) none_known (content_of parts.now) f) }
        ensures { IsPass file_length (record_of parts.now) (content_of parts.now) result }
    {
        let size = parts.size();
        let content = parts.content();
        let overview = Overview::of(size, needs, parts.sauce().is_non_blink(), content);
        Pass {
            needs,
            players: overview.players,
            taller: overview.taller,
            reliance: reliance_of(size, file_length, content, fault),
            hints: overview.hints,
            widths: other_widths(
                wants_widths(size, &overview.hints),
                size,
                &overview.hints,
                content,
            ),
            damage: TextDamage::of(content),
        }
    }
}
