//! The text of `why`.
ghost use Rattle.std.specs.Prelude.{◌≡◌, ◌++◌, codes, decimal};
ghost use Rattle.ans_model.specs.Text.Characters.{shown_bytes};
ghost use Rattle.ans_model.specs.Text.RecordText.{named_line};
ghost use Rattle.ans_sauce.specs.declared.found.Found.TheVariants as found;
ghost use Rattle.ans_sauce.specs.declared.judged.Judged.TheVariants.{NoContent};
ghost use Rattle.ans_write.specs.Puts.{Puts};
ghost use Rattle.ans_report.specs.Counted.{counted_text};
ghost use Rattle.ans_why.specs.WhyText.{blamed_text, blamed_line, fault_lines, place_text, cell_text, shown_lines};
ghost use Rattle.ans_why.specs.WhyText.{reliance_lines, verdict_words, taller_line, lines_line};
ghost use Rattle.ans_why.specs.WhyText.{after_end_mark_text, enough_lines, heading_lines, known_found, known_line};
ghost use Rattle.ans_why.specs.OtherFiles.{first_known, known_file};
ghost use Rattle.ans_why.specs.WhyText.{found_line, pass_lines, refusal_lines, told_hints, torn_text, why_text};
ghost use Rattle.ans_why.specs.WhyText.{comes_out, file_lines, hints_beside, looks_torn, returns_text, wide_told};
ghost use Rattle.ans_why.specs.WhyText.{without_over};

use crate::hint_rows::WIDE_CHARACTERS;
use crate::hints_text::{put_counted_line, put_damage, put_hints, put_pass_hints};
use crate::known_bytes::{Known, known_behind_end_mark};
use crate::other_files::known_file;
use crate::players_text::{is_same_class, put_players};
use crate::text_damage::TextDamage;
use crate::why::{Enough, Pass, Place, RecordRefusal, Refusal, Reliance, Shown, Why};
use crate::widths_text::put_widths;
use ans_hints::{Hints, RowEnds, RowsOver};
use ans_model::cell::Cell;
use ans_model::fault::Fault;
use ans_model::start::Start;
use ans_pens::Times;
use ans_report::{
    put_counted, put_fault, put_named_line, put_needed_parts, put_notes, put_quoted, put_size_line,
};
use ans_sauce::{Found, Judged, Parts};
use ans_write::{Outbox, hex_byte, put_characters};
use std::io::Write;

/// Puts the offending bytes, after a fault.
fn put_blamed<W: Write>(out: &mut Outbox<'_, W>, bytes: &[u8])
    ensures { Puts W.contents out.old out.new (blamed_text bytes.now) }
{
    if bytes.is_empty() {
        return;
    }
    out.put(b": ");
    put_quoted(out, bytes);
}

fn put_blamed_line<W: Write>(out: &mut Outbox<'_, W>, name: &[u8], fault: &Fault, bytes: &[u8])
    ensures { Puts W.contents out.old out.new (blamed_line name.now fault.now bytes.now) }
{
    out.put(name);
    out.put(b": ");
    put_fault(out, fault);
    put_blamed(out, bytes);
    out.put(b"\n");
}

/// Puts the verdict of a refusal, its fault, and the offending bytes.
fn put_fault_lines<W: Write>(out: &mut Outbox<'_, W>, fault: &Fault, bytes: &[u8])
    ensures { Puts W.contents out.old out.new (fault_lines fault.now bytes.now) }
{
    out.put(b"verdict: refused\n");
    put_blamed_line(out, b"fault", fault, bytes);
}

/// Puts two numbers, each after a text.
fn put_numbers<W: Write>(
    out: &mut Outbox<'_, W>,
    before: &[u8],
    number: usize,
    between: &[u8],
    other: usize,
)
    ensures { Puts W.contents out.old out.new
        (before.now ++ (decimal number ++ (between.now ++ decimal other))) }
{
    out.put(before);
    out.put_decimal(number as u64);
    out.put(between);
    out.put_decimal(other as u64);
}

fn put_place<W: Write>(out: &mut Outbox<'_, W>, place: Place)
    ensures { Puts W.contents out.old out.new (place_text place) }
{
    put_numbers(out, b"row ", place.row, b", column ", place.column);
}

fn put_place_line<W: Write>(out: &mut Outbox<'_, W>, name: &[u8], place: Place)
    ensures { Puts W.contents out.old out.new (named_line name.now (place_text place)) }
{
    out.put(name);
    out.put(b": ");
    put_place(out, place);
    out.put(b"\n");
}

fn put_cell<W: Write>(out: &mut Outbox<'_, W>, cell: Cell)
    ensures { Puts W.contents out.old out.new (cell_text cell) }
{
    out.put(b"byte ");
    out.put(&hex_byte(cell.byte));
    out.put(b", attribute ");
    out.put(&hex_byte(cell.attribute));
}

fn put_cell_line<W: Write>(out: &mut Outbox<'_, W>, name: &[u8], cell: Cell)
    ensures { Puts W.contents out.old out.new (named_line name.now (cell_text cell)) }
{
    out.put(name);
    out.put(b": ");
    put_cell(out, cell);
    out.put(b"\n");
}

fn put_shown<W: Write>(out: &mut Outbox<'_, W>, shown: Shown)
    ensures { Puts W.contents out.old out.new (shown_lines shown) }
{
    match shown {
        Shown::Cursors { low, high } => {
            put_place_line(out, b"from the top left", low);
            put_place_line(out, b"from the bottom right", high);
        }
        Shown::Cells { low, high } => {
            put_cell_line(out, b"from the top left", low);
            put_cell_line(out, b"from the bottom right", high);
        }
    }
}

fn put_reliance<W: Write>(out: &mut Outbox<'_, W>, reliance: Option<Reliance<'_>>)
    ensures { Puts W.contents out.old out.new (reliance_lines reliance.entry) }
{
    let Some(reliance) = reliance else {
        return;
    };
    put_blamed_line(out, b"because", &reliance.fault, reliance.bytes);
    put_shown(out, reliance.shown);
}

/// The verdict on a content that passes from the cleared start, by the class that it needs.
fn verdict_words(needs: Start) -> &'static [u8]
    ensures { result.now ≡ verdict_words needs }
{
    if is_same_class(needs, Start::ANY) {
        b"pass"
    } else {
        b"pass on a cleared screen"
    }
}

fn put_taller_line<W: Write>(out: &mut Outbox<'_, W>, taller: bool)
    ensures { Puts W.contents out.old out.new (taller_line taller) }
{
    if taller {
        out.put(b"taller screens: same\n");
    }
}

/// The hints beside what seems to have happened to a text: not on letters of UTF-8, if it is to be converted otherwise.
fn hints_beside(damage: &TextDamage, hints: Hints) -> Hints
    ensures { result ≡ hints_beside damage.now hints }
{
    match damage.converted {
        Some(_) => Hints {
            two_byte_letters: None,
            ..hints
        },
        None => hints,
    }
}

fn put_pass<W: Write>(out: &mut Outbox<'_, W>, parts: &Parts<'_>, pass: &Pass<'_>)
    ensures { Puts W.contents out.old out.new (pass_lines parts.now pass.now) }
{
    put_named_line(out, b"verdict", verdict_words(pass.needs));
    put_known_line(out, known_file(parts.content()));
    out.put(b"needs: ");
    put_needed_parts(out, pass.needs);
    out.put(b"\n");
    put_reliance(out, pass.reliance);
    put_players(out, pass.needs, &pass.players);
    put_taller_line(out, pass.taller);
    put_damage(out, &pass.damage);
    put_pass_hints(
        out,
        &hints_beside(&pass.damage, pass.hints),
        parts.sauce().font(),
    );
    put_widths(out, parts.size(), &pass.widths);
}

fn put_known_line<W: Write>(out: &mut Outbox<'_, W>, known: Option<Known>)
    ensures { Puts W.contents out.old out.new (known_line known) }
{
    if let Some(known) = known {
        put_named_line(out, b"is", known.text().as_bytes());
    }
}

/// What is known, or otherwise the other.
fn first_known(known: Option<Known>, other: Option<Known>) -> Option<Known>
    ensures { result ≡ first_known known other }
{
    match known {
        Some(_) => known,
        None => other,
    }
}

fn torn_text(torn: bool) -> &'static [u8]
    ensures { result.now ≡ torn_text torn }
{
    if torn {
        b", but the rows look broken"
    } else {
        b""
    }
}

fn put_lines_line<W: Write>(out: &mut Outbox<'_, W>, lines: Option<u16>, torn: bool)
    ensures { Puts W.contents out.old out.new (lines_line lines torn) }
{
    let Some(lines) = lines else {
        return;
    };
    out.put(b"lines: ");
    out.put_decimal(lines as u64);
    out.put(torn_text(torn));
    out.put(b"\n");
}

/// Whether what is printed takes exactly the stated lines, so that only the cursor goes below them.
fn comes_out(stated: usize, refusal: &Refusal<'_>) -> bool
    ensures { result ≡ comes_out stated refusal.now }
{
    let Some(lines) = refusal.lines else {
        return false;
    };
    stated <= lines as usize && lines as usize - stated == refusal.hints.empty_rows
}

fn without_over(hints: Hints) -> Hints
    ensures { result ≡ without_over hints }
{
    Hints {
        row_ends: RowEnds {
            over: RowsOver {
                times: None,
                ..hints.row_ends.over
            },
            ..hints.row_ends
        },
        ..hints
    }
}

/// The hints of a refusal that are printed, by the number of stated lines: none on empty rows, unless all of the
/// content is played, and none on rows over the edge if what is printed takes exactly the stated lines.
pub fn told_hints(stated: usize, refusal: &Refusal<'_>) -> Hints
    ensures { result ≡ told_hints stated refusal.now }
{
    if comes_out(stated, refusal) {
        return without_over(refusal.hints);
    }
    match refusal.lines {
        Some(_) => refusal.hints,
        None => Hints {
            empty_rows: 0,
            ..refusal.hints
        },
    }
}

/// Whether the rows of a refusal look broken, or those of a drawing for another width.
fn looks_torn(stated: usize, refusal: &Refusal<'_>) -> bool
    ensures { result ≡ looks_torn stated refusal.now }
{
    told_hints(stated, refusal).are_torn() || refusal.widths.are_some()
}

fn put_refused<W: Write>(out: &mut Outbox<'_, W>, parts: &Parts<'_>, refusal: &Refusal<'_>)
    ensures { Puts W.contents out.old out.new (refusal_lines parts.now refusal.now) }
{
    put_fault_lines(out, &refusal.fault, refusal.bytes);
    put_known_line(out, first_known(refusal.known, known_file(parts.content())));
    put_place_line(out, b"cursor", refusal.cursor);
    put_damage(out, &refusal.damage);
    let size = parts.size();
    put_hints(
        out,
        &hints_beside(&refusal.damage, told_hints(size.lines(), refusal)),
        parts.sauce().font(),
    );
    put_widths(out, size, &refusal.widths);
    put_lines_line(out, refusal.lines, looks_torn(size.lines(), refusal));
}

fn put_count<W: Write>(out: &mut Outbox<'_, W>, count: u64, thing: &[u8], what: &[u8])
    ensures { Puts W.contents out.old out.new
        (named_line (codes "found") (counted_text count thing.now ++ what.now)) }
{
    out.put(b"found: ");
    put_counted(out, count, thing);
    out.put(what);
    out.put(b"\n");
}

fn put_record_found<W: Write>(out: &mut Outbox<'_, W>, offset: usize, after: usize)
    ensures { Puts W.contents out.old out.new (found_line (found.Record offset after)) }
{
    out.put(b"found: a record at ");
    out.put_decimal(offset as u64);
    out.put(b", and ");
    put_counted(out, after as u64, b"byte");
    out.put(b" after it\n");
}

fn put_remains_found<W: Write>(out: &mut Outbox<'_, W>, offset: usize, bytes: usize)
    ensures { Puts W.contents out.old out.new (found_line (found.Remains offset bytes)) }
{
    out.put(b"found: what is left of a record, at ");
    out.put_decimal(offset as u64);
    out.put(b", ");
    put_counted(out, bytes as u64, b"byte");
    out.put(b"\n");
}

fn returns_text(returns: usize) -> &'static [u8]
    ensures { result.now ≡ returns_text returns }
{
    if returns == 1 {
        b" of them a return that a transfer as text may have put in"
    } else {
        b" of them returns that a transfer as text may have put in"
    }
}

fn put_grown_found<W: Write>(out: &mut Outbox<'_, W>, offset: usize, bytes: usize, returns: usize)
    ensures { Puts W.contents out.old out.new (found_line (found.Grown offset bytes returns)) }
{
    put_numbers(out, b"found: a record at ", offset, b", ", bytes);
    out.put(b" bytes, ");
    out.put_decimal(returns as u64);
    out.put(returns_text(returns));
    out.put(b"\n");
}

fn put_kind_found<W: Write>(out: &mut Outbox<'_, W>, data_type: u8, file_type: u8)
    ensures { Puts W.contents out.old out.new (found_line (found.Kind data_type file_type)) }
{
    let data_type = usize::from(data_type);
    let file_type = usize::from(file_type);
    put_numbers(
        out,
        b"found: data type ",
        data_type,
        b", file type ",
        file_type,
    );
    out.put(b"\n");
}

fn put_version_found<W: Write>(out: &mut Outbox<'_, W>, version: &[u8])
    ensures { Puts W.contents out.old out.new
        (named_line (codes "found") (codes "version " ++ shown_bytes version.now)) }
{
    out.put(b"found: version ");
    put_characters(out, version);
    out.put(b"\n");
}

fn after_end_mark(older: bool) -> &'static [u8]
    ensures { result.now ≡ after_end_mark_text older }
{
    if older {
        b" after the end mark, with an older record"
    } else {
        b" after the end mark, without a record"
    }
}

fn put_found<W: Write>(out: &mut Outbox<'_, W>, found: &Found<'_>)
    ensures { Puts W.contents out.old out.new (found_line found.now) }
{
    match *found {
        Found::NoRecord => {}
        Found::Remains { offset, bytes } => put_remains_found(out, offset, bytes),
        Found::Grown {
            offset,
            bytes,
            returns,
        } => put_grown_found(out, offset, bytes, returns),
        Found::Record { offset, behind } => put_record_found(out, offset, behind),
        Found::Version(version) => put_version_found(out, version),
        Found::Kind {
            data_type,
            file_type,
        } => put_kind_found(out, data_type, file_type),
        Found::Comments(count) => put_count(out, u64::from(count), b"comment", b" stated"),
        Found::Lines(lines) => put_count(out, u64::from(lines), b"line", b" stated"),
        Found::Width(width) => put_count(out, u64::from(width), b"column", b" stated"),
        Found::AfterEndMark { bytes, record } => {
            put_count(out, bytes.len() as u64, b"byte", after_end_mark(record));
        }
    }
}

/// What the bytes that are found are known as, if a record or a layout is refused. Only bytes after the end mark
/// are known as something.
pub fn known_found(found: &Found<'_>) -> Option<Known>
    ensures { result ≡ known_found found.now }
{
    match *found {
        Found::AfterEndMark { bytes, record } => known_behind_end_mark(bytes, record),
        _ => None,
    }
}

fn put_enough<W: Write>(out: &mut Outbox<'_, W>, damage: &TextDamage, enough: Option<Enough<'_>>)
    ensures { Puts W.contents out.old out.new (enough_lines damage.now enough.entry) }
{
    let Some(enough) = enough else {
        return;
    };
    put_hints(out, &hints_beside(damage, enough.hints), enough.font);
    put_lines_line(out, Some(enough.lines), enough.hints.are_torn());
}

/// Characters of UTF-8 in three bytes, unless the hints report them.
fn wide_told(said: &RecordRefusal<'_>) -> Option<Times>
    ensures { result ≡ wide_told said.now }
{
    match said.enough {
        Some(_) => None,
        None => said.damage.wide_characters,
    }
}

/// Puts what seems to have happened to the file on its way as a text.
fn put_file_damage<W: Write>(out: &mut Outbox<'_, W>, said: &RecordRefusal<'_>)
    ensures { Puts W.contents out.old out.new (file_lines said.now) }
{
    put_damage(out, &said.damage);
    put_counted_line(out, &WIDE_CHARACTERS, wide_told(said));
}

fn put_record_refusal<W: Write>(out: &mut Outbox<'_, W>, said: &RecordRefusal<'_>)
    ensures { Puts W.contents out.old out.new (why_text (NoContent said.now)) }
{
    put_fault_lines(out, &said.fault, b"");
    put_found(out, &said.found);
    put_known_line(out, first_known(said.other, known_found(&said.found)));
    put_file_damage(out, said);
    put_enough(out, &said.damage, said.enough);
}

/// Puts the size and what is odd about the record.
fn put_heading<W: Write>(out: &mut Outbox<'_, W>, parts: &Parts<'_>)
    ensures { Puts W.contents out.old out.new (heading_lines parts.now) }
{
    put_size_line(out, parts);
    put_notes(out, parts.notes().as_slice());
}

/// Puts what `why` says of a file: lines of a key, a colon and a value. The size, the notes and the verdict come
/// first.
///
/// If the file passes: which other kind of file it is known as, what it needs, where and why, on which players it
/// shows its picture, whether it plays the same on taller screens, what happened to it as a text, and the hints.
///
/// If its content is refused: the fault with the offending bytes, what they or the file are known as, where the
/// cursor is before them, what happened to it as a text, the hints, and the number of lines that is enough.
///
/// If its record or its layout is refused, there are no size and no notes. The fault comes, what is found there,
/// what the file or that is known as, and what happened to it as a text; and if nothing but the number of lines is
/// missing, the hints on as many as are enough, and that number.
pub fn put_why<W: Write>(out: &mut Outbox<'_, W>, why: &Why<'_>)
    ensures { Puts W.contents out.old out.new (why_text why.now) }
{
    match why {
        Judged::NoContent(said) => put_record_refusal(out, said),
        Judged::Refused(parts, refusal) => {
            put_heading(out, parts);
            put_refused(out, parts, refusal);
        }
        Judged::Passes(parts, pass) => {
            put_heading(out, parts);
            put_pass(out, parts, pass);
        }
    }
}
