//! The row of a file as a JSON object.

ghost use Rattle.std.specs.Prelude.{◌≡◌, [], ◌∷◌, Some, IfOk, map, option_map, string_bytes};
ghost use Rattle.std.specs.Option.{option_copied};
ghost use Rattle.serde_json.specs.Data.{string};
ghost use Rattle.serde_json.specs.Read.{read};
ghost use Rattle.serde_json.specs.View.{view};
ghost use Rattle.ans_model.specs.Text.Characters.{shown_bytes};
ghost use Rattle.ans_sauce.specs.RecordBytes.{sauce_bytes};
ghost use Rattle.ans_table.specs.JsonRow.{Adds, aspect_values, comment_texts, content_values, count};
ghost use Rattle.ans_table.specs.JsonRow.{fault_values, field_values, flag_values, found_values, further_values};
ghost use Rattle.ans_table.specs.JsonRow.{json_text, shown_values};
ghost use Rattle.ans_table.specs.JsonRow.{parts_values, pass_values, players_values};
ghost use Rattle.ans_table.specs.JsonRow.{record_values, row_data, size_values, spacing_values, taller_values};
ghost use Rattle.ans_table.specs.JsonRow.{text_list, verdict_values};
ghost use Rattle.ans_table.specs.NameText.{name_text};
ghost use Rattle.ans_table.specs.Labels.{fault_label, note_label};
ghost use Rattle.ans_model.specs.Text.Words.{texts_of, part_names};

use crate::counts::Outcome;
use crate::finding::{Finding, PassFinding, RowFinding, parts_of, sauce_of};
use crate::labels::{taller_word, verdict_word};
use crate::name_text::put_name;
use ans_kinds::Players;
use ans_model::fault::{Cause, Fault};
use ans_model::note::Note;
use ans_model::start::Start;
use ans_players::difference::Difference;
use ans_sauce::{Judged, Parts, Record};
use ans_write::{Outbox, Tried, glyph_text};
use serde_json::{Map, Value, push, put};
use std::alloc::{AllocError, Global};

/// The members of an object.
type Members = Map<String, Value>;

/// What adding to an object gives: `Err` if memory is refused.
type Added = Result<(), AllocError>;

/// The characters of bytes.
fn shown_value(alloc: Global, bytes: &[u8]) -> Result<Value, AllocError>
    ensures { IfOk result (λ v. view v ≡ string (shown_bytes bytes.now)) }
{
    let mut text = String::new(alloc);
    for byte in bytes {
        text.push(glyph_text(*byte))?;
    }
    Ok(Value::String(text))
}

fn name_value(alloc: Global, name: &[u8]) -> Result<Value, AllocError>
    ensures { IfOk result (λ v. view v ≡ string (name_text name.now)) }
{
    let mut device = Tried::new(Vec::new(alloc));
    let mut out = Outbox::new(&mut device);
    put_name(&mut out, name);
    if out.finish().is_err() {
        return Err(AllocError);
    }
    let shown = device.into_inner();
    match str::from_utf8(shown.as_slice()) {
        Ok(text) => Value::try_from_str(alloc, text),
        Err(_) => unreachable!(),
    }
}

fn words_value(alloc: Global, words: &[&str]) -> Result<Value, AllocError>
    ensures { IfOk result (λ v. view v ≡ text_list (texts_of words.now)) }
{
    let mut list = Vec::new(alloc);
    for word in words {
        push(&mut list, Value::try_from_str(alloc, word)?)?;
    }
    Ok(Value::Array(list))
}

/// The names of the parts that a class knows.
fn known_value(alloc: Global, class: Start) -> Result<Value, AllocError>
    ensures { IfOk result (λ v. view v ≡ text_list (part_names class)) }
{
    words_value(alloc, class.part_names().as_slice())
}

fn fault_value(alloc: Global, cause: Cause) -> Result<Value, AllocError>
    ensures { IfOk result (λ v. view v ≡ string (fault_label cause)) }
{
    Ok(Value::String(format!(in alloc; "F{}", cause.number())?))
}

fn note_value(alloc: Global, note: Note) -> Result<Value, AllocError>
    ensures { IfOk result (λ v. view v ≡ string (note_label note)) }
{
    Ok(Value::String(format!(in alloc; "N{}", note.number())?))
}

/// The labels of notes.
fn notes_value(alloc: Global, notes: &[Note]) -> Result<Value, AllocError>
    ensures { IfOk result (λ v. view v ≡ text_list (map note_label notes.now)) }
{
    let mut list = Vec::new(alloc);
    for note in notes {
        push(&mut list, note_value(alloc, *note)?)?;
    }
    Ok(Value::Array(list))
}

/// The lines of the comment block.
fn comments_value(alloc: Global, parts: &Parts<'_>) -> Result<Value, AllocError>
    ensures { IfOk result (λ v. view v ≡ text_list (comment_texts parts.now)) }
{
    let mut list = Vec::new(alloc);
    for i in 0..parts.sauce().comment_count() as usize {
        push(&mut list, shown_value(alloc, parts.comment(i).unwrap())?)?;
    }
    Ok(Value::Array(list))
}

fn put_text(members: &mut Members, alloc: Global, name: &str, text: &str) -> Added
    ensures { Adds members.old.entries members.new.entries result
        ((name.now, string text.now) ∷ []) }
{
    put(members, alloc, name, Value::try_from_str(alloc, text)?)
}

fn put_number(members: &mut Members, alloc: Global, name: &str, number: usize) -> Added
    ensures { Adds members.old.entries members.new.entries result ((name.now, count number) ∷ []) }
{
    put(members, alloc, name, Value::from(number))
}

fn put_fault(members: &mut Members, alloc: Global, fault: &Fault) -> Added
    ensures { Adds members.old.entries members.new.entries result (fault_values fault.now) }
{
    put_text(members, alloc, "verdict", "refused")?;
    put(members, alloc, "fault", fault_value(alloc, fault.cause)?)?;
    put_number(members, alloc, "at", fault.offset)
}

fn put_players(members: &mut Members, alloc: Global, players: &Players) -> Added
    ensures { Adds members.old.entries members.new.entries result (players_values players.now) }
{
    match players {
        Players::Any(class) => {
            put(members, alloc, "players", words_value(alloc, &[])?)?;
            put(
                members,
                alloc,
                "needs_on_all_players",
                known_value(alloc, *class)?,
            )
        }
        Players::InNamedColours(class, _) => {
            let kind = words_value(alloc, &[Difference::OwnColours.word()])?;
            put(members, alloc, "players", kind)?;
            put(
                members,
                alloc,
                "needs_on_all_players",
                known_value(alloc, *class)?,
            )
        }
        Players::Agreeing(used) => {
            let kinds = words_value(alloc, used.words().as_slice())?;
            put(members, alloc, "players", kinds)
        }
    }
}

fn put_taller(members: &mut Members, alloc: Global, same: bool) -> Added
    ensures { Adds members.old.entries members.new.entries result (taller_values same) }
{
    if same {
        return put_text(members, alloc, "taller_screens", taller_word(true));
    }
    Ok(())
}

fn put_pass(members: &mut Members, alloc: Global, said: &PassFinding) -> Added
    ensures { Adds members.old.entries members.new.entries result (pass_values said.now) }
{
    let verdict = verdict_word(Outcome::of_pass(&said.needs));
    put_text(members, alloc, "verdict", verdict)?;
    put(members, alloc, "needs", known_value(alloc, said.needs)?)?;
    put_players(members, alloc, &said.players)?;
    put_taller(members, alloc, said.taller)
}

fn put_found(members: &mut Members, alloc: Global, finding: &Finding<'_>) -> Added
    ensures { Adds members.old.entries members.new.entries result (found_values finding.now) }
{
    match finding {
        Judged::NoContent(said) => put_fault(members, alloc, &said.fault),
        Judged::Refused(_, said) => {
            put_fault(members, alloc, &said.fault)?;
            put_number(members, alloc, "row", said.row)?;
            put_number(members, alloc, "column", said.column)
        }
        Judged::Passes(_, said) => put_pass(members, alloc, said),
    }
}

/// The members from the verdict to the place of the fault.
fn put_verdict(members: &mut Members, alloc: Global, finding: &RowFinding<'_>) -> Added
    ensures { Adds members.old.entries members.new.entries result (verdict_values finding.now) }
{
    match finding {
        Ok(finding) => put_found(members, alloc, finding),
        Err(why) => {
            put_text(members, alloc, "verdict", "error")?;
            put_text(members, alloc, "fault", why.text())
        }
    }
}

fn put_parts(members: &mut Members, alloc: Global, parts: &Parts<'_>) -> Added
    ensures { Adds members.old.entries members.new.entries result (parts_values parts.now) }
{
    let notes = notes_value(alloc, parts.notes().as_slice())?;
    put_number(members, alloc, "content", parts.content().len())?;
    put(members, alloc, "notes", notes)?;
    put(members, alloc, "comments", comments_value(alloc, parts)?)
}

/// The members of the content's length, the notes and the comments.
fn put_content(members: &mut Members, alloc: Global, parts: Option<&Parts<'_>>) -> Added
    ensures { Adds members.old.entries members.new.entries result (content_values (option_copied parts.entry)) }
{
    match parts {
        Some(parts) => put_parts(members, alloc, parts),
        None => Ok(()),
    }
}

fn put_spacing(members: &mut Members, alloc: Global, sauce: &Record<'_>) -> Added
    ensures { Adds members.old.entries members.new.entries result (spacing_values (sauce_bytes sauce.now)) }
{
    match sauce.letter_spacing() {
        1 => put(members, alloc, "spacing", Value::from(8u64)),
        2 => put(members, alloc, "spacing", Value::from(9u64)),
        _ => Ok(()),
    }
}

fn put_aspect(members: &mut Members, alloc: Global, sauce: &Record<'_>) -> Added
    ensures { Adds members.old.entries members.new.entries result (aspect_values (sauce_bytes sauce.now)) }
{
    match sauce.aspect_ratio() {
        1 => put_text(members, alloc, "aspect", "stretch"),
        2 => put_text(members, alloc, "aspect", "square"),
        _ => Ok(()),
    }
}

fn put_flags(members: &mut Members, alloc: Global, sauce: &Record<'_>) -> Added
    ensures { Adds members.old.entries members.new.entries result (flag_values (sauce_bytes sauce.now)) }
{
    put(members, alloc, "ice", Value::Bool(sauce.is_non_blink()))?;
    put_spacing(members, alloc, sauce)?;
    put_aspect(members, alloc, sauce)
}

fn put_size(members: &mut Members, alloc: Global, sauce: &Record<'_>) -> Added
    ensures { Adds members.old.entries members.new.entries result (size_values (sauce_bytes sauce.now)) }
{
    put_number(members, alloc, "width", sauce.width())?;
    put_number(members, alloc, "lines", sauce.lines())
}

fn put_fields(members: &mut Members, alloc: Global, sauce: &Record<'_>) -> Added
    ensures { Adds members.old.entries members.new.entries result (field_values (sauce_bytes sauce.now)) }
{
    put(members, alloc, "font", shown_value(alloc, sauce.font())?)?;
    put(members, alloc, "date", shown_value(alloc, sauce.date())?)?;
    put(members, alloc, "title", shown_value(alloc, sauce.title())?)?;
    put(
        members,
        alloc,
        "author",
        shown_value(alloc, sauce.author())?,
    )?;
    put(members, alloc, "group", shown_value(alloc, sauce.group())?)
}

/// The members of the record, if there is one.
fn put_record(members: &mut Members, alloc: Global, sauce: Option<Record<'_>>) -> Added
    ensures { Adds members.old.entries members.new.entries result (record_values (option_map sauce_bytes sauce.entry)) }
{
    match sauce {
        Some(sauce) => {
            put_size(members, alloc, &sauce)?;
            put_flags(members, alloc, &sauce)?;
            put_fields(members, alloc, &sauce)
        }
        None => Ok(()),
    }
}

/// A member of this name, if there is a text for it.
fn put_shown(members: &mut Members, alloc: Global, name: &str, text: Option<&[u8]>) -> Added
    ensures { Adds members.old.entries members.new.entries result
        (shown_values name.now (option_map (λ t. t.now) text.entry)) }
{
    match text {
        Some(text) => put(members, alloc, name, shown_value(alloc, text)?),
        None => Ok(()),
    }
}

/// The members of the flags that mend the file, and of the checksum of its picture.
fn put_further(
    members: &mut Members,
    alloc: Global,
    fix: Option<&[u8]>,
    picture: Option<&[u8]>,
) -> Added
    ensures { Adds members.old.entries members.new.entries result
        (further_values (option_map (λ t. t.now) fix.entry) (option_map (λ t. t.now) picture.entry)) }
{
    put_shown(members, alloc, "fix", fix)?;
    put_shown(members, alloc, "picture", picture)
}

fn row_value(
    alloc: Global,
    name: &[u8],
    finding: &RowFinding<'_>,
    fix: Option<&[u8]>,
    picture: Option<&[u8]>,
) -> Result<Value, AllocError>
    ensures { IfOk result (λ v. view v ≡ row_data name.now finding.now (option_map (λ t. t.now) fix.entry)
        (option_map (λ t. t.now) picture.entry)) }
{
    let mut members = Map::new(alloc);
    put_verdict(&mut members, alloc, finding)?;
    put_content(&mut members, alloc, parts_of(finding))?;
    put_record(&mut members, alloc, sauce_of(finding))?;
    put_further(&mut members, alloc, fix, picture)?;
    put(&mut members, alloc, "file", name_value(alloc, name)?)?;
    Ok(Value::Object(members))
}

/// The row of a file of this name as a JSON object, in one line without its line feed: what is absent
/// is left out, and the names are in the order of their bytes. `fix` is the flags that mend the file, and
/// `picture` the checksum of the picture that it shows; both are ASCII.
///
/// `Err` comes if memory for it is refused.
pub fn json_row(
    alloc: Global,
    name: &[u8],
    finding: &RowFinding<'_>,
    fix: Option<&[u8]>,
    picture: Option<&[u8]>,
) -> Result<String, AllocError>
    ensures text { IfOk result (λ s. string_bytes s ≡ json_text name.now finding.now
        (option_map (λ t. t.now) fix.entry) (option_map (λ t. t.now) picture.entry)) }
    ensures reads_back { IfOk result (λ s. read (string_bytes s) ≡ Some (row_data name.now finding.now
        (option_map (λ t. t.now) fix.entry) (option_map (λ t. t.now) picture.entry))) }
{
    row_value(alloc, name, finding, fix, picture)?.to_string(alloc)
}
