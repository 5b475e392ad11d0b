//! The parts of a file and its record in numbers.

ghost use Rattle.std.specs.Prelude.{◌≡◌, ◌≤◌, ◌+◌, ℕ, List, drop, length};
ghost use Rattle.ans_model.specs.Bytes.{longest_file};
ghost use Rattle.ans_sauce.specs.RecordBytes.{sauce_bytes};
ghost use Rattle.ans_sauce.specs.Split.{IsSplit};
ghost use Rattle.ans_c.specs.Row.{IsTellingFields, IsTellingParts, TellsFields, aspect_number, has_note, notes_sum};
ghost use Rattle.ans_c.specs.Row.{piece, spacing_number};

use crate::numbers::number_if;
use crate::row_numbers::{Piece, ToldFields, ToldParts};
use ans_model::note::Note;
use ans_sauce::fields::{AUTHOR, DATE, FONT, GROUP, RECORD_SIZE, TITLE};
use ans_sauce::{Parts, Record, cut_record};

/// Whether the note Nn is one of these.
fn has_note(notes: &[Note], n: u32) -> bool
    ensures { result ≡ has_note notes.now n }
{
    notes.iter().any(|note| note.number() == n)
}

/// 2 to the power of n for each note Nn, added up.
fn notes_sum(notes: &[Note]) -> u32
    ensures { result ≡ notes_sum notes.now }
{
    number_if(has_note(notes, 1), 2)
        + number_if(has_note(notes, 2), 4)
        + number_if(has_note(notes, 3), 8)
        + number_if(has_note(notes, 4), 16)
        + number_if(has_note(notes, 5), 32)
        + number_if(has_note(notes, 6), 64)
}

/// The parts of a file.
pub(crate) fn parts_of(file: &[u8], parts: &Parts<'_>) -> ToldParts
    requires { IsSplit file.now parts.now }
    ensures { IsTellingParts file.now parts.now result }
{
    let comments = parts.comments();
    ToldParts {
        content: parts.content().len(),
        comments: Piece {
            start: file.len() - RECORD_SIZE - comments.len(),
            length: comments.len(),
        },
        notes: notes_sum(parts.notes().as_slice()),
    }
}

/// The pixels of a letter's width, by the flags' bits 1 and 2.
fn spacing_number(pair: u8) -> u32
    ensures { result ≡ spacing_number pair }
{
    match pair {
        1 => 8,
        2 => 9,
        _ => 0,
    }
}

/// Which pixels, by the flags' bits 3 and 4.
fn aspect_number(pair: u8) -> u32
    ensures { result ≡ aspect_number pair }
{
    match pair {
        1 => 1,
        2 => 2,
        _ => 0,
    }
}

/// A text of the record, which follows that many bytes: where it is in the file.
fn piece_behind(front: usize, offset: usize, text: &[u8]) -> Piece
    requires front { front ≤ longest_file }
    requires offset { offset ≤ 128 }
    ensures { result ≡ piece (front + offset) (length text.now) }
{
    Piece {
        start: front + offset,
        length: text.len(),
    }
}

/// What a record says that follows that many bytes of its file.
fn fields_behind(front: usize, sauce: &Record<'_>) -> ToldFields
    requires { front ≤ longest_file }
    ensures { (file : List ℕ) → drop front file ≡ sauce_bytes sauce.now
        → IsTellingFields file (sauce_bytes sauce.now) result }
{
    ToldFields {
        is_there: 1,
        flags: u32::from(sauce.flags()),
        ice: number_if(sauce.is_non_blink(), 1),
        spacing: spacing_number(sauce.letter_spacing()),
        aspect: aspect_number(sauce.aspect_ratio()),
        width: sauce.width(),
        lines: sauce.lines(),
        font: piece_behind(front, FONT, sauce.font()),
        date: piece_behind(front, DATE, sauce.date()),
        title: piece_behind(front, TITLE, sauce.title()),
        author: piece_behind(front, AUTHOR, sauce.author()),
        group: piece_behind(front, GROUP, sauce.group()),
    }
}

/// What the record in the file's last 128 bytes says.
pub(crate) fn fields_of(file: &[u8]) -> ToldFields
    requires { length file.now ≤ longest_file }
    ensures { TellsFields file.now result }
{
    match cut_record(file) {
        Some((front, sauce)) => fields_behind(front.len(), &sauce),
        None => ToldFields::default(),
    }
}
