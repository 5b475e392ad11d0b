//! The faults, the notes and the words, which help explains by their names.
ghost use Rattle.std.specs.Prelude.{◌≡◌, ◌∷◌, [], decimal, get_or, is_some, map};
ghost use Rattle.std.specs.List.{position};
ghost use Rattle.std.specs.Str.{str_eq_ignore_ascii_case};
ghost use Rattle.ans_model.specs.Text.Words.{texts_of};
ghost use Rattle.ans_options.specs.Topics.{numbered_named, place_in, topic_named, topic_of, word_in, word_named};
ghost use Rattle.ans_options.specs.Topics.{word_text};

use crate::words::{COLUMNS, DIFFERENCES, FIXES, LINES, STARTS, WordRow};
use ans_model::fault::Cause;
use ans_model::note::Note;
use itoa::Buffer;

/// What help explains by its name.
#[derive(Debug, Clone, Copy, PartialEq, Eq)]
pub enum Topic {
    /// A fault, wherever it is: F25 is one topic, that of the cell at row 1 and column 1.
    Fault(Cause),
    /// A note.
    Note(Note),
    /// A word that the program prints.
    Word(HelpWord),
}

/// A table of words.
#[derive(Debug, Clone, Copy, PartialEq, Eq)]
pub enum WordTable {
    /// The verdicts, and the start with its parts.
    Starts,
    /// The lines of `why`.
    Lines,
    /// What `mend` does, and its flags.
    Fixes,
    /// The differences between players.
    Differences,
    /// The columns of `table`.
    Columns,
}

/// A word that help explains, by its table and its place there, from 0.
#[derive(Debug, Clone, Copy, PartialEq, Eq)]
pub struct HelpWord {
    table: WordTable,
    place: usize,
}

impl HelpWord {
    /// What help says of it: lines of at most 79 columns, each ended by a line feed.
    pub fn text(&self) -> &'static str
        ensures { result.now ≡ word_text self.now }
    {
        match self.table {
            WordTable::Starts => text_at(&STARTS, self.place),
            WordTable::Lines => text_at(&LINES, self.place),
            WordTable::Fixes => text_at(&FIXES, self.place),
            WordTable::Differences => text_at(&DIFFERENCES, self.place),
            WordTable::Columns => text_at(&COLUMNS, self.place),
        }
    }
}

/// The text of the word at this place.
fn text_at(rows: &'static [WordRow], place: usize) -> &'static str
    ensures { result.now ≡ get_or (map (λ row. row.1.now) rows.now) place [] }
{
    match rows.get(place) {
        Some(row) => row.1,
        None => "",
    }
}

/// The place of the word of this name, in capitals or not.
fn place_named(rows: &[WordRow], name: &str) -> Option<usize>
    ensures { result ≡ position (λ row. str_eq_ignore_ascii_case name.now row.0.now) rows.now }
{
    rows.iter().position(|row| name.eq_ignore_ascii_case(row.0))
}

/// Whether a name is this letter, a capital or not, and this number.
fn is_named(name: &str, letter: u8, number: u32) -> bool
    ensures { result ≡ str_eq_ignore_ascii_case name.now (letter ∷ decimal number) }
{
    let [first, rest @ ..] = name.as_bytes() else {
        return false;
    };
    let mut digits = Buffer::new();
    first.eq_ignore_ascii_case(&letter)
        && rest.eq_ignore_ascii_case(digits.format(number).as_bytes())
}

/// The fault or the note of this name, in capitals or not.
fn numbered_named(name: &str) -> Option<Topic>
    ensures { result ≡ numbered_named name.now }
{
    for cause in &Cause::EACH {
        if is_named(name, b'F', cause.number()) {
            return Some(Topic::Fault(*cause));
        }
    }
    for note in &Note::EACH {
        if is_named(name, b'N', note.number()) {
            return Some(Topic::Note(*note));
        }
    }
    None
}

/// The place of the word of this name in a table, in capitals or not.
fn place_in(table: WordTable, name: &str) -> Option<usize>
    ensures { result ≡ place_in table name.now }
{
    match table {
        WordTable::Starts => place_named(&STARTS, name),
        WordTable::Lines => place_named(&LINES, name),
        WordTable::Fixes => place_named(&FIXES, name),
        WordTable::Differences => place_named(&DIFFERENCES, name),
        WordTable::Columns => place_named(&COLUMNS, name),
    }
}

/// The word of this name in a table, in capitals or not.
fn word_in(table: WordTable, name: &str) -> Option<Topic>
    ensures { result ≡ word_in table name.now }
{
    let place = place_in(table, name)?;
    Some(Topic::Word(HelpWord { table, place }))
}

/// The word of this name, in capitals or not.
fn word_named(name: &str) -> Option<Topic>
    ensures { result ≡ word_named name.now }
{
    word_in(WordTable::Starts, name)
        .or(word_in(WordTable::Lines, name))
        .or(word_in(WordTable::Fixes, name))
        .or(word_in(WordTable::Differences, name))
        .or(word_in(WordTable::Columns, name))
}

/// The topic of this name, in capitals or not.
fn topic_named(name: &str) -> Option<Topic>
    ensures { result ≡ topic_named name.now }
{
    numbered_named(name).or(word_named(name))
}

/// Whether help explains a word: it names a fault, a note or a word that the program prints, in capitals or not.
pub fn explains(name: &str) -> bool
    ensures { result ≡ is_some (topic_named name.now) }
{
    topic_named(name).is_some()
}

/// The topic that the program's words, its own name first, ask help for: `help` and the topic's name.
pub(crate) fn topic_of(words: &[&str]) -> Option<Topic>
    ensures { result ≡ topic_of (texts_of words.now) }
{
    let [_, word, name] = words else {
        return None;
    };
    if *word == "help" {
        topic_named(name)
    } else {
        None
    }
}
