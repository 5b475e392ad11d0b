//! The faults, the notes and the words that words ask help for.
use super::asked_by;
use ans_model::fault::Cause;
use ans_model::note::Note;
use ans_options::{Asked, Topic, explains};
use std::alloc::AllocError;
use std::process::Abort;

/// Words that ask for no topic, whatever `clap` makes of them.
static OTHERS: [&[&str]; 31] = [
    &[],
    &["anscheck"],
    &["anscheck", "F20"],
    &["anscheck", "help"],
    &["help", "F20"],
    &["anscheck", "help", ""],
    &["anscheck", "help", "F"],
    &["anscheck", "help", "20"],
    &["anscheck", "help", "F0"],
    &["anscheck", "help", "F18"],
    &["anscheck", "help", "F26"],
    &["anscheck", "help", "F020"],
    &["anscheck", "help", "F+20"],
    &["anscheck", "help", " F20"],
    &["anscheck", "help", "F20 "],
    &["anscheck", "help", "N0"],
    &["anscheck", "help", "N7"],
    &["anscheck", "help", "M1"],
    &["anscheck", "help", "check"],
    &["anscheck", "help", "F20", "F21"],
    &["anscheck", "help", "--", "F20"],
    &["anscheck", "Help", "F20"],
    &["anscheck", "--help", "F20"],
    &["anscheck", "why", "F20"],
    &["anscheck", "help", "mend"],
    &["anscheck", "help", "redraw"],
    &["anscheck", "help", "wrap_at_once"],
    &["anscheck", "help", "--crlf"],
    &["anscheck", "help", "wrap at once"],
    &["anscheck", "help", "wrap", "screen"],
    &["anscheck", "wrap"],
];

/// The topic that words ask for, if any. It fails where memory runs out.
fn topic_asked(rt: &impl AllocGlobal, words: &[&str]) -> Result<Option<Topic>, AllocError> {
    match asked_by(rt, words)? {
        Ok(Asked::Meaning(topic)) => Ok(Some(topic)),
        _ => Ok(None),
    }
}

/// Asserts that each of two names asks for a topic.
fn expect_topic(
    rt: &(impl Abort + AllocGlobal),
    names: [&str; 2],
    topic: Topic,
) -> Result<(), AllocError> {
    for name in names {
        let found = topic_asked(rt, &["anscheck", "help", name])?;
        assert_eq!(rt; found, Some(topic));
    }
    Ok(())
}

#[test]
fn each_fault_and_each_note_has_its_name(rt: HostRuntime) -> Result<(), AllocError> {
    for cause in Cause::EACH {
        let large = format!(in rt.alloc(); "F{}", cause.number())?;
        let small = format!(in rt.alloc(); "f{}", cause.number())?;
        expect_topic(&rt, [large.as_str(), small.as_str()], Topic::Fault(cause))?;
    }
    for note in Note::EACH {
        let large = format!(in rt.alloc(); "N{}", note.number())?;
        let small = format!(in rt.alloc(); "n{}", note.number())?;
        expect_topic(&rt, [large.as_str(), small.as_str()], Topic::Note(note))?;
    }
    Ok(())
}

/// Words that the program prints or takes, each in two spellings.
static WORDS: [[&str; 2]; 39] = [
    ["verdict", "Verdict"],
    ["pass", "PASS"],
    ["cleared", "CLEARED"],
    ["refused", "rEfUsEd"],
    ["error", "ERROR"],
    ["start", "Start"],
    ["screen", "SCREEN"],
    ["cursor", "Cursor"],
    ["saved", "SAVED"],
    ["colours", "COLOURS"],
    ["wrap", "WRAP"],
    ["because", "Because"],
    ["players", "PLAYERS"],
    ["taller", "Taller"],
    ["fix", "FIX"],
    ["faults", "FAULTS"],
    ["hints", "HINTS"],
    ["is", "IS"],
    ["lines", "LINES"],
    ["take-out", "TAKE-OUT"],
    ["crlf", "CRLF"],
    ["join-rows", "Join-Rows"],
    ["mixed", "MIXED"],
    ["ice", "Ice"],
    ["record", "RECORD"],
    ["everywhere", "EveryWhere"],
    ["more", "MORE"],
    ["add-record", "ADD-RECORD"],
    ["wrap-at-once", "WRAP-AT-ONCE"],
    ["line-ends", "LINE-ENDS"],
    ["home-on-clear", "HOME-on-CLEAR"],
    ["save-place-only", "Save-place-only"],
    ["dos-colours", "DOS-colours"],
    ["tab-prints", "TAB-PRINTS"],
    ["page-controls", "page-CONTROLS"],
    ["own-colours", "Own-Colours"],
    ["columns", "COLUMNS"],
    ["needs_on_all_players", "NEEDS_ON_ALL_PLAYERS"],
    ["taller_screens", "TALLER_SCREENS"],
];

/// Asserts that help on a name explains this word.
fn expect_word(rt: &(impl Abort + AllocGlobal), name: &str, word: &str) -> Result<(), AllocError> {
    let Some(Topic::Word(found)) = topic_asked(rt, &["anscheck", "help", name])? else {
        panic!(rt; "no word")
    };
    match found.text().strip_prefix(word) {
        Some(rest) => assert!(rt; rest.starts_with(": ")),
        None => panic!(rt; "another word"),
    }
    assert!(rt; explains(name));
    Ok(())
}

#[test]
fn each_word_has_its_name(rt: HostRuntime) -> Result<(), AllocError> {
    for [small, other] in &WORDS {
        expect_word(&rt, small, small)?;
        expect_word(&rt, other, small)?;
    }
    Ok(())
}

/// Names that help explains as faults and notes, and names that it does not explain.
static EXPLAINED: [(&str, bool); 12] = [
    ("F20", true),
    ("f1", true),
    ("N6", true),
    ("wrap-at-once", true),
    ("F18", false),
    ("why", false),
    ("table", false),
    ("chekc", false),
    ("wrap_at_once", false),
    ("--crlf", false),
    ("wrap ", false),
    ("", false),
];

#[test]
fn some_names_are_explained(rt: HostRuntime) {
    for (name, is_explained) in &EXPLAINED {
        assert!(rt; explains(name) == *is_explained);
    }
}

#[test]
fn other_words_ask_for_no_topic(rt: HostRuntime) -> Result<(), AllocError> {
    for words in &OTHERS {
        assert_eq!(rt; topic_asked(&rt, words)?, None);
    }
    Ok(())
}
