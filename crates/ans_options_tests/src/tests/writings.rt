//! Where files go that are mended or redrawn, and the words that do not say so.
use super::faults::{Row, expect_kinds};
use super::{asked_by, expect_names, expect_plain_options};
use ans_options::{Asked, Command, MendChoice, Mends, Mistake, Target, Writing};
use clap::error::ErrorKind::{ArgumentConflict, InvalidValue, TooManyValues, UnknownArgument};
use std::alloc::AllocError;
use std::process::Abort;

/// A target, with a name that is not owned.
#[derive(Clone, Copy)]
enum Goes {
    ToOutput,
    InPlace,
    To(&'static str),
}

/// Words that ask for files mended or redrawn, where they go, whether nothing is written, and the files.
static WRITINGS: [(&[&str], Goes, bool, &[&str]); 36] = words! {
    "mend" => Goes::ToOutput, false, &[];
    "mend" "f" => Goes::ToOutput, false, &["f"];
    "mend" "-" => Goes::ToOutput, false, &["-"];
    "mend" "-n" => Goes::ToOutput, true, &[];
    "mend" "f" "--dry-run" => Goes::ToOutput, true, &["f"];
    "mend" "f" "-n" "g" => Goes::ToOutput, true, &["f", "g"];
    "mend" "-i" "f" => Goes::InPlace, false, &["f"];
    "mend" "f" "--in-place" => Goes::InPlace, false, &["f"];
    "mend" "-i" "f" "g" "f" => Goes::InPlace, false, &["f", "g", "f"];
    "mend" "-in" "f" => Goes::InPlace, true, &["f"];
    "mend" "-n" "f" "-i" "g" => Goes::InPlace, true, &["f", "g"];
    "mend" "-o" "x" "f" => Goes::To("x"), false, &["f"];
    "mend" "f" "-o" "x" => Goes::To("x"), false, &["f"];
    "mend" "f" "-ox" => Goes::To("x"), false, &["f"];
    "mend" "f" "-o=x" => Goes::To("x"), false, &["f"];
    "mend" "f" "--output" "x" => Goes::To("x"), false, &["f"];
    "mend" "--output=x" "f" => Goes::To("x"), false, &["f"];
    "mend" "--output==x" "f" => Goes::To("=x"), false, &["f"];
    "mend" "-o" "x" => Goes::To("x"), false, &[];
    "mend" "-o" "x" "-" => Goes::To("x"), false, &["-"];
    "mend" "-no" "x" "f" => Goes::To("x"), true, &["f"];
    "mend" "-o" "x/" "f" => Goes::To("x/"), false, &["f"];
    "mend" "f" "-o" "/" "g" => Goes::To("/"), false, &["f", "g"];
    "mend" "f" "g" "-n" "-o" "x/y/" => Goes::To("x/y/"), true, &["f", "g"];
    "mend" "-o" "-" "f" => Goes::ToOutput, false, &["f"];
    "mend" "-o-" => Goes::ToOutput, false, &[];
    "mend" "-o" "./-" "f" => Goes::To("./-"), false, &["f"];
    "mend" "-o-/" "f" => Goes::To("-/"), false, &["f"];
    "mend" "--" "-i" => Goes::ToOutput, false, &["-i"];
    "mend" "-i" "--" "-n" "-o" => Goes::InPlace, false, &["-n", "-o"];
    "redraw" => Goes::ToOutput, false, &[];
    "redraw" "-n" "f" "g" => Goes::ToOutput, true, &["f", "g"];
    "redraw" "--in-place" "f" "g" => Goes::InPlace, false, &["f", "g"];
    "redraw" "-o" "x" "f" => Goes::To("x"), false, &["f"];
    "redraw" "f" "g" "--output=x/" => Goes::To("x/"), false, &["f", "g"];
    "redraw" "f" "--dry-run" "-o" "x" => Goes::To("x"), true, &["f"];
};

/// Words that contradict themselves, and the mistake.
static MISTAKES: [(&[&str], Mistake); 39] = words! {
    "mend" "--suggested" "--take-out" => Mistake::SuggestedWithChanges;
    "mend" "--least-lines" "f" "--suggested" => Mistake::SuggestedWithChanges;
    "mend" "--suggested" "--lines" "25" => Mistake::SuggestedWithChanges;
    "mend" "--columns=80" "--suggested" => Mistake::SuggestedWithChanges;
    "mend" "--suggested" "--add-record" "80" "f" => Mistake::SuggestedWithChanges;
    "mend" "--crlf" "--suggested" "--mixed" => Mistake::SuggestedWithChanges;
    "mend" "--suggested" "--ice" "-i" "-o" "" => Mistake::SuggestedWithChanges;
    "mend" "-o" "x" "-i" "f" => Mistake::OutputWithInPlace;
    "mend" "-o" "x/" "-i" "f" "g" => Mistake::OutputWithInPlace;
    "mend" "-n" "f" "--in-place" "--output" "x" => Mistake::OutputWithInPlace;
    "mend" "-i" "-o" "-" => Mistake::OutputWithInPlace;
    "mend" "-i" "-o" "" "f" => Mistake::OutputWithInPlace;
    "redraw" "-o" "x" "-i" "f" => Mistake::OutputWithInPlace;
    "mend" "-o" "" "f" => Mistake::EmptyOutput;
    "mend" "--output=" => Mistake::EmptyOutput;
    "redraw" "f" "g" "-o" "" => Mistake::EmptyOutput;
    "mend" "-i" => Mistake::InPlaceOfInput;
    "mend" "-in" => Mistake::InPlaceOfInput;
    "mend" "-i" "-" => Mistake::InPlaceOfInput;
    "mend" "-i" "f" "-" => Mistake::InPlaceOfInput;
    "mend" "-i" "--suggested" => Mistake::InPlaceOfInput;
    "redraw" "--in-place" => Mistake::InPlaceOfInput;
    "mend" "f" "-" => Mistake::InputAmong;
    "mend" "-" "-" => Mistake::InputAmong;
    "mend" "-n" "-" "f" => Mistake::InputAmong;
    "redraw" "-o" "x/" "f" "-" "g" => Mistake::InputAmong;
    "mend" "-o" "x/" => Mistake::FolderOfInput;
    "mend" "-o" "x/" "-" => Mistake::FolderOfInput;
    "mend" "-n" "-o" "/" => Mistake::FolderOfInput;
    "redraw" "--output=x/" => Mistake::FolderOfInput;
    "mend" "-o" "x" "f" "g" => Mistake::SeveralToOne;
    "mend" "-n" "-o" "x/y" "f" "f" => Mistake::SeveralToOne;
    "mend" "-o" "-" "f" "g" => Mistake::SeveralToOne;
    "redraw" "f" "g" "-o" "x" => Mistake::SeveralToOne;
    "mend" "f" "g" => Mistake::SeveralToOutput;
    "mend" "f" "f" => Mistake::SeveralToOutput;
    "mend" "--add-record" "80" "f" "g" => Mistake::SeveralToOutput;
    "mend" "--suggested" "f" "g" "h" => Mistake::SeveralToOutput;
    "redraw" "f" "g" => Mistake::SeveralToOutput;
};

/// Words that are wrong, and the kind of the mistake.
static FAULTS: [Row; 19] = words! {
    "mend" "-o" => InvalidValue;
    "mend" "f" "--output" => InvalidValue;
    "mend" "-o" "-i" "f" => InvalidValue;
    "mend" "-o" "--" "f" => InvalidValue;
    "mend" "-o" "a" "-o" "b" => ArgumentConflict;
    "mend" "-o" "a" "--output" "a" => ArgumentConflict;
    "mend" "-i" "-i" "f" => ArgumentConflict;
    "mend" "-ii" "f" => ArgumentConflict;
    "mend" "-n" "--dry-run" => ArgumentConflict;
    "mend" "--in-place=f" => TooManyValues;
    "mend" "--dry-run=yes" => TooManyValues;
    "redraw" "-o" => InvalidValue;
    "redraw" "-x" => UnknownArgument;
    "mend" "-ix" "f" => UnknownArgument;
    "check" "-o" "x" => UnknownArgument;
    "why" "-i" "f" => UnknownArgument;
    "show" "-n" => UnknownArgument;
    "table" "--output=x" => UnknownArgument;
    "needs" "--dry-run" => UnknownArgument;
};

/// How files are written by words, and their names. It fails where memory runs out.
fn writing_of(
    rt: &(impl Abort + AllocGlobal),
    words: &[&str],
) -> Result<(Writing, Vec<String>), AllocError> {
    match asked_by(rt, words)? {
        Ok(Asked::Mend(MendChoice::Flags(Mends::NONE), writing, names)) => Ok((writing, names)),
        Ok(Asked::Redraw(writing, names)) => Ok((writing, names)),
        _ => panic!(rt; "no files are written"),
    }
}

#[test]
fn words_say_where_files_go(rt: HostRuntime) -> Result<(), AllocError> {
    for (words, goes, is_dry, files) in &WRITINGS {
        let (writing, names) = writing_of(&rt, words)?;
        match (&writing.target, goes) {
            (Target::Output, Goes::ToOutput) | (Target::InPlace, Goes::InPlace) => {}
            (Target::Path(path), Goes::To(name)) => assert_eq!(rt; path.as_str(), *name),
            _ => panic!(rt; "another target"),
        }
        assert_eq!(rt; writing.is_dry, *is_dry);
        expect_names(&rt, names.as_slice(), files);
    }
    Ok(())
}

/// The mistake of words, with its command. It fails where memory runs out.
fn mistake_of(
    rt: &(impl Abort + AllocGlobal),
    words: &[&str],
) -> Result<(Command, Mistake), AllocError> {
    match asked_by(rt, words)? {
        Ok(Asked::Mistaken(command, mistake)) => Ok((command, mistake)),
        _ => panic!(rt; "no mistake"),
    }
}

#[test]
fn the_first_mistake_is_reported(rt: HostRuntime) -> Result<(), AllocError> {
    for (words, expected) in &MISTAKES {
        let (command, mistake) = mistake_of(&rt, words)?;
        assert_eq!(rt; mistake, *expected);
        assert!(rt; Some(&command.name()) == words.get(1));
        expect_plain_options(&rt, words, command)?;
    }
    Ok(())
}

#[test]
fn a_mistake_has_the_choice_of_its_command(rt: HostRuntime) -> Result<(), AllocError> {
    let (command, _) = mistake_of(&rt, &["anscheck", "mend", "--ice", "f", "g"])?;
    let mends = Mends {
        ice: true,
        ..Mends::NONE
    };
    assert_eq!(rt; command, Command::Mend(MendChoice::Flags(mends)));
    let (command, _) = mistake_of(&rt, &["anscheck", "mend", "--ice", "--suggested"])?;
    assert_eq!(rt; command, Command::Mend(MendChoice::Suggested));
    let (command, _) = mistake_of(&rt, &["anscheck", "redraw", "-i"])?;
    assert_eq!(rt; command, Command::Redraw);
    Ok(())
}

#[test]
fn each_mistake_has_a_line(rt: HostRuntime) {
    for mistake in &Mistake::EACH {
        let text = mistake.text();
        assert!(rt; !text.is_empty() && text.len() <= 69 && !text.contains("\n"));
    }
}

#[test]
fn wrong_words_of_writing_have_their_kind(rt: HostRuntime) -> Result<(), AllocError> {
    expect_kinds(&rt, &FAULTS)
}
