//! The names of the files of `why`, with the command and without it.
use super::faults::Row;
use super::{asked_by, expect_names};
use ans_options::{Asked, near_command};
use clap::error::ErrorKind::{
    self, DisplayHelp, InvalidSubcommand, MissingSubcommand, UnknownArgument,
};
use std::alloc::AllocError;
use std::process::Abort;

/// Words that ask why of files, and the files.
static DRAWINGS: [(&[&str], &[&str]); 42] = words! {
    "drawing.ans" => &["drawing.ans"];
    "a/b" => &["a/b"];
    "/a" => &["/a"];
    "." => &["."];
    ".." => &[".."];
    "./check" => &["./check"];
    "./help" => &["./help"];
    "./-" => &["./-"];
    "check.ans" => &["check.ans"];
    "check/" => &["check/"];
    "help.me" => &["help.me"];
    " -.ans" => &[" -.ans"];
    "a-.ans" => &["a-.ans"];
    "" => &[""];
    "chek" => &["chek"];
    "Check" => &["Check"];
    "checks" => &["checks"];
    "Help" => &["Help"];
    "F20" => &["F20"];
    "drawing" => &["drawing"];
    "chek" "f.ans" => &["chek", "f.ans"];
    "a.ans" "b.ans" => &["a.ans", "b.ans"];
    "a.ans" "b.ans" "a.ans" => &["a.ans", "b.ans", "a.ans"];
    "a.ans" "check" => &["a.ans", "check"];
    "a.ans" "help" => &["a.ans", "help"];
    "a.ans" "why" => &["a.ans", "why"];
    "a.ans" "-" => &["a.ans", "-"];
    "a.ans" "" => &["a.ans", ""];
    "a.ans" "--" => &["a.ans"];
    "a.ans" "--" "--cleared" => &["a.ans", "--cleared"];
    "why" => &[];
    "why" "--" => &[];
    "why" "-" => &["-"];
    "why" "a.ans" => &["a.ans"];
    "why" "drawing" => &["drawing"];
    "why" "why" => &["why"];
    "why" "check" => &["check"];
    "why" "help" => &["help"];
    "why" "a.ans" "b.ans" => &["a.ans", "b.ans"];
    "why" "-" "a.ans" => &["-", "a.ans"];
    "why" "--" "--cleared" => &["--cleared"];
    "why" "a.ans" "--" "-b" => &["a.ans", "-b"];
};

/// Words that ask for nothing, and of which kind `clap` says they are.
static OTHERS: [Row; 17] = words! {
    "chek" "--cleared" => UnknownArgument;
    "a.ans" "--flag" => UnknownArgument;
    "a.ans" "--cleared" => UnknownArgument;
    "a.ans" "b.ans" "--cells" => UnknownArgument;
    "a.ans" "--help" => DisplayHelp;
    "a.ans" "b.ans" "-h" => DisplayHelp;
    "a.ans" "--version" => UnknownArgument;
    "help" "a.ans" => InvalidSubcommand;
    "help" "F20" "F21" => InvalidSubcommand;
    "--" "a.ans" => InvalidSubcommand;
    "-" => InvalidSubcommand;
    "-a.ans" => UnknownArgument;
    "-./a" => UnknownArgument;
    "--cleared" "a.ans" => UnknownArgument;
    "--flag=a.ans" => UnknownArgument;
    "help" => DisplayHelp;
    "check" "a.ans" "b.ans" => UnknownArgument;
};

/// Asserts of which files words ask why.
fn expect_files(
    rt: &(impl Abort + AllocGlobal),
    words: &[&str],
    files: &[&str],
) -> Result<(), AllocError> {
    let Ok(Asked::Why(names)) = asked_by(rt, words)? else {
        panic!(rt; "no files")
    };
    expect_names(rt, names.as_slice(), files);
    Ok(())
}

#[test]
fn a_first_word_that_is_no_command_names_a_file(rt: HostRuntime) -> Result<(), AllocError> {
    for (words, files) in &DRAWINGS {
        expect_files(&rt, words, files)?;
    }
    expect_files(&rt, &["anscheck.exe", "chek"], &["chek"])?;
    expect_files(&rt, &["", "a", "b"], &["a", "b"])
}

/// Asserts that words ask for nothing, and of which kind `clap` says they are.
fn expect_nothing(
    rt: &(impl Abort + AllocGlobal),
    words: &[&str],
    kind: ErrorKind,
) -> Result<(), AllocError> {
    match asked_by(rt, words)? {
        Ok(_) => panic!(rt; "something is asked for"),
        Err(found) => assert_eq!(rt; found, kind),
    }
    Ok(())
}

#[test]
fn other_words_stay_as_they_are(rt: HostRuntime) -> Result<(), AllocError> {
    for (words, kind) in &OTHERS {
        expect_nothing(&rt, words, *kind)?;
    }
    expect_nothing(&rt, &[], MissingSubcommand)?;
    expect_nothing(&rt, &["anscheck"], MissingSubcommand)
}

/// Words, and the command that may have been meant: one that is one edit away, or else the first that is two.
static NEAR: [(&str, Option<&str>); 25] = [
    ("chekc", Some("check")),
    ("chek", Some("check")),
    ("checks", Some("check")),
    ("Check", Some("check")),
    ("chew", Some("check")),
    ("shew", Some("show")),
    ("whow", Some("show")),
    ("shwo", Some("show")),
    ("w", Some("why")),
    ("wéé", Some("why")),
    ("men", Some("mend")),
    ("amend", Some("mend")),
    ("redrow", Some("redraw")),
    ("nedes", Some("needs")),
    ("souce", Some("sauce")),
    ("token", Some("tokens")),
    ("tabel", Some("table")),
    ("tables", Some("table")),
    ("", None),
    ("x", None),
    ("F20", None),
    ("CHECK", None),
    ("help", None),
    ("checking", None),
    ("drawing", None),
];

#[test]
fn a_misspelt_command_is_recognised(rt: HostRuntime) {
    for (word, name) in &NEAR {
        let Ok(near) = near_command(rt.alloc(), word) else {
            panic!(rt; "no memory");
        };
        assert_eq!(rt; near.map(|command| command.name()), *name);
    }
}
