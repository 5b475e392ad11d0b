//! The names and the form of a table.
use super::faults::{Row, expect_kinds};
use super::{asked_by, expect_names, expect_plain_options};
use ans_options::{Asked, Command, TableChoice, TableForm};
use clap::error::ErrorKind::{ArgumentConflict, DisplayHelp, TooManyValues, UnknownArgument};
use std::alloc::AllocError;
use std::process::Abort;

/// A table in a form, and what else is asked of it.
macro_rules! table {
    ($form:ident $(, $more:ident)*) => {
        TableChoice { form: TableForm::$form, $($more: true,)* ..TableChoice::HEADED }
    };
}

/// Words that ask for a table, which, and the names.
static TABLES: [(&[&str], TableChoice, &[&str]); 15] = words! {
    "table" => table!(Headed), &[];
    "table" "a" => table!(Headed), &["a"];
    "table" "a" "b" "a" => table!(Headed), &["a", "b", "a"];
    "table" "a" "--no-header" "b" => table!(Bare), &["a", "b"];
    "table" "--no-header" => table!(Bare), &[];
    "table" "--json" => table!(Json), &[];
    "table" "--no-header" "a" "--json" => table!(Json), &["a"];
    "table" "--pictures" => table!(Headed, pictures), &[];
    "table" "--pictures" "a" "--json" => table!(Json, pictures), &["a"];
    "table" "--" "--json" => table!(Headed), &["--json"];
    "table" "--" "--no-header" => table!(Headed), &["--no-header"];
    "table" "--" "--pictures" => table!(Headed), &["--pictures"];
    "table" "" => table!(Headed), &[""];
    "table" "a" "-" => table!(Headed), &["a", "-"];
    "table" "help" => table!(Headed), &["help"];
};

/// Words that are wrong, and the kind of the mistake.
static FAULTS: [Row; 12] = words! {
    "table" "--cleared" => UnknownArgument;
    "table" "--no-header" "--no-header" => ArgumentConflict;
    "check" "--no-header" => UnknownArgument;
    "table" "--json" "--json" => ArgumentConflict;
    "table" "--pictures" "--pictures" => ArgumentConflict;
    "table" "--pictures=a" => TooManyValues;
    "table" "--all" => UnknownArgument;
    "table" "-n" => UnknownArgument;
    "show" "--json" => UnknownArgument;
    "why" "--pictures" => UnknownArgument;
    "mend" "--pictures" => UnknownArgument;
    "help" "table" => DisplayHelp;
};

#[test]
fn words_say_which_table_of_which_files(rt: HostRuntime) -> Result<(), AllocError> {
    for (words, expected, files) in &TABLES {
        let Ok(Asked::Table(choice, names)) = asked_by(&rt, words)? else {
            panic!(rt; "no table")
        };
        assert_eq!(rt; choice, *expected);
        expect_names(&rt, names.as_slice(), files);
    }
    Ok(())
}

#[test]
fn words_give_the_options_of_a_table(rt: HostRuntime) -> Result<(), AllocError> {
    for (words, choice, _) in &TABLES {
        expect_plain_options(&rt, words, Command::Table(*choice))?;
    }
    Ok(())
}

#[test]
fn wrong_words_of_a_table_have_their_kind(rt: HostRuntime) -> Result<(), AllocError> {
    expect_kinds(&rt, &FAULTS)
}
