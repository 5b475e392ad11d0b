//! What may be changed of a file that is mended.
use super::faults::{Row, expect_kinds};
use super::{asked_by, expect_names, expect_plain_options};
use ans_options::{Asked, Command, MendChoice, Mends};
use clap::error::ErrorKind::{
    ArgumentConflict, InvalidValue, TooManyValues, UnknownArgument, ValueValidation,
};
use std::alloc::AllocError;
use std::process::Abort;

/// What may be changed, by what is more than nothing.
macro_rules! mends {
    ($($field:ident: $value:expr),*) => {
        Mends { $($field: $value,)* ..Mends::NONE }
    };
}

/// All that may be changed.
const EVERYTHING: Mends = Mends {
    add_record: Some(80),
    columns: Some(132),
    crlf: true,
    take_out: true,
    join_rows: true,
    mixed: true,
    name_colours: true,
    ice: true,
    repair_record: true,
    least_lines: true,
    lines: Some(25),
};

/// Words that ask for files mended, what may be changed, and the files.
static MENDED: [(&[&str], Mends, &[&str]); 38] = words! {
    "mend" => mends!(), &[];
    "mend" "f" => mends!(), &["f"];
    "mend" "-" => mends!(), &["-"];
    "mend" "help" => mends!(), &["help"];
    "mend" "--take-out" => mends!(take_out: true), &[];
    "mend" "--crlf" => mends!(crlf: true), &[];
    "mend" "--join-rows" => mends!(join_rows: true), &[];
    "mend" "--mixed" => mends!(mixed: true), &[];
    "mend" "--name-colours" => mends!(name_colours: true), &[];
    "mend" "--ice" => mends!(ice: true), &[];
    "mend" "--record" => mends!(repair_record: true), &[];
    "mend" "--least-lines" => mends!(least_lines: true), &[];
    "mend" "--lines" "1" => mends!(lines: Some(1)), &[];
    "mend" "--lines" "8192" => mends!(lines: Some(8192)), &[];
    "mend" "--lines=25" "f" => mends!(lines: Some(25)), &["f"];
    "mend" "--lines" "0025" "f" => mends!(lines: Some(25)), &["f"];
    "mend" "--lines" "1025" => mends!(lines: Some(1025)), &[];
    "mend" "--columns" "1" => mends!(columns: Some(1)), &[];
    "mend" "--columns" "1024" => mends!(columns: Some(1024)), &[];
    "mend" "f" "--columns=132" => mends!(columns: Some(132)), &["f"];
    "mend" "--columns" "0132" "f" => mends!(columns: Some(132)), &["f"];
    "mend" "--columns" "132" "--lines" "50" => mends!(columns: Some(132), lines: Some(50)), &[];
    "mend" "--columns" "132" "--add-record" "80" => mends!(columns: Some(132), add_record: Some(80)), &[];
    "mend" "--add-record" "1" => mends!(add_record: Some(1)), &[];
    "mend" "--add-record" "1024" => mends!(add_record: Some(1024)), &[];
    "mend" "f" "--add-record=80" => mends!(add_record: Some(80)), &["f"];
    "mend" "--add-record" "+80" "f" => mends!(add_record: Some(80)), &["f"];
    "mend" "--add-record" "132" "--lines" "50" => mends!(add_record: Some(132), lines: Some(50)), &[];
    "mend" "--lines" "50" "f" "--add-record" "132" => mends!(add_record: Some(132), lines: Some(50)), &["f"];
    "mend" "--take-out" "f" "--join-rows" => mends!(take_out: true, join_rows: true), &["f"];
    "mend" "--crlf" "--least-lines" => mends!(crlf: true, least_lines: true), &[];
    "mend" "--crlf" "--mixed" "--ice" => mends!(crlf: true, mixed: true, ice: true), &[];
    "mend" "--take-out" "--crlf" "--join-rows" "--mixed" "--name-colours" "--ice" "--record" "--least-lines"
        "--lines" "25" "--columns" "132" "--add-record" "80" "f" => EVERYTHING, &["f"];
    "mend" "f" "--add-record" "80" "--columns" "132" "--lines" "25" "--least-lines" "--record" "--ice"
        "--name-colours" "--mixed" "--join-rows" "--crlf" "--take-out" => EVERYTHING, &["f"];
    "mend" "--" "--take-out" => mends!(), &["--take-out"];
    "mend" "--" "--lines" => mends!(), &["--lines"];
    "mend" "--" "--columns" => mends!(), &["--columns"];
    "mend" "--add-record" "80" "--" "25" => mends!(add_record: Some(80)), &["25"];
};

/// Words that ask for files mended, how it is found what is to be changed, and the files.
static CHOSEN: [(&[&str], MendChoice, &[&str]); 7] = words! {
    "mend" "--suggested" => MendChoice::Suggested, &[];
    "mend" "--suggested" "f" => MendChoice::Suggested, &["f"];
    "mend" "f" "--suggested" => MendChoice::Suggested, &["f"];
    "mend" "-" "--suggested" => MendChoice::Suggested, &["-"];
    "mend" "--suggested" "-i" "f" "g" => MendChoice::Suggested, &["f", "g"];
    "mend" "-i" "f" "--ice" "g" => MendChoice::Flags(mends!(ice: true)), &["f", "g"];
    "mend" "--" "--suggested" => MendChoice::Flags(Mends::NONE), &["--suggested"];
};

/// Words that are wrong, and the kind of the mistake.
static FAULTS: [Row; 51] = words! {
    "mend" "--suggested" "--suggested" => ArgumentConflict;
    "mend" "--suggested=yes" => TooManyValues;
    "why" "--suggested" => UnknownArgument;
    "redraw" "--suggested" => UnknownArgument;
    "mend" "--lines" "0" => ValueValidation;
    "mend" "--lines" "8193" => ValueValidation;
    "mend" "--lines" "65537" => ValueValidation;
    "mend" "--lines=-1" => ValueValidation;
    "mend" "--lines=-0" => ValueValidation;
    "mend" "--lines" "-1" => UnknownArgument;
    "mend" "--lines" "f" => ValueValidation;
    "mend" "--lines" "" => ValueValidation;
    "mend" "--lines=" => ValueValidation;
    "mend" "--lines" => InvalidValue;
    "mend" "f" "--lines" => InvalidValue;
    "mend" "--lines" "--take-out" => InvalidValue;
    "mend" "--lines" "--" "25" => InvalidValue;
    "mend" "--columns" "0" => ValueValidation;
    "mend" "--columns" "1025" => ValueValidation;
    "mend" "--columns" "65616" => ValueValidation;
    "mend" "--columns=-1" => ValueValidation;
    "mend" "--columns" "x" => ValueValidation;
    "mend" "--columns" => InvalidValue;
    "mend" "--columns" "80" "--columns" "80" => ArgumentConflict;
    "mend" "--ice" "--ice" => ArgumentConflict;
    "mend" "--record=80" => TooManyValues;
    "mend" "--add-record" "0" => ValueValidation;
    "mend" "--add-record" "1025" => ValueValidation;
    "mend" "--add-record" "8192" => ValueValidation;
    "mend" "--add-record" "65616" => ValueValidation;
    "mend" "--add-record" "18446744073709551696" => ValueValidation;
    "mend" "--add-record" "x" => ValueValidation;
    "mend" "--add-record" "80x" => ValueValidation;
    "mend" "--add-record" " 80" => ValueValidation;
    "mend" "--add-record" "50h" => ValueValidation;
    "mend" "--add-record" => InvalidValue;
    "mend" "--add-record" "80" "--add-record" "80" => ArgumentConflict;
    "mend" "--lines" "25" "--lines" "50" => ArgumentConflict;
    "mend" "--take-out" "--take-out" => ArgumentConflict;
    "mend" "--crlf=yes" => TooManyValues;
    "mend" "--cleared" => UnknownArgument;
    "mend" "--cells" => UnknownArgument;
    "mend" "--known-wrap" => UnknownArgument;
    "why" "--take-out" => UnknownArgument;
    "redraw" "--add-record" "80" => UnknownArgument;
    "redraw" "--columns" "80" => UnknownArgument;
    "why" "--ice" => UnknownArgument;
    "check" "--add-record" "80" => UnknownArgument;
    "check" "--record" => UnknownArgument;
    "show" "--lines=25" => UnknownArgument;
    "table" "--least-lines" => UnknownArgument;
};

/// What words ask to be changed, and the files' names. It fails where memory runs out.
fn choice_of(
    rt: &(impl Abort + AllocGlobal),
    words: &[&str],
) -> Result<(MendChoice, Vec<String>), AllocError> {
    let Ok(Asked::Mend(choice, _, names)) = asked_by(rt, words)? else {
        panic!(rt; "nothing to mend")
    };
    Ok((choice, names))
}

#[test]
fn words_say_what_is_mended(rt: HostRuntime) -> Result<(), AllocError> {
    for (words, expected, files) in &MENDED {
        let (choice, names) = choice_of(&rt, words)?;
        assert!(rt; choice == MendChoice::Flags(*expected));
        expect_names(&rt, names.as_slice(), files);
    }
    Ok(())
}

#[test]
fn words_say_who_finds_what_is_mended(rt: HostRuntime) -> Result<(), AllocError> {
    for (words, expected, files) in &CHOSEN {
        let (choice, names) = choice_of(&rt, words)?;
        assert_eq!(rt; choice, *expected);
        expect_names(&rt, names.as_slice(), files);
    }
    Ok(())
}

#[test]
fn words_give_the_options_of_mending(rt: HostRuntime) -> Result<(), AllocError> {
    for (words, mends, _) in &MENDED {
        expect_plain_options(&rt, words, Command::Mend(MendChoice::Flags(*mends)))?;
    }
    Ok(())
}

#[test]
fn wrong_words_of_mending_have_their_kind(rt: HostRuntime) -> Result<(), AllocError> {
    expect_kinds(&rt, &FAULTS)
}
