//! The options that words give.
use super::read_words;
use ans_options::{Command, Form, Options};
use ans_samples::start;
use std::alloc::AllocError;
use std::process::Abort;

/// A command, its class of starts, and `cells` where they are asked for.
macro_rules! asked {
    ($command:ident $($start:ident)+) => {
        Options { command: Command::$command, start: start!($($start)+), cells: false }
    };
    ($command:ident $($start:ident)+, cells) => {
        Options { cells: true, ..asked!($command $($start)+) }
    };
}

/// A picture in a form, and its class of starts.
macro_rules! shown {
    ($form:ident $($start:ident)+) => {
        Options { command: Command::Show(Form::$form), start: start!($($start)+), cells: false }
    };
}

/// Words, their options, and the file. Of `why` no file comes.
static TAKEN: [(&[&str], Options, Option<&str>); 23] = rows! {
    "anscheck" "check" => asked!(Check any), None;
    "anscheck" "check" "f" => asked!(Check any), Some("f");
    "anscheck" "check" "--cleared" => asked!(Check cleared), None;
    "anscheck" "check" "f" "--cleared" => asked!(Check cleared), Some("f");
    "anscheck" "check" "--cells" "f" => asked!(Check any, cells), Some("f");
    "anscheck" "check" "--cells" "--cleared" => asked!(Check cleared, cells), None;
    "anscheck" "check" "--" "--cells" => asked!(Check any), Some("--cells");
    "anscheck" "check" "--" "--known-wrap" => asked!(Check any), Some("--known-wrap");
    "anscheck" "check" "--" "--cleared" => asked!(Check any), Some("--cleared");
    "anscheck" "check" "-" => asked!(Check any), Some("-");
    "anscheck" "check" "--cleared" "-" => asked!(Check cleared), Some("-");
    "anscheck" "check" "help" => asked!(Check any), Some("help");
    "help" "check" "f" => asked!(Check any), Some("f");
    "anscheck" "check" "--known-cursor" "--cells" "f" "--known-colours"
        => asked!(Check known cursor colours, cells), Some("f");
    "anscheck" "sauce" "f" => asked!(Sauce any), Some("f");
    "anscheck" "sauce" => asked!(Sauce any), None;
    "anscheck" "tokens" => asked!(Tokens any), None;
    "anscheck" "why" => asked!(Why any), None;
    "anscheck" "why" "f" => asked!(Why any), None;
    "anscheck" "why" "f" "g" "-" => asked!(Why any), None;
    "anscheck" "needs" => asked!(Needs any), None;
    "anscheck" "needs" "f" => asked!(Needs any), Some("f");
    "anscheck" "needs" "--" "--cleared" => asked!(Needs any), Some("--cleared");
};

/// Words with flags that say what is known, and their options.
static STARTS: [(&[&str], Options); 17] = words! {
    "check" "--known-screen" => asked!(Check known screen);
    "check" "--known-cursor" => asked!(Check known cursor);
    "check" "--known-saved" => asked!(Check known saved);
    "check" "--known-colours" => asked!(Check known colours);
    "check" "--known-wrap" => asked!(Check known wrap);
    "check" "--known-cursor" "--known-colours" => asked!(Check known cursor colours);
    "check" "--known-colours" "--known-cursor" => asked!(Check known cursor colours);
    "check" "--known-wrap" "--known-screen" => asked!(Check known screen wrap);
    "check" "--known-screen" "--known-cursor" "--known-saved" "--known-colours"
        => asked!(Check known screen cursor saved colours);
    "check" "--known-screen" "--known-cursor" "--known-saved" "--known-colours" "--known-wrap" => asked!(Check cleared);
    "check" "--cleared" => asked!(Check cleared);
    "check" "--cleared" "--known-saved" => asked!(Check cleared);
    "check" "--known-wrap" "--cleared" => asked!(Check cleared);
    "check" "--any" => asked!(Check any);
    "check" "--any" "--known-cursor" => asked!(Check known cursor);
    "check" "--known-saved" "--known-wrap" "--any" => asked!(Check known saved wrap);
    "check" "--any" "--cleared" => asked!(Check cleared);
};

/// Words that ask for a picture, their options, and the file.
static SHOWN: [(&[&str], Options, Option<&str>); 23] = words! {
    "show" => shown!(Terminal cleared), None;
    "show" "f" => shown!(Terminal cleared), Some("f");
    "show" "-" => shown!(Terminal cleared), Some("-");
    "show" "--" "--html" => shown!(Terminal cleared), Some("--html");
    "show" "--vga" "f" => shown!(Vga cleared), Some("f");
    "show" "f" "--html" => shown!(Page cleared), Some("f");
    "show" "--html" "--vga" => shown!(Page cleared), None;
    "show" "--vga" "--html" "f" => shown!(Page cleared), Some("f");
    "show" "--any" => shown!(Terminal any), None;
    "show" "--any" "--vga" "f" => shown!(Vga any), Some("f");
    "show" "--known-screen" => shown!(Terminal known screen), None;
    "show" "--known-cursor" => shown!(Terminal known cursor), None;
    "show" "--known-saved" => shown!(Terminal known saved), None;
    "show" "--known-colours" => shown!(Terminal known colours), None;
    "show" "--known-wrap" => shown!(Terminal known wrap), None;
    "show" "--any" "--known-wrap" => shown!(Terminal known wrap), None;
    "show" "--html" "--known-cursor" "f" "--known-screen" "--any" => shown!(Page known screen cursor), Some("f");
    "show" "--known-screen" "--known-cursor" "--known-saved" "--known-colours" "--known-wrap"
        => shown!(Terminal cleared), None;
    "show" "--cleared" => shown!(Terminal cleared), None;
    "show" "--cleared" "--known-wrap" "f" => shown!(Terminal cleared), Some("f");
    "show" "--any" "--cleared" => shown!(Terminal cleared), None;
    "show" "--known-saved" "--any" "--cleared" "--html" => shown!(Page cleared), None;
    "show" "--vga" "--cleared" => shown!(Vga cleared), None;
};

/// Asserts which options words give, and which file.
fn expect_options(
    rt: &(impl Abort + AllocGlobal),
    words: &[&str],
    expected: Options,
    file: Option<&str>,
) -> Result<(), AllocError> {
    match read_words(rt, words)? {
        Ok((found, name)) => {
            assert!(rt; found == expected);
            assert!(rt; name.as_ref().map(|f| f.as_str()) == file);
        }
        Err(_) => panic!(rt; "no options"),
    }
    Ok(())
}

#[test]
fn words_give_options(rt: HostRuntime) -> Result<(), AllocError> {
    for (words, expected, file) in &TAKEN {
        expect_options(&rt, words, *expected, *file)?;
    }
    Ok(())
}

#[test]
fn flags_say_how_a_picture_is_shown(rt: HostRuntime) -> Result<(), AllocError> {
    for (words, expected, file) in &SHOWN {
        expect_options(&rt, words, *expected, *file)?;
    }
    Ok(())
}

#[test]
fn flags_say_what_is_known(rt: HostRuntime) -> Result<(), AllocError> {
    for (words, expected) in &STARTS {
        expect_options(&rt, words, *expected, None)?;
    }
    Ok(())
}
