//! Words and what they give. Where memory runs out a test fails with that error.

/// A table: the program's words, and what is expected of them.
macro_rules! rows {
    ($($($word:literal)* => $($expected:expr),+;)*) => {
        [$((&[$($word),*], $($expected),+)),*]
    };
}

/// A table: the words after `anscheck`, and what is expected of them.
macro_rules! words {
    ($($($word:literal)* => $($expected:expr),+;)*) => {
        rows! { $("anscheck" $($word)* => $($expected),+;)* }
    };
}

mod command_line;
mod drawings;
mod faults;
mod mends;
mod redraws;
mod tables;
mod topics;
mod writings;

use ans_options::{Asked, Command, Options, WordsError, asked, options};
use ans_samples::start;
use clap::error::ErrorKind;
use std::alloc::AllocError;
use std::process::Abort;

/// What words give, or what `clap` says of them. It fails where memory runs out.
fn read_words(
    rt: &impl AllocGlobal,
    words: &[&str],
) -> Result<Result<(Options, Option<String>), clap::Error>, AllocError> {
    match options(rt.alloc(), words) {
        Ok(given) => Ok(Ok(given)),
        Err(WordsError::Memory) => Err(AllocError),
        Err(WordsError::Clap(error)) => {
            if error.kind() == ErrorKind::OutOfMemory {
                return Err(AllocError);
            }
            Ok(Err(error))
        }
    }
}

/// What words ask for, or of which kind `clap` says they are. It fails where memory runs out.
fn asked_by(rt: &impl AllocGlobal, words: &[&str]) -> Result<Result<Asked, ErrorKind>, AllocError> {
    match asked(rt.alloc(), words) {
        Ok(asked) => Ok(Ok(asked)),
        Err(WordsError::Memory) => Err(AllocError),
        Err(WordsError::Clap(error)) => match error.kind() {
            ErrorKind::OutOfMemory => Err(AllocError),
            kind => Ok(Err(kind)),
        },
    }
}

/// Asserts that these are the names of the files.
fn expect_names(rt: &impl Abort, names: &[String], files: &[&str]) {
    assert_eq!(rt; names.len(), files.len());
    for (name, file) in names.iter().zip(files.iter()) {
        assert_eq!(rt; name.as_str(), *file);
    }
}

/// Asserts that words give the options of this command, to which nothing is known, and no file.
fn expect_plain_options(
    rt: &(impl Abort + AllocGlobal),
    words: &[&str],
    command: Command,
) -> Result<(), AllocError> {
    let Ok((found, name)) = read_words(rt, words)? else {
        panic!(rt; "no options")
    };
    let expected = Options {
        command,
        start: start!(any),
        cells: false,
    };
    assert!(rt; found == expected);
    assert!(rt; name.is_none());
    Ok(())
}
