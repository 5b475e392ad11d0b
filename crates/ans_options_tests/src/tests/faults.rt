//! Words that give no options.
use super::read_words;
use clap::error::ErrorKind::{
    self, ArgumentConflict, DisplayHelp, DisplayVersion, InvalidSubcommand, MissingSubcommand,
    UnknownArgument,
};
use std::alloc::AllocError;
use std::process::Abort;

/// Asserts that words give none, and which kind `clap` says they are. Only what was asked for goes to
/// the standard output.
fn expect_kind(
    rt: &(impl Abort + AllocGlobal),
    words: &[&str],
    kind: ErrorKind,
) -> Result<(), AllocError> {
    match read_words(rt, words)? {
        Err(error) => {
            assert_eq!(rt; error.kind(), kind);
            let is_asked_for = matches!(kind, DisplayHelp | DisplayVersion);
            assert_eq!(rt; error.use_stderr(), !is_asked_for);
        }
        Ok(_) => panic!(rt; "no error of clap's"),
    }
    Ok(())
}

/// Words, and of which kind `clap` says they are.
pub(super) type Row = (&'static [&'static str], ErrorKind);

/// Words that ask for help or for the version, and which.
static REQUESTS: [Row; 23] = words! {
    "--help" => DisplayHelp;
    "-h" => DisplayHelp;
    "help" => DisplayHelp;
    "mend" "--help" => DisplayHelp;
    "redraw" "--help" => DisplayHelp;
    "needs" "--help" => DisplayHelp;
    "check" "--help" => DisplayHelp;
    "check" "-h" => DisplayHelp;
    "check" "--cleared" "f" "--help" => DisplayHelp;
    "show" "--help" => DisplayHelp;
    "sauce" "--help" => DisplayHelp;
    "tokens" "--help" => DisplayHelp;
    "help" "why" => DisplayHelp;
    "help" "mend" => DisplayHelp;
    "help" "redraw" => DisplayHelp;
    "help" "needs" => DisplayHelp;
    "help" "check" => DisplayHelp;
    "help" "show" => DisplayHelp;
    "help" "sauce" => DisplayHelp;
    "help" "tokens" => DisplayHelp;
    "--version" => DisplayVersion;
    "-V" => DisplayVersion;
    "-V" "check" => DisplayVersion;
};

/// Words without any after the program's name, or without that name.
static ALONE: [Row; 3] = rows! {
    => MissingSubcommand;
    "anscheck" => MissingSubcommand;
    "help" => MissingSubcommand;
};

/// Mistakes, and of which kind they are.
static MISTAKES: [Row; 34] = words! {
    "other" => InvalidSubcommand;
    "need" => InvalidSubcommand;
    "helps" => InvalidSubcommand;
    "--" "help" => InvalidSubcommand;
    "check" "--bogus" => UnknownArgument;
    "check" "--version" => UnknownArgument;
    "check" "-V" => UnknownArgument;
    "check" "f" "g" => UnknownArgument;
    "check" "help" "f" => UnknownArgument;
    "check" "--cells" "--cells" => ArgumentConflict;
    "check" "--known-wrap" "--known-wrap" => ArgumentConflict;
    "check" "--known" => UnknownArgument;
    "check" "--html" => UnknownArgument;
    "check" "--any" "--any" => ArgumentConflict;
    "show" "--cells" => UnknownArgument;
    "show" "--cleared" "--cleared" => ArgumentConflict;
    "show" "f" "g" => UnknownArgument;
    "show" "--html" "--html" => ArgumentConflict;
    "tokens" "--vga" => UnknownArgument;
    "sauce" "--cleared" => UnknownArgument;
    "sauce" "--known-screen" => UnknownArgument;
    "tokens" "--known-cursor" => UnknownArgument;
    "sauce" "--cells" => UnknownArgument;
    "tokens" "--cells" => UnknownArgument;
    "why" "--cleared" => UnknownArgument;
    "redra" => InvalidSubcommand;
    "redraw" "--cleared" => UnknownArgument;
    "redraw" "--cells" => UnknownArgument;
    "redraw" "--take-out" => UnknownArgument;
    "redraw" "--html" => UnknownArgument;
    "needs" "--cells" => UnknownArgument;
    "needs" "--cleared" => UnknownArgument;
    "needs" "--known-wrap" => UnknownArgument;
    "needs" "f" "g" => UnknownArgument;
};

macro_rules! after_help {
    ($($($word:literal)+ => $kind:ident;)*) => {
        words! { $("help" $($word)+ => $kind;)* }
    };
}

/// What may not follow `help`, and of which kind that mistake is. To `clap` the name of a fault is one. After a
/// command that takes files its first word is taken as a command that there is not.
static HELP_MISTAKES: [Row; 22] = after_help! {
    "nonsense" => InvalidSubcommand;
    "need" => InvalidSubcommand;
    "help" => InvalidSubcommand;
    "" => InvalidSubcommand;
    "--" => InvalidSubcommand;
    "--help" => InvalidSubcommand;
    "--cleared" => InvalidSubcommand;
    "-V" => InvalidSubcommand;
    "nonsense" "check" => InvalidSubcommand;
    "check" "more" => UnknownArgument;
    "check" "sauce" => UnknownArgument;
    "mend" "--lines" => InvalidSubcommand;
    "redraw" "more" => InvalidSubcommand;
    "mend" "mend" "more" => UnknownArgument;
    "needs" "--help" => UnknownArgument;
    "F20" => InvalidSubcommand;
    "n3" => InvalidSubcommand;
    "F20" "F21" => InvalidSubcommand;
    "check" "F20" => UnknownArgument;
    "why" "more" => InvalidSubcommand;
    "why" "why" "more" => UnknownArgument;
    "table" "more" => InvalidSubcommand;
};

/// Asserts so of each row.
pub(super) fn expect_kinds(
    rt: &(impl Abort + AllocGlobal),
    rows: &[Row],
) -> Result<(), AllocError> {
    for (words, kind) in rows {
        expect_kind(rt, words, *kind)?;
    }
    Ok(())
}

#[test]
fn requests_are_told_from_mistakes(rt: HostRuntime) -> Result<(), AllocError> {
    expect_kinds(&rt, &REQUESTS)?;
    expect_kind(&rt, &["other", "--version"], DisplayVersion)
}

#[test]
fn mistakes_have_their_kinds(rt: HostRuntime) -> Result<(), AllocError> {
    expect_kinds(&rt, &ALONE)?;
    expect_kinds(&rt, &MISTAKES)
}

#[test]
fn help_takes_one_command(rt: HostRuntime) -> Result<(), AllocError> {
    expect_kinds(&rt, &HELP_MISTAKES)
}
