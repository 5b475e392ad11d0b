//! The command line, and the options that its words give.
ghost use Rattle.std.specs.Prelude.{◌≡◌, true, IfOk, option_map, string_bytes, codes, map, IfSome, IfNone, IfErr};
ghost use Rattle.std.specs.Str.{bytes_eq};
ghost use Rattle.std.specs.Prelude.{find, nat_le, IsSomeAnd, IsSome, None, IsTrue, ◌↔◌, ◌≢◌, false, [], ◌∷◌, is_some};
ghost use Rattle.std.specs.List.{list_any};
ghost use Rattle.clap.specs.Words.{app_of, first_of, found_of, rows_of, rule_of, subcommand_rows_of, takes};
ghost use Rattle.clap.specs.Words.{with_rule};
ghost use Rattle.clap.specs.Words.{fault_of, subcommand_of};
ghost use Rattle.ans_model.specs.Screen.StartClass.{none_known};
ghost use Rattle.ans_options.specs.CommandLine.{AreOptionsOf, IsCommand, IsInFormAsked, IsNoCommand};
ghost use Rattle.ans_options.specs.CommandLine.{HasKindAmong, IsErrorOf, RanOutOfMemory, start_asked, flag_rule};
ghost use Rattle.ans_options.specs.CommandLine.{faults_of, form_asked, help_on, named_start, takes_flags};
ghost use Rattle.ans_options.specs.CommandLine.{with_flags, with_subcommands};
ghost use Rattle.ans_options.specs.CommandLine.{words_meant, anscheck, command_app, command_name, file_app};
ghost use Rattle.ans_options.specs.CommandLine.{asks_for_cleared, files_app, holds_flag};
ghost use Rattle.ans_options.specs.CommandLine.{AreInRange, HasNumberUpTo, HasNumbersOfMend, mends_asked};
ghost use Rattle.ans_options.specs.CommandLine.{IsInRange, choice_asked, names_changes};
ghost use Rattle.ans_options.specs.CommandLine.{IsTargetAsked, IsWritingAsked, first_mistake, is_folder, makes};
ghost use Rattle.ans_options.specs.CommandLine.{headed_table, names_input, output_rule, path_given, reads_input};
ghost use Rattle.ans_options.specs.CommandLine.{table_choice_asked, with_writing};
ghost use Rattle.ans_options.specs.CommandLine.{number_asked, number_rule};
ghost use Rattle.ans_model.specs.MendFlags.{row_of_flag, with_given};
ghost use Rattle.ans_model.specs.Text.Words.{texts_of};
ghost use Rattle.ans_options.specs.CommandLine.{AsksAs, IsAskedBy, IsReadAs, files_of, table_form_asked, takes_files};
ghost use Rattle.ans_options.specs.CommandLine.{command_named, edits, names_file, near_command, words_asked};
ghost use Rattle.ans_options.specs.Topics.{topic_of};
ghost use Rattle.ans_options.specs.declared.command.Command.TheVariants.{Check, Show, Table, Mend, Redraw};
ghost use Rattle.ans_model.specs.declared.mends.TheConstants.Mends as no_mends;
ghost use Rattle.ans_options.specs.declared.command.Form.TheVariants.{Terminal};
ghost use Rattle.ans_options.specs.declared.command.MendChoice.TheVariants.{Flags};
ghost use Rattle.ans_options.specs.declared.command_line.WordsError.TheVariants.{Clap};

use crate::command::{
    Asked, Command, Form, MendChoice, Options, TableChoice, TableForm, Target, Writing,
};
use crate::mistakes::Mistake;
use crate::topic::topic_of;
use ans_model::mends::{MendFlag, Mends, mend_flags};
use ans_model::start::Start;
use clap::builder::ValueParser;
use clap::{Arg, ArgAction, ArgMatches, value_parser};
use std::alloc::{AllocError, Global};
use strsim::levenshtein;

/// Why the words give no options.
#[derive(Debug, Drop)]
pub enum WordsError {
    /// `clap` rejects them, or they ask for help or the version, or memory ran out while they were
    /// read.
    Clap(clap::Error),
    /// Memory ran out for the words, for the file's name, or for the names of a table's files.
    Memory,
}

impl From<clap::Error> for WordsError {
    ghost from_gives = { λ e w. w ≡ Clap e };

    fn from(error: clap::Error) -> WordsError {
        WordsError::Clap(error)
    }
}

/// What `--version` prints after the program's name: its version, and the prover's logic.
const VERSION: &str = "0.2.0 (rattle logic dac8208d650f15bf)";

/// A text, and after it the exit statuses, of which the first comes if this is so.
macro_rules! with_exit_statuses {
    ($text:literal, $success:literal) => {
        concat!(
            $text,
            "\
Exit status:
  0  ",
            $success,
            "
  1  The file is refused
  2  There is no answer; standard error says why"
        )
    };
}

/// The last lines of the help of `why`.
const WHY_END: &str = "\
With several files each answer begins with file: NAME, and the greatest status
counts. 'anscheck help WORD' explains each word of an answer, such as
  anscheck help F20
  anscheck help hints
  anscheck help wrap-at-once

Exit status:
  0  Each file passes, on a cleared screen at least, or help was asked for
  1  A file is refused
  2  There is no answer; standard error says why";

/// The last lines of the help of `needs`.
const NEEDS_END: &str = with_exit_statuses!(
    "",
    "The file passes on a cleared screen, or help was asked for"
);

/// The last lines of the help of `check`.
const CHECK_END: &str = with_exit_statuses!("", "The file passes, or help was asked for");

/// The last lines of the help of `show`.
const SHOW_END: &str = with_exit_statuses!(
    "\
The picture is that of a cleared screen. --cleared, --any and the --known flags
of check are taken too: they ask for the picture of those starts.

",
    "The file passes, or help was asked for"
);

/// The last lines of the help of `sauce`.
const SAUCE_END: &str = with_exit_statuses!("", "The record is accepted, or help was asked for");

/// The last lines of the help of `tokens`.
const TOKENS_END: &str = with_exit_statuses!(
    "",
    "The record is accepted and all of the content read, or help was asked for"
);

/// The last lines of the help of `table`.
const TABLE_END: &str = "\
The verdict is pass, cleared (it passes on a cleared screen), refused or error
(it cannot be read; the reason is its fault). In a name \\t, \\n and \\xHH stand
for a tab, a line end and a byte that is not shown.

--pictures adds the column picture: drawings with the same text there show the
same picture.

Exit status:
  0  Each file passes, on a cleared screen at least, or help was asked for
  1  A file is refused, and every file was read
  2  A file could not be read, or the table could not be written";

/// The last lines of the help of a command that writes files: examples, where the files go, what else is to be known,
/// and the exit statuses, of which the second comes if this is so.
macro_rules! with_writing_told {
    ($examples:literal, $more:literal, $failure:literal) => {
        concat!(
            $examples,
            "
Without -o and -i one FILE goes to standard output, for a pipe; to a terminal
it is not written. -o replaces a file that is there, but never a FILE; a name
that ends in / is a folder's, which is made, and takes several files, as -i and
-n do. What needs no change is copied by -o and left alone by -i. With several
files the name comes before what is said of each, what cannot be written stops
no other, and the greatest exit status counts.

",
            $more,
            "
Exit status:
  0  Each file is written or needs no change, or help was asked for
  1  ",
            $failure,
            "; with -n also if one would be written
  2  There is no answer for a file; standard error says why"
        )
    };
}

/// The last lines of the help of `mend`.
const MEND_END: &str = with_writing_told!(
    "\
Examples:
  anscheck mend drawing.ans -o fixed.ans
  anscheck mend -o fixed/ *.ans
  anscheck mend -i *.ans
",
    "\
Each change is reported on standard error; without --suggested and flags that
ask for a change only what is safe is changed.

--name-colours is for terminals whose own white and black, those of a 0, are
not those of 37 and 40: the drawing then shows in the latter everywhere.
",
    "A file cannot be fixed"
);

/// The last lines of the help of `redraw`.
const REDRAW_END: &str = with_writing_told!(
    "\
Examples:
  anscheck redraw drawing.ans -o redrawn.ans
  anscheck redraw -o redrawn/ *.ans
",
    "\
The picture is the one that the drawing shows in the end on a cleared screen,
so an animation becomes still; it then shows from every start. Record and
comments stay, except the file size; an end mark is added after the drawing if
there is none. Both colours are named after each 0, and ESC[0m ends it. It
shows on screens of two rows and more, of the stated columns or more; that is
tried, not proved.
",
    "A file cannot be redrawn"
);

/// How the program is used, if there are no words.
const PROGRAM_USAGE: &str = "\
anscheck FILE...
       anscheck COMMAND

  tip: to begin with a drawing, 'anscheck drawing.ans'";

/// The last lines of the program's help.
const PROGRAM_END: &str = with_exit_statuses!(
    "\
anscheck FILE... is anscheck why FILE...; a file with the name of a command is
given as ./NAME. 'anscheck help WORD' explains a command, a fault, or a word of
an answer.

Examples:
  anscheck drawing.ans
  anscheck mend drawing.ans -o fixed.ans
  anscheck redraw drawing.ans -o redrawn.ans
  anscheck check --cleared drawing.ans
  anscheck show drawing.ans
  anscheck help check
  anscheck help F20

",
    "The file passes or is written, or help or the version was asked for"
);

// What the commands do, in the order of the program's help.
const WHY: &str = "Explain what is wrong, what it relies on, and how to fix it";

const MEND: &str = "Fix a drawing so that it looks the same from every start";

const REDRAW: &str = "Write the picture again from scratch, in the simplest form";

const NEEDS: &str = "List what it relies on: screen, cursor, saved, colours, wrap";

const CHECK: &str = "Succeed only if it always shows the same picture, and print it";

const SHOW: &str = "Show the picture in its colours, for a terminal or as a page";

const SAUCE: &str = "Print what a file's SAUCE record says";

const TOKENS: &str = "Print the bytes and the escape sequences of a file, one a line";

const TABLE: &str = "Check many files, one row each";

/// The commands, in the order of the program's help.
const COMMANDS: [Command; 9] = [
    Command::Why,
    Command::Mend(MendChoice::Flags(Mends::NONE)),
    Command::Redraw,
    Command::Needs,
    Command::Check,
    Command::Show(Form::Terminal),
    Command::Sauce,
    Command::Tokens,
    Command::Table(TableChoice::HEADED),
];

/// What `-o` of `mend` and `redraw` does.
const OUTPUT: &str = "Write to PATH; into it, as a folder, if it ends in /";

/// What `-i` of `mend` and `redraw` does.
const IN_PLACE: &str = "Write over each FILE, if anything changes";

/// What `-n` of `mend` and `redraw` does.
const DRY_RUN: &str = "Write nothing, and say what would be done";

/// What `--suggested` of `mend` does.
const SUGGESTED: &str = "Make the changes that the fix: line of why names";

/// What `--lines` of `mend` does.
const LINES: &str = "Set N lines if too few or none are stated (1 to 8192)";

/// What `--columns` of `mend` does.
const COLUMNS: &str = "Set the record's width to N columns (1 to 1024)";

/// What `--add-record` of `mend` does.
const ADD_RECORD: &str = "Add a record for N columns if there is none (1 to 1024)";

/// The flags that name a part of the start, each with its help.
const PART_FLAGS: [(&str, &str); 5] = [
    (
        "known-screen",
        "Assume the screen to be blank, white on black",
    ),
    ("known-cursor", "Assume the cursor to be at the top left"),
    (
        "known-saved",
        "Assume the saved cursor to be at the top left",
    ),
    ("known-colours", "Assume the colours to be white on black"),
    ("known-wrap", "Assume wrap to be on"),
];

/// The other flags of `check`.
const CHECK_FLAGS: [(&str, &str); 3] = [
    ("cleared", "Assume all five: a screen that was just cleared"),
    ("any", "Assume nothing but what the other flags say"),
    (
        "cells",
        "Print each cell too: its byte and its attribute, in hex",
    ),
];

/// The flags of `show` that its help lists.
const SHOW_FLAGS: [(&str, &str); 2] = [
    ("html", "Write an HTML page, in the colours of a VGA"),
    (
        "vga",
        "Mix the colours of a VGA, whatever the terminal's are",
    ),
];

/// The other flags of `show`, besides those that name a part of the start.
const START_FLAGS: [(&str, &str); 2] = [
    ("cleared", "Assume all five: a screen that was just cleared"),
    ("any", "Assume nothing but what the other flags say"),
];

/// The flags of `table`.
const TABLE_FLAGS: [(&str, &str); 3] = [
    ("json", "Write each row as a JSON object, one a line"),
    ("no-header", "Leave out the line of the columns' names"),
    ("pictures", "Add a column: a checksum of the picture"),
];

fn file_command<'a>(
    alloc: Global,
    name: &'a str,
    about: &'a str,
    end: &'a str,
) -> Result<clap::Command<'a>, AllocError>
    ensures { IfOk result (λ c. app_of c ≡ file_app name.now) }
{
    let file = Arg::new(alloc, "file")
        .value_name("FILE")
        .help("The file to read; - or none is standard input");
    clap::Command::new(alloc, name)
        .about(about)
        .after_help(end)
        .arg(file)
}

fn files_command<'a>(
    alloc: Global,
    name: &'a str,
    about: &'a str,
    end: &'a str,
    help: &'a str,
) -> Result<clap::Command<'a>, AllocError>
    ensures { IfOk result (λ c. app_of c ≡ files_app name.now) }
{
    let files = Arg::new(alloc, "files")
        .value_name("FILE")
        .action(ArgAction::Append)
        .help(help);
    clap::Command::new(alloc, name)
        .about(about)
        .after_help(end)
        .arg(files)
}

/// `--NAME`, which help lists unless it is hidden.
fn flag<'a>(alloc: Global, name: &'a str, help: &'a str, hidden: bool) -> Arg<'a>
    ensures rule { rule_of result ≡ flag_rule name.now }
    ensures local { result.global ≡ false }
{
    Arg::new(alloc, name)
        .long(name)
        .action(ArgAction::SetTrue)
        .help(help)
        .hide(hidden)
}

/// `--NAME N`, where the parser says which numbers N may be.
fn number<'a>(alloc: Global, name: &'a str, numbers: ValueParser<'a>, help: &'a str) -> Arg<'a>
    ensures rule { rule_of result ≡ number_rule name.now numbers.entry }
    ensures local { result.global ≡ false }
{
    Arg::new(alloc, name)
        .long(name)
        .value_name("N")
        .value_parser(numbers)
        .help(help)
}

/// `--output PATH`, or `-o PATH`.
fn output<'a>(alloc: Global) -> Arg<'a>
    ensures rule { rule_of result ≡ output_rule }
    ensures local { result.global ≡ false }
{
    Arg::new(alloc, "output")
        .short('o')
        .long("output")
        .value_name("PATH")
        .help(OUTPUT)
}

/// With the options that say how files are written.
fn with_writing<'a>(
    alloc: Global,
    command: clap::Command<'a>,
) -> Result<clap::Command<'a>, AllocError>
    ensures { IfOk result (λ c. app_of c ≡ with_writing (app_of command.entry)) }
{
    let in_place = flag(alloc, "in-place", IN_PLACE, false).short('i');
    let dry_run = flag(alloc, "dry-run", DRY_RUN, false).short('n');
    command.arg(output(alloc))?.arg(in_place)?.arg(dry_run)
}

fn with_flags<'a>(
    alloc: Global,
    mut command: clap::Command<'a>,
    flags: &[(&'a str, &'a str)],
    hidden: bool,
) -> Result<clap::Command<'a>, AllocError>
    ensures { IfOk result (λ c.
        app_of c ≡ with_flags (app_of command.entry) (map (λ f. f.0.now) flags.now)) }
{
    for (name, help) in flags {
        command = command.arg(flag(alloc, name, help, hidden))?;
    }
    Ok(command)
}

fn with_mend_flags<'a>(
    alloc: Global,
    mut command: clap::Command<'a>,
    flags: &[MendFlag],
) -> Result<clap::Command<'a>, AllocError>
    ensures { IfOk result (λ c.
        app_of c ≡ with_flags (app_of command.entry) (map (λ f. f.name) (map row_of_flag flags.now))) }
{
    for one in flags {
        command = command.arg(flag(alloc, one.name, one.help, false))?;
    }
    Ok(command)
}

fn check_command<'a>(alloc: Global) -> Result<clap::Command<'a>, AllocError>
    ensures { IfOk result (λ c. app_of c ≡ command_app Check) }
{
    let command = file_command(alloc, "check", CHECK, CHECK_END)?;
    let command = with_flags(alloc, command, &PART_FLAGS, false)?;
    with_flags(alloc, command, &CHECK_FLAGS, false)
}

fn show_command<'a>(alloc: Global) -> Result<clap::Command<'a>, AllocError>
    ensures { IfOk result (λ c. app_of c ≡ command_app (Show Terminal)) }
{
    let command = file_command(alloc, "show", SHOW, SHOW_END)?;
    let command = with_flags(alloc, command, &SHOW_FLAGS, false)?;
    let command = with_flags(alloc, command, &START_FLAGS, true)?;
    with_flags(alloc, command, &PART_FLAGS, true)
}

/// `mend [FILE]..` with the options that name no change.
fn suggested_command<'a>(alloc: Global) -> Result<clap::Command<'a>, AllocError>
    ensures { IfOk result (λ c. app_of c
        ≡ with_rule (with_writing (files_app (codes "mend"))) (flag_rule (codes "suggested"))) }
{
    let command = files_command(alloc, "mend", MEND, MEND_END, FILES)?;
    let command = with_writing(alloc, command)?;
    command.arg(flag(alloc, "suggested", SUGGESTED, false))
}

fn mend_command<'a>(alloc: Global) -> Result<clap::Command<'a>, AllocError>
    ensures { IfOk result (λ c. app_of c ≡ command_app (Mend (Flags no_mends.NONE))) }
{
    let command = suggested_command(alloc)?;
    let command = with_mend_flags(alloc, command, mend_flags())?;
    let lines = number(alloc, "lines", value_parser!(u16).range(1..=8192), LINES);
    let columns = number(
        alloc,
        "columns",
        value_parser!(u16).range(1..=1024),
        COLUMNS,
    );
    let add_record = number(
        alloc,
        "add-record",
        value_parser!(u16).range(1..=1024),
        ADD_RECORD,
    );
    command.arg(lines)?.arg(columns)?.arg(add_record)
}

fn redraw_command<'a>(alloc: Global) -> Result<clap::Command<'a>, AllocError>
    ensures { IfOk result (λ c. app_of c ≡ command_app Redraw) }
{
    let command = files_command(alloc, "redraw", REDRAW, REDRAW_END, FILES)?;
    with_writing(alloc, command)
}

/// The help of the files of `why`, of `mend` and of `redraw`.
const FILES: &str = "The files to read; - or none is standard input";

/// The help of the files of `table`.
const TABLE_FILES: &str = "The files; without any, names from standard input, ended by 00h";

fn table_command<'a>(alloc: Global) -> Result<clap::Command<'a>, AllocError>
    ensures { IfOk result (λ c. app_of c ≡ command_app (Table headed_table)) }
{
    let command = files_command(alloc, "table", TABLE, TABLE_END, TABLE_FILES)?;
    with_flags(alloc, command, &TABLE_FLAGS, false)
}

fn subcommand<'a>(alloc: Global, command: Command) -> Result<clap::Command<'a>, AllocError>
    ensures { IfOk result (λ c. app_of c ≡ command_app command) }
{
    match command {
        Command::Why => files_command(alloc, "why", WHY, WHY_END, FILES),
        Command::Mend(_) => mend_command(alloc),
        Command::Redraw => redraw_command(alloc),
        Command::Needs => file_command(alloc, "needs", NEEDS, NEEDS_END),
        Command::Check => check_command(alloc),
        Command::Show(_) => show_command(alloc),
        Command::Sauce => file_command(alloc, "sauce", SAUCE, SAUCE_END),
        Command::Tokens => file_command(alloc, "tokens", TOKENS, TOKENS_END),
        Command::Table(_) => table_command(alloc),
    }
}

fn with_subcommands<'a>(
    alloc: Global,
    mut program: clap::Command<'a>,
    commands: &[Command],
) -> Result<clap::Command<'a>, AllocError>
    ensures { IfOk result (λ c. app_of c ≡ with_subcommands (app_of program.entry) commands.now) }
{
    for command in commands {
        program = program.subcommand(subcommand(alloc, *command)?)?;
    }
    Ok(program)
}

fn program<'a>(alloc: Global) -> Result<clap::Command<'a>, AllocError>
    ensures { IfOk result (λ c. app_of c ≡ anscheck) }
{
    let top = clap::Command::new(alloc, "anscheck")
        .version(VERSION)
        .about("Checks ANSI art files that end in a SAUCE record")
        .after_help(PROGRAM_END)
        .override_usage(PROGRAM_USAGE)
        .subcommand_required(true)
        .disable_help_subcommand(true);
    with_subcommands(alloc, top, &COMMANDS)
}

fn holds(matches: &ArgMatches<'_>, id: &str) -> bool
    ensures { result ≡ holds_flag id.now (rows_of (found_of matches.now)) }
{
    matches.get_one::<bool>(id).unwrap_or(false)
}

/// The first of the commands that has this name.
fn command_among(commands: &[Command], name: &str) -> Option<Command>
    ensures { result ≡ find (λ c. bytes_eq (command_name c) name.now) commands.now }
{
    for command in commands {
        if command.name() == name {
            return Some(*command);
        }
    }
    None
}

/// The command of this name, in its first form: of `show` the picture in a terminal's colours, of `table` the rows
/// under their names, of `mend` without flags.
pub fn command_named(name: &str) -> Option<Command>
    ensures is { result ≡ command_named name.now }
    ensures some { IfSome result (λ c. name.now ≡ command_name c) }
    ensures none { IfNone result (IsNoCommand name.now) }
{
    command_among(&COMMANDS, name)
}

fn form_asked(matches: &ArgMatches<'_>) -> Form
    ensures { result ≡ form_asked (rows_of (found_of matches.now)) }
{
    if holds(matches, "html") {
        Form::Page
    } else if holds(matches, "vga") {
        Form::Vga
    } else {
        Form::Terminal
    }
}

fn table_form_asked(matches: &ArgMatches<'_>) -> TableForm
    ensures { result ≡ table_form_asked (rows_of (found_of matches.now)) }
{
    if holds(matches, "json") {
        TableForm::Json
    } else if holds(matches, "no-header") {
        TableForm::Bare
    } else {
        TableForm::Headed
    }
}

/// What a table is asked to be.
fn table_choice_asked(matches: &ArgMatches<'_>) -> TableChoice
    ensures { result ≡ table_choice_asked (rows_of (found_of matches.now)) }
{
    TableChoice {
        form: table_form_asked(matches),
        pictures: holds(matches, "pictures"),
    }
}

/// The number that an option is given.
fn number_asked(matches: &ArgMatches<'_>, id: &str) -> Option<u16>
    requires { HasNumberUpTo 65535 id.now (rows_of (found_of matches.now)) }
    ensures { result ≡ number_asked id.now (rows_of (found_of matches.now)) }
{
    matches.get_one::<u16>(id)
}

/// With each change asked for whose flag is given.
fn with_given(matches: &ArgMatches<'_>, mends: Mends, flags: &[MendFlag]) -> Mends
    ensures { result ≡ with_given (λ f. holds_flag f.name (rows_of (found_of matches.now))) mends
        (map row_of_flag flags.now) }
{
    let mut mends = mends;
    for flag in flags {
        mends = mends.with(flag.step, holds(matches, flag.name));
    }
    mends
}

fn mends_asked(matches: &ArgMatches<'_>) -> Mends
    requires { HasNumbersOfMend (rows_of (found_of matches.now)) }
    ensures is { result ≡ mends_asked (rows_of (found_of matches.now)) }
    ensures range { AreInRange result }
{
    let numbers = Mends {
        add_record: number_asked(matches, "add-record"),
        columns: number_asked(matches, "columns"),
        lines: number_asked(matches, "lines"),
        ..Mends::NONE
    };
    with_given(matches, numbers, mend_flags())
}

/// Whether one of these flags is given.
fn holds_any(matches: &ArgMatches<'_>, flags: &[MendFlag]) -> bool
    ensures { result ≡ list_any (λ f. holds_flag f.name (rows_of (found_of matches.now)))
        (map row_of_flag flags.now) }
{
    for flag in flags {
        if holds(matches, flag.name) {
            return true;
        }
    }
    false
}

/// Whether an option is given a value.
fn is_given(matches: &ArgMatches<'_>, id: &str) -> bool
    ensures { result ≡ is_some (first_of id.now (rows_of (found_of matches.now))) }
{
    matches.get_str(id).is_some()
}

/// Whether a flag or a number names a change.
fn names_changes(matches: &ArgMatches<'_>) -> bool
    ensures { result ≡ names_changes (rows_of (found_of matches.now)) }
{
    holds_any(matches, mend_flags())
        || is_given(matches, "lines")
        || is_given(matches, "columns")
        || is_given(matches, "add-record")
}

/// What is to be changed: what the drawing's findings call for if `--suggested` is given, and else what the flags name.
fn choice_asked(matches: &ArgMatches<'_>) -> MendChoice
    requires { HasNumbersOfMend (rows_of (found_of matches.now)) }
    ensures is { result ≡ choice_asked (rows_of (found_of matches.now)) }
    ensures range { IsInRange result }
{
    if holds(matches, "suggested") {
        MendChoice::Suggested
    } else {
        MendChoice::Flags(mends_asked(matches))
    }
}

/// The command, with the form that the flags ask for.
fn in_form_asked(command: Command, matches: &ArgMatches<'_>) -> Command
    requires { HasNumbersOfMend (rows_of (found_of matches.now)) }
    ensures name { command_name result ≡ command_name command }
    ensures files { takes_files result ≡ takes_files command }
    ensures form { IsInFormAsked result (rows_of (found_of matches.now)) }
{
    match command {
        Command::Show(_) => Command::Show(form_asked(matches)),
        Command::Table(_) => Command::Table(table_choice_asked(matches)),
        Command::Mend(_) => Command::Mend(choice_asked(matches)),
        _ => command,
    }
}

fn named_start(matches: &ArgMatches<'_>) -> Start
    ensures { result ≡ named_start (rows_of (found_of matches.now)) }
{
    Start {
        screen: holds(matches, "known-screen"),
        cursor: holds(matches, "known-cursor"),
        saved: holds(matches, "known-saved"),
        colours: holds(matches, "known-colours"),
        wrap: holds(matches, "known-wrap"),
    }
}

fn asks_for_cleared(command: Command, named: Start, matches: &ArgMatches<'_>) -> bool
    requires { named ≡ named_start (rows_of (found_of matches.now)) }
    ensures { result ≡ asks_for_cleared command (rows_of (found_of matches.now)) }
{
    if holds(matches, "cleared") {
        return true;
    }
    match command {
        Command::Show(_) => named == Start::ANY && !holds(matches, "any"),
        _ => false,
    }
}

fn start_asked(command: Command, matches: &ArgMatches<'_>) -> Start
    ensures { result ≡ start_asked command (rows_of (found_of matches.now)) }
{
    let named = named_start(matches);
    if asks_for_cleared(command, named, matches) {
        Start::CLEARED
    } else {
        named
    }
}

/// The text that an option or `[FILE]` is given.
fn text_given(
    alloc: Global,
    matches: &ArgMatches<'_>,
    id: &str,
) -> Result<Option<String>, WordsError>
    ensures memory { IfErr result (λ e. e ≡ WordsError.Memory) }
    ensures ok { IfOk result (λ t. option_map string_bytes t ≡ first_of id.now (rows_of (found_of matches.now))) }
{
    match matches.get_str(id) {
        Some(text) => match String::from_str(alloc, text) {
            Ok(text) => Ok(Some(text)),
            Err(_) => Err(WordsError::Memory),
        },
        None => Ok(None),
    }
}

/// The options of a command that is in the form asked for.
fn options_of(command: Command, matches: &ArgMatches<'_>) -> Options
    ensures command { result.command ≡ command }
    ensures start { result.start ≡ start_asked command (rows_of (found_of matches.now)) }
    ensures cells { IsTrue result.cells
        ↔ IsTrue (holds_flag (codes "cells") (rows_of (found_of matches.now))) }
{
    Options {
        command,
        start: start_asked(command, matches),
        cells: holds(matches, "cells"),
    }
}

fn texts_owned(alloc: Global, texts: &[&str]) -> Result<Vec<String>, AllocError>
    ensures { IfOk result (λ v. map string_bytes v.items ≡ texts_of texts.now) }
{
    let mut owned = Vec::new(alloc);
    for text in texts {
        owned.push(String::from_str(alloc, text)?)?;
    }
    Ok(owned)
}

fn files_of(alloc: Global, matches: &ArgMatches<'_>) -> Result<Vec<String>, WordsError>
    ensures memory { IfErr result (λ e. e ≡ WordsError.Memory) }
    ensures ok { IfOk result (λ v. map string_bytes v.items ≡ files_of (rows_of (found_of matches.now))) }
{
    let Some(texts) = matches.get_strs("files") else {
        return Ok(Vec::new(alloc));
    };
    match texts_owned(alloc, texts) {
        Ok(files) => Ok(files),
        Err(AllocError) => Err(WordsError::Memory),
    }
}

/// Whether standard input is among the files: `-` is one of them.
fn names_input(names: &[String]) -> bool
    ensures { result ≡ names_input (map string_bytes names.now) }
{
    for name in names {
        if name.as_str() == "-" {
            return true;
        }
    }
    false
}

/// Whether standard input is read: it is among the files, or there are none.
fn reads_input(names: &[String]) -> bool
    ensures { result ≡ reads_input (map string_bytes names.now) }
{
    names.is_empty() || names_input(names)
}

/// Whether a PATH is that of a folder.
fn is_folder(path: &str) -> bool
    ensures { result ≡ is_folder path.now }
{
    path.as_bytes().ends_with(b"/")
}

/// The PATH of `--output`, or nothing if it is not given.
fn path_given<'a>(matches: &ArgMatches<'a>) -> &'a str
    ensures { result.now ≡ path_given (rows_of (found_of matches.now)) }
{
    matches.get_str("output").unwrap_or("")
}

/// Whether the matches make a mistake, whatever others they make.
fn makes(mistake: Mistake, matches: &ArgMatches<'_>, names: &[String]) -> bool
    requires { map string_bytes names.now ≡ files_of (rows_of (found_of matches.now)) }
    ensures { result ≡ makes mistake (rows_of (found_of matches.now)) }
{
    let has_output = is_given(matches, "output");
    let path = path_given(matches);
    let are_several = names.len() >= 2;
    match mistake {
        Mistake::SuggestedWithChanges => holds(matches, "suggested") && names_changes(matches),
        Mistake::OutputWithInPlace => has_output && holds(matches, "in-place"),
        Mistake::EmptyOutput => has_output && path.is_empty(),
        Mistake::InPlaceOfInput => holds(matches, "in-place") && reads_input(names),
        Mistake::InputAmong => are_several && names_input(names),
        Mistake::FolderOfInput => is_folder(path) && reads_input(names),
        Mistake::SeveralToOne => has_output && !is_folder(path) && are_several,
        Mistake::SeveralToOutput => {
            let has_place = has_output || holds(matches, "in-place");
            !has_place && !holds(matches, "dry-run") && are_several
        }
    }
}

/// The first of these mistakes that the matches make.
fn first_made(mistakes: &[Mistake], matches: &ArgMatches<'_>, names: &[String]) -> Option<Mistake>
    requires { map string_bytes names.now ≡ files_of (rows_of (found_of matches.now)) }
    ensures { result ≡ find (λ m. makes m (rows_of (found_of matches.now))) mistakes.now }
{
    for mistake in mistakes {
        if makes(*mistake, matches, names) {
            return Some(*mistake);
        }
    }
    None
}

/// The first mistake that the matches make, in the order of `Mistake::EACH`.
fn first_mistake(matches: &ArgMatches<'_>, names: &[String]) -> Option<Mistake>
    requires { map string_bytes names.now ≡ files_of (rows_of (found_of matches.now)) }
    ensures { result ≡ first_mistake (rows_of (found_of matches.now)) }
{
    first_made(&Mistake::EACH, matches, names)
}

/// Where files go that are mended or redrawn.
fn target_asked(alloc: Global, matches: &ArgMatches<'_>) -> Result<Target, WordsError>
    ensures memory { IfErr result (λ e. e ≡ WordsError.Memory) }
    ensures ok { IfOk result (IsTargetAsked (rows_of (found_of matches.now))) }
{
    if holds(matches, "in-place") {
        return Ok(Target::InPlace);
    }
    match text_given(alloc, matches, "output")? {
        Some(path) if path.as_str() != "-" => Ok(Target::Path(path)),
        _ => Ok(Target::Output),
    }
}

/// How files are written that are mended or redrawn.
fn writing_asked(alloc: Global, matches: &ArgMatches<'_>) -> Result<Writing, WordsError>
    ensures memory { IfErr result (λ e. e ≡ WordsError.Memory) }
    ensures ok { IfOk result (IsWritingAsked (rows_of (found_of matches.now))) }
{
    let target = target_asked(alloc, matches)?;
    Ok(Writing {
        target,
        is_dry: holds(matches, "dry-run"),
    })
}

/// What is asked of `mend`.
fn mending(alloc: Global, choice: MendChoice, matches: &ArgMatches<'_>) -> Result<Asked, WordsError>
    requires { IsInFormAsked (Mend choice) (rows_of (found_of matches.now)) }
    ensures memory { IfErr result (λ e. e ≡ WordsError.Memory) }
    ensures ok { IfOk result (λ a. AsksAs a (command_name (Mend choice), rows_of (found_of matches.now))) }
{
    let names = files_of(alloc, matches)?;
    if let Some(mistake) = first_mistake(matches, names.as_slice()) {
        return Ok(Asked::Mistaken(Command::Mend(choice), mistake));
    }
    let writing = writing_asked(alloc, matches)?;
    Ok(Asked::Mend(choice, writing, names))
}

/// What is asked of `redraw`.
fn redrawing(alloc: Global, matches: &ArgMatches<'_>) -> Result<Asked, WordsError>
    ensures memory { IfErr result (λ e. e ≡ WordsError.Memory) }
    ensures ok { IfOk result (λ a. AsksAs a (command_name Redraw, rows_of (found_of matches.now))) }
{
    let names = files_of(alloc, matches)?;
    if let Some(mistake) = first_mistake(matches, names.as_slice()) {
        return Ok(Asked::Mistaken(Command::Redraw, mistake));
    }
    let writing = writing_asked(alloc, matches)?;
    Ok(Asked::Redraw(writing, names))
}

/// What is asked of a command by its matches.
fn read_command(
    alloc: Global,
    command: Command,
    matches: &ArgMatches<'_>,
) -> Result<Asked, WordsError>
    requires { IsInFormAsked command (rows_of (found_of matches.now)) }
    ensures memory { IfErr result (λ e. e ≡ WordsError.Memory) }
    ensures ok { IfOk result (λ a. AsksAs a (command_name command, rows_of (found_of matches.now))) }
{
    match command {
        Command::Why => Ok(Asked::Why(files_of(alloc, matches)?)),
        Command::Table(choice) => Ok(Asked::Table(choice, files_of(alloc, matches)?)),
        Command::Mend(choice) => mending(alloc, choice, matches),
        Command::Redraw => redrawing(alloc, matches),
        _ => {
            let file = text_given(alloc, matches, "file")?;
            Ok(Asked::One(options_of(command, matches), file))
        }
    }
}

fn read_matches(alloc: Global, matches: &ArgMatches<'_>) -> Result<Asked, WordsError>
    requires command { IsSomeAnd (subcommand_rows_of matches.now) IsCommand }
    requires numbers { IsSomeAnd (subcommand_rows_of matches.now) (λ sub. HasNumbersOfMend sub.1) }
    ensures memory { IfErr result (λ e. e ≡ WordsError.Memory) }
    ensures ok { IfOk result (λ a. IsSomeAnd (subcommand_rows_of matches.now) (AsksAs a)) }
{
    let Some((name, found)) = matches.subcommand() else {
        unreachable!()
    };
    let Some(command) = command_named(name) else {
        unreachable!()
    };
    read_command(alloc, in_form_asked(command, found), found)
}

fn words_for_help<'a>(
    alloc: Global,
    program: &'a str,
    topic: &[&'a str],
) -> Result<Vec<&'a str>, AllocError>
    ensures { IfOk result (λ v. texts_of v.items ≡ program.now ∷ help_on (texts_of topic.now)) }
{
    match *topic {
        [] => Vec::from_slice(alloc, &[program, "--help"]),
        [name, ..] if command_named(name).is_none() => {
            Vec::from_slice(alloc, &[program, "--", name])
        }
        [command] => Vec::from_slice(alloc, &[program, command, "--help"]),
        ["why" | "mend" | "redraw" | "table", word, ..] => {
            Vec::from_slice(alloc, &[program, "--", word])
        }
        [command, word, ..] => Vec::from_slice(alloc, &[program, command, "--", command, word]),
    }
}

fn words_meant<'a>(alloc: Global, words: &[&'a str]) -> Result<Vec<&'a str>, AllocError>
    ensures { IfOk result (λ v. texts_of v.items ≡ words_meant (texts_of words.now)) }
{
    let [program, "help", topic @ ..] = words else {
        return Vec::from_slice(alloc, words);
    };
    words_for_help(alloc, program, topic)
}

/// The matches of what the words mean.
fn matches_of<'a>(alloc: Global, meant: &'a [&'a str]) -> Result<ArgMatches<'a>, WordsError>
    ensures met { IfOk result (λ m. subcommand_rows_of m ≡ subcommand_of anscheck (texts_of meant.now)) }
    ensures some { IfOk result (λ m. IsSome (subcommand_rows_of m)) }
    ensures accepted { IfOk result (λ m. fault_of anscheck (texts_of meant.now) ≡ []) }
    ensures refuses { IfErr result (λ e. takes anscheck (texts_of meant.now) ≡ true → RanOutOfMemory e) }
    ensures kinds { IfErr result (HasKindAmong (fault_of anscheck (texts_of meant.now))) }
{
    let program = match program(alloc) {
        Ok(program) => program,
        Err(error) => return Err(WordsError::Clap(clap::Error::from(error))),
    };
    Ok(program.try_get_matches_from(meant)?)
}

/// What `clap` reads in the program's words. It reads no topic.
fn read_words(alloc: Global, words: &[&str]) -> Result<Asked, WordsError>
    ensures ok { IfOk result (IsReadAs (texts_of words.now)) }
    ensures accepted { IfOk result (λ a. faults_of (texts_of words.now) ≡ []) }
    ensures errors { IfErr result (IsErrorOf (texts_of words.now)) }
{
    let Ok(meant) = words_meant(alloc, words) else {
        return Err(WordsError::Memory);
    };
    let matches = matches_of(alloc, meant.as_slice())?;
    read_matches(alloc, &matches)
}

/// Whether a first word names a file: it is no command, it is not `help`, and it does not begin with `-`.
fn names_file(word: &str) -> bool
    ensures { result ≡ names_file word.now }
{
    command_named(word).is_none() && word != "help" && !word.as_bytes().starts_with(b"-")
}

/// The words with their command: `why` before a first word that names a file.
fn words_asked<'a>(alloc: Global, words: &[&'a str]) -> Result<Vec<&'a str>, AllocError>
    ensures { IfOk result (λ v. texts_of v.items ≡ words_asked (texts_of words.now)) }
{
    match words {
        [program, word, more @ ..] if names_file(word) => {
            let mut asked = Vec::from_slice(alloc, &[*program, "why", *word])?;
            asked.extend_from_slice(more)?;
            Ok(asked)
        }
        _ => Vec::from_slice(alloc, words),
    }
}

/// The first of the commands that is at most this many edits from the word. Fails if memory runs out.
fn command_within(
    alloc: Global,
    commands: &[Command],
    most: usize,
    word: &str,
) -> Result<Option<Command>, AllocError>
    ensures { IfOk result (λ near. near ≡ find (λ c. nat_le (edits word.now (command_name c)) most) commands.now) }
{
    for command in commands {
        if levenshtein(alloc, word, command.name())? <= most {
            return Ok(Some(*command));
        }
    }
    Ok(None)
}

/// The command that may have been meant by a word: one that is one edit from it, or else two, the first in the order
/// of help. An edit puts a character in, leaves one out, or changes one. None if no command is so near. Fails if memory
/// runs out.
pub fn near_command(alloc: Global, word: &str) -> Result<Option<Command>, AllocError>
    ensures { IfOk result (λ near. near ≡ near_command word.now) }
{
    match command_within(alloc, &COMMANDS, 1, word)? {
        Some(command) => Ok(Some(command)),
        None => command_within(alloc, &COMMANDS, 2, word),
    }
}

/// Reads the program's words, its own name first: `anscheck why [FILE]..`, `anscheck mend` or `anscheck redraw` with
/// its flags and `[FILE]..`, `anscheck needs [FILE]`, `anscheck check` or `anscheck show` with its
/// flags and `[FILE]`, `anscheck sauce [FILE]`, `anscheck tokens [FILE]`, or `anscheck table` with its flags
/// and `[FILE]..`. `anscheck FILE..` is `anscheck why FILE..`: a first word that is no command, is not `help` and
/// does not begin with `-` names a file, and `why` is put before it. A file with the name of a command is given
/// as `./NAME`.
/// A part of the start is known if its flag is given, as `--known-cursor`, and all are if `--cleared`
/// is. With `show` all are known, too, if neither such a flag nor `--any` is given; with `check` `--any`
/// changes nothing. Cells are asked for if `--cells` is given. A picture comes as a page if `--html`
/// is, else in a VGA's colours if `--vga` is. A table's rows are JSON if `--json` is given, and else
/// have a line of names above them unless `--no-header` is; `--pictures` asks for checksums of the pictures. With
/// the other commands nothing is known. What may be changed to mend is what the
/// flags of `mend` name, or what the drawing's findings call for if `--suggested` is given. `--add-record` and
/// `--columns` have a number from 1 to 1024, and `--lines` one from 1 to 8192, if they are given.
///
/// What `mend` and `redraw` write goes over its input with `-i` (`--in-place`), to PATH with `-o PATH` (`--output`),
/// and else, or if PATH is `-`, to standard output; with `-n` (`--dry-run`) nothing is written. Words that contradict
/// themselves there, or do not say where files go, are `Mistaken`, with the first [`Mistake`] in the order of its
/// variants.
///
/// `help` with the name of a fault, a note or a word only, as `anscheck help F20`, asks for its meaning. These
/// words are found before `clap` reads any, need no memory, and never fail. Other words `clap` reads.
///
/// Fails if `clap` rejects the words, if they ask for help or for the version, and if memory
/// runs out. Help is asked for by `--help`, `-h`, `help` and `help COMMAND`, the version by
/// `--version` and `-V`; the error then has the text that was asked for. Except for want of memory
/// only the words decide: there is an answer exactly if they have no fault, and else the error has one
/// of the kinds that their first fault may have. To ask for help or for the version counts as a fault.
pub fn asked(alloc: Global, words: &[&str]) -> Result<Asked, WordsError>
    ensures ok { IfOk result (IsAskedBy (texts_of words.now)) }
    ensures accepted { IfOk result (λ a.
        topic_of (texts_of words.now) ≡ None → faults_of (words_asked (texts_of words.now)) ≡ []) }
    ensures errors { IfErr result (λ e.
        (topic_of (texts_of words.now) ≡ None) × IsErrorOf (words_asked (texts_of words.now)) e) }
{
    if let Some(topic) = topic_of(words) {
        return Ok(Asked::Meaning(topic));
    }
    let Ok(asked) = words_asked(alloc, words) else {
        return Err(WordsError::Memory);
    };
    read_words(alloc, asked.as_slice())
}

/// Reads the options and the file from the program's words, as [`asked`] does, and fails as it does. It reads the
/// words as they are, and puts no `why` before a file's name.
/// The file's name comes as it is given, `-` too. Of a command that takes any number of files only the options come,
/// and no name; also by words that make a [`Mistake`], and then the choice of `mend` is `Suggested` if `--suggested` is
/// given. Words that ask what a fault, a note or a word means have no options: of them comes what `clap` says, which knows no such
/// help.
pub fn options(alloc: Global, words: &[&str]) -> Result<(Options, Option<String>), WordsError>
    ensures ok { IfOk result (λ r.
        AreOptionsOf (texts_of words.now) r.0 (option_map string_bytes r.1)) }
    ensures flagless { IfOk result (λ r. takes_flags r.0.command ≡ false → r.0.start ≡ none_known) }
    ensures cells { IfOk result (λ r. r.0.command ≢ Command.Check → r.0.cells ≡ false) }
    ensures nameless { IfOk result (λ r. takes_files r.0.command ≡ true → r.1 ≡ None) }
    ensures accepted { IfOk result (λ r. faults_of (texts_of words.now) ≡ []) }
    ensures errors { IfErr result (IsErrorOf (texts_of words.now)) }
{
    match read_words(alloc, words)? {
        Asked::One(options, file) => Ok((options, file)),
        Asked::Why(_) => Ok((Options::WHY, None)),
        Asked::Table(choice, _) => Ok((Options::plain(Command::Table(choice)), None)),
        Asked::Mend(choice, _, _) => Ok((Options::plain(Command::Mend(choice)), None)),
        Asked::Redraw(_, _) => Ok((Options::plain(Command::Redraw), None)),
        Asked::Mistaken(command, _) => Ok((Options::plain(command), None)),
        Asked::Meaning(_) => unreachable!(),
    }
}
