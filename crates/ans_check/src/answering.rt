//! From the program's words to its ending.

ghost use Rattle.std.specs.Prelude.{◌≡◌, ◌≢◌, ◌++◌, [], None, false, IfSome, IsSomeAnd, is_some, not};
ghost use Rattle.std.specs.Prelude.{option_map, string_bytes, true, unwrap_or, map, Err, IfErr, IfNone, IfOk, Some};
ghost use Rattle.std.specs.List.{list_any};
ghost use Rattle.ans_model.specs.Text.Words.{texts_of};
ghost use Rattle.ans_report.specs.Message.{message_line};
ghost use Rattle.ans_table.specs.NameText.{name_text};
ghost use Rattle.ans_write.specs.Puts.{Puts};
ghost use Rattle.ans_write.specs.Tried.{has_failed};
ghost use Rattle.ans_redraw.specs.Redrawing.{TellsRedrawn};
ghost use Rattle.ans_check.specs.Answer.{Answers, EndsAfter, EndsAsTold, EndsBy, EndsListed, EndsNamed, EndsServed, EndsSo};
ghost use Rattle.ans_check.specs.Answer.{AreMendedBy, EndsExplained, EndsMend, EndsOne, EndsWhy, EndsWritten, IsAimOf};
ghost use Rattle.ans_check.specs.Answer.{EndsFiled, PrintsHelp, TellsFailure, UnlessTerminal, ending_of_table};
ghost use Rattle.ans_check.specs.Answer.{ending_of_listing, ending_of_whys, is_check, meaning_text};
ghost use Rattle.ans_check.specs.Ending.{ending_of_redrawing, ending_of_words};
ghost use Rattle.ans_check.specs.Said.{IsNamed, Says, Tells, file_counts_said, message_of, named_message, reason_said};
ghost use Rattle.ans_check.specs.Said.{said_text, unsaved_text};
ghost use Rattle.ans_check.specs.declared.errors.RunError.TheVariants.{Write};
ghost use Rattle.ans_check.specs.declared.exit_status.Ending.TheVariants.{Run};
ghost use Rattle.ans_check.specs.Answer.{SaysOf};
ghost use Rattle.ans_check.specs.Naming.{IsUnopened, first_called, front_text, is_guessed, meant_text, missing_text};
ghost use Rattle.ans_check.specs.Naming.{names_standard, reason_told, unnamed, unopened_text};

use crate::check_file::Checking;
use crate::errors::RunError;
use crate::exit_status::Ending;
use crate::fates::{Goal, goal_of};
use crate::filing::file_named;
use crate::inputs::Inputs;
use crate::listing::Listed;
use crate::naming::{
    Meant, Naming, file_called, first_of, is_guessed, name_of, naming_of, unnamed,
};
use crate::redraw_file::Redrawing;
use crate::rows::{table, table_listed};
use crate::suggesting::Suggesting;
use crate::task::{Task, serve_task};
use crate::why_rows::{explain, put_unread_counts};
use crate::why_told::Explaining;
use ans_mend::{put_mended, put_unmended};
use ans_options::{Asked, Command, MendChoice, Options, TableChoice, Topic, WordsError, asked};
use ans_redraw::{put_redrawn, put_unredrawn};
use ans_report::{Tried, fault_meaning, note_meaning};
use ans_save::{Disk, Reason, SaveError};
use ans_table::{Counts, Unopened, put_counts, put_name};
use ans_write::Outbox;
use ans_written::{FileCounts, put_file_counts};
use std::alloc::{AllocError, Global};
use std::io::Write;

/// Whether an ending says nothing on standard error.
fn says_nothing(ending: &Ending) -> bool
    ensures { result ≡ not (is_some (said_text unnamed ending.now)) }
{
    match ending {
        Ending::Run(Ok(_)) | Ending::Help | Ending::Usage => true,
        Ending::Explained(counts) => counts.unread == 0,
        Ending::Filed(counts) => counts.files <= 1,
        _ => false,
    }
}

/// Puts a name, if there is one.
fn put_word<W: Write>(out: &mut Outbox<'_, W>, name: Option<&str>)
    ensures { Puts W.contents out.old out.new (name_text (unwrap_or (option_map (λ n. n.now) name.entry) [])) }
{
    if let Some(name) = name {
        put_name(out, name.as_bytes());
    }
}

/// Puts the name of the input, if it is given, before what is said of it.
fn put_front<W: Write>(out: &mut Outbox<'_, W>, naming: &Naming<'_>)
    ensures { Puts W.contents out.old out.new (front_text naming.now) }
{
    if let Some(name) = naming.name {
        put_name(out, name.as_bytes());
        out.put(b": ");
    }
}

/// Puts what may have been meant by a word that is neither a file nor a command.
fn put_meant<W: Write>(out: &mut Outbox<'_, W>, name: Option<&str>, meant: Meant)
    ensures { Puts W.contents out.old out.new (meant_text (option_map (λ n. n.now) name.entry) meant) }
{
    match meant {
        Meant::Nothing => {}
        Meant::Command(command) => {
            out.put(b"; did you mean ");
            out.put(command.name().as_bytes());
            out.put(b"?");
        }
        Meant::Topic => {
            out.put(b"; did you mean anscheck help ");
            put_word(out, name);
            out.put(b"?");
        }
    }
}

/// Puts that a word is neither a file nor a command, and what may have been meant.
fn put_missing<W: Write>(out: &mut Outbox<'_, W>, naming: &Naming<'_>)
    ensures { Puts W.contents out.old out.new (missing_text naming.now) }
{
    out.put(b"no such file, and no such command");
    if let Ok(meant) = naming.meant {
        put_meant(out, naming.name, meant);
    }
}

/// Puts why an input of this name was not opened.
fn put_reason<W: Write>(out: &mut Outbox<'_, W>, naming: &Naming<'_>, reason: Unopened)
    ensures { Puts W.contents out.old out.new (reason_told naming.now reason) }
{
    if naming.is_word && reason.is_missing() {
        put_missing(out, naming);
        return;
    }
    out.put(reason.reason().as_bytes());
}

/// Puts why an input was not opened, after its name if that is given.
fn put_unopened<W: Write>(out: &mut Outbox<'_, W>, naming: &Naming<'_>, reason: Unopened)
    ensures { Puts W.contents out.old out.new (unopened_text naming.now reason) }
{
    if naming.name.is_some() {
        put_front(out, naming);
        put_reason(out, naming, reason);
        return;
    }
    out.put(reason.text().as_bytes());
}

/// Puts a message that speaks of the input, after its name if that is given.
pub(crate) fn put_input_message<W: Write>(out: &mut Outbox<'_, W>, naming: &Naming<'_>, text: &str)
    ensures { Puts W.contents out.old out.new (front_text naming.now ++ text.now) }
{
    put_front(out, naming);
    out.put(text.as_bytes());
}

/// Puts the system's reason why a file is not written, if there is one.
fn put_save_reason<W: Write>(out: &mut Outbox<'_, W>, reason: Option<Reason>)
    ensures { Puts W.contents out.old out.new (reason_said reason) }
{
    if let Some(reason) = reason {
        out.put(b": ");
        out.put(reason.text().as_bytes());
    }
}

/// Puts why a file is not written, after its name if that is given.
fn put_unsaved<W: Write>(out: &mut Outbox<'_, W>, naming: &Naming<'_>, error: SaveError)
    ensures { Puts W.contents out.old out.new (unsaved_text naming.now error) }
{
    put_front(out, naming);
    out.put(b"not written: ");
    out.put(error.text().as_bytes());
    put_save_reason(out, error.reason());
}

/// Puts how many of several files became what.
fn put_counts_of_files<W: Write>(out: &mut Outbox<'_, W>, counts: &FileCounts)
    ensures { Puts W.contents out.old out.new (unwrap_or (file_counts_said counts.now) []) }
{
    if counts.files <= 1 {
        return;
    }
    put_file_counts(out, counts);
}

/// Puts the message of an ending, which has this text if no name is given.
fn put_named_message<W: Write>(
    out: &mut Outbox<'_, W>,
    naming: &Naming<'_>,
    ending: &Ending,
    text: &str,
)
    ensures { Puts W.contents out.old out.new (named_message naming.now ending.now text.now) }
{
    match ending {
        Ending::UnopenedFile(reason) => put_unopened(out, naming, *reason),
        Ending::Run(Err(RunError::Read)) => put_input_message(out, naming, text),
        Ending::Run(Err(RunError::TooLong)) => put_input_message(out, naming, text),
        Ending::Unsaved(error) => put_unsaved(out, naming, *error),
        _ => out.put(text.as_bytes()),
    }
}

/// Puts the message of an ending, if it has one, as a line after `anscheck: `.
fn put_ending_message<W: Write>(out: &mut Outbox<'_, W>, naming: &Naming<'_>, ending: &Ending)
    ensures { Puts W.contents out.old out.new
        (unwrap_or (option_map message_line (message_of naming.now ending.now)) []) }
{
    if let Some(text) = ending.message() {
        out.put(b"anscheck: ");
        put_named_message(out, naming, ending, text);
        out.put(b"\n");
    }
}

/// Puts what an ending says on standard error, if anything.
pub(crate) fn put_said<E: Write>(out: &mut Outbox<'_, E>, naming: &Naming<'_>, ending: &Ending)
    ensures { Puts E.contents out.old out.new (unwrap_or (said_text naming.now ending.now) []) }
{
    match ending {
        Ending::Table(counts) => put_counts(out, counts),
        Ending::Explained(counts) => put_unread_counts(out, counts),
        Ending::Filed(counts) => put_counts_of_files(out, counts),
        Ending::Mended(mended) => put_mended(out, mended),
        Ending::NotMended(asked, unhelped) => {
            put_unmended(out, asked, &unhelped.without_help, &unhelped.reason)
        }
        Ending::Redrawn(redrawn) => put_redrawn(out, redrawn),
        Ending::NotRedrawn(reason) => put_unredrawn(out, reason),
        _ => put_ending_message(out, naming, ending),
    }
}

/// Says why there is no answer, if there is none: `anscheck: ` and the ending's message, with the name of the input
/// if it is given; of a table how many files came out how; and of a file that was to be mended or redrawn what was
/// changed of it, or why it is not. What is wrong with rejected words is `clap`'s to say.
pub(crate) fn say<E: Write>(errors: &mut Tried<E>, naming: &Naming<'_>, ending: Ending)
    requires { has_failed errors.old ≡ false }
    ensures { Says E.contents errors.old errors.new naming.now ending }
{
    if says_nothing(&ending) {
        return;
    }
    let mut out = Outbox::new(errors);
    put_said(&mut out, naming, &ending);
    let _ = out.finish();
}

/// The input that the words name: standard input if they name none, or `-`. `Err` says why the file cannot be
/// opened.
pub(crate) fn input_named<I: Inputs>(inputs: I, name: Option<&str>) -> Result<I::Reader, Unopened>
    ensures some { IfOk result (IsNamed (I.is_file inputs) (I.is_standard inputs)
        (option_map (λ n. n.now) name.entry)) }
    ensures none { IfErr result (λ reason. IsSomeAnd (option_map (λ n. n.now) name.entry)
        (λ file. (names_standard file ≡ false) × IsUnopened (I.fails inputs) file reason)) }
{
    match name {
        Some(name) if name != "-" => match inputs.file(name) {
            Ok(input) => Ok(input),
            Err(error) => Err(Unopened::of(&error)),
        },
        _ => Ok(inputs.standard()),
    }
}

/// Prints a help text. Where the output fails, there is no answer.
fn print_help<W: Write>(output: &mut Tried<W>, text: &str) -> Ending
    requires { has_failed output.old ≡ false }
    ensures ends { PrintsHelp W.contents output.old output.new text.now result }
    ensures write { TellsFailure output.new result }
{
    if output.write_all(text.as_bytes()).is_err() || output.flush().is_err() {
        return Ending::Run(Err(RunError::Write));
    }
    Ending::Help
}

/// Says what is wrong with rejected words.
fn tell_usage<E: Write>(errors: &mut Tried<E>, text: &str)
    requires { has_failed errors.old ≡ false }
    ensures { Tells E.contents errors.old errors.new text.now }
{
    let _ = errors.write_all(text.as_bytes());
}

/// Prints `clap`'s text where the words have one: help on the output, and what is wrong with the
/// words on the errors.
fn refuse_words<W: Write, E: Write>(
    alloc: Global,
    refusal: &WordsError,
    output: &mut Tried<W>,
    errors: &mut Tried<E>,
) -> Ending
    requires prints { has_failed output.old ≡ false }
    requires tells { has_failed errors.old ≡ false }
    ensures ends { EndsAfter W.contents (ending_of_words refusal.now) output.old output.new result }
    ensures told { result ≡ Ending.Usage → Says E.contents errors.old errors.new unnamed result }
    ensures untold { result ≢ Ending.Usage → errors.new ≡ errors.old }
    ensures write { TellsFailure output.new result }
{
    let ending = Ending::of_words(refusal);
    let (WordsError::Clap(error), Ending::Help | Ending::Usage) = (refusal, ending) else {
        return ending;
    };
    let Ok(text) = format!(in alloc; "{error}") else {
        return Ending::UnreadableWords;
    };
    if ending == Ending::Help {
        return print_help(output, text.as_str());
    }
    tell_usage(errors, text.as_str());
    ending
}

/// A view of each name.
fn byte_views<'a>(alloc: Global, names: &'a [String]) -> Result<Vec<&'a [u8]>, AllocError>
    ensures { IfOk result (λ views. texts_of views.items ≡ map string_bytes names.now) }
{
    let mut views = Vec::new(alloc);
    for name in names {
        views.push(name.as_bytes())?;
    }
    Ok(views)
}

fn names_input(names: &[String]) -> bool
    ensures { result ≡ list_any names_standard (map string_bytes names.now) }
{
    for name in names {
        if name.as_str() == "-" {
            return true;
        }
    }
    false
}

/// How a table of named files ends.
fn end_of_table(counts: Result<Counts, RunError>) -> Ending
    ensures { result ≡ ending_of_table counts }
{
    match counts {
        Ok(counts) => Ending::Table(counts),
        Err(error) => Ending::Run(Err(error)),
    }
}

/// How a table ends of files whose names standard input gives.
fn end_of_listing(listed: Result<Listed, RunError>) -> Ending
    ensures { result ≡ ending_of_listing listed }
{
    match listed {
        Ok(listed) if listed.whole => Ending::Table(listed.counts),
        Ok(_) => Ending::UnreadNames,
        Err(error) => Ending::Run(Err(error)),
    }
}

/// How `why` of several files ends.
fn end_of_whys(counts: Result<Counts, RunError>) -> Ending
    ensures { result ≡ ending_of_whys counts }
{
    match counts {
        Ok(counts) => Ending::Explained(counts),
        Err(error) => Ending::Run(Err(error)),
    }
}

/// Why the first file cannot be opened, if its name was perhaps meant as a command.
fn mistaken<I: Inputs>(inputs: I, words: &[&str], names: &[String]) -> Option<Unopened>
    ensures some { IfSome result (λ reason.
        (is_guessed (texts_of words.now) (first_called (map string_bytes names.now)) ≡ true)
        × IsSomeAnd (first_called (map string_bytes names.now))
        (λ file. (names_standard file ≡ false) × IsUnopened (I.fails inputs) file reason)) }
    ensures none { IfNone result
        (is_guessed (texts_of words.now) (first_called (map string_bytes names.now)) ≡ true
        → (reader : I.Reader) × IsNamed (I.is_file inputs) (I.is_standard inputs)
        (first_called (map string_bytes names.now)) reader) }
{
    let first = first_of(names);
    if !is_guessed(words, first) {
        return None;
    }
    match input_named(inputs, first) {
        Ok(_) => None,
        Err(reason) => Some(reason),
    }
}

/// Writes what is wrong with each of several files.
fn serve_whys<I: Inputs, W: Write>(
    alloc: Global,
    inputs: I,
    words: &[&str],
    names: &[String],
    output: &mut Tried<W>,
) -> Ending
    requires { has_failed output.old ≡ false }
    ensures ends { EndsExplained I.Reader.remaining W.contents (I.is_file inputs) (I.is_standard inputs)
        (I.fails inputs) (texts_of words.now) (map string_bytes names.now) output.old output.new result }
    ensures write { TellsFailure output.new result }
{
    if names_input(names) {
        return Ending::InputAmong;
    }
    if let Some(reason) = mistaken(inputs, words, names) {
        return Ending::UnopenedFile(reason);
    }
    match byte_views(alloc, names) {
        Ok(views) => end_of_whys(explain(alloc, inputs, views.as_slice(), output)),
        Err(AllocError) => Ending::Run(Err(RunError::Memory)),
    }
}

/// Writes what is wrong with the files that the words name, or with standard input if they name none.
fn serve_why<I: Inputs, W: Write>(
    alloc: Global,
    inputs: I,
    words: &[&str],
    names: &[String],
    output: &mut Tried<W>,
) -> Ending
    requires { has_failed output.old ≡ false }
    ensures ends { EndsWhy I.Reader.remaining W.contents (I.is_file inputs) (I.is_standard inputs)
        (I.fails inputs) (texts_of words.now) (map string_bytes names.now) output.old output.new result }
    ensures write { TellsFailure output.new result }
{
    if names.len() > 1 {
        return serve_whys(alloc, inputs, words, names, output);
    }
    let name = first_of(names);
    let explaining = Explaining {
        name: file_called(name),
    };
    serve_one(alloc, inputs, &explaining, name, output)
}

/// Writes the table of the files that the words name.
fn serve_names<I: Inputs, W: Write>(
    alloc: Global,
    inputs: I,
    names: &[String],
    choice: &TableChoice,
    output: &mut Tried<W>,
) -> Ending
    requires { has_failed output.old ≡ false }
    ensures ends { EndsNamed W.contents I.Reader.remaining (I.is_file inputs) (I.fails inputs) choice.now
        (map string_bytes names.now) output.old output.new result }
    ensures write { TellsFailure output.new result }
{
    if names_input(names) {
        return Ending::NamedInput;
    }
    match byte_views(alloc, names) {
        Ok(views) => end_of_table(table(alloc, inputs, views.as_slice(), choice, output)),
        Err(AllocError) => Ending::Run(Err(RunError::Memory)),
    }
}

/// Writes the table of the files that standard input names.
fn serve_input<I: Inputs, W: Write>(
    alloc: Global,
    inputs: I,
    choice: &TableChoice,
    output: &mut Tried<W>,
) -> Ending
    requires { has_failed output.old ≡ false }
    ensures ends { EndsListed I.Reader.remaining W.contents (I.is_standard inputs)
        (I.is_file inputs) (I.fails inputs) choice.now output.old output.new result }
    ensures write { TellsFailure output.new result }
{
    let mut reader = Tried::new(inputs.standard());
    end_of_listing(table_listed(alloc, inputs, &mut reader, choice, output))
}

/// Writes the table that the words ask for.
fn serve_table<I: Inputs, W: Write>(
    alloc: Global,
    inputs: I,
    names: &[String],
    choice: &TableChoice,
    output: &mut Tried<W>,
) -> Ending
    requires { has_failed output.old ≡ false }
    ensures ends { EndsBy I.Reader.remaining W.contents (I.is_standard inputs)
        (I.is_file inputs) (I.fails inputs) choice.now
        (map string_bytes names.now) output.old output.new result }
    ensures write { TellsFailure output.new result }
{
    if names.is_empty() {
        return serve_input(alloc, inputs, choice, output);
    }
    serve_names(alloc, inputs, names, choice, output)
}

/// Does a task on the input that the words name.
fn serve_one<T: Task, I: Inputs, W: Write>(
    alloc: Global,
    inputs: I,
    task: &T,
    name: Option<&str>,
    output: &mut Tried<W>,
) -> Ending
    requires { has_failed output.old ≡ false }
    ensures ends { EndsServed I.Reader.remaining W.contents (I.is_file inputs) (I.is_standard inputs)
        (I.fails inputs) (T.tells task.now) (T.ending_of task.now) (option_map (λ n. n.now) name.entry)
        output.old output.new result }
    ensures write { TellsFailure output.new result }
{
    let input = match input_named(inputs, name) {
        Ok(input) => input,
        Err(reason) => return Ending::UnopenedFile(reason),
    };
    let mut reader = Tried::new(input);
    task.ending(&serve_task(alloc, &mut reader, output, task))
}

/// Whether a command is `check`.
fn is_check(command: &Command) -> bool
    ensures { result ≡ is_check command.now }
{
    matches!(command, Command::Check)
}

/// Does one command on the input that the words name.
fn serve_command<I: Inputs, W: Write>(
    alloc: Global,
    inputs: I,
    options: &Options,
    name: Option<&str>,
    output: &mut Tried<W>,
) -> Ending
    requires { has_failed output.old ≡ false }
    ensures ends { EndsOne I.Reader.remaining W.contents (I.is_file inputs) (I.is_standard inputs)
        (I.fails inputs) options.now (option_map (λ n. n.now) name.entry) output.old output.new result }
    ensures write { TellsFailure output.new result }
{
    if !is_check(&options.command) {
        return serve_one(alloc, inputs, options, name, output);
    }
    let checking = Checking {
        start: options.start,
        cells: options.cells,
    };
    serve_one(alloc, inputs, &checking, name, output)
}

/// What a fault, a note or a word means.
fn meaning_text(topic: Topic) -> &'static str
    ensures { result.now ≡ meaning_text topic }
{
    match topic {
        Topic::Fault(cause) => fault_meaning(&cause),
        Topic::Note(note) => note_meaning(note),
        Topic::Word(word) => word.text(),
    }
}

/// Mends the input that the words name, by flags or by its own findings.
fn serve_choice<I: Inputs, W: Write>(
    alloc: Global,
    inputs: I,
    choice: &MendChoice,
    name: Option<&str>,
    output: &mut Tried<W>,
) -> Ending
    requires { has_failed output.old ≡ false }
    ensures ends { EndsMend I.Reader.remaining W.contents (I.is_file inputs) (I.is_standard inputs)
        (I.fails inputs) choice.now (option_map (λ n. n.now) name.entry) output.old output.new result }
    ensures write { TellsFailure output.new result }
{
    match choice {
        MendChoice::Flags(mends) => serve_one(alloc, inputs, mends, name, output),
        MendChoice::Suggested => serve_one(alloc, inputs, &Suggesting, name, output),
    }
}

/// The same, unless the output is a terminal.
fn serve_mend<I: Inputs, W: Write>(
    alloc: Global,
    inputs: I,
    is_terminal: bool,
    choice: &MendChoice,
    names: &[String],
    output: &mut Tried<W>,
) -> Ending
    requires { has_failed output.old ≡ false }
    ensures ends { UnlessTerminal is_terminal output.old output.new result
        (EndsMend I.Reader.remaining W.contents (I.is_file inputs) (I.is_standard inputs)
        (I.fails inputs) choice.now (first_called (map string_bytes names.now)) output.old output.new result) }
    ensures write { TellsFailure output.new result }
{
    if is_terminal {
        return Ending::ToTerminal;
    }
    serve_choice(alloc, inputs, choice, first_of(names), output)
}

/// Redraws the input that the words name, unless the output is a terminal.
fn serve_redraw<I: Inputs, W: Write>(
    alloc: Global,
    inputs: I,
    is_terminal: bool,
    names: &[String],
    output: &mut Tried<W>,
) -> Ending
    requires { has_failed output.old ≡ false }
    ensures ends { UnlessTerminal is_terminal output.old output.new result
        (EndsServed I.Reader.remaining W.contents (I.is_file inputs) (I.is_standard inputs)
        (I.fails inputs) TellsRedrawn ending_of_redrawing (first_called (map string_bytes names.now))
        output.old output.new result) }
    ensures write { TellsFailure output.new result }
{
    if is_terminal {
        return Ending::ToTerminal;
    }
    serve_one(alloc, inputs, &Redrawing, first_of(names), output)
}

/// Does what the words ask for, without writing a file.
fn serve_asked<I: Inputs, W: Write>(
    alloc: Global,
    inputs: I,
    is_terminal: bool,
    words: &[&str],
    asked: &Asked,
    output: &mut Tried<W>,
) -> Ending
    requires { has_failed output.old ≡ false }
    ensures ends { EndsAsTold I.Reader.remaining W.contents (I.is_file inputs) (I.is_standard inputs)
        (I.fails inputs) is_terminal (texts_of words.now) asked.now output.old output.new result }
    ensures write { TellsFailure output.new result }
{
    match asked {
        Asked::One(options, name) => serve_command(alloc, inputs, options, name_of(name), output),
        Asked::Why(names) => serve_why(alloc, inputs, words, names.as_slice(), output),
        Asked::Mend(choice, _, names) => {
            serve_mend(alloc, inputs, is_terminal, choice, names.as_slice(), output)
        }
        Asked::Redraw(_, names) => {
            serve_redraw(alloc, inputs, is_terminal, names.as_slice(), output)
        }
        Asked::Table(choice, names) => {
            serve_table(alloc, inputs, names.as_slice(), choice, output)
        }
        Asked::Mistaken(_, mistake) => Ending::Mistaken(*mistake),
        Asked::Meaning(topic) => print_help(output, meaning_text(*topic)),
    }
}

/// Does what the words ask for, without writing a file, and says what its ending says.
fn tell_asked<I: Inputs, W: Write, E: Write>(
    alloc: Global,
    words: &[&str],
    inputs: I,
    is_terminal: bool,
    asked: &Asked,
    output: &mut Tried<W>,
    errors: &mut Tried<E>,
) -> Ending
    requires prints { has_failed output.old ≡ false }
    requires tells { has_failed errors.old ≡ false }
    ensures ends { EndsAsTold I.Reader.remaining W.contents (I.is_file inputs) (I.is_standard inputs)
        (I.fails inputs) is_terminal (texts_of words.now) asked.now output.old output.new result }
    ensures says { SaysOf E.contents errors.old errors.new (texts_of words.now) asked.now result }
    ensures write { TellsFailure output.new result }
{
    let ending = serve_asked(alloc, inputs, is_terminal, words, asked, output);
    let naming = naming_of(alloc, words, asked, &ending);
    say(errors, &naming, ending);
    ending
}

/// Where files go that are asked for. None if none is written.
fn aim_of(asked: &Asked) -> Option<Goal<'_>>
    ensures { IsAimOf asked.now result }
{
    match asked {
        Asked::Mend(_, writing, _) => goal_of(writing),
        Asked::Redraw(writing, _) => goal_of(writing),
        _ => None,
    }
}

/// Mends files, by flags or each by its own findings, and writes them by a goal.
fn file_mended<I: Inputs, D: Disk, E: Write>(
    alloc: Global,
    inputs: I,
    disk: &mut D,
    choice: &MendChoice,
    goal: Goal<'_>,
    names: &[String],
    errors: &mut Tried<E>,
) -> Ending
    ensures filed { AreMendedBy I.Reader.remaining E.contents (I.is_file inputs) (I.is_standard inputs) (I.fails inputs)
        D.did D.leads D.sees D.fails D.opens D.identifies choice.now goal.entry (map string_bytes names.now)
        disk.old disk.new errors.old errors.new result }
    ensures write { result ≢ Run (Err Write) }
{
    match choice {
        MendChoice::Flags(mends) => file_named(alloc, inputs, disk, mends, goal, names, errors),
        MendChoice::Suggested => {
            file_named(alloc, inputs, disk, &Suggesting, goal, names, errors)
        }
    }
}

/// Mends or redraws files, and writes them by the goal of what is asked.
fn file_asked<I: Inputs, D: Disk, E: Write>(
    alloc: Global,
    inputs: I,
    disk: &mut D,
    asked: &Asked,
    goal: Goal<'_>,
    errors: &mut Tried<E>,
) -> Ending
    requires { IsAimOf asked.now (Some goal) }
    ensures filed { EndsFiled I.Reader.remaining E.contents (I.is_file inputs) (I.is_standard inputs) (I.fails inputs)
        D.did D.leads D.sees D.fails D.opens D.identifies asked.now goal.entry disk.old disk.new errors.old errors.new
        result }
    ensures write { result ≢ Run (Err Write) }
{
    match asked {
        Asked::Mend(choice, _, names) => {
            file_mended(alloc, inputs, disk, choice, goal, names.as_slice(), errors)
        }
        Asked::Redraw(_, names) => {
            file_named(
                alloc,
                inputs,
                disk,
                &Redrawing,
                goal,
                names.as_slice(),
                errors,
            )
        }
        _ => unreachable!(),
    }
}

/// Does what the words ask for, and says what comes of it.
fn answer_asked<I: Inputs, D: Disk, W: Write, E: Write>(
    alloc: Global,
    words: &[&str],
    inputs: I,
    disk: &mut D,
    is_terminal: bool,
    asked: &Asked,
    output: &mut Tried<W>,
    errors: &mut Tried<E>,
) -> Ending
    requires prints { has_failed output.old ≡ false }
    requires tells { has_failed errors.old ≡ false }
    ensures answers { Answers I.Reader.remaining W.contents E.contents (I.is_file inputs) (I.is_standard inputs)
        (I.fails inputs) D.did D.leads D.sees D.fails D.opens D.identifies is_terminal (texts_of words.now) asked.now
        disk.old disk.new output.old output.new errors.old errors.new result }
    ensures write { TellsFailure output.new result }
{
    match aim_of(asked) {
        Some(goal) => file_asked(alloc, inputs, disk, asked, goal, errors),
        None => tell_asked(alloc, words, inputs, is_terminal, asked, output, errors),
    }
}

/// Says why the words ask for nothing.
fn answer_refused<W: Write, E: Write>(
    alloc: Global,
    refusal: &WordsError,
    output: &mut Tried<W>,
    errors: &mut Tried<E>,
) -> Ending
    requires prints { has_failed output.old ≡ false }
    requires tells { has_failed errors.old ≡ false }
    ensures ends { EndsAfter W.contents (ending_of_words refusal.now) output.old output.new result }
    ensures says { Says E.contents errors.old errors.new unnamed result }
    ensures write { TellsFailure output.new result }
{
    let ending = refuse_words(alloc, refusal, output, errors);
    if ending != Ending::Usage {
        say(errors, &unnamed(), ending);
    }
    ending
}

/// Answers the program's words, its own name first: reads the input that they name, which is
/// standard input if they name none or `-`, and writes what they ask for to `output`. With several files of `why`
/// each answer comes after a line with the file's name. For a table it reads all files that they name, or those whose
/// names are on standard input, each ended by 00h, and each before the next name is waited for. On `errors` it says why
/// there is no answer: `anscheck: ` and the ending's message, with the file's name and the system's reason except for
/// `check`, `sauce` and `tokens`; or `clap`'s text if the words are rejected. After a check that refuses the file for a
/// fault of what is unknown of the start, F22 to F25, it says there that `why` knows more. If help is asked for, its text goes to `output`. Which text
/// `clap` gives is promised nowhere and only tested; so is it that `output` is flushed after its text. If the words ask
/// what a fault, a note or a word means, as `help F20`, its text goes there by itself: that takes no memory and
/// reads no input.
///
/// If the words ask for a file to be mended, `output` has the mended file, and then `errors` what was
/// changed of it, a line for each kind of change; or nothing was written, and `errors` has the reason. So it is
/// if they ask for a file to be redrawn. With `--suggested` a file is mended by the flags of the line `fix:` that `why`
/// has for it, and by no flags if it has no such line. If `output` is a terminal, nothing is read.
///
/// If they say where files go, with `-o` or `-i`, each is mended or redrawn in memory, in their order, and then written
/// to the disk by [`ans_save::save`]; an unchanged one is copied by `-o` and left as it is by `-i`. With `-n` nothing is
/// asked of the disk. `errors` has what was changed of each, or why it was not mended, read or written, and of several
/// at last how many became what; with several the name comes before each line. Nothing else is done to the disk.
///
/// The ending is that of the run; `MayPassCleared` if a check refuses the file for such a fault; `Explained` for `why`
/// of several files; `Mended` or `NotMended` if a file was to be mended to `output`, `Redrawn` or `NotRedrawn` if one
/// was to be redrawn, and `ToTerminal` if that is a terminal; `Filed`, with what became of them, if files were to be
/// written; `Mistaken` if the words contradict themselves; `UnopenedFile` if the named file cannot
/// be opened; and if the words give no options, what their error says, or `UnreadableWords` if there is no memory for
/// its text. Of a table it is `Table`, with how its files came out; `NamedInput` if `-` is among the names, and
/// `InputAmong` if it is among several files of `why`; `UnreadNames` if standard input fails before the names end; and
/// `Run(Err(Memory))` if there is no memory for the names or for the text of a JSON row.
/// `Run(Err(Write))` comes exactly if `output` fails. What fails on `errors` changes no ending.
pub fn answer<I: Inputs, D: Disk, W: Write, E: Write>(
    alloc: Global,
    words: &[&str],
    inputs: I,
    disk: &mut D,
    is_terminal: bool,
    output: &mut Tried<W>,
    errors: &mut Tried<E>,
) -> Ending
    requires prints { has_failed output.old ≡ false }
    requires tells { has_failed errors.old ≡ false }
    ensures ends { EndsSo I.Reader.remaining W.contents E.contents (I.is_file inputs) (I.is_standard inputs)
        (I.fails inputs) D.did D.leads D.sees D.fails D.opens D.identifies is_terminal (texts_of words.now)
        disk.old disk.new output.old output.new errors.old errors.new result }
    ensures write { TellsFailure output.new result }
{
    match asked(alloc, words) {
        Ok(asked) => answer_asked(
            alloc,
            words,
            inputs,
            disk,
            is_terminal,
            &asked,
            output,
            errors,
        ),
        Err(refusal) => answer_refused(alloc, &refusal, output, errors),
    }
}
