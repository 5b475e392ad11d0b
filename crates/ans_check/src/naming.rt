//! What standard error calls the input.

ghost use Rattle.std.specs.Prelude.{◌≡◌, false, IfOk, Some, map, option_map, string_bytes};
ghost use Rattle.std.specs.List.{list_any};
ghost use Rattle.ans_model.specs.Text.Words.{texts_of};
ghost use Rattle.ans_check.specs.Naming.{IsNaming, file_called, first_called, is_dot_or_slash, is_left_out};
ghost use Rattle.ans_check.specs.Naming.{is_guessed, is_word, meant_by, name_called, tells_reason, unnamed};

use crate::exit_status::Ending;
use ans_options::{Asked, Command, explains, near_command};
use ans_table::Unopened;
use std::alloc::{AllocError, Global};

/// What may have been meant by a word that is neither a file nor a command.
#[derive(Debug, Clone, Copy, PartialEq, Eq)]
pub enum Meant {
    /// Nothing that is known.
    Nothing,
    /// A command with a name that is near.
    Command(Command),
    /// Help on the word.
    Topic,
}

/// What standard error calls the input.
#[derive(Debug, Clone, Copy)]
pub struct Naming<'a> {
    /// The name of the file, if it is given.
    pub name: Option<&'a str>,
    /// Whether the name is a word that may have been meant as a command.
    pub is_word: bool,
    /// What may have been meant by such a word if there is no file of its name. `Err` if memory ran out.
    pub meant: Result<Meant, AllocError>,
}

/// No name is given.
pub(crate) fn unnamed() -> Naming<'static>
    ensures { result ≡ unnamed }
{
    Naming {
        name: None,
        is_word: false,
        meant: Ok(Meant::Nothing),
    }
}

/// This name is given, unless it is that of standard input.
pub(crate) fn called(name: &str) -> Naming<'_>
    ensures name { option_map (λ n. n.now) result.name ≡ file_called (Some name.now) }
    ensures unguessed { result.is_word ≡ false }
{
    Naming {
        name: file_called(Some(name)),
        is_word: false,
        meant: Ok(Meant::Nothing),
    }
}

/// Whether a command's messages give the name and the reason: those of `check`, `sauce` and `tokens` do not.
pub(crate) fn tells_reason(command: Command) -> bool
    ensures { result ≡ tells_reason command }
{
    !matches!(command, Command::Check | Command::Sauce | Command::Tokens)
}

/// The name of an input, unless it is standard input.
pub(crate) fn file_called(name: Option<&str>) -> Option<&str>
    ensures { option_map (λ n. n.now) result ≡ file_called (option_map (λ n. n.now) name.entry) }
{
    match name {
        Some("-") | None => None,
        Some(name) => Some(name),
    }
}

/// A view of a name.
pub(crate) fn name_of(name: &Option<String>) -> Option<&str>
    ensures { option_map (λ n. n.now) result ≡ option_map string_bytes name.now }
{
    match name {
        Some(name) => Some(name.as_str()),
        None => None,
    }
}

/// A view of each text.
pub(crate) fn views<'a>(alloc: Global, texts: &'a [String]) -> Result<Vec<&'a str>, AllocError>
    ensures { IfOk result (λ words. texts_of words.items ≡ map string_bytes texts.now) }
{
    let mut words = Vec::new(alloc);
    for text in texts {
        words.push(text.as_str())?;
    }
    Ok(words)
}

/// A view of the first name.
pub(crate) fn first_of(names: &[String]) -> Option<&str>
    ensures { option_map (λ n. n.now) result ≡ first_called (map string_bytes names.now) }
{
    match names {
        [name, ..] => Some(name.as_str()),
        [] => None,
    }
}

/// The name that messages give of what is asked for.
fn name_called(asked: &Asked) -> Option<&str>
    ensures { option_map (λ n. n.now) result ≡ name_called asked.now }
{
    match asked {
        Asked::One(options, name) => {
            if tells_reason(options.command) {
                file_called(name_of(name))
            } else {
                None
            }
        }
        Asked::Why(names) | Asked::Mend(_, _, names) | Asked::Redraw(_, names) => {
            file_called(first_of(names.as_slice()))
        }
        Asked::Table(..) | Asked::Mistaken(..) | Asked::Meaning(_) => None,
    }
}

/// Whether the words have no command, so that the first of them is a file's name: `why` was put before it.
fn is_left_out(words: &[&str]) -> bool
    ensures { result ≡ is_left_out (texts_of words.now) }
{
    match words {
        [_, word, ..] => *word != Command::Why.name(),
        _ => false,
    }
}

fn has_dot_or_slash(bytes: &[u8]) -> bool
    ensures { result ≡ list_any is_dot_or_slash bytes.now }
{
    bytes.iter().any(|byte| *byte == b'.' || *byte == b'/')
}

/// Whether a name may have been meant as a command: it has neither a dot nor a slash.
fn is_word(name: Option<&str>) -> bool
    ensures { result ≡ is_word (option_map (λ n. n.now) name.entry) }
{
    match name {
        Some(name) => !has_dot_or_slash(name.as_bytes()),
        None => false,
    }
}

/// Whether a name may have been meant as a command: the words have none, and the name has neither a dot nor a slash.
pub(crate) fn is_guessed(words: &[&str], name: Option<&str>) -> bool
    ensures { result ≡ is_guessed (texts_of words.now) (option_map (λ n. n.now) name.entry) }
{
    is_left_out(words) && is_word(name)
}

/// What may have been meant by a word that is neither a file nor a command. Fails if memory runs out.
fn meant_by(alloc: Global, word: &str) -> Result<Meant, AllocError>
    ensures { IfOk result (λ meant. meant ≡ meant_by word.now) }
{
    match near_command(alloc, word)? {
        Some(command) => Ok(Meant::Command(command)),
        None if explains(word) => Ok(Meant::Topic),
        None => Ok(Meant::Nothing),
    }
}

/// What an ending calls the input of what the words ask for.
pub(crate) fn naming_of<'a>(
    alloc: Global,
    words: &[&str],
    asked: &'a Asked,
    ending: &Ending,
) -> Naming<'a>
    ensures { IsNaming (texts_of words.now) asked.now ending.now result }
{
    let name = name_called(asked);
    let is_word = matches!(asked, Asked::Why(_)) && is_guessed(words, name);
    let meant = match (name, ending) {
        (Some(word), Ending::UnopenedFile(Unopened::Missing)) if is_word => meant_by(alloc, word),
        _ => Ok(Meant::Nothing),
    };
    Naming {
        name,
        is_word,
        meant,
    }
}
