//! The last words of a command that writes a fixed file.

ghost use Rattle.std.specs.Prelude.{◌≡◌, IfOk, Some, option_map};
ghost use Rattle.ans_write.specs.Puts.{Puts};
ghost use Rattle.ans_check.specs.LastWords.{last_words, names_words, words_text};

use ans_save::fixed_name;
use ans_table::{can_be_typed, put_shell_word};
use ans_write::Outbox;
use std::alloc::{AllocError, Global};
use std::io::Write;

/// The last words of a command that writes a fixed file.
#[derive(Drop)]
pub(crate) enum LastWords<'a> {
    /// None: standard input has no name.
    Unnamed,
    /// Words in the place of names that cannot be typed.
    StandIns,
    /// The name of the fixed file, and that of the file.
    Names(String, &'a str),
}

fn put_names<W: Write>(out: &mut Outbox<'_, W>, fixed: &str, file: &str)
    ensures { Puts W.contents out.old out.new (names_words fixed.now file.now) }
{
    out.put(b" -o ");
    put_shell_word(out, fixed.as_bytes());
    out.put(b" ");
    put_shell_word(out, file.as_bytes());
}

impl<'a> LastWords<'a> {
    /// Those for the file of this name. `Err` comes if there is no memory for the name of the fixed file.
    fn of_file(alloc: Global, file: &'a str) -> Result<LastWords<'a>, AllocError>
        ensures { IfOk result (λ words. words_text words ≡ last_words (Some file.now)) }
    {
        if !can_be_typed(file.as_bytes()) {
            return Ok(LastWords::StandIns);
        }
        let fixed = fixed_name(alloc, file)?;
        Ok(LastWords::Names(fixed, file))
    }

    /// Those for the file of this name, or for standard input, which has none. `Err` comes if there is no memory for
    /// the name of the fixed file.
    pub(crate) fn of(alloc: Global, name: Option<&'a str>) -> Result<LastWords<'a>, AllocError>
        ensures { IfOk result (λ words. words_text words ≡ last_words (option_map (λ n. n.now) name.entry)) }
    {
        match name {
            Some(file) => LastWords::of_file(alloc, file),
            None => Ok(LastWords::Unnamed),
        }
    }

    /// Those for the file whose name has these bytes. `Err` comes if there is no memory for the name of the fixed file.
    pub(crate) fn of_bytes(alloc: Global, name: &'a [u8]) -> Result<LastWords<'a>, AllocError>
        ensures { IfOk result (λ words. words_text words ≡ last_words (Some name.now)) }
    {
        match std::str::from_utf8(name) {
            Ok(file) => LastWords::of_file(alloc, file),
            Err(_) => Ok(LastWords::StandIns),
        }
    }

    /// Puts them, each after a blank.
    pub(crate) fn put<W: Write>(&self, out: &mut Outbox<'_, W>)
        ensures { Puts W.contents out.old out.new (words_text self.now) }
    {
        match self {
            LastWords::Unnamed => {}
            LastWords::StandIns => out.put(b" -o FIXED FILE"),
            LastWords::Names(fixed, file) => put_names(out, fixed.as_str(), file),
        }
    }
}
