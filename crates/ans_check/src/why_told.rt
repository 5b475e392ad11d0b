//! What `why` says of a file.

ghost use Rattle.std.specs.Prelude.{◌≡◌, ◌++◌, codes, option_map};
ghost use Rattle.ans_model.specs.Text.RecordText.{named_line};
ghost use Rattle.ans_check.specs.LastWords.{words_text};
ghost use Rattle.ans_check.specs.WhyTold.{ReportsTold, command_line, everywhere_line, last_lines, mends_of_pass};
ghost use Rattle.ans_check.specs.WhyTold.{more_line, pass_lines, refused_lines, told_text};
ghost use Rattle.ans_check.specs.declared.exit_status.Ending.TheVariants.{Run};
ghost use Rattle.ans_write.specs.Puts.{Puts};

use crate::errors::RunError;
use crate::exit_status::Ending;
use crate::last_words::LastWords;
use crate::pipeline::tell_why;
use crate::task::Task;
use ans_fix::put_flags;
use ans_kinds::Players;
use ans_model::fault::Cause;
use ans_model::mends::Mends;
use ans_sauce::Judged;
use ans_why::{Pass, Reliance, Why, put_why};
use ans_write::Outbox;
use std::alloc::{AllocError, Global};
use std::io::Write;

/// Puts the command that mends a file, if there is one.
fn put_command_line<W: Write>(out: &mut Outbox<'_, W>, words: &LastWords<'_>, fix: &Option<Mends>)
    ensures { Puts W.contents out.old out.new (command_line (words_text words.now) fix.now) }
{
    if let Some(mends) = fix {
        out.put(b"fix: anscheck mend");
        put_flags(out, mends);
        words.put(out);
        out.put(b"\n");
    }
}

/// Puts where there is more on a fault.
fn put_more_line<W: Write>(out: &mut Outbox<'_, W>, cause: Cause)
    ensures { Puts W.contents out.old out.new (more_line cause) }
{
    out.put(b"more: anscheck help F");
    out.put_decimal(cause.number() as u64);
    out.put(b"\n");
}

fn put_refused_lines<W: Write>(
    out: &mut Outbox<'_, W>,
    words: &LastWords<'_>,
    cause: Cause,
    fix: &Option<Mends>,
)
    ensures { Puts W.contents out.old out.new (refused_lines (words_text words.now) cause fix.now) }
{
    put_command_line(out, words, fix);
    put_more_line(out, cause);
}

/// What makes a drawing rely on nothing: nothing that has to be asked for, if the file has room for it.
fn mends_of_pass(reliance: Option<Reliance<'_>>) -> Option<Mends>
    ensures { result ≡ mends_of_pass reliance.entry }
{
    match reliance {
        Some(reliance) if reliance.mends => Some(Mends::NONE),
        _ => None,
    }
}

/// Puts a command that writes a drawing that looks the same everywhere.
fn put_everywhere<W: Write>(out: &mut Outbox<'_, W>, words: &LastWords<'_>, command: &[u8])
    ensures { Puts W.contents out.old out.new (named_line (codes "everywhere") (command.now ++ words_text words.now)) }
{
    out.put(b"everywhere: ");
    out.put(command);
    words.put(out);
    out.put(b"\n");
}

/// Puts the command that writes a drawing that looks the same everywhere, if kinds are named.
fn put_everywhere_line<W: Write>(out: &mut Outbox<'_, W>, words: &LastWords<'_>, players: &Players)
    ensures { Puts W.contents out.old out.new (everywhere_line (words_text words.now) players.now) }
{
    match players {
        Players::Any(_) => {}
        Players::InNamedColours(_, _) => put_everywhere(
            out,
            words,
            b"anscheck mend --name-colours",
        ),
        Players::Agreeing(_) => put_everywhere(out, words, b"anscheck redraw"),
    }
}

fn put_pass_lines<W: Write>(out: &mut Outbox<'_, W>, words: &LastWords<'_>, pass: &Pass<'_>)
    ensures { Puts W.contents out.old out.new (pass_lines (words_text words.now) pass.now) }
{
    put_command_line(out, words, &mends_of_pass(pass.reliance));
    put_everywhere_line(out, words, &pass.players);
}

/// Puts the last lines of a file: the commands that write it fixed, and where there is more on a fault.
fn put_last_lines<W: Write>(
    out: &mut Outbox<'_, W>,
    words: &LastWords<'_>,
    why: &Why<'_>,
    fix: &Option<Mends>,
)
    ensures { Puts W.contents out.old out.new (last_lines (words_text words.now) why.now fix.now) }
{
    match why {
        Judged::NoContent(said) => put_refused_lines(out, words, said.fault.cause, fix),
        Judged::Refused(_, refusal) => put_refused_lines(out, words, refusal.fault.cause, fix),
        Judged::Passes(_, pass) => put_pass_lines(out, words, pass),
    }
}

/// Puts what is wrong with a file, or what it relies on; the commands that write it fixed, if there are any; and of a
/// refused one where there is more on the fault.
pub(crate) fn put_told<W: Write>(
    out: &mut Outbox<'_, W>,
    words: &LastWords<'_>,
    why: &Why<'_>,
    fix: &Option<Mends>,
)
    ensures { Puts W.contents out.old out.new (told_text (words_text words.now) why.now fix.now) }
{
    put_why(out, why);
    put_last_lines(out, words, why, fix);
}

/// What is wrong with the file of this name is to be said, or with standard input, which has none.
#[derive(Clone, Copy)]
pub(crate) struct Explaining<'a> {
    pub name: Option<&'a str>,
}

impl Task for Explaining<'_> {
    ghost use Rattle.std.proofs.Common.{rules};

    type Answer = bool;

    ghost tells = { λ explaining. ReportsTold (option_map (λ n. n.now) explaining.name) };

    ghost ending_of = { λ _. Run };

    fn put<W: Write>(
        &self,
        alloc: Global,
        out: &mut Outbox<'_, W>,
        file: Vec<u8>,
    ) -> Result<bool, AllocError> {
        tell_why(alloc, out, file.as_slice(), self.name)
    }

    fn ending(&self, answer: &Result<bool, RunError>) -> Ending {
        Ending::Run(*answer)
    }

    ghost fails = { Prim.search rules };
}
