//! The program on the system that runs it.

ghost use Rattle.std.specs.Prelude.{◌≡◌, true, false, ⊤, map, string_bytes};
ghost use Rattle.ans_write.specs.Tried.{has_failed};
ghost use Rattle.ans_check.specs.Ending.{ending_status};
ghost use Rattle.ans_check.specs.SystemInput.{AnswersOnSystem};
ghost use Rattle.ans_check.specs.declared.exit_status.Ending.{Ending};

use crate::answering::{answer, say};
use crate::exit_status::Ending;
use crate::inputs::Inputs;
use crate::naming::{tells_reason, unnamed, views};
use ans_options::command_named;
use ans_report::Tried;
use std::cell::Cell;
use std::env;
use std::fs::File;
use std::io::{self, ErrorKind, IsTerminal, Read, Stderr, Stdin, Stdout, Write};

/// An input of the system.
#[derive(Drop)]
enum Input {
    /// A file that was opened by its name.
    Named(File),
    /// Standard input.
    Standard(Stdin),
}

impl Read for Input {
    fn read(&mut self, buf: &mut [u8]) -> io::Result<usize> {
        match self {
            Input::Named(file) => file.read(buf),
            Input::Standard(stdin) => stdin.read(buf),
        }
    }
}

/// The inputs of the system.
#[derive(Clone, Copy)]
struct System<'a> {
    rt: &'a HostRuntime,
}

impl Inputs for System<'_> {
    type Reader = Input;

    ghost use Rattle.ans_check.specs.SystemInput.{is_named};

    ghost is_file = { λ _ _ input. is_named input ≡ true };

    ghost is_standard = { λ _ input. is_named input ≡ false };

    ghost fails = { λ _ _ _. ⊤ };

    fn file(self, name: &str) -> io::Result<Input> {
        let file = File::open(self.rt, name)?;
        if file.metadata()?.is_dir() {
            return Err(io::Error::from(ErrorKind::IsADirectory));
        }
        Ok(Input::Named(file))
    }

    fn standard(self) -> Input {
        let input = self.rt.stdin();
        if input.is_terminal() {
            let _ = self.rt.stderr().write_all(WAITING);
        }
        Input::Standard(input)
    }
}

/// What is said before a terminal is read.
const WAITING: &[u8] = b"anscheck: reading standard input (give a FILE, or end with Ctrl-D)\n";

/// Standard output, which remembers whether its reader has gone.
#[derive(Drop)]
struct Output<'a> {
    to: Stdout,
    closed: &'a Cell<bool>,
}

/// Whether a write failed since the reader has gone.
fn is_closed<T>(outcome: &io::Result<T>) -> bool {
    match outcome {
        Ok(_) => false,
        Err(error) => error.kind() == ErrorKind::BrokenPipe,
    }
}

impl Write for Output<'_> {
    fn write(&mut self, bytes: &[u8]) -> io::Result<usize> {
        let taken = self.to.write(bytes);
        if is_closed(&taken) {
            self.closed.set(true);
        }
        taken
    }

    fn flush(&mut self) -> io::Result<()> {
        let flushed = self.to.flush();
        if is_closed(&flushed) {
            self.closed.set(true);
        }
        flushed
    }
}

/// Standard error, which takes nothing once the reader of the output has gone, unless it speaks anyway.
#[derive(Drop)]
struct Errors<'a> {
    to: Stderr,
    closed: &'a Cell<bool>,
    speaks: bool,
}

impl Write for Errors<'_> {
    fn write(&mut self, bytes: &[u8]) -> io::Result<usize> {
        if self.closed.get() && !self.speaks {
            return Ok(bytes.len());
        }
        self.to.write(bytes)
    }

    fn flush(&mut self) -> io::Result<()> {
        self.to.flush()
    }
}

/// Whether the words ask for a command that reports a closed output as any other failed one.
fn speaks_anyway(texts: &[String]) -> bool {
    match texts {
        [_, word, ..] => match command_named(word.as_str()) {
            Some(command) => !tells_reason(command),
            None => false,
        },
        _ => false,
    }
}

/// The program's words, its own name first. None where one is not text, and where memory runs out.
fn words_of(rt: &HostRuntime) -> Option<Vec<String>> {
    let arguments = env::args(rt).ok()?;
    let mut words = Vec::new(rt.alloc());
    for argument in arguments {
        words.push(argument).ok()?;
    }
    Some(words)
}

/// Answers the program's words on the system's inputs and its disk, and returns the exit status. Without memory to
/// list the words, they cannot be read.
fn answer_texts<W: Write, E: Write>(
    rt: &HostRuntime,
    texts: &[String],
    is_terminal: bool,
    output: &mut Tried<W>,
    errors: &mut Tried<E>,
) -> u8
    requires prints { has_failed output.old ≡ false }
    requires tells { has_failed errors.old ≡ false }
    ensures { AnswersOnSystem W.contents E.contents is_terminal (map string_bytes texts.now) output.old
        output.new errors.old errors.new result }
{
    let Ok(words) = views(rt.alloc(), texts) else {
        say(errors, &unnamed(), Ending::UnreadableWords);
        return Ending::UnreadableWords.status();
    };
    let inputs = System { rt };
    let mut disk = ans_save::System::new(rt);
    answer(
        rt.alloc(),
        words.as_slice(),
        inputs,
        &mut disk,
        is_terminal,
        output,
        errors,
    )
    .status()
}

/// The program: answers its words, as [`answer`] does, on the system's files, its disk and standard streams.
/// It returns the exit status: 0 for a pass and for help, 1 for a refusal, and 2 if there is no
/// answer; standard error then says why. If the reader of the output has gone, it says nothing, except for `check`,
/// `sauce` and `tokens`. Before a terminal is read as standard input, a line says so.
pub fn program(rt: &HostRuntime) -> u8
    ensures { (ending : Ending) × (result ≡ ending_status ending) }
{
    let words = words_of(rt);
    let texts = match &words {
        Some(texts) => texts.as_slice(),
        None => &[],
    };
    let closed = Cell::new(false);
    let stdout = rt.stdout();
    let is_terminal = stdout.is_terminal();
    let mut output = Tried::new(Output {
        to: stdout,
        closed: &closed,
    });
    let mut errors = Tried::new(Errors {
        to: rt.stderr(),
        closed: &closed,
        speaks: speaks_anyway(texts),
    });
    if words.is_none() {
        say(&mut errors, &unnamed(), Ending::UnreadableWords);
        return Ending::UnreadableWords.status();
    }
    answer_texts(rt, texts, is_terminal, &mut output, &mut errors)
}
