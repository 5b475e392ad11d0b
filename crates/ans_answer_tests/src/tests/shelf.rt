//! Files in memory by their names, and what the program answers over them.

ghost use Rattle.std.specs.Prelude.{⊤};

use super::no_disk::NoDisk;
use super::plain_file;
use ans_check::{Ending, Inputs, RunError, answer};
use ans_report::Tried;
use ans_samples::Narrow;
use std::alloc::AllocError;
use std::io::{self, Read, Write};
use std::process::Abort;

/// What a file has.
#[derive(Clone, Copy)]
pub(super) enum Stored<'a> {
    Bytes(&'a [u8]),
    /// Its reading fails after these bytes.
    Torn(&'a [u8]),
    /// What is left of a text, and then the whole of it this number of times.
    Repeated {
        rest: &'a [u8],
        text: &'a [u8],
        left: usize,
    },
}

impl<'a> Stored<'a> {
    /// This text, this number of times.
    pub(super) fn repeated(text: &'a [u8], times: usize) -> Stored<'a> {
        Stored::Repeated {
            rest: b"",
            text,
            left: times,
        }
    }
}

impl Read for Stored<'_> {
    fn read(&mut self, buf: &mut [u8]) -> io::Result<usize> {
        match self {
            Stored::Bytes(bytes) => bytes.read(buf),
            Stored::Torn(bytes) => {
                if bytes.is_empty() {
                    return Err(io::Error::from(io::ErrorKind::Other));
                }
                bytes.read(buf)
            }
            Stored::Repeated { rest, text, left } => {
                if rest.is_empty() && *left > 0 {
                    *rest = *text;
                    *left -= 1;
                }
                rest.read(buf)
            }
        }
    }
}

/// Files by their names, and standard input.
#[derive(Clone, Copy)]
pub(super) struct Shelf<'a> {
    files: &'a [(&'a str, Stored<'a>)],
    standard: Stored<'a>,
}

impl<'a> Shelf<'a> {
    pub(super) fn new(files: &'a [(&'a str, Stored<'a>)], standard: Stored<'a>) -> Shelf<'a> {
        Shelf { files, standard }
    }

    fn named(&self, name: &str) -> Option<Stored<'a>> {
        for (held, stored) in self.files {
            if *held == name {
                return Some(*stored);
            }
        }
        None
    }
}

impl<'a> Inputs for Shelf<'a> {
    type Reader = Stored<'a>;

    ghost is_file = { λ _ _ _. ⊤ };

    ghost is_standard = { λ _ _. ⊤ };

    ghost fails = { λ _ _ _. ⊤ };

    fn file(self, name: &str) -> io::Result<Stored<'a>> {
        match self.named(name) {
            Some(stored) => Ok(stored),
            None => Err(io::Error::from(io::ErrorKind::NotFound)),
        }
    }

    fn standard(self) -> Stored<'a> {
        self.standard
    }
}

/// A drawing that passes from the cleared start, and one that is refused.
#[derive(Drop)]
pub(super) struct Drawings {
    hi: Vec<u8>,
    low: Vec<u8>,
}

impl Drawings {
    pub(super) fn new(rt: &(impl Abort + AllocGlobal)) -> Result<Drawings, AllocError> {
        Ok(Drawings {
            hi: plain_file(rt, b"Hi", 2, 1)?,
            low: plain_file(rt, b"a\r\nb", 80, 1)?,
        })
    }

    /// The drawings and files without a record, by their names.
    pub(super) fn files(&self) -> [(&str, Stored<'_>); 6] {
        [
            ("hi.ans", Stored::Bytes(self.hi.as_slice())),
            ("low.ans", Stored::Bytes(self.low.as_slice())),
            ("abc", Stored::Bytes(b"abc")),
            ("empty", Stored::Bytes(b"")),
            ("torn", Stored::Torn(b"")),
            ("half", Stored::Torn(b"SAUCE")),
        ]
    }
}

/// Whether a line is the row, the object, or the line of `why`, of a file for which memory ran out.
fn is_of_memory(line: &[u8]) -> bool {
    line.starts_with(b"error\t\t\t\t\tout of memory\t")
        || line.starts_with(b"{\"fault\":\"out of memory\"")
        || line.starts_with(b"error: out of memory")
}

/// A device that is offered the texts of files. It notes whether it was offered one of a file for which memory
/// ran out, whether it took it or not.
#[derive(Drop)]
struct Noting<W> {
    device: W,
    memory_ran_out: bool,
}

impl<W: Write> Write for Noting<W> {
    fn write(&mut self, buf: &[u8]) -> io::Result<usize> {
        if buf.split(|byte| *byte == b'\n').any(is_of_memory) {
            self.memory_ran_out = true;
        }
        self.device.write(buf)
    }

    fn flush(&mut self) -> io::Result<()> {
        self.device.flush()
    }
}

/// What became of some words.
#[derive(Drop)]
pub(super) struct Answered<W> {
    pub ending: Ending,
    pub output: W,
    pub errors: Narrow,
}

/// Answers words over a shelf, on a device and one with this much room for errors. It fails if memory
/// ran out, for the words, for a command or for a row. Nothing is then written, except for the rows before.
pub(super) fn answer_on<W: Write + Drop>(
    rt: &(impl Abort + AllocGlobal),
    words: &[&str],
    shelf: Shelf<'_>,
    output: W,
    error_room: usize,
) -> Result<Answered<W>, AllocError> {
    let mut output = Tried::new(Noting {
        device: output,
        memory_ran_out: false,
    });
    let mut errors = Tried::new(Narrow::new(error_room));
    let ending = answer(
        rt.alloc(),
        words,
        shelf,
        &mut NoDisk,
        false,
        &mut output,
        &mut errors,
    );
    if ending == Ending::UnreadableWords || ending == Ending::Run(Err(RunError::Memory)) {
        assert!(rt; output.calls() == 0 || words.contains(&"table"));
        return Err(AllocError);
    }
    let output = output.into_inner();
    if output.memory_ran_out {
        return Err(AllocError);
    }
    Ok(Answered {
        ending,
        output: output.device,
        errors: errors.into_inner(),
    })
}

/// Answers words over a shelf, on devices with this much room. It fails where memory ran out.
pub(super) fn answer_in(
    rt: &(impl Abort + AllocGlobal),
    words: &[&str],
    shelf: Shelf<'_>,
    (room, error_room): (usize, usize),
) -> Result<Answered<Narrow>, AllocError> {
    answer_on(rt, words, shelf, Narrow::new(room), error_room)
}
