//! Files, readers and writers from end to end. Where memory runs out a test fails with that error.
ghost use Rattle.std.specs.Prelude.{◌≡◌, false};
ghost use Rattle.ans_write.specs.Tried.{has_failed};

/// A table: the words after `anscheck`, and what is expected of them.
macro_rules! words {
    ($($($word:literal)* => $($expected:expr),+;)*) => {
        [$((&["anscheck", $($word),*], $($expected),+)),*]
    };
}

mod devices;
mod endings;
mod fixes;
mod large;
mod verdicts;

use ans_check::{Command, Form, Options, RunError, Start, run};
use ans_report::Tried;
use ans_samples::{Narrow, sample_file};
use std::alloc::AllocError;
use std::io::Read;
use std::process::Abort;

macro_rules! asked {
    ($command:ident) => {
        Options {
            command: Command::$command,
            start: Start::ANY,
            cells: false,
        }
    };
}

/// A check from any start.
const ANY: Options = asked!(Check);

/// A check from the cleared screen.
const CLEARED: Options = Options {
    start: Start::CLEARED,
    ..ANY
};

/// A check from the cleared screen that reports the cells.
const CELLS: Options = Options {
    cells: true,
    ..CLEARED
};

/// The picture for a terminal, from the cleared screen.
const SHOW: Options = Options {
    command: Command::Show(Form::Terminal),
    ..CLEARED
};

const SAUCE: Options = asked!(Sauce);

const TOKENS: Options = asked!(Tokens);

const NEEDS: Options = asked!(Needs);

const WHY: Options = asked!(Why);

/// What a command on one file may be asked.
static COMMANDS: [Options; 8] = [ANY, CLEARED, CELLS, SHOW, SAUCE, TOKENS, NEEDS, WHY];

/// The report of a check of `Hi` from the cleared screen.
const HI_REPORT: &[u8] =
    b"size: 2 x 1\nstart: cleared\ncontent: 2 bytes\nverdict: pass\npicture:\nHi\n";

/// The text of the record of `Hi`.
const HI_RECORD: &[u8] = b"title: \n\
    author: \n\
    group: \n\
    date: 19960101\n\
    size: 2 x 1\n\
    flags: 00\n\
    font: \n\
    file size: 2\n\
    comments: 0\n";

/// What comes before the record, and the plain record with this width and these lines.
fn file_of_size(
    rt: &impl AllocGlobal,
    front: &[u8],
    width: u16,
    lines: u16,
) -> Result<Vec<u8>, AllocError> {
    let width = width.to_le_bytes();
    let lines = lines.to_le_bytes();
    sample_file(rt.alloc(), front, &[(96, &width), (98, &lines)])
}

/// The content, one end mark and the plain record of this size.
fn plain_file(
    rt: &(impl Abort + AllocGlobal),
    content: &[u8],
    width: u16,
    lines: u16,
) -> Result<Vec<u8>, AllocError> {
    let mut front = [0x1a; 64];
    assert!(rt; content.len() < 64);
    front[..content.len()].copy_from_slice(content);
    let file_size = u32::try_from(content.len()).unwrap_or(0).to_le_bytes();
    sample_file(
        rt.alloc(),
        &front[..content.len() + 1],
        &[
            (90, &file_size),
            (96, &width.to_le_bytes()),
            (98, &lines.to_le_bytes()),
        ],
    )
}

fn room_for(room: usize) -> Tried<Narrow>
    ensures { has_failed result ≡ false }
{
    Tried::new(Narrow::new(room))
}

/// Fails where a run met a refused allocation. Its writer was then not called.
fn expect_memory(
    rt: &impl Abort,
    answer: Result<bool, RunError>,
    calls: u64,
) -> Result<(), AllocError> {
    if answer == Err(RunError::Memory) {
        assert!(rt; calls == 0);
        return Err(AllocError);
    }
    Ok(())
}

/// What became of a run.
#[derive(Drop)]
struct Ran<R> {
    answer: Result<bool, RunError>,
    reader: Tried<R>,
    writer: Tried<Narrow>,
}

/// Runs on an input, and writes to a device with this much room. It fails where memory runs out.
fn run_on<R: Read + Drop>(
    rt: &(impl Abort + AllocGlobal),
    input: R,
    options: &Options,
    room: usize,
) -> Result<Ran<R>, AllocError> {
    let mut reader = Tried::new(input);
    let mut writer = room_for(room);
    let answer = run(rt.alloc(), &mut reader, &mut writer, options);
    expect_memory(rt, answer, writer.calls())?;
    Ok(Ran {
        answer,
        reader,
        writer,
    })
}

/// Asserts what a run returns, and what it writes to a device with this much room.
fn expect_run(
    rt: &(impl Abort + AllocGlobal),
    file: &[u8],
    options: &Options,
    room: usize,
    expected: Result<bool, RunError>,
    text: &[u8],
) -> Result<(), AllocError> {
    let ran = run_on(rt, file, options, room)?;
    assert!(rt; ran.answer == expected);
    assert_eq!(rt; ran.writer.inner().held(), text);
    Ok(())
}

/// Asserts that bytes begin so, and returns the others.
fn behind<'a>(rt: &impl Abort, bytes: &'a [u8], front: &[u8]) -> &'a [u8] {
    match bytes.strip_prefix(front) {
        Some(rest) => rest,
        None => panic!(rt; "another front"),
    }
}
