//! Devices that take a part of what the program prints and says, or hand nothing on.

use super::no_disk::NoDisk;
use super::shelf::{Answered, Drawings, Shelf, Stored, answer_in, answer_on};
use ans_check::{Ending, RunError, Unopened, answer};
use ans_report::Tried;
use ans_samples::{FailingOnce, Failure, Narrow};
use std::alloc::AllocError;
use std::io::{self, Write};
use std::process::Abort;

/// What is said where the output fails.
const UNWRITTEN: &[u8] = b"anscheck: cannot write the report\n";

/// Words that print something, over the files of [`Drawings`] and the names of [`NAMES`]. What they print is in the
/// rows of `anscheck_rows`.
static PRINTING: [&[&str]; 11] = [
    &["anscheck", "check", "--cleared", "hi.ans"],
    &["anscheck", "why", "low.ans"],
    &["anscheck", "hi.ans", "gone"],
    &["anscheck", "sauce", "abc"],
    &["anscheck", "help", "F17"],
    &["anscheck", "mend", "hi.ans"],
    &["anscheck", "redraw", "hi.ans"],
    &["anscheck", "table"],
    &["anscheck", "table", "--no-header"],
    &["anscheck", "table", "--json"],
    &["anscheck", "show", "--help"],
];

/// Words that say something on standard error, over the same.
static SAYING: [&[&str]; 10] = [
    &["anscheck", "tokens", "ho.ans"],
    &["anscheck", "ho.ans"],
    &["anscheck", "needs", "ho.ans"],
    &["anscheck", "hi.ans", "ho.ans"],
    &["anscheck", "hi.ans", "-"],
    &["anscheck", "mend", "hi.ans"],
    &["anscheck", "mend", "low.ans"],
    &["anscheck", "redraw", "hi.ans"],
    &["anscheck", "table"],
    &["anscheck", "table", "-"],
];

/// Names on standard input.
const NAMES: Stored<'_> = Stored::Bytes(b"hi.ans\0gone\0abc");

/// A device that takes all, and hands nothing on.
#[derive(Clone, Copy)]
struct Unflushed;

impl Write for Unflushed {
    fn write(&mut self, buf: &[u8]) -> io::Result<usize> {
        Ok(buf.len())
    }

    fn flush(&mut self) -> io::Result<()> {
        Err(io::Error::from(io::ErrorKind::Other))
    }
}

/// Answers words on devices that take all.
fn answer_whole(
    rt: &(impl Abort + AllocGlobal),
    words: &[&str],
    files: &[(&str, Stored<'_>)],
) -> Result<Answered<Narrow>, AllocError> {
    answer_in(rt, words, Shelf::new(files, NAMES), (4096, 4096))
}

/// Asserts that the words end if the output has room for this number of bytes, and at the one write that fails after
/// them, which may be a byte more. The device is not asked again.
fn expect_front(
    rt: &(impl Abort + AllocGlobal),
    words: &[&str],
    shelf: Shelf<'_>,
    front: &[u8],
) -> Result<(), AllocError> {
    let failed = Ending::Run(Err(RunError::Write));
    let answered = answer_in(rt, words, shelf, (front.len(), 4096))?;
    assert!(rt; answered.ending == failed && answered.ending.status() == 2);
    assert_eq!(rt;
        (answered.output.held(), answered.errors.held()),
        (front, UNWRITTEN)
    );
    let answered = answer_on(rt, words, shelf, FailingOnce::after(front.len()), 4096)?;
    assert!(rt; answered.ending == failed && answered.output.stopped_after(front));
    assert_eq!(rt; answered.errors.held(), UNWRITTEN);
    Ok(())
}

#[test]
fn an_output_that_is_cut_off_is_an_error(rt: HostRuntime) -> Result<(), AllocError> {
    let drawings = Drawings::new(&rt)?;
    let files = drawings.files();
    for words in &PRINTING {
        let whole = answer_whole(&rt, words, &files)?;
        let printed = whole.output.held();
        assert!(rt; !printed.is_empty());
        for room in 0..printed.len() {
            expect_front(&rt, words, Shelf::new(&files, NAMES), &printed[..room])?;
        }
    }
    Ok(())
}

#[test]
fn an_output_that_hands_nothing_on_is_an_error(rt: HostRuntime) -> Result<(), AllocError> {
    let drawings = Drawings::new(&rt)?;
    let files = drawings.files();
    for words in &PRINTING {
        let shelf = Shelf::new(&files, NAMES);
        let answered = answer_on(&rt, words, shelf, Unflushed, 4096)?;
        assert!(rt; answered.ending == Ending::Run(Err(RunError::Write)));
        assert_eq!(rt; answered.errors.held(), UNWRITTEN);
    }
    Ok(())
}

#[test]
fn what_is_said_may_be_cut_off(rt: HostRuntime) -> Result<(), AllocError> {
    let drawings = Drawings::new(&rt)?;
    let files = drawings.files();
    for words in &SAYING {
        let whole = answer_whole(&rt, words, &files)?;
        let said = whole.errors.held();
        assert!(rt; !said.is_empty());
        for room in 0..said.len() {
            let answered = answer_in(&rt, words, Shelf::new(&files, NAMES), (4096, room))?;
            assert!(rt; answered.ending == whole.ending);
            assert_eq!(rt;
                (answered.output.held(), answered.errors.held()),
                (whole.output.held(), &said[..room])
            );
        }
    }
    Ok(())
}

/// What clap says of rejected words goes straight to the errors.
#[test]
fn rejected_words_end_alike_where_nothing_can_be_said(rt: HostRuntime) -> Result<(), AllocError> {
    for words in [
        ["anscheck", "check", "--bogus"].as_slice(),
        &["anscheck", "--bogus"],
        &["anscheck", "help", "other"],
        &["anscheck", "check", "f", "g"],
    ] {
        let answered = answer_in(&rt, words, Shelf::new(&[], NAMES), (4096, 0))?;
        assert!(rt; answered.ending == Ending::Usage && answered.output.held().is_empty());
    }
    Ok(())
}

#[test]
fn errors_that_take_nothing_change_no_ending(rt: HostRuntime) -> Result<(), AllocError> {
    let mut output = Tried::new(Narrow::new(0));
    let mut errors = Tried::new(FailingOnce::new(Narrow::new(100), 1, Failure::Nothing));
    let shelf = Shelf::new(&[], Stored::Bytes(b""));
    let words = ["anscheck", "tokens", "ho.ans"];
    let ending = answer(
        rt.alloc(),
        &words,
        shelf,
        &mut NoDisk,
        false,
        &mut output,
        &mut errors,
    );
    assert!(rt; errors.failed());
    if ending == Ending::UnreadableWords {
        return Err(AllocError);
    }
    assert!(rt; ending == Ending::UnopenedFile(Unopened::Missing));
    Ok(())
}
