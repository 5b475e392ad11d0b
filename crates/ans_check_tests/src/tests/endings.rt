//! How the program ends.
use super::{CLEARED, expect_memory, plain_file};
use ans_check::{
    Counts, Ending, FileCounts, Mended, Mistake, RunError, SaveError, Unhelped, Unmended, Unopened,
    WordsError, options, serve, status,
};
use ans_mend::{Edits, NonBlink, Reset, Told};
use ans_options::Mends;
use ans_pens::Times;
use ans_report::Tried;
use ans_samples::{FailingOnce, Failure};
use std::alloc::AllocError;
use std::io::{self, Read, Write};
use std::process::Abort;

/// Of a file that is mended a byte was cut off after the record, and nothing else was changed.
const CUT: Mended = Mended {
    asked: Mends::NONE,
    tail: Some(Times {
        count: 1,
        first: 131,
    }),
    given_record: None,
    width: None,
    comments: None,
    older: None,
    edits: Edits {
        returns: None,
        told: Told {
            kinds: [None; 9],
            bright_backgrounds: None,
        },
        row_ends: None,
        last_ends: None,
        named_colours: None,
    },
    non_blink: NonBlink {
        was: false,
        is: false,
    },
    lines: Reset { was: 1, is: 1 },
    end_mark: None,
    front: false,
    file_size: Reset { was: 2, is: 2 },
};

/// One file of two passes, and the other is refused.
const SOME_REFUSED: Counts = Counts {
    files: 2,
    pass: 1,
    refused: 1,
    ..Counts::NONE
};

/// One file of two passes on a cleared screen, and the other was not read.
const SOME_UNREAD: Counts = Counts {
    files: 2,
    cleared: 1,
    unread: 1,
    ..Counts::NONE
};

/// Files that were written, and one that has no new file.
const SOME_NOT_DONE: FileCounts = FileCounts {
    files: 3,
    changed: 1,
    unchanged: 1,
    not_done: 1,
    ..FileCounts::NONE
};

/// The same, and one that was not read.
const SOME_NOT_READ: FileCounts = FileCounts {
    files: 4,
    not_read: 1,
    ..SOME_NOT_DONE
};

/// Not mended for this reason, and each flag may help.
fn unhelped(reason: Unmended) -> Unhelped {
    Unhelped {
        reason,
        without_help: Mends::NONE,
    }
}

/// The endings that are looked at.
fn endings() -> [Ending; 27] {
    [
        Ending::Run(Ok(true)),
        Ending::Run(Ok(false)),
        Ending::MayPassCleared,
        Ending::Run(Err(RunError::Read)),
        Ending::Run(Err(RunError::TooLong)),
        Ending::Run(Err(RunError::Memory)),
        Ending::Run(Err(RunError::Write)),
        Ending::Help,
        Ending::Usage,
        Ending::UnreadableWords,
        Ending::UnopenedFile(Unopened::Missing),
        Ending::UnopenedFile(Unopened::Denied),
        Ending::UnopenedFile(Unopened::Folder),
        Ending::UnopenedFile(Unopened::Other),
        Ending::Explained(SOME_REFUSED),
        Ending::Explained(SOME_UNREAD),
        Ending::InputAmong,
        Ending::Table(SOME_REFUSED),
        Ending::NamedInput,
        Ending::UnreadNames,
        Ending::Mended(CUT),
        Ending::NotMended(Mends::NONE, unhelped(Unmended::Torn)),
        Ending::Mistaken(Mistake::SuggestedWithChanges),
        Ending::ToTerminal,
        Ending::Filed(SOME_NOT_DONE),
        Ending::Filed(SOME_NOT_READ),
        Ending::Unsaved(SaveError::NotWritable),
    ]
}

/// The exit status of each, and what it says.
static ENDS: [(u8, Option<&str>); 27] = [
    (0, None),
    (1, None),
    (1, Some("it may pass on a cleared screen: see anscheck why")),
    (2, Some("cannot read the file")),
    (2, Some("file above 16777216 bytes")),
    (2, Some("out of memory")),
    (2, Some("cannot write the report")),
    (0, None),
    (2, None),
    (2, Some("cannot read the command line")),
    (2, Some("cannot open the file")),
    (2, Some("cannot open the file")),
    (2, Some("cannot read the file")),
    (2, Some("cannot open the file")),
    (1, None),
    (2, None),
    (
        2,
        Some("'-' is standard input, and cannot be one of several files"),
    ),
    (1, None),
    (
        2,
        Some("table takes no '-': without FILE it reads file names from standard input"),
    ),
    (2, Some("cannot read the names")),
    (0, None),
    (1, None),
    (
        2,
        Some("mend --suggested takes no flag that asks for a change"),
    ),
    (
        2,
        Some("standard output is a terminal: give -o FILE, or pipe it"),
    ),
    (1, None),
    (2, None),
    (2, Some("no write permission")),
];

/// What is said of a file that was not opened, after its name.
static REASONS: [(Unopened, &str); 4] = [
    (Unopened::Missing, "no such file"),
    (Unopened::Denied, "permission denied"),
    (Unopened::Folder, "is a folder"),
    (Unopened::Other, "cannot open the file"),
];

#[test]
fn files_that_are_not_opened_have_their_reasons(rt: HostRuntime) {
    for (reason, text) in &REASONS {
        assert_eq!(rt; reason.reason(), *text);
    }
}

#[test]
fn endings_have_their_statuses_and_texts(rt: HostRuntime) -> Result<(), AllocError> {
    for (ending, (expected, message)) in endings().iter().zip(&ENDS) {
        let end = (ending.status(), ending.message());
        assert_eq!(rt; end, (*expected, *message));
        if let Ending::Run(answer) = ending {
            assert!(rt; status(answer) == *expected);
        }
        if let Ending::Run(Err(error)) = ending {
            let text = format!(in rt.alloc(); "{error}")?;
            assert!(rt; Some(text.as_str()) == *message);
        }
    }
    Ok(())
}

#[test]
fn mending_has_its_endings(rt: HostRuntime) {
    let endings = [
        (Ok(Ok(CUT)), Ending::Mended(CUT)),
        (
            Ok(Err(unhelped(Unmended::NoLines))),
            Ending::NotMended(Mends::NONE, unhelped(Unmended::NoLines)),
        ),
        (Err(RunError::TooLong), Ending::Run(Err(RunError::TooLong))),
    ];
    for (answer, ending) in &endings {
        assert_eq!(rt; Ending::of_mending(&Mends::NONE, answer), *ending);
    }
}

/// Words that give no options, of each kind that the tests of `ans_options` meet, and whether the program
/// ends with help, or else with what is wrong with them.
static REFUSED_WORDS: [(&[&str], bool); 7] = words! {
    "--help" => true;
    "check" "--help" => true;
    => false;
    "other" => false;
    "check" "--bogus" => false;
    "check" "f" "g" => false;
    "check" "--cells" "--cells" => false;
};

/// How the program ends at words that give no options. It fails where memory runs out.
fn ending_at(rt: &(impl Abort + AllocGlobal), words: &[&str]) -> Result<Ending, AllocError> {
    match options(rt.alloc(), words) {
        Ok(_) => panic!(rt; "the words give options"),
        Err(error) => match Ending::of_words(&error) {
            Ending::UnreadableWords => Err(AllocError),
            ending => Ok(ending),
        },
    }
}

#[test]
fn words_without_options_have_their_endings(rt: HostRuntime) -> Result<(), AllocError> {
    for (words, is_help) in &REFUSED_WORDS {
        let ending = if *is_help {
            Ending::Help
        } else {
            Ending::Usage
        };
        assert_eq!(rt; ending_at(&rt, words)?, ending);
    }
    let refused = WordsError::Clap(clap::Error::from(AllocError));
    assert!(rt; Ending::of_words(&refused) == Ending::UnreadableWords);
    assert!(rt; Ending::of_words(&WordsError::Memory) == Ending::UnreadableWords);
    Ok(())
}

/// A device with room for this number of bytes, which may fail to hand on what it took.
#[derive(Clone, Copy)]
pub(super) struct Output {
    room: usize,
    flushes: bool,
}

impl Output {
    /// A device with this much room.
    pub(super) fn with_room(room: usize) -> Output {
        Output {
            room,
            flushes: true,
        }
    }
}

impl Write for Output {
    fn write(&mut self, buf: &[u8]) -> io::Result<usize> {
        let n = buf.len().min(self.room);
        self.room -= n;
        Ok(n)
    }

    fn flush(&mut self) -> io::Result<()> {
        if self.flushes {
            Ok(())
        } else {
            Err(io::Error::from(io::ErrorKind::Other))
        }
    }
}

/// What serving an input into a device returns, and how much room is left. It fails where memory runs
/// out.
pub(super) fn serve_on<R: Read + Drop>(
    rt: &(impl Abort + AllocGlobal),
    input: R,
    output: Output,
) -> Result<(Result<bool, RunError>, usize), AllocError> {
    let mut reader = Tried::new(input);
    let mut writer = Tried::new(output);
    let answer = serve(rt.alloc(), &mut reader, &mut writer, &CLEARED);
    expect_memory(rt, answer, writer.calls())?;
    Ok((answer, writer.inner().room))
}

/// Asserts what serving an input into a device returns, and how much room is left.
fn expect_served<R: Read + Drop>(
    rt: &(impl Abort + AllocGlobal),
    input: R,
    output: Output,
    expected: Result<bool, RunError>,
    left: usize,
) -> Result<(), AllocError> {
    let served = serve_on(rt, input, output)?;
    assert_eq!(rt; served, (expected, left));
    Ok(())
}

/// The room, whether the device flushes, and what is returned for a report of 70 bytes, with the room
/// that is left.
static OUTPUTS: [(usize, bool, Result<bool, RunError>, usize); 6] = [
    (100, true, Ok(true), 30),
    (70, true, Ok(true), 0),
    (69, true, Err(RunError::Write), 0),
    (1, true, Err(RunError::Write), 0),
    (0, true, Err(RunError::Write), 0),
    (100, false, Err(RunError::Write), 30),
];

#[test]
fn a_report_is_flushed(rt: HostRuntime) -> Result<(), AllocError> {
    let file = plain_file(&rt, b"Hi", 2, 1)?;
    for (room, flushes, expected, left) in &OUTPUTS {
        let output = Output {
            room: *room,
            flushes: *flushes,
        };
        expect_served(&rt, file.as_slice(), output, *expected, *left)?;
    }
    Ok(())
}

#[test]
fn a_refusal_is_flushed(rt: HostRuntime) -> Result<(), AllocError> {
    let refused = [b'S'; 127];
    let output = Output::with_room(100);
    expect_served(&rt, refused.as_slice(), output, Ok(false), 56)?;
    let output = Output {
        flushes: false,
        ..output
    };
    let failed = Err(RunError::Write);
    expect_served(&rt, refused.as_slice(), output, failed, 56)
}

#[test]
fn errors_of_a_run_are_served(rt: HostRuntime) -> Result<(), AllocError> {
    let output = Output::with_room(100);
    let file = plain_file(&rt, b"Hi", 2, 1)?;
    let input = FailingOnce::new(file.as_slice(), 2, Failure::Error);
    expect_served(&rt, input, output, Err(RunError::Read), 100)?;
    let file = plain_file(&rt, b"", 80, 200)?;
    expect_served(&rt, file.as_slice(), output, Err(RunError::Write), 0)
}
