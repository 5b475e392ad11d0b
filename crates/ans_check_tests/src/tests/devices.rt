//! Readers and writers that fail.
use super::{
    CLEARED, COMMANDS, HI_RECORD, HI_REPORT, NEEDS, SAUCE, SHOW, TOKENS, WHY, expect_memory,
    expect_run, plain_file, run_on,
};
use ans_check::{Command, Options, RunError, run};
use ans_report::Tried;
use ans_samples::{FailingOnce, Failure, Narrow};
use std::alloc::AllocError;
use std::io::{self, Read};
use std::process::Abort;

const HI_SHOWN: &[u8] = b"\x1b[0;37;40mHi\x1b[0m\n";

const HI_TOKENS: &[u8] = b"0 1 glyph 48\n1 1 glyph 69\n";

const HI_NEEDS: &[u8] = b"size: 2 x 1\ncontent: 2 bytes\nneeds: cursor colours\n";

const HI_WHY: &[u8] = b"size: 2 x 1\n\
    verdict: pass on a cleared screen\n\
    needs: cursor colours\n\
    because: at 0, F22 print at an unknown place: H\n\
    from the top left: row 1, column 1\n\
    from the bottom right: row 2, column 2\n\
    players: own-colours\n\
    players differ: own-colours, 2 times, first at 0\n\
    taller screens: same\n\
    fix: anscheck mend\n\
    everywhere: anscheck mend --name-colours\n";

/// Gives one byte a read, and fails at one of the reads.
#[derive(Clone, Copy)]
struct Dripping<'a> {
    left: &'a [u8],
    reads: u64,
    fails_at: u64,
}

impl Read for Dripping<'_> {
    fn read(&mut self, buf: &mut [u8]) -> io::Result<usize> {
        self.reads = self.reads.saturating_add(1);
        if self.reads == self.fails_at {
            return Err(io::Error::from(io::ErrorKind::Other));
        }
        let n = self.left.len().min(buf.len()).min(1);
        buf[..n].copy_from_slice(&self.left[..n]);
        self.left = &self.left[n..];
        Ok(n)
    }
}

/// What is asked of the sample file, and the whole text of the answer.
static TEXTS: [(Options, &[u8]); 6] = [
    (CLEARED, HI_REPORT),
    (SHOW, HI_SHOWN),
    (SAUCE, HI_RECORD),
    (TOKENS, HI_TOKENS),
    (NEEDS, HI_NEEDS),
    (WHY, HI_WHY),
];

/// Asserts that a run ends at the one write that fails, after this number of bytes, with these written.
fn expect_end_at_write(
    rt: &(impl Abort + AllocGlobal),
    file: &[u8],
    asked: &Options,
    fails_at: u64,
    written: &[u8],
) -> Result<(), AllocError> {
    let mut reader = Tried::new(file);
    let device = FailingOnce::new(Narrow::new(512), fails_at, Failure::Error);
    let mut writer = Tried::new(device);
    let answer = run(rt.alloc(), &mut reader, &mut writer, asked);
    let calls = writer.calls();
    expect_memory(rt, answer, calls)?;
    let device = writer.into_inner();
    assert_eq!(rt;
        (answer, [calls, device.calls()], device.device.held()),
        (Err(RunError::Write), [fails_at; 2], written)
    );
    Ok(())
}

/// Asserts that a writer which fails, for good or once, has a prefix of the text.
fn expect_prefixes(
    rt: &(impl Abort + AllocGlobal),
    file: &[u8],
    asked: &Options,
    text: &[u8],
) -> Result<(), AllocError> {
    for room in 0..text.len() {
        let written = &text[..room];
        expect_run(rt, file, asked, room, Err(RunError::Write), written)?;
        let fails_at = (room as u64).saturating_add(1);
        expect_end_at_write(rt, file, asked, fails_at, written)?;
    }
    Ok(())
}

#[test]
fn a_writer_that_fails_has_a_prefix(rt: HostRuntime) -> Result<(), AllocError> {
    let file = plain_file(&rt, b"Hi", 2, 1)?;
    assert!(rt; HI_REPORT.len() == 70);
    for (asked, text) in &TEXTS {
        expect_prefixes(&rt, file.as_slice(), asked, text)?;
        expect_run(&rt, file.as_slice(), asked, text.len(), Ok(true), text)?;
    }
    Ok(())
}

/// What a command writes of a file without a record.
fn refusal_by(command: Command) -> &'static [u8] {
    match command {
        Command::Why => b"verdict: refused\nfault: at 127, F1 no SAUCE record\n",
        _ => b"verdict: refused\nat 127: F1 no SAUCE record\n",
    }
}

#[test]
fn a_writer_that_fails_has_a_prefix_of_a_refusal(rt: HostRuntime) -> Result<(), AllocError> {
    for asked in &COMMANDS {
        expect_prefixes(&rt, &[b'S'; 127], asked, refusal_by(asked.command))?;
    }
    Ok(())
}

/// Asserts that nothing is written where the reader fails at a read, and that it is not asked again.
fn expect_unread(
    rt: &(impl Abort + AllocGlobal),
    file: &[u8],
    asked: &Options,
) -> Result<(), AllocError> {
    for fails_at in 1..133u64 {
        let input = Dripping {
            left: file,
            reads: 0,
            fails_at,
        };
        let ran = run_on(rt, input, asked, 256)?;
        let calls = [
            ran.reader.calls(),
            ran.reader.inner().reads,
            ran.writer.calls(),
        ];
        assert_eq!(rt;
            (ran.answer, calls),
            (Err(RunError::Read), [fails_at, fails_at, 0])
        );
    }
    Ok(())
}

#[test]
fn a_reader_that_fails_leaves_nothing_written(rt: HostRuntime) -> Result<(), AllocError> {
    let file = plain_file(&rt, b"Hi", 2, 1)?;
    for asked in &COMMANDS {
        expect_unread(&rt, file.as_slice(), asked)?;
    }
    Ok(())
}
