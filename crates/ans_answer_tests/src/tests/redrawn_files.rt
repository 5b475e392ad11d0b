//! Readers that fail while a file is redrawn, and a file that is too long.

use super::plain_file;
use super::shelf::Stored;
use ans_check::{Redrawn, RunError, Unredrawn, redraw};
use ans_report::Tried;
use ans_samples::{FailingOnce, Failure, Narrow, sample_file};
use std::alloc::AllocError;
use std::io::Read;
use std::process::Abort;

/// What came of redrawing: the length of the file that was put, or why there is none.
type Came = Result<Result<usize, Unredrawn>, RunError>;

/// What redrawing comes to. It fails where memory runs out, and nothing is then written.
fn came(
    rt: &impl Abort,
    answer: Result<Result<Redrawn, Unredrawn>, RunError>,
    calls: u64,
) -> Result<Came, AllocError> {
    if answer == Err(RunError::Memory) {
        assert!(rt; calls == 0);
        return Err(AllocError);
    }
    Ok(answer.map(|outcome| outcome.map(|redrawn| redrawn.whole)))
}

#[test]
fn a_reader_that_fails_leaves_nothing_redrawn(rt: HostRuntime) -> Result<(), AllocError> {
    let file = plain_file(&rt, b"Hi", 2, 1)?;
    for failing_call in 1..3u64 {
        for failure in &Failure::ALL {
            let input = FailingOnce::new(file.as_slice(), failing_call, *failure);
            let mut reader = Tried::new(input);
            let mut writer = Tried::new(Narrow::new(4096));
            let answer = redraw(rt.alloc(), &mut reader, &mut writer);
            let came = came(&rt, answer, writer.calls())?;
            if reader.failed() {
                assert_eq!(rt; (came, writer.calls()), (Err(RunError::Read), 0));
            }
        }
    }
    Ok(())
}

/// What comes of redrawing what a reader gives. Nothing may be written.
fn expect_unwritten(
    rt: &(impl Abort + AllocGlobal),
    reader: impl Read + Drop,
    expected: Came,
) -> Result<(), AllocError> {
    let mut reader = Tried::new(reader);
    let mut writer = Tried::new(Narrow::new(4096));
    let answer = redraw(rt.alloc(), &mut reader, &mut writer);
    assert_eq!(rt; came(rt, answer, writer.calls())?, expected);
    assert!(rt; writer.inner().held().is_empty());
    Ok(())
}

/// A file of the greatest length, nearly all of it end marks, which stay.
#[test]
fn a_file_may_be_too_long_when_it_is_redrawn(rt: HostRuntime) -> Result<(), AllocError> {
    let record = sample_file(rt.alloc(), b"", &[(96, b"\x02")])?;
    let marks = [0x1A; 1024];
    let content = b"Hi".as_slice().chain(&marks[..894]);
    let rest = Stored::repeated(&marks, 16_383).chain(record.as_slice());
    let reason = Unredrawn::TooLong(16_777_245);
    expect_unwritten(&rt, content.chain(rest), Ok(Err(reason)))
}
