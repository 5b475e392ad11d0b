//! Readers that fail while a file is mended.

use super::plain_file;
use ans_check::{Mends, RunError, Unhelped, mend};
use ans_report::Tried;
use ans_samples::{FailingOnce, Failure, Narrow};
use std::alloc::AllocError;
use std::process::Abort;

/// What came of mending: whether the file was put with the bytes at its start, or why there is none.
type Came = Result<Result<bool, Unhelped>, RunError>;

/// What mending by itself comes to. It fails where memory runs out, and nothing is then written.
fn came(
    rt: &impl Abort,
    answer: Result<Result<ans_check::Mended, Unhelped>, RunError>,
    calls: u64,
) -> Result<Came, AllocError> {
    if answer == Err(RunError::Memory) {
        assert!(rt; calls == 0);
        return Err(AllocError);
    }
    Ok(answer.map(|outcome| outcome.map(|mended| mended.front)))
}

#[test]
fn a_reader_that_fails_leaves_nothing_mended(rt: HostRuntime) -> Result<(), AllocError> {
    let file = plain_file(&rt, b"Hi", 2, 1)?;
    for failing_call in 1..3u64 {
        for failure in &Failure::ALL {
            let input = FailingOnce::new(file.as_slice(), failing_call, *failure);
            let mut reader = Tried::new(input);
            let mut writer = Tried::new(Narrow::new(4096));
            let answer = mend(rt.alloc(), &mut reader, &mut writer, &Mends::NONE);
            let came = came(&rt, answer, writer.calls())?;
            if reader.failed() {
                assert_eq!(rt; (came, writer.calls()), (Err(RunError::Read), 0));
            }
        }
    }
    Ok(())
}
