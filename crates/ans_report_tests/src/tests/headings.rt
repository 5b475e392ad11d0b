//! The lines of a report before its verdict, class by class.
use crate::tests::{SOME_KNOWN, parts_of};
use ans_model::start::Start;
use ans_report::{Report, put_report};
use ans_samples::{puts, sample_file};
use ans_sauce::{Cause, Fault};
use ans_screen::PlainGrid;
use std::process::Abort;
use std::test::Fail;

/// Asserts what the heading calls the class of starts, where the content of the file scrolls.
fn expect_name(
    rt: &(impl Abort + AllocGlobal),
    file: &[u8],
    start: Start,
    name: &str,
) -> Result<(), Fail> {
    let parts = parts_of(rt, file);
    let text = format!(in rt.alloc();
        "size: 2 x 1\nstart: {name}\ncontent: 2 bytes\nverdict: refused\nat 1: F21 scrolls\n"
    )?;
    let report: Report<'_, PlainGrid> = Report::Refused {
        parts: Some(&parts),
        start,
        fault: Fault {
            offset: 1,
            cause: Cause::Scrolls,
        },
    };
    assert!(rt; puts(text.as_bytes(), |out| put_report(out, &report)));
    Ok(())
}

#[test]
fn headings_name_the_start(rt: HostRuntime) -> Result<(), Fail> {
    let file = sample_file(rt.alloc(), b"Hi\x1a", &[])?;
    expect_name(&rt, &file, Start::ANY, "any")?;
    expect_name(&rt, &file, Start::CLEARED, "cleared")?;
    for (start, parts) in &SOME_KNOWN {
        let name = format!(in rt.alloc(); "known {parts}")?;
        expect_name(&rt, &file, *start, &name)?;
    }
    Ok(())
}
