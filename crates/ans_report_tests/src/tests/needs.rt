//! What is written of contents' needs.
use crate::tests::{NO_RECORD, NO_RECORD_TOLD, SOME_KNOWN, parts_of};
use ans_model::start::Start;
use ans_report::{Needs, put_needs};
use ans_samples::{puts, sample_file};
use ans_sauce::{Cause, Fault, Judged, Parts};
use std::process::Abort;
use std::test::Fail;

fn expect_needs(rt: &impl Abort, needs: &Needs<'_>, text: &[u8]) {
    assert!(rt; puts(text, |out| put_needs(out, needs)));
}

fn expect_least(rt: &impl Abort, parts: Parts<'_>, class: Start, text: &[u8]) {
    expect_needs(rt, &Judged::Passes(parts, class), text);
}

#[test]
fn needed_parts_are_named_in_their_order(rt: HostRuntime) -> Result<(), Fail> {
    let file = sample_file(rt.alloc(), b"Hi\x1a", &[])?;
    let nothing: &[u8] = b"size: 2 x 1\ncontent: 2 bytes\nneeds: nothing\n";
    expect_least(&rt, parts_of(&rt, &file), Start::ANY, nothing);
    let all: &[u8] = b"size: 2 x 1\ncontent: 2 bytes\nneeds: screen cursor saved colours wrap\n";
    expect_least(&rt, parts_of(&rt, &file), Start::CLEARED, all);
    for (class, named) in &SOME_KNOWN {
        let text = format!(in rt.alloc(); "size: 2 x 1\ncontent: 2 bytes\nneeds: {named}\n")?;
        expect_least(&rt, parts_of(&rt, &file), *class, text.as_bytes());
    }
    Ok(())
}

#[test]
fn notes_stand_before_the_needs(rt: HostRuntime) -> Result<(), Fail> {
    let file = sample_file(rt.alloc(), b"Hi!", &[(96, b"\x00"), (105, b"\xff")])?;
    let text: &[u8] = b"size: 80 x 1\n\
        content: 3 bytes\n\
        note: width 0 taken as 80\n\
        note: no end mark after the content\n\
        note: file size differs from the content\n\
        note: flag bits 5 to 7 are not zero\n\
        note: a flag pair is 11\n\
        needs: nothing\n";
    expect_least(&rt, parts_of(&rt, &file), Start::ANY, text);
    Ok(())
}

#[test]
fn a_refusal_stands_in_place_of_the_needs(rt: HostRuntime) -> Result<(), Fail> {
    let file = sample_file(rt.alloc(), b"Hi!\x1a", &[])?;
    let fault = Fault {
        offset: 2,
        cause: Cause::PrintBelow,
    };
    let needs = Judged::Refused(parts_of(&rt, &file), fault);
    let text: &[u8] = b"size: 2 x 1\n\
        content: 3 bytes\n\
        note: file size differs from the content\n\
        verdict: refused\n\
        at 2: F20 print below the stated lines\n";
    expect_needs(&rt, &needs, text);
    Ok(())
}

#[test]
fn a_refused_record_is_told_alone(rt: HostRuntime) {
    expect_needs(&rt, &Judged::NoContent(NO_RECORD), NO_RECORD_TOLD);
}
