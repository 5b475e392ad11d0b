//! The tables of texts by example, and each writer on a device that takes one byte a call, also one
//! of which a call fails.
mod headings;
mod meanings;
mod messages;
mod needs;
mod records;
mod tokens;
mod written_reports;

use ans_model::start::Start;
use ans_report::{fault_text, note_text};
use ans_samples::start;
use ans_sauce::{Cause, Fault, Note, Parts, split};
use std::process::Abort;

/// Classes of starts that know some parts but not all, and the names of these.
static SOME_KNOWN: [(Start, &str); 10] = [
    (start!(known screen), "screen"),
    (start!(known cursor), "cursor"),
    (start!(known saved), "saved"),
    (start!(known colours), "colours"),
    (start!(known wrap), "wrap"),
    (start!(known screen cursor), "screen cursor"),
    (start!(known cursor colours), "cursor colours"),
    (
        start!(known screen cursor saved colours),
        "screen cursor saved colours",
    ),
    (
        start!(known cursor saved colours wrap),
        "cursor saved colours wrap",
    ),
    (
        start!(known screen cursor colours wrap),
        "screen cursor colours wrap",
    ),
];

/// A file of 127 bytes is refused so, and this is all that is said of it.
const NO_RECORD: Fault = Fault {
    offset: 127,
    cause: Cause::NoRecord,
};

const NO_RECORD_TOLD: &[u8] = b"verdict: refused\nat 127: F1 no SAUCE record\n";

/// The parts of a sample.
fn parts_of<'a>(rt: &impl Abort, file: &'a [u8]) -> Parts<'a> {
    match split(file) {
        Ok(parts) => parts,
        Err(_) => panic!(rt; "the sample is refused"),
    }
}

#[test]
fn faults_and_notes_have_texts(rt: HostRuntime) {
    let rows = [
        (Cause::NoRecord, "F1 no SAUCE record"),
        (Cause::BrokenSequence, "F9 broken sequence"),
        (Cause::Scrolls, "F21 scrolls"),
        (
            Cause::UnknownCell { row: 1, col: 1 },
            "F25 cell stays unknown",
        ),
    ];
    for (cause, text) in rows {
        assert_eq!(rt; fault_text(&Fault { offset: 0, cause }), text);
    }
    let notes = [
        (Note::WidthAssumed, "width 0 taken as 80"),
        (Note::NoEndMark, "no end mark after the content"),
        (Note::SizeDiffers, "file size differs from the content"),
        (Note::OddDate, "date is not eight digits"),
        (Note::FlagBits, "flag bits 5 to 7 are not zero"),
        (Note::FlagPair, "a flag pair is 11"),
    ];
    for (note, text) in notes {
        assert_eq!(rt; note_text(&note), text);
    }
}
