//! Help on a fault or a note.

use super::shelf::{Shelf, Stored, answer_in};
use ans_check::Ending;
use ans_model::fault::Cause;
use ans_model::note::Note;
use ans_report::{fault_meaning, note_meaning};
use std::alloc::AllocError;
use std::process::Abort;

/// Asserts which text help on a topic prints. Standard input is not read.
fn expect_meaning(
    rt: &(impl Abort + AllocGlobal),
    name: &str,
    text: &[u8],
) -> Result<(), AllocError> {
    let shelf = Shelf::new(&[], Stored::Torn(b""));
    let answered = answer_in(rt, &["anscheck", "help", name], shelf, (4096, 4096))?;
    assert_eq!(rt; answered.output.held(), text);
    assert!(rt; answered.ending == Ending::Help && answered.ending.status() == 0);
    assert!(rt; answered.errors.held().is_empty());
    Ok(())
}

#[test]
fn help_explains_each_fault_and_each_note(rt: HostRuntime) -> Result<(), AllocError> {
    for cause in &Cause::EACH {
        let name = format!(in rt.alloc(); "F{}", cause.number())?;
        expect_meaning(&rt, name.as_str(), fault_meaning(cause).as_bytes())?;
    }
    for note in Note::EACH {
        let name = format!(in rt.alloc(); "N{}", note.number())?;
        expect_meaning(&rt, name.as_str(), note_meaning(note).as_bytes())?;
    }
    Ok(())
}
