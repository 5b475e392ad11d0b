//! Texts that are handed over.

ghost use Rattle.std.specs.Prelude.{◌≡◌, ◌≢◌, ◌↔◌, ◌⊎◌, ◌<◌, ◌≤◌, List, ℕ, [], Some, false, length, codes};
ghost use Rattle.ans_model.specs.Bytes.{longest_file};
ghost use Rattle.ans_model.specs.Text.FaultText.{fault_text, note_text, cause_number, note_number};
ghost use Rattle.ans_write.specs.Puts.{Puts, device_failed, waiting_of};
ghost use Rattle.ans_write.specs.declared.outbox.Outbox.{Outbox};
ghost use Rattle.ans_report.specs.RecordReports.{ReportsSauce};
ghost use Rattle.ans_why.specs.WhyText.{ReportsWhy};
ghost use Rattle.ans_model.specs.declared.fault.Cause.{Cause};
ghost use Rattle.ans_model.specs.declared.note.Note.{Note};
ghost use Rattle.ans_c.specs.Told.{HandsOver, HandsReport, LacksScreen, code_of};

use crate::numbers::{NO_ROOM, PASS, REFUSED, TOO_LONG, cause_of, note_of};
use ans_model::fault::Fault;
use ans_model::limits::MAX_FILE;
use ans_report::{fault_text, note_text, put_record, put_refusal};
use ans_sauce::split;
use ans_screen::LentRow;
use ans_verdict::{LentScreens, why_on};
use ans_why::put_why;
use ans_write::{Outbox, Tried};
use std::io::{self, Write};

/// The longest text that is handed over: as much as waits in an outbox.
const LONGEST: usize = 65_536;

/// A device that takes no byte, so that what is put waits in the outbox as long as it fits.
#[derive(Drop)]
pub(crate) struct Nowhere;

impl Write for Nowhere {
    ghost contents = { λ _. Some [] };

    fn write(&mut self, _buf: &[u8]) -> io::Result<usize> {
        Ok(0)
    }

    fn flush(&mut self) -> io::Result<()> {
        Ok(())
    }
}

/// The answer if a file passes, or does not.
pub(crate) fn code_of(passed: bool) -> u32
    ensures { result ≡ code_of passed }
{
    if passed { PASS } else { REFUSED }
}

/// Copies a text to the start of a buffer, and sets its length.
fn hand(text: &[u8], code: u32, buffer: &mut [u8], told: &mut usize) -> u32
    requires { code ≤ REFUSED }
    ensures handed { HandsOver text.now code (length buffer.old) result told.new buffer.new }
    ensures codes { (result ≤ REFUSED) ⊎ (result ≡ NO_ROOM) }
{
    let count = text.len();
    if count > LONGEST {
        *told = LONGEST + 1;
        return NO_ROOM;
    }
    *told = count;
    if buffer.len() < count {
        return NO_ROOM;
    }
    buffer[..count].copy_from_slice(text);
    code
}

/// Hands over what was put in an outbox. It all waits there, unless it is above the longest text.
pub(crate) fn hand_over(
    out: &Outbox<'_, Nowhere>,
    passed: bool,
    buffer: &mut [u8],
    told: &mut usize,
) -> u32
    ensures handed { (begun : Outbox Nowhere) (text : List ℕ) → waiting_of begun ≡ [] → device_failed begun ≡ false
        → Puts (⟦<Nowhere as Write>⟧.contents) begun out.now text
        → HandsOver text (code_of passed) (length buffer.old) result told.new buffer.new }
    ensures codes { (result ≤ REFUSED) ⊎ (result ≡ NO_ROOM) }
{
    if out.has_failed() {
        *told = LONGEST + 1;
        return NO_ROOM;
    }
    hand(out.waiting(), code_of(passed), buffer, told)
}

/// Hands over the text of `anscheck why`, in UTF-8, with as many rows and bytes as a check of it needs. `PASS`:
/// the file passes from the cleared start. `REFUSED`: it does not. `text` begins with the text,
/// and `told` is how many bytes it has. `TOO_LONG`: the file is too long, and `told` is 0. `NO_ROOM`: there are too
/// few rows or bytes, and `told` is 0; or `text` is shorter than the text, and `told` is how many bytes that has.
#[unsafe(no_mangle)]
pub extern "C" fn ans_why_on(
    file: &[u8],
    rows: &mut [LentRow],
    bytes: &mut [u8],
    text: &mut [u8],
    told: &mut usize,
) -> u32
    ensures handed { result ≢ TOO_LONG → (HandsReport (ReportsWhy file.now) (length text.old) result told.new text.new
        ⊎ ((result ≡ NO_ROOM) × (told.new ≡ 0) × LacksScreen file.now (length rows.old) (length bytes.old))) }
    ensures too_long { (result ≡ TOO_LONG) ↔ (longest_file < length file.now) }
    ensures silent { result ≡ TOO_LONG → told.new ≡ 0 }
    ensures codes { (result ≤ NO_ROOM) × (result ≢ 2) }
{
    if file.len() > MAX_FILE {
        *told = 0;
        return TOO_LONG;
    }
    let Ok(why) = why_on(&mut LentScreens::new(rows, bytes), file) else {
        *told = 0;
        return NO_ROOM;
    };
    let mut nowhere = Tried::new(Nowhere);
    let mut out = Outbox::new(&mut nowhere);
    put_why(&mut out, &why);
    hand_over(&out, why.is_pass(), text, told)
}

/// Hands over the text of `anscheck sauce`, in UTF-8: what the file's record says, or why its record or its
/// layout is refused. The answers are those of `ans_why_on`; it needs no rows and bytes.
#[unsafe(no_mangle)]
pub extern "C" fn ans_record(file: &[u8], text: &mut [u8], told: &mut usize) -> u32
    ensures handed { result ≢ TOO_LONG
        → HandsReport (ReportsSauce file.now) (length text.old) result told.new text.new }
    ensures too_long { (result ≡ TOO_LONG) ↔ (longest_file < length file.now) }
    ensures silent { result ≡ TOO_LONG → told.new ≡ 0 }
    ensures codes { (result ≤ NO_ROOM) × (result ≢ 2) }
{
    if file.len() > MAX_FILE {
        *told = 0;
        return TOO_LONG;
    }
    let mut nowhere = Tried::new(Nowhere);
    let mut out = Outbox::new(&mut nowhere);
    match split(file) {
        Ok(parts) => {
            put_record(&mut out, &parts);
            hand_over(&out, true, text, told)
        }
        Err(fault) => {
            put_refusal(&mut out, &fault);
            hand_over(&out, false, text, told)
        }
    }
}

/// Hands over the text of the fault Fn, `F21 scrolls`, as `ans_why_on` does its own: `PASS`, or `NO_ROOM` if
/// `text` is shorter. `REFUSED`: there is no fault of this number.
#[unsafe(no_mangle)]
pub extern "C" fn ans_copy_fault_text(number: u32, text: &mut [u8], told: &mut usize) -> u32
    ensures text { result ≢ REFUSED → (cause : Cause) × (cause_number cause ≡ number)
        × HandsOver (fault_text cause) PASS (length text.old) result told.new text.new }
    ensures none { result ≡ REFUSED → (cause : Cause) → cause_number cause ≢ number }
{
    match cause_of(number) {
        Some(cause) => {
            let fault = Fault { offset: 0, cause };
            hand(fault_text(&fault).as_bytes(), PASS, text, told)
        }
        None => REFUSED,
    }
}

/// Hands over the text of the note Nn. `REFUSED`: there is no note of this number.
#[unsafe(no_mangle)]
pub extern "C" fn ans_copy_note_text(number: u32, text: &mut [u8], told: &mut usize) -> u32
    ensures text { result ≢ REFUSED → (note : Note) × (note_number note ≡ number)
        × HandsOver (note_text note) PASS (length text.old) result told.new text.new }
    ensures none { result ≡ REFUSED → (note : Note) → note_number note ≢ number }
{
    match note_of(number) {
        Some(note) => hand(note_text(&note).as_bytes(), PASS, text, told),
        None => REFUSED,
    }
}

/// Hands over the version of the checker.
#[unsafe(no_mangle)]
pub extern "C" fn ans_copy_version(text: &mut [u8], told: &mut usize) -> u32
    ensures { HandsOver (codes "0.2.0") PASS (length text.old) result told.new text.new }
{
    hand(b"0.2.0", PASS, text, told)
}
