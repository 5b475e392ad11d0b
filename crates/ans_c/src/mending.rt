//! A file that is fixed.

ghost use Rattle.std.specs.Prelude.{◌≡◌, ◌≢◌, ◌↔◌, ◌⊎◌, ◌-◌, ◌<◌, ◌≤◌, ◌++◌, IfSome, IsNone, length, take};
ghost use Rattle.ans_mend.specs.Drafts.{draft_of};
ghost use Rattle.ans_model.specs.Bytes.{longest_file, most_columns, most_lines};
ghost use Rattle.ans_write.specs.Puts.{Puts};
ghost use Rattle.ans_verdict.specs.LentScreen.{byte_count, row_count};
ghost use Rattle.ans_mend.specs.Mending.{front_bytes};
ghost use Rattle.ans_mend.specs.Mending.{TellsMended};
ghost use Rattle.ans_c.specs.Numbers.{mends_of};
ghost use Rattle.ans_c.specs.Told.{HandsReport, LacksMendingRoom, ReportsMending, mending_text};

use crate::numbers::{NO_ROOM, TOO_LONG, WRONG_NUMBER, mends_of};
use crate::texts::{Nowhere, hand_over};
use ans_mend::{Draft, MendError, Mended, Unmended, mend_on, put_mended, put_unmended};
use ans_model::beginning::SAFE_BEGINNING;
use ans_model::limits::{MAX_FILE, MAX_LINES, MAX_WIDTH};
use ans_model::mends::Mends;
use ans_screen::LentRow;
use ans_verdict::LentScreens;
use ans_write::{Outbox, Tried};
use std::io::Write;

/// What comes before the bytes of a draft.
fn front_bytes(front: bool) -> &'static [u8]
    ensures { result.now ≡ front_bytes front }
{
    if front { SAFE_BEGINNING } else { b"" }
}

/// Copies bytes to the start of an array, and others after them. Returns how many they are together, or
/// nothing if the array has no room for them.
fn place(beginning: &[u8], rest: &[u8], array: &mut [u8]) -> Option<usize>
    ensures placed { IfSome result (λ size. take size array.new ≡ beginning.now ++ rest.now) }
    ensures room { IsNone result → length array.old < length (beginning.now ++ rest.now) }
{
    let start = beginning.len();
    let size = start + rest.len();
    if array.len() < size {
        return None;
    }
    array[..start].copy_from_slice(beginning);
    array[start..size].copy_from_slice(rest);
    Some(size)
}

/// A copy of a file, as a draft in this memory; none if the memory has no room for it.
fn copied<'a>(memory: &'a mut [u8], file: &[u8]) -> Option<Draft<'a>>
    ensures draft { IfSome result (λ draft. draft
        ≡ draft_of file.now (length memory.old - length file.now)) }
    ensures room { IsNone result → length memory.old < length file.now }
{
    let count = file.len();
    if memory.len() < count {
        return None;
    }
    memory[..count].copy_from_slice(file);
    Some(Draft::new(memory, count))
}

/// Fixes a file in a draft, and places it. Returns what was changed or why it cannot be fixed, and how many
/// bytes the fixed file has; nothing if there is too little room.
fn mend_in(
    file: &[u8],
    mends: &Mends,
    screens: &mut LentScreens<'_>,
    memory: &mut [u8],
    mended: &mut [u8],
) -> Option<(Result<Mended, Unmended>, usize)>
    requires { length file.now ≤ longest_file }
    ensures tells { IfSome result (λ r. TellsMended mends.now file.now r.0 (take r.1 mended.new)) }
    ensures room { IsNone result → LacksMendingRoom mends.now file.now (row_count screens.old)
        (byte_count screens.old) (length memory.old) (length mended.old) }
{
    let mut draft = copied(memory, file)?;
    match mend_on(screens, &mut draft, mends) {
        Ok(changed) => {
            let size = place(front_bytes(changed.front), draft.file(), mended)?;
            Some((Ok(changed), size))
        }
        Err(error) => match error {
            MendError::NotMended(reason) => Some((Err(reason), 0)),
            MendError::Memory => None,
        },
    }
}

/// Puts what was changed in a file that is fixed, or why it is not.
fn put_answer<W: Write>(out: &mut Outbox<'_, W>, asked: &Mends, answer: &Result<Mended, Unmended>)
    ensures { Puts W.contents out.old out.new (mending_text asked.now answer.now) }
{
    match answer {
        Ok(mended) => put_mended(out, mended),
        Err(reason) => put_unmended(out, asked, asked, reason),
    }
}

/// Fixes a file as `anscheck mend` does, and hands over the text of that. `classes` names what may be changed
/// besides what is changed without being asked, by the flags of `anscheck mend`, added up: 1 `--take-out`,
/// 2 `--crlf`, 4 `--join-rows`, 8 `--least-lines`, 16 `--name-colours`, 32 `--mixed`, 64 `--ice`,
/// 128 `--record`. `add_record` is the columns of the record that is added to a file without one, and
/// `columns` those that the record is to state, each at most 1024; `lines` is the number of lines that is set
/// if the record has too few or none, at most 8192. 0 asks for none of these.
///
/// `draft` and `mended` need as many bytes as the file has and 155 more, with `--crlf` one more for each line
/// feed, and with `--name-colours` 16,777,216 instead of the file's own; `rows` and `bytes` as many as a check
/// of the fixed file needs.
///
/// `PASS`: `mended` begins with the fixed file, `size` is how many bytes it has, and the text says what was
/// changed. It passes from every start. `REFUSED`: the file cannot be fixed this way, `size` is 0, and the
/// text says why. `text` begins with the text, and `told` is how many bytes it has. `TOO_LONG`: the file is
/// too long. `WRONG_NUMBER`: it is not, but `add_record`, `columns` or `lines` is above its largest. `NO_ROOM`: an array
/// is too small. If only `text` is, `told` is how many bytes the text has, and all but the text is as it is
/// after `PASS` or `REFUSED`. In any other case `size` and `told` are 0.
#[unsafe(no_mangle)]
pub extern "C" fn ans_mend_on(
    file: &[u8],
    classes: u32,
    add_record: u32,
    columns: u32,
    lines: u32,
    rows: &mut [LentRow],
    bytes: &mut [u8],
    draft: &mut [u8],
    mended: &mut [u8],
    size: &mut usize,
    text: &mut [u8],
    told: &mut usize,
) -> u32
    ensures handed { result ≢ TOO_LONG → result ≢ WRONG_NUMBER
        → (HandsReport (ReportsMending (mends_of classes add_record columns lines) file.now (take size.new mended.new))
        (length text.old) result told.new text.new
        ⊎ ((result ≡ NO_ROOM) × (told.new ≡ 0) × (size.new ≡ 0)
        × LacksMendingRoom (mends_of classes add_record columns lines) file.now (length rows.old) (length bytes.old)
        (length draft.old) (length mended.old))) }
    ensures too_long { (result ≡ TOO_LONG) ↔ (longest_file < length file.now) }
    ensures wrong_number { (result ≡ WRONG_NUMBER)
        ↔ ((length file.now ≤ longest_file) × ((most_columns < add_record)
        ⊎ (most_columns < columns) ⊎ (most_lines < lines))) }
    ensures silent { (result ≡ TOO_LONG) ⊎ (result ≡ WRONG_NUMBER) → (told.new ≡ 0) × (size.new ≡ 0) }
    ensures codes { (result ≤ WRONG_NUMBER) × (result ≢ 2) }
{
    *size = 0;
    *told = 0;
    if file.len() > MAX_FILE {
        return TOO_LONG;
    }
    let widest = add_record.max(columns) as usize;
    if widest > MAX_WIDTH || lines as usize > MAX_LINES {
        return WRONG_NUMBER;
    }
    let mends = mends_of(classes, add_record, columns, lines);
    let mut screens = LentScreens::new(rows, bytes);
    let Some((answer, count)) = mend_in(file, &mends, &mut screens, draft, mended) else {
        return NO_ROOM;
    };
    *size = count;
    let mut nowhere = Tried::new(Nowhere);
    let mut out = Outbox::new(&mut nowhere);
    put_answer(&mut out, &mends, &answer);
    hand_over(&out, answer.is_ok(), text, told)
}
