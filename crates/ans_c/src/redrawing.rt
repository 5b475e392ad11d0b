//! A file that is redrawn.

ghost use Rattle.std.specs.Prelude.{◌≡◌, ◌≢◌, ◌↔◌, ◌⊎◌, ◌+◌, ◌<◌, ◌≤◌, IfErr, IfOk, IfSome, IsNone, length, take};
ghost use Rattle.ans_model.specs.Bytes.{longest_file};
ghost use Rattle.ans_redraw.specs.RedrawnFile.{IsRedrawnWith, IsTooLong, redrawn_file};
ghost use Rattle.ans_sauce.specs.Parts.{lines_of, width_of};
ghost use Rattle.ans_sauce.specs.Split.{IsSplit};
ghost use Rattle.ans_write.specs.Puts.{Puts};
ghost use Rattle.ans_c.specs.Told.{HandsReport, HoldsRedrawn, LacksRedrawnRoom, LacksScreen, ReportsRedrawing};
ghost use Rattle.ans_c.specs.Told.{redrawing_text, whole_of};

use crate::numbers::{NO_ROOM, TOO_LONG};
use crate::texts::{Nowhere, hand_over};
use ans_model::limits::MAX_FILE;
use ans_model::start::Start;
use ans_play::Picture;
use ans_redraw::{Redrawn, Unredrawn, copy_redrawn_file, put_redrawn, put_unredrawn, redrawn_with};
use ans_sauce::{Parts, split};
use ans_screen::{HalfCell, LentGrid, LentRow, Screen};
use ans_verdict::play_on;
use ans_write::{Outbox, Tried};
use std::io::Write;

/// Redraws a file with this picture, in an array that has room for it, or in none.
fn redraw_with<G: Screen>(
    file: &[u8],
    parts: &Parts<'_>,
    picture: &Picture<G>,
    array: &mut [u8],
) -> Result<Redrawn, Unredrawn>
    requires length { length file.now ≤ longest_file }
    requires split { IsSplit file.now parts.now }
    ensures redrawn { IfOk result (IsRedrawnWith file.now picture.now) }
    ensures too_long { IfErr result (IsTooLong file.now picture.now) }
    ensures copied { IfOk result (λ redrawn. redrawn.whole ≤ length array.old
        → take redrawn.whole array.new ≡ redrawn_file file.now picture.now) }
{
    let redrawn = redrawn_with(file, parts, picture)?;
    if redrawn.whole <= array.len() {
        copy_redrawn_file(file, parts, picture, &redrawn, array);
    }
    Ok(redrawn)
}

/// Plays the content on a screen, and redraws the file with its picture.
fn redraw_on<G: Screen>(
    screen: G,
    file: &[u8],
    parts: &Parts<'_>,
    array: &mut [u8],
) -> Result<Redrawn, Unredrawn>
    requires length { length file.now ≤ longest_file }
    requires split { IsSplit file.now parts.now }
    requires width { G.width_of screen ≡ width_of parts.now }
    requires rows { G.rows_of screen ≡ lines_of parts.now + 1 }
    ensures { HoldsRedrawn file.now (length array.old) array.new result }
{
    match play_on(screen, parts, Start::CLEARED) {
        Ok(picture) => redraw_with(file, parts, &picture, array),
        Err(fault) => Err(Unredrawn::Refused(fault)),
    }
}

/// Redraws a file in an array, with its screen on rows and bytes that are lent. If the array has no room for
/// the redrawn file, there is an answer all the same; if there is none for the screen, there is no answer.
fn redraw_in(
    file: &[u8],
    rows: &mut [LentRow],
    bytes: &mut [u8],
    array: &mut [u8],
) -> Option<Result<Redrawn, Unredrawn>>
    requires { length file.now ≤ longest_file }
    ensures holds { IfSome result (HoldsRedrawn file.now (length array.old) array.new) }
    ensures room { IsNone result → LacksScreen file.now (length rows.old) (length bytes.old) }
{
    let parts = match split(file) {
        Ok(parts) => parts,
        Err(fault) => return Some(Err(Unredrawn::Refused(fault))),
    };
    let width = parts.width();
    let lines = parts.lines();
    let screen = LentGrid::on(rows, bytes, width, lines + 1, HalfCell::unknown())?;
    Some(redraw_on(screen, file, &parts, array))
}

/// How many bytes the redrawn file has; 0 if there is none.
fn whole_of(answer: &Result<Redrawn, Unredrawn>) -> usize
    ensures { result ≡ whole_of answer.now }
{
    match answer {
        Ok(redrawn) => redrawn.whole,
        Err(_) => 0,
    }
}

/// Puts what was changed in a file that is redrawn, or why it is not.
fn put_answer<W: Write>(out: &mut Outbox<'_, W>, answer: &Result<Redrawn, Unredrawn>)
    ensures { Puts W.contents out.old out.new (redrawing_text answer.now) }
{
    match answer {
        Ok(redrawn) => put_redrawn(out, redrawn),
        Err(reason) => put_unredrawn(out, reason),
    }
}

/// Redraws a file as `anscheck redraw` does, and hands over the text of that. `rows` and `bytes` need as many as
/// a check of it needs, and `redrawn` as many bytes as the redrawn file has.
///
/// `PASS`: `redrawn` begins with the redrawn file, `size` is how many bytes it has, and the text says what was
/// changed. It passes from every start. `REFUSED`: the file does not pass from the cleared start, or the
/// redrawn one would be too long; `size` is 0, and the text says which. `text` begins with the text, and `told`
/// is how many bytes it has. `TOO_LONG`: the file is too long, and `size` and `told` are 0. `NO_ROOM`: an array
/// is too small. If it is `redrawn`, `size` is how many bytes that needs, and `told` is 0. If only `text` is,
/// `told` is how many bytes the text has, and all but the text is as it is after `PASS` or `REFUSED`. If there
/// are too few rows or bytes, both are 0.
#[unsafe(no_mangle)]
pub extern "C" fn ans_redraw_on(
    file: &[u8],
    rows: &mut [LentRow],
    bytes: &mut [u8],
    redrawn: &mut [u8],
    size: &mut usize,
    text: &mut [u8],
    told: &mut usize,
) -> u32
    ensures handed { result ≢ TOO_LONG
        → ((size.new ≤ length redrawn.old)
        × HandsReport (ReportsRedrawing file.now (take size.new redrawn.new))
        (length text.old) result told.new text.new)
        ⊎ ((result ≡ NO_ROOM) × (told.new ≡ 0) × LacksRedrawnRoom file.now size.new (length redrawn.old))
        ⊎ ((result ≡ NO_ROOM) × (told.new ≡ 0) × (size.new ≡ 0)
        × LacksScreen file.now (length rows.old) (length bytes.old)) }
    ensures too_long { (result ≡ TOO_LONG) ↔ (longest_file < length file.now) }
    ensures silent { result ≡ TOO_LONG → (told.new ≡ 0) × (size.new ≡ 0) }
    ensures codes { (result ≤ NO_ROOM) × (result ≢ 2) }
{
    *size = 0;
    *told = 0;
    if file.len() > MAX_FILE {
        return TOO_LONG;
    }
    let room = redrawn.len();
    let Some(answer) = redraw_in(file, rows, bytes, redrawn) else {
        return NO_ROOM;
    };
    let whole = whole_of(&answer);
    *size = whole;
    if room < whole {
        return NO_ROOM;
    }
    let mut nowhere = Tried::new(Nowhere);
    let mut out = Outbox::new(&mut nowhere);
    put_answer(&mut out, &answer);
    hand_over(&out, answer.is_ok(), text, told)
}
