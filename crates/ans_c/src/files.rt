//! The size, the verdict and the needs of a file.

ghost use Rattle.std.specs.Prelude.{◌≡◌, ◌≢◌, ◌↔◌, ◌⊎◌, ◌+◌, ◌*◌, ◌<◌, ◌≤◌, length};
ghost use Rattle.ans_model.specs.Bytes.{longest_file};
ghost use Rattle.ans_model.specs.Screen.StartClass.{all_known};
ghost use Rattle.ans_sauce.specs.Parts.{content_of, width_of, lines_of, size_of};
ghost use Rattle.ans_verdict.specs.FileVerdict.{Deserves};
ghost use Rattle.ans_c.specs.Numbers.{TellsFault, class_of};
ghost use Rattle.ans_c.specs.Told.{LacksCells, LacksScreen, TellsNeeds, TellsPass, TellsPlay, TellsRecordFault};
ghost use Rattle.ans_c.specs.Told.{TellsRefusal, TellsSize};

use crate::cells::copy_cells;
use crate::numbers::{
    NO_ROOM, PASS, PictureSize, REFUSED, TOO_LONG, ToldFault, bits_of, class_of, told, told_size,
};
use ans_model::limits::MAX_FILE;
use ans_model::start::Start;
use ans_sauce::{Judged, Parts, split};
use ans_screen::{HalfCell, LentGrid, LentRow, Screen};
use ans_verdict::{LentScreens, needs_on, play_on};

/// Gives the size of a file's picture and what is to be lent for a check of it. `PASS`: the record and the
/// layout are accepted, and `size` is set. `REFUSED`: they are not, and `fault` says why, F1 to F8.
/// `TOO_LONG`: the file is too long.
#[unsafe(no_mangle)]
pub extern "C" fn ans_size(file: &[u8], size: &mut PictureSize, fault: &mut ToldFault) -> u32
    ensures pass { result ≡ PASS → TellsSize file.now size.new }
    ensures refused { result ≡ REFUSED → TellsRecordFault file.now fault.new }
    ensures too_long { (result ≡ TOO_LONG) ↔ (longest_file < length file.now) }
    ensures codes { (result ≤ TOO_LONG) × (result ≢ 2) }
{
    if file.len() > MAX_FILE {
        return TOO_LONG;
    }
    match split(file) {
        Ok(parts) => {
            *size = told_size(&parts);
            PASS
        }
        Err(found) => {
            *fault = told(&found);
            REFUSED
        }
    }
}

/// Plays the content on a screen, and gives its verdict.
fn tell_play<G: Screen>(
    screen: G,
    parts: &Parts<'_>,
    start: Start,
    glyphs: &mut [u8],
    attributes: &mut [u8],
    fault: &mut ToldFault,
) -> u32
    requires length { length (content_of parts.now) ≤ longest_file }
    requires width { G.width_of screen ≡ width_of parts.now }
    requires rows { G.rows_of screen ≡ lines_of parts.now + 1 }
    requires glyphs { lines_of parts.now * width_of parts.now ≤ length glyphs.old }
    requires attributes { lines_of parts.now * width_of parts.now ≤ length attributes.old }
    ensures { TellsPlay (size_of parts.now) start (content_of parts.now) result glyphs.new attributes.new fault.new }
{
    match play_on(screen, parts, start) {
        Ok(picture) => {
            copy_cells(&picture, glyphs, attributes);
            PASS
        }
        Err(found) => {
            *fault = told(&found);
            REFUSED
        }
    }
}

/// Checks a file from the starts of the class that `known` names: 1 the screen, 2 the cursor, 4 the saved
/// cursor, 8 the colours, 16 wrap, added up; other bits are ignored. It needs a row for each line and one
/// more, four bytes for each column of each row, and as many glyphs and attributes as `ans_size` gives cells.
/// `PASS`: from every such start the content shows the picture with whose bytes and attributes `glyphs` and
/// `attributes` begin, row by row. `REFUSED`: `fault` says why. `TOO_LONG`: the file is too long.
/// `NO_ROOM`: an array is too small.
#[unsafe(no_mangle)]
pub extern "C" fn ans_check_on(
    file: &[u8],
    known: u32,
    rows: &mut [LentRow],
    bytes: &mut [u8],
    glyphs: &mut [u8],
    attributes: &mut [u8],
    fault: &mut ToldFault,
) -> u32
    ensures pass { result ≡ PASS → TellsPass file.now (class_of known) glyphs.new attributes.new }
    ensures refused { result ≡ REFUSED → TellsRefusal file.now (class_of known) fault.new }
    ensures too_long { (result ≡ TOO_LONG) ↔ (longest_file < length file.now) }
    ensures no_room { result ≡ NO_ROOM → LacksScreen file.now (length rows.old) (length bytes.old)
        ⊎ LacksCells file.now (length glyphs.old) (length attributes.old) }
    ensures codes { (result ≤ NO_ROOM) × (result ≢ 2) }
{
    if file.len() > MAX_FILE {
        return TOO_LONG;
    }
    let parts = match split(file) {
        Ok(parts) => parts,
        Err(found) => {
            *fault = told(&found);
            return REFUSED;
        }
    };
    let width = parts.width();
    let lines = parts.lines();
    let cells = width * lines;
    if glyphs.len() < cells || attributes.len() < cells {
        return NO_ROOM;
    }
    match LentGrid::on(rows, bytes, width, lines + 1, HalfCell::unknown()) {
        Some(screen) => tell_play(screen, &parts, class_of(known), glyphs, attributes, fault),
        None => NO_ROOM,
    }
}

/// Gives what a file needs, with as many rows and bytes as a check of it needs. `PASS`: its content passes from
/// the cleared start, and from exactly the classes that know each part that `parts` names, by the bits of
/// `ans_check_on`. `REFUSED`: it is refused even from the cleared start, and `fault` says why. `TOO_LONG`: the
/// file is too long. `NO_ROOM`: there are too few rows or bytes.
#[unsafe(no_mangle)]
pub extern "C" fn ans_needs_on(
    file: &[u8],
    rows: &mut [LentRow],
    bytes: &mut [u8],
    parts: &mut u32,
    fault: &mut ToldFault,
) -> u32
    ensures pass { result ≡ PASS → TellsNeeds file.now parts.new }
    ensures refused { result ≡ REFUSED → TellsRefusal file.now all_known fault.new }
    ensures too_long { (result ≡ TOO_LONG) ↔ (longest_file < length file.now) }
    ensures no_room { result ≡ NO_ROOM → LacksScreen file.now (length rows.old) (length bytes.old) }
    ensures codes { (result ≤ NO_ROOM) × (result ≢ 2) }
{
    if file.len() > MAX_FILE {
        return TOO_LONG;
    }
    let Ok(needs) = needs_on(&mut LentScreens::new(rows, bytes), file) else {
        return NO_ROOM;
    };
    match needs {
        Judged::Passes(_, class) => {
            *parts = bits_of(class);
            PASS
        }
        Judged::NoContent(found) | Judged::Refused(_, found) => {
            *fault = told(&found);
            REFUSED
        }
    }
}
