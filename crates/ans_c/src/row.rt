//! The row of a file.

ghost use Rattle.std.specs.Prelude.{◌≡◌, ◌≢◌, ◌↔◌, ◌<◌, ◌≤◌, length};
ghost use Rattle.ans_model.specs.Bytes.{longest_file};
ghost use Rattle.ans_sauce.specs.Judged.{is_pass, parts_in};
ghost use Rattle.ans_why.specs.Explained.{IsTrueOf};
ghost use Rattle.ans_c.specs.Row.{TellsParts, TellsRow};
ghost use Rattle.ans_c.specs.Told.{LacksScreen, code_of};

use crate::numbers::{NO_ROOM, TOO_LONG};
use crate::row_fields::{fields_of, parts_of};
use crate::row_numbers::{ToldParts, ToldRow, blame_of, passing_in};
use crate::texts::code_of;
use ans_model::limits::MAX_FILE;
use ans_sauce::Judged;
use ans_screen::LentRow;
use ans_verdict::{LentScreens, why_on};
use ans_why::Why;

/// The parts of a file that this is said of.
fn parts_told(file: &[u8], why: &Why<'_>) -> ToldParts
    requires { IsTrueOf file.now why.now }
    ensures { TellsParts file.now (parts_in why.now) result }
{
    match why {
        Judged::NoContent(_) => ToldParts::default(),
        Judged::Refused(parts, _) => parts_of(file, parts),
        Judged::Passes(parts, _) => parts_of(file, parts),
    }
}

fn told_row(file: &[u8], why: &Why<'_>) -> ToldRow
    requires length { length file.now ≤ longest_file }
    requires is_true { IsTrueOf file.now why.now }
    ensures { TellsRow file.now (code_of (is_pass why.now)) result }
{
    ToldRow {
        passing: passing_in(why),
        blame: blame_of(why),
        parts: parts_told(file, why),
        fields: fields_of(file),
    }
}

/// Gives in numbers what `anscheck why` and a row of `anscheck table` say of a file, with as many rows and bytes
/// as a check of it needs. It leaves out the hints, how often and where first players differ, the two cells of
/// F25, and the line `found:`. `PASS`: the file passes from the cleared start, and from every start if it needs
/// no part. `REFUSED`: it does not. `row` is set after both. `TOO_LONG`: the file is too long. `NO_ROOM`: there
/// are too few rows or bytes.
#[unsafe(no_mangle)]
pub extern "C" fn ans_row_on(
    file: &[u8],
    rows: &mut [LentRow],
    bytes: &mut [u8],
    row: &mut ToldRow,
) -> u32
    ensures told { result ≢ TOO_LONG → result ≢ NO_ROOM → TellsRow file.now result row.new }
    ensures too_long { (result ≡ TOO_LONG) ↔ (longest_file < length file.now) }
    ensures no_room { result ≡ NO_ROOM → LacksScreen file.now (length rows.old) (length bytes.old) }
    ensures codes { (result ≤ NO_ROOM) × (result ≢ 2) }
{
    if file.len() > MAX_FILE {
        return TOO_LONG;
    }
    let Ok(why) = why_on(&mut LentScreens::new(rows, bytes), file) else {
        return NO_ROOM;
    };
    *row = told_row(file, &why);
    code_of(why.is_pass())
}
