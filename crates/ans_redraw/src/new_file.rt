//! The file that is put in the place of another.

ghost use Rattle.std.specs.Prelude.{◌≡◌, ◌-◌, ◌≤◌, ◌++◌, ◌+◌, [], ◌∷◌, length, take, drop, IfOk, IfErr};
ghost use Rattle.std.specs.Prelude.{if◌then◌else◌, ◌==◌, None, Some};
ghost use Rattle.std.specs.List.{list_any};
ghost use Rattle.ans_model.specs.Bytes.{end_mark, longest_file};
ghost use Rattle.ans_model.specs.File.Layout.{is_end_mark};
ghost use Rattle.ans_sauce.specs.Found.{front_in};
ghost use Rattle.ans_sauce.specs.Split.{IsSplit};
ghost use Rattle.ans_sauce.specs.Contents.{content_in};
ghost use Rattle.ans_redraw.specs.Form.{form_bytes};
ghost use Rattle.ans_write.specs.Puts.{Puts};
ghost use Rattle.ans_redraw.specs.RedrawnFile.{IsRedrawnWith, IsTooLong, redrawn_file};

use crate::form::{form_length, give_form};
use crate::outcome::{Redrawn, Unredrawn};
use crate::sink::{Copy, Sink};
use ans_model::limits::MAX_FILE;
use ans_play::Picture;
use ans_sauce::fields::{END_MARK, RECORD_SIZE};
use ans_sauce::{Parts, Reset};
use ans_screen::Screen;
use ans_write::Outbox;
use std::io::Write;

/// What is between a file's content and its record: end marks, and the comments.
fn behind_content<'a>(file: &'a [u8], parts: &Parts<'_>) -> &'a [u8]
    requires { IsSplit file.now parts.now }
    ensures { result.now ≡ drop (length (content_in file.now)) (front_in file.now) }
{
    &file[parts.content().len()..file.len() - RECORD_SIZE]
}

/// The end mark to be put before these bytes, if they do not begin with one.
fn missing_mark(behind: &[u8]) -> &'static [u8]
    ensures { result.now ≡ (if list_any is_end_mark (take 1 behind.now) then [] else end_mark ∷ []) }
{
    if behind.first() == Some(&END_MARK) {
        b""
    } else {
        &[END_MARK]
    }
}

/// Where the end mark is after a form of this length, if one is put.
fn place_of_mark(mark: &[u8], form: usize) -> Option<usize>
    ensures { result ≡ (if length mark.now == 0 then None else Some form) }
{
    if mark.is_empty() { None } else { Some(form) }
}

/// What redrawing a file with this picture changes of it. `TooLong` comes where the new file would have more
/// than 16,777,216 bytes, and no other error does.
pub fn redrawn_with<G: Screen>(
    file: &[u8],
    parts: &Parts<'_>,
    picture: &Picture<G>,
) -> Result<Redrawn, Unredrawn>
    requires length { length file.now ≤ longest_file }
    requires split { IsSplit file.now parts.now }
    ensures redrawn { IfOk result (IsRedrawnWith file.now picture.now) }
    ensures too_long { IfErr result (IsTooLong file.now picture.now) }
{
    let form = form_length(picture);
    let behind = behind_content(file, parts);
    let mark = missing_mark(behind);
    let whole = form.saturating_add(mark.len() + behind.len() + RECORD_SIZE);
    if whole > MAX_FILE {
        return Err(Unredrawn::TooLong(whole));
    }
    Ok(Redrawn {
        content: Reset {
            was: parts.content().len() as u32,
            is: form as u32,
        },
        end_mark: place_of_mark(mark, form),
        file_size: Reset {
            was: parts.sauce().file_size(),
            is: form as u32,
        },
        whole,
    })
}

/// Gives the file that is redrawn with this picture, whose form has this length.
#[inline(never)]
fn give_redrawn_file<S: Sink, G: Screen>(
    sink: &mut S,
    file: &[u8],
    parts: &Parts<'_>,
    picture: &Picture<G>,
    size: u32,
)
    requires split { IsSplit file.now parts.now }
    requires size { size ≡ length (form_bytes picture.now) }
    ensures { S.takes sink.old sink.new (redrawn_file file.now picture.now) }
{
    let behind = behind_content(file, parts);
    give_form(sink, picture);
    sink.take(missing_mark(behind));
    sink.take(behind);
    sink.take(&parts.sauce().with_file_size(size));
}

/// Puts the file that is redrawn with this picture, of which `redrawn` says what is changed.
pub fn put_redrawn_file<W: Write, G: Screen>(
    out: &mut Outbox<'_, W>,
    file: &[u8],
    parts: &Parts<'_>,
    picture: &Picture<G>,
    redrawn: &Redrawn,
)
    requires split { IsSplit file.now parts.now }
    requires redrawn { IsRedrawnWith file.now picture.now redrawn.now }
    ensures { Puts W.contents out.old out.new (redrawn_file file.now picture.now) }
{
    give_redrawn_file(out, file, parts, picture, redrawn.file_size.is);
}

/// Copies the file that is redrawn with this picture to the start of an array; `redrawn` says what is changed. The
/// array is as long as it was; after the file it may hold anything.
pub fn copy_redrawn_file<G: Screen>(
    file: &[u8],
    parts: &Parts<'_>,
    picture: &Picture<G>,
    redrawn: &Redrawn,
    array: &mut [u8],
)
    requires split { IsSplit file.now parts.now }
    requires redrawn { IsRedrawnWith file.now picture.now redrawn.now }
    requires room { redrawn.now.whole ≤ length array.old }
    ensures file { take redrawn.now.whole array.new ≡ redrawn_file file.now picture.now }
    ensures length { length array.new ≡ length array.old }
{
    let mut copy = Copy { array, used: 0 };
    give_redrawn_file(&mut copy, file, parts, picture, redrawn.file_size.is);
}
