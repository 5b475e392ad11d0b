//! What is odd about a record.
ghost use Rattle.std.specs.Prelude.{◌≡◌, ◌+◌, ◌≤◌, ◌<◌, ◌==◌, ◌||◌, ◌++◌, not, length, bit_and};
ghost use Rattle.std.specs.List.{list_any, list_all};
ghost use Rattle.std.specs.Char.{is_ascii_digit};
ghost use Rattle.arrayvec.specs.ArrayVec.{array_vec_len};
ghost use Rattle.ans_model.specs.File.Record.{tinfo, file_size, date_field, flags, letter_spacing, aspect_ratio};
ghost use Rattle.ans_model.specs.File.Layout as layout;
ghost use Rattle.ans_model.specs.File.Layout.{is_end_mark};
ghost use Rattle.ans_model.specs.File.NoteConditions.{note_if, notes, unused_flags};
ghost use Rattle.ans_sauce.specs.RecordBytes.{sauce_bytes};

use crate::record::Record;
use ans_model::note::Note;
use arrayvec::ArrayVec;

/// SAUCE 00.5, ANSiFlags: the bits that have no meaning.
const UNUSED_FLAGS: u8 = 0xE0;

fn assumes_width(sauce: &Record<'_>) -> bool
    ensures { result ≡ (tinfo 1 (sauce_bytes sauce.now) == 0) }
{
    sauce.tinfo(1) == 0
}

fn has_end_mark(body: &[u8], content: &[u8]) -> bool
    requires { content.now ≡ layout.content body.now }
    ensures { result ≡ list_any is_end_mark body.now }
{
    content.len() != body.len()
}

fn differs_in_size(sauce: &Record<'_>, content: &[u8]) -> bool
    ensures { result ≡ not (file_size (sauce_bytes sauce.now) == length content.now
        || file_size (sauce_bytes sauce.now) == length content.now + 1) }
{
    let size = sauce.file_size() as usize;
    size != content.len() && size != content.len() + 1
}

fn has_numeric_date(sauce: &Record<'_>) -> bool
    ensures { result ≡ list_all is_ascii_digit (date_field (sauce_bytes sauce.now)) }
{
    sauce.date_bytes().iter().all(|b| b.is_ascii_digit())
}

fn sets_unused_flags(sauce: &Record<'_>) -> bool
    ensures { result ≡ not (bit_and (flags (sauce_bytes sauce.now)) unused_flags == 0) }
{
    sauce.flags() & UNUSED_FLAGS != 0
}

fn has_invalid_pair(sauce: &Record<'_>) -> bool
    ensures { result ≡ (aspect_ratio (sauce_bytes sauce.now) == 3 || letter_spacing (sauce_bytes sauce.now) == 3) }
{
    sauce.aspect_ratio() == 3 || sauce.letter_spacing() == 3
}

fn push_if(notes: &mut ArrayVec<Note, 6>, applies: bool, note: Note)
    requires { array_vec_len notes.old < 6 }
    ensures items { notes.new.items ≡ notes.old.items ++ note_if applies note }
    ensures len { array_vec_len notes.new ≤ array_vec_len notes.old + 1 }
{
    if applies {
        notes.push(note);
    }
}

/// The notes on the record of a file with this body and content.
pub(crate) fn notes_on(body: &[u8], content: &[u8], sauce: &Record<'_>) -> ArrayVec<Note, 6>
    requires { content.now ≡ layout.content body.now }
    ensures { result.items ≡ notes body.now (sauce_bytes sauce.now) }
{
    let mut notes = ArrayVec::new();
    push_if(&mut notes, assumes_width(sauce), Note::WidthAssumed);
    push_if(&mut notes, !has_end_mark(body, content), Note::NoEndMark);
    push_if(
        &mut notes,
        differs_in_size(sauce, content),
        Note::SizeDiffers,
    );
    push_if(&mut notes, !has_numeric_date(sauce), Note::OddDate);
    push_if(&mut notes, sets_unused_flags(sauce), Note::FlagBits);
    push_if(&mut notes, has_invalid_pair(sauce), Note::FlagPair);
    notes
}
