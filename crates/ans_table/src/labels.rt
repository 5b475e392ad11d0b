//! The words and labels of a row: its verdict, taller screens, and notes.

ghost use Rattle.std.specs.Prelude.{◌≡◌};
ghost use Rattle.std.specs.List.{flat_map};
ghost use Rattle.ans_write.specs.Puts.{Puts};
ghost use Rattle.ans_table.specs.Labels.{labels_text, later_label, note_label, taller_word, verdict_word};

use crate::counts::Outcome;
use ans_model::note::Note;
use ans_write::Outbox;
use std::io::Write;

/// The verdict on a file.
pub(crate) fn verdict_word(outcome: Outcome) -> &'static str
    ensures { result.now ≡ verdict_word outcome }
{
    match outcome {
        Outcome::Pass => "pass",
        Outcome::Cleared => "cleared",
        Outcome::Refused => "refused",
        Outcome::Unread => "error",
    }
}

/// `same` if the picture is shown to be the same on every taller screen, else nothing.
pub(crate) fn taller_word(same: bool) -> &'static str
    ensures { result.now ≡ taller_word same }
{
    if same { "same" } else { "" }
}

/// Puts the label of a note, such as `N1`.
fn put_label<W: Write>(out: &mut Outbox<'_, W>, note: Note)
    ensures { Puts W.contents out.old out.new (note_label note) }
{
    out.put(b"N");
    out.put_decimal(u64::from(note.number()));
}

fn put_later_labels<W: Write>(out: &mut Outbox<'_, W>, notes: &[Note])
    ensures { Puts W.contents out.old out.new (flat_map later_label notes.now) }
{
    for note in notes {
        out.put(b" ");
        put_label(out, *note);
    }
}

/// Puts the labels of notes, with a blank between each two.
pub(crate) fn put_labels<W: Write>(out: &mut Outbox<'_, W>, notes: &[Note])
    ensures { Puts W.contents out.old out.new (labels_text notes.now) }
{
    let [first, later @ ..] = notes else {
        return;
    };
    put_label(out, *first);
    put_later_labels(out, later);
}
