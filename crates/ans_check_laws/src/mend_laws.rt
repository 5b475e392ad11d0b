//! Laws of mending: by itself, and with what is asked for. If colours are named, a body calls the laws of naming on
//! which its own law rests.

ghost use Rattle.std.specs.Prelude.{◌≡◌, ℕ, ◌+◌, ◌<◌, true, false, IsTrue, List, ◌++◌, length};
ghost use Rattle.ans_model.specs.Bytes.{longest_file};
ghost use Rattle.ans_model.specs.File.Layout.{FileParts};
ghost use Rattle.ans_model.specs.File.Record.{stated_size};
ghost use Rattle.ans_model.specs.Screen.State.{Size, State};
ghost use Rattle.ans_model.specs.Screen.StartClass.{all_known, none_known};
ghost use Rattle.ans_model.specs.Verdict.Good.{Picture};
ghost use Rattle.ans_players.specs.Situations.{spelled};
ghost use Rattle.ans_model.specs.Screen.Beginning.{mending};
ghost use Rattle.ans_mend.specs.EndMark.{with_end_mark};
ghost use Rattle.ans_mend.specs.declared.outcome.Mended.{Mended};
ghost use Rattle.ans_mend.specs.declared.outcome.Unmended.{Unmended};
ghost use Rattle.ans_mend.specs.declared.outcome.Unmended.TheVariants.{TooLong};
ghost use Rattle.ans_model.specs.declared.mends.Mends.{Mends};
ghost use Rattle.ans_model.specs.declared.mends.TheConstants.Mends as no_mends;
ghost use Rattle.ans_names_laws.specs.NameLaws.{NeverOwn};
ghost use Rattle.ans_verdict.specs.FileVerdict.{Passes};
ghost use Rattle.ans_mend.specs.Mending.{IsMended, IsReason, front_bytes};
ghost use Rattle.ans_check_laws.specs.BegunFile.{BegunFilePasses};
ghost use Rattle.ans_check_laws.specs.KeptReturns.{KeepsReturns};

use ans_names_laws::{
    cells_stay, named_content_is_read, naming_twice_is_naming_once, no_own_colours_are_left,
};

/// An accepted file that passes from the cleared start passes from every start once the safe
/// beginning is before its content and its FileSize is 25 more. It keeps its size and its notes.
pub fn begun_file_passes()
    ensures { BegunFilePasses }
{}

/// Mending by itself changes no cell of a drawing. What is written of a file that passes from the
/// cleared start is accepted, states the same size, and passes from every start with the same picture.
pub fn mending_keeps_the_picture()
    ensures { (file draft : List ℕ) (apart : FileParts) (picture : Picture) (mended : Mended)
        → Passes file all_known apart picture → IsMended no_mends.NONE file mended draft
        → (new : FileParts) × Passes (front_bytes mended.front ++ draft) none_known new picture
        × (stated_size new.record_bytes ≡ stated_size apart.record_bytes) }
{}

/// Nor does it where colours are named, and nothing else is asked for.
pub fn naming_keeps_the_picture()
    ensures { (file draft : List ℕ) (apart : FileParts) (picture : Picture) (mended : Mended)
        → Passes file all_known apart picture
        → IsMended (record no_mends.NONE { name_colours = true }) file mended draft
        → (new : FileParts) × Passes (front_bytes mended.front ++ draft) none_known new picture
        × (stated_size new.record_bytes ≡ stated_size apart.record_bytes) }
{
    cells_stay();
}

/// No file is both mended and left for a reason, whatever is asked for.
pub fn mended_or_not()
    ensures { (mends : Mends) (file draft : List ℕ) (mended : Mended) (reason : Unmended)
        → IsMended mends file mended draft → ¬ IsReason mends file reason }
{}

/// Mending by itself leaves a file that passes from the cleared start for only one reason: with an end mark and the
/// safe beginning it would be too long.
pub fn what_passes_is_mended()
    ensures { (file : List ℕ) (apart : FileParts) (picture : Picture) (reason : Unmended)
        → Passes file all_known apart picture → IsReason no_mends.NONE file reason
        → (reason ≡ TooLong) × (longest_file < length (with_end_mark file) + length mending) }
{}

/// Mending once is enough: if what is written is mended again in the same way, the same bytes are written. That is so
/// whatever is asked for, names of colours, a width and the flag for bright backgrounds too, with three exceptions. No
/// line ends after full rows are taken out, of which a row may have more than one. If returns are to be put, nothing is
/// taken out with which the last return might go. And the record is not repaired: what is added or removed before it
/// may make another block of comments of the bytes that are there.
pub fn mending_once_is_enough()
    ensures { (mends : Mends) (file draft draft_again : List ℕ) (mended again : Mended)
        → mends.join_rows ≡ false → mends.repair_record ≡ false → KeepsReturns mends
        → IsMended mends file mended draft
        → IsMended mends (front_bytes mended.front ++ draft) again draft_again
        → front_bytes again.front ++ draft_again ≡ front_bytes mended.front ++ draft }
{
    named_content_is_read();
    naming_twice_is_naming_once();
}

/// Where colours are to be named, own colours show nowhere in what is written: from whatever is on the screen
/// before, each cell is printed or cleared while both its colours are named.
pub fn named_files_have_no_own_colours()
    ensures { (mends : Mends) (file draft : List ℕ) (mended : Mended) → IsTrue mends.name_colours
        → (h : IsMended mends file mended draft) (z : Size) (s : State)
        → NeverOwn z s (spelled h.from_every.tokens h.from_every.reads.0) }
{
    named_content_is_read();
    naming_twice_is_naming_once();
    no_own_colours_are_left();
}
