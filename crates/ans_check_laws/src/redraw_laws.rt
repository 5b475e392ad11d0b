//! Laws of redrawing.

ghost use Rattle.std.specs.Prelude.{◌≡◌, ◌↔◌, ◌++◌, ℕ, List};
ghost use Rattle.std.specs.List.{filter};
ghost use Rattle.ans_model.specs.File.Layout.{FileParts};
ghost use Rattle.ans_model.specs.File.NoteConditions.{notes};
ghost use Rattle.ans_model.specs.File.Record.{stated_size};
ghost use Rattle.ans_model.specs.Screen.StartClass.{all_known};
ghost use Rattle.ans_model.specs.Verdict.Good.{Picture};
ghost use Rattle.ans_model.specs.declared.start.Start.{Start};
ghost use Rattle.ans_sauce.specs.Contents.{content_in};
ghost use Rattle.ans_mend.specs.declared.outcome.Mended.{Mended};
ghost use Rattle.ans_model.specs.declared.mends.Mends.{Mends};
ghost use Rattle.ans_picture_laws.specs.RedrawnFileLaws.{note_stays};
ghost use Rattle.ans_redraw.specs.RedrawnFile.{IsTooLong};
ghost use Rattle.ans_redraw.specs.declared.outcome.Redrawn.{Redrawn};
ghost use Rattle.ans_redraw.specs.declared.outcome.Unredrawn.{Unredrawn};
ghost use Rattle.ans_verdict.specs.FileVerdict.{Passes};
ghost use Rattle.ans_mend.specs.Mending.{IsMended, front_bytes};
ghost use Rattle.ans_redraw.specs.Redrawing.{IsReasonNot, IsRedrawn};

/// Redrawing changes no cell of a drawing. What is written passes from every start with the picture that the
/// file shows from the cleared one. It states the same size, has the same comments, and of the notes those
/// that are not on the end mark or the file size.
pub fn redrawing_keeps_the_picture()
    ensures { (file new : List ℕ) (apart : FileParts) (picture : Picture) (redrawn : Redrawn)
        → Passes file all_known apart picture → IsRedrawn file redrawn new
        → (new_apart : FileParts) × ((class : Start) → Passes new class new_apart picture)
        × (stated_size new_apart.record_bytes ≡ stated_size apart.record_bytes)
        × (new_apart.comment_bytes ≡ apart.comment_bytes)
        × (notes new_apart.body new_apart.record_bytes
        ≡ filter note_stays (notes apart.body apart.record_bytes)) }
{}

/// To redraw once is enough: of what is written, redrawn again, the same bytes are written. There is never a
/// reason why not.
pub fn redrawing_once_is_enough()
    ensures same { (file new newer : List ℕ) (redrawn again : Redrawn)
        → IsRedrawn file redrawn new → IsRedrawn new again newer → newer ≡ new }
    ensures always { (file new : List ℕ) (redrawn : Redrawn) (reason : Unredrawn)
        → IsRedrawn file redrawn new → ¬ IsReasonNot new reason }
{}

/// A mended file can be redrawn, but where it would be too long.
pub fn mended_files_can_be_redrawn()
    ensures { (mends : Mends) (file draft : List ℕ) (mended : Mended) (reason : Unredrawn)
        → (is : IsMended mends file mended draft) → IsReasonNot (front_bytes mended.front ++ draft) reason
        → IsTooLong (front_bytes mended.front ++ draft) is.picture reason }
{}

/// A file that passes from the cleared start is left as it is for only one reason: with the form of its picture it
/// would be longer than a file may be. The reason gives that length.
pub fn only_length_stands_in_the_way()
    ensures { (file : List ℕ) (apart : FileParts) (picture : Picture) (reason : Unredrawn)
        → Passes file all_known apart picture → IsReasonNot file reason → IsTooLong file picture reason }
{}

/// Two drawings that state one size show the same picture exactly where their contents, once redrawn, are the
/// same bytes.
pub fn equal_pictures_have_equal_contents()
    ensures { (file other new other_new : List ℕ) (apart other_apart : FileParts) (p q : Picture)
        (redrawn other_redrawn : Redrawn)
        → Passes file all_known apart p → Passes other all_known other_apart q
        → stated_size apart.record_bytes ≡ stated_size other_apart.record_bytes
        → IsRedrawn file redrawn new → IsRedrawn other other_redrawn other_new
        → (content_in new ≡ content_in other_new) ↔ (p ≡ q) }
{}
