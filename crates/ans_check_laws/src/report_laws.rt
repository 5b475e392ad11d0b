//! Laws of what is answered of a file.

ghost use Rattle.std.specs.Prelude.{◌≡◌, ◌↔◌, ℕ, Bool, false, List, IsTrue};
ghost use Rattle.ans_model.specs.File.Layout.{FileParts};
ghost use Rattle.ans_model.specs.Screen.StartClass.{Covers};
ghost use Rattle.ans_model.specs.declared.start.Start.{Start};
ghost use Rattle.ans_check.specs.CommandText.{ReportsCheck, ReportsNeeds};
ghost use Rattle.ans_verdict.specs.FileNeeds.{NeedsClass};
ghost use Rattle.ans_verdict.specs.FileVerdict.{IsGoodFile};

/// Where the parts that a file needs are found, it is good for exactly those classes that know each
/// of them, and a check passes from exactly those. Where a file is refused instead, it is good for no
/// class, and no check passes.
pub fn needs_agree_with_checks()
    ensures good { (file : List ℕ) (apart : FileParts) (class start : Start)
        → NeedsClass file apart class → IsGoodFile file start ↔ Covers class start }
    ensures passes { (file text : List ℕ) (apart : FileParts) (class start : Start)
        (cells passed : Bool)
        → NeedsClass file apart class → ReportsCheck file start cells passed text
        → IsTrue passed ↔ Covers class start }
    ensures never_good { (file text : List ℕ) (start : Start)
        → ReportsNeeds file false text → ¬ IsGoodFile file start }
    ensures never_passes { (file text other : List ℕ) (start : Start) (cells passed : Bool)
        → ReportsNeeds file false other → ReportsCheck file start cells passed text
        → passed ≡ false }
{}
