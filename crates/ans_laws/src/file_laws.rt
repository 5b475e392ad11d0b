//! Laws of files: each is the contract of a function without a body.

ghost use Rattle.std.specs.Prelude.{◌≡◌, ◌≤◌, ◌↔◌, ℕ, List, length, Some, None};
ghost use Rattle.ans_model.specs.declared.fault.Fault.{Fault};
ghost use Rattle.ans_model.specs.File.Layout.{FileParts, Laid};
ghost use Rattle.ans_model.specs.File.Refusals.{Accepts, file_refusals, record_fault};
ghost use Rattle.ans_laws.specs.FileLaws.{IsFirstThatApplies};

/// A file is accepted exactly where no refusal applies to it, and is laid out in one way.
pub fn accepted_or_refused()
    ensures accepted { (file : List ℕ) → record_fault file ≡ None
        → (parts : FileParts) × Accepts file parts }
    ensures no_fault { (file : List ℕ) (parts : FileParts)
        → Accepts file parts → record_fault file ≡ None }
    ensures one_layout { (file : List ℕ) (parts other : FileParts)
        → Laid file parts → Laid file other → parts ≡ other }
{}

/// Where several refusals apply, a file gets the first of them, at an offset within the file.
pub fn first_refusal_answers()
    ensures first { (file : List ℕ) (fault : Fault)
        → (record_fault file ≡ Some fault) ↔ IsFirstThatApplies (file_refusals file) fault }
    ensures within { (file : List ℕ) (fault : Fault)
        → record_fault file ≡ Some fault → fault.offset ≤ length file }
{}
