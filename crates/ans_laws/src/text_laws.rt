//! Laws of sequences and of reading them: each is the contract of a function without a body.

ghost use Rattle.std.specs.Prelude.{◌≡◌, ◌++◌, ℕ, List, All};
ghost use Rattle.ans_model.specs.Sequence.TokenKind.{TokenKind, PrintsByte};
ghost use Rattle.ans_model.specs.Sequence.Spelling.{Raw, Spells, IsUnfinished};
ghost use Rattle.ans_laws.specs.SequenceLaws.{OneSpellingInFront};
ghost use Rattle.ans_model.specs.Sequence.Reads.{Reads};
ghost use Rattle.ans_model.specs.declared.fault.Cause.{Cause};
ghost use Rattle.ans_model.specs.declared.fault.Fault.{Fault};
ghost use Rattle.ans_model.specs.Verdict.Certain.{IsCertain};
ghost use Rattle.ans_model.specs.Screen.State.{Size};
ghost use Rattle.ans_model.specs.Screen.StartClass.{all_known};
ghost use Rattle.ans_model.specs.declared.start.Start.{Start};
ghost use Rattle.ans_model.specs.Verdict.FirstFault.{IsRefused, IsFirstFault};
ghost use Rattle.ans_model.specs.Verdict.LastFault.{IsLastFault};
ghost use Rattle.ans_model.specs.Verdict.Good.{IsGood};

/// No spelling is a proper prefix of another, and no bytes spell two sequences.
pub fn one_spelling()
    ensures { OneSpellingInFront }
{}

/// Bytes are read as one list of tokens at most, and what is printed is a byte.
pub fn one_reading()
    ensures one { (bytes : List ℕ) (tokens others : List TokenKind)
        → Reads bytes tokens → Reads bytes others → tokens ≡ others }
    ensures prints_bytes { (bytes : List ℕ) (tokens : List TokenKind)
        → Reads bytes tokens → All PrintsByte tokens }
{}

/// Bytes that begin with a refused text have no reading. Unfinished bytes have none either, and
/// nothing that is spelled is unfinished.
pub fn refused_or_read()
    ensures refused { (text rest : List ℕ) (cause : Cause) (tokens : List TokenKind)
        → IsRefused text cause → Reads (text ++ rest) tokens → ⊥ }
    ensures unfinished { (text : List ℕ) (tokens : List TokenKind)
        → IsUnfinished text → Reads text tokens → ⊥ }
    ensures ended { (raw : Raw) (text : List ℕ) → Spells raw text → IsUnfinished text → ⊥ }
{}

/// Bytes never have two of these: being good, a first fault, a last fault. Each fault is unique.
pub fn one_answer()
    ensures one_first_fault { (z : Size) (class : Start) (bytes : List ℕ) (f g : Fault)
        → IsFirstFault z class bytes f → IsFirstFault z class bytes g → f ≡ g }
    ensures one_last_fault { (z : Size) (class : Start) (bytes : List ℕ) (f g : Fault)
        → IsLastFault z class bytes f → IsLastFault z class bytes g → f ≡ g }
    ensures not_first_and_last { (z : Size) (class : Start) (bytes : List ℕ) (f g : Fault)
        → IsFirstFault z class bytes f → IsLastFault z class bytes g → ⊥ }
    ensures not_good_and_first { (z : Size) (class : Start) (bytes : List ℕ) (f : Fault)
        → IsGood z class bytes → IsFirstFault z class bytes f → ⊥ }
    ensures not_good_and_last { (z : Size) (class : Start) (bytes : List ℕ) (f : Fault)
        → IsGood z class bytes → IsLastFault z class bytes f → ⊥ }
{}

/// From the cleared start nothing is unknown: each fault is one of F1 to F21.
pub fn certain_from_cleared()
    ensures first { (z : Size) (bytes : List ℕ) (f : Fault)
        → IsFirstFault z all_known bytes f → IsCertain f.cause }
    ensures last { (z : Size) (bytes : List ℕ) (f : Fault)
        → IsLastFault z all_known bytes f → IsCertain f.cause }
{}
