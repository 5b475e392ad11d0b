//! Laws of what a scanner holds and gives: each is the contract of a function without a body.

ghost use Rattle.std.specs.Prelude.{◌≡◌, ◌⊎◌, ◌++◌, ◌∷◌, ℕ, List, [], Ok, Err};
ghost use Rattle.ans_model.specs.declared.fault.Fault.{Fault};
ghost use Rattle.ans_model.specs.Sequence.TokenKind.{TokenKind};
ghost use Rattle.ans_model.specs.Sequence.Spelling.{IsUnfinished};
ghost use Rattle.ans_model.specs.Sequence.Reads.{Reads, ReadsAs};
ghost use Rattle.ans_tokens.specs.ScannerView.{ScannerView, Holds, RefusesByte, Ends};
ghost use Rattle.ans_tokens.specs.Scanning.{TakesBytes, kinds_of, token_texts};
ghost use Rattle.ans_tokens.specs.declared.token.Token.{Token};

/// A scanner that holds no bytes, as a new one does, and takes bytes one by one gives the tokens that
/// read them, each with its bytes, and no others. Bytes that have a reading are never refused.
pub fn bytes_give_their_tokens()
    ensures read { (old new : ScannerView) (bytes : List ℕ) (tokens : List Token)
        → Holds old [] → TakesBytes old bytes tokens new → Ends new (Ok tt)
        → ReadsAs bytes (kinds_of tokens) (token_texts old.offset bytes tokens) }
    ensures only { (old new : ScannerView) (bytes : List ℕ) (tokens : List Token)
        (kinds : List TokenKind) → Holds old [] → TakesBytes old bytes tokens new
        → Reads bytes kinds → kinds_of tokens ≡ kinds }
    ensures no_end_in_sequence { (old new : ScannerView) (bytes : List ℕ) (tokens : List Token)
        (kinds : List TokenKind) (fault : Fault) → Holds old [] → TakesBytes old bytes tokens new
        → Reads bytes kinds → Ends new (Err fault) → ⊥ }
    ensures no_refusal { (old new : ScannerView) (bytes rest : List ℕ) (byte : ℕ)
        (tokens : List Token) (kinds : List TokenKind) (fault : Fault)
        → Holds old [] → TakesBytes old bytes tokens new → RefusesByte new byte fault
        → Reads (bytes ++ byte ∷ rest) kinds → ⊥ }
{}
