//! Laws of the texts that are written: each is the contract of a function without a body.

ghost use Rattle.std.specs.Prelude.{◌≡◌, ℕ, List, Option, flat_map};
ghost use Rattle.ans_model.specs.declared.fault.Fault.{Fault};
ghost use Rattle.ans_model.specs.Screen.State.{Size};
ghost use Rattle.ans_model.specs.Verdict.Good.{Picture, IsPictureOf};
ghost use Rattle.ans_model.specs.Text.ReportText.{cells_line, rows_of, picture_back};
ghost use Rattle.ans_model.specs.Text.TokensText.{TokensText};

/// The cells of a picture are read back from their digits.
pub fn cells_read_back()
    ensures { (z : Size) (picture : Picture) → IsPictureOf z picture
        → picture_back z.width z.lines (flat_map cells_line (rows_of picture)) ≡ picture.cells }
{}

/// Content has at most one text of its tokens, and at most one end of their reading: a fault, or
/// none.
pub fn one_text_of_tokens()
    ensures text { (content text other : List ℕ) (f g : Option Fault)
        → TokensText content f text → TokensText content g other → text ≡ other }
    ensures fault { (content text other : List ℕ) (f g : Option Fault)
        → TokensText content f text → TokensText content g other → f ≡ g }
{}
