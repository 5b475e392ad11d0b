//! How far a tab goes.

ghost use Rattle.std.specs.Prelude.{◌≡◌};
ghost use Rattle.ans_model.specs.Screen.Step.{tab_blanks};

/// How many blanks a tab prints from a column, counted from 0: 1 to 8, up to the next column that 8
/// divides (profile).
pub fn tab_blanks(column: usize) -> usize
    ensures { result ≡ tab_blanks column }
{
    8 - column % 8
}
