//! Laws of which classes of starts cover which.

ghost use Rattle.std.specs.Prelude.{◌↔◌};
ghost use Rattle.ans_model.specs.Screen.State.{Size, IsSize};
ghost use Rattle.ans_model.specs.Screen.StartClass.{Covers};
ghost use Rattle.ans_model.specs.declared.start.Start.{Start};
ghost use Rattle.ans_check_laws.specs.Starts.{HasStartsOf};

/// A class covers another exactly where each start of the other is one of its own. That is so on a
/// screen of any size, since each part of a start has a second value there.
pub fn covering_is_having_the_starts()
    ensures { (z : Size) (a b : Start) → IsSize z → Covers a b ↔ HasStartsOf z a b }
{}
