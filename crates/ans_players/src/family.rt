//! What a player is.

ghost use Rattle.std.specs.Prelude.{Bool};
ghost use Rattle.ans_model.specs.Screen.State.{Size};
ghost use Rattle.ans_players.specs.declared.difference.Difference.{Difference};
ghost use Rattle.ans_players.specs.Players.{Behaviour, IsPlayer, StandsForStarts};

/// A family of players of drawings, on a screen of the stated size. For each state of a start a player has a memory
/// that is in sync with that state. What is proved of it is proved of the memories that stand for a start, and
/// nothing is said of its others.
pub trait Family {
    // the screen that is stated
    ghost size: { Size };
    // the kinds in which it does as the profile does
    ghost agreed: { Difference → Bool };
    // its memory, the cells that it shows, how it plays a spelled token, and which states of the profile
    // its memory stands for, and in which sync
    ghost behaviour: { Behaviour };
    // it has a memory that is in sync with each state of a start, so what is proved of those is not empty
    ghost stands: { StandsForStarts size behaviour };
    // it shows those states' cells, and goes along wherever only agreed kinds arise
    ghost is_player: { IsPlayer size agreed behaviour };
}
