//! Players: the profile, and whatever parts from it only where kinds arise.

ghost use Rattle.std.proofs.Common.{ap, refl};
ghost use Rattle.std.specs.Prelude.{false};
ghost use Rattle.ans_model.specs.Screen.State.{State, cell_at, sized};
ghost use Rattle.ans_model.specs.Screen.Step.{step};
ghost use Rattle.ans_players_laws.specs.Witnesses.{IsProfilePlayer, PartsWhereKindsArise, profile};

use ans_players::family::Family;

/// The profile is a player, whatever is agreed.
pub fn profile_is_a_player()
    ensures { IsProfilePlayer }
{}

/// What plays each token as the profile does where all kinds of the token are agreed is a player.
pub fn players_may_part_where_kinds_arise()
    ensures { PartsWhereKindsArise }
{}

/// The profile as a player, on a screen of 80 columns and 25 lines.
pub struct Profile;

impl Family for Profile {
    ghost size = { sized 80 25 };

    ghost agreed = { λ kind. false };

    ghost behaviour = { profile (sized 80 25) };

    ghost stands = { λ s well. (s, refl) };

    ghost is_player = { record {
      shows_the_same = λ m h p e stated. ap (λ (v : State). cell_at (sized 80 25) v.screen p) e;
      goes_along = λ m h x e allowed a. ap (λ (v : State). step (sized 80 25) v x.token) e;
    } };
}
