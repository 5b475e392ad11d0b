//! On which players a content shows its picture.

ghost use Rattle.std.specs.Prelude.{◌≤◌, ◌↔◌, IsTrue, length};
ghost use Rattle.ans_model.specs.Bytes.{longest_file};
ghost use Rattle.ans_model.specs.Verdict.Needs.{IsLeast};
ghost use Rattle.ans_players.specs.declared.difference.Difference as declared;
ghost use Rattle.ans_kinds.specs.KindsUsed.{IsTold, used_of};
ghost use Rattle.ans_kinds.specs.SaidOfPlayers.{IsSaidOfPlayers, IsSameWhereCleared};

use crate::agreed::least_class_for_players;
use crate::kinds::{KindsUsed, kinds_used};
use ans_model::size::Size;
use ans_model::start::Start;
use ans_pens::times::Times;
use ans_players::difference::Difference;

/// On which players a content that passes from the cleared start shows its picture.
#[derive(Debug, Clone, Copy, PartialEq, Eq)]
pub enum Players {
    /// On every player, from the starts of this class: the least such.
    Any(Start),
    /// On every player whose own white and black are those that 37 and 40 set, from the starts of this
    /// class: the least such. Only own colours arise, this often, and first there.
    InNamedColours(Start, Times),
    /// From the cleared start, on those that do as the profile does in these kinds. At least one of the
    /// kinds that arise is not own colours.
    Agreeing(KindsUsed),
}

impl Players {
    /// On which players a content shows its picture, where `needs` is the least class of starts from which
    /// it passes. It takes no memory, and reads the bytes at most six times.
    pub fn of(size: Size, needs: Start, content: &[u8]) -> Players
        requires length { length content.now ≤ longest_file }
        requires needs { IsLeast size content.now needs }
        ensures { IsSaidOfPlayers size content.now result }
    {
        Players::by(size, needs, kinds_used(size, content), content)
    }

    /// The same, from what is said of each kind: how often it arises from the cleared start, and where first.
    pub(crate) fn by(size: Size, needs: Start, used: KindsUsed, content: &[u8]) -> Players
        requires length { length content.now ≤ longest_file }
        requires needs { IsLeast size content.now needs }
        requires told { (kind : declared.Difference) → IsTold size content.now kind (used_of used kind) }
        ensures { IsSaidOfPlayers size content.now result }
    {
        if !used.are_own_colours_at_most() {
            return Players::Agreeing(used);
        }
        let class = least_class_for_players(size, needs, &used, content);
        match used.of(Difference::OwnColours) {
            None => Players::Any(class),
            Some(times) => Players::InNamedColours(class, times),
        }
    }
}

/// Whether a content passes from every start, and no kind in which players differ arises from any start unless
/// it arises from the cleared one. So it shows its picture from every start on each player that does as the
/// profile does in these kinds. `needs` is the least class of starts from which it passes. It takes no memory,
/// and reads the bytes at most six times.
pub fn is_same_where_cleared(size: Size, needs: Start, content: &[u8]) -> bool
    requires length { length content.now ≤ longest_file }
    requires needs { IsLeast size content.now needs }
    ensures { IsTrue result ↔ IsSameWhereCleared size content.now }
{
    if !needs.covers(Start::ANY) {
        return false;
    }
    let used = kinds_used(size, content);
    least_class_for_players(size, needs, &used, content).covers(Start::ANY)
}
