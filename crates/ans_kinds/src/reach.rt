//! On which players and on which screens a content shows its picture.

ghost use Rattle.std.specs.Prelude.{◌≡◌, ◌≤◌, ◌↔◌, ℕ, List, IsTrue, length};
ghost use Rattle.ans_model.specs.Bytes.{longest_file};
ghost use Rattle.ans_model.specs.Sequence.Reads.{ReadsAs};
ghost use Rattle.ans_model.specs.Sequence.TokenKind.{TokenKind};
ghost use Rattle.ans_model.specs.Verdict.Needs.{IsLeast};
ghost use Rattle.ans_players.specs.declared.difference.Difference.{Difference};
ghost use Rattle.ans_kinds.specs.KindsUsed.{IsTold, used_of};
ghost use Rattle.ans_pens.specs.RowMoves.{moves_rows};
ghost use Rattle.ans_kinds.specs.SaidOfPlayers.{IsSaidOfPlayers};
ghost use Rattle.ans_pens.specs.Taller.{IsTaller};

use crate::kinds::{KindsUsed, KindsWalk};
use crate::players::Players;
use ans_model::size::Size;
use ans_model::start::Start;
use ans_pens::is_taller;

/// On which players a content shows its picture that passes from the cleared start, and whether it does on
/// every taller screen.
#[derive(Debug, Clone, Copy)]
pub struct Reach {
    pub players: Players,
    pub taller: bool,
}

impl Reach {
    /// Of a content, where `needs` is the least class of starts from which it passes: what [`Players::of`] and
    /// [`is_taller`] say of it. It takes no memory, and reads the bytes at most six times, and once more where
    /// some sequence moves the cursor up or down by rows.
    pub fn of(size: Size, needs: Start, content: &[u8]) -> Reach
        requires length { length content.now ≤ longest_file }
        requires needs { IsLeast size content.now needs }
        ensures players { IsSaidOfPlayers size content.now result.players }
        ensures taller { IsTrue result.taller ↔ IsTaller size needs content.now }
    {
        let kinds = KindsWalk::over(size, content);
        Reach::by(size, needs, kinds.used, kinds.moves_rows, content)
    }

    /// The same, from what is said of each kind, and whether some sequence moves the cursor by rows.
    pub fn by(size: Size, needs: Start, used: KindsUsed, has_moves: bool, content: &[u8]) -> Reach
        requires length { length content.now ≤ longest_file }
        requires needs { IsLeast size content.now needs }
        requires told { (kind : Difference) → IsTold size content.now kind (used_of used kind) }
        requires moves { (tokens : List TokenKind) (texts : List (List ℕ)) → ReadsAs content.now tokens texts
            → has_moves ≡ moves_rows tokens }
        ensures players { IsSaidOfPlayers size content.now result.players }
        ensures taller { IsTrue result.taller ↔ IsTaller size needs content.now }
    {
        Reach {
            players: Players::by(size, needs, used, content),
            taller: !has_moves || is_taller(size, needs, content),
        }
    }
}
