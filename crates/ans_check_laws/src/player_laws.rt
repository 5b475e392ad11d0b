//! Laws of what is said of players.

ghost use Rattle.std.specs.Prelude.{◌≡◌, ◌↔◌, ℕ, false, List, IsTrue};
ghost use Rattle.ans_model.specs.File.Layout.{FileParts, content};
ghost use Rattle.ans_model.specs.File.Record.{stated_size};
ghost use Rattle.ans_model.specs.Screen.StartClass.{Covers, all_known, none_known};
ghost use Rattle.ans_model.specs.Verdict.Good.{GoodWith, Picture};
ghost use Rattle.ans_model.specs.declared.start.Start.{Start};
ghost use Rattle.ans_players.specs.Players.{IsShown};
ghost use Rattle.ans_players.specs.Situations.{spelled};
ghost use Rattle.ans_players.specs.declared.difference.Difference.{Difference};
ghost use Rattle.ans_kinds.specs.KindsUsed.{is_used};
ghost use Rattle.ans_kinds.specs.SaidOfPlayers.{IsSameWhereCleared, IsSaidOfPlayers};
ghost use Rattle.ans_kinds.specs.declared.kinds.KindsUsed.{KindsUsed};
ghost use Rattle.ans_kinds.specs.declared.players.Players.TheVariants.{Agreeing, Any, InNamedColours};
ghost use Rattle.ans_pens.specs.declared.times.Times.{Times};
ghost use Rattle.ans_players.specs.declared.difference.Difference.TheVariants.{OwnColours};
ghost use Rattle.ans_mend.specs.declared.outcome.Mended.{Mended};
ghost use Rattle.ans_model.specs.declared.mends.Mends.{Mends};
ghost use Rattle.ans_picture_laws.specs.Drawable.{BytesAreAgreed};
ghost use Rattle.ans_redraw.specs.declared.outcome.Redrawn.{Redrawn};
ghost use Rattle.ans_verdict.specs.FileVerdict.{Passes};
ghost use Rattle.ans_mend.specs.Mending.{IsMended};
ghost use Rattle.ans_redraw.specs.Redrawing.{IsRedrawn};

use ans_players::family::Family;

/// If `why` says `players: all`, the content shows its picture on every player, from every memory that is in sync with
/// a start of the class that is said, or of one that knows more.
pub fn any_player_shows_it<P: Family>()
    ensures { (bytes : List ℕ) (class known : Start) (picture : Picture)
        → IsSaidOfPlayers P.size bytes (Any class) → Covers class known
        → (good : GoodWith P.size known bytes picture)
        → IsShown P.behaviour P.size known (spelled good.tokens good.reads.0) picture }
{}

/// If `why` names only own colours, the content shows it so on every player that does as the profile does in them: one
/// whose own white and black are those that 37 and 40 set.
pub fn player_of_named_colours_shows_it<P: Family>()
    ensures { (bytes : List ℕ) (class known : Start) (times : Times) (picture : Picture)
        → IsSaidOfPlayers P.size bytes (InNamedColours class times) → IsTrue (P.agreed OwnColours)
        → Covers class known → (good : GoodWith P.size known bytes picture)
        → IsShown P.behaviour P.size known (spelled good.tokens good.reads.0) picture }
{}

/// Where `why` names kinds, the content shows its picture from the cleared start on every player that does
/// as the profile does in those. Nothing is said of other starts.
pub fn agreeing_players_show_it<P: Family>()
    ensures { (bytes : List ℕ) (used : KindsUsed) (picture : Picture)
        → IsSaidOfPlayers P.size bytes (Agreeing used)
        → ((kind : Difference) → IsTrue (is_used used kind) → IsTrue (P.agreed kind))
        → (good : GoodWith P.size all_known bytes picture)
        → IsShown P.behaviour P.size all_known (spelled good.tokens good.reads.0) picture }
{}

/// In a mended file no start gives rise to a kind that does not arise from the cleared one: whichever kinds are agreed,
/// if its content is the same from the cleared start on all players that agree so, it is so from every start. So if
/// `why` says `players: all` of it, it shows its picture on every player from every start; and if `why` names only own
/// colours, on every player that agrees in them.
pub fn mended_files_are_same_where_cleared()
    ensures same { (mends : Mends) (file draft : List ℕ) (mended : Mended)
        → (is : IsMended mends file mended draft)
        → IsSameWhereCleared (stated_size is.apart.record_bytes) (content is.apart.body) }
    ensures any { (mends : Mends) (file draft : List ℕ) (mended : Mended) (class : Start)
        → (is : IsMended mends file mended draft)
        → IsSaidOfPlayers (stated_size is.apart.record_bytes) (content is.apart.body) (Any class)
        → class ≡ none_known }
    ensures named { (mends : Mends) (file draft : List ℕ) (mended : Mended) (class : Start) (times : Times)
        → (is : IsMended mends file mended draft)
        → IsSaidOfPlayers (stated_size is.apart.record_bytes) (content is.apart.body) (InNamedColours class times)
        → class ≡ none_known }
{}

/// A redrawn file shows its picture on every player that draws the picture's own bytes as the profile does, from every
/// memory that is in sync with a start of any class. So `why` says `players: all` of it, from every start, exactly if
/// the picture has no control byte that players draw in different ways.
pub fn redrawn_files_show_everywhere<P: Family>()
    ensures shown { (file new : List ℕ) (redrawn : Redrawn) (class : Start) (apart : FileParts)
        (picture : Picture)
        → IsRedrawn file redrawn new → P.size ≡ stated_size apart.record_bytes
        → BytesAreAgreed P.agreed picture → (passes : Passes new class apart picture)
        → IsShown P.behaviour P.size class (spelled passes.good.tokens passes.good.reads.0) picture }
    ensures any { (file new : List ℕ) (redrawn : Redrawn) (apart : FileParts) (picture : Picture)
        → IsRedrawn file redrawn new → Passes new all_known apart picture
        → IsSaidOfPlayers (stated_size apart.record_bytes) (content apart.body) (Any none_known)
        ↔ BytesAreAgreed (λ kind. false) picture }
{}
