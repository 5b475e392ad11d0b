//! Laws of players.

ghost use Rattle.std.specs.Prelude.{ℕ, List};
ghost use Rattle.ans_model.specs.declared.start.Start.{Start};
ghost use Rattle.ans_model.specs.Verdict.Good.{Picture, GoodWith};
ghost use Rattle.ans_players.specs.Classes.{AgreedMeet, LeastSameIsFound};
ghost use Rattle.ans_players.specs.Classes.{SameByTwoStarts, TwoStartsTell};
ghost use Rattle.ans_players.specs.Named.{NamedAreLeast};
ghost use Rattle.ans_players.specs.Players.{IsShown};
ghost use Rattle.ans_players.specs.Situations.{AreAgreed, spelled};
ghost use Rattle.ans_players_laws.specs.Laws.{LeastSameExists, LeastSameIsOne, MendedIsAgreed, MendedIsShown};
ghost use Rattle.ans_players_laws.specs.Laws.{MendingIsRead, NamedOneWay};
ghost use Rattle.ans_players_laws.specs.Witnesses.{IsStrictPlayer, StrictNeedsNamed, StrictTells};

use ans_players::family::Family;

/// Where no kinds but agreed ones arise from any start of the class, good content shows its picture on
/// every player that does as the profile does in those, from every memory that is in sync with a start
/// of the class.
///
/// Each such player has the stated lines and a spare row, so a screen of exactly the stated lines is none for
/// a drawing that enters the spare row. A start has its cursor on these rows. The bytes from 20h on, except for
/// 7Fh, are of code page 437 on all of them, so a terminal that reads UTF-8 is one only if its input is
/// converted first.
pub fn shows_everywhere<P: Family>()
    ensures { (class : Start) (content : List ℕ) (picture : Picture)
        → (good : GoodWith P.size class content picture)
        → AreAgreed P.agreed P.size class (spelled good.tokens good.reads.0)
        → IsShown P.behaviour P.size class (spelled good.tokens good.reads.0) picture }
{}

/// And only there. The strictest player shows nothing any more once a kind has arisen that is not agreed,
/// so good content shows its picture on it exactly where no kinds but agreed ones arise.
pub fn strictest_player_tells()
    ensures player { IsStrictPlayer }
    ensures tells { StrictTells }
{}

/// The kinds that arise from the cleared start are the least that have to be agreed for good content to show
/// its picture on every player. How often each arises, and where first, is said in one way.
pub fn named_kinds_are_least()
    ensures least { NamedAreLeast }
    ensures shown { StrictNeedsNamed }
    ensures one { NamedOneWay }
{}

/// Where no kinds but agreed ones arise from the starts of two classes, none arise from the starts that
/// have the parts known in both, if the tokens play well from there.
pub fn agreed_classes_meet()
    ensures { AgreedMeet }
{}

/// Content in which no kinds but agreed ones arise from the cleared start is the same on every player for
/// one least class of starts: for exactly those classes in which each part is known that is known in this
/// one. It knows the cells where the content needs them, and each other part is found by itself.
pub fn one_least_class_of_players()
    ensures exists { LeastSameExists }
    ensures unique { LeastSameIsOne }
    ensures found { LeastSameIsFound }
{}

/// Where wrap is known, or is the one part that is not, no kinds but agreed ones arise from any start if
/// none do from the low and the high one. So two plays are enough for each part of the least class.
pub fn two_starts_tell_of_players()
    ensures tell { TwoStartsTell }
    ensures same { SameByTwoStarts }
{}

/// `ESC[?7h ESC[0;37;40m ESC[2J ESC[H ESC[s`, 25 bytes without the blanks between them, are read as five
/// tokens. No kind arises at them from any start, and after them those that arise from the cleared start, but
/// that own colours may go: both colours are named.
pub fn mended_tokens_are_agreed()
    ensures read { MendingIsRead }
    ensures agreed { MendedIsAgreed }
{}

/// So good content in which only agreed kinds arise from the cleared start shows its picture after these
/// bytes on every player that does as the profile does in those, from every memory that is in sync with any
/// start.
///
/// Here too a player has the stated lines and a spare row and draws code page 437, and a start has its cursor
/// on these rows: see `shows_everywhere`. So nothing is said of a screen of exactly the stated lines if the
/// drawing enters the spare row, of a cursor below the spare row of a taller screen, or of a terminal that
/// reads UTF-8 with no conversion before it.
pub fn mended_content_shows_everywhere<P: Family>()
    ensures { MendedIsShown P.behaviour P.size P.agreed }
{}
