//! Laws of what a play finds: each is the contract of a function without a body.

ghost use Rattle.std.specs.Prelude.{◌≡◌, ◌⊎◌, ◌≤◌, ◌++◌, ℕ, List, All, Result, length};
ghost use Rattle.ans_model.specs.Bytes.{IsByte};
ghost use Rattle.ans_model.specs.Sequence.TokenKind.{TokenKind, PrintsByte};
ghost use Rattle.ans_model.specs.Screen.State.{Size, IsSize, IsStated, cell_at};
ghost use Rattle.ans_model.specs.Screen.Step.{final};
ghost use Rattle.ans_model.specs.Screen.StartClass.{all_known, both_known};
ghost use Rattle.ans_model.specs.declared.start.Start.{Start};
ghost use Rattle.ans_model.specs.Verdict.Good.{Picture, GoodWith, IsGood};
ghost use Rattle.ans_model.specs.Verdict.Needs.{IsLeast, IsFoundByParts};
ghost use Rattle.ans_model.specs.Verdict.FirstFault.{IsFirstFault};
ghost use Rattle.ans_model.specs.Verdict.LastFault.{IsLastFault, SameCell};
ghost use Rattle.ans_model.specs.Verdict.TokenFault.{FromEvery, IsClean};
ghost use Rattle.ans_model.specs.Verdict.TwoStarts.{IsShownByTwoStarts, low_final, high_final};
ghost use Rattle.ans_model.specs.declared.cell.Position.{Position};
ghost use Rattle.ans_model.specs.declared.fault.Fault.{Fault};
ghost use Rattle.ans_play.specs.Between.{IsBetween};
ghost use Rattle.ans_play.specs.PlayerView.{PlayerView};
ghost use Rattle.ans_play.specs.Stands.{Stands, SamePlay, Feeds, EndsAs};

/// Bytes are good, or have a first fault, or have a last one. By `ans_laws::text_laws::one_answer`
/// two of these never hold together, and each fault is the only one of its kind.
pub fn some_answer()
    ensures { (z : Size) (class : Start) (bytes : List ℕ) → IsSize z → All IsByte bytes
        → IsGood z class bytes ⊎ ((f : Fault) × IsFirstFault z class bytes f)
        ⊎ ((f : Fault) × IsLastFault z class bytes f) }
{}

/// Where a fault depends on the start, the plays from the low and the high start show it: their
/// cursors differ, exactly one of them scrolls, or the first cell in which they differ is the one
/// named.
pub fn two_starts_show()
    ensures first { (z : Size) (class : Start) (bytes : List ℕ) (f : Fault)
        → IsFirstFault z class bytes f → IsShownByTwoStarts z class bytes f }
    ensures last { (z : Size) (class : Start) (bytes : List ℕ) (f : Fault)
        → IsLastFault z class bytes f → IsShownByTwoStarts z class bytes f }
{}

/// After clean tokens, the plays from the low and the high start show what holds for every play: its cursor is between
/// theirs, and if they agree in a stated cell, it is the same from every start.
pub fn two_starts_tell()
    ensures cursors { (z : Size) (class : Start) (tokens : List TokenKind)
        → IsSize z → All PrintsByte tokens → IsClean z class tokens
        → FromEvery z class (λ s. IsBetween (low_final z class tokens).cursor
        (high_final z class tokens).cursor (final z s tokens).cursor) }
    ensures cells { (z : Size) (class : Start) (tokens : List TokenKind) (p : Position)
        → IsSize z → All PrintsByte tokens → IsClean z class tokens → IsStated z p
        → cell_at z (low_final z class tokens).screen p ≡ cell_at z (high_final z class tokens).screen p
        → SameCell z class tokens p }
{}

/// A fault's offset is that of a byte, or of the bytes' end.
pub fn faults_stand_within()
    ensures first { (z : Size) (class : Start) (bytes : List ℕ) (f : Fault)
        → IsFirstFault z class bytes f → f.offset ≤ length bytes }
    ensures last { (z : Size) (class : Start) (bytes : List ℕ) (f : Fault)
        → IsLastFault z class bytes f → f.offset ≤ length bytes }
{}

/// What a content can do without in two ways, it can do without in both at once: where it is good
/// for two classes, it is good for the class that knows only what both know.
pub fn what_both_do_without()
    ensures { (z : Size) (a b : Start) (content : List ℕ)
        → IsGood z a content → IsGood z b content → IsGood z (both_known a b) content }
{}

/// A content that is good for the cleared start has one least class: it is good for exactly those
/// classes in which each part is known that is known in this one. The class is found part by part.
pub fn one_least_class()
    ensures exists { (z : Size) (content : List ℕ)
        → IsGood z all_known content → (class : Start) × IsLeast z content class }
    ensures unique { (z : Size) (content : List ℕ) (a b : Start)
        → IsLeast z content a → IsLeast z content b → a ≡ b }
    ensures found { (z : Size) (content : List ℕ) (class : Start)
        → IsGood z all_known content → IsFoundByParts z content class → IsLeast z content class }
{}

/// Good content shows one picture: the same byte and attribute at each place, for whichever classes
/// it is good.
pub fn one_picture()
    ensures { (z : Size) (class other : Start) (content : List ℕ) (picture another : Picture)
        → GoodWith z class content picture → GoodWith z other content another
        → picture ≡ another }
{}

/// Two players of one size and class, over any grids, that are fed the same bytes in any cuts end
/// alike: with the same fault, or with pictures that are equal at each place. Their feeds answer
/// alike wherever the same bytes have been fed.
pub fn players_end_alike()
    ensures finish { (one other : PlayerView) (s : List ℕ) (end end_of_other : Result Picture Fault)
        → SamePlay one other → Stands one s → Stands other s
        → EndsAs one s end → EndsAs other s end_of_other → end ≡ end_of_other }
    ensures feed { (one one_after other other_after : PlayerView) (s piece t part : List ℕ)
        (answer answer_of_other : Result (Unit {0}) Fault)
        → SamePlay one other → s ++ piece ≡ t ++ part
        → Feeds one s piece one_after answer → Feeds other t part other_after answer_of_other
        → answer ≡ answer_of_other }
{}
