//! How sure it is that the cursor of each player is where the profile's is, token by token.

ghost use Rattle.std.specs.Prelude.{◌≡◌, if◌then◌else◌};
ghost use Rattle.ans_model.specs.Screen.State.{Size, State};
ghost use Rattle.ans_model.specs.Screen.Step.{step};
ghost use Rattle.ans_model.specs.Inside.ShownKind.{shown_kind};
ghost use Rattle.ans_players.specs.Sync as syncs;
ghost use Rattle.ans_players.specs.Sync.{sync_after, sync_after_token, sync_after_print, is_same_for_all, is_home};
ghost use Rattle.ans_players.specs.Sync.{unsure_kinds};
ghost use Rattle.ans_kinds.specs.SyncShown.{kinds_in, shown_sync};
ghost use Rattle.ans_pens.specs.Pens.{pen_of};

use ans_model::cell::Position;
use ans_model::kind::Kind;
use ans_pens::pen::Pen;
use ans_players::difference::Difference;

/// How sure it is that the cursor of each player is where the profile's is.
#[derive(Debug, Clone, Copy, PartialEq, Eq)]
pub enum Sync {
    /// It is there.
    InSync,
    /// Maybe not: a byte has just wrapped.
    AfterWrap,
    /// Maybe not: a line feed came outside the first column.
    AfterFeed,
    /// Maybe not: a return came outside the first column.
    AfterReturn,
    /// It may be anywhere: something of this kind came away from home.
    OutOfSync(Difference),
}

fn is_home(at: Position) -> bool
    ensures { result ≡ is_home at }
{
    at.row == 0 && at.column == 0
}

/// In sync where the test holds, and else the given one.
fn in_sync_if(test: bool, sync: Sync) -> Sync
    ensures { shown_sync result ≡ (if test then syncs.InSync else shown_sync sync) }
{
    if test { Sync::InSync } else { sync }
}

/// The sync after what is printed. The pen is given as it is after it.
fn after_print(pen: &Pen) -> Sync
    ensures { (s : State) → pen.now ≡ pen_of s → shown_sync result ≡ sync_after_print s }
{
    if pen.wrap && pen.cursor.column == 0 {
        Sync::AfterWrap
    } else {
        Sync::InSync
    }
}

/// The sync after a token of players that were in sync, from where the cursor was before it and the pen
/// after it.
#[inline(always)]
fn after_token(before: Position, after: &Pen, kind: &Kind) -> Sync
    ensures { (z : Size) (s : State) → before ≡ s.cursor
        → after.now ≡ pen_of (step z s (shown_kind kind.now))
        → shown_sync result ≡ sync_after_token z s (shown_kind kind.now) }
{
    match kind {
        Kind::Glyph(_) | Kind::Tab => after_print(after),
        Kind::LineFeed => in_sync_if(before.column == 0, Sync::AfterFeed),
        Kind::CarriageReturn => in_sync_if(before.column == 0, Sync::AfterReturn),
        Kind::Clear => in_sync_if(is_home(before), Sync::OutOfSync(Difference::HomeOnClear)),
        Kind::Save => in_sync_if(is_home(before), Sync::OutOfSync(Difference::SavePlaceOnly)),
        _ => Sync::InSync,
    }
}

impl Sync {
    /// The kind in which players may be elsewhere, if they are not in sync.
    #[inline(always)]
    pub(crate) fn unsure_kind(self) -> Option<Difference>
        ensures { kinds_in result ≡ unsure_kinds (shown_sync self) }
    {
        match self {
            Sync::InSync => None,
            Sync::AfterWrap => Some(Difference::WrapAtOnce),
            Sync::AfterFeed | Sync::AfterReturn => Some(Difference::LineEnds),
            Sync::OutOfSync(kind) => Some(kind),
        }
    }

    /// Whether all players do the same at the token, though their sync is no surer than this.
    #[inline(always)]
    pub(crate) fn is_same_for_all(self, kind: &Kind) -> bool
        ensures { result ≡ is_same_for_all (shown_sync self) (shown_kind kind.now) }
    {
        match kind {
            Kind::Place(_, _) | Kind::Colours(_) | Kind::Bell => true,
            Kind::Glyph(_) => self == Sync::AfterWrap,
            Kind::LineFeed => self == Sync::AfterReturn,
            Kind::CarriageReturn => self == Sync::AfterFeed || self == Sync::AfterReturn,
            _ => false,
        }
    }

    /// The sync after a token, from where the cursor was before it and the pen after it.
    #[inline(always)]
    pub fn after(self, before: Position, after: &Pen, kind: &Kind) -> Sync
        ensures { (z : Size) (s : State) → before ≡ s.cursor
            → after.now ≡ pen_of (step z s (shown_kind kind.now))
            → shown_sync result ≡ sync_after z (shown_sync self) s (shown_kind kind.now) }
    {
        match (self, kind) {
            (_, Kind::Colours(_) | Kind::Bell) => self,
            (Sync::AfterFeed, Kind::CarriageReturn) => Sync::InSync,
            (Sync::AfterReturn, Kind::CarriageReturn) => Sync::AfterReturn,
            _ => after_token(before, after, kind),
        }
    }
}
