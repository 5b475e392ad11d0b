//! From which starts a content shows the same on every player that does as the profile does in some kinds.

ghost use Rattle.std.specs.Prelude.{◌≡◌, ◌↔◌, ◌≤◌, ℕ, List, IsTrue, length, false};
ghost use Rattle.ans_model.specs.Bytes.{longest_file};
ghost use Rattle.ans_model.specs.Sequence.TokenKind.{TokenKind};
ghost use Rattle.ans_model.specs.Sequence.Reads.{ReadsAs};
ghost use Rattle.ans_model.specs.Screen.State.{State};
ghost use Rattle.ans_model.specs.Screen.StartClass.{cleared};
ghost use Rattle.ans_players.specs.Classes.{IsAgreedFrom, HasOnlyAgreed, IsLeastSame};
ghost use Rattle.ans_players.specs.Situations.{spelled};
ghost use Rattle.ans_kinds.specs.AgreedWalked.{PlaysAlike};
ghost use Rattle.ans_kinds.specs.KindsUsed.{is_used};
ghost use Rattle.ans_pens.specs.Pens.{pen_of, StandsOn};

use crate::ink::Inked;
use crate::kinds::{KindsUsed, text_at};
use crate::names::Names;
use crate::situations::Situations;
use crate::sync::Sync;
use ans_model::size::Size;
use ans_model::start::Start;
use ans_pens::cell_play::CellPlay;
use ans_pens::pen::{HOME, Pen};
use ans_players::difference::Difference;
use ans_tokens::{ColourSequence, Token, Walker, walk};

const ALL_BUT_CURSOR: Start = Start {
    cursor: false,
    ..Start::CLEARED
};

const ALL_BUT_SAVED: Start = Start {
    saved: false,
    ..Start::CLEARED
};

const ALL_BUT_COLOURS: Start = Start {
    colours: false,
    ..Start::CLEARED
};

const ALL_BUT_WRAP: Start = Start {
    wrap: false,
    ..Start::CLEARED
};

/// Two plays without their screens, from a start and from the cleared one, and the sync of players in
/// them, as long as no kinds arise in the first but those that are used.
#[derive(Clone, Copy)]
struct AgreedWalk<'a> {
    content: &'a [u8],
    size: Size,
    used: &'a KindsUsed,
    pen: Pen,
    sync: Sync,
    cleared: Pen,
    cleared_sync: Sync,
    names: Names,
    has_only_agreed: bool,
}

impl AgreedWalk<'_> {
    /// Whether both plays are alike: the same kinds arise in both from here on. A saved place counts if
    /// something is restored, which is itself of a kind.
    fn stand_alike(&self) -> bool
        ensures { IsTrue result → PlaysAlike self.now }
    {
        let is_saved_alike = self.pen.saved == self.cleared.saved
            || self.used.of(Difference::SavePlaceOnly).is_none();
        is_saved_alike
            && self.pen.cursor == self.cleared.cursor
            && self.pen.attribute == self.cleared.attribute
            && self.pen.wrap == self.cleared.wrap
            && self.sync == self.cleared_sync
    }
}

impl Walker for AgreedWalk<'_> {
    ghost use Rattle.ans_kinds.specs.AgreedWalked.{HasStayedAgreed, StaysAgreedInRow};
    ghost use Rattle.ans_pens.specs.Pens.{StandsOn};

    ghost ready = { λ walk offset. StandsOn walk.size walk.pen × StandsOn walk.size walk.cleared };

    ghost walked = { λ first front now goes_on. HasStayedAgreed first front goes_on now };

    ghost takes = { λ walk count. StaysAgreedInRow walk count };

    #[inline(always)]
    fn token(&mut self, token: &Token, behind: &[u8]) -> bool {
        let kind = token.kind();
        let text = text_at(self.content, token.start(), behind);
        let situations = Situations::of(self.size, &self.pen, self.sync, self.names, kind, text);
        if !self.used.have_all(&situations) {
            self.has_only_agreed = false;
            return false;
        }
        let before = self.pen.cursor;
        let cleared_before = self.cleared.cursor;
        self.pen.step(self.size, kind);
        self.cleared.step(self.size, kind);
        self.sync = self.sync.after(before, &self.pen, kind);
        self.cleared_sync = self.cleared_sync.after(cleared_before, &self.cleared, kind);
        self.names = self.names.after(kind);
        !self.stand_alike()
    }

    #[inline(always)]
    fn colours(&mut self, colours: &ColourSequence<'_>, _behind: &[u8]) -> bool {
        let attribute = self.pen.attribute;
        let inked = Inked::by(attribute, self.names, colours.numbers);
        if !self
            .used
            .have_colours(attribute == 0x07, inked.are_common, colours)
        {
            self.has_only_agreed = false;
            return false;
        }
        self.cleared
            .colour_again(colours.numbers, attribute, inked.attribute);
        self.pen.attribute = inked.attribute;
        self.names = inked.names;
        !self.stand_alike()
    }

    #[inline(always)]
    fn room(&self) -> usize {
        let is_one_kind = self.names.are_both() || self.used.of(Difference::OwnColours).is_some();
        if is_one_kind && self.sync == Sync::InSync && self.cleared_sync == Sync::InSync {
            let left = self.pen.columns_left(self.size);
            left.min(self.cleared.columns_left(self.size))
        } else {
            0
        }
    }

    #[inline(always)]
    fn take(&mut self, run: &[u8], _offset: usize) {
        self.pen.go_on(self.size, run.len());
        self.cleared.go_on(self.size, run.len());
    }
}

/// Whether only kinds that are used arise in a content that is read as tokens, from a state with this pen in
/// which players are in sync, if no others arise from the cleared start. It reads no further than to the first
/// other kind, or to where the two plays are alike.
fn has_only_agreed_from(size: Size, pen: Pen, used: &KindsUsed, content: &[u8]) -> bool
    requires length { length content.now ≤ longest_file }
    requires stands { StandsOn size pen }
    ensures { (s : State) (tokens : List TokenKind) (texts : List (List ℕ)) → pen ≡ pen_of s
        → ReadsAs content.now tokens texts
        → IsAgreedFrom (is_used used.now) size (cleared size) (spelled tokens texts)
        → (IsTrue result ↔ IsAgreedFrom (is_used used.now) size s (spelled tokens texts)) }
{
    let mut only_agreed = AgreedWalk {
        content,
        size,
        used,
        pen,
        sync: Sync::InSync,
        cleared: Pen::cleared(),
        cleared_sync: Sync::InSync,
        names: Names::NONE,
        has_only_agreed: true,
    };
    let _ = walk(content, content.len(), &mut only_agreed);
    only_agreed.has_only_agreed
}

/// Whether a part of the start has to be known: as it is needed already, or because another kind arises
/// from a start with this pen.
fn is_needed(needed: bool, size: Size, pen: Pen, used: &KindsUsed, content: &[u8]) -> bool
    requires length { length content.now ≤ longest_file }
    requires stands { StandsOn size pen }
    ensures { (s : State) (tokens : List TokenKind) (texts : List (List ℕ)) → pen ≡ pen_of s
        → ReadsAs content.now tokens texts
        → IsAgreedFrom (is_used used.now) size (cleared size) (spelled tokens texts)
        → ((result ≡ false) ↔ ((needed ≡ false)
        × IsAgreedFrom (is_used used.now) size s (spelled tokens texts))) }
{
    needed || !has_only_agreed_from(size, pen, used, content)
}

/// The least class of starts from which a content shows the same on every player that does as the
/// profile does in the kinds that are used, where no other kind arises from the cleared start. `needs` is
/// the least class of starts from which it passes. Of any other content nothing is promised. It takes no
/// memory, and reads the bytes at most five times.
pub fn least_class_for_players(size: Size, needs: Start, used: &KindsUsed, content: &[u8]) -> Start
    requires length { length content.now ≤ longest_file }
    ensures { HasOnlyAgreed (is_used used.now) size content.now needs
        → IsLeastSame (is_used used.now) size content.now result }
{
    let cursor = CellPlay::high(size, ALL_BUT_CURSOR, HOME).pen;
    let saved = CellPlay::high(size, ALL_BUT_SAVED, HOME).pen;
    let dark = CellPlay::low(size, ALL_BUT_COLOURS, HOME).pen;
    let bright = CellPlay::high(size, ALL_BUT_COLOURS, HOME).pen;
    let unwrapped = CellPlay::low(size, ALL_BUT_WRAP, HOME).pen;
    let colours = is_needed(needs.colours, size, dark, used, content);
    Start {
        screen: needs.screen,
        cursor: is_needed(needs.cursor, size, cursor, used, content),
        saved: is_needed(needs.saved, size, saved, used, content),
        colours: is_needed(colours, size, bright, used, content),
        wrap: is_needed(needs.wrap, size, unwrapped, used, content),
    }
}
