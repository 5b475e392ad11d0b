//! What all of a content shows that passes: its hints, on which players it shows its picture, and whether it does
//! on taller screens.

ghost use Rattle.std.specs.Prelude.{◌≡◌, ◌≤◌, ◌↔◌, ℕ, List, [], length, IsTrue};
ghost use Rattle.ans_model.specs.Bytes.{longest_file};
ghost use Rattle.ans_model.specs.Sequence.TokenKind.{TokenKind};
ghost use Rattle.ans_model.specs.Sequence.Reads.{ReadsAs};
ghost use Rattle.ans_model.specs.Verdict.Needs.{IsLeast};
ghost use Rattle.ans_hints.specs.Hints.{AreHints};
ghost use Rattle.ans_kinds.specs.SaidOfPlayers.{IsSaidOfPlayers};
ghost use Rattle.ans_pens.specs.Taller.{IsTaller};

use crate::hints::Hints;
use crate::walk::Walk;
use ans_kinds::ink::Inked;
use ans_kinds::kinds::{KindsUsed, text_at};
use ans_kinds::situations::Situations;
use ans_kinds::sync::Sync;
use ans_kinds::{Names, Players, Reach};
use ans_model::size::Size;
use ans_model::start::Start;
use ans_pens::moved_with;
use ans_tokens::{ColourSequence, Token, Walker, walk};

/// A play from the cleared start without its screen, which finds hints, and beside it the sync of players
/// in it, which colours are named, the kinds that have arisen so far, and whether some sequence has moved the
/// cursor up or down by rows.
#[derive(Clone, Copy)]
struct Survey<'a> {
    content: &'a [u8],
    walk: Walk,
    sync: Sync,
    names: Names,
    used: KindsUsed,
    moves_rows: bool,
}

impl Walker for Survey<'_> {
    ghost use Rattle.ans_hints.specs.Surveyed.{HasSurveyed, IsReadyForBoth, StaysForBoth};

    ghost ready = { λ survey offset. IsReadyForBoth survey offset };

    ghost walked = { λ first front now goes_on. HasSurveyed first front goes_on now };

    ghost takes = { λ survey count. StaysForBoth survey count };

    #[inline(always)]
    fn token(&mut self, token: &Token, behind: &[u8]) -> bool {
        let kind = token.kind();
        let offset = token.start();
        let text = text_at(self.content, offset, behind);
        let before = self.walk.pen;
        let situations = Situations::of(self.walk.size, &before, self.sync, self.names, kind, text);
        self.used.count(&situations, offset);
        self.walk.go_over(offset, kind, behind);
        self.sync = self.sync.after(before.cursor, &self.walk.pen, kind);
        self.names = self.names.after(kind);
        self.moves_rows = moved_with(self.moves_rows, kind);
        true
    }

    #[inline(always)]
    fn colours(&mut self, colours: &ColourSequence<'_>, _behind: &[u8]) -> bool {
        let attribute = self.walk.pen.attribute;
        let inked = Inked::by(attribute, self.names, colours.numbers);
        self.used
            .count_colours(attribute == 0x07, inked.are_common, colours);
        self.walk
            .go_over_colours(colours.start, colours.numbers, inked.attribute);
        self.names = inked.names;
        true
    }

    #[inline(always)]
    fn room(&self) -> usize {
        match self.sync {
            Sync::InSync => self.walk.room(),
            _ => 0,
        }
    }

    #[inline(always)]
    fn take(&mut self, run: &[u8], offset: usize) {
        self.used
            .count_run(!self.names.are_both(), run.len(), offset);
        self.walk.go_past(run, offset);
    }
}

/// What all of a content shows that passes from the cleared start: its hints, on which players it shows its
/// picture, and whether it does on every taller screen.
#[derive(Debug, Clone, Copy)]
pub struct Overview {
    pub hints: Hints,
    pub players: Players,
    pub taller: bool,
}

impl Overview {
    /// Of a content, where `needs` is the least class of starts from which it passes: what [`Hints::of`] and
    /// [`Reach::of`] say of all of it. Offsets are in bytes from the content's start. Glyphs that blink are none
    /// where the record sets the non-blink flag. It takes no memory, and reads the bytes at most six times, and
    /// once more where some sequence moves the cursor up or down by rows.
    pub fn of(size: Size, needs: Start, non_blink: bool, content: &[u8]) -> Overview
        requires length { length content.now ≤ longest_file }
        requires needs { IsLeast size content.now needs }
        ensures hints { (tokens : List TokenKind) (texts : List (List ℕ)) → ReadsAs content.now tokens texts
            → AreHints size non_blink tokens texts [] result.hints }
        ensures players { IsSaidOfPlayers size content.now result.players }
        ensures taller { IsTrue result.taller ↔ IsTaller size needs content.now }
    {
        let mut survey = Survey {
            content,
            walk: Walk::begun(size, non_blink),
            sync: Sync::InSync,
            names: Names::NONE,
            used: KindsUsed::NONE,
            moves_rows: false,
        };
        let _ = walk(content, content.len(), &mut survey);
        let reach = Reach::by(size, needs, survey.used, survey.moves_rows, content);
        Overview {
            hints: survey.walk.hints,
            players: reach.players,
            taller: reach.taller,
        }
    }
}
