//! The plays from the low and the high start of a class, of which one cell is kept.

ghost use Rattle.std.specs.Prelude.{◌≡◌, ◌≢◌, ◌⊎◌, ◌↔◌, ◌++◌, ◌∷◌, [], IsTrue, List, All};
ghost use Rattle.ans_model.specs.Screen.State.{IsOnScreen};
ghost use Rattle.ans_model.specs.Sequence.TokenKind.{TokenKind, PrintsByte};
ghost use Rattle.ans_model.specs.Inside.ShownKind.{shown_kind};
ghost use Rattle.ans_model.specs.declared.fault.Cause.{Cause};
ghost use Rattle.ans_model.specs.declared.start.Start.{Start};
ghost use Rattle.ans_model.specs.Verdict.TokenFault.{IsClean, HasTabFault, then_blanks};
ghost use Rattle.ans_pens.specs.CellPlays.{AreKept, BothStandOn};

use crate::cell_play::CellPlay;
use ans_model::cell::Position;
use ans_model::kind::Kind;
use ans_model::size::Size;
use ans_model::start::Start;
use ans_model::tab::tab_blanks;

/// The two plays.
#[derive(Clone, Copy)]
pub(crate) struct TwoCellPlays {
    pub(crate) low: CellPlay,
    pub(crate) high: CellPlay,
}

impl TwoCellPlays {
    /// The two plays before the first token.
    pub(crate) fn new(size: Size, start: Start, at: Position) -> TwoCellPlays
        requires at { IsOnScreen size at }
        ensures stand { BothStandOn size result }
        ensures kept { AreKept size start at [] result }
    {
        TwoCellPlays {
            low: CellPlay::low(size, start, at),
            high: CellPlay::high(size, start, at),
        }
    }

    /// A token in both plays.
    #[inline(always)]
    pub(crate) fn step(&mut self, size: Size, at: Position, kind: &Kind)
        requires at { IsOnScreen size at }
        requires stand { BothStandOn size self.old }
        ensures stand { BothStandOn size self.new }
        ensures kept { (class : Start) (tokens : List TokenKind)
            → IsClean size class (tokens ++ shown_kind kind.now ∷ [])
            → AreKept size class at tokens self.old
            → AreKept size class at (tokens ++ shown_kind kind.now ∷ []) self.new }
    {
        self.low.step(size, at, kind);
        self.high.step(size, at, kind);
    }

    /// Whether a byte that is printed next has a fault: the cursors differ, or are in the spare row.
    fn decides(&self, size: Size) -> bool
        ensures { IsTrue result ↔ (self.now.low.pen.cursor ≢ self.now.high.pen.cursor)
            ⊎ (self.now.low.pen.cursor.row ≡ size.lines) }
    {
        self.low.pen.cursor != self.high.pen.cursor || self.low.pen.cursor.row == size.lines()
    }

    /// The blanks of a tab that has a fault, up to the one that decides it.
    pub(crate) fn blanks(&mut self, size: Size, at: Position)
        requires at { IsOnScreen size at }
        requires stand { BothStandOn size self.old }
        ensures stand { BothStandOn size self.new }
        ensures kept { (class : Start) (tokens : List TokenKind) (cause : Cause)
            (fault : HasTabFault size class tokens cause)
            → All PrintsByte tokens → IsClean size class tokens
            → AreKept size class at tokens self.old
            → AreKept size class at (then_blanks tokens fault.blanks_before) self.new }
    {
        let most = tab_blanks(self.low.pen.cursor.column);
        for _ in 0..most {
            if self.decides(size) {
                return;
            }
            self.step(size, at, &Kind::Glyph(b' '));
        }
    }
}
