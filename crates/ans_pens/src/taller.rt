//! Whether a content plays on taller screens as on the stated one.

ghost use Rattle.std.specs.Prelude.{◌≡◌, ◌≤◌, ◌↔◌, length, IsTrue};
ghost use Rattle.ans_model.specs.Bytes.{longest_file};
ghost use Rattle.ans_model.specs.Inside.ShownKind.{shown_kind};
ghost use Rattle.ans_model.specs.Verdict.Good.{IsGood};
ghost use Rattle.ans_pens.specs.Pens.{StandsOn};
ghost use Rattle.ans_pens.specs.RowMoves.{moved_with};
ghost use Rattle.ans_pens.specs.Taller.{IsTaller};
ghost use Rattle.ans_pens.specs.Walkers.{IsFreeBetween};

use crate::cell_play::CellPlay;
use crate::pen::{HOME, Pen};
use ans_model::kind::Kind;
use ans_model::size::Size;
use ans_model::start::Start;
use ans_tokens::{ColourSequence, Token, Walker, walk};

/// Whether some token moves the cursor up or down by rows: one did before, or this one does.
#[inline(always)]
pub fn moved_with(moved: bool, kind: &Kind) -> bool
    ensures { result ≡ moved_with moved (shown_kind kind.now) }
{
    match kind {
        Kind::Up(_) | Kind::Down(_) => true,
        _ => moved,
    }
}

/// Whether a token is no move up or down, or one that nothing stops, with the cursors of the plays from
/// the low and the high start where they are.
#[inline(always)]
fn is_free(size: Size, low: &Pen, high: &Pen, kind: &Kind) -> bool
    requires low { StandsOn size low.now }
    requires high { StandsOn size high.now }
    ensures { IsTrue result
        ↔ IsFreeBetween size low.now.cursor high.now.cursor (shown_kind kind.now) }
{
    match kind {
        Kind::Down(n) => {
            let rows = *n as usize;
            low.cursor.row + rows <= size.lines() && high.cursor.row + rows <= size.lines()
        }
        Kind::Up(_) => low.cursor.row == high.cursor.row,
        _ => true,
    }
}

/// The plays from the low and the high start of a class without their screens, as long as the moves
/// are free.
#[derive(Clone, Copy)]
struct Moves {
    size: Size,
    low: Pen,
    high: Pen,
}

impl Walker for Moves {
    ghost use Rattle.ans_pens.specs.Pens.{StandsOn};
    ghost use Rattle.ans_pens.specs.Walkers.{HasMoved, StayInRows};

    ghost ready = { λ m offset. StandsOn m.size m.low × StandsOn m.size m.high };

    ghost walked = { λ first front now goes_on. HasMoved first front.tokens goes_on now };

    ghost takes = { λ moves count. StayInRows moves count };

    #[inline(always)]
    fn token(&mut self, token: &Token, _behind: &[u8]) -> bool {
        let kind = token.kind();
        if !is_free(self.size, &self.low, &self.high, kind) {
            return false;
        }
        self.low.step(self.size, kind);
        self.high.step(self.size, kind);
        true
    }

    #[inline(always)]
    fn colours(&mut self, colours: &ColourSequence<'_>, _behind: &[u8]) -> bool {
        self.low.colour(colours.numbers);
        self.high.colour(colours.numbers);
        true
    }

    #[inline(always)]
    fn room(&self) -> usize {
        let left = self.low.columns_left(self.size);
        left.min(self.high.columns_left(self.size))
    }

    #[inline(always)]
    fn take(&mut self, run: &[u8], _offset: usize) {
        self.low.go_on(self.size, run.len());
        self.high.go_on(self.size, run.len());
    }
}

/// Whether the moves of good content are free from every start of a class: the bottom edge stops no
/// move down, and each move up comes with the cursor in one row. Then the content shows its picture on
/// every taller screen of its width. It takes no memory.
pub fn is_taller(size: Size, start: Start, content: &[u8]) -> bool
    requires length { length content.now ≤ longest_file }
    requires good { IsGood size start content.now }
    ensures { IsTrue result ↔ IsTaller size start content.now }
{
    let mut moves = Moves {
        size,
        low: CellPlay::low(size, start, HOME).pen,
        high: CellPlay::high(size, start, HOME).pen,
    };
    walk(content, content.len(), &mut moves).unwrap_or(false)
}
