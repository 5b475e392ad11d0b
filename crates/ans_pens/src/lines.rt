//! How many lines a content needs from the cleared start.

ghost use Rattle.std.specs.Prelude.{◌≡◌, ◌≤◌, ◌↔◌, length, IfSome, IfNone, IsTrue};
ghost use Rattle.ans_model.specs.Bytes.{longest_file, most_columns, most_lines};
ghost use Rattle.ans_model.specs.Inside.ShownKind.{shown_kind};
ghost use Rattle.ans_model.specs.Screen.StartClass.{all_known};
ghost use Rattle.ans_model.specs.Screen.State.{State};
ghost use Rattle.ans_model.specs.Verdict.Good.{IsGood};
ghost use Rattle.ans_pens.specs.Pens.{pen_of, StandsOn};
ghost use Rattle.ans_pens.specs.Lines.{IsNeverGood, IsLeastLines};
ghost use Rattle.ans_pens.specs.Walkers.{IsFaultless};

use crate::pen::Pen;
use ans_model::kind::Kind;
use ans_model::limits::MAX_LINES;
use ans_model::size::Size;
use ans_tokens::{Token, Walker, walk};

/// Whether a token has no fault where a play from the cleared start has come to this pen.
#[inline(always)]
fn is_faultless(size: Size, pen: &Pen, kind: &Kind) -> bool
    requires stands { StandsOn size pen.now }
    ensures { (s : State) → pen.now ≡ pen_of s
        → (IsTrue result ↔ IsFaultless size s (shown_kind kind.now)) }
{
    match kind {
        Kind::Glyph(_) | Kind::LineFeed => pen.cursor.row < size.lines(),
        Kind::Tab => pen.row_of_tab(size) < size.lines(),
        Kind::Place(row, column) => {
            *row as usize <= size.lines() + 1 && *column as usize <= size.width()
        }
        Kind::Keys | Kind::Mode | Kind::Ask => false,
        _ => true,
    }
}

/// A play from the cleared start without its screen, as long as no token has a fault.
#[derive(Clone, Copy)]
struct ClearedPlay {
    size: Size,
    pen: Pen,
}

impl Walker for ClearedPlay {
    ghost use Rattle.ans_pens.specs.Pens.{StandsOn};
    ghost use Rattle.ans_pens.specs.Walkers.{HasPlayed, StaysAbove};

    ghost ready = { λ play offset. StandsOn play.size play.pen };

    ghost walked = { λ first front now goes_on. HasPlayed first front.tokens goes_on now };

    ghost takes = { λ play count. StaysAbove play count };

    #[inline(always)]
    fn token(&mut self, token: &Token, _behind: &[u8]) -> bool {
        let kind = token.kind();
        if !is_faultless(self.size, &self.pen, kind) {
            return false;
        }
        self.pen.step(self.size, kind);
        true
    }

    #[inline(always)]
    fn room(&self) -> usize {
        if self.pen.cursor.row < self.size.lines() {
            self.pen.columns_left(self.size)
        } else {
            0
        }
    }

    #[inline(always)]
    fn take(&mut self, run: &[u8], _offset: usize) {
        self.pen.go_on(self.size, run.len());
    }
}

/// Whether the content is good from the cleared start on a screen of this size. It takes no memory.
pub fn is_good(size: Size, content: &[u8]) -> bool
    requires length { length content.now ≤ longest_file }
    ensures { IsTrue result ↔ IsGood size all_known content.now }
{
    let mut play = ClearedPlay {
        size,
        pen: Pen::cleared(),
    };
    walk(content, content.len(), &mut play).unwrap_or(false)
}

/// The least number of lines, up to 8192, with which the content is good from the cleared start on a
/// screen of this width. None where it is good with no such number. It takes no memory.
pub fn least_lines(width: usize, content: &[u8]) -> Option<u16>
    requires some_columns { 1 ≤ width }
    requires columns { width ≤ most_columns }
    requires length { length content.now ≤ longest_file }
    ensures least { IfSome result (IsLeastLines width content.now) }
    ensures within { IfSome result (λ lines. lines ≤ most_lines) }
    ensures none { IfNone result (IsNeverGood width content.now most_lines) }
{
    if !is_good(Size::new(width, MAX_LINES), content) {
        return None;
    }
    let mut refused = 1;
    let mut enough = MAX_LINES;
    'halves: while refused < enough {
        let middle = refused + (enough - refused) / 2;
        if is_good(Size::new(width, middle), content) {
            enough = middle;
        } else {
            refused = middle + 1;
        }
    }
    Some(enough as u16)
}
