//! The line ends after full rows, one after the other.

ghost use Rattle.std.specs.Prelude.{◌≡◌, ◌+◌, ◌≤◌, ◌<◌, ℕ, List, length, is_some, true, false};
ghost use Rattle.ans_model.specs.Bytes.{longest_file};
ghost use Rattle.ans_model.specs.Inside.ShownKind.{shown_kind};
ghost use Rattle.ans_model.specs.Screen.State.{State};
ghost use Rattle.ans_model.specs.Sequence.Reads.{ReadsAs};
ghost use Rattle.ans_model.specs.Sequence.TokenKind.{TokenKind};
ghost use Rattle.ans_hints.specs.FullRowEnds.{AreEndsOver, EndsFullRows, IsFirstEnd, full_row_ends};
ghost use Rattle.ans_hints.specs.FullRowSearch.{Agrees, SeenBetween, end_by, line_end};
ghost use Rattle.ans_pens.specs.Pens.{pen_of};
ghost use Rattle.ans_hints.specs.RowEnds.{written_by};
ghost use Rattle.ans_hints.specs.RowEnds.{are_all_ended, row_with};
ghost use Rattle.ans_hints.specs.declared.full_row_ends.FullRowEnd.{FullRowEnd};
ghost use Rattle.ans_hints.specs.declared.row.Row.{Row};

use crate::walk::Walk;
use ans_model::kind::Kind;
use ans_model::size::Size;
use ans_pens::pen::Pen;
use ans_tokens::{Token, Walker, walk};

/// The line end after a full row: the offsets of its return, if it has one, and of its line feed, in
/// bytes from the content's start.
#[derive(Debug, Clone, Copy, PartialEq, Eq)]
pub struct FullRowEnd {
    pub return_at: Option<usize>,
    pub line_feed: usize,
}

/// What came last in a row; colours, wrap, a save, a bell and an erased line may come between.
#[derive(Debug, Clone, Copy, PartialEq, Eq)]
pub(crate) enum Behind {
    /// Something else.
    Other,
    /// A glyph that has wrapped.
    Full,
    /// A return at this offset after a full row.
    Returned(usize),
}

impl Behind {
    /// The line end that a line feed at this offset makes of it.
    fn line_end(self, offset: usize) -> Option<FullRowEnd>
        ensures { result ≡ line_end self offset }
    {
        match self {
            Behind::Other => None,
            Behind::Full => Some(FullRowEnd {
                return_at: None,
                line_feed: offset,
            }),
            Behind::Returned(at) => Some(FullRowEnd {
                return_at: Some(at),
                line_feed: offset,
            }),
        }
    }

    /// The line end that a token at this offset makes of it.
    fn end_by(self, offset: usize, kind: &Kind) -> Option<FullRowEnd>
        ensures { result ≡ end_by self offset (shown_kind kind.now) }
    {
        match kind {
            Kind::LineFeed => self.line_end(offset),
            _ => None,
        }
    }

    /// With one token more, which is at this offset. The pen is given as it was before the token.
    fn with(self, size: Size, before: &Pen, offset: usize, kind: &Kind) -> Behind
        ensures agrees { (s : State) (row : Row) → before.now ≡ pen_of s → Agrees self row.seam
            → Agrees result (row_with size s offset row (shown_kind kind.now)).seam }
        ensures seen { (from : ℕ) → from ≤ offset → SeenBetween from self offset
            → SeenBetween from result (offset + 1) }
        ensures ended { is_some (end_by self offset (shown_kind kind.now)) ≡ true → result ≡ Behind.Other }
    {
        match kind {
            Kind::Glyph(_) if before.glyph_wraps(size) => Behind::Full,
            Kind::CarriageReturn if self == Behind::Full => Behind::Returned(offset),
            Kind::Bell | Kind::Save | Kind::EraseLine | Kind::Colours(_) | Kind::Wrap(_) => self,
            _ => Behind::Other,
        }
    }
}

/// The search for the next line end, in bytes the first of which is at an offset in the content.
#[derive(Clone, Copy)]
pub(crate) struct Search {
    pub(crate) size: Size,
    pub(crate) pen: Pen,
    pub(crate) behind: Behind,
    pub(crate) base: usize,
    pub(crate) found: Option<FullRowEnd>,
}

impl Walker for Search {
    ghost use Rattle.ans_tokens.specs.Walk.{StaysPast};
    ghost use Rattle.std.specs.Prelude.{◌≤◌};
    ghost use Rattle.ans_model.specs.Bytes.{longest_file};
    ghost use Rattle.ans_hints.specs.FullRowSearch.{HasSought};
    ghost use Rattle.ans_pens.specs.Pens.{StandsOn};

    ghost ready = { λ search offset. StandsOn search.size search.pen × (search.base ≤ longest_file) };

    ghost walked = { λ first front now goes_on. HasSought first front goes_on now };

    ghost takes = { StaysPast (λ first front now goes_on. HasSought first front goes_on now) };

    fn token(&mut self, token: &Token, _behind: &[u8]) -> bool {
        let kind = token.kind();
        let offset = self.base + token.start();
        self.found = self.behind.end_by(offset, kind);
        self.behind = self.behind.with(self.size, &self.pen, offset, kind);
        self.pen.step(self.size, kind);
        self.found.is_none()
    }

    fn room(&self) -> usize {
        0
    }

    fn take(&mut self, _run: &[u8], _offset: usize) {}
}

/// Whether a content is read as tokens, every full row of it that something is printed after has a line
/// end after it, and there are at least two of these.
pub fn ends_full_rows(size: Size, content: &[u8]) -> bool
    requires { length content.now ≤ longest_file }
    ensures ended { result ≡ true
        → (tokens : List TokenKind) × (texts : List (List ℕ)) × EndsFullRows size content.now tokens texts }
    ensures other { result ≡ false
        → (tokens : List TokenKind) (texts : List (List ℕ)) → ¬ EndsFullRows size content.now tokens texts }
{
    let mut rows = Walk::begun(size, false);
    let is_read = walk(content, content.len(), &mut rows).unwrap_or(false);
    is_read && rows.hints.row_ends.are_all_ended()
}
