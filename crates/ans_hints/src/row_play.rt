//! A play that stops after the line ends of full rows.

ghost use Rattle.ans_pens.specs.Pens.{StandsOn};

use crate::full_row_ends::{Behind, FullRowEnd, Search};
use ans_model::size::Size;
use ans_pens::pen::Pen;
use ans_tokens::walk;

/// A play from the cleared start without its screen, which stops after line ends.
#[derive(Clone, Copy)]
pub struct RowPlay {
    pub(crate) size: Size,
    pub(crate) pen: Pen,
    /// How many bytes of the content were played.
    pub played: usize,
    ghost stands: { StandsOn size pen },
}

impl RowPlay {
    ghost use Rattle.std.specs.Prelude.{◌≡◌, ◌+◌, ◌≤◌, ℕ, List, length, IfSome, MatchOption, []};
    ghost use Rattle.ans_model.specs.Bytes.{longest_file};
    ghost use Rattle.ans_model.specs.Sequence.Reads.{ReadsAs};
    ghost use Rattle.ans_model.specs.Sequence.TokenKind.{TokenKind};
    ghost use Rattle.ans_hints.specs.FullRowEnds.{AreEndsOver, IsBehindEnd, IsFirstEnd, full_row_ends};
    ghost use Rattle.ans_hints.specs.declared.full_row_ends.FullRowEnd.{FullRowEnd};

    /// Before the first token.
    pub fn new(size: Size) -> RowPlay
        ensures played { result.played ≡ 0 }
        ensures ends { (content : List ℕ) (tokens : List TokenKind) (texts : List (List ℕ))
            → ReadsAs content tokens texts → AreEndsOver result content (full_row_ends size tokens texts) }
    {
        RowPlay {
            size,
            pen: Pen::cleared(),
            played: 0,
        }
    }

    /// The next line end after a full row in the bytes that follow those that were played; the play has
    /// then gone past it. None if there is none. It reads each byte once.
    pub fn next_end(&mut self, bytes: &[u8]) -> Option<FullRowEnd>
        requires { self.old.played + length bytes.now ≤ longest_file }
        ensures behind { IfSome result (IsBehindEnd self.old bytes.now self.new) }
        ensures ends { (ends : List FullRowEnd) → AreEndsOver self.old bytes.now ends
            → MatchOption result (ends ≡ []) (IsFirstEnd self.old bytes.now ends self.new) }
    {
        let mut search = Search {
            size: self.size,
            pen: self.pen,
            behind: Behind::Other,
            base: self.played,
            found: None,
        };
        let _ = walk(bytes, bytes.len(), &mut search);
        let end = search.found?;
        *self = RowPlay {
            size: search.size,
            pen: search.pen,
            played: end.line_feed + 1,
        };
        Some(end)
    }
}
