//! A walk over the tokens of a content.

ghost use Rattle.std.specs.Prelude.{◌≡◌, ◌≢◌, ◌+◌, ◌<◌, ◌≤◌, ℕ, Bool, List, [], length, true, MatchOption};
ghost use Rattle.std.specs.Prelude.{IfOk, IfErr, slice_index_or};
ghost use Rattle.ans_model.specs.Bytes.{escape, longest_file, most_parameters};
ghost use Rattle.ans_model.specs.Sequence.TokenKind.{Colours};
ghost use Rattle.ans_model.specs.Inside.ShownKind.{shown_kind};
ghost use Rattle.ans_tokens.specs.Token.{kind_of, start_of, length_of};
ghost use Rattle.ans_tokens.specs.Walk.{AreColoursNext, Front, IsFaultAt, IsNext, IsRunNext, WalksTo, front_past};
ghost use Rattle.ans_tokens.specs.Walk.{front_with, no_front};
ghost use Rattle.ans_tokens.specs.WholeToken.{IsTokenAt};

use crate::colours::ColourSequence;
use crate::handing::{Here, Step, rare_token};
use crate::scanner::ESCAPE;
use crate::token::Token;
use ans_model::fault::Fault;

/// What is handed the tokens of a content one after the other.
pub trait Walker {
    /// It may be handed a token that is at this offset.
    ghost ready: { Self → ℕ → Type 0 };

    /// The first walker has been over the front and has become the second, which goes on or stops.
    ghost walked: { Self → Front → Self → Bool → Type 0 };

    /// It may be handed that many plain bytes at once.
    ghost takes: { Self → ℕ → Type 0 };

    /// Takes the next token, and says whether to go on. `behind` are the content's bytes after the token.
    fn token(&mut self, token: &Token, behind: &[u8]) -> bool
        requires room { start_of token.now < longest_file }
        requires some { 0 < length_of token.now }
        requires ready { ready self.old (start_of token.now) }
        ensures ready { ready self.new (start_of token.now + length_of token.now) }
        ensures walked { (first : Self) (front : Front) (text : List ℕ)
            → IsNext front token.now text behind.now → walked first front self.old true → walked first
            (front_with front (shown_kind (kind_of token.now)) text behind.now) self.new result };

    /// Takes a sequence of colours, as it would take its token. `behind` are the content's bytes after it.
    fn colours(&mut self, colours: &ColourSequence<'_>, behind: &[u8]) -> bool
        requires room { colours.now.start < longest_file }
        requires some { 0 < colours.now.length }
        requires few { length colours.now.numbers.now ≤ most_parameters }
        requires ready { ready self.old colours.now.start }
        ensures ready { ready self.new (colours.now.start + colours.now.length) }
        ensures walked { (first : Self) (front : Front) (text : List ℕ)
            → AreColoursNext front colours.now text behind.now → walked first front self.old true
            → walked first (front_with front (Colours colours.now.numbers.now) text behind.now) self.new result }
    {
        self.token(&colours.token(), behind)
    }

    /// How many plain bytes it takes at once if they come next: the bytes from 20h on but 7Fh, C3h, and
    /// E0h and above, from which letters of other systems begin. No colour code of a bulletin board begins
    /// at any of those that it is handed. 0 is always right.
    fn room(&self) -> usize
        ensures { (count : ℕ) → 0 < count → count ≤ result → takes self.now count };

    /// Takes plain bytes, as it would take their tokens one after the other. The first is at this offset, and no letter
    /// of another system begins after the last.
    fn take(&mut self, run: &[u8], offset: usize)
        requires room { offset + length run.now ≤ longest_file }
        requires some { 0 < length run.now }
        requires takes { takes self.old (length run.now) }
        requires ready { ready self.old offset }
        ensures ready { ready self.new (offset + length run.now) }
        ensures walked { (first : Self) (front : Front) (behind : List ℕ)
            → IsRunNext front offset run.now behind → walked first front self.old true
            → walked first (front_past front run.now behind) self.new true };
}

/// Hands a walker the tokens of the first `end` bytes of a content, one after the other, and plain bytes at once if it
/// takes them. True if the walker went on to the end, and false if it stopped before. If the reading refuses what comes
/// next, or the bytes end in a sequence, the fault is returned, F9 to F14.
pub fn walk<W: Walker>(content: &[u8], end: usize, walker: &mut W) -> Result<bool, Fault>
    requires length { length content.now ≤ longest_file }
    requires end { end ≤ length content.now }
    requires ready { W.ready walker.old 0 }
    requires begins { W.walked walker.old (no_front content.now) walker.old true }
    ensures { WalksTo W.walked content.now end walker.old walker.new result }
{
    let mut at = 0;
    while at < end {
        let here = Here { content, end, at };
        let Step { length, goes_on } = match content[at] {
            0x20.. => here.hand_glyphs(walker),
            ESCAPE => match here.hand_sequence(walker) {
                Some(step) => step,
                None => {
                    let Some(token) = rare_token(&content[at..end], at)? else {
                        return Ok(true);
                    };
                    here.hand_token(&token, walker)
                }
            },
            byte => here.hand_low(byte, walker),
        };
        at += length;
        if !goes_on {
            return Ok(false);
        }
    }
    Ok(true)
}
