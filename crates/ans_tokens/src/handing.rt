//! Handing a walker what comes next. A token is large and would be copied where ways join, so each is
//! handed on where it is made, and its kind is known there.

ghost use Rattle.std.specs.Prelude.{◌≡◌, ◌≢◌, ◌+◌, ◌<◌, ◌≤◌, ℕ, Bool, List, [], length, take, drop, true, false};
ghost use Rattle.std.specs.Prelude.{get_or, MatchOption, IfOk, IfErr, IfSome, IfNone, OnErr, Ok};
ghost use Rattle.ans_model.specs.Bytes.{escape, longest_file, most_parameters};
ghost use Rattle.ans_model.specs.Sequence.Meaning.{meaning};
ghost use Rattle.ans_model.specs.Sequence.Omitted.{omits};
ghost use Rattle.ans_model.specs.Inside.ShownKind.{shown_kind};
ghost use Rattle.ans_model.specs.declared.mark.Mark.TheVariants.{Unmarked};
ghost use Rattle.ans_tokens.specs.Handed.{Hands, IsPlace, bytes_left};
ghost use Rattle.ans_tokens.specs.PlainSequence.{plain_sequence};
ghost use Rattle.ans_tokens.specs.Token.{kind_of, length_of};
ghost use Rattle.ans_tokens.specs.Walk.{IsFaultAt};
ghost use Rattle.ans_tokens.specs.WholeToken.{IsSequenceFront, IsTokenAt, IsTokenFront};

use crate::colours::ColourSequence;
use crate::meaning::{distance, is_just, letter_meant, place};
use crate::plain::count_run;
use crate::scanner::{Scanner, kind_of_byte};
use crate::token::Token;
use crate::walker::Walker;
use crate::whole::{Letter, read_letter, read_sequence, whole_sequence};
use ans_model::fault::{Cause, Fault};
use ans_model::kind::Kind;
use ans_model::limits::MAX_PARAMETERS;
use arrayvec::ArrayVec;

/// Where a walk over the first `end` bytes of a content has come to.
#[derive(Clone, Copy)]
pub(crate) struct Here<'a> {
    pub(crate) content: &'a [u8],
    pub(crate) end: usize,
    pub(crate) at: usize,
}

/// What a walker was handed: how many bytes, and whether it goes on.
#[derive(Clone, Copy)]
pub(crate) struct Step {
    pub(crate) length: usize,
    pub(crate) goes_on: bool,
}

/// The token that the bytes begin with, at this offset. The bytes are taken one by one. None if there are no bytes, and
/// a fault at the offset, F9 to F14, if they begin with no token.
#[inline(never)]
fn token_by_bytes(bytes: &[u8], offset: usize) -> Result<Option<Token>, Fault>
    requires { offset + length bytes.now ≤ longest_file }
    ensures token { IfOk result (λ token. MatchOption token (bytes.now ≡ [])
        (IsTokenAt offset bytes.now)) }
    ensures fault { IfErr result (IsFaultAt offset bytes.now) }
{
    let mut scanner = Scanner::new();
    scanner.skip(offset);
    for byte in bytes {
        if let Some(token) = scanner.byte(*byte)? {
            return Ok(Some(token));
        }
    }
    scanner.end()?;
    Ok(None)
}

/// The token of a sequence that is seldom: with a mark or a string, cut off, refused, or with long numbers. None
/// where there is no byte, and else a fault at the offset, F9 to F14.
#[inline(never)]
pub(crate) fn rare_token(bytes: &[u8], offset: usize) -> Result<Option<Token>, Fault>
    requires { offset + length bytes.now ≤ longest_file }
    ensures token { IfOk result (λ token. MatchOption token (bytes.now ≡ [])
        (IsTokenAt offset bytes.now)) }
    ensures fault { IfErr result (IsFaultAt offset bytes.now) }
{
    if let Some(token) = whole_sequence(bytes, offset) {
        return Ok(Some(token));
    }
    token_by_bytes(bytes, offset)
}

impl Here<'_> {
    /// Hands on the token of this kind and length, which comes next.
    #[inline(always)]
    fn hand<W: Walker>(&self, kind: Kind, length: usize, walker: &mut W) -> Step
        requires place { IsPlace self.now }
        requires front { IsTokenFront (bytes_left self.now) (shown_kind kind) length }
        requires ready { W.ready walker.old self.now.at }
        ensures { Hands W.walked W.ready self.now walker.old walker.new result }
    {
        let token = Token::new(kind, self.at, length);
        self.hand_token(&token, walker)
    }

    /// Hands on a token that comes next.
    #[inline(always)]
    pub(crate) fn hand_token<W: Walker>(&self, token: &Token, walker: &mut W) -> Step
        requires place { IsPlace self.now }
        requires next { IsTokenAt self.now.at (bytes_left self.now) token.now }
        requires ready { W.ready walker.old self.now.at }
        ensures { Hands W.walked W.ready self.now walker.old walker.new result }
    {
        let length = token.length();
        let goes_on = walker.token(token, &self.content[self.at + length..]);
        Step { length, goes_on }
    }

    /// Hands on plain bytes if the walker takes some, and else the glyph that comes next.
    #[inline(always)]
    pub(crate) fn hand_glyphs<W: Walker>(&self, walker: &mut W) -> Step
        requires place { IsPlace self.now }
        requires some { self.now.at < self.now.end }
        requires glyph { 0x20 ≤ get_or self.now.content.now self.now.at 0 }
        requires ready { W.ready walker.old self.now.at }
        ensures { Hands W.walked W.ready self.now walker.old walker.new result }
    {
        let most = walker.room().min(self.end - self.at);
        let count = count_run(&self.content[self.at..], most);
        if count == 0 {
            return self.hand(Kind::Glyph(self.content[self.at]), 1, walker);
        }
        walker.take(&self.content[self.at..self.at + count], self.at);
        Step {
            length: count,
            goes_on: true,
        }
    }

    /// Hands on this byte, which comes next: one below 20h but ESC.
    #[inline(always)]
    pub(crate) fn hand_low<W: Walker>(&self, byte: u8, walker: &mut W) -> Step
        requires place { IsPlace self.now }
        requires some { self.now.at < self.now.end }
        requires byte { get_or self.now.content.now self.now.at 0 ≡ byte }
        requires outside { byte ≢ escape }
        requires ready { W.ready walker.old self.now.at }
        ensures { Hands W.walked W.ready self.now walker.old walker.new result }
    {
        match byte {
            b'\r' => self.hand(Kind::CarriageReturn, 1, walker),
            b'\n' => self.hand(Kind::LineFeed, 1, walker),
            _ => self.hand(kind_of_byte(byte), 1, walker),
        }
    }

    /// Hands on the sequence of these numbers and this letter, which means this.
    #[inline(always)]
    fn hand_meant<W: Walker>(
        &self,
        letter: Letter,
        numbers: &[u8],
        kind: Kind,
        walker: &mut W,
    ) -> Step
        requires place { IsPlace self.now }
        requires front { IsSequenceFront (bytes_left self.now) Unmarked numbers.now letter.byte letter.end }
        requires meant { meaning (plain_sequence Unmarked numbers.now false letter.byte) ≡ Ok (shown_kind kind) }
        requires ready { W.ready walker.old self.now.at }
        ensures { Hands W.walked W.ready self.now walker.old walker.new result }
    {
        self.hand(kind, letter.end, walker)
    }

    /// Hands on the sequence of these numbers and this letter if it moves or keeps the cursor, clears the
    /// screen, or blanks the row from the cursor on. An error says that it is another one, or is refused, and
    /// then nothing changes.
    #[inline(always)]
    #[tactic(auto, using(crate::proofs::PlainSequences::no_string))]
    fn hand_letter<W: Walker>(
        &self,
        letter: Letter,
        numbers: &[u8],
        walker: &mut W,
    ) -> Result<Step, Cause>
        requires place { IsPlace self.now }
        requires front { IsSequenceFront (bytes_left self.now) Unmarked numbers.now letter.byte letter.end }
        requires ready { W.ready walker.old self.now.at }
        ensures handed { IfOk result (Hands W.walked W.ready self.now walker.old walker.new) }
        ensures stays { OnErr result (walker.new ≡ walker.old) }
    {
        match letter.byte {
            b'C' => {
                let n = distance(numbers)?;
                Ok(self.hand_meant(letter, numbers, Kind::Forward(n), walker))
            }
            b'H' | b'f' => {
                let (row, column) = place(numbers)?;
                Ok(self.hand_meant(letter, numbers, Kind::Place(row, column), walker))
            }
            b'K' if numbers.is_empty() || is_just(0, numbers) => {
                Ok(self.hand_meant(letter, numbers, Kind::EraseLine, walker))
            }
            b's' if numbers.is_empty() => Ok(self.hand_meant(letter, numbers, Kind::Save, walker)),
            b'u' if numbers.is_empty() => {
                Ok(self.hand_meant(letter, numbers, Kind::Restore, walker))
            }
            byte => {
                let kind = letter_meant(byte, numbers)?;
                Ok(self.hand_meant(letter, numbers, kind, walker))
            }
        }
    }

    /// Hands on the colours of these numbers, without any a 0.
    #[inline(always)]
    fn hand_colours<W: Walker>(
        &self,
        letter: Letter,
        numbers: &mut ArrayVec<u8, MAX_PARAMETERS>,
        walker: &mut W,
    ) -> Step
        requires place { IsPlace self.now }
        requires front { IsSequenceFront (bytes_left self.now) Unmarked numbers.old.items letter.byte letter.end }
        requires colours { letter.byte ≡ 0x6D }
        requires omits { letter.omits ≡ omits (take letter.end (bytes_left self.now)) }
        requires ready { W.ready walker.old self.now.at }
        ensures { Hands W.walked W.ready self.now walker.old walker.new result }
    {
        if numbers.is_empty() {
            numbers.push(0);
        }
        let colours = ColourSequence {
            numbers: &*numbers,
            omits: letter.omits,
            start: self.at,
            length: letter.end,
        };
        let goes_on = walker.colours(&colours, &self.content[self.at + letter.end..]);
        Step {
            length: letter.end,
            goes_on,
        }
    }

    /// Hands on the sequence of these numbers and this letter if it is a common one. Nothing is handed on
    /// otherwise.
    #[inline(always)]
    fn hand_read<W: Walker>(
        &self,
        letter: Letter,
        numbers: &mut ArrayVec<u8, MAX_PARAMETERS>,
        walker: &mut W,
    ) -> Option<Step>
        requires place { IsPlace self.now }
        requires front { IsSequenceFront (bytes_left self.now) Unmarked numbers.old.items letter.byte letter.end }
        requires omits { letter.byte ≡ 0x6D → letter.omits ≡ omits (take letter.end (bytes_left self.now)) }
        requires ready { W.ready walker.old self.now.at }
        ensures handed { IfSome result (Hands W.walked W.ready self.now walker.old walker.new) }
        ensures stays { IfNone result (walker.new ≡ walker.old) }
    {
        if letter.byte == b'm' {
            return Some(self.hand_colours(letter, numbers, walker));
        }
        match self.hand_letter(letter, numbers, walker) {
            Ok(step) => Some(step),
            Err(_) => None,
        }
    }

    /// Hands on the sequence that comes next if it is whole, has neither a mark nor a string, and is a common
    /// one. Nothing is handed on otherwise.
    #[inline(always)]
    pub(crate) fn hand_sequence<W: Walker>(&self, walker: &mut W) -> Option<Step>
        requires place { IsPlace self.now }
        requires ready { W.ready walker.old self.now.at }
        ensures handed { IfSome result (Hands W.walked W.ready self.now walker.old walker.new) }
        ensures stays { IfNone result (walker.new ≡ walker.old) }
    {
        let bytes = &self.content[self.at..self.end];
        let mut numbers = ArrayVec::new();
        if let Some(letter) = read_letter(bytes) {
            return self.hand_read(letter, &mut numbers, walker);
        }
        let letter = read_sequence(bytes, &mut numbers)?;
        self.hand_read(letter, &mut numbers, walker)
    }
}
