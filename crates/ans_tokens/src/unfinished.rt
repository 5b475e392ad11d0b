//! A sequence of which bytes are still to come.

ghost use Rattle.std.specs.Prelude.{◌<◌};
ghost use Rattle.ans_model.specs.Bytes.{most_parameters};
ghost use Rattle.arrayvec.specs.ArrayVec.{array_vec_len};

use crate::mark::{has_mark, mark_of_byte};
use crate::meaning::kind_meant;
use ans_model::fault::Cause;
use ans_model::kind::Kind;
use ans_model::limits::MAX_PARAMETERS;
use ans_model::mark::Mark;
use arrayvec::ArrayVec;
use std::mem;

/// What there is of the member that is being read.
#[derive(Debug, Clone, Copy, PartialEq, Eq)]
pub(crate) enum Current {
    /// Nothing yet.
    Fresh,
    /// Digits of this value.
    InNumber(u8),
    /// A string that ends at this quote.
    InString(u8),
    /// A string that has ended.
    AfterString,
}

impl Current {
    ghost use Rattle.std.specs.Prelude.{◌≡◌, ◌↔◌, IsTrue};
    ghost use Rattle.ans_model.specs.Inside.OpenPart as parts;
    ghost use Rattle.ans_model.specs.Inside.OpenPart.{member_of};
    ghost use Rattle.ans_model.specs.Sequence.Meaning.{colour_number, is_quoted};
    ghost use Rattle.ans_tokens.specs.ScannerView.{KeepsCurrent};
    ghost use Rattle.ans_tokens.specs.KeptMember.{kept_member};

    fn is_fresh(self) -> bool
        ensures { (current : parts.Current) → KeepsCurrent (kept_member self) current
            → (IsTrue result ↔ (current ≡ parts.Fresh)) }
    {
        matches!(self, Current::Fresh)
    }

    fn is_string(self) -> bool
        ensures { (current : parts.Current) → KeepsCurrent (kept_member self) current
            → result ≡ is_quoted (member_of current) }
    {
        matches!(self, Current::InString(_) | Current::AfterString)
    }

    /// The number that stands for the member.
    fn number(self) -> u8
        ensures { (current : parts.Current) → KeepsCurrent (kept_member self) current
            → result ≡ colour_number (member_of current) }
    {
        match self {
            Current::InNumber(value) => value,
            _ => 0,
        }
    }
}

/// How an unfinished sequence goes on with the next byte.
#[derive(Debug, Clone, Copy, PartialEq, Eq)]
pub(crate) enum Continuation {
    /// It is still unfinished.
    More,
    /// The byte is its letter.
    Letter,
    /// No sequence goes on so.
    Refused(Cause),
}

/// The bytes since `ESC [`. Of each member a number is kept, 0 where it is none.
#[derive(Debug, Drop)]
pub(crate) struct Unfinished {
    mark: Mark,
    /// The members that a `;` has ended.
    done: ArrayVec<u8, MAX_PARAMETERS>,
    /// Whether a string is among them.
    quoted: bool,
    current: Current,
    ghost room: { array_vec_len done < most_parameters },
}

impl Unfinished {
    ghost use Rattle.std.specs.Prelude.{◌≡◌, ◌<◌, ◌+◌, ◌++◌, ◌∷◌, [], ℕ, List, map, false, MatchOption};
    ghost use Rattle.ans_model.specs.Inside.OpenPart.{Part, Fresh, SpellsPart, is_stop, lacks, members_of, raw_of};
    ghost use Rattle.ans_model.specs.Sequence.Spelling.{IsPrefixOfLoose};
    ghost use Rattle.ans_model.specs.Sequence.Meaning.{meaning, colour_number};
    ghost use Rattle.ans_tokens.specs.PlainSequence.{Means};
    ghost use Rattle.ans_tokens.specs.Unfinished.{IsStateOf, IsMarkAt, IsNoMarkAt, IsWhole, empty_part, ContinuesAs};
    ghost use Rattle.ans_tokens.specs.Unfinished.{with_next};

    /// Directly after `[`.
    pub(crate) fn new() -> Unfinished
        ensures { IsStateOf result empty_part }
    {
        Unfinished {
            mark: Mark::Unmarked,
            done: ArrayVec::new(),
            quoted: false,
            current: Current::Fresh,
        }
    }

    /// Takes the next byte.
    pub(crate) fn advance(&mut self, byte: u8) -> Continuation
        ensures { (part : Part) (open_part : List ℕ) → IsStateOf self.old part
            → SpellsPart part open_part → ContinuesAs result self.new part open_part byte }
    {
        match self.current {
            Current::InString(quote) => {
                if byte == quote {
                    self.current = Current::AfterString;
                }
                Continuation::More
            }
            Current::AfterString => self.stop(byte),
            Current::InNumber(value) => {
                if !byte.is_ascii_digit() {
                    return self.stop(byte);
                }
                let next = value as u16 * 10 + (byte - b'0') as u16;
                if next > u8::MAX as u16 {
                    return Continuation::Refused(Cause::NumberTooLarge);
                }
                self.current = Current::InNumber(next as u8);
                Continuation::More
            }
            Current::Fresh => self.begin(byte),
        }
    }

    /// Takes a byte where a member may begin.
    fn begin(&mut self, byte: u8) -> Continuation
        requires { (part : Part) → IsStateOf self.old part → part.current ≡ Fresh }
        ensures { (part : Part) (open_part : List ℕ) → IsStateOf self.old part
            → SpellsPart part open_part → ContinuesAs result self.new part open_part byte }
    {
        if byte.is_ascii_digit() {
            self.current = Current::InNumber(byte - b'0');
            return Continuation::More;
        }
        if byte == b'"' || byte == b'\'' {
            self.current = Current::InString(byte);
            return Continuation::More;
        }
        if let Some(mark) = self.mark_at(byte) {
            self.mark = mark;
            return Continuation::More;
        }
        self.stop(byte)
    }

    /// The mark that the byte is, if a mark may come here.
    fn mark_at(&self, byte: u8) -> Option<Mark>
        ensures { (part : Part) → IsStateOf self.now part
            → MatchOption result (IsNoMarkAt part byte) (λ mark. IsMarkAt part mark byte) }
    {
        if self.done.is_empty() && !has_mark(self.mark) {
            mark_of_byte(byte)
        } else {
            None
        }
    }

    /// Takes a byte after a whole member.
    fn stop(&mut self, byte: u8) -> Continuation
        requires { (part : Part) → IsStateOf self.old part → lacks part.current ≡ [] }
        ensures { (part : Part) (open_part : List ℕ) → IsStateOf self.old part
            → SpellsPart part open_part
            → (is_stop byte ≡ false → ¬ IsPrefixOfLoose (open_part ++ byte ∷ []))
            → ContinuesAs result self.new part open_part byte }
    {
        if byte == b';' {
            if self.done.len() + 1 >= MAX_PARAMETERS {
                return Continuation::Refused(Cause::TooManyParameters);
            }
            self.end_member();
            Continuation::More
        } else if byte.is_ascii_alphabetic() {
            Continuation::Letter
        } else {
            Continuation::Refused(Cause::BrokenSequence)
        }
    }

    /// Ends the current member at a `;`.
    fn end_member(&mut self)
        requires { array_vec_len self.old.done + 1 < most_parameters }
        ensures { (part : Part) → IsStateOf self.old part → IsStateOf self.new (with_next part) }
    {
        self.done.push(self.current.number());
        self.quoted = self.quoted || self.current.is_string();
        self.current = Current::Fresh;
    }

    /// The numbers of all members, where a letter comes next. Those that are done are taken.
    fn take_numbers(&mut self) -> ArrayVec<u8, MAX_PARAMETERS>
        ensures { (part : Part) → IsStateOf self.old part
            → result.items ≡ map colour_number (members_of part.done part.current) }
    {
        let mut numbers = mem::replace(&mut self.done, ArrayVec::new());
        if !(numbers.is_empty() && self.current.is_fresh()) {
            numbers.push(self.current.number());
        }
        numbers
    }

    /// What the sequence means with this letter after it. Afterwards nothing is left of it.
    pub(crate) fn finish(&mut self, letter: u8) -> Result<Kind, Cause>
        ensures { (part : Part) → IsStateOf self.old part → IsWhole part
            → Means result (meaning (raw_of part letter)) }
    {
        let mark = self.mark;
        let quoted = self.quoted || self.current.is_string();
        let numbers = self.take_numbers();
        kind_meant(mark, numbers, quoted, letter)
    }
}
