//! The scanner: bytes in, tokens out.

ghost use Rattle.std.specs.Prelude.{◌≡◌, ◌++◌, ◌∷◌, ◌↔◌, [], ℕ, List, IsTrue, MatchBool, MatchResult, MatchOption};
ghost use Rattle.std.specs.Prelude.{IfNone};
ghost use Rattle.ans_model.specs.Sequence.Reads.{SpellsToken, kind_of_byte};
ghost use Rattle.ans_model.specs.Sequence.Spelling.{IsUnfinished};
ghost use Rattle.ans_model.specs.Verdict.FirstFault.{IsRefused};
ghost use Rattle.ans_model.specs.Inside.ShownKind.{shown_kind};

use crate::token::Token;
use crate::unfinished::{Continuation, Unfinished};
use ans_model::fault::{Cause, Fault};
use ans_model::kind::Kind;
use std::marker::Model;

/// The byte that begins a sequence.
pub const ESCAPE: u8 = 0x1B;

/// What is kept of the bytes since the last token.
#[derive(Debug, Drop)]
pub(crate) enum Open {
    /// There are none.
    Nothing,
    /// ESC.
    Escape,
    /// ESC, `[` and what is kept of the bytes after them.
    Sequence(Unfinished),
}

pub(crate) fn kind_of_byte(byte: u8) -> Kind
    ensures { shown_kind result ≡ kind_of_byte byte }
{
    match byte {
        0x07 => Kind::Bell,
        0x08 => Kind::BackSpace,
        b'\t' => Kind::Tab,
        b'\n' => Kind::LineFeed,
        b'\r' => Kind::CarriageReturn,
        _ => Kind::Glyph(byte),
    }
}

impl Open {
    ghost use Rattle.ans_tokens.specs.ScannerInside.{HoldsOpen, IsBegun};

    fn is_nothing(&self) -> bool
        ensures { (open_part : List ℕ) → HoldsOpen self.now open_part
            → MatchBool result (open_part ≡ []) (IsUnfinished open_part) }
    {
        match self {
            Open::Nothing => true,
            Open::Escape => false,
            Open::Sequence(_) => false,
        }
    }

    /// Takes the next byte. It returns a token where the bytes spell it, None where they begin a
    /// spelling, and a cause where they begin none.
    fn take(&mut self, byte: u8) -> Result<Option<Kind>, Cause>
        ensures spelled { (open_part : List ℕ) → HoldsOpen self.old open_part
            → let text = open_part ++ byte ∷ [] in MatchResult result
            (λ kind. MatchOption kind (IsUnfinished text × HoldsOpen self.new text)
            (λ k. SpellsToken (shown_kind k) text))
            (λ cause. IsRefused text cause) }
        ensures begun { MatchResult result (λ kind. IfNone kind (IsBegun self.new))
            (λ _. IsBegun self.new) }
    {
        match self {
            Open::Nothing => {
                if byte != ESCAPE {
                    return Ok(Some(kind_of_byte(byte)));
                }
                *self = Open::Escape;
                Ok(None)
            }
            Open::Escape => {
                if byte != b'[' {
                    return Err(Cause::BrokenSequence);
                }
                *self = Open::Sequence(Unfinished::new());
                Ok(None)
            }
            Open::Sequence(sequence) => match sequence.advance(byte) {
                Continuation::More => Ok(None),
                Continuation::Letter => match sequence.finish(byte) {
                    Ok(kind) => Ok(Some(kind)),
                    Err(cause) => Err(cause),
                },
                Continuation::Refused(cause) => Err(cause),
            },
        }
    }
}

/// Reads the content byte by byte.
///
/// It keeps its offset and what is needed of the bytes since the last token, and never the bytes
/// themselves: its size is a small constant.
#[derive(Debug, Drop)]
pub struct Scanner {
    offset: usize,
    open_offset: usize,
    open_part: Open,
    fault: Option<Fault>,
}

impl Model for Scanner {
    ghost use Rattle.ans_tokens.specs.ScannerView.{ScannerView};

    ghost Value = { ScannerView };

    ghost use Rattle.ans_tokens.specs.ScannerInside.{shown_scanner, IsWithin};

    ghost view = { shown_scanner };

    ghost invariant = { λ s. IsWithin (shown_scanner s) };
}

impl Scanner {
    ghost use Rattle.std.specs.Prelude.{◌≡◌, ◌+◌, ◌<◌, ◌≤◌, length, None, Some};
    ghost use Rattle.std.specs.Prelude.{OnOk, OnErr, IfOk, IfErr, IfSome, IsErrOf};
    ghost use Rattle.ans_model.specs.Bytes.{longest_file};
    ghost use Rattle.ans_model.specs.File.Refusals.{fault_at};
    ghost use Rattle.ans_tokens.specs.ScannerView.{new_scanner, Holds, StaysUnfinished, EndsToken};
    ghost use Rattle.ans_tokens.specs.ScannerView.{StartsAfterLast, RefusesByte, Ends};
    ghost use Rattle.ans_tokens.specs.Glyphs.{IsBetweenTokens, scanner_after};

    /// A scanner before the first byte.
    pub fn new() -> Scanner
        ensures { result ≡ new_scanner }
    {
        Scanner {
            offset: 0,
            open_offset: 0,
            open_part: Open::Nothing,
            fault: None,
        }
    }

    /// How many bytes it has taken without a fault.
    pub fn offset(&self) -> usize
        ensures { result ≡ self.now.offset }
    {
        self.offset
    }

    /// A fault at the first byte since the last token.
    fn fault_of_open_part(&self, cause: Cause) -> Fault
        ensures { result ≡ fault_at self.now.open_offset cause }
    {
        Fault {
            offset: self.open_offset,
            cause,
        }
    }

    /// Takes the next byte. It returns a token where the bytes since the last one spell it, None
    /// where they begin a spelling, and a fault at the first of them where they begin none: F9, F10,
    /// F11, F13 or F14. After a fault each later call returns the same one, and changes
    /// nothing.
    pub fn byte(&mut self, byte: u8) -> Result<Option<Token>, Fault>
        requires { self.old.offset < longest_file }
        ensures unfinished { self.old.fault ≡ None
            → IfOk result (λ token. IfNone token (StaysUnfinished self.old self.new byte)) }
        ensures token { self.old.fault ≡ None
            → IfOk result (λ token. IfSome token (EndsToken self.old self.new byte)) }
        ensures fault { self.old.fault ≡ None → IfErr result (RefusesByte self.old byte) }

        ensures starts { IfOk result (λ token. IfSome token (StartsAfterLast self.old self.new)) }
        ensures taken { OnOk result (self.new.offset ≡ self.old.offset + 1) }
        ensures accepted { OnOk result (self.new.fault ≡ None) }
        ensures refused { IfErr result (λ fault. self.new.fault ≡ Some fault) }
        ensures stays { OnErr result (self.new.offset ≡ self.old.offset) }
        ensures within { IfErr result (λ fault. fault.offset ≤ self.old.offset) }
        ensures repeats { IfSome self.old.fault (λ fault. IsErrOf result fault) }
        ensures unchanged { IfSome self.old.fault (λ _. self.new ≡ self.old) }
    {
        if let Some(fault) = self.fault {
            return Err(fault);
        }
        match self.open_part.take(byte) {
            Ok(None) => {
                self.offset += 1;
                Ok(None)
            }
            Ok(Some(kind)) => {
                self.offset += 1;
                let token = Token::new(kind, self.open_offset, self.offset - self.open_offset);
                self.open_part = Open::Nothing;
                self.open_offset = self.offset;
                Ok(Some(token))
            }
            Err(cause) => {
                let fault = self.fault_of_open_part(cause);
                self.fault = Some(fault);
                Err(fault)
            }
        }
    }

    /// Whether it is between two tokens: at the start or after a whole token, and without a fault. It then holds no
    /// byte since the last token.
    pub fn is_between_tokens(&self) -> bool
        ensures between { IsTrue result ↔ IsBetweenTokens self.now }
        ensures holds { IsTrue result → Holds self.now [] }
    {
        matches!(self.open_part, Open::Nothing) && self.fault.is_none()
    }

    /// Goes on over bytes that the caller has taken as whole tokens. It is called between two tokens.
    pub fn skip(&mut self, count: usize)
        requires between { IsBetweenTokens self.old }
        requires room { self.old.offset + count ≤ longest_file }
        ensures { self.new ≡ scanner_after self.old count }
    {
        self.offset += count;
        self.open_offset += count;
    }

    /// Whether the content may end here. It returns the fault that was returned before, or F12 at
    /// the start of a sequence that is not finished. It changes nothing.
    pub fn end(&self) -> Result<(), Fault>
        ensures ends { self.now.fault ≡ None → Ends self.now result }
        ensures within { IfErr result (λ fault. fault.offset ≤ self.now.offset) }
        ensures repeats { IfSome self.now.fault (λ fault. IsErrOf result fault) }
    {
        if let Some(fault) = self.fault {
            return Err(fault);
        }
        if self.open_part.is_nothing() {
            return Ok(());
        }
        Err(self.fault_of_open_part(Cause::EndInSequence))
    }
}
