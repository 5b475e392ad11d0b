//! A sequence of colours that is handed on without a token.

ghost use Rattle.std.specs.Prelude.{◌≡◌, ◌≤◌, length};
ghost use Rattle.ans_model.specs.Bytes.{most_parameters};
ghost use Rattle.ans_model.specs.Sequence.TokenKind.{Colours};
ghost use Rattle.ans_model.specs.Inside.ShownKind.{shown_kind};
ghost use Rattle.ans_tokens.specs.Token.{kind_of, start_of, length_of};

use crate::token::Token;
use ans_model::kind::Kind;
use arrayvec::ArrayVec;

/// One sequence of colours of the content, with what its token does not say.
#[derive(Debug, Clone, Copy)]
pub struct ColourSequence<'a> {
    /// Its numbers, 16 at most: 0 for one that is omitted, and a 0 where there is none.
    pub numbers: &'a [u8],
    /// Whether a number is omitted, as in `ESC[;1m` or `ESC[m`.
    pub omits: bool,
    /// The offset of its ESC, in bytes from the content's start.
    pub start: usize,
    /// How many bytes spell it.
    pub length: usize,
}

impl ColourSequence<'_> {
    /// Its token.
    pub fn token(&self) -> Token
        requires { length self.now.numbers.now ≤ most_parameters }
        ensures kind { shown_kind (kind_of result) ≡ Colours self.now.numbers.now }
        ensures start { start_of result ≡ self.now.start }
        ensures length { length_of result ≡ self.now.length }
    {
        let mut numbers = ArrayVec::new();
        for number in self.numbers {
            numbers.push(*number);
        }
        Token::new(Kind::Colours(numbers), self.start, self.length)
    }
}
