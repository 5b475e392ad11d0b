//! A token and where it is.

ghost use Rattle.std.specs.Prelude.{◌≡◌};
ghost use Rattle.ans_tokens.specs.Token.{kind_of, start_of, length_of};

use ans_model::kind::Kind;

/// One token of the content: what it is, and which bytes spell it.
#[derive(Debug, Drop)]
pub struct Token {
    pub(crate) kind: Kind,
    pub(crate) start: usize,
    pub(crate) length: usize,
}

impl Token {
    pub(crate) fn new(kind: Kind, start: usize, length: usize) -> Token
        ensures kind { kind_of result ≡ kind }
        ensures start { start_of result ≡ start }
        ensures length { length_of result ≡ length }
    {
        Token {
            kind,
            start,
            length,
        }
    }

    /// What the token is.
    pub fn kind(&self) -> &Kind
        ensures { result.now ≡ kind_of self.now }
    {
        &self.kind
    }

    /// The offset of its first byte, from the content's start.
    pub fn start(&self) -> usize
        ensures { result ≡ start_of self.now }
    {
        self.start
    }

    /// How many bytes spell it.
    pub fn length(&self) -> usize
        ensures { result ≡ length_of self.now }
    {
        self.length
    }
}
