//! What a file comes to.

ghost use Rattle.std.specs.Prelude.{◌≡◌};
ghost use Rattle.std.specs.Option.{option_copied};
ghost use Rattle.ans_sauce.specs.Judged.{is_pass, parts_in};

use crate::parts::Parts;

/// What a file comes to, and what is known then: of a record or a layout that is refused, of a content
/// that is refused, and of one that passes.
#[derive(Debug, Drop)]
pub enum Judged<'a, N, R, P> {
    /// The record or the layout is refused.
    NoContent(N),
    /// The content is refused.
    Refused(Parts<'a>, R),
    /// The content passes.
    Passes(Parts<'a>, P),
}

impl<'a, N, R, P> Judged<'a, N, R, P> {
    /// Whether the content passes.
    pub fn is_pass(&self) -> bool
        ensures { result ≡ is_pass self.now }
    {
        matches!(self, Judged::Passes(_, _))
    }

    /// The parts of the file, but where its record or its layout is refused.
    pub fn parts(&self) -> Option<&Parts<'a>>
        ensures { option_copied result ≡ parts_in self.now }
    {
        match self {
            Judged::NoContent(_) => None,
            Judged::Refused(parts, _) | Judged::Passes(parts, _) => Some(parts),
        }
    }
}
