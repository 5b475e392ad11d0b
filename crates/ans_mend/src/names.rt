//! Which sequences take the names of the colours away.

ghost use Rattle.std.specs.Prelude.{◌≡◌};
ghost use Rattle.std.specs.List.{list_any};
ghost use Rattle.ans_model.specs.Inside.ShownKind.{shown_kind};
ghost use Rattle.ans_mend.specs.NamedColours.{is_zero, takes_names};

use ans_model::kind::Kind;

/// Whether a colour sequence with these numbers takes both names away.
pub(crate) fn has_zero(numbers: &[u8]) -> bool
    ensures { result ≡ list_any is_zero numbers.now }
{
    numbers.iter().any(|number| *number == 0)
}

/// Whether a token is a colour sequence that takes both names away.
pub(crate) fn takes_names(kind: &Kind) -> bool
    ensures { result ≡ takes_names (shown_kind kind.now) }
{
    match kind {
        Kind::Colours(numbers) => has_zero(numbers),
        _ => false,
    }
}
