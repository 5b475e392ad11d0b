//! What may come directly after `[`.

ghost use Rattle.std.specs.Prelude.{◌≡◌, ◌∷◌, [], false, MatchOption};
ghost use Rattle.ans_model.specs.Sequence.Meaning.{is_marked};
ghost use Rattle.ans_model.specs.Sequence.Spelling.{is_mark_byte, mark_bytes};

use ans_model::mark::Mark;

pub(crate) fn has_mark(mark: Mark) -> bool
    ensures { result ≡ is_marked mark }
{
    match mark {
        Mark::Unmarked => false,
        Mark::Equals | Mark::Question => true,
    }
}

pub(crate) fn mark_of_byte(byte: u8) -> Option<Mark>
    ensures { MatchOption result (is_mark_byte byte ≡ false)
        (λ mark. mark_bytes mark ≡ byte ∷ []) }
{
    match byte {
        b'=' => Some(Mark::Equals),
        b'?' => Some(Mark::Question),
        _ => None,
    }
}
