//! Whether bytes are read to their end.

ghost use Rattle.std.specs.Prelude.{◌≡◌, ◌≤◌, List, ℕ, length, true, false};
ghost use Rattle.ans_model.specs.Bytes.{longest_file};
ghost use Rattle.ans_model.specs.Sequence.TokenKind.{TokenKind};
ghost use Rattle.ans_model.specs.Sequence.Reads.{ReadsAs};

use ans_tokens::{Token, Walker, walk};

/// A walk that only reads.
#[derive(Clone, Copy)]
struct OnlyReading;

impl Walker for OnlyReading {
    ghost use Rattle.std.specs.Prelude.{◌≡◌, true};

    ghost ready = { λ reading offset. Unit {0} };

    ghost walked = { λ first front now goes_on. goes_on ≡ true };

    ghost takes = { λ reading count. Unit {0} };

    fn token(&mut self, _token: &Token, _behind: &[u8]) -> bool {
        true
    }

    fn room(&self) -> usize {
        usize::MAX
    }

    fn take(&mut self, _run: &[u8], _offset: usize) {}
}

/// Whether the bytes are read to their end: nothing in them is refused, and they do not end in a sequence.
pub(crate) fn is_read(bytes: &[u8]) -> bool
    requires { length bytes.now ≤ longest_file }
    ensures read { result ≡ true
        → (tokens : List TokenKind) × (texts : List (List ℕ)) × ReadsAs bytes.now tokens texts }
    ensures unread { result ≡ false
        → (tokens : List TokenKind) (texts : List (List ℕ)) → ¬ ReadsAs bytes.now tokens texts }
{
    walk(bytes, bytes.len(), &mut OnlyReading).is_ok()
}
