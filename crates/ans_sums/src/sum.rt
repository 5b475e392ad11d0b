//! A picture's checksum, and its digits.

ghost use Rattle.std.specs.Prelude.{◌≡◌, ◌++◌, ℕ, List, decimal};
ghost use Rattle.hex.specs.Hex.{encode_lower};
ghost use Rattle.sha2.specs.Sha256.{sha256};
ghost use Rattle.ans_model.specs.Text.ReportText.{size_text};
ghost use Rattle.ans_sums.specs.Sums.{size_line, sum_bytes, summed_bytes};

use ans_play::Picture;
use ans_redraw::{Sink, give_form};
use ans_screen::Screen;
use sha2::{Digest, Sha256};

/// The checksum of a picture.
#[derive(Debug, Clone, Copy, PartialEq, Eq)]
pub struct Sum {
    bytes: [u8; 32],
}

/// A hasher, which takes bytes.
#[derive(Drop)]
struct Summing {
    hasher: Sha256,
}

impl Sink for Summing {
    ghost use Rattle.std.specs.Prelude.{ℕ, List, ◌++◌};
    ghost use Rattle.std.proofs.Common.{subst, sym, append_assoc};
    ghost use Rattle.std.proofs.lemmas.List.{append-nil};
    ghost use Rattle.ans_sums.specs.Summing.{Holds};

    ghost takes = { λ a b x. (m : List ℕ) → Holds a.hasher m → Holds b.hasher (m ++ x) };

    fn take(&mut self, bytes: &[u8]) {
        self.hasher.update(bytes);
    }

    ghost nothing = { λ a m h. let P : List ℕ → Type 0 = λ x. Holds a.hasher x in subst P (sym (append-nil m)) h };

    ghost both = { λ a b c x y p q m h.
        let P : List ℕ → Type 0 = λ z. Holds c.hasher z in subst P (append_assoc m x y) (q (m ++ x) (p m h)) };
}

/// Takes a number in decimal digits.
fn take_decimal<S: Sink>(sink: &mut S, number: usize)
    ensures { S.takes sink.old sink.new (decimal number) }
{
    let mut digits = itoa::Buffer::new();
    sink.take(digits.format(number).as_bytes());
}

/// Takes the line of a picture's size.
fn take_size<S: Sink, G: Screen>(sink: &mut S, picture: &Picture<G>)
    ensures { S.takes sink.old sink.new (size_line picture.now) }
{
    sink.take(b"size: ");
    take_decimal(sink, picture.width());
    sink.take(b" x ");
    take_decimal(sink, picture.lines());
    sink.take(b"\n");
}

/// The checksum of a picture: SHA-256 of the line of its size and its redrawn content.
pub fn picture_sum<G: Screen>(picture: &Picture<G>) -> Sum
    ensures { sum_bytes result ≡ sha256 (summed_bytes picture.now) }
{
    let mut summing = Summing {
        hasher: Sha256::new(),
    };
    take_size(&mut summing, picture);
    give_form(&mut summing, picture);
    let Summing { hasher } = summing;
    Sum {
        bytes: hasher.finalize(),
    }
}

impl Sum {
    /// Its 32 bytes.
    pub fn bytes(&self) -> &[u8; 32]
        ensures { result.now ≡ sum_bytes self.now }
    {
        &self.bytes
    }

    /// Its 64 hexadecimal digits, with small letters.
    pub fn digits(&self) -> [u8; 64]
        ensures { result ≡ encode_lower (sum_bytes self.now) }
    {
        let mut digits = [0; 64];
        let _ = hex::encode_to_slice(self.bytes, &mut digits);
        digits
    }
}
