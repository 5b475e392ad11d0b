//! What takes the bytes of a form.
ghost use Rattle.std.specs.Prelude.{ℕ, List, [], ◌++◌};

use ans_write::Outbox;
use std::io::Write;

/// What takes bytes, one piece after the other.
pub trait Sink {
    /// The first sink has taken these bytes and has become the second.
    ghost takes: { Self → Self → List ℕ → Type 0 };

    /// Takes these bytes.
    fn take(&mut self, bytes: &[u8])
        ensures { takes self.old self.new bytes.now };

    // nothing is taken
    ghost nothing: { (a : Self) → takes a a [] };

    // one piece is taken after another
    ghost both: { (a b c : Self) (x y : List ℕ) → takes a b x → takes b c y → takes a c (x ++ y) };
}

impl<W: Write> Sink for Outbox<'_, W> {
    ghost use Rattle.ans_write.specs.Puts.{Puts};
    ghost use Rattle.ans_write.proofs.PutsLemmas.{Puts-nothing, Puts-then};

    ghost takes = { λ a b x. Puts W.contents a b x };

    fn take(&mut self, bytes: &[u8]) {
        self.put(bytes);
    }

    ghost nothing = { λ a. Puts-nothing a };

    ghost both = { λ a b c x y p q. Puts-then p q };
}

/// How many bytes were taken, or as many as there is a number for.
#[derive(Drop)]
pub(crate) struct Count {
    pub(crate) bytes: usize,
}

impl Sink for Count {
    ghost use Rattle.ans_redraw.specs.Counts.{Counts};
    ghost use Rattle.std.proofs.Common.{arith, length-append};

    ghost takes = { Counts };

    fn take(&mut self, bytes: &[u8]) {
        self.bytes = self.bytes.saturating_add(bytes.len());
    }

    ghost nothing = { λ a low. Prim.omega arith };

    ghost both = { λ a b c x y p q low. Prim.omega (
      arith,
      p low,
      q (Prim.omega (arith, p low)),
      length-append x y,
    ) };
}

/// An array, of which the first bytes are taken.
#[derive(Drop)]
pub(crate) struct Copy<'a> {
    pub(crate) array: &'a mut [u8],
    pub(crate) used: usize,
}

impl<'a> Sink for Copy<'a> {
    ghost use Rattle.ans_redraw.specs.Copies.{Copies};
    ghost use Rattle.std.proofs.Common.{arith, refl, sym, ap, ◌∙◌, append_assoc};
    ghost use Rattle.std.proofs.lemmas.List.{append-nil, length-append};
    ghost use Rattle.std.specs.Prelude.{◌+◌, ◌++◌, ℕ, List, take};

    ghost takes = { Copies };

    fn take(&mut self, bytes: &[u8]) {
        let end = self.used.saturating_add(bytes.len());
        if end <= self.array.len() {
            self.array[self.used..end].copy_from_slice(bytes);
            self.used = end;
        }
    }

    ghost nothing = { λ a. record {
      same_array = refl;
      used = λ fits. Prim.omega arith;
      taken = λ fits. sym (append-nil (take a.used a.array.now));
      same_length = refl;
    } };

    ghost both = { λ a b c x y p q. record {
      same_array = q.same_array ∙ p.same_array;
      used = λ fits. Prim.omega (
        arith,
        length-append x y,
        p.used (Prim.omega (arith, fits, length-append x y)),
        q.used (Prim.omega (
          arith,
          fits,
          length-append x y,
          p.same_length,
          p.used (Prim.omega (arith, fits, length-append x y)),
        )),
      );
      taken = λ fits. q.taken (Prim.omega (
        arith,
        fits,
        length-append x y,
        p.same_length,
        p.used (Prim.omega (arith, fits, length-append x y)),
      ))
          ∙ ap (λ (v : List ℕ). v ++ y) (p.taken (Prim.omega (arith, fits, length-append x y)))
          ∙ append_assoc (take a.used a.array.now) x y;
      same_length = q.same_length ∙ p.same_length;
    } };
}
