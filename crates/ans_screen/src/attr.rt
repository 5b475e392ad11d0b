//! A half-known attribute.

ghost use Rattle.std.specs.Prelude.{◌≡◌};

use ans_model::attribute::change_of;
use std::marker::Model;

/// Some bits of an attribute. `value` has no bit outside `known`.
#[derive(Debug, Clone, Copy, PartialEq, Eq)]
pub struct Attr {
    pub known: u8,
    pub value: u8,
}

impl Model for Attr {
    ghost use Rattle.ans_screen.specs.KnownBits.{KnownBits, known_bits, IsKnownBits};

    ghost Value = { KnownBits };

    ghost view = { λ a. known_bits a.known a.value };

    ghost invariant = { λ a. IsKnownBits (known_bits a.known a.value) };

    ghost inverse = { λ a. record { known = a.known; value = a.value } };
}

impl Attr {
    ghost use Rattle.ans_screen.specs.KnownBits.{known_bits, is_whole, known_after, AgreesAfter, KnowsJust};

    /// All bits of `value`.
    pub fn whole(value: u8) -> Attr
        ensures { result ≡ known_bits 0xFF value }
    {
        Attr { known: 0xFF, value }
    }

    /// No bit.
    pub fn none() -> Attr
        ensures { result ≡ known_bits 0x00 0x00 }
    {
        Attr {
            known: 0x00,
            value: 0x00,
        }
    }

    /// What is known after a colour parameter: all that is the same for every attribute that has
    /// the known bits, and no more.
    #[inline(always)]
    pub fn apply(self, parameter: u8) -> Attr
        ensures bits { result ≡ known_after self parameter }
        ensures sound { AgreesAfter self parameter result }
        ensures exact { KnowsJust self parameter result }
    {
        let change = change_of(parameter);
        Attr {
            known: self.known & change.mask | change.known,
            value: self.value & change.mask | change.set,
        }
    }

    /// Whether all bits are known.
    pub fn is_known(self) -> bool
        ensures { result ≡ is_whole self }
    {
        self.known == 0xFF
    }
}
