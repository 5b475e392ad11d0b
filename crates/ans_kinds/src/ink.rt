//! What the numbers of a colour sequence do, one after the other.

ghost use Rattle.std.specs.Prelude.{◌≡◌, ◌&&◌, ◌==◌, MatchOption, fold};
ghost use Rattle.std.specs.List.{list_all};
ghost use Rattle.ans_model.specs.Screen.Attribute.{attribute_after, attribute_after_all, rendition_of, renditions};
ghost use Rattle.ans_players.specs.Names.{is_within, names_behind};
ghost use Rattle.ans_players.specs.Situations.{is_common_colour};
ghost use Rattle.ans_kinds.specs.NamesShown.{shown_names};

use crate::names::Names;

/// What a number does: of the attribute it keeps the bits of `mask` and sets those of `set`, and it may
/// name the foreground or the background. 0 takes both names away. A common one is taken alike by all
/// players.
#[derive(Clone, Copy)]
struct Effect {
    mask: u8,
    set: u8,
    is_zero: bool,
    is_foreground: bool,
    is_background: bool,
    is_common: bool,
}

/// A number that all players take alike and that names no colour: 0, 1 or 5.
macro_rules! common {
    ($mask:literal, $set:literal, $is_zero:literal) => {
        Effect {
            mask: $mask,
            set: $set,
            is_zero: $is_zero,
            is_foreground: false,
            is_background: false,
            is_common: true,
        }
    };
}

macro_rules! foreground {
    ($set:literal) => {
        Effect {
            mask: 0xF8,
            set: $set,
            is_zero: false,
            is_foreground: true,
            is_background: false,
            is_common: true,
        }
    };
}

macro_rules! background {
    ($set:literal) => {
        Effect {
            mask: 0x8F,
            set: $set,
            is_zero: false,
            is_foreground: false,
            is_background: true,
            is_common: true,
        }
    };
}

/// A number that players take in more ways than one.
macro_rules! other {
    ($mask:literal, $set:literal) => {
        Effect {
            mask: $mask,
            set: $set,
            is_zero: false,
            is_foreground: false,
            is_background: false,
            is_common: false,
        }
    };
}

const NOTHING: Effect = other!(0xFF, 0x00);

/// What each number from 0 on does. Those after the last one do nothing.
const EFFECTS: &[Effect; 48] = &[
    common!(0x00, 0x07, true), // 0
    common!(0xFF, 0x08, false), // 1
    NOTHING,
    NOTHING,
    other!(0xF8, 0x01), // 4
    common!(0xFF, 0x80, false), // 5
    NOTHING,
    other!(0xF8, 0x70), // 7
    other!(0x88, 0x00), // 8
    NOTHING,
    NOTHING,
    NOTHING,
    NOTHING,
    NOTHING,
    NOTHING,
    NOTHING,
    NOTHING,
    NOTHING,
    NOTHING,
    NOTHING,
    NOTHING,
    NOTHING,
    NOTHING,
    NOTHING,
    NOTHING,
    NOTHING,
    NOTHING,
    NOTHING,
    NOTHING,
    NOTHING,
    foreground!(0x00), // 30
    foreground!(0x04), // 31
    foreground!(0x02), // 32
    foreground!(0x06), // 33
    foreground!(0x01), // 34
    foreground!(0x05), // 35
    foreground!(0x03), // 36
    foreground!(0x07), // 37
    NOTHING,
    NOTHING,
    background!(0x00), // 40
    background!(0x40), // 41
    background!(0x20), // 42
    background!(0x60), // 43
    background!(0x10), // 44
    background!(0x50), // 45
    background!(0x30), // 46
    background!(0x70), // 47
];

/// What a number does, looked up once for all that is asked of it.
#[inline(always)]
fn effect_of(number: u8) -> Effect
    ensures attribute { MatchOption (rendition_of renditions number) ((result.mask ≡ 0xFF) × (result.set ≡ 0x00))
        (λ r. (result.mask ≡ r.mask) × (result.set ≡ r.set)) }
    ensures zero { result.is_zero ≡ (number == 0) }
    ensures foreground { result.is_foreground ≡ is_within 30 37 number }
    ensures background { result.is_background ≡ is_within 40 47 number }
    ensures common { result.is_common ≡ is_common_colour number }
{
    if number as usize >= EFFECTS.len() {
        return NOTHING;
    }
    EFFECTS[number as usize]
}

/// Where the numbers of a colour sequence lead, and what they are like.
#[derive(Clone, Copy)]
pub struct Inked {
    /// The attribute after them.
    pub attribute: u8,
    /// The colours that are named after them.
    pub names: Names,
    /// Whether all players take each of them alike.
    pub are_common: bool,
}

impl Inked {
    /// By one number more. Nothing here branches, since a processor would seldom foresee it.
    #[inline(always)]
    fn with(self, number: u8) -> Inked
        ensures attribute { result.attribute ≡ attribute_after self.attribute number }
        ensures names { shown_names result.names ≡ names_behind (shown_names self.names) number }
        ensures common { result.are_common ≡ (self.are_common && is_common_colour number) }
    {
        let effect = effect_of(number);
        let names = self.names;
        Inked {
            attribute: self.attribute & effect.mask | effect.set,
            names: Names {
                foreground: names.foreground & !effect.is_zero | effect.is_foreground,
                background: names.background & !effect.is_zero | effect.is_background,
            },
            are_common: self.are_common & effect.is_common,
        }
    }

    /// By the numbers, from this attribute and these names. It goes over them once.
    #[inline(always)]
    pub fn by(attribute: u8, names: Names, numbers: &[u8]) -> Inked
        ensures attribute { result.attribute ≡ attribute_after_all attribute numbers.now }
        ensures names { shown_names result.names ≡ fold names_behind (shown_names names) numbers.now }
        ensures common { result.are_common ≡ list_all is_common_colour numbers.now }
    {
        let mut inked = Inked {
            attribute,
            names,
            are_common: true,
        };
        for number in numbers {
            inked = inked.with(*number);
        }
        inked
    }
}
