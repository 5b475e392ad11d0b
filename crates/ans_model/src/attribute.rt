//! What colour parameters do to an attribute.

ghost use Rattle.std.specs.Prelude.{◌≡◌, MatchOption, bit_or, bit_xor, ◌+◌, ◌<◌, ◌^◌};
ghost use Rattle.ans_model.specs.Screen.Attribute.{attribute_after, attribute_after_all, rendition_of, renditions};

/// What a parameter changes in an attribute: the bits of `mask` are kept, and those of `set` are set. The
/// bits of `known` come out the same, whatever the attribute was: those that are not kept, and those set.
#[derive(Debug, Clone, Copy, PartialEq, Eq)]
pub struct Change {
    pub mask: u8,
    pub known: u8,
    pub set: u8,
}

macro_rules! change {
    ($mask:literal, $set:literal) => {
        Change {
            mask: $mask,
            known: 0xFF ^ $mask | $set,
            set: $set,
        }
    };
}

/// All bits are kept and none is set.
const NOTHING: Change = change!(0xFF, 0x00);

/// What each parameter from 0 on changes. Those after the last one change nothing.
const CHANGES: &[Change; 48] = &[
    change!(0x00, 0x07), // 0
    change!(0xFF, 0x08), // 1
    NOTHING,
    NOTHING,
    change!(0xF8, 0x01), // 4
    change!(0xFF, 0x80), // 5
    NOTHING,
    change!(0xF8, 0x70), // 7
    change!(0x88, 0x00), // 8
    NOTHING,
    NOTHING,
    NOTHING,
    NOTHING,
    NOTHING,
    NOTHING,
    NOTHING,
    NOTHING,
    NOTHING,
    NOTHING,
    NOTHING,
    NOTHING,
    NOTHING,
    NOTHING,
    NOTHING,
    NOTHING,
    NOTHING,
    NOTHING,
    NOTHING,
    NOTHING,
    NOTHING,
    change!(0xF8, 0x00), // 30
    change!(0xF8, 0x04), // 31
    change!(0xF8, 0x02), // 32
    change!(0xF8, 0x06), // 33
    change!(0xF8, 0x01), // 34
    change!(0xF8, 0x05), // 35
    change!(0xF8, 0x03), // 36
    change!(0xF8, 0x07), // 37
    NOTHING,
    NOTHING,
    change!(0x8F, 0x00), // 40
    change!(0x8F, 0x40), // 41
    change!(0x8F, 0x20), // 42
    change!(0x8F, 0x60), // 43
    change!(0x8F, 0x10), // 44
    change!(0x8F, 0x50), // 45
    change!(0x8F, 0x30), // 46
    change!(0x8F, 0x70), // 47
];

/// What a parameter changes (ANSI.SYS, Set Graphics Rendition; 4, 7 and 8 are the profile's). It is looked
/// up, since a `match` would be compiled to a jump that a processor seldom foresees.
#[inline(always)]
pub fn change_of(parameter: u8) -> Change
    ensures { MatchOption (rendition_of renditions parameter)
        ((result.mask ≡ 0xFF) × (result.known ≡ 0x00) × (result.set ≡ 0x00))
        (λ r. (result.mask ≡ r.mask) × (result.known ≡ bit_or (bit_xor 0xFF r.mask) r.set)
        × (result.set ≡ r.set)) }
{
    if parameter as usize >= CHANGES.len() {
        return NOTHING;
    }
    CHANGES[parameter as usize]
}

/// An attribute after one parameter.
pub fn attribute_after(old: u8, parameter: u8) -> u8
    ensures { result ≡ attribute_after old parameter }
{
    let change = change_of(parameter);
    old & change.mask | change.set
}

/// An attribute after parameters, one after the other.
pub fn attribute_after_all(old: u8, parameters: &[u8]) -> u8
    ensures { result ≡ attribute_after_all old parameters.now }
{
    let mut attribute = old;
    for parameter in parameters {
        attribute = attribute_after(attribute, *parameter);
    }
    attribute
}
