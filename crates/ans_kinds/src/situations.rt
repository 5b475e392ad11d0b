//! The kinds in which players may differ at a token.

ghost use Rattle.std.specs.Prelude.{◌≡◌, ◌==◌, ◌||◌, ◌&&◌, ◌++◌, ◌↔◌, not, IsTrue};
ghost use Rattle.std.specs.List.{list_all, list_any};
ghost use Rattle.ans_model.specs.Bytes.{bracket, semicolon};
ghost use Rattle.ans_model.specs.Screen.State.{State};
ghost use Rattle.ans_model.specs.Inside.ShownKind.{shown_kind};
ghost use Rattle.ans_players.specs.Situations.{is_common_colour, is_page_control, is_terminal_control, kind_if};
ghost use Rattle.ans_model.specs.Sequence.Omitted.{omits};
ghost use Rattle.ans_players.specs.Situations.{own_kinds, situations};
ghost use Rattle.ans_players.specs.Kinds.{is_kind};
ghost use Rattle.ans_players.specs.declared.difference.Difference.{Difference};
ghost use Rattle.ans_players.specs.declared.difference.Difference.TheVariants.{OwnColours};
ghost use Rattle.ans_kinds.specs.SyncShown.{kinds_in, kinds_of, shown_sync};
ghost use Rattle.ans_kinds.specs.NamesShown.{shown_names};
ghost use Rattle.ans_pens.specs.Pens.{pen_of, StandsOn};

use crate::names::{Names, paints};
use crate::sync::Sync;
use ans_model::kind::Kind;
use ans_model::size::Size;
use ans_pens::pen::Pen;
use ans_players::difference::Difference;

/// The kinds that arise at a token: that of players that are not in sync, the token's own, two at most, and own
/// colours.
#[derive(Debug, Clone, Copy, PartialEq, Eq)]
pub struct Situations {
    pub(crate) unsure: Option<Difference>,
    pub(crate) own: Option<Difference>,
    pub(crate) other: Option<Difference>,
    pub(crate) unnamed: bool,
}

fn is_common_colour(number: u8) -> bool
    ensures { result ≡ is_common_colour number }
{
    matches!(number, 0 | 1 | 5 | 30..=37 | 40..=47)
}

#[inline(always)]
fn are_common_colours(numbers: &[u8]) -> bool
    ensures { result ≡ list_all is_common_colour numbers.now }
{
    numbers.iter().all(|number| is_common_colour(*number))
}

pub(crate) fn are_zero(numbers: &[u8]) -> bool
    ensures { result ≡ list_all (λ n. n == 0) numbers.now }
{
    numbers.iter().all(|number| *number == 0)
}

fn is_page_control(byte: u8) -> bool
    ensures { result ≡ is_page_control byte }
{
    matches!(byte, 0x00 | 0x0B | 0x0C)
}

fn is_terminal_control(byte: u8) -> bool
    ensures { result ≡ is_terminal_control byte }
{
    matches!(byte, 0x01..=0x06 | 0x0E..=0x19 | 0x1C..=0x1F | 0x7F)
}

/// Whether between these two bytes of a colour sequence a number is omitted.
fn omits_between(before: u8, byte: u8) -> bool
    ensures { result
        ≡ ((before == bracket || before == semicolon) && (byte == semicolon || byte == 0x6D)) }
{
    (before == b'[' || before == b';') && (byte == b';' || byte == b'm')
}

/// Whether a number of a colour sequence is omitted, as in `ESC[;1m` or `ESC[m`. The text is that of
/// the sequence, from its ESC to its `m`.
pub fn omits_number(text: &[u8]) -> bool
    ensures { result ≡ omits text.now }
{
    let Some((first, rest)) = text.split_first() else {
        return false;
    };
    let mut before = *first;
    for byte in rest {
        if omits_between(before, *byte) {
            return true;
        }
        before = *byte;
    }
    false
}

#[inline(always)]
pub(crate) fn kind_if(test: bool, kind: Difference) -> Option<Difference>
    ensures { kinds_in result ≡ kind_if test kind }
{
    if test { Some(kind) } else { None }
}

/// The kinds of a token with this text, whatever the sync is.
#[inline(always)]
fn own_kinds(
    size: Size,
    pen: &Pen,
    kind: &Kind,
    text: &[u8],
) -> (Option<Difference>, Option<Difference>)
    requires { StandsOn size pen.now }
    ensures { (s : State) → pen.now ≡ pen_of s
        → kinds_in result.0 ++ kinds_in result.1
        ≡ own_kinds size s (record { token = shown_kind kind.now; text = text.now }) }
{
    let is_grey = pen.attribute == 0x07;
    let in_colour = kind_if(!is_grey, Difference::ClearInColour);
    match kind {
        Kind::Glyph(byte) => (
            kind_if(is_page_control(*byte), Difference::PageControls),
            kind_if(is_terminal_control(*byte), Difference::TerminalControls),
        ),
        Kind::Bell | Kind::BackSpace => (Some(Difference::PageControls), None),
        Kind::Tab => (Some(Difference::TabPrints), None),
        Kind::Forward(n) => {
            let stops = pen.cursor.column + *n as usize >= size.width();
            (kind_if(stops, Difference::StopsAtEdge), None)
        }
        Kind::Down(n) => {
            let stops = pen.cursor.row + *n as usize > size.lines();
            (kind_if(stops, Difference::StopsAtEdge), None)
        }
        Kind::Clear => (in_colour, None),
        Kind::EraseLine => (Some(Difference::LineErased), in_colour),
        Kind::Restore => (Some(Difference::SavePlaceOnly), None),
        Kind::Colours(numbers) => {
            let is_same = is_grey && are_zero(numbers);
            (
                kind_if(!are_common_colours(numbers), Difference::DosColours),
                kind_if(!is_same && omits_number(text), Difference::DosColours),
            )
        }
        Kind::Wrap(on) => (kind_if(!*on, Difference::WrapOff), None),
        _ => (None, None),
    }
}

/// Whether it is this kind.
#[inline(always)]
fn is_kind(some: Option<Difference>, kind: Difference) -> bool
    ensures { result ≡ list_any (is_kind kind) (kinds_in some) }
{
    match some {
        Some(other) => kind.number() == other.number(),
        None => false,
    }
}

/// The kind, unless it is the other one.
#[inline(always)]
pub(crate) fn unless(some: Option<Difference>, other: Option<Difference>) -> Option<Difference>
    ensures { (kind : Difference) → list_any (is_kind kind) (kinds_in result)
        ≡ (not (list_any (is_kind kind) (kinds_in other)) && list_any (is_kind kind) (kinds_in some)) }
{
    match some {
        Some(kind) if is_kind(other, kind) => None,
        _ => some,
    }
}

impl Situations {
    /// The kinds that arise at a token with this text, before it is played.
    #[inline(always)]
    pub fn of(
        size: Size,
        pen: &Pen,
        sync: Sync,
        names: Names,
        kind: &Kind,
        text: &[u8],
    ) -> Situations
        requires { StandsOn size pen.now }
        ensures { (s : State) → pen.now ≡ pen_of s
            → kinds_of result ≡ situations size
            (record { sync = shown_sync sync; names = shown_names names; state = s })
            (record { token = shown_kind kind.now; text = text.now }) }
    {
        let (own, other) = own_kinds(size, pen, kind, text);
        let unsure = if sync.is_same_for_all(kind) {
            None
        } else {
            sync.unsure_kind()
        };
        Situations {
            unsure,
            own,
            other,
            unnamed: paints(kind) && !names.are_both(),
        }
    }

    /// Whether no kind arises but own colours.
    #[inline(always)]
    pub(crate) fn are_own_colours_at_most(&self) -> bool
        ensures { IsTrue result ↔ (kinds_of self.now ≡ kind_if self.now.unnamed OwnColours) }
    {
        self.unsure.is_none() && self.own.is_none() && self.other.is_none()
    }
}
