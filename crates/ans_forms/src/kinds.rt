//! What may be taken out of a drawing, and what is taken out.

ghost use Rattle.std.specs.Prelude.{◌≡◌, ◌&&◌, ℕ, nat_le, if◌then◌else◌};
ghost use Rattle.ans_model.specs.Sequence.TokenKind.{Glyph};
ghost use Rattle.ans_model.specs.Inside.ShownKind.{shown_kind};
ghost use Rattle.ans_forms.specs.Unwanted.{before_behind, before_with, is_colours, is_true_colour, may_go, shows};
ghost use Rattle.ans_forms.specs.Unwanted.{attribute_with, prints, stays};

use ans_model::attribute::attribute_after_all;
use ans_model::kind::Kind;

/// A kind of sequence that is taken out.
#[derive(Debug, Clone, Copy, PartialEq, Eq)]
pub enum Unwanted {
    /// `ESC[?33h` and `ESC[?33l`.
    BrightBackgrounds,
    /// A switch for the cursor or for what blinks: `ESC[?12h`, `ESC[?25h`, `ESC[?35h`, and the same with `l`.
    Switch,
    /// Any other mode, before anything shows: `ESC[`, a mark or none, parameters, and `h` or `l`.
    Mode,
    /// `ESC[n;n D`, a blank before the letter.
    FontSelection,
    /// Notes of a melody: `ESC[M`, `ESC[N` or `ESC[|`, up to the byte 0Eh.
    Music,
    /// `ESC[0;r;g;bt` or `ESC[1;r;g;bt`, directly after a colour.
    TrueColour,
    /// What the terminal is asked: `ESC[5n`, `ESC[6n`, `ESC[c` and `ESC[0c`.
    Report,
    /// A sequence that ends in `p`.
    ReassignedKey,
    /// A sequence in which the bytes end, with no quote in it.
    Unfinished,
}

impl Unwanted {
    /// Each kind once, in their order.
    pub const EACH: [Unwanted; 9] = [
        Unwanted::BrightBackgrounds,
        Unwanted::Switch,
        Unwanted::Mode,
        Unwanted::FontSelection,
        Unwanted::Music,
        Unwanted::TrueColour,
        Unwanted::Report,
        Unwanted::ReassignedKey,
        Unwanted::Unfinished,
    ];

    fn is_true_colour(self) -> bool
        ensures { result ≡ is_true_colour self }
    {
        matches!(self, Unwanted::TrueColour)
    }
}

/// What comes before, as far as it matters.
#[derive(Debug, Clone, Copy, PartialEq, Eq)]
pub struct Before {
    /// Whether a token has printed, cleared or erased.
    pub is_shown: bool,
    /// Whether a colour comes directly before: `ESC[..m`, or a colour of 24 bits that was taken out.
    pub is_coloured: bool,
    /// The attribute, in the play from the cleared start.
    pub attribute: u8,
    /// What the last switch for bright backgrounds says that was taken out. The caller sets it.
    pub switch: Option<bool>,
    /// What the switch said at the last printed cell that has bit 7 in its attribute.
    pub bright: Option<bool>,
}

impl Before {
    /// Before the first byte of a drawing.
    pub const NOTHING: Before = Before {
        is_shown: false,
        is_coloured: false,
        attribute: 0x07,
        switch: None,
        bright: None,
    };

    /// What the switch said at the last printed cell that has bit 7, if a cell is printed or not.
    fn bright_with(self, prints: bool) -> Option<bool>
        ensures { result ≡ (if prints && nat_le 0x80 self.attribute then self.switch else self.bright) }
    {
        if prints && self.attribute >= 0x80 {
            self.switch
        } else {
            self.bright
        }
    }

    /// With a token more, which is kept.
    pub(crate) fn with(self, kind: &Kind) -> Before
        ensures { result ≡ before_with self (shown_kind kind.now) }
    {
        Before {
            is_shown: shows(kind) || self.is_shown,
            is_coloured: is_colours(kind),
            attribute: attribute_with(self.attribute, kind),
            switch: self.switch,
            bright: self.bright_with(prints(kind)),
        }
    }

    /// With one or more glyphs more.
    pub(crate) fn with_glyphs(self) -> Before
        ensures { (byte : ℕ) → result ≡ before_with self (Glyph byte) }
    {
        Before {
            is_shown: true,
            is_coloured: false,
            attribute: self.attribute,
            switch: self.switch,
            bright: self.bright_with(true),
        }
    }

    /// With a sequence more, which is taken out.
    pub(crate) fn behind(self, kind: Unwanted) -> Before
        ensures { result ≡ before_behind self kind }
    {
        Before {
            is_coloured: kind.is_true_colour(),
            ..self
        }
    }

    /// Whether a sequence of this kind may be taken out here.
    pub(crate) fn may_go(self, kind: Unwanted) -> bool
        ensures { result ≡ may_go self kind }
    {
        match kind {
            Unwanted::Mode => !self.is_shown,
            Unwanted::TrueColour => self.is_coloured,
            _ => true,
        }
    }
}

/// A sequence that goes.
#[derive(Debug, Clone, Copy, PartialEq, Eq)]
pub struct Going {
    pub kind: Unwanted,
    /// The offset of its first byte.
    pub place: usize,
    /// How many bytes it has.
    pub length: usize,
}

/// Whether a token prints, clears or erases.
fn shows(kind: &Kind) -> bool
    ensures { result ≡ shows (shown_kind kind.now) }
{
    matches!(
        kind,
        Kind::Glyph(_) | Kind::Tab | Kind::Clear | Kind::EraseLine
    )
}

/// Whether a token prints cells.
fn prints(kind: &Kind) -> bool
    ensures { result ≡ prints (shown_kind kind.now) }
{
    matches!(kind, Kind::Glyph(_) | Kind::Tab)
}

/// The attribute after a token.
fn attribute_with(attribute: u8, kind: &Kind) -> u8
    ensures { result ≡ attribute_with attribute (shown_kind kind.now) }
{
    match kind {
        Kind::Colours(parameters) => attribute_after_all(attribute, parameters),
        _ => attribute,
    }
}

fn is_colours(kind: &Kind) -> bool
    ensures { result ≡ is_colours (shown_kind kind.now) }
{
    matches!(kind, Kind::Colours(_))
}

/// Whether a token is played: no screen mode, no reassigned key, and no report that is asked for.
pub(crate) fn stays(kind: &Kind) -> bool
    ensures { result ≡ stays (shown_kind kind.now) }
{
    !matches!(kind, Kind::Mode | Kind::Keys | Kind::Ask)
}
