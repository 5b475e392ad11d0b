//! Which of the current colours a drawing has named, token by token.

ghost use Rattle.std.specs.Prelude.{◌≡◌, fold};
ghost use Rattle.ans_model.specs.Inside.ShownKind.{shown_kind};
ghost use Rattle.ans_players.specs.Names.{are_both, names_after, names_behind, paints};
ghost use Rattle.ans_kinds.specs.NamesShown.{shown_names};

use ans_model::kind::Kind;

/// Whether a drawing has named the foreground (30 to 37), and whether the background (40 to 47). One that
/// is not named is a player's own.
#[derive(Debug, Clone, Copy, PartialEq, Eq)]
pub struct Names {
    pub foreground: bool,
    pub background: bool,
}

/// Whether a token shows the current colours: a printed byte, blanks too, a tab, `ESC[2J` and `ESC[K`.
pub fn paints(kind: &Kind) -> bool
    ensures { result ≡ paints (shown_kind kind.now) }
{
    matches!(
        kind,
        Kind::Glyph(_) | Kind::Tab | Kind::Clear | Kind::EraseLine
    )
}

impl Names {
    /// Neither is named, as at a start.
    pub const NONE: Names = Names {
        foreground: false,
        background: false,
    };

    /// Whether both are named.
    #[inline(always)]
    pub fn are_both(self) -> bool
        ensures { result ≡ are_both (shown_names self) }
    {
        self.foreground && self.background
    }

    /// The names after a number of a colour sequence.
    fn after_number(self, number: u8) -> Names
        ensures { shown_names result ≡ names_behind (shown_names self) number }
    {
        match number {
            0 => Names::NONE,
            30..=37 => Names {
                foreground: true,
                ..self
            },
            40..=47 => Names {
                background: true,
                ..self
            },
            _ => self,
        }
    }

    /// The names after the numbers of a colour sequence.
    fn after_numbers(self, numbers: &[u8]) -> Names
        ensures { shown_names result ≡ fold names_behind (shown_names self) numbers.now }
    {
        let mut names = self;
        for number in numbers {
            names = names.after_number(*number);
        }
        names
    }

    /// The names after a token. The numbers of a colour sequence count in order: 30 to 37 name the
    /// foreground, 40 to 47 the background, 0 and an omitted number take both names away.
    pub fn after(self, kind: &Kind) -> Names
        ensures { shown_names result ≡ names_after (shown_names self) (shown_kind kind.now) }
    {
        match kind {
            Kind::Colours(numbers) => self.after_numbers(numbers),
            _ => self,
        }
    }
}
