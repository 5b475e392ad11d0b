//! The parts of a start, each by itself.

ghost use Rattle.std.specs.Prelude.{◌≡◌};
ghost use Rattle.ans_verdict.specs.StartParts.{knows, with_part};

use ans_model::start::Start;

/// A part of the start that may be known.
#[derive(Clone, Copy)]
pub(crate) enum Part {
    Screen,
    Cursor,
    Saved,
    Colours,
    Wrap,
}

impl Part {
    pub(crate) fn is_known_in(self, class: Start) -> bool
        ensures { result ≡ knows class self }
    {
        match self {
            Part::Screen => class.screen,
            Part::Cursor => class.cursor,
            Part::Saved => class.saved,
            Part::Colours => class.colours,
            Part::Wrap => class.wrap,
        }
    }

    /// The class with this part known or not.
    pub(crate) fn made_known(self, known: bool, class: Start) -> Start
        ensures { result ≡ with_part self known class }
    {
        let mut made = class;
        match self {
            Part::Screen => made.screen = known,
            Part::Cursor => made.cursor = known,
            Part::Saved => made.saved = known,
            Part::Colours => made.colours = known,
            Part::Wrap => made.wrap = known,
        }
        made
    }
}
