//! The kinds in which players differ.

ghost use Rattle.std.specs.Prelude.{◌≡◌, Some, slice_get};
ghost use Rattle.ans_players.specs.declared.difference.Difference.{Difference};
ghost use Rattle.ans_players.specs.declared.difference.TheConstants.Difference as kind_constants;
ghost use Rattle.ans_players.specs.Kinds.{all_kinds, kind_number, kind_word};

/// A kind of behaviour in which players differ: what the profile does, and what some players do instead.
#[derive(Debug, Clone, Copy, PartialEq, Eq)]
pub enum Difference {
    /// A byte printed in the last column takes the cursor to the next row at once. Terminals wait there
    /// for the next byte.
    WrapAtOnce,
    /// A line feed goes straight down, and a return goes back in its row. For some players a line feed
    /// returns too, and for one of them a return does nothing.
    LineEnds,
    /// A clear takes the cursor home. In terminals it stays where it is.
    HomeOnClear,
    /// What is cleared or erased has the current attribute. Some players clear white on black.
    ClearInColour,
    /// `ESC[s` keeps the cursor's place, `ESC[u` goes back to it, and neither does anything else. Many
    /// terminals keep the colours too, some know neither, and one goes home at `ESC[s`.
    SavePlaceOnly,
    /// Numbers of colours other than 0, 1, 5, 30 to 37 and 40 to 47 do what ANSI.SYS does, and an omitted
    /// one is 0. Players give them other meanings or none, and one does nothing at an omitted number.
    DosColours,
    /// A tab prints blanks. Terminals move to the next stop and print nothing.
    TabPrints,
    /// `ESC[K` blanks the rest of the row. One player does nothing.
    LineErased,
    /// `ESC[?7l` turns wrap off. Some players go on wrapping.
    WrapOff,
    /// A move right stops in the last column, and a move down in the spare row. One player goes on past
    /// the last column, and most screens have more rows than a drawing states.
    StopsAtEdge,
    /// 00h, 0Bh and 0Ch are drawn, 07h does nothing and 08h goes back. Some players of code page 437 do
    /// otherwise, as terminals do.
    PageControls,
    /// 01h to 06h, 0Eh to 19h, 1Ch to 1Fh and 7Fh are drawn. Only terminals do not draw them.
    TerminalControls,
    /// 0 and an omitted number set white on black, as 37 and 40 do, and so it is at a start. Terminals have
    /// a white and a black of their own there.
    OwnColours,
}

impl Difference {
    /// The kinds in their order, each once (`kinds_are_listed`).
    pub const ALL: [Difference; 13] = [
        Difference::WrapAtOnce,
        Difference::LineEnds,
        Difference::HomeOnClear,
        Difference::ClearInColour,
        Difference::SavePlaceOnly,
        Difference::DosColours,
        Difference::TabPrints,
        Difference::LineErased,
        Difference::WrapOff,
        Difference::StopsAtEdge,
        Difference::PageControls,
        Difference::TerminalControls,
        Difference::OwnColours,
    ];

    /// The position of a kind in `Difference::ALL`, counted from 0.
    pub fn number(self) -> usize
        ensures { result ≡ kind_number self }
    {
        match self {
            Difference::WrapAtOnce => 0,
            Difference::LineEnds => 1,
            Difference::HomeOnClear => 2,
            Difference::ClearInColour => 3,
            Difference::SavePlaceOnly => 4,
            Difference::DosColours => 5,
            Difference::TabPrints => 6,
            Difference::LineErased => 7,
            Difference::WrapOff => 8,
            Difference::StopsAtEdge => 9,
            Difference::PageControls => 10,
            Difference::TerminalControls => 11,
            Difference::OwnColours => 12,
        }
    }

    /// The word that names a kind.
    pub fn word(self) -> &'static str
        ensures { result.now ≡ kind_word self }
    {
        match self {
            Difference::WrapAtOnce => "wrap-at-once",
            Difference::LineEnds => "line-ends",
            Difference::HomeOnClear => "home-on-clear",
            Difference::ClearInColour => "clear-in-colour",
            Difference::SavePlaceOnly => "save-place-only",
            Difference::DosColours => "dos-colours",
            Difference::TabPrints => "tab-prints",
            Difference::LineErased => "line-erased",
            Difference::WrapOff => "wrap-off",
            Difference::StopsAtEdge => "stops-at-edge",
            Difference::PageControls => "page-controls",
            Difference::TerminalControls => "terminal-controls",
            Difference::OwnColours => "own-colours",
        }
    }
}

/// `Difference::ALL` has the kinds of the definitions in their order, and each kind is at its number there.
pub fn kinds_are_listed()
    ensures list { kind_constants.ALL ≡ all_kinds }
    ensures each { (kind : Difference) → slice_get kind_constants.ALL (kind_number kind) ≡ Some kind }
{}
