//! Examples of where kinds arise, one a clause, worked out apart from the definitions: from the cleared start,
//! and on a screen of four columns and three lines, except in `kinds_alone`. All except those of own colours
//! begin with `ESC[37;40m`.

ghost use Rattle.std.specs.Prelude.{[], ◌∷◌, ◌++◌, codes, true, false};
ghost use Rattle.ans_model.specs.Screen.State.{sized};
ghost use Rattle.ans_model.specs.Sequence.TokenKind.{Up, Down, Forward, Backward, Place, Clear, EraseLine, Save};
ghost use Rattle.ans_model.specs.Sequence.TokenKind.{Restore, Colours, Wrap};
ghost use Rattle.ans_players.specs.declared.difference.Difference.TheVariants.{WrapAtOnce, LineEnds, HomeOnClear};
ghost use Rattle.ans_players.specs.declared.difference.Difference.TheVariants.{ClearInColour};
ghost use Rattle.ans_players.specs.declared.difference.Difference.TheVariants.{SavePlaceOnly, DosColours, TabPrints};
ghost use Rattle.ans_players.specs.declared.difference.Difference.TheVariants.{LineErased};
ghost use Rattle.ans_players.specs.declared.difference.Difference.TheVariants.{WrapOff, StopsAtEdge, PageControls};
ghost use Rattle.ans_players.specs.declared.difference.Difference.TheVariants.{TerminalControls, OwnColours};
ghost use Rattle.ans_players_laws.specs.Examples.{Arise, AriseAtOnce, AriseAtOnceOn, AriseOn, bytes};
ghost use Rattle.ans_players.specs.Mends.{sequence, mending_spelled};

/// What each kind is shown by in `docs/PLAYERS.md`, on screens of these columns and lines: the kind arises in it
/// once, and no other does.
pub fn kinds_alone()
    ensures wrap_at_once { AriseOn (sized 1 3) (bytes (codes "A\r\nB")) (WrapAtOnce ∷ []) }
    ensures line_ends { AriseOn (sized 2 2) (bytes (codes "A\nB")) (LineEnds ∷ []) }
    ensures home_on_clear { AriseOn (sized 2 1)
        (bytes (codes "A") ++ sequence Clear (codes "[2J") ∷ bytes (codes "B")) (HomeOnClear ∷ []) }
    ensures clear_in_colour { AriseOn (sized 1 1)
        (sequence (Colours (41 ∷ [])) (codes "[41m") ∷ sequence Clear (codes "[2J") ∷ []) (ClearInColour ∷ []) }
    ensures save { AriseOn (sized 2 1)
        (bytes (codes "A") ++ sequence Save (codes "[s") ∷ bytes (codes "B")) (SavePlaceOnly ∷ []) }
    ensures restore { AriseOn (sized 2 1)
        (bytes (codes "A") ++ sequence Restore (codes "[u") ∷ bytes (codes "B")) (SavePlaceOnly ∷ []) }
    ensures number { AriseOn (sized 1 1)
        (sequence (Colours (4 ∷ [])) (codes "[4m") ∷ bytes (codes "A")) (DosColours ∷ []) }
    ensures omitted { AriseOn (sized 1 1)
        (sequence (Colours (1 ∷ [])) (codes "[1m") ∷ sequence (Colours (0 ∷ [])) (codes "[m")
        ∷ sequence (Colours (37 ∷ 40 ∷ [])) (codes "[37;40m") ∷ bytes (codes "A")) (DosColours ∷ []) }
    ensures tab_prints { AriseOn (sized 8 1)
        (sequence (Colours (41 ∷ [])) (codes "[41m") ∷ sequence (Forward 7) (codes "[7C") ∷ bytes (codes "\t"))
        (TabPrints ∷ []) }
    ensures line_erased { AriseOn (sized 1 1)
        (bytes (codes "A") ++ sequence (Place 1 1) (codes "[H") ∷ sequence EraseLine (codes "[K") ∷ [])
        (LineErased ∷ []) }
    ensures wrap_off { AriseOn (sized 1 2) (sequence (Wrap false) (codes "[?7l") ∷ bytes (codes "AB")) (WrapOff ∷ []) }
    ensures right { AriseOn (sized 1 2) (sequence (Forward 1) (codes "[C") ∷ bytes (codes "A")) (StopsAtEdge ∷ []) }
    ensures down { AriseOn (sized 1 1)
        (sequence (Down 2) (codes "[2B") ∷ sequence (Up 1) (codes "[A") ∷ bytes (codes "A")) (StopsAtEdge ∷ []) }
    ensures bell { AriseOn (sized 1 1) (bytes (0x07 ∷ [])) (PageControls ∷ []) }
    ensures zero { AriseOn (sized 1 1) (bytes (0x00 ∷ [])) (PageControls ∷ []) }
    ensures terminal_controls { AriseOn (sized 1 1) (bytes (0x01 ∷ [])) (TerminalControls ∷ []) }
    ensures own_colours { AriseAtOnceOn (sized 1 1) (bytes (codes "A")) (OwnColours ∷ []) }
{}

/// CR LF, LF CR and CR CR LF are the same on all players. A lone line feed is not, nor is a lone return.
pub fn line_ends_alone()
    ensures return_and_feed { Arise (bytes (codes "A\r\nB")) [] }
    ensures feed_and_return { Arise (bytes (codes "A\n\rB")) [] }
    ensures two_returns_and_feed { Arise (bytes (codes "A\r\r\nB")) [] }
    ensures in_the_first_column { Arise (bytes (codes "\n\rB")) [] }
    ensures feed { Arise (bytes (codes "A\nB")) (LineEnds ∷ []) }
    ensures two_feeds { Arise (bytes (codes "A\n\nB")) (LineEnds ∷ LineEnds ∷ []) }
    ensures return_and_up { Arise (bytes (codes "A\r") ++ sequence (Up 1) (codes "[A") ∷ []) (LineEnds ∷ []) }
    ensures feed_and_place { Arise (bytes (codes "A\n") ++ sequence (Place 1 1) (codes "[H") ∷ bytes (codes "B")) [] }
{}

/// After a full row a byte, a place, colours and a bell are the same on all players, and nothing else is.
pub fn full_rows()
    ensures byte { Arise (bytes (codes "ABCDE")) [] }
    ensures place { Arise (bytes (codes "ABCD") ++ sequence (Place 3 1) (codes "[3H") ∷ bytes (codes "E")) [] }
    ensures colours { Arise
        (bytes (codes "ABCD") ++ sequence (Colours (31 ∷ [])) (codes "[31m") ∷ bytes (codes "E")) [] }
    ensures bell { Arise (bytes (codes "ABCD" ++ 0x07 ∷ codes "E")) (PageControls ∷ []) }
    ensures line_end { Arise (bytes (codes "ABCD\r\nE")) (WrapAtOnce ∷ []) }
    ensures behind_colours { Arise (bytes (codes "ABCD") ++ sequence (Colours (31 ∷ [])) (codes "[31m")
        ∷ bytes (codes "\r\nE")) (WrapAtOnce ∷ []) }
    ensures left { Arise (bytes (codes "ABCD") ++ sequence (Backward 1) (codes "[D") ∷ []) (WrapAtOnce ∷ []) }
    ensures wrap { Arise (bytes (codes "ABCD") ++ sequence (Wrap true) (codes "[?7h") ∷ []) (WrapAtOnce ∷ []) }
    ensures save { Arise (bytes (codes "ABCD") ++ sequence Save (codes "[s") ∷ bytes (codes "E"))
        (WrapAtOnce ∷ SavePlaceOnly ∷ []) }
    ensures off { Arise (sequence (Wrap false) (codes "[?7l") ∷ bytes (codes "ABCD\r\nE")) (WrapOff ∷ []) }
{}

/// A clear away from home leaves the cursor anywhere until a place names it, and one in colour leaves other
/// colours.
pub fn clears()
    ensures home { Arise (sequence Clear (codes "[2J") ∷ bytes (codes "A")) [] }
    ensures away { Arise (bytes (codes "A") ++ sequence Clear (codes "[2J") ∷ bytes (codes "B")) (HomeOnClear ∷ []) }
    ensures placed { Arise (bytes (codes "A") ++ sequence Clear (codes "[2J") ∷ sequence (Place 1 1) (codes "[H")
        ∷ bytes (codes "B")) [] }
    ensures colour { Arise (sequence (Colours (41 ∷ [])) (codes "[41m") ∷ sequence Clear (codes "[2J") ∷ [])
        (ClearInColour ∷ []) }
    ensures line { Arise (sequence EraseLine (codes "[K") ∷ []) (LineErased ∷ []) }
    ensures line_in_colour { Arise (sequence (Colours (41 ∷ [])) (codes "[41m") ∷ sequence EraseLine (codes "[K") ∷ [])
        (LineErased ∷ ClearInColour ∷ []) }
    ensures mended { Arise (mending_spelled ++ bytes (codes "AB\r\nC")) [] }
{}

/// A save leaves the cursor anywhere too, unless it is home. Each restore is of its kind.
pub fn saves()
    ensures home { Arise (sequence Save (codes "[s") ∷ bytes (codes "A")) [] }
    ensures away { Arise (bytes (codes "A") ++ sequence Save (codes "[s") ∷ bytes (codes "B")) (SavePlaceOnly ∷ []) }
    ensures placed { Arise (bytes (codes "A") ++ sequence Save (codes "[s") ∷ sequence (Place 1 1) (codes "[H")
        ∷ bytes (codes "B")) [] }
    ensures restore { Arise (sequence Save (codes "[s") ∷ sequence Restore (codes "[u") ∷ bytes (codes "A"))
        (SavePlaceOnly ∷ []) }
{}

/// Colours are the same on all players where each number is 0, 1, 5, 30 to 37 or 40 to 47, and none is
/// omitted but on white on black.
pub fn colours()
    ensures common { Arise
        (sequence (Colours (0 ∷ 1 ∷ 5 ∷ 30 ∷ 37 ∷ 40 ∷ 47 ∷ [])) (codes "[0;1;5;30;37;40;47m") ∷ []) [] }
    ensures inverse { Arise (sequence (Colours (7 ∷ [])) (codes "[7m") ∷ []) (DosColours ∷ []) }
    ensures bright { Arise (sequence (Colours (90 ∷ [])) (codes "[90m") ∷ []) (DosColours ∷ []) }
    ensures omitted { Arise
        (sequence (Colours (31 ∷ [])) (codes "[31m") ∷ sequence (Colours (0 ∷ [])) (codes "[m") ∷ [])
        (DosColours ∷ []) }
    ensures one_omitted { Arise (sequence (Colours (1 ∷ 0 ∷ [])) (codes "[1;m") ∷ []) (DosColours ∷ []) }
    ensures on_white_on_black { Arise (sequence (Colours (0 ∷ [])) (codes "[m") ∷ []) [] }
{}

/// A move right or down is the same on all players where it ends on the screen, and a tab is not.
pub fn moves()
    ensures right { Arise (sequence (Forward 3) (codes "[3C") ∷ []) [] }
    ensures too_far_right { Arise (sequence (Forward 4) (codes "[4C") ∷ []) (StopsAtEdge ∷ []) }
    ensures down { Arise (sequence (Down 3) (codes "[3B") ∷ []) [] }
    ensures too_far_down { Arise (sequence (Down 4) (codes "[4B") ∷ []) (StopsAtEdge ∷ []) }
    ensures left_and_up { Arise (sequence (Backward 9) (codes "[9D") ∷ sequence (Up 9) (codes "[9A") ∷ []) [] }
    ensures tab { Arise (bytes (codes "\t")) (TabPrints ∷ []) }
{}

/// Control bytes are of two kinds, and bytes from 80h on of none.
pub fn control_bytes()
    ensures page { Arise (bytes (0x00 ∷ 0x0B ∷ 0x0C ∷ [])) (PageControls ∷ PageControls ∷ PageControls ∷ []) }
    ensures heeded { Arise (bytes (0x07 ∷ 0x08 ∷ [])) (PageControls ∷ PageControls ∷ []) }
    ensures first { Arise (bytes (0x01 ∷ 0x06 ∷ [])) (TerminalControls ∷ TerminalControls ∷ []) }
    ensures second { Arise (bytes (0x0E ∷ 0x19 ∷ [])) (TerminalControls ∷ TerminalControls ∷ []) }
    ensures third { Arise (bytes (0x1C ∷ 0x1F ∷ [])) (TerminalControls ∷ TerminalControls ∷ []) }
    ensures last { Arise (bytes (0x7F ∷ [])) (TerminalControls ∷ []) }
    ensures others { Arise (bytes (0x20 ∷ 0x7E ∷ 0x80 ∷ 0xFF ∷ [])) [] }
{}

/// What is printed or blanked is in a player's own colours until both are named, and again after a 0. Moves
/// and a last `ESC[0m` are of no kind.
pub fn own_colours()
    ensures at_once { AriseAtOnce (bytes (codes "A ")) (OwnColours ∷ OwnColours ∷ []) }
    ensures tab { AriseAtOnce (bytes (codes "\t")) (TabPrints ∷ OwnColours ∷ []) }
    ensures clear { AriseAtOnce (sequence Clear (codes "[2J") ∷ []) (OwnColours ∷ []) }
    ensures line { AriseAtOnce (sequence EraseLine (codes "[K") ∷ []) (LineErased ∷ OwnColours ∷ []) }
    ensures foreground { AriseAtOnce
        (sequence (Colours (37 ∷ [])) (codes "[37m") ∷ bytes (codes "A")) (OwnColours ∷ []) }
    ensures background { AriseAtOnce
        (sequence (Colours (40 ∷ [])) (codes "[40m") ∷ bytes (codes "A")) (OwnColours ∷ []) }
    ensures both { AriseAtOnce (sequence (Colours (31 ∷ 44 ∷ [])) (codes "[31;44m") ∷ bytes (codes "A")) [] }
    ensures first_and_last { AriseAtOnce
        (sequence (Colours (30 ∷ 47 ∷ [])) (codes "[30;47m") ∷ bytes (codes "A")) [] }
    ensures last_and_first { AriseAtOnce
        (sequence (Colours (37 ∷ 40 ∷ [])) (codes "[37;40m") ∷ bytes (codes "A")) [] }
    ensures beside { AriseAtOnce
        (sequence (Colours (29 ∷ 38 ∷ 39 ∷ 48 ∷ 49 ∷ 90 ∷ 100 ∷ [])) (codes "[29;38;39;48;49;90;100m")
        ∷ bytes (codes "A")) (DosColours ∷ OwnColours ∷ []) }
    ensures moves { AriseAtOnce
        (sequence (Forward 1) (codes "[C") ∷ sequence (Place 1 1) (codes "[H") ∷ bytes (codes "\r\n")) [] }
    ensures zero { Arise (sequence (Colours (0 ∷ [])) (codes "[0m") ∷ bytes (codes "A")) (OwnColours ∷ []) }
    ensures zero_first { AriseAtOnce
        (sequence (Colours (0 ∷ 37 ∷ 40 ∷ [])) (codes "[0;37;40m") ∷ bytes (codes "A")) [] }
    ensures zero_last { AriseAtOnce
        (sequence (Colours (37 ∷ 40 ∷ 0 ∷ [])) (codes "[37;40;0m") ∷ bytes (codes "A")) (OwnColours ∷ []) }
    ensures omitted { Arise (sequence (Colours (0 ∷ [])) (codes "[m") ∷ bytes (codes "A")) (OwnColours ∷ []) }
    ensures bright { Arise (sequence (Colours (1 ∷ [])) (codes "[1m") ∷ bytes (codes "A")) [] }
    ensures inverse { Arise (sequence (Colours (7 ∷ [])) (codes "[7m") ∷ bytes (codes "A")) (DosColours ∷ []) }
    ensures last_zero { Arise (bytes (codes "A") ++ sequence (Colours (0 ∷ [])) (codes "[0m") ∷ []) [] }
{}
