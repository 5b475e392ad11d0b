//! Laws of the machine: what each line of the table of steps changes and what it leaves.

ghost use Rattle.std.specs.Prelude.{ℕ};
ghost use Rattle.ans_model.specs.Sequence.TokenKind.{Clear, EraseLine};
ghost use Rattle.ans_model.specs.Screen.State.{Size, State, IsWellFormed};
ghost use Rattle.ans_model.specs.Screen.Step.{step};
ghost use Rattle.ans_laws.specs.MoveLaws.{MovesChangeCursor, MovesGoWhereTheySay};
ghost use Rattle.ans_laws.specs.StepLaws.{CleanNeverScrolls, ColoursChangeAttribute, GlyphPrints};
ghost use Rattle.ans_laws.specs.StepLaws.{GlyphScrolls, GoodNeverScrolls, IdleChangesNothing, IsCleared, IsLineErased};
ghost use Rattle.ans_laws.specs.StepLaws.{LineFeedMovesDown, LineFeedScrolls, PrintsBlanks};
ghost use Rattle.ans_laws.specs.StepLaws.{SavesCursor, StepsAreWellFormed, WrapChangesWrap};

/// Moves change only the cursor.
pub fn moves_change_the_cursor()
    ensures { MovesChangeCursor }
{}

/// Where each move takes the cursor, inside the screen and at its edges.
pub fn moves_go_where_they_say()
    ensures { (z : Size) (s : State) → MovesGoWhereTheySay z s }
{}

/// Save, Colours and Wrap change one part each, and the idle tokens none.
pub fn settings_change_one_part()
    ensures saved { SavesCursor }
    ensures attribute { ColoursChangeAttribute }
    ensures wrap { WrapChangesWrap }
    ensures idle { IdleChangesNothing }
{}

/// Clear blanks each cell; EraseLine those of the cursor's row from the cursor on.
pub fn erasures_blank_cells()
    ensures clear { (z : Size) (s : State) → IsCleared z s (step z s Clear) }
    ensures line { (z : Size) (s : State) → IsWellFormed z s → IsLineErased z s (step z s EraseLine) }
{}

/// A Glyph changes the cursor's cell, and the cursor goes on. Where it wraps in the spare row, the
/// screen scrolls.
pub fn glyphs_print()
    ensures printed { GlyphPrints }
    ensures scrolls { GlyphScrolls }
{}

/// A Tab is the play of its blanks, one to eight, up to a column that 8 divides.
pub fn tabs_print_blanks()
    ensures { (z : Size) (s : State) → (count : ℕ) × PrintsBlanks z s count }
{}

/// A LineFeed goes down a row, and in the spare row it scrolls the screen.
pub fn line_feeds_go_down()
    ensures down { LineFeedMovesDown }
    ensures scrolls { LineFeedScrolls }
{}

/// After a step the state is still one of the machine.
pub fn steps_are_well_formed()
    ensures { StepsAreWellFormed }
{}

/// Clean tokens scroll from no start: no line feed, no print that wraps, and no tab.
pub fn clean_tokens_never_scroll()
    ensures { CleanNeverScrolls }
{}

/// The tokens of good content scroll from no start.
pub fn good_content_never_scrolls()
    ensures { GoodNeverScrolls }
{}
