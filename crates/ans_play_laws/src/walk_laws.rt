//! Laws of what a drawing relies on, and of what is counted.

ghost use Rattle.ans_pens.specs.Lines.{OneLineMoreIsGood};
ghost use Rattle.ans_kinds.specs.Mend.{MakesGood};
ghost use Rattle.ans_play_laws.specs.RowEndLaws.{CountsBeforeLastPrint, LineFeedEndsFullRow};
ghost use Rattle.ans_play_laws.specs.RowLaws.{EmptyRowsHoldNothing, NoMoreRowsAreEmpty};
ghost use Rattle.ans_kinds.specs.SaidOfPlayers.{MendedIsSameWhereCleared};
ghost use Rattle.ans_play_laws.specs.TallerLaws.{TallerShowsTheSame};

/// Content that is good from the cleared start is good after the bytes of
/// [`SAFE_BEGINNING`](ans_model::beginning::SAFE_BEGINNING) from every start, with the same picture.
pub fn mended_content_is_good()
    ensures { MakesGood }
{}

/// After these 25 bytes, whichever kinds are agreed: where on all players that agree so content is the same
/// from the cleared start, it is so from every start.
pub fn mended_content_is_same_where_cleared()
    ensures { MendedIsSameWhereCleared }
{}

/// From the cleared start, content that is good with some lines stated is good with one line more,
/// though it may show another picture. So the numbers of lines with which it passes are all from the
/// least one on.
pub fn more_lines_never_hurt()
    ensures { OneLineMoreIsGood }
{}

/// A verdict speaks of a screen that has the stated lines and one more. Where no move down is stopped
/// by the bottom edge, and each move up comes with the cursor in one row from every start of the class,
/// good content does on every taller screen of its width as on that one: nothing scrolls, and the first
/// lines show the picture.
pub fn taller_screens_show_the_same()
    ensures { TallerShowsTheSame }
{}

/// The rows that are counted as empty are those at the end of the stated lines in which no glyph and no
/// blank of a tab is printed, in the play from the cleared start.
pub fn rows_at_the_end_are_empty()
    ensures nothing { EmptyRowsHoldNothing }
    ensures no_more { NoMoreRowsAreEmpty }
{}

/// A line feed ends a full row exactly if the tokens before it end in a glyph that wraps, or in such a glyph and then a
/// return. A bell, a save, colours, wrap and an erased line may come after each of the two, and nothing else.
pub fn full_rows_end_in_a_line_end()
    ensures { LineFeedEndsFullRow }
{}

/// Whether all full rows are ended is asked of the rows before the last glyph or tab: the full rows and the line ends
/// after them that are compared are those counted up to there. A line end that leads below the row in which that is
/// printed is not among them.
pub fn rows_are_counted_up_to_the_last_print()
    ensures { CountsBeforeLastPrint }
{}
