//! A row as it is written, up to the line end that ends it.

ghost use Rattle.std.specs.Prelude.{◌≡◌, ◌+◌, ◌≤◌};
ghost use Rattle.ans_model.specs.Bytes.{longest_file};
ghost use Rattle.ans_model.specs.Sequence.TokenKind.{Glyph};
ghost use Rattle.ans_model.specs.Inside.ShownKind.{shown_kind};
ghost use Rattle.ans_model.specs.Screen.State.{State};
ghost use Rattle.ans_model.specs.Screen.Step.{step};
ghost use Rattle.ans_pens.specs.Pens.{pen_of, StandsOn};
ghost use Rattle.ans_hints.specs.declared.row.Seam.TheVariants.{Other};
ghost use Rattle.ans_hints.specs.RowEnds.{ended_by_line_feed, is_stuck, row_up_to, row_with};

use ans_model::kind::Kind;
use ans_model::size::Size;
use ans_pens::pen::Pen;

/// A row that has ended, with a line end or with a return.
#[derive(Debug, Clone, Copy, PartialEq, Eq)]
pub struct EndedRow {
    /// The offset of the line end.
    pub offset: usize,
    /// How many columns the row has taken, in as many rows of the screen as it needs.
    pub columns: usize,
    /// Whether it ended in a glyph that wrapped.
    pub is_full: bool,
}

/// What came last in a row; colours, wrap, a save, a bell and an erased line may come between.
#[derive(Debug, Clone, Copy, PartialEq, Eq)]
pub enum Seam {
    /// Something else.
    Other,
    /// A glyph that has wrapped.
    Wrapped,
    /// A glyph in the last column, where wrap is off: the cursor has stayed on it.
    Stuck,
    /// A return, which has ended this row.
    Returned(EndedRow),
}

/// The row that is being written.
#[derive(Debug, Clone, Copy, PartialEq, Eq)]
pub struct Row {
    /// The column in which it began, from 0.
    pub begun: usize,
    /// How many of its glyphs have wrapped.
    pub wraps: usize,
    pub seam: Seam,
}

impl Row {
    /// That before the first token.
    pub(crate) const FIRST: Row = Row {
        begun: 0,
        wraps: 0,
        seam: Seam::Other,
    };

    /// Whether the cursor has stayed on a glyph in the last column.
    #[inline(always)]
    pub(crate) fn is_stuck(&self) -> bool
        ensures { result ≡ is_stuck self.now.seam }
    {
        matches!(self.seam, Seam::Stuck)
    }

    /// The row as one that ends here.
    #[inline(always)]
    fn up_to(&self, size: Size, pen: &Pen, offset: usize) -> EndedRow
        requires stands { StandsOn size pen.now }
        requires few { self.now.wraps ≤ longest_file }
        ensures { (s : State) → pen.now ≡ pen_of s → result ≡ row_up_to size s offset self.now }
    {
        let columns = self.wraps * size.width() + pen.cursor.column;
        EndedRow {
            offset,
            columns: columns.saturating_sub(self.begun),
            is_full: matches!(self.seam, Seam::Wrapped),
        }
    }

    /// The row that a line feed at this offset ends.
    pub(crate) fn ended(&self, size: Size, pen: &Pen, offset: usize) -> EndedRow
        requires stands { StandsOn size pen.now }
        requires few { self.now.wraps ≤ longest_file }
        ensures { (s : State) → pen.now ≡ pen_of s → result ≡ ended_by_line_feed size s offset self.now }
    {
        match self.seam {
            Seam::Returned(row) => row,
            _ => self.up_to(size, pen, offset),
        }
    }

    /// Glyphs more that stay in the row.
    #[inline(always)]
    pub(crate) fn go_on(&mut self)
        ensures { self.new ≡ record self.old { seam = Other } }
    {
        // Nothing is written where nothing changes.
        if !matches!(self.seam, Seam::Other) {
            self.seam = Seam::Other;
        }
    }

    /// A glyph more.
    #[inline(always)]
    fn glyph(&mut self, size: Size, before: &Pen)
        requires few { self.old.wraps ≤ longest_file }
        ensures few { self.new.wraps ≤ self.old.wraps + 1 }
        ensures row { (s : State) → before.now ≡ pen_of s
            → self.new ≡ row_with size s 0 self.old (Glyph 0) }
    {
        if before.cursor.column != size.width() - 1 {
            // Nothing is written where nothing changes: this is asked of each glyph.
            if !matches!(self.seam, Seam::Other) {
                self.seam = Seam::Other;
            }
        } else if before.wrap {
            self.wraps += 1;
            self.seam = Seam::Wrapped;
        } else {
            self.seam = Seam::Stuck;
        }
    }

    /// One token more, which is at this offset. The pen is given as it was before the token, and the
    /// column to which the token took the cursor.
    #[inline(always)]
    pub(crate) fn step(
        &mut self,
        size: Size,
        before: &Pen,
        column: usize,
        offset: usize,
        kind: &Kind,
    )
        requires stands { StandsOn size before.now }
        requires few { self.old.wraps ≤ longest_file }
        ensures few { self.new.wraps ≤ self.old.wraps + 1 }
        ensures row { (s : State) → before.now ≡ pen_of s
            → column ≡ (step size s (shown_kind kind.now)).cursor.column
            → self.new ≡ row_with size s offset self.old (shown_kind kind.now) }
    {
        match kind {
            Kind::Glyph(_) => self.glyph(size, before),
            Kind::CarriageReturn => {
                let row = self.up_to(size, before, offset);
                *self = Row {
                    begun: column,
                    seam: Seam::Returned(row),
                    ..Row::FIRST
                };
            }
            Kind::LineFeed
            | Kind::Up(_)
            | Kind::Down(_)
            | Kind::Place(_, _)
            | Kind::Clear
            | Kind::Restore => {
                *self = Row {
                    begun: column,
                    ..Row::FIRST
                }
            }
            Kind::Bell | Kind::Save | Kind::EraseLine | Kind::Colours(_) | Kind::Wrap(_) => {}
            _ => self.seam = Seam::Other,
        }
    }
}
