//! The cursors, the attribute and wrap, token by token.

ghost use Rattle.std.specs.Prelude.{◌≡◌, ◌+◌, ◌<◌, ◌≤◌, ℕ, fold, replicate};
ghost use Rattle.ans_model.specs.Bytes.{blank};
ghost use Rattle.ans_model.specs.Screen.Attribute.{attribute_after_all};
ghost use Rattle.ans_model.specs.Screen.State.{Size, State};
ghost use Rattle.ans_model.specs.Screen.Step.{advanced, line_feed, put, step};
ghost use Rattle.ans_model.specs.Inside.ShownKind.{shown_kind};
ghost use Rattle.ans_model.specs.Sequence.TokenKind.{Colours};
ghost use Rattle.ans_pens.specs.Pens.{pen_of, cleared_pen, before_last_blank, further, glyph_wraps, StandsOn};

use ans_model::attribute::attribute_after_all;
use ans_model::cell::Position;
use ans_model::destination::destination;
use ans_model::kind::Kind;
use ans_model::size::Size;
use ans_model::tab::tab_blanks;

/// The first column of the first row.
pub const HOME: Position = Position { row: 0, column: 0 };

/// All of a state except its screen: where the cursor is and where it was saved, by rows and columns
/// from 0, the attribute as ANSI.SYS keeps it, and whether wrap is on.
#[derive(Debug, Clone, Copy, PartialEq, Eq)]
pub struct Pen {
    pub cursor: Position,
    pub saved: Position,
    pub attribute: u8,
    pub wrap: bool,
}

impl Pen {
    /// That of the cleared start, which is one on every screen.
    pub fn cleared() -> Pen
        ensures { result ≡ cleared_pen }
    {
        Pen {
            cursor: HOME,
            saved: HOME,
            attribute: 0x07,
            wrap: true,
        }
    }

    /// How many printed bytes take the cursor no further than to the last column.
    #[inline(always)]
    pub fn columns_left(&self, size: Size) -> usize
        ensures { (count : ℕ) → 0 < count → count ≤ result → self.now.cursor.column + count < size.width }
    {
        let columns = size.width().saturating_sub(self.cursor.column);
        columns.saturating_sub(1)
    }

    /// This many bytes are printed, which take the cursor no further than to the last column.
    #[inline(always)]
    pub fn go_on(&mut self, size: Size, count: usize)
        requires stays { self.old.cursor.column + count < size.width }
        requires stands { StandsOn size self.old }
        ensures stands { StandsOn size self.new }
        ensures pen { self.new ≡ further self.old count }
    {
        self.cursor.column += count;
    }

    /// Whether a glyph that is printed next wraps.
    pub fn glyph_wraps(&self, size: Size) -> bool
        ensures { result ≡ glyph_wraps size self.now }
    {
        self.cursor.column == size.width() - 1 && self.wrap
    }

    /// One row down; in the spare row it stays.
    fn line_feed(&mut self, size: Size)
        requires stands { StandsOn size self.old }
        ensures stands { StandsOn size self.new }
        ensures pen { (s : State) → self.old ≡ pen_of s → self.new ≡ pen_of (line_feed size s) }
    {
        if self.cursor.row < size.lines() {
            self.cursor.row += 1;
        }
    }

    /// The cursor goes on after a printed byte.
    #[inline(always)]
    pub(crate) fn advance(&mut self, size: Size)
        requires stands { StandsOn size self.old }
        ensures stands { StandsOn size self.new }
        ensures pen { (s : State) → self.old ≡ pen_of s → self.new ≡ pen_of (advanced size s) }
    {
        if self.cursor.column + 1 < size.width() {
            self.cursor.column += 1;
        } else if self.wrap {
            self.cursor.column = 0;
            self.line_feed(size);
        }
    }

    /// This many blanks are printed, at most as many as a tab prints.
    fn blanks(&mut self, size: Size, count: usize)
        requires few { count ≤ 8 }
        requires stands { StandsOn size self.old }
        ensures stands { StandsOn size self.new }
        ensures pen { (s : State) → self.old ≡ pen_of s
            → self.new ≡ pen_of (fold (put size) s (replicate count blank)) }
    {
        if self.cursor.column + count < size.width() {
            self.cursor.column += count;
            return;
        }
        for _ in 0..count {
            self.advance(size);
        }
    }

    /// The row of the last blank that a tab prints, which is the lowest.
    pub fn row_of_tab(&self, size: Size) -> usize
        requires stands { StandsOn size self.now }
        ensures within { result ≤ size.lines }
        ensures row { (s : State) → self.now ≡ pen_of s
            → result ≡ (before_last_blank size s).cursor.row }
    {
        let mut last = *self;
        let blanks = tab_blanks(self.cursor.column) - 1;
        last.blanks(size, blanks);
        last.cursor.row
    }

    /// A sequence of colours of these numbers.
    #[inline(always)]
    pub fn colour(&mut self, numbers: &[u8])
        ensures stands { (z : Size) → StandsOn z self.old → StandsOn z self.new }
        ensures pen { (z : Size) (s : State) → self.old ≡ pen_of s
            → self.new ≡ pen_of (step z s (Colours numbers.now)) }
    {
        self.attribute = attribute_after_all(self.attribute, numbers);
    }

    /// The same, of numbers that are known to lead from one attribute to another: where this pen has the first,
    /// they are not gone over again.
    #[inline(always)]
    pub fn colour_again(&mut self, numbers: &[u8], from: u8, to: u8)
        requires leads { to ≡ attribute_after_all from numbers.now }
        ensures stands { (z : Size) → StandsOn z self.old → StandsOn z self.new }
        ensures pen { (z : Size) (s : State) → self.old ≡ pen_of s
            → self.new ≡ pen_of (step z s (Colours numbers.now)) }
    {
        if self.attribute == from {
            self.attribute = to;
        } else {
            self.colour(numbers);
        }
    }

    /// One token, by the table of steps.
    #[inline(always)]
    pub fn step(&mut self, size: Size, kind: &Kind)
        requires stands { StandsOn size self.old }
        ensures stands { StandsOn size self.new }
        ensures pen { (s : State) → self.old ≡ pen_of s
            → self.new ≡ pen_of (step size s (shown_kind kind.now)) }
    {
        match kind {
            Kind::Glyph(_) => self.advance(size),
            Kind::Tab => self.blanks(size, tab_blanks(self.cursor.column)),
            Kind::LineFeed => self.line_feed(size),
            Kind::Clear => self.cursor = HOME,
            Kind::Save => self.saved = self.cursor,
            Kind::Restore => self.cursor = self.saved,
            Kind::Colours(parameters) => {
                self.attribute = attribute_after_all(self.attribute, parameters)
            }
            Kind::Wrap(on) => self.wrap = *on,
            kind => self.cursor = destination(self.cursor, kind, size),
        }
    }
}
