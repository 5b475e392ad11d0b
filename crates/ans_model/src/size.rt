//! The stated size of a screen.

ghost use Rattle.std.specs.Prelude.{◌≡◌, ◌≤◌};
ghost use Rattle.ans_model.specs.Bytes.{most_columns, most_lines};
ghost use Rattle.ans_model.specs.Screen.State.{sized, IsPlayableSize};

use std::marker::Model;

/// A width in columns and a number of lines, within the limits of a screen.
#[derive(Clone, Copy)]
pub struct Size {
    width: usize,
    lines: usize,
}

impl Model for Size {
    ghost use Rattle.ans_model.specs.Screen.State.{Size, sized};
    ghost use Rattle.ans_model.specs.Screen.State.{IsPlayableSize};

    ghost Value = { Size };

    ghost view = { λ z. sized z.width z.lines };

    ghost invariant = { λ z. IsPlayableSize (sized z.width z.lines) };

    ghost inverse = { λ z. record {
      width = z.width;
      lines = z.lines;
    } };
}

impl Size {
    /// A size of 1 to 1024 columns and 1 to 8192 lines.
    pub fn new(width: usize, lines: usize) -> Size
        requires some_columns { 1 ≤ width }
        requires columns { width ≤ most_columns }
        requires some_lines { 1 ≤ lines }
        requires lines { lines ≤ most_lines }
        ensures { result ≡ sized width lines }
    {
        Size { width, lines }
    }

    /// The number of columns.
    pub fn width(self) -> usize
        ensures width { result ≡ self.width }
        ensures limits { IsPlayableSize self }
    {
        self.width
    }

    /// The number of lines.
    pub fn lines(self) -> usize
        ensures lines { result ≡ self.lines }
        ensures limits { IsPlayableSize self }
    {
        self.lines
    }
}
