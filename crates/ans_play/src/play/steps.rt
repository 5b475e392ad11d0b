//! The steps: each token plays, or is refused for the fault that it shows.

ghost use Rattle.std.specs.Prelude.{◌≡◌, ◌+◌, ◌*◌, ◌<◌, ◌≤◌, length, IsOk, IfOk, IfErr, OnOk, OnErr, Some, true};
ghost use Rattle.ans_model.specs.Inside.ShownKind.{shown_kind};
ghost use Rattle.ans_model.specs.Screen.Step.{filled};
ghost use Rattle.ans_model.specs.Sequence.Reads.{kind_of_byte};
ghost use Rattle.ans_model.specs.Sequence.TokenKind.{LineFeed, Tab, Place, EraseLine, Clear};
ghost use Rattle.ans_model.specs.Sequence.TokenKind.{Save, Restore, Colours, Wrap};
ghost use Rattle.ans_play.specs.HalfStep.{known_after_all};

use super::Play;
use crate::span::Span;
use crate::wrap::WrapMode;
use ans_model::cell::Position;
use ans_model::fault::{Cause, Fault};
use ans_model::kind::Kind;
use ans_model::tab::tab_blanks;
use ans_screen::{Attr, HalfCell, Screen};
use ans_tokens::{Token, distance, is_just, place};

#[inline(always)]
fn known_after_all(attribute: Attr, parameters: &[u8]) -> Attr
    ensures { result ≡ known_after_all attribute parameters.now }
{
    let mut new = attribute;
    for parameter in parameters {
        new = new.apply(*parameter);
    }
    new
}

/// Sets the cells from a position up to, but not including, cell `to` to this one. They are mostly in one row.
fn fill_from<G: Screen>(grid: &mut G, from: Position, to: usize, cell: HalfCell)
    requires row { from.row < G.rows_of grid.old }
    requires ordered { from.row * G.width_of grid.old + from.column ≤ to }
    requires within { to ≤ length (G.cells_of grid.old) }
    ensures cells { G.cells_of grid.new ≡ filled (G.cells_of grid.old)
        (from.row * G.width_of grid.old + from.column) to cell }
    ensures width { G.width_of grid.new ≡ G.width_of grid.old }
    ensures rows { G.rows_of grid.new ≡ G.rows_of grid.old }
{
    let Position { row, column } = from;
    let start = row * grid.width();
    if to - start <= grid.width() {
        grid.fill_row(row, column, to - start, cell);
    } else {
        grid.fill(start + column, to, cell);
    }
}

impl<G: Screen> Play<G> {
    ghost use Rattle.ans_play.specs.HalfStep.{half_blank, after_move};
    ghost use Rattle.ans_play.specs.HalfFault.{is_one_position, half_print_fault};
    ghost use Rattle.ans_play.specs.Plays.{Plays, PlaysLetter, PlaysToken};

    /// Plays a token. A fault is at the token's first byte, and then nothing changes.
    pub(super) fn step(&mut self, token: &Token) -> Result<(), Fault>
        ensures { PlaysToken self.old self.new token.now result }
    {
        let result = match token.kind() {
            Kind::Glyph(byte) => self.print(*byte),
            Kind::LineFeed => self.line_feed(),
            Kind::Place(row, column) => self.place(*row, *column),
            Kind::Clear => self.clear(),
            Kind::EraseLine => self.erase_line(),
            Kind::Save => self.save(),
            Kind::Restore => self.restore(),
            Kind::Colours(parameters) => self.colour(parameters),
            Kind::Wrap(on) => self.set_wrap(*on),
            Kind::Tab => self.tab(),
            Kind::Mode => Err(Cause::ScreenMode),
            Kind::Keys => Err(Cause::KeyReassigned),
            Kind::Ask => Err(Cause::ReportAsked),
            kind => self.move_cursor(kind),
        };
        match result {
            Ok(()) => Ok(()),
            Err(cause) => Err(Fault {
                offset: token.start(),
                cause,
            }),
        }
    }

    /// Where a byte is printed. An error is the fault that it has there.
    #[inline(always)]
    pub(super) fn printing_position(&self) -> Result<Position, Cause>
        ensures one { IfOk result (λ position. (position ≡ self.now.state.cursor.low)
            × (is_one_position self.now.state.cursor ≡ true)) }
        ensures above { IfOk result (λ position. position.row < self.now.size.lines) }
        ensures fault { IfErr result (λ cause.
            half_print_fault self.now.size self.now.state ≡ Some cause) }
    {
        if !self.cursor.is_one_position() {
            return Err(Cause::PrintUnknownPlace);
        }
        if self.cursor.low.row == self.size.lines() {
            return Err(Cause::PrintBelow);
        }
        Ok(self.cursor.low)
    }

    /// Prints the blanks of a tab, up to the next column that 8 divides. It is refused where one of
    /// them is, and then nothing changes.
    fn tab(&mut self) -> Result<(), Cause>
        ensures { Plays self.old self.new Tab result }
    {
        let position = self.printing_position()?;
        let blanks = tab_blanks(position.column);
        let cursor = self.wrap.after_blanks(position, blanks, self.size)?;
        let to = self.wrap.end_of_blanks(position, blanks, self.size);
        let blank = self.blank();
        fill_from(&mut self.grid, position, to, blank);
        self.cursor = cursor;
        Ok(())
    }

    /// Takes the cursor one row down. It is refused where the screen scrolls from some start.
    fn line_feed(&mut self) -> Result<(), Cause>
        ensures { Plays self.old self.new LineFeed result }
    {
        if self.cursor.high.row < self.size.lines() {
            self.cursor = self.cursor.one_row_down(self.size);
            Ok(())
        } else if self.cursor.low.row == self.size.lines() {
            Err(Cause::Scrolls)
        } else {
            Err(Cause::MayScroll)
        }
    }

    /// Takes the cursor to a row and a column, counted from 1. It is refused where they are not on
    /// the screen.
    fn place(&mut self, row: u8, column: u8) -> Result<(), Cause>
        ensures { Plays self.old self.new (Place row column) result }
    {
        if row as usize > self.size.lines() + 1 || column as usize > self.size.width() {
            return Err(Cause::OutsideScreen);
        }
        self.move_cursor(&Kind::Place(row, column))
    }

    /// Moves the cursor as a token says that does nothing else. It is never refused.
    #[inline(always)]
    fn move_cursor(&mut self, kind: &Kind) -> Result<(), Cause>
        ensures ok { IsOk result }
        ensures moved { self.new ≡ record self.old {
          state = record self.old.state {
            cursor = after_move self.old.size (shown_kind kind.now) self.old.state.cursor;
          };
        } }
    {
        self.cursor = self.cursor.after_move(kind, self.size);
        Ok(())
    }

    /// Blanks the row from the cursor on. It is refused if the cursor is not known to be at one position.
    fn erase_line(&mut self) -> Result<(), Cause>
        ensures { Plays self.old self.new EraseLine result }
    {
        if !self.cursor.is_one_position() {
            return Err(Cause::EraseUnknownPlace);
        }
        let brush = self.brush();
        let result = self.brush_erase(&brush);
        self.lay(brush);
        result
    }

    /// Blanks the screen, and takes the cursor home.
    fn clear(&mut self) -> Result<(), Cause>
        ensures { Plays self.old self.new Clear result }
    {
        let blank = self.blank();
        self.grid.clear(blank);
        self.cursor = Span::at(0, 0);
        Ok(())
    }

    fn blank(&self) -> HalfCell
        ensures { result ≡ half_blank self.now.state.attribute }
    {
        HalfCell {
            glyph: Some(b' '),
            attr: self.attribute,
        }
    }

    fn save(&mut self) -> Result<(), Cause>
        ensures { Plays self.old self.new Save result }
    {
        self.saved = self.cursor;
        Ok(())
    }

    fn restore(&mut self) -> Result<(), Cause>
        ensures { Plays self.old self.new Restore result }
    {
        self.cursor = self.saved;
        Ok(())
    }

    #[inline(always)]
    fn colour(&mut self, parameters: &[u8]) -> Result<(), Cause>
        ensures { Plays self.old self.new (Colours parameters.now) result }
    {
        self.attribute = known_after_all(self.attribute, parameters);
        Ok(())
    }

    /// Plays the token that a byte outside sequences is.
    #[inline(always)]
    pub(super) fn step_of_byte(&mut self, byte: u8) -> Result<(), Cause>
        ensures { Plays self.old self.new (kind_of_byte byte) result }
    {
        match byte {
            0x07 => Ok(()),
            0x08 => self.move_cursor(&Kind::BackSpace),
            b'\t' => self.tab(),
            b'\n' => self.line_feed(),
            b'\r' => self.move_cursor(&Kind::CarriageReturn),
            _ => self.print(byte),
        }
    }

    /// Plays the sequence of these numbers and this letter, where it moves or keeps the cursor, blanks
    /// or colours. An error says that it is another one, or is refused; then nothing changes.
    #[inline(always)]
    #[tactic(auto, using(ans_tokens::proofs::PlainSequences::no_string))]
    pub(super) fn step_of_letter(&mut self, letter: u8, numbers: &[u8]) -> Result<(), Cause>
        ensures played { OnOk result (PlaysLetter self.old self.new letter numbers.now) }
        ensures stopped { OnErr result (self.new ≡ self.old) }
    {
        match letter {
            b'A' => self.move_cursor(&Kind::Up(distance(numbers)?)),
            b'B' => self.move_cursor(&Kind::Down(distance(numbers)?)),
            b'C' => self.move_cursor(&Kind::Forward(distance(numbers)?)),
            b'D' => self.move_cursor(&Kind::Backward(distance(numbers)?)),
            b'H' | b'f' => {
                let (row, column) = place(numbers)?;
                self.place(row, column)
            }
            b'J' if is_just(2, numbers) => self.clear(),
            b'K' if numbers.is_empty() || is_just(0, numbers) => self.erase_line(),
            b's' if numbers.is_empty() => self.save(),
            b'u' if numbers.is_empty() => self.restore(),
            b'm' if numbers.is_empty() => self.colour(&[0]),
            b'm' => self.colour(numbers),
            _ => Err(Cause::UnknownSequence),
        }
    }

    fn set_wrap(&mut self, on: bool) -> Result<(), Cause>
        ensures { Plays self.old self.new (Wrap on) result }
    {
        self.wrap = WrapMode::of(on);
        Ok(())
    }
}
