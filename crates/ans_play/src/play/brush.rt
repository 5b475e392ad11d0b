//! The fast steps of a play whose cursor is at one position.

ghost use Rattle.std.specs.Prelude.{◌≡◌, ◌<◌, ◌≤◌, ◌+◌, All, length, take, true, IsOk, IfOk, IfErr, OnOk, OnErr};
ghost use Rattle.std.specs.Char.{is_ascii_alphabetic};
ghost use Rattle.ans_model.specs.Inside.ShownKind.{shown_kind};
ghost use Rattle.ans_model.specs.Screen.Step.{destination};
ghost use Rattle.ans_model.specs.Sequence.TokenKind.{Place, Clear, EraseLine, Save, Restore};
ghost use Rattle.ans_tokens.specs.Glyphs.{IsGlyphByte};
ghost use Rattle.ans_play.specs.Brushes.{with_brush, IsBrush, BrushPlays, few_numbers};
ghost use Rattle.ans_play.specs.HalfFault.{is_one_position};
ghost use Rattle.ans_play.specs.Plays.{Plays, PlaysLetter, after_token};

use super::Play;
use super::sequence::{ReadSequence, read_front};
use crate::span::Span;
use ans_model::cell::Position;
use ans_model::destination::destination;
use ans_model::fault::Cause;
use ans_model::kind::Kind;
use ans_screen::{Attr, HalfCell, Screen};
use ans_tokens::{ESCAPE, count_glyphs, count_text, distance, is_just, place};

/// Where the cursor is, and the attribute. A loop that keeps them here has them in registers.
#[derive(Clone, Copy)]
pub(super) struct Brush {
    position: Position,
    attribute: Attr,
}

impl<G: Screen> Play<G> {
    /// The brush of a play whose cursor is at one position.
    #[inline(always)]
    pub(super) fn brush(&self) -> Brush
        ensures on { IsBrush self.now.size result }
        ensures same { is_one_position self.now.state.cursor ≡ true → with_brush self.now result ≡ self.now }
    {
        Brush {
            position: self.cursor.low,
            attribute: self.attribute,
        }
    }

    /// Has the cursor and the attribute be the brush's.
    #[inline(always)]
    pub(super) fn lay(&mut self, brush: Brush)
        requires { IsBrush self.old.size brush }
        ensures { self.new ≡ with_brush self.old brush }
    {
        let Position { row, column } = brush.position;
        self.cursor = Span::at(row, column);
        self.attribute = brush.attribute;
    }

    /// Plays a run of text, CR, LF or a common sequence, whichever the bytes begin with, and returns how
    /// many bytes that is, 0 where they begin with none or it is refused. The scanner stays.
    #[inline(always)]
    pub(super) fn brush_token(&mut self, brush: &mut Brush, bytes: &[u8]) -> usize
        requires on { IsBrush self.old.size brush.old }
        requires long { 66 ≤ length bytes.now }
        ensures { BrushPlays self.old brush.old bytes.now result self.new brush.new }
    {
        let first = bytes[0];
        if first >= 0x20 {
            return self.brush_run(brush, bytes);
        }
        if first == ESCAPE {
            return self.brush_sequence(brush, bytes);
        }
        self.brush_byte(brush, bytes)
    }

    /// Prints text in the cursor's row before its last column, and returns how many bytes that is: 0 in the spare row,
    /// or if the bytes begin with no text.
    #[inline(always)]
    fn brush_run(&mut self, brush: &mut Brush, bytes: &[u8]) -> usize
        requires on { IsBrush self.old.size brush.old }
        requires long { 66 ≤ length bytes.now }
        ensures { BrushPlays self.old brush.old bytes.now result self.new brush.new }
    {
        if brush.position.row >= self.size.lines() {
            return 0;
        }
        let count = count_text(bytes, self.size.width() - 1 - brush.position.column);
        self.brush_glyphs(brush, bytes, count);
        count
    }

    /// Prints a glyph that is no text, and returns that it is one byte, or 0 for any other byte and where
    /// it has no room.
    #[inline(always)]
    fn brush_low(&mut self, brush: &mut Brush, bytes: &[u8]) -> usize
        requires on { IsBrush self.old.size brush.old }
        requires long { 66 ≤ length bytes.now }
        ensures { BrushPlays self.old brush.old bytes.now result self.new brush.new }
    {
        if brush.position.row >= self.size.lines() {
            return 0;
        }
        let columns = self.size.width() - 1 - brush.position.column;
        let count = count_glyphs(&bytes[..columns.min(1)]);
        self.brush_glyphs(brush, bytes, count);
        count
    }

    /// Prints this many glyphs, for which there is room in the cursor's row before its last column.
    #[inline(always)]
    pub(super) fn brush_glyphs(&mut self, brush: &mut Brush, bytes: &[u8], count: usize)
        requires on { IsBrush self.old.size brush.old }
        requires above { 0 < count → brush.old.position.row < self.old.size.lines }
        requires columns { 0 < count → brush.old.position.column + count < self.old.size.width }
        requires within { count ≤ length bytes.now }
        requires glyphs { All IsGlyphByte (take count bytes.now) }
        ensures { BrushPlays self.old brush.old bytes.now count self.new brush.new }
    {
        if count == 0 {
            return;
        }
        let Position { row, column } = brush.position;
        self.grid
            .write_run(row, column, bytes, count, brush.attribute);
        brush.position.column = column + count;
    }

    /// Plays a CR, an LF above the spare row, or a glyph below 20h, and returns that it is one byte, or 0 for
    /// any other byte.
    #[inline(always)]
    fn brush_byte(&mut self, brush: &mut Brush, bytes: &[u8]) -> usize
        requires on { IsBrush self.old.size brush.old }
        requires long { 66 ≤ length bytes.now }
        ensures { BrushPlays self.old brush.old bytes.now result self.new brush.new }
    {
        let byte = bytes[0];
        if byte == b'\r' {
            brush.position.column = 0;
            return 1;
        }
        if byte == b'\n' && brush.position.row < self.size.lines() {
            brush.position.row += 1;
            return 1;
        }
        self.brush_low(brush, bytes)
    }

    /// Plays the sequence that the bytes begin with, where it has a common form and is not refused, and
    /// returns how many bytes it has, 0 otherwise.
    #[inline(always)]
    fn brush_sequence(&mut self, brush: &mut Brush, bytes: &[u8]) -> usize
        requires on { IsBrush self.old.size brush.old }
        requires long { 66 ≤ length bytes.now }
        ensures { BrushPlays self.old brush.old bytes.now result self.new brush.new }
    {
        let Some(read) = read_front(bytes, brush.attribute) else {
            return 0;
        };
        if read.letter == b'm' {
            brush.attribute = read.coloured.apply(read.last);
            return read.end;
        }
        if read.semicolons > 1 {
            return 0;
        }
        match self.brush_read(brush, &read) {
            Ok(()) => read.end,
            Err(_) => 0,
        }
    }

    /// Plays as `brush_letter` does what was read of a sequence of two numbers at most.
    // a call for each count, so that the numbers stay in registers
    #[inline(always)]
    fn brush_read(&mut self, brush: &mut Brush, read: &ReadSequence) -> Result<(), Cause>
        requires on { IsBrush self.old.size brush.old }
        ensures on { IsBrush self.new.size brush.new }
        ensures letter { OnOk result (is_ascii_alphabetic read.now.letter ≡ true) }
        ensures played { OnOk result (PlaysLetter (with_brush self.old brush.old)
            (with_brush self.new brush.new) read.now.letter (few_numbers read.now)) }
        ensures stopped { OnErr result (with_brush self.new brush.new ≡ with_brush self.old brush.old) }
    {
        if read.end == 3 {
            return self.brush_letter(brush, read.letter, &[]);
        }
        if read.semicolons == 0 {
            return self.brush_letter(brush, read.letter, &[read.last]);
        }
        self.brush_letter(brush, read.letter, &[read.previous, read.last])
    }

    /// Plays the sequence of these numbers and this letter, if it moves or keeps the cursor, clears the screen, or
    /// blanks the row from the cursor on. An error says that it is another sequence, is refused, or takes the cursor to
    /// where it may be at several positions; then nothing changes.
    #[inline(always)]
    #[tactic(auto, using(ans_tokens::proofs::PlainSequences::no_string))]
    fn brush_letter(&mut self, brush: &mut Brush, letter: u8, numbers: &[u8]) -> Result<(), Cause>
        requires on { IsBrush self.old.size brush.old }
        ensures on { IsBrush self.new.size brush.new }
        ensures letter { OnOk result (is_ascii_alphabetic letter ≡ true) }
        ensures played { OnOk result (PlaysLetter (with_brush self.old brush.old)
            (with_brush self.new brush.new) letter numbers.now) }
        ensures stopped { OnErr result (with_brush self.new brush.new ≡ with_brush self.old brush.old) }
    {
        match letter {
            b'A' => self.brush_move(brush, &Kind::Up(distance(numbers)?)),
            b'B' => self.brush_move(brush, &Kind::Down(distance(numbers)?)),
            b'C' => self.brush_move(brush, &Kind::Forward(distance(numbers)?)),
            b'D' => self.brush_move(brush, &Kind::Backward(distance(numbers)?)),
            b'H' | b'f' => {
                let (row, column) = place(numbers)?;
                self.brush_place(brush, row, column)
            }
            b'J' if is_just(2, numbers) => self.brush_clear(brush),
            b'K' if numbers.is_empty() || is_just(0, numbers) => self.brush_erase(brush),
            b's' if numbers.is_empty() => self.brush_save(brush),
            b'u' if numbers.is_empty() => self.brush_restore(brush),
            _ => Err(Cause::UnknownSequence),
        }
    }

    /// Moves the cursor as a token says that does nothing else.
    #[inline(always)]
    fn brush_move(&self, brush: &mut Brush, kind: &Kind) -> Result<(), Cause>
        requires on { IsBrush self.now.size brush.old }
        ensures on { IsBrush self.now.size brush.new }
        ensures ok { IsOk result }
        ensures position { brush.new ≡ record brush.old {
          position = destination self.now.size (shown_kind kind.now) brush.old.position;
        } }
    {
        brush.position = destination(brush.position, kind, self.size);
        Ok(())
    }

    #[inline(always)]
    fn brush_place(&self, brush: &mut Brush, row: u8, column: u8) -> Result<(), Cause>
        requires on { IsBrush self.now.size brush.old }
        ensures on { IsBrush self.now.size brush.new }
        ensures played { Plays (with_brush self.now brush.old) (with_brush self.now brush.new)
            (Place row column) result }
    {
        if row as usize > self.size.lines() + 1 || column as usize > self.size.width() {
            return Err(Cause::OutsideScreen);
        }
        self.brush_move(brush, &Kind::Place(row, column))
    }

    // seldom in a drawing
    #[inline(never)]
    fn brush_clear(&mut self, brush: &mut Brush) -> Result<(), Cause>
        requires on { IsBrush self.old.size brush.old }
        ensures on { IsBrush self.new.size brush.new }
        ensures played { Plays (with_brush self.old brush.old) (with_brush self.new brush.new) Clear result }
    {
        let blank = HalfCell {
            glyph: Some(b' '),
            attr: brush.attribute,
        };
        self.grid.clear(blank);
        brush.position = Position { row: 0, column: 0 };
        Ok(())
    }

    #[inline(always)]
    pub(super) fn brush_erase(&mut self, brush: &Brush) -> Result<(), Cause>
        requires on { IsBrush self.old.size brush.now }
        ensures { Plays (with_brush self.old brush.now) (with_brush self.new brush.now) EraseLine result }
    {
        let Position { row, column } = brush.position;
        let blank = HalfCell {
            glyph: Some(b' '),
            attr: brush.attribute,
        };
        self.grid.fill_row(row, column, self.size.width(), blank);
        Ok(())
    }

    #[inline(always)]
    fn brush_save(&mut self, brush: &Brush) -> Result<(), Cause>
        requires on { IsBrush self.old.size brush.now }
        ensures { Plays (with_brush self.old brush.now) (with_brush self.new brush.now) Save result }
    {
        self.saved = Span::at(brush.position.row, brush.position.column);
        Ok(())
    }

    /// Takes the cursor to the saved one, where that is one position.
    #[inline(always)]
    fn brush_restore(&self, brush: &mut Brush) -> Result<(), Cause>
        requires on { IsBrush self.now.size brush.old }
        ensures on { IsBrush self.now.size brush.new }
        ensures restored { IfOk result (λ _. with_brush self.now brush.new
            ≡ after_token (with_brush self.now brush.old) Restore) }
        ensures stopped { IfErr result (λ _. brush.new ≡ brush.old) }
    {
        if !self.saved.is_one_position() {
            // the cause is not looked at
            return Err(Cause::UnknownSequence);
        }
        brush.position = self.saved.low;
        Ok(())
    }
}
