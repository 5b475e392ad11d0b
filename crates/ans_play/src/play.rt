//! The play of bytes over one half-known state.

ghost use Rattle.std.specs.Prelude.{◌≡◌, ◌≢◌, ◌<◌, ◌≤◌, ◌+◌, ◌-◌, ◌*◌, ℕ, List, [], ◌∷◌, length, take, set};
ghost use Rattle.std.specs.Prelude.{slice_index_or, IfOk, IfErr, OnOk, true};
ghost use Rattle.ans_model.specs.Bytes.{most_columns, longest_file, escape};
ghost use Rattle.ans_model.specs.Screen.State.{sized};
ghost use Rattle.ans_model.specs.Sequence.TokenKind.{Glyph};
ghost use Rattle.ans_model.specs.declared.start.Start.{Start};
ghost use Rattle.ans_screen.specs.GridEdits.{most_rows};
ghost use Rattle.ans_play.specs.HalfFault.{is_one_position};
ghost use Rattle.ans_play.specs.HalfStart.{start_cell, start_attribute};

mod brush;
mod sequence;
mod steps;

use crate::picture::Picture;
use crate::span::Span;
use crate::wrap::WrapMode;
use ans_model::cell::Position;
use ans_model::fault::{Cause, Fault};
use ans_model::size::Size;
use ans_model::start::Start;
use ans_screen::{Attr, HalfCell, Screen};
use ans_tokens::{ESCAPE, Scanner, count_glyphs, read_sequence};
use arrayvec::ArrayVec;
use sequence::LONGEST_FRONT;
use std::marker::Model;

/// The play of bytes from every start of a class: the scanner that reads them, and one state of
/// which parts are known.
#[derive(Drop)]
pub(crate) struct Play<G: Screen> {
    size: Size,
    scanner: Scanner,
    grid: G,
    cursor: Span,
    saved: Span,
    attribute: Attr,
    wrap: WrapMode,
    ghost grid_width: { G.width_of grid ≡ size.width },
    ghost grid_rows: { G.rows_of grid ≡ size.lines + 1 },
}

impl<G: Screen> Model for Play<G> {
    ghost use Rattle.ans_play.specs.HalfState.{half_state};
    ghost use Rattle.ans_play.specs.PlayView.{PlayView, play_view, IsPlayView};

    ghost Value = { PlayView };

    ghost view = { λ p.
        play_view p.size p.scanner
        (half_state (G.cells_of p.grid) p.cursor p.saved p.attribute p.wrap) };

    ghost invariant = { λ p.
        IsPlayView (play_view p.size p.scanner
        (half_state (G.cells_of p.grid) p.cursor p.saved p.attribute p.wrap)) };
}

fn cell_at_start(known: bool) -> HalfCell
    ensures { result ≡ start_cell known }
{
    if known {
        HalfCell::known(b' ', 0x07)
    } else {
        HalfCell::unknown()
    }
}

fn attribute_at_start(known: bool) -> Attr
    ensures { result ≡ start_attribute known }
{
    if known {
        Attr::whole(0x07)
    } else {
        Attr::none()
    }
}

/// Makes the cell at a position this one.
fn put_at<G: Screen>(grid: &mut G, position: Position, cell: HalfCell)
    requires row { position.row < G.rows_of grid.old }
    requires column { position.column < G.width_of grid.old }
    ensures cells { G.cells_of grid.new
        ≡ set (G.cells_of grid.old) (position.row * G.width_of grid.old + position.column) cell }
    ensures width { G.width_of grid.new ≡ G.width_of grid.old }
    ensures rows { G.rows_of grid.new ≡ G.rows_of grid.old }
{
    let Position { row, column } = position;
    grid.fill_row(row, column, column + 1, cell);
}

impl<G: Screen> Play<G> {
    ghost use Rattle.ans_tokens.specs.Glyphs.{IsBetweenTokens};
    ghost use Rattle.ans_play.specs.Plays.{AreFree, IsLongestRun, Plays};
    ghost use Rattle.ans_play.specs.Stands.{IsNewPlay, GoesOn, PlaysWholeTokens, PlaysFront};
    ghost use Rattle.ans_play.specs.Stands.{IsFirstAfter, StopsAt, EndsPlay};

    /// A play of no bytes yet, from the starts of a class, on a grid of one row more than the lines.
    /// What the grid held is gone.
    pub fn on(mut grid: G, start: Start) -> Play<G>
        requires some_columns { 1 ≤ G.width_of grid }
        requires columns { G.width_of grid ≤ most_columns }
        requires some_lines { 2 ≤ G.rows_of grid }
        requires rows { G.rows_of grid ≤ most_rows }
        ensures { IsNewPlay result (sized (G.width_of grid) (G.rows_of grid - 1)) start }
    {
        let size = Size::new(grid.width(), grid.rows() - 1);
        grid.clear(cell_at_start(start.screen));
        Play {
            size,
            scanner: Scanner::new(),
            grid,
            cursor: Span::of_start(start.cursor, size),
            saved: Span::of_start(start.saved, size),
            attribute: attribute_at_start(start.colours),
            wrap: WrapMode::of_start(start.wrap),
        }
    }

    /// Plays what the bytes begin with, and returns how many bytes that is: all tokens of the common
    /// forms, or else one byte.
    #[inline(always)]
    pub fn advance(&mut self, bytes: &[u8]) -> Result<usize, Fault>
        requires some { 1 ≤ length bytes.now }
        requires room { self.old.scanner.offset + length bytes.now ≤ longest_file }
        ensures played { IfOk result (PlaysFront self.old bytes.now self.new) }
        ensures stopped { IfErr result (StopsAt self.old bytes.now self.new) }
        ensures within { IfErr result (λ fault. fault.offset ≤ self.old.scanner.offset + length bytes.now) }
    {
        if !self.scanner.is_between_tokens() {
            return self.advance_slow(bytes);
        }
        match self.advance_fast(bytes) {
            0 => self.advance_slow(bytes),
            count => Ok(count),
        }
    }

    fn advance_slow(&mut self, bytes: &[u8]) -> Result<usize, Fault>
        requires some { 1 ≤ length bytes.now }
        requires room { self.old.scanner.offset + length bytes.now ≤ longest_file }
        ensures played { IfOk result (PlaysFront self.old bytes.now self.new) }
        ensures stopped { IfErr result (StopsAt self.old bytes.now self.new) }
        ensures within { IfErr result (λ fault. fault.offset ≤ self.old.scanner.offset + length bytes.now) }
    {
        self.slow_byte(bytes[0])?;
        Ok(1)
    }

    /// Plays the runs of glyphs, the bytes outside sequences and the common sequences that the bytes
    /// begin with, and returns how many bytes they are. It stops before what is refused or in a rarer
    /// form. It is called between two tokens.
    #[inline(always)]
    fn advance_fast(&mut self, bytes: &[u8]) -> usize
        requires between { IsBetweenTokens self.old.scanner }
        requires room { self.old.scanner.offset + length bytes.now ≤ longest_file }
        ensures within { result ≤ length bytes.now }
        ensures played { GoesOn self.old (take result bytes.now) self.new }
        ensures none { result ≡ 0 → self.new ≡ self.old }
    {
        let count = self.advance_tokens(bytes);
        self.scanner.skip(count);
        count
    }

    /// Plays those tokens. The scanner stays.
    #[inline(always)]
    fn advance_tokens(&mut self, bytes: &[u8]) -> usize
        ensures within { result ≤ length bytes.now }
        ensures played { PlaysWholeTokens self.old (take result bytes.now) self.new }
        ensures none { result ≡ 0 → self.new ≡ self.old }
    {
        if bytes.len() >= LONGEST_FRONT && self.cursor.is_one_position() {
            self.advance_brush(bytes)
        } else {
            self.advance_span(bytes)
        }
    }

    /// Plays those tokens from one position of the cursor, as long as it has one and the bytes that are
    /// left are enough for a sequence. The scanner stays.
    #[inline(never)]
    fn advance_brush(&mut self, bytes: &[u8]) -> usize
        requires { is_one_position self.old.state.cursor ≡ true }
        ensures within { result ≤ length bytes.now }
        ensures played { PlaysWholeTokens self.old (take result bytes.now) self.new }
        ensures none { result ≡ 0 → self.new ≡ self.old }
    {
        let mut brush = self.brush();
        let mut count = 0;
        while bytes.len() - count >= LONGEST_FRONT {
            let rest = &bytes[count..];
            match self.brush_token(&mut brush, rest) {
                0 => {
                    self.lay(brush);
                    let next = self.advance_span(rest);
                    if next == 0 || !self.cursor.is_one_position() {
                        return count + next;
                    }
                    brush = self.brush();
                    count += next;
                }
                next => count += next,
            }
        }
        self.lay(brush);
        count
    }

    /// Plays those tokens wherever the cursor may be, up to one that a brush may play. The scanner stays.
    #[inline(never)]
    fn advance_span(&mut self, bytes: &[u8]) -> usize
        ensures within { result ≤ length bytes.now }
        ensures played { PlaysWholeTokens self.old (take result bytes.now) self.new }
        ensures none { result ≡ 0 → self.new ≡ self.old }
    {
        let mut count = 0;
        while count < bytes.len() {
            match self.fast_token(&bytes[count..]) {
                0 => break,
                next => count += next,
            }
            if self.is_for_brush(&bytes[count..]) {
                break;
            }
        }
        count
    }

    /// Whether a brush may play what the bytes begin with: a sequence, or text before the last column.
    #[inline(always)]
    fn is_for_brush(&self, bytes: &[u8]) -> bool {
        if bytes.len() < LONGEST_FRONT {
            return false;
        }
        match bytes[0] {
            ESCAPE => self.cursor.is_one_position(),
            0x20..=0xFF => self.columns_before_last() > 0,
            _ => false,
        }
    }

    /// Plays a run of glyphs, a byte outside sequences or a common sequence, whichever the bytes
    /// begin with, and returns how many bytes that is, 0 where they begin with none or it is refused.
    /// The scanner stays, so that it is taken over many tokens at once.
    #[inline(always)]
    fn fast_token(&mut self, bytes: &[u8]) -> usize
        requires some { 1 ≤ length bytes.now }
        ensures within { result ≤ length bytes.now }
        ensures played { PlaysWholeTokens self.old (take result bytes.now) self.new }
        ensures none { result ≡ 0 → self.new ≡ self.old }
    {
        let first = bytes[0];
        if first == ESCAPE {
            return self.fast_sequence(bytes);
        }
        // no glyph, so no run
        if first < 0x20 && matches!(first, 0x07 | 0x08 | b'\t' | b'\n' | b'\r') {
            return self.fast_byte(bytes);
        }
        match self.print_run(bytes) {
            0 => self.fast_byte(bytes),
            count => count,
        }
    }

    /// Plays the first byte, which is not ESC, and returns that it is one byte, or 0 where it is
    /// refused. The scanner stays.
    // in line, so that its answer stays in a register
    #[inline(always)]
    fn fast_byte(&mut self, bytes: &[u8]) -> usize
        requires some { 1 ≤ length bytes.now }
        requires outside { slice_index_or bytes.now 0 0 ≢ escape }
        ensures within { result ≤ length bytes.now }
        ensures played { PlaysWholeTokens self.old (take result bytes.now) self.new }
        ensures none { result ≡ 0 → self.new ≡ self.old }
    {
        match self.step_of_byte(bytes[0]) {
            Ok(()) => 1,
            Err(_) => 0,
        }
    }

    /// Plays the sequence that the bytes begin with, where it moves or keeps the cursor, blanks or
    /// colours, is whole, has neither a mark nor a string, and is not refused. It returns how many
    /// bytes that is, or 0 where there is no such sequence. The scanner stays.
    fn fast_sequence(&mut self, bytes: &[u8]) -> usize
        ensures within { result ≤ length bytes.now }
        ensures played { PlaysWholeTokens self.old (take result bytes.now) self.new }
        ensures none { result ≡ 0 → self.new ≡ self.old }
    {
        let mut numbers = ArrayVec::new();
        let Some(letter) = read_sequence(bytes, &mut numbers) else {
            return 0;
        };
        match self.step_of_letter(letter.byte, numbers.as_slice()) {
            Ok(()) => letter.end,
            Err(_) => 0,
        }
    }

    /// Prints all the glyphs that the bytes begin with, as far as they are in the cursor's row before its last column,
    /// and returns how many they are. It prints none if a glyph is refused. The scanner stays.
    fn print_run(&mut self, bytes: &[u8]) -> usize
        ensures within { result ≤ length bytes.now }
        ensures printed { PlaysWholeTokens self.old (take result bytes.now) self.new }
        ensures longest { IsLongestRun self.old bytes.now result }
        ensures none { result ≡ 0 → self.new ≡ self.old }
    {
        let columns = self.columns_before_last();
        let count = count_glyphs(&bytes[..bytes.len().min(columns)]);
        if count > 0 {
            let mut brush = self.brush();
            self.brush_glyphs(&mut brush, bytes, count);
            self.lay(brush);
        }
        count
    }

    /// Prints a byte at the cursor, which then goes on. It is refused if the cursor is not known to be at one position
    /// of the stated lines.
    fn print(&mut self, byte: u8) -> Result<(), Cause>
        ensures { Plays self.old self.new (Glyph byte) result }
    {
        let position = self.printing_position()?;
        let cell = HalfCell {
            glyph: Some(byte),
            attr: self.attribute,
        };
        put_at(&mut self.grid, position, cell);
        self.cursor = self.wrap.after_print(position, self.size);
        Ok(())
    }

    /// How many columns are between the cursor and its row's last one if a glyph is printed; none if it is refused.
    fn columns_before_last(&self) -> usize
        ensures { AreFree self.now result }
    {
        if self.cursor.is_one_position() && self.cursor.low.row < self.size.lines() {
            self.size.width() - 1 - self.cursor.low.column
        } else {
            0
        }
    }

    /// Takes a byte, and plays the token that it ends, if it ends one.
    #[inline(never)]
    fn slow_byte(&mut self, byte: u8) -> Result<(), Fault>
        requires { self.old.scanner.offset < longest_file }
        ensures played { OnOk result (GoesOn self.old (byte ∷ []) self.new) }
        ensures stopped { IfErr result (λ fault. (self.new.size ≡ self.old.size)
            × ((rest : List ℕ) → IsFirstAfter self.old (byte ∷ rest) fault)) }
        ensures within { IfErr result (λ fault. fault.offset ≤ self.old.scanner.offset + 1) }
    {
        match self.scanner.byte(byte)? {
            None => Ok(()),
            Some(token) => self.step(&token),
        }
    }

    /// The picture that every play of the bytes shows. An error is F12, where the bytes end in a
    /// sequence, at its offset; else F25, the first cell of the stated lines that stays unknown, its
    /// row and column counted from 1, at the number of bytes.
    pub fn finish(self) -> Result<Picture<G>, Fault>
        ensures ends { EndsPlay self result }
        ensures within { IfErr result (λ fault. fault.offset ≤ self.scanner.offset) }
    {
        self.scanner.end()?;
        let width = self.size.width();
        match self.grid.first_unknown(self.size.lines() * width) {
            None => Ok(Picture::new(self.size, self.grid)),
            Some(i) => Err(Fault {
                offset: self.scanner.offset(),
                cause: Cause::UnknownCell {
                    row: (i / width + 1) as u16,
                    col: (i % width + 1) as u16,
                },
            }),
        }
    }
}
