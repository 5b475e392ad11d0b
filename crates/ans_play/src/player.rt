//! The play of the content, which is fed in pieces.

ghost use Rattle.std.specs.Prelude.{◌≡◌, ◌+◌, ◌-◌, ◌≤◌, ℕ, List, [], length, Some, None, IfOk, IfErr, OnOk};
ghost use Rattle.ans_model.specs.Bytes.{most_columns, most_lines, longest_file};
ghost use Rattle.ans_model.specs.Screen.State.{sized};
ghost use Rattle.ans_screen.specs.GridEdits.{most_rows};

use crate::picture::Picture;
use crate::play::Play;
use ans_model::fault::Fault;
use ans_model::start::Start;
use ans_screen::{Grid, HalfCell, Screen};
use std::alloc::{AllocError, Global};
use std::marker::Model;

/// The play of the bytes fed so far from every start of a class. It ends at the first fault.
#[derive(Drop)]
pub struct Player<G: Screen> {
    start: Start,
    fed: usize,
    fault: Option<Fault>,
    play: Play<G>,
}

impl<G: Screen> Model for Player<G> {
    ghost use Rattle.ans_play.specs.PlayerView.{PlayerView, player_view, IsPlayerView};

    ghost Value = { PlayerView };

    ghost view = { λ p. player_view p.start p.fed p.fault p.play };

    ghost invariant = { λ p. IsPlayerView (player_view p.start p.fed p.fault p.play) };
}

impl<G: Grid> Player<G> {
    ghost use Rattle.ans_play.specs.Stands.{IsNew, Stands};

    /// A player of a width, 1 to 1024 columns, and a number of lines, 1 to 8192, from the starts of a
    /// class, to which nothing is fed yet. It fails where memory runs out.
    pub fn new(
        alloc: Global,
        width: usize,
        lines: usize,
        start: Start,
    ) -> Result<Player<G>, AllocError>
        requires some_columns { 1 ≤ width }
        requires columns { width ≤ most_columns }
        requires some_lines { 1 ≤ lines }
        requires lines { lines ≤ most_lines }
        ensures new { IfOk result (λ p. IsNew p (sized width lines) start) }
        ensures stands { IfOk result (λ p. Stands p []) }
    {
        let grid = G::new(alloc, width, lines + 1, HalfCell::unknown())?;
        Ok(Player::on(grid, start))
    }
}

impl<G: Screen> Player<G> {
    ghost use Rattle.ans_model.specs.declared.fault.Fault.{Fault};
    ghost use Rattle.ans_play.specs.Stands.{IsNew, IsFed, IsStopped, Repeats, SamePlay, Stands, Feeds, Finishes};

    /// A player from the starts of a class on a grid that is there already, to which nothing is fed yet. It has the
    /// grid's columns, 1 to 1024, and one line fewer than it has rows, 1 to 8192. Each cell is set to the start's,
    /// whatever the grid held. It asks for no memory.
    pub fn on(grid: G, start: Start) -> Player<G>
        requires some_columns { 1 ≤ G.width_of grid }
        requires columns { G.width_of grid ≤ most_columns }
        requires some_lines { 2 ≤ G.rows_of grid }
        requires lines { G.rows_of grid ≤ most_rows }
        ensures new { IsNew result (sized (G.width_of grid) (G.rows_of grid - 1)) start }
        ensures stands { Stands result [] }
    {
        Player {
            start,
            fed: 0,
            fault: None,
            play: Play::on(grid, start),
        }
    }

    /// The number of bytes of all pieces that were fed without a fault. It is at most 16,777,216.
    pub fn fed(&self) -> usize
        ensures fed { result ≡ self.now.fed }
        ensures in_limit { result ≤ longest_file }
    {
        self.fed
    }

    /// Plays a piece after the bytes fed so far. `Ok` says that all these bytes have no first fault.
    /// An error is their first fault, at its offset from the first byte fed, which is at most the
    /// number of the bytes. The rest of the piece is then not looked at, and every later call returns
    /// that fault. All pieces together have at most 16,777,216 bytes.
    pub fn feed(&mut self, piece: &[u8]) -> Result<(), Fault>
        requires { self.old.fed + length piece.now ≤ longest_file }
        ensures same { SamePlay self.old self.new }
        ensures ok { OnOk result (IsFed self.old self.new (length piece.now)) }
        ensures stopped { IfErr result (IsStopped self.old self.new) }
        ensures repeats { (f : Fault) → self.old.fault ≡ Some f
            → Repeats self.old self.new result f }
        ensures fed { (s : List ℕ) → Stands self.old s
            → Feeds self.old s piece.now self.new result }

        ensures within { self.old.fault ≡ None
            → IfErr result (λ fault. fault.offset ≤ self.old.fed + length piece.now) }
        ensures in_limit { IfErr result (λ fault. fault.offset ≤ longest_file) }
    {
        if let Some(fault) = self.fault {
            return Err(fault);
        }
        let mut played = 0;
        while played < piece.len() {
            match self.play.advance(&piece[played..]) {
                Ok(count) => played += count,
                Err(fault) => {
                    self.fault = Some(fault);
                    return Err(fault);
                }
            }
        }
        self.fed += piece.len();
        Ok(())
    }

    /// The picture that every play of the bytes shows. An error is the fault of an earlier feed; else
    /// F12, where the bytes end in a sequence, at its offset; else F25, the first cell of the stated
    /// lines that stays unknown, its row and column counted from 1, at the number of bytes fed.
    pub fn finish(self) -> Result<Picture<G>, Fault>
        ensures repeats { (f : Fault) → self.fault ≡ Some f → result ≡ Err f }
        ensures finished { (s : List ℕ) → Stands self s → Finishes self s result }

        ensures within { self.fault ≡ None → IfErr result (λ fault. fault.offset ≤ self.fed) }
        ensures in_limit { IfErr result (λ fault. fault.offset ≤ longest_file) }
    {
        if let Some(fault) = self.fault {
            return Err(fault);
        }
        self.play.finish()
    }
}
