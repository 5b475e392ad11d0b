//! Where plays get their screens from.

ghost use Rattle.std.specs.Prelude.{◌≡◌, ◌↔◌, ◌+◌, ◌*◌, ◌≤◌, ⊤, length, IfOk, IsOk, OnOk};
ghost use Rattle.ans_model.specs.Bytes.{longest_file, most_columns};
ghost use Rattle.ans_model.specs.Screen.State.{Size};
ghost use Rattle.ans_sauce.specs.Parts.{content_of, size_of};
ghost use Rattle.ans_screen.specs.GridEdits.{most_rows};
ghost use Rattle.ans_verdict.specs.LentScreen.{HasScreen, byte_count, row_count};
ghost use Rattle.ans_verdict.specs.ScreenRoom.{TakesRoom};
ghost use Rattle.ans_verdict.specs.StartParts.{EndsFrom};

use crate::verdict::{fault_on, play};
use ans_model::fault::Fault;
use ans_model::start::Start;
use ans_sauce::Parts;
use ans_screen::{Grid, HalfCell, LentGrid, LentRow};
use std::alloc::{AllocError, Global};
use std::marker::PhantomData;

/// Where plays get their screens from, one play after the other.
pub trait Screens {
    // where there surely is room for a play of this size, and where there may be none
    ghost has_room: { Self → Size → Type 0 };

    ghost may_lack: { Self → Size → Type 0 };

    /// The first fault, or else the last one, that the parts' content has from the starts of a class, if
    /// it has any. `Err` says that there is no room for its screen.
    fn fault_from(&mut self, parts: &Parts<'_>, start: Start) -> Result<Option<Fault>, AllocError>
        requires { length (content_of parts.now) ≤ longest_file }
        ensures fault { IfOk result (EndsFrom (size_of parts.now) (content_of parts.now) start) }
        ensures room { TakesRoom has_room may_lack (size_of parts.now) self.old self.new result };
}

/// A new screen for each play.
#[derive(Drop)]
pub struct NewScreens<G> {
    alloc: Global,
    of: PhantomData<G>,
}

impl<G: Grid> NewScreens<G> {
    /// Screens that ask this allocator for memory. A play fails where that runs out.
    pub fn new(alloc: Global) -> NewScreens<G> {
        NewScreens {
            alloc,
            of: PhantomData,
        }
    }
}

impl<G: Grid> Screens for NewScreens<G> {
    ghost has_room = { λ s z. ⊥ };

    ghost may_lack = { λ s z. ⊤ };

    fn fault_from(&mut self, parts: &Parts<'_>, start: Start) -> Result<Option<Fault>, AllocError> {
        let end = play::<G>(self.alloc, parts, start)?;
        Ok(end.err())
    }
}

/// One memory that is lent, for all plays.
#[derive(Drop)]
pub struct LentScreens<'a> {
    rows: &'a mut [LentRow],
    bytes: &'a mut [u8],
}

impl<'a> LentScreens<'a> {
    /// Screens on these rows and bytes. A play fails where they are too few for its screen.
    pub fn new(rows: &'a mut [LentRow], bytes: &'a mut [u8]) -> LentScreens<'a>
        ensures rows { row_count result ≡ length rows.old }
        ensures bytes { byte_count result ≡ length bytes.old }
    {
        LentScreens { rows, bytes }
    }
}

impl<'a> Screens for LentScreens<'a> {
    ghost has_room = { λ s z. HasScreen z (row_count s) (byte_count s) };

    ghost may_lack = { λ s z. ¬ HasScreen z (row_count s) (byte_count s) };

    fn fault_from(&mut self, parts: &Parts<'_>, start: Start) -> Result<Option<Fault>, AllocError> {
        fault_on_lent(self.rows, self.bytes, parts, start)
    }
}

/// The fault of a play on memory that is lent. `Err` says that it has no room for its screen.
fn fault_on_lent(
    rows: &mut [LentRow],
    bytes: &mut [u8],
    parts: &Parts<'_>,
    start: Start,
) -> Result<Option<Fault>, AllocError>
    requires { length (content_of parts.now) ≤ longest_file }
    ensures fault { IfOk result (EndsFrom (size_of parts.now) (content_of parts.now) start) }
    ensures room { IsOk result ↔ HasScreen (size_of parts.now) (length rows.old) (length bytes.old) }
{
    let screen = LentGrid::on(
        rows,
        bytes,
        parts.width(),
        parts.lines() + 1,
        HalfCell::unknown(),
    );
    match screen {
        Some(screen) => Ok(fault_on(screen, parts, start)),
        None => Err(AllocError),
    }
}

/// Screens on one memory for all plays. More is asked for if a play needs more than there is.
#[derive(Drop)]
pub struct KeptScreens {
    alloc: Global,
    rows: Vec<LentRow>,
    bytes: Vec<u8>,
}

impl KeptScreens {
    /// Asks for no memory yet.
    pub fn new(alloc: Global) -> KeptScreens {
        KeptScreens {
            alloc,
            rows: Vec::new(alloc),
            bytes: Vec::new(alloc),
        }
    }

    /// Sees to room for a screen. What there is and is too small is given back first.
    fn make_room(&mut self, width: usize, rows: usize) -> Result<(), AllocError>
        requires width { width ≤ most_columns }
        requires rows { rows ≤ most_rows }
        ensures rows { OnOk result (rows ≤ length self.new.rows.items) }
        ensures bytes { OnOk result (4 * (width * rows) ≤ length self.new.bytes.items) }
    {
        if self.rows.len() < rows {
            self.rows = Vec::new(self.alloc);
            self.rows = vec![in self.alloc; LentRow::new(); rows]?;
        }
        let count = 4 * (width * rows);
        if self.bytes.len() < count {
            self.bytes = Vec::new(self.alloc);
            self.bytes = vec![in self.alloc; 0; count]?;
        }
        Ok(())
    }
}

impl Screens for KeptScreens {
    ghost has_room = { λ s z. ⊥ };

    ghost may_lack = { λ s z. ⊤ };

    fn fault_from(&mut self, parts: &Parts<'_>, start: Start) -> Result<Option<Fault>, AllocError> {
        self.make_room(parts.width(), parts.lines() + 1)?;
        let mut lent = LentScreens::new(self.rows.as_mut_slice(), self.bytes.as_mut_slice());
        lent.fault_from(parts, start)
    }
}

/// Screens for the plays of one file: a new one for the first play, of which only what is written is
/// touched, and one memory for all that follow.
#[derive(Drop)]
pub struct FileScreens<G> {
    first: Option<NewScreens<G>>,
    others: KeptScreens,
}

impl<G: Grid> FileScreens<G> {
    /// Asks for no memory yet.
    pub fn new(alloc: Global) -> FileScreens<G> {
        FileScreens {
            first: Some(NewScreens::new(alloc)),
            others: KeptScreens::new(alloc),
        }
    }
}

impl<G: Grid> Screens for FileScreens<G> {
    ghost has_room = { λ s z. ⊥ };

    ghost may_lack = { λ s z. ⊤ };

    fn fault_from(&mut self, parts: &Parts<'_>, start: Start) -> Result<Option<Fault>, AllocError> {
        match self.first.take() {
            Some(mut screens) => screens.fault_from(parts, start),
            None => self.others.fault_from(parts, start),
        }
    }
}
