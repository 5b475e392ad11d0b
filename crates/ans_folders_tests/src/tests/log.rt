//! A visitor that writes down what it is handed.

ghost use Rattle.std.specs.Prelude.{⊤};

use ans_folders::{Unread, Visitor};
use std::alloc::{AllocError, Global};

/// What a visitor was handed, a line each. It stops at the line of this number, counted from 0.
#[derive(Drop)]
pub(crate) struct Log {
    pub(crate) text: String,
    lines: usize,
    stops_at: usize,
}

/// Why the log stops: it is long enough, or there is no memory for it.
#[derive(Debug, Clone, Copy, PartialEq, Eq)]
pub(crate) enum Stop {
    Long,
    Memory,
}

impl Log {
    pub(crate) fn new(alloc: Global, stops_at: usize) -> Log {
        Log {
            text: String::new(alloc),
            lines: 0,
            stops_at,
        }
    }

    fn write(&mut self, what: &str, path: &str) -> Result<(), AllocError> {
        self.text.push_str(what)?;
        self.text.push_str(" ")?;
        self.text.push_str(path)?;
        self.text.push_str("\n")
    }

    fn put(&mut self, what: &str, path: &str) -> Result<(), Stop> {
        if self.lines >= self.stops_at {
            return Err(Stop::Long);
        }
        self.lines += 1;
        match self.write(what, path) {
            Ok(()) => Ok(()),
            Err(AllocError) => Err(Stop::Memory),
        }
    }
}

impl Visitor for Log {
    type Stop = Stop;

    ghost takes = { λ _ _ _. ⊤ };

    ghost stops = { λ _ _ _ _. ⊤ };

    fn file(&mut self, path: &str) -> Result<(), Stop> {
        self.put("file", path)
    }

    fn passed(&mut self, path: &str) -> Result<(), Stop> {
        self.put("passed", path)
    }

    fn unreadable(&mut self, path: &str, why: Unread) -> Result<(), Stop> {
        match why {
            Unread::NameNotText => self.put("not text", path),
            Unread::Failed(_) => self.put("failed", path),
        }
    }
}
