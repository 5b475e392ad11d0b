//! Files in memory by their names, and standard input.

ghost use Rattle.std.specs.Prelude.{⊤};

use ans_check::Inputs;
use std::io::{self, Read};

/// A file in memory.
#[derive(Drop)]
pub(crate) struct Stored {
    pub bytes: Vec<u8>,
    /// Whether reading fails after the bytes.
    pub torn: bool,
}

/// Reads a file in memory.
#[derive(Clone, Copy)]
pub(crate) struct Reading<'a> {
    left: &'a [u8],
    torn: bool,
}

impl<'a> Reading<'a> {
    fn of(stored: &'a Stored) -> Reading<'a> {
        Reading {
            left: stored.bytes.as_slice(),
            torn: stored.torn,
        }
    }
}

impl Read for Reading<'_> {
    fn read(&mut self, buf: &mut [u8]) -> io::Result<usize> {
        if self.torn && self.left.is_empty() {
            return Err(io::Error::from(io::ErrorKind::Other));
        }
        self.left.read(buf)
    }
}

/// Files by their names, and standard input.
#[derive(Clone, Copy)]
pub(crate) struct Shelf<'a> {
    pub files: &'a [(&'a str, Stored)],
    pub standard: &'a Stored,
}

impl<'a> Inputs for Shelf<'a> {
    type Reader = Reading<'a>;

    ghost is_file = { λ _ _ _. ⊤ };

    ghost is_standard = { λ _ _. ⊤ };

    ghost fails = { λ _ _ _. ⊤ };

    fn file(self, name: &str) -> io::Result<Reading<'a>> {
        for (held, stored) in self.files {
            if *held == name {
                return Ok(Reading::of(stored));
            }
        }
        Err(io::Error::from(io::ErrorKind::NotFound))
    }

    fn standard(self) -> Reading<'a> {
        Reading::of(self.standard)
    }
}
