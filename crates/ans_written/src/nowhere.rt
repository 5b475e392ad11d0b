//! A device that takes nothing.
ghost use Rattle.std.specs.Prelude.{[], Some};

use std::io::{self, Write};

/// A device that takes no byte, so that what is put in its outbox waits there as long as it fits.
#[derive(Drop)]
pub struct Nowhere;

impl Write for Nowhere {
    ghost contents = { λ _. Some [] };

    fn write(&mut self, _buf: &[u8]) -> io::Result<usize> {
        Ok(0)
    }

    fn flush(&mut self) -> io::Result<()> {
        Ok(())
    }
}
