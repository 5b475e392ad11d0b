//! A device that takes little at a time.

ghost use Rattle.std.specs.Prelude.{◌≡◌, ◌≤◌, [], length, min};
ghost use Rattle.ans_samples.specs.declared.narrow.TheConstants.{SIZE};

use std::io::{self, Write};

/// The most bytes that it has room for.
const SIZE: usize = 4096;

/// A writer that takes one byte a call, and fails once it is full.
#[derive(Drop)]
pub struct Narrow {
    held: [u8; SIZE],
    length: usize,
    room: usize,
    ghost within: { length ≤ SIZE },
}

impl Narrow {
    ghost use Rattle.ans_samples.specs.Held.{held_of, room_of};

    /// An empty writer with room for this many bytes, at most 4096.
    pub fn new(room: usize) -> Narrow
        ensures empty { held_of result ≡ [] }
        ensures room { room_of result ≡ min room SIZE }
    {
        Narrow {
            held: [0; SIZE],
            length: 0,
            room: room.min(SIZE),
        }
    }

    /// The bytes that it has taken.
    pub fn held(&self) -> &[u8]
        ensures taken { result.now ≡ held_of self.now }
        ensures most { length result.now ≤ SIZE }
    {
        &self.held[..self.length]
    }
}

impl Write for Narrow {
    fn write(&mut self, buf: &[u8]) -> io::Result<usize> {
        if self.length >= self.room || self.length >= SIZE {
            return Err(io::Error::from(io::ErrorKind::Other));
        }
        match buf.first() {
            Some(byte) => {
                self.held[self.length] = *byte;
                self.length += 1;
                Ok(1)
            }
            None => Ok(0),
        }
    }

    fn flush(&mut self) -> io::Result<()> {
        Ok(())
    }
}
