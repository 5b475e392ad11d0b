//! Writes of all of some bytes, which may take several calls.
//!
//! They are kept out of `tried.rt`, whose fields cannot be reached from here. So a device is only
//! called by `write_some`, which must not be given one that has failed.
ghost use Rattle.std.specs.Prelude.{◌≡◌, ◌+◌, ◌≤◌, ◌↔◌, false, length, IsTrue, IsErr};
ghost use Rattle.ans_write.specs.Tried.{has_failed, call_count, inner_of};
ghost use Rattle.ans_write.specs.Writes.{AppendsUnless};

use crate::tried::{DeviceFault, Tried};
use std::io::Write;

impl<W: Write> Tried<W> {
    /// Makes one write after the other until all the bytes are taken. Where there are none, it makes no call.
    ///
    /// `Err` comes exactly where a write failed or took no byte, and then `failed()` is true, and a
    /// prefix of the bytes was taken. After such a write no other is made.
    pub fn write_all(&mut self, bytes: &[u8]) -> Result<(), DeviceFault>
        requires works { has_failed self.old ≡ false }
        ensures device { IsErr result ↔ IsTrue (has_failed self.new) }
        ensures no_fewer_calls { call_count self.old ≤ call_count self.new }
        ensures a_call_a_byte { call_count self.new ≤ call_count self.old + length bytes.now }
        ensures bytes { AppendsUnless (has_failed self.new)
            (W.contents (inner_of self.old)) (W.contents (inner_of self.new)) bytes.now }
    {
        let mut written = 0;
        while written < bytes.len() {
            let taken = self.write_some(&bytes[written..])?;
            written += taken;
        }
        Ok(())
    }
}
