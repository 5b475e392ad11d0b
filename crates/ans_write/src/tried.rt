//! A reader or writer that counts its calls and remembers whether one failed.
ghost use Rattle.std.specs.Prelude.{◌≡◌, ◌+◌, ◌-◌, ◌<◌, ◌≤◌, ◌↔◌, false, min, length, IsTrue, IsErr, IfOk};
ghost use Rattle.std.specs.Io.{ReadsAtMost};
ghost use Rattle.std.specs.Io.KnownBytes.{Keeps, ReadConsumes, WriteAppends};
ghost use Rattle.ans_write.specs.Tried.{has_failed, call_count, inner_of};

use std::io::{Read, Write};
use std::mem;

/// A reader or writer, whether it has failed, and how many calls of it were made.
#[derive(Debug, Drop)]
pub struct Tried<T> {
    inner: T,
    failed: bool,
    calls: u64,
}

/// The device failed: its call returned an error, or a write took no byte. An interrupted call
/// counts as failed.
#[derive(Debug, Clone, Copy, PartialEq, Eq)]
pub struct DeviceFault;

impl<T> Tried<T> {
    /// The device, which has not failed, before any call.
    pub fn new(inner: T) -> Tried<T>
        ensures inner { inner_of result ≡ inner }
        ensures failed { has_failed result ≡ false }
        ensures calls { call_count result ≡ 0 }
    {
        Tried {
            inner,
            failed: false,
            calls: 0,
        }
    }

    /// Whether a call has failed.
    pub fn failed(&self) -> bool
        ensures { result ≡ has_failed self.now }
    {
        self.failed
    }

    /// How many calls were made of the device. The count stays at the greatest `u64`.
    pub fn calls(&self) -> u64
        ensures { result ≡ call_count self.now }
    {
        self.calls
    }

    /// The device.
    pub fn inner(&self) -> &T
        ensures { result.now ≡ inner_of self.now }
    {
        &self.inner
    }

    /// The device, by value.
    pub fn into_inner(self) -> T
        ensures { result ≡ inner_of self }
    {
        let Tried {
            inner,
            failed: _,
            calls: _,
        } = self;
        inner
    }
}

impl<R: Read> Tried<R> {
    /// Makes one read, and returns how many bytes came. None came where the input is at its end.
    ///
    /// `Err` comes exactly where the read failed, and then `failed()` is true.
    pub fn read_some(&mut self, buf: &mut [u8]) -> Result<usize, DeviceFault>
        requires room { 0 < length buf.old }
        requires works { has_failed self.old ≡ false }
        ensures device { IsErr result ↔ IsTrue (has_failed self.new) }
        ensures calls { call_count self.new ≡ min (call_count self.old + 1) u64.MAX }
        ensures bound { ReadsAtMost result buf.new }
        ensures bytes { ReadConsumes (R.remaining (inner_of self.old))
            (R.remaining (inner_of self.new)) result buf.new }
    {
        self.calls = self.calls.saturating_add(1);
        match self.inner.read(buf) {
            Ok(n) => Ok(n),
            Err(_) => {
                self.failed = true;
                Err(DeviceFault)
            }
        }
    }
}

impl<W: Write> Tried<W> {
    /// Makes one write, and returns how many bytes it took, which is at least one.
    ///
    /// `Err` comes exactly where the write failed or took no byte, and then `failed()` is true.
    pub fn write_some(&mut self, bytes: &[u8]) -> Result<usize, DeviceFault>
        requires some { 0 < length bytes.now }
        requires works { has_failed self.old ≡ false }
        ensures device { IsErr result ↔ IsTrue (has_failed self.new) }
        ensures calls { call_count self.new ≡ min (call_count self.old + 1) u64.MAX }
        ensures bound { IfOk result (λ n. (0 < n) × (n ≤ length bytes.now)) }
        ensures bytes { WriteAppends (W.contents (inner_of self.old))
            (W.contents (inner_of self.new)) result bytes.now }
    {
        self.calls = self.calls.saturating_add(1);
        match self.inner.write(bytes) {
            Ok(n) if n > 0 => Ok(n),
            // not freed, so that a device in memory needs no heap; a device fails once at most
            failure => {
                mem::forget(failure);
                self.failed = true;
                Err(DeviceFault)
            }
        }
    }

    /// Makes one flush. The bytes that the device holds stay as they are.
    ///
    /// `Err` comes exactly where the flush failed, and then `failed()` is true. Only tests show that
    /// the device is asked: what a flush is for, the contract of `Write` does not say.
    pub fn flush(&mut self) -> Result<(), DeviceFault>
        requires works { has_failed self.old ≡ false }
        ensures device { IsErr result ↔ IsTrue (has_failed self.new) }
        ensures calls { call_count self.new ≡ min (call_count self.old + 1) u64.MAX }
        ensures bytes { Keeps (W.contents (inner_of self.old)) (W.contents (inner_of self.new)) }
    {
        self.calls = self.calls.saturating_add(1);
        if self.inner.flush().is_err() {
            self.failed = true;
            return Err(DeviceFault);
        }
        Ok(())
    }
}
