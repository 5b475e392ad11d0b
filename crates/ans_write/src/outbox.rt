//! Texts on their way to a device.
ghost use Rattle.std.specs.Prelude.{◌≡◌, ◌↔◌, [], false, decimal, IsTrue, IsErr, OnOk};
ghost use Rattle.ans_write.specs.Puts.{HandsOn, Puts, device_of, device_failed, waiting_of};

use crate::tried::{DeviceFault, Tried};
use arrayvec::ArrayVec;
use std::io::Write;

/// The device failed, and a prefix of the text was written.
#[derive(Debug, Clone, Copy, PartialEq, Eq)]
pub struct WriteFault;

/// How many bytes are gathered before the device is called.
const SIZE: usize = 65_536;

/// A device, and text that waits to be written to it. Text is gathered, so that the device is
/// called for large pieces. Once the device has failed, no more is written.
#[derive(Drop)]
pub struct Outbox<'a, W> {
    pub(crate) device: &'a mut Tried<W>,
    pub(crate) waiting: ArrayVec<u8, SIZE>,
}

impl<'a, W: Write> Outbox<'a, W> {
    /// An outbox of this device, where nothing waits.
    pub fn new(device: &'a mut Tried<W>) -> Outbox<'a, W>
        ensures same_device { result.device.ghost_name ≡ device.entry.ghost_name }
        ensures unchanged { device_of result ≡ device.old }
        ensures empty { waiting_of result ≡ [] }
    {
        Outbox {
            device,
            waiting: ArrayVec::new(),
        }
    }

    /// Whether the device has failed. Then what is put is dropped.
    pub fn has_failed(&self) -> bool
        ensures { result ≡ device_failed self.now }
    {
        self.device.failed()
    }

    fn flush(&mut self)
        ensures handed { HandsOn W.contents self.old self.new [] }
        ensures empty { device_failed self.new ≡ false → waiting_of self.new ≡ [] }
    {
        if self.has_failed() {
            return;
        }
        let _ = self.device.write_all(self.waiting.as_slice());
        self.waiting.clear();
    }

    /// The text that waits to be written.
    pub fn waiting(&self) -> &[u8]
        ensures { result.now ≡ waiting_of self.now }
    {
        self.waiting.as_slice()
    }

    /// Puts a text after what waits. If there is no room for it, what waits is written first.
    #[inline(always)]
    pub fn put(&mut self, text: &[u8])
        ensures { Puts W.contents self.old self.new text.now }
    {
        if self.waiting.try_extend_from_slice(text).is_err() {
            self.put_after_a_flush(text);
        }
    }

    /// Puts a text for which there is no room among what waits.
    #[inline(never)]
    fn put_after_a_flush(&mut self, text: &[u8])
        ensures { HandsOn W.contents self.old self.new text.now }
    {
        self.flush();
        if self.has_failed() {
            return;
        }
        if self.waiting.try_extend_from_slice(text).is_ok() {
            return;
        }
        let _ = self.device.write_all(text);
    }

    /// Puts a number in decimal digits.
    #[inline(always)]
    pub fn put_decimal(&mut self, number: u64)
        ensures { Puts W.contents self.old self.new (decimal number) }
    {
        let mut digits = itoa::Buffer::new();
        self.put(digits.format(number).as_bytes());
    }

    /// Writes what waits. `Err` comes exactly where the device has failed, now or before, and then a
    /// prefix of what was put was written.
    pub fn finish(&mut self) -> Result<(), WriteFault>
        ensures device { IsErr result ↔ IsTrue (device_failed self.new) }
        ensures handed { HandsOn W.contents self.old self.new [] }
        ensures empty { OnOk result (waiting_of self.new ≡ []) }
    {
        self.flush();
        if self.has_failed() {
            return Err(WriteFault);
        }
        Ok(())
    }

    /// Writes what waits, and has the device hand on what it holds back. `Err` comes exactly where the
    /// device has failed, now or before, and then a prefix of what was put was written. That the
    /// device is asked is only tested: what a flush is for, the contract of `Write` does not say.
    pub fn hand_on(&mut self) -> Result<(), WriteFault>
        ensures device { IsErr result ↔ IsTrue (device_failed self.new) }
        ensures handed { HandsOn W.contents self.old self.new [] }
        ensures empty { OnOk result (waiting_of self.new ≡ []) }
    {
        self.finish()?;
        match self.device.flush() {
            Ok(()) => Ok(()),
            Err(DeviceFault) => Err(WriteFault),
        }
    }
}
