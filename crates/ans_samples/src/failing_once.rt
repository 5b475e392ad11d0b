//! A device that fails once.

ghost use Rattle.std.specs.Prelude.{◌≡◌, ◌↔◌, ◌+◌, [], min, IsTrue, IfOk};

use crate::narrow::Narrow;
use std::io::{self, Read, Write};

/// How a call fails.
#[derive(Debug, Clone, Copy, PartialEq, Eq)]
pub enum Failure {
    /// It returns an error.
    Error,
    /// It returns the error of an interrupted call, which many callers make again.
    Interruption,
    /// It gives or takes no byte.
    Nothing,
}

impl Failure {
    /// The ways in which a write fails.
    pub const ALL: [Failure; 3] = [Failure::Error, Failure::Interruption, Failure::Nothing];

    fn returned(self) -> io::Result<usize>
        ensures { IfOk result (λ n. n ≡ 0) }
    {
        match self {
            Failure::Error => Err(io::Error::from(io::ErrorKind::Other)),
            Failure::Interruption => Err(io::Error::from(io::ErrorKind::Interrupted)),
            Failure::Nothing => Ok(0),
        }
    }
}

/// A reader or writer of which one call fails. The calls before and after it work. It counts its
/// calls.
#[derive(Clone, Copy, Drop)]
pub struct FailingOnce<D> {
    /// The device that the other calls go to.
    pub device: D,
    /// The number of the call that fails, counted from 1.
    pub failing_call: u64,
    /// How it fails.
    pub failure: Failure,
    calls: u64,
}

impl<D> FailingOnce<D> {
    ghost use Rattle.ans_samples.specs.FailingOnce.{calls_of};

    /// A device before its first call. The call of this number, counted from 1, will fail.
    pub fn new(device: D, failing_call: u64, failure: Failure) -> FailingOnce<D>
        ensures device { result.device ≡ device }
        ensures failing_call { result.failing_call ≡ failing_call }
        ensures failure { result.failure ≡ failure }
        ensures calls { calls_of result ≡ 0 }
    {
        FailingOnce {
            device,
            failing_call,
            failure,
            calls: 0,
        }
    }

    /// How many calls were made of it. The count stays at the greatest `u64`.
    pub fn calls(&self) -> u64
        ensures { result ≡ calls_of self.now }
    {
        self.calls
    }

    /// Counts a call, and returns how it fails, if it does.
    fn next_call(&mut self) -> Option<Failure> {
        self.calls = self.calls.saturating_add(1);
        if self.calls == self.failing_call {
            Some(self.failure)
        } else {
            None
        }
    }
}

impl FailingOnce<Narrow> {
    ghost use Rattle.ans_samples.specs.FailingOnce.{calls_of};
    ghost use Rattle.ans_samples.specs.Held.{held_of};

    /// A device that takes this many bytes, one a call, then fails once, and would then take more. The
    /// ways of failing take turns as the number grows.
    pub fn after(taken: usize) -> FailingOnce<Narrow>
        ensures empty { held_of result.device ≡ [] }
        ensures failing_call { result.failing_call ≡ min (taken + 1) u64.MAX }
        ensures calls { calls_of result ≡ 0 }
    {
        let failing_call = (taken as u64).saturating_add(1);
        let failure = Failure::ALL[taken % Failure::ALL.len()];
        FailingOnce::new(Narrow::new(4096), failing_call, failure)
    }

    /// Whether it took these bytes, then failed, and was not called again.
    pub fn stopped_after(&self, taken: &[u8]) -> bool
        ensures { IsTrue result ↔ (held_of self.now.device ≡ taken.now) × (calls_of self.now ≡ self.now.failing_call) }
    {
        self.device.held() == taken && self.calls == self.failing_call
    }
}

impl<R: Read> Read for FailingOnce<R> {
    fn read(&mut self, buf: &mut [u8]) -> io::Result<usize> {
        match self.next_call() {
            Some(failure) => failure.returned(),
            None => self.device.read(buf),
        }
    }
}

impl<W: Write> Write for FailingOnce<W> {
    fn write(&mut self, buf: &[u8]) -> io::Result<usize> {
        match self.next_call() {
            Some(failure) => failure.returned(),
            None => self.device.write(buf),
        }
    }

    fn flush(&mut self) -> io::Result<()> {
        self.device.flush()
    }
}
