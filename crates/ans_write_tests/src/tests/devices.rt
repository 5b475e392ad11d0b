//! Reads, writes and flushes, on devices of which one call fails and the next would work.
use ans_samples::{FailingOnce, Failure, Narrow};
use ans_write::{DeviceFault, Tried};
use std::io::{self, Write};
use std::process::Abort;

/// Asserts that a device took these bytes, then failed, and was not called again.
fn assert_stopped(rt: &impl Abort, device: &Tried<FailingOnce<Narrow>>, taken: &[u8]) {
    assert!(rt; device.failed() && device.inner().stopped_after(taken));
    assert!(rt; device.calls() == device.inner().calls());
}

#[test]
fn a_read_that_fails_is_not_made_again(rt: HostRuntime) {
    for failure in [Failure::Error, Failure::Interruption] {
        let input: &[u8] = b"ab";
        let mut device = Tried::new(FailingOnce::new(input, 2, failure));
        let mut byte = [0; 1];
        let first = (device.read_some(&mut byte), byte);
        assert!(rt; !device.failed());
        let second = (device.read_some(&mut byte), byte);
        assert_eq!(rt;
            [first, second],
            [(Ok(1), [b'a']), (Err(DeviceFault), [b'a'])]
        );
        assert!(rt; device.failed() && device.calls() == 2 && device.inner().calls() == 2);
    }
}

/// A read of nothing means the end of the input.
#[test]
fn a_read_of_nothing_is_no_failure(rt: HostRuntime) {
    let input: &[u8] = b"a";
    let mut device = Tried::new(FailingOnce::new(input, 1, Failure::Nothing));
    assert!(rt; device.read_some(&mut [0; 1]) == Ok(0));
    assert!(rt; !device.failed() && device.calls() == 1 && device.inner().calls() == 1);
}

#[test]
fn a_write_that_fails_is_not_made_again(rt: HostRuntime) {
    for failure in Failure::ALL {
        let mut device = Tried::new(FailingOnce::new(Narrow::new(8), 2, failure));
        let first = device.write_some(b"ab");
        assert!(rt; !device.failed());
        let second = device.write_some(b"b");
        assert_eq!(rt; [first, second], [Ok(1), Err(DeviceFault)]);
        assert_stopped(&rt, &device, b"a");
    }
}

/// A device that takes one byte a call is called once for each.
#[test]
fn all_is_written_by_short_writes(rt: HostRuntime) {
    let texts: [&[u8]; 4] = [b"", b"a", b"\x00\x1a\xff", b"16 bytes in all."];
    for bytes in texts {
        let mut device = Tried::new(Narrow::new(16));
        let written = device.write_all(bytes);
        assert_eq!(rt;
            (
                written,
                device.failed(),
                device.calls(),
                device.inner().held()
            ),
            (Ok(()), false, bytes.len() as u64, bytes)
        );
    }
}

#[test]
fn what_was_written_stands_before(rt: HostRuntime) {
    let mut device = Tried::new(Narrow::new(16));
    let texts: [&[u8]; 3] = [b"Hi", b", ", b"ho"];
    for text in texts {
        assert!(rt; !device.failed());
        assert!(rt; device.write_all(text).is_ok());
    }
    assert_eq!(rt;
        (device.calls(), device.inner().held()),
        (6, b"Hi, ho".as_slice())
    );
}

/// Each of the writes fails in turn, and in turn as an error, as interrupted and as a write of
/// nothing.
#[test]
fn no_write_follows_one_that_fails(rt: HostRuntime) {
    let bytes: &[u8] = b"sixteen letters.";
    for taken in 0..bytes.len() {
        let mut device = Tried::new(FailingOnce::after(taken));
        assert!(rt; device.write_all(bytes).is_err());
        assert_stopped(&rt, &device, &bytes[..taken]);
    }
}

/// Counts its flushes, and refuses the one of this number, counted from 1.
#[derive(Drop)]
struct Flushed {
    device: Narrow,
    refused: u64,
    flushes: u64,
}

impl Write for Flushed {
    fn write(&mut self, buf: &[u8]) -> io::Result<usize> {
        self.device.write(buf)
    }

    fn flush(&mut self) -> io::Result<()> {
        self.flushes = self.flushes.saturating_add(1);
        if self.flushes == self.refused {
            return Err(io::Error::from(io::ErrorKind::Interrupted));
        }
        Ok(())
    }
}

#[test]
fn a_flush_that_fails_is_not_made_again(rt: HostRuntime) {
    for refused in 1..4u64 {
        let mut device = Tried::new(Flushed {
            device: Narrow::new(8),
            refused,
            flushes: 0,
        });
        assert!(rt; device.write_all(b"ab").is_ok());
        for flush in 1..=refused {
            assert!(rt; !device.failed());
            assert!(rt; device.flush().is_err() == (flush == refused));
        }
        assert!(rt; device.failed() && device.calls() == refused.saturating_add(2));
        let inner = device.into_inner();
        assert!(rt; inner.flushes == refused && inner.device.held() == b"ab".as_slice());
    }
}
