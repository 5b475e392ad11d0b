//! How the tests of other crates try a writer.
use crate::{FailingOnce, Narrow};
use ans_write::{Outbox, Tried, WriteFault};

/// Whether a writing stops at a device that fails after these bytes, and calls it no more.
pub fn stops_after<F>(taken: &[u8], write: &F) -> bool
where
    F: Fn(&mut Tried<FailingOnce<Narrow>>) -> Result<(), WriteFault>,
    requires { F.IsAlwaysCallable write.now }
{
    let mut device = Tried::new(FailingOnce::after(taken.len()));
    let written = write(&mut device);
    written == Err(WriteFault)
        && device.failed()
        && device.inner().stopped_after(taken)
        && device.calls() == device.inner().calls()
}

/// Whether this text is written to a device that takes it all, and the writing stops at each of the
/// calls that fail.
pub fn writes<F>(text: &[u8], write: F) -> bool
where
    F: Fn(&mut Tried<FailingOnce<Narrow>>) -> Result<(), WriteFault>,
    requires { F.IsAlwaysCallable write }
{
    let mut device = Tried::new(FailingOnce::after(text.len()));
    let written = write(&mut device);
    if written.is_err() || device.failed() || device.inner().device.held() != text {
        return false;
    }
    for taken in 0..text.len() {
        if !stops_after(&text[..taken], &write) {
            return false;
        }
    }
    true
}

/// Whether this text, put into an outbox, is written to a device that takes it all, and the writing
/// stops at each of the calls that fail.
pub fn puts<F>(text: &[u8], put: F) -> bool
where
    F: Fn(&mut Outbox<'_, FailingOnce<Narrow>>),
    requires { F.IsAlwaysCallable put }
{
    writes(text, |device| {
        let mut out = Outbox::new(device);
        put(&mut out);
        out.finish()
    })
}
