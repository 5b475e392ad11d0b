//! Records that a transfer as text has made longer.
ghost use Rattle.std.specs.Prelude.{◌≡◌, ◌≤◌, length};
ghost use Rattle.ans_sauce.specs.Grown.{grown_by, pairs};

use crate::fields::RECORD_SIZE;

/// How many line feeds follow a return.
fn count_pairs(bytes: &[u8]) -> usize
    ensures count { result ≡ pairs bytes.now }
    ensures within { result ≤ length bytes.now }
{
    let mut count = 0;
    let mut last = 0;
    for byte in bytes {
        if last == b'\r' && *byte == b'\n' {
            count += 1;
        }
        last = *byte;
    }
    count
}

/// By how many returns a record is longer, if the bytes may be one in which a transfer as text put a return before each
/// line feed: they are 128 bytes and as many more as line feeds that follow a return.
pub fn grown_by(bytes: &[u8]) -> Option<usize>
    ensures { result ≡ grown_by bytes.now }
{
    let pairs = count_pairs(bytes);
    if pairs > 0 && bytes.len() - pairs == RECORD_SIZE {
        Some(pairs)
    } else {
        None
    }
}
