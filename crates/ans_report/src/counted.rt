//! How many there are of a thing, and how often it comes.
ghost use Rattle.std.specs.Prelude.{◌≡◌, ◌==◌, [], codes, if◌then◌else◌};
ghost use Rattle.ans_report.specs.Counted.{counted_text, times_text};
ghost use Rattle.ans_write.specs.Puts.{Puts};

use ans_write::Outbox;
use std::io::Write;

fn plural(count: u64) -> &'static [u8]
    ensures { result.now ≡ (if count == 1 then [] else codes "s") }
{
    if count == 1 { b"" } else { b"s" }
}

/// Puts that many of a thing, such as `1 byte` and `2 bytes`. The name of the thing is that of one.
pub fn put_counted<W: Write>(out: &mut Outbox<'_, W>, count: u64, thing: &[u8])
    ensures { Puts W.contents out.old out.new (counted_text count thing.now) }
{
    out.put_decimal(count);
    out.put(b" ");
    out.put(thing);
    out.put(plural(count));
}

/// Puts how many times a thing comes, and the offset of the first: `once, at 5` and `3 times, first at 5`.
pub fn put_times<W: Write>(out: &mut Outbox<'_, W>, count: usize, first: usize)
    ensures { Puts W.contents out.old out.new (times_text count first) }
{
    if count == 1 {
        out.put(b"once, at ");
        out.put_decimal(first as u64);
        return;
    }
    out.put_decimal(count as u64);
    out.put(b" times, first at ");
    out.put_decimal(first as u64);
}
