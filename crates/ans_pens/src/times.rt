//! How often something comes.

ghost use Rattle.std.specs.Prelude.{◌≡◌, ◌+◌, ◌≤◌};
ghost use Rattle.ans_model.specs.Bytes.{longest_file};
ghost use Rattle.ans_pens.specs.Counted.{count_of, counted, counted_times};

/// How many times something comes, at least one, and the offset of the first in bytes from the
/// content's start.
#[derive(Debug, Clone, Copy, PartialEq, Eq)]
pub struct Times {
    pub count: usize,
    pub first: usize,
}

/// One time more if it comes at this offset.
#[inline(always)]
pub fn count(times: &mut Option<Times>, comes: bool, offset: usize)
    requires { count_of times.old ≤ longest_file }
    ensures value { times.new ≡ counted times.old comes offset }
    ensures within { count_of times.new ≤ count_of times.old + 1 }
{
    if !comes {
        return;
    }
    match times {
        None => {
            *times = Some(Times {
                count: 1,
                first: offset,
            })
        }
        Some(times) => times.count += 1,
    }
}

/// This many times more, if it comes at each byte from this offset on.
#[inline(always)]
pub fn count_times(times: &mut Option<Times>, comes: bool, more: usize, offset: usize)
    requires { count_of times.old + more ≤ longest_file }
    ensures value { times.new ≡ counted_times times.old comes more offset }
    ensures within { count_of times.new ≤ count_of times.old + more }
{
    if !comes || more == 0 {
        return;
    }
    match times {
        None => {
            *times = Some(Times {
                count: more,
                first: offset,
            })
        }
        Some(times) => times.count += more,
    }
}

/// How many times something comes, 0 if it never does.
pub fn count_of(times: Option<Times>) -> usize
    ensures { result ≡ count_of times }
{
    match times {
        Some(times) => times.count,
        None => 0,
    }
}
