//! How many of the bytes of a run are seen.

ghost use Rattle.std.specs.Prelude.{◌≡◌, ◌+◌, ◌≤◌, length};
ghost use Rattle.ans_model.specs.Bytes.{longest_file};
ghost use Rattle.ans_pens.specs.Counted.{count_of, counted_along, so_many};
ghost use Rattle.ans_hints.specs.Walks.{dark_at, seen_at};

use crate::conditions::is_seen;
use ans_pens::times::{Times, count};

/// How many bytes a piece of a run has at most: so few that a byte counts them, and many are looked at at
/// once.
const PIECE: usize = 240;

/// How many of the bytes of a piece are seen.
fn seen_in_piece(piece: &[u8]) -> u8
    requires { length piece.now ≤ 240 }
    ensures count { result ≡ so_many (seen_at piece.now) (length piece.now) }
    ensures within { result ≤ length piece.now }
{
    let mut seen = 0u8;
    for i in 0..piece.len() {
        seen += u8::from(is_seen(piece[i]));
    }
    seen
}

/// How many of the bytes are seen.
fn seen_in(run: &[u8]) -> usize
    ensures count { result ≡ so_many (seen_at run.now) (length run.now) }
    ensures within { result ≤ length run.now }
{
    let mut seen = 0;
    let mut at = 0;
    while at < run.len() {
        let end = run.len().min(at + PIECE);
        seen += usize::from(seen_in_piece(&run[at..end]));
        at = end;
    }
    seen
}

/// The first of them is looked for.
#[cold]
#[inline(never)]
fn count_first_seen(times: &mut Option<Times>, run: &[u8], offset: usize)
    requires room { offset + length run.now ≤ longest_file }
    requires few { count_of times.old + length run.now ≤ longest_file }
    ensures value { times.new ≡ counted_along times.old (seen_at run.now) offset (length run.now) }
    ensures within { count_of times.new ≤ count_of times.old + length run.now }
{
    for i in 0..run.len() {
        count(times, is_seen(run[i]), offset + i);
    }
}

/// Counts those of the bytes that are seen, the first of which is at this offset.
#[inline(always)]
pub(crate) fn count_seen(times: &mut Option<Times>, run: &[u8], offset: usize)
    requires room { offset + length run.now ≤ longest_file }
    requires few { count_of times.old + length run.now ≤ longest_file }
    ensures value { times.new ≡ counted_along times.old (seen_at run.now) offset (length run.now) }
    ensures within { count_of times.new ≤ count_of times.old + length run.now }
{
    match times {
        Some(times) => times.count += seen_in(run),
        None => count_first_seen(times, run, offset),
    }
}

/// The same where the attribute is dark grey on black.
#[inline(always)]
pub(crate) fn count_dark(times: &mut Option<Times>, attribute: u8, run: &[u8], offset: usize)
    requires room { offset + length run.now ≤ longest_file }
    requires few { count_of times.old + length run.now ≤ longest_file }
    ensures value { times.new ≡ counted_along times.old (dark_at run.now attribute) offset (length run.now) }
    ensures within { count_of times.new ≤ count_of times.old + length run.now }
{
    if attribute == 0x08 {
        count_seen(times, run, offset);
    }
}
