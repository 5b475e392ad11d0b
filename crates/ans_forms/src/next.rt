//! The next sequence that goes.

ghost use Rattle.std.specs.Prelude.{◌≡◌, ◌≤◌, IfNone, IfSome, length};
ghost use Rattle.std.specs.List.{list_any};
ghost use Rattle.ans_model.specs.Bytes.{longest_file};
ghost use Rattle.ans_model.specs.Inside.ShownKind.{shown_kind};
ghost use Rattle.ans_model.specs.Sequence.Spelling.{is_quote};
ghost use Rattle.ans_tokens.specs.Walk.{HasNoReading};
ghost use Rattle.ans_forms.specs.Here.{IsForm, IsGoingHere, IsTokenHere, NoneGoesHere, ends_plainly, is_keys};
ghost use Rattle.ans_forms.specs.Unwanted.{IsNextGoing, NothingMore, unwanted_form};

use crate::kinds::{Before, Going, Unwanted, stays};
use crate::table::unwanted_form;
use ans_model::fault::{Cause, Fault};
use ans_model::kind::Kind;
use ans_tokens::{Token, Walker, walk};

/// A walk over tokens that stay, and the token at which it stops.
#[derive(Clone, Copy)]
struct Keeping {
    before: Before,
    /// Where the token begins.
    place: usize,
    /// How many bytes it has.
    length: usize,
    /// Whether it reassigns a key.
    is_keys: bool,
}

fn is_keys(kind: &Kind) -> bool
    ensures { result ≡ is_keys (shown_kind kind.now) }
{
    matches!(kind, Kind::Keys)
}

impl Walker for Keeping {
    ghost use Rattle.ans_forms.specs.Keeping.{HasKept};

    ghost ready = { λ keeping offset. Unit {0} };

    ghost walked = { λ first front now goes_on. HasKept first.before front now goes_on };

    ghost takes = { λ keeping count. Unit {0} };

    #[inline(always)]
    fn token(&mut self, token: &Token, _behind: &[u8]) -> bool {
        let kind = token.kind();
        if stays(kind) {
            self.before = self.before.with(kind);
            return true;
        }
        self.place = token.start();
        self.length = token.length();
        self.is_keys = is_keys(kind);
        false
    }

    #[inline(always)]
    fn room(&self) -> usize {
        usize::MAX
    }

    #[inline(always)]
    fn take(&mut self, _run: &[u8], _offset: usize) {
        self.before = self.before.with_glyphs();
    }
}

/// What goes by its form, where this is left from the place on.
fn going_form(left: &[u8], place: usize, before: Before) -> Option<Going>
    ensures some { IfSome result (IsForm before left.now place) }
    ensures none { IfNone result (unwanted_form before left.now ≡ None) }
{
    let (kind, behind) = unwanted_form(left, before)?;
    Some(Going {
        kind,
        place,
        length: left.len() - behind.len(),
    })
}

/// What goes where a walk stops at a token, from which on this is left.
fn going_token(left: &[u8], stopped: &Keeping) -> Option<Going>
    requires { IsTokenHere left.now stopped.now.length stopped.now.is_keys }
    ensures some { IfSome result (IsGoingHere stopped.now.before left.now stopped.now.place) }
    ensures none { IfNone result (NoneGoesHere stopped.now.before left.now) }
{
    if stopped.is_keys {
        return Some(Going {
            kind: Unwanted::ReassignedKey,
            place: stopped.place,
            length: stopped.length,
        });
    }
    going_form(left, stopped.place, stopped.before)
}

fn has_quote(bytes: &[u8]) -> bool
    ensures { result ≡ list_any is_quote bytes.now }
{
    bytes.iter().any(|byte| *byte == b'"' || *byte == b'\'')
}

/// Whether the bytes have this fault since they end in a sequence, and have no quote.
fn ends_plainly(bytes: &[u8], cause: &Cause) -> bool
    ensures { result ≡ ends_plainly cause.now bytes.now }
{
    matches!(cause, Cause::EndInSequence) && !has_quote(bytes)
}

/// What goes where the reading refuses what is left.
fn going_fault(left: &[u8], fault: &Fault, before: Before) -> Option<Going>
    requires { HasNoReading left.now fault.now.cause }
    ensures some { IfSome result (IsGoingHere before left.now fault.now.offset) }
    ensures none { IfNone result (NoneGoesHere before left.now) }
{
    if let Some(going) = going_form(left, fault.offset, before) {
        return Some(going);
    }
    if !ends_plainly(left, &fault.cause) {
        return None;
    }
    Some(Going {
        kind: Unwanted::Unfinished,
        place: fault.offset,
        length: left.len(),
    })
}

/// The next sequence that goes, in bytes that come after what `before` describes. Its place is counted from their
/// start, and `before` then describes what comes before the byte that follows it. None if nothing goes: up to the end,
/// or up to what is refused and is none of the kinds, or may not go there; `before` then describes what comes before
/// that. The bytes before the sequence are read once, and no memory is needed.
pub fn next_unwanted(bytes: &[u8], before: &mut Before) -> Option<Going>
    requires { length bytes.now ≤ longest_file }
    ensures some { IfSome result (λ going. IsNextGoing before.old bytes.now going before.new) }
    ensures none { IfNone result (NothingMore before.old bytes.now before.new) }
{
    let mut keeping = Keeping {
        before: *before,
        place: 0,
        length: 0,
        is_keys: false,
    };
    let walked = walk(bytes, bytes.len(), &mut keeping);
    *before = keeping.before;
    let going = match walked {
        Ok(true) => return None,
        Ok(false) => going_token(bytes.split_at(keeping.place).1, &keeping)?,
        Err(fault) => going_fault(bytes.split_at(fault.offset).1, &fault, keeping.before)?,
    };
    *before = before.behind(going.kind);
    Some(going)
}
