//! Sequences that are removed from a drawing.

ghost use Rattle.std.specs.Prelude.{◌≡◌, ◌≤◌, ℕ, List, length, take, drop, IfSome};
ghost use Rattle.ans_model.specs.Bytes.{longest_file};
ghost use Rattle.ans_mend.specs.Drafts.{draft_of, memory_of};
ghost use Rattle.ans_forms.specs.declared.kinds.TheConstants.Before as before;
ghost use Rattle.ans_mend.specs.TakingOut.{AreTakenOut, CountsWithin, Gone, TakesOut, excerpt_of, gone_at, index_of};
ghost use Rattle.ans_mend.specs.TakingOut.{flagged, is_on, nothing_told, one_more, switch_of, told_of, told_with};
ghost use Rattle.ans_forms.specs.declared.kinds.Before.{Before};

use crate::draft::Draft;
use crate::keeping::keep;
use crate::line_ends::content_of;
use ans_forms::{Before, Unwanted, next_unwanted};
use ans_pens::Times;

/// The first bytes of a text.
#[derive(Debug, Clone, Copy, PartialEq, Eq)]
pub struct Excerpt {
    /// The first 32 bytes of the text, or all of it and zero bytes.
    pub bytes: [u8; 32],
    /// How many bytes the text has.
    pub length: usize,
}

/// The sequences of one kind that were removed.
#[derive(Debug, Clone, Copy, PartialEq, Eq)]
pub struct TakenOut {
    /// How many, and the offset of the first, in bytes from the file's start, as it was before any was
    /// removed.
    pub times: Times,
    /// The first of them.
    pub text: Excerpt,
}

/// What is reported of the sequences that were removed.
#[derive(Debug, Clone, Copy, PartialEq, Eq)]
pub struct Told {
    /// Those of each kind, in the order of the kinds.
    pub kinds: [Option<TakenOut>; 9],
    /// Whether the switch for bright backgrounds was on at the last printed cell that has bit 7 in its
    /// attribute, if there is such a cell and a switch before it.
    pub bright_backgrounds: Option<bool>,
}

fn index_of(kind: Unwanted) -> usize
    ensures { result ≡ index_of kind }
{
    match kind {
        Unwanted::BrightBackgrounds => 0,
        Unwanted::Switch => 1,
        Unwanted::Mode => 2,
        Unwanted::FontSelection => 3,
        Unwanted::Music => 4,
        Unwanted::TrueColour => 5,
        Unwanted::Report => 6,
        Unwanted::ReassignedKey => 7,
        Unwanted::Unfinished => 8,
    }
}

fn excerpt_of(text: &[u8]) -> Excerpt
    ensures { result ≡ excerpt_of text.now }
{
    let count = text.len().min(32);
    let mut bytes = [0; 32];
    bytes[..count].copy_from_slice(&text[..count]);
    Excerpt {
        bytes,
        length: text.len(),
    }
}

fn one_more(taken: Option<TakenOut>, kind: Unwanted, place: usize, text: &[u8]) -> TakenOut
    requires { IfSome taken (λ t. t.times.count ≤ longest_file) }
    ensures { result ≡ one_more taken (gone_at kind place text.now) }
{
    match taken {
        None => TakenOut {
            times: Times {
                count: 1,
                first: place,
            },
            text: excerpt_of(text),
        },
        Some(taken) => TakenOut {
            times: Times {
                count: taken.times.count + 1,
                first: taken.times.first,
            },
            text: taken.text,
        },
    }
}

/// Whether a switch is on: with an `h`.
fn is_on(text: &[u8]) -> bool
    ensures { result ≡ is_on text.now }
{
    matches!(text, [_, _, _, _, _, b'h', ..])
}

/// What a sequence of this kind sets the switch for bright backgrounds to.
fn switch_of(on: Option<bool>, kind: Unwanted, text: &[u8]) -> Option<bool>
    ensures { result ≡ switch_of on kind text.now }
{
    match kind {
        Unwanted::BrightBackgrounds => Some(is_on(text)),
        _ => on,
    }
}

impl Told {
    /// Before the first sequence.
    pub fn nothing() -> Told
        ensures { result ≡ nothing_told }
    {
        Told {
            kinds: [None; 9],
            bright_backgrounds: None,
        }
    }

    /// One sequence more, which is at this offset.
    fn count(&mut self, kind: Unwanted, place: usize, text: &[u8])
        requires { CountsWithin self.old longest_file }
        ensures { self.new ≡ told_with self.old (gone_at kind place text.now) }
    {
        let index = index_of(kind);
        let taken = one_more(self.kinds[index], kind, place, text);
        self.kinds[index] = Some(taken);
    }
}

/// What is reported of the sequences that were removed, and how many bytes are left of those that were looked
/// at.
#[derive(Clone, Copy)]
struct BytesLeft {
    told: Told,
    count: usize,
}

/// Removes sequences from the first `count` bytes.
fn take_out_sequences(memory: &mut [u8], count: usize) -> BytesLeft
    requires within { count ≤ length memory.old }
    requires limit { count ≤ longest_file }
    ensures few { result.count ≤ count }
    ensures same_length { length memory.new ≡ length memory.old }
    ensures left { (gone : List Gone) × (end : Before) × TakesOut before.NOTHING 0 gone (take count memory.old)
        (take result.count memory.new) end × (result.told ≡ told_of gone end) }
    ensures behind { drop count memory.new ≡ drop count memory.old }
{
    let mut before = Before::NOTHING;
    let mut kept = 0;
    let mut read = 0;
    let mut told = Told::nothing();
    'sequences: while let Some(going) = next_unwanted(&memory[read..count], &mut before) {
        let place = read + going.place;
        let end = place + going.length;
        told.count(going.kind, place, &memory[place..end]);
        before.switch = switch_of(before.switch, going.kind, &memory[place..end]);
        kept = keep(memory, kept, read, place);
        read = end;
    }
    told.bright_backgrounds = before.bright;
    BytesLeft {
        told,
        count: keep(memory, kept, read, count),
    }
}

impl<'a> Draft<'a> {
    /// Sets the non-blink flag of the record as a switch for bright backgrounds says, if there was one.
    fn state_switch(&mut self, on: Option<bool>)
        requires { 128 ≤ length self.old.file }
        ensures draft { self.new ≡ draft_of (flagged on self.old.file) self.old.room }
        ensures memory { memory_of self.new ≡ memory_of self.old }
    {
        if let Some(on) = on {
            self.state_non_blink(on);
        }
    }

    /// Removes sequences from the content of a file that has a record, those that `ans_forms` names, if
    /// they are refused: the content is read token by token up to what is refused, and goes on after it if
    /// it is one of these. What the last switch for bright backgrounds said at the last printed cell that has
    /// bit 7 in its attribute becomes the record's non-blink flag. Returns what is reported
    /// of them; offsets are in bytes from the file's start, as it was before.
    pub(crate) fn take_out(&mut self) -> Told
        requires { length self.old.file ≤ longest_file }
        ensures file { AreTakenOut self.old.file self.new.file result }
        ensures no_longer { length self.new.file ≤ length self.old.file }
        ensures memory { memory_of self.new ≡ memory_of self.old }
    {
        let Some(content) = content_of(self.file()) else {
            return Told::nothing();
        };
        let count = content.len();
        let left = take_out_sequences(self.memory, count);
        self.used = keep(self.memory, left.count, count, self.used);
        self.state_switch(left.told.bright_backgrounds);
        left.told
    }
}
