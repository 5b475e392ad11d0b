//! The search for sequences that are to name colours.

ghost use Rattle.std.specs.Prelude.{◌≡◌, ◌≤◌, ℕ, List, length, IfOk, OnErr, MatchOption, None, if◌then◌else◌};
ghost use Rattle.ans_model.specs.Bytes.{longest_file};
ghost use Rattle.ans_model.specs.Sequence.TokenKind.{TokenKind};
ghost use Rattle.ans_model.specs.Sequence.Reads.{Reads, ReadsAs};
ghost use Rattle.ans_players.specs.Situations.{spelled};
ghost use Rattle.ans_mend.specs.NamedColours.{begins_unnamed};
ghost use Rattle.ans_players.specs.Names.{are_both};
ghost use Rattle.ans_tokens.specs.Walk.{StaysPast};
ghost use Rattle.ans_kinds.specs.NamesShown.{shown_names};
ghost use Rattle.ans_mend.specs.NameSearch.{IsNamedFirst, NoneIsNamed, WaitsIn, taking_after, taking_behind};

use crate::names::{has_zero, takes_names};
use crate::naming::{count_to_zero, naming_of};
use ans_kinds::{Names, paints};
use ans_model::fault::Fault;
use ans_model::kind::Kind;
use ans_tokens::{Token, Walker, walk};

/// A colour sequence that takes the names away. Nothing was printed or cleared after it yet.
#[derive(Clone, Copy)]
struct Taking {
    start: usize,
    length: usize,
    /// How many numbers it has up to its last 0.
    numbers: usize,
}

/// A colour sequence that is to name colours. Its places are offsets in bytes.
#[derive(Clone, Copy)]
pub(crate) struct NamingPlace {
    pub(crate) start: usize,
    /// How many bytes come before the names.
    pub(crate) zero: usize,
    /// Where what stays after the names begins.
    pub(crate) rest: usize,
    /// After the token that prints or clears next.
    pub(crate) end: usize,
    pub(crate) put: &'static [u8],
}

/// Looks for the first sequence that is to name colours.
#[derive(Clone, Copy)]
struct NameSearch {
    /// Which colours are named.
    named: Names,
    taking: Option<Taking>,
    /// How many bytes follow the last token.
    behind: usize,
}

/// What still waits after something is printed or cleared while these colours are named.
fn after_print(taking: Option<Taking>, named: Names) -> Option<Taking>
    ensures { result ≡ (if are_both (shown_names named) then None else taking) }
{
    if named.are_both() { None } else { taking }
}

/// What waits after a token that neither prints nor clears.
fn after_token(taking: Option<Taking>, token: &Token) -> Option<Taking>
    ensures { result ≡ taking_after taking token.now }
{
    match token.kind() {
        Kind::Colours(numbers) if has_zero(numbers) => Some(Taking {
            start: token.start(),
            length: token.length(),
            numbers: count_to_zero(numbers),
        }),
        _ => taking,
    }
}

impl Walker for NameSearch {
    ghost use Rattle.ans_mend.specs.NameSearch.{HasSearched};

    ghost ready = { λ search offset. Unit {0} };

    ghost walked = { λ first front now goes_on. HasSearched first front goes_on now };

    ghost takes = { λ search count. taking_behind search ≡ None };

    fn token(&mut self, token: &Token, behind: &[u8]) -> bool {
        self.behind = behind.len();
        if paints(token.kind()) {
            self.taking = after_print(self.taking, self.named);
            return self.taking.is_none();
        }
        self.taking = after_token(self.taking, token);
        self.named = self.named.after(token.kind());
        true
    }

    fn room(&self) -> usize {
        if after_print(self.taking, self.named).is_none() {
            usize::MAX
        } else {
            0
        }
    }

    fn take(&mut self, run: &[u8], _offset: usize) {
        self.taking = None;
        self.behind = self.behind.saturating_sub(run.len());
    }
}

/// A sequence that waits when something is printed or cleared while not both colours are named.
#[derive(Clone, Copy)]
struct Waiting {
    taking: Taking,
    named: Names,
    /// After the token that prints or clears.
    end: usize,
}

/// The first sequence that waits when something is printed or cleared while not both colours are named. `Err`
/// says that the bytes cannot be read to their end.
fn waiting_in(bytes: &[u8]) -> Result<Option<Waiting>, Fault>
    requires { length bytes.now ≤ longest_file }
    ensures waiting { IfOk result (λ waiting. MatchOption waiting (NoneIsNamed bytes.now) (WaitsIn bytes.now)) }
    ensures unread { OnErr result ((tokens : List TokenKind) → ¬ Reads bytes.now tokens) }
{
    let mut search = NameSearch {
        named: Names::NONE,
        taking: None,
        behind: bytes.len(),
    };
    let over = walk(bytes, bytes.len(), &mut search)?;
    let Some(taking) = search.taking else {
        return Ok(None);
    };
    if over {
        return Ok(None);
    }
    Ok(Some(Waiting {
        taking,
        named: search.named,
        end: bytes.len() - search.behind,
    }))
}

/// Where the sequence that waits gets its names.
fn naming_place(bytes: &[u8], waiting: Waiting) -> NamingPlace
    requires limit { length bytes.now ≤ longest_file }
    requires waits { WaitsIn bytes.now waiting }
    ensures { IsNamedFirst bytes.now result }
{
    let start = waiting.taking.start;
    let text = &bytes[start..start + waiting.taking.length];
    let naming = naming_of(text, waiting.taking.numbers, waiting.named);
    NamingPlace {
        start,
        zero: start + naming.zero,
        rest: start + naming.rest,
        end: waiting.end,
        put: naming.put,
    }
}

/// The first sequence that is to name colours. `Err` says that the bytes cannot be read to their end.
pub(crate) fn next_naming(bytes: &[u8]) -> Result<Option<NamingPlace>, Fault>
    requires { length bytes.now ≤ longest_file }
    ensures going { IfOk result (λ going. MatchOption going (NoneIsNamed bytes.now) (IsNamedFirst bytes.now)) }
    ensures unread { OnErr result ((tokens : List TokenKind) → ¬ Reads bytes.now tokens) }
{
    match waiting_in(bytes)? {
        Some(waiting) => Ok(Some(naming_place(bytes, waiting))),
        None => Ok(None),
    }
}

/// Looks for what is printed or cleared first, up to the first sequence that takes the names away.
#[derive(Clone, Copy)]
struct First {
    named: Names,
    unnamed: bool,
}

impl Walker for First {
    ghost use Rattle.ans_mend.specs.NameSearch.{HasLookedAtFirst};

    ghost ready = { λ search offset. Unit {0} };

    ghost walked = { λ first front now goes_on. HasLookedAtFirst first front goes_on now };

    ghost takes = { StaysPast (λ first front now goes_on. HasLookedAtFirst first front goes_on now) };

    fn token(&mut self, token: &Token, _behind: &[u8]) -> bool {
        let kind = token.kind();
        if paints(kind) {
            self.unnamed = !self.named.are_both();
            return false;
        }
        if takes_names(kind) {
            return false;
        }
        self.named = self.named.after(kind);
        true
    }

    fn room(&self) -> usize {
        0
    }

    fn take(&mut self, _run: &[u8], _offset: usize) {}
}

/// Whether something is printed or cleared while not both colours are named, before a sequence takes the
/// names away. Of bytes that cannot be read nothing is promised.
pub fn begins_unnamed(content: &[u8]) -> bool
    requires { length content.now ≤ longest_file }
    ensures { (tokens : List TokenKind) (texts : List (List ℕ)) → ReadsAs content.now tokens texts
        → result ≡ begins_unnamed (spelled tokens texts) }
{
    let mut first = First {
        named: Names::NONE,
        unnamed: false,
    };
    let _ = walk(content, content.len(), &mut first);
    first.unnamed
}
