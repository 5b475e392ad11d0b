//! The kinds in which players differ that arise in a content.

ghost use Rattle.std.specs.Prelude.{◌≡◌, ◌↔◌, ◌≤◌, ◌<◌, ◌+◌, ◌++◌, ℕ, List, IsTrue, None, length};
ghost use Rattle.std.specs.List.{list_all, list_any};
ghost use Rattle.ans_model.specs.Bytes.{longest_file};
ghost use Rattle.ans_model.specs.Sequence.Reads.{ReadsAs};
ghost use Rattle.ans_model.specs.Sequence.TokenKind.{TokenKind};
ghost use Rattle.ans_model.specs.Screen.StartClass.{all_known};
ghost use Rattle.ans_model.specs.Text.Words.{texts_of};
ghost use Rattle.ans_model.specs.Verdict.Good.{IsGood};
ghost use Rattle.ans_players.specs.Kinds.{all_but, is_kind};
ghost use Rattle.ans_players.specs.Situations.{kind_if};
ghost use Rattle.ans_players.specs.declared.difference.Difference.{Difference};
ghost use Rattle.ans_pens.specs.Counted.{counted, counted_times};
ghost use Rattle.ans_kinds.specs.SyncShown.{kinds_in, kinds_of};
ghost use Rattle.ans_kinds.specs.KindsUsed.{IsTold, is_used, used_of, words_used};
ghost use Rattle.ans_players.specs.declared.difference.Difference.TheVariants.{DosColours, OwnColours as own_colours};
ghost use Rattle.ans_kinds.specs.KindsWalked.{AreFew, has_no_others, parts_at};
ghost use Rattle.ans_pens.specs.RowMoves.{moves_rows};

use crate::ink::Inked;
use crate::names::Names;
use crate::situations::{Situations, are_zero, kind_if, unless};
use crate::sync::Sync;
use ans_model::size::Size;
use ans_pens::moved_with;
use ans_pens::pen::Pen;
use ans_pens::times::{Times, count, count_times};
use ans_players::difference::Difference;
use ans_tokens::{ColourSequence, Token, Walker, walk};
use arrayvec::ArrayVec;

/// The number of own colours, the last of the kinds.
const OWN_COLOURS: usize = 12;

/// Whether players may differ at a sequence of colours.
#[inline(always)]
fn parts_at(are_common: bool, is_grey: bool, colours: &ColourSequence<'_>) -> bool
    ensures { result ≡ parts_at are_common is_grey colours.now }
{
    !are_common || (colours.omits && !(is_grey && are_zero(colours.numbers)))
}

/// How often each kind in which players differ arises in a content, and where first.
#[derive(Debug, Clone, Copy, PartialEq, Eq)]
pub struct KindsUsed {
    // by the kinds' numbers
    pub times: [Option<Times>; 13],
}

impl KindsUsed {
    pub const NONE: KindsUsed = KindsUsed { times: [None; 13] };

    /// How often this kind arises, and where first, in bytes from the content's start. None where it
    /// never does.
    pub fn of(&self, kind: Difference) -> Option<Times>
        ensures { result ≡ used_of self.now kind }
    {
        self.times[kind.number()]
    }

    /// The words of the kinds that arise, in the order of `Kind::ALL`.
    pub fn words(&self) -> ArrayVec<&'static str, 13>
        ensures { texts_of result.items ≡ words_used self.now }
    {
        let mut words = ArrayVec::new();
        for kind in &Difference::ALL {
            if self.of(*kind).is_some() {
                words.push(kind.word());
            }
        }
        words
    }

    /// Own colours are the last of the kinds.
    fn has_no_others(&self) -> bool
        ensures { result ≡ has_no_others self.now }
    {
        self.times[..OWN_COLOURS]
            .iter()
            .all(|times| times.is_none())
    }

    /// Whether no kind arises but own colours.
    pub fn are_own_colours_at_most(&self) -> bool
        ensures { IsTrue result ↔ ((kind : Difference) → IsTrue (all_but own_colours kind)
            → used_of self.now kind ≡ None) }
    {
        self.has_no_others()
    }

    /// Whether this kind arises, if there is one.
    fn has(&self, some: Option<Difference>) -> bool
        ensures { result ≡ list_all (is_used self.now) (kinds_in some) }
    {
        match some {
            Some(kind) => self.of(kind).is_some(),
            None => true,
        }
    }

    /// Whether all kinds of the situations arise; mostly there is none.
    #[inline(always)]
    pub(crate) fn have_all(&self, situations: &Situations) -> bool
        ensures { result ≡ list_all (is_used self.now) (kinds_of situations.now) }
    {
        self.has(situations.unsure)
            && self.has(situations.own)
            && self.has(situations.other)
            && (!situations.unnamed || self.times[OWN_COLOURS].is_some())
    }

    /// Whether the kind of a sequence of colours arises, if players may differ at it.
    #[inline(always)]
    pub(crate) fn have_colours(
        &self,
        is_grey: bool,
        are_common: bool,
        colours: &ColourSequence<'_>,
    ) -> bool
        ensures { result ≡ list_all (is_used self.now) (kind_if (parts_at are_common is_grey colours.now) DosColours) }
    {
        let may_part = parts_at(are_common, is_grey, colours);
        self.has(kind_if(may_part, Difference::DosColours))
    }

    /// One time more of a kind, if there is one.
    #[inline(always)]
    fn count_kind(&mut self, some: Option<Difference>, offset: usize)
        requires few { AreFew self.old longest_file }
        ensures used { (kind : Difference) → used_of self.new kind
            ≡ counted (used_of self.old kind) (list_any (is_kind kind) (kinds_in some)) offset }
    {
        if let Some(kind) = some {
            count(&mut self.times[kind.number()], true, offset);
        }
    }

    /// One time more of DOS colours if players may differ at a sequence of colours: not all its numbers are
    /// common, or one is omitted, and then they are not all 0 in white on black.
    #[inline(always)]
    pub fn count_colours(&mut self, is_grey: bool, are_common: bool, colours: &ColourSequence<'_>)
        requires room { colours.now.start < longest_file }
        requires few { AreFew self.old colours.now.start }
        ensures few { AreFew self.new (colours.now.start + 1) }
        ensures used { (kind : Difference) → used_of self.new kind ≡ counted (used_of self.old kind)
            (list_any (is_kind kind) (kind_if (parts_at are_common is_grey colours.now) DosColours))
            colours.now.start }
    {
        let may_part = parts_at(are_common, is_grey, colours);
        self.count_kind(kind_if(may_part, Difference::DosColours), colours.start);
    }

    /// One time more of each kind of the situations. One that they have twice counts once.
    #[inline(always)]
    fn count_each(&mut self, situations: &Situations, offset: usize)
        requires room { offset < longest_file }
        requires few { AreFew self.old offset }
        ensures few { AreFew self.new (offset + 1) }
        ensures used { (kind : Difference) → used_of self.new kind
            ≡ counted (used_of self.old kind) (list_any (is_kind kind) (kinds_of situations.now)) offset }
    {
        let Situations {
            unsure,
            own,
            other,
            ..
        } = *situations;
        let unnamed = kind_if(situations.unnamed, Difference::OwnColours);
        self.count_kind(unsure, offset);
        self.count_kind(unless(own, unsure), offset);
        self.count_kind(unless(unless(other, own), unsure), offset);
        self.count_kind(unless(unless(unless(unnamed, other), own), unsure), offset);
    }

    /// Own colours arise at each of this many bytes from this offset on, or nothing does.
    #[inline(always)]
    pub fn count_run(&mut self, is_unnamed: bool, more: usize, offset: usize)
        requires room { offset + more ≤ longest_file }
        requires few { AreFew self.old offset }
        ensures few { AreFew self.new (offset + more) }
        ensures used { (kind : Difference) → used_of self.new kind
            ≡ counted_times (used_of self.old kind) (list_any (is_kind kind) (kind_if is_unnamed own_colours))
            more offset }
    {
        count_times(&mut self.times[OWN_COLOURS], is_unnamed, more, offset);
    }

    /// The kinds that arise at a token at this offset count; mostly none does but own colours.
    #[inline(always)]
    pub fn count(&mut self, situations: &Situations, offset: usize)
        requires room { offset < longest_file }
        requires few { AreFew self.old offset }
        ensures few { AreFew self.new (offset + 1) }
        ensures used { (kind : Difference) → used_of self.new kind
            ≡ counted (used_of self.old kind) (list_any (is_kind kind) (kinds_of situations.now)) offset }
    {
        if situations.are_own_colours_at_most() {
            count(&mut self.times[OWN_COLOURS], situations.unnamed, offset);
        } else {
            self.count_each(situations, offset);
        }
    }
}

/// A play from the cleared start without its screen, the sync of players in it, the kinds that have
/// arisen so far, and whether some sequence has moved the cursor up or down by rows.
#[derive(Clone, Copy)]
pub struct KindsWalk<'a> {
    pub content: &'a [u8],
    pub size: Size,
    pub pen: Pen,
    pub sync: Sync,
    pub names: Names,
    pub used: KindsUsed,
    pub moves_rows: bool,
}

/// The bytes of the content from an offset up to those of `behind`, at its end.
#[inline(always)]
pub fn text_at<'a>(content: &'a [u8], start: usize, behind: &[u8]) -> &'a [u8]
    ensures { (before text : List ℕ) → content.now ≡ before ++ (text ++ behind.now)
        → start ≡ length before → result.now ≡ text }
{
    let end = content.len().saturating_sub(behind.len());
    if start <= end {
        &content[start..end]
    } else {
        &[]
    }
}

impl Walker for KindsWalk<'_> {
    ghost use Rattle.ans_kinds.specs.KindsWalked.{HasFoundKinds, IsReadyFor, StaysSyncedInRow};

    ghost ready = { λ walk offset. IsReadyFor walk offset };

    ghost walked = { λ first front now goes_on. HasFoundKinds first front goes_on now };

    ghost takes = { λ walk count. StaysSyncedInRow walk count };

    #[inline(always)]
    fn token(&mut self, token: &Token, behind: &[u8]) -> bool {
        let kind = token.kind();
        let offset = token.start();
        let text = text_at(self.content, offset, behind);
        let situations = Situations::of(self.size, &self.pen, self.sync, self.names, kind, text);
        self.used.count(&situations, offset);
        let before = self.pen.cursor;
        self.pen.step(self.size, kind);
        self.sync = self.sync.after(before, &self.pen, kind);
        self.names = self.names.after(kind);
        self.moves_rows = moved_with(self.moves_rows, kind);
        true
    }

    #[inline(always)]
    fn colours(&mut self, colours: &ColourSequence<'_>, _behind: &[u8]) -> bool {
        let is_grey = self.pen.attribute == 0x07;
        let inked = Inked::by(self.pen.attribute, self.names, colours.numbers);
        self.used.count_colours(is_grey, inked.are_common, colours);
        self.pen.attribute = inked.attribute;
        self.names = inked.names;
        true
    }

    #[inline(always)]
    fn room(&self) -> usize {
        match self.sync {
            Sync::InSync => self.pen.columns_left(self.size),
            _ => 0,
        }
    }

    #[inline(always)]
    fn take(&mut self, run: &[u8], offset: usize) {
        self.used
            .count_run(!self.names.are_both(), run.len(), offset);
        self.pen.go_on(self.size, run.len());
    }
}

impl<'a> KindsWalk<'a> {
    /// Over all of a content.
    pub(crate) fn over(size: Size, content: &'a [u8]) -> KindsWalk<'a>
        requires length { length content.now ≤ longest_file }
        ensures told { IsGood size all_known content.now
            → (kind : Difference) → IsTold size content.now kind (used_of result.used kind) }
        ensures moves { (tokens : List TokenKind) (texts : List (List ℕ)) → ReadsAs content.now tokens texts
            → result.moves_rows ≡ moves_rows tokens }
    {
        let mut kinds = KindsWalk {
            content,
            size,
            pen: Pen::cleared(),
            sync: Sync::InSync,
            names: Names::NONE,
            used: KindsUsed::NONE,
            moves_rows: false,
        };
        let _ = walk(content, content.len(), &mut kinds);
        kinds
    }
}

/// The kinds in which players differ that arise in a content, in the play from the cleared start: how
/// often each arises, and where first. If the content does not pass from there, nothing is promised.
/// It reads the bytes once, and takes no memory.
pub fn kinds_used(size: Size, content: &[u8]) -> KindsUsed
    requires length { length content.now ≤ longest_file }
    ensures { IsGood size all_known content.now
        → (kind : Difference) → IsTold size content.now kind (used_of result kind) }
{
    KindsWalk::over(size, content).used
}
