//! The kinds of difference between players that small contents use, and from which starts these show the
//! same.

ghost use Rattle.std.specs.Prelude.{◌≡◌, ◌↔◌, ◌≤◌, IfOk, false, length};
ghost use Rattle.ans_model.specs.Bytes.{longest_file};
ghost use Rattle.ans_model.specs.Screen.StartClass.{all_known};
ghost use Rattle.ans_model.specs.Verdict.Good.{IsGood};
ghost use Rattle.ans_model.specs.Verdict.Needs.{IsLeast};

use super::fault_of;
use ans_kinds::{
    KindsUsed, Players, Reach, is_same_where_cleared, kinds_used, least_class_for_players,
};
use ans_model::size::Size;
use ans_model::start::Start;
use ans_pens::Times;
use ans_players::difference::Difference;
use std::alloc::Global;
use std::process::Abort;
use std::test::Fail;

/// A content, its screen, and the kinds that arise in it from the cleared start, in their order.
#[derive(Clone, Copy)]
struct Used {
    content: &'static [u8],
    width: usize,
    lines: usize,
    kinds: &'static [(Difference, Times)],
}

/// A content, its screen, and the least class of starts from which only kinds arise that do from the
/// cleared one.
#[derive(Clone, Copy)]
struct Least {
    content: &'static [u8],
    width: usize,
    lines: usize,
    class: Start,
}

macro_rules! used {
    ($($content:literal, $width:literal x $lines:literal => $($kind:ident $count:literal at $first:literal),*;)*) => {
        [$(Used {
            content: $content,
            width: $width,
            lines: $lines,
            kinds: &[$((Difference::$kind, Times { count: $count, first: $first })),*],
        }),*]
    };
}

macro_rules! least {
    ($($content:literal, $width:literal x $lines:literal => $($part:ident)*;)*) => {
        [$(Least {
            content: $content,
            width: $width,
            lines: $lines,
            class: Start { $($part: true,)* ..Start::ANY },
        }),*]
    };
}

macro_rules! all_but {
    ($part:ident) => {
        Start { $part: false, ..Start::CLEARED }
    };
}

static USED: [Used; 28] = used! {
    b"Hi", 3 x 1 => OwnColours 2 at 0;
    b"A\r\nB", 2 x 2 => OwnColours 2 at 0;
    b"A\n\rB", 2 x 2 => OwnColours 2 at 0;
    b"A\x1b[2J\x1b[HB", 2 x 1 => OwnColours 3 at 0;
    b"\x1b[mA", 2 x 1 => OwnColours 1 at 3;
    b"A\r\nB", 1 x 3 => WrapAtOnce 1 at 1, OwnColours 2 at 0;
    b"A\nB", 2 x 2 => LineEnds 1 at 2, OwnColours 2 at 0;
    b"A\rB", 2 x 2 => LineEnds 1 at 2, OwnColours 2 at 0;
    b"A\x1b[2JB", 2 x 1 => HomeOnClear 1 at 5, OwnColours 3 at 0;
    b"\x1b[41m\x1b[2J", 1 x 1 => ClearInColour 1 at 5, OwnColours 1 at 5;
    b"\x1b[u", 1 x 1 => SavePlaceOnly 1 at 0;
    b"\x1b[4mA", 2 x 1 => DosColours 1 at 0, OwnColours 1 at 4;
    b"\x1b[31m\x1b[mA", 2 x 1 => DosColours 1 at 5, OwnColours 1 at 8;
    b"\t", 9 x 1 => TabPrints 1 at 0, OwnColours 1 at 0;
    b"\x1b[K", 2 x 1 => LineErased 1 at 0, OwnColours 1 at 0;
    b"\x1b[?7l", 1 x 1 => WrapOff 1 at 0;
    b"\x1b[2C", 2 x 1 => StopsAtEdge 1 at 0;
    b"\x1b[2B\x1b[H", 2 x 1 => StopsAtEdge 1 at 0;
    b"\x07\x07", 1 x 1 => PageControls 2 at 0;
    b"\x00A\x0b", 4 x 1 => PageControls 2 at 0, OwnColours 3 at 0;
    b"\x01\x7f", 3 x 1 => TerminalControls 2 at 0, OwnColours 2 at 0;
    b"A\x1b[s\rB", 3 x 1 => LineEnds 1 at 5, SavePlaceOnly 1 at 4, OwnColours 2 at 0;
    b"\x1b[7m\x07\x1b[4m\x1b[K", 2 x 1 =>
        ClearInColour 1 at 9, DosColours 2 at 0, LineErased 1 at 9, PageControls 1 at 4, OwnColours 1 at 9;
    b"\x1b[37;40mHi", 3 x 1 => ;
    b"\x1b[0;37;40mA\x1b[0m", 1 x 1 => ;
    b"\x1b[37mA\x1b[40m \x1b[0;31mB", 4 x 1 => OwnColours 2 at 5;
    b"\x1b[37;40mA\r\nB", 1 x 3 => WrapAtOnce 1 at 9;
    b"\x1b[40m\x1b[2J\x1b[37m\x1b[K", 2 x 1 => LineErased 1 at 14, OwnColours 1 at 5;
};

/// In the last five a kind other than own colours arises from the cleared start: wrap-at-once, save-place-only or
/// page-controls.
static LEAST: [Least; 19] = least! {
    b"Hi", 3 x 1 => screen cursor colours;
    b"A", 1 x 1 => cursor colours;
    b"abc", 2 x 2 => screen cursor colours wrap;
    b"\x1b[mA", 2 x 1 => screen cursor colours;
    b"\x1b[H\x1b[mAB", 2 x 1 => colours;
    b"\x1b[H\x1b[0mAB", 2 x 1 => ;
    b"\x1b[0m\x1b[2JA", 2 x 1 => cursor;
    b"\x1b[0m\x1b[2J\x1b[HA", 2 x 1 => ;
    b"\x1b[2J\x1b[0m\x1b[HA", 1 x 1 => colours;
    b"\x1b[?7h\x1b[0m\x1b[2J\x1b[H\x1b[sA", 2 x 1 => ;
    b"\x1b[?7h\x1b[0;37;40m\x1b[2J\x1b[H\x1b[sA", 2 x 1 => ;
    b"\x1b[0;37;40m\x1b[2JA", 2 x 1 => cursor;
    b"\x1b[37;40m\x1b[2J\x1b[HA", 1 x 1 => colours;
    b"\x1b[0m\x1b[2J\x1b[H\x1b[s\x1b[2J", 2 x 1 => ;
    b"\x1b[0m\x1b[2J\x1b[Hab\r\x1b[s", 2 x 2 => wrap;
    b"\x1b[0m\x1b[2J\x1b[H\x1b[u\x1b[2JA", 2 x 1 => saved;
    b"\x1b[0m\x1b[2J\x1b[u\x1b[2JA", 2 x 1 => cursor saved;
    b"\x1b[0m\x1b[2JA\x07", 2 x 1 => cursor;
    b"\x1b[0m\x1b[2J\x1b[HA\x07", 2 x 1 => ;
};

/// Whether a content does not pass from the starts of a class.
fn is_refused(alloc: Global, size: Size, start: Start, content: &[u8]) -> Result<bool, Fail>
    requires { length content.now ≤ longest_file }
    ensures { IfOk result (λ refused. (refused ≡ false) ↔ IsGood size start content.now) }
{
    let fault = fault_of(alloc, size.width(), size.lines(), start, content)?;
    Ok(fault.is_some())
}

/// The least class of starts from which a content passes that does so from the cleared one.
fn needs_of(alloc: Global, size: Size, content: &[u8]) -> Result<Start, Fail>
    requires length { length content.now ≤ longest_file }
    requires good { IsGood size all_known content.now }
    ensures { IfOk result (IsLeast size content.now) }
{
    Ok(Start {
        screen: is_refused(alloc, size, all_but!(screen), content)?,
        cursor: is_refused(alloc, size, all_but!(cursor), content)?,
        saved: is_refused(alloc, size, all_but!(saved), content)?,
        colours: is_refused(alloc, size, all_but!(colours), content)?,
        wrap: is_refused(alloc, size, all_but!(wrap), content)?,
    })
}

/// Asserts the kinds that arise in a content, and their words.
fn expect_used(rt: &impl Abort, row: &Used) {
    let Used {
        content,
        width,
        lines,
        kinds,
    } = *row;
    assert!(rt; 1 <= width && width <= 20 && 1 <= lines && lines <= 10 && content.len() < 200);
    let used = kinds_used(Size::new(width, lines), content);
    let words = used.words();
    assert_eq!(rt; words.len(), kinds.len(), "in {content:?}");
    for ((kind, times), word) in kinds.iter().zip(words.as_slice()) {
        assert_eq!(rt; used.of(*kind), Some(*times), "in {content:?}");
        assert_eq!(rt; *word, kind.word(), "in {content:?}");
    }
    let others = kinds.iter().any(|kind| kind.0 != Difference::OwnColours);
    assert_eq!(rt; used.are_own_colours_at_most(), !others, "in {content:?}");
}

/// What is said of a content in which these kinds arise, and that has this least class.
fn said_of(used: KindsUsed, class: Start) -> Players {
    let others = Difference::ALL.iter().any(|kind| *kind != Difference::OwnColours
        && used.of(*kind).is_some());
    match used.of(Difference::OwnColours) {
        _ if others => Players::Agreeing(used),
        None => Players::Any(class),
        Some(times) => Players::InNamedColours(class, times),
    }
}

/// Asserts the least class of a content, and what is said of it.
fn expect_least(rt: &impl Abort, alloc: Global, row: &Least) -> Result<(), Fail> {
    let Least {
        content,
        width,
        lines,
        class,
    } = *row;
    assert!(rt; 1 <= width && width <= 20 && 1 <= lines && lines <= 10 && content.len() < 200);
    let size = Size::new(width, lines);
    let refused = is_refused(alloc, size, Start::CLEARED, content)?;
    assert!(rt; !refused, "in {content:?}");
    let needs = needs_of(alloc, size, content)?;
    let used = kinds_used(size, content);
    let found = least_class_for_players(size, needs, &used, content);
    assert_eq!(rt; found, class, "in {content:?}");
    let players = Players::of(size, needs, content);
    assert_eq!(rt; players, said_of(used, class), "in {content:?}");
    let reach = Reach::of(size, needs, content);
    assert_eq!(rt; reach.players, players, "in {content:?}");
    let is_same = is_same_where_cleared(size, needs, content);
    assert_eq!(rt; is_same, class == Start::ANY, "in {content:?}");
    Ok(())
}

#[test]
fn kinds_arise(rt: HostRuntime) {
    for row in &USED {
        expect_used(&rt, row);
    }
}

#[test]
fn classes_are_least(rt: HostRuntime) -> Result<(), Fail> {
    for row in &LEAST {
        expect_least(&rt, rt.alloc(), row)?;
    }
    Ok(())
}
