//! The lines on players.

ghost use Rattle.std.specs.Prelude.{◌≡◌};
ghost use Rattle.ans_why.specs.PlayersText.{agreeing_lines, everywhere_line, is_same_class, kind_line};
ghost use Rattle.ans_why.specs.PlayersText.{kind_lines, players_lines};
ghost use Rattle.ans_kinds.specs.declared.players.Players.TheVariants.{Any, InNamedColours};
ghost use Rattle.ans_write.specs.Puts.{Puts};

use ans_kinds::{KindsUsed, Players};
use ans_model::start::Start;
use ans_pens::Times;
use ans_players::difference::Difference;
use ans_report::{put_needed_parts, put_times, put_words};
use ans_write::Outbox;
use std::io::Write;

fn put_kind_line<W: Write>(out: &mut Outbox<'_, W>, kind: Difference, times: Option<Times>)
    ensures { Puts W.contents out.old out.new (kind_line kind times) }
{
    let Some(times) = times else {
        return;
    };
    out.put(b"players differ: ");
    out.put(kind.word().as_bytes());
    out.put(b", ");
    put_times(out, times.count, times.first);
    out.put(b"\n");
}

fn put_kind_lines<W: Write>(out: &mut Outbox<'_, W>, used: &KindsUsed)
    ensures { Puts W.contents out.old out.new (kind_lines used.now) }
{
    for kind in &Difference::ALL {
        put_kind_line(out, *kind, used.of(*kind));
    }
}

pub(crate) fn is_same_class(class: Start, other: Start) -> bool
    ensures { result ≡ is_same_class class other }
{
    class.screen == other.screen
        && class.cursor == other.cursor
        && class.saved == other.saved
        && class.colours == other.colours
        && class.wrap == other.wrap
}

fn put_everywhere_line<W: Write>(out: &mut Outbox<'_, W>, needs: Start, class: Start)
    ensures { Puts W.contents out.old out.new (everywhere_line needs class) }
{
    if is_same_class(needs, class) {
        return;
    }
    out.put(b"needs on all players: ");
    put_needed_parts(out, class);
    out.put(b"\n");
}

fn put_any<W: Write>(out: &mut Outbox<'_, W>, needs: Start, class: Start)
    ensures { Puts W.contents out.old out.new (players_lines needs (Any class)) }
{
    out.put(b"players: all\n");
    put_everywhere_line(out, needs, class);
}

fn put_agreeing<W: Write>(out: &mut Outbox<'_, W>, used: &KindsUsed)
    ensures { Puts W.contents out.old out.new (agreeing_lines used.now) }
{
    out.put(b"players: ");
    put_words(out, used.words().as_slice());
    out.put(b"\n");
    put_kind_lines(out, used);
}

fn put_named_colours<W: Write>(out: &mut Outbox<'_, W>, needs: Start, class: Start, times: Times)
    ensures { Puts W.contents out.old out.new (players_lines needs (InNamedColours class times)) }
{
    out.put(b"players: own-colours\n");
    put_kind_line(out, Difference::OwnColours, Some(times));
    put_everywhere_line(out, needs, class);
}

/// Puts on which players a content that needs this class shows its picture: `all`, and the class from which
/// it does, if that is another. Or else the kinds of difference, and a line for each: how often it arises, and
/// the offset of the first in bytes from the content's start. If own colours are the only kind, the class
/// follows them, of the players whose own white and black are the named ones.
pub(crate) fn put_players<W: Write>(out: &mut Outbox<'_, W>, needs: Start, players: &Players)
    ensures { Puts W.contents out.old out.new (players_lines needs players.now) }
{
    match players {
        Players::Any(class) => put_any(out, needs, *class),
        Players::InNamedColours(class, times) => put_named_colours(out, needs, *class, *times),
        Players::Agreeing(used) => put_agreeing(out, used),
    }
}
