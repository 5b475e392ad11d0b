//! Why a file is not mended, and what may help.
ghost use Rattle.std.specs.Prelude.{◌≡◌, ◌≤◌};
ghost use Rattle.ans_mend.specs.MendedText.{after_offers, has_lines, help_text, is_left, lines_offered, no_lines_help};
ghost use Rattle.ans_mend.specs.MendedText.{offered, offers_of, one_if, place_help, rows_help, rows_offers};
ghost use Rattle.ans_mend.specs.MendedText.{sequence_help, torn_help, unmended_text, unstated_help, width_offered};
ghost use Rattle.ans_write.specs.Puts.{Puts};

use crate::outcome::Unmended;
use ans_model::fault::Cause;
use ans_model::mends::Mends;
use ans_report::{Help, fault_help, put_fault_line};
use ans_write::Outbox;
use std::io::Write;

/// What may help, that is neither asked for nor known not to help.
#[derive(Clone, Copy)]
pub(crate) struct Offers {
    crlf: bool,
    join_rows: bool,
    /// Only with `--crlf` or `--join-rows`.
    mixed: bool,
    take_out: bool,
    /// A larger number of lines than the one that is asked for.
    larger: bool,
    /// Only if no number is asked for.
    least_lines: bool,
}

/// Whether a flag is neither asked for nor known not to help.
fn is_left(asked: bool, without_help: bool) -> bool
    ensures { result ≡ is_left asked without_help }
{
    !(asked || without_help)
}

fn one_if(offered: bool) -> usize
    ensures count { result ≡ one_if offered }
    ensures within { result ≤ 1 }
{
    if offered { 1 } else { 0 }
}

impl Offers {
    /// What is left of what was asked for and of what is known not to help.
    fn of(asked: &Mends, without_help: &Mends) -> Offers
        ensures { result ≡ offers_of asked.now without_help.now }
    {
        let given = asked.lines.is_some();
        let changes_ends = asked.crlf || asked.join_rows;
        Offers {
            crlf: is_left(asked.crlf, without_help.crlf),
            join_rows: is_left(asked.join_rows, without_help.join_rows),
            mixed: changes_ends && is_left(asked.mixed, without_help.mixed),
            take_out: is_left(asked.take_out, without_help.take_out),
            larger: given,
            least_lines: !given && is_left(asked.least_lines, without_help.least_lines),
        }
    }

    /// Whether more lines are offered.
    fn has_lines(&self) -> bool
        ensures { result ≡ has_lines self.now }
    {
        self.larger || self.least_lines
    }

    /// How many change the rows or the number of lines.
    fn count(&self) -> usize
        ensures { result ≡ rows_offers self.now }
    {
        one_if(self.crlf)
            + (one_if(self.join_rows)
                + (one_if(self.mixed)
                    + (one_if(self.take_out) + (one_if(self.larger) + one_if(self.least_lines)))))
    }
}

/// If no flag is left that may help.
const LOOK: &[u8] = b"see anscheck why for the place, and anscheck help for the fault\n";

/// What a drawing without a record needs.
const RECORD: &[u8] = b"try: --add-record N, which adds a record for N columns\n";

/// Why `--add-record` adds no record.
const NO_RECORD: &[u8] =
    b"no record is added if SAUCE00 appears in the file or more follows 1Ah: see anscheck help F1\n";

/// What a drawing needs whose record states no lines.
const LEAST_LINES: &[u8] =
    b"try: --least-lines, which sets the smallest number of lines that works\n";

/// What a drawing needs that has sequences which are refused.
const TAKE_OUT: &[u8] = b"try: --take-out, which removes such sequences if it knows them\n";

fn sequence_help(offers: &Offers) -> &'static [u8]
    ensures { result.now ≡ sequence_help offers.now }
{
    if offers.take_out { TAKE_OUT } else { LOOK }
}

fn unstated_help(offers: &Offers) -> &'static [u8]
    ensures { result.now ≡ unstated_help offers.now }
{
    if offers.least_lines {
        LEAST_LINES
    } else {
        LOOK
    }
}

/// What comes before the flags that may help.
const TRY: &[u8] = b"try:";

/// What comes after them if there are several.
const WHICH: &[u8] = b" (anscheck why says which)\n";

/// What comes after that many of them.
fn after_offers(count: usize) -> &'static [u8]
    ensures { result.now ≡ after_offers count }
{
    if count == 1 { b"\n" } else { WHICH }
}

/// Puts a flag, if it is offered.
fn put_offered<W: Write>(out: &mut Outbox<'_, W>, is_offered: bool, flag: &[u8])
    ensures { Puts W.contents out.old out.new (offered is_offered flag.now) }
{
    if is_offered {
        out.put(b" ");
        out.put(flag);
    }
}

fn put_lines_offered<W: Write>(out: &mut Outbox<'_, W>, offers: &Offers)
    ensures { Puts W.contents out.old out.new (lines_offered offers.now) }
{
    put_offered(out, offers.larger, b"--lines N with a larger N");
    put_offered(out, offers.least_lines, b"--least-lines");
}

fn put_rows_help<W: Write>(out: &mut Outbox<'_, W>, offers: &Offers)
    ensures { Puts W.contents out.old out.new (rows_help offers.now) }
{
    let count = offers.count();
    if count == 0 {
        out.put(LOOK);
        return;
    }
    out.put(TRY);
    put_offered(out, offers.crlf, b"--crlf");
    put_offered(out, offers.join_rows, b"--join-rows");
    put_offered(out, offers.mixed, b"--mixed");
    put_offered(out, offers.take_out, b"--take-out");
    put_lines_offered(out, offers);
    out.put(after_offers(count));
}

fn put_place_help<W: Write>(out: &mut Outbox<'_, W>, offers: &Offers)
    ensures { Puts W.contents out.old out.new (place_help offers.now) }
{
    if !offers.has_lines() {
        out.put(LOOK);
        return;
    }
    out.put(TRY);
    put_lines_offered(out, offers);
    out.put(b"\n");
}

fn width_offered(asked: &Mends) -> &'static [u8]
    ensures { result.now ≡ width_offered asked.now }
{
    if asked.columns.is_some() {
        return b" --columns N with another N";
    }
    if asked.add_record.is_some() {
        return b" --add-record N with another N";
    }
    b" --columns N"
}

fn put_torn_help<W: Write>(out: &mut Outbox<'_, W>, asked: &Mends, offers: &Offers)
    ensures { Puts W.contents out.old out.new (torn_help asked.now offers.now) }
{
    out.put(TRY);
    put_offered(out, offers.crlf, b"--crlf");
    put_offered(out, offers.join_rows, b"--join-rows");
    put_offered(out, offers.mixed, b"--mixed");
    out.put(b" --lines N");
    out.put(width_offered(asked));
    out.put(WHICH);
}

fn put_no_lines_help<W: Write>(out: &mut Outbox<'_, W>, offers: &Offers)
    ensures { Puts W.contents out.old out.new (no_lines_help offers.now) }
{
    let with_least = Offers {
        least_lines: false,
        ..*offers
    };
    put_rows_help(out, &with_least);
}

fn put_help<W: Write>(out: &mut Outbox<'_, W>, offers: &Offers, cause: &Cause)
    ensures { Puts W.contents out.old out.new (help_text offers.now cause.now) }
{
    match fault_help(cause) {
        Help::Look => out.put(LOOK),
        Help::Record => out.put(RECORD),
        Help::LeastLines => out.put(unstated_help(offers)),
        Help::TakeOut => out.put(sequence_help(offers)),
        Help::Place => put_place_help(out, offers),
        Help::Rows => put_rows_help(out, offers),
    }
}

/// Why there is none if the file would be too long.
const TOO_LONG: &[u8] = b"the file would be longer than 16777216 bytes\n\
    only a shorter drawing can be fixed this way\n";

/// Puts why a file is not mended: the line of the fault as `check` has it, or another reason; and what may help.
/// `without_help` has what was asked for, and what is known not to help: neither is offered.
pub fn put_unmended<W: Write>(
    out: &mut Outbox<'_, W>,
    asked: &Mends,
    without_help: &Mends,
    reason: &Unmended,
)
    ensures { Puts W.contents out.old out.new (unmended_text asked.now without_help.now reason.now) }
{
    let offers = Offers::of(asked, without_help);
    match reason {
        Unmended::Refused(fault) => {
            put_fault_line(out, fault);
            put_help(out, &offers, &fault.cause);
        }
        Unmended::TakesNoRecord(fault) => {
            put_fault_line(out, fault);
            out.put(NO_RECORD);
        }
        Unmended::Torn => {
            out.put(b"the rows look broken\n");
            put_torn_help(out, asked, &offers);
        }
        Unmended::NoLines => {
            out.put(b"no number of lines up to 8192 would do\n");
            put_no_lines_help(out, &offers);
        }
        Unmended::TooLong => out.put(TOO_LONG),
    }
}
