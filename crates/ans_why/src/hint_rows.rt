//! What is said in the hints that are counted: a row for each, in their order.

ghost use Rattle.std.specs.Prelude.{◌≡◌};
ghost use Rattle.ans_why.specs.HintRows.{bare_line_feeds, ended_rows, hint_of, words_for, words_of};

/// A text for one thing, and a text for more of them.
#[derive(Clone, Copy)]
pub(crate) struct Wording {
    pub(crate) one: &'static [u8],
    pub(crate) more: &'static [u8],
}

impl Wording {
    /// The text for this many.
    pub(crate) fn of(self, count: usize) -> &'static [u8]
        ensures { result.now ≡ words_for (words_of self) count }
    {
        if count == 1 { self.one } else { self.more }
    }
}

/// What a hint says: what comes before the number of times and after it, and the advice after the offset.
#[derive(Clone, Copy)]
pub(crate) struct HintRow {
    pub(crate) before: &'static [u8],
    pub(crate) what: Wording,
    pub(crate) advice: Wording,
}

const NO_ADVICE: Wording = Wording {
    one: b"",
    more: b"",
};

/// What to do with text of another system.
const CONVERT: Wording = Wording {
    one: b": convert the text to code page 437",
    more: b": convert the text to code page 437",
};

/// What to do with line feeds without a return, or with some of them.
const CRLF: Wording = Wording {
    one: b": --crlf",
    more: b": --crlf",
};

const SOME_CRLF: Wording = Wording {
    one: b": --crlf --mixed",
    more: b": --crlf --mixed",
};

/// What to do with full rows that have a line end, or with some of them.
const JOIN_ROWS: Wording = Wording {
    one: b": --join-rows",
    more: b": --join-rows",
};

const SOME_JOIN_ROWS: Wording = Wording {
    one: b": --join-rows --mixed",
    more: b": --join-rows --mixed",
};

/// Line feeds without a return; whether others have one.
pub(crate) fn bare_line_feeds(mixed: bool) -> HintRow
    ensures { hint_of result ≡ bare_line_feeds mixed }
{
    HintRow {
        before: b"",
        what: Wording {
            one: b"bare line feed makes a staircase",
            more: b"bare line feeds make a staircase",
        },
        advice: if mixed { SOME_CRLF } else { CRLF },
    }
}

/// Full rows with a line end; whether others have none.
pub(crate) fn ended_rows(mixed: bool) -> HintRow
    ensures { hint_of result ≡ ended_rows mixed }
{
    HintRow {
        before: b"",
        what: Wording {
            one: b"full row is followed by a line end and leaves a blank row",
            more: b"full rows are followed by a line end and leave a blank row",
        },
        advice: if mixed { SOME_JOIN_ROWS } else { JOIN_ROWS },
    }
}

/// Rows of a drawing for more columns.
pub(crate) const ROWS_OVER: Wording = Wording {
    one: b"row is wider than the screen",
    more: b"rows are wider than the screen",
};

/// Characters over others in the last column.
pub(crate) const OVERPRINTS: HintRow = HintRow {
    before: b"wrap is off, and ",
    what: Wording {
        one: b"character overprints the last column",
        more: b"characters overprint the last column",
    },
    advice: NO_ADVICE,
};

/// Characters of three or four bytes.
pub(crate) const WIDE_CHARACTERS: HintRow = HintRow {
    before: b"",
    what: Wording {
        one: b"character looks like UTF-8",
        more: b"characters look like UTF-8",
    },
    advice: CONVERT,
};

/// Letters of two bytes.
pub(crate) const TWO_BYTE_LETTERS: HintRow = HintRow {
    before: b"",
    what: Wording {
        one: b"letter looks like UTF-8",
        more: b"letters look like UTF-8",
    },
    advice: CONVERT,
};

/// Letters of Latin-1.
pub(crate) const LATIN_LETTERS: HintRow = HintRow {
    before: b"",
    what: Wording {
        one: b"letter looks like Latin-1",
        more: b"letters look like Latin-1",
    },
    advice: CONVERT,
};

/// Codes of bulletin boards.
pub(crate) const BOARD_CODES: HintRow = HintRow {
    before: b"",
    what: Wording {
        one: b"bulletin-board colour code (|07, @X1F) is printed as text",
        more: b"bulletin-board colour codes (|07, @X1F) are printed as text",
    },
    advice: NO_ADVICE,
};

/// Colours that ANSI.SYS does not know.
pub(crate) const MODERN_COLOURS: HintRow = HintRow {
    before: b"",
    what: Wording {
        one: b"sequence uses modern colours (38, 48, 90 to 97, 100 to 107)",
        more: b"sequences use modern colours (38, 48, 90 to 97, 100 to 107)",
    },
    advice: NO_ADVICE,
};

/// What switches something off only on modern terminals.
pub(crate) const OFF_SWITCHES: HintRow = HintRow {
    before: b"",
    what: Wording {
        one: b"sequence uses modern off switches (22, 27, 39, 49)",
        more: b"sequences use modern off switches (22, 27, 39, 49)",
    },
    advice: Wording {
        one: b": write ESC[0m and the colours that stay",
        more: b": write ESC[0m and the colours that stay",
    },
};

/// Characters that blink.
pub(crate) const BLINKING: HintRow = HintRow {
    before: b"",
    what: Wording {
        one: b"character blinks",
        more: b"characters blink",
    },
    advice: Wording {
        one: b"; if it should have a bright background: --ice",
        more: b"; if they should have bright backgrounds: --ice",
    },
};

/// Characters in dark grey on black.
pub(crate) const DARK_GREY: HintRow = HintRow {
    before: b"",
    what: Wording {
        one: b"character is dark grey on black",
        more: b"characters are dark grey on black",
    },
    advice: Wording {
        one: b"; some terminals show it as black",
        more: b"; some terminals show them as black",
    },
};

/// Sequences without their ESC.
pub(crate) const LOST_ESCAPES: HintRow = HintRow {
    before: b"",
    what: Wording {
        one: b"sequence has lost its ESC",
        more: b"sequences have lost their ESC",
    },
    advice: Wording {
        one: b": put 1Bh before its [",
        more: b": put 1Bh before each [",
    },
};

/// Sequences with two characters in place of ESC.
pub(crate) const SHOWN_ESCAPES: HintRow = HintRow {
    before: b"",
    what: Wording {
        one: b"sequence has ^[ or <- in place of ESC",
        more: b"sequences have ^[ or <- in place of ESC",
    },
    advice: Wording {
        one: b": put 1Bh there",
        more: b": put 1Bh there",
    },
};

/// Sequences with 9Bh in place of ESC and `[`.
pub(crate) const SHORT_ESCAPES: HintRow = HintRow {
    before: b"",
    what: Wording {
        one: b"sequence begins with 9Bh",
        more: b"sequences begin with 9Bh",
    },
    advice: Wording {
        one: b": write ESC[ in its place",
        more: b": write ESC[ in its place",
    },
};

/// Code page 437 that was read as Latin-1 and written as UTF-8.
pub(crate) const CONVERTED: HintRow = HintRow {
    before: b"",
    what: Wording {
        one: b"character looks like Latin-1 that was made UTF-8",
        more: b"characters look like Latin-1 that was made UTF-8",
    },
    advice: Wording {
        one: b": convert the text from UTF-8 to Latin-1",
        more: b": convert the text from UTF-8 to Latin-1",
    },
};

/// Returns in a text that has no line feeds.
pub(crate) const LONE_RETURNS: HintRow = HintRow {
    before: b"",
    what: Wording {
        one: b"return comes without a line feed",
        more: b"returns come without line feeds",
    },
    advice: Wording {
        one: b": put 0Ah after it",
        more: b": put 0Ah after each",
    },
};
