//! What mending says, byte for byte.
use ans_mend::{
    Edits, Excerpt, GivenRecord, Mended, NonBlink, Reset, TakenOut, Told, Unmended, put_mended,
    put_unmended,
};
use ans_model::fault::{Cause, Fault};
use ans_model::mends::Mends;
use ans_pens::Times;
use ans_samples::puts;

/// Nothing was changed in a file that is mended.
const UNCHANGED: Mended = Mended {
    asked: Mends::NONE,
    tail: None,
    given_record: None,
    width: None,
    comments: None,
    older: None,
    edits: Edits {
        returns: None,
        told: Told {
            kinds: [None; 9],
            bright_backgrounds: None,
        },
        row_ends: None,
        last_ends: None,
        named_colours: None,
    },
    non_blink: NonBlink {
        was: true,
        is: true,
    },
    lines: Reset { was: 25, is: 25 },
    end_mark: None,
    front: false,
    file_size: Reset { was: 2, is: 2 },
};

fn times(count: usize, first: usize) -> Option<Times> {
    Some(Times { count, first })
}

/// A sequence that was removed. The bytes after its own are not part of it.
fn taken(text: &[u8], count: usize, first: usize) -> Option<TakenOut> {
    let mut bytes = [b'?'; 32];
    let length = text.len().min(32);
    bytes[..length].copy_from_slice(&text[..length]);
    Some(TakenOut {
        times: Times { count, first },
        text: Excerpt {
            bytes,
            length: text.len(),
        },
    })
}

/// Each change, once.
fn changed_once() -> Mended {
    let told = Told {
        kinds: [
            taken(b"\x1b[?33h", 1, 0),
            None,
            None,
            None,
            None,
            None,
            None,
            None,
            None,
        ],
        bright_backgrounds: Some(true),
    };
    Mended {
        asked: Mends::NONE,
        tail: times(1, 137),
        given_record: Some(GivenRecord {
            width: 1,
            place: 9,
            cut: 0,
        }),
        width: Some(Reset { was: 80, is: 1 }),
        comments: Some(Reset { was: 0, is: 3 }),
        older: times(1, 30),
        edits: Edits {
            returns: times(1, 4),
            told,
            row_ends: times(1, 2),
            last_ends: times(1, 7),
            named_colours: times(1, 12),
        },
        non_blink: NonBlink {
            was: false,
            is: true,
        },
        lines: Reset { was: 1, is: 2 },
        end_mark: Some(9),
        front: true,
        file_size: Reset { was: 0, is: 28 },
    }
}

const SAID_ONCE: &[u8] = b"cut off 1 byte after the record, at 137\n\
    added an end mark and a record for 1 column, at 9\n\
    columns 1, was 80\n\
    comments 3, was 0\n\
    removed an older record, 1 byte in all, at 30\n\
    added 1 carriage return before a line feed, at 4\n\
    removed <ESC>[?33h at 0\n\
    set the non-blink flag\n\
    removed 1 line end after a full row, at 2\n\
    removed 1 line end, byte 00h or sequence at the end, at 7\n\
    named the colours of 1 sequence, at 12\n\
    lines 2, was 1\n\
    added an end mark at 9\n\
    added the safe beginning, 25 bytes\n\
    file size 28, was 0\n";

/// Changes, several times each, with texts of 32 bytes and of more.
fn changed_often() -> Mended {
    let told = Told {
        kinds: [
            None,
            taken(b"\x1b[?25l", 2, 5),
            taken(b"\x1b[=3h", 1, 0),
            taken(b"\x1b[0;40 D", 3, 17),
            taken(b"\x1b[MCDEFGABCDEFGABCDEFGABCDEFGAB\x0e", 1, 30),
            taken(b"\x1b[0;171;0;0t", 999, 70),
            taken(b"\x1b[6n", 1, 16777215),
            taken(b"\x1b[65;\"\x07\x08\t\n\r and what else is typed\"p", 4, 80),
            taken(b"\x1b", 1, 131),
        ],
        bright_backgrounds: None,
    };
    Mended {
        asked: Mends::NONE,
        tail: times(2, 2724),
        given_record: Some(GivenRecord {
            width: 1024,
            place: 2596,
            cut: 3,
        }),
        width: Some(Reset {
            was: 1024,
            is: 1024,
        }),
        comments: Some(Reset { was: 7, is: 7 }),
        older: times(129, 31),
        edits: Edits {
            returns: times(2, 4),
            told,
            row_ends: times(24, 81),
            last_ends: times(3, 1999),
            named_colours: times(5, 12),
        },
        non_blink: NonBlink {
            was: true,
            is: false,
        },
        lines: Reset { was: 0, is: 8192 },
        end_mark: Some(16777215),
        front: false,
        file_size: Reset {
            was: 4294967295,
            is: 0,
        },
    }
}

const SAID_OFTEN: &[u8] = b"cut off 2 bytes after the record, at 2724\n\
    added an end mark and a record for 1024 columns, at 2596, in place of 3 bytes\n\
    removed an older record, 129 bytes in all, at 31\n\
    added 2 carriage returns before line feeds, first at 4\n\
    removed <ESC>[?25l at 5, and 1 more like it\n\
    removed <ESC>[=3h at 0\n\
    removed <ESC>[0;40<SP>D at 17, and 2 more like it\n\
    removed <ESC>[MCDEFGABCDEFGABCDEFGABCDEFGAB\xe2\x99\xab at 30\n\
    removed <ESC>[0;171;0;0t at 70, and 998 more like it\n\
    removed <ESC>[6n at 16777215\n\
    removed <ESC>[65;\"<BEL><BS><TAB><LF><CR><SP>and<SP>what<SP>else<SP>is<SP>typ .. at 80, and 3 more like it\n\
    removed <ESC> at 131\n\
    cleared the non-blink flag\n\
    removed 24 line ends after full rows, first at 81\n\
    removed 3 line ends, bytes 00h or sequences at the end, first at 1999\n\
    named the colours of 5 sequences, first at 12\n\
    lines 8192, was 0\n\
    added an end mark at 16777215\n\
    file size 0, was 4294967295\n";

/// A switch for bright backgrounds was removed, and the flag is this, as it was.
fn left(flag: bool) -> Mended {
    let switch = Told {
        kinds: [
            taken(b"\x1b[?33h", 1, 0),
            None,
            None,
            None,
            None,
            None,
            None,
            None,
            None,
        ],
        bright_backgrounds: None,
    };
    Mended {
        edits: Edits {
            told: switch,
            ..UNCHANGED.edits
        },
        non_blink: NonBlink {
            was: flag,
            is: flag,
        },
        ..UNCHANGED
    }
}

#[test]
fn a_flag_that_stays_is_said(rt: HostRuntime) {
    for (flag, text) in [
        (
            true,
            b"removed <ESC>[?33h at 0\nleft the non-blink flag set\n".as_slice(),
        ),
        (
            false,
            b"removed <ESC>[?33h at 0\nleft the non-blink flag cleared\n",
        ),
    ] {
        let mended = left(flag);
        assert!(rt;
            puts(text, |out| put_mended(out, &mended)),
            "{}",
            text.len()
        );
    }
}

#[test]
fn changes_are_said(rt: HostRuntime) {
    for (mended, text) in [
        (changed_once(), SAID_ONCE),
        (changed_often(), SAID_OFTEN),
        (UNCHANGED, b""),
    ] {
        assert!(rt;
            puts(text, |out| put_mended(out, &mended)),
            "{}",
            text.len()
        );
    }
}

/// A flag that was given, and what is said where nothing was changed and the non-blink flag is set.
static IDLE: [(Mends, &str); 13] = [
    (
        Mends {
            repair_record: true,
            ..Mends::NONE
        },
        "--record: nothing done, no comments to count and no older record to remove\n",
    ),
    (
        Mends {
            add_record: Some(80),
            ..Mends::NONE
        },
        "--add-record: nothing done, the file has a record\n",
    ),
    (
        Mends {
            columns: Some(80),
            ..Mends::NONE
        },
        "--columns: nothing done, the record states them\n",
    ),
    (
        Mends {
            crlf: true,
            ..Mends::NONE
        },
        "--crlf: nothing done, it needs line feeds and no return (--mixed: those without one)\n",
    ),
    (
        Mends {
            crlf: true,
            mixed: true,
            ..Mends::NONE
        },
        "--crlf: nothing done, no line feed lacks a return\n",
    ),
    (
        Mends {
            take_out: true,
            ..Mends::NONE
        },
        "--take-out: nothing done, nothing of that kind is refused\n",
    ),
    (
        Mends {
            ice: true,
            ..Mends::NONE
        },
        "--ice: nothing done, the flag is set\n",
    ),
    (
        Mends {
            join_rows: true,
            ..Mends::NONE
        },
        "--join-rows: nothing done, it needs two full rows, each with a line end (--mixed: those with one)\n",
    ),
    (
        Mends {
            join_rows: true,
            mixed: true,
            ..Mends::NONE
        },
        "--join-rows: nothing done, no full row has a line end\n",
    ),
    (
        Mends {
            mixed: true,
            ..Mends::NONE
        },
        "--mixed: nothing done, it is for --crlf and --join-rows\n",
    ),
    (
        Mends {
            name_colours: true,
            ..Mends::NONE
        },
        "--name-colours: nothing done, no colour lacks a name\n",
    ),
    (
        Mends {
            lines: Some(25),
            ..Mends::NONE
        },
        "--lines: nothing done, the drawing passes with those that are stated\n",
    ),
    (
        Mends {
            least_lines: true,
            ..Mends::NONE
        },
        "--least-lines: nothing done, the drawing passes with those that are stated\n",
    ),
];

#[test]
fn a_flag_that_did_nothing_is_said(rt: HostRuntime) {
    for (asked, text) in &IDLE {
        let mended = Mended {
            asked: *asked,
            ..UNCHANGED
        };
        assert!(rt;
            puts(text.as_bytes(), |out| put_mended(out, &mended)),
            "{text}"
        );
    }
}

/// A fault, and what is said of it: its line, and what may help.
macro_rules! refused {
    (record, $offset:literal, $cause:expr, $line:literal) => {
        refused!(
            $offset,
            $cause,
            concat!(
                $line,
                "\ntry: --add-record N, which adds a record for N columns\n"
            )
        )
    };
    (lines, $offset:literal, $cause:expr, $line:literal) => {
        refused!(
            $offset,
            $cause,
            concat!(
                $line,
                "\ntry: --least-lines, which sets the smallest number of lines that works\n"
            )
        )
    };
    (take_out, $offset:literal, $cause:expr, $line:literal) => {
        refused!($offset, $cause, concat!($line, "\ntry: --take-out, which removes such sequences if it knows them\n"))
    };
    (rows, $offset:literal, $cause:expr, $line:literal) => {
        refused!(
            $offset,
            $cause,
            concat!(
                $line,
                "\ntry: --crlf --join-rows --take-out --least-lines (anscheck why says which)\n"
            )
        )
    };
    (place, $offset:literal, $cause:expr, $line:literal) => {
        refused!($offset, $cause, concat!($line, "\ntry: --least-lines\n"))
    };
    (other, $offset:literal, $cause:expr, $line:literal) => {
        refused!($offset, $cause,
            concat!(
                $line,
                "\nsee anscheck why for the place, and anscheck help for the fault\n"
            ))
    };
    ($offset:literal, $cause:expr, $text:expr) => {
        (Unmended::Refused(Fault { offset: $offset, cause: $cause }), $text)
    };
}

/// Why a file is not mended, and what is said.
static REASONS: [(Unmended, &str); 27] = [
    refused!(
        record,
        16777216,
        Cause::NoRecord,
        "at 16777216: F1 no SAUCE record"
    ),
    refused!(
        other,
        8,
        Cause::WrongVersion,
        "at 8: F2 SAUCE version is not 00"
    ),
    refused!(other, 97, Cause::WrongKind, "at 97: F3 not Character/ANSi"),
    refused!(
        other,
        107,
        Cause::CommentsMissing,
        "at 107: F4 comment block missing"
    ),
    refused!(
        lines,
        101,
        Cause::LinesUnstated,
        "at 101: F5 number of lines not stated"
    ),
    refused!(
        other,
        99,
        Cause::WidthTooLarge,
        "at 99: F6 width above 1024"
    ),
    refused!(
        other,
        101,
        Cause::LinesTooLarge,
        "at 101: F7 lines above 8192"
    ),
    refused!(
        other,
        3,
        Cause::BytesAfterEndMark,
        "at 3: F8 bytes after the end mark"
    ),
    refused!(
        take_out,
        0,
        Cause::BrokenSequence,
        "at 0: F9 broken sequence"
    ),
    refused!(
        take_out,
        1,
        Cause::NumberTooLarge,
        "at 1: F10 number above 255"
    ),
    refused!(
        take_out,
        2,
        Cause::TooManyParameters,
        "at 2: F11 more than 16 parameters"
    ),
    refused!(
        take_out,
        3,
        Cause::EndInSequence,
        "at 3: F12 content ends in a sequence"
    ),
    refused!(
        take_out,
        4,
        Cause::UnknownSequence,
        "at 4: F13 unknown sequence"
    ),
    refused!(
        take_out,
        5,
        Cause::WrongParameters,
        "at 5: F14 wrong parameters"
    ),
    refused!(
        take_out,
        6,
        Cause::KeyReassigned,
        "at 6: F15 key reassigned"
    ),
    refused!(take_out, 7, Cause::ScreenMode, "at 7: F16 screen mode set"),
    refused!(
        take_out,
        8,
        Cause::ReportAsked,
        "at 8: F17 cursor report asked"
    ),
    refused!(
        place,
        9,
        Cause::OutsideScreen,
        "at 9: F19 place outside the screen"
    ),
    refused!(
        rows,
        10,
        Cause::PrintBelow,
        "at 10: F20 print below the stated lines"
    ),
    refused!(rows, 11, Cause::Scrolls, "at 11: F21 scrolls"),
    refused!(
        other,
        12,
        Cause::PrintUnknownPlace,
        "at 12: F22 print at an unknown place"
    ),
    refused!(
        other,
        13,
        Cause::EraseUnknownPlace,
        "at 13: F23 erase at an unknown place"
    ),
    refused!(other, 14, Cause::MayScroll, "at 14: F24 may scroll"),
    refused!(
        other,
        15,
        Cause::UnknownCell { row: 1, col: 2 },
        "at 15: F25 cell stays unknown (row 1, column 2)"
    ),
    (
        Unmended::Torn,
        "the rows look broken\ntry: --crlf --join-rows --lines N --columns N (anscheck why says which)\n",
    ),
    (
        Unmended::NoLines,
        "no number of lines up to 8192 would do\n\
        try: --crlf --join-rows --take-out (anscheck why says which)\n",
    ),
    (
        Unmended::TooLong,
        "the file would be longer than 16777216 bytes\nonly a shorter drawing can be fixed this way\n",
    ),
];

#[test]
fn reasons_are_said(rt: HostRuntime) {
    for (reason, text) in &REASONS {
        assert!(rt;
            puts(
                text.as_bytes(),
                |out| put_unmended(out, &Mends::NONE, &Mends::NONE, reason)
            ),
            "{text}"
        );
    }
}

/// Everything that can be asked for.
const ALL: Mends = Mends {
    add_record: Some(80),
    crlf: true,
    take_out: true,
    join_rows: true,
    mixed: true,
    name_colours: true,
    least_lines: true,
    lines: None,
    ..Mends::NONE
};

/// A fault at 7.
macro_rules! at_7 {
    ($cause:ident) => {
        Unmended::Refused(Fault { offset: 7, cause: Cause::$cause })
    };
}

/// There is no record, and none can be put.
const TAKES_NONE: Unmended = Unmended::TakesNoRecord(Fault {
    offset: 7,
    cause: Cause::NoRecord,
});

/// What was asked for, why a file is not mended, and what is said.
static HELP: [(Mends, Unmended, &str); 13] = [
    (
        ALL,
        TAKES_NONE,
        "at 7: F1 no SAUCE record\n\
        no record is added if SAUCE00 appears in the file or more follows 1Ah: see anscheck help F1\n",
    ),
    (
        Mends::NONE,
        TAKES_NONE,
        "at 7: F1 no SAUCE record\n\
        no record is added if SAUCE00 appears in the file or more follows 1Ah: see anscheck help F1\n",
    ),
    (
        ALL,
        at_7!(KeyReassigned),
        "at 7: F15 key reassigned\nsee anscheck why for the place, and anscheck help for the fault\n",
    ),
    (
        ALL,
        at_7!(OutsideScreen),
        "at 7: F19 place outside the screen\n\
        see anscheck why for the place, and anscheck help for the fault\n",
    ),
    (
        Mends {
            take_out: false,
            ..ALL
        },
        at_7!(PrintBelow),
        "at 7: F20 print below the stated lines\ntry: --take-out\n",
    ),
    (
        Mends { crlf: false, ..ALL },
        at_7!(Scrolls),
        "at 7: F21 scrolls\ntry: --crlf\n",
    ),
    (
        Mends {
            join_rows: false,
            least_lines: false,
            ..ALL
        },
        at_7!(Scrolls),
        "at 7: F21 scrolls\ntry: --join-rows --least-lines (anscheck why says which)\n",
    ),
    (
        Mends {
            least_lines: false,
            lines: Some(25),
            ..ALL
        },
        at_7!(Scrolls),
        "at 7: F21 scrolls\ntry: --lines N with a larger N\n",
    ),
    (
        Mends {
            join_rows: false,
            ..ALL
        },
        Unmended::Torn,
        "the rows look broken\ntry: --join-rows --lines N --add-record N with another N (anscheck why says which)\n",
    ),
    (
        ALL,
        Unmended::Torn,
        "the rows look broken\ntry: --lines N --add-record N with another N (anscheck why says which)\n",
    ),
    (
        Mends {
            lines: Some(1),
            ..Mends::NONE
        },
        at_7!(OutsideScreen),
        "at 7: F19 place outside the screen\ntry: --lines N with a larger N\n",
    ),
    (
        Mends {
            add_record: Some(80),
            ..Mends::NONE
        },
        Unmended::NoLines,
        "no number of lines up to 8192 would do\n\
        try: --crlf --join-rows --take-out (anscheck why says which)\n",
    ),
    (
        ALL,
        Unmended::NoLines,
        "no number of lines up to 8192 would do\n\
        see anscheck why for the place, and anscheck help for the fault\n",
    ),
];

#[test]
fn what_was_asked_for_is_not_offered_again(rt: HostRuntime) {
    for (asked, reason, text) in &HELP {
        assert!(rt;
            puts(
                text.as_bytes(),
                |out| put_unmended(out, asked, asked, reason)
            ),
            "{text}"
        );
    }
}

/// What was asked for, what is known not to help besides, why a file is not mended, and what is said.
static WITHOUT_HELP: [(Mends, Mends, Unmended, &str); 12] = [
    (
        Mends::NONE,
        Mends {
            crlf: true,
            ..Mends::NONE
        },
        at_7!(Scrolls),
        "at 7: F21 scrolls\ntry: --join-rows --take-out --least-lines (anscheck why says which)\n",
    ),
    (
        Mends::NONE,
        Mends {
            least_lines: false,
            ..ALL
        },
        at_7!(Scrolls),
        "at 7: F21 scrolls\ntry: --least-lines\n",
    ),
    (
        Mends::NONE,
        ALL,
        at_7!(Scrolls),
        "at 7: F21 scrolls\nsee anscheck why for the place, and anscheck help for the fault\n",
    ),
    (
        Mends::NONE,
        Mends {
            take_out: true,
            ..Mends::NONE
        },
        at_7!(ScreenMode),
        "at 7: F16 screen mode set\nsee anscheck why for the place, and anscheck help for the fault\n",
    ),
    (
        Mends::NONE,
        Mends {
            least_lines: true,
            ..Mends::NONE
        },
        at_7!(LinesUnstated),
        "at 7: F5 number of lines not stated\nsee anscheck why for the place, and anscheck help for the fault\n",
    ),
    (
        Mends::NONE,
        Mends {
            least_lines: true,
            ..Mends::NONE
        },
        at_7!(OutsideScreen),
        "at 7: F19 place outside the screen\n\
        see anscheck why for the place, and anscheck help for the fault\n",
    ),
    (
        Mends {
            lines: Some(1),
            ..Mends::NONE
        },
        ALL,
        at_7!(OutsideScreen),
        "at 7: F19 place outside the screen\ntry: --lines N with a larger N\n",
    ),
    (
        Mends {
            join_rows: true,
            ..Mends::NONE
        },
        Mends {
            mixed: false,
            ..ALL
        },
        at_7!(PrintBelow),
        "at 7: F20 print below the stated lines\ntry: --mixed\n",
    ),
    (
        Mends {
            crlf: true,
            ..Mends::NONE
        },
        Mends {
            crlf: true,
            ..Mends::NONE
        },
        Unmended::Torn,
        "the rows look broken\n\
        try: --join-rows --mixed --lines N --columns N (anscheck why says which)\n",
    ),
    (
        Mends::NONE,
        ALL,
        Unmended::Torn,
        "the rows look broken\ntry: --lines N --columns N (anscheck why says which)\n",
    ),
    (
        Mends {
            least_lines: true,
            ..Mends::NONE
        },
        Mends {
            crlf: true,
            take_out: true,
            ..Mends::NONE
        },
        Unmended::NoLines,
        "no number of lines up to 8192 would do\ntry: --join-rows\n",
    ),
    (
        Mends {
            crlf: true,
            join_rows: true,
            ..Mends::NONE
        },
        Mends::NONE,
        Unmended::NoLines,
        "no number of lines up to 8192 would do\n\
        try: --mixed --take-out (anscheck why says which)\n",
    ),
];

#[test]
fn what_does_not_help_is_not_offered(rt: HostRuntime) {
    for (asked, without_help, reason, text) in &WITHOUT_HELP {
        assert!(rt;
            puts(
                text.as_bytes(),
                |out| put_unmended(out, asked, without_help, reason)
            ),
            "{text}"
        );
    }
}
