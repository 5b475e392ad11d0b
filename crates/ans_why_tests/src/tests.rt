//! Contents with their hints, from bytes to the whole text.

use ans_hints::{Hints, OtherWidths};
use ans_kinds::{KindsUsed, Players};
use ans_model::fault::Cause;
use ans_model::size::Size;
use ans_model::start::Start;
use ans_pens::Times;
use ans_samples::{Narrow, sample_file};
use ans_sauce::{Found, Judged, split};
use ans_why::{
    Known, Pass, RecordRefusal, Terminal, TextDamage, Why, font_name, has_other_code_page,
    known_behind_end_mark, known_file, known_found, known_sequence, put_damage, put_hints, put_why,
};
use ans_write::{Outbox, Tried};
use std::process::Abort;
use std::test::Fail;

/// A content on a screen of some columns and lines, and the lines of its hints.
struct Row {
    width: usize,
    lines: usize,
    content: &'static [u8],
    text: &'static str,
}

/// The lines of hints, each with how many there are and where the first is, or with the lines that it speaks of.
macro_rules! text {
    (nothing) => { "" };
    (some_loose 1 $at:tt) => {
        concat!("hint: 1 bare line feed makes a staircase, at ", $at, ": --crlf --mixed\n")
    };
    (loose 1 $at:tt) => { concat!("hint: 1 bare line feed makes a staircase, at ", $at, ": --crlf\n") };
    (loose $n:tt $at:tt) => {
        concat!("hint: ", $n, " bare line feeds make a staircase, first at ", $at, ": --crlf\n")
    };
    (full 1 $at:tt) => {
        concat!(
            "hint: 1 full row is followed by a line end and leaves a blank row, at ", $at,
            ": --join-rows --mixed\n"
        )
    };
    (full $n:tt $at:tt) => {
        concat!(
            "hint: ", $n, " full rows are followed by a line end and leave a blank row, first at ", $at,
            ": --join-rows\n"
        )
    };
    (wider $n:tt $at:tt $columns:tt) => {
        concat!(
            "hint: ", $n, " rows are wider than the screen, first at ", $at, "; they need at least ", $columns,
            " columns: --columns ", $columns, "\n"
        )
    };
    (over 1 $at:tt) => {
        concat!("hint: wrap is off, and 1 character overprints the last column, at ", $at, "\n")
    };
    (over $n:tt $at:tt) => {
        concat!("hint: wrap is off, and ", $n, " characters overprint the last column, first at ", $at, "\n")
    };
    (letter 1 $at:tt) => {
        concat!("hint: 1 letter looks like UTF-8, at ", $at, ": convert the text to code page 437\n")
    };
    (letter $n:tt $at:tt) => {
        concat!("hint: ", $n, " letters look like UTF-8, first at ", $at, ": convert the text to code page 437\n")
    };
    (latin 1 $at:tt) => {
        concat!("hint: 1 letter looks like Latin-1, at ", $at, ": convert the text to code page 437\n")
    };
    (latin $n:tt $at:tt) => {
        concat!("hint: ", $n, " letters look like Latin-1, first at ", $at, ": convert the text to code page 437\n")
    };
    (board 1 $at:tt) => {
        concat!("hint: 1 bulletin-board colour code (|07, @X1F) is printed as text, at ", $at, "\n")
    };
    (board $n:tt $at:tt) => {
        concat!("hint: ", $n, " bulletin-board colour codes (|07, @X1F) are printed as text, first at ", $at, "\n")
    };
    (wide 1 $at:tt) => {
        concat!("hint: 1 character looks like UTF-8, at ", $at, ": convert the text to code page 437\n")
    };
    (wide $n:tt $at:tt) => {
        concat!("hint: ", $n, " characters look like UTF-8, first at ", $at, ": convert the text to code page 437\n")
    };
    (modern 1 $at:tt) => {
        concat!("hint: 1 sequence uses modern colours (38, 48, 90 to 97, 100 to 107), at ", $at, "\n")
    };
    (modern $n:tt $at:tt) => {
        concat!("hint: ", $n, " sequences use modern colours (38, 48, 90 to 97, 100 to 107), first at ", $at, "\n")
    };
    (off 1 $at:tt) => {
        concat!(
            "hint: 1 sequence uses modern off switches (22, 27, 39, 49), at ", $at,
            ": write ESC[0m and the colours that stay\n"
        )
    };
    (off $n:tt $at:tt) => {
        concat!(
            "hint: ", $n, " sequences use modern off switches (22, 27, 39, 49), first at ", $at,
            ": write ESC[0m and the colours that stay\n"
        )
    };
    (blinks 1 $at:tt) => {
        concat!(
            "hint: 1 character blinks, at ", $at, "; if it should have a bright background: --ice\n"
        )
    };
    (blinks $n:tt $at:tt) => {
        concat!(
            "hint: ", $n, " characters blink, first at ", $at,
            "; if they should have bright backgrounds: --ice\n"
        )
    };
    (dark 1 $at:tt) => {
        concat!("hint: 1 character is dark grey on black, at ", $at, "; some terminals show it as black\n")
    };
    (dark $n:tt $at:tt) => {
        concat!(
            "hint: ", $n, " characters are dark grey on black, first at ", $at,
            "; some terminals show them as black\n"
        )
    };
    (empty 1) => { "hint: the last line is empty\n" };
    (empty $lines:tt) => { concat!("hint: the last ", $lines, " lines are empty\n") };
    (modern 1 $at:tt blinks 1 $first:tt) => {
        concat!(
            "hint: 1 sequence uses modern colours (38, 48, 90 to 97, 100 to 107), at ", $at, "\n\
            hint: 1 character blinks, at ", $first,
            "; if it should have a bright background: --ice\n"
        )
    };
    (full 1 $at:tt wider $m:tt $first:tt $columns:tt) => {
        concat!(
            "hint: 1 full row is followed by a line end and leaves a blank row, at ", $at, ": --join-rows --mixed\n\
            hint: ", $m, " rows are wider than the screen, first at ", $first, "; they need at least ", $columns,
            " columns: --columns ", $columns, "\n"
        )
    };
    (full 1 $at:tt empty 1) => {
        concat!(
            "hint: 1 full row is followed by a line end and leaves a blank row, at ", $at, ": --join-rows --mixed\n\
            hint: the last line is empty\n"
        )
    };
    (over $n:tt $at:tt empty $lines:tt) => {
        concat!(
            "hint: wrap is off, and ", $n, " characters overprint the last column, first at ", $at, "\n\
            hint: the last ", $lines, " lines are empty\n"
        )
    };
}

macro_rules! rows {
    ($(screen($width:literal x $lines:literal, $content:literal) => $($hint:ident $(($($said:tt),+))?)+;)*) => {
        [$(Row {
            width: $width,
            lines: $lines,
            content: $content,
            text: text!($($hint $($($said)+)?)+),
        }),*]
    };
}

static LINE_FEEDS: [Row; 8] = rows! {
    screen(2 x 1, b"Hi") => nothing;
    screen(4 x 2, b"ab\r\ncd") => nothing;
    screen(4 x 2, b"ab\n\rcd") => nothing;
    screen(4 x 2, b"\nab") => nothing;
    screen(4 x 2, b"ab\ncd") => loose(1, 2);
    screen(4 x 1, b"ab\n") => loose(1, 2);
    screen(9 x 3, b"a\nb\nc") => loose(2, 1);
    screen(9 x 3, b"a\r\nb\n\x1b[D\nc") => some_loose(1, 4);
};

static FULL_ROWS: [Row; 19] = rows! {
    screen(4 x 3, b"abcd\r\nab") => full(1, 4);
    screen(4 x 3, b"abcd\nab") => full(1, 4);
    screen(4 x 3, b"abcd\r\nabcd") => full(1, 4);
    screen(4 x 5, b"abcd\r\nabcd\na\x1b[5;1Ha") => full(2, 4);
    screen(4 x 2, b"abcd\rab") => nothing;
    screen(4 x 2, b"abc\r\nab") => nothing;
    screen(4 x 2, b"\x1b[?7labcd\r\nab") => nothing;
    screen(4 x 1, b"\x1b[1;4Hd\n") => full(1, 7);
    screen(4 x 3, b"abcd\x1b[0m\r\nab") => full(1, 8);
    screen(4 x 3, b"abcd\r\x1b[0m\nab") => full(1, 4);
    screen(4 x 3, b"abcd\x07\x1b[s\x1b[?7l\r\x1b[m\x07\nab") => full(1, 13);
    screen(4 x 3, b"abcd\x1b[0m\nab") => full(1, 8);
    screen(4 x 3, b"abcd\x1b[C\r\nab") => nothing;
    screen(4 x 3, b"abcd\x1b[K\r\nab") => full(1, 7);
    screen(4 x 3, b"abcd\x08\r\nab") => nothing;
    screen(4 x 3, b"abcd\r\r\nab") => nothing;
    screen(4 x 3, b"abcd\r\x1b[C\n\ra") => nothing;
    screen(4 x 3, b"abcd\x1b[2;1H\r\nab") => nothing;
    screen(4 x 3, b"abcdefgh\r\nab") => full(1, 8);
};

/// Four rows or more run over the edge, none of them twice, and they are more than half of all that end.
static WIDER_ROWS: [Row; 16] = rows! {
    screen(4 x 8, b"abcde\r\nabcde\r\nabcde\r\nabcde\r\n") => wider(4, 5, 5);
    screen(4 x 6, b"abcde\r\nabcde\r\nabcde\r\n") => nothing;
    screen(4 x 6, b"abcde\nabcde\nabcde") => loose(2, 5);
    screen(4 x 8, b"abcde\r\nabcde\r\nabcde\r\nabcde") => nothing;
    screen(4 x 8, b"abcde\r\nabcdef\r\nabcdef\r\nabcde\r\n") => wider(4, 5, 6);
    screen(4 x 8, b"abcde\r\nabcdef\r\nabcdefg\r\nabcde\r\n") => wider(4, 5, 7);
    screen(4 x 8, b"abcde\r\nabcdef\r\nabcde\r\n") => empty(2);
    screen(4 x 9, b"abcde\r\nabcde\r\nabcde\r\nabcdefghi\r\n") => nothing;
    screen(4 x 9, b"abcdefgh\r\nabcde\r\nabcde\r\nabcde\r\n") => full(1, 8) wider(4, 8, 8);
    screen(4 x 8, b"abc\x1b[C\x1b[De\r\nabcde\r\nabcde\r\nabcde\r\n") => empty(1);
    screen(4 x 8, b"\x1b[Cbcde\r\nabcd\x1b[0me\r\nabcde\r\x07\nabcde\r\n") => wider(4, 7, 5);
    screen(4 x 9, b"abcde\x1b[2;2Hb\r\nabcde\r\nabcde\r\nabcde\r\n") => empty(1);
    screen(4 x 7, b"\x1b[?7labcde\r\nabcde\r\nabcde\r\n") => over(3, 9) empty(4);
    screen(4 x 9, b"abcd\r\nabcde\r\nabcde\r\nabcde\r\n") => full(1, 4) empty(1);
    screen(4 x 10, b"a\r\na\r\nabcde\r\nabcde\r\nabcde\r\nabcde\r\n") => wider(4, 11, 5);
    screen(4 x 8, b"a\r\n\x1b[Aa\r\n\x1b[Aa\r\n\x1b[Aa\r\n\x1b[Aabcde\r\nabcde\r\nabcde\r\nabcde\r\n")
        => nothing;
};

static OVERPRINTS: [Row; 8] = rows! {
    screen(4 x 1, b"\x1b[?7labcd") => nothing;
    screen(4 x 1, b"\x1b[?7labcdef") => over(2, 9);
    screen(4 x 1, b"\x1b[?7labcd\x1b[0me") => over(1, 13);
    screen(4 x 1, b"\x1b[?7labcd\x1b[?7he") => over(1, 14);
    screen(4 x 1, b"\x1b[?7labcd\x1b[De") => nothing;
    screen(4 x 2, b"\x1b[?7labcd\r\nabcd") => nothing;
    screen(4 x 1, b"abcd\x1b[?7l") => nothing;
    screen(4 x 1, b"\x1b[?7labcd\tx") => nothing;
};

static FOREIGN_TEXT: [Row; 27] = rows! {
    screen(9 x 1, b"Caf\xc3\xa9") => letter(1, 3);
    screen(9 x 1, b"\xc3\x89l\xc3\xa8ve") => letter(1, 3);
    screen(9 x 1, b"a\xc3\x97\xc3\xb7b") => nothing;
    screen(9 x 1, b"a\xc3\x7fb\xc3\xc0c\xc2\xa9") => nothing;
    screen(9 x 1, b"a\xc3\x80b\xc3\xbf") => letter(1, 1);
    screen(9 x 1, b"gr\xc3\xbcn\xc3\xaf") => letter(2, 2);
    screen(9 x 1, b"e\xc3\xbf\xc4\xb4") => nothing;
    screen(9 x 1, b"[\xc3\xa9]") => nothing;
    screen(9 x 1, b"d\xe9j\xe0 vu") => latin(1, 1);
    screen(9 x 1, b"\xfcber") => nothing;
    screen(9 x 1, b"D\xe9J") => nothing;
    screen(9 x 1, b"stra\xe1e w\xe0r") => nothing;
    screen(9 x 1, b"a\xe4b\xf6c\xfcd") => latin(3, 1);
    screen(9 x 1, b"Z\xfcrich") => latin(1, 1);
    screen(9 x 1, b"a\xe7b\xf0c\xf5d") => nothing;
    screen(9 x 1, b"a\xe4\xf6b") => nothing;
    screen(9 x 1, b"\x82t\x82") => nothing;
    screen(9 x 1, b"|07Hi") => board(1, 0);
    screen(9 x 1, b"|23a|24b") => board(1, 0);
    screen(9 x 1, b"|1|12|7a|") => nothing;
    screen(9 x 1, b"|1aH||15b") => board(1, 5);
    screen(9 x 1, b"@X1FHi") => board(1, 0);
    screen(12 x 1, b"a|07b@X1Fc") => board(2, 1);
    screen(9 x 1, b"@X1fHi") => nothing;
    screen(9 x 1, b"@X0G@x1F@") => nothing;
    screen(9 x 1, b"a@Xactor") => nothing;
    screen(9 x 1, b"a@bc.org") => nothing;
};

static WIDE_CHARACTERS: [Row; 15] = rows! {
    screen(9 x 1, b"\xe2\x96\x88") => wide(1, 0);
    screen(9 x 1, b"a\xf0\x9f\x98\x80\xe2\x96\x88") => wide(2, 1);
    screen(9 x 1, b"\xed\x9f\xbf\xee\x80\x80\xf4\x8f") => wide(2, 0);
    screen(4 x 2, b"abc\xe2\x96\x88") => wide(1, 3);
    screen(9 x 1, b"\xc3\xa9") => nothing;
    screen(9 x 1, b"\xe0\x80\x80") => nothing;
    screen(9 x 1, b"\xed\xa0\x80") => nothing;
    screen(9 x 1, b"\xf0\x8f\xbf\xbf") => nothing;
    screen(9 x 1, b"\xf4\x90\x80\x80") => nothing;
    screen(9 x 1, b"\xf0\xb0\xb1\xb2\xdb") => nothing;
    screen(9 x 1, b"\xea\xb0\xb1") => nothing;
    screen(9 x 1, b"\xe2\x96") => nothing;
    screen(9 x 1, b"\xf0\x9f\x98") => nothing;
    screen(9 x 1, b"\xe2\x96\x07\x88") => nothing;
    screen(9 x 1, b"\xe2\x1b[0m\x96\x88") => nothing;
};

static COLOURS: [Row; 15] = rows! {
    screen(9 x 1, b"\x1b[37;90mA\x1b[48m\x1b[107;38m") => modern(3, 0);
    screen(9 x 1, b"A\x1b[97;100m") => modern(1, 1);
    screen(9 x 1, b"A\x1b[37;47;89;98;99;108m") => nothing;
    screen(9 x 1, b"A\x1b[37;39;47;49m") => off(1, 1);
    screen(9 x 1, b"\x1b[22mA\x1b[27mA\x1b[0m") => off(2, 0);
    screen(9 x 1, b"\x1b[5mab\x1b[0mc") => blinks(2, 4);
    screen(3 x 3, b"\x1b[5mabcdefg") => blinks(7, 4);
    screen(9 x 1, b"a\x1b[5m\t\x1b[K\x1b[0m") => nothing;
    screen(9 x 1, b"\x1b[5ma") => blinks(1, 4);
    screen(9 x 1, b"\x1b[38;5;208mA") => modern(1, 0) blinks(1, 11);
    screen(9 x 1, b"\x1b[1;30mab\x1b[0mcdefghi") => dark(2, 7);
    screen(14 x 1, b"\x1b[1;30ma\x1b[0mbcdefghij \x00\xff") => nothing;
    screen(12 x 1, b"\x1b[1;30ma\x1b[0mbcdefghi \x00") => dark(1, 7);
    screen(9 x 1, b"\x1b[1;30m \x00\xff") => nothing;
    screen(9 x 1, b"\x1b[1;30;44ma\x1b[40m \x1b[30;47mb") => nothing;
};

static EMPTY_ROWS: [Row; 11] = rows! {
    screen(4 x 3, b"") => empty(3);
    screen(4 x 3, b"a") => empty(2);
    screen(4 x 3, b"abcde") => empty(1);
    screen(4 x 3, b"\x1b[3;1Ha") => nothing;
    screen(4 x 3, b"\x1b[3;1Ha\x1b[2J") => nothing;
    screen(4 x 3, b"a\x1b[3;1H\x1b[K") => empty(2);
    screen(9 x 3, b"\t") => empty(2);
    screen(4 x 3, b"\t") => empty(1);
    screen(3 x 3, b"\t") => nothing;
    screen(9 x 3, b"\x1b[2;3H\x1b[s\x1b[1;1H\x1b[ua") => empty(1);
    screen(9 x 9, b"\x1b[4B\x1b[2A\x1b[3C\x1b[D\x08a") => empty(6);
};

/// Asserts the lines of hints, and of a font.
fn expect_hints(rt: &impl Abort, hints: Hints, font: &[u8], text: &str) {
    let mut device = Tried::new(Narrow::new(4096));
    let mut out = Outbox::new(&mut device);
    put_hints(&mut out, &hints, font);
    assert!(rt; out.finish().is_ok());
    assert_eq!(rt; device.inner().held(), text.as_bytes());
}

/// Asserts the lines of the hints of a content on a screen of this size, and of a font.
fn expect_content(
    rt: &impl Abort,
    (width, lines): (usize, usize),
    content: &[u8],
    font: &[u8],
    text: &str,
) {
    assert!(rt; 1 <= width && width <= 80 && 1 <= lines && lines <= 10 && content.len() < 300);
    let hints = Hints::of(Size::new(width, lines), false, content, content.len());
    expect_hints(rt, hints, font, text);
}

fn expect_rows(rt: &impl Abort, rows: &[Row]) {
    for row in rows {
        expect_content(rt, (row.width, row.lines), row.content, b"", row.text);
    }
}

#[test]
fn contents_have_their_hints(rt: HostRuntime) {
    expect_rows(&rt, &LINE_FEEDS);
    expect_rows(&rt, &FULL_ROWS);
    expect_rows(&rt, &WIDER_ROWS);
    expect_rows(&rt, &OVERPRINTS);
    expect_rows(&rt, &WIDE_CHARACTERS);
    expect_rows(&rt, &FOREIGN_TEXT);
    expect_rows(&rt, &COLOURS);
    expect_rows(&rt, &EMPTY_ROWS);
}

/// `ESC[0m` and rows of 80 glyphs, each with a return and a line feed, up to the one that scrolls.
#[test]
fn full_rows_of_a_screen(rt: HostRuntime) {
    let mut content = [b'x'; 250];
    content[..4].copy_from_slice(b"\x1b[0m");
    for end in [84, 166, 248] {
        content[end] = b'\r';
        content[end + 1] = b'\n';
    }
    let text =
        "hint: 3 full rows are followed by a line end and leave a blank row, first at 84: --join-rows\n";
    expect_content(&rt, (80, 5), &content, b"", text);
}

#[test]
fn all_hints_have_an_order(rt: HostRuntime) {
    let content = b"ab\n\x1b[96mc\xe2\x96\x88\x1b[5md\x1b[3;10He\r\n";
    expect_content(
        &rt,
        (10, 6),
        content,
        b"IBM VGA 866",
        "hint: 1 bare line feed makes a staircase, at 2: --crlf --mixed\n\
            hint: 1 full row is followed by a line end and leaves a blank row, at 25: --join-rows --mixed\n\
            hint: 1 character looks like UTF-8, at 9: convert the text to code page 437\n\
            hint: 1 sequence uses modern colours (38, 48, 90 to 97, 100 to 107), at 3\n\
            hint: 2 characters blink, first at 16; if they should have bright backgrounds: --ice\n\
            hint: the font IBM VGA 866 is not a code page 437 font; some characters may look different\n\
            hint: the last 3 lines are empty\n",
    );
}

macro_rules! fronts {
    ($(front($end:literal, $content:literal) => $($hint:ident $(($($said:tt),+))?)+;)*) => {
        [$(($content, $end, text!($($hint $($($said)+)?)+))),*]
    };
}

/// Contents, how many of their first bytes count, and what is said about those.
static FRONTS: [(&[u8], usize, &str); 8] = fronts! {
    front(3, b"ab\ncd\n") => loose(1, 2);
    front(3, b"ab\n\rcd") => nothing;
    front(6, b"abcd\r\n") => full(1, 4);
    front(5, b"abcd\r\n") => nothing;
    front(3, b"Caf\xc3\xa9") => letter(1, 3);
    front(1, b"\xe2\x96\x88") => wide(1, 0);
    front(2, b"a\xe2\x96") => nothing;
    front(4, b"a\xe2\x96\x88\xe2\x96\x88") => wide(1, 1);
};

#[test]
fn what_stands_behind_tells_of_the_front(rt: HostRuntime) {
    for (content, end, text) in FRONTS {
        assert!(rt; end <= content.len() && content.len() < 200);
        let hints = Hints {
            empty_rows: 0,
            ..Hints::of(Size::new(4, 9), false, content, end)
        };
        expect_hints(&rt, hints, b"", text);
    }
}

#[test]
fn no_glyph_blinks_with_the_flag(rt: HostRuntime) {
    let hints = Hints::of(Size::new(2, 1), true, b"\x1b[5mab", 6);
    expect_hints(&rt, hints, b"", "");
}

/// The name of a font, and whether its code page is another one than 437.
static FONTS: [(&[u8], bool); 14] = [
    (b"", false),
    (b"IBM VGA", false),
    (b"IBM VGA 437", false),
    (b"IBM VGA50", false),
    (b"IBM VGA25G 437", false),
    (b"IBM EGA", false),
    (b"IBM EGA43 437", false),
    (b"IBM VGA 866", true),
    (b"IBM VGA25G 850", true),
    (b"ibm vga", true),
    (b"IBM VGA437", true),
    (b" IBM VGA", true),
    (b"IBM VGA\x01", true),
    (b"Amiga Topaz 1", true),
];

/// The record's field of the font, and the name in it.
static FONT_FIELDS: [(&[u8], &[u8]); 10] = [
    (b"", b""),
    (b"IBM VGA", b"IBM VGA"),
    (b"IBM VGA  ", b"IBM VGA"),
    (b"IBM VGA\0rubbish", b"IBM VGA"),
    (b"IBM VGA 437\0\0 866", b"IBM VGA 437"),
    (b"IBM VGA  \0\xb0", b"IBM VGA"),
    (b"Amiga Topaz 1\0IBM VGA", b"Amiga Topaz 1"),
    (b"IBM\0 VGA", b"IBM"),
    (b"\0IBM VGA 866", b""),
    (b"  \0x", b""),
];

#[test]
fn fonts_have_their_names_and_code_pages(rt: HostRuntime) {
    for (name, is_another) in FONTS {
        assert!(rt; has_other_code_page(name) == is_another, "{name:?}");
    }
    for (field, name) in FONT_FIELDS {
        assert!(rt; font_name(field) == name, "{field:?}");
    }
    let text =
        "hint: the font \u{2665} Topaz is not a code page 437 font; some characters may look different\n";
    expect_content(&rt, (2, 1), b"Hi", b"\x03 Topaz", text);
    expect_content(&rt, (2, 1), b"Hi", b"\x03 Topaz\0rubbish", text);
    expect_content(&rt, (2, 1), b"Hi", b"IBM VGA\0rubbish", "");
}

/// Contents on 4 columns and 9 lines, and whether their rows look broken.
static TORN: [(&[u8], bool); 17] = [
    (b"ab\ncd", true),
    (b"ab\ncd\r", false),
    (b"\n\nab", false),
    (b"abcd\r\nabcd\r\na", true),
    (b"abcd\r\nabcd\r\n", false),
    (b"abcd\r\nabcd\r\n\t", true),
    (b"abcd\r\nabcdabcd\r\na", false),
    (b"abcdabcd\r\nabcd\r\na", false),
    (b"abcd\r\na", false),
    (b"abcd\r\nabcd\r\nabcd", true),
    (b"abcd\r\nabcd\r\n\x1b[2J", false),
    (b"abcde\r\nabcde\r\nabcde\r\nabcde\r\n", true),
    (b"abcde\r\nabcde\r\nabcde\r\n", false),
    (b"abcde\r\nabcde\r\nabcde", false),
    (b"\xe2\x96\x88", true),
    (b"a\xc3\xa9", false),
    (b"", false),
];

#[test]
fn some_rows_are_torn(rt: HostRuntime) {
    for (content, are_torn) in TORN {
        assert!(rt; content.len() < 100);
        let hints = Hints::of(Size::new(4, 9), false, content, content.len());
        assert!(rt; hints.are_torn() == are_torn, "{content:?}");
    }
}

/// Bytes, and what they are known as where a content is refused for an unknown sequence.
static KNOWN: [(&[u8], Option<Known>); 33] = [
    (b"\x1b[MFT120O3L8CDE\x0e", Some(Known::Music)),
    (b"\x1b[Na#b+c-d.e<f>g h\x0e", Some(Known::Music)),
    (b"\x1b[|\x0erest", Some(Known::Music)),
    (b"\x1b[MF", None),
    (b"\x1b[MF!\x0e", None),
    (b"\x1b[M\x1b[0m\x0e", None),
    (b"\x1b[0;40 D", Some(Known::FontSelection)),
    (b"\x1b[12;3 Dabc", Some(Known::FontSelection)),
    (b"\x1b[0;0 ", None),
    (b"\x1b[0;0D", None),
    (b"\x1b[;0 D", None),
    (b"\x1b[0; D", None),
    (b"\x1b[0;1;2 D", None),
    (b"\x1b[1;255;170;0t", Some(Known::TrueColour)),
    (b"\x1b[0;1;2;3tx", Some(Known::TrueColour)),
    (b"\x1b[2;255;170;0t", None),
    (b"\x1b[1;255;170t", None),
    (b"\x1b[?33h", Some(Known::BrightBackgrounds)),
    (b"\x1b[?33l", Some(Known::BrightBackgrounds)),
    (b"\x1b[?33", None),
    (b"\x1b[?333h", None),
    (b"\x1b[33h", None),
    (b"\x1b[?25l", Some(Known::CursorSwitch)),
    (b"\x1b[?25h", Some(Known::CursorSwitch)),
    (b"\x1b[?25;1h", None),
    (b"\x1b[=3h", Some(Known::DosMode)),
    (b"\x1b[=255l", Some(Known::DosMode)),
    (b"\x1b[=h", None),
    (b"\x1b[3h", None),
    (b"\x1b[6n", None),
    (b"\x1b9", None),
    (b"\x1b", None),
    (b"", None),
];

/// Sequences of modern terminals.
static TERMINAL: [(&[u8], Terminal); 23] = [
    (b"\x1b[79b", Terminal::Repeats),
    (b"\x1b[G", Terminal::Column),
    (b"\x1b[40Grest", Terminal::Column),
    (b"\x1b[40`", Terminal::Column),
    (b"\x1b[999G", Terminal::Column),
    (b"\x1b[2d", Terminal::Row),
    (b"\x1b[8X", Terminal::Blanks),
    (b"\x1b[@", Terminal::Inserts),
    (b"\x1b[P", Terminal::Deletes),
    (b"\x1b[LF\x0e", Terminal::MoreRows),
    (b"\x1b[1M", Terminal::LessRows),
    (b"\x1b[3MF\x0e", Terminal::LessRows),
    (b"\x1b[S", Terminal::Scrolls),
    (b"\x1b[1;2T", Terminal::Scrolls),
    (b"\x1b[2E", Terminal::Below),
    (b"\x1b[F", Terminal::Above),
    (b"\x1b[5a", Terminal::Right),
    (b"\x1b[e", Terminal::Down),
    (b"\x1b7", Terminal::Saves),
    (b"\x1b78", Terminal::Saves),
    (b"\x1b8", Terminal::Restores),
    (b"\x1bc", Terminal::Resets),
    (b"\x1bc\x1b[2J", Terminal::Resets),
];

#[test]
fn sequences_are_known_by_their_form(rt: HostRuntime) {
    for (bytes, known) in KNOWN {
        assert!(rt;
            known_sequence(bytes, &Cause::UnknownSequence) == known,
            "{bytes:?}"
        );
    }
    for (bytes, what) in TERMINAL {
        assert!(rt;
            known_sequence(bytes, &Cause::UnknownSequence) == Some(Known::Terminal(what)),
            "{bytes:?}"
        );
    }
    let key = known_sequence(b"\x1b[13;13p", &Cause::KeyReassigned);
    assert!(rt; key == Some(Known::ReassignedKey));
}

/// Music with this many notes is known, or is too long to be.
#[test]
fn music_has_at_most_250_notes(rt: HostRuntime) {
    let mut bytes = [b'c'; 255];
    bytes[..3].copy_from_slice(b"\x1b[M");
    bytes[253] = 0x0e;
    assert!(rt; known_sequence(&bytes, &Cause::UnknownSequence) == Some(Known::Music));
    bytes[253] = b'c';
    bytes[254] = 0x0e;
    assert!(rt; known_sequence(&bytes, &Cause::UnknownSequence).is_none());
}

/// What follows the first end mark, whether a record is in it, and what it is known as.
static BEHIND: [(&[u8], bool, Option<Known>); 20] = [
    (b"SAUCE00", true, Some(Known::OlderRecord)),
    (b"x", false, Some(Known::Arrow)),
    (b"\x1b[0mmore\x1a\x1a", false, Some(Known::Arrow)),
    (b"\x1a\x1a\x1b[0m", false, None),
    (b"one\x1atwo\x1a", false, None),
    (CONTROL_IN_50, false, Some(Known::Arrow)),
    (CONTROL_IN_49, false, None),
    (b"\r\n\x1b[1mab\r\n", false, Some(Known::Arrow)),
    (b"\r\n\0 \x1a", false, None),
    (b"", false, None),
    (COMMENT, false, Some(Known::UncountedComments)),
    (COMMENT, true, Some(Known::OlderRecord)),
    (b"COMNT", false, None),
    (b"COMNT and more", false, None),
    (b"\x1aSAUCE01 and more", false, None),
    (b" COMNT", false, Some(Known::Arrow)),
    (OLDER_AND_DRAWING, true, Some(Known::AnotherDrawing)),
    (OLDER_AND_COMMENT, true, Some(Known::OlderRecord)),
    (OLDER_AND_BLANKS, true, Some(Known::OlderRecord)),
    (OLDER_TWICE, true, Some(Known::OlderRecord)),
];

/// One byte of 50 below 20h, or of 49.
const CONTROL_IN_50: &[u8] = b"\x0112345678901234567890123456789012345678901234567\r\n";

const CONTROL_IN_49: &[u8] = b"\x011234567890123456789012345678901234567890123456\r\n";

/// A record of version 00, and something after it.
const OLDER_AND_DRAWING: &[u8] =
    b"SAUCE00                                                                      \
    \x20                                                  \x1b[0mmore\x1a";

const OLDER_AND_COMMENT: &[u8] =
    b"\x1aSAUCE00                                                                      \
    \x20                                                  COMNT and more";

const OLDER_AND_BLANKS: &[u8] =
    b"SAUCE00                                                                      \
    \x20                                                  \x1a\r\n  \x1a";

const OLDER_TWICE: &[u8] =
    b"SAUCE00                                                                      \
    \x20                                                  \x1aSAUCE00";

/// End marks, and a block of one comment.
const COMMENT: &[u8] =
    b"\x1a\x1aCOMNT                                                                ";

#[test]
fn what_follows_the_end_mark_is_known(rt: HostRuntime) {
    for (bytes, holds_record, known) in BEHIND {
        assert!(rt;
            known_behind_end_mark(bytes, holds_record) == known,
            "{bytes:?}"
        );
    }
}

/// Of each content with bytes of other kinds of file, which kind it is.
static FILES: [(&[u8], Option<Known>); 26] = [
    (b"XBIN\x1a", Some(Known::XBin)),
    (b"XBIN", None),
    (b" XBIN\x1a", None),
    (b"PK\x03\x04\x0a", Some(Known::Zip)),
    (b"PK\x05\x06", None),
    (
        b"\x16\x01\x1fA\x16\x01\x07B\x16\x01\x0fC",
        Some(Known::Avatar),
    ),
    (b"\x16\x01\x1fA\x16\x01\x07B\x16\x02C", None),
    (b"\x16\x01\x1fA\x16\x01\x07B\x16\x01\x0fC\x1b[0m", None),
    (b"\x16\x04\x16\x04\x16\x04\x16\x04\x16", None),
    (BINARY_TEXT, Some(Known::BinaryText)),
    (BLANK_TEXT, None),
    (b"@X1FA@X07B@X0FC", Some(Known::PcBoard)),
    (b"\x1b[0m@X1F@X07@X0F", Some(Known::PcBoard)),
    (b"@X1FA@X07B@X0fC", None),
    (b"@X1FA@X07B", None),
    (b"a@Xactor.org b@Xactor.org c@Xactor.org", None),
    (b"|07A|15B|23C", Some(Known::Pipe)),
    (b"|07\xdb|08\xdb|09\xdb|15", Some(Known::Pipe)),
    (b"|07A|15B|24C", None),
    (b"|01|02|03|04|", None),
    (b"|01 |02 |03 |", None),
    (b"|011|022|033|", None),
    (b"@1F@A@07@B@0F@C", Some(Known::Wildcat)),
    (b"@1F@A@07@B@0G@C", None),
    (b"caf\xe9 \xe0 la cr\xe8me\r\n", None),
    (b"", None),
];

/// A row of 80 pairs, in half of which the second byte is a colour.
const BINARY_TEXT: &[u8] = b"\
    A\x07B\x70A\x07B\x70A\x07B\x70A\x07B\x70A\x07B\x70A\x07B\x70A\x07B\x70A\x07B\x70A\x07B\x70A\x07B\x70\
    A\x07B\x70A\x07B\x70A\x07B\x70A\x07B\x70A\x07B\x70A\x07B\x70A\x07B\x70A\x07B\x70A\x07B\x70A\x07B\x70\
    A\x1eB\x70A\x1eB\x70A\x1eB\x70A\x1eB\x70A\x1eB\x70A\x1eB\x70A\x1eB\x70A\x1eB\x70A\x1eB\x70A\x1eB\x70\
    A\x1eB\x70A\x1eB\x70A\x1eB\x70A\x1eB\x70A\x1eB\x70A\x1eB\x70A\x1eB\x70A\x1eB\x70A\x1eB\x70A\x1eB\x70";

/// A text in which each second byte is a blank or ends a line.
const BLANK_TEXT: &[u8] = b"\
    \r\n\r\n\r\n\r\n\r\n\r\n\r\n\r\n\r\n\r\n\r\n\r\n\r\n\r\n\r\n\r\n\r\n\r\n\r\n\r\n\
    \r\n\r\n\r\n\r\n\r\n\r\n\r\n\r\n\r\n\r\n\r\n\r\n\r\n\r\n\r\n\r\n\r\n\r\n\r\n\r\n\
    A B C D E F G H I J K L M N O P Q R S T U V W X Y Z a b c d e f g h i j k l m n \
    A B C D E F G H I J K L M N O P Q R S T U V W X Y Z a b c d e f g h i j k l m n ";

#[test]
fn other_files_are_known_by_their_bytes(rt: HostRuntime) {
    for (bytes, known) in FILES {
        assert!(rt; known_file(bytes) == known, "{bytes:?}");
    }
    assert!(rt; BINARY_TEXT.len() == 160);
    assert!(rt; known_file(&BINARY_TEXT[2..]).is_none());
}

#[test]
fn of_what_is_found_the_bytes_behind_the_end_mark_are_known(rt: HostRuntime) {
    let found = Found::AfterEndMark {
        bytes: COMMENT,
        record: true,
    };
    assert!(rt; known_found(&found) == Some(Known::OlderRecord));
    assert!(rt; known_found(&Found::NoRecord) == None);
}

#[test]
fn what_is_known_has_its_name(rt: HostRuntime) {
    assert_eq!(rt; Known::Music.text(), "ANSI music");
    let column = "a sequence of modern terminals: goes to a column; write ESC[row;columnH";
    assert_eq!(rt; Known::Terminal(Terminal::Column).text(), column);
}

/// A content, the field of the font, and the lines on its way as a text.
type DamageRow = (&'static [u8], &'static str);

static DAMAGE: [DamageRow; 28] = [
    (
        b"[0m[1mA[2;3H[5C",
        "hint: 4 sequences have lost their ESC, first at 0: put 1Bh before each [\n",
    ),
    (b"\x1b[0m[0m[1;2JA[2;3H[5C", ""),
    (b"[0m[1mA[2;3H", ""),
    (b"\x1b[0m\x1b[1m\x1b[2m\x1b[3m", ""),
    (b"[m[H[J[C[more[Here", ""),
    (b"[0K[0K[0K[0K", ""),
    (
        b"^[[0mA^[[1;31mB",
        "hint: 2 sequences have ^[ or <- in place of ESC, first at 0: put 1Bh there\n",
    ),
    (
        b"x^[[0m^[[0m^[[0m^[[0m",
        "hint: 4 sequences have ^[ or <- in place of ESC, first at 1: put 1Bh there\n",
    ),
    (
        b"<-[0mx<-[1m",
        "hint: 2 sequences have ^[ or <- in place of ESC, first at 0: put 1Bh there\n",
    ),
    (b"^[[0mA", ""),
    (b"^[0m^[1m<[0m<-", ""),
    (
        b"\x9b0mA\x9b1;31mB",
        "hint: 2 sequences begin with 9Bh, first at 0: write ESC[ in its place\n",
    ),
    (b"\x9b0m", ""),
    (b"\x9bm\x9b0H\x9b1K", ""),
    (
        b"A\xc3\x9b\xc2\xb0\xc3\x9b\xc2\xb0\xc3\x9b\xc2\xb0\xc3\x9b\xc2\xb0\xc3\xbf",
        "hint: 8 characters look like Latin-1 that was made UTF-8, first at 1: \
            convert the text from UTF-8 to Latin-1\n",
    ),
    (
        b"\xc3\x9b\xc3\x9b\xc3\x9b\xc3\x9b\xc3\x9b\xc3\x9b\xc3\x9b\xc3\x9b",
        "",
    ),
    (
        b"\xc3\xb4\xc3\xb4\xc3\xb4\xc3\xb4\xc3\xb4\xc3\xb4\xc3\xb4\xc3\xb4\xc3\xb4 \xb3",
        "",
    ),
    (
        b"\xc3\xb4\xc3\xb4\xc3\xb4\xc3\xb4\xc3\xb4\xc3\xb4\xc3\xb4\xc3\xb4\xc3\xb4\xc3",
        "",
    ),
    (
        b"caf\xc3\xa9 \xc3\xa9t\xc3\xa9 cr\xc3\xa9\xc3\xa9 \xc3\xa0 o\xc3\xb9 \xc3\xa9l\xc3\xa8ve",
        "",
    ),
    (
        b"ab\rcd\ref\rgh\r",
        "hint: 4 returns come without line feeds, first at 2: put 0Ah after each\n",
    ),
    (b"ab\rcd\ref\rgh\r\n", ""),
    (b"ab\rcd\ref\r", ""),
    (
        b"\xef\xbb\xbfHi",
        "hint: the file begins with EF BB BF, the mark of UTF-8: remove these bytes\n",
    ),
    (b" \xef\xbb\xbfHi", ""),
    (b"\xe2\x96\x88", ""),
    (b"\x1b[0m[0m[1m[0m[1m^[[0m^[[1m\x9b0m\x9b1m", ""),
    (
        b"\x1b[H\x1b[2Jab\rcd\ref\rgh\r",
        "hint: 4 returns come without line feeds, first at 9: put 0Ah after each\n",
    ),
    (b"ab\rcd\ref\x1b[2;1Hgh\rij\rkl", ""),
];

#[test]
fn damage_of_texts_is_told(rt: HostRuntime) {
    for (content, text) in DAMAGE {
        assert!(rt; content.len() < 100);
        let damage = TextDamage::of(content);
        let mut device = Tried::new(Narrow::new(4096));
        let mut out = Outbox::new(&mut device);
        put_damage(&mut out, &damage);
        assert!(rt; out.finish().is_ok());
        assert_eq!(rt; device.inner().held(), text.as_bytes(), "{content:?}");
    }
}

#[test]
fn letters_of_a_latin_font_are_right(rt: HostRuntime) {
    let text =
        "hint: the font Amiga Topaz 1 is not a code page 437 font; some characters may look different\n";
    expect_content(&rt, (9, 1), b"a\xe4b", b"Amiga Topaz 1", text);
}

/// Asserts the text of `why`.
fn expect_why(rt: &impl Abort, why: &Why<'_>, text: &str) {
    let mut device = Tried::new(Narrow::new(4096));
    let mut out = Outbox::new(&mut device);
    put_why(&mut out, why);
    assert!(rt; out.finish().is_ok());
    assert_eq!(rt; device.inner().held(), text.as_bytes());
}

/// Files without a record, and what is said after the fault.
static NO_RECORD: [(&[u8], &str); 6] = [
    (b"Hi", ""),
    (
        b"Hi\x1aSAUCE00 and more",
        "found: what is left of a record, at 3, 16 bytes\n",
    ),
    (b"Hi\x1aSAUCE0", ""),
    (
        b"\xe2\x96\x88\xe2\x96\x80\x1a\xe2\x96\x84",
        "hint: 2 characters look like UTF-8, first at 0: convert the text to code page 437\n",
    ),
    (
        b"\xef\xbb\xbfa\xe2\x94\x80",
        "hint: the file begins with EF BB BF, the mark of UTF-8: remove these bytes\n\
            hint: 1 character looks like UTF-8, at 4: convert the text to code page 437\n",
    ),
    (
        b"[0m[1mA[2;3H[5C\x1a",
        "hint: 4 sequences have lost their ESC, first at 0: put 1Bh before each [\n",
    ),
];

#[test]
fn files_without_a_record_are_explained(rt: HostRuntime) -> Result<(), Fail> {
    for (file, text) in NO_RECORD {
        let fault = split(file).err().ok_or("it is accepted")?;
        let mut device = Tried::new(Narrow::new(4096));
        let mut out = Outbox::new(&mut device);
        assert!(rt; file.len() < 200);
        put_why(&mut out, &Judged::NoContent(RecordRefusal::of(file, fault)));
        assert!(rt; out.finish().is_ok());
        let mut whole = String::new(rt.alloc());
        write!(
            whole,
            "verdict: refused\nfault: at {}, F1 no SAUCE record\n{text}",
            file.len()
        )?;
        assert_eq!(rt; device.inner().held(), whole.as_bytes());
    }
    Ok(())
}

/// A record that a transfer as text made longer.
#[test]
fn a_grown_record_is_explained(rt: HostRuntime) -> Result<(), Fail> {
    let mut file = sample_file(rt.alloc(), b"Hi\x1a", &[(98, b"\r\n")])?;
    file.push(0)?;
    let fault = split(&file).err().ok_or("it is accepted")?;
    let said = RecordRefusal::of(&file, fault);
    let text = "verdict: refused\nfault: at 132, F1 no SAUCE record\n\
        found: a record at 3, 129 bytes, 1 of them a return that a transfer as text may have put in\n";
    expect_why(&rt, &Judged::NoContent(said), text);
    Ok(())
}

/// On which players a drawing shows its picture, and the lines on that.
fn players_rows(times: Times) -> [(Players, &'static str); 3] {
    let mut used = KindsUsed::NONE;
    used.times[0] = Some(times);
    [
        (Players::Any(Start::ANY), "all\n"),
        (
            Players::InNamedColours(Start::ANY, times),
            "own-colours\nplayers differ: own-colours, once, at 0\n",
        ),
        (
            Players::Agreeing(used),
            "wrap-at-once\nplayers differ: wrap-at-once, once, at 0\n",
        ),
    ]
}

/// What is said of a content that passes from every start on all players and relies on nothing.
fn easy_pass(players: Players, hints: Hints) -> Pass<'static> {
    Pass {
        needs: Start::ANY,
        players,
        taller: false,
        reliance: None,
        hints,
        widths: OtherWidths::NONE,
        damage: TextDamage::of(b"Hi"),
    }
}

#[test]
fn the_players_that_show_the_picture_are_named(rt: HostRuntime) -> Result<(), Fail> {
    let file = sample_file(rt.alloc(), b"Hi\x1a", &[])?;
    for (players, lines) in players_rows(Times { count: 1, first: 0 }) {
        let pass = easy_pass(players, Hints::of(Size::new(2, 1), false, b"Hi", 2));
        let text = format!(in rt.alloc();
            "size: 2 x 1\nverdict: pass\nneeds: nothing\nplayers: {lines}"
        )?;
        expect_why(&rt, &Judged::Passes(split(&file)?, pass), &text);
    }
    Ok(())
}

/// Four rows over the edge are a hint for a drawing that passes only if lines are empty at the end.
#[test]
fn wider_rows_of_a_pass_are_told_with_empty_lines(rt: HostRuntime) -> Result<(), Fail> {
    let content = b"abcde\r\nabcde\r\nabcde\r\nabcde\r\n";
    let file = sample_file(rt.alloc(), b"Hi\x1a", &[])?;
    let rows = [
        (8, ""),
        (
            9,
            "hint: 4 rows are wider than the screen, first at 5; they need at least 5 columns: --columns 5\n\
                hint: the last line is empty\n",
        ),
    ];
    for (lines, told) in rows {
        let hints = Hints::of(Size::new(4, lines), false, content, content.len());
        let pass = easy_pass(Players::Any(Start::ANY), hints);
        let text = format!(in rt.alloc();
            "size: 2 x 1\nverdict: pass\nneeds: nothing\nplayers: all\n{told}"
        )?;
        expect_why(&rt, &Judged::Passes(split(&file)?, pass), &text);
    }
    Ok(())
}

/// The lines on other widths, of a record that states 2 columns and 1 line.
#[test]
fn other_widths_have_their_lines(rt: HostRuntime) -> Result<(), Fail> {
    let file = sample_file(rt.alloc(), b"Hi\x1a", &[(98, b"\x19")])?;
    let mut widths = OtherWidths::NONE;
    widths.fitting[1] = Some(80);
    widths.fitting[5] = Some(160);
    widths.exchanged = true;
    let pass = Pass {
        widths,
        ..easy_pass(
            Players::Any(Start::ANY),
            Hints::of(Size::new(2, 1), false, b"Hi", 2),
        )
    };
    let text = "size: 2 x 25\nverdict: pass\nneeds: nothing\nplayers: all\n\
        hint: with 80 columns the 25 stated lines come out: --columns 80\n\
        hint: with 160 columns the 25 stated lines come out: --columns 160\n\
        hint: columns and lines may be exchanged in the record: --columns 25 --lines 2\n";
    expect_why(&rt, &Judged::Passes(split(&file)?, pass), text);
    Ok(())
}

/// Where a text is to be converted to Latin-1, its letters of UTF-8 are no hint.
#[test]
fn converted_text_has_one_hint(rt: HostRuntime) -> Result<(), Fail> {
    let content = b"Hi\xc3\x9b\xc3\x9b\xc3\x9b\xc3\x9b\xc3\x9b\xc3\x9b\xc3\x9b\xc3\x9b\xc3\x9b";
    let hints = Hints::of(Size::new(40, 1), false, content, content.len());
    assert!(rt; hints.two_byte_letters == Some(Times { count: 1, first: 2 }));
    let file = sample_file(rt.alloc(), b"Hi\x1a", &[])?;
    let pass = Pass {
        damage: TextDamage::of(content),
        ..easy_pass(Players::Any(Start::ANY), hints)
    };
    let text = "size: 2 x 1\nverdict: pass\nneeds: nothing\nplayers: all\n\
        hint: 8 characters look like Latin-1 that was made UTF-8, first at 2: \
        convert the text from UTF-8 to Latin-1\n";
    expect_why(&rt, &Judged::Passes(split(&file)?, pass), text);
    Ok(())
}
