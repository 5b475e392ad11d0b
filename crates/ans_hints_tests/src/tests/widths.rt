//! What small contents show of other widths than the stated one.

use ans_hints::{Hints, OtherWidths};
use ans_model::limits::MAX_LINES;
use ans_model::size::Size;
use ans_pens::least_lines;
use std::process::Abort;

/// A content, the width on which it is played, and the rows of a drawing for more columns: how many run over the
/// edge, the offset of the first one's line end, and the columns of the widest.
#[derive(Clone, Copy)]
struct Wider {
    content: &'static [u8],
    width: usize,
    rows: Option<(usize, usize, usize)>,
}

macro_rules! wider {
    ($($width:literal, $content:expr => $rows:expr;)*) => {
        [$(Wider { content: $content, width: $width, rows: $rows }),*]
    };
}

/// Rows of a drawing of 132 columns, trimmed: 132, 100, 131, 90 and 7 of them.
const TRIMMED: &[u8] = b"\
    xxxxxxxxxxxxxxxxxxxxxxxxxxxxxxxxxxxxxxxxxxxxxxxxxxxxxxxxxxxxxxxxxxxxxxxxxxxxxxxx\
    xxxxxxxxxxxxxxxxxxxxxxxxxxxxxxxxxxxxxxxxxxxxxxxxxxxx\r\n\
    xxxxxxxxxxxxxxxxxxxxxxxxxxxxxxxxxxxxxxxxxxxxxxxxxxxxxxxxxxxxxxxxxxxxxxxxxxxxxxxx\
    xxxxxxxxxxxxxxxxxxxx\r\n\
    xxxxxxxxxxxxxxxxxxxxxxxxxxxxxxxxxxxxxxxxxxxxxxxxxxxxxxxxxxxxxxxxxxxxxxxxxxxxxxxx\
    xxxxxxxxxxxxxxxxxxxxxxxxxxxxxxxxxxxxxxxxxxxxxxxxxxx\r\n\
    xxxxxxxxxxxxxxxxxxxxxxxxxxxxxxxxxxxxxxxxxxxxxxxxxxxxxxxxxxxxxxxxxxxxxxxxxxxxxxxx\
    xxxxxxxxxx\r\n\
    xxxxxxx\r\n\
    ";

/// Four rows of 80 glyphs, and a row of one.
const FULL: &[u8] = b"\
    xxxxxxxxxxxxxxxxxxxxxxxxxxxxxxxxxxxxxxxxxxxxxxxxxxxxxxxxxxxxxxxxxxxxxxxxxxxxxxxx\r\n\
    xxxxxxxxxxxxxxxxxxxxxxxxxxxxxxxxxxxxxxxxxxxxxxxxxxxxxxxxxxxxxxxxxxxxxxxxxxxxxxxx\r\n\
    xxxxxxxxxxxxxxxxxxxxxxxxxxxxxxxxxxxxxxxxxxxxxxxxxxxxxxxxxxxxxxxxxxxxxxxxxxxxxxxx\r\n\
    xxxxxxxxxxxxxxxxxxxxxxxxxxxxxxxxxxxxxxxxxxxxxxxxxxxxxxxxxxxxxxxxxxxxxxxxxxxxxxxx\r\n\
    x";

static WIDER: [Wider; 18] = wider! {
    80, TRIMMED => Some((4, 132, 132));
    132, TRIMMED => None;
    160, TRIMMED => None;
    80, FULL => None;
    40, FULL => Some((4, 80, 80));
    39, FULL => None;
    4, b"" => None;
    4, b"abcde\r\nabcdef\r\nabcdefg\r\nabcdefg\r\n" => Some((4, 5, 7));
    4, b"abcde\nabcdef\nabcdefg\nabcde\n" => Some((4, 5, 7));
    4, b"abcde\r\nabcdef\r\nabcdefg\r\n" => None;
    4, b"abcde\r\nabcdef\r\nabcdefg\r\nabcdefg" => None;
    4, b"a\r\nb\r\nc\r\nabcde\r\nabcdef\r\nabcdefg\r\nabcdefg\r\n" => Some((4, 14, 7));
    4, b"a\r\nb\r\nc\r\n\r\nabcde\r\nabcdef\r\nabcdefg\r\nabcdefg\r\n" => None;
    4, b"abcd\r\nabcd\r\nabcd\r\nabcd\r\nabcd\r\n" => None;
    4, b"abcdefgh\r\nabcde\r\nabcde\r\nabcde\r\n" => Some((4, 8, 8));
    4, b"abcdefghi\r\nabcde\r\nabcde\r\nabcde\r\nabcde\r\nabcde\r\n" => None;
    4, b"\x1b[?7labcde\r\nabcde\r\nabcde\r\nabcde\r\n" => None;
    4, b"abcde\x1b[H\nabcde\x1b[H\nabcde\x1b[H\nabcde\x1b[H\n" => None;
};

/// The hints of a content on this width, with as many lines as there may be.
fn hints_of(rt: &impl Abort, width: usize, content: &[u8]) -> Hints {
    assert!(rt; 1 <= width && width <= 1024 && content.len() < 1000);
    Hints::of(Size::new(width, MAX_LINES), false, content, content.len())
}

#[test]
fn wider_rows_are_found(rt: HostRuntime) {
    for row in &WIDER {
        let Wider {
            content,
            width,
            rows,
        } = *row;
        let found = hints_of(&rt, width, content).row_ends.wider_rows();
        let found = found.map(|rows| (rows.times.count, rows.times.first, rows.columns));
        assert_eq!(&rt; found, rows, "{width} in {content:?}");
    }
}

/// A content, the width and the lines that are stated, the widths that fit, and whether columns and lines are
/// exchanged.
#[derive(Clone, Copy)]
struct Stated {
    content: &'static [u8],
    width: usize,
    lines: usize,
    fitting: [Option<u16>; 8],
    exchanged: bool,
}

macro_rules! stated {
    ($($width:literal x $lines:literal, $content:expr => $fitting:expr, $exchanged:literal;)*) => {
        [$(Stated {
            content: $content,
            width: $width,
            lines: $lines,
            fitting: $fitting,
            exchanged: $exchanged,
        }),*]
    };
}

const NO: Option<u16> = None;

const NONE: [Option<u16>; 8] = [NO; 8];

/// Three rows of 160 glyphs, or four of 120.
const GLYPHS: &[u8] = &[b'x'; 480];

/// Two pictures, one over the other, with places and no line ends.
const ANIMATION: &[u8] = b"\x1b[1;1Hab\x1b[2;1Hcd\x1b[1;1Hef\x1b[2;1Hgh\x1b[3;3Hi";

static STATED: [Stated; 22] = stated! {
    80 x 3, GLYPHS => [NO, NO, NO, NO, NO, Some(160), NO, NO], false;
    80 x 4, GLYPHS => [NO, NO, NO, Some(120), Some(132), NO, NO, NO], false;
    80 x 2, GLYPHS => [NO, NO, NO, NO, NO, NO, NO, Some(240)], false;
    80 x 5, GLYPHS => [NO, NO, Some(100), NO, NO, NO, NO, NO], false;
    80 x 12, GLYPHS => [Some(40), NO, NO, NO, NO, NO, NO, NO], false;
    80 x 6, GLYPHS => NONE, false;
    80 x 7, GLYPHS => NONE, false;
    80 x 1, GLYPHS => NONE, false;
    80 x 0, GLYPHS => NONE, false;
    50 x 5, GLYPHS => [NO, NO, Some(100), NO, NO, NO, NO, NO], false;
    240 x 1, GLYPHS => [NO, NO, NO, NO, NO, NO, Some(480), Some(720)], false;
    400 x 1, GLYPHS => [NO, NO, NO, NO, NO, NO, Some(800), NO], false;
    80 x 2, FULL => NONE, false;
    25 x 80, FULL => NONE, true;
    25 x 132, FULL => NONE, true;
    25 x 160, FULL => NONE, true;
    25 x 81, FULL => NONE, false;
    39 x 80, FULL => NONE, true;
    40 x 80, FULL => NONE, false;
    25 x 80, b"abc\r\ndef\r\n" => NONE, false;
    80 x 3, ANIMATION => NONE, false;
    80 x 2, ANIMATION => NONE, false;
};

/// What a content shows of other widths, where this width and these lines are stated.
fn other_widths(rt: &impl Abort, width: usize, lines: usize, content: &[u8]) -> OtherWidths {
    assert!(rt; 1 <= width && width <= 1024 && lines <= 8192 && content.len() < 1000);
    let needed = least_lines(width, content).map_or(MAX_LINES, usize::from);
    let size = Size::new(width, needed.max(lines));
    let hints = Hints::of(size, false, content, content.len());
    OtherWidths::of(width, lines, &hints, content)
}

#[test]
fn other_widths_are_found(rt: HostRuntime) {
    for row in &STATED {
        let Stated {
            content,
            width,
            lines,
            fitting,
            exchanged,
        } = *row;
        let found = other_widths(&rt, width, lines, content);
        let wanted = OtherWidths { fitting, exchanged };
        assert_eq!(&rt; found, wanted, "{width} x {lines} in {content:?}");
        let some = exchanged || fitting != NONE;
        assert_eq!(&rt; found.are_some(), some, "{width} x {lines} in {content:?}");
    }
}
