//! How many line ends, bytes 00h and sequences go at the very end of small contents.

ghost use Rattle.std.specs.Prelude.{◌≤◌, length};
ghost use Rattle.ans_model.specs.Bytes.{longest_file, most_columns, most_lines};

use ans_mend::{count_line_ends, count_passing};
use ans_model::fault::Fault;
use ans_model::size::Size;
use ans_model::start::Start;
use ans_play::Player;
use ans_screen::PlainGrid;
use std::alloc::Global;
use std::process::Abort;
use std::test::Fail;

macro_rules! rows {
    ($($content:literal, $width:literal x $lines:literal => $left:expr, $gone:literal;)*) => {
        [$(($content, $width, $lines, $left, $gone)),*]
    };
}

/// A content, the width and the lines, how many bytes are left if it passes then, and how many line ends,
/// bytes 00h and sequences go.
static ENDED: [(&[u8], usize, usize, Option<usize>, usize); 53] = rows! {
    b"ab\0\0", 2 x 1 => Some(2), 2;
    b"ab\r\n\0\r\n\0", 2 x 1 => Some(2), 4;
    b"a\r\n\0", 2 x 1 => Some(3), 1;
    b"a\0b", 2 x 1 => None, 0;
    b"", 2 x 1 => Some(0), 0;
    b"a", 2 x 1 => Some(1), 0;
    b"a\n", 2 x 1 => Some(2), 0;
    b"a\r\n", 2 x 1 => Some(3), 0;
    b"a\r\n\r", 2 x 1 => Some(4), 0;
    b"ab\r\r", 2 x 1 => Some(4), 0;
    b"ab\n", 2 x 1 => Some(2), 1;
    b"ab\r\n", 2 x 1 => Some(2), 1;
    b"ab\n\r", 2 x 1 => Some(2), 2;
    b"ab\r\r\n", 2 x 1 => Some(3), 1;
    b"ab\r\n\r\n", 2 x 1 => Some(2), 2;
    b"a\n\n\n", 2 x 1 => Some(2), 2;
    b"a\r\n\n", 2 x 1 => Some(3), 1;
    b"a\r\n\r\n", 2 x 1 => Some(3), 1;
    b"a\r\n\r\n\r\n\r", 2 x 1 => Some(3), 3;
    b"\n\n", 2 x 1 => Some(1), 1;
    b"\r\n\r\n", 2 x 1 => Some(2), 1;
    b"a\x1b[A\r\n\r\n", 2 x 1 => Some(6), 1;
    b"a\r\n\x1b[0m\r\n", 2 x 1 => Some(7), 1;
    b"\x1b[?7lab\r\n", 2 x 1 => Some(9), 0;
    b"abc", 2 x 1 => None, 0;
    b"abc\r\n", 2 x 1 => None, 0;
    b"a\r\nb", 2 x 1 => None, 0;
    b"a\n\nb\n\n", 2 x 1 => None, 0;
    b"a\n\n\x1b[0m", 2 x 1 => Some(2), 2;
    b"a\x1b[9;1H", 2 x 1 => Some(1), 1;
    b"a\x1b[9;1H\x1b[0m\r\n", 2 x 1 => Some(1), 3;
    b"a\x1b[0m\x1b[9;1f\x1b[u", 2 x 1 => Some(5), 2;
    b"ab\x1b[=3h\0", 2 x 1 => Some(2), 2;
    b"ab\x1b[=7h\0", 2 x 1 => Some(7), 1;
    b"ab\r\n\x1b[?7h", 2 x 1 => Some(2), 2;
    b"a\x1b[9H\x1b[m\x1b[m\x1b[m\x1b[m\x1b[m\x1b[m\x1b[m", 2 x 1 => Some(1), 8;
    b"a\x1b[9H\x1b[m\x1b[m\x1b[m\x1b[m\x1b[m\x1b[m\x1b[m\x1b[m", 2 x 1 => None, 0;
    b"a\x1b[9;1Hb", 2 x 1 => None, 0;
    b"a\x1b[9Ha\x1b[m", 2 x 1 => None, 0;
    b"a\x1b[9n\x1b[m", 2 x 1 => None, 0;
    b"a\x1b[\n", 2 x 1 => None, 0;
    b"a\x1b[6n\r\n", 2 x 1 => None, 0;
    b"ab\r\n", 2 x 2 => Some(4), 0;
    b"a\r\nb\r\n", 2 x 2 => Some(6), 0;
    b"a\r\nb\r\n\r", 2 x 2 => Some(7), 0;
    b"a\r\nb\r\n\r\n", 2 x 2 => Some(6), 1;
    b"a\r\nb\r\n\r\n\r\n\n\r", 2 x 2 => Some(6), 4;
    b"abc\n\n", 2 x 2 => Some(4), 1;
    b"abcd\r\n", 2 x 2 => Some(4), 1;
    b"abcd\n\n\n", 2 x 2 => Some(4), 3;
    b"\n\n\n", 2 x 2 => Some(2), 1;
    b"ab\r\ncd\r\n", 2 x 2 => None, 0;
    b"abcde\r\n", 2 x 2 => None, 0;
};

/// The fault of a content, if the play finds one.
fn fault_of(
    alloc: Global,
    width: usize,
    lines: usize,
    start: Start,
    content: &[u8],
) -> Result<Option<Fault>, Fail>
    requires some_columns { 1 ≤ width }
    requires columns { width ≤ most_columns }
    requires some_lines { 1 ≤ lines }
    requires lines { lines ≤ most_lines }
    requires length { length content.now ≤ longest_file }
{
    let mut player = Player::<PlainGrid>::new(alloc, width, lines, start)?;
    if let Err(fault) = player.feed(content) {
        return Ok(Some(fault));
    }
    let Err(fault) = player.finish() else {
        return Ok(None);
    };
    Ok(Some(fault))
}

/// Asserts how many bytes of a content are left, that they pass, and how many line ends go.
fn expect_left(
    rt: &impl Abort,
    alloc: Global,
    (content, width, lines, left, gone): (&[u8], usize, usize, Option<usize>, usize),
) -> Result<(), Fail> {
    assert!(rt; 1 <= width && width <= 2 && 1 <= lines && lines <= 2 && content.len() < 100);
    let count = count_passing(Size::new(width, lines), content);
    assert_eq!(rt; count, left, "in {content:?}");
    let Some(count) = count else {
        return Ok(());
    };
    assert!(rt; count <= content.len(), "in {content:?}");
    let (front, ends) = content.split_at(count);
    let fault = fault_of(alloc, width, lines, Start::CLEARED, front)?;
    assert_eq!(rt; fault, None, "in {content:?}");
    assert_eq!(rt; count_line_ends(ends), gone, "in {content:?}");
    Ok(())
}

#[test]
fn line_ends_go_where_they_must(rt: HostRuntime) -> Result<(), Fail> {
    for row in &ENDED {
        expect_left(&rt, rt.alloc(), *row)?;
    }
    Ok(())
}
