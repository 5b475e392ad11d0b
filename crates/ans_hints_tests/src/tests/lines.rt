//! How many lines small contents need.

use ans_model::start::Start;
use ans_pens::least_lines;
use ans_play::Player;
use ans_screen::PlainGrid;
use std::alloc::Global;
use std::process::Abort;
use std::test::Fail;

/// `ESC[0m`, and then five rows of 80 glyphs, each with a line end.
const FULL_ROWS: &[u8] = b"\x1b[0m\
    xxxxxxxxxxxxxxxxxxxxxxxxxxxxxxxxxxxxxxxxxxxxxxxxxxxxxxxxxxxxxxxxxxxxxxxxxxxxxxxx\r\n\
    xxxxxxxxxxxxxxxxxxxxxxxxxxxxxxxxxxxxxxxxxxxxxxxxxxxxxxxxxxxxxxxxxxxxxxxxxxxxxxxx\r\n\
    xxxxxxxxxxxxxxxxxxxxxxxxxxxxxxxxxxxxxxxxxxxxxxxxxxxxxxxxxxxxxxxxxxxxxxxxxxxxxxxx\r\n\
    xxxxxxxxxxxxxxxxxxxxxxxxxxxxxxxxxxxxxxxxxxxxxxxxxxxxxxxxxxxxxxxxxxxxxxxxxxxxxxxx\r\n\
    xxxxxxxxxxxxxxxxxxxxxxxxxxxxxxxxxxxxxxxxxxxxxxxxxxxxxxxxxxxxxxxxxxxxxxxxxxxxxxxx\r\n\
    ";

/// A content, the width, and the least number of lines with which it passes.
static NEEDED: [(&[u8], usize, Option<u16>); 34] = [
    (b"", 3, Some(1)),
    (b"Hi", 2, Some(1)),
    (b"abc", 2, Some(2)),
    (b"abc", 1, Some(3)),
    (b"abcd\x1b[A\x1b[Ae", 2, Some(2)),
    (b"a\r\n", 3, Some(1)),
    (b"a\r\nb", 3, Some(2)),
    (b"\n\n\n", 3, Some(3)),
    (b"\t", 4, Some(2)),
    (b"\t", 9, Some(1)),
    (b"\t\t", 9, Some(2)),
    (b"ab\t", 3, Some(3)),
    (b"\x1b[?7labcdef", 2, Some(1)),
    (b"\x1b[?7labcdef\n", 2, Some(1)),
    (b"\x1b[?7labcdef\n\t", 2, Some(2)),
    (b"\x1b[5Bx", 10, Some(6)),
    (b"\x1b[5B", 10, Some(1)),
    (b"\x1b[5B\n", 10, Some(6)),
    (b"\x1b[5B\x1b[s\x1b[H\x1b[ux", 10, Some(6)),
    (b"\x1b[5B\x1b[s\x1b[2J\x1b[ux", 10, Some(6)),
    (b"\x1b[5B\x1b[ux", 10, Some(1)),
    (b"\x1b[255B\x1b[255AHi", 2, Some(1)),
    (b"\x1b[255BHi", 2, Some(256)),
    (b"\x1b[3B\x1b[1Ax", 2, Some(1)),
    (b"\x1b[3B\x1b[1Axyz", 2, Some(4)),
    (b"\x1b[9B\x1b[3Aa\x1b[6B\x1b[4Ab\n\n\n\n\n\n", 5, Some(14)),
    (b"\x1b[9;1H", 2, Some(8)),
    (b"\x1b[9;1Hx", 2, Some(9)),
    (b"\x1b[1;2Hx", 2, Some(1)),
    (b"\x1b[1;3H", 2, None),
    (b"\x1b[6n", 2, None),
    (b"a\x1b[2t", 2, None),
    (b"a\x1b[", 2, None),
    (FULL_ROWS, 80, Some(10)),
];

/// Whether a content passes from the cleared start with this many lines, as the player finds it.
fn passes(
    rt: &impl Abort,
    alloc: Global,
    width: usize,
    lines: usize,
    content: &[u8],
) -> Result<bool, Fail> {
    assert!(rt; 1 <= width && width <= 80 && content.len() < 1000);
    assert!(rt; 1 <= lines && lines <= 1000);
    let mut player = Player::<PlainGrid>::new(alloc, width, lines, Start::CLEARED)?;
    let fed = player.feed(content).is_ok();
    Ok(fed && player.finish().is_ok())
}

/// Asserts how many lines a content needs, and that with fewer the player finds a fault and with more
/// none.
fn expect_lines(
    rt: &impl Abort,
    alloc: Global,
    width: usize,
    content: &[u8],
    lines: Option<u16>,
) -> Result<(), Fail> {
    assert!(rt; 1 <= width && width <= 80 && content.len() < 1000);
    assert_eq!(rt; least_lines(width, content), lines, "in {content:?}");
    let most = lines.unwrap_or(260) as usize;
    for n in 1..most.saturating_add(3) {
        let enough = lines.is_some() && n >= most;
        assert!(rt;
            passes(rt, alloc, width, n, content)? == enough,
            "in {content:?}"
        );
    }
    Ok(())
}

#[test]
fn contents_need_lines(rt: HostRuntime) -> Result<(), Fail> {
    for (content, width, lines) in &NEEDED {
        expect_lines(&rt, rt.alloc(), *width, content, *lines)?;
    }
    Ok(())
}

/// Line feeds down to the last line that a record may state, and one more.
const MOST: [u8; 8192] = [b'\n'; 8192];

const MORE: [u8; 8193] = [b'\n'; 8193];

#[test]
fn lines_have_a_limit(rt: HostRuntime) {
    assert_eq!(&rt; least_lines(1, &MOST), Some(8192));
    assert_eq!(&rt; least_lines(1, &MORE), None);
}
