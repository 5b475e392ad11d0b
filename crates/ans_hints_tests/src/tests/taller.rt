//! Which contents play on taller screens as on the stated one.

use super::fault_of;
use ans_model::size::Size;
use ans_model::start::Start;
use ans_pens::is_taller;
use std::alloc::Global;
use std::process::Abort;
use std::test::Fail;

const SCREEN_AND_CURSOR: Start = Start {
    screen: true,
    cursor: true,
    ..Start::ANY
};

macro_rules! rows {
    ($($content:literal, $start:expr, $width:literal x $lines:literal => $taller:literal;)*) => {
        [$(($content, $start, $width, $lines, $taller)),*]
    };
}

/// A content that is good from each start of the class, the width and the lines, and whether it is
/// taller.
static GOOD: [(&[u8], Start, usize, usize, bool); 22] = rows! {
    b"", Start::CLEARED, 2 x 1 => true;
    b"Hi", Start::CLEARED, 2 x 1 => true;
    b"a\r\nb\r\n", Start::CLEARED, 3 x 2 => true;
    b"\x1b[?7h\x1b[0m\x1b[255A\x1b[255DHi", Start::ANY, 2 x 1 => false;
    b"\x1b[?7h\x1b[0m\x1b[255A\x1b[255DHi", Start::CLEARED, 2 x 1 => true;
    b"\x1b[?7h\x1b[0m\x1b[HHi", Start::ANY, 2 x 1 => true;
    b"\x1b[?7h\x1b[0m\x1b[H\x1b[1AHi", Start::ANY, 2 x 1 => true;
    b"\x1b[?7h\x1b[0m\x1b[1AHi", SCREEN_AND_CURSOR, 2 x 1 => true;
    b"\x1b[2J\x1b[3Ba", Start::CLEARED, 3 x 5 => true;
    b"\x1b[5Ba\x1b[H", Start::CLEARED, 3 x 6 => true;
    b"\x1b[6B\x1b[Ha", Start::CLEARED, 3 x 6 => true;
    b"\x1b[7B\x1b[Ha", Start::CLEARED, 3 x 6 => false;
    b"\x1b[255B\x1b[1Aa", Start::CLEARED, 3 x 2 => false;
    b"\x1b[1B\x1b[1Aa", Start::CLEARED, 3 x 1 => true;
    b"\x1b[2B\x1b[1Aa", Start::CLEARED, 3 x 1 => false;
    b"abc\x1b[1B\x1b[H", Start::CLEARED, 3 x 1 => false;
    b"ab\x1b[1B\x1b[H", Start::CLEARED, 3 x 1 => true;
    b"\x1b[?7labc\x1b[1B\x1b[H", Start::CLEARED, 3 x 1 => true;
    b"\t\x1b[1B\x1b[H", Start::CLEARED, 8 x 1 => false;
    b"\n\x1b[1B\x1b[H", Start::CLEARED, 8 x 1 => false;
    b"\x1b[2;1H\x1b[s\x1b[H\x1b[u\x1b[1B\x1b[H", Start::CLEARED, 8 x 1 => false;
    b"\x1b[2;1H\x1b[s\x1b[H\x1b[u\x1b[1B\x1b[H", Start::CLEARED, 8 x 2 => true;
};

/// Asserts that a content is good, and whether it is taller.
fn expect_taller(
    rt: &impl Abort,
    alloc: Global,
    (content, start, width, lines, taller): (&[u8], Start, usize, usize, bool),
) -> Result<(), Fail> {
    assert!(rt; 1 <= width && width <= 80 && content.len() < 1000);
    assert!(rt; 1 <= lines && lines <= 1000);
    let fault = fault_of(alloc, width, lines, start, content)?;
    assert_eq!(rt; fault, None, "in {content:?}");
    let found = is_taller(Size::new(width, lines), start, content);
    assert_eq!(rt; found, taller, "in {content:?}");
    Ok(())
}

#[test]
fn good_contents_are_taller_or_not(rt: HostRuntime) -> Result<(), Fail> {
    for row in &GOOD {
        expect_taller(&rt, rt.alloc(), *row)?;
    }
    Ok(())
}
