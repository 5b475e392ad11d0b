//! The line ends after full rows of small contents.

use ans_hints::{FullRowEnd, RowPlay, ends_full_rows};
use ans_model::size::Size;
use std::process::Abort;

/// A content of rows of two columns, whether every full row that something is printed after has a line
/// end after it, and where the line ends after full rows are: the return, if there is one, and the line
/// feed.
#[derive(Clone, Copy)]
struct Rows {
    content: &'static [u8],
    all_ended: bool,
    ends: &'static [(Option<usize>, usize)],
}

macro_rules! rows {
    ($($content:literal => $all_ended:literal, $ends:expr;)*) => {
        [$(Rows { content: $content, all_ended: $all_ended, ends: &$ends }),*]
    };
}

static ROWS: [Rows; 28] = rows! {
    b"" => false, [];
    b"a\r\nb\r\nc\r\nx" => false, [];
    b"abcdef" => false, [];
    b"ab\nx" => false, [(None, 2)];
    b"ab\r\nx" => false, [(Some(2), 3)];
    b"ab\ncd\nx" => true, [(None, 2), (None, 5)];
    b"ab\r\ncd\r\nx" => true, [(Some(2), 3), (Some(6), 7)];
    b"ab\ncd\r\nx" => true, [(None, 2), (Some(5), 6)];
    b"ab\ncd\n\t" => true, [(None, 2), (None, 5)];
    b"ab\ncd\nef" => true, [(None, 2), (None, 5)];
    b"ab\ncd\nef\n" => true, [(None, 2), (None, 5), (None, 8)];
    b"ab\ncd\n" => false, [(None, 2), (None, 5)];
    b"ab\x1b[0m\r\x1b[1m\ncd\x1b[s\nx" => true, [(Some(6), 11), (None, 17)];
    b"abcd\nef\nx" => false, [(None, 4), (None, 7)];
    b"ab\ncd\nefgh" => false, [(None, 2), (None, 5)];
    b"ab\n\ncd\r\n\r\nx" => true, [(None, 2), (Some(6), 7)];
    b"ab\r\r\ncd\nef\nx" => false, [(None, 7), (None, 10)];
    b"ab\x1b[A\ncd\nef\nx" => false, [(None, 8), (None, 11)];
    b"\x1b[?7lab\r\ncd\r\nx" => false, [];
    b"\x1b[?7lab\r\ncd\r\n\x1b[?7hef\ngh\r\nx" => true, [(None, 20), (Some(23), 24)];
    b"ab\ncd\nx\x1b[" => false, [(None, 2), (None, 5)];
    b"ab\r\n\x1b[Acd\r\n\x1b[Aef" => false, [(Some(2), 3), (Some(9), 10)];
    b"ab\x1b[s\r\n\x1b[ucd\x1b[s\r\n\x1b[ux" => false, [(Some(5), 6), (Some(15), 16)];
    b"ab\ncd\n\x1b[3;1Hx" => false, [(None, 2), (None, 5)];
    b"ab\ncd\n\x1b[A\t" => false, [(None, 2), (None, 5)];
    b"ab\ncd\n\x1b[A\x1b[Bx" => true, [(None, 2), (None, 5)];
    b"ab\ncd\nx\x1b[H\x1b[Ay" => true, [(None, 2), (None, 5)];
    b"ab\ncd\nef\ngh\nij\nx" => true, [(None, 2), (None, 5), (None, 8), (None, 11), (None, 14)];
};

/// The next line end after a full row of a content.
fn next_end(rt: &impl Abort, play: &mut RowPlay, content: &[u8]) -> Option<FullRowEnd> {
    let played = play.played;
    assert!(rt;
        played <= content.len() && content.len() < 100,
        "in {content:?}"
    );
    play.next_end(&content[played..])
}

/// Asserts the line ends after full rows of a content.
fn expect_ends(rt: &impl Abort, row: &Rows) {
    let Rows {
        content,
        all_ended,
        ends,
    } = *row;
    assert!(rt; content.len() < 100);
    let size = Size::new(2, 9);
    assert_eq!(rt; ends_full_rows(size, content), all_ended, "in {content:?}");
    let mut play = RowPlay::new(size);
    for (return_at, line_feed) in ends {
        let end = FullRowEnd {
            return_at: *return_at,
            line_feed: *line_feed,
        };
        let found = next_end(rt, &mut play, content);
        assert_eq!(rt; found, Some(end), "in {content:?}");
    }
    assert_eq!(rt; next_end(rt, &mut play, content), None, "in {content:?}");
}

#[test]
fn line_ends_behind_full_rows_are_found(rt: HostRuntime) {
    for row in &ROWS {
        expect_ends(&rt, row);
    }
}
