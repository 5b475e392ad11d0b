//! Contents token by token: what a walker is handed, where it stops, and what ends a walk.

ghost use Rattle.std.specs.Prelude.{⊤};

use ans_model::limits::MAX_FILE;
use ans_tokens::{Cause, Fault, Token, Walker, walk};
use std::process::Abort;

/// What a token is expected to be: its offset, its length, and how many bytes of the content come after it.
type Span = (usize, usize, usize);

/// Goes on as long as the tokens are these.
#[derive(Drop)]
struct Expected<'a> {
    spans: &'a [Span],
}

impl Walker for Expected<'_> {
    ghost ready = { λ expected offset. ⊤ };

    ghost walked = { λ first front now on. ⊤ };

    ghost takes = { λ expected count. ⊤ };

    fn token(&mut self, token: &Token, behind: &[u8]) -> bool {
        let Some((span, later)) = self.spans.split_first() else {
            return false;
        };
        self.spans = later;
        *span == (token.start(), token.length(), behind.len())
    }

    fn room(&self) -> usize {
        0
    }

    fn take(&mut self, _run: &[u8], _offset: usize) {}
}

/// Walks over the first `end` bytes of the content: how that ended, and how many spans are left.
fn walk_by(
    rt: &impl Abort,
    content: &[u8],
    end: usize,
    spans: &[Span],
) -> (Result<bool, Fault>, usize) {
    assert!(rt; content.len() <= MAX_FILE && end <= content.len());
    let mut expected = Expected { spans };
    let walked = walk(content, end, &mut expected);
    (walked, expected.spans.len())
}

/// Contents that are read to their end.
const READ: [(&[u8], &[Span]); 12] = [
    (b"", &[]),
    (b"Hi", &[(0, 1, 1), (1, 1, 0)]),
    (b"a\x0d\nb", &[(0, 1, 3), (1, 1, 2), (2, 1, 1), (3, 1, 0)]),
    (b"\x07", &[(0, 1, 0)]),
    (
        b"\x1b[1;33mab\x1b[0mc",
        &[(0, 7, 7), (7, 1, 6), (8, 1, 5), (9, 4, 1), (13, 1, 0)],
    ),
    (
        b"a\x1b[13;\"dir\";13pc",
        &[(0, 1, 15), (1, 14, 1), (15, 1, 0)],
    ),
    (b"\x1b[\"\x1b[2J\"p", &[(0, 9, 0)]),
    (b"\x1b[000255C0", &[(0, 9, 1), (9, 1, 0)]),
    (b"\x1b[;f\x1b[m", &[(0, 4, 3), (4, 3, 0)]),
    (b"\x1b[?7ll", &[(0, 5, 1), (5, 1, 0)]),
    (
        b"\x1b[1;2;3;4;5;6;7;8;9;10;11;12;13;14;15;255m;",
        &[(0, 42, 1), (42, 1, 0)],
    ),
    (b"\xe2\x80\t", &[(0, 1, 2), (1, 1, 1), (2, 1, 0)]),
];

#[test]
fn walks_are_over_all_tokens(rt: HostRuntime) {
    for (content, spans) in READ {
        let walked = walk_by(&rt, content, content.len(), spans);
        assert_eq!(rt; walked, (Ok(true), 0), "in {content:?}");
    }
}

/// Contents that are refused after one glyph or none: the fault's offset and its cause.
const REFUSED: [(&[u8], usize, Cause); 8] = [
    (b"\x1b", 0, Cause::EndInSequence),
    (b"a\x1b[1;2", 1, Cause::EndInSequence),
    (b"\n\x1b[\"m", 1, Cause::EndInSequence),
    (b"a\x1b[1\nm", 1, Cause::BrokenSequence),
    (b"\x1b[256C", 0, Cause::NumberTooLarge),
    (b"a\x1b[;;;;;;;;;;;;;;;;m", 1, Cause::TooManyParameters),
    (b"\t\x1b[2t", 1, Cause::UnknownSequence),
    (b"\x1b[1K", 0, Cause::WrongParameters),
];

#[test]
fn walks_end_at_refusals(rt: HostRuntime) {
    for (content, offset, cause) in REFUSED {
        let first = [(0, 1, content.len().wrapping_sub(1))];
        let spans: &[Span] = if offset == 1 { &first } else { &[] };
        let fault = Fault { offset, cause };
        let walked = walk_by(&rt, content, content.len(), spans);
        assert_eq!(rt; walked, (Err(fault), 0), "in {content:?}");
    }
}

#[test]
fn walks_end_where_they_are_told(rt: HostRuntime) {
    let content = b"ab\x1b[1m";
    let cut = Fault {
        offset: 2,
        cause: Cause::EndInSequence,
    };
    let spans = [(0, 1, 5), (1, 1, 4)];
    let walks = [
        walk_by(&rt, content, 1, &spans),
        walk_by(&rt, content, 2, &spans),
        walk_by(&rt, content, 5, &spans),
        walk_by(&rt, content, 6, &spans),
    ];
    let ends = [(Ok(true), 1), (Ok(true), 0), (Err(cut), 0), (Ok(false), 0)];
    assert_eq!(rt; walks, ends);
}

/// Counts the tokens and the bytes of runs that it is handed. No run may be longer than `most`.
#[derive(Drop)]
struct Counting {
    most: usize,
    tokens: usize,
    taken: usize,
    /// Where the next token or run is expected.
    at: usize,
    is_whole: bool,
}

impl Walker for Counting {
    ghost ready = { λ counting offset. ⊤ };

    ghost walked = { λ first front now on. ⊤ };

    ghost takes = { λ counting count. ⊤ };

    fn token(&mut self, token: &Token, _behind: &[u8]) -> bool {
        self.is_whole = self.is_whole && token.start() == self.at;
        self.at = token.start().wrapping_add(token.length());
        self.tokens = self.tokens.wrapping_add(1);
        true
    }

    fn room(&self) -> usize {
        self.most
    }

    fn take(&mut self, run: &[u8], offset: usize) {
        self.is_whole = self.is_whole && offset == self.at && run.len() <= self.most;
        self.at = offset.wrapping_add(run.len());
        self.taken = self.taken.wrapping_add(run.len());
    }
}

/// Twenty letters and a sequence.
const LETTERS: &[u8] = b"abcdefghijklmnopqrst\x1b[m";

/// Contents, how many bytes are walked over, and the most at once; then how many tokens come, and how
/// many bytes of runs.
const RUNS: [(&[u8], usize, usize, usize, usize); 6] = [
    (LETTERS, 23, usize::MAX, 5, 16),
    (LETTERS, 23, 3, 12, 9),
    (LETTERS, 23, 0, 21, 0),
    (LETTERS, 10, usize::MAX, 0, 10),
    (b"ab\r\ncdefghijklmnopqrst", 22, usize::MAX, 4, 18),
    (
        b"ab\xc3\xa9@|\x7f\x80\xdf\xe0 cdefghijklmnopqrstuvwxyz",
        35,
        usize::MAX,
        14,
        21,
    ),
];

#[test]
fn plain_bytes_are_taken_at_once(rt: HostRuntime) {
    for (content, end, most, tokens, taken) in RUNS {
        assert!(rt; content.len() <= MAX_FILE && end <= content.len());
        let mut counting = Counting {
            most,
            tokens: 0,
            taken: 0,
            at: 0,
            is_whole: true,
        };
        let walked = walk(content, end, &mut counting);
        assert_eq!(rt; walked, Ok(true), "in {content:?}");
        let counted = (
            counting.tokens,
            counting.taken,
            counting.at,
            counting.is_whole,
        );
        assert_eq!(rt; counted, (tokens, taken, end, true), "in {content:?}");
    }
}
