//! Contents byte by byte: the tokens that they hold, and where they are refused.

mod sequences;
mod walks;

use ans_model::limits::MAX_FILE;
use ans_tokens::{Cause, Fault, Scanner, Token, count_glyphs, count_text};
use std::alloc::{AllocError, Global};
use std::process::Abort;
use std::test::Fail;

/// Feeds one byte. The content is never as long as the longest file.
fn feed(rt: &impl Abort, scanner: &mut Scanner, byte: u8) -> Result<Option<Token>, Fault> {
    assert!(rt; scanner.offset() < MAX_FILE);
    scanner.byte(byte)
}

/// How many tokens the content holds, and the fault that ends it.
fn scan(rt: &impl Abort, content: &[u8]) -> (usize, Option<Fault>) {
    let mut scanner = Scanner::new();
    let mut tokens = 0usize;
    for (i, byte) in content.iter().enumerate() {
        assert!(rt; scanner.offset() == i);
        match feed(rt, &mut scanner, *byte) {
            Ok(Some(token)) => {
                tokens = tokens.wrapping_add(1);
                assert!(rt; token.start().checked_add(token.length()) == Some(scanner.offset()));
            }
            Ok(None) => {}
            Err(fault) => {
                let again = feed(rt, &mut scanner, *byte).err();
                assert_eq!(rt; [again, scanner.end().err()], [Some(fault), Some(fault)]);
                assert!(rt; scanner.offset() == i);
                return (tokens, Some(fault));
            }
        }
    }
    (tokens, scanner.end().err())
}

/// Asserts how many tokens the content holds, and which fault ends it.
fn expect_scan(rt: &impl Abort, content: &[u8], tokens: usize, fault: Option<Fault>) {
    assert_eq!(rt; scan(rt, content), (tokens, fault), "in {content:?}");
}

/// Contents that are refused: how many tokens come before the fault, its offset and its cause.
const REFUSED: [(&[u8], usize, usize, Cause); 40] = [
    (b"\x1b", 0, 0, Cause::EndInSequence),
    (b"\x1b[", 0, 0, Cause::EndInSequence),
    (b"\x1b[3", 0, 0, Cause::EndInSequence),
    (b"\x1b[1;37mH\x1b[3", 2, 8, Cause::EndInSequence),
    (b"\x1b[\"p", 0, 0, Cause::EndInSequence),
    (b"ab\x1b[?7", 2, 2, Cause::EndInSequence),
    (b"\x1b\x1b[m", 0, 0, Cause::BrokenSequence),
    (b"\x1b(B", 0, 0, Cause::BrokenSequence),
    (b"\x1b[0;0 D", 0, 0, Cause::BrokenSequence),
    (b"\x1b[\"a\"1p", 0, 0, Cause::BrokenSequence),
    (b"\x1b['a' p", 0, 0, Cause::BrokenSequence),
    (b"\x1b[1\"a\"p", 0, 0, Cause::BrokenSequence),
    (b"\x1b[=?7h", 0, 0, Cause::BrokenSequence),
    (b"\x1b[7=h", 0, 0, Cause::BrokenSequence),
    (b"\x1b[;?7h", 0, 0, Cause::BrokenSequence),
    (b"\x1b[1\nm", 0, 0, Cause::BrokenSequence),
    (b"a\x1b[\x1b[m", 1, 1, Cause::BrokenSequence),
    (b"\x1b[256C", 0, 0, Cause::NumberTooLarge),
    (b"\x1b[1;2;0999m", 0, 0, Cause::NumberTooLarge),
    (b"\x1b[512C", 0, 0, Cause::NumberTooLarge),
    (b"\x1b[;;;;;;;;;;;;;;;;m", 0, 0, Cause::TooManyParameters),
    (b"\x1b[2t", 0, 0, Cause::UnknownSequence),
    (b"\x1b[a", 0, 0, Cause::UnknownSequence),
    (b"\x1b[?6n", 0, 0, Cause::UnknownSequence),
    (b"\x1b[?7m", 0, 0, Cause::UnknownSequence),
    (b"\x1b[=p", 0, 0, Cause::UnknownSequence),
    (b"\x1b[J", 0, 0, Cause::WrongParameters),
    (b"\x1b[;J", 0, 0, Cause::WrongParameters),
    (b"\x1b[1K", 0, 0, Cause::WrongParameters),
    (b"\x1b[;K", 0, 0, Cause::WrongParameters),
    (b"\x1b[\"x\"m", 0, 0, Cause::WrongParameters),
    (b"\x1b[\"p\"m", 0, 0, Cause::WrongParameters),
    (b"\x1b[\"7\"h", 0, 0, Cause::WrongParameters),
    (b"\x1b[1s", 0, 0, Cause::WrongParameters),
    (b"\x1b[0u", 0, 0, Cause::WrongParameters),
    (b"\x1b[5n", 0, 0, Cause::WrongParameters),
    (b"\x1b[n", 0, 0, Cause::WrongParameters),
    (b"\x1b[1;2A", 0, 0, Cause::WrongParameters),
    (b"\x1b[;A", 0, 0, Cause::WrongParameters),
    (b"\x1b[1;1;1H", 0, 0, Cause::WrongParameters),
];

#[test]
fn refusals_come_at_their_offsets(rt: HostRuntime) {
    for (content, tokens, offset, cause) in REFUSED {
        expect_scan(&rt, content, tokens, Some(Fault { offset, cause }));
    }
}

/// Contents that are read to their end, by the number of their tokens.
const READ: [(&[u8], usize); 13] = [
    (b"", 0),
    (b"Hi", 2),
    (b"\x07\x08\t\n\r", 5),
    (b"\x9b1m\x1a", 4),
    (b"\x1b[m\x1b[1;m\x1b[;3f", 3),
    (b"\x1b[\"\x1b[2J\"p", 1),
    (b"\x1b[13;\"dir\";13p", 1),
    (b"\x1b['a\"b'p", 1),
    (b"\x1b[;;;;;;;;;;;;;;;m", 1),
    (b"\x1b[000255D", 1),
    (b"\x1b[?25h\x1b[7h\x1b[=7l\x1b[6n", 4),
    (b"\x1b[K\x1b[0K\x1b[2J\x1b[s\x1b[u", 5),
    (b"\x1b[A\x1b[2B\x1b[0C\x1b[255D\x1b[H\x1b[2;f", 6),
];

#[test]
fn contents_are_read(rt: HostRuntime) {
    for (content, tokens) in READ {
        expect_scan(&rt, content, tokens, None);
    }
}

/// What the last token of the content is, as its `Debug` text.
fn last_kind(rt: &impl Abort, alloc: Global, content: &[u8]) -> Result<String, AllocError> {
    let mut scanner = Scanner::new();
    let mut text = String::new(alloc);
    for byte in content {
        if let Ok(Some(token)) = feed(rt, &mut scanner, *byte) {
            let kind = token.kind();
            text = format!(in alloc; "{kind:?}")?;
        }
    }
    Ok(text)
}

/// What sequences mean: an omitted distance and 0 count as 1, an omitted colour as 0.
const MEANT: [(&[u8], &str); 24] = [
    (b"\x1b[A", "Up(1)"),
    (b"\x1b[0B", "Down(1)"),
    (b"\x1b[2C", "Forward(2)"),
    (b"\x1b[000255D", "Backward(255)"),
    (b"\x1b[H", "Place(1, 1)"),
    (b"\x1b[3H", "Place(3, 1)"),
    (b"\x1b[;3f", "Place(1, 3)"),
    (b"\x1b[2;0f", "Place(2, 1)"),
    (b"\x1b[2J", "Clear"),
    (b"\x1b[K", "EraseLine"),
    (b"\x1b[0K", "EraseLine"),
    (b"\x1b[s", "Save"),
    (b"\x1b[u", "Restore"),
    (b"\x1b[m", "Colours([0])"),
    (b"\x1b[1;m", "Colours([1, 0])"),
    (b"\x1b[;5;33m", "Colours([0, 5, 33])"),
    (b"\x1b[?7h", "Wrap(true)"),
    (b"\x1b[=7l", "Wrap(false)"),
    (b"\x1b[7h", "Mode"),
    (b"\x1b[?7;7h", "Mode"),
    (b"\x1b[?25l", "Mode"),
    (b"\x1b[13;\"dir\";13p", "Keys"),
    (b"\x1b[6n", "Ask"),
    (b"\x1b[31mx", "Glyph(120)"),
];

#[test]
fn sequences_have_their_meanings(rt: HostRuntime) -> Result<(), Fail> {
    for (content, meaning) in MEANT {
        let text = last_kind(&rt, rt.alloc(), content)?;
        assert_eq!(rt; text.as_str(), meaning, "in {content:?}");
    }
    Ok(())
}

/// What a byte leads to: whether it ends a token, the offset after it, whether the scanner is then between two tokens,
/// and the fault at an end there.
type Step = (bool, usize, bool, Option<(usize, Cause)>);

/// Bytes one after the other.
const STEPS: [(u8, Step); 5] = [
    (0x1B, (false, 1, false, Some((0, Cause::EndInSequence)))),
    (b'[', (false, 2, false, Some((0, Cause::EndInSequence)))),
    (b'm', (true, 3, true, None)),
    (0x1B, (false, 4, false, Some((3, Cause::EndInSequence)))),
    (b'm', (false, 4, false, Some((3, Cause::BrokenSequence)))),
];

/// Feeds these bytes from an offset on.
fn take_steps(rt: &impl Abort, scanner: &mut Scanner, from: usize) {
    for (byte, step) in STEPS {
        let ends = matches!(feed(rt, scanner, byte), Ok(Some(_)));
        let offset = scanner.offset().wrapping_sub(from);
        let fault = match scanner.end() {
            Ok(()) => None,
            Err(fault) => Some((fault.offset.wrapping_sub(from), fault.cause)),
        };
        assert_eq!(rt; (ends, offset, scanner.is_between_tokens(), fault), step);
    }
}

/// An end may be asked for within a sequence, which then goes on.
#[test]
fn asking_for_the_end_changes_nothing(rt: HostRuntime) {
    take_steps(&rt, &mut Scanner::new(), 0);
}

/// Bytes that were taken as whole tokens are skipped, and the scanner goes on after them.
#[test]
fn bytes_are_skipped(rt: HostRuntime) {
    let mut scanner = Scanner::new();
    scanner.skip(4);
    assert!(rt; scanner.is_between_tokens() && scanner.offset() == 4);
    take_steps(&rt, &mut scanner, 4);
}

/// Glyphs are counted up to a control.
#[test]
fn glyphs_are_counted(rt: HostRuntime) {
    let rows: [(&[u8], usize); 7] = [
        (b"a\x00\x1a\xff\n!", 4),
        (b"\x07a", 0),
        (b"\x08a", 0),
        (b"\ta", 0),
        (b"\na", 0),
        (b"\ra", 0),
        (b"\x1ba", 0),
    ];
    for (bytes, count) in rows {
        assert_eq!(rt; count_glyphs(bytes), count, "in {bytes:?}");
    }
}

/// Of at least 16 bytes, glyphs up to a byte below 20h, as whole chunks tell, and no more than wanted.
#[test]
fn text_is_counted(rt: HostRuntime) {
    let rows: [(&[u8], usize, usize); 10] = [
        (b"0123456789abcdef", 16, 16),
        (b"0123456789abcdef", 100, 16),
        (b"0123456789abcdef", 3, 3),
        (b"0123456789abcdef", 0, 0),
        (b"01234\n6789abcdef", 16, 5),
        (b"01234\n6789abcdef", 4, 4),
        (b"\x1b[1;33;44mtextual", 18, 0),
        (
            b"0123456789abcdef \xb0\xb1\xb2\xdb\x7f\xff\x80\x00xyztuvw",
            32,
            24,
        ),
        (b"0123456789abcdef0123456789abcdefghij", 36, 32),
        (b"0123456789abcdef0123456789abcdefghij", 20, 20),
    ];
    for (bytes, most, count) in rows {
        assert!(rt; bytes.len() >= 16);
        assert_eq!(rt; count_text(bytes, most), count, "{most} in {bytes:?}");
    }
}

/// Long sequences: their first bytes, a byte and how often it follows, their last bytes, and the
/// length of the token, or 0 where they are left open.
const LONG: [(&[u8], u8, u32, &[u8], usize); 2] = [
    (b"\x1b[\"", 0x1B, 100_000, b"", 0),
    (b"\x1b[", b'0', 1000, b"5C", 1004),
];

/// Feeds bytes, and returns the token that the last one ends. The others end none.
fn feed_all(rt: &impl Abort, scanner: &mut Scanner, bytes: &[u8]) -> Option<Token> {
    let mut token = None;
    for byte in bytes {
        let answer = feed(rt, scanner, *byte);
        assert!(rt; token.is_none() && answer.is_ok(), "in {bytes:?}");
        token = answer.ok().flatten();
    }
    token
}

#[test]
fn long_sequences(rt: HostRuntime) {
    for (first, byte, count, last, length) in LONG {
        let mut scanner = Scanner::new();
        assert!(rt; feed_all(&rt, &mut scanner, first).is_none());
        for _ in 0..count {
            assert!(rt; feed_all(&rt, &mut scanner, &[byte]).is_none());
        }
        let found = match feed_all(&rt, &mut scanner, last) {
            Some(token) => token.length(),
            None => 0,
        };
        let open = Fault {
            offset: 0,
            cause: Cause::EndInSequence,
        };
        assert_eq!(rt; (found, scanner.end() == Err(open)), (length, length == 0));
    }
}
