//! Sequences of numbers that are read from a slice, and what their numbers stand for.

use ans_tokens::{Cause, distance, is_just, number_at, place, read_sequence};
use arrayvec::ArrayVec;

/// Bytes that begin with a sequence of numbers: the numbers, the letter and the index after it.
const READ: [(&[u8], &[u8], u8, usize); 11] = [
    (b"\x1b[A", &[], b'A', 3),
    (b"\x1b[2Bx", &[2], b'B', 4),
    (b"\x1b[000255C0", &[255], b'C', 9),
    (b"\x1b[;3f\n", &[0, 3], b'f', 5),
    (b"\x1b[2;f", &[2, 0], b'f', 5),
    (b"\x1b[;m", &[0, 0], b'm', 4),
    (b"\x1b[1;33;44mtext", &[1, 33, 44], b'm', 10),
    (b"\x1b[2t", &[2], b't', 4),
    (b"\x1b[7h?", &[7], b'h', 4),
    (b"\x1b[13;14p\"", &[13, 14], b'p', 8),
    (
        b"\x1b[1;2;3;4;5;6;7;8;9;10;11;12;13;14;15;16m",
        &[1, 2, 3, 4, 5, 6, 7, 8, 9, 10, 11, 12, 13, 14, 15, 16],
        b'm',
        41,
    ),
];

#[test]
fn numbers_and_letters_are_read(rt: HostRuntime) {
    for (bytes, numbers, letter, end) in READ {
        let mut found = ArrayVec::new();
        let read = read_sequence(bytes, &mut found).expect(&rt, "a sequence");
        assert_eq!(rt;
            (found.as_slice(), read.byte, read.end),
            (numbers, letter, end),
            "in {bytes:?}"
        );
    }
}

/// Bytes that begin with no whole sequence, or with one that has a mark or a string, a number above
/// 255 or more than 16 members.
const DECLINED: [&[u8]; 17] = [
    b"",
    b"a\x1b[m",
    b"\x1b",
    b"\x1b\x1b[m",
    b"\x1b(B",
    b"\x1b[?7h",
    b"\x1b[=7h",
    b"\x1b[7?h",
    b"\x1b[\"m\"p",
    b"\x1b[1'm'p",
    b"\x1b[1 m",
    b"\x1b[1\nm",
    b"\x1b[\x1b[m",
    b"\x1b[256C",
    b"\x1b[1;2;0999m",
    b"\x1b[1;2;3;4;5;6;7;8;9;10;11;12;13;14;15;16;17m",
    b"\x1b[;;;;;;;;;;;;;;;;m",
];

fn is_declined(bytes: &[u8]) -> bool {
    read_sequence(bytes, &mut ArrayVec::new()).is_none()
}

#[test]
fn other_forms_are_declined(rt: HostRuntime) {
    for bytes in DECLINED {
        assert!(rt; is_declined(bytes), "{bytes:?} is read");
    }
}

/// A sequence is cut where the slice ends before its letter.
#[test]
fn cut_sequences_are_declined(rt: HostRuntime) {
    let texts: [&[u8]; 4] = [b"\x1b[m", b"\x1b[12;5H", b"\x1b[07;255h", b"\x1b[;;1m"];
    for text in texts {
        for cut in 0..text.len() {
            assert!(rt; is_declined(&text[..cut]), "{text:?} is read at {cut}");
        }
        assert!(rt; !is_declined(text), "{text:?} is not read");
    }
}

/// Numbers at an index of bytes, with at least four bytes from there on.
#[test]
fn short_numbers_are_read(rt: HostRuntime) {
    let rows: [(&[u8], usize, Option<(u8, usize)>); 15] = [
        (b"mmmm", 0, Some((0, 0))),
        (b";123", 0, Some((0, 0))),
        (b"0m12", 0, Some((0, 1))),
        (b"7;12", 0, Some((7, 1))),
        (b"9:99", 0, Some((9, 1))),
        (b"37m5", 0, Some((37, 2))),
        (b"05/1", 0, Some((5, 2))),
        (b"255m", 0, Some((255, 3))),
        (b"007;", 0, Some((7, 3))),
        (b"256m", 0, None),
        (b"999m", 0, None),
        (b"0001", 0, None),
        (b"1234", 0, None),
        (b"\x1b[1;240H", 4, Some((240, 3))),
        (b"\x1b[12;24Hx", 5, Some((24, 2))),
    ];
    for (bytes, at, number) in rows {
        assert!(rt; bytes.len() >= 4 && at <= bytes.len() - 4);
        assert_eq!(rt; number_at(bytes, at), number, "at {at} in {bytes:?}");
    }
}

#[test]
fn moves_take_one_number(rt: HostRuntime) {
    let distances = [
        distance(&[]),
        distance(&[0]),
        distance(&[255]),
        distance(&[1, 1]),
    ];
    assert_eq!(rt;
        distances,
        [Ok(1), Ok(1), Ok(255), Err(Cause::WrongParameters)]
    );
}

#[test]
fn places_take_two_numbers(rt: HostRuntime) {
    let places = [
        place(&[]),
        place(&[3]),
        place(&[0, 7]),
        place(&[25, 80]),
        place(&[1, 1, 1]),
    ];
    assert_eq!(rt;
        places,
        [
            Ok((1, 1)),
            Ok((3, 1)),
            Ok((1, 7)),
            Ok((25, 80)),
            Err(Cause::WrongParameters)
        ]
    );
}

#[test]
fn a_number_alone(rt: HostRuntime) {
    let alone = [
        is_just(2, &[2]),
        is_just(2, &[]),
        is_just(2, &[0]),
        is_just(2, &[2, 2]),
    ];
    assert!(rt; alone == [true, false, false, false]);
}
