//! Files taken apart: which are refused and where, which are accepted with which notes, and what
//! their parts show.

use ans_model::fault::{Cause, Fault};
use ans_samples::records::{ACCEPTED, REFUSED};
use ans_samples::sample_file;
use ans_sauce::{Found, find, last_record_place, split, without_lines};
use std::process::Abort;
use std::test::Fail;

#[test]
fn first_refusal_answers(rt: HostRuntime) -> Result<(), Fail> {
    for row in &REFUSED {
        let file = sample_file(rt.alloc(), row.front, row.edits)?;
        let fault = Fault {
            offset: row.offset,
            cause: row.cause,
        };
        assert_eq!(rt; split(&file).err(), Some(fault), "{}", row.what);
    }
    Ok(())
}

#[test]
fn less_than_a_record_is_no_record(rt: HostRuntime) -> Result<(), Fail> {
    let record = sample_file(rt.alloc(), b"", &[])?;
    assert_eq!(rt; record.len(), 128);
    for length in [0, 1, 127] {
        let fault = Fault {
            offset: length,
            cause: Cause::NoRecord,
        };
        assert_eq!(rt; split(&record[..length]).err(), Some(fault));
    }
    Ok(())
}

#[test]
fn accepted_files_have_their_notes(rt: HostRuntime) -> Result<(), Fail> {
    for row in &ACCEPTED {
        let file = sample_file(rt.alloc(), row.front, row.edits)?;
        let parts = split(&file)?;
        let shown = (parts.content(), parts.notes().as_slice());
        let stated = [
            parts.width(),
            parts.lines(),
            parts.size().width(),
            parts.size().lines(),
        ];
        assert_eq!(rt; shown, (row.content, row.notes), "{}", row.what);
        assert_eq!(rt;
            stated,
            [row.width, row.lines, row.width, row.lines],
            "{}",
            row.what
        );
    }
    Ok(())
}

#[test]
fn record_shows_its_fields(rt: HostRuntime) -> Result<(), Fail> {
    let front = b"Hi\x1aCOMNThello                                                           ";
    let file = sample_file(
        rt.alloc(),
        front,
        &[
            (7, b"Test"),
            (42, b"Ann\x00"),
            (100, b"\x34\x12\x00\xff"),
            (104, b"\x01\x0dIBM VGA"),
        ],
    )?;
    let parts = split(&file)?;
    let sauce = parts.sauce();
    let texts = [
        (sauce.title(), b"Test".as_slice()),
        (sauce.author(), b"Ann"),
        (sauce.group(), b""),
        (sauce.date(), b"19960101"),
        (sauce.font(), b"IBM VGA"),
        (parts.content(), b"Hi"),
    ];
    for (text, expected) in texts {
        assert_eq!(rt; text, expected);
    }
    let numbers = [
        (sauce.file_size(), 2),
        (sauce.tinfo(1) as u32, 2),
        (sauce.tinfo(2) as u32, 1),
        (sauce.tinfo(3) as u32, 0x1234),
        (sauce.tinfo(4) as u32, 0xFF00),
        (sauce.comment_count() as u32, 1),
        (sauce.flags() as u32, 0x0D),
        (sauce.letter_spacing() as u32, 2),
        (sauce.aspect_ratio() as u32, 1),
    ];
    for (number, expected) in numbers {
        assert_eq!(rt; number, expected);
    }
    assert!(rt; sauce.is_non_blink() && parts.notes().is_empty());
    let comments = [parts.comment(0), parts.comment(1)];
    assert_eq!(rt; comments, [Some(b"hello".as_slice()), None]);
    Ok(())
}

#[test]
fn block_has_255_comments(rt: HostRuntime) -> Result<(), Fail> {
    let mut front = b"Hi\x1aCOMNT".as_slice().to_vec(rt.alloc())?;
    for i in 0..255u8 {
        let mut line = [b' '; 64];
        line[0] = i;
        line[2] = b'.';
        front.extend_from_slice(&line)?;
    }
    let file = sample_file(rt.alloc(), &front, &[(104, b"\xff")])?;
    let parts = split(&file)?;
    let shown = (parts.content(), [file.len(), parts.comments().len()]);
    assert_eq!(rt; shown, (b"Hi".as_slice(), [16_456, 64 * 255]));
    let comments = [
        (0, Some(b"\x00 .".as_slice())),
        (254, Some(b"\xfe .")),
        (255, None),
        (usize::MAX, None),
    ];
    for (i, comment) in comments {
        assert_eq!(rt; parts.comment(i), comment);
    }
    Ok(())
}

/// Asserts that a file is refused, and what is found in it.
fn expect_found(rt: &impl Abort, file: &[u8], found: Found<'_>) {
    match split(file) {
        Ok(_) => panic!(rt; "the sample is accepted"),
        Err(fault) => assert_eq!(rt; find(file, fault), found),
    }
}

/// A file, and what is found in it.
type FoundRow = (
    &'static [u8],
    &'static [(usize, &'static [u8])],
    Found<'static>,
);

#[test]
fn what_stands_in_place_of_a_record_is_found(rt: HostRuntime) -> Result<(), Fail> {
    let rows: [FoundRow; 10] = [
        (b"Hi", &[(0, b"S4UCE")], Found::NoRecord),
        (b"Hi", &[(5, b"01")], Found::Version(b"01")),
        (
            b"Hi",
            &[(94, b"\x05\x02")],
            Found::Kind {
                data_type: 5,
                file_type: 2,
            },
        ),
        (b"Hi", &[(104, b"\x03")], Found::Comments(3)),
        (b"Hi", &[(98, b"\x00\x00")], Found::Lines(0)),
        (b"Hi", &[(98, b"\x01\x20")], Found::Lines(8193)),
        (b"Hi", &[(96, b"\x01\x04")], Found::Width(1025)),
        (
            b"Hi\x1aHo",
            &[],
            Found::AfterEndMark {
                bytes: b"Ho",
                record: false,
            },
        ),
        (
            b"Hi\x1aSAUCE00 too short\x1a",
            &[],
            Found::AfterEndMark {
                bytes: b"SAUCE00 too short\x1a",
                record: false,
            },
        ),
        (
            b"Hi\x1aHoCOMNT                                                                ",
            &[(104, b"\x01")],
            Found::AfterEndMark {
                bytes: b"Ho",
                record: false,
            },
        ),
    ];
    for (front, edits, found) in rows {
        let file = sample_file(rt.alloc(), front, edits)?;
        expect_found(&rt, &file, found);
    }
    Ok(())
}

#[test]
fn records_before_the_end_are_found(rt: HostRuntime) -> Result<(), Fail> {
    let mut file = sample_file(rt.alloc(), b"Hi\x1a", &[])?;
    let twice = file.as_slice().to_vec(rt.alloc())?;
    file.extend_from_slice(b"\r\n")?;
    let older = sample_file(rt.alloc(), &twice, &[])?;
    expect_found(
        &rt,
        &file,
        Found::Record {
            offset: 3,
            behind: 2,
        },
    );
    expect_found(
        &rt,
        &older,
        Found::AfterEndMark {
            bytes: &twice[3..],
            record: true,
        },
    );
    Ok(())
}

/// What comes before a record, an edit of it, how many of its bytes are left, what comes after them, and what is found.
type LeftRow = (
    &'static [u8],
    (usize, &'static [u8]),
    usize,
    &'static [u8],
    Found<'static>,
);

/// Of a record too few bytes are left, or a transfer as text made it longer: one of its bytes was 0Ah.
static LEFT: [LeftRow; 10] = [
    (
        b"Hi\x1a",
        (0, b"SAUCE00"),
        127,
        b"",
        Found::Remains {
            offset: 3,
            bytes: 127,
        },
    ),
    (
        b"Hi",
        (0, b"SAUCE00"),
        7,
        b"",
        Found::Remains {
            offset: 2,
            bytes: 7,
        },
    ),
    (b"Hi", (0, b"SAUCE00"), 6, b"", Found::NoRecord),
    (
        b"SAUCE00",
        (0, b"SAUCE00"),
        90,
        b"",
        Found::Remains {
            offset: 7,
            bytes: 90,
        },
    ),
    (
        b"Hi\x1a",
        (98, b"\r\n"),
        128,
        b"\0",
        Found::Grown {
            offset: 3,
            bytes: 129,
            returns: 1,
        },
    ),
    (
        b"Hi\x1a",
        (96, b"\r\n\r\n"),
        128,
        b"\0\0",
        Found::Grown {
            offset: 3,
            bytes: 130,
            returns: 2,
        },
    ),
    (
        b"\r\nHi\x1a",
        (98, b"\r\n"),
        128,
        b"\0\0",
        Found::Record {
            offset: 5,
            behind: 2,
        },
    ),
    (
        b"Hi\x1a",
        (98, b"\n\r"),
        128,
        b"\0",
        Found::Record {
            offset: 3,
            behind: 1,
        },
    ),
    (
        b"Hi\x1a",
        (98, b"\r\n"),
        128,
        b"\r\n",
        Found::Grown {
            offset: 3,
            bytes: 130,
            returns: 2,
        },
    ),
    (
        b"\r\nHi\x1a",
        (0, b"SAUCE00"),
        128,
        b"\0",
        Found::Record {
            offset: 5,
            behind: 1,
        },
    ),
];

#[test]
fn what_is_left_of_a_record_is_found(rt: HostRuntime) -> Result<(), Fail> {
    for (front, edit, left, behind, found) in LEFT {
        let mut file = sample_file(rt.alloc(), front, &[edit])?;
        file.truncate(front.len() + left);
        file.extend_from_slice(behind)?;
        expect_found(&rt, &file, found);
    }
    Ok(())
}

/// Of two records less than 128 bytes apart the earlier counts: what comes before the record, a title, what follows the
/// record, and the place that is found.
static OVERLAPPING: [(&[u8], &[u8], &[u8], usize); 4] = [
    (b"Hi\x1a", b"SAUCE00", b"\0\0\0\0\0\0\0\0\0", 3),
    (b"HiSAUCE00\x1a", b"A title", b"\n", 2),
    (b"SAUCE00....", b"SAUCE00", b"\0\0\0\0\0\0\0\0", 0),
    (b"SAUCE0\x1a", b"sauce00", b"\n", 7),
];

#[test]
fn the_earlier_of_overlapping_records_counts(rt: HostRuntime) -> Result<(), Fail> {
    for (front, title, behind, offset) in OVERLAPPING {
        let mut file = sample_file(rt.alloc(), front, &[(7, title)])?;
        file.extend_from_slice(behind)?;
        assert!(rt; last_record_place(&file) == Some(offset), "{front:?}");
    }
    let mut twice = sample_file(rt.alloc(), b"Hi\x1a", &[])?;
    twice.extend_from_slice(&sample_file(rt.alloc(), b"", &[])?)?;
    assert!(rt; last_record_place(&twice) == Some(131));
    Ok(())
}

/// What comes before a record that states no lines, another field of it, and the content if the file lacks nothing
/// but its lines.
static UNSTATED: [(&[u8], usize, &[u8], Option<&[u8]>); 6] = [
    (b"Hi\x1a", 98, b"\0\0", Some(b"Hi")),
    (b"Hi\x1a\x1a", 98, b"\0\0", Some(b"Hi")),
    (b"", 98, b"\0\0", Some(b"")),
    (b"Hi\x1ax", 98, b"\0\0", None),
    (b"Hi\x1a", 96, b"\x01\x04\0\0", None),
    (b"Hi\x1a", 0, b"X", None),
];

#[test]
fn a_file_may_lack_nothing_but_its_lines(rt: HostRuntime) -> Result<(), Fail> {
    for (front, offset, bytes, content) in UNSTATED {
        let file = sample_file(rt.alloc(), front, &[(offset, bytes)])?;
        let found = without_lines(&file);
        assert!(rt; found.map(|found| found.content) == content, "{front:?}");
    }
    let file = sample_file(rt.alloc(), b"Hi", &[(96, b"\x09\0\0\0"), (106, b"A")])?;
    let found = without_lines(&file).ok_or("no content")?;
    assert!(rt; found.sauce.width() == 9 && found.sauce.font() == b"A".as_slice());
    Ok(())
}
