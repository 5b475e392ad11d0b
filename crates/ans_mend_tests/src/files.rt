//! Files that are mended, byte for byte.

ghost use Rattle.std.specs.Prelude.{◌≤◌, length};
ghost use Rattle.ans_model.specs.Bytes.{longest_file};

use ans_mend::{Draft, MendError, Mended, Unmended, mend_on, put_mended, put_unmended, room_for};
use ans_model::mends::Mends;
use ans_samples::{puts, sample_file};
use ans_screen::PlainGrid;
use ans_verdict::NewScreens;
use std::alloc::{AllocError, Global};
use std::process::Abort;

/// Bytes of a record that are not those of the plain one, of 2 columns and 1 line: offsets in the record, and the
/// bytes from there on.
type Edits = &'static [(usize, &'static [u8])];

/// A file, what is asked for, the file that comes of it, and what is said.
struct Row {
    front: &'static [u8],
    record: Edits,
    mends: Mends,
    mended: Option<(&'static [u8], Edits)>,
    text: &'static str,
}

const NONE: Mends = Mends::NONE;

/// The safe beginning, which each of these drawings needs, and the FileSize.
macro_rules! ended {
    ($text:literal, $size:literal) => {
        ended!($text, $size, "")
    };
    ($text:literal, $size:literal, $idle:literal) => {
        concat!(
            $text,
            "added the safe beginning, 25 bytes\nfile size ",
            $size,
            ", was 2\n",
            $idle
        )
    };
}

const FOUR: Mends = Mends {
    columns: Some(4),
    ..NONE
};

const TAKE_OUT: Mends = Mends {
    take_out: true,
    ..NONE
};

static WIDTHS: [Row; 6] = [
    Row {
        front: b"abcd\x1a",
        record: &[],
        mends: FOUR,
        mended: Some((b"abcd\x1a", &[(90, b"\x1d"), (96, b"\x04")])),
        text: ended!("columns 4, was 2\n", "29"),
    },
    Row {
        front: b"abcd\x1a",
        record: &[(96, b"\x04")],
        mends: FOUR,
        mended: Some((b"abcd\x1a", &[(90, b"\x1d"), (96, b"\x04")])),
        text: ended!(
            "",
            "29",
            "--columns: nothing done, the record states them\n"
        ),
    },
    Row {
        front: b"abcdef\x1a",
        record: &[],
        mends: Mends {
            least_lines: true,
            ..FOUR
        },
        mended: None,
        text: "the rows look broken\n\
            try: --crlf --join-rows --lines N --columns N with another N (anscheck why says which)\n",
    },
    Row {
        front: b"abc\r\nab\x1a",
        record: &[],
        mends: Mends {
            least_lines: true,
            ..FOUR
        },
        mended: Some((b"abc\r\nab\x1a", &[(90, b"\x20"), (96, b"\x04\x00\x02")])),
        text: ended!("columns 4, was 2\nlines 2, was 1\n", "32"),
    },
    Row {
        front: b"abcdefgh\x1a",
        record: &[(98, b"\x02")],
        mends: Mends {
            least_lines: true,
            ..NONE
        },
        mended: None,
        text: "the rows look broken\n\
            try: --crlf --join-rows --lines N --columns N (anscheck why says which)\n",
    },
    Row {
        front: b"abcdefgh\x1a",
        record: &[(98, b"\x02")],
        mends: Mends {
            lines: Some(4),
            ..NONE
        },
        mended: Some((b"abcdefgh\x1a", &[(90, b"\x21"), (98, b"\x04")])),
        text: ended!("lines 4, was 2\n", "33"),
    },
];

const REPAIR: Mends = Mends {
    repair_record: true,
    ..NONE
};

/// Drawings with a comment of 64 bytes, or with something that is none.
static COMMENTS: [Row; 3] = [
    Row {
        front: b"ab\x1aCOMNT\
            a comment of sixty-four bytes in a block that is not counted yet",
        record: &[],
        mends: REPAIR,
        mended: Some((
            b"ab\x1aCOMNT\
                a comment of sixty-four bytes in a block that is not counted yet",
            &[(90, b"\x1b"), (104, b"\x01")],
        )),
        text: ended!("comments 1, was 0\n", "27"),
    },
    Row {
        front: b"ab\x1aCOMNT\
            a comment of sixty-four bytes in a block that is not counted yet",
        record: &[(104, b"\x01")],
        mends: REPAIR,
        mended: Some((
            b"ab\x1aCOMNT\
                a comment of sixty-four bytes in a block that is not counted yet",
            &[(90, b"\x1b"), (104, b"\x01")],
        )),
        text: ended!(
            "",
            "27",
            "--record: nothing done, no comments to count and no older record to remove\n"
        ),
    },
    Row {
        front: b"ab\x1a",
        record: &[(104, b"\x02")],
        mends: REPAIR,
        mended: Some((b"ab\x1a", &[(90, b"\x1b")])),
        text: ended!("comments 0, was 2\n", "27"),
    },
];

static FLAGS: [Row; 6] = [
    Row {
        front: b"ab\x1a",
        record: &[],
        mends: Mends { ice: true, ..NONE },
        mended: Some((b"ab\x1a", &[(90, b"\x1b"), (105, b"\x01")])),
        text: ended!("set the non-blink flag\n", "27"),
    },
    Row {
        front: b"\x1b[?33lab\x1a",
        record: &[],
        mends: Mends {
            ice: true,
            ..TAKE_OUT
        },
        mended: Some((b"ab\x1a", &[(90, b"\x1b"), (105, b"\x01")])),
        text: ended!("removed <ESC>[?33l at 0\nset the non-blink flag\n", "27"),
    },
    Row {
        front: b"\x1b[?33h\x1b[5;44mab\x1b[0m\x1b[?33l\x1a",
        record: &[],
        mends: TAKE_OUT,
        mended: Some((b"\x1b[5;44mab\x1b[0m\x1a", &[(90, b"\x26"), (105, b"\x01")])),
        text: ended!(
            "removed <ESC>[?33h at 0, and 1 more like it\nset the non-blink flag\n",
            "38"
        ),
    },
    Row {
        front: b"\x1b[?33l\x1b[5mab\x1b[?33h\x1a",
        record: &[(105, b"\x01")],
        mends: TAKE_OUT,
        mended: Some((b"\x1b[5mab\x1a", &[(90, b"\x1f")])),
        text: ended!(
            "removed <ESC>[?33l at 0, and 1 more like it\ncleared the non-blink flag\n",
            "31"
        ),
    },
    Row {
        front: b"\x1b[?33hab\x1a",
        record: &[],
        mends: TAKE_OUT,
        mended: Some((b"ab\x1a", &[(90, b"\x1b")])),
        text: ended!(
            "removed <ESC>[?33h at 0\nleft the non-blink flag cleared\n",
            "27"
        ),
    },
    Row {
        front: b"\x1b[5mab\x1b[?33l\x1a",
        record: &[(105, b"\x01")],
        mends: TAKE_OUT,
        mended: Some((b"\x1b[5mab\x1a", &[(90, b"\x1f"), (105, b"\x01")])),
        text: ended!(
            "removed <ESC>[?33l at 6\nleft the non-blink flag set\n",
            "31"
        ),
    },
];

static MIXED: [Row; 6] = [
    Row {
        front: b"a\r\nb\nc\x1a",
        record: &[(98, b"\x03")],
        mends: Mends { crlf: true, ..NONE },
        mended: Some((b"a\r\nb\nc\x1a", &[(90, b"\x1f"), (98, b"\x03")])),
        text: ended!(
            "",
            "31",
            "--crlf: nothing done, it needs line feeds and no return (--mixed: those without one)\n"
        ),
    },
    Row {
        front: b"a\r\nb\nc\x1a",
        record: &[(98, b"\x03")],
        mends: Mends {
            crlf: true,
            mixed: true,
            ..NONE
        },
        mended: Some((b"a\r\nb\r\nc\x1a", &[(90, b"\x20"), (98, b"\x03")])),
        text: ended!("added 1 carriage return before a line feed, at 4\n", "32"),
    },
    Row {
        front: b"a\r\r\n\nb\x1a",
        record: &[(98, b"\x03")],
        mends: Mends {
            crlf: true,
            mixed: true,
            ..NONE
        },
        mended: Some((b"a\r\r\n\r\nb\x1a", &[(90, b"\x20"), (98, b"\x03")])),
        text: ended!("added 1 carriage return before a line feed, at 4\n", "32"),
    },
    Row {
        front: b"ab\r\ncdef\x1a",
        record: &[(98, b"\x03")],
        mends: Mends {
            join_rows: true,
            mixed: true,
            ..NONE
        },
        mended: Some((b"abcdef\x1a", &[(90, b"\x1f"), (98, b"\x03")])),
        text: ended!("removed 1 line end after a full row, at 2\n", "31"),
    },
    Row {
        front: b"ab\r\ncdef\x1a",
        record: &[(98, b"\x03")],
        mends: Mends {
            join_rows: true,
            ..NONE
        },
        mended: None,
        text: "at 6: F20 print below the stated lines\n\
            try: --crlf --mixed --take-out --least-lines (anscheck why says which)\n",
    },
    Row {
        front: b"ab\0\0\x1a",
        record: &[],
        mends: TAKE_OUT,
        mended: Some((b"ab\x1a", &[(90, b"\x1b")])),
        text: ended!(
            "removed 2 line ends, bytes 00h or sequences at the end, first at 2\n",
            "27"
        ),
    },
];

/// What comes of mending a file in a draft. It fails if memory runs out.
fn came(
    alloc: Global,
    draft: &mut Draft<'_>,
    mends: &Mends,
) -> Result<Result<Mended, Unmended>, AllocError>
    requires { length draft.old.file ≤ longest_file }
{
    match mend_on(&mut NewScreens::<PlainGrid>::new(alloc), draft, mends) {
        Ok(mended) => Ok(Ok(mended)),
        Err(MendError::NotMended(reason)) => Ok(Err(reason)),
        Err(MendError::Memory) => Err(AllocError),
    }
}

fn expect_row(rt: &impl Abort, alloc: Global, row: &Row) -> Result<(), AllocError> {
    let file = sample_file(alloc, row.front, row.record)?;
    let mut memory = [0; 1024];
    let count = file.len();
    assert!(rt; count < 256);
    memory[..count].copy_from_slice(&file);
    let mut draft = Draft::new(&mut memory, count);
    assert!(rt; room_for(draft.file(), &row.mends) <= draft.room());
    match came(alloc, &mut draft, &row.mends)? {
        Ok(mended) => {
            let Some((front, record)) = row.mended else {
                assert!(rt; false, "{}", row.text);
                return Ok(());
            };
            let wanted = sample_file(alloc, front, record)?;
            assert!(rt; draft.file() == wanted.as_slice(), "{}", row.text);
            assert!(rt; mended.front, "{}", row.text);
            assert!(rt;
                puts(row.text.as_bytes(), |out| put_mended(out, &mended)),
                "{}",
                row.text
            );
        }
        Err(reason) => {
            assert!(rt; row.mended.is_none(), "{}", row.text);
            assert!(rt;
                puts(
                    row.text.as_bytes(),
                    |out| put_unmended(out, &row.mends, &row.mends, &reason)
                ),
                "{}",
                row.text
            );
        }
    }
    Ok(())
}

#[test]
fn widths_are_stated(rt: HostRuntime) -> Result<(), AllocError> {
    for row in &WIDTHS {
        expect_row(&rt, rt.alloc(), row)?;
    }
    Ok(())
}

#[test]
fn comments_are_counted(rt: HostRuntime) -> Result<(), AllocError> {
    for row in &COMMENTS {
        expect_row(&rt, rt.alloc(), row)?;
    }
    Ok(())
}

#[test]
fn flags_are_set(rt: HostRuntime) -> Result<(), AllocError> {
    for row in &FLAGS {
        expect_row(&rt, rt.alloc(), row)?;
    }
    Ok(())
}

#[test]
fn what_is_mixed_is_mended(rt: HostRuntime) -> Result<(), AllocError> {
    for row in &MIXED {
        expect_row(&rt, rt.alloc(), row)?;
    }
    Ok(())
}
