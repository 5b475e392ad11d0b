//! What a check finds of files.

ghost use Rattle.std.specs.Prelude.{◌≤◌, length};
ghost use Rattle.ans_model.specs.Bytes.{longest_file};

use super::file_of_size;
use super::large::assert_glyphs;
use ans_check::{Judged, Start, Verdict, check, needs};
use ans_play::Picture;
use ans_samples::records::{ACCEPTED, AcceptedFile, REFUSED};
use ans_samples::rows::Expected::{Refused, Shows};
use ans_samples::rows::{Row, tables};
use ans_samples::sample_file;
use ans_sauce::{Cause, MAX_FILE, Parts};
use ans_screen::{Grid, PlainGrid, PlaneGrid};
use std::alloc::AllocError;
use std::process::Abort;

/// Whether the cause is in a file's record or its layout.
fn is_of_the_record(cause: Cause) -> bool {
    matches!(
        cause,
        Cause::NoRecord
            | Cause::WrongVersion
            | Cause::WrongKind
            | Cause::CommentsMissing
            | Cause::LinesUnstated
            | Cause::WidthTooLarge
            | Cause::LinesTooLarge
            | Cause::BytesAfterEndMark
    )
}

/// Asserts the byte of a cell of a file's picture, and its attribute where one is given.
fn assert_cell<G: Grid>(
    rt: &impl Abort,
    file: &[u8],
    picture: &Picture<G>,
    (row, column): (usize, usize),
    byte: u8,
    attribute: Option<u8>,
) {
    assert!(rt; row < picture.lines() && column < picture.width());
    let shown = (picture.glyph(row, column), picture.attr(row, column));
    let wanted = (byte, attribute.unwrap_or(shown.1));
    assert_eq!(rt; shown, wanted, "at {row}, {column} of {file:?}");
}

/// Asserts the bytes of a file's picture in row order, and their attributes where these are compared.
fn assert_shows<G: Grid>(
    rt: &impl Abort,
    file: &[u8],
    picture: &Picture<G>,
    bytes: &[u8],
    attributes: &[u8],
) {
    let (width, lines) = (picture.width(), picture.lines());
    assert!(rt; 0 < width && width <= 100 && lines <= 100);
    assert!(rt; bytes.len() == width * lines);
    assert!(rt; attributes.is_empty() || attributes.len() == bytes.len());
    for (i, byte) in bytes.iter().enumerate() {
        let place = (i / width, i % width);
        assert_cell(rt, file, picture, place, *byte, attributes.get(i).copied());
    }
}

/// Asserts what a check over one kind of grid answers: the picture's bytes and attributes, or a fault.
fn expect_verdict_on<G: Grid>(
    rt: &(impl Abort + AllocGlobal),
    file: &[u8],
    start: Start,
    expected: Result<(&[u8], &[u8]), (usize, Cause)>,
) -> Result<(), AllocError>
    requires { length file.now ≤ longest_file }
{
    match check::<G>(rt.alloc(), file, start)? {
        Verdict::Pass(parts, picture) => {
            assert!(rt; picture.width() == parts.width() && picture.lines() == parts.lines());
            let Ok((bytes, attributes)) = expected else {
                panic!(rt; "no fault is found in {file:?}")
            };
            assert_shows(rt, file, &picture, bytes, attributes);
        }
        Verdict::Refused(parts, fault) => {
            let found = Some((fault.offset, fault.cause));
            assert_eq!(rt; found, expected.err(), "in {file:?}");
            assert!(rt; parts.is_none() == is_of_the_record(fault.cause));
        }
    }
    Ok(())
}

/// Asserts what a check answers, over both kinds of grid.
pub(super) fn expect_verdict(
    rt: &(impl Abort + AllocGlobal),
    file: &[u8],
    start: Start,
    expected: Result<(&[u8], &[u8]), (usize, Cause)>,
) -> Result<(), AllocError> {
    assert!(rt; file.len() <= MAX_FILE);
    expect_verdict_on::<PlainGrid>(rt, file, start, expected)?;
    expect_verdict_on::<PlaneGrid>(rt, file, start, expected)
}

/// Asserts that what the file needs, found over both kinds of grid, says from which starts it passes:
/// from this one exactly where it passes.
fn expect_needs_agree(
    rt: &(impl Abort + AllocGlobal),
    file: &[u8],
    start: Start,
    passes: bool,
) -> Result<(), AllocError> {
    assert!(rt; file.len() <= MAX_FILE);
    for found in [
        needs::<PlainGrid>(rt.alloc(), file)?,
        needs::<PlaneGrid>(rt.alloc(), file)?,
    ] {
        let agrees = match &found {
            Judged::Passes(_, class) => class.covers(start) == passes,
            Judged::NoContent(_) | Judged::Refused(_, _) => !passes,
        };
        assert!(rt; agrees, "needs of {file:?}");
    }
    Ok(())
}

/// The content, an end mark and the plain record of this size.
fn file_of_content(rt: &(impl Abort + AllocGlobal), row: &Row) -> Result<Vec<u8>, AllocError> {
    let mut front = [0x1a; 256];
    assert!(rt; row.content.len() < 256 && row.width < 256 && row.lines < 256);
    front[..row.content.len()].copy_from_slice(row.content);
    file_of_size(
        rt,
        &front[..row.content.len() + 1],
        row.width as u16,
        row.lines as u16,
    )
}

/// Asserts that a check finds of each content, as a file, what is expected of it, and that what it
/// needs agrees.
fn expect_rows(rt: &(impl Abort + AllocGlobal), rows: &[Row]) -> Result<(), AllocError> {
    for row in rows {
        let file = file_of_content(rt, row)?;
        let expected = match row.expected {
            Shows(bytes, attributes) => Ok((bytes, attributes)),
            Refused(offset, cause) => Err((offset, cause)),
        };
        expect_verdict(rt, file.as_slice(), row.start, expected)?;
        expect_needs_agree(rt, file.as_slice(), row.start, expected.is_ok())?;
    }
    Ok(())
}

#[test]
fn rows_have_their_verdicts(rt: HostRuntime) -> Result<(), AllocError> {
    for rows in tables() {
        expect_rows(&rt, rows)?;
    }
    Ok(())
}

#[test]
fn records_and_layouts_are_refused(rt: HostRuntime) -> Result<(), AllocError> {
    for row in &REFUSED {
        let file = sample_file(rt.alloc(), row.front, row.edits)?;
        let fault = (row.offset, row.cause);
        expect_verdict(&rt, file.as_slice(), Start::any(), Err(fault))?;
    }
    let fault = Err((127, Cause::NoRecord));
    expect_verdict(&rt, &[b'S'; 127], Start::cleared(), fault)?;
    expect_verdict(&rt, b"", Start::cleared(), Err((0, Cause::NoRecord)))
}

/// Asserts the content, the size and the notes of an accepted file.
fn expect_parts(rt: &impl Abort, parts: &Parts<'_>, row: &AcceptedFile) {
    let shown = (parts.content(), parts.notes().as_slice());
    assert_eq!(rt; shown, (row.content, row.notes));
    assert!(rt; parts.width() == row.width && parts.lines() == row.lines);
}

/// Asserts the parts and the verdict of an accepted file from the cleared start, over one kind of grid:
/// `Hi` passes, except in one column, where the second letter is below the stated lines.
fn expect_accepted<G: Grid>(
    rt: &(impl Abort + AllocGlobal),
    row: &AcceptedFile,
) -> Result<(), AllocError> {
    let file = sample_file(rt.alloc(), row.front, row.edits)?;
    assert!(rt; file.len() <= MAX_FILE);
    match &check::<G>(rt.alloc(), file.as_slice(), Start::cleared())? {
        Verdict::Pass(parts, picture) => {
            assert!(rt; row.width != 1);
            expect_parts(rt, parts, row);
            let glyphs: &[(usize, usize, u8)] = &[(0, 0, b'H'), (0, 1, b'i')];
            let shown = &glyphs[..row.content.len().min(2)];
            assert_glyphs(rt, picture, (row.width, row.lines), shown);
        }
        Verdict::Refused(Some(parts), fault) => {
            expect_parts(rt, parts, row);
            let found = (row.width, fault.offset, fault.cause);
            assert_eq!(rt; found, (1, 1, Cause::PrintBelow));
        }
        Verdict::Refused(None, _) => panic!(rt; "the record is accepted"),
    }
    Ok(())
}

#[test]
fn accepted_files_have_their_parts_and_verdicts(rt: HostRuntime) -> Result<(), AllocError> {
    for row in &ACCEPTED {
        expect_accepted::<PlainGrid>(&rt, row)?;
        expect_accepted::<PlaneGrid>(&rt, row)?;
    }
    Ok(())
}

#[test]
fn files_with_odd_ends_are_accepted(rt: HostRuntime) -> Result<(), AllocError> {
    let mut wide = [b' '; 80];
    wide[..2].copy_from_slice(b"Hi");
    let rows: [(&[u8], u16, u16, &[u8]); 4] = [
        (b"Hi", 2, 1, b"Hi"),
        (b"Hi\x1a\x1a", 2, 1, b"Hi"),
        (b"\x1a", 1, 2, b"  "),
        (b"Hi\x1a", 0, 1, &wide),
    ];
    for (front, width, lines, picture) in rows {
        let file = file_of_size(&rt, front, width, lines)?;
        expect_verdict(&rt, file.as_slice(), Start::cleared(), Ok((picture, &[])))?;
    }
    Ok(())
}

#[test]
fn each_proper_prefix_of_a_file_has_no_record(rt: HostRuntime) -> Result<(), AllocError> {
    let file = sample_file(rt.alloc(), b"Hi\x1a", &[])?;
    assert!(rt; file.len() == 131);
    for n in 0..131usize {
        expect_verdict(
            &rt,
            &file.as_slice()[..n],
            Start::cleared(),
            Err((n, Cause::NoRecord)),
        )?;
    }
    expect_verdict(&rt, file.as_slice(), Start::cleared(), Ok((b"Hi", &[7, 7])))
}
