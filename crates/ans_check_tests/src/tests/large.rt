//! Files of many chunks, and screens as wide and as long as they may be.

ghost use Rattle.std.specs.Prelude.{◌≤◌, length};
ghost use Rattle.ans_model.specs.Bytes.{longest_file};

use super::endings::{Output, serve_on};
use super::verdicts::expect_verdict;
use super::{
    ANY, CELLS, CLEARED, NEEDS, SAUCE, TOKENS, behind, expect_memory, expect_run, file_of_size,
    plain_file, run_on,
};
use ans_check::{Options, RunError, Start, Verdict, check, run};
use ans_play::Picture;
use ans_report::Tried;
use ans_samples::{Narrow, sample_file};
use ans_sauce::{Cause, MAX_FILE};
use ans_screen::{Grid, PlainGrid, PlaneGrid};
use std::alloc::AllocError;
use std::io::{self, Read, Write};
use std::process::Abort;

/// Gives some bytes, then a line of 1024 bytes again and again, and then the last bytes.
#[derive(Clone, Copy)]
struct Overprinted<'a> {
    first: &'a [u8],
    line: &'a [u8; 1024],
    left: usize,
    last: &'a [u8],
}

impl Read for Overprinted<'_> {
    fn read(&mut self, buf: &mut [u8]) -> io::Result<usize> {
        if !self.first.is_empty() {
            return self.first.read(buf);
        }
        if self.left == 0 {
            return self.last.read(buf);
        }
        let left_of_line = (self.left - 1) % 1024 + 1;
        let line = self.line;
        let n = left_of_line.min(buf.len());
        buf[..n].copy_from_slice(&line[1024 - left_of_line..1024 - left_of_line + n]);
        self.left -= n;
        Ok(n)
    }
}

/// What a run makes of a screen of one line of 1024 columns: the first bytes, then all columns but the
/// last this number of times, then `Hi` at the left.
fn run_overprinted(
    rt: &(impl Abort + AllocGlobal),
    first: &[u8],
    times: u16,
) -> Result<(Result<bool, RunError>, Narrow), AllocError> {
    let mut line = [b'y'; 1024];
    line[0] = b'\r';
    let left = times as usize * 1024;
    let length = u32::try_from(first.len())
        .unwrap_or(0)
        .saturating_add(left as u32);
    let file_size = length.saturating_add(3).to_le_bytes();
    let last = sample_file(
        rt.alloc(),
        b"\rHi\x1a",
        &[(90, &file_size), (96, b"\x00\x04")],
    )?;
    let input = Overprinted {
        first,
        line: &line,
        left,
        last: last.as_slice(),
    };
    let ran = run_on(rt, input, &CLEARED, 4096)?;
    Ok((ran.answer, ran.writer.into_inner()))
}

/// How many `x` and lines, and the report up to the picture's first two glyphs. The second file has
/// the greatest length.
static OVERPRINTED: [(usize, u16, &[u8]); 2] = [
    (
        188,
        195,
        b"size: 1024 x 1\n\
        start: cleared\n\
        content: 199871 bytes\n\
        verdict: pass\n\
        picture:\n\
        Hi",
    ),
    (
        892,
        16_383,
        b"size: 1024 x 1\n\
        start: cleared\n\
        content: 16777087 bytes\n\
        verdict: pass\n\
        picture:\n\
        Hi",
    ),
];

#[test]
fn files_are_read_up_to_the_largest(rt: HostRuntime) -> Result<(), AllocError> {
    let mut rest_of_row = [b'y'; 1023];
    rest_of_row[1021] = b' ';
    rest_of_row[1022] = b'\n';
    for (first, times, report) in &OVERPRINTED {
        let (answer, written) = run_overprinted(&rt, &[b'x'; 1000][..*first], *times)?;
        assert!(rt; answer == Ok(true), "with {first} bytes first");
        let rest = behind(&rt, written.held(), report);
        assert!(rt; rest == rest_of_row.as_slice());
    }
    let (answer, written) = run_overprinted(&rt, &[b'x'; 893], 16_383)?;
    assert!(rt; answer == Err(RunError::TooLong) && written.held().is_empty());
    Ok(())
}

#[test]
fn a_longer_file_is_not_served(rt: HostRuntime) -> Result<(), AllocError> {
    let input = Overprinted {
        first: b"",
        line: &[b'y'; 1024],
        left: MAX_FILE,
        last: b"y",
    };
    let (answer, _) = serve_on(&rt, input, Output::with_room(100))?;
    assert!(rt; answer == Err(RunError::TooLong));
    Ok(())
}

/// The glyphs of a row, where those that are not listed by their row and column are blank.
fn glyphs_of(glyphs: &[(usize, usize, u8)], row: usize) -> [u8; 1024] {
    let mut line = [b' '; 1024];
    for (its_row, column, glyph) in glyphs {
        if *its_row == row && *column < 1024 {
            line[*column] = *glyph;
        }
    }
    line
}

/// The attributes of a row of white on black.
const WHITE: [u8; 1024] = [0x07; 1024];

/// Asserts that a row of a picture has these glyphs and attributes.
fn assert_row<G: Grid>(
    rt: &impl Abort,
    picture: &Picture<G>,
    row: usize,
    glyphs: &[u8; 1024],
    attributes: &[u8; 1024],
) {
    let width = picture.width();
    assert!(rt; width <= 1024 && row < picture.lines());
    let mut shown = [0; 1024];
    picture.copy_glyphs(row, &mut shown[..width]);
    assert!(rt; shown[..width] == glyphs[..width], "row {row} from 0");
    picture.copy_attributes(row, &mut shown[..width]);
    assert!(rt; shown[..width] == attributes[..width], "row {row} from 0");
}

/// Asserts that a picture has this size and in each row these glyphs, on blanks of attribute 07h.
pub(super) fn assert_glyphs<G: Grid>(
    rt: &impl Abort,
    picture: &Picture<G>,
    size: (usize, usize),
    glyphs: &[(usize, usize, u8)],
) {
    assert!(rt; (picture.width(), picture.lines()) == size);
    for row in 0..picture.lines() {
        assert_row(rt, picture, row, &glyphs_of(glyphs, row), &WHITE);
    }
}

/// Asserts that a file passes over one kind of grid, with such a picture.
fn expect_glyphs_on<G: Grid>(
    rt: &(impl Abort + AllocGlobal),
    file: &[u8],
    start: Start,
    size: (usize, usize),
    glyphs: &[(usize, usize, u8)],
) -> Result<(), AllocError>
    requires { length file.now ≤ longest_file }
{
    match &check::<G>(rt.alloc(), file, start)? {
        Verdict::Pass(_, picture) => assert_glyphs(rt, picture, size, glyphs),
        Verdict::Refused(_, _) => panic!(rt; "a pass was expected"),
    }
    Ok(())
}

/// Asserts so of a content on a screen of this size, over both kinds of grid.
fn expect_glyphs(
    rt: &(impl Abort + AllocGlobal),
    content: &[u8],
    start: Start,
    (width, lines): (u16, u16),
    glyphs: &[(usize, usize, u8)],
) -> Result<(), AllocError> {
    let file = file_of_size(rt, content, width, lines)?;
    assert!(rt; file.len() <= MAX_FILE);
    let size = (width as usize, lines as usize);
    expect_glyphs_on::<PlainGrid>(rt, file.as_slice(), start, size, glyphs)?;
    expect_glyphs_on::<PlaneGrid>(rt, file.as_slice(), start, size, glyphs)
}

#[test]
fn the_widest_screen_is_played(rt: HostRuntime) -> Result<(), AllocError> {
    let content = b"A\x1b[255C\x1b[255C\x1b[255C\x1b[255C\x1b[255CBC";
    let glyphs = [(0, 0, b'A'), (0, 1023, b'B'), (1, 0, b'C')];
    expect_glyphs(&rt, content, Start::CLEARED, (1024, 2), &glyphs)
}

#[test]
fn the_longest_screen_is_played(rt: HostRuntime) -> Result<(), AllocError> {
    let mut content = [b'\n'; 8192];
    content[0] = b'A';
    content[8191] = b'B';
    let glyphs = [(0, 0, b'A'), (8191, 0, b'B')];
    expect_glyphs(&rt, &content, Start::CLEARED, (1, 8192), &glyphs)
}

#[test]
fn the_largest_screen_is_played(rt: HostRuntime) -> Result<(), AllocError> {
    let mut content = [b'\n'; 8223];
    content[0] = b'A';
    content[8192..].copy_from_slice(b"\x1b[255C\x1b[255C\x1b[255C\x1b[255C\x1b[255CB");
    let glyphs = [(0, 0, b'A'), (8191, 1023, b'B')];
    expect_glyphs(&rt, &content, Start::CLEARED, (1024, 8192), &glyphs)
}

#[test]
fn the_largest_screen_is_cleared_from_any_start(rt: HostRuntime) -> Result<(), AllocError> {
    let content = b"\x1b[0m\x1b[2J";
    expect_glyphs(&rt, content, Start::ANY, (1024, 8192), &[])
}

/// Asserts that a file passes over one kind of grid, with 4095 `a` on 80 columns and 52 lines, a bright `b`
/// after them, and blanks up to the border.
fn expect_bright_end<G: Grid>(
    rt: &(impl Abort + AllocGlobal),
    file: &[u8],
) -> Result<(), AllocError>
    requires { length file.now ≤ longest_file }
{
    let Verdict::Pass(_, picture) = &check::<G>(rt.alloc(), file, Start::cleared())? else {
        panic!(rt; "a pass was expected");
    };
    assert!(rt; (picture.width(), picture.lines()) == (80, 52));
    for row in 0..51 {
        assert_row(rt, picture, row, &[b'a'; 1024], &WHITE);
    }
    let (mut glyphs, mut attributes) = ([b' '; 1024], WHITE);
    glyphs[..16].copy_from_slice(b"aaaaaaaaaaaaaaab");
    attributes[15] = 0x0f;
    assert_row(rt, picture, 51, &glyphs, &attributes);
    Ok(())
}

/// The 4096 bytes that are fed at once end within the sequence.
#[test]
fn a_sequence_crosses_two_pieces(rt: HostRuntime) -> Result<(), AllocError> {
    let mut content = [b'a'; 4100];
    content[4095..].copy_from_slice(b"\x1b[1mb");
    let file = file_of_size(&rt, &content, 80, 52)?;
    assert!(rt; file.len() <= MAX_FILE);
    expect_bright_end::<PlainGrid>(&rt, file.as_slice())?;
    expect_bright_end::<PlaneGrid>(&rt, file.as_slice())
}

/// Overwrites bytes of a content from an offset on.
fn put(rt: &impl Abort, content: &mut [u8], at: usize, bytes: &[u8]) {
    assert!(rt; at <= content.len() && bytes.len() <= content.len() - at);
    content[at..at + bytes.len()].copy_from_slice(bytes);
}

/// The report of the content in which two sequences cross the ends of pieces.
const PIECES_REPORT: &[u8] = b"size: 3 x 1\n\
    start: cleared\n\
    content: 8195 bytes\n\
    verdict: pass\n\
    picture:\n\
    abc\n\
    cells:\n\
    6107620f630f\n";

/// A sequence goes across the end of the first 4096 bytes, and one across the end of the next. The
/// bytes about them are returns, which move the cursor to the first column.
#[test]
fn two_sequences_cross_three_pieces(rt: HostRuntime) -> Result<(), AllocError> {
    let mut front = [b'\r'; 8196];
    put(&rt, &mut front, 4093, b"a\x1b[1mb");
    put(&rt, &mut front, 8190, b"\x1b[2Cc\x1a");
    let edits: [(usize, &[u8]); 2] = [(90, b"\x03\x20"), (96, b"\x03")];
    let file = sample_file(rt.alloc(), &front, &edits)?;
    let shown: (&[u8], &[u8]) = (b"abc", b"\x07\x0f\x0f");
    expect_verdict(&rt, file.as_slice(), Start::cleared(), Ok(shown))?;
    expect_run(&rt, file.as_slice(), &CELLS, 256, Ok(true), PIECES_REPORT)?;
    let needs: &[u8] = b"size: 3 x 1\ncontent: 8195 bytes\nneeds: cursor colours\n";
    expect_run(&rt, file.as_slice(), &NEEDS, 256, Ok(true), needs)
}

/// A number of 9,998 digits, and a string of 100,000 bytes that does not end.
#[test]
fn sequences_longer_than_a_piece_are_read(rt: HostRuntime) -> Result<(), AllocError> {
    let mut content = [b'0'; 10_001];
    content[..2].copy_from_slice(b"\x1b[");
    content[9_999..].copy_from_slice(b"5C");
    expect_glyphs(&rt, &content, Start::CLEARED, (2, 1), &[])?;
    let mut content = [0x1b; 100_003];
    content[1] = b'[';
    content[2] = b'"';
    let file = file_of_size(&rt, &content, 2, 1)?;
    let fault = Err((0, Cause::EndInSequence));
    expect_verdict(&rt, file.as_slice(), Start::cleared(), fault)
}

/// What comes before the picture in the report of the largest screen.
const LARGEST_HEADING: &[u8] =
    b"size: 1024 x 8192\nstart: any\ncontent: 8 bytes\nverdict: pass\npicture:\n";

/// The bytes of the largest picture, one for each blank, and of its cells, four for each.
const LARGEST_PICTURE: usize = 8192 * 1025;

const LARGEST_CELLS: usize = 8192 * 4097;

/// The byte at a place of the report of the largest screen, blank and with its cells.
fn byte_of_largest_report(at: usize) -> u8 {
    if at < LARGEST_HEADING.len() {
        return LARGEST_HEADING[at];
    }
    let at = at - LARGEST_HEADING.len();
    if at < LARGEST_PICTURE {
        return if at % 1025 == 1024 { b'\n' } else { b' ' };
    }
    let at = at - LARGEST_PICTURE;
    let title = b"cells:\n";
    if at < title.len() {
        return title[at];
    }
    let column = (at - title.len()) % 4097;
    if column == 4096 {
        b'\n'
    } else {
        b"2007"[column % 4]
    }
}

/// Counts the bytes that it takes, and those that the report of the largest screen does not have there.
#[derive(Clone, Copy)]
struct LargestReport {
    taken: usize,
    others: usize,
}

impl Write for LargestReport {
    fn write(&mut self, buf: &[u8]) -> io::Result<usize> {
        for byte in buf {
            if *byte != byte_of_largest_report(self.taken) {
                self.others = self.others.saturating_add(1);
            }
            self.taken = self.taken.saturating_add(1);
        }
        Ok(buf.len())
    }

    fn flush(&mut self) -> io::Result<()> {
        Ok(())
    }
}

/// What became of a report of the largest screen. It fails where memory runs out.
fn report_largest(
    rt: &(impl Abort + AllocGlobal),
    file: &[u8],
    asked: &Options,
) -> Result<LargestReport, AllocError> {
    let mut reader = Tried::new(file);
    let mut writer = Tried::new(LargestReport {
        taken: 0,
        others: 0,
    });
    let answer = run(rt.alloc(), &mut reader, &mut writer, asked);
    expect_memory(rt, answer, writer.calls())?;
    assert!(rt; answer == Ok(true));
    Ok(writer.into_inner())
}

#[test]
fn each_cell_of_the_largest_screen_is_reported(rt: HostRuntime) -> Result<(), AllocError> {
    let file = plain_file(&rt, b"\x1b[0m\x1b[2J", 1024, 8192)?;
    let asked = Options { cells: true, ..ANY };
    let written = report_largest(&rt, file.as_slice(), &asked)?;
    let length = LARGEST_HEADING.len() + LARGEST_PICTURE + 7 + LARGEST_CELLS;
    assert_eq!(rt; [written.taken, written.others], [length, 0]);
    Ok(())
}

#[test]
fn an_empty_content_needs_the_largest_screen(rt: HostRuntime) -> Result<(), AllocError> {
    let file = plain_file(&rt, b"", 1024, 8192)?;
    let text: &[u8] = b"size: 1024 x 8192\ncontent: 0 bytes\nneeds: screen\n";
    expect_run(&rt, file.as_slice(), &NEEDS, 256, Ok(true), text)
}

/// What the commands but `check` tell of a string of 100,000 bytes that does not end.
#[test]
fn a_long_string_without_an_end_is_told(rt: HostRuntime) -> Result<(), AllocError> {
    let mut front = [0x1b; 100_004];
    front[1] = b'[';
    front[2] = b'"';
    front[100_003] = 0x1a;
    let edits: [(usize, &[u8]); 1] = [(90, b"\xa3\x86\x01\x00")];
    let file = sample_file(rt.alloc(), &front, &edits)?;
    let refused: &[u8] = b"size: 2 x 1\n\
        content: 100003 bytes\n\
        verdict: refused\n\
        at 0: F12 content ends in a sequence\n";
    expect_run(&rt, file.as_slice(), &NEEDS, 256, Ok(false), refused)?;
    let told: &[u8] = b"at 0: F12 content ends in a sequence\n";
    expect_run(&rt, file.as_slice(), &TOKENS, 256, Ok(false), told)?;
    let ran = run_on(&rt, file.as_slice(), &SAUCE, 256)?;
    let record: &[u8] = b"file size: 100003\ncomments: 0\n";
    assert!(rt; ran.answer == Ok(true) && ran.writer.inner().held().ends_with(record));
    Ok(())
}
