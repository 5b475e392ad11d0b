//! Plays of small contents over both grids, each fed whole, in two pieces at every cut, and byte by
//! byte.

use ans_model::fault::{Cause, Fault};
use ans_play::{Picture, Player, Start};
use ans_samples::rows::Expected::{Refused, Shows};
use ans_samples::rows::{Row, tables};
use ans_screen::{Grid, HalfCell, LentGrid, LentRow, PlainGrid, PlaneGrid, Screen};
use std::alloc::Global;
use std::process::Abort;
use std::test::Fail;

/// Feeds a piece, whose bytes are counted where it has no fault.
fn feed<G: Screen>(rt: &impl Abort, player: &mut Player<G>, piece: &[u8]) -> Result<(), Fault> {
    let fed = player.fed();
    assert!(rt; fed <= 5000 && piece.len() <= 5000);
    let answer = player.feed(piece);
    let more = if answer.is_ok() { piece.len() } else { 0 };
    assert_eq!(rt; player.fed(), fed + more);
    answer
}

fn assert_shows<G: Screen>(rt: &impl Abort, picture: &Picture<G>, bytes: &[u8], attributes: &[u8]) {
    let (width, lines) = (picture.width(), picture.lines());
    assert!(rt; width <= 20 && lines <= 10 && bytes.len() == width * lines);
    assert!(rt; attributes.is_empty() || attributes.len() == bytes.len());
    for row in 0..lines {
        assert_row(rt, picture, row, bytes, attributes);
    }
}

/// Asserts a row's bytes, and its attributes where these are compared, read one by one and copied.
fn assert_row<G: Screen>(
    rt: &impl Abort,
    picture: &Picture<G>,
    row: usize,
    bytes: &[u8],
    attributes: &[u8],
) {
    let width = picture.width();
    assert!(rt; row < picture.lines() && row <= 10 && width <= 20);
    let mut glyphs = [0; 20];
    let mut values = [0; 20];
    picture.copy_glyphs(row, &mut glyphs[..width]);
    picture.copy_attributes(row, &mut values[..width]);
    for col in 0..width {
        let i = row * width + col;
        assert!(rt; i < bytes.len());
        let attribute = *attributes.get(i).unwrap_or(&values[col]);
        let read = (picture.glyph(row, col), picture.attr(row, col));
        let copied = (glyphs[col], values[col]);
        let expected = (bytes[i], attribute);
        assert_eq!(rt; (read, copied), (expected, expected), "in {bytes:?}");
    }
}

/// Feeds the first bytes of a row's content as one piece and the others in pieces of a size, with an
/// empty piece after each.
fn play_by<G: Screen>(
    rt: &impl Abort,
    mut player: Player<G>,
    row: &Row,
    first: usize,
    size: usize,
) {
    let content = row.content;
    assert!(rt; first <= content.len() && 0 < size);
    let mut met = feed(rt, &mut player, &content[..first]);
    for piece in content[first..].chunks(size) {
        let answer = feed(rt, &mut player, piece);
        let again = feed(rt, &mut player, b"");
        if met.is_ok() {
            met = answer;
        }
        assert_eq!(rt; (answer, again), (met, met));
    }
    match (player.finish(), row.expected) {
        (Ok(picture), Shows(bytes, attributes)) => assert_shows(rt, &picture, bytes, attributes),
        (Err(fault), Refused(offset, cause)) => {
            let met = met.err().unwrap_or(fault);
            let expected = Fault { offset, cause };
            assert_eq!(rt; (fault, met), (expected, expected), "in {content:?}");
        }
        _ => panic!(rt; "a picture where a fault was expected, or the reverse, in {content:?}"),
    }
}

fn play<G: Grid>(
    rt: &impl Abort,
    alloc: Global,
    row: &Row,
    first: usize,
    size: usize,
) -> Result<(), Fail> {
    assert!(rt; 1 <= row.width && row.width <= 20 && 1 <= row.lines && row.lines <= 10);
    let player = Player::<G>::new(alloc, row.width, row.lines, row.start)?;
    play_by(rt, player, row, first, size);
    Ok(())
}

/// Plays a content byte by byte on a grid that is there already and holds other cells.
fn play_on<G: Grid>(rt: &impl Abort, alloc: Global, row: &Row) -> Result<(), Fail> {
    assert!(rt; 1 <= row.width && row.width <= 20 && 1 <= row.lines && row.lines <= 10);
    let mut grid = G::new(alloc, row.width, row.lines + 1, HalfCell::unknown())?;
    grid.fill_row(row.lines, 0, row.width, HalfCell::known(b'#', 0x4F));
    grid.fill_row(0, 0, 1, HalfCell::known(b'#', 0x4F));
    play_by(rt, Player::on(grid, row.start), row, 0, 1);
    Ok(())
}

/// Plays a content byte by byte over a grid.
fn play_over<G: Screen>(rt: &impl Abort, grid: G, row: &Row) {
    let (width, rows) = (grid.width(), grid.rows());
    assert!(rt; 1 <= width && width <= 20 && 2 <= rows && rows <= 11);
    play_by(rt, Player::on(grid, row.start), row, 0, 1);
}

/// Plays a content byte by byte on memory that is lent and holds other bytes.
fn play_on_lent(rt: &impl Abort, row: &Row) {
    assert!(rt; 1 <= row.width && row.width <= 20 && 1 <= row.lines && row.lines <= 10);
    let used = LentRow {
        round: 1,
        known: 1,
        first: 0,
        end: row.width,
    };
    let mut held = [used; 11];
    let mut bytes = [0xEE; 880];
    match LentGrid::on(
        &mut held,
        &mut bytes,
        row.width,
        row.lines + 1,
        HalfCell::unknown(),
    ) {
        Some(grid) => play_over(rt, grid, row),
        None => panic!(rt; "no grid on memory that is large enough"),
    }
}

/// Plays each content over both grids: whole, in two pieces at every cut, byte by byte, on a grid that
/// is there already, and on memory that is lent.
fn play_all(rt: &impl Abort, alloc: Global, rows: &[Row]) -> Result<(), Fail> {
    for row in rows {
        let all = row.content.len();
        assert!(rt; all < 200);
        for cut in 0..all + 1 {
            play::<PlainGrid>(rt, alloc, row, cut, all + 1)?;
            play::<PlaneGrid>(rt, alloc, row, cut, all + 1)?;
        }
        play::<PlainGrid>(rt, alloc, row, 0, 1)?;
        play::<PlaneGrid>(rt, alloc, row, 0, 1)?;
        play_on::<PlainGrid>(rt, alloc, row)?;
        play_on::<PlaneGrid>(rt, alloc, row)?;
        play_on_lent(rt, row);
    }
    Ok(())
}

#[test]
fn rows_of_each_table(rt: HostRuntime) -> Result<(), Fail> {
    for rows in tables() {
        play_all(&rt, rt.alloc(), rows)?;
    }
    Ok(())
}

#[test]
fn answers_its_fault_again(rt: HostRuntime) -> Result<(), Fail> {
    let mut player = Player::<PlainGrid>::new(rt.alloc(), 2, 1, Start::cleared())?;
    let fault = Fault {
        offset: 2,
        cause: Cause::PrintBelow,
    };
    let played = (feed(&rt, &mut player, b"H"), feed(&rt, &mut player, b"i"));
    let before = player.fed();
    let refused = (feed(&rt, &mut player, b"!"), feed(&rt, &mut player, b""));
    let after = player.fed();
    assert_eq!(rt;
        (played, before, refused, after, player.finish().err()),
        (
            (Ok(()), Ok(())),
            2,
            (Err(fault), Err(fault)),
            2,
            Some(fault)
        )
    );
    Ok(())
}

/// Asserts that a row's cells are blank from a column on.
fn expect_blanks(rt: &impl Abort, picture: &Picture<PlainGrid>, row: usize, from: usize) {
    assert!(rt; row < picture.lines());
    for col in from..picture.width() {
        let cell = (picture.glyph(row, col), picture.attr(row, col));
        assert_eq!(rt; cell, (b' ', 0x07));
    }
}

/// Plays 4095 letters and a coloured one in pieces of a size.
fn play_letters(rt: &impl Abort, alloc: Global, content: &[u8], size: usize) -> Result<(), Fail> {
    assert!(rt; 0 < size);
    let mut player = Player::<PlainGrid>::new(alloc, 80, 52, Start::cleared())?;
    for piece in content.chunks(size) {
        assert_eq!(rt; feed(rt, &mut player, piece), Ok(()));
    }
    match player.finish() {
        Ok(picture) => {
            assert!(rt; picture.width() == 80 && picture.lines() == 52);
            let shown = (
                picture.glyph(51, 14),
                picture.glyph(51, 15),
                picture.attr(51, 15),
            );
            assert_eq!(rt; shown, (b'a', b'b', 0x0F));
            expect_blanks(rt, &picture, 51, 16);
        }
        Err(fault) => panic!(rt; "refused: {fault:?}"),
    }
    Ok(())
}

/// A sequence after 4095 bytes, whichever way the bytes are cut.
#[test]
fn plays_across_long_pieces(rt: HostRuntime) -> Result<(), Fail> {
    let mut content = vec![in rt.alloc(); b'a'; 4095]?;
    content.extend_from_slice(b"\x1b[1mb")?;
    for size in [1usize, 4095, 4096, 4097, 5000] {
        play_letters(&rt, rt.alloc(), content.as_slice(), size)?;
    }
    Ok(())
}
