//! Values from outside, and each call once.

ghost use Rattle.std.specs.Prelude.{◌≡◌, ◌+◌, ◌<◌, ◌≤◌, length};

use crate::row_planes::Frame;
use crate::{Attr, Grid, HalfCell, LentGrid, LentRow, PlainGrid, PlaneGrid, Screen};
use std::alloc::Global;
use std::process::Abort;
use std::test::Fail;

#[test]
fn parameters_make_bits_known(rt: HostRuntime) {
    let mut attr = Attr::none();
    let rows = [
        (37, 0x07, 0x07),
        (40, 0x77, 0x07),
        (1, 0x7F, 0x0F),
        (99, 0x7F, 0x0F),
        (0, 0xFF, 0x07),
    ];
    for (parameter, known, value) in rows {
        attr = attr.apply(parameter);
        assert_eq!(rt;
            (attr.known, attr.value, attr.is_known()),
            (known, value, known == 0xFF),
            "after {parameter}"
        );
    }
}

#[test]
fn cells_are_known_whole(rt: HostRuntime) {
    let rows = [
        (Some(b'A'), Attr::whole(0x07), true),
        (None, Attr::whole(0x07), false),
        (Some(b'A'), Attr::none(), false),
        (Some(b'A'), Attr::none().apply(37).apply(40), false),
        (Some(b'A'), Attr::none().apply(0), true),
    ];
    for (glyph, attr, known) in rows {
        assert_eq!(rt;
            HalfCell { glyph, attr }.is_known(),
            known,
            "{glyph:?} {attr:?}"
        );
    }
}

/// Asserts the cells of a row of 33 from a column on, each by its byte and its attribute.
fn expect_cells<G: Grid>(rt: &impl Abort, grid: &G, from: usize, cells: &[(u8, u8)])
    requires width { G.width_of grid.now ≡ 33 }
    requires rows { G.rows_of grid.now ≡ 1 }
{
    assert!(rt; from <= 33 && cells.len() <= 33 - from);
    for i in 0..cells.len() {
        let (glyph, value) = cells[i];
        assert_eq!(rt; grid.get(from + i), HalfCell::known(glyph, value));
    }
}

/// A grid of one row of 33 cells, through each of its calls.
fn edit_a_row<G: Grid>(rt: &impl Abort, alloc: Global) -> Result<(), Fail> {
    let mut grid = G::new(alloc, 33, 1, HalfCell::known(b' ', 0x07))?;
    let size = (grid.width(), grid.rows());
    grid.put(32, HalfCell::unknown());
    let gaps = (grid.first_unknown(33), grid.first_unknown(32));
    grid.fill(31, 33, HalfCell::known(b'x', 0x1F));
    let whole = grid.first_unknown(33);
    assert_eq!(rt; (size, gaps, whole), ((33, 1), (Some(32), None), None));
    expect_cells(rt, &grid, 30, &[(b' ', 0x07), (b'x', 0x1F), (b'x', 0x1F)]);
    grid.write_run(0, 1, b"Hill", 2, Attr::whole(0x4E));
    let written = [(b' ', 0x07), (b'H', 0x4E), (b'i', 0x4E), (b' ', 0x07)];
    expect_cells(rt, &grid, 0, &written);
    grid.clear(HalfCell::known(b'.', 0x07));
    grid.fill_row(0, 1, 3, HalfCell::known(b'x', 0x1F));
    let mut glyphs = [0; 33];
    let mut values = [0; 33];
    grid.copy_glyphs(0, &mut glyphs);
    grid.copy_attributes(0, &mut values);
    assert_eq!(rt;
        (&glyphs[..4], &values[..4]),
        (b".xx.".as_slice(), [0x07, 0x1F, 0x1F, 0x07].as_slice())
    );
    Ok(())
}

#[test]
fn edits_a_plain_grid(rt: HostRuntime) -> Result<(), Fail> {
    edit_a_row::<PlainGrid>(&rt, rt.alloc())
}

#[test]
fn edits_a_plane_grid(rt: HostRuntime) -> Result<(), Fail> {
    edit_a_row::<PlaneGrid>(&rt, rt.alloc())
}

/// 65 cells, all known except for one, in both grids, before and after the first of them are filled.
fn compare_grids(
    rt: &impl Abort,
    alloc: Global,
    front: usize,
    place: usize,
    unknown: &HalfCell,
) -> Result<(), Fail>
    requires front { front ≤ 65 }
    requires place { place < 65 }
{
    let mut planes = PlaneGrid::new(alloc, 65, 1, HalfCell::known(b'.', 0x07))?;
    let mut plain = PlainGrid::new(alloc, 65, 1, HalfCell::known(b'.', 0x07))?;
    Grid::put(&mut planes, place, *unknown);
    Grid::put(&mut plain, place, *unknown);
    let expected = if place < front { Some(place) } else { None };
    let gaps = (
        Grid::first_unknown(&plain, front),
        Grid::first_unknown(&planes, front),
    );
    assert_eq!(rt; gaps, (expected, expected), "{place} of {front}");
    Grid::fill(&mut planes, 0, front, HalfCell::known(b'x', 0x1F));
    Grid::fill(&mut plain, 0, front, HalfCell::known(b'x', 0x1F));
    for i in 0..65 {
        assert_eq!(rt;
            Grid::get(&planes, i),
            Grid::get(&plain, i),
            "{i}, {place} of {front}"
        );
    }
    Ok(())
}

/// The same, for each place of a cell of which no part, no glyph or not all bits are known.
fn compare_at_each_place(rt: &impl Abort, alloc: Global, front: usize) -> Result<(), Fail>
    requires { front ≤ 65 }
{
    let no_glyph = HalfCell {
        glyph: None,
        attr: Attr::whole(0x07),
    };
    let some_bits = HalfCell {
        glyph: Some(b'A'),
        attr: Attr::none().apply(37),
    };
    for place in 0..65 {
        compare_grids(rt, alloc, front, place, &HalfCell::unknown())?;
        compare_grids(rt, alloc, front, place, &no_glyph)?;
        compare_grids(rt, alloc, front, place, &some_bits)?;
    }
    Ok(())
}

#[test]
fn compares_grids_at_the_ends_of_chunks(rt: HostRuntime) -> Result<(), Fail> {
    for front in [0, 1, 31, 32, 33, 63, 64, 65] {
        compare_at_each_place(&rt, rt.alloc(), front)?;
    }
    Ok(())
}

/// What is known of a cell.
#[derive(Debug, Clone, Copy)]
enum Content {
    Unknown,
    NoGlyph,
    NoBits,
    SomeBits,
    Blank,
    Letter,
}

fn cell_of(content: Content) -> HalfCell {
    match content {
        Content::Unknown => HalfCell::unknown(),
        Content::NoGlyph => HalfCell {
            glyph: None,
            attr: Attr::whole(0x07),
        },
        Content::NoBits => HalfCell {
            glyph: Some(b'A'),
            attr: Attr::none(),
        },
        Content::SomeBits => HalfCell {
            glyph: Some(b'A'),
            attr: Attr::none().apply(37),
        },
        Content::Blank => HalfCell::known(b' ', 0x07),
        Content::Letter => HalfCell::known(b'x', 0x1F),
    }
}

/// What is done to a grid of 3 rows of 33 cells. A run goes into a row from a column on, and has a count of bytes and
/// the attribute of such a cell.
#[derive(Debug, Clone, Copy)]
enum Edit {
    Clear(Content),
    Fill(usize, usize, Content),
    FillRow(usize, usize, usize, Content),
    Run(usize, usize, usize, Content),
}

/// Makes the edit, and says whether it lies within the grid.
fn apply<G: Screen>(grid: &mut G, edit: &Edit) -> bool
    requires width { G.width_of grid.old ≡ 33 }
    requires rows { G.rows_of grid.old ≡ 3 }
    ensures width { G.width_of grid.new ≡ 33 }
    ensures rows { G.rows_of grid.new ≡ 3 }
{
    match edit {
        Edit::Clear(content) => grid.clear(cell_of(*content)),
        Edit::Fill(from, to, content) => {
            if *from > *to || *to > 99 {
                return false;
            }
            grid.fill(*from, *to, cell_of(*content));
        }
        Edit::FillRow(row, from, to, content) => {
            if *row >= 3 || *from > *to || *to > 33 {
                return false;
            }
            grid.fill_row(*row, *from, *to, cell_of(*content));
        }
        Edit::Run(row, column, count, content) => {
            let bytes = b"the bytes of a run, more than it";
            if *row >= 3 || *column > 33 || *count > 32 || *count > 33 - *column {
                return false;
            }
            grid.write_run(*row, *column, bytes, *count, cell_of(*content).attr);
        }
    }
    true
}

/// A row of 33 cells, copied from a grid: its glyphs, and its attributes.
fn copies_of<G: Screen>(grid: &G, row: usize) -> ([u8; 33], [u8; 33])
    requires width { G.width_of grid.now ≡ 33 }
    requires row { row < G.rows_of grid.now }
{
    let mut glyphs = [0xEE; 33];
    let mut values = [0xEE; 33];
    grid.copy_glyphs(row, &mut glyphs);
    grid.copy_attributes(row, &mut values);
    (glyphs, values)
}

/// All that two grids answer.
fn compare_answers<A: Screen, B: Screen>(rt: &impl Abort, grid: &A, model: &B)
    requires grid_width { A.width_of grid.now ≡ 33 }
    requires grid_rows { A.rows_of grid.now ≡ 3 }
    requires model_width { B.width_of model.now ≡ 33 }
    requires model_rows { B.rows_of model.now ≡ 3 }
{
    for i in 0..99 {
        assert_eq!(rt;
            (grid.get(i), grid.first_unknown(i)),
            (model.get(i), model.first_unknown(i)),
            "cell {i}"
        );
    }
    for row in 0..3 {
        let end = 33 * (row + 1);
        assert_eq!(rt;
            (copies_of(grid, row), grid.first_unknown(end)),
            (copies_of(model, row), model.first_unknown(end)),
            "row {row}"
        );
    }
}

/// The same edits of two grids, which answer the same after each.
fn edit_both<A: Screen, B: Screen, const N: usize>(
    rt: &impl Abort,
    grid: &mut A,
    model: &mut B,
    edits: &[Edit; N],
)
    requires grid_width { A.width_of grid.old ≡ 33 }
    requires grid_rows { A.rows_of grid.old ≡ 3 }
    requires model_width { B.width_of model.old ≡ 33 }
    requires model_rows { B.rows_of model.old ≡ 3 }
{
    compare_answers(rt, grid, model);
    for edit in edits {
        assert!(rt; apply(grid, edit) && apply(model, edit), "{edit:?}");
        compare_answers(rt, grid, model);
    }
}

/// A record that holds what no grid wrote.
fn used_row() -> LentRow {
    LentRow {
        round: 1,
        known: 7,
        first: 0,
        end: 99,
    }
}

/// The same, of a plain grid, two grids of planes, of which one is near its last round, and one on
/// memory that is lent.
fn compare_edits<const N: usize>(
    rt: &impl Abort,
    alloc: Global,
    start: Content,
    edits: &[Edit; N],
) -> Result<(), Fail> {
    for round in [1, u32::MAX - 2] {
        let frame = Frame {
            width: 33,
            rows: 3,
            blank: cell_of(start),
        };
        let mut planes = PlaneGrid::in_round(alloc, frame, round)?;
        let mut plain = PlainGrid::new(alloc, 33, 3, cell_of(start))?;
        edit_both(rt, &mut planes, &mut plain, edits);
    }
    let mut held = [used_row(); 4];
    let mut bytes = [0xEE; 400];
    let mut plain = PlainGrid::new(alloc, 33, 3, cell_of(start))?;
    match LentGrid::on(&mut held, &mut bytes, 33, 3, cell_of(start)) {
        Some(mut lent) => edit_both(rt, &mut lent, &mut plain, edits),
        None => panic!(rt; "no grid on memory that is large enough"),
    }
    Ok(())
}

#[test]
fn runs_of_each_length(rt: HostRuntime) -> Result<(), Fail> {
    for count in [0, 1, 2, 15, 16, 17, 32] {
        for column in [0, 1, 16, 17, 18, 32, 33] {
            let fitting = count.min(33 - column);
            let edits = [
                Edit::Run(0, column, fitting, Content::Letter),
                Edit::Run(1, column, fitting, Content::SomeBits),
                Edit::Run(2, 33 - count, count, Content::SomeBits),
                Edit::Run(2, column, fitting, Content::Letter),
            ];
            compare_edits(&rt, rt.alloc(), Content::Blank, &edits)?;
            compare_edits(&rt, rt.alloc(), Content::Unknown, &edits)?;
        }
    }
    Ok(())
}

#[test]
fn fills_of_each_length(rt: HostRuntime) -> Result<(), Fail> {
    for count in [0, 1, 2, 15, 16, 17, 33, 34, 66] {
        for from in [0, 1, 16, 17, 32, 33] {
            let edits = [
                Edit::Fill(from, from + count, Content::Letter),
                Edit::Fill(99 - count, 99, Content::Unknown),
                Edit::Fill(98, 99, Content::Letter),
                Edit::FillRow(1, from.min(count).min(33), from, Content::NoGlyph),
            ];
            compare_edits(&rt, rt.alloc(), Content::Blank, &edits)?;
            compare_edits(&rt, rt.alloc(), Content::Unknown, &edits)?;
        }
    }
    Ok(())
}

/// Clears, and edits between them, of cells of which nothing, a part or all is known.
fn clear_and_write(
    rt: &impl Abort,
    alloc: Global,
    half: Content,
    blank: Content,
) -> Result<(), Fail> {
    let edits = [
        Edit::Clear(blank),
        Edit::Run(0, 27, 6, Content::Letter),
        Edit::Fill(70, 71, half),
        Edit::Clear(half),
        Edit::Run(0, 27, 6, Content::Letter),
        Edit::Clear(Content::Blank),
        Edit::Run(1, 7, 6, Content::Letter),
        Edit::Fill(41, 42, half),
        Edit::Fill(66, 99, Content::Letter),
        Edit::Fill(70, 71, half),
        Edit::Run(2, 24, 9, Content::SomeBits),
        Edit::Clear(blank),
        Edit::Fill(0, 99, Content::Unknown),
        Edit::Fill(20, 80, Content::Letter),
        Edit::FillRow(2, 11, 22, half),
    ];
    compare_edits(rt, alloc, Content::Letter, &edits)?;
    compare_edits(rt, alloc, half, &edits)
}

#[test]
fn clears_known_and_unknown(rt: HostRuntime) -> Result<(), Fail> {
    for half in [Content::NoGlyph, Content::NoBits, Content::SomeBits] {
        clear_and_write(&rt, rt.alloc(), half, half)?;
        clear_and_write(&rt, rt.alloc(), half, Content::Unknown)?;
        clear_and_write(&rt, rt.alloc(), half, Content::Letter)?;
    }
    Ok(())
}

/// Edits of parts of the second row, which begins at cell 33, after clears.
fn write_parts(rt: &impl Abort, alloc: Global, blank: Content, half: Content) -> Result<(), Fail> {
    let edits = [
        Edit::Clear(blank),
        Edit::Run(1, 12, 3, Content::Letter),
        Edit::Fill(36, 37, Content::Letter),
        Edit::Run(1, 27, 2, half),
        Edit::Fill(50, 53, Content::Letter),
        Edit::Clear(blank),
        Edit::Fill(65, 66, half),
        Edit::Fill(33, 34, Content::Letter),
        Edit::Clear(half),
        Edit::Fill(40, 41, Content::Letter),
        Edit::Fill(40, 41, half),
        Edit::Fill(42, 43, Content::Letter),
        Edit::Fill(38, 39, Content::Letter),
        Edit::Clear(blank),
        Edit::Fill(49, 50, Content::Letter),
        Edit::Fill(44, 55, Content::Letter),
        Edit::Fill(60, 70, half),
    ];
    compare_edits(rt, alloc, blank, &edits)
}

#[test]
fn parts_of_rows_are_held(rt: HostRuntime) -> Result<(), Fail> {
    for half in [Content::NoGlyph, Content::NoBits, Content::SomeBits] {
        write_parts(&rt, rt.alloc(), Content::Blank, half)?;
        write_parts(&rt, rt.alloc(), Content::Letter, half)?;
        write_parts(&rt, rt.alloc(), Content::Unknown, half)?;
        write_parts(&rt, rt.alloc(), half, half)?;
    }
    Ok(())
}

#[test]
fn memory_too_small_is_refused(rt: HostRuntime) {
    let rows = [
        (33, 3, 3, 396, true),
        (33, 3, 2, 396, false),
        (33, 3, 3, 395, false),
        (0, 3, 3, 396, false),
        (33, 0, 3, 396, false),
        (1025, 1, 3, 396, false),
        (1, 8194, 3, 396, false),
        (99, 1, 1, 396, true),
    ];
    let mut held = [used_row(); 3];
    let mut bytes = [0xEE; 396];
    for (width, lines, records, count, is_grid) in rows {
        assert!(rt; records <= 3 && count <= 396);
        let cell = HalfCell::known(b'x', 0x1F);
        let grid = LentGrid::on(
            &mut held[..records],
            &mut bytes[..count],
            width,
            lines,
            cell,
        );
        assert_eq!(rt; grid.is_some(), is_grid, "{width} x {lines}");
    }
}
