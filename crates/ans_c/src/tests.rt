use super::*;
use ans_screen::LentRow;
use std::process::Abort;
use std::test::Fail;

/// Two letters on a screen of 2 x 1, as a file with a record.
fn drawing() -> [u8; 131] {
    let mut file = [0u8; 131];
    file[..10].copy_from_slice(b"Hi\x1aSAUCE00");
    file[10..85].fill(b' ');
    file[85..93].copy_from_slice(b"19990131");
    file[93..107].copy_from_slice(b"\x02\x00\x00\x00\x01\x01\x02\x00\x01\x00\x00\x00\x00\x00");
    file
}

#[test]
fn sizes_are_told(rt: HostRuntime) {
    let mut size = PictureSize::default();
    let mut fault = ToldFault::default();
    let file = drawing();
    let passed = ans_size(&file, &mut size, &mut fault);
    let told = (size.columns, size.lines, size.cells, size.scratch);
    let refused = ans_size(b"Hi", &mut size, &mut fault);
    assert_eq!(rt; (passed, told), (PASS, (2, 1, 2, 2 * 24 + 16)));
    assert_eq!(rt; (refused, fault.number, fault.offset), (REFUSED, 1, 2));
}

/// What is lent for a picture, beside its rows.
#[derive(Drop)]
struct Lent {
    bytes: [u8; 16],
    glyphs: [u8; 3],
    attributes: [u8; 3],
    fault: ToldFault,
}

impl Lent {
    /// What `ans_check_on` answers about the drawing on these rows.
    fn check(&mut self, known: u32, rows: &mut [LentRow]) -> u32 {
        ans_check_on(
            &drawing(),
            known,
            rows,
            &mut self.bytes,
            &mut self.glyphs,
            &mut self.attributes,
            &mut self.fault,
        )
    }
}

#[test]
fn pictures_are_copied(rt: HostRuntime) {
    let mut rows = [LentRow::new(); 2];
    let mut lent = Lent {
        bytes: [0x55; 16],
        glyphs: [0; 3],
        attributes: [0; 3],
        fault: ToldFault::default(),
    };
    let passed = lent.check(31, &mut rows);
    let (glyphs, attributes) = (lent.glyphs, lent.attributes);
    assert_eq!(rt; (passed, glyphs, attributes), (PASS, *b"Hi\x00", [7, 7, 0]));
    let refused = lent.check(0, &mut rows);
    let (number, offset) = (lent.fault.number, lent.fault.offset);
    let short = lent.check(31, &mut [LentRow::new(); 1]);
    assert_eq!(rt; (refused, number, offset, short), (REFUSED, 22, 0, NO_ROOM));
}

#[test]
fn needs_are_told(rt: HostRuntime) {
    let file = drawing();
    let mut rows = [LentRow::new(); 2];
    let mut bytes = [0u8; 16];
    let mut few_bytes = [0u8; 15];
    let mut parts = 0;
    let mut fault = ToldFault::default();
    let passed = ans_needs_on(&file, &mut rows, &mut bytes, &mut parts, &mut fault);
    let told = parts;
    let short = ans_needs_on(&file, &mut rows, &mut few_bytes, &mut parts, &mut fault);
    let refused = ans_needs_on(b"", &mut rows, &mut bytes, &mut parts, &mut fault);
    assert_eq!(rt;
        ((passed, told), short, (refused, fault.number, fault.offset)),
        ((PASS, 2 + 8), NO_ROOM, (REFUSED, 1, 0))
    );
}

/// What `ans_row_on` answers about a file on two rows, and the row.
fn row_of(file: &[u8]) -> (u32, ToldRow) {
    let mut rows = [LentRow::new(); 2];
    let mut bytes = [0u8; 16];
    let mut row = ToldRow::default();
    let answer = ans_row_on(file, &mut rows, &mut bytes, &mut row);
    (answer, row)
}

#[test]
fn rows_are_told(rt: HostRuntime) {
    let (answer, row) = row_of(&drawing());
    let passing = row.passing;
    let needs = (
        passing.needs,
        passing.players,
        passing.needs_on_all_players,
        passing.taller_screens,
    );
    assert_eq!(rt; (answer, needs), (PASS, (2 + 8, 4096, 2 + 8, 1)));
    let blame = row.blame;
    let places = (
        blame.low.row,
        blame.low.column,
        blame.high.row,
        blame.high.column,
    );
    assert_eq!(rt;
        (blame.fault.number, blame.fault.offset, places),
        (22, 0, (1, 1, 2, 2))
    );
    let bytes = (blame.bytes.start, blame.bytes.length);
    assert_eq!(rt;
        (bytes, blame.known, blame.lines, blame.mends),
        ((0, 1), 0, 0, 1)
    );
    assert_eq!(rt;
        (
            row.parts.content,
            row.parts.comments.length,
            row.parts.notes
        ),
        (2, 0, 0)
    );
    let fields = row.fields;
    assert_eq!(rt;
        (fields.is_there, fields.flags, fields.width, fields.lines),
        (1, 0, 2, 1)
    );
    assert_eq!(rt;
        (fields.date.start, fields.date.length, fields.title.length),
        (85, 8, 0)
    );
}

#[test]
fn rows_of_refused_files_are_told(rt: HostRuntime) {
    let (answer, row) = row_of(b"Hi");
    assert_eq!(rt;
        (answer, row.blame.fault.number, row.blame.fault.offset),
        (REFUSED, 1, 2)
    );
    assert_eq!(rt;
        (
            row.passing.taller_screens,
            row.parts.content,
            row.fields.is_there
        ),
        (0, 0, 0)
    );
    let mut file = drawing();
    file[2] = b'!';
    file[108] = 1 + 2 + 16;
    let (answer, row) = row_of(&file);
    let (place, notes) = (row.blame.low, row.parts.notes);
    assert_eq!(rt;
        (answer, row.blame.fault.number, place.row, place.column),
        (REFUSED, 20, 2, 1)
    );
    assert_eq!(rt; (row.blame.lines, notes), (2, 4 + 8));
    let fields = row.fields;
    let flags = (fields.flags, fields.ice, fields.spacing, fields.aspect);
    assert_eq!(rt; flags, (19, 1, 8, 2));
    let mut row = ToldRow::default();
    let short = ans_row_on(&file, &mut [LentRow::new(); 1], &mut [0u8; 16], &mut row);
    assert_eq!(rt; short, NO_ROOM);
}

/// A drawing that begins with a switch of terminals, with one comment and a record whose texts fill their fields.
fn full_drawing() -> [u8; 205] {
    let mut file = [b'x'; 205];
    file[..13].copy_from_slice(b"\x1b[?33hA\x1aCOMNT");
    file[77..84].copy_from_slice(b"SAUCE00");
    file[159..171].copy_from_slice(b"19990131\x07\x00\x00\x00");
    file[171..183].copy_from_slice(b"\x01\x01\x02\x00\x01\x00\x00\x00\x00\x00\x01\x0d");
    file
}

/// Where a piece starts, and its length.
fn both(piece: Piece) -> (usize, usize) {
    (piece.start, piece.length)
}

#[test]
fn rows_tell_places_in_the_file(rt: HostRuntime) {
    let (answer, row) = row_of(&full_drawing());
    let blame = row.blame;
    let fault = (blame.fault.number, blame.fault.offset, blame.known);
    assert_eq!(rt;
        (answer, fault, both(blame.bytes)),
        (REFUSED, (16, 0, 4), (0, 6))
    );
    let parts = row.parts;
    assert_eq!(rt;
        (parts.content, both(parts.comments), parts.notes),
        (7, (13, 64), 0)
    );
    let fields = row.fields;
    let flags = (fields.flags, fields.ice, fields.spacing, fields.aspect);
    assert_eq!(rt; flags, (1 + 4 + 8, 1, 9, 1));
    let names = (both(fields.title), both(fields.author), both(fields.group));
    assert_eq!(rt; names, ((84, 35), (119, 20), (139, 20)));
    assert_eq!(rt;
        (both(fields.date), both(fields.font)),
        ((159, 8), (183, 22))
    );
}

#[test]
fn rows_know_comments_that_are_not_counted(rt: HostRuntime) {
    let mut file = full_drawing();
    file[181] = 0;
    let (answer, row) = row_of(&file);
    let blame = row.blame;
    let fault = (blame.fault.number, blame.fault.offset, blame.known);
    assert_eq!(rt;
        (answer, fault, blame.bytes.length),
        (REFUSED, (8, 8, 8), 0)
    );
    assert_eq!(rt; (row.parts.content, row.fields.is_there), (0, 1));
}

#[test]
fn rows_tell_the_lines_of_a_record_without(rt: HostRuntime) {
    let mut file = drawing();
    file[101] = 0;
    let (answer, row) = row_of(&file);
    let blame = row.blame;
    let fault = (blame.fault.number, blame.fault.offset, blame.lines);
    assert_eq!(rt; (answer, fault), (REFUSED, (5, 101, 1)));
}

#[test]
fn rows_blame_nothing_that_passes_from_every_start(rt: HostRuntime) {
    let (answer, row) = row_of(&mended_drawing());
    let blame = row.blame;
    assert_eq!(rt;
        (answer, row.passing.needs, row.passing.taller_screens),
        (PASS, 0, 1)
    );
    assert_eq!(rt; (blame.fault.number, blame.low.row, blame.mends), (0, 0, 0));
}

/// Asserts what a call answers, and what the text that it hands over is.
fn expect(rt: &impl Abort, answer: u32, told: Option<&[u8]>, expected: (u32, &[u8])) {
    assert_eq!(rt; (answer, told), (expected.0, Some(expected.1)));
}

#[test]
fn texts_are_handed_over(rt: HostRuntime) -> Result<(), Fail> {
    let file = drawing();
    let mut rows = [LentRow::new(); 2];
    let mut bytes = [0u8; 16];
    let mut text = [0u8; 400];
    let mut short_text = [0u8; 9];
    let mut length = 0;
    let why = b"\
        size: 2 x 1\n\
        verdict: pass on a cleared screen\n\
        needs: cursor colours\n\
        because: at 0, F22 print at an unknown place: H\n\
        from the top left: row 1, column 1\n\
        from the bottom right: row 2, column 2\n\
        players: own-colours\n\
        players differ: own-colours, 2 times, first at 0\n\
        taller screens: same\n";
    let passed = ans_why_on(&file, &mut rows, &mut bytes, &mut text, &mut length);
    let told = text.get(..length).ok_or("why")?;
    assert!(rt; passed == PASS && told.starts_with(why));
    let whole = length;
    let short = ans_why_on(&file, &mut rows, &mut bytes, &mut short_text, &mut length);
    let wanted = length;
    let mut row = [LentRow::new(); 1];
    let few_rows = ans_why_on(&file, &mut row, &mut bytes, &mut text, &mut length);
    assert_eq!(rt;
        ((short, wanted), (few_rows, length)),
        ((NO_ROOM, whole), (NO_ROOM, 0))
    );
    let answer = ans_record(b"Hi", &mut text, &mut length);
    let record = b"verdict: refused\nat 2: F1 no SAUCE record\n";
    expect(&rt, answer, text.get(..length), (REFUSED, record));
    Ok(())
}

#[test]
fn names_are_handed_over(rt: HostRuntime) {
    let mut text = [0u8; 40];
    let mut length = 0;
    let answer = ans_copy_fault_text(21, &mut text, &mut length);
    expect(&rt, answer, text.get(..length), (PASS, b"F21 scrolls"));
    let no_fault = ans_copy_fault_text(18, &mut text, &mut length);
    let answer = ans_copy_note_text(2, &mut text, &mut length);
    let note = b"no end mark after the content";
    expect(&rt, answer, text.get(..length), (PASS, note));
    let no_note = ans_copy_note_text(7, &mut text, &mut length);
    assert_eq!(rt; (no_fault, no_note), (REFUSED, REFUSED));
    let answer = ans_copy_version(&mut text, &mut length);
    expect(&rt, answer, text.get(..length), (PASS, b"0.2.0"));
}

/// The drawing with the safe beginning, which its file size counts.
fn mended_drawing() -> [u8; 156] {
    let mut file = [0u8; 156];
    file[..25].copy_from_slice(b"\x1b[?7h\x1b[0;37;40m\x1b[2J\x1b[H\x1b[s");
    file[25..].copy_from_slice(&drawing());
    file[118] = 27;
    file
}

/// The same with `ESC[0m` at the end of the content.
fn redrawn_drawing() -> [u8; 160] {
    let drawing = drawing();
    let mut file = [0u8; 160];
    file[..31].copy_from_slice(b"\x1b[?7h\x1b[0;37;40m\x1b[2J\x1b[H\x1b[sHi\x1b[0m");
    file[31..].copy_from_slice(&drawing[2..]);
    file[122] = 31;
    file
}

/// What is lent to have a small drawing fixed.
#[derive(Drop)]
struct LentForMending {
    rows: [LentRow; 2],
    bytes: [u8; 16],
    draft: [u8; 261],
    mended: [u8; 156],
    size: usize,
    text: [u8; 128],
    told: usize,
}

impl LentForMending {
    fn new() -> LentForMending {
        LentForMending {
            rows: [LentRow::new(); 2],
            bytes: [0x55; 16],
            draft: [0x55; 261],
            mended: [0x55; 156],
            size: 7,
            text: [0x55; 128],
            told: 7,
        }
    }

    /// What `ans_mend_on` answers about a file.
    fn mend(&mut self, file: &[u8], classes: u32, numbers: (u32, u32, u32)) -> u32 {
        let (add_record, columns, lines) = numbers;
        ans_mend_on(
            file,
            classes,
            add_record,
            columns,
            lines,
            &mut self.rows,
            &mut self.bytes,
            &mut self.draft,
            &mut self.mended,
            &mut self.size,
            &mut self.text,
            &mut self.told,
        )
    }
}

#[test]
fn files_are_mended(rt: HostRuntime) {
    let mut lent = LentForMending::new();
    let answer = lent.mend(&drawing(), 0, (0, 0, 0));
    let mended = lent.mended.get(..lent.size);
    expect(&rt, answer, mended, (PASS, &mended_drawing()));
    let told = b"added the safe beginning, 25 bytes\nfile size 27, was 2\n";
    expect(&rt, answer, lent.text.get(..lent.told), (PASS, told));
    let answer = lent.mend(b"Hi", 0, (2, 0, 1));
    let told = b"added an end mark and a record for 2 columns, at 2\nlines 1, was 0\n\
        added the safe beginning, 25 bytes\nfile size 27, was 0\n";
    expect(&rt, answer, lent.text.get(..lent.told), (PASS, told));
    let answer = lent.mend(b"Hi", 15, (0, 0, 0));
    let told = b"at 2: F1 no SAUCE record\n\
        try: --add-record N, which adds a record for N columns\n";
    expect(&rt, answer, lent.text.get(..lent.told), (REFUSED, told));
    assert_eq!(rt; lent.size, 0);
    for numbers in [(1025, 0, 0), (0, 1025, 0), (0, 0, 8193)] {
        let answer = lent.mend(&drawing(), 0, numbers);
        assert_eq!(rt; (answer, lent.size, lent.told), (WRONG_NUMBER, 0, 0));
    }
}

/// How much is lent to have the drawing fixed.
type Room = (usize, usize, usize, usize, usize);

/// What `ans_mend_on` answers about the drawing within some room, and the lengths that it sets.
fn mended_within(room: Room) -> (u32, usize, usize) {
    let mut lent = LentForMending::new();
    let (rows, bytes, draft, mended, text) = room;
    let answer = ans_mend_on(
        &drawing(),
        0,
        0,
        0,
        0,
        &mut lent.rows[..rows.min(2)],
        &mut lent.bytes[..bytes.min(16)],
        &mut lent.draft[..draft.min(261)],
        &mut lent.mended[..mended.min(156)],
        &mut lent.size,
        &mut lent.text[..text.min(96)],
        &mut lent.told,
    );
    (answer, lent.size, lent.told)
}

#[test]
fn mending_wants_room(rt: HostRuntime) {
    assert_eq!(rt; mended_within((2, 16, 261, 156, 55)), (PASS, 156, 55));
    assert_eq!(rt; mended_within((2, 16, 261, 156, 54)), (NO_ROOM, 156, 55));
    let few = [
        (1, 16, 261, 156, 55),
        (2, 15, 261, 156, 55),
        (2, 16, 260, 156, 55),
        (2, 16, 261, 155, 55),
    ];
    for room in few {
        assert_eq!(rt; mended_within(room), (NO_ROOM, 0, 0));
    }
}

/// What is lent to have a small drawing redrawn.
#[derive(Drop)]
struct LentForRedrawing {
    rows: [LentRow; 2],
    bytes: [u8; 16],
    redrawn: [u8; 160],
    size: usize,
    text: [u8; 128],
    told: usize,
}

impl LentForRedrawing {
    fn new() -> LentForRedrawing {
        LentForRedrawing {
            rows: [LentRow::new(); 2],
            bytes: [0x55; 16],
            redrawn: [0x55; 160],
            size: 7,
            text: [0x55; 128],
            told: 7,
        }
    }

    /// What `ans_redraw_on` answers about a file.
    fn redraw(&mut self, file: &[u8]) -> u32 {
        ans_redraw_on(
            file,
            &mut self.rows,
            &mut self.bytes,
            &mut self.redrawn,
            &mut self.size,
            &mut self.text,
            &mut self.told,
        )
    }
}

#[test]
fn files_are_redrawn(rt: HostRuntime) {
    let mut lent = LentForRedrawing::new();
    let answer = lent.redraw(&drawing());
    let redrawn = lent.redrawn.get(..lent.size);
    expect(&rt, answer, redrawn, (PASS, &redrawn_drawing()));
    let told = b"content length 31, was 2\nfile size 31, was 2\n";
    expect(&rt, answer, lent.text.get(..lent.told), (PASS, told));
    let answer = lent.redraw(b"Hi");
    let told = b"at 2: F1 no SAUCE record\n\
        see anscheck why; fix the drawing with mend, then redraw it\n";
    expect(&rt, answer, lent.text.get(..lent.told), (REFUSED, told));
    assert_eq!(rt; lent.size, 0);
}

/// How much is lent to have the drawing redrawn: rows, bytes, room for the redrawn file, and for the text.
type RedrawingRoom = (usize, usize, usize, usize);

/// What `ans_redraw_on` answers about the drawing within some room, and the lengths that it sets.
fn redrawn_within(room: RedrawingRoom) -> (u32, usize, usize) {
    let mut lent = LentForRedrawing::new();
    let (rows, bytes, redrawn, text) = room;
    let answer = ans_redraw_on(
        &drawing(),
        &mut lent.rows[..rows.min(2)],
        &mut lent.bytes[..bytes.min(16)],
        &mut lent.redrawn[..redrawn.min(160)],
        &mut lent.size,
        &mut lent.text[..text.min(128)],
        &mut lent.told,
    );
    (answer, lent.size, lent.told)
}

#[test]
fn redrawing_wants_room(rt: HostRuntime) {
    assert_eq!(rt; redrawn_within((2, 16, 160, 45)), (PASS, 160, 45));
    assert_eq!(rt; redrawn_within((2, 16, 160, 44)), (NO_ROOM, 160, 45));
    assert_eq!(rt; redrawn_within((2, 16, 159, 45)), (NO_ROOM, 160, 0));
    assert_eq!(rt; redrawn_within((2, 16, 0, 0)), (NO_ROOM, 160, 0));
    assert_eq!(rt; redrawn_within((1, 16, 160, 45)), (NO_ROOM, 0, 0));
    assert_eq!(rt; redrawn_within((2, 15, 160, 45)), (NO_ROOM, 0, 0));
}
