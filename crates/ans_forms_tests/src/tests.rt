//! Bytes, and what goes first in them.

use ans_forms::{Before, Going, Unwanted, behind_form, next_unwanted};

const NOTHING: Before = Before::NOTHING;

const SHOWN: Before = Before {
    is_shown: true,
    ..Before::NOTHING
};

const COLOURED: Before = Before {
    is_coloured: true,
    ..Before::NOTHING
};

/// What comes before the bytes, the bytes, what goes first, and what comes before the byte that follows it.
struct Row {
    before: Before,
    bytes: &'static [u8],
    going: Option<Going>,
    after: Before,
}

macro_rules! rows {
    ($($before:ident, $bytes:literal => $kind:ident $(($place:literal, $length:literal), $after:ident)?;)*) => {
        [$(rows!(@ $before, $bytes, $kind $(, $place, $length, $after)?)),*]
    };
    (@ $before:ident, $bytes:literal, none) => {
        Row { before: $before, bytes: $bytes, going: None, after: $before }
    };
    (@ $before:ident, $bytes:literal, $kind:ident, $place:literal, $length:literal, $after:ident) => {
        Row {
            before: $before,
            bytes: $bytes,
            going: Some(Going { kind: Unwanted::$kind, place: $place, length: $length }),
            after: $after,
        }
    };
}

static SWITCHES: [Row; 10] = rows! {
    NOTHING, b"\x1b[?33h" => BrightBackgrounds(0, 6), NOTHING;
    NOTHING, b"ab\x1b[?33lcd" => BrightBackgrounds(2, 6), SHOWN;
    NOTHING, b"\x1b[?12l" => Switch(0, 6), NOTHING;
    NOTHING, b"\x1b[0m\x1b[?25l" => Switch(4, 6), NOTHING;
    SHOWN, b"\x1b[?25hx" => Switch(0, 6), SHOWN;
    NOTHING, b"\x1b[2J\x1b[?35h" => Switch(4, 6), SHOWN;
    NOTHING, b"\x1b[?25l\x1b[?33h" => Switch(0, 6), NOTHING;
    SHOWN, b"\x1b[?025h" => none;
    SHOWN, b"\x1b[?25;1h" => none;
    SHOWN, b"\x1b[25h" => none;
};

static MODES: [Row; 19] = rows! {
    NOTHING, b"\x1b[=3h" => Mode(0, 5), NOTHING;
    NOTHING, b"\x1b[h" => Mode(0, 3), NOTHING;
    NOTHING, b"\x1b[=l" => Mode(0, 4), NOTHING;
    NOTHING, b"\x1b[7l" => Mode(0, 4), NOTHING;
    NOTHING, b"\x1b[20;4h" => Mode(0, 7), NOTHING;
    NOTHING, b"\x1b[?2004h" => Mode(0, 8), NOTHING;
    NOTHING, b"\x1b[?7;25h" => Mode(0, 8), NOTHING;
    NOTHING, b"\x1b[?7l\x1b[?;h" => Mode(5, 5), NOTHING;
    NOTHING, b"\r\n\x07\x08\x1b[s\x1b[5;5H\x1b[=3h" => Mode(13, 5), NOTHING;
    NOTHING, b"\x1b[?7h" => none;
    NOTHING, b"\x1b[=7h\x1b[?07l" => none;
    NOTHING, b"a\x1b[=3h" => none;
    NOTHING, b"\t\x1b[=3h" => none;
    NOTHING, b"\x1b[2J\x1b[=3h" => none;
    NOTHING, b"\x1b[K\x1b[=3h" => none;
    SHOWN, b"\x1b[?2004h" => none;
    SHOWN, b"\x1b[=3h\x1b[?25l" => none;
    NOTHING, b"\x1b[>3h" => none;
    NOTHING, b"\x1b[??3h" => none;
};

static FORMS: [Row; 28] = rows! {
    NOTHING, b"\x1b[0;40 D" => FontSelection(0, 8), NOTHING;
    SHOWN, b"a\x1b[12;3 Dbc" => FontSelection(1, 8), SHOWN;
    NOTHING, b"\x1b[;0 D" => none;
    NOTHING, b"\x1b[0;0 C" => none;
    NOTHING, b"\x1b[MFT120O3L8CDE\x0eab" => Music(0, 16), NOTHING;
    SHOWN, b"\x1b[|\x0e" => Music(0, 4), SHOWN;
    NOTHING, b"a\x1b[N c\x0e" => Music(1, 6), SHOWN;
    NOTHING, b"\x1b[Mc,d\x0e" => none;
    NOTHING, b"\x1b[Mcd" => none;
    NOTHING, b"\x1b[Lcd\x0e" => none;
    NOTHING, b"\x1b[0m\x1b[1;255;170;0t" => TrueColour(4, 14), COLOURED;
    COLOURED, b"\x1b[0;1;2;3tx" => TrueColour(0, 10), COLOURED;
    NOTHING, b"a\x1b[m\x1b[5C\x1b[1m\x1b[1;0;0;0t" => TrueColour(12, 10), AFTER_ALL;
    NOTHING, b"\x1b[1;255;170;0t" => none;
    SHOWN, b"\x1b[0ma\x1b[1;1;2;3t" => none;
    COLOURED, b"\x07\x1b[1;1;2;3t" => none;
    COLOURED, b"\x1b[2;1;2;3t" => none;
    COLOURED, b"\x1b[1;1;2t" => none;
    NOTHING, b"\x1b[5n" => Report(0, 4), NOTHING;
    SHOWN, b"ab\x1b[6n" => Report(2, 4), SHOWN;
    NOTHING, b"\x1b[cx" => Report(0, 3), NOTHING;
    NOTHING, b"\x1b[0c" => Report(0, 4), NOTHING;
    NOTHING, b"\x1b[06n" => none;
    NOTHING, b"\x1b[1c" => none;
    NOTHING, b"\x1b[?6n" => none;
    NOTHING, b"\x1bx" => none;
    NOTHING, b"\x1b[9z\x1b[?25l" => none;
    NOTHING, b"\x1b[3J" => none;
};

const AFTER_ALL: Before = Before {
    is_shown: true,
    is_coloured: true,
    ..Before::NOTHING
};

static KEYS_AND_ENDS: [Row; 15] = rows! {
    NOTHING, b"\x1b[13;\"dir\";13p" => ReassignedKey(0, 14), NOTHING;
    SHOWN, b"x\x1b[0;59;'a\"p'pq" => ReassignedKey(1, 13), SHOWN;
    COLOURED, b"\x1b[p" => ReassignedKey(0, 3), NOTHING;
    NOTHING, b"\x1b[300;1p" => none;
    NOTHING, b"\x1b[1;\"ap" => none;
    NOTHING, b"ab\x1b" => Unfinished(2, 1), SHOWN;
    NOTHING, b"\x1b[" => Unfinished(0, 2), NOTHING;
    COLOURED, b"\x1b[12;3" => Unfinished(0, 6), NOTHING;
    NOTHING, b"\x1b[0;'a';4" => none;
    NOTHING, b"\x1b[0;\"di" => none;
    NOTHING, b"\x1b[300" => none;
    NOTHING, b"\x1b[0;0 " => none;
    NOTHING, b"" => none;
    SHOWN, b"\r\nabc\x1b[1;31mdef\x1b[0m" => none;
    NOTHING, b"\x1b[A\x1b[2J\x1b[u" => none;
};

#[test]
fn this_goes_first(rt: HostRuntime) {
    for rows in [
        SWITCHES.as_slice(),
        MODES.as_slice(),
        FORMS.as_slice(),
        KEYS_AND_ENDS.as_slice(),
    ] {
        for row in rows {
            assert!(rt; row.bytes.len() < 100);
            let mut before = row.before;
            let going = next_unwanted(row.bytes, &mut before);
            assert!(rt; going == row.going, "{:?}: {going:?}", row.bytes);
            let after = (before.is_shown, before.is_coloured);
            let wanted = (row.after.is_shown, row.after.is_coloured);
            assert!(rt;
                going.is_none() || after == wanted,
                "{:?}: {before:?}",
                row.bytes
            );
        }
    }
}

/// Bytes after a switch that is on, and what it said at the last printed cell that has bit 7.
static BRIGHT: [(&[u8], Option<bool>); 9] = [
    (b"", None),
    (b"ab", None),
    (b"\x1b[5m", None),
    (b"\x1b[5mab", Some(true)),
    (b"\x1b[5m\t", Some(true)),
    (b"\x1b[5m\x1b[2J", None),
    (b"\x1b[5;0mab", None),
    (b"\x1b[1;44mab", None),
    (b"\x1b[5ma\x1b[0mb", Some(true)),
];

#[test]
fn the_switch_is_read_at_bright_cells(rt: HostRuntime) {
    for (bytes, bright) in &BRIGHT {
        assert!(rt; bytes.len() < 100);
        let mut before = Before {
            switch: Some(true),
            ..NOTHING
        };
        assert!(rt; next_unwanted(bytes, &mut before).is_none());
        assert_eq!(rt; before.bright, *bright, "{bytes:?}");
    }
}

#[test]
fn music_of_more_than_250_notes_stays(rt: HostRuntime) {
    let mut bytes = [b'c'; 255];
    bytes[..3].copy_from_slice(b"\x1b[M");
    bytes[253] = 0x0e;
    let mut before = NOTHING;
    let music = Going {
        kind: Unwanted::Music,
        place: 0,
        length: 254,
    };
    assert!(rt; next_unwanted(&bytes, &mut before) == Some(music));
    bytes[253] = b'c';
    bytes[254] = 0x0e;
    assert!(rt; next_unwanted(&bytes, &mut before).is_none());
}

#[test]
fn kinds_stand_in_their_order(rt: HostRuntime) {
    assert!(rt; Unwanted::EACH[0] == Unwanted::BrightBackgrounds);
    assert!(rt; Unwanted::EACH[8] == Unwanted::Unfinished);
}

#[test]
fn rest_of_a_form_is_given(rt: HostRuntime) {
    assert!(rt;
        behind_form(b"\x1b[?25lrest", &ans_forms::CURSOR_SWITCH) == Some(b"rest".as_slice())
    );
    assert!(rt; behind_form(b"\x1b[?33lrest", &ans_forms::CURSOR_SWITCH).is_none());
}
