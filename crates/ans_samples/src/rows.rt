//! Contents, each with the picture that it shows or the fault that it is refused for.

use ans_model::fault::Cause;
use ans_model::start::Start;

/// What is expected of a content.
#[derive(Debug, Clone, Copy)]
pub enum Expected {
    /// A pass: the bytes of the picture in row order, and their attributes where these are compared,
    /// else none.
    Shows(&'static [u8], &'static [u8]),
    /// The offset and the cause of its fault.
    Refused(usize, Cause),
}

use Expected::{Refused, Shows};

/// A content, where it is played, and what is expected of it.
#[derive(Debug, Clone, Copy)]
pub struct Row {
    /// The class of starts.
    pub start: Start,
    /// The stated width, in columns.
    pub width: usize,
    /// The stated lines.
    pub lines: usize,
    /// The bytes that are played.
    pub content: &'static [u8],
    /// What is expected of them.
    pub expected: Expected,
}

macro_rules! expected {
    (shows $bytes:literal) => {
        Shows($bytes, &[])
    };
    (shows $bytes:literal, [$($attribute:literal),*]) => {
        Shows($bytes, &[$($attribute),*])
    };
    (refused $offset:literal, UnknownCell $row:literal $col:literal) => {
        Refused($offset, Cause::UnknownCell { row: $row, col: $col })
    };
    (refused $offset:literal, $cause:ident) => {
        Refused($offset, Cause::$cause)
    };
}

/// A class of starts: `any`, `cleared`, or `known` and the parts that are known.
#[macro_export]
macro_rules! start {
    (any) => {
        $crate::Start::ANY
    };
    (cleared) => {
        $crate::Start::CLEARED
    };
    (known $($part:ident)+) => {
        $crate::Start { $($part: true,)+ ..$crate::Start::ANY }
    };
}

macro_rules! rows {
    ($($($start:ident)+ ($width:literal x $lines:literal, $content:literal) => $word:ident($($expected:tt)*);)*) => {
        [$(Row {
            start: start!($($start)+),
            width: $width,
            lines: $lines,
            content: $content,
            expected: expected!($word $($expected)*),
        }),*]
    };
}

/// Contents without a sequence.
pub static BYTES: [Row; 16] = rows! {
    any(2 x 1, b"Hi") => refused(0, PrintUnknownPlace);
    cleared(2 x 1, b"Hi") => shows(b"Hi", [0x07, 0x07]);
    cleared(2 x 1, b"Hi\r\n") => refused(3, Scrolls);
    any(1 x 1, b"") => refused(0, UnknownCell 1 1);
    cleared(1 x 1, b"") => shows(b" ", [0x07]);
    cleared(2 x 1, b"a\x08b\x07") => shows(b"b ");
    cleared(2 x 1, b"\xdb\x00") => shows(b"\xdb\x00", [0x07, 0x07]);
    cleared(2 x 1, b"\t") => refused(0, PrintBelow);
    any(1 x 1, b"\n") => refused(0, MayScroll);
    any(2 x 1, b"") => refused(0, UnknownCell 1 1);
    cleared(4 x 2, b"ab\rx") => shows(b"xb      ");
    cleared(4 x 2, b"ab\nx") => shows(b"ab    x ");
    cleared(4 x 1, b"abc\x08x") => shows(b"abx ");
    cleared(2 x 2, b"abc") => shows(b"abc ", [0x07, 0x07, 0x07, 0x07]);
    cleared(3 x 2, b"ab\r\nc") => shows(b"ab c  ");
    cleared(2 x 1, b"Hi!") => refused(2, PrintBelow);
};

/// Contents with tabs.
pub static TABS: [Row; 25] = rows! {
    cleared(16 x 1, b"a\tb") => shows(b"a       b       ");
    cleared(10 x 2, b"\t\tx") => shows(b"                x   ");
    cleared(10 x 1, b"\t\t") => refused(1, PrintBelow);
    any(10 x 2, b"\x1b[0m\x1b[2J\t\t") => refused(9, PrintUnknownPlace);
    any(8 x 1, b"\x1b[0m\x1b[2J\t") => shows(b"        ");
    any(2 x 1, b"\t") => refused(0, PrintUnknownPlace);
    cleared(2 x 1, b"\x1b[?7l\tb") => shows(b" b");
    cleared(8 x 1, b"\x1b[44m\t") => shows(b"        ", [0x17, 0x17, 0x17, 0x17, 0x17, 0x17, 0x17, 0x17]);
    cleared(4 x 2, b"\t") => shows(b"        ");
    cleared(4 x 2, b"\tx") => refused(1, PrintBelow);
    cleared(1 x 8, b"\t") => shows(b"        ");
    cleared(1 x 7, b"\t") => refused(0, PrintBelow);
    cleared(20 x 1, b"12345678\tx") => shows(b"12345678        x   ");
    cleared(20 x 1, b"\x1b[9C\tx") => shows(b"                x   ");
    cleared(10 x 1, b"\x1b[?7l\t\tx") => shows(b"         x");
    any(8 x 2, b"\x1b[0m\x1b[2J\tx") => refused(9, PrintUnknownPlace);
    cleared(8 x 1, b"\t\n") => refused(1, Scrolls);
    cleared(8 x 1, b"ab\x1b[44m\t") => shows(b"ab      ", [0x07, 0x07, 0x17, 0x17, 0x17, 0x17, 0x17, 0x17]);
    cleared(8 x 1, b"abcdefgh\x1b[A\t") => shows(b"        ");
    cleared(8 x 1, b"abcdefg\t") => shows(b"abcdefg ");
    cleared(8 x 1, b"abcdefg\tx") => refused(8, PrintBelow);
    cleared(8 x 2, b"abcdefg\tx") => shows(b"abcdefg x       ");
    any(1 x 8, b"\x1b[0m\x1b[2J\t") => refused(8, PrintUnknownPlace);
    cleared(2 x 1, b"\x1b[2;1H\t") => refused(6, PrintBelow);
    known wrap(10 x 2, b"\x1b[0m\x1b[2J\t\tx") => shows(b"                x   ");
};

/// Contents from starts of which some parts are known.
pub static PARTS_KNOWN: [Row; 10] = rows! {
    known cursor(2 x 1, b"Hi") => refused(2, UnknownCell 1 1);
    known cursor colours(2 x 1, b"Hi") => shows(b"Hi", [0x07, 0x07]);
    known cursor colours(2 x 1, b"H") => refused(1, UnknownCell 1 2);
    known screen cursor colours(2 x 1, b"H") => shows(b"H ", [0x07, 0x07]);
    known cursor colours(2 x 2, b"Hia") => refused(2, PrintUnknownPlace);
    known cursor colours wrap(2 x 2, b"Hia") => refused(3, UnknownCell 2 2);
    known saved(2 x 1, b"\x1b[?7h\x1b[0m\x1b[uHi") => shows(b"Hi", [0x07, 0x07]);
    known wrap(2 x 1, b"\x1b[0m\x1b[2JHi!") => refused(10, PrintBelow);
    known screen(1 x 1, b"") => shows(b" ", [0x07]);
    known colours(1 x 1, b"\x1b[2J") => shows(b" ", [0x07]);
};

/// Contents that show a picture from any start.
pub static PASSES_FROM_ANY: [Row; 10] = rows! {
    any(2 x 1, b"\x1b[?7h\x1b[0m\x1b[2JHi") => shows(b"Hi", [0x07, 0x07]);
    any(1 x 1, b"\x1b[0m\x1b[2Ja") => shows(b"a", [0x07]);
    any(2 x 1, b"\x1b[?7h\x1b[0m\x1b[2J\x1b[s\x1b[ux") => shows(b"x ");
    any(2 x 1, b"\x1b[?7h\x1b[0m\x1b[255A\x1b[255DHi") => shows(b"Hi");
    any(1 x 2, b"\x1b[?7h\x1b[0m\x1b[1A\x1b[1Aab") => shows(b"ab");
    any(1 x 1, b"\x1b[0m\x1b[2Ja\x1b[Ab") => shows(b"b");
    any(2 x 1, b"\x1b[?7h\x1b[0m\x1b[2J") => shows(b"  ");
    any(2 x 1, b"\x1b[?7h\x1b[0m\x1b[2JH") => shows(b"H ");
    any(2 x 1, b"\x1b[?7h\x1b[0m\x1b[2J\x1b[2;2H\x1b[K") => shows(b"  ", [0x07, 0x07]);
    any(2 x 1, b"\x1b[0m\x1b[2JHi") => shows(b"Hi", [0x07, 0x07]);
};

/// Contents without colours that show a picture from the cleared start.
pub static PASSES_FROM_CLEARED: [Row; 23] = rows! {
    cleared(2 x 1, b"\x1b[255D") => shows(b"  ");
    cleared(2 x 1, b"\x1b[?7lHi!") => shows(b"H!");
    cleared(2 x 2, b"a\x1b[s\r\n\x1b[ub") => shows(b"ab  ");
    cleared(2 x 1, b"\x1b[2;2H") => shows(b"  ");
    cleared(4 x 3, b"\x1b[3;3H\x1b[Ax") => shows(b"      x     ");
    cleared(4 x 3, b"\x1b[3;3H\x1b[2Ax") => shows(b"  x         ");
    cleared(4 x 3, b"\x1b[3;3H\x1b[0Ax") => shows(b"      x     ");
    cleared(4 x 3, b"\x1b[2Bx") => shows(b"        x   ");
    cleared(4 x 3, b"\x1b[Bx") => shows(b"    x       ");
    cleared(4 x 1, b"\x1b[2Cx") => shows(b"  x ");
    cleared(4 x 1, b"\x1b[9Cx") => shows(b"   x");
    cleared(4 x 1, b"\x1b[1;4H\x1b[2Dx") => shows(b" x  ");
    cleared(2 x 2, b"abcd\x1b[1;2H\x1b[K") => shows(b"a cd", [0x07, 0x07, 0x07, 0x07]);
    cleared(1 x 2, b"\x1b[?7l\x1b[s\x1b[uab") => shows(b"b ");
    cleared(4 x 1, b"ab\x1b[s\x1b[2J\x1b[ux") => shows(b"  x ", [0x07, 0x07, 0x07, 0x07]);
    cleared(3 x 2, b"\x1b[2;3Hx") => shows(b"     x");
    cleared(3 x 2, b"\x1b[2Hx") => shows(b"   x  ");
    cleared(3 x 2, b"\x1b[;3Hx") => shows(b"  x   ");
    cleared(3 x 2, b"\x1b[2;fx") => shows(b"   x  ");
    cleared(2 x 1, b"\x1b[2;1H\x1b[K") => shows(b"  ", [0x07, 0x07]);
    cleared(1 x 1, b"\x1b[=7lxy") => shows(b"y");
    cleared(2 x 1, b"\x1b[000255D") => shows(b"  ");
    cleared(2 x 1, b"\x1b[1;2HA\x1b[HB\x1b[m") => shows(b"BA", [0x07, 0x07]);
};

/// Contents with colours that show a picture from the cleared start.
pub static COLOURS: [Row; 15] = rows! {
    cleared(1 x 1, b"\x1b[0;1;5;33;44mA") => shows(b"A", [0x9E]);
    cleared(3 x 1, b"abc\x1b[1;2H\x1b[44m\x1b[K") => shows(b"a  ", [0x07, 0x17, 0x17]);
    cleared(2 x 1, b"\x1b[;;;;;;;;;;;;;;;m") => shows(b"  ");
    cleared(4 x 3, b"\x1b[3B\x1b[0;7m\x1b[K\x1b[Ax")
        => shows(b"        x   ", [0x07, 0x07, 0x07, 0x07, 0x07, 0x07, 0x07, 0x07, 0x70, 0x07, 0x07, 0x07]);
    cleared(4 x 1, b"abc\x1b[1;2H\x1b[44m\x1b[0K") => shows(b"a   ", [0x07, 0x17, 0x17, 0x17]);
    cleared(3 x 1, b"\x1b[31m\x1b[s\x1b[32m\x1b[ux") => shows(b"x  ", [0x02, 0x07, 0x07]);
    cleared(3 x 1, b"\x1b[41m\x1b[2Jx") => shows(b"x  ", [0x47, 0x47, 0x47]);
    cleared(8 x 1, b"\x1b[31mx\x1b[32mx\x1b[33mx\x1b[34mx\x1b[35mx\x1b[36mx\x1b[37mx\x1b[30mx")
        => shows(b"xxxxxxxx", [0x04, 0x02, 0x06, 0x01, 0x05, 0x03, 0x07, 0x00]);
    cleared(8 x 1, b"\x1b[41mx\x1b[42mx\x1b[43mx\x1b[44mx\x1b[45mx\x1b[46mx\x1b[47mx\x1b[40mx")
        => shows(b"xxxxxxxx", [0x47, 0x27, 0x67, 0x17, 0x57, 0x37, 0x77, 0x07]);
    cleared(3 x 1, b"\x1b[1;5;33;44m\x1b[4mx\x1b[7mx\x1b[8mx") => shows(b"xxx", [0x99, 0xF8, 0x88]);
    cleared(3 x 1, b"\x1b[1;5;33;44m\x1b[8mx") => shows(b"x  ", [0x88, 0x07, 0x07]);
    cleared(3 x 1, b"\x1b[1;44m\x1b[7mx") => shows(b"x  ", [0x78, 0x07, 0x07]);
    cleared(9 x 1, b"\x1b[1;5;33;44m\x1b[2mx\x1b[3mx\x1b[6mx\x1b[38mx\x1b[39mx\x1b[48mx\x1b[49mx\x1b[9;10mx\x1b[255mx")
        => shows(b"xxxxxxxxx", [0x9E, 0x9E, 0x9E, 0x9E, 0x9E, 0x9E, 0x9E, 0x9E, 0x9E]);
    cleared(3 x 1, b"\x1b[1m\x1b[mx") => shows(b"x  ", [0x07, 0x07, 0x07]);
    cleared(3 x 1, b"\x1b[1m\x1b[;5mx") => shows(b"x  ", [0x87, 0x07, 0x07]);
};

/// Sequences that are broken, too large or unfinished.
pub static BROKEN: [Row; 19] = rows! {
    cleared(2 x 1, b"\x1b[3") => refused(0, EndInSequence);
    cleared(2 x 1, b"\x1b[256C") => refused(0, NumberTooLarge);
    cleared(2 x 1, b"\x1b(B") => refused(0, BrokenSequence);
    cleared(2 x 1, b"\x1b[0;0 D") => refused(0, BrokenSequence);
    cleared(2 x 1, b"\x1b[;;;;;;;;;;;;;;;;m") => refused(0, TooManyParameters);
    any(2 x 1, b"\x1b") => refused(0, EndInSequence);
    any(2 x 1, b"\x1b[") => refused(0, EndInSequence);
    any(2 x 1, b"\x1b[?") => refused(0, EndInSequence);
    any(2 x 1, b"\x1b[?7") => refused(0, EndInSequence);
    any(2 x 1, b"\x1b[?7h\x1b") => refused(5, EndInSequence);
    any(2 x 1, b"\x1b[?7h\x1b[") => refused(5, EndInSequence);
    any(2 x 1, b"\x1b[?7h\x1b[0") => refused(5, EndInSequence);
    any(2 x 1, b"\x1b[?7h\x1b[0m\x1b") => refused(9, EndInSequence);
    any(2 x 1, b"\x1b[?7h\x1b[0m\x1b[") => refused(9, EndInSequence);
    any(2 x 1, b"\x1b[?7h\x1b[0m\x1b[2") => refused(9, EndInSequence);
    cleared(2 x 1, b"\x1b[\"a\"1p") => refused(0, BrokenSequence);
    cleared(2 x 1, b"\x1b[=?7h") => refused(0, BrokenSequence);
    cleared(2 x 1, b"\x1b[7=h") => refused(0, BrokenSequence);
    cleared(2 x 1, b"H\x1b[") => refused(1, EndInSequence);
};

/// Sequences that mean nothing.
pub static WITHOUT_MEANING: [Row; 21] = rows! {
    cleared(2 x 1, b"\x1b[2t") => refused(0, UnknownSequence);
    cleared(2 x 1, b"\x1b[?6n") => refused(0, UnknownSequence);
    cleared(2 x 1, b"\x1b[J") => refused(0, WrongParameters);
    cleared(2 x 1, b"\x1b[1K") => refused(0, WrongParameters);
    cleared(2 x 1, b"\x1b[\"x\"m") => refused(0, WrongParameters);
    cleared(2 x 1, b"\x1b[?\"7\"h") => refused(0, WrongParameters);
    cleared(2 x 1, b"\x1b[\"7\"h") => refused(0, WrongParameters);
    cleared(2 x 1, b"\x1b[?7m") => refused(0, UnknownSequence);
    cleared(2 x 1, b"\x1b[=p") => refused(0, UnknownSequence);
    cleared(2 x 1, b"\x1b[?7s") => refused(0, UnknownSequence);
    cleared(2 x 1, b"\x1b[;J") => refused(0, WrongParameters);
    cleared(2 x 1, b"\x1b[;K") => refused(0, WrongParameters);
    cleared(2 x 1, b"\x1b[1s") => refused(0, WrongParameters);
    cleared(2 x 1, b"\x1b[0u") => refused(0, WrongParameters);
    cleared(2 x 1, b"\x1b[;s") => refused(0, WrongParameters);
    cleared(2 x 1, b"\x1b[5n") => refused(0, WrongParameters);
    cleared(2 x 1, b"\x1b[n") => refused(0, WrongParameters);
    cleared(2 x 1, b"\x1b[;6n") => refused(0, WrongParameters);
    cleared(2 x 1, b"\x1b[1;2A") => refused(0, WrongParameters);
    cleared(2 x 1, b"\x1b[;A") => refused(0, WrongParameters);
    cleared(2 x 1, b"\x1b[1;1;1H") => refused(0, WrongParameters);
};

/// Sequences that are not allowed.
pub static FORBIDDEN: [Row; 13] = rows! {
    cleared(2 x 1, b"\x1b[13;\"dir\";13p") => refused(0, KeyReassigned);
    cleared(2 x 1, b"\x1b[?25h") => refused(0, ScreenMode);
    cleared(2 x 1, b"\x1b[7h") => refused(0, ScreenMode);
    cleared(2 x 1, b"\x1b[6n") => refused(0, ReportAsked);
    cleared(2 x 1, b"\x1b[3;1H") => refused(0, OutsideScreen);
    cleared(2 x 1, b"\x1b[1;3f") => refused(0, OutsideScreen);
    cleared(2 x 1, b"\x1b[\"\x1b[2J\"p") => refused(0, KeyReassigned);
    cleared(2 x 1, b"ab\x1b[6n") => refused(2, ReportAsked);
    any(2 x 1, b"\x1b[6nx") => refused(0, ReportAsked);
    cleared(2 x 1, b"\x1b[2;1H\x1b[9;1H") => refused(6, OutsideScreen);
    cleared(2 x 1, b"\x1b[?7;7h") => refused(0, ScreenMode);
    cleared(2 x 1, b"\x1b['a\"b'p") => refused(0, KeyReassigned);
    any(2 x 1, b"\x1b[6n") => refused(0, ReportAsked);
};

/// Contents that leave a cell unknown.
pub static UNKNOWN_CELLS: [Row; 5] = rows! {
    any(1 x 1, b"\x1b[2J") => refused(4, UnknownCell 1 1);
    any(1 x 1, b"\x1b[37;40m\x1b[2J\x1b[0m") => refused(16, UnknownCell 1 1);
    any(2 x 1, b"\x1b[?7h") => refused(5, UnknownCell 1 1);
    any(2 x 1, b"\x1b[?7h\x1b[0m") => refused(9, UnknownCell 1 1);
    any(2 x 2, b"\x1b[2;1H\x1b[K") => refused(9, UnknownCell 1 1);
};

/// Contents that print, erase, or scroll where they must not.
pub static MISPLACED: [Row; 8] = rows! {
    any(2 x 1, b"\x1b[?7h\x1b[0m\x1b[2JHi!") => refused(15, PrintBelow);
    any(2 x 2, b"\x1b[0m\x1b[2Jabc") => refused(10, PrintUnknownPlace);
    any(2 x 1, b"\x1b[?7h\x1b[0m\x1b[2J\x1b[ux") => refused(16, PrintUnknownPlace);
    any(2 x 1, b"\x1b[K") => refused(0, EraseUnknownPlace);
    any(2 x 2, b"\x1b[0m\x1b[2Jab\r\n\n") => refused(12, MayScroll);
    cleared(2 x 1, b"ab!\x1b[6n") => refused(2, PrintBelow);
    any(2 x 1, b"x\x1b[3") => refused(0, PrintUnknownPlace);
    cleared(2 x 1, b"\x1b[Bx") => refused(3, PrintBelow);
};

/// All tables, in their order.
pub fn tables() -> [&'static [Row]; 11] {
    [
        &BYTES,
        &TABS,
        &PARTS_KNOWN,
        &PASSES_FROM_ANY,
        &PASSES_FROM_CLEARED,
        &COLOURS,
        &BROKEN,
        &WITHOUT_MEANING,
        &FORBIDDEN,
        &UNKNOWN_CELLS,
        &MISPLACED,
    ]
}
