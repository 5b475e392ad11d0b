//! Sequences of colours with numbers that only later terminals know.

use ans_hints::Hints;
use ans_model::size::Size;
use std::process::Abort;

/// A content; how many of its sequences set such a colour, and the offset of the first; and how many switch something
/// off in such a way, and the offset of the first.
#[derive(Clone, Copy)]
struct Numbers {
    content: &'static [u8],
    later: Option<(usize, usize)>,
    off: Option<(usize, usize)>,
}

macro_rules! numbers {
    ($($content:literal => $later:expr, $off:expr;)*) => {
        [$(Numbers { content: $content, later: $later, off: $off }),*]
    };
}

static NUMBERS: [Numbers; 13] = numbers! {
    b"abc" => None, None;
    b"\x1b[1;37;40ma\x1b[0mb\x1b[5;31mc" => None, None;
    b"\x1b[22ma" => None, Some((1, 0));
    b"\x1b[27ma" => None, Some((1, 0));
    b"a\x1b[39mb" => None, Some((1, 1));
    b"\x1b[1mab\x1b[49mc\x1b[39;49md" => None, Some((2, 6));
    b"\x1b[1;22;31ma" => None, Some((1, 0));
    b"\x1b[21;23;24;25;28;29ma" => None, None;
    b"\x1b[38;5;208ma" => Some((1, 0)), None;
    b"\x1b[90;49ma" => Some((1, 0)), None;
    b"\x1b[39;97ma" => Some((1, 0)), None;
    b"\x1b[39ma\x1b[107mb" => Some((1, 6)), Some((1, 0));
    b"\x1b[22Ca\x1b[1;39H" => None, None;
};

#[test]
fn modern_numbers_are_counted(rt: HostRuntime) {
    for row in &NUMBERS {
        let content = row.content;
        assert!(&rt; content.len() < 100);
        let hints = Hints::of(Size::new(80, 9), false, content, content.len());
        let later = hints.later_colours.map(|times| (times.count, times.first));
        let off = hints.off_switches.map(|times| (times.count, times.first));
        assert_eq!(&rt; (later, off), (row.later, row.off), "in {content:?}");
    }
}
