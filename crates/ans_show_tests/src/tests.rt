//! Pictures in their colours by example, and each writer on a device that takes one byte a call, also
//! one of which a call fails.
use ans_model::start::Start;
use ans_play::{Picture, Player};
use ans_samples::puts;
use ans_sauce::MAX_FILE;
use ans_screen::PlainGrid;
use ans_show::{put_page, put_terminal};
use std::process::Abort;
use std::test::Fail;

/// The picture of a content from the cleared start.
fn picture_of(
    rt: &(impl Abort + AllocGlobal),
    width: usize,
    lines: usize,
    content: &[u8],
) -> Result<Picture<PlainGrid>, Fail> {
    assert!(rt; 1 <= width && width <= 1024 && 1 <= lines && lines <= 8192);
    let mut player = Player::<PlainGrid>::new(rt.alloc(), width, lines, Start::CLEARED)?;
    assert!(rt; player.fed() == 0 && content.len() <= MAX_FILE);
    let end = match player.feed(content) {
        Ok(()) => player.finish(),
        Err(fault) => Err(fault),
    };
    match end {
        Ok(picture) => Ok(picture),
        Err(_) => panic!(rt; "the sample is refused"),
    }
}

/// A table: screens by their size and a content, and what is expected of each.
macro_rules! rows {
    ($(screen($width:literal x $lines:literal, $content:literal) => $($expected:expr),+;)*) => {
        [$(($width, $lines, $content, $($expected),+)),*]
    };
}

/// Whether bit 7 blinks or is a bright background, and whether the colours are those of a VGA.
const BLINK: (bool, bool) = (false, false);

const BRIGHT: (bool, bool) = (true, false);

const VGA: (bool, bool) = (false, true);

const BRIGHT_VGA: (bool, bool) = (true, true);

/// The width, the lines, a content, the manner, and the text for a terminal.
static TEXTS: [(usize, usize, &[u8], (bool, bool), &[u8]); 12] = rows! {
    screen(1 x 1, b"\x1b[1;5;33;44mA") => BLINK, b"\x1b[0;5;93;44mA\x1b[0m\n";
    screen(1 x 1, b"\x1b[1;5;33;44mA") => BRIGHT, b"\x1b[0;93;104mA\x1b[0m\n";
    screen(1 x 1, b"\x1b[1;5;33;44mA") => VGA, b"\x1b[0;5;38;2;255;255;85;48;2;0;0;170mA\x1b[0m\n";
    screen(1 x 1, b"\x1b[1;5;33;44mA") => BRIGHT_VGA, b"\x1b[0;38;2;255;255;85;48;2;85;85;255mA\x1b[0m\n";
    screen(3 x 1, b"a") => BLINK, b"\x1b[0;37;40ma  \x1b[0m\n";
    screen(3 x 1, b"abc") => BLINK, b"\x1b[0;37;40mabc\x1b[0m\n";
    screen(3 x 1, b"a\x1b[31mbc") => BLINK, b"\x1b[0;37;40ma\x1b[0;31;40mbc\x1b[0m\n";
    screen(2 x 2, b"\x1b[31mabcd") => BLINK, b"\x1b[0;31;40mab\x1b[0m\n\x1b[0;31;40mcd\x1b[0m\n";
    screen(9 x 1, b"\x1b[30;41mx\x1b[31;42mx\x1b[32;43mx\x1b[33;44mx\x1b[34;45mx\x1b[35;46mx\x1b[36;47mx\x1b[37;40mx")
        => BLINK, b"\x1b[0;30;41mx\x1b[0;31;42mx\x1b[0;32;43mx\x1b[0;33;44mx\x1b[0;34;45mx\x1b[0;35;46mx\x1b[0;36;47mx\
        \x1b[0;37;40mx \x1b[0m\n";
    screen(8 x 1, b"\x1b[1;5;30;41mx\x1b[31;42mx\x1b[32;43mx\x1b[33;44mx\x1b[34;45mx\x1b[35;46mx\x1b[36;47mx\
        \x1b[37;40mx")
        => BRIGHT, b"\x1b[0;90;101mx\x1b[0;91;102mx\x1b[0;92;103mx\x1b[0;93;104mx\x1b[0;94;105mx\x1b[0;95;106mx\
        \x1b[0;96;107mx\x1b[0;97;100mx\x1b[0m\n";
    screen(4 x 1, b"\x1b[33;41m\xdb\x1b[1;32;45m\xb0\x1b[0;34;46m\x00\x1b[30;47m\x1e")
        => VGA, b"\x1b[0;38;2;170;85;0;48;2;170;0;0m\xe2\x96\x88\x1b[0;38;2;85;255;85;48;2;170;0;170m\xe2\x96\x91\
        \x1b[0;38;2;0;0;170;48;2;0;170;170m \x1b[0;38;2;0;0;0;48;2;170;170;170m\xe2\x96\xb2\x1b[0m\n";
    screen(2 x 1, b"<&") => BLINK, b"\x1b[0;37;40m<&\x1b[0m\n";
};

#[test]
fn a_terminal_shows_the_colours(rt: HostRuntime) -> Result<(), Fail> {
    for (width, lines, content, (non_blink, vga), text) in &TEXTS {
        let picture = picture_of(&rt, *width, *lines, content)?;
        assert!(rt; puts(text, |out| put_terminal(out, &picture, *non_blink, *vga)));
    }
    Ok(())
}

/// Where a page begins, up to its title.
const START: &str =
    "<!DOCTYPE html>\n<html lang=\"en\">\n<head>\n<meta charset=\"utf-8\">\n<title>";

/// What comes between the title and the picture, with the colours by their numbers.
macro_rules! style {
    ($([$($number:literal $colour:literal)+])+) => {
        concat!(
            "</title>\n<style>\nbody{background:#000}\n\
            pre{margin:0;font-family:monospace;line-height:1;color:#aaa}\n",
            $($(".f", $number, "{color:#", $colour, "}",)+ "\n",)+
            $($(".b", $number, "{background:#", $colour, "}",)+ "\n",)+
            ".k{animation:k 1s step-end infinite}\n@keyframes k{50%{color:transparent}}\n\
            @media (prefers-reduced-motion:reduce){.k{animation:none}}\n\
            </style>\n</head>\n<body>\n<pre>"
        )
    };
}

const STYLE: &str = style! {
    [0 "000" 1 "00a" 2 "0a0" 3 "0aa"]
    [4 "a00" 5 "a0a" 6 "a50" 7 "aaa"]
    [8 "555" 9 "55f" 10 "5f5" 11 "5ff"]
    [12 "f55" 13 "f5f" 14 "ff5" 15 "fff"]
};

/// What comes after the picture.
const END: &str = "</pre>\n</body>\n</html>\n";

/// The width, the lines, a content, the title, whether blink is off, and the title and the picture on
/// the page.
static PAGES: [(usize, usize, &[u8], &[u8], bool, &str, &str); 5] = rows! {
    screen(1 x 1, b"\x1b[1;5;33;44mA") => b"", false, "ANSI drawing", "<span class=\"f14 b1 k\">A</span>\n";
    screen(1 x 1, b"\x1b[1;5;33;44mA") => b"Test", true, "Test", "<span class=\"f14 b9\">A</span>\n";
    screen(6 x 1, b"<&\"'>") => b"<b>\"R&B\"'s\xdb", false,
        "&lt;b&gt;&quot;R&amp;B&quot;&apos;s█", "<span class=\"f7 b0\">&lt;&amp;&quot;&apos;&gt; </span>\n";
    screen(3 x 1, b"a\x1b[31mbc") => b" ", false,
        " ", "<span class=\"f7 b0\">a</span><span class=\"f4 b0\">bc</span>\n";
    screen(16 x 1, b"\x1b[30;41mx\x1b[31;42mx\x1b[32;43mx\x1b[33;44mx\x1b[34;45mx\x1b[35;46mx\x1b[36;47mx\x1b[37;40mx\
        \x1b[1;5;30;41mx\x1b[31;42mx\x1b[32;43mx\x1b[33;44mx\x1b[34;45mx\x1b[35;46mx\x1b[36;47mx\x1b[37;40mx")
        => b"x", true, "x", "<span class=\"f0 b4\">x</span><span class=\"f4 b2\">x</span><span class=\"f2 b6\">x</span>\
        <span class=\"f6 b1\">x</span><span class=\"f1 b5\">x</span><span class=\"f5 b3\">x</span>\
        <span class=\"f3 b7\">x</span><span class=\"f7 b0\">x</span><span class=\"f8 b12\">x</span>\
        <span class=\"f12 b10\">x</span><span class=\"f10 b14\">x</span><span class=\"f14 b9\">x</span>\
        <span class=\"f9 b13\">x</span><span class=\"f13 b11\">x</span><span class=\"f11 b15\">x</span>\
        <span class=\"f15 b8\">x</span>\n";
};

#[test]
fn a_page_shows_the_colours(rt: HostRuntime) -> Result<(), Fail> {
    for (width, lines, content, title, non_blink, shown, spans) in &PAGES {
        let picture = picture_of(&rt, *width, *lines, content)?;
        let page = format!(in rt.alloc(); "{START}{shown}{STYLE}{spans}{END}")?;
        assert!(rt;
            puts(
                page.as_bytes(),
                |out| put_page(out, &picture, title, *non_blink)
            )
        );
    }
    Ok(())
}
