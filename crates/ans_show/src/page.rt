//! The picture as a page.
ghost use Rattle.std.specs.Prelude.{◌≡◌, ◌<◌, [], ◌++◌, codes, decimal, if◌then◌else◌};
ghost use Rattle.ans_write.specs.Puts.{Puts};
ghost use Rattle.ans_show.specs.Markups.{IsPage};
ghost use Rattle.ans_show.specs.Looks.{look_of};
ghost use Rattle.ans_show.specs.ShortTexts.{short_bytes};
ghost use Rattle.ans_show.specs.PageText.{span_text, page_title, page_style, page_text};

use crate::look::{background, blinks, foreground};
use crate::markup::Markup;
use crate::markup_tables::{Break, MarkupTables};
use crate::rows::put_rows;
use ans_play::Picture;
use ans_screen::Screen;
use ans_write::Outbox;
use std::io::Write;

/// Where a span begins, by the number of its foreground.
const FOREGROUNDS: [&[u8]; 16] = [
    b"<span class=\"f0",
    b"<span class=\"f1",
    b"<span class=\"f2",
    b"<span class=\"f3",
    b"<span class=\"f4",
    b"<span class=\"f5",
    b"<span class=\"f6",
    b"<span class=\"f7",
    b"<span class=\"f8",
    b"<span class=\"f9",
    b"<span class=\"f10",
    b"<span class=\"f11",
    b"<span class=\"f12",
    b"<span class=\"f13",
    b"<span class=\"f14",
    b"<span class=\"f15",
];

/// The classes of the backgrounds.
const BACKGROUNDS: [&[u8]; 16] = [
    b" b0", b" b1", b" b2", b" b3", b" b4", b" b5", b" b6", b" b7", b" b8", b" b9", b" b10",
    b" b11", b" b12", b" b13", b" b14", b" b15",
];

fn foreground_text(colour: usize) -> &'static [u8]
    requires { colour < 16 }
    ensures { result.now ≡ codes "<span class=\"f" ++ decimal colour }
{
    FOREGROUNDS[colour]
}

fn background_text(colour: usize) -> &'static [u8]
    requires { colour < 16 }
    ensures { result.now ≡ codes " b" ++ decimal colour }
{
    BACKGROUNDS[colour]
}

fn span_end(blinks: bool) -> &'static [u8]
    ensures { result.now ≡ (if blinks then codes " k" else []) ++ codes "\">" }
{
    if blinks { b" k\">" } else { b"\">" }
}

/// The end of a span, and the tag after which cells look as this attribute says.
pub(crate) fn span_break(attribute: u8, non_blink: bool) -> Break
    ensures { short_bytes result ≡ codes "</span>" ++ span_text (look_of non_blink attribute) }
{
    Break::joined(
        b"</span>",
        foreground_text(foreground(attribute, non_blink)),
        background_text(background(attribute, non_blink)),
        span_end(blinks(attribute, non_blink)),
    )
}

/// Where a page begins, up to its title.
const START: &[u8] =
    b"<!DOCTYPE html>\n<html lang=\"en\">\n<head>\n<meta charset=\"utf-8\">\n<title>";

/// What comes between the title and the picture.
const STYLE: &[u8] = b"</title>\n<style>\nbody{background:#000}\n\
    pre{margin:0;font-family:monospace;line-height:1;color:#aaa}\n\
    .f0{color:#000}.f1{color:#00a}.f2{color:#0a0}.f3{color:#0aa}\n\
    .f4{color:#a00}.f5{color:#a0a}.f6{color:#a50}.f7{color:#aaa}\n\
    .f8{color:#555}.f9{color:#55f}.f10{color:#5f5}.f11{color:#5ff}\n\
    .f12{color:#f55}.f13{color:#f5f}.f14{color:#ff5}.f15{color:#fff}\n\
    .b0{background:#000}.b1{background:#00a}.b2{background:#0a0}.b3{background:#0aa}\n\
    .b4{background:#a00}.b5{background:#a0a}.b6{background:#a50}.b7{background:#aaa}\n\
    .b8{background:#555}.b9{background:#55f}.b10{background:#5f5}.b11{background:#5ff}\n\
    .b12{background:#f55}.b13{background:#f5f}.b14{background:#ff5}.b15{background:#fff}\n\
    .k{animation:k 1s step-end infinite}\n@keyframes k{50%{color:transparent}}\n\
    @media (prefers-reduced-motion:reduce){.k{animation:none}}\n\
    </style>\n</head>\n<body>\n<pre>";

/// What comes after the picture.
const END: &[u8] = b"</pre>\n</body>\n</html>\n";

/// Puts the title, by the tables of a page.
fn put_title<W: Write>(out: &mut Outbox<'_, W>, title: &[u8], tables: &MarkupTables)
    requires { IsPage tables.now.markup }
    ensures { Puts W.contents out.old out.new (page_title title.now) }
{
    if title.is_empty() {
        out.put(b"ANSI drawing");
    } else {
        tables.put_characters(out, title);
    }
}

/// Puts the picture as a page, a whole document that loads nothing and has no script: one `pre` with
/// a span for each longest run of cells with one attribute. The classes of a span are `f` and the
/// number of the foreground, `b` and the number of the background, and `k` where it blinks. The bytes
/// of the title are shown by their characters; an empty one becomes `ANSI drawing`. An attribute's bit
/// 7 is blink, or, if the record's non-blink flag is set, a bright background.
#[inline(never)]
pub fn put_page<W: Write, G: Screen>(
    out: &mut Outbox<'_, W>,
    picture: &Picture<G>,
    title: &[u8],
    non_blink: bool,
)
    ensures { Puts W.contents out.old out.new (page_text non_blink title.now picture.now) }
{
    let tables = MarkupTables::new(Markup::Page { non_blink });
    out.put(START);
    put_title(out, title, &tables);
    out.put(STYLE);
    put_rows(out, picture, &tables);
    out.put(END);
}
