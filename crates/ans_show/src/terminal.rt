//! The picture for a terminal.
ghost use Rattle.std.specs.Prelude.{◌≡◌, ◌<◌, [], ◌∷◌, ◌++◌, codes, if◌then◌else◌};
ghost use Rattle.ans_model.specs.Bytes.{escape};
ghost use Rattle.ans_write.specs.Puts.{Puts};
ghost use Rattle.ans_show.specs.Looks.{look_of};
ghost use Rattle.ans_show.specs.ShortTexts.{short_bytes};
ghost use Rattle.ans_show.specs.TerminalText.{parameter, foreground_text, background_text, colours_text, terminal_text};

use crate::look::{background, blinks, foreground};
use crate::markup::Markup;
use crate::markup_tables::{Break, MarkupTables};
use crate::rows::put_rows;
use ans_play::Picture;
use ans_screen::Screen;
use ans_write::Outbox;
use std::io::Write;

/// The foregrounds of a terminal, by the number of the colour.
const FOREGROUNDS: [&[u8]; 16] = [
    b";30", b";34", b";32", b";36", b";31", b";35", b";33", b";37", b";90", b";94", b";92", b";96",
    b";91", b";95", b";93", b";97",
];

/// The backgrounds of a terminal, and the end of the sequence.
const BACKGROUNDS: [&[u8]; 16] = [
    b";40", b";44", b";42", b";46", b";41", b";45", b";43", b";47", b";100", b";104", b";102",
    b";106", b";101", b";105", b";103", b";107",
];

/// The foregrounds of a VGA.
const VGA_FOREGROUNDS: [&[u8]; 16] = [
    b";38;2;0;0;0",
    b";38;2;0;0;170",
    b";38;2;0;170;0",
    b";38;2;0;170;170",
    b";38;2;170;0;0",
    b";38;2;170;0;170",
    b";38;2;170;85;0",
    b";38;2;170;170;170",
    b";38;2;85;85;85",
    b";38;2;85;85;255",
    b";38;2;85;255;85",
    b";38;2;85;255;255",
    b";38;2;255;85;85",
    b";38;2;255;85;255",
    b";38;2;255;255;85",
    b";38;2;255;255;255",
];

/// The backgrounds of a VGA, and the end of the sequence.
const VGA_BACKGROUNDS: [&[u8]; 16] = [
    b";48;2;0;0;0",
    b";48;2;0;0;170",
    b";48;2;0;170;0",
    b";48;2;0;170;170",
    b";48;2;170;0;0",
    b";48;2;170;0;170",
    b";48;2;170;85;0",
    b";48;2;170;170;170",
    b";48;2;85;85;85",
    b";48;2;85;85;255",
    b";48;2;85;255;85",
    b";48;2;85;255;255",
    b";48;2;255;85;85",
    b";48;2;255;85;255",
    b";48;2;255;255;85",
    b";48;2;255;255;255",
];

fn foreground_text(colour: usize, vga: bool) -> &'static [u8]
    requires { colour < 16 }
    ensures { result.now ≡ foreground_text vga colour }
{
    let texts = if vga { &VGA_FOREGROUNDS } else { &FOREGROUNDS };
    texts[colour]
}

fn background_text(colour: usize, vga: bool) -> &'static [u8]
    requires { colour < 16 }
    ensures { result.now ≡ background_text vga colour }
{
    let texts = if vga { &VGA_BACKGROUNDS } else { &BACKGROUNDS };
    texts[colour]
}

fn start_text(blinks: bool) -> &'static [u8]
    ensures { result.now ≡ (escape ∷ codes "[0") ++ (if blinks then parameter 5 else []) }
{
    if blinks { b"\x1b[0;5" } else { b"\x1b[0" }
}

/// The sequence after which cells look as this attribute says.
pub(crate) fn colours(attribute: u8, non_blink: bool, vga: bool) -> Break
    ensures { short_bytes result ≡ colours_text vga (look_of non_blink attribute) }
{
    Break::joined(
        start_text(blinks(attribute, non_blink)),
        foreground_text(foreground(attribute, non_blink), vga),
        background_text(background(attribute, non_blink), vga),
        b"m",
    )
}

/// Puts the picture for a terminal, line by line: before each longest run of cells with one
/// attribute the sequence of its colours, and at the end of the line ESC, `[0m` and a line feed. The
/// characters are those of a report, and trailing blanks are kept. An attribute's bit 7 is blink, or,
/// where the record's non-blink flag is set, a bright background. With `vga` the colours are the
/// sixteen of a VGA, and else the terminal's own.
#[inline(never)]
pub fn put_terminal<W: Write, G: Screen>(
    out: &mut Outbox<'_, W>,
    picture: &Picture<G>,
    non_blink: bool,
    vga: bool,
)
    ensures { Puts W.contents out.old out.new (terminal_text vga non_blink picture.now) }
{
    let tables = MarkupTables::new(Markup::Terminal { vga, non_blink });
    put_rows(out, picture, &tables);
}
