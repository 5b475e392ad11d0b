//! The forms in which a picture is written.
ghost use Rattle.std.specs.Prelude.{◌≡◌, ◌++◌};
ghost use Rattle.ans_show.specs.Markups.{end_in, run_end_in};

/// A markup. Where `non_blink` is set, an attribute's bit 7 is a bright background.
#[derive(Clone, Copy)]
pub(crate) enum Markup {
    Terminal { vga: bool, non_blink: bool },
    Page { non_blink: bool },
}

/// What comes after each run.
pub(crate) fn run_end(markup: Markup) -> &'static [u8]
    ensures { result.now ≡ run_end_in markup }
{
    match markup {
        Markup::Terminal { .. } => b"",
        Markup::Page { .. } => b"</span>",
    }
}

/// What comes after the characters of a line's last run.
pub(crate) fn line_end(markup: Markup) -> &'static [u8]
    ensures { result.now ≡ run_end_in markup ++ end_in markup }
{
    match markup {
        Markup::Terminal { .. } => b"\x1b[0m\n",
        Markup::Page { .. } => b"</span>\n",
    }
}
