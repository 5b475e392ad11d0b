//! Laws of what `show` writes: what a reader sees of it is the picture.

ghost use Rattle.std.specs.Prelude.{◌≡◌, ℕ, Bool, false, List, All, chars, codes};
ghost use Rattle.std.specs.List.{flat_map};
ghost use Rattle.ans_model.specs.declared.cell.Cell.{Cell};
ghost use Rattle.ans_model.specs.Bytes.{IsByte};
ghost use Rattle.ans_model.specs.Screen.State.{IsByteCell};
ghost use Rattle.ans_model.specs.Verdict.Good.{Picture};
ghost use Rattle.ans_show.specs.Looks.{Look, look_of};
ghost use Rattle.ans_show.specs.Runs.{runs};
ghost use Rattle.ans_picture_laws.specs.Seen.{attribute_of, seen_picture};
ghost use Rattle.ans_show.specs.PageText.{page_text, foreground_style, background_style};
ghost use Rattle.ans_picture_laws.specs.PageReader.{InText, read_page, class_style, sixteen};
ghost use Rattle.ans_show.specs.TerminalText.{terminal_text};
ghost use Rattle.ans_picture_laws.specs.LongestRuns.{run_cells, AreLongest};
ghost use Rattle.ans_picture_laws.specs.TerminalReader.{outside, read_terminal};

/// The runs of a row are its cells, each run has a cell, and no two that follow one another have one
/// attribute.
pub fn runs_are_longest()
    ensures cells { (row : List Cell) → flat_map run_cells (runs row) ≡ row }
    ensures longest { (row : List Cell) → AreLongest (runs row) }
{}

/// How a cell looks determines its attribute, with blink and without.
pub fn looks_tell_attributes()
    ensures { (non_blink : Bool) (a : ℕ) → IsByte a → attribute_of (look_of non_blink a) ≡ a }
{}

/// Whatever was on the terminal before, what is seen of the text is each cell of the picture in its
/// place: its character, in the colours of its attribute.
pub fn terminals_show_the_picture()
    ensures { (vga non_blink : Bool) (before : Look) (picture : Picture) → All IsByteCell picture.cells
        → read_terminal (outside before) (chars (terminal_text vga non_blink picture))
        ≡ seen_picture non_blink picture }
{}

/// Of a page the same is seen between `<pre>` and `</pre>`, and nothing else.
pub fn pages_show_the_picture()
    ensures { (non_blink : Bool) (before : Look) (title : List ℕ) (picture : Picture) → All IsByte title
        → All IsByteCell picture.cells
        → read_page (InText false before) (chars (page_text non_blink title picture))
        ≡ seen_picture non_blink picture }
{}

/// The style of a page gives the classes the colours of a VGA, by their numbers.
pub fn styles_are_the_vga_colours()
    ensures foregrounds { flat_map (class_style (codes "f") (codes "color")) sixteen ≡ foreground_style }
    ensures backgrounds { flat_map (class_style (codes "b") (codes "background")) sixteen
        ≡ background_style }
{}
