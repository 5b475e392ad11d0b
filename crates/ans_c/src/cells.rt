//! The cells of a picture.

ghost use Rattle.std.specs.Prelude.{◌≡◌, ◌*◌, ◌≤◌, length};
ghost use Rattle.ans_c.specs.Told.{HoldsPicture};

use ans_play::Picture;
use ans_screen::Screen;

/// Copies the glyphs and the attributes of all cells, row by row, to the start of two arrays.
pub(crate) fn copy_cells<G: Screen>(picture: &Picture<G>, glyphs: &mut [u8], attributes: &mut [u8])
    requires glyphs { picture.now.size.lines * picture.now.size.width ≤ length glyphs.old }
    requires attributes { picture.now.size.lines * picture.now.size.width ≤ length attributes.old }
    ensures { HoldsPicture picture.now glyphs.new attributes.new }
{
    let width = picture.width();
    for row in 0..picture.lines() {
        let from = row * width;
        picture.copy_glyphs(row, &mut glyphs[from..from + width]);
        picture.copy_attributes(row, &mut attributes[from..from + width]);
    }
}
