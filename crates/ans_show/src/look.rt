//! How an attribute looks.
ghost use Rattle.std.specs.Prelude.{◌≡◌, ◌<◌};
ghost use Rattle.ans_show.specs.Looks.{look_of};

pub(crate) fn foreground(attribute: u8, non_blink: bool) -> usize
    ensures number { result ≡ (look_of non_blink attribute).foreground }
    ensures sixteen { result < 16 }
{
    attribute as usize % 16
}

pub(crate) fn background(attribute: u8, non_blink: bool) -> usize
    ensures number { result ≡ (look_of non_blink attribute).background }
    ensures sixteen { result < 16 }
{
    if non_blink {
        attribute as usize / 16
    } else {
        attribute as usize / 16 % 8
    }
}

pub(crate) fn blinks(attribute: u8, non_blink: bool) -> bool
    ensures { result ≡ (look_of non_blink attribute).blinks }
{
    !non_blink && attribute >= 128
}
