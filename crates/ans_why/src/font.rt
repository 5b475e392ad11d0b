//! The code page of a font.

ghost use Rattle.std.specs.Prelude.{◌≡◌};
ghost use Rattle.std.specs.List.{list_any, position};
ghost use Rattle.std.specs.Str.{bytes_eq};
ghost use Rattle.ans_why.specs.Fonts.{fonts_of_437, ends_text, font_name, has_other_code_page, is_latin_font};

fn first_zero(field: &[u8]) -> Option<usize>
    ensures { result ≡ position ends_text field.now }
{
    field.iter().position(|byte| *byte == 0)
}

/// The name in the record's field of the font: it ends before the first zero byte (SAUCE 00.5, TInfoS is a
/// ZString), and has no trailing blanks.
pub fn font_name(field: &[u8]) -> &[u8]
    ensures { result.now ≡ font_name field.now }
{
    let mut end = first_zero(field).unwrap_or(field.len());
    while end > 0 && field[end - 1] == b' ' {
        end -= 1;
    }
    &field[..end]
}

fn is(name: &[u8], font: &[u8]) -> bool
    ensures { result ≡ bytes_eq name.now font.now }
{
    name == font
}

fn is_of_437(name: &[u8]) -> bool
    ensures { result ≡ list_any (bytes_eq name.now) fonts_of_437 }
{
    is(name, b"IBM VGA")
        || is(name, b"IBM VGA 437")
        || is(name, b"IBM VGA50")
        || is(name, b"IBM VGA50 437")
        || is(name, b"IBM VGA25G")
        || is(name, b"IBM VGA25G 437")
        || is(name, b"IBM EGA")
        || is(name, b"IBM EGA 437")
        || is(name, b"IBM EGA43")
        || is(name, b"IBM EGA43 437")
}

/// Whether a font is named whose code page is not 437. Those of code page 437 are the IBM PC's fonts, by
/// themselves or followed by ` 437` (SAUCE 00.5, font names).
pub fn has_other_code_page(name: &[u8]) -> bool
    ensures { result ≡ has_other_code_page name.now }
{
    !name.is_empty() && !is_of_437(name)
}

/// Whether a font has the letters of Latin-1: those of the Amiga, and those of code page 819 (SAUCE 00.5, font names).
pub(crate) fn is_latin_font(name: &[u8]) -> bool
    ensures { result ≡ is_latin_font name.now }
{
    name.starts_with(b"Amiga ") || name.ends_with(b" 819")
}
