//! Texts without their padding.
ghost use Rattle.std.specs.Prelude.{◌≡◌, ◌||◌, ◌==◌};
ghost use Rattle.ans_model.specs.File.Record.{is_padding, trimmed};

fn is_padding(byte: u8) -> bool
    ensures { result ≡ is_padding byte }
{
    byte == b' ' || byte == 0
}

/// The text without its trailing blanks and zero bytes.
pub(crate) fn trimmed(text: &[u8]) -> &[u8]
    ensures { result.now ≡ trimmed text.now }
{
    let mut end = text.len();
    while end > 0 && is_padding(text[end - 1]) {
        end -= 1;
    }
    &text[..end]
}
