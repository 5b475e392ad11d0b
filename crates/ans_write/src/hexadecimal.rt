//! Bytes as lower-case hexadecimal digits.
ghost use Rattle.std.specs.Prelude.{◌≡◌};
ghost use Rattle.ans_model.specs.Text.Hexadecimal.{hex_byte};

/// The two lower-case hexadecimal digits of a byte, the higher one first.
pub fn hex_byte(byte: u8) -> [u8; 2]
    ensures { result ≡ hex_byte byte }
{
    let mut digits = [0; 2];
    let _ = hex::encode_to_slice([byte], &mut digits);
    digits
}
