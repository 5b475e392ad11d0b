//! Bytes that a table writes as characters.

use std::alloc::{AllocError, Global};

/// The bytes whose numbers are those of the characters; a character above U+00FF is a question mark.
pub(crate) fn put_bytes(bytes: &mut Vec<u8>, text: &str) -> Result<(), AllocError> {
    for character in text.chars() {
        bytes.push(u8::try_from(character).unwrap_or(b'?'))?;
    }
    Ok(())
}

/// The bytes of a text, as [`put_bytes`] puts them.
pub(crate) fn bytes_of(alloc: Global, text: &str) -> Result<Vec<u8>, AllocError> {
    let mut bytes = Vec::new(alloc);
    put_bytes(&mut bytes, text)?;
    Ok(bytes)
}
