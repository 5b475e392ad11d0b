//! The bytes of the files of a table.

use crate::bytes::{bytes_of, put_bytes};
use crate::table::File;
use ans_samples::sample_file;
use std::alloc::{AllocError, Global};

/// Appends the plain record with these bytes from these offsets on.
fn put_record(
    alloc: Global,
    bytes: &mut Vec<u8>,
    fields: &[(usize, String)],
) -> Result<(), AllocError> {
    let mut held = Vec::new(alloc);
    for (at, text) in fields {
        held.push((*at, bytes_of(alloc, text.as_str())?))?;
    }
    let mut edits = Vec::new(alloc);
    for (at, field) in &held {
        edits.push((*at, field.as_slice()))?;
    }
    bytes.extend_from_slice(sample_file(alloc, b"", edits.as_slice())?.as_slice())
}

/// Appends a drawing: a content, an end mark, and the plain record with these columns and lines.
pub(crate) fn put_drawing(
    alloc: Global,
    bytes: &mut Vec<u8>,
    (content, columns, lines): &(String, u16, u16),
) -> Result<(), AllocError> {
    let content = bytes_of(alloc, content.as_str())?;
    let length = u32::try_from(content.len()).unwrap_or(0);
    bytes.extend_from_slice(content.as_slice())?;
    bytes.push(0x1a)?;
    let record = sample_file(
        alloc,
        b"",
        &[
            (90, &length.to_le_bytes()),
            (96, &columns.to_le_bytes()),
            (98, &lines.to_le_bytes()),
        ],
    )?;
    bytes.extend_from_slice(record.as_slice())
}

/// Appends a piece this number of times.
fn put_times(bytes: &mut Vec<u8>, count: usize, piece: &[u8]) -> Result<(), AllocError> {
    for _ in 0..count {
        bytes.extend_from_slice(piece)?;
    }
    Ok(())
}

impl File {
    /// The file's bytes.
    pub(crate) fn bytes(&self, alloc: Global) -> Result<Vec<u8>, AllocError> {
        let mut bytes = Vec::new(alloc);
        for (count, text) in &self.times {
            let piece = bytes_of(alloc, text.as_str())?;
            put_times(&mut bytes, *count, piece.as_slice())?;
        }
        put_bytes(&mut bytes, self.front.as_str())?;
        if let Some(drawing) = &self.drawing {
            put_drawing(alloc, &mut bytes, drawing)?;
        }
        if let Some(fields) = &self.record {
            put_record(alloc, &mut bytes, fields.as_slice())?;
        }
        put_bytes(&mut bytes, self.after.as_str())?;
        Ok(bytes)
    }
}
