//! Words over files in memory, and devices that fail. Where memory runs out a test fails with that error.

mod cut_off;
mod meanings;
mod mended_files;
mod no_disk;
mod redrawn_files;
mod shelf;

use ans_samples::sample_file;
use std::alloc::AllocError;
use std::process::Abort;

/// The content, one end mark and the plain record of this size.
fn plain_file(
    rt: &(impl Abort + AllocGlobal),
    content: &[u8],
    width: u16,
    lines: u16,
) -> Result<Vec<u8>, AllocError> {
    let mut front = [0x1a; 64];
    assert!(rt; content.len() < 64);
    front[..content.len()].copy_from_slice(content);
    let file_size = u32::try_from(content.len()).unwrap_or(0).to_le_bytes();
    sample_file(
        rt.alloc(),
        &front[..content.len() + 1],
        &[
            (90, &file_size),
            (96, &width.to_le_bytes()),
            (98, &lines.to_le_bytes()),
        ],
    )
}
