//! Setting fields of a record.

ghost use Rattle.std.specs.Prelude.{◌≡◌, ◌+◌, ◌-◌, ◌%◌, ◌≤◌, length, if◌then◌else◌};
ghost use Rattle.ans_model.specs.File.Record.{flags};
ghost use Rattle.ans_sauce.specs.Fields.{overwritten, with_file_size, with_lines, with_non_blink, with_record};
ghost use Rattle.ans_sauce.specs.Found.{record_in};

use crate::fields::{FILE_SIZE, FLAGS, RECORD_SIZE, TINFO_2};
use crate::record::Record;

/// A number in a record that was set, to the same or to another one.
#[derive(Debug, Clone, Copy, PartialEq, Eq)]
pub struct Reset {
    pub was: u32,
    pub is: u32,
}

impl<'a> Record<'a> {
    ghost use Rattle.ans_sauce.specs.RecordBytes.{sauce_bytes};

    /// The record's bytes with this FileSize.
    pub fn with_file_size(&self, size: u32) -> [u8; RECORD_SIZE]
        ensures { result ≡ with_file_size size (sauce_bytes self.now) }
    {
        let mut bytes = [0; RECORD_SIZE];
        bytes.copy_from_slice(self.bytes);
        overwrite(&mut bytes, FILE_SIZE, &size.to_le_bytes());
        bytes
    }
}

/// Writes bytes over as many, from the offset on.
pub fn overwrite(file: &mut [u8], offset: usize, bytes: &[u8])
    requires { offset + length bytes.now ≤ length file.old }
    ensures { file.new ≡ overwritten offset bytes.now file.old }
{
    file[offset..offset + bytes.len()].copy_from_slice(bytes);
}

/// Writes bytes over as many of the record at the end of a file, from this offset in it on.
#[tactic(auto, using(crate::proofs::Overwriting::of_record))]
fn overwrite_in_record(file: &mut [u8], offset: usize, bytes: &[u8])
    requires record { 128 ≤ length file.old }
    requires within { offset + length bytes.now ≤ 128 }
    ensures { file.new ≡ with_record (overwritten offset bytes.now (record_in file.old)) file.old }
{
    let start = file.len() - RECORD_SIZE;
    overwrite(file, start + offset, bytes);
}

fn flags_of(file: &[u8]) -> u8
    requires { 128 ≤ length file.now }
    ensures { result ≡ flags (record_in file.now) }
{
    let (_, bytes) = file.split_at(file.len() - RECORD_SIZE);
    Record { bytes }.flags()
}

fn with_bit_0(flags: u8, on: bool) -> u8
    ensures { result ≡ flags - flags % 2 + (if on then 1 else 0) }
{
    let even = flags - flags % 2;
    if on { even + 1 } else { even }
}

/// States this number of lines in the record at the end of a file (TInfo2).
pub fn state_lines(file: &mut [u8], lines: u16)
    requires { 128 ≤ length file.old }
    ensures { file.new ≡ with_record (with_lines lines (record_in file.old)) file.old }
{
    overwrite_in_record(file, TINFO_2, &lines.to_le_bytes());
}

/// Sets the non-blink flag of the record at the end of a file, or clears it (TFlags, bit 0).
pub fn state_non_blink(file: &mut [u8], on: bool)
    requires { 128 ≤ length file.old }
    ensures { file.new ≡ with_record (with_non_blink on (record_in file.old)) file.old }
{
    let flags = flags_of(file);
    overwrite_in_record(file, FLAGS, &[with_bit_0(flags, on)]);
}

/// States this size of a file without its comments and its record, in bytes, in the record at its end (FileSize).
pub fn state_file_size(file: &mut [u8], size: u32)
    requires { 128 ≤ length file.old }
    ensures { file.new ≡ with_record (with_file_size size (record_in file.old)) file.old }
{
    overwrite_in_record(file, FILE_SIZE, &size.to_le_bytes());
}
