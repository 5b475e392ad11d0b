//! What is in a file whose record or layout is refused.
ghost use Rattle.std.specs.Prelude.{◌≡◌, ◌+◌, ◌-◌, ◌≤◌, ℕ, List, None, Some, length};
ghost use Rattle.memchr.specs.Find.{IsLast};
ghost use Rattle.ans_model.specs.File.Refusals.{record_fault};
ghost use Rattle.ans_model.specs.declared.fault.Cause.TheVariants.{NoRecord, BytesAfterEndMark};
ghost use Rattle.ans_sauce.specs.RecordBytes.{sauce_bytes};
ghost use Rattle.ans_sauce.specs.Split.{EndsInRecord};
ghost use Rattle.ans_sauce.specs.Found.{IsFound, IsLastRecord, IsRecordAt, after_end_mark};

use crate::grown::grown_by;
use crate::layout::{body_before, cut_content, cut_record};
use crate::record::Record;
use ans_model::fault::{Cause, Fault};
use memchr::arch::all::twoway::FinderRev;

/// What is in a file whose record or layout is refused: the field's value, and for F1 and F8 whether
/// there is a record of version 00 where it does not count.
#[derive(Debug, Clone, Copy, PartialEq, Eq)]
pub enum Found<'a> {
    /// F1: there is no record anywhere, and no `SAUCE00`.
    NoRecord,
    /// F1: what is left of a record: the offset of the last `SAUCE00` in the file, and how many bytes come from there
    /// on, fewer than 128.
    Remains {
        offset: usize,
        bytes: usize,
    },
    /// F1: the last record, by its offset in the file, and how many bytes come after it.
    Record {
        offset: usize,
        behind: usize,
    },
    /// F1: the last record, if a transfer as text may have put returns in it: its offset, and how many bytes come from
    /// there on, which are 128 and as many more as line feeds that follow a return.
    Grown {
        offset: usize,
        bytes: usize,
        returns: usize,
    },
    /// F2: the version's two bytes.
    Version(&'a [u8]),
    /// F3: DataType and FileType.
    Kind {
        data_type: u8,
        file_type: u8,
    },
    /// F4: how many comments are counted.
    Comments(u8),
    /// F6: TInfo1.
    Width(u16),
    /// F5 and F7: TInfo2.
    Lines(u16),
    /// F8: the bytes between the first end mark and the comment block or the record, and whether there is
    /// a record among them.
    AfterEndMark {
        bytes: &'a [u8],
        record: bool,
    },
}

/// How a record of version 00 begins.
const IDENTIFIER: &[u8] = b"SAUCE00";

/// The last place of `SAUCE00` and 121 more bytes.
fn last_identifier(bytes: &[u8]) -> Option<usize>
    ensures { IsLast (IsRecordAt bytes.now) 0 (length bytes.now) result }
{
    let end = bytes.len().checked_sub(121)?;
    FinderRev::new(IDENTIFIER).rfind(&bytes[..end], IDENTIFIER)
}

/// The place of the nearest record before the one at this place, if they overlap.
fn overlapped(bytes: &[u8], place: usize) -> Option<usize>
    requires { place + 128 ≤ length bytes.now }
    ensures { IsLast (IsRecordAt bytes.now) (place - 127) place result }
{
    let earlier = last_identifier(&bytes[..place + 127])?;
    if place - earlier < 128 {
        Some(earlier)
    } else {
        None
    }
}

/// The last place of `SAUCE00` and 121 more bytes, in bytes from the first one: a record of version 00,
/// whatever follows it. One counts only if none begins in the 127 bytes before it: it may be in a text of
/// that record.
pub fn last_record_place(bytes: &[u8]) -> Option<usize>
    ensures { IsLastRecord bytes.now result }
{
    let mut place = last_identifier(bytes)?;
    'overlapped: while let Some(earlier) = overlapped(bytes, place) {
        place = earlier;
    }
    Some(place)
}

/// F1, if there is no whole record.
fn found_remains(file: &[u8]) -> Found<'_>
    requires { IsLastRecord file.now None }
    ensures { IsFound file.now result NoRecord }
{
    match FinderRev::new(IDENTIFIER).rfind(file, IDENTIFIER) {
        None => Found::NoRecord,
        Some(offset) => Found::Remains {
            offset,
            bytes: file.len() - offset,
        },
    }
}

/// F1, if this is the last record.
fn found_record(file: &[u8], offset: usize) -> Found<'_>
    requires { IsLastRecord file.now (Some offset) }
    ensures { IsFound file.now result NoRecord }
{
    let bytes = file.len() - offset;
    match grown_by(&file[offset..]) {
        Some(returns) => Found::Grown {
            offset,
            bytes,
            returns,
        },
        None => Found::Record {
            offset,
            behind: bytes - 128,
        },
    }
}

/// F1
fn found_before_the_end(file: &[u8]) -> Found<'_>
    ensures { IsFound file.now result NoRecord }
{
    match last_record_place(file) {
        None => found_remains(file),
        Some(offset) => found_record(file, offset),
    }
}

/// What follows the first end mark, up to the comment block.
fn after_end_mark<'a>(front: &'a [u8], sauce: &Record<'_>) -> &'a [u8]
    ensures { (file : List ℕ) → EndsInRecord file front.now (sauce_bytes sauce.now)
        → result.now ≡ after_end_mark file }
{
    let (_, rest) = cut_content(body_before(front, sauce));
    match rest {
        [_, after @ ..] => after,
        [] => rest,
    }
}

/// F8, of what follows the first end mark.
fn found_after(after: &[u8]) -> Found<'_>
    ensures { (file : List ℕ) → after.now ≡ after_end_mark file
        → IsFound file result BytesAfterEndMark }
{
    Found::AfterEndMark {
        bytes: after,
        record: last_record_place(after).is_some(),
    }
}

/// What a file that is refused for its record or its layout, F1 to F8, has instead of what it should have.
/// It takes no memory.
pub fn find(file: &[u8], fault: Fault) -> Found<'_>
    requires { record_fault file.now ≡ Some fault }
    ensures { IsFound file.now result fault.cause }
{
    let Some((front, sauce)) = cut_record(file) else {
        return found_before_the_end(file);
    };
    match fault.cause {
        Cause::WrongVersion => Found::Version(sauce.version()),
        Cause::WrongKind => Found::Kind {
            data_type: sauce.data_type(),
            file_type: sauce.file_type(),
        },
        Cause::CommentsMissing => Found::Comments(sauce.comment_count()),
        Cause::LinesUnstated | Cause::LinesTooLarge => Found::Lines(sauce.tinfo(2)),
        Cause::WidthTooLarge => Found::Width(sauce.tinfo(1)),
        _ => found_after(after_end_mark(front, &sauce)),
    }
}
