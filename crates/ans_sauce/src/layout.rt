//! How a file is laid out, and which files are refused.
ghost use Rattle.std.specs.Prelude.{◌≡◌, ◌≤◌, ◌-◌, not, length, is_some, IsFalse, IfOk, IfErr, IfSome, IfNone};
ghost use Rattle.std.specs.Prelude.{Some, take};
ghost use Rattle.ans_model.specs.File.Record.{comment_count};
ghost use Rattle.std.specs.List.{position};
ghost use Rattle.ans_model.specs.File.Layout.{content, after_content, is_end_mark};
ghost use Rattle.ans_model.specs.File.Refusals.{has_record, has_block, block_size, fault_at};
ghost use Rattle.ans_model.specs.File.Refusals.{first_refusal, record_fault};
ghost use Rattle.ans_sauce.specs.RecordBytes.{sauce_bytes};
ghost use Rattle.ans_sauce.specs.Split.{IsSplit, EndsInRecord, IsCut, PassesRecord, record_refusals};

use crate::fields::{COMMENT_COUNT, DATA_TYPE, END_MARK, RECORD_SIZE, TINFO_1, TINFO_2, VERSION};
use crate::note_conditions::notes_on;
use crate::parts::{COMMENT_SIZE, Parts};
use crate::record::Record;
use ans_model::fault::{Cause, Fault};
use memchr::memchr;

fn fault(offset: usize, cause: Cause) -> Fault
    ensures { result ≡ fault_at offset cause }
{
    Fault { offset, cause }
}

/// What comes before the record, and the record, if there is one.
pub fn cut_record(file: &[u8]) -> Option<(&[u8], Record<'_>)>
    ensures cut { IfSome result (λ cut. EndsInRecord file.now cut.0.now (sauce_bytes cut.1)) }
    ensures none { IfNone result (IsFalse (has_record file.now)) }
{
    let (front, bytes) = file.split_at(file.len().checked_sub(RECORD_SIZE)?);
    if bytes.starts_with(b"SAUCE") {
        Some((front, Record { bytes }))
    } else {
        None
    }
}

/// The length of the block of this many comments: 0 where there are none.
fn block_size(count: u8) -> usize
    ensures { result ≡ block_size count }
{
    if count == 0 {
        return 0;
    }
    b"COMNT".len() + COMMENT_SIZE * count as usize
}

/// The body, and the lines of the comment block that ends the front, where there is one of this
/// many comments. Without comments the front is the body.
fn cut_block(front: &[u8], count: u8) -> Option<(&[u8], &[u8])>
    ensures found { is_some result ≡ has_block count front.now }
    ensures parts { IfSome result (λ cut. IsCut count front.now cut.0.now cut.1.now) }
{
    if count == 0 {
        return Some(front.split_at(front.len()));
    }
    let (body, block) = front.split_at(front.len().checked_sub(block_size(count))?);
    Some((body, block.strip_prefix(b"COMNT")?))
}

/// What comes before a record and before where the comment block that it counts would begin (SAUCE
/// 00.5, file layout). `front` is what comes before the record.
pub fn body_before<'a>(front: &'a [u8], sauce: &Record<'_>) -> &'a [u8]
    ensures { result.now ≡ take (length front.now - block_size (comment_count (sauce_bytes sauce.now)))
        front.now }
{
    let block = block_size(sauce.comment_count());
    &front[..front.len().saturating_sub(block)]
}

/// The body and the lines of comments before a record, where nothing in the record is refused: the
/// refusals F2 to F7, in their order.
fn cut_front<'a>(front: &'a [u8], sauce: &Record<'_>) -> Result<(&'a [u8], &'a [u8]), Fault>
    ensures ok { IfOk result
        (λ cut. PassesRecord front.now (sauce_bytes sauce.now) cut.0.now cut.1.now) }
    ensures err { IfErr result
        (λ fault. first_refusal (record_refusals front.now (sauce_bytes sauce.now)) ≡ Some fault) }
{
    let at = front.len();
    if !sauce.is_version_00() {
        return Err(fault(at + VERSION, Cause::WrongVersion));
    }
    if !sauce.is_character_ansi() {
        return Err(fault(at + DATA_TYPE, Cause::WrongKind));
    }
    let Some((body, comments)) = cut_block(front, sauce.comment_count()) else {
        return Err(fault(at + COMMENT_COUNT, Cause::CommentsMissing));
    };
    if sauce.states_no_lines() {
        return Err(fault(at + TINFO_2, Cause::LinesUnstated));
    }
    if sauce.is_too_wide() {
        return Err(fault(at + TINFO_1, Cause::WidthTooLarge));
    }
    if sauce.is_too_long() {
        return Err(fault(at + TINFO_2, Cause::LinesTooLarge));
    }
    Ok((body, comments))
}

fn first_end_mark(body: &[u8]) -> Option<usize>
    ensures { result ≡ position is_end_mark body.now }
{
    memchr(END_MARK, body)
}

/// The content of a body, and what comes after it, from the first end mark on.
pub fn cut_content(body: &[u8]) -> (&[u8], &[u8])
    ensures content { result.0.now ≡ content body.now }
    ensures rest { result.1.now ≡ after_content body.now }
{
    body.split_at(first_end_mark(body).unwrap_or(body.len()))
}

pub(crate) fn first_other_byte(rest: &[u8]) -> Option<usize>
    ensures { result ≡ position (λ b. not (is_end_mark b)) rest.now }
{
    rest.iter().position(|b| *b != END_MARK)
}

/// Takes a file apart by the record in its last 128 bytes (SAUCE 00.5), whatever its length. It
/// takes no memory and copies nothing.
///
/// Returns `Ok` exactly where some body, comments and record lay the file out and nothing in it
/// is refused, with the parts that they determine. Otherwise returns the first of the refusals
/// F1 to F8 that applies, in this order; its offset, in bytes from the file's start, is at most the
/// file's length:
///
/// | cause | when | offset |
/// |---|---|---|
/// | F1 `NoRecord` | fewer than 128 bytes, or the last 128 lack `SAUCE` | the file's length |
/// | F2 `WrongVersion` | the version is not `00` | the version |
/// | F3 `WrongKind` | it is not of type Character/ANSi | DataType |
/// | F4 `CommentsMissing` | comments are counted, and their block is missing | Comments |
/// | F5 `LinesUnstated` | no lines are stated | TInfo2 |
/// | F6 `WidthTooLarge` | the width is above 1024 | TInfo1 |
/// | F7 `LinesTooLarge` | there are more than 8192 lines | TInfo2 |
/// | F8 `BytesAfterEndMark` | a byte after the first end mark is not an end mark | that byte |
pub fn split(file: &[u8]) -> Result<Parts<'_>, Fault>
    ensures ok { IfOk result (IsSplit file.now) }
    ensures err { IfErr result (λ fault. record_fault file.now ≡ Some fault) }
    ensures within { IfErr result (λ fault. fault.offset ≤ length file.now) }
{
    let Some((front, sauce)) = cut_record(file) else {
        return Err(fault(file.len(), Cause::NoRecord));
    };
    let (body, comments) = cut_front(front, &sauce)?;
    let (content, rest) = cut_content(body);
    if let Some(i) = first_other_byte(rest) {
        return Err(fault(content.len() + i, Cause::BytesAfterEndMark));
    }
    Ok(Parts {
        content,
        comments,
        sauce,
        notes: notes_on(body, content, &sauce),
    })
}
