//! A file that lacks nothing but the number of its lines.

ghost use Rattle.std.specs.Prelude.{◌≡◌, ◌≤◌, true, false, IfSome, IfNone};
ghost use Rattle.ans_model.specs.Bytes.{most_columns};
ghost use Rattle.ans_model.specs.File.Record.{stated_width};
ghost use Rattle.ans_sauce.specs.RecordBytes.{sauce_bytes};
ghost use Rattle.ans_sauce.specs.WithoutLines.{IsWithoutLines, lacks_lines_alone};

use crate::layout::{body_before, cut_content, cut_record, first_other_byte};
use crate::record::Record;

/// The content and the record of a file that, if it is refused for F5, lacks nothing else: neither F6
/// nor F8 would follow.
#[derive(Debug, Clone, Copy)]
pub struct WithoutLines<'a> {
    /// The bytes up to the first end mark, the comment block or the record.
    pub content: &'a [u8],
    pub sauce: Record<'a>,
}

/// The content and the record of a file, if it has a record, its width is within the limit, and nothing but
/// end marks follows its content. The caller must know that it is refused for F5: version, kind, comments and
/// lines are not looked at. It takes no memory.
pub fn without_lines(file: &[u8]) -> Option<WithoutLines<'_>>
    ensures some { IfSome result (IsWithoutLines file.now) }
    ensures lacks { IfSome result (λ found. lacks_lines_alone file.now ≡ true) }
    ensures some_columns { IfSome result (λ found. 1 ≤ stated_width (sauce_bytes found.sauce)) }
    ensures columns { IfSome result (λ found. stated_width (sauce_bytes found.sauce) ≤ most_columns) }
    ensures none { IfNone result (lacks_lines_alone file.now ≡ false) }
{
    let (front, sauce) = cut_record(file)?;
    if sauce.is_too_wide() {
        return None;
    }
    let (content, rest) = cut_content(body_before(front, &sauce));
    if first_other_byte(rest).is_some() {
        return None;
    }
    Some(WithoutLines { content, sauce })
}
