//! Whether a mended file comes of what is suggested.

ghost use Rattle.std.specs.Prelude.{◌≡◌, ◌≤◌, IfOk, length};
ghost use Rattle.ans_model.specs.Bytes.{longest_file};
ghost use Rattle.ans_fix.specs.Suggested.{IsFix, IsFixBy, IsFixOf, may_keep_width, with_its_width};

use crate::suggestions::suggested;
use crate::trials::tried;
use ans_model::mends::Mends;
use ans_why::Why;
use std::alloc::{AllocError, Global};

/// What is asked for, if mending a copy so comes to a mended file.
fn fix_by(alloc: Global, file: &[u8], mends: &Mends) -> Result<Option<Mends>, AllocError>
    requires { length file.now ≤ longest_file }
    ensures { IfOk result (IsFixBy mends.now file.now) }
{
    match tried(alloc, file, mends)? {
        Ok(_) => Ok(Some(*mends)),
        Err(_) => Ok(None),
    }
}

/// Whether line ends are to be changed, and the width too but no number of lines, which comes with exchanged columns
/// and lines: the line ends may be all that is wrong.
fn may_keep_width(mends: &Mends) -> bool
    ensures { result ≡ may_keep_width mends.now }
{
    (mends.crlf || mends.join_rows) && mends.columns.is_some() && mends.lines.is_none()
}

fn with_its_width(mends: &Mends) -> Mends
    ensures { result ≡ with_its_width mends.now }
{
    Mends {
        columns: None,
        ..*mends
    }
}

/// What is asked for, if a mended file comes of it: without another width first, if the line ends may be all that is
/// wrong.
fn fix_of(alloc: Global, file: &[u8], mends: &Mends) -> Result<Option<Mends>, AllocError>
    requires { length file.now ≤ longest_file }
    ensures { IfOk result (IsFixOf mends.now file.now) }
{
    if !may_keep_width(mends) {
        return fix_by(alloc, file, mends);
    }
    match fix_by(alloc, file, &with_its_width(mends))? {
        Some(kept) => Ok(Some(kept)),
        None => fix_by(alloc, file, mends),
    }
}

/// What is suggested for a file of which this is said, if mending a copy of it so comes to a mended file. If line ends
/// are to be changed and the width too, but not the lines, only the line ends are if a mended file comes of that.
/// `AllocError` says that memory ran out.
pub fn fix_for(alloc: Global, file: &[u8], why: &Why<'_>) -> Result<Option<Mends>, AllocError>
    requires { length file.now ≤ longest_file }
    ensures { IfOk result (IsFix file.now why.now) }
{
    match suggested(why) {
        Some(mends) => fix_of(alloc, file, &mends),
        None => Ok(None),
    }
}
