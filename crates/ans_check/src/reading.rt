//! The whole input.
ghost use Rattle.std.specs.Prelude.{◌≡◌, ◌+◌, ◌<◌, ◌≤◌, ◌↔◌, false, length, IsTrue, IfOk, IfErr, IfSome, IsErrOf};
ghost use Rattle.ans_write.specs.Tried.{has_failed, call_count, inner_of};
ghost use Rattle.ans_model.specs.Bytes.{longest_file};
ghost use Rattle.ans_check.specs.Run.{HasRead, IsOfOpenFile};

use ans_report::{DeviceFault, Tried};
use ans_sauce::MAX_FILE;
use ans_table::Unread;
use std::alloc::Global;
use std::io::Read;

/// How many bytes are asked for at once.
const CHUNK: usize = 65_536;

/// Reads to the end.
pub(crate) fn read_all<R: Read>(alloc: Global, r: &mut Tried<R>) -> Result<Vec<u8>, Unread>
    requires { has_failed r.old ≡ false }
    ensures whole { IfOk result (λ v.
        HasRead (R.remaining (inner_of r.old)) (R.remaining (inner_of r.new)) v.items) }
    ensures device { IsErrOf result Unread.ReadFailed ↔ IsTrue (has_failed r.new) }
    ensures too_long { IfSome (R.remaining (inner_of r.old)) (λ xs.
        IfSome (R.remaining (inner_of r.new)) (λ ys.
        IsErrOf result Unread.TooLong ↔ (longest_file + length ys < length xs))) }
    ensures reading { IfErr result IsOfOpenFile }
    ensures calls { call_count r.new ≤ call_count r.old + (longest_file + 2) }
{
    let mut chunk = [0u8; CHUNK];
    let mut all = Vec::new(alloc);
    loop {
        let n = match r.read_some(&mut chunk) {
            Ok(n) => n,
            Err(DeviceFault) => return Err(Unread::ReadFailed),
        };
        if n == 0 {
            return Ok(all);
        }
        if n > MAX_FILE - all.len() {
            return Err(Unread::TooLong);
        }
        if all.extend_from_slice(&chunk[..n]).is_err() {
            return Err(Unread::Memory);
        }
    }
}
