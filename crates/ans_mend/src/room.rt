//! For how many bytes a draft needs room.
ghost use Rattle.std.specs.Prelude.{◌≡◌, ◌+◌, ◌*◌, ◌≤◌, length};
ghost use Rattle.ans_model.specs.Bytes.{longest_file};
ghost use Rattle.ans_mend.specs.MendingRoom.{most_names, most_put};

use crate::line_ends::count_line_feeds;
use ans_model::limits::MAX_FILE;
use ans_model::mends::Mends;

/// How many bytes a record takes with its end mark, and an end mark after the content.
const RECORD_ROOM: usize = 130;

/// How many bytes names of colours are at most, if they are asked for: eight for each byte before the record,
/// an end mark that is added counted, up to the longest file.
fn room_for_names(file: &[u8], mends: &Mends) -> usize
    requires { length file.now ≤ longest_file }
    ensures value { result ≡ most_names mends.now (length file.now) (length file.now + 1) }
    ensures few { result ≤ longest_file }
{
    if mends.name_colours {
        (MAX_FILE - file.len()).min(8 * (file.len() + 1))
    } else {
        0
    }
}

/// How many bytes are added to a file at most: a return before each line feed, names of colours, a record and
/// end marks.
pub fn room_for(file: &[u8], mends: &Mends) -> usize
    requires { length file.now ≤ longest_file }
    ensures value { result ≡ most_put mends.now file.now }
    ensures few { result ≤ 2 * longest_file + 130 }
{
    let names = room_for_names(file, mends);
    if !mends.crlf {
        return names + RECORD_ROOM;
    }
    count_line_feeds(file) + names + RECORD_ROOM
}
