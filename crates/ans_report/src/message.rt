//! What is said where there is no answer.
ghost use Rattle.ans_write.specs.Puts.{Puts};
ghost use Rattle.ans_report.specs.Message.{message_line};

use crate::lines::put_named_line;
use ans_write::Outbox;
use std::io::Write;

/// Puts the line that says on standard error why there is no answer: `anscheck: `, the text, and a
/// line feed.
pub fn put_message<W: Write>(out: &mut Outbox<'_, W>, text: &str)
    ensures { Puts W.contents out.old out.new (message_line text.now) }
{
    put_named_line(out, b"anscheck", text.as_bytes());
}
