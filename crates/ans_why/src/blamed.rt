//! The bytes that cause a fault of a content.
ghost use Rattle.std.specs.Prelude.{◌≡◌, ◌≤◌, List, ℕ, length};
ghost use Rattle.ans_model.specs.Bytes.{longest_file};
ghost use Rattle.ans_model.specs.Verdict.LastFault.{IsDeserved};
ghost use Rattle.ans_why.specs.Blamed.{AreToBlame, IsReadFirst};

use ans_model::fault::Fault;
use ans_model::size::Size;
use ans_model::start::Start;
use ans_tokens::Scanner;

/// The text that is read first.
fn read_first(bytes: &[u8]) -> &[u8]
    requires { length bytes.now ≤ longest_file }
    ensures { IsReadFirst bytes.now result.now }
{
    let mut scanner = Scanner::new();
    for (i, byte) in bytes.iter().enumerate() {
        match scanner.byte(*byte) {
            Ok(None) => {}
            Ok(Some(_)) => return &bytes[..i + 1],
            Err(_) => return &bytes[..i + 1],
        }
    }
    bytes
}

/// The bytes that cause a fault that the content has from the class: those of the token, or those of
/// the refused sequence up to the byte that decides, or those of the sequence in which the content
/// ends. There are none for F25, a cell that stays unknown.
pub fn bytes_to_blame(content: &[u8], size: Size, start: Start, fault: Fault) -> &[u8]
    requires length { length content.now ≤ longest_file }
    requires deserved { IsDeserved size start content.now fault }
    ensures { AreToBlame size start content.now fault result.now }
{
    read_first(&content[fault.offset..])
}
