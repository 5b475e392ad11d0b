//! The tokens of contents, as they are written.
ghost use Rattle.std.specs.Prelude.{◌≤◌};

use ans_report::{Tried, write_tokens};
use ans_samples::{stops_after, writes};
use ans_sauce::{Cause, Fault, MAX_FILE};
use std::io::{self, Write};
use std::process::Abort;
use std::test::Fail;

macro_rules! fault {
    () => {
        None
    };
    ($offset:literal $cause:ident) => {
        Some(Fault { offset: $offset, cause: Cause::$cause })
    };
}

macro_rules! rows {
    ($($content:literal => $text:literal $(, $offset:literal $cause:ident)?;)*) => {
        [$(($content, $text, fault!($($offset $cause)?))),*]
    };
}

/// The content, the lines of its tokens, and its fault.
static ROWS: [(&[u8], &[u8], Option<Fault>); 18] = rows! {
    b"" => b"";
    b"\x1b[1;37mH\x1b[3" => b"0 7 colours 1;37\n7 1 glyph 48\nat 8: F12 content ends in a sequence\n", 8 EndInSequence;
    b"\x1b[2A\x1b[;3f\x1b[=7l\x1b[m\x1b[1;m\x07"
        => b"0 4 up 2\n4 5 place 1;3\n9 5 wrap off\n14 3 colours 0\n17 5 colours 1;0\n22 1 bell\n";
    b"\x07\x08\n\r\t\x1b[B\x1b[2C\x1b[9D\x1b[2J\x1b[K\x1b[s\x1b[u"
        => b"0 1 bell\n1 1 backspace\n2 1 linefeed\n3 1 return\n4 1 tab\n5 3 down 1\n8 4 forward 2\n\
        12 4 backward 9\n16 4 clear\n20 3 erase\n23 3 save\n26 3 restore\n";
    b"\x1b[?7h\x1b[?25h\x1b[6n\xff" => b"0 5 wrap on\n5 6 mode\n11 4 ask\n15 1 glyph ff\n";
    b"\x1b[13;\"dir\";13p" => b"0 14 keys\n";
    b"\x1b[\"\x1b[2J\"p" => b"0 9 keys\n";
    b"\x1b[3" => b"at 0: F12 content ends in a sequence\n", 0 EndInSequence;
    b"\x1b[256C" => b"at 0: F10 number above 255\n", 0 NumberTooLarge;
    b"\x1b(B" => b"at 0: F9 broken sequence\n", 0 BrokenSequence;
    b"\x1b[0;0 D" => b"at 0: F9 broken sequence\n", 0 BrokenSequence;
    b"\x1b[;;;;;;;;;;;;;;;;m" => b"at 0: F11 more than 16 parameters\n", 0 TooManyParameters;
    b"\x1b[2t" => b"at 0: F13 unknown sequence\n", 0 UnknownSequence;
    b"\x1b[?6n" => b"at 0: F13 unknown sequence\n", 0 UnknownSequence;
    b"\x1b[J" => b"at 0: F14 wrong parameters\n", 0 WrongParameters;
    b"\x1b[1K" => b"at 0: F14 wrong parameters\n", 0 WrongParameters;
    b"\x1b[\"x\"m" => b"at 0: F14 wrong parameters\n", 0 WrongParameters;
    b"Hi\x1b[m\x1b[J!"
        => b"0 1 glyph 48\n1 1 glyph 69\n2 3 colours 0\nat 5: F14 wrong parameters\n", 5 WrongParameters;
};

/// Asserts what is written of a content, and its fault.
fn expect_tokens(rt: &impl Abort, content: &[u8], text: &[u8], fault: Option<Fault>) {
    assert!(rt;
        writes(text, |device| {
            assert!(rt; !device.failed() && content.len() <= MAX_FILE);
            let told = write_tokens(device, content)?;
            assert_eq!(rt; told, fault);
            Ok(())
        })
    );
}

#[test]
fn contents_have_tokens(rt: HostRuntime) {
    for (content, text, fault) in &ROWS {
        expect_tokens(&rt, content, text, *fault);
    }
}

#[test]
fn long_sequences_are_one_token_or_none(rt: HostRuntime) -> Result<(), Fail> {
    let mut quoted = Vec::from_slice(rt.alloc(), b"\x1b[\"")?;
    for _ in 0..100_000u32 {
        quoted.push(0x1B)?;
    }
    let text = b"at 0: F12 content ends in a sequence\n";
    expect_tokens(&rt, quoted.as_slice(), text, fault!(0 EndInSequence));
    let mut zeros = Vec::from_slice(rt.alloc(), b"\x1b[")?;
    for _ in 0..1000u32 {
        zeros.push(b'0')?;
    }
    zeros.extend_from_slice(b"5C")?;
    expect_tokens(&rt, zeros.as_slice(), b"0 1004 forward 5\n", None);
    Ok(())
}

#[test]
fn a_failed_device_is_not_called_again(rt: HostRuntime) -> Result<(), Fail> {
    let bells = vec![in rt.alloc(); 0x07u8; 20_001]?;
    assert!(rt;
        stops_after(
            b"",
            &|device| {
                assert!(rt; !device.failed() && bells.len() <= MAX_FILE);
                write_tokens(device, bells.as_slice())?;
                Ok(())
            },
        )
    );
    Ok(())
}

/// A writer that takes one byte a call, and holds only the last line.
#[derive(Drop)]
struct LastLine {
    held: [u8; 32],
    length: usize,
    ghost within: { length ≤ 32 },
}

impl LastLine {
    fn held(&self) -> &[u8] {
        &self.held[..self.length]
    }
}

impl Write for LastLine {
    fn write(&mut self, buf: &[u8]) -> io::Result<usize> {
        let Some(byte) = buf.first() else {
            return Ok(0);
        };
        let ended = self.length > 0 && self.held[self.length - 1] == b'\n';
        if ended || self.length == self.held.len() {
            self.length = 0;
        }
        self.held[self.length] = *byte;
        self.length += 1;
        Ok(1)
    }

    fn flush(&mut self) -> io::Result<()> {
        Ok(())
    }
}

#[test]
fn glyphs_are_counted_where_the_offset_grows_a_digit(rt: HostRuntime) -> Result<(), Fail> {
    let rows: [(usize, &[u8]); 6] = [
        (10, b"9 1 glyph 61\n"),
        (11, b"10 1 glyph 61\n"),
        (101, b"100 1 glyph 61\n"),
        (1001, b"1000 1 glyph 61\n"),
        (4097, b"4096 1 glyph 61\n"),
        (10_001, b"10000 1 glyph 61\n"),
    ];
    for (count, line) in rows {
        let content = vec![in rt.alloc(); b'a'; count]?;
        assert!(rt; content.len() <= MAX_FILE);
        let mut device = Tried::new(LastLine {
            held: [0; 32],
            length: 0,
        });
        assert_eq!(rt; write_tokens(&mut device, content.as_slice()), Ok(None));
        let device = device.into_inner();
        assert_eq!(rt; device.held(), line);
    }
    Ok(())
}
