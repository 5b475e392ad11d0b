//! The line that is said where there is no answer.
use ans_report::put_message;
use ans_samples::{puts, writes};
use ans_write::Outbox;

/// Texts, and the lines that say them.
static LINES: [(&str, &[u8]); 4] = [
    ("", b"anscheck: \n"),
    ("out of memory", b"anscheck: out of memory\n"),
    ("cannot open the file", b"anscheck: cannot open the file\n"),
    ("\u{2591}", b"anscheck: \xe2\x96\x91\n"),
];

#[test]
fn a_message_is_a_line(rt: HostRuntime) {
    for (text, line) in LINES {
        assert!(rt; puts(line, |out| put_message(out, text)));
    }
}

/// A try notices a wrong line, and a failure that is kept back.
#[test]
fn a_wrong_writing_is_told(rt: HostRuntime) {
    assert!(rt; !puts(b"anscheck: no\n", |out| put_message(out, "on")));
    assert!(rt;
        !writes(b"anscheck: on\n", |device| {
            let mut out = Outbox::new(device);
            put_message(&mut out, "on");
            let _ = out.finish();
            Ok(())
        })
    );
}
