//! A record, as it is written.
use crate::tests::parts_of;
use ans_report::write_record;
use ans_samples::records::Edits;
use ans_samples::{sample_file, writes};
use std::test::Fail;

/// The fields that are changed, and the text of the record that follows `Hi`, an end mark and one comment.
static RECORDS: [(Edits, &str); 2] = [
    (
        &[(7, b"Test"), (42, b"Ann"), (104, b"\x01\x01IBM VGA")],
        "title: Test\nauthor: Ann\ngroup: \ndate: 19960101\nsize: 2 x 1\nflags: 01\n\
        font: IBM VGA\nfile size: 2\ncomments: 1\ncomment: hello\n",
    ),
    (
        &[
            (7, b"\xdb\x00st"),
            (42, b"Ann"),
            (89, b"x\x09"),
            (104, b"\x01\xe1IBM VGA"),
        ],
        "title: █ st\nauthor: Ann\ngroup: \ndate: 1996010x\nsize: 2 x 1\nflags: e1\n\
        font: IBM VGA\nfile size: 9\ncomments: 1\ncomment: hello\n\
        note: file size differs from the content\n\
        note: date is not eight digits\n\
        note: flag bits 5 to 7 are not zero\n",
    ),
];

#[test]
fn a_record_is_written(rt: HostRuntime) -> Result<(), Fail> {
    let front = b"Hi\x1aCOMNThello                                                           ";
    for (edits, text) in &RECORDS {
        let file = sample_file(rt.alloc(), front, edits)?;
        let parts = parts_of(&rt, &file);
        assert!(rt;
            writes(text.as_bytes(), |device| {
                assert!(rt; !device.failed());
                write_record(device, &parts)
            })
        );
    }
    Ok(())
}
