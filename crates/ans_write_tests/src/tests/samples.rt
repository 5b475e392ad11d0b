//! A sample file byte for byte, and devices until they fail.

use ans_samples::{FailingOnce, Failure, Narrow, sample_file};
use std::io::{Read, Write};
use std::test::Fail;

#[test]
fn fields_are_changed_where_they_fit(rt: HostRuntime) -> Result<(), Fail> {
    let plain = sample_file(rt.alloc(), b"Hi\x1a", &[])?;
    let edited = sample_file(
        rt.alloc(),
        b"",
        &[(7, b"Test"), (104, b"\x01"), (127, b"too long")],
    )?;
    assert!(rt; plain.len() == 131 && edited.len() == 128);
    let fields = [
        (&plain[..10], b"Hi\x1aSAUCE00".as_slice()),
        (
            &plain[85..103],
            b"19960101\x02\x00\x00\x00\x01\x01\x02\x00\x01\x00",
        ),
        (&edited[5..12], b"00Test "),
        (&edited[104..105], b"\x01"),
        (&edited[127..], b"\x00"),
    ];
    for (bytes, expected) in fields {
        assert_eq!(rt; bytes, expected);
    }
    Ok(())
}

#[test]
fn a_narrow_device_fills_up(rt: HostRuntime) {
    let mut device = Narrow::new(2);
    let taken = [
        device.write(b"abc").ok(),
        device.write(b"bc").ok(),
        device.write(b"c").ok(),
    ];
    assert_eq!(rt;
        (taken, device.held()),
        ([Some(1), Some(1), None], b"ab".as_slice())
    );
}

/// The second call fails, as an error or as one of no byte.
#[test]
fn a_device_fails_at_one_call(rt: HostRuntime) {
    for failure in Failure::ALL {
        let mut writer = FailingOnce::new(Narrow::new(4), 2, failure);
        let writes = [
            writer.write(b"a").unwrap_or(0),
            writer.write(b"b").unwrap_or(0),
            writer.write(b"c").unwrap_or(0),
        ];
        let input: &[u8] = b"ab";
        let mut reader = FailingOnce::new(input, 2, failure);
        let mut byte = [0; 1];
        let reads = [
            (reader.read(&mut byte).unwrap_or(0), byte),
            (reader.read(&mut byte).unwrap_or(0), byte),
            (reader.read(&mut byte).unwrap_or(0), byte),
        ];
        assert_eq!(rt;
            (writes, writer.device.held(), writer.calls()),
            ([1, 0, 1], b"ac".as_slice(), 3)
        );
        assert_eq!(rt;
            (reads, reader.calls()),
            ([(1, [b'a']), (0, [b'a']), (1, [b'b'])], 3)
        );
    }
}

#[test]
fn a_device_fails_after_its_bytes(rt: HostRuntime) {
    let mut device = FailingOnce::after(1);
    let answers = [
        (device.write(b"ab").ok(), device.stopped_after(b"a")),
        (device.write(b"b").ok(), device.stopped_after(b"a")),
        (device.write(b"c").ok(), device.stopped_after(b"a")),
    ];
    assert_eq!(rt; answers, [(Some(1), false), (None, true), (Some(1), false)]);
    assert!(rt; !device.stopped_after(b"ac"));
}
