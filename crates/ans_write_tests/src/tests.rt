//! The characters by example, devices of which one call fails, and the samples that other tests use.

mod devices;
mod samples;

use ans_write::glyph_text;

#[test]
fn bytes_have_characters(rt: HostRuntime) {
    let rows = [
        (0x00, ' '),
        (0x01, '\u{263A}'),
        (0x1F, '\u{25BC}'),
        (0x20, ' '),
        (0x7E, '~'),
        (0x7F, '\u{2302}'),
        (0x80, '\u{00C7}'),
        (0x9E, '\u{20A7}'),
        (0xB0, '\u{2591}'),
        (0xDB, '\u{2588}'),
        (0xE1, '\u{00DF}'),
        (0xFF, '\u{00A0}'),
    ];
    for (byte, glyph) in rows {
        assert_eq!(rt; glyph_text(byte), glyph);
    }
}
