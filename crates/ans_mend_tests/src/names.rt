//! Colours that are named, byte for byte.
use ans_mend::{Draft, begins_unnamed};
use std::process::Abort;

/// Contents, the same with their colours named, and whether something is printed before a sequence that takes
/// the names away.
static NAMED: [(&[u8], &[u8], bool); 40] = [
    (b"", b"", false),
    (b"A", b"A", true),
    (b"\x1b[0mA", b"\x1b[0;37;40mA", false),
    (b"\x1b[mA", b"\x1b[m\x1b[37;40mA", false),
    (b"\x1b[00mA", b"\x1b[00;37;40mA", false),
    (b"\x1b[0m", b"\x1b[0m", false),
    (b"\x1b[0mA\x1b[0m", b"\x1b[0;37;40mA\x1b[0m", false),
    (b"\x1b[0m\x1b[0mA", b"\x1b[0m\x1b[0;37;40mA", false),
    (
        b"\x1b[0m\x0a\x0d\x07\x1b[2;3HA",
        b"\x1b[0;37;40m\x0a\x0d\x07\x1b[2;3HA",
        false,
    ),
    (b"\x1b[0m\x1b[2J", b"\x1b[0;37;40m\x1b[2J", false),
    (b"\x1b[0m\x1b[K", b"\x1b[0;37;40m\x1b[K", false),
    (b"\x1b[0m\x09A", b"\x1b[0;37;40m\x09A", false),
    (b"\x1b[0m ", b"\x1b[0;37;40m ", false),
    (b"\x1b[0;1mA", b"\x1b[0;37;40;1mA", false),
    (b"\x1b[1;0mA", b"\x1b[1;0;37;40mA", false),
    (b"\x1b[0;31mA", b"\x1b[0;40;31mA", false),
    (b"\x1b[0;44mA", b"\x1b[0;37;44mA", false),
    (b"\x1b[0;31;44mA", b"\x1b[0;31;44mA", false),
    (b"\x1b[0;7mA", b"\x1b[0;37;40;7mA", false),
    (b"\x1b[31;0mA", b"\x1b[31;0;37;40mA", false),
    (b"\x1b[0m\x1b[31mA", b"\x1b[0;40m\x1b[31mA", false),
    (
        b"\x1b[0m\x1b[31mA\x1b[44mB",
        b"\x1b[0;40m\x1b[31mA\x1b[44mB",
        false,
    ),
    (
        b"\x1b[0m\x1b[1;31m\x1b[44mB",
        b"\x1b[0m\x1b[1;31m\x1b[44mB",
        false,
    ),
    (b"\x1b[0;0;1mA", b"\x1b[0;0;37;40;1mA", false),
    (b"\x1b[;31mA", b"\x1b[m\x1b[40m\x1b[31mA", false),
    (b"\x1b[31;mA", b"\x1b[31;m\x1b[37;40mA", false),
    (b"\x1b[0;;5mA", b"\x1b[0;m\x1b[37;40m\x1b[5mA", false),
    (
        b"\x1b[0;5;1;100mA",
        b"\x1b[0m\x1b[37;40m\x1b[5;1;100mA",
        false,
    ),
    (
        b"\x1b[0;5;1;1;1mA",
        b"\x1b[0m\x1b[37;40m\x1b[5;1;1;1mA",
        false,
    ),
    (
        b"\x1b[0;5;31;1;1;1mA",
        b"\x1b[0m\x1b[40m\x1b[5;31;1;1;1mA",
        false,
    ),
    (
        b"\x1b[0;5;31;1;100mA",
        b"\x1b[0m\x1b[40m\x1b[5;31;1;100mA",
        false,
    ),
    (
        b"\x1b[5;1;1;100;0mA",
        b"\x1b[5;1;1;100;0m\x1b[37;40mA",
        false,
    ),
    (b"\x1b[5;1;1;1;0mA", b"\x1b[5;1;1;1;0m\x1b[37;40mA", false),
    (
        b"\x1b[37;40mA\x1b[0mB",
        b"\x1b[37;40mA\x1b[0;37;40mB",
        false,
    ),
    (
        b"\x1b[0;37mA\x1b[0;40mB\x1b[0;037;040mC",
        b"\x1b[0;40;37mA\x1b[0;37;40mB\x1b[0;037;040mC",
        false,
    ),
    (b"\x1b[1mA\x1b[0mB", b"\x1b[1mA\x1b[0;37;40mB", true),
    (
        b"A\x1b[0;1mB\x1b[mC\x1b[0m",
        b"A\x1b[0;37;40;1mB\x1b[m\x1b[37;40mC\x1b[0m",
        true,
    ),
    (b"\x1b[7m\x1b[37;40mA", b"\x1b[7m\x1b[37;40mA", false),
    (b"\x1b[0;30mA\x1b[1mB", b"\x1b[0;40;30mA\x1b[1mB", false),
    (
        b"\x1b[?7h\x1b[0m\x1b[sA",
        b"\x1b[?7h\x1b[0;37;40m\x1b[sA",
        false,
    ),
];

/// How many bytes an end mark and a record have.
const BEHIND: usize = 129;

#[test]
fn colours_are_named(rt: HostRuntime) {
    for (content, named, unnamed) in &NAMED {
        let mut memory = [0; 1024];
        let count = content.len();
        assert!(rt; count < 64);
        memory[..count].copy_from_slice(content);
        let mut draft = Draft::new(&mut memory, count);
        assert!(rt; draft.give_record(80).is_some());
        assert!(rt; draft.file().len() <= 200 && draft.room() >= 288);
        assert!(rt; draft.name_colours().is_ok());
        let file = draft.file();
        assert!(rt;
            file.len() == named.len() + BEHIND && &file[..named.len()] == *named,
            "{}",
            count
        );
        assert_eq!(rt; begins_unnamed(content), *unnamed);
    }
}
