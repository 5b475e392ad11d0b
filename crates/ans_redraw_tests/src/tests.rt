//! Pictures and their forms by example, put on a device that takes one byte a call, also on one of which a
//! call fails.
use ans_model::start::Start;
use ans_play::{Picture, Player};
use ans_redraw::{form_length, put_form};
use ans_samples::puts;
use ans_sauce::MAX_FILE;
use ans_screen::PlainGrid;
use std::alloc::{AllocError, Global};
use std::process::Abort;
use std::test::Fail;

/// The picture of a content from the cleared start.
fn picture_of(
    rt: &(impl Abort + AllocGlobal),
    width: usize,
    lines: usize,
    content: &[u8],
) -> Result<Picture<PlainGrid>, Fail> {
    assert!(rt; 1 <= width && width <= 1024 && 1 <= lines && lines <= 8192);
    let mut player = Player::<PlainGrid>::new(rt.alloc(), width, lines, Start::CLEARED)?;
    assert!(rt; player.fed() == 0 && content.len() <= MAX_FILE);
    let end = match player.feed(content) {
        Ok(()) => player.finish(),
        Err(fault) => Err(fault),
    };
    match end {
        Ok(picture) => Ok(picture),
        Err(_) => panic!(rt; "the sample is refused"),
    }
}

/// Whether the form of a picture is the mending, these bytes and `ESC[0m`, and is counted so.
fn is_form(alloc: Global, picture: &Picture<PlainGrid>, drawn: &[u8]) -> Result<bool, AllocError> {
    let mut form = Vec::new(alloc);
    form.extend_from_slice(b"\x1b[?7h\x1b[0;37;40m\x1b[2J\x1b[H\x1b[s")?;
    form.extend_from_slice(drawn)?;
    form.extend_from_slice(b"\x1b[0m")?;
    Ok(form_length(picture) == form.len() && puts(form.as_slice(), |out| put_form(out, picture)))
}

/// A table: screens by their size and a content, and what is expected of each.
macro_rules! rows {
    ($(screen($width:literal x $lines:literal, $content:literal) => $drawn:literal;)*) => {
        [$(($width, $lines, $content, $drawn)),*]
    };
}

/// The width, the lines, a content, and the form of its picture between the mending and the `ESC[0m` at its end.
static FORMS: [(usize, usize, &[u8], &[u8]); 39] = rows! {
    // Nothing but blanks.
    screen(1 x 1, b"") => b"";
    screen(3 x 2, b"") => b"";
    screen(4 x 1, b"\x1b[1;31m\x1b[0m   ") => b"";
    // In a row.
    screen(1 x 1, b"A") => b"A";
    screen(4 x 1, b"one\rtwo") => b"two";
    screen(5 x 1, b"\x1b[3CA") => b"   A";
    screen(9 x 2, b"\x09a") => b"\x1b[8Ca";
    screen(4 x 1, b"\x1b[44m\x1b[K") => b"\x1b[44m    ";
    // Gaps, in white on black and in bright.
    screen(6 x 1, b"\x1b[4CA") => b"    A";
    screen(7 x 1, b"\x1b[5CA") => b"\x1b[5CA";
    screen(3 x 1, b"\x1b[1mA\x1b[0m B") => b"\x1b[1mA\x1b[C\x1b[0;37;40mB";
    screen(256 x 1, b"\x1b[255CA") => b"\x1b[255CA";
    screen(257 x 1, b"\x1b[255C A") => b"\x1b[255C A";
    screen(260 x 1, b"\x1b[255C    A") => b"\x1b[255C    A";
    screen(261 x 1, b"\x1b[255C\x1b[5CA") => b"\x1b[255C\x1b[5CA";
    screen(1024 x 1, b"A\x1b[255C\x1b[255C\x1b[255C\x1b[255C  B") => b"A\x1b[255C\x1b[255C\x1b[255C\x1b[255C  B";
    // Rows that are full, and rows that are not.
    screen(3 x 3, b"A\r\n\r\nB") => b"A\r\n\r\nB";
    screen(2 x 2, b"AB") => b"AB";
    screen(2 x 3, b"AB\x1b[3;1HC") => b"\n\x1b[AAB\x1b[2H\r\nC";
    screen(2 x 2, b"AB C") => b"\n\x1b[AAB\x1b[2H C";
    screen(1 x 3, b"A B") => b"\n\x1b[AA\x1b[2H\r\nB";
    screen(3 x 2, b"ABCDEF") => b"\n\x1b[AABC\x1b[2HDEF";
    screen(2 x 2, b"ABCD") => b"\n\x1b[AAB\x1b[2HCD";
    screen(1 x 2, b"A\x1b[2H\x1b[1mB") => b"\n\x1b[AA\x1b[2H\x1b[1mB";
    screen(2 x 3, b"\x1b[3;2HA") => b"\r\n\r\n A";
    // Coloured backgrounds.
    screen(3 x 2, b"AB\x1b[44m ") => b"\n\x1b[AAB\x1b[44m \x1b[2H";
    screen(3 x 2, b"\x1b[44m A\x1b[40m  B") => b"\x1b[44m A\x1b[40m\r\n B";
    screen(2 x 2, b"\x1b[1mA\r\n\x1b[0mB") => b"\x1b[1mA\r\n\x1b[0;37;40mB";
    screen(2 x 3, b"\x1b[44mAB\x1b[40m CD") => b"\n\x1b[A\x1b[44mAB\x1b[2H\x1b[40m\n\x1b[A C\x1b[3HD";
    screen(3 x 2, b"ABC\x1b[44mD") => b"\n\x1b[AABC\x1b[2H\x1b[44mD";
    screen(2 x 2, b"\x1b[44mAB") => b"\n\x1b[A\x1b[44mAB\x1b[2H";
    screen(3 x 2, b"\x1b[44mABC\x1b[1mDEF") => b"\n\x1b[A\x1b[44mABC\x1b[2H\x1b[1mDEF";
    screen(2 x 2, b"\x1b[5;44mA\x1b[0m \x1b[42mB") => b"\x1b[5;44mA\x1b[0;37;40m\r\n\x1b[42mB";
    screen(2 x 1, b"\x1b[44mAB") => b"\x1b[44mAB";
    screen(2 x 2, b"\x1b[5mAB") => b"\n\x1b[A\x1b[5mAB\x1b[2H";
    screen(1 x 3, b"\x1b[44mA\x1b[1;42mB") => b"\n\x1b[A\x1b[44mA\x1b[2H\x1b[40m\n\x1b[A\x1b[1;42mB\x1b[3H";
    screen(2 x 2, b"\x1b[5mA\r\n\x1b[0mB") => b"\x1b[5mA\x1b[0;37;40m\r\nB";
    // From one attribute to another, by random pairs.
    screen(25 x 1,
        b"\x1b[0;1;35;41mc\x1b[0;36;46mg\x1b[0;5;37;42me\x1b[0;33;45ma\x1b[0;5;32;45md\x1b[0;33;42ma\x1b[0;30;41\
        mc\x1b[0;5;32;47me\x1b[0;5;33;43md\x1b[0;1;32;43mb\x1b[0;5;32;42mf\x1b[0;1;5;36;42mc\x1b[0;1;5;32;45ma\
        \x1b[0;1;5;36;47md\x1b[0;1;34;42mb\x1b[0;1;31;47ma\x1b[0;37;43ma\x1b[0;1;32;42mb\x1b[0;5;34;40mf\x1b[0\
        ;5;34;44mc\x1b[0;5;36;40mb\x1b[0;1;31;46ma\x1b[0;1;5;30;40mf\x1b[0;37;47mg")
        => b"\x1b[1;35;41mc\x1b[0;36;46mg\x1b[5;37;42me\x1b[0;33;45ma\x1b[5;32md\x1b[0;33;42ma\x1b[30;41mc\x1b[\
        5;32;47me\x1b[33;43md\x1b[0;1;32;43mb\x1b[0;5;32;42mf\x1b[1;36mc\x1b[32;45ma\x1b[36;47md\x1b[0;1;3\
        4;42mb\x1b[31;47ma\x1b[0;37;43ma\x1b[1;32;42mb\x1b[0;5;34;40mf\x1b[44mc\x1b[36;40mb\x1b[0;1;31;46m\
        a\x1b[5;30;40mf\x1b[0;37;47mg";
    // Moves, a saved place, and what is written over.
    screen(5 x 2, b"ab\x1b[scd\x1b[u\x1b[31mX\x1b[2;4H\x1b[1;44mY\x1b[A\x1b[D\x1b[0mZ")
        => b"ab\x1b[31mX\x1b[37mZ\r\n   \x1b[1;31;44mY";
};

#[test]
fn pictures_have_their_forms(rt: HostRuntime) -> Result<(), Fail> {
    for (width, lines, content, drawn) in &FORMS {
        let picture = picture_of(&rt, *width, *lines, content)?;
        let holds = is_form(rt.alloc(), &picture, drawn)?;
        assert!(rt; holds);
    }
    Ok(())
}

/// All bytes that are printed.
const PRINTED: &[u8] =
    b"\x00\x01\x02\x03\x04\x05\x06\x0b\x0c\x0e\x0f\x10\x11\x12\x13\x14\x15\x16\x17\x18\x19\x1c\x1d\x1e\x1f !\"#$\
    %&'()*+,-./0123456789:;<=>?@ABCDEFGHIJKLMNOPQRSTUVWXYZ[\\]^_`abcdefghijklmnopqrstuvwxyz{|}~\x7f\x80\x81\
    \x82\x83\x84\x85\x86\x87\x88\x89\x8a\x8b\x8c\x8d\x8e\x8f\x90\x91\x92\x93\x94\x95\x96\x97\x98\x99\x9a\x9b\
    \x9c\x9d\x9e\x9f\xa0\xa1\xa2\xa3\xa4\xa5\xa6\xa7\xa8\xa9\xaa\xab\xac\xad\xae\xaf\xb0\xb1\xb2\xb3\xb4\xb5\
    \xb6\xb7\xb8\xb9\xba\xbb\xbc\xbd\xbe\xbf\xc0\xc1\xc2\xc3\xc4\xc5\xc6\xc7\xc8\xc9\xca\xcb\xcc\xcd\xce\xcf\
    \xd0\xd1\xd2\xd3\xd4\xd5\xd6\xd7\xd8\xd9\xda\xdb\xdc\xdd\xde\xdf\xe0\xe1\xe2\xe3\xe4\xe5\xe6\xe7\xe8\xe9\
    \xea\xeb\xec\xed\xee\xef\xf0\xf1\xf2\xf3\xf4\xf5\xf6\xf7\xf8\xf9\xfa\xfb\xfc\xfd\xfe\xff";

#[test]
fn printed_bytes_stay_as_they_are(rt: HostRuntime) -> Result<(), Fail> {
    let picture = picture_of(&rt, 249, 1, PRINTED)?;
    let holds = is_form(rt.alloc(), &picture, PRINTED)?;
    assert!(rt; holds);
    Ok(())
}
