//! Checksums of pictures. Those that are expected are what `sha256sum` gives of the bytes that the recipe for duplicate
//! pictures puts together.
use ans_model::start::Start;
use ans_play::{Picture, Player};
use ans_sauce::MAX_FILE;
use ans_screen::PlainGrid;
use ans_sums::picture_sum;
use std::process::Abort;
use std::test::Fail;

/// The picture of a content from the cleared start.
fn picture_of(
    rt: &(impl Abort + AllocGlobal),
    width: usize,
    lines: usize,
    content: &[u8],
) -> Result<Picture<PlainGrid>, Fail> {
    assert!(rt; 1 <= width && width <= 1024 && 1 <= lines && lines <= 8192);
    let mut player = Player::<PlainGrid>::new(rt.alloc(), width, lines, Start::CLEARED)?;
    assert!(rt; player.fed() == 0 && content.len() <= MAX_FILE);
    let end = match player.feed(content) {
        Ok(()) => player.finish(),
        Err(fault) => Err(fault),
    };
    match end {
        Ok(picture) => Ok(picture),
        Err(_) => panic!(rt; "the sample is refused"),
    }
}

/// A width, lines, a content, and the digits of its picture's sum.
static SUMS: [(usize, usize, &[u8], &[u8]); 8] = [
    (
        4,
        1,
        b"two",
        b"e2f64bac4afba20bf011e2471fd9eec452da8bf39da9bc6b6265e58f81f005b9",
    ),
    (
        4,
        1,
        b"one\rtwo",
        b"e2f64bac4afba20bf011e2471fd9eec452da8bf39da9bc6b6265e58f81f005b9",
    ),
    (
        4,
        1,
        b"\x1b[1;31mxxx\x1b[0m\x1b[Htwo ",
        b"e2f64bac4afba20bf011e2471fd9eec452da8bf39da9bc6b6265e58f81f005b9",
    ),
    (
        4,
        1,
        b"\x1b[31mtwo",
        b"1ec5e0ddd4c02b6745d6f53e26636f57265da9c51c05431d7f75f1280bfb72f4",
    ),
    (
        3,
        2,
        b"",
        b"2095465a40a70e233422eaca2725fd126f4cfc3d60bc6b632ba05a6db63f4166",
    ),
    (
        2,
        3,
        b"",
        b"e8464366f472fd60a01bea0ebc7476ab0d50c674cb64d1f8ab91797e91a20b1d",
    ),
    (
        2,
        3,
        b"AB\x1b[3;1HC",
        b"d5dc631ed061b8da67a6970ff211b22523322086c3d3909b5f26e480f661c47d",
    ),
    (
        256,
        1,
        b"\x1b[255CA",
        b"c2c54a23cfedc16cd6e5b96c17017051af4935d5fdb43da617df8ec42df30107",
    ),
];

#[test]
fn pictures_have_sums(rt: HostRuntime) -> Result<(), Fail> {
    for (width, lines, content, digits) in SUMS {
        let picture = picture_of(&rt, width, lines, content)?;
        let sum = picture_sum(&picture);
        assert_eq!(rt; sum.digits().as_slice(), digits);
    }
    Ok(())
}
