//! Which command `why` names for a refused drawing.
use super::{WHY, plain_file, run_on};
use std::alloc::AllocError;
use std::process::Abort;

/// Refused drawings: the content, the columns and the lines; and the last lines of what is said of each.
static FIXES: [(&[u8], u16, u16, &[u8]); 18] = [
    // a sequence is refused: taken out if it is known
    (
        b"\x1b[?33hHi",
        2,
        1,
        b"fix: anscheck mend --take-out\nmore: anscheck help F16\n",
    ),
    (
        b"\x1b7",
        2,
        1,
        b"cursor: row 1, column 1\nmore: anscheck help F9\n",
    ),
    // line feeds without a return, where there is none at all and where there is one
    (
        b"a\nb\ncd",
        3,
        3,
        b"fix: anscheck mend --crlf\nmore: anscheck help F20\n",
    ),
    (
        b"a\r\nb\ncde",
        3,
        3,
        b"fix: anscheck mend --crlf --mixed\nmore: anscheck help F20\n",
    ),
    // full rows with a line end: each, and only one
    (
        b"Hi\r\nHo\r\n!",
        2,
        3,
        b"fix: anscheck mend --join-rows\nmore: anscheck help F21\n",
    ),
    (
        b"Hi\r\nHo",
        2,
        2,
        b"fix: anscheck mend --join-rows --mixed\nmore: anscheck help F20\n",
    ),
    // rows over the edge
    (
        b"abc\r\nabcd\r\nabc\r\nabc\r\ne",
        2,
        5,
        b"fix: anscheck mend --join-rows --mixed --columns 4\nmore: anscheck help F20\n",
    ),
    (
        b"abc\r\nabc\r\nabc\r\nabc\r\ne",
        2,
        5,
        b"fix: anscheck mend --join-rows --mixed --columns 3\nmore: anscheck help F20\n",
    ),
    // another width with which the stated lines come out: one, and several
    (
        b"xxxxxxxxxxxxxxxxxxxxxxxxxxxxxxxxxxxxxxxxxxxxxxxxxxxxxxxxxxxx",
        10,
        3,
        b"fix: anscheck mend --columns 20\nmore: anscheck help F20\n",
    ),
    (
        b"Hi!",
        2,
        1,
        b"lines: 2, but the rows look broken\nmore: anscheck help F20\n",
    ),
    // nothing is wrong with the rows: more lines, or fewer line ends
    (
        b"ab\r\nc",
        4,
        1,
        b"fix: anscheck mend --take-out --least-lines\nmore: anscheck help F20\n",
    ),
    (
        b"ab\r\n\r\n",
        4,
        1,
        b"fix: anscheck mend --take-out --least-lines\nmore: anscheck help F21\n",
    ),
    // no lines are stated
    (
        b"ab\r\nc",
        4,
        0,
        b"fix: anscheck mend --least-lines\nmore: anscheck help F5\n",
    ),
    (
        b"a\nb",
        4,
        0,
        b"fix: anscheck mend --crlf --least-lines\nmore: anscheck help F5\n",
    ),
    (
        b"Hi\x1b[6n",
        4,
        0,
        b"found: 0 lines stated\nmore: anscheck help F5\n",
    ),
    // what is mended by hand: a text that was damaged, and another kind of file
    (
        b"\x9b1mA\x9b0mB\n\n",
        8,
        1,
        b"lines: 3\nmore: anscheck help F21\n",
    ),
    (
        b"@X1FA@X07B@X0FC\x1b[6n",
        15,
        1,
        b"are printed as text, first at 0\nmore: anscheck help F17\n",
    ),
    // a number that is too large is in no sequence that is known
    (
        b"\x1b[999D",
        2,
        1,
        b"cursor: row 1, column 1\nmore: anscheck help F10\n",
    ),
];

/// Asserts that a file is refused, and how what is said of it ends.
fn expect_last(
    rt: &(impl Abort + AllocGlobal),
    file: &[u8],
    last: &[u8],
) -> Result<(), AllocError> {
    let ran = run_on(rt, file, &WHY, 4096)?;
    assert!(rt; ran.answer == Ok(false));
    let text = ran.writer.inner().held();
    assert!(rt; text.ends_with(last), "{text:?}");
    Ok(())
}

#[test]
fn commands_are_those_of_the_findings(rt: HostRuntime) -> Result<(), AllocError> {
    for (content, columns, lines, last) in &FIXES {
        let file = plain_file(&rt, content, *columns, *lines)?;
        expect_last(&rt, file.as_slice(), last)?;
    }
    Ok(())
}
