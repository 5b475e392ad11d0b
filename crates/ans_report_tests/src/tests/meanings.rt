//! What each fault and each note means.
use ans_report::{fault_meaning, fault_text, note_meaning, note_text};
use ans_sauce::{Cause, Fault, Note};
use std::process::Abort;

/// Some faults, and the whole text of each.
static FAULTS: [(Cause, &str); 4] = [
    (
        Cause::LinesTooLarge,
        "F7 lines above 8192\n\
        \n\
        The record says that the drawing has more than 8192 lines. If it is not that\n\
        long, the field is damaged.\n\
        \n\
        Set the right number, the two bytes at the offset, low byte first. Split a\n\
        drawing that really is longer. No command does that.\n",
    ),
    (
        Cause::PrintBelow,
        "F20 print below the stated lines\n\
        \n\
        Something is printed below the last line. Usually the rows are broken; only\n\
        sometimes is the record wrong. The hints of 'anscheck why' say which:\n\
        \n\
        \x20 bare line feeds (a staircase)    anscheck mend --crlf FILE -o FIXED\n\
        \x20 line ends after full rows        anscheck mend --join-rows FILE -o FIXED\n\
        \x20 made for another width           anscheck mend --columns N FILE -o FIXED\n\
        \x20 UTF-8                            convert it to code page 437\n\
        \x20 too few lines, picture right     anscheck mend --least-lines FILE -o FIXED\n\
        \n\
        With the first two, --mixed helps if only some rows need it. Without a record\n\
        the width is that of --add-record N.\n\
        \n\
        A wrong width is hinted at only if most rows with a line end run over the edge,\n\
        once each; if there is no line end, and the stated lines come out on a common\n\
        width; or if columns and lines seem to be exchanged. Else look at the picture.\n\
        \n\
        If only line ends, bytes 00h and at most 8 sequences that print nothing follow,\n\
        this removes them:\n\
        \x20 anscheck mend --take-out FILE -o FIXED\n",
    ),
    (
        Cause::PrintUnknownPlace,
        "F22 print at an unknown place\n\
        \n\
        Something is printed before the drawing has said where the cursor is. With the\n\
        cursor elsewhere the picture moves. (This also happens after a full row if wrap\n\
        was never switched on, and after ESC[u without ESC[s.)\n\
        \n\
        This starts the drawing with ESC[?7h ESC[0;37;40m ESC[2J ESC[H ESC[s:\n\
        \x20 anscheck mend FILE -o FIXED\n",
    ),
    (
        Cause::UnknownCell { row: 3, col: 7 },
        "F25 cell stays unknown\n\
        \n\
        At the end some cell depends on what was on the screen before: nothing was\n\
        printed there, or in colours that the drawing never set.\n\
        \n\
        This starts the drawing with ESC[?7h ESC[0;37;40m ESC[2J ESC[H ESC[s:\n\
        \x20 anscheck mend FILE -o FIXED\n\
        By hand, set the colours before you clear: clearing fills the screen with them.\n",
    ),
];

#[test]
fn faults_and_notes_mean_something(rt: HostRuntime) {
    for (cause, text) in &FAULTS {
        assert_eq!(rt; fault_meaning(cause), *text);
    }
    assert_eq!(rt;
        note_meaning(Note::WidthAssumed),
        "N1 width 0 taken as 80\n\
        \n\
        The record does not say how wide the drawing is, and 80 columns are assumed.\n\
        \n\
        If that is wrong, set the width, here to 132:\n\
        \x20 anscheck mend --columns 132 FILE -o FIXED\n"
    );
}

/// Asserts of a text what holds of each: an empty line and at least two parts after the title, in lines of at most 79
/// characters of ASCII, with a command of the program or the words that there is none.
fn expect_parts_after(rt: &impl Abort, title: &str, text: &str) {
    assert!(rt; text.is_ascii() && text.ends_with("\n") && text.contains(title));
    assert!(rt; text.split("\n\n").count() >= 3);
    assert!(rt; text.contains("anscheck mend ") || text.contains("command does"));
    for line in text.split('\n') {
        assert!(rt; line.len() <= 79);
    }
}

#[test]
fn each_text_says_what_it_is_and_how_it_is_fixed(rt: HostRuntime) {
    for cause in &Cause::EACH {
        let fault = Fault {
            offset: 0,
            cause: *cause,
        };
        expect_parts_after(&rt, fault_text(&fault), fault_meaning(cause));
    }
    for note in Note::EACH {
        expect_parts_after(&rt, note_text(&note), note_meaning(note));
    }
}
