//! What each fault and each note is called, what it means, and how it is fixed: a row for each, in their order.
//!
//! A meaning is what `help` prints: its title, an empty line, what it is, and how it is fixed. `docs/FAULTS.md` and the
//! page for browsers have it from here.
ghost use Rattle.std.specs.Prelude.{◌≡◌, ◌-◌, ◌<◌, [], get_or, length, map};
ghost use Rattle.ans_model.specs.Text.FaultText.{fault_text, note_number, note_text};
ghost use Rattle.ans_report.specs.Meanings.{fault_help, fault_meaning, fault_place, note_meaning};

use ans_sauce::{Cause, Fault, Note};

/// What may be asked for of a file with a fault, for it to be fixed.
#[derive(Clone, Copy)]
pub enum Help {
    /// Nothing: a look at the place helps.
    Look,
    /// A record.
    Record,
    /// The least number of lines that is enough.
    LeastLines,
    /// That sequences are taken out.
    TakeOut,
    /// More lines, for a place outside the screen.
    Place,
    /// Rows that end as they should, or more of them.
    Rows,
}

/// The text of a fault, without its offset and position; what may be asked for; and what it means.
type FaultRow = (&'static str, Help, &'static str);

/// The text of a note, and what it means.
type NoteRow = (&'static str, &'static str);

/// The row of a fault. Its meaning begins with its text.
macro_rules! fault {
    ($text:literal, $help:expr, $meaning:literal) => {
        ($text, $help, concat!($text, "\n\n", $meaning))
    };
}

/// The row of a note. Its meaning begins with its name and its text.
macro_rules! note {
    ($number:literal, $text:literal, $meaning:literal) => {
        ($text, concat!("N", $number, " ", $text, "\n\n", $meaning))
    };
}

/// The faults, from F1 on.
static FAULTS: [FaultRow; 24] = [
    fault!(
        "F1 no SAUCE record",
        Help::Record,
        "\
The file does not end in a SAUCE record, so its width and height are unknown.

Often there is a record with a few bytes after it, left by a transfer or an
editor. This cuts off bytes 00h, 0Ah, 0Dh and 1Ah; cut off others yourself:
  anscheck mend FILE -o FIXED
If 'anscheck why' says that a record is damaged, as by a transfer as text, get
the file again.
If there is none, save the drawing again with a record, or add one for 80
columns (--lines N if the smallest number of lines is not what you want):
  anscheck mend --add-record 80 FILE -o FIXED
"
    ),
    fault!(
        "F2 SAUCE version is not 00",
        Help::Look,
        "\
The record's version is not 00, the only one in use. The record is damaged, or
was written by a program that does not follow the standard.

Save the drawing again. If all other fields are right, set the two bytes at the
offset to \"00\". No command does that.
"
    ),
    fault!(
        "F3 not Character/ANSi",
        Help::Look,
        "\
The record says that this is not a still ANSI drawing: that has data type 1 and
file type 1. 'anscheck why' prints the two numbers.

If it is one after all, or plain text, set both bytes to 1, at the offset and
right after it. Export anything else, such as an animation, BinaryText or
XBin, as a still ANSI drawing. No command does that.
"
    ),
    fault!(
        "F4 comment block missing",
        Help::Look,
        "\
The record counts comments, but there is no comment block before it. Something
removed it or moved it.

Save the drawing and its comments again. Or give the comments up. This sets
their number to 0 if nothing is left of them:
  anscheck mend --record FILE -o FIXED
What is left of them could be part of the drawing: delete it yourself.
"
    ),
    fault!(
        "F5 number of lines not stated",
        Help::LeastLines,
        "\
The record does not say how many lines the drawing has. Many older programs
left this at 0.

Look at the hints of 'anscheck why' first: the rows may be broken (see F20). If
the picture is right, this sets the smallest number of lines that works:
  anscheck mend --least-lines FILE -o FIXED
and this sets 25:
  anscheck mend --lines 25 FILE -o FIXED
"
    ),
    fault!(
        "F6 width above 1024",
        Help::Look,
        "\
The record says that the drawing has more than 1024 columns. It is probably
damaged: drawings are usually 80, 132 or 160 columns wide.

Set the right width, here 80 columns:
  anscheck mend --columns 80 FILE -o FIXED
Wider drawings are not checked; cut them into strips.
"
    ),
    fault!(
        "F7 lines above 8192",
        Help::Look,
        "\
The record says that the drawing has more than 8192 lines. If it is not that
long, the field is damaged.

Set the right number, the two bytes at the offset, low byte first. Split a
drawing that really is longer. No command does that.
"
    ),
    fault!(
        "F8 bytes after the end mark",
        Help::Look,
        "\
The byte 1Ah ends a drawing, but something follows it before the comments or
the record. Some programs would play it, others would not.

See the line 'is:' of 'anscheck why'. This counts comments that are not
counted, if only one number is possible, and removes an older record, if that
is all there is:
  anscheck mend --record FILE -o FIXED
Delete an older record with comments yourself. If a second drawing follows it,
split the file there.
An arrow in the drawing is this very byte: use another character, such as '>'.
No command does that.
"
    ),
    fault!(
        "F9 broken sequence",
        Help::TakeOut,
        "\
After ESC comes something that no sequence starts with. Some programs print the
rest as text, others skip it.

This removes font selections, and ANSI music that starts with ESC[|:
  anscheck mend --take-out FILE -o FIXED
Name the font in the record instead. Remove others in an editor; for ESC7 and
ESC8 write ESC[s and ESC[u.
"
    ),
    fault!(
        "F10 number above 255",
        Help::TakeOut,
        "\
A number in a sequence is larger than 255, the most that fits in a byte.
Programs disagree about what it does.

To go to the left edge write a carriage return instead of ESC[999D; to go to
the right edge write ESC[255C instead of ESC[999C, twice if need be. This
removes what a drawing has no use for, such as ESC[?1049h at its beginning:
  anscheck mend --take-out FILE -o FIXED
"
    ),
    fault!(
        "F11 more than 16 parameters",
        Help::TakeOut,
        "\
A sequence has more than 16 numbers. Programs differ in how many they can hold.

Split it into two. Colours are applied one after the other, so two sequences
do the same as one. No command does that for colours.
"
    ),
    fault!(
        "F12 content ends in a sequence",
        Help::TakeOut,
        "\
The drawing stops in the middle of a sequence. It was cut off in a transfer, or
ends in a lone ESC, or a quote inside a sequence is never closed.

If part of the drawing is missing, get it again. Otherwise this removes the
unfinished sequence, unless there is a quote in it:
  anscheck mend --take-out FILE -o FIXED
"
    ),
    fault!(
        "F13 unknown sequence",
        Help::TakeOut,
        "\
The sequence is well formed, but ANSI.SYS has no such letter. Programs that do
not know it skip it or print it.

This removes ANSI music with its notes, 24-bit colours that follow an ordinary
colour, and ESC[c:
  anscheck mend --take-out FILE -o FIXED
The letters b G d X @ P L M S T E F ` a e are sequences of modern terminals.
They repeat a character, move the cursor, or insert, delete or blank something:
removed, they leave holes. Write in their place what the line 'is:' of
'anscheck why' says. Otherwise save the drawing with the 16 DOS colours, or
remove the sequence in an editor.
"
    ),
    fault!(
        "F14 wrong parameters",
        Help::TakeOut,
        "\
ANSI.SYS knows this letter, but not with these numbers.

Write what it knows: ESC[2J clears the screen, ESC[K the rest of a row, ESC[s
saves the cursor and ESC[u restores it. To erase anything else, print blanks.
Remove margins and questions to the terminal; for ESC[5n this does it:
  anscheck mend --take-out FILE -o FIXED
"
    ),
    fault!(
        "F15 key reassigned",
        Help::TakeOut,
        "\
The sequence makes a key on the reader's keyboard type something else. This is
a key bomb; no drawing needs it.

Be wary of where the file came from. This removes all of them:
  anscheck mend --take-out FILE -o FIXED
"
    ),
    fault!(
        "F16 screen mode set",
        Help::TakeOut,
        "\
The sequence changes a setting of the reader's screen: bright backgrounds,
whether the cursor shows, or a DOS screen mode.

This removes it. Bright backgrounds (iCE colours) then go into the record's
flags, where they belong. A mode in the middle of a drawing stays, since it may
clear the screen: look, and remove it in an editor.
  anscheck mend --take-out FILE -o FIXED
"
    ),
    fault!(
        "F17 cursor report asked",
        Help::TakeOut,
        "\
It asks the terminal where the cursor is, and the terminal answers as if you
had typed it. Bulletin boards used this to find out whether callers have ANSI.

This removes it:
  anscheck mend --take-out FILE -o FIXED
"
    ),
    fault!(
        "F19 place outside the screen",
        Help::Place,
        "\
A sequence moves the cursor below the last line (by more than one) or to the
right of the last column. Every screen does something else then.

Often it is the last sequence of a short drawing, going to row 25. If nothing
is printed after it, this removes it, and up to 7 sequences that follow:
  anscheck mend --take-out FILE -o FIXED
If the record has too few lines, this adds some:
  anscheck mend --least-lines FILE -o FIXED
If it goes to the right of the last column, the width may be wrong (see F20).
"
    ),
    fault!(
        "F20 print below the stated lines",
        Help::Rows,
        "\
Something is printed below the last line. Usually the rows are broken; only
sometimes is the record wrong. The hints of 'anscheck why' say which:

  bare line feeds (a staircase)    anscheck mend --crlf FILE -o FIXED
  line ends after full rows        anscheck mend --join-rows FILE -o FIXED
  made for another width           anscheck mend --columns N FILE -o FIXED
  UTF-8                            convert it to code page 437
  too few lines, picture right     anscheck mend --least-lines FILE -o FIXED

With the first two, --mixed helps if only some rows need it. Without a record
the width is that of --add-record N.

A wrong width is hinted at only if most rows with a line end run over the edge,
once each; if there is no line end, and the stated lines come out on a common
width; or if columns and lines seem to be exchanged. Else look at the picture.

If only line ends, bytes 00h and at most 8 sequences that print nothing follow,
this removes them:
  anscheck mend --take-out FILE -o FIXED
"
    ),
    fault!(
        "F21 scrolls",
        Help::Rows,
        "\
A line feed comes below the last line. The screen would scroll and lose its top
row.

If only line ends, bytes 00h and at most 8 sequences that print nothing follow,
this removes them:
  anscheck mend --take-out FILE -o FIXED
If more of the drawing follows, see F20: the rows are probably broken.
"
    ),
    fault!(
        "F22 print at an unknown place",
        Help::Look,
        "\
Something is printed before the drawing has said where the cursor is. With the
cursor elsewhere the picture moves. (This also happens after a full row if wrap
was never switched on, and after ESC[u without ESC[s.)

This starts the drawing with ESC[?7h ESC[0;37;40m ESC[2J ESC[H ESC[s:
  anscheck mend FILE -o FIXED
"
    ),
    fault!(
        "F23 erase at an unknown place",
        Help::Look,
        "\
ESC[K erases the rest of a row before the drawing has said where the cursor is.
With the cursor elsewhere it erases another row.

This starts the drawing with ESC[?7h ESC[0;37;40m ESC[2J ESC[H ESC[s:
  anscheck mend FILE -o FIXED
To keep the rest of the screen, start with ESC[1;1H instead.
"
    ),
    fault!(
        "F24 may scroll",
        Help::Look,
        "\
A line feed comes when the cursor may be below the last line. From some
starting positions the screen scrolls and loses its top row.

This starts the drawing with ESC[?7h ESC[0;37;40m ESC[2J ESC[H ESC[s:
  anscheck mend FILE -o FIXED
If it is then refused for F21, see there.
"
    ),
    fault!(
        "F25 cell stays unknown",
        Help::Look,
        "\
At the end some cell depends on what was on the screen before: nothing was
printed there, or in colours that the drawing never set.

This starts the drawing with ESC[?7h ESC[0;37;40m ESC[2J ESC[H ESC[s:
  anscheck mend FILE -o FIXED
By hand, set the colours before you clear: clearing fills the screen with them.
"
    ),
];

/// The notes, from N1 on.
static NOTES: [NoteRow; 6] = [
    note!(
        1,
        "width 0 taken as 80",
        "\
The record does not say how wide the drawing is, and 80 columns are assumed.

If that is wrong, set the width, here to 132:
  anscheck mend --columns 132 FILE -o FIXED
"
    ),
    note!(
        2,
        "no end mark after the content",
        "\
The drawing runs straight into its comments or record. Viewers that do not know
SAUCE print those as text; many stop at an end mark, the byte 1Ah.

This adds it:
  anscheck mend FILE -o FIXED
"
    ),
    note!(
        3,
        "file size differs from the content",
        "\
The record gives a different number of bytes than the drawing has. Someone
edited the drawing, or bytes were lost.

Check that the drawing is complete. Then this corrects the number:
  anscheck mend FILE -o FIXED
"
    ),
    note!(
        4,
        "date is not eight digits",
        "\
The date is not written as eight digits (19960101), so catalogues cannot sort
it. An empty date counts too.

Write the date into bytes 82 to 89 of the record. No command does that.
"
    ),
    note!(
        5,
        "flag bits 5 to 7 are not zero",
        "\
SAUCE uses five bits of the flags byte, and a higher one is set. The byte is
damaged, or comes from a program with ideas of its own.

Set the flags, byte 105 of the record, to 0, or to 1 if the drawing uses bright
backgrounds. No command does that; 'mend --ice' sets bit 0 only.
"
    ),
    note!(
        6,
        "a flag pair is 11",
        "\
Two pairs of bits in the flags give the letter spacing and the shape of pixels.
One of them is 11, which means nothing.

Set that pair to 01, 10, or 00 for \"not given\". It makes no difference to the
check. No command does that.
"
    ),
];

/// The place of a fault's row: there is no F18.
fn fault_place(cause: &Cause) -> usize
    ensures place { result ≡ fault_place cause.now }
    ensures within { result < 24 }
{
    let number = cause.number() as usize;
    if number < 18 { number - 1 } else { number - 2 }
}

/// The row at this place of the faults.
fn fault_row(rows: &[FaultRow], place: usize) -> FaultRow
    requires { place < length rows.now }
    ensures text { result.0.now ≡ get_or (map (λ row. row.0.now) rows.now) place [] }
    ensures help { result.1 ≡ get_or (map (λ row. row.1) rows.now) place Help.Look }
    ensures meaning { result.2.now ≡ get_or (map (λ row. row.2.now) rows.now) place [] }
{
    rows[place]
}

/// The row of a note.
fn note_row(rows: &[NoteRow], note: Note) -> NoteRow
    requires { length rows.now ≡ 6 }
    ensures text { result.0.now ≡ get_or (map (λ row. row.0.now) rows.now) (note_number note - 1) [] }
    ensures meaning { result.1.now ≡ get_or (map (λ row. row.1.now) rows.now) (note_number note - 1) [] }
{
    rows[note.number() as usize - 1]
}

/// The text of a fault, without its offset and position.
pub fn fault_text(fault: &Fault) -> &'static str
    ensures { result.now ≡ fault_text fault.now.cause }
{
    let (text, _, _) = fault_row(&FAULTS, fault_place(&fault.cause));
    text
}

/// What may be asked for of a file with this fault, for it to be fixed.
pub fn fault_help(cause: &Cause) -> Help
    ensures { result ≡ fault_help cause.now }
{
    let (_, help, _) = fault_row(&FAULTS, fault_place(cause));
    help
}

/// What a fault means, and how it is fixed: its text, an empty line, and more lines of at most 79 columns, each ended
/// by a line feed. It is the same at every offset and position.
pub fn fault_meaning(cause: &Cause) -> &'static str
    ensures { result.now ≡ fault_meaning cause.now }
{
    let (_, _, meaning) = fault_row(&FAULTS, fault_place(cause));
    meaning
}

/// The text of a note.
pub fn note_text(note: &Note) -> &'static str
    ensures { result.now ≡ note_text note.now }
{
    let (text, _) = note_row(&NOTES, *note);
    text
}

/// What a note means, and how it is fixed: its name and text, an empty line, and more lines of at most 79 columns, each
/// ended by a line feed.
pub fn note_meaning(note: Note) -> &'static str
    ensures { result.now ≡ note_meaning note }
{
    let (_, meaning) = note_row(&NOTES, note);
    meaning
}
