//! The words that the program prints, which help explains by their names.

/// A word as it is printed, and what help says of it: a title, an empty line, and the text.
pub(crate) type WordRow = (&'static str, &'static str);

/// The verdicts, and the start with its parts.
pub(crate) static STARTS: [WordRow; 12] = [
    (
        "verdict",
        "\
verdict: whether the drawing always shows the same picture

  pass                      yes, whatever was on the screen before
  pass on a cleared screen  only where the line 'needs:' is as on a cleared
                            screen; 'table' writes 'cleared'
  refused                   not even on a cleared screen; the line 'fault:' has
                            the reason
  error                     'table' could not read the file

'anscheck check' knows pass and refused only. Without flags it asks for every
start, and so refuses what passes on a cleared screen; for that there is
  anscheck check --cleared FILE
",
    ),
    (
        "pass",
        "\
pass: the drawing shows the same picture whatever was on the screen before

It sets everything that it relies on: it clears the screen, puts the cursor in
its place, and sets the colours and wrap. It needs nothing.

That is so on its record's columns and lines, as ANSI.SYS plays it. For other
viewers see 'anscheck help players'. No check can say whether the picture is
the one that was meant.
",
    ),
    (
        "cleared",
        "\
cleared: the drawing passes on a cleared screen

It shows its picture if each part in 'needs' is as on a screen that was just
cleared, and may show something else otherwise. A viewer of files begins with
such a screen; a terminal mostly does not.

This makes it pass whatever was on the screen before:
  anscheck mend FILE -o FIXED
",
    ),
    (
        "refused",
        "\
refused: the drawing does not pass, not even on a cleared screen

Its record is wrong, or something in the drawing does different things in
different programs, or is printed outside its lines. The line 'fault:' says
what, and where; this explains it, here for F20:
  anscheck help F20
",
    ),
    (
        "error",
        "\
error: the file could not be read, so there is no verdict

'why' has the reason in a line 'error:', 'table' in the column 'fault'. What is
said of the other files is written, and the exit status is 2.
",
    ),
    (
        "start",
        "\
start: what a drawing finds when it begins

It has five parts: what is on the screen, where the cursor is, where the saved
cursor is, which colours are set, and whether wrap is on. A drawing that sets
all this first looks the same from every start. Most do not.

From a cleared screen means: the screen is blank and black, both cursors are at
the top left, the colours are white on black, and wrap is on. These 25 bytes,
without the blanks, make it so whatever was there before:
  ESC[?7h ESC[0;37;40m ESC[2J ESC[H ESC[s

why, needs, show, table and redraw begin with a cleared screen. check begins
with every start; --cleared and the flags --known-... make it assume parts.
",
    ),
    (
        "screen",
        "\
screen: what is on the screen when the drawing begins

A drawing that needs this part shows cells that it never writes or clears. On a
cleared screen they are blank and black; on another one the old text shows.

To clear the screen first, write ESC[2J at the beginning, after the colours.
This does it:
  anscheck mend FILE -o FIXED
",
    ),
    (
        "cursor",
        "\
cursor: where the cursor is

As a part of the start: a drawing that needs it prints before it has placed the
cursor. If the cursor is not at the top left, the picture moves. ESC[H at the
beginning, after ESC[2J, places it. This does it:
  anscheck mend FILE -o FIXED

As a line of 'why', for a drawing that is refused: the row and the column of
the cursor just before the fault, from a cleared screen. Both count from 1.
",
    ),
    (
        "saved",
        "\
saved: where the saved cursor is when the drawing begins

A drawing that needs this part uses ESC[u, which goes back to the saved cursor,
before it has used ESC[s, which saves it.

ESC[s at the beginning, after ESC[H, saves the top left. This does it:
  anscheck mend FILE -o FIXED
",
    ),
    (
        "colours",
        "\
colours: which colours are set when the drawing begins

A drawing that needs this part prints or clears before it has set its colours,
and takes on those that were set before it.

ESC[0;37;40m at the beginning sets white on black. This does it:
  anscheck mend FILE -o FIXED
",
    ),
    (
        "wrap",
        "\
wrap: whether the cursor goes to the next row after the last column

A drawing that needs this part goes on after the last column without having
switched wrap on. With wrap off the cursor stays there, and what is printed
overprints the last column.

ESC[?7h at the beginning switches it on. This does it:
  anscheck mend FILE -o FIXED
",
    ),
    (
        "nothing",
        "\
nothing: the drawing relies on no part of the start

It looks the same whatever was on the screen before. See 'anscheck help start'.
",
    ),
];

/// The lines of `why`.
pub(crate) static LINES: [WordRow; 20] = [
    (
        "size",
        "\
size: how many columns and lines the drawing has, by its record

A record that states no width is taken as 80 columns (note N1). One that states
no lines is refused (F5).
",
    ),
    (
        "because",
        "\
because: where a drawing that passes on a cleared screen shows that it needs it

The offset in bytes from the start of the file, the fault that it has there if
nothing is known of the screen, and the bytes. That is not an error, as long as
the screen is cleared before the drawing. 'anscheck help F22' and the like
explain the fault.
",
    ),
    (
        "from",
        "\
from: the lines 'from the top left:' and 'from the bottom right:', two starts

The line 'because:' names a byte. These two lines say where the cursor is just
before it if the drawing began with the cursor at the top left, and if it began
at the bottom right of the screen. If 'because:' names a cell, they say which
byte and which attribute that cell has in the end, from two different starts.
",
    ),
    (
        "players",
        "\
players: whether the drawing looks the same in other programs than ANSI.SYS

  all     it shows the same picture in each viewer and terminal of the family
  WORDS   the ways in which players differ that the drawing runs into

A line 'players differ:' has the first place of each, and how often it comes.
'anscheck help differences' lists the words. This avoids all but the last two:
  anscheck redraw FILE -o REDRAWN
",
    ),
    (
        "player",
        "\
player: a program that shows drawings: a viewer, an emulator or a terminal

Those of the family do as ANSI.SYS does, except for the differences that help
lists. They have exactly the columns of the drawing, a row more than its lines
at least, and the characters of code page 437. 'players: all' is said of these.
",
    ),
    (
        "differences",
        "\
differences: the ways in which players differ; help explains each word

  wrap-at-once       after the last column
  line-ends          a lone line feed or carriage return
  home-on-clear      the cursor after ESC[2J
  clear-in-colour    the colours of ESC[2J and ESC[K
  save-place-only    what ESC[s keeps
  dos-colours        numbers of colours
  tab-prints         tabs
  line-erased        ESC[K
  wrap-off           ESC[?7l
  stops-at-edge      moves to the right and down
  own-colours        the white and the black of ESC[0m
  page-controls      the bytes 00h, 07h, 08h, 0Bh and 0Ch
  terminal-controls  the other control bytes, and 7Fh
",
    ),
    (
        "taller",
        "\
taller: whether the drawing looks the same on screens with more rows

  same  on every screen of its width with more lines, nothing scrolls, and the
        top shows the same picture, from the same starts

Without this line it may still be the same; only, nothing was shown.
",
    ),
    (
        "taller_screens",
        "\
taller_screens: same, if the drawing looks the same on screens with more rows

See 'anscheck help taller'.
",
    ),
    (
        "fix",
        "\
fix: the command that makes the drawing pass whatever was on the screen before

It writes a copy beside the file, with -fixed in its name:
  anscheck mend FILE -o FIXED
The copy begins with ESC[?7h ESC[0;37;40m ESC[2J ESC[H ESC[s, and its picture
is the one on a cleared screen. Of a refused drawing the line has the flags
that its findings call for. It is there only if a copy is written with them;
else see the hints of 'why' (anscheck help hints).
",
    ),
    (
        "more",
        "\
more: the command that explains the fault of a refused drawing

  anscheck help F21
It says what the fault means, its usual causes, and what to do by hand.
",
    ),
    (
        "everywhere",
        "\
everywhere: the command after which all players show the picture

A line of 'why', if players differ and the drawing passes on a cleared screen:
  anscheck mend --name-colours FILE -o FIXED
if they differ only in own-colours, and else
  anscheck redraw FILE -o REDRAWN
which writes the picture again from scratch; an animation becomes still.
",
    ),
    (
        "faults",
        "\
faults: why a file is refused; 'anscheck help F20' explains one of these

  F1  no SAUCE record                 F13 unknown sequence
  F2  SAUCE version is not 00         F14 wrong parameters
  F3  not Character/ANSi              F15 key reassigned
  F4  comment block missing           F16 screen mode set
  F5  number of lines not stated      F17 cursor report asked
  F6  width above 1024                F19 place outside the screen
  F7  lines above 8192                F20 print below the stated lines
  F8  bytes after the end mark        F21 scrolls
  F9  broken sequence                 F22 print at an unknown place
  F10 number above 255                F23 erase at an unknown place
  F11 more than 16 parameters         F24 may scroll
  F12 content ends in a sequence      F25 cell stays unknown

F1 to F8 are of the record, F22 to F25 depend on the start. There is no F18.
",
    ),
    (
        "fault",
        "\
fault: why a file is refused, and where

The number after 'at' counts the bytes before the place, from the file's start.
Then come the fault and the bytes there. 'anscheck help F20' explains the fault
F20, and 'anscheck help faults' lists all. Once it is fixed, another may show.
",
    ),
    (
        "notes",
        "\
notes: what is odd about a record that is accepted all the same

  N1 width 0 taken as 80
  N2 no end mark after the content
  N3 file size differs from the content
  N4 date is not eight digits
  N5 flag bits 5 to 7 are not zero
  N6 a flag pair is 11

'anscheck help N3' explains one of them.
",
    ),
    (
        "note",
        "\
note: something odd about a record that is accepted all the same

'anscheck help notes' lists the notes, and 'anscheck help N3' explains one.
",
    ),
    (
        "found",
        "\
found: what is in the record, or after the end mark, where it is refused

Such as the version, the data type and the file type, the width or the lines
that are stated, or how many bytes there are after the end mark. For F1: where
there is a record, if there is one, and how many bytes come after it.
",
    ),
    (
        "is",
        "\
is: what the bytes are known as at which the drawing is refused

  ANSI music, a font selection, a reassigned key, a 24-bit colour, a screen
  mode of DOS, the switch for bright backgrounds,
  the switch that hides or shows the cursor:
    anscheck mend --take-out FILE -o FIXED
  comments that the record does not count, or an older record directly after
  the first end mark, with nothing but its own rest after it:
    anscheck mend --record FILE -o FIXED
  an older record that this leaves     delete it
  another drawing                      split it after the first record
  an arrow in the drawing              use another character, such as '>'
  a sequence of modern terminals       write what the line says
  a ZIP archive                        unzip -p FILE > drawing.ans
  another kind of file, or the colour  save it as ANSI in a program that knows
  codes of a board                     it

'anscheck help take-out' says what is removed, and what is not. The font's name
belongs in the record, and bright backgrounds in its non-blink flag.
",
    ),
    (
        "hints",
        "\
hints: what is worth a look; no hint changes the verdict

  bare line feeds            anscheck mend --crlf FILE -o FIXED
  a line end after full rows anscheck mend --join-rows FILE -o FIXED
                             (each with --mixed if only some need it)
  rows wider than the screen,
  another width              anscheck mend --columns N FILE -o FIXED; without
                             a record, --add-record N
  columns and lines          anscheck mend --columns N --lines N FILE -o FIXED
  exchanged
  wrap is off                write ESC[?7h, or shorten the row
  UTF-8, Latin-1             convert the text to code page 437
  bulletin-board codes       save it with colour sequences, such as ESC[0;36m
  modern colours             use the 16 of DOS: 30 to 37, 40 to 47, 1 and 5
  modern off switches        write ESC[0m and the colours that stay
  characters blink           leave it, or anscheck mend --ice FILE -o FIXED
  dark grey on black         leave it, or use a lighter colour
  the font                   leave it, or use characters that all fonts share
  the last lines are empty   leave it, or state fewer lines

Those before 'wrap is off', and UTF-8, can mean that the rows are broken: see
to these before you set more lines.
",
    ),
    (
        "hint",
        "\
hint: something that is worth a look

It has how often, where first, and the flag of 'mend' that helps, if there is
one. 'anscheck help hints' lists what else to do.
",
    ),
    (
        "lines",
        "\
lines: how many lines the drawing has

As a line of 'why': the smallest number with which a refused drawing passes on
a cleared screen. 'but the rows look broken' means that more lines would keep a
picture that nobody meant: see to the hints first. If the picture is right:
  anscheck mend --least-lines FILE -o FIXED
  anscheck mend --lines 25 FILE -o FIXED
The first sets the smallest number, the second 25, each only if the record has
too few or none. In 'table': the number that the record states, 0 for none.
",
    ),
];

/// What `mend` does, its flags, and what they are about.
pub(crate) static FIXES: [WordRow; 13] = [
    (
        "least-lines",
        "\
least-lines: set the smallest number of lines that works

  anscheck mend --least-lines FILE -o FIXED
Only if the record has too few lines or none, and not if the rows look broken.
See 'anscheck help lines'.
",
    ),
    (
        "broken",
        "\
broken: rows that are not those that the drawing was made with

  a staircase     line feeds without carriage returns: mend --crlf
  double-spaced   a line end after every full row: mend --join-rows
  wrapped         rows for other columns than the record states: mend --columns
  shifted         UTF-8, in which a box or a shade takes three bytes

With enough lines such a drawing may pass, with a picture that nobody meant. So
follow the hints of 'why' before you set more lines.
",
    ),
    (
        "content",
        "\
content: the drawing itself, without its comments and its record

It ends before the first end mark, the byte 1Ah, or else before the comments
and the record. Its length is in bytes.
",
    ),
    (
        "record",
        "\
record: the SAUCE record, the last 128 bytes of the file

It begins with SAUCE00 and states the columns and the lines, the font, and the
title, author, group and date. Offsets in it count from 0: byte 96 is the first
of the width. 'anscheck sauce FILE' prints it.

This sets the number of comments to those that there are, if only one number is
possible, and removes an older record directly after the first end mark, if
nothing but its own rest follows it:
  anscheck mend --record FILE -o FIXED
An older record that this leaves is to be deleted by hand.
",
    ),
    (
        "beginning",
        "\
beginning: the safe beginning, 25 bytes, written here with blanks between

  ESC[?7h       switch wrap on
  ESC[0;37;40m  set white on black, both colours by name
  ESC[2J        clear the screen
  ESC[H         go to the top left (ESC[2J does so in DOS, not in terminals)
  ESC[s         save that position, for a later ESC[u

'anscheck mend' adds it to a drawing that relies on its start.
",
    ),
    (
        "try",
        "\
try: flags of 'mend' that may make a file of a drawing that it could not fix

'anscheck why' says which: its hints name the flags. 'mend' writes nothing that
would still be refused, so if a drawing has several faults, give all flags at
once. 'anscheck help crlf' and so on explain each of them.
",
    ),
    (
        "suggested",
        "\
suggested: make the changes that the line fix: of 'why' names

  anscheck mend --suggested FILE -o FIXED
is 'anscheck mend' with the flags of that line. If 'why' has no such line, or
one without flags, it is 'anscheck mend' without flags. A flag that asks for a
change cannot be given with it.
",
    ),
    (
        "take-out",
        "\
take-out: remove sequences for which the drawing is refused

  ESC[?33h, ESC[?33l    bright backgrounds; the record's flag is set instead
  ESC[?25h and the like switches for the cursor and for what blinks
  any other mode        only before anything is printed, cleared or erased
  ESC[0;40 D            a font selection
  ESC[M.. up to 0Eh     ANSI music, with its notes
  ESC[1;r;g;bt          a 24-bit colour directly after an ordinary colour
  ESC[5n ESC[6n ESC[c   questions to the terminal
  a reassigned key      with all between its quotes
  the last sequence     if it is unfinished and there is no quote in it
  at the very end       line ends, bytes 00h, and at most 8 sequences: places
                        (H, f), modes (h, l), colours (m), the cursor saved
                        or restored (ESC[s, ESC[u); as few as must go

All other sequences stay, and the drawing stays refused for them:
  anscheck mend --take-out FILE -o FIXED
",
    ),
    (
        "crlf",
        "\
crlf: add a carriage return before each line feed, if the drawing has none

For a drawing with Unix line ends, whose rows make a staircase:
  anscheck mend --crlf FILE -o FIXED
If it has a carriage return anywhere, nothing is added, unless --mixed is given
too. Together with --take-out use it only once: it may add more if the last
return was removed.
",
    ),
    (
        "join-rows",
        "\
join-rows: remove the line end after each full row

For a drawing whose full rows leave a blank row each, since they wrap and then
have a line end:
  anscheck mend --join-rows FILE -o FIXED
It works if every full row that something is printed after has a line end, and
there are two such rows; with --mixed one such row is enough. Use it only once:
a second time it may remove a blank row that was meant.
",
    ),
    (
        "mixed",
        "\
mixed: let --crlf and --join-rows change a drawing in which only some need it

  anscheck mend --crlf --mixed FILE -o FIXED
  anscheck mend --join-rows --mixed FILE -o FIXED
The first adds a return before each line feed that has none, even if others
have one. The second removes the line ends after full rows, even if other full
rows have none. Look at the picture: what some rows lack may be meant.
",
    ),
    (
        "name-colours",
        "\
name-colours: name white and black after each 0 that is printed in

In a terminal ESC[0m sets the terminal's own colours, which a theme changes;
37 and 40 are the white and the black of ANSI.SYS. This adds them where it
matters:
  anscheck mend --name-colours FILE -o FIXED
'why' does not name own-colours of it any more.
",
    ),
    (
        "add-record",
        "\
add-record: add a SAUCE record for N columns to a drawing that has none

  anscheck mend --add-record 80 FILE -o FIXED
Its texts are empty. Its lines are those of --lines N, or else the smallest
number that works. A record that is there stays as it is; --columns N sets its
width. None is added if SAUCE00 appears in the file, which is usually a record
with something after it, or if more of the drawing follows a byte 1Ah.
",
    ),
];

/// The differences between players.
pub(crate) static DIFFERENCES: [WordRow; 13] = [
    (
        "wrap-at-once",
        "\
wrap-at-once: what happens after a character in the last column

In ANSI.SYS the cursor goes to the next row at once. Terminals wait for the
next character: there a full row and CR LF take one row, in ANSI.SYS two.

Place the cursor after a full row (ESC[5;1H), or go straight on with the next
character, or leave the last column empty. 'anscheck redraw' does the first.
",
    ),
    (
        "line-ends",
        "\
line-ends: what a line feed or a carriage return does by itself

In ANSI.SYS a line feed goes straight down and a return goes to column 1.
DOSBox, ansilove, Moebius and icy_draw return at a line feed too; ansilove does
nothing at a lone return.

End rows in CR LF (see 'anscheck help crlf'). To go straight down write ESC[B.
",
    ),
    (
        "home-on-clear",
        "\
home-on-clear: where the cursor is after ESC[2J

ANSI.SYS moves it to the top left. In terminals it stays where it is.

Write ESC[H directly after ESC[2J.
",
    ),
    (
        "clear-in-colour",
        "\
clear-in-colour: the colours of what ESC[2J and ESC[K clear

ANSI.SYS clears in the colours that are set. ansilove clears in white on black,
and so does GNU screen, unless its terminal is set to do otherwise (bce).

Write ESC[0;37;40m before you clear, and print a coloured background as blanks.
",
    ),
    (
        "save-place-only",
        "\
save-place-only: what ESC[s and ESC[u keep

In ANSI.SYS it is the position of the cursor only. Many terminals keep the
colours too, among them xterm, VTE and tmux; pyte knows neither sequence, and
libvterm goes to the top left at ESC[s.

Place the cursor (ESC[5;1H) instead of using ESC[u.
",
    ),
    (
        "dos-colours",
        "\
dos-colours: numbers of colours that do not mean the same everywhere

All agree on 0, 1, 5, 30 to 37 and 40 to 47. Others do one thing in ANSI.SYS
and another elsewhere: 4 is blue or underlined, 7 is black on white or swaps
the colours, 38;5 sets blink or a modern colour. ansilove does nothing at
ESC[m.

Use only the numbers above, and write ESC[0m for ESC[m.
",
    ),
    (
        "tab-prints",
        "\
tab-prints: whether a tab erases what it passes

In ANSI.SYS a tab prints blanks up to the next stop, one every eight columns.
Terminals move there and print nothing; ansilove always moves eight columns.

Write blanks.
",
    ),
    (
        "line-erased",
        "\
line-erased: whether ESC[K erases the rest of the row

In ANSI.SYS and terminals it does. ansilove ignores it.

Write blanks up to the edge.
",
    ),
    (
        "wrap-off",
        "\
wrap-off: whether wrap can be switched off

In ANSI.SYS ESC[?7l or ESC[=7l does, and what follows overprints the last
column. ansilove ignores both and goes on wrapping; DOSBox prints 7l and goes
on wrapping; terminals ignore ESC[=7l.

Leave wrap on, and print no more than a row has room for.
",
    ),
    (
        "stops-at-edge",
        "\
stops-at-edge: where a move to the right or down stops

In ANSI.SYS a move to the right stops in the last column, and a move down one
row below the last line. In ansilove neither stops there, and other screens
mostly have more rows.

Move no farther than the edge, or place the cursor (ESC[5;1H).
",
    ),
    (
        "page-controls",
        "\
page-controls: what the bytes 00h, 07h, 08h, 0Bh and 0Ch do

In ANSI.SYS 00h, 0Bh and 0Ch are drawn as characters of code page 437, 07h
draws nothing and 08h goes one column left. ansilove draws 07h and 08h.
Terminals ignore 00h and take 0Bh and 0Ch as line feeds.

Leave them out. A blank looks as 00h does. 'redraw' does not help with these.
",
    ),
    (
        "terminal-controls",
        "\
terminal-controls: whether 01h to 06h, 0Eh to 19h, 1Ch to 1Fh and 7Fh are drawn

In ANSI.SYS and most viewers they are characters of code page 437: faces, card
suits, arrows and more. Only terminals do not draw them.

Leave them out if the drawing is for terminals too. 'redraw' does not help; in
a terminal 'anscheck show FILE' shows them.
",
    ),
    (
        "own-colours",
        "\
own-colours: which white and black ESC[0m sets

In ANSI.SYS those of 37 and 40. Terminals have a white and a black of their
own: xterm shows black on white. If this is the only word, the drawing looks
the same in every player of the family in named colours.

Write ESC[0;37;40m for ESC[0m. This does it:
  anscheck mend --name-colours FILE -o FIXED
",
    ),
];

/// The columns of `table`.
pub(crate) static COLUMNS: [WordRow; 17] = [
    (
        "columns",
        "\
columns: what 'table' writes of each file

  verdict               pass, cleared, refused or error
  needs                 the parts of the start that it relies on, or nothing
  players               all, or the ways in which players differ
  needs_on_all_players  needs, on all players of the family
  taller_screens        same, if it looks the same with more rows
  fault, at             why it is refused, and the offset in bytes; of an error
                        the reason
  row, column           the cursor just before the fault, counted from 1
  width, lines          the size that the record states; 0 for none
  content               how many bytes the drawing has
  notes                 N1 to N6
  ice                   yes, if blink means bright backgrounds
  spacing, aspect       8 or 9 pixels; stretch or square
  font, date, title,    texts of the record; with --json also 'comments'
  author, group
  file                  its name

'mend --columns N' sets the width of the record to N, 1 to 1024: for a drawing
that was made for another width. The lines are then those for that width:
  anscheck mend --columns 132 --least-lines FILE -o FIXED
",
    ),
    (
        "needs_on_all_players",
        "\
needs_on_all_players: what the drawing relies on, in all of the family

It is 'needs' for every player of the family, and not only for ANSI.SYS. 'why'
prints it if the two differ. It is said only if 'players' is all or nothing but
own-colours.

An example is a drawing that begins with ESC[2J: ANSI.SYS moves the cursor to
the top left, wherever it was. Terminals do not, so there it needs the cursor.
",
    ),
    (
        "file",
        "\
file: the name of the file

'why' prints it before each answer if it is given several files. In 'table' a
tab is \\t, a line end \\n, a backslash \\\\, and each byte that is not shown
\\xHH.
",
    ),
    (
        "ice",
        "\
ice: bright backgrounds in place of blinking characters, the iCE colours

Bit 0 of byte 105 of the record, the non-blink flag, says that: then 5 in a
colour sequence makes the background bright. 'mend --take-out' sets the flag if
the drawing has them on, by ESC[?33h, at the last blinking character that it
prints. 'mend --ice' sets it in any case.
",
    ),
    (
        "non-blink",
        "\
non-blink: the record's flag for bright backgrounds

See 'anscheck help ice'.
",
    ),
    (
        "spacing",
        "\
spacing: how wide the record wants its letters, 8 or 9 pixels

It does not change the verdict. Empty means that the record does not say.
",
    ),
    (
        "aspect",
        "\
aspect: which shape the record wants pixels to have

stretch: higher than wide, as on old monitors. square: as high as wide. It does
not change the verdict. Empty means that the record does not say.
",
    ),
    (
        "at",
        "\
at: the offset, which counts the bytes before a place, from the file's start
",
    ),
    (
        "row",
        "\
row: the row of the cursor just before the fault, from a cleared screen
",
    ),
    (
        "column",
        "\
column: the column of the cursor just before the fault, from a cleared screen
",
    ),
    (
        "width",
        "\
width: the columns that the record states; 0 is taken as 80
",
    ),
    (
        "font",
        "\
font: the font that the record names, such as IBM VGA

The characters are those of code page 437; other fonts may show others.
",
    ),
    (
        "date",
        "\
date: the record's date, year, month and day in eight digits, as 19960101
",
    ),
    (
        "title",
        "\
title: the record's title of the drawing
",
    ),
    (
        "author",
        "\
author: who made the drawing, by the record
",
    ),
    (
        "group",
        "\
group: the group of the author, by the record
",
    ),
    (
        "comments",
        "\
comments: lines of text before the record, 64 bytes each

The record counts them in byte 104. 'anscheck sauce FILE' prints them, and so
does 'anscheck table --json FILE'.
",
    ),
];
