//! Small pictures and their bytes, one a clause, worked out apart from the definitions.

ghost use Rattle.std.specs.Prelude.{[], ◌++◌, codes, replicate};
ghost use Rattle.std.specs.List.{concat};
ghost use Rattle.ans_picture_laws.specs.FormExamples.{Becomes, IsDrawn, IsPlaced, cells_in, esc, grey};

/// What changes, if neither bright nor blink goes; else 0, then 1 or 5 if it is set, and both colours.
pub fn colours()
    ensures none { Becomes 0x47 0x47 [] }
    ensures bright { Becomes 0x07 0x0F (esc (codes "[1m")) }
    ensures bright_goes { Becomes 0x0F 0x07 (esc (codes "[0;37;40m")) }
    ensures blink { Becomes 0x1F 0x9F (esc (codes "[5m")) }
    ensures blink_goes { Becomes 0x8F 0x0F (esc (codes "[0;1;37;40m")) }
    ensures bright_goes_from_blink { Becomes 0xCF 0x97 (esc (codes "[0;5;37;44m")) }
    ensures background { Becomes 0x07 0x17 (esc (codes "[44m")) }
    ensures background_goes { Becomes 0x17 0x07 (esc (codes "[40m")) }
    ensures both { Becomes 0x07 0x42 (esc (codes "[32;41m")) }
    ensures other_colours { Becomes 0x74 0x47 (esc (codes "[37;41m")) }
    ensures most { Becomes 0x9C 0x1A (esc (codes "[0;1;32;44m")) }
    ensures all { Becomes 0x00 0xFF (esc (codes "[1;5;37;47m")) }
{}

/// In a row: nothing after the last byte, and no way to the first.
pub fn rows()
    ensures hi { IsDrawn 2 1 (grey (codes "Hi")) (codes "Hi") }
    ensures empty { IsDrawn 2 2 (grey (codes "    ")) [] }
    ensures one { IsDrawn 3 2 (grey (codes "A B   ")) (codes "A B") }
    ensures short { IsDrawn 3 3 (grey (codes "A     B  ")) (codes "A\r\n\r\nB") }
{}

/// Before a full row the row below is opened, if anything is drawn below; after it comes the place of that row.
pub fn full_rows()
    ensures before_a_byte { IsDrawn 2 2 (grey (codes "ABC "))
        (codes "\n" ++ (esc (codes "[AAB") ++ esc (codes "[2HC"))) }
    ensures before_a_full_one { IsDrawn 2 2 (grey (codes "ABCD"))
        (codes "\n" ++ (esc (codes "[AAB") ++ esc (codes "[2HCD"))) }
    ensures before_empty { IsDrawn 2 3 (grey (codes "AB  C "))
        (codes "\n" ++ (esc (codes "[AAB") ++ esc (codes "[2H\r\nC"))) }
    ensures before_a_blank { IsDrawn 2 2 (grey (codes "AB C"))
        (codes "\n" ++ (esc (codes "[AAB") ++ esc (codes "[2H C"))) }
    ensures before_nothing { IsDrawn 2 2 (grey (codes "AB  ")) (codes "AB") }
    ensures one_column { IsDrawn 1 3 (grey (codes "A B"))
        (codes "\n" ++ (esc (codes "[AA") ++ esc (codes "[2H\r\nB"))) }
{}

/// Up to four blanks are printed in white on black. All others are skipped, at most 255 at once.
pub fn gaps()
    ensures four { IsDrawn 6 1 (grey (codes "    A ")) (codes "    A") }
    ensures five { IsDrawn 7 1 (grey (codes "     A ")) (esc (codes "[5CA")) }
    ensures one_in_bright { IsDrawn 3 1 (cells_in 0x0F (codes "A") ++ grey (codes " B"))
        (esc (codes "[1mA") ++ (esc (codes "[C") ++ esc (codes "[0;37;40mB"))) }
    ensures three_in_colour { IsDrawn 5 1
        (cells_in 0x17 (codes "A") ++ (grey (codes "   ") ++ cells_in 0x17 (codes "B")))
        (esc (codes "[44mA") ++ esc (codes "[3CB")) }
    ensures most { IsDrawn 256 1 (grey (replicate 255 0x20 ++ codes "A")) (esc (codes "[255CA")) }
    ensures one_more { IsDrawn 257 1 (grey (replicate 256 0x20 ++ codes "A")) (esc (codes "[255C A")) }
    ensures four_more { IsDrawn 260 1 (grey (replicate 259 0x20 ++ codes "A")) (esc (codes "[255C    A")) }
    ensures five_more { IsDrawn 261 1 (grey (replicate 260 0x20 ++ codes "A"))
        (esc (codes "[255C") ++ esc (codes "[5CA")) }
{}

/// A blank in colour is printed. The background is black before a line end, and before the row below is opened.
/// That is done before the last row too, if its last cell is coloured. Blink counts as a background.
pub fn backgrounds()
    ensures blank_at_the_end { IsDrawn 3 2 (grey (codes "AB") ++ (cells_in 0x17 (codes " ") ++ grey (codes "   ")))
        (codes "\n" ++ (esc (codes "[AAB") ++ (esc (codes "[44m ") ++ esc (codes "[2H")))) }
    ensures line_end { IsDrawn 2 2 (cells_in 0x17 (codes "A") ++ grey (codes " B "))
        (esc (codes "[44mA") ++ esc (codes "[40m\r\nB")) }
    ensures bright_line_end { IsDrawn 2 2 (cells_in 0x0F (codes "A") ++ grey (codes " B "))
        (esc (codes "[1mA\r\n") ++ esc (codes "[0;37;40mB")) }
    ensures blink_line_end { IsDrawn 2 2 (cells_in 0x87 (codes "A") ++ grey (codes " B "))
        (esc (codes "[5mA") ++ esc (codes "[0;37;40m\r\nB")) }
    ensures full { IsDrawn 2 3 (cells_in 0x17 (codes "AB") ++ grey (codes " CD "))
        (codes "\n" ++ (esc (codes "[A") ++ (esc (codes "[44mAB") ++ (esc (codes "[2H") ++ (esc (codes "[40m\n")
        ++ (esc (codes "[A C") ++ esc (codes "[3HD"))))))) }
    ensures full_below_full { IsDrawn 1 3 (cells_in 0x17 (codes "A") ++ (cells_in 0x2A (codes "B") ++ grey (codes " ")))
        (codes "\n" ++ (esc (codes "[A") ++ (esc (codes "[44mA") ++ (esc (codes "[2H") ++ (esc (codes "[40m\n")
        ++ (esc (codes "[A") ++ (esc (codes "[1;32;42mB") ++ esc (codes "[3H")))))))) }
    ensures last { IsDrawn 2 2 (cells_in 0x17 (codes "AB") ++ grey (codes "  "))
        (codes "\n" ++ (esc (codes "[A") ++ (esc (codes "[44mAB") ++ esc (codes "[2H")))) }
    ensures last_in_blink { IsDrawn 2 2 (cells_in 0x87 (codes "AB") ++ grey (codes "  "))
        (codes "\n" ++ (esc (codes "[A") ++ (esc (codes "[5mAB") ++ esc (codes "[2H")))) }
    ensures last_line { IsDrawn 2 1 (cells_in 0x17 (codes "AB")) (esc (codes "[44mAB")) }
{}

/// The place of a row above 255 is home and moves down.
pub fn places()
    ensures second { IsPlaced 2 (esc (codes "[2H")) }
    ensures near { IsPlaced 255 (esc (codes "[255H")) }
    ensures far { IsPlaced 256 (esc (codes "[H") ++ esc (codes "[255B")) }
    ensures farther { IsPlaced 257 (esc (codes "[H") ++ (esc (codes "[255B") ++ esc (codes "[1B"))) }
    ensures most { IsPlaced 8192
        (esc (codes "[H") ++ (concat (replicate 32 (esc (codes "[255B"))) ++ esc (codes "[31B"))) }
{}
