//! Examples of files, sequences and texts, one a clause, worked out apart from the definitions.

ghost use Rattle.std.specs.Prelude.{◌≡◌, ◌++◌, [], ◌∷◌, codes, replicate, true, false, Some, None};
ghost use Rattle.ans_model.specs.Bytes.{end_mark};
ghost use Rattle.ans_model.specs.Sequence.TokenKind.{Bell, BackSpace, LineFeed, CarriageReturn, Glyph, Up, Down};
ghost use Rattle.ans_model.specs.Sequence.TokenKind.{Forward, Backward, Place, Clear, EraseLine, Save, Restore};
ghost use Rattle.ans_model.specs.Sequence.TokenKind.{Colours, Wrap, Mode, Keys, Ask, Tab};
ghost use Rattle.ans_model.specs.declared.fault.Cause.TheVariants.{NoRecord, WrongVersion, WrongKind};
ghost use Rattle.ans_model.specs.declared.fault.Cause.TheVariants.{CommentsMissing, LinesUnstated, WidthTooLarge};
ghost use Rattle.ans_model.specs.declared.fault.Cause.TheVariants.{LinesTooLarge, BytesAfterEndMark, BrokenSequence};
ghost use Rattle.ans_model.specs.declared.fault.Cause.TheVariants.{NumberTooLarge, TooManyParameters, EndInSequence};
ghost use Rattle.ans_model.specs.declared.fault.Cause.TheVariants.{UnknownSequence, WrongParameters};
ghost use Rattle.ans_model.specs.declared.fault.Cause.TheVariants.{PrintBelow, PrintUnknownPlace, UnknownCell};
ghost use Rattle.ans_model.specs.declared.note.Note.TheVariants.{WidthAssumed, NoEndMark, SizeDiffers, OddDate};
ghost use Rattle.ans_model.specs.declared.note.Note.TheVariants.{FlagBits, FlagPair};
ghost use Rattle.ans_model.specs.Screen.StartClass.{none_known, all_known};
ghost use Rattle.ans_model.specs.File.Record.{stated_width};
ghost use Rattle.ans_model.specs.File.Layout.{content, comment_block, file_parts};
ghost use Rattle.ans_model.specs.File.Refusals.{fault_at, record_fault};
ghost use Rattle.ans_model.specs.Screen.State.{sized, cell};
ghost use Rattle.ans_model.specs.Sequence.Spelling.{IsUnfinished};
ghost use Rattle.ans_model.specs.Sequence.Reads.{SpellsToken};
ghost use Rattle.ans_model.specs.Verdict.FirstFault.{IsRefused};
ghost use Rattle.ans_model.specs.Text.Characters.{shown_bytes};
ghost use Rattle.ans_model.specs.Text.FaultText.{fault_line};
ghost use Rattle.ans_model.specs.Text.ReportText.{heading_text, report_text, refusal_text, cells_line, Passed};
ghost use Rattle.ans_model.specs.Text.ReportText.{RefusedFor};
ghost use Rattle.ans_model.specs.Text.NeedsText.{needs_text};
ghost use Rattle.ans_model.specs.Text.RecordText.{record_text};
ghost use Rattle.ans_model.specs.Text.TokensText.{TokensText};
ghost use Rattle.ans_laws.specs.TextExamples.{plain, record_with, heading_with, IsRefusedAt};
ghost use Rattle.ans_laws.specs.TextExamples.{hi, sample_record, sample_comment, IsAccepted, IsRefusedAs};
ghost use Rattle.ans_laws.specs.TextExamples.{picture, esc, cut_content, short_forms, other_kinds};

/// Files that are refused, each for one thing.
pub fn refused_files()
    ensures too_short { record_fault (replicate 127 0) ≡ Some (fault_at 127 NoRecord) }
    ensures nothing { record_fault [] ≡ Some (fault_at 0 NoRecord) }
    ensures other_id { IsRefusedAt hi (record plain { id = codes "SAUCX" }) 131 NoRecord }
    ensures other_version { IsRefusedAt hi (record plain { version = codes "01" }) 8 WrongVersion }
    ensures other_file_type { IsRefusedAt hi (record plain { file_type = 2 }) 97 WrongKind }
    ensures other_data_type { IsRefusedAt hi (record plain { data_type = 2 }) 97 WrongKind }
    ensures no_comment_block { IsRefusedAt hi (record plain { comments = 1 }) 107 CommentsMissing }
    ensures room_but_no_comment_block { IsRefusedAt (replicate 68 0x61 ++ end_mark ∷ [])
        (record plain { comments = 1; file_size = 68 }) 173 CommentsMissing }
    ensures other_comment_id { IsRefusedAt (hi ++ codes "COMNX" ++ replicate 64 0x20)
        (record plain { comments = 1 }) 176 CommentsMissing }
    ensures no_lines { IsRefusedAt hi (record plain { lines = 0 }) 101 LinesUnstated }
    ensures width_above_the_limit { IsRefusedAt hi (record plain { width = 1025 }) 99 WidthTooLarge }
    ensures lines_above_the_limit { IsRefusedAt hi (record plain { lines = 8193 }) 101 LinesTooLarge }
    ensures byte_after_the_end_mark { IsRefusedAt (0x61 ∷ end_mark ∷ 0x62 ∷ end_mark ∷ []) plain 2 BytesAfterEndMark }
{}

/// Files with two things to refuse get the first.
pub fn files_refused_twice()
    ensures version_before_kind { IsRefusedAt hi
        (record plain { version = codes "01"; file_type = 2 }) 8 WrongVersion }
    ensures kind_before_comments { IsRefusedAt hi (record plain { file_type = 2; comments = 1 }) 97 WrongKind }
    ensures comments_before_lines { IsRefusedAt hi (record plain { comments = 1; lines = 0 }) 107 CommentsMissing }
    ensures no_lines_before_width { IsRefusedAt hi (record plain { width = 1025; lines = 0 }) 101 LinesUnstated }
    ensures width_before_lines { IsRefusedAt hi (record plain { width = 1025; lines = 8193 }) 99 WidthTooLarge }
    ensures lines_before_bytes { IsRefusedAt (hi ++ 0x61 ∷ []) (record plain { lines = 8193 }) 102 LinesTooLarge }
{}

/// Files that are accepted, and their notes.
pub fn accepted_files()
    ensures plain_one { IsAccepted hi [] plain [] }
    ensures two_end_marks { IsAccepted (hi ++ end_mark ∷ []) [] plain [] }
    ensures content_before_two_end_marks { content (hi ++ end_mark ∷ []) ≡ codes "Hi" }
    ensures no_width { IsAccepted hi [] (record plain { width = 0 }) (WidthAssumed ∷ []) }
    ensures width_assumed { stated_width (record_with (record plain { width = 0 })) ≡ 80 }
    ensures no_end_mark { IsAccepted (codes "Hi") [] plain (NoEndMark ∷ []) }
    ensures record_alone { IsAccepted [] [] (record plain { file_size = 0 }) (NoEndMark ∷ []) }
    ensures most_comments { IsAccepted hi (replicate 16320 0x41)
        (record plain { comments = 255 }) [] }
    ensures end_marks_in_a_comment { IsAccepted hi (replicate 64 end_mark)
        (record plain { comments = 1 }) [] }
    ensures four_notes { IsAccepted hi []
        (record plain { date = replicate 8 0x20; flags = 0xFE; file_size = 9 })
        (SizeDiffers ∷ OddDate ∷ FlagBits ∷ FlagPair ∷ []) }
    ensures end_mark_counted { IsAccepted hi [] (record plain { file_size = 3 }) [] }
    ensures size_two_more { IsAccepted hi [] (record plain { file_size = 4 }) (SizeDiffers ∷ []) }
    ensures size_with_a_high_byte { IsAccepted hi [] (record plain { file_size = 65538 })
        (SizeDiffers ∷ []) }
    ensures letter_in_the_date { IsAccepted hi [] (record plain { date = codes "1996010a" })
        (OddDate ∷ []) }
    ensures blank_in_the_date { IsAccepted hi [] (record plain { date = codes "1996010 " })
        (OddDate ∷ []) }
    ensures flag_bit_5 { IsAccepted hi [] (record plain { flags = 0x20 }) (FlagBits ∷ []) }
    ensures flag_bit_6 { IsAccepted hi [] (record plain { flags = 0x40 }) (FlagBits ∷ []) }
    ensures flag_bit_7 { IsAccepted hi [] (record plain { flags = 0x80 }) (FlagBits ∷ []) }
    ensures spacing_of_both { IsAccepted hi [] (record plain { flags = 0x06 }) (FlagPair ∷ []) }
    ensures ratio_of_both { IsAccepted hi [] (record plain { flags = 0x18 }) (FlagPair ∷ []) }
    ensures ratio_one_spacing_two { IsAccepted hi [] (record plain { flags = 0x0D }) [] }
    ensures ratio_two_spacing_two { IsAccepted hi [] (record plain { flags = 0x15 }) [] }
    ensures spacing_one { IsAccepted hi [] (record plain { flags = 0x02 }) [] }
    ensures ratio_two { IsAccepted hi [] (record plain { flags = 0x10 }) [] }
{}

/// The bytes of the plain file.
pub fn plain_file()
    ensures { hi ++ record_with plain
        ≡ (0x48 ∷ 0x69 ∷ 0x1A ∷ 0x53 ∷ 0x41 ∷ 0x55 ∷ 0x43 ∷ 0x45 ∷ 0x30 ∷ 0x30 ∷ [])
        ++ replicate 35 0x20 ++ replicate 20 0x20 ++ replicate 20 0x20
        ++ (0x31 ∷ 0x39 ∷ 0x39 ∷ 0x36 ∷ 0x30 ∷ 0x31 ∷ 0x30 ∷ 0x31 ∷ [])
        ++ (2 ∷ 0 ∷ 0 ∷ 0 ∷ 1 ∷ 1 ∷ 2 ∷ 0 ∷ 1 ∷ 0 ∷ [])
        ++ replicate 4 0 ++ 0 ∷ 0 ∷ [] ++ replicate 22 0 }
{}

/// Bytes, and the tokens that they are.
#[tactic(auto, using(crate::proofs::ComputedReading::spells))]
pub fn single_bytes()
    ensures bell { SpellsToken Bell (0x07 ∷ []) }
    ensures backspace { SpellsToken BackSpace (0x08 ∷ []) }
    ensures tab { SpellsToken Tab (0x09 ∷ []) }
    ensures line_feed { SpellsToken LineFeed (0x0A ∷ []) }
    ensures carriage_return { SpellsToken CarriageReturn (0x0D ∷ []) }
    ensures zero_is_printed { SpellsToken (Glyph 0x00) (0x00 ∷ []) }
    ensures letter { SpellsToken (Glyph 0x48) (0x48 ∷ []) }
    ensures high_byte { SpellsToken (Glyph 0xDB) (0xDB ∷ []) }
    ensures last_byte { SpellsToken (Glyph 0xFF) (0xFF ∷ []) }
{}

/// Sequences that move the cursor.
#[tactic(auto, using(crate::proofs::ComputedReading::spells))]
pub fn moves_of_the_cursor()
    ensures up_by_two { SpellsToken (Up 2) (esc (codes "[2A")) }
    ensures up_without_a_number { SpellsToken (Up 1) (esc (codes "[A")) }
    ensures up_by_zero { SpellsToken (Up 1) (esc (codes "[0A")) }
    ensures down_without_a_number { SpellsToken (Down 1) (esc (codes "[B")) }
    ensures down_by_two { SpellsToken (Down 2) (esc (codes "[2B")) }
    ensures forward_by_nine { SpellsToken (Forward 9) (esc (codes "[9C")) }
    ensures forward_by_two { SpellsToken (Forward 2) (esc (codes "[2C")) }
    ensures backward_by_two { SpellsToken (Backward 2) (esc (codes "[2D")) }
    ensures backward_by_nine { SpellsToken (Backward 9) (esc (codes "[9D")) }
    ensures backward_by_the_largest_number { SpellsToken (Backward 255) (esc (codes "[255D")) }
    ensures backward_with_leading_zeros { SpellsToken (Backward 255) (esc (codes "[000255D")) }
    ensures place_by_H { SpellsToken (Place 3 1) (esc (codes "[3;1H")) }
    ensures place_in_the_row_below { SpellsToken (Place 2 2) (esc (codes "[2;2H")) }
    ensures place_by_f { SpellsToken (Place 1 3) (esc (codes "[1;3f")) }
    ensures place_with_row_omitted { SpellsToken (Place 1 3) (esc (codes "[;3f")) }
    ensures place_with_column_omitted { SpellsToken (Place 2 1) (esc (codes "[2;f")) }
    ensures place_with_row_alone { SpellsToken (Place 2 1) (esc (codes "[2H")) }
    ensures place_without_numbers { SpellsToken (Place 1 1) (esc (codes "[H")) }
{}

/// Sequences that erase, save, restore, set colours or modes, assign keys or ask.
#[tactic(auto, using(crate::proofs::ComputedReading::spells))]
pub fn sequences_with_a_meaning()
    ensures clear_by_two { SpellsToken Clear (esc (codes "[2J")) }
    ensures erase_without_a_number { SpellsToken EraseLine (esc (codes "[K")) }
    ensures erase_by_zero { SpellsToken EraseLine (esc (codes "[0K")) }
    ensures save { SpellsToken Save (esc (codes "[s")) }
    ensures restore { SpellsToken Restore (esc (codes "[u")) }
    ensures colours_without_a_number { SpellsToken (Colours (0 ∷ [])) (esc (codes "[m")) }
    ensures colours_with_last_omitted { SpellsToken (Colours (1 ∷ 0 ∷ [])) (esc (codes "[1;m")) }
    ensures colours_with_first_omitted { SpellsToken (Colours (0 ∷ 5 ∷ [])) (esc (codes "[;5m")) }
    ensures two_colours { SpellsToken (Colours (1 ∷ 37 ∷ [])) (esc (codes "[1;37m")) }
    ensures five_colours { SpellsToken (Colours (0 ∷ 1 ∷ 5 ∷ 33 ∷ 44 ∷ []))
        (esc (codes "[0;1;5;33;44m")) }
    ensures wrap_on { SpellsToken (Wrap true) (esc (codes "[?7h")) }
    ensures wrap_off { SpellsToken (Wrap false) (esc (codes "[?7l")) }
    ensures wrap_off_by_equals { SpellsToken (Wrap false) (esc (codes "[=7l")) }
    ensures seven_without_a_mark_is_a_mode { SpellsToken Mode (esc (codes "[7h")) }
    ensures cursor_shown_is_a_mode { SpellsToken Mode (esc (codes "[?25h")) }
    ensures two_sevens_are_a_mode { SpellsToken Mode (esc (codes "[?7;7h")) }
    ensures key_with_string { SpellsToken Keys (esc (codes "[13;\"dir\";13p")) }
    ensures key_with_escape_in_string { SpellsToken Keys
        (esc (codes "[\"" ++ esc (codes "[2J\"p"))) }
    ensures key_with_other_quote_in_string { SpellsToken Keys (esc (codes "['a\"b'p")) }
    ensures ask_by_six { SpellsToken Ask (esc (codes "[6n")) }
    ensures sixteen_colours_omitted { SpellsToken (Colours (replicate 16 0))
        (esc (codes "[" ++ replicate 15 0x3B ++ codes "m")) }
{}

/// Sequences that are refused for their meaning.
#[tactic(auto, using(crate::proofs::ComputedReading::refuses))]
pub fn sequences_refused_for_their_meaning()
    ensures unknown_letter { IsRefused (esc (codes "[2t")) UnknownSequence }
    ensures mark_before_n { IsRefused (esc (codes "[?6n")) UnknownSequence }
    ensures mark_before_m { IsRefused (esc (codes "[?7m")) UnknownSequence }
    ensures mark_before_p { IsRefused (esc (codes "[=p")) UnknownSequence }
    ensures mark_before_s { IsRefused (esc (codes "[?7s")) UnknownSequence }
    ensures clear_without_a_number { IsRefused (esc (codes "[J")) WrongParameters }
    ensures clear_with_two_omitted { IsRefused (esc (codes "[;J")) WrongParameters }
    ensures erase_by_one { IsRefused (esc (codes "[1K")) WrongParameters }
    ensures erase_with_two_omitted { IsRefused (esc (codes "[;K")) WrongParameters }
    ensures string_before_m { IsRefused (esc (codes "[\"x\"m")) WrongParameters }
    ensures letter_in_a_string { IsRefused (esc (codes "[\"p\"m")) WrongParameters }
    ensures string_after_a_mark { IsRefused (esc (codes "[?\"7\"h")) WrongParameters }
    ensures string_before_h { IsRefused (esc (codes "[\"7\"h")) WrongParameters }
    ensures save_with_a_number { IsRefused (esc (codes "[1s")) WrongParameters }
    ensures save_with_two_omitted { IsRefused (esc (codes "[;s")) WrongParameters }
    ensures restore_with_a_number { IsRefused (esc (codes "[0u")) WrongParameters }
    ensures ask_by_five { IsRefused (esc (codes "[5n")) WrongParameters }
    ensures ask_without_a_number { IsRefused (esc (codes "[n")) WrongParameters }
    ensures ask_with_first_omitted { IsRefused (esc (codes "[;6n")) WrongParameters }
    ensures up_by_two_numbers { IsRefused (esc (codes "[1;2A")) WrongParameters }
    ensures up_with_two_omitted { IsRefused (esc (codes "[;A")) WrongParameters }
    ensures place_by_three_numbers { IsRefused (esc (codes "[1;1;1H")) WrongParameters }
{}

/// Bytes with which no sequence goes on.
#[tactic(auto, using(crate::proofs::ComputedReading::refuses))]
pub fn broken_sequences()
    ensures no_bracket { IsRefused (esc (codes "(")) BrokenSequence }
    ensures blank_after_a_number { IsRefused (esc (codes "[0;0 ")) BrokenSequence }
    ensures number_after_a_string { IsRefused (esc (codes "[\"a\"1")) BrokenSequence }
    ensures second_mark { IsRefused (esc (codes "[=?")) BrokenSequence }
    ensures mark_after_a_number { IsRefused (esc (codes "[7=")) BrokenSequence }
    ensures number_above_the_limit { IsRefused (esc (codes "[256")) NumberTooLarge }
    ensures seventeen_parameters { IsRefused (esc (codes "[" ++ replicate 16 0x3B))
        TooManyParameters }
{}

/// Sequences that go on.
#[tactic(auto, using(crate::proofs::ComputedReading::stays_open))]
pub fn unfinished_sequences()
    ensures escape_alone { IsUnfinished (esc []) }
    ensures bracket_alone { IsUnfinished (esc (codes "[")) }
    ensures in_a_number { IsUnfinished (esc (codes "[3")) }
    ensures in_a_string { IsUnfinished (esc (codes "[\"" ++ esc (codes "[2J"))) }
    ensures at_the_sixteenth_parameter { IsUnfinished (esc (codes "[" ++ replicate 15 0x3B)) }
{}

/// The texts of contents whose tokens are all read, or that end in a sequence.
pub fn token_texts()
    ensures nothing { TokensText [] None [] }
    ensures cut_in_a_sequence { TokensText cut_content (Some (fault_at 8 EndInSequence))
        (codes "0 7 colours 1;37\n7 1 glyph 48\nat 8: F12 content ends in a sequence\n") }
    ensures short_ones { TokensText short_forms None
        (codes "0 4 up 2\n4 5 place 1;3\n9 5 wrap off\n14 3 colours 0\n"
        ++ codes "17 5 colours 1;0\n22 1 bell\n") }
    ensures other_ones { TokensText other_kinds None
        (codes "0 1 bell\n1 1 backspace\n2 1 linefeed\n3 1 return\n4 1 tab\n"
        ++ codes "5 3 down 1\n8 4 forward 2\n12 4 backward 9\n16 4 clear\n"
        ++ codes "20 3 erase\n23 3 save\n26 3 restore\n29 5 wrap on\n34 6 mode\n"
        ++ codes "40 4 ask\n44 1 glyph ff\n") }
    ensures key_with_string { TokensText (esc (codes "[13;\"dir\";13p"))
        None (codes "0 14 keys\n") }
    ensures key_with_escape { TokensText (esc (codes "[\"" ++ esc (codes "[2J\"p")))
        None (codes "0 9 keys\n") }
    ensures escape_alone { TokensText (esc []) (Some (fault_at 0 EndInSequence))
        (codes "at 0: F12 content ends in a sequence\n") }
    ensures unfinished { TokensText (esc (codes "[3")) (Some (fault_at 0 EndInSequence))
        (codes "at 0: F12 content ends in a sequence\n") }
{}

/// The texts of contents that are refused in their first sequence.
pub fn refused_token_texts()
    ensures number_above_the_limit { IsRefusedAs (codes "[256C") NumberTooLarge (codes "F10 number above 255") }
    ensures no_bracket { IsRefusedAs (codes "(B") BrokenSequence (codes "F9 broken sequence") }
    ensures blank_after_a_number { IsRefusedAs (codes "[0;0 D") BrokenSequence (codes "F9 broken sequence") }
    ensures seventeen_parameters { IsRefusedAs (codes "[" ++ replicate 16 0x3B ++ codes "m") TooManyParameters
        (codes "F11 more than 16 parameters") }
    ensures unknown_letter { IsRefusedAs (codes "[2t") UnknownSequence (codes "F13 unknown sequence") }
    ensures mark_before_n { IsRefusedAs (codes "[?6n") UnknownSequence (codes "F13 unknown sequence") }
    ensures clear_without_a_number { IsRefusedAs (codes "[J") WrongParameters (codes "F14 wrong parameters") }
    ensures erase_by_one { IsRefusedAs (codes "[1K") WrongParameters (codes "F14 wrong parameters") }
    ensures string_before_m { IsRefusedAs (codes "[\"x\"m") WrongParameters (codes "F14 wrong parameters") }
{}

/// The texts of reports and refusals.
pub fn report_texts()
    ensures pass_from_any { report_text (heading_with (sized 2 1) (Some none_known) 15 [])
        (Passed (picture (sized 2 1) (cell 0x48 0x07 ∷ cell 0x69 0x07 ∷ [])) false)
        ≡ codes "size: 2 x 1\nstart: any\ncontent: 15 bytes\nverdict: pass\npicture:\nHi\n" }
    ensures pass_with_cells { report_text (heading_with (sized 2 1) (Some all_known) 2 [])
        (Passed (picture (sized 2 1) (cell 0x48 0x07 ∷ cell 0x69 0x07 ∷ [])) true)
        ≡ codes "size: 2 x 1\nstart: cleared\ncontent: 2 bytes\nverdict: pass\n"
        ++ codes "picture:\nHi\ncells:\n48076907\n" }
    ensures blank_picture { report_text (heading_with (sized 1 1) (Some all_known) 0 [])
        (Passed (picture (sized 1 1) (cell 0x20 0x07 ∷ [])) false)
        ≡ codes "size: 1 x 1\nstart: cleared\ncontent: 0 bytes\nverdict: pass\npicture:\n \n" }
    ensures two_lines { report_text (heading_with (sized 2 2) (Some all_known) 10 [])
        (Passed (picture (sized 2 2)
        (cell 0x61 0x07 ∷ cell 0x62 0x07 ∷ cell 0x20 0x07 ∷ cell 0x20 0x07 ∷ [])) true)
        ≡ codes "size: 2 x 2\nstart: cleared\ncontent: 10 bytes\nverdict: pass\n"
        ++ codes "picture:\nab\n  \ncells:\n61076207\n20072007\n" }
    ensures refusal_from_any { report_text (heading_with (sized 2 1) (Some none_known) 2 [])
        (RefusedFor (fault_at 0 PrintUnknownPlace))
        ≡ codes "size: 2 x 1\nstart: any\ncontent: 2 bytes\nverdict: refused\n"
        ++ codes "at 0: F22 print at an unknown place\n" }
    ensures refusal_alone { refusal_text (fault_at 127 NoRecord)
        ≡ codes "verdict: refused\nat 127: F1 no SAUCE record\n" }
    ensures unknown_cell { fault_line (fault_at 4 (UnknownCell 1 1))
        ≡ codes "at 4: F25 cell stays unknown (row 1, column 1)\n" }
{}

/// The line of a start of which some parts are known names them in their order.
pub fn start_lines()
    ensures two_parts { heading_text
        (heading_with (sized 2 1) (Some (record none_known { cursor = true; colours = true })) 2 [])
        ≡ codes "size: 2 x 1\nstart: known cursor colours\ncontent: 2 bytes\n" }
    ensures all_but_wrap { heading_text
        (heading_with (sized 1 1) (Some (record all_known { wrap = false })) 0 [])
        ≡ codes "size: 1 x 1\nstart: known screen cursor saved colours\ncontent: 0 bytes\n" }
    ensures screen_alone { heading_text
        (heading_with (sized 1 1) (Some (record none_known { screen = true })) 0 [])
        ≡ codes "size: 1 x 1\nstart: known screen\ncontent: 0 bytes\n" }
    ensures saved_alone { heading_text
        (heading_with (sized 1 1) (Some (record none_known { saved = true })) 0 [])
        ≡ codes "size: 1 x 1\nstart: known saved\ncontent: 0 bytes\n" }
    ensures wrap_alone { heading_text
        (heading_with (sized 1 1) (Some (record none_known { wrap = true })) 0 [])
        ≡ codes "size: 1 x 1\nstart: known wrap\ncontent: 0 bytes\n" }
{}

/// The texts of what contents need.
pub fn needs_texts()
    ensures two_parts { needs_text (heading_with (sized 80 34) None 6427 [])
        (record none_known { screen = true; cursor = true })
        ≡ codes "size: 80 x 34\ncontent: 6427 bytes\nneeds: screen cursor\n" }
    ensures each_part { needs_text (heading_with (sized 2 1) None 2 []) all_known
        ≡ codes "size: 2 x 1\ncontent: 2 bytes\nneeds: screen cursor saved colours wrap\n" }
    ensures last_part_with_a_note { needs_text
        (heading_with (sized 80 1) None 2 (NoEndMark ∷ []))
        (record none_known { wrap = true })
        ≡ codes "size: 80 x 1\ncontent: 2 bytes\n"
        ++ codes "note: no end mark after the content\nneeds: wrap\n" }
    ensures no_part { needs_text (heading_with (sized 2 1) None 15 []) none_known
        ≡ codes "size: 2 x 1\ncontent: 15 bytes\nneeds: nothing\n" }
    ensures refusal { report_text (heading_with (sized 2 1) None 3 [])
        (RefusedFor (fault_at 2 PrintBelow))
        ≡ codes "size: 2 x 1\ncontent: 3 bytes\nverdict: refused\n"
        ++ codes "at 2: F20 print below the stated lines\n" }
{}

/// The texts of notes, of glyphs and of cells.
pub fn heading_and_cell_texts()
    ensures four_notes { heading_text
        (heading_with (sized 2 1) (Some all_known) 2 (SizeDiffers ∷ OddDate ∷ FlagBits ∷ FlagPair ∷ []))
        ≡ codes "size: 2 x 1\nstart: cleared\ncontent: 2 bytes\n"
        ++ codes "note: file size differs from the content\n"
        ++ codes "note: date is not eight digits\n"
        ++ codes "note: flag bits 5 to 7 are not zero\nnote: a flag pair is 11\n" }
    ensures two_notes { heading_text
        (heading_with (sized 80 1) (Some none_known) 2 (WidthAssumed ∷ NoEndMark ∷ []))
        ≡ codes "size: 80 x 1\nstart: any\ncontent: 2 bytes\n"
        ++ codes "note: width 0 taken as 80\nnote: no end mark after the content\n" }
    ensures full_block { shown_bytes (0xDB ∷ 0x00 ∷ []) ≡ 0xE2 ∷ 0x96 ∷ 0x88 ∷ 0x20 ∷ [] }
    ensures block_cells { cells_line (cell 0xDB 0x07 ∷ cell 0x00 0x07 ∷ []) ≡ codes "db070007\n" }
    ensures colour_cells { cells_line (cell 0x41 0x9E ∷ []) ≡ codes "419e\n" }
    ensures erased_cells { cells_line (cell 0x61 0x07 ∷ cell 0x20 0x17 ∷ cell 0x20 0x17 ∷ [])
        ≡ codes "610720172017\n" }
{}

/// The text of a record, whose file is accepted.
pub fn record_texts()
    ensures sample_record { record_text (file_parts hi sample_comment sample_record)
        ≡ codes "title: Test\nauthor: Ann\ngroup: \ndate: 19960101\nsize: 2 x 1\n"
        ++ codes "flags: 01\nfont: IBM VGA\nfile size: 2\ncomments: 1\n"
        ++ codes "comment: hello\n" }
    ensures sample_accepted { record_fault
        (hi ++ comment_block 1 sample_comment ++ sample_record) ≡ None }
{}
