//! Laws of the texts that are written: no byte of a file comes out as a control character.

ghost use Rattle.std.specs.Prelude.{◌≡◌, ◌&&◌, ℕ, Bool, false, List, All, IfSome, Some, option_map};
ghost use Rattle.ans_table.specs.NameText.{name_text};
ghost use Rattle.ans_check.specs.Said.{message_of};
ghost use Rattle.ans_check.specs.declared.naming.Naming.{Naming};
ghost use Rattle.ans_model.specs.Bytes.{IsByte};
ghost use Rattle.ans_model.specs.Text.Characters.{glyph_text, shown_bytes};
ghost use Rattle.ans_model.specs.Text.RecordText.{named_line};
ghost use Rattle.ans_check.specs.CommandText.{Reports};
ghost use Rattle.ans_check.specs.Ending.{ending_message};
ghost use Rattle.ans_mend.specs.Mending.{IsMended};
ghost use Rattle.ans_check.specs.declared.exit_status.Ending.{Ending};
ghost use Rattle.ans_mend.specs.MendedText.{mended_text, unmended_text};
ghost use Rattle.ans_mend.specs.declared.outcome.Mended.{Mended};
ghost use Rattle.ans_mend.specs.declared.outcome.Unmended.{Unmended};
ghost use Rattle.ans_model.specs.declared.mends.Mends.{Mends};
ghost use Rattle.ans_options.specs.declared.command.Options.{Options};
ghost use Rattle.ans_redraw.specs.RedrawnText.{redrawn_text, unredrawn_text};
ghost use Rattle.ans_redraw.specs.declared.outcome.Redrawn.{Redrawn};
ghost use Rattle.ans_redraw.specs.declared.outcome.Unredrawn.{Unredrawn};
ghost use Rattle.ans_report.specs.Message.{message_line};
ghost use Rattle.ans_check_laws.specs.CleanTexts.{IsCleanByte, IsCleanText, HasNoControls};
ghost use Rattle.ans_check_laws.specs.CleanTexts.{IsColouredText, IsControl, IsControlByte, IsOneLine, is_for_terminal};

/// No byte is shown by a control character, not even a line feed. So the text by which bytes are
/// shown has none, whatever they are: the bytes of a record's field, of a comment, or of a picture's
/// row.
pub fn bytes_are_shown_clean()
    ensures characters { (b : ℕ) → IsByte b → ¬ IsControl (glyph_text b) }
    ensures texts { (bytes : List ℕ) → All IsByte bytes → HasNoControls (shown_bytes bytes) }
{}

/// The line of a record's field or comment is one line, whatever bytes the field has: its line feed
/// is the report's own.
pub fn fields_are_shown_in_one_line()
    ensures { (name bytes : List ℕ) → All (λ b. ¬ IsControlByte b) name → All IsByte bytes
        → IsOneLine (named_line name (shown_bytes bytes)) }
{}

/// What is written of a file is clean, whatever is asked of it, except for a picture in the colours of a terminal; that
/// is clean between the sequences that set its colours. The line on standard error that says why there is no answer is
/// clean too. Nothing is said here of what clap says of the words.
pub fn texts_are_clean()
    ensures reports { (options : Options) (file text : List ℕ) (passed : Bool)
        → All IsByte file → Reports options file passed text
        → (is_for_terminal options.command && passed) ≡ false → IsCleanText text }
    ensures pictures { (options : Options) (file text : List ℕ) (passed : Bool)
        → All IsByte file → Reports options file passed text → IsColouredText text }
    ensures messages { (ending : Ending) (text : List ℕ)
        → ending_message ending ≡ Some text → IsCleanText (message_line text) }
{}

/// A file's name is shown without control characters, whatever bytes it has. So the line on standard error that says
/// why there is no answer is clean with the name of the input too, and with what may have been meant by it.
pub fn names_are_shown_clean()
    ensures names { (name : List ℕ) → All IsByte name → HasNoControls (name_text name) }
    ensures messages { (naming : Naming) (ending : Ending) (text : List ℕ)
        → IfSome (option_map (λ name. name.now) naming.name) (All IsByte)
        → message_of naming ending ≡ Some text → IsCleanText (message_line text) }
{}

/// What mending says is clean, whatever bytes the file has: what was changed of it, and why there is
/// none.
pub fn what_mending_says_is_clean()
    ensures changes { (mends : Mends) (file draft : List ℕ) (mended : Mended)
        → All IsByte file → IsMended mends file mended draft → IsCleanText (mended_text mended) }
    ensures reasons { (asked without_help : Mends) (reason : Unmended)
        → IsCleanText (unmended_text asked without_help reason) }
{}

/// What redrawing says is clean: what was changed of a file, and why there is none.
pub fn what_redrawing_says_is_clean()
    ensures changes { (redrawn : Redrawn) → IsCleanText (redrawn_text redrawn) }
    ensures reasons { (reason : Unredrawn) → IsCleanText (unredrawn_text reason) }
{}

/// Each byte below 20h of a clean text is a line feed, and none is 7Fh. A text without control characters has neither.
pub fn clean_texts_have_clean_bytes()
    ensures clean { (text : List ℕ) → IsCleanText text → All IsCleanByte text }
    ensures no_controls { (text : List ℕ) → HasNoControls text → All (λ b. ¬ IsControlByte b) text }
{}
