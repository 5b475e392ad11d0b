//! What contradicts itself in words that `clap` takes.

ghost use Rattle.std.specs.Prelude.{◌≡◌};
ghost use Rattle.ans_options.specs.Mistakes.{mistake_text};

/// Words of `mend` or `redraw` that contradict each other, or do not say where a file goes. The program does nothing at
/// them.
#[derive(Debug, Clone, Copy, PartialEq, Eq)]
pub enum Mistake {
    /// `--suggested` and a flag or a number that asks for a change.
    SuggestedWithChanges,
    /// `-o` and `-i`.
    OutputWithInPlace,
    /// `-o` with an empty PATH.
    EmptyOutput,
    /// `-i` where standard input is read: there is no FILE, or `-` is one.
    InPlaceOfInput,
    /// `-` among several files.
    InputAmong,
    /// `-o FOLDER/` where standard input is read, which has no name.
    FolderOfInput,
    /// `-o` with the name of one file, and several files.
    SeveralToOne,
    /// Several files without `-o`, `-i` or `-n`.
    SeveralToOutput,
}

impl Mistake {
    /// Each mistake. Of several that words make the first in this order is reported.
    pub const EACH: [Mistake; 8] = [
        Mistake::SuggestedWithChanges,
        Mistake::OutputWithInPlace,
        Mistake::EmptyOutput,
        Mistake::InPlaceOfInput,
        Mistake::InputAmong,
        Mistake::FolderOfInput,
        Mistake::SeveralToOne,
        Mistake::SeveralToOutput,
    ];

    /// What is wrong, for standard error after `anscheck: `.
    pub fn text(&self) -> &'static str
        ensures { result.now ≡ mistake_text self.now }
    {
        match self {
            Mistake::SuggestedWithChanges => {
                "mend --suggested takes no flag that asks for a change"
            }
            Mistake::OutputWithInPlace => "-o and -i contradict each other: give one of them",
            Mistake::EmptyOutput => "-o needs the name of a file, or of a folder and a slash",
            Mistake::InPlaceOfInput => "-i needs a FILE: standard input cannot be written over",
            Mistake::InputAmong => "'-' is standard input, and cannot be one of several files",
            Mistake::FolderOfInput => {
                "-o FOLDER/ needs a FILE: standard input has no name to write under"
            }
            Mistake::SeveralToOne => {
                "-o of several files needs a folder, whose name ends in a slash"
            }
            Mistake::SeveralToOutput => { "several files need -o FOLDER/, -i or -n" }
        }
    }
}
