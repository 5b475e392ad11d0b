//! What is odd about a record that is accepted all the same.

ghost use Rattle.std.specs.Prelude.{◌≡◌};
ghost use Rattle.ans_model.specs.Text.FaultText.{note_number};

/// A note on a record. It refuses nothing.
#[derive(Debug, Clone, Copy, PartialEq, Eq, Default)]
pub enum Note {
    /// N1: the record states the width 0, which counts as 80.
    #[default]
    WidthAssumed,
    /// N2: no end mark follows the content.
    NoEndMark,
    /// N3: the stated file size is neither the content's length nor one more.
    SizeDiffers,
    /// N4: the date is not eight digits.
    OddDate,
    /// N5: one of bits 5 to 7 of the flags is set.
    FlagBits,
    /// N6: a pair of the flags' bits is 11.
    FlagPair,
}

impl Note {
    /// The notes in their order.
    pub const EACH: [Note; 6] = [
        Note::WidthAssumed,
        Note::NoEndMark,
        Note::SizeDiffers,
        Note::OddDate,
        Note::FlagBits,
        Note::FlagPair,
    ];

    /// The number of a note: n for Nn.
    pub fn number(self) -> u32
        ensures { result ≡ note_number self }
    {
        match self {
            Note::WidthAssumed => 1,
            Note::NoEndMark => 2,
            Note::SizeDiffers => 3,
            Note::OddDate => 4,
            Note::FlagBits => 5,
            Note::FlagPair => 6,
        }
    }
}
