//! The forms of what is taken out.

ghost use Rattle.std.specs.Prelude.{◌≡◌, map, MatchOption};
ghost use Rattle.ans_forms.specs.Table.{entry_of};
ghost use Rattle.ans_forms.specs.Unwanted.{first_form, unwanted_form};

use crate::kinds::{Before, Unwanted};
use crate::pieces::{
    BLINK_SWITCH, BLINKING_CURSOR, BRIGHT_BACKGROUNDS, CURSOR_REPORT, CURSOR_SWITCH,
    FONT_SELECTION, FormPiece, MODE, MUSIC, STATUS_REPORT, TERMINAL_REPORT, TERMINAL_REPORT_0,
    TRUE_COLOUR, behind_form,
};

/// A form, and what it is.
#[derive(Debug, Clone, Copy)]
pub(crate) struct SequenceForm {
    pub kind: Unwanted,
    pub pieces: &'static [FormPiece],
}

/// The forms in the order in which they are looked for: the switches before all other modes.
pub(crate) const FORMS: [SequenceForm; 12] = [
    SequenceForm {
        kind: Unwanted::BrightBackgrounds,
        pieces: &BRIGHT_BACKGROUNDS,
    },
    SequenceForm {
        kind: Unwanted::Switch,
        pieces: &BLINKING_CURSOR,
    },
    SequenceForm {
        kind: Unwanted::Switch,
        pieces: &CURSOR_SWITCH,
    },
    SequenceForm {
        kind: Unwanted::Switch,
        pieces: &BLINK_SWITCH,
    },
    SequenceForm {
        kind: Unwanted::Mode,
        pieces: &MODE,
    },
    SequenceForm {
        kind: Unwanted::FontSelection,
        pieces: &FONT_SELECTION,
    },
    SequenceForm {
        kind: Unwanted::Music,
        pieces: &MUSIC,
    },
    SequenceForm {
        kind: Unwanted::TrueColour,
        pieces: &TRUE_COLOUR,
    },
    SequenceForm {
        kind: Unwanted::Report,
        pieces: &STATUS_REPORT,
    },
    SequenceForm {
        kind: Unwanted::Report,
        pieces: &CURSOR_REPORT,
    },
    SequenceForm {
        kind: Unwanted::Report,
        pieces: &TERMINAL_REPORT,
    },
    SequenceForm {
        kind: Unwanted::Report,
        pieces: &TERMINAL_REPORT_0,
    },
];

/// The first of these forms with which the bytes begin and that may go after what comes before: its kind, and what
/// comes after it.
fn first_form<'a>(
    bytes: &'a [u8],
    before: Before,
    forms: &[SequenceForm],
) -> Option<(Unwanted, &'a [u8])>
    ensures { MatchOption result (first_form before bytes.now (map entry_of forms.now) ≡ None)
        (λ form. first_form before bytes.now (map entry_of forms.now) ≡ Some (form.0, form.1.now)) }
{
    for form in forms {
        if before.may_go(form.kind) {
            if let Some(rest) = behind_form(bytes, form.pieces) {
                return Some((form.kind, rest));
            }
        }
    }
    None
}

/// The first of all forms.
pub(crate) fn unwanted_form(bytes: &[u8], before: Before) -> Option<(Unwanted, &[u8])>
    ensures { MatchOption result (unwanted_form before bytes.now ≡ None)
        (λ form. unwanted_form before bytes.now ≡ Some (form.0, form.1.now)) }
{
    first_form(bytes, before, &FORMS)
}
