//! Laws of the form.

ghost use Rattle.ans_picture_laws.specs.FormLaws.{ColoursAreAgreed, ColoursAreRead, ColoursAreShort, ColoursKeepNames};
ghost use Rattle.ans_picture_laws.specs.FormLaws.{ColoursLead};
ghost use Rattle.ans_picture_laws.specs.FormLaws.{FormEndsGrey, FormFeedsOn, FormHasNoEndMark, FormIsAgreed};
ghost use Rattle.ans_picture_laws.specs.FormLaws.{FormIsGood};
ghost use Rattle.ans_picture_laws.specs.FormLaws.{FormIsKept, FormIsRead, FormIsSame, FormIsShown, FormNeedsNothing};
ghost use Rattle.ans_picture_laws.specs.FormLaws.{FormTellsThePicture, GoodPicturesAreDrawable};

use ans_players::family::Family;

/// From each of the 256 attributes to each other: the colours make it so and change nothing else, no player
/// parts from another at them, both colours stay named, and their bytes are read as they are meant. They are
/// one sequence at most, of ten bytes at most after ESC and `[`.
pub fn colours_lead_from_each_to_each()
    ensures lead { ColoursLead }
    ensures agreed { ColoursAreAgreed }
    ensures short { ColoursAreShort }
    ensures named { ColoursKeepNames }
    ensures read { ColoursAreRead }
{}

/// The bytes of the form are read as it is meant. They are good from every start, and show the picture,
/// whichever it is: each byte of a cell has only to be one that is printed. They have no end mark, leave the
/// attribute white on black, and no line feed leads below the stated lines.
pub fn form_is_good_from_every_start()
    ensures read { FormIsRead }
    ensures good { FormIsGood }
    ensures needs { FormNeedsNothing }
    ensures unmarked { FormHasNoEndMark }
    ensures grey { FormEndsGrey }
    ensures feeds { FormFeedsOn }
{}

/// From any start, the kinds of difference between players that arise in the form are those of the picture's own bytes,
/// and no others: some control bytes are not drawn everywhere. So its bytes are the same from every start exactly if
/// those kinds are agreed.
pub fn form_is_the_same_on_every_player()
    ensures agreed { FormIsAgreed }
    ensures same { FormIsSame }
{}

/// So a player that draws the picture's own bytes as the profile does shows the picture, from every memory
/// that is in sync with any start.
///
/// What `ans_players_laws::laws::shows_everywhere` says of players and starts holds here too: a player has the
/// stated lines and a spare row, and draws code page 437.
pub fn form_shows_everywhere<P: Family>()
    ensures { FormIsShown P.behaviour P.size P.agreed }
{}

/// Each picture that good content shows can be drawn so, where the content has no end mark, as no content of
/// a file has.
pub fn pictures_of_good_content_are_drawable()
    ensures { GoodPicturesAreDrawable }
{}

/// Pictures of one size have one form only where they are equal, so the form is a normal one. A content that is
/// redrawn already is redrawn as it is, to the byte.
pub fn one_form_of_each_picture()
    ensures tells { FormTellsThePicture }
    ensures kept { FormIsKept }
{}
