//! Laws of colours that are named: no product crate depends on this one.
//!
//! Each function here has no body: its contract is what is proved of `ans_mend`'s definitions.
#![tactic(auto)]

ghost use Rattle.ans_names_laws.specs.NameLaws.{CellsStay, NamedIsRead, NoKindIsAdded, NoneOwnIsLeft, NothingToName};
ghost use Rattle.ans_names_laws.specs.NameLaws.{NamedIsShown, OwnNeedNotBeAgreed, TwiceIsOnce, TwiceIsOnceMended};

use ans_players::family::Family;

/// A content that can be read can be read with its colours named: each colour sequence that gets names has their
/// numbers after its last 0, or is followed by one of them there. All other tokens stay.
pub fn named_content_is_read()
    ensures { NamedIsRead }
{}

/// Each cell stays: where a content shows a picture from all starts of a class, it shows the same one with its colours
/// named.
pub fn cells_stay()
    ensures { CellsStay }
{}

/// Own colours show nowhere in a content with its colours named, from whatever start, if nothing is printed or cleared
/// before the first sequence that takes the names away, or both are named there. After the beginning that mending adds
/// they show nowhere at all.
pub fn no_own_colours_are_left()
    ensures { NoneOwnIsLeft }
{}

/// With its colours named a content is the same on each player on which it was so before, from whichever starts.
/// Own colours need not be agreed any more.
pub fn no_kind_is_added()
    ensures none { NoKindIsAdded }
    ensures own { OwnNeedNotBeAgreed }
{}

/// So a content that passes from the cleared start, in which only agreed kinds and own colours arise, shows its picture
/// after the beginning and with its colours named: on every player that does as the profile does in the agreed kinds,
/// from every memory that is in sync with any start.
pub fn named_content_shows_everywhere<P: Family>()
    ensures { NamedIsShown P.behaviour P.size P.agreed }
{}

/// Naming the colours of a content whose colours are named changes no byte, even if the beginning comes before it. It
/// does not get the beginning a second time, and without the beginning what is printed first is as it was.
pub fn naming_twice_is_naming_once()
    ensures once { TwiceIsOnce }
    ensures mended { TwiceIsOnceMended }
{}

/// A content in which own colours never show, from the cleared start, is the same with its colours named.
pub fn nothing_is_named_where_all_is()
    ensures { NothingToName }
{}
