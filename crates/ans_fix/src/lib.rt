//! What mending comes to, tried on a copy: which flags would mend a file, and which would not help it.
//!
//! [`suggested`] says which flags a drawing's own findings call for, and [`fix_for`] whether a mended file comes of
//! them; [`put_flags`] puts them as words. [`tried`] mends a copy, and [`Unhelped`] says which flags do not help.
//! What is suggested is in `specs/Suggested.antt`, and the words are in `specs/FlagsText.antt`.
#![tactic(auto)]

mod copies;
mod fixes;
mod flags_text;
mod suggestions;
mod trials;
mod without_help;

pub use copies::with_room;
pub use fixes::fix_for;
pub use flags_text::put_flags;
pub use suggestions::suggested;
pub use trials::tried;
pub use without_help::Unhelped;
