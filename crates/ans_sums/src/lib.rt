//! The checksum of a picture: equal for two drawings that show one picture, whatever else is in their files.
//!
//! [`picture_sum`] is SHA-256 over the line `size: COLUMNS x LINES` and the content that `redraw` gives the picture.
//! `specs/Sums.antt` defines these bytes. That they are the same exactly for one size and one picture is a law of
//! `ans_sums_laws`. Records, comments and fonts do not count.
#![tactic(auto)]

mod sum;

pub use sum::{Sum, picture_sum};
