//! In which kinds players differ over a content, and on which players it shows its picture.
//!
//! [`kinds_used`] counts the kinds in which players differ that arise in a drawing, [`Players::of`] says on
//! which players and from which starts it shows its picture, and [`is_same_where_cleared`] whether it does so
//! from every start as from the cleared one. [`Reach::of`] reports players and taller screens together.
//! [`Names`] are the colours that a drawing has named. Nothing here takes memory.
//!
//! The kinds, and where each arises, are those of `ans_players`. They are found by a walk with a pen of
//! `ans_pens`, which also keeps how sure it is that players are where the profile is ([`sync::Sync`]).
#![tactic(auto)]

mod agreed;
pub mod ink;
pub mod kinds;
mod names;
mod players;
mod reach;
pub mod situations;
pub mod sync;

pub use agreed::least_class_for_players;
pub use kinds::{KindsUsed, kinds_used};
pub use names::{Names, paints};
pub use players::{Players, is_same_where_cleared};
pub use reach::Reach;
pub use situations::omits_number;
