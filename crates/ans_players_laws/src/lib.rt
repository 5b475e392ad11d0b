//! Laws of the players of `ans_players`, each the contract of a function without a body: in [`laws`] those of
//! all players, in [`witnesses`] the profile, which is one, and what else is, and in [`examples`] the kinds of
//! short contents. No program is built on them.
#![tactic(auto)]

pub mod examples;
pub mod laws;
pub mod witnesses;
