//! Laws of plays, each the contract of a function without a body: in [`play_laws`] of what `ans_play` finds, in
//! [`walk_laws`] of what `ans_pens`, `ans_kinds` and `ans_hints` tell. No program is built on them.
#![tactic(auto)]

pub mod play_laws;
pub mod walk_laws;
