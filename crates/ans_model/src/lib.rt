//! The words and definitions that all of the checker shares.
//!
//! The types here are plain data. What they mean is in `specs/`, by rooms: `File`, `Sequence`,
//! `Screen`, `Verdict` and `Text`. Whoever believes these believes what the checker says. The lemmas
//! in `proofs/` are those that the crates above cite; laws and examples of the definitions are in
//! `ans_laws`.
#![tactic(auto)]

pub mod attribute;
pub mod beginning;
pub mod cell;
pub mod destination;
pub mod fault;
pub mod kind;
pub mod limits;
pub mod mark;
pub mod mends;
pub mod note;
pub mod size;
pub mod start;
pub mod tab;
