//! The judge of the checker, in tests. No program uses this crate.
//!
//! A slow machine plays bytes as plainly as can be: two whole states, from the low and the high start of
//! a class, compared cell by cell. It reads the bytes with a reader of its own. What it finds of them is
//! what the checker has to find of the file made of them: `ans_check::check` on both grids and
//! `ans_check::needs`, and `ans_play::Player` of just the bytes. It shares with the scanner and the
//! player only the plain words of `ans_model`, such as kinds, causes and limits, and what colour
//! parameters do to an attribute.
//!
//! It judges every prefix of each content of `ans_samples`, from all 32 classes of starts, and
//! contents and screens that are too large for these.
//!
//! The examples of `docs/FAULTS.md`, with what the program prints of each, are rows of `anscheck_rows`.
#![tactic(auto)]

#[cfg(test)]
mod tests;
