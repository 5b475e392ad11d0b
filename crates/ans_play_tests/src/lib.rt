//! The tests of `ans_play`. No program uses it.
#![tactic(auto)]

#[cfg(test)]
mod tests;
