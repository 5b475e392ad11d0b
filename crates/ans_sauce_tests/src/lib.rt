//! The tests of `ans_sauce`. No program uses it.
#![tactic(auto)]

#[cfg(test)]
mod tests;
