//! The tests of `ans_sums`. No program uses it.
#![tactic(auto)]

#[cfg(test)]
mod tests;
