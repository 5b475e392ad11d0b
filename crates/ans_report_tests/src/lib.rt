//! The tests of `ans_report`. No program uses it.
#![tactic(auto)]

#[cfg(test)]
mod tests;
