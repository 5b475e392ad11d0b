//! The tests of `ans_write`. No program uses it.
#![tactic(auto)]

#[cfg(test)]
mod tests;
