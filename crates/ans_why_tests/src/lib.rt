//! The tests of `ans_why`. No program uses it.
#![tactic(auto)]

#[cfg(test)]
mod tests;
