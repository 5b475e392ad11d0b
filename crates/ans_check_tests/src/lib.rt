//! The tests of `ans_check`. No program uses it.
#![tactic(auto)]

#[cfg(test)]
mod tests;
