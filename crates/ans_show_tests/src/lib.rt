//! The tests of `ans_show`. No program uses it.
#![tactic(auto)]

#[cfg(test)]
mod tests;
