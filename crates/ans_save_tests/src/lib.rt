//! The tests of `ans_save`. No program uses it.
#![tactic(auto)]

#[cfg(test)]
mod tests;
