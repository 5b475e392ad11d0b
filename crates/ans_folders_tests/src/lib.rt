//! The tests of `ans_folders`. No program uses it.
#![tactic(auto)]

#[cfg(test)]
mod tests;
