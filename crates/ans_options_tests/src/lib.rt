//! The tests of `ans_options`. No program uses it.
#![tactic(auto)]

#[cfg(test)]
mod tests;
