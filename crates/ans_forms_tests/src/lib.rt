//! The tests of `ans_forms`. No program uses it.
#![tactic(auto)]

#[cfg(test)]
mod tests;
