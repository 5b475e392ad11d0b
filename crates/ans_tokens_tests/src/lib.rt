//! The tests of `ans_tokens`. No program uses it.
#![tactic(auto)]

#[cfg(test)]
mod tests;
