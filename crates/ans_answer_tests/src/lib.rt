//! The tests of `ans_check` from words on, over files in memory. No program uses it.
#![tactic(auto)]

#[cfg(test)]
mod tests;
