//! The tests of `ans_pens`, `ans_kinds` and `ans_hints`. No program uses it.
#![tactic(auto)]

#[cfg(test)]
mod tests;
