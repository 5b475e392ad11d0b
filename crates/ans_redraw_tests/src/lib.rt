//! The tests of `ans_redraw`. No program uses it.
#![tactic(auto)]

#[cfg(test)]
mod tests;
