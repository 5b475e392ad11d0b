//! The tests of `ans_mend`. No program uses it.
#![tactic(auto)]

#[cfg(test)]
mod files;
#[cfg(test)]
mod last_ends;
#[cfg(test)]
mod names;
#[cfg(test)]
mod tests;
