//! Tests of `acc_table` and of the crates below it: what no clause says, that calls succeed, and that the definitions say
//! what is meant. They stand in a crate of their own, so that what they test is proved once and not twice. What scripts
//! show stands in `tests/scripts`.
#![tactic(auto)]

#[cfg(test)]
mod tests;
