//! Tests of `acc_runtime`, and of threads that share a runtime or work on parts of a block: what no clause says. They
//! stand in a crate of their own, so that it is proved once and not twice.
#![tactic(auto)]

#[cfg(test)]
mod tests;
