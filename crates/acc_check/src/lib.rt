//! Tells reads of stale bytes while a script runs: bytes of which another memory has had newer ones, and bytes that
//! nothing ever filled. What is stale is kept by `acc_stale`.
#![tactic(auto)]

mod checks;
mod events;
mod findings;
mod histories;
mod looks;
mod notes;
mod objects;

pub use checks::{Check, Line, Telling};
