//! The program `accrun` but for its streams and words: what it does for the options of its command line, and how it
//! ends. That is a run of a script, scripts as tests, or what is written in place of a run: programs, a script by chance,
//! counts of rows.
#![tactic(auto)]

mod drills;
mod emissions;
mod endings;
mod paths;
mod picture_files;
mod programs;
mod runs;
mod suites;
mod tools;

pub use tools::{CLEAN, FAULTED, REFUSED, tool};
