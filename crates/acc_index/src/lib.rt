//! What is kept under numbers that rise: an index, whose entries are found mostly without a search.
#![tactic(auto)]

mod index;

pub use index::{Index, IndexEntry};
