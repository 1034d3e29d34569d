//! An ordered list of entries by key, in rows.
#![tactic(auto)]

mod changes;
mod copying;
mod entries;
mod finding;
mod keys;
mod list;
mod places;
mod rows;
mod search;

pub use entries::{KeyValueRef, Neighbors, Telling};
pub use keys::Key;
pub use list::OrderedList;
pub use places::Place;
