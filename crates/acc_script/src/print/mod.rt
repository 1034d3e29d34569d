//! Writes what a line has to print, without allocation. A line of a report goes to its sink in one piece, and contracts
//! know what a sink took before it failed. A new kind of answer is one more case in `effects`.

mod answers;
mod blocks;
pub mod effects;
pub mod lines;
mod pointers;
mod queues;
mod ranges;
mod refusals;
pub mod reports;
