//! The log of a script: what each of its calls did, read from the events of its table. Which rows of the clause tables
//! these were.
#![tactic(auto)]

mod item_logs;
mod log_lines;
mod logs;
mod objects;
mod rows;
mod totals;

pub use logs::Log;
pub use objects::LogForm;
pub use rows::RowCounts;
