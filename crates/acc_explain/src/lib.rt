//! Why a line is at fault or a statement was refused, for the author of the script.
//!
//! The reader itself reads front parts of the line. That shows where the line is wrong, and what could stand there. So
//! there is one reader, and no second one that might differ from it.
#![tactic(auto)]

mod faults;
mod hints;
mod readers;
mod refusals;
mod routines;
mod sentences;
mod sources;
mod tokens;
mod wanted;
mod warnings;

pub use faults::{explain_fault, explain_unclosed, fault_column};
pub use hints::{is_pragma, warn_of_pragma};
pub use refusals::explain_refusal;
pub use warnings::warnings_of;
