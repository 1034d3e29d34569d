//! A script as a program in C or Fortran with OpenACC 3.3 directives, which does what the script does and compares what it
//! prints.
//!
//! A byte is compared only where OpenACC determines it. `twins` finds those that nothing has filled, and `marks` keeps
//! those of addresses and those that a queued copy races for.
#![tactic(auto)]

mod answers;
mod directives;
mod doing;
mod emitters;
mod emitting;
mod faults;
mod folds;
mod harness;
mod harness_in_fortran;
mod items;
mod kernels;
mod kits;
mod languages;
mod marks;
mod pieces;
mod pointers;
mod refusals;
mod regions;
mod sheets;
mod twins;
mod waits;
mod wanted;
mod writes;

pub use emitting::{Origin, emit};
pub use faults::{EmitFault, Reason};
pub use kits::{CHECK, MAKEFILE};
pub use languages::Language;
