//! One table of an OpenACC 3.3 data runtime under one lock, for any number of threads.
//!
//! A [`Runtime`] is shared by reference. Each of its calls takes the lock once, for one call on the table. Whenever the
//! lock is free, the laws of [`laws::Locked`] hold. On each device mapped ranges and blocks are disjoint and account
//! for every used byte. No range has both counters zero, and every counter is what the history of all calls gives.
//!
//! Who makes calls is a [`Caller`]. It has shares of the regions that may be open, its allowance, and of the events
//! that may be made, its tickets. They are split and merged, and never made or lost. So a caller that has the whole
//! allowance again knows that no region is open and every structured counter is zero. [`Runtime::look`] promises it to
//! the closure that it calls.
//!
//! `src/tests/example.rt` of `acc_runtime_tests` has two threads that map the same bytes. `Brand` stands there for each
//! ledger, and a file below `proofs/tests/example` picks for each call with it the ledger of each blank and the limits.
//! Another one shows that a runtime and a caller may be handed to a thread.
#![tactic(auto)]

mod callers;
mod calls;
mod drilling;
pub mod laws;
mod ledgers;
mod lock;
mod locked;
mod outcomes;
mod regions;
mod runtime;
mod serving;

pub use acc_lend::{Gate, Lease, Open};
pub use callers::Caller;
pub use drilling::{Drilled, drill};
pub use ledgers::{Blanks, Limited};
pub use lock::Runtime;
pub use regions::Region;
pub use runtime::blanks;
pub use serving::{Served, serve};
