//! The script language of the data environment. [`run`] reads a script as bytes, runs it line by line on a table,
//! and writes what it prints as bytes.
//!
//! `specs/` says what a script means, apart from any code: its lines, what a line says, and what it prints.
#![tactic(auto)]

mod ends;
mod kernels;
mod print;
mod runs;
mod sessions;
mod watchers;

pub use acc_lend::Lease;
pub use ends::memory::{MemorySink, MemorySource};
pub use ends::streams::{FromRead, ToWrite};
pub use ends::whole::{read_all, write_all};
pub use ends::{Sink, Source};
pub use kernels::{ByCall, InOnePart, KernelRunner, run_in_threads};
pub use print::effects::{Effect, write_effect};
pub use print::lines::Line;
pub use print::reports::report;
pub use runs::{Status, run, run_line, run_text};
pub use sessions::Session;
pub use watchers::{Unwatched, Watcher};
