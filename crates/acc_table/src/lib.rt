//! The table of an OpenACC 3.3 data runtime on one to four devices with memories of their own. One call is one event or
//! no change.
//!
//! A [`Table`] holds all memories, the mapped ranges with their reference counters (OpenACC 3.3, section 2.6.7), and
//! the open data regions. It holds device blocks, loans to kernels, queues of transfers, and the trace of all events
//! since its [`Base`]. Its contracts say what `acc_base` defines.
#![tactic(auto)]

mod calls;
mod copying;
mod devices;
mod dry_runs;
pub mod laws;
mod lending;
mod making;
mod queries;
mod rebasing;
mod runs;
mod tables;

pub use acc_clauses::{Base, DeviceBase, Place};
pub use acc_lend::Lease;
pub use calls::{Answer, Call, Mapped, Reply, Turn, abandon, abandon_all};
pub use rebasing::Folded;
pub use tables::Table;
