//! What a device has on record beside its blocks. The present table (OpenACC 3.3, sections 2.6.5 and 2.6.7): which
//! ranges of host memory are mapped to which blocks, with their reference counters. The register of open data regions.
//!
//! The attachment counters of pointers in device blocks: which pointers are attached, and how often (sections 2.6.8 and
//! 2.7.2). And which bytes of a block transfers leave out: those of attached pointers. That is this project's rule; the
//! end of section 2.6.8 leaves an update of them undefined.
//!
//! The queues in which transfers between host memory and the device wait to be made (section 2.16, asynchronous
//! behavior).
#![tactic(auto)]

mod attaching;
mod copying;
mod counters;
mod left;
mod presence;
mod ranges;
mod register;
mod ring;
mod rings;
mod waiting;

pub use acc_ordered::Place;
pub use attaching::Attached;
pub use left::Left;
pub use presence::{Located, Present};
pub use register::OpenRegion;
pub use waiting::Queues;
