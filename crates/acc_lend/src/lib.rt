//! The bytes of a block lent to kernels (OpenACC 3.3, sections 2.5 and 2.6): leases, the parts of a loan, and kernels.
#![tactic(auto)]

mod bytewise;
mod cutting;
mod gates;
mod kernels;
mod leases;
mod running;
mod slices;
mod taking;

pub use bytewise::{Add, Number, Plus, Xor};
pub use cutting::{Cuts, PARTS_MAX};
pub use gates::{Gate, Open};
pub use kernels::{Kernel, Pointwise};
pub use leases::Lease;
pub use running::{run_one, run_parts};
pub use slices::split;
pub use taking::Parts;
