//! Host memory: the bytes at the host addresses from [`HOST_BASE`] on. And device memory: blocks with a number, a place
//! and bytes each.
#![tactic(auto)]

mod copying;
mod devices;
mod ended;
mod entries;
mod filling;
mod lending;
mod memories;
mod returning;

pub use acc_base::HOST_BASE;
pub use copying::SavedBlock;
pub use devices::Device;
pub use memories::HostMem;
