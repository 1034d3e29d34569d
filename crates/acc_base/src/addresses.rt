//! Where host memory and the memory of a device begin, and how large each may be.

/// The host address at which host memory begins.
pub const HOST_BASE: u64 = 0x1000;

/// The device address at which device memory begins.
pub const DEVICE_BASE: u64 = 0x1_0000_0000;

/// The greatest size of a memory, and so the greatest length of a block, in bytes.
pub const MEMORY_MAX: u64 = 67_108_864;
