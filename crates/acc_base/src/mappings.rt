//! Mapped ranges, device blocks, and where a section lies among them.

use crate::Section;

/// A range of host addresses that is mapped to a block of device memory, with its two reference counters (OpenACC
/// 3.3, section 2.6.7).
#[derive(Clone, Copy, Debug, PartialEq, Eq)]
pub struct Range {
    /// The host addresses.
    pub section: Section,
    /// The number of the block that they are mapped to.
    pub block: u64,
    /// The structured reference counter.
    pub structured: u64,
    /// The dynamic reference counter.
    pub dynamic: u64,
}

/// A block of device memory. It takes its length rounded up to a multiple of 16 bytes.
#[derive(Clone, Copy, Debug, PartialEq, Eq)]
pub struct Block {
    /// The number: one more than that of the block born before it.
    pub number: u64,
    /// The device address of the first byte.
    pub place: u64,
    /// The length in bytes, not rounded: that of the range that it was made for.
    pub len: u64,
}

/// A block of device memory whose mapping has ended. It stays until no queued transfer names it.
#[derive(Clone, Copy, Debug, PartialEq, Eq)]
pub struct Ended {
    /// The device address of its first byte.
    pub place: u64,
    /// How many bytes of device memory it takes: its length rounded up to a multiple of 16.
    pub size: u64,
    /// How many queued transfers name it.
    pub pins: u64,
}

/// Free addresses of device memory that lie side by side, as many as there are. What lies beside them is taken by
/// blocks or not on the device.
#[derive(Clone, Copy, Debug, PartialEq, Eq)]
pub struct Hole {
    /// The device address of its first byte.
    pub place: u64,
    /// Its size in bytes.
    pub size: u64,
}

/// What the holes of a device come to: the addresses that no block takes.
#[derive(Clone, Copy, Debug, PartialEq, Eq)]
pub struct Free {
    /// The size in bytes of the largest hole; 0 where there is none.
    pub largest: u64,
    /// The bytes of all holes.
    pub bytes: u64,
    /// How many holes there are.
    pub count: u64,
}

/// One of the two reference counters of a mapped range (OpenACC 3.3, section 2.6.7).
#[derive(Clone, Copy, Debug, PartialEq, Eq)]
pub enum Counter {
    /// The structured reference counter: raised on entry to a data region and lowered on its exit.
    Structured,
    /// The dynamic reference counter: raised by `enter data` and lowered by `exit data`.
    Dynamic,
}

/// The two reference counters of a mapped range (OpenACC 3.3, section 2.6.7).
#[derive(Clone, Copy, Debug, PartialEq, Eq)]
pub struct Counters {
    /// The structured reference counter: raised on entry to a data region and lowered on its exit.
    pub structured: u64,
    /// The dynamic reference counter: raised by `enter data` and lowered by `exit data`.
    pub dynamic: u64,
}

/// Where a section lies among the mapped ranges.
#[derive(Clone, Copy, Debug, PartialEq, Eq)]
pub enum Found {
    /// The section has no address.
    Empty,
    /// Each of its addresses is in one mapped range.
    Inside {
        /// The number of the block that the range is mapped to.
        block: u64,
        /// How far behind the start of the range the section begins, in bytes.
        offset: u64,
    },
    /// Some of its addresses are mapped, but no one range has them all.
    Partly,
    /// None of its addresses is in a mapped range.
    Absent,
}
