//! Copies between host memory and a block, and the queues in which they wait.

use crate::Section;

/// How many queues of transfers there are. They are numbered from 0 (OpenACC 3.3, section 2.16, asynchronous behavior).
pub const QUEUE_COUNT: u64 = 16;

/// A copy of the bytes of a section between host memory and a block.
#[derive(Clone, Copy, Debug, PartialEq, Eq)]
pub struct Transfer {
    /// The number of the block.
    pub block: u64,
    /// How far behind the start of the block the section begins, in bytes.
    pub offset: u64,
    /// The section of host memory.
    pub section: Section,
    /// From the block to host memory, and not the other way.
    pub out: bool,
}
