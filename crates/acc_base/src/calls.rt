//! What a table can be asked to do.

use crate::{Directive, List, Section};

/// A call on the data environment, where `L` is what a lease is. An accepted call is one event.
#[derive(Debug)]
pub enum Call<L> {
    /// Carries out a directive.
    Do(Directive),
    /// The host writes bytes into its memory.
    HostWrite {
        /// The first host address that is written.
        addr: u64,
        /// The bytes, as many as are written.
        bytes: List<u8>,
    },
    /// Lends the block of a section to a kernel in an open data region (OpenACC 3.3, section 2.5, compute constructs).
    Lend {
        /// The number of the region.
        region: u64,
        /// The section of host memory whose bytes on the device the kernel may read and write.
        section: Section,
    },
    /// Brings a lent block back, with its bytes as the kernel left them.
    Gather(L),
}
