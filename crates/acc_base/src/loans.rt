//! Blocks of device memory that are out on loan.

/// A block of device memory that is out on loan (OpenACC 3.3, sections 2.5 and 2.6). And the section of it that a
/// kernel may read and write. The bytes of the block are in its lease.
#[derive(Clone, Copy, Debug, PartialEq, Eq)]
pub struct Loan {
    /// The serial number: one more than that of the loan before it.
    pub serial: u64,
    /// The number of the block.
    pub block: u64,
    /// How far behind the start of the block the section begins, in bytes.
    pub offset: u64,
    /// The length of the section in bytes.
    pub len: u64,
}
