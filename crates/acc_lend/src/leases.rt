//! Leases of a block's bytes.

ghost use Rattle.std.specs.Prelude.{◌≡◌, ◌+◌, ◌≤◌, length, vec_len};
ghost use Rattle.acc_base.specs.declared.addresses.TheConstants.{MEMORY_MAX};
ghost use Rattle.acc_lend.specs.Loans.{IsLoan, section, with_section};

use std::marker::Model;

/// A section of a device block on loan to a kernel (OpenACC 3.3, sections 2.5 and 2.6), with all bytes of the block.
///
/// A lease has to be spent, by [`Lease::into_block`] or [`Lease::abandon`], so that no lent block is lost by mistake.
/// The bytes are moved into it and out of it, and never copied.
///
/// Contracts see the numbers of the device and the block, and the serial number of the loan. They also see the place
/// and the length of the section in bytes, and the bytes of the block.
pub struct Lease {
    device: u64,
    serial: u64,
    block: u64,
    offset: usize,
    len: usize,
    bytes: Vec<u8>,
}

impl Model for Lease {
    ghost use Rattle.std.specs.Prelude.{◌+◌, ◌≤◌, vec_len};
    ghost use Rattle.acc_base.specs.declared.addresses.TheConstants.{MEMORY_MAX};
    ghost use Rattle.acc_base.specs.Loans.{Leased};

    ghost Value = { Leased };

    ghost view = { λ l. record { device = l.device; serial = l.serial; block = l.block; offset = l.offset; len = l.len; bytes = l.bytes.items } };

    ghost invariant = { λ l. (l.offset + l.len ≤ vec_len l.bytes) × (vec_len l.bytes ≤ MEMORY_MAX) };
}

impl Lease {
    ghost use Rattle.std.specs.Borrow.{sem};
    ghost use Rattle.acc_lend.specs.Lending.{LendsSection};

    /// A loan of `len` bytes from place `offset` on of the block of a device with these bytes. The block has at most
    /// 67,108,864 bytes.
    pub fn of(
        serial: u64,
        block: u64,
        offset: usize,
        len: usize,
        bytes: Vec<u8>,
        device: u64,
    ) -> Lease
        requires within { offset + len ≤ vec_len bytes }
        requires capped { vec_len bytes ≤ MEMORY_MAX }
        ensures { result ≡ record { device = device; serial = serial; block = block; offset = offset; len = len; bytes = bytes.items } }
    {
        Lease {
            device,
            serial,
            block,
            offset,
            len,
            bytes,
        }
    }

    /// The section lies in the block, which has at most 67,108,864 bytes. Nothing is done.
    pub fn laws(&self)
        ensures { IsLoan self.now }
    {
        let _ = &self.serial;
    }

    /// The number of the device whose block is lent.
    pub fn device(&self) -> u64
        ensures { result ≡ self.now.device }
    {
        self.device
    }

    /// The serial number of the loan.
    pub fn serial(&self) -> u64
        ensures { result ≡ self.now.serial }
    {
        self.serial
    }

    /// The number of the block.
    pub fn block(&self) -> u64
        ensures { result ≡ self.now.block }
    {
        self.block
    }

    /// The place in the block of the first byte that is lent.
    pub fn offset(&self) -> usize
        ensures value { result ≡ self.now.offset }
        ensures laws { IsLoan self.now }
    {
        self.offset
    }

    /// How many bytes are lent.
    pub fn len(&self) -> usize
        ensures value { result ≡ self.now.len }
        ensures laws { IsLoan self.now }
    {
        self.len
    }

    /// The bytes that are lent.
    pub fn bytes(&self) -> &[u8]
        ensures value { result.now ≡ section self.now }
        ensures len { length result.now ≡ self.now.len }
    {
        &self.bytes[self.offset..self.offset + self.len]
    }

    /// All the bytes of the block, those outside of the section too.
    pub fn block_bytes(&self) -> &[u8]
        ensures value { result.now ≡ self.now.bytes }
        ensures laws { IsLoan self.now }
    {
        self.bytes.as_slice()
    }

    /// Writes these bytes over all those that are lent, of which there are as many. The block's other bytes stay.
    pub fn overwrite(&mut self, bytes: &[u8])
        requires { length bytes.now ≡ self.old.len }
        ensures { self.new ≡ with_section self.old bytes.now }
    {
        self.section_mut().copy_from_slice(bytes);
    }

    /// The bytes that are lent, to write. No other byte can be reached through them.
    pub(crate) fn section_mut(&mut self) -> &mut [u8]
        ensures value { result.now ≡ section self.old }
        ensures len { length result.now ≡ self.old.len }
        ensures laws { IsLoan self.old }
        ensures* writes_back { sem 𝓛 (LendsSection self.entry result) }
    {
        let from = self.offset;
        let to = from + self.len;
        self.bytes.slice_mut(from..to)
    }

    /// Ends the loan: all the bytes of the block, those that were lent as the kernels left them.
    pub fn into_block(self) -> Vec<u8>
        ensures value { result.items ≡ self.bytes }
        ensures laws { IsLoan self }
    {
        let Lease {
            device: _,
            serial: _,
            block: _,
            offset: _,
            len: _,
            bytes,
        } = self;
        bytes
    }

    /// Drops the bytes. The block stays lent for good.
    pub fn abandon(self) {
        drop(self.into_block());
    }
}
