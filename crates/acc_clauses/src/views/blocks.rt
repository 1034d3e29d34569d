//! The blocks, the holes and the loans of a device.

ghost use Rattle.std.specs.Prelude.{◌≡◌, ◌+◌, ◌++◌, ◌↔◌, All, IfSome, IsSome, false, length};
ghost use Rattle.acc_base.specs.Limits.{IsFromOne};
ghost use Rattle.acc_base.specs.declared.addresses.TheConstants.{MEMORY_MAX};
ghost use Rattle.acc_base.specs.Section.{end_of, device_memory};
ghost use Rattle.acc_base.specs.Holes.{IsLeft, IsNextHole};
ghost use Rattle.acc_base.specs.Loans.{is_lent};
ghost use Rattle.acc_base.specs.Leases.{is_returnable};
ghost use Rattle.acc_base.specs.Blocks.{block_at, rounded, place_of, place_for, used_bytes};
ghost use Rattle.acc_base.specs.Bytes.{bytes_of};
ghost use Rattle.acc_base.specs.Waits.{ended_from};
ghost use Rattle.acc_placement.specs.Ranges.{IsTakeBelow};
ghost use Rattle.acc_dev.specs.Device.{planned_blocks};

use crate::views::View;
use acc_base::{Ended, Free, Hole};
use acc_lend::Lease;

impl<'a> View<'a> {
    /// The device address of a block's first byte; 0 where there is no such block.
    pub fn place(&self, block: u64) -> u64
        ensures { result ≡ place_of block self.now.state.records.blocks }
    {
        if self.environment.device.has(block) {
            self.environment.device.place(block).0
        } else {
            0
        }
    }

    /// The bytes of device memory that all blocks take, each rounded up to a multiple of 16.
    pub fn used(&self) -> u64
        ensures { result ≡ used_bytes self.now.state.records.blocks }
    {
        self.environment.device.used()
    }

    /// The number that the next block gets.
    pub(crate) fn next_block(&self) -> u64
        ensures { result ≡ self.now.state.records.births + 1 }
    {
        self.environment.device.next_block()
    }

    /// Where a block of `len` bytes would lie after births at the listed places and of the listed lengths. `None`
    /// exactly where it fits nowhere.
    pub(crate) fn would_take(&self, listed: &[(u64, u64)], len: u64) -> Option<u64>
        requires len { IsFromOne MEMORY_MAX len }
        requires listed { All (IsTakeBelow (end_of (device_memory self.now.limits))) listed.now }
        ensures { result ≡ place_for (device_memory self.now.limits) (self.now.state.records.blocks ++ planned_blocks (self.now.state.records.births + 1) listed.now) (rounded len) }
    {
        self.environment.device.would_take(listed, len)
    }

    /// Of the blocks whose mapping has ended, the one of least place at or above a device address. A block stays after
    /// the end of its mapping while a queued transfer names it (OpenACC 3.3, section 2.16).
    pub fn ended(&self, from: u64) -> Option<Ended>
        ensures { result ≡ ended_from from self.now.state.records }
    {
        self.environment.device.laws();
        self.environment.device.ended(from)
    }

    /// The hole of least place at or above a device address: free addresses that lie side by side, as many as there
    /// are.
    pub fn hole(&self, from: u64) -> Option<Hole>
        ensures { IsNextHole from (device_memory self.now.limits) self.now.state.records.blocks result }
    {
        self.environment.device.hole(from)
    }

    /// What the blocks leave of the device: the size of the largest hole, the bytes of all holes, and how many they
    /// are.
    pub fn free(&self) -> Free
        ensures { IsLeft (device_memory self.now.limits) self.now.state.records.blocks result }
    {
        self.environment.device.free()
    }

    /// The bytes of a block. `None` exactly where there is no such block, or it is lent.
    pub fn bytes(&self, block: u64) -> Option<&'a [u8]>
        ensures there { IsSome result ↔ (IsSome (block_at block self.now.state.records.blocks) × (is_lent block self.now.state.records.loans ≡ false)) }
        ensures bytes { IfSome result (λ bytes. bytes.now ≡ bytes_of block self.now.state.memories) }
    {
        if self.environment.device.has(block) {
            self.environment.device.bytes(block)
        } else {
            None
        }
    }

    /// Whether a block is lent: its bytes are in a lease, and not on the device.
    pub fn is_lent(&self, block: u64) -> bool
        ensures { result ≡ is_lent block self.now.state.records.loans }
    {
        self.lent != 0 && self.environment.device.loan(block).is_some()
    }

    /// How many blocks are lent.
    pub(crate) fn loans(&self) -> u64
        ensures { result ≡ length self.now.state.records.loans }
    {
        self.lent
    }

    /// The serial number that the next loan gets.
    pub(crate) fn next_serial(&self) -> u64
        ensures { result ≡ self.now.state.register.serial }
    {
        self.next_serial
    }

    /// Whether a lease brings back a block of the device that is lent. The lease is of this device, and has the serial
    /// number, the block and the section of the loan. It has as many bytes as the block, and with full traces those
    /// that were kept outside of the section.
    pub(crate) fn is_returnable(&self, lease: &Lease) -> bool
        ensures { result ≡ is_returnable self.now.limits.full self.now.limits.number lease.now self.now.state.records.blocks self.now.state.records.loans self.now.state.memories }
    {
        self.environment
            .device
            .is_returnable(lease, self.config.full())
    }
}
