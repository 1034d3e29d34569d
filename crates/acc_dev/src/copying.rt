//! Copies of the blocks, of their bytes and of the loans of a device, in vectors of their own.

ghost use Rattle.std.specs.Prelude.{◌≡◌, map, IfOk, IfErr, IsSome};
ghost use Rattle.std.specs.List.{AllByRecursion};
ghost use Rattle.slab.specs.Slab.{get};
ghost use Rattle.acc_dev.specs.Device.{memory_saved};
ghost use Rattle.acc_dev.specs.Kept.{slot_of, block_from, memory_from, blocks_in, memories_in, loans_in};

use crate::devices::Device;
use crate::entries::{Stored, loan_at};
use acc_base::{Block, Fault, Loan};
use acc_index::Index;
use slab::Slab;
use std::alloc::{AllocError, Global};

/// The bytes that a block has at one moment.
pub struct SavedBlock {
    /// The number of the block.
    pub block: u64,
    /// Its bytes, each at its offset.
    pub bytes: Vec<u8>,
}

// By hand, so that a crate above does not prove the drops of its parts again.
impl Drop for SavedBlock {
    fn drop(self) {
        let SavedBlock { block: _, bytes: _ } = self;
    }
}

impl Clone for SavedBlock {
    ghost is_clone = { λ saved copy. memory_saved copy ≡ memory_saved saved };

    /// The same bytes of the same block.
    ///
    /// # Errors
    ///
    /// [`AllocError`] where there is no memory for the bytes.
    fn clone(&self) -> Result<Self, AllocError> {
        let bytes = Vec::from_slice(*self.bytes.allocator(), &self.bytes)?;
        Ok(SavedBlock { bytes, ..*self })
    }
}

impl Device {
    /// The blocks of the device in a vector of their own, by rising number: of each its number, its place and its
    /// length. The device stays as it is.
    ///
    /// It allocates for the result alone, exactly so many blocks, and goes through the device once.
    ///
    /// # Errors
    ///
    /// [`Fault::Memory`] alone.
    pub fn copy_blocks(&self, alloc: Global) -> Result<Vec<Block>, Fault>
        ensures ok { IfOk result (λ blocks. blocks.items ≡ self.now.blocks) }
        ensures only { IfErr result (λ fault. fault ≡ Fault.Memory) }
    {
        copy_blocks_of(&self.slab, &self.index, alloc)
    }

    /// The bytes of each block of the device, by rising number: of a block that is lent, the copy that is kept, if one
    /// is. The device stays as it is. It allocates for the result alone.
    ///
    /// # Errors
    ///
    /// [`Fault::Memory`] alone.
    pub fn copy_memories(&self, alloc: Global) -> Result<Vec<SavedBlock>, Fault>
        ensures ok { IfOk result (λ memories. map memory_saved memories.items ≡ self.now.memories) }
        ensures only { IfErr result (λ fault. fault ≡ Fault.Memory) }
    {
        copy_memories_of(&self.slab, &self.index, alloc)
    }

    /// The loans of the device in a vector of their own, by rising block. The device stays as it is.
    ///
    /// It allocates for the result alone, and goes through the device once.
    ///
    /// # Errors
    ///
    /// [`Fault::Memory`] alone.
    pub fn copy_loans(&self, alloc: Global) -> Result<Vec<Loan>, Fault>
        ensures ok { IfOk result (λ loans. loans.items ≡ self.now.loans) }
        ensures only { IfErr result (λ fault. fault ≡ Fault.Memory) }
    {
        copy_loans_of(&self.slab, &self.index, alloc)
    }
}

/// The block of a number, which stands in a slot.
fn block_at(slab: &Slab<Stored>, slot: usize, number: u64) -> Block
    requires { IsSome (get slab.now slot) }
    ensures { result ≡ block_from number (get slab.now slot) }
{
    let stored = &slab[slot];
    Block {
        number,
        place: stored.place,
        len: stored.len,
    }
}

/// The blocks of an index, each of which stands in its slot.
fn copy_blocks_of(
    slab: &Slab<Stored>,
    index: &Index<usize>,
    alloc: Global,
) -> Result<Vec<Block>, Fault>
    requires filled { AllByRecursion (λ e. IsSome (slot_of slab.now.slots e)) index.now.entries }
    ensures ok { IfOk result (λ blocks. blocks.items ≡ blocks_in slab.now.slots index.now.entries) }
    ensures only { IfErr result (λ fault. fault ≡ Fault.Memory) }
{
    let mut blocks = Vec::with_capacity(alloc, slab.len())?;
    for entry in index.items() {
        if let Some(slot) = entry.value {
            blocks.push(block_at(slab, slot, entry.number))?;
        }
    }
    Ok(blocks)
}

/// The bytes of the block of a number, which stands in a slot.
fn memory_at(
    slab: &Slab<Stored>,
    slot: usize,
    number: u64,
    alloc: Global,
) -> Result<SavedBlock, Fault>
    requires { IsSome (get slab.now slot) }
    ensures ok { IfOk result (λ saved. memory_saved saved ≡ memory_from number (get slab.now slot)) }
    ensures only { IfErr result (λ fault. fault ≡ Fault.Memory) }
{
    let bytes = Vec::from_slice(alloc, &slab[slot].bytes)?;
    Ok(SavedBlock {
        block: number,
        bytes,
    })
}

/// The bytes of the blocks of an index, each of which stands in its slot.
fn copy_memories_of(
    slab: &Slab<Stored>,
    index: &Index<usize>,
    alloc: Global,
) -> Result<Vec<SavedBlock>, Fault>
    requires filled { AllByRecursion (λ e. IsSome (slot_of slab.now.slots e)) index.now.entries }
    ensures ok { IfOk result (λ memories. map memory_saved memories.items ≡ memories_in slab.now.slots index.now.entries) }
    ensures only { IfErr result (λ fault. fault ≡ Fault.Memory) }
{
    let mut memories = Vec::with_capacity(alloc, slab.len())?;
    for entry in index.items() {
        if let Some(slot) = entry.value {
            memories.push(memory_at(slab, slot, entry.number, alloc)?)?;
        }
    }
    Ok(memories)
}

/// The loans of the blocks of an index.
fn copy_loans_of(
    slab: &Slab<Stored>,
    index: &Index<usize>,
    alloc: Global,
) -> Result<Vec<Loan>, Fault>
    ensures ok { IfOk result (λ loans. loans.items ≡ loans_in slab.now.slots index.now.entries) }
    ensures only { IfErr result (λ fault. fault ≡ Fault.Memory) }
{
    let mut loans = Vec::new(alloc);
    for entry in index.items() {
        let Some(slot) = entry.value else {
            continue;
        };
        if let Some(loan) = loan_at(slab, slot) {
            loans.push(loan)?;
        }
    }
    Ok(loans)
}
