//! The slots of blocks, and the index by which a number finds its slot.

ghost use Rattle.std.specs.Prelude.{◌≡◌, ℕ, ◌+◌, ◌^◌, ◌<◌, ◌≤◌, [], ◌∷◌, ◌++◌, length, IfSome, IfNone, IfErr, OnOk, IsOk, IsSome, Some, None, slice_index_or, true, IfOk};
ghost use Rattle.std.specs.List.{AllByRecursion};
ghost use Rattle.slab.specs.Slab.{get, slab_len, HasRoomFor};
ghost use Rattle.acc_base.specs.Limits.{IsFromOne, recorded};
ghost use Rattle.acc_base.specs.Blocks.{rounded as rounded_of};
ghost use Rattle.acc_placement.specs.Ranges.{IsFit, IsLeastFit};
ghost use Rattle.acc_placement.specs.Space.{IsSameSpace};
ghost use Rattle.acc_base.specs.Overwriting.{overwritten};
ghost use Rattle.acc_dev.specs.Marks.{new_mark};
ghost use Rattle.acc_index.specs.Indexed.{IsIndexRising};
ghost use Rattle.acc_dev.specs.Slots.{IsEntry, IsSlotOf, IsEntryLost};
ghost use Rattle.acc_dev.specs.Kept.{memory_of, stored_bytes, stored_loan, slot_of, blocks_in, memories_in, marks_in, loans_in, IsBlockLost, AreSlotsKept, IsRewritten, IsRemarked, IsRelent};

use crate::ended::EndedBlocks;
use acc_base::{Fault, Loan, MEMORY_MAX};
use acc_index::Index;
use acc_lend::Lease;
use acc_placement::Holes;
use slab::Slab;
use std::alloc::{AllocError, Global};
use std::mem;

/// What a block has, in a slot of its own.
#[derive(Drop)]
pub struct Stored {
    /// The device address of the first byte.
    pub place: u64,
    /// The length in bytes.
    pub len: u64,
    /// The bytes: as many as the length says. While the block is lent, a copy of them where one is kept, and else none.
    pub bytes: Vec<u8>,
    /// How many queued transfers name the block.
    pub pins: u64,
    /// Its mapping has ended.
    pub ended: bool,
    /// The loan, where the block is lent.
    pub loan: Option<Loan>,
}

impl Clone for Stored {
    ghost use Rattle.acc_dev.specs.Kept.{IsStoredCopy};

    ghost is_clone = { IsStoredCopy };

    fn clone(&self) -> Result<Self, AllocError> {
        let bytes = Vec::from_slice(*self.bytes.allocator(), &self.bytes)?;
        Ok(Stored { bytes, ..*self })
    }
}

/// The slot of a block, if it has one.
pub fn slot(index: &Index<usize>, block: u64) -> Option<usize>
    ensures found { IfSome result (IsSlotOf index.now.entries block) }
    ensures none { IfNone result (AllByRecursion (λ e. e.0 ≡ block → ⊥) index.now.entries) }
{
    Some(*index.get(block)?)
}

/// The slot of a block that has one.
pub fn slot_of_block(index: &Index<usize>, block: u64) -> usize
    requires { AllByRecursion (λ e. e.0 ≡ block → ⊥) index.now.entries → ⊥ }
    ensures { IsSlotOf index.now.entries block result }
{
    let Some(slot) = slot(index, block) else {
        unreachable!()
    };
    slot
}

/// As [`slot_of_block`], but the entry is looked for at a place first.
pub fn slot_near(index: &Index<usize>, block: u64, near: usize) -> usize
    requires { AllByRecursion (λ e. e.0 ≡ block → ⊥) index.now.entries → ⊥ }
    ensures { IsSlotOf index.now.entries block result }
{
    let Some(slot) = index.get_near(block, near) else {
        unreachable!()
    };
    *slot
}

/// Takes out the entry of a block, which has one, and returns its slot. It is looked for at a place first.
fn take_out_near(index: &mut Index<usize>, block: u64, near: usize) -> usize
    requires rising { IsIndexRising index.old.entries }
    requires there { AllByRecursion (λ e. e.0 ≡ block → ⊥) index.old.entries → ⊥ }
    ensures lost { IsEntryLost index.old.entries index.new.entries block result }
    ensures room { index.old.room ≤ index.new.room }
{
    index.take_out_near(block, near)
}

/// Makes room for `count` blocks more, so that so many calls of [`put`] need no memory. It is refused only where that
/// room was missing, and then only room has grown.
pub fn make_room(
    holes: &mut Holes,
    slab: &mut Slab<Stored>,
    index: &mut Index<usize>,
    ended: &mut EndedBlocks,
    count: u64,
) -> Result<(), Fault>
    requires count { count ≤ 2 ^ 32 }
    requires mapped { ended.old.mapped ≤ 2 ^ 48 }
    ensures kept { AreSlotsKept holes.old slab.old.slots index.old.entries → AreSlotsKept holes.new slab.new.slots index.new.entries }
    ensures holes { IsSameSpace holes.old holes.new }
    ensures slots { slab.new.slots ≡ slab.old.slots }
    ensures index { index.new.entries ≡ index.old.entries }
    ensures ended { ended.new.entries ≡ ended.old.entries }
    ensures mapped { ended.new.mapped ≡ ended.old.mapped }
    ensures room_taken { OnOk result (count ≤ holes.new.spare) }
    ensures room_slot { OnOk result (HasRoomFor slab.new count) }
    ensures room_entry { OnOk result (count ≤ index.new.room) }
    ensures room_ended { OnOk result (count ≤ ended.new.room) }
    ensures spare { holes.old.spare ≤ holes.new.spare }
    ensures slab_capacity { slab.old.capacity ≤ slab.new.capacity }
    ensures room_index { index.old.room ≤ index.new.room }
    ensures room_rows { ended.old.room ≤ ended.new.room }
    ensures succeeds { count ≤ holes.old.spare → HasRoomFor slab.old count → count ≤ index.old.room → count ≤ ended.old.room → IsOk result }
    ensures only { IfErr result (λ fault. fault ≡ Fault.Memory) }
{
    holes.reserve(count)?;
    slab.reserve(count as usize)?;
    index.reserve(count as usize)?;
    ended.reserve(count)
}

/// Puts a new block with these bytes, which no transfer names, where it fits first, and returns its place.
pub fn put(
    holes: &mut Holes,
    slab: &mut Slab<Stored>,
    index: &mut Index<usize>,
    ended: &mut EndedBlocks,
    number: u64,
    bytes: Vec<u8>,
) -> u64
    requires kept { AreSlotsKept holes.old slab.old.slots index.old.entries }
    requires above { AllByRecursion (λ e. e.0 < number) index.old.entries }
    requires len { IsFromOne MEMORY_MAX (length bytes.items) }
    requires room_taken { 1 ≤ holes.old.spare }
    requires room_slot { HasRoomFor slab.old 1 }
    requires room_entry { 1 ≤ index.old.room }
    requires room_ended { 1 ≤ ended.old.room }
    requires fits { (q : ℕ) × IsFit holes.old.holes (rounded_of (length bytes.items)) q }
    ensures place { IsLeastFit holes.old.holes (rounded_of (length bytes.items)) result }
    ensures memory { memory_of holes.new ≡ memory_of holes.old }
    ensures kept { AreSlotsKept holes.new slab.new.slots index.new.entries }
    ensures index { (slot : ℕ) × (index.new.entries ≡ index.old.entries ++ (number, slot) ∷ []) }
    ensures blocks { blocks_in slab.new.slots index.new.entries ≡ blocks_in slab.old.slots index.old.entries ++ record { number = number; place = result; len = length bytes.items } ∷ [] }
    ensures memories { memories_in slab.new.slots index.new.entries ≡ memories_in slab.old.slots index.old.entries ++ record { block = number; bytes = bytes.items } ∷ [] }
    ensures marks { marks_in slab.new.slots index.new.entries ≡ marks_in slab.old.slots index.old.entries ++ new_mark number ∷ [] }
    ensures loans { loans_in slab.new.slots index.new.entries ≡ loans_in slab.old.slots index.old.entries }
    ensures spare { holes.old.spare ≤ holes.new.spare + 1 }
    ensures slots { slab_len slab.new ≡ slab_len slab.old + 1 }
    ensures slab_capacity { slab.new.capacity ≡ slab.old.capacity }
    ensures room_index { index.old.room ≤ index.new.room + 1 }
    ensures ended { ended.new.entries ≡ ended.old.entries }
    ensures mapped { ended.new.mapped ≡ ended.old.mapped + 1 }
    ensures room_rows { ended.old.room ≤ ended.new.room + 1 }
{
    let len = bytes.len() as u64;
    let place = holes.take_reserved(len);
    let slot = slab.insert_reserved(Stored {
        place,
        len,
        bytes,
        pins: 0,
        ended: false,
        loan: None,
    });
    index.push(number, slot);
    ended.born();
    place
}

/// Takes away a block, which is not lent, and gives its addresses back. Its entry is looked for at a place first.
pub fn remove_block(
    holes: &mut Holes,
    slab: &mut Slab<Stored>,
    index: &mut Index<usize>,
    block: u64,
    near: usize,
)
    requires kept { AreSlotsKept holes.old slab.old.slots index.old.entries }
    requires there { AllByRecursion (λ e. e.0 ≡ block → ⊥) index.old.entries → ⊥ }
    requires free { (at : ℕ) → IsEntry index.old.entries block at → stored_loan (slot_of slab.old.slots (slice_index_or index.old.entries at (0, 0))) ≡ None }
    ensures memory { memory_of holes.new ≡ memory_of holes.old }
    ensures kept { AreSlotsKept holes.new slab.new.slots index.new.entries }
    ensures lost { IsBlockLost slab.old.slots slab.new.slots index.old.entries index.new.entries block }
    ensures spare { holes.old.spare ≤ holes.new.spare }
    ensures slots { slab_len slab.new ≤ slab_len slab.old }
    ensures slab_capacity { slab.new.capacity ≡ slab.old.capacity }
    ensures room_index { index.old.room ≤ index.new.room }
{
    let slot = take_out_near(index, block, near);
    let Stored { place, len, .. } = slab.remove(slot);
    holes.give_back(place, len);
}

/// Writes bytes into those of a slot, from an offset on.
pub fn write_at(slab: &mut Slab<Stored>, slot: usize, offset: usize, bytes: &[u8])
    requires filled { IsSome (get slab.old slot) }
    requires in_range { offset + length bytes.now ≤ length (stored_bytes (get slab.old slot)) }
    ensures written { IsRewritten slab.old slab.new slot offset bytes.now }
    ensures slots { slab_len slab.new ≡ slab_len slab.old }
    ensures capacity { slab.new.capacity ≡ slab.old.capacity }
{
    if let Some(stored) = slab.get_mut(slot) {
        overwrite(&mut stored.bytes, offset, bytes);
    }
}

/// Writes bytes in place of those from an offset on.
fn overwrite(old: &mut Vec<u8>, offset: usize, bytes: &[u8])
    requires { offset + length bytes.now ≤ length old.old.items }
    ensures { old.new.items ≡ overwritten offset bytes.now old.old.items }
{
    old[offset..offset + bytes.len()].copy_from_slice(bytes);
}

/// Sets how many queued transfers name the block of a slot, and whether its mapping has ended.
pub fn set_mark(slab: &mut Slab<Stored>, slot: usize, pins: u64, ended: bool)
    requires { IsSome (get slab.old slot) }
    ensures marked { IsRemarked slab.old slab.new slot pins ended }
    ensures slots { slab_len slab.new ≡ slab_len slab.old }
    ensures capacity { slab.new.capacity ≡ slab.old.capacity }
{
    if let Some(stored) = slab.get_mut(slot) {
        stored.pins = pins;
        stored.ended = ended;
    }
}

/// The loan of the block of a slot, where it is lent.
pub fn loan_at(slab: &Slab<Stored>, slot: usize) -> Option<Loan>
    ensures { result ≡ stored_loan (get slab.now slot) }
{
    slab.get(slot)?.loan
}

/// What stays of the bytes of a slot while its block is lent: a copy where one is to be kept, and else nothing.
pub fn copy_at(
    slab: &Slab<Stored>,
    slot: usize,
    alloc: Global,
    keep: bool,
) -> Result<Vec<u8>, Fault>
    requires { IsSome (get slab.now slot) }
    ensures copy { IfOk result (λ copy. copy.items ≡ recorded keep (stored_bytes (get slab.now slot))) }
    ensures only { IfErr result (λ fault. (keep ≡ true) × (fault ≡ Fault.Memory)) }
{
    if !keep {
        return Ok(Vec::new(alloc));
    }
    let Some(stored) = slab.get(slot) else {
        unreachable!()
    };
    Ok(Vec::from_slice(alloc, &stored.bytes)?)
}

/// Moves the bytes of a slot into a lease of this loan, of the device of this number, and leaves those that stay.
pub fn lend_at(
    slab: &mut Slab<Stored>,
    slot: usize,
    stays: Vec<u8>,
    device: u64,
    loan: Loan,
) -> Lease
    requires filled { IsSome (get slab.old slot) }
    requires within { loan.offset + loan.len ≤ length (stored_bytes (get slab.old slot)) }
    requires capped { length (stored_bytes (get slab.old slot)) ≤ MEMORY_MAX }
    ensures lease { result ≡ record { device = device; serial = loan.serial; block = loan.block; offset = loan.offset; len = loan.len; bytes = stored_bytes (get slab.old slot) } }
    ensures lent { IsRelent slab.old slab.new slot (Some loan) stays.items }
    ensures slots { slab_len slab.new ≡ slab_len slab.old }
    ensures capacity { slab.new.capacity ≡ slab.old.capacity }
{
    let Some(stored) = slab.get_mut(slot) else {
        unreachable!()
    };
    stored.loan = Some(loan);
    let bytes = mem::replace(&mut stored.bytes, stays);
    Lease::of(
        loan.serial,
        loan.block,
        loan.offset as usize,
        loan.len as usize,
        bytes,
        device,
    )
}

/// Ends the loan of a slot, which has these bytes from now on.
pub fn restore_at(slab: &mut Slab<Stored>, slot: usize, bytes: Vec<u8>)
    requires { IsSome (get slab.old slot) }
    ensures restored { IsRelent slab.old slab.new slot None bytes.items }
    ensures slots { slab_len slab.new ≡ slab_len slab.old }
    ensures capacity { slab.new.capacity ≡ slab.old.capacity }
{
    if let Some(stored) = slab.get_mut(slot) {
        stored.bytes = bytes;
        stored.loan = None;
    }
}
