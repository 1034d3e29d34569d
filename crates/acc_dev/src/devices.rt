//! Device memory as one value.

ghost use Rattle.std.specs.Prelude.{◌≡◌, ◌+◌, ◌^◌, ◌<◌, ◌≤◌, ◌⊎◌, ◌↔◌, ◌++◌, length, drop, [], replicate, All, IfOk, IfErr, OnOk, OnErr, IsSome, IsSomeAnd, IfSome, IsTrue, Err, None, Some, true, false};
ghost use Rattle.std.specs.List.{AllZip, AllByRecursion};
ghost use Rattle.std.specs.Bool.{OnTrue, OnFalse};
ghost use Rattle.acc_base.specs.Limits.{IsSize, IsFromOne};
ghost use Rattle.acc_base.specs.Section.{end_of};
ghost use Rattle.acc_base.specs.Blocks.{rounded as rounded_of, place_for, block_at, size_of, used_bytes, IsPlaceFor};
ghost use Rattle.acc_base.specs.Holes.{IsDevice, IsLeft, IsNextHole};
ghost use Rattle.acc_base.specs.Bytes.{bytes_of, fill_byte};
ghost use Rattle.acc_base.specs.Accounts.{IsMemoryOf};
ghost use Rattle.acc_base.specs.Loans.{is_lent};
ghost use Rattle.acc_placement.specs.Ranges.{IsTakeBelow};
ghost use Rattle.acc_dev.specs.Marks.{Mark, pins_at, is_ended_at, lowest_ended as lowest_ended_of, IsMarkOf, IsSoundMark};
ghost use Rattle.acc_dev.specs.Device.{number_at, HasBlock, IsNew, IsUnchanged, IsBorn, IsBornWith, IsNextRoom, IsBlockWritten, IsMarked, IsPinned, IsUnpinned, IsEnded, IsRetired, IsLoanOn, AreLoansRising, HasBlocksApart, birth_place, planned_blocks};
ghost use Rattle.acc_dev.specs.Kept.{IsStoredOf};

use crate::ended::EndedBlocks;
use crate::entries::{
    Stored, make_room, put, remove_block, set_mark, slot, slot_near, slot_of_block, write_at,
};
use crate::filling::{fill, filled, make_vectors};
use acc_base::{DEVICE_BASE, Ended, Fault, Free, Hole, MEMORY_MAX};
use acc_index::Index;
use acc_placement::{Holes, rounded};
use slab::Slab;
use std::alloc::{AllocError, Global};
use std::collections::VecDeque;
use std::marker::Model;

/// Device memory: blocks, each with a number, a place and bytes (OpenACC 3.3, section 2.6, data environment).
///
/// Blocks are numbered from 1 in the order of their births, and no number is used twice. Places are device addresses
/// from the one on at which the memory begins. Contracts see the memory's addresses as a section, and the blocks by
/// rising number, with the bytes of each and what keeps it. They also see the loans by rising block, and how many
/// blocks were ever born.
///
/// A block is kept by its mapping, which [`Device::retire`] ends. It is also kept by each queued transfer that names it
/// (OpenACC 3.3, section 2.16): [`Device::pin`] and [`Device::unpin`] count these. The call that takes away the last
/// thing that keeps a block gives it back.
///
/// A mapped block can be lent: [`Device::take_out`] moves its bytes into a lease, and [`Device::put_back`] moves them
/// back (OpenACC 3.3, section 2.5, compute constructs). In between the block stays where it is and has no bytes here.
///
/// A number finds its block mostly in one step, and else by a binary search. Its entry stays in its place while others
/// are given back. Once more than half of the entries are of blocks that are gone, these are cleared away. Beside that
/// a birth and a block that is given back cost what the placement costs for its holes. A birth also writes its bytes,
/// and moves the lists that grow where there is no room for one block more. A block that has ended also costs a change of
/// the list of these, in which [`Device::ended`] searches.
pub struct Device {
    pub(crate) alloc: Global,
    holes: Holes,
    pub(crate) slab: Slab<Stored>,
    // The number and the slot of each block, by rising number.
    pub(crate) index: Index<usize>,
    // Where each block lies whose mapping has ended, and room for those that are mapped.
    ended_blocks: EndedBlocks,
    births: u64,
    // For each birth to come for which room was made, an empty vector that its bytes fit into.
    ready: VecDeque<Vec<u8>>,
}

// By hand, so that a crate above does not prove the drops of its parts again.
impl Drop for Device {
    fn drop(self) {
        let Device {
            alloc: _,
            holes: _,
            slab: _,
            index: _,
            ended_blocks: _,
            births: _,
            ready: _,
        } = self;
    }
}

impl Model for Device {
    ghost use Rattle.acc_dev.specs.Device.{DeviceState};
    ghost use Rattle.acc_dev.specs.Kept.{memory_of, blocks_in, memories_in, marks_in, loans_in, AreSlotsKept, AreNumbersBorn};
    ghost use Rattle.acc_dev.specs.Ending.{AreEndedKept};
    ghost use Rattle.acc_dev.specs.Room.{room_ready, HasRoom};

    ghost Value = { DeviceState };

    ghost view = { λ d. record {
      memory = memory_of d.holes;
      blocks = blocks_in d.slab.slots d.index.entries;
      memories = memories_in d.slab.slots d.index.entries;
      marks = marks_in d.slab.slots d.index.entries;
      loans = loans_in d.slab.slots d.index.entries;
      births = d.births;
      room = room_ready d;
    } };

    ghost invariant = { λ d. AreSlotsKept d.holes d.slab.slots d.index.entries × AreNumbersBorn d.index.entries d.births × HasRoom d × AreEndedKept d.ended_blocks (blocks_in d.slab.slots d.index.entries) (marks_in d.slab.slots d.index.entries) d.births };
}

impl Clone for Device {
    ghost is_clone = { IsUnchanged };

    /// The same device, without the room for births that was made.
    ///
    /// # Errors
    ///
    /// [`AllocError`] where there is no memory for its blocks and their bytes.
    fn clone(&self) -> Result<Self, AllocError> {
        let holes = self.holes.clone()?;
        let index = self.index.clone()?;
        let ended_blocks = self.ended_blocks.clone()?;
        let slab = self.slab.clone()?;
        prove!(slab.len() <= slab.capacity());
        Ok(Device {
            alloc: self.alloc,
            holes,
            slab,
            index,
            ended_blocks,
            births: self.births,
            ready: VecDeque::new(self.alloc),
        })
    }
}

impl Device {
    /// The device of a number from 0 to 3, on which no block was born. Its memory begins at the device address
    /// `(number + 1) * 0x1_0000_0000`, and has `size` bytes, a multiple of 16 from 16 to 67,108,864.
    ///
    /// # Errors
    ///
    /// [`Fault::Memory`] alone.
    pub fn new(alloc: Global, number: u64, size: u64) -> Result<Device, Fault>
        requires number { number < 4 }
        requires size { IsSize size }
        ensures ok { IfOk result (IsNew number size) }
        ensures only { IfErr result (λ fault. fault ≡ Fault.Memory) }
    {
        Ok(Device {
            alloc,
            holes: Holes::new(alloc, (number + 1) * DEVICE_BASE, size)?,
            slab: Slab::new(alloc),
            index: Index::new(alloc),
            ended_blocks: EndedBlocks::new(alloc),
            births: 0,
            ready: VecDeque::new(alloc),
        })
    }

    /// Makes a block of `len` bytes, from 1 to 67,108,864, and returns its number: one more than that of the block born
    /// before it. The block lies at the least device address at which its length, rounded up to a multiple of 16, fits.
    /// Each of its bytes is 0xA5, or 0 with `zero` (OpenACC 3.3, the create clause).
    ///
    /// Fewer than 2^48 blocks were born before.
    ///
    /// # Errors
    ///
    /// [`Fault::DeviceFull`] with item 0 and the rounded length, exactly where it fits nowhere. Else only
    /// [`Fault::Memory`], where there is no memory for its bytes, or room for one block more was missing and could not
    /// be made. The device is then as before. The room that [`Device::reserve`] made stays in any case.
    pub fn born(&mut self, len: u64, zero: bool) -> Result<u64, Fault>
        requires len { IsFromOne MEMORY_MAX len }
        requires births { self.old.births < 2 ^ 48 }
        ensures born { IfOk result (IsBorn self.old self.new len zero) }
        ensures there { IfOk result (HasBlock self.new) }
        ensures filled { IfOk result (λ block. bytes_of block self.new.memories ≡ replicate len (fill_byte zero)) }

        // The place is the least of all device addresses at which the rounded length fits.
        ensures least { IsPlaceFor self.old.memory self.old.blocks (rounded_of len) (birth_place self.old len) }

        // Each error, and what it leaves.
        ensures full { (result ≡ Err (Fault.DeviceFull 0 (rounded_of len))) ↔ (birth_place self.old len ≡ None) }
        ensures only { IfErr result (λ fault. (fault ≡ Fault.Memory) ⊎ (fault ≡ Fault.DeviceFull 0 (rounded_of len))) }
        ensures unchanged { OnErr result (IsUnchanged self.old self.new) }
        ensures room { self.new.room ≡ self.old.room }
    {
        let Some(_) = self.holes.would_take(&[], len) else {
            return Err(Fault::DeviceFull {
                item: 0,
                need: rounded(len),
            });
        };
        let bytes = filled(self.alloc, len, zero)?;
        let count = self.ready.len() as u64 + 1;
        make_room(
            &mut self.holes,
            &mut self.slab,
            &mut self.index,
            &mut self.ended_blocks,
            count,
        )?;
        let number = self.births + 1;
        put(
            &mut self.holes,
            &mut self.slab,
            &mut self.index,
            &mut self.ended_blocks,
            number,
            bytes,
        );
        self.births = number;
        Ok(number)
    }

    /// Makes room for births of these lengths, in this order: the bytes of each, and its places in the lists. Room that
    /// was made before is given up. There are at most 65,536 lengths, each from 1 to 67,108,864.
    ///
    /// # Errors
    ///
    /// [`Fault::Memory`] alone, and never where no length is listed. There is then no room, and the device is as
    /// before.
    pub fn reserve(&mut self, lens: &[u64]) -> Result<(), Fault>
        requires few { length lens.now ≤ 2 ^ 16 }
        requires lens { All (IsFromOne MEMORY_MAX) lens.now }
        ensures room { OnOk result (self.new.room ≡ lens.now) }
        ensures none { OnErr result (self.new.room ≡ []) }
        ensures needed { OnErr result (0 < length lens.now) }
        ensures only { IfErr result (λ fault. fault ≡ Fault.Memory) }
        ensures unchanged { IsUnchanged self.old self.new }
    {
        self.give_up_room();
        if lens.is_empty() {
            return Ok(());
        }
        let count = lens.len() as u64;
        make_room(
            &mut self.holes,
            &mut self.slab,
            &mut self.index,
            &mut self.ended_blocks,
            count,
        )?;
        make_vectors(&mut self.ready, self.alloc, lens)
    }

    /// Gives up the room that [`Device::reserve`] made: the bytes of each birth. It needs no memory and is never
    /// refused.
    pub fn give_up_room(&mut self)
        ensures room { self.new.room ≡ [] }
        ensures unchanged { IsUnchanged self.old self.new }
    {
        // Mostly there is none.
        if !self.ready.is_empty() {
            self.ready.clear();
        }
    }

    /// Makes a block as [`Device::born`] does, where room for a birth of this length was made by [`Device::reserve`]
    /// and is the next. It needs no memory and is never refused: the length fits on the device.
    ///
    /// Fewer than 2^48 blocks were born before.
    pub fn born_reserved(&mut self, len: u64, zero: bool) -> u64
        requires len { IsFromOne MEMORY_MAX len }
        requires births { self.old.births < 2 ^ 48 }
        requires room { IsNextRoom self.old len }
        requires fits { birth_place self.old len ≡ None → ⊥ }
        ensures born { IsBorn self.old self.new len zero result }
        ensures room { self.new.room ≡ drop 1 self.old.room }
    {
        let Some(mut bytes) = self.ready.pop_front() else {
            unreachable!()
        };
        fill(&mut bytes, len, zero);
        let number = self.births + 1;
        put(
            &mut self.holes,
            &mut self.slab,
            &mut self.index,
            &mut self.ended_blocks,
            number,
            bytes,
        );
        self.births = number;
        number
    }

    /// Makes a block of these bytes, and fills it with nothing else. [`Device::reserve`] made room for a birth of this
    /// length, which is the next. It needs no memory and is never refused: the length fits on the device.
    ///
    /// Fewer than 2^48 blocks were born before.
    pub fn born_with_reserved(&mut self, given: &[u8]) -> u64
        requires len { IsFromOne MEMORY_MAX (length given.now) }
        requires births { self.old.births < 2 ^ 48 }
        requires room { IsNextRoom self.old (length given.now) }
        requires fits { birth_place self.old (length given.now) ≡ None → ⊥ }
        ensures born { IsBornWith self.old self.new (length given.now) given.now result }
        ensures room { self.new.room ≡ drop 1 self.old.room }
    {
        let Some(mut bytes) = self.ready.pop_front() else {
            unreachable!()
        };
        let Ok(()) = bytes.extend_from_slice(given) else {
            unreachable!()
        };
        let number = self.births + 1;
        put(
            &mut self.holes,
            &mut self.slab,
            &mut self.index,
            &mut self.ended_blocks,
            number,
            bytes,
        );
        self.births = number;
        number
    }

    /// Where [`Device::born`] would place a block of `len` bytes after births at the listed places and of the listed
    /// lengths. It is the least device address at which the rounded length fits beside them all. `None` exactly where
    /// there is none. It needs no memory.
    ///
    /// Each listed length is from 1 to 67,108,864, and each listed block ends on the device.
    pub fn would_take(&self, listed: &[(u64, u64)], len: u64) -> Option<u64>
        requires len { IsFromOne MEMORY_MAX len }
        requires listed { All (IsTakeBelow (end_of self.now.memory)) listed.now }
        ensures { result ≡ place_for self.now.memory (self.now.blocks ++ planned_blocks (self.now.births + 1) listed.now) (rounded_of len) }
    {
        self.holes.would_take(listed, len)
    }

    /// The number of the device.
    pub fn number(&self) -> u64
        ensures { result ≡ number_at self.now.memory.start }
    {
        (self.holes.base() / DEVICE_BASE).saturating_sub(1)
    }

    /// The number that the next block gets.
    pub fn next_block(&self) -> u64
        ensures { result ≡ self.now.births + 1 }
    {
        self.births + 1
    }

    /// Whether there is a block of this number: it was born, and not given back since.
    pub fn has(&self, block: u64) -> bool
        ensures { IsTrue result ↔ HasBlock self.now block }
    {
        slot(&self.index, block).is_some()
    }

    /// Where a block of the device lies: the device address of its first byte, and how many bytes of device memory it
    /// takes. These are its length rounded up to a multiple of 16.
    pub fn place(&self, block: u64) -> (u64, u64)
        requires { HasBlock self.now block }
        ensures { IsSomeAnd (block_at block self.now.blocks) (λ b. (result.0 ≡ b.place) × (result.1 ≡ size_of b)) }
    {
        let stored = self.stored(block);
        (stored.place, rounded(stored.len))
    }

    /// The bytes of a block of the device, as many as it is long; `None` exactly while the block is lent.
    pub fn bytes(&self, block: u64) -> Option<&[u8]>
        requires { HasBlock self.now block }
        ensures there { IsSome result ↔ (is_lent block self.now.loans ≡ false) }
        ensures bytes { IfSome result (λ bytes. bytes.now ≡ bytes_of block self.now.memories) }
        ensures len { IfSome result (λ bytes. IsSomeAnd (block_at block self.now.blocks) (λ b. length bytes.now ≡ b.len)) }
    {
        let stored = self.stored(block);
        if stored.loan.is_some() {
            return None;
        }
        Some(&stored.bytes)
    }

    /// Writes bytes into a block of the device, which is not lent, from an offset in bytes on. They end within the
    /// block.
    pub fn write(&mut self, block: u64, offset: u64, bytes: &[u8])
        requires there { HasBlock self.old block }
        requires free { is_lent block self.old.loans ≡ false }
        requires in_range { offset + length bytes.now ≤ length (bytes_of block self.old.memories) }
        ensures { IsBlockWritten self.old self.new block offset bytes.now }
    {
        let slot = slot_of_block(&self.index, block);
        write_at(&mut self.slab, slot, offset as usize, bytes);
    }

    /// Says that one more queued transfer names a block of the device, which is kept as long as one does. Fewer than
    /// 2^32 transfers named it before (OpenACC 3.3, section 2.16, asynchronous behavior).
    pub fn pin(&mut self, block: u64)
        requires there { HasBlock self.old block }
        requires few { pins_at block self.old.marks < 2 ^ 32 }
        ensures { IsPinned self.old self.new block }
    {
        let near = self.index.place(block);
        let (pins, ended) = self.mark_of(block, near);
        self.mark(block, near, pins + 1, ended);
    }

    /// Says that one queued transfer fewer names a block of the device. Where it was the last one and the mapping of
    /// the block has ended, the block is given back. Its addresses are free again, and its bytes are gone. It returns
    /// whether that is so.
    pub fn unpin(&mut self, block: u64) -> bool
        requires there { HasBlock self.old block }
        requires pinned { 0 < pins_at block self.old.marks }
        ensures given_back { IsTrue result ↔ ((is_ended_at block self.old.marks ≡ true) × (pins_at block self.old.marks ≡ 1)) }
        ensures retired { OnTrue result (IsRetired self.old self.new block) }
        ensures unpinned { OnFalse result (IsUnpinned self.old self.new block) }
    {
        let near = self.index.place(block);
        let (pins, ended) = self.mark_of(block, near);
        if ended && pins == 1 {
            self.give_back(block, near);
            return true;
        }
        self.mark(block, near, pins - 1, ended);
        false
    }

    /// Ends the mapping of a block of the device, which is not lent. Where no queued transfer names the block it is
    /// given back: its addresses are free again, and its bytes are gone. Else it is kept with its bytes, and
    /// [`Device::unpin`] gives it back. It returns whether the block was given back, needs no memory and is never
    /// refused.
    pub fn retire(&mut self, block: u64) -> bool
        requires there { HasBlock self.old block }
        requires mapped { is_ended_at block self.old.marks ≡ false }
        requires free { is_lent block self.old.loans ≡ false }
        ensures given_back { IsTrue result ↔ (pins_at block self.old.marks ≡ 0) }
        ensures retired { OnTrue result (IsRetired self.old self.new block) }
        ensures kept { OnFalse result (IsEnded self.old self.new block) }
    {
        let near = self.index.place(block);
        let (pins, _) = self.mark_of(block, near);
        if pins == 0 {
            self.give_back(block, near);
            return true;
        }
        self.end(block, near, pins);
        false
    }

    /// Of the blocks whose mapping has ended, the one of least place at or above the device address `from`; `None`
    /// where there is none. It needs no memory.
    pub fn ended(&self, from: u64) -> Option<Ended>
        ensures { result ≡ lowest_ended_of from self.now.marks self.now.blocks }
    {
        let block = self.ended_blocks.next(from)?;
        let stored = self.stored(block);
        Some(Ended {
            place: stored.place,
            size: rounded(stored.len),
            pins: stored.pins,
        })
    }

    /// The hole of least place at or above the device address `from`; `None` where there is none. A hole is free
    /// addresses that lie side by side, as many as there are. It needs no memory.
    pub fn hole(&self, from: u64) -> Option<Hole>
        ensures { IsNextHole from self.now.memory self.now.blocks result }
    {
        let (place, size) = self.holes.next_hole(from)?;
        Some(Hole { place, size })
    }

    /// What the blocks leave of the device: the size of the largest hole, the bytes of all holes, and how many they
    /// are. No walk is made.
    pub fn free(&self) -> Free
        ensures { IsLeft self.now.memory self.now.blocks result }
    {
        self.holes.free()
    }

    /// How many bytes of device memory the blocks take: the sum of their lengths, each rounded up to a multiple of 16.
    pub fn used(&self) -> u64
        ensures { result ≡ used_bytes self.now.blocks }
    {
        self.holes.used()
    }

    /// What holds of every device. Its blocks lie on it and apart, by rising number. Each has a memory of its length,
    /// from 1 to 67,108,864 bytes, unless it is lent. At most 2^32 queued transfers name it, and one at least where its
    /// mapping has ended. No block is lent twice. Each that is lent is there and mapped, and the section lies in it.
    /// The blocks take no more bytes than there are. With the holes between them they are the device, and no address is
    /// in two of them. Nothing is done.
    pub fn laws(&self)
        ensures size { IsSize self.now.memory.len }
        ensures blocks_apart { HasBlocksApart self.now }
        ensures memories { AllZip (IsMemoryOf self.now.loans) self.now.memories self.now.blocks }
        ensures marks { AllZip IsMarkOf self.now.marks self.now.blocks }
        ensures held { AllByRecursion IsSoundMark self.now.marks }
        ensures loans_rise { AreLoansRising self.now.loans }
        ensures loans { AllByRecursion (IsLoanOn self.now) self.now.loans }
        ensures lens { AllByRecursion (λ b. IsFromOne MEMORY_MAX b.len) self.now.blocks }
        ensures bytes_accounted { used_bytes self.now.blocks ≤ self.now.memory.len }
        ensures holes { IsDevice self.now.memory self.now.blocks }
        ensures births { self.now.births ≤ 2 ^ 48 }
    {
        let _ = &self.births;
    }

    /// Takes a block of the device, which is not lent, away: its addresses are free again, and its bytes are gone.
    ///
    /// Here and below, `near` is where the index has the block. It is looked for there first, and found in any case.
    #[inline(always)]
    fn give_back(&mut self, block: u64, near: usize)
        requires there { HasBlock self.old block }
        requires free { is_lent block self.old.loans ≡ false }
        ensures { IsRetired self.old self.new block }
    {
        let stored = self.stored_near(block, near);
        let (place, ended) = (stored.place, stored.ended);
        self.ended_blocks.leave(place, ended);
        remove_block(
            &mut self.holes,
            &mut self.slab,
            &mut self.index,
            block,
            near,
        );
    }

    /// How many queued transfers name a block of the device, and whether its mapping has ended, as that of no lent
    /// block has.
    #[inline(always)]
    fn mark_of(&self, block: u64, near: usize) -> (u64, bool)
        requires { HasBlock self.now block }
        ensures pins { result.0 ≡ pins_at block self.now.marks }
        ensures few { result.0 ≤ 2 ^ 32 }
        ensures ended { result.1 ≡ is_ended_at block self.now.marks }
        ensures free { result.1 ≡ true → is_lent block self.now.loans ≡ false }
    {
        let stored = self.stored_near(block, near);
        (stored.pins, stored.ended)
    }

    /// Sets how many queued transfers name a block of the device, whose mapping has ended or not.
    fn mark(&mut self, block: u64, near: usize, pins: u64, ended: bool)
        requires there { HasBlock self.old block }
        requires is { ended ≡ is_ended_at block self.old.marks }
        requires few { pins ≤ 2 ^ 32 }
        requires held { ended ≡ true → 0 < pins }
        requires free { ended ≡ true → is_lent block self.old.loans ≡ false }
        ensures { (change : Mark → Mark) → change (record { block = block; pins = pins_at block self.old.marks; ended = is_ended_at block self.old.marks }) ≡ record { block = block; pins = pins; ended = ended } → IsMarked self.old self.new block change }
    {
        let slot = slot_near(&self.index, block, near);
        set_mark(&mut self.slab, slot, pins, ended);
    }

    /// Says that the mapping of a block of the device has ended, which is not lent and which queued transfers name.
    fn end(&mut self, block: u64, near: usize, pins: u64)
        requires there { HasBlock self.old block }
        requires mapped { is_ended_at block self.old.marks ≡ false }
        requires free { is_lent block self.old.loans ≡ false }
        requires pins { pins ≡ pins_at block self.old.marks }
        requires held { 0 < pins }
        ensures { IsEnded self.old self.new block }
    {
        let place = self.stored_near(block, near).place;
        let slot = slot_near(&self.index, block, near);
        set_mark(&mut self.slab, slot, pins, true);
        self.ended_blocks.end(place, block);
    }

    /// What the slot of a block of the device has.
    pub(crate) fn stored(&self, block: u64) -> &Stored
        requires { HasBlock self.now block }
        ensures { IsStoredOf self.now block result.now }
    {
        &self.slab[slot_of_block(&self.index, block)]
    }

    /// As `stored`, but the index is looked at in a place first, which it told.
    #[inline(always)]
    fn stored_near(&self, block: u64, near: usize) -> &Stored
        requires { HasBlock self.now block }
        ensures { IsStoredOf self.now block result.now }
    {
        &self.slab[slot_near(&self.index, block, near)]
    }
}
