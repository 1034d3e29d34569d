//! The blocks whose mapping has ended, by place.

ghost use Rattle.std.specs.Prelude.{◌≡◌, ◌+◌, ◌^◌, ◌<◌, ◌≤◌, [], true, false, None, IsSome, IfErr, OnOk, OnErr, option_map, if◌then◌else◌};
ghost use Rattle.acc_ordered.specs.Listing.{KeysRise, keyed, at_key, first_from, with_entry, without_key};

use acc_base::Fault;
use acc_ordered::{OrderedList, Place};
use std::alloc::{AllocError, Global};
use std::marker::Model;

/// The blocks whose mapping has ended, and how many are mapped.
///
/// They stand in an ordered list, which has room for each mapped block. So the end of a mapping allocates nothing.
#[derive(Drop)]
pub struct EndedBlocks {
    // The number of each block, by its place.
    numbers: OrderedList<u64, u64>,
    mapped: u64,
}

impl Model for EndedBlocks {
    ghost use Rattle.std.specs.Prelude.{◌-◌, ◌≤◌};
    ghost use Rattle.acc_dev.specs.Ending.{EndedState};

    ghost Value = { EndedState };

    ghost view = { λ e. record { entries = e.numbers.entries; mapped = e.mapped; room = e.numbers.room - e.mapped } };

    ghost invariant = { λ e. e.mapped ≤ e.numbers.room };
}

impl Clone for EndedBlocks {
    ghost is_clone = { λ ended copy. (copy.entries ≡ ended.entries) × (copy.mapped ≡ ended.mapped) };

    fn clone(&self) -> Result<Self, AllocError> {
        let mut numbers = self.numbers.clone()?;
        if numbers.reserve(self.mapped).is_err() {
            return Err(AllocError);
        }
        Ok(EndedBlocks {
            numbers,
            mapped: self.mapped,
        })
    }
}

impl EndedBlocks {
    /// No block. It needs no memory.
    pub fn new(alloc: Global) -> EndedBlocks
        ensures entries { result.entries ≡ [] }
        ensures mapped { result.mapped ≡ 0 }
    {
        EndedBlocks {
            numbers: OrderedList::new(alloc),
            mapped: 0,
        }
    }

    /// Makes room for `count` more blocks. It is refused only where that room was missing.
    pub fn reserve(&mut self, count: u64) -> Result<(), Fault>
        requires { self.old.mapped + count < 2 ^ 64 }
        ensures entries { self.new.entries ≡ self.old.entries }
        ensures mapped { self.new.mapped ≡ self.old.mapped }
        ensures ok { OnOk result (count ≤ self.new.room) }
        ensures only { IfErr result (λ fault. fault ≡ Fault.Memory) }
        ensures needed { OnErr result (self.old.room < count) }
        ensures room { self.old.room ≤ self.new.room }
    {
        self.numbers.reserve(self.mapped + count)
    }

    /// One more block is mapped, for which there is room.
    pub fn born(&mut self)
        requires { 1 ≤ self.old.room }
        ensures entries { self.new.entries ≡ self.old.entries }
        ensures mapped { self.new.mapped ≡ self.old.mapped + 1 }
        ensures room { self.old.room ≤ self.new.room + 1 }
    {
        self.numbers.laws();
        self.mapped += 1;
    }

    /// The mapping of a block has ended, which lies where no other does.
    pub fn end(&mut self, place: u64, block: u64)
        requires mapped { 1 ≤ self.old.mapped }
        requires new { at_key place self.old.entries ≡ None }
        ensures entries { self.new.entries ≡ with_entry (keyed place block) self.old.entries }
        ensures mapped { self.new.mapped + 1 ≡ self.old.mapped }
        ensures room { self.old.room ≤ self.new.room }
    {
        self.numbers.insert(place, block, Place::default());
        self.mapped -= 1;
    }

    /// A block is given back, whose mapping has ended or not.
    #[inline(always)]
    pub fn leave(&mut self, place: u64, ended: bool)
        requires there { ended ≡ true → IsSome (at_key place self.old.entries) }
        requires mapped { ended ≡ false → 1 ≤ self.old.mapped }
        ensures entries { self.new.entries ≡ (if ended then without_key place self.old.entries else self.old.entries) }
        ensures mapped { self.new.mapped + (if ended then 0 else 1) ≡ self.old.mapped }
        ensures room { self.old.room ≤ self.new.room }
    {
        if ended {
            self.numbers.remove(place, Place::default());
        } else {
            self.mapped -= 1;
        }
    }

    /// The number of the block of least place at or above a device address.
    pub fn next(&self, from: u64) -> Option<u64>
        ensures found { result ≡ option_map (λ e. e.value) (first_from from self.now.entries) }
        ensures rising { KeysRise self.now.entries }
    {
        self.numbers.laws();
        Some(*self.numbers.next(from)?.value)
    }
}
