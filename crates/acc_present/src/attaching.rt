//! The attachment counters as one value.

ghost use Rattle.std.specs.Prelude.{◌≡◌, ◌+◌, ◌^◌, ◌<◌, ◌≤◌, ◌↔◌, IsTrue, [], true, false, IfOk, OnOk, OnErr, IfErr};
ghost use Rattle.acc_base.specs.Attachments.{count_at, with_count, detach, attached_by, without_attachments, next_pointer};
ghost use Rattle.acc_present.specs.Attached.{AreAttached, left_of};

use crate::counters::{CounterList, LocatedCounter};
use crate::left::Left;
use acc_base::{Attachment, Fault};
use acc_ordered::Place;
use std::alloc::{AllocError, Global};
use std::marker::Model;

/// The attachment counters of the pointers in the blocks of a device (OpenACC 3.3, sections 2.6.8 and 2.7.2).
///
/// A pointer is named by the number of the block that holds it and by its host address, and is eight bytes long. A
/// counter is zero until the pointer is attached. Targets are device addresses.
///
/// Contracts see the counters above zero, and beside them for how many more of them there is room. A refused call
/// leaves the counters as they were. Only `reserve`, `copy_counters` and `clone` allocate, the last two for their
/// results. A clone has the limit and the counters, and may have no room for more.
///
/// Counters are searched for by their keys, and stand in rows of up to 64. One that becomes one or zero moves others of
/// its row. The list of rows moves too where a full row is split, or a row becomes empty or is joined with one beside it.
/// That grows with the number of counters.
pub struct Attached {
    counter_max: u64,
    counters: CounterList,
}

// By hand, so that a crate above does not prove the drops of its parts again.
impl Drop for Attached {
    fn drop(self) {
        let Attached {
            counter_max: _,
            counters: _,
        } = self;
    }
}

impl Model for Attached {
    ghost use Rattle.acc_present.specs.Attached.{AttachedState, AreAttached};

    ghost Value = { AttachedState };

    ghost view = { λ a. record {
      counter_max = a.counter_max;
      attached = a.counters.counters;
      spare = a.counters.room;
    } };

    ghost invariant = { λ a. AreAttached a.counter_max a.counters.counters };
}

impl Clone for Attached {
    ghost is_clone = { λ attached copy. (copy.counter_max ≡ attached.counter_max) × (copy.attached ≡ attached.attached) };

    /// The same counters, which may have no room for more.
    ///
    /// # Errors
    ///
    /// [`AllocError`] where there is no memory for them.
    fn clone(&self) -> Result<Attached, AllocError> {
        Ok(Attached {
            counter_max: self.counter_max,
            counters: self.counters.clone()?,
        })
    }
}

impl Attached {
    /// No pointer is attached. `counter_max` is the greatest value of a counter, from 1 to 4,294,967,295. It allocates
    /// nothing.
    pub fn new(alloc: Global, counter_max: u64) -> Attached
        requires some { 1 ≤ counter_max }
        requires limit { counter_max < 2 ^ 32 }
        ensures counter_max { result.counter_max ≡ counter_max }
        ensures attached { result.attached ≡ [] }
    {
        Attached {
            counter_max,
            counters: CounterList::new(alloc),
        }
    }

    /// What holds of the counters at all times. They stand by rising block and pointer. Each is from one to the limit,
    /// which is below 2^32.
    pub fn laws(&self)
        ensures { AreAttached self.now.counter_max self.now.attached }
    {
        let _ = &self.counters;
    }

    /// Whether no pointer is attached.
    pub fn is_empty(&self) -> bool
        ensures { IsTrue result ↔ (self.now.attached ≡ []) }
    {
        self.counters.is_empty()
    }

    /// How often a pointer of a block is attached. `pointer` is its host address.
    pub fn count(&self, block: u64, pointer: u64) -> u64
        ensures { result ≡ count_at block pointer self.now.attached }
    {
        self.counters.find(block, pointer).count
    }

    /// Sets a counter that was searched for to a number above zero, where there is room for it.
    fn put(&mut self, block: u64, pointer: u64, count: u64, found: LocatedCounter)
        requires some { 0 < count }
        requires most { count ≤ self.old.counter_max }
        requires found { found.count ≡ count_at block pointer self.old.attached }
        requires room { count_at block pointer self.old.attached ≡ 0 → 1 ≤ self.old.spare }
        ensures attached { self.new.attached ≡ with_count block pointer count self.old.attached }
        ensures counter_max { self.new.counter_max ≡ self.old.counter_max }
        ensures taken { self.old.spare ≤ self.new.spare + 1 }
        ensures kept { 0 < found.count → self.old.spare ≤ self.new.spare }
    {
        if found.count == 0 {
            self.counters.add(block, pointer, count, found.place);
        } else {
            self.counters.set(block, pointer, count, found.place);
        }
    }

    /// Sets the counter of a pointer of a block to one, as where it is aimed at another target. There is room for one
    /// more if the counter is zero. It allocates nothing, and takes at most one from the room.
    pub fn aim_reserved(&mut self, block: u64, pointer: u64)
        requires room { count_at block pointer self.old.attached ≡ 0 → 1 ≤ self.old.spare }
        ensures attached { self.new.attached ≡ with_count block pointer 1 self.old.attached }
        ensures counter_max { self.new.counter_max ≡ self.old.counter_max }
        ensures spare { self.old.spare ≤ self.new.spare + 1 }
    {
        let found = self.counters.find(block, pointer);
        self.put(block, pointer, 1, found);
    }

    /// Raises the counter of an attached pointer of a block by one. It has not reached its limit.
    pub fn aim_again(&mut self, block: u64, pointer: u64)
        requires some { 0 < count_at block pointer self.old.attached }
        requires below { count_at block pointer self.old.attached < self.old.counter_max }
        ensures attached { self.new.attached ≡ with_count block pointer (count_at block pointer self.old.attached + 1) self.old.attached }
        ensures counter_max { self.new.counter_max ≡ self.old.counter_max }
        ensures spare { self.old.spare ≤ self.new.spare }
    {
        let found = self.counters.find(block, pointer);
        self.put(block, pointer, found.count + 1, found);
    }

    /// Detaches a pointer of a block (OpenACC 3.3, section 2.7.2): its counter falls by one, or stays zero. `pointer`
    /// is its host address. The caller writes the pointer's bytes on the device where the counter became zero.
    pub fn detach(&mut self, block: u64, pointer: u64) -> Left
        ensures left { result ≡ left_of false (count_at block pointer self.old.attached) }
        ensures attached { self.new.attached ≡ attached_by (detach false block pointer self.old.attached) self.old.attached }
        ensures counter_max { self.new.counter_max ≡ self.old.counter_max }
        ensures spare { self.old.spare ≤ self.new.spare }
    {
        let found = self.counters.find(block, pointer);
        if found.count <= 1 {
            return self.clear(block, pointer, found);
        }
        self.put(block, pointer, found.count - 1, found);
        Left::Less
    }

    /// As [`Attached::detach`], but the counter is zero at once (OpenACC 3.3, the finalize clause).
    pub fn detach_now(&mut self, block: u64, pointer: u64) -> Left
        ensures left { result ≡ left_of true (count_at block pointer self.old.attached) }
        ensures attached { self.new.attached ≡ attached_by (detach true block pointer self.old.attached) self.old.attached }
        ensures counter_max { self.new.counter_max ≡ self.old.counter_max }
        ensures spare { self.old.spare ≤ self.new.spare }
    {
        let found = self.counters.find(block, pointer);
        self.clear(block, pointer, found)
    }

    /// As [`Attached::detach_now`], of a counter that was searched for.
    fn clear(&mut self, block: u64, pointer: u64, found: LocatedCounter) -> Left
        requires found { found.count ≡ count_at block pointer self.old.attached }
        ensures left { result ≡ left_of true (count_at block pointer self.old.attached) }
        ensures attached { self.new.attached ≡ attached_by (detach true block pointer self.old.attached) self.old.attached }
        ensures counter_max { self.new.counter_max ≡ self.old.counter_max }
        ensures spare { self.old.spare ≤ self.new.spare }
    {
        if found.count == 0 {
            return Left::Nothing;
        }
        self.counters.take_out(block, pointer, found.place);
        Left::Zero
    }

    /// Sets the counters of all pointers of a block to zero, as where the block is freed.
    pub fn forget(&mut self, block: u64)
        ensures attached { self.new.attached ≡ without_attachments block self.old.attached }
        ensures counter_max { self.new.counter_max ≡ self.old.counter_max }
        ensures spare { self.old.spare ≤ self.new.spare }
    {
        self.counters.take_out_all(block);
    }

    // ---- transfers

    /// The least host address at or above `from` at which an attached pointer of a block begins; `None` where there is
    /// none. A pointer may reach past the last `u64`.
    pub fn next_pointer(&self, block: u64, from: u64) -> Option<u64>
        ensures { result ≡ next_pointer block from self.now.attached }
    {
        self.counters.next(block, from)
    }

    /// As [`Attached::next_pointer`], and where its counter stands. It is looked for first at a place and right behind
    /// it. So a transfer goes from pointer to pointer without a search. Any place may be handed in.
    pub fn next_pointer_near(&self, block: u64, from: u64, near: Place) -> (Option<u64>, Place)
        ensures { result.0 ≡ next_pointer block from self.now.attached }
    {
        self.counters.next_near(block, from, near)
    }

    // ---- copies

    /// The counters above zero in a vector of their own, by rising block and pointer. They stay as they are.
    ///
    /// It allocates for the result alone, exactly so many counters, and goes through them once.
    ///
    /// # Errors
    ///
    /// [`Fault::Memory`] alone.
    pub fn copy_counters(&self, alloc: Global) -> Result<Vec<Attachment>, Fault>
        ensures ok { IfOk result (λ counters. counters.items ≡ self.now.attached) }
        ensures only { IfErr result (λ fault. fault ≡ Fault.Memory) }
    {
        self.counters.copy_counters(alloc)
    }

    // ---- room

    /// Makes room for so many more counters above zero, so that [`Attached::aim_reserved`] allocates nothing.
    ///
    /// # Errors
    ///
    /// [`Fault::Memory`] alone, only where that room was missing. The room has not shrunk then.
    pub fn reserve(&mut self, count: u64) -> Result<(), Fault>
        ensures ok { OnOk result (count ≤ self.new.spare) }
        ensures only { IfErr result (λ fault. fault ≡ Fault.Memory) }
        ensures needed { OnErr result (self.old.spare < count) }
        ensures attached { self.new.attached ≡ self.old.attached }
        ensures counter_max { self.new.counter_max ≡ self.old.counter_max }
        ensures spare { self.old.spare ≤ self.new.spare }
    {
        self.counters.reserve(count)
    }
}
