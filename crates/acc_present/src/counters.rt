//! The counters by rising block and pointer, each found by its key.

ghost use Rattle.std.specs.Prelude.{◌≡◌, ◌+◌, ◌<◌, ◌≤◌, ◌==◌, ◌↔◌, IsTrue, [], find, None, IsSome, OnOk, OnErr, IfOk, IfErr};
ghost use Rattle.acc_base.specs.Accounts.{EachPair};
ghost use Rattle.acc_base.specs.Attachments.{IsBefore, is_of, count_at, with_count, without_attachment, without_attachments, next_pointer};
ghost use Rattle.acc_ordered.specs.Listing.{keyed};
ghost use Rattle.acc_present.specs.KeptCounters.{is_from, counter_in, key_of as key_for};

use acc_base::{Attachment, Fault};
use acc_ordered::{OrderedList, Place, Telling};
use std::alloc::{AllocError, Global};
use std::marker::Model;

/// The keys of two blocks that follow one another lie so far apart: one for each host address.
const ADDRESSES: u128 = 0x1_0000_0000_0000_0000;

/// The key of the counter of a pointer in a block.
fn key_of(block: u64, pointer: u64) -> u128
    ensures { result ≡ key_for block pointer }
{
    u128::from(block) * ADDRESSES + u128::from(pointer)
}

/// The counter under a key: its block and its pointer are in the key. `count` is how often that is attached.
fn to_counter(key: u128, count: u64) -> Attachment
    ensures { result ≡ counter_in (keyed key count) }
{
    Attachment {
        block: (key / ADDRESSES) as u64,
        pointer: (key % ADDRESSES) as u64,
        count,
    }
}

/// Copies each entry as the counter that it stands for.
#[derive(Clone, Copy)]
struct AsCounter;

impl Telling<u128, u64, Attachment> for AsCounter {
    ghost told = { λ as_counter key count. counter_in (keyed key count) };

    fn tell(&self, key: u128, count: u64) -> Attachment {
        to_counter(key, count)
    }
}

/// What a search finds of a counter.
#[derive(Clone, Copy)]
pub struct LocatedCounter {
    /// How often the pointer is attached.
    pub count: u64,
    /// Where the counter stands, or where its place is looked for first.
    pub place: Place,
}

/// The counters above zero, and room for more of them. A clone has the counters, and may have no room for more.
#[derive(Drop)]
pub struct CounterList {
    // Each count stands under the key of its pointer.
    counts: OrderedList<u128, u64>,
    // No counter is of a block above this one. Most blocks have none, and a block above needs no search. It never falls.
    highest: u64,
}

impl Model for CounterList {
    ghost use Rattle.acc_present.specs.KeptCounters.{CountersState, counters_in, AreUpTo};

    ghost Value = { CountersState };

    ghost view = { λ c. record { counters = counters_in c.counts.entries; room = c.counts.room } };

    ghost invariant = { λ c. AreUpTo c.highest c.counts.entries };
}

impl Clone for CounterList {
    ghost is_clone = { λ list copy. copy.counters ≡ list.counters };

    fn clone(&self) -> Result<CounterList, AllocError> {
        Ok(CounterList {
            counts: self.counts.clone()?,
            highest: self.highest,
        })
    }
}

impl CounterList {
    /// No counter. It needs no memory.
    pub fn new(alloc: Global) -> CounterList
        ensures { result.counters ≡ [] }
    {
        CounterList {
            counts: OrderedList::new(alloc),
            highest: 0,
        }
    }

    /// Makes room for `count` more counters. It is refused only where that room was missing.
    pub fn reserve(&mut self, count: u64) -> Result<(), Fault>
        ensures counters { self.new.counters ≡ self.old.counters }
        ensures ok { OnOk result (count ≤ self.new.room) }
        ensures only { IfErr result (λ fault. fault ≡ Fault.Memory) }
        ensures needed { OnErr result (self.old.room < count) }
        ensures room { self.old.room ≤ self.new.room }
    {
        self.counts.reserve(count)
    }

    /// The counters above zero by rising block and pointer, in a vector of their own.
    pub fn copy_counters(&self, alloc: Global) -> Result<Vec<Attachment>, Fault>
        ensures ok { IfOk result (λ counters. counters.items ≡ self.now.counters) }
        ensures only { IfErr result (λ fault. fault ≡ Fault.Memory) }
    {
        self.counts.copy_entries(alloc, &AsCounter)
    }

    /// Whether there is no counter.
    pub fn is_empty(&self) -> bool
        ensures { IsTrue result ↔ (self.now.counters ≡ []) }
    {
        self.counts.is_empty()
    }

    /// How often a pointer of a block is attached, and where its counter stands.
    pub fn find(&self, block: u64, pointer: u64) -> LocatedCounter
        ensures { result.count ≡ count_at block pointer self.now.counters }
    {
        if self.highest < block {
            return LocatedCounter {
                count: 0,
                place: Place::default(),
            };
        }
        let (found, place) = self.counts.look_up(key_of(block, pointer));
        match found {
            Some(found) => LocatedCounter {
                count: *found.value,
                place,
            },
            None => LocatedCounter { count: 0, place },
        }
    }

    /// The least address at or above `from` at which an attached pointer of a block begins.
    pub fn next(&self, block: u64, from: u64) -> Option<u64>
        ensures { result ≡ next_pointer block from self.now.counters }
    {
        self.next_near(block, from, Place::default()).0
    }

    /// The counter of the first pointer of a block at or above an address, or else the first counter of a later block,
    /// and where it stands. It is looked for first at a place and right behind it.
    fn first_near(&self, block: u64, pointer: u64, near: Place) -> (Option<Attachment>, Place)
        ensures found { result.0 ≡ find (is_from block pointer) self.now.counters }
        ensures rising { EachPair IsBefore self.now.counters }
    {
        self.counts.laws();
        if self.highest < block {
            return (None, near);
        }
        let (found, place) = self.counts.next_near(key_of(block, pointer), near);
        match found {
            Some(found) => (Some(to_counter(found.key, *found.value)), place),
            None => (None, place),
        }
    }

    /// As [`CounterList::next`], and where the counter stands. It is looked for first at a place and right behind it.
    pub fn next_near(&self, block: u64, from: u64, near: Place) -> (Option<u64>, Place)
        ensures { result.0 ≡ next_pointer block from self.now.counters }
    {
        let (first, place) = self.first_near(block, from, near);
        let Some(counter) = first else {
            return (None, place);
        };
        if counter.block == block {
            (Some(counter.pointer), place)
        } else {
            (None, place)
        }
    }

    /// Gives a counter that is zero another value, where there is room for it. It is put near a place.
    pub fn add(&mut self, block: u64, pointer: u64, count: u64, near: Place)
        requires some { 0 < count }
        requires new { find (is_of block pointer) self.old.counters ≡ None }
        requires room { 1 ≤ self.old.room }
        ensures counters { self.new.counters ≡ with_count block pointer count self.old.counters }
        ensures room { self.old.room ≤ self.new.room + 1 }
    {
        self.highest = self.highest.max(block);
        self.counts.insert(key_of(block, pointer), count, near);
    }

    /// Gives a counter that is not zero another value, which is not zero. It is looked for first near a place.
    pub fn set(&mut self, block: u64, pointer: u64, count: u64, near: Place)
        requires some { 0 < count }
        requires there { IsSome (find (is_of block pointer) self.old.counters) }
        ensures counters { self.new.counters ≡ with_count block pointer count self.old.counters }
        ensures room { self.old.room ≤ self.new.room }
    {
        self.counts.laws();
        self.counts.set(key_of(block, pointer), count, near);
    }

    /// Takes out a counter, which then is zero. It is looked for first near a place.
    pub fn take_out(&mut self, block: u64, pointer: u64, near: Place)
        requires { IsSome (find (is_of block pointer) self.old.counters) }
        ensures counters { self.new.counters ≡ without_attachment block pointer self.old.counters }
        ensures room { self.old.room ≤ self.new.room }
    {
        self.counts.remove(key_of(block, pointer), near);
    }

    /// Takes out the counters of a block.
    pub fn take_out_all(&mut self, block: u64)
        ensures counters { self.new.counters ≡ without_attachments block self.old.counters }
        ensures room { self.old.room ≤ self.new.room }
    {
        if self.highest < block {
            return;
        }
        let mut near = Place::default();
        loop {
            let (next, place) = self.next_near(block, 0, near);
            let Some(pointer) = next else {
                return;
            };
            self.take_out(block, pointer, place);
            // The next one moves up to there.
            near = place;
        }
    }
}
