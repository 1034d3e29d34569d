//! An ordered list of entries in rows, each found by its key.
ghost use Rattle.std.specs.Prelude.{ℕ, ◌≡◌, ◌↔◌, IsTrue, ◌+◌, ◌*◌, ◌^◌, ◌<◌, ◌≤◌, [], length, Some, None, IsSome, IfOk, IfErr, OnOk, OnErr, IfSome};
ghost use Rattle.acc_ordered.specs.Listing.{KeysRise, keyed, at_key, first_from, last_before, with_entry, without_key, with_value, told_in, seen};

use crate::changes::{make_place, make_rows, put, start, take_out, write};
use crate::copying::{copy_keys, copy_rows};
use crate::entries::{KeyValueRef, Neighbors, Telling};
use crate::finding::{ahead, entry_at, entry_from, find_near, locate, neighbors, place_of};
use crate::keys::Key;
use crate::places::Place;
use crate::rows::Row;
use acc_base::{Fault, Steps};
use std::alloc::{AllocError, Global};
use std::collections::VecDeque;
use std::marker::Model;

/// The greatest number of rows of a list.
const ROWS_MAX: u64 = 1 << 57;

/// Entries by rising key, and room for more of them.
///
/// They stand in rows of up to 64, keys apart from values, and the least key of each row in a list of its own. A look-up
/// is a search in that list and one in a row, and neither takes a branch by a key. A change moves entries of one row or
/// two. If a row comes or goes, it also moves the list of rows before it or behind it, whichever are fewer. So a row at
/// either end moves none. Memory for them is asked for by [`OrderedList::reserve`] and `clone` alone. An entry more uses up at most one row that waits. Many more
/// need fewer rows, since two rows beside each other have more than 32 entries.
///
/// A call that takes a [`Place`] looks there first.
pub struct OrderedList<K: Key, T: Copy> {
    alloc: Global,
    // The least key of each row.
    firsts: VecDeque<K>,
    // By rising key. None is empty.
    rows: VecDeque<Row<K, T>>,
    // Rows without entries, which wait for more.
    spare: Vec<Row<K, T>>,
    // How many entries there are.
    len: u64,
}

// By hand, so that a crate above does not prove the drops of its parts again.
impl<K: Key, T: Copy> Drop for OrderedList<K, T> {
    fn drop(self) {
        let OrderedList {
            alloc: _,
            firsts: _,
            rows: _,
            spare: _,
            len: _,
        } = self;
    }
}

impl<K: Key, T: Copy> Model for OrderedList<K, T> {
    ghost use Rattle.acc_ordered.specs.Listing.{Listing};

    ghost Value = { Listing T };

    ghost use Rattle.acc_ordered.specs.Sound.{listing_in_rows, AreSoundRows};

    ghost view = { listing_in_rows };

    ghost invariant = { AreSoundRows K.number };
}

impl<K: Key, T: Copy> Clone for OrderedList<K, T> {
    ghost is_clone = { λ list copy. copy.entries ≡ list.entries };

    /// The same entries, in rows of their own; no row waits.
    ///
    /// # Errors
    ///
    /// [`AllocError`] where there is no memory for them.
    fn clone(&self) -> Result<OrderedList<K, T>, AllocError> {
        let firsts = copy_keys(self.alloc, &self.firsts)?;
        let rows = self.rows.clone()?;
        // The invariant wants a place among the rows that wait for each row.
        let spare = Vec::with_capacity(self.alloc, rows.len())?;
        Ok(OrderedList {
            alloc: self.alloc,
            firsts,
            rows,
            spare,
            len: self.len,
        })
    }
}

impl<K: Key, T: Copy> OrderedList<K, T> {
    /// No entries and no room. It needs no memory.
    pub fn new(alloc: Global) -> OrderedList<K, T>
        ensures entries { result.entries ≡ [] }
        ensures room { result.room ≡ 0 }
    {
        OrderedList {
            alloc,
            firsts: VecDeque::new(alloc),
            rows: VecDeque::new(alloc),
            spare: Vec::new(alloc),
            len: 0,
        }
    }

    /// Makes room for `count` more entries.
    ///
    /// # Errors
    ///
    /// [`Fault::Memory`] alone, where the room was missing, or would take more than 2^57 rows. The entries are as before,
    /// and the room never shrinks here.
    pub fn reserve(&mut self, count: u64) -> Result<(), Fault>
        ensures ok { OnOk result (count ≤ self.new.room) }
        ensures entries { self.new.entries ≡ self.old.entries }
        ensures room { self.old.room ≤ self.new.room }
        ensures only { IfErr result (λ fault. fault ≡ Fault.Memory) }
        ensures memory { OnErr result (self.old.room < count) }
    {
        if count <= self.spare.len() as u64 {
            return Ok(());
        }
        let Some(entries) = self.len.checked_add(count) else {
            return Err(Fault::Memory);
        };
        // Each two rows beside each other have more than half of the entries of one. So these rows are always enough.
        let enough = entries.saturating_add(15) / 16 + 1;
        if enough > ROWS_MAX {
            return Err(Fault::Memory);
        }
        let waiting = count.min(enough - self.rows.len() as u64);
        make_rows(
            self.alloc,
            &mut self.firsts,
            &mut self.rows,
            &mut self.spare,
            waiting as usize,
        )
    }

    /// The entry of a key, if it is there, and where it stands. Else the place is the one where it would be put.
    #[inline]
    pub fn look_up(&self, key: K) -> (Option<KeyValueRef<'_, K, T>>, Place)
        ensures { seen K.number result.0 ≡ at_key (K.number key) self.now.entries }
    {
        let place = place_of(&self.firsts, &self.rows, key, &mut Steps::new());
        let Some(entry) = entry_from(&self.rows, place) else {
            return (None, place);
        };
        if key.is_below(entry.key) {
            (None, place)
        } else {
            (Some(entry), ahead(&self.rows, place))
        }
    }

    /// Whether there is no entry.
    #[inline]
    pub fn is_empty(&self) -> bool
        ensures { IsTrue result ↔ (self.now.entries ≡ []) }
    {
        self.rows.is_empty()
    }

    /// The entries on both sides of a key. They are looked for first right behind a place, and then at it. It takes at
    /// most two steps for each binary digit of the number of entries, and at least one where there are entries. A step
    /// is a halving of the list of rows, or the look into one row. Not counted are the keys compared in that row, and
    /// among the up to 64 rows that are left: at most fifteen each. Nor is the one that tells which end of the list is
    /// searched, nor the up to four beside the place. At most 2^32 were counted before.
    #[inline]
    pub fn around_counted(&self, key: K, near: Place, steps: &mut Steps) -> Neighbors<'_, K, T>
        requires limit { steps.old ≤ 2 ^ 32 }
        ensures before { seen K.number result.before ≡ last_before (K.number key) self.now.entries }
        ensures from { seen K.number result.from ≡ first_from (K.number key) self.now.entries }
        ensures not_fewer { steps.old ≤ steps.new }
        ensures least { 0 < length self.now.entries → steps.old < steps.new }
        ensures steps { (d : ℕ) → length self.now.entries < 2 ^ d → steps.new ≤ steps.old + 2 * d }
    {
        if self.rows.is_empty() {
            return Neighbors {
                before: None,
                from: None,
                place: Place::default(),
            };
        }
        let place = find_near(&self.firsts, &self.rows, key, near, steps);
        steps.tick();
        neighbors(&self.rows, place)
    }

    /// The entry that stands at a place, if one does.
    #[inline]
    pub fn at(&self, place: Place) -> Option<KeyValueRef<'_, K, T>>
        ensures { IfSome result (λ found. at_key (K.number found.key) self.now.entries ≡ seen K.number result) }
    {
        entry_at(&self.rows, place)
    }

    /// The entry of least key from `key` on.
    #[inline]
    pub fn next(&self, key: K) -> Option<KeyValueRef<'_, K, T>>
        ensures { seen K.number result ≡ first_from (K.number key) self.now.entries }
    {
        let place = place_of(&self.firsts, &self.rows, key, &mut Steps::new());
        entry_from(&self.rows, place)
    }

    /// As [`OrderedList::next`], and where that entry stands. It is looked for first at a place and right behind it.
    #[inline]
    pub fn next_near(&self, key: K, near: Place) -> (Option<KeyValueRef<'_, K, T>>, Place)
        ensures { seen K.number result.0 ≡ first_from (K.number key) self.now.entries }
    {
        if self.is_empty() {
            return (None, near);
        }
        let place = find_near(&self.firsts, &self.rows, key, near, &mut Steps::new());
        let Some(entry) = entry_from(&self.rows, place) else {
            return (None, place);
        };
        (Some(entry), ahead(&self.rows, place))
    }

    /// Puts a value under a key that is not there yet, and returns where it stands. The place is looked for first right
    /// behind another, and at that. It needs no memory.
    pub fn insert(&mut self, key: K, value: T, near: Place) -> Place
        requires room { 1 ≤ self.old.room }
        requires new { at_key (K.number key) self.old.entries ≡ None }
        ensures entries { self.new.entries ≡ with_entry (keyed (K.number key) value) self.old.entries }
        ensures room { self.old.room ≤ self.new.room + 1 }
    {
        self.len += 1;
        if self.rows.is_empty() {
            start(
                &mut self.firsts,
                &mut self.rows,
                &mut self.spare,
                key,
                value,
            );
            return Place { row: 0, at: 0 };
        }
        let found = find_near(&self.firsts, &self.rows, key, near, &mut Steps::new());
        let place = make_place(&mut self.firsts, &mut self.rows, &mut self.spare, found);
        put(&mut self.firsts, &mut self.rows, place, key, value);
        place
    }

    /// Takes out the entry of a key that is there. It is looked for first near a place.
    pub fn remove(&mut self, key: K, near: Place)
        requires there { IsSome (at_key (K.number key) self.old.entries) }
        ensures entries { self.new.entries ≡ without_key (K.number key) self.old.entries }
        ensures room { self.old.room ≤ self.new.room }
    {
        let place = locate(&self.firsts, &self.rows, key, near);
        take_out(&mut self.firsts, &mut self.rows, &mut self.spare, place);
        self.len -= 1;
    }

    /// Writes the value of a key that is there. It is looked for first near a place.
    #[inline]
    pub fn set(&mut self, key: K, value: T, near: Place)
        requires there { IsSome (at_key (K.number key) self.old.entries) }
        ensures entries { self.new.entries ≡ with_value (K.number key) value self.old.entries }
        ensures room { self.new.room ≡ self.old.room }
    {
        let place = locate(&self.firsts, &self.rows, key, near);
        write(&mut self.rows, place, value);
    }

    /// A copy of each entry by rising key, in a vector of their own.
    ///
    /// # Errors
    ///
    /// [`Fault::Memory`] alone.
    pub fn copy_entries<U: Copy, C: Telling<K, T, U>>(
        &self,
        alloc: Global,
        telling: &C,
    ) -> Result<Vec<U>, Fault>
        ensures ok { IfOk result (λ copied. copied.items ≡ told_in (C.told telling.now) self.now.entries) }
        ensures only { IfErr result (λ fault. fault ≡ Fault.Memory) }
    {
        copy_rows(alloc, &self.rows, self.len, telling)
    }

    /// That the keys rise, and that the room is a `u64`. Nothing is done.
    pub fn laws(&self)
        ensures rising { KeysRise self.now.entries }
        ensures limit { self.now.room < 2 ^ 64 }
    {
        let _ = &self.rows;
    }
}
