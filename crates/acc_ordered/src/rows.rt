//! Rows of entries by rising key, whose keys stand apart from the values.
ghost use Rattle.std.specs.Prelude.{ℕ, ◌≡◌, ◌+◌, ◌<◌, ◌≤◌, [], ◌++◌, Some, IfOk, IfErr, OnOk, length, nat_lt, take, drop, vec_len, vec_capacity, slice_get, slice_set as set};
ghost use Rattle.std.specs.List.{insert, remove};
ghost use Rattle.acc_base.specs.Splits.{IsSplitBy};
ghost use Rattle.acc_ordered.specs.Listing.{KeyValue, KeysRise, keyed, entry_in, told_in};

use crate::entries::{KeyValueRef, Telling};
use crate::keys::Key;
use crate::search::count_below;
use acc_base::{Fault, Steps};
use std::alloc::{AllocError, Global};
use std::marker::Model;

/// How many entries a row has place for.
pub const WIDTH: usize = 64;

/// At most 64 entries, seen as the list of them. A search reads the keys alone.
#[derive(Drop)]
pub struct Row<K: Key, T> {
    keys: Vec<K>,
    // The value of each key.
    values: Vec<T>,
}

impl<K: Key, T> Model for Row<K, T> {
    ghost use Rattle.std.specs.Prelude.{List};
    ghost use Rattle.acc_ordered.specs.Listing.{KeyValue};

    ghost Value = { List (KeyValue T) };

    ghost use Rattle.acc_ordered.specs.Paired.{entries_of, IsPaired};

    ghost view = { entries_of K.number };

    ghost invariant = { IsPaired };
}

impl<K: Key, T: Copy> Clone for Row<K, T> {
    ghost is_clone = { λ row copy. copy ≡ row };

    /// A row of the same entries.
    ///
    /// # Errors
    ///
    /// [`AllocError`] where there is no memory for it.
    fn clone(&self) -> Result<Row<K, T>, AllocError> {
        // Only memory can be missing.
        let Ok(mut copy) = Row::new(*self.keys.allocator()) else {
            return Err(AllocError);
        };
        copy.append(self);
        Ok(copy)
    }
}

/// Puts an item at a place of a list that has room for it, before those that stood there. It takes fewer steps than an
/// insertion of what cannot be copied.
#[inline]
fn insert_copy<T: Copy>(items: &mut Vec<T>, place: usize, item: T)
    requires within { place ≤ vec_len items.old }
    requires room { vec_len items.old < vec_capacity items.old }
    ensures items { items.new.items ≡ insert items.old.items place item }
    ensures len { vec_len items.new ≡ vec_len items.old + 1 }
    ensures capacity { vec_capacity items.new ≡ vec_capacity items.old }
{
    let len = items.len();
    items.push_reserved(item);
    items.copy_within(place..len, place + 1);
    items[place] = item;
}

/// Takes out the item at a place of a list. It takes fewer steps than to take out what cannot be copied.
#[inline]
fn remove_copy<T: Copy>(items: &mut Vec<T>, place: usize)
    requires { place < vec_len items.old }
    ensures items { items.new.items ≡ remove items.old.items place }
    ensures len { vec_len items.new + 1 ≡ vec_len items.old }
    ensures capacity { vec_capacity items.new ≡ vec_capacity items.old }
{
    let len = items.len();
    items.copy_within(place + 1..len, place);
    items.truncate(len - 1);
}

impl<K: Key, T: Copy> Row<K, T> {
    /// A row without entries.
    pub fn new(alloc: Global) -> Result<Row<K, T>, Fault>
        ensures ok { IfOk result (λ row. row ≡ []) }
        ensures only { IfErr result (λ fault. fault ≡ Fault.Memory) }
    {
        let keys = Vec::with_capacity(alloc, WIDTH)?;
        let values = Vec::with_capacity(alloc, WIDTH)?;
        Ok(Row { keys, values })
    }

    /// How many entries there are.
    #[inline]
    pub fn len(&self) -> usize
        ensures value { result ≡ length self.now }
        ensures most { result ≤ 64 }
    {
        self.keys.len()
    }

    /// The entry at a place.
    #[inline]
    pub fn at(&self, place: usize) -> KeyValueRef<'_, K, T>
        requires { place < length self.now }
        ensures { slice_get self.now place ≡ Some (entry_in K.number result) }
    {
        KeyValueRef {
            key: self.keys[place],
            value: &self.values[place],
        }
    }

    /// How many entries have a key below `key`.
    #[inline]
    pub fn place(&self, key: K) -> usize
        requires { KeysRise self.now }
        ensures { IsSplitBy (λ e. nat_lt e.key (K.number key)) self.now result }
    {
        count_below(&self.keys, key, &mut Steps::new())
    }

    /// Puts an entry at a place, before those that stood there.
    #[inline]
    pub fn insert_at(&mut self, place: usize, key: K, value: T)
        requires within { place ≤ length self.old }
        requires free { length self.old < 64 }
        ensures { self.new ≡ insert self.old place (keyed (K.number key) value) }
    {
        insert_copy(&mut self.keys, place, key);
        insert_copy(&mut self.values, place, value);
    }

    /// Takes out the entry at a place.
    #[inline]
    pub fn remove_at(&mut self, place: usize)
        requires { place < length self.old }
        ensures { self.new ≡ remove self.old place }
    {
        remove_copy(&mut self.keys, place);
        remove_copy(&mut self.values, place);
    }

    /// Gives the entry at a place another value.
    #[inline]
    pub fn write_at(&mut self, place: usize, value: T)
        requires { place < length self.old }
        ensures { (entry : KeyValue T) → slice_get self.old place ≡ Some entry → self.new ≡ set self.old place (record entry { value = value }) }
    {
        self.values[place] = value;
    }

    /// Moves the entries from a place on to another row, which had none.
    pub fn cut(&mut self, place: usize, upper: &mut Row<K, T>)
        requires within { place ≤ length self.old }
        requires empty { upper.old ≡ [] }
        ensures lower { self.new ≡ take place self.old }
        ensures upper { upper.new ≡ drop place self.old }
    {
        let _ = upper.keys.extend_from_slice(&self.keys[place..]);
        let _ = upper.values.extend_from_slice(&self.values[place..]);
        self.keys.truncate(place);
        self.values.truncate(place);
    }

    /// Puts the entries of another row behind its own.
    pub fn append(&mut self, upper: &Row<K, T>)
        requires { length self.old + length upper.now ≤ 64 }
        ensures { self.new ≡ self.old ++ upper.now }
    {
        let _ = self.keys.extend_from_slice(&upper.keys);
        let _ = self.values.extend_from_slice(&upper.values);
    }

    /// Takes out all entries.
    pub fn clear(&mut self)
        ensures { self.new ≡ [] }
    {
        self.keys.clear();
        self.values.clear();
    }

    /// Puts a copy of each entry behind those that are copied already.
    pub fn copy_into<U: Copy, C: Telling<K, T, U>>(
        &self,
        telling: &C,
        copied: &mut Vec<U>,
    ) -> Result<(), Fault>
        ensures ok { OnOk result (copied.new.items ≡ copied.old.items ++ told_in (C.told telling.now) self.now) }
        ensures only { IfErr result (λ fault. fault ≡ Fault.Memory) }
    {
        for place in 0..self.keys.len() {
            copied.push(telling.tell(self.keys[place], self.values[place]))?;
        }
        Ok(())
    }
}
