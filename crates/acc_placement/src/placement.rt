//! The holes of a space of device addresses.

ghost use Rattle.std.specs.Prelude.{◌≡◌, ◌&&◌, ℕ, List, ◌+◌, ◌*◌, ◌%◌, ◌^◌, ◌<◌, ◌≤◌, ◌⊎◌, ◌↔◌, [], ◌∷◌, ◌++◌, All, length, nat_le, find, IfOk, IfErr, IfSome, IfNone, Err, OnErr, OnOk};
ghost use Rattle.acc_base.specs.Limits.{IsSize, IsFromOne};
ghost use Rattle.acc_base.specs.Blocks.{rounded as rounded_of};
ghost use Rattle.acc_base.specs.Holes.{total, free_in};
ghost use Rattle.acc_placement.specs.Ranges.{all_rounded, IsFit, IsLeastFit, IsFitBeside, IsLeastFitBeside, IsTakeBelow};
ghost use Rattle.acc_placement.specs.Space.{IsCanonical, IsFresh, IsSameSpace, IsPartition, IsTaken, IsTakenFrom, IsGivenBack};

use crate::beside::past;
use crate::filling::fill;
use crate::hole_iter::HoleIter;
use crate::rounding::rounded;
use crate::tree::Tree;
use acc_base::{Fault, Free, MEMORY_MAX, Steps};
use std::alloc::{AllocError, Global};
use std::marker::Model;

/// A space of device addresses: some ranges of it are taken, and the others are its holes.
///
/// Places are device addresses and sizes are bytes. Each range has the size of its length rounded up to a multiple of
/// 16, and each place is a multiple of 16. Contracts see the space as its base, its size and its holes by rising place.
/// They also see the number of ranges that are taken, and the number that can still be taken without allocating. The
/// caller knows which ranges are taken: its list of them, in any order, and the holes are the space.
pub struct Holes {
    base: u64,
    size: u64,
    // With the nodes that wait there are more than there are taken ranges, so that `give_back` needs no memory.
    holes: Tree,
    taken: u64,
    used: u64,
}

// By hand, so that a crate above does not prove the drops of its parts again.
impl Drop for Holes {
    fn drop(self) {
        let Holes {
            base: _,
            size: _,
            holes: _,
            taken: _,
            used: _,
        } = self;
    }
}

impl Model for Holes {
    ghost use Rattle.acc_placement.specs.Space.{Space};

    ghost Value = { Space };

    ghost use Rattle.acc_placement.specs.Holes.{space_of, AreHolesSound};

    ghost view = { space_of };

    ghost invariant = { AreHolesSound };
}

impl Clone for Holes {
    ghost is_clone = { IsSameSpace };

    /// A space with the same holes, and with the room to give each taken range back.
    ///
    /// # Errors
    ///
    /// [`AllocError`] where there is no memory for its nodes.
    fn clone(&self) -> Result<Holes, AllocError> {
        let mut holes = self.holes.clone()?;
        let nodes = self.taken + 1;
        if holes.reserve(nodes.saturating_sub(holes.len())).is_err() {
            return Err(AllocError);
        }
        Ok(Holes { holes, ..*self })
    }
}

impl Holes {
    ghost use Rattle.acc_placement.specs.HoleIter.{holes_left};

    /// A space of `size` bytes from the device address `base` on, of which nothing is taken. The base is a multiple of
    /// 16, at most 2^40; the size is a multiple of 16, from 16 to 67,108,864.
    ///
    /// # Errors
    ///
    /// [`Fault::Memory`] alone.
    pub fn new(alloc: Global, base: u64, size: u64) -> Result<Holes, Fault>
        requires base_limit { base ≤ 2 ^ 40 }
        requires base_aligned { base % 16 ≡ 0 }
        requires size { IsSize size }
        ensures ok { IfOk result (λ holes. IsFresh holes base size) }
        ensures canonical { IfOk result IsCanonical }
        ensures partition { IfOk result (λ holes. IsPartition holes []) }
        ensures only { IfErr result (λ fault. fault ≡ Fault.Memory) }
    {
        let mut holes = Tree::new(alloc);
        holes.reserve(1)?;
        holes.insert((base, size));
        Ok(Holes {
            base,
            size,
            holes,
            taken: 0,
            used: 0,
        })
    }

    /// Takes the least place at which `need` bytes, rounded up to a multiple of 16, are free. The need is from 1 to
    /// 67,108,864.
    ///
    /// # Errors
    ///
    /// [`Fault::DeviceFull`] with item 0 and the rounded need, exactly where no hole is large enough; else only
    /// [`Fault::Memory`], where there was no spare room. The space is then as before, but for its spare room, which did
    /// not shrink.
    pub fn take(&mut self, need: u64) -> Result<u64, Fault>
        requires need { IsFromOne MEMORY_MAX need }
        ensures place { IfOk result (IsLeastFit self.old.holes (rounded_of need)) }
        ensures taken { IfOk result (λ place. IsTakenFrom self.old self.new place (rounded_of need)) }
        ensures canonical { IsCanonical self.new }
        ensures partition { IfOk result (λ place. (ts : List (ℕ × ℕ)) → IsPartition self.old ts → IsPartition self.new ((place, rounded_of need) ∷ ts)) }

        // Each error, and what it leaves.
        ensures full { (result ≡ Err (Fault.DeviceFull 0 (rounded_of need))) ↔ ((q : ℕ) → IsFit self.old.holes (rounded_of need) q → ⊥) }
        ensures only { IfErr result (λ fault. (fault ≡ Fault.Memory) ⊎ (fault ≡ Fault.DeviceFull 0 (rounded_of need))) }
        ensures unchanged { OnErr result (IsSameSpace self.old self.new) }
        ensures memory { result ≡ Err Fault.Memory → self.old.spare ≡ 0 }
        ensures spare { self.old.spare ≤ self.new.spare + 1 }
        ensures spare_kept { OnErr result (self.old.spare ≤ self.new.spare) }
    {
        let Some(_) = self.fit_counted(need, &mut Steps::new()) else {
            return Err(Fault::DeviceFull {
                item: 0,
                need: rounded(need),
            });
        };
        self.reserve(1)?;
        Ok(self.take_reserved(need))
    }

    /// The place that [`Holes::take`] would choose; `None` exactly where no hole is large enough. It makes at most two
    /// steps for each binary digit of the number of holes, and one at least where there is a hole. At most 2^32 steps
    /// were counted before. It needs no memory.
    pub fn fit_counted(&self, need: u64, steps: &mut Steps) -> Option<u64>
        requires need { IsFromOne MEMORY_MAX need }
        requires limit { steps.old ≤ 2 ^ 32 }
        ensures place { IfSome result (IsLeastFit self.now.holes (rounded_of need)) }
        ensures none { IfNone result ((q : ℕ) → IsFit self.now.holes (rounded_of need) q → ⊥) }
        ensures not_fewer { steps.old ≤ steps.new }
        ensures least { 0 < length self.now.holes → steps.old < steps.new }
        ensures steps { (d : ℕ) → length self.now.holes < 2 ^ d → steps.new ≤ steps.old + 2 * d }
        ensures canonical { IsCanonical self.now }
    {
        let hole = self.holes.first_fit_counted(rounded(need), steps)?;
        Some(hole.0)
    }

    /// Makes room for `count` more taken ranges, at most 2^32, so that so many calls of [`Holes::take_reserved`] need
    /// no memory.
    ///
    /// # Errors
    ///
    /// [`Fault::Memory`] alone, where the room was missing. The space is as before, but for its spare room, which never
    /// shrinks here.
    pub fn reserve(&mut self, count: u64) -> Result<(), Fault>
        requires limit { count ≤ 2 ^ 32 }
        ensures ok { OnOk result (count ≤ self.new.spare) }
        ensures unchanged { IsSameSpace self.old self.new }
        ensures canonical { IsCanonical self.new }
        ensures spare { self.old.spare ≤ self.new.spare }
        ensures only { IfErr result (λ fault. fault ≡ Fault.Memory) }
        ensures memory { OnErr result (self.old.spare < count) }
    {
        let nodes = self.taken + 1 + count;
        self.holes.reserve(nodes.saturating_sub(self.holes.len()))
    }

    /// Takes as [`Holes::take`] does, where a hole is large enough and there is room. It needs no memory.
    pub fn take_reserved(&mut self, need: u64) -> u64
        requires need { IsFromOne MEMORY_MAX need }
        requires room { 1 ≤ self.old.spare }
        requires fits { (q : ℕ) × IsFit self.old.holes (rounded_of need) q }
        ensures place { IsLeastFit self.old.holes (rounded_of need) result }
        ensures taken { IsTakenFrom self.old self.new result (rounded_of need) }
        ensures canonical { IsCanonical self.new }
        ensures partition { (ts : List (ℕ × ℕ)) → IsPartition self.old ts → IsPartition self.new ((result, rounded_of need) ∷ ts) }
        ensures spare { self.old.spare ≤ self.new.spare + 1 }
    {
        let size = rounded(need);
        let hole = self.holes.take_front(size);
        self.taken += 1;
        self.used += size;
        hole.0
    }

    /// Where [`Holes::take`] would place `need` bytes after takes of the listed places and lengths. It is the least
    /// place at which the rounded need is free and in none of the listed ranges. `None` exactly where there is none. It
    /// needs no memory.
    ///
    /// Each listed length is from 1 to 67,108,864, and each listed range ends within the space.
    pub fn would_take(&self, listed: &[(u64, u64)], need: u64) -> Option<u64>
        requires need { IsFromOne MEMORY_MAX need }
        requires listed { All (IsTakeBelow (self.now.base + self.now.size)) listed.now }
        ensures place { IfSome result (IsLeastFitBeside self.now.holes (all_rounded listed.now) (rounded_of need)) }
        ensures none { IfNone result ((q : ℕ) → IsFitBeside self.now.holes (all_rounded listed.now) (rounded_of need) q → ⊥) }
        ensures aligned { All (λ t. t.0 % 16 ≡ 0) listed.now → IfSome result (λ place. place % 16 ≡ 0) }
    {
        let size = rounded(need);
        let top = self.base + self.size;
        let mut from = 0;
        // A hole that is too small holds no such place, and is passed over by the greatest sizes.
        while let Some((start, room)) = self.next_fit(from, size) {
            let place = past(listed, start, size, top);
            if place + size <= start + room {
                return Some(place);
            }
            from = start + 1;
        }
        None
    }

    /// The hole of least place at or above `from` that has `size` bytes, with its place and its size.
    fn next_fit(&self, from: u64, size: u64) -> Option<(u64, u64)>
        requires some { 0 < size }
        ensures value { result ≡ find (λ h. nat_le from h.0 && nat_le size h.1) self.now.holes }
        ensures canonical { IsCanonical self.now }
    {
        self.holes.first_fit_from(from, size)
    }

    /// Gives back a range that was taken at `place` with this need and not given back since. The new hole is merged
    /// with those that it touches. It needs no memory, is never refused, and leaves room for one take more.
    pub fn give_back(&mut self, place: u64, need: u64)
        requires need { IsFromOne MEMORY_MAX need }
        requires taken { IsTaken self.old place (rounded_of need) }
        ensures given_back { IsGivenBack self.old self.new place (rounded_of need) }
        ensures canonical { IsCanonical self.new }
        ensures partition { (before after : List (ℕ × ℕ)) → IsPartition self.old (before ++ (place, rounded_of need) ∷ after) → IsPartition self.new (before ++ after) }
        ensures spare { self.old.spare + 1 ≤ self.new.spare }
    {
        let size = rounded(need);
        fill(&mut self.holes, place, size);
        self.taken -= 1;
        self.used -= size;
    }

    /// The device address from which on the space lies.
    pub fn base(&self) -> u64
        ensures { result ≡ self.now.base }
    {
        self.base
    }

    /// How many bytes are taken: the sum of the sizes of the taken ranges.
    pub fn used(&self) -> u64
        ensures rest { result + total self.now.holes ≡ self.now.size }
        ensures sum { (ts : List (ℕ × ℕ)) → IsPartition self.now ts → result ≡ total ts }
    {
        self.used
    }

    /// What the holes come to: the size of the largest, their bytes, and how many they are. All three are known, so no
    /// walk is made.
    pub fn free(&self) -> Free
        ensures { result ≡ free_in self.now.holes }
    {
        Free {
            largest: self.holes.greatest(),
            bytes: self.size - self.used,
            count: self.holes.len(),
        }
    }

    /// The holes by rising place, each with its place and its size in bytes.
    pub fn holes(&self) -> HoleIter<'_>
        ensures value { holes_left result ≡ self.now.holes }
        ensures canonical { IsCanonical self.now }
    {
        let _ = &self.base;
        HoleIter::new(self)
    }

    /// The hole of least place at or above the device address `from`, with its place and its size in bytes; `None`
    /// where there is none. It needs no memory.
    pub fn next_hole(&self, from: u64) -> Option<(u64, u64)>
        ensures { result ≡ find (λ h. nat_le from h.0) self.now.holes }
    {
        self.holes.around(from).1
    }

    /// The bounds of the space, and that its holes are multiples of 16, rise and do not touch. Nothing is done.
    pub(crate) fn laws(&self)
        ensures { IsCanonical self.now }
    {
        let _ = &self.base;
    }
}
