//! The register of open data regions.

ghost use Rattle.std.specs.Prelude.{◌≡◌, ◌+◌, ◌<◌, ◌≤◌, ◌⊎◌, [], length, map, None, Some, IsSome, IfOk, IfErr, OnOk, OnErr, MatchOption, vec_capacity};
ghost use Rattle.acc_base.specs.Register.{region_at, newest_region, holdings_at, with_region, without_region};
ghost use Rattle.acc_present.specs.Present.{AreNumbered, IsPlaceMissing, region_of};

use crate::copying::copy_regions_of;
use acc_base::{Fault, Holding};
use acc_index::Index;
use std::alloc::{AllocError, Global};
use std::marker::Model;
use std::mem;

/// An open region (OpenACC 3.3, section 2.6.5, the data construct).
pub struct OpenRegion {
    /// The number of the region.
    pub number: u64,
    /// What each item of its entry counted, in written order.
    pub holdings: Vec<Holding>,
}

// By hand, so that a crate above does not prove the drops of its parts again.
impl Drop for OpenRegion {
    fn drop(self) {
        let OpenRegion {
            number: _,
            holdings: _,
        } = self;
    }
}

impl Clone for OpenRegion {
    ghost is_clone = { λ region copy. region_of copy ≡ region_of region };

    /// The same region.
    ///
    /// # Errors
    ///
    /// [`AllocError`] where there is no memory for what it holds.
    fn clone(&self) -> Result<OpenRegion, AllocError> {
        Ok(OpenRegion {
            number: self.number,
            holdings: self.holdings.clone()?,
        })
    }
}

/// The open regions.
///
/// What they hold stands in an [`Index`], by their numbers. So the newest region is found at once, and an older one
/// mostly is. A region that is left moves no other one. A clone has the regions, and may have no room for more.
#[derive(Drop)]
pub struct Register {
    alloc: Global,
    regions: Index<Vec<Holding>>,
    // Empty, with room for the holdings of the next region.
    spare: Vec<Holding>,
}

impl Model for Register {
    ghost use Rattle.std.specs.Prelude.{◌≡◌, [], vec_capacity};
    ghost use Rattle.acc_present.specs.Kept.{RegisterState, regions_in};

    ghost Value = { RegisterState };

    ghost view = { λ r. record { regions = regions_in r.regions.entries; gone = r.regions.gone; room = r.regions.room; holdings = vec_capacity r.spare } };

    ghost invariant = { λ r. r.spare.items ≡ [] };
}

impl Clone for Register {
    ghost is_clone = { λ register copy. copy.regions ≡ register.regions };

    fn clone(&self) -> Result<Register, AllocError> {
        Ok(Register {
            alloc: self.alloc,
            regions: self.regions.clone()?,
            spare: Vec::new(self.alloc),
        })
    }
}

impl Register {
    /// No region.
    pub fn new(alloc: Global) -> Register
        ensures { result.regions ≡ [] }
    {
        Register {
            alloc,
            regions: Index::new(alloc),
            spare: Vec::new(alloc),
        }
    }

    /// What holds of all open regions, and that no more places are kept for regions that are gone than are open.
    pub fn laws(&self)
        ensures numbered { AreNumbered self.now.regions }
        ensures few { self.now.gone ≤ length self.now.regions }
    {
        self.regions.laws();
    }

    /// How many regions are open.
    pub fn len(&self) -> u64
        ensures { result ≡ length self.now.regions }
    {
        self.regions.len() as u64
    }

    /// The number of the open region that was entered last, if one is open.
    pub fn newest(&self) -> Option<u64>
        ensures { result ≡ newest_region self.now.regions }
    {
        self.regions.last()
    }

    /// What an open region holds, or `None` where there is none of that number.
    pub fn holdings(&self, number: u64) -> Option<&[Holding]>
        ensures { MatchOption result (holdings_at number self.now.regions ≡ None) (λ h. holdings_at number self.now.regions ≡ Some h.now) }
    {
        let holdings = self.regions.get(number)?;
        Some(holdings)
    }

    /// The open regions by rising number, in a vector of their own.
    pub fn copy_regions(&self, alloc: Global) -> Result<Vec<OpenRegion>, Fault>
        ensures ok { IfOk result (λ regions. map region_of regions.items ≡ self.now.regions) }
        ensures exact { IfOk result (λ regions. vec_capacity regions ≡ length self.now.regions) }
        ensures only { IfErr result (λ fault. fault ≡ Fault.Memory) }
    {
        copy_regions_of(&self.regions, alloc)
    }

    /// Makes room for so many more regions, the next of which has so many holdings. Places of regions that are gone are
    /// taken for others first, where they are a quarter of all or more. It is refused only where room for holdings was
    /// missing, or that for regions was and such places were fewer or not enough.
    pub fn reserve(&mut self, regions: usize, holdings: usize) -> Result<(), Fault>
        ensures regions { self.new.regions ≡ self.old.regions }
        ensures ok { OnOk result (regions ≤ self.new.room) }
        ensures ok_holdings { OnOk result (holdings ≤ self.new.holdings) }
        ensures only { IfErr result (λ fault. fault ≡ Fault.Memory) }
        ensures needed { OnErr result ((self.old.room < regions) ⊎ (self.old.holdings < holdings)) }
        ensures cleared { OnErr result (IsPlaceMissing regions self.old.room self.old.gone (length self.old.regions) ⊎ (self.old.holdings < holdings)) }
        ensures room { self.old.room ≤ self.new.room }
        ensures room_holdings { self.old.holdings ≤ self.new.holdings }
    {
        self.regions.reserve(regions)?;
        self.spare.reserve(holdings)?;
        Ok(())
    }

    /// Opens a region, where there is room for one.
    pub fn enter_reserved(&mut self, number: u64, holdings: Vec<Holding>)
        requires room { 1 ≤ self.old.room }
        requires new { region_at number self.old.regions ≡ None }
        ensures regions { self.new.regions ≡ with_region (record { number = number; holdings = holdings.items }) self.old.regions }
        ensures room { self.old.room ≤ self.new.room + 1 }
        ensures room_holdings { self.old.holdings ≤ self.new.holdings }
    {
        self.regions.insert(number, holdings);
    }

    /// An empty list, with the room that was made for the holdings of the next region. None is left.
    pub fn spare_holdings(&mut self) -> Vec<Holding>
        ensures none { result.items ≡ [] }
        ensures capacity { vec_capacity result ≡ self.old.holdings }
        ensures regions { self.new.regions ≡ self.old.regions }
        ensures room { self.old.room ≤ self.new.room }
    {
        mem::replace(&mut self.spare, Vec::new(self.alloc))
    }

    /// The region is no longer open.
    pub fn leave(&mut self, number: u64)
        requires { IsSome (region_at number self.old.regions) }
        ensures regions { self.new.regions ≡ without_region number self.old.regions }
        ensures room { self.old.room ≤ self.new.room }
        ensures room_holdings { self.old.holdings ≤ self.new.holdings }
    {
        // Nothing told its place. A look at the first one costs no search.
        self.regions.take_out_near(number, 0);
    }
}
