//! What the devices of a table had at one moment.

ghost use Rattle.std.specs.Prelude.{◌≡◌, MatchBool};
ghost use Rattle.std.specs.Cmp.{partial_equiv_from_equiv};
ghost use Rattle.acc_clauses.specs.Alike.{are_same_records, is_same_device, is_same_base, device_equiv, base_equiv};

use crate::comparing::{are_same_memories, are_same_regions};
use acc_base::{Attachment, Block, Loan, Range, Transfer};
use acc_dev::SavedBlock;
use acc_present::OpenRegion;
use std::alloc::AllocError;
use std::marker::Model;

/// What one device had at one moment: everything but bytes, and those of its blocks too where they were asked for.
pub struct DeviceBase {
    pub(crate) ranges: Vec<Range>,
    pub(crate) blocks: Vec<Block>,
    pub(crate) attached: Vec<Attachment>,
    pub(crate) births: u64,
    pub(crate) queues: Vec<Vec<Transfer>>,
    pub(crate) loans: Vec<Loan>,
    pub(crate) regions: Vec<OpenRegion>,
    pub(crate) memories: Vec<SavedBlock>,
}

// By hand, so that a crate above does not prove the drops of its parts again.
impl Drop for DeviceBase {
    fn drop(self) {
        let DeviceBase {
            ranges: _,
            blocks: _,
            attached: _,
            births: _,
            queues: _,
            loans: _,
            regions: _,
            memories: _,
        } = self;
    }
}

impl Model for DeviceBase {
    ghost use Rattle.std.specs.Prelude.{map};
    ghost use Rattle.std.specs.Vec.{vec_items};
    ghost use Rattle.acc_base.specs.Devices.{OneDevice};
    ghost use Rattle.acc_dev.specs.Device.{memory_saved};
    ghost use Rattle.acc_present.specs.Present.{region_of};

    ghost Value = { OneDevice };

    ghost view = { λ b. record {
      records = record { ranges = b.ranges.items; blocks = b.blocks.items; attached = b.attached.items; births = b.births; queues = map vec_items b.queues.items; loans = b.loans.items };
      regions = map region_of b.regions.items;
      memories = map memory_saved b.memories.items;
    } };
}

impl Clone for DeviceBase {
    ghost is_clone = { λ base copy. copy ≡ base };

    /// The same, in vectors of its own.
    ///
    /// # Errors
    ///
    /// [`AllocError`] where there is no memory for them.
    #[tactic(auto, using(std::proofs::lemmas::List::Elements::same_from_all_zip, acc_present::proofs::Copied::same_of_clones))]
    fn clone(&self) -> Result<DeviceBase, AllocError> {
        Ok(DeviceBase {
            ranges: self.ranges.clone()?,
            blocks: self.blocks.clone()?,
            attached: self.attached.clone()?,
            births: self.births,
            queues: self.queues.clone()?,
            loans: self.loans.clone()?,
            regions: self.regions.clone()?,
            memories: self.memories.clone()?,
        })
    }
}

impl PartialEq for DeviceBase {
    ghost eq = { is_same_device };

    ghost laws = { partial_equiv_from_equiv device_equiv };

    /// Whether both had the same: on record, in open regions, and of the bytes of blocks that were kept.
    fn eq(&self, other: &DeviceBase) -> bool
        ensures told { result ≡ is_same_device self.now other.now }
        ensures exact { MatchBool result (self.now ≡ other.now) (self.now ≡ other.now → ⊥) }
    {
        self.has_records_of(other)
            && are_same_regions(&self.regions, &other.regions)
            && are_same_memories(&self.memories, &other.memories)
    }
}

impl Eq for DeviceBase {
    ghost laws = { device_equiv };
}

impl DeviceBase {
    /// Whether the other one has the same on record, but for open regions.
    fn has_records_of(&self, other: &DeviceBase) -> bool
        ensures { result ≡ are_same_records self.now.records other.now.records }
    {
        (
            &self.ranges,
            &self.blocks,
            &self.attached,
            self.births,
            &self.queues,
            &self.loans,
        ) == (
            &other.ranges,
            &other.blocks,
            &other.attached,
            other.births,
            &other.queues,
            &other.loans,
        )
    }

    /// The mapped ranges by rising host address, each with its block and both counters (OpenACC 3.3, section 2.6.7).
    pub fn ranges(&self) -> &[Range]
        ensures { result.now ≡ self.now.records.ranges }
    {
        &self.ranges
    }
}

/// What a table had when so many events had led there: everything but bytes, and all memories too where these were asked
/// for, as with full traces. The events since are counted from here on.
pub struct Base {
    devices: Vec<DeviceBase>,
    next_region: u64,
    next_serial: u64,
    host: Vec<u8>,
    events: u64,
}

// By hand, so that a crate above does not prove the drops of its parts again.
impl Drop for Base {
    fn drop(self) {
        let Base {
            devices: _,
            next_region: _,
            next_serial: _,
            host: _,
            events: _,
        } = self;
    }
}

impl Model for Base {
    ghost use Rattle.acc_base.specs.Calls.{Base as BaseValue};

    ghost Value = { BaseValue };

    ghost view = { λ b. record {
      state = record { devices = b.devices.items; next = b.next_region; serial = b.next_serial; host = b.host.items };
      events = b.events;
    } };
}

impl Clone for Base {
    ghost is_clone = { λ base copy. copy ≡ base };

    /// The same, in vectors of its own.
    ///
    /// # Errors
    ///
    /// [`AllocError`] where there is no memory for them.
    fn clone(&self) -> Result<Base, AllocError> {
        Ok(Base {
            devices: self.devices.clone()?,
            next_region: self.next_region,
            next_serial: self.next_serial,
            host: self.host.clone()?,
            events: self.events,
        })
    }
}

impl PartialEq for Base {
    ghost eq = { is_same_base };

    ghost laws = { partial_equiv_from_equiv base_equiv };

    /// Whether both have the same devices, numbers and bytes of host memory, and as many events had led there.
    fn eq(&self, other: &Base) -> bool
        ensures told { result ≡ is_same_base self.now other.now }
        ensures exact { MatchBool result (self.now ≡ other.now) (self.now ≡ other.now → ⊥) }
    {
        (
            &self.devices,
            self.next_region,
            self.next_serial,
            &self.host,
            self.events,
        ) == (
            &other.devices,
            other.next_region,
            other.next_serial,
            &other.host,
            other.events,
        )
    }
}

impl Eq for Base {
    ghost laws = { base_equiv };
}

impl Base {
    /// A base of these devices, numbers and bytes of host memory, to which so many events had led.
    pub fn of(
        devices: Vec<DeviceBase>,
        next_region: u64,
        next_serial: u64,
        host: Vec<u8>,
        events: u64,
    ) -> Base
        ensures { result ≡ record { state = record { devices = devices.items; next = next_region; serial = next_serial; host = host.items }; events = events } }
    {
        Base {
            devices,
            next_region,
            next_serial,
            host,
            events,
        }
    }

    /// How many events had led there.
    pub fn events(&self) -> u64
        ensures { result ≡ self.now.events }
    {
        self.events
    }

    /// What each device had, by its number from 0 on.
    pub fn devices(&self) -> &[DeviceBase]
        ensures { result.now ≡ self.now.state.devices }
    {
        &self.devices
    }
}
