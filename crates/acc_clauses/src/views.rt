//! What a directive of one device sees, to look at.

ghost use Rattle.std.specs.Prelude.{◌≡◌, ◌≤◌, IfOk, IfErr};
ghost use Rattle.acc_base.specs.declared.faults.Fault.TheVariants.{Memory};
ghost use Rattle.acc_base.specs.Limits.{IsWithinBounds};
ghost use Rattle.acc_base.specs.Section.{device_memory};
ghost use Rattle.acc_base.specs.Blocks.{used_bytes};
ghost use Rattle.acc_base.specs.Holes.{IsDevice};
ghost use Rattle.acc_base.specs.Devices.{recorded_device};
ghost use Rattle.acc_clauses.specs.Contents.{IsStateSound};
ghost use Rattle.acc_clauses.specs.Devices.{device_in_view};

use crate::bases::DeviceBase;
use crate::environments::Environment;
use acc_base::{Config, Fault};
use acc_dev::HostMem;
use std::alloc::Global;
use std::marker::Model;

mod blocks;
mod mappings;
mod pointers;
mod queues;
mod regions;

/// What a directive of one device sees. It is what the device has, host memory, and the numbers of the next region and
/// the next loan. A device has mapped ranges with their counters, blocks, attached pointers, queues and loans, and the
/// open regions that were entered on it.
///
/// Contracts see the limits of the device and the state.
#[derive(Drop)]
pub struct View<'a> {
    pub(crate) config: &'a Config,
    pub(crate) number: u64,
    pub(crate) environment: &'a Environment,
    pub(crate) host: &'a HostMem,
    pub(crate) next_region: u64,
    pub(crate) next_serial: u64,
    // How many blocks of the device are lent.
    pub(crate) lent: u64,
}

impl<'a> Model for View<'a> {
    ghost use Rattle.acc_base.specs.Limits.{limits_on};
    ghost use Rattle.acc_clauses.specs.Contents.{beside, state_of, ArePartsSound};
    ghost use Rattle.acc_clauses.specs.Devices.{Seen};

    ghost Value = { Seen };

    ghost view = { λ v. record { limits = limits_on v.number v.config.now; state = state_of (beside v.environment.now v.host.now) (record { region = v.next_region; serial = v.next_serial }) } };

    ghost invariant = { λ v. ArePartsSound (limits_on v.number v.config.now) (beside v.environment.now v.host.now) v.lent };
}

impl View<'_> {
    /// The state is sound, and the limits lie within their bounds. The blocks and the holes that [`View::hole`]
    /// returns are the device, with no address in two of them. Nothing is done.
    pub fn laws(&self)
        ensures sound { IsStateSound self.now.limits self.now.state }
        ensures limits { IsWithinBounds self.now.limits }
        ensures used { used_bytes self.now.state.records.blocks ≤ self.now.limits.device }
        ensures holes { IsDevice (device_memory self.now.limits) self.now.state.records.blocks }
    {
        self.environment.device.laws();
    }

    /// The size of host memory in bytes.
    pub(crate) fn host_size(&self) -> u64
        ensures { result ≡ self.now.limits.host }
    {
        self.config.host()
    }

    /// The greatest value of a counter.
    pub(crate) fn counter_max(&self) -> u64
        ensures { result ≡ self.now.limits.counter_max }
    {
        self.config.counter_max()
    }

    /// How many transfers may wait in a queue.
    pub(crate) fn queue_cap(&self) -> u64
        ensures { result ≡ self.now.limits.queue_cap }
    {
        self.config.queue_cap()
    }

    /// What the device has at this moment: the bytes of its blocks only with `full`.
    ///
    /// # Errors
    ///
    /// [`Fault::Memory`] alone.
    pub fn saved(&self, alloc: Global, full: bool) -> Result<DeviceBase, Fault>
        ensures ok { IfOk result (λ saved. saved ≡ recorded_device full (device_in_view self.now.state)) }
        ensures only { IfErr result (λ fault. fault ≡ Memory) }
    {
        let environment = self.environment;
        let ranges = environment.present.copy_ranges(alloc)?;
        let regions = environment.present.copy_regions(alloc)?;
        let blocks = environment.device.copy_blocks(alloc)?;
        // Where there is none, blocks aren't gone through.
        let loans = match self.lent {
            0 => Vec::new(alloc),
            _ => environment.device.copy_loans(alloc)?,
        };
        let attached = environment.attached.copy_counters(alloc)?;
        let queues = environment.queues.copy_queues(alloc)?;
        let memories = if full {
            environment.device.copy_memories(alloc)?
        } else {
            Vec::new(alloc)
        };
        Ok(DeviceBase {
            ranges,
            blocks,
            attached,
            births: environment.device.next_block() - 1,
            queues,
            loans,
            regions,
            memories,
        })
    }
}
