//! What one device has, as one value, and how it changes.

ghost use Rattle.std.specs.Prelude.{ℕ, ◌≡◌, ◌+◌, ◌^◌, ◌<◌, ◌≤◌, List, [], All, IfOk, IfErr, OnOk, OnErr, IsSome, None, Ok, length, take, true, false};
ghost use Rattle.acc_base.specs.declared.faults.Fault.TheVariants.{Memory};
ghost use Rattle.acc_base.specs.Limits.{IsFromOne, IsWithinBounds, limits_on};
ghost use Rattle.acc_base.specs.Section.{device_memory};
ghost use Rattle.acc_base.specs.Holes.{IsDevice};
ghost use Rattle.acc_base.specs.declared.addresses.TheConstants.{MEMORY_MAX};
ghost use Rattle.acc_base.specs.Loans.{is_lent, none_lent};
ghost use Rattle.acc_base.specs.Leases.{is_returnable};
ghost use Rattle.acc_base.specs.Register.{region_at, with_region, without_region};
ghost use Rattle.acc_base.specs.Acting.{act_state};
ghost use Rattle.acc_base.specs.declared.transfers.TheConstants.{QUEUE_COUNT};
ghost use Rattle.acc_base.specs.Queues.{queue_at};
ghost use Rattle.acc_base.specs.Waits.{stepped};
ghost use Rattle.acc_base.specs.Blocks.{used_bytes};
ghost use Rattle.acc_base.specs.Devices.{new_device};
ghost use Rattle.acc_present.specs.Queued.{spare_at};
ghost use Rattle.acc_base.specs.Judge.{leased};
ghost use Rattle.acc_base.specs.Accounts.{AreRecordsSound, IsLoanSound};
ghost use Rattle.acc_clauses.specs.Contents.{Numbers};
ghost use Rattle.acc_clauses.specs.Stored.{AreContentsSound};
ghost use Rattle.acc_clauses.specs.Devices.{state_beside, contents_with, new_shared};
ghost use Rattle.acc_clauses.specs.Overlays.{puts_by, tasks_in, dids_in};
ghost use Rattle.acc_clauses.specs.Planned.{holdings_by};
ghost use Rattle.acc_clauses.specs.Lending.{lent_state, gathered_state};
ghost use Rattle.acc_clauses.specs.Acts.{IsJudged, IsKnown, HasRoomFor, HasPutRoom, HasRegionRoom, LacksRoom, IsRoomLeft, birth_of, pointers_of};

use crate::acted::Acted;
use crate::acting::act_on;
use crate::environments::Environment;
use crate::notes::note_holdings;
use crate::shared::Shared;
use crate::transfers::step;
use crate::views::View;
use acc_base::{Config, Fault, Loan};
use acc_dev::HostMem;
use acc_lend::Lease;
use acc_present::Place;
use std::alloc::{AllocError, Global};
use std::marker::Model;

/// What one device has, with its limits and its number. Its parts fit one another, whatever bytes host memory has.
///
/// Contracts see the limits, what the device has, and the room that was made for more.
pub struct DeviceData {
    config: Config,
    number: u64,
    environment: Environment,
    // How many blocks are lent.
    lent: u64,
}

// By hand, so that a crate above does not prove the drops of its parts again.
impl Drop for DeviceData {
    fn drop(self) {
        let DeviceData {
            config: _,
            number: _,
            environment: _,
            lent: _,
        } = self;
    }
}

impl Model for DeviceData {
    ghost use Rattle.acc_base.specs.Limits.{limits_on};
    ghost use Rattle.acc_clauses.specs.Devices.{DeviceContents, device_contents, IsDeviceSound};

    ghost Value = { DeviceContents };

    ghost view = { λ x. device_contents (limits_on x.number x.config) x.environment };

    ghost invariant = { λ x. IsDeviceSound (limits_on x.number x.config) x.environment x.lent };
}

impl Clone for DeviceData {
    ghost is_clone = { λ source copy. (copy.limits ≡ source.limits) × (copy.device ≡ source.device) };

    #[tactic(auto, using(crate::proofs::Copied::same_device_of, crate::proofs::Copied::same_device_sound))]
    fn clone(&self) -> Result<DeviceData, AllocError> {
        Ok(DeviceData {
            config: self.config,
            number: self.number,
            environment: self.environment.clone()?,
            lent: self.lent,
        })
    }
}

impl DeviceData {
    /// The device of a number of a new table: nothing is mapped, no region is open, and the queues are empty.
    ///
    /// # Errors
    ///
    /// [`Fault::Memory`] alone.
    pub fn new(alloc: Global, config: &Config, number: u64) -> Result<DeviceData, Fault>
        requires { number < config.now.devices }
        ensures limits { IfOk result (λ x. x.limits ≡ limits_on number config.now) }
        ensures device { IfOk result (λ x. x.device ≡ new_device) }
        ensures sound { IfOk result (λ x. AreContentsSound (contents_with x (new_shared config.now.host))) }
        ensures only { IfErr result (λ fault. fault ≡ Memory) }
    {
        config.laws();
        let environment = Environment::new(alloc, config, number)?;
        Ok(DeviceData {
            config: *config,
            number,
            environment,
            lent: 0,
        })
    }

    /// What a directive sees of the device, beside what all devices share.
    pub fn view<'a>(&'a self, shared: &'a Shared) -> View<'a>
        requires { length shared.now.host ≡ self.now.limits.host }
        ensures { result ≡ record { limits = self.now.limits; state = (contents_with self.now shared.now).state } }
    {
        View {
            config: &self.config,
            number: self.number,
            environment: &self.environment,
            host: &shared.host,
            next_region: shared.next_region,
            next_serial: shared.next_serial,
            lent: self.lent,
        }
    }

    /// The number of the device. A lease of another is refused by [`DeviceData::check_lease`].
    pub fn number(&self) -> u64
        ensures { result ≡ self.now.limits.number }
    {
        self.number
    }

    /// How many transfers wait in a queue.
    pub(crate) fn queue_len(&self, q: u64) -> u64
        ensures { result ≡ length (queue_at q self.now.device.records.queues) }
    {
        self.environment.queues.len(q)
    }

    /// The records are sound, and the limits lie within their bounds. The blocks and the holes between them are the
    /// device, with no address in two of them. Nothing is done.
    pub(crate) fn laws(&self)
        ensures sound { AreRecordsSound self.now.limits self.now.device.records }
        ensures limits { IsWithinBounds self.now.limits }
        ensures used { used_bytes self.now.device.records.blocks ≤ self.now.limits.device }
        ensures holes { IsDevice (device_memory self.now.limits) self.now.device.records.blocks }
    {
        self.environment.device.laws();
    }

    /// Does what a task is judged to do, where there is room for it. Its range is not searched for where it stands at the
    /// place. It allocates nothing and is never refused.
    #[inline(always)]
    pub(crate) fn act(&mut self, host: &mut HostMem, x: &Acted, near: Place)
        requires host { length host.old ≡ self.old.limits.host }
        requires judged { IsJudged self.old.limits x.now.task x.now.did self.old.device.records }
        requires known { IsKnown self.old.device.records x.now.task }
        requires births { self.old.device.records.births < 2 ^ 48 }
        requires room { HasRoomFor (birth_of x.now.task x.now.did.step) self.old.room }
        requires pointers { pointers_of x.now.did.aim ≤ self.old.room.attachments }
        requires puts { HasPutRoom (λ q. puts_by q x.now.task x.now.did.step) self.old.room }
        ensures limits { self.new.limits ≡ self.old.limits }
        ensures state { (n : Numbers) → state_beside self.new.device host.new n ≡ act_state x.now.task x.now.did (state_beside self.old.device host.old n) }
        ensures host { length host.new ≡ length host.old }
        ensures room { IsRoomLeft (birth_of x.now.task x.now.did.step) (pointers_of x.now.did.aim) (λ q. puts_by q x.now.task x.now.did.step) self.old.room self.new.room }
    {
        act_on(&mut self.environment, host, x, near);
    }

    /// Makes the first transfer of a queue, if it has one; its block is not lent. It allocates nothing and is never
    /// refused.
    pub(crate) fn step(&mut self, host: &mut HostMem, q: u64)
        requires host { length host.old ≡ self.old.limits.host }
        requires free { none_lent (take 1 (queue_at q self.old.device.records.queues)) self.old.device.records.loans ≡ Ok tt }
        ensures limits { self.new.limits ≡ self.old.limits }
        ensures state { (n : Numbers) → state_beside self.new.device host.new n ≡ stepped q (state_beside self.old.device host.old n) }
        ensures host { length host.new ≡ length host.old }
    {
        step(&mut self.environment, host, q);
    }

    /// Gives up the bytes that were made for births. It allocates nothing and is never refused.
    pub(crate) fn give_up_births(&mut self)
        ensures limits { self.new.limits ≡ self.old.limits }
        ensures device { self.new.device ≡ self.old.device }
        ensures room { self.new.room ≡ record self.old.room { births = [] } }
    {
        self.environment.device.give_up_room();
    }

    /// Makes room for births of blocks of these lengths, in this order, where no bytes are kept for other births. It
    /// also makes room for so many regions, the next of which has so many holdings, and for so many attachment
    /// counters. Nothing else changes, also where it is refused.
    ///
    /// # Errors
    ///
    /// [`Fault::Memory`] alone, where some of that room was missing. The bytes of a birth are always made anew. None
    /// are kept where it is refused.
    pub(crate) fn reserve_parts(
        &mut self,
        lens: &[u64],
        regions: u64,
        holdings: u64,
        pointers: u64,
    ) -> Result<(), Fault>
        requires few { length lens.now ≤ 64 }
        requires lens { All (IsFromOne MEMORY_MAX) lens.now }
        requires none { self.old.room.births ≡ [] }
        ensures limits { self.new.limits ≡ self.old.limits }
        ensures device { self.new.device ≡ self.old.device }
        ensures room { OnOk result (HasRoomFor lens.now self.new.room) }
        ensures births { OnOk result (self.new.room.births ≡ lens.now) }
        ensures refused { OnErr result (self.new.room.births ≡ []) }
        ensures room_region { OnOk result (HasRegionRoom regions holdings self.new.room) }
        ensures room_pointers { OnOk result (pointers ≤ self.new.room.attachments) }
        ensures puts { self.new.room.puts ≡ self.old.room.puts }
        ensures only { IfErr result (λ fault. fault ≡ Memory) }
        ensures needed { OnErr result (LacksRoom lens.now regions holdings pointers self.old.room) }
    {
        // Most directives need no room, and what follows would look at each list for it.
        if lens.is_empty() && regions == 0 && holdings == 0 && pointers == 0 {
            return Ok(());
        }
        self.environment
            .present
            .reserve(lens.len() as u64, regions, holdings)?;
        self.environment.attached.reserve(pointers)?;
        // Last comes what is large, so that none of it stays where other room is refused.
        self.environment.device.reserve(lens)
    }

    /// Makes room for so many transfers in a queue. Nothing else changes, also where it is refused.
    ///
    /// # Errors
    ///
    /// [`Fault::Memory`] alone, where that room was missing.
    pub(crate) fn reserve_puts(&mut self, q: u64, puts: u64) -> Result<(), Fault>
        requires known { q < QUEUE_COUNT }
        requires few { puts ≤ 64 }
        ensures limits { self.new.limits ≡ self.old.limits }
        ensures device { self.new.device ≡ self.old.device }
        ensures room { OnOk result (puts ≤ spare_at q self.new.room.puts) }
        ensures births { self.new.room.births ≡ self.old.room.births }
        ensures ranges { self.new.room.ranges ≡ self.old.room.ranges }
        ensures regions { self.new.room.regions ≡ self.old.room.regions }
        ensures holdings { self.new.room.holdings ≡ self.old.room.holdings }
        ensures attachments { self.new.room.attachments ≡ self.old.room.attachments }
        ensures only { IfErr result (λ fault. fault ≡ Memory) }
        ensures needed { OnErr result (spare_at q self.old.room.puts < puts) }
    {
        self.environment.queues.reserve(q, puts)
    }

    /// Opens a region of a number with what these tasks hold, where there is room for it. It allocates nothing.
    pub(crate) fn enter(&mut self, number: u64, acts: &[Acted])
        requires new { region_at number self.old.device.regions ≡ None }
        requires room { HasRegionRoom 1 (length (holdings_by (tasks_in acts.now) (dids_in acts.now))) self.old.room }
        ensures limits { self.new.limits ≡ self.old.limits }
        ensures device { self.new.device ≡ record self.old.device { regions = with_region (record { number = number; holdings = holdings_by (tasks_in acts.now) (dids_in acts.now) }) self.old.device.regions } }
    {
        let present = &mut self.environment.present;
        let mut holdings = present.spare_holdings();
        note_holdings(&mut holdings, acts);
        present.enter_reserved(number, holdings);
    }

    /// Closes an open region.
    pub(crate) fn leave(&mut self, number: u64)
        requires { IsSome (region_at number self.old.device.regions) }
        ensures limits { self.new.limits ≡ self.old.limits }
        ensures device { self.new.device ≡ record self.old.device { regions = without_region number self.old.device.regions } }
    {
        self.environment.present.leave(number);
    }

    /// Moves the bytes of a block that is not lent into a lease, for a loan. Its section lies in the range of the block. The
    /// lease has the number of the device. With full traces a copy of the bytes stays.
    ///
    /// # Errors
    ///
    /// [`Fault::Memory`], and with full traces alone. Nothing changed.
    pub(crate) fn take_out(&mut self, loan: Loan) -> Result<Lease, Fault>
        requires free { is_lent loan.block self.old.device.records.loans ≡ false }
        requires sound { IsLoanSound self.old.device.records.ranges loan }
        requires few { length self.old.device.records.loans < 2 ^ 48 }
        ensures lease { IfOk result (λ lease. (host : List ℕ) (n : Numbers) → lease ≡ leased self.old.limits.number loan (state_beside self.old.device host n)) }
        ensures limits { self.new.limits ≡ self.old.limits }
        ensures room { self.new.room ≡ self.old.room }
        ensures state { OnOk result ((host : List ℕ) (n : Numbers) → state_beside self.new.device host (record { region = n.region; serial = n.serial + 1 }) ≡ lent_state self.old.limits.full loan (state_beside self.old.device host n)) }
        ensures same { OnErr result (self.new.device ≡ self.old.device) }
        ensures only { IfErr result (λ fault. (self.old.limits.full ≡ true) × (fault ≡ Memory)) }
    {
        self.environment.device.laws();
        let keep = self.config.full();
        let lease = self
            .environment
            .device
            .take_out(loan.block, loan.serial, loan.offset, loan.len, keep)?;
        self.lent += 1;
        Ok(lease)
    }

    /// Moves the bytes of a lease back into its block. It allocates nothing and is never refused.
    pub(crate) fn put_back(&mut self, lease: Lease)
        requires { is_returnable self.old.limits.full self.old.limits.number lease self.old.device.records.blocks self.old.device.records.loans self.old.device.memories ≡ true }
        ensures limits { self.new.limits ≡ self.old.limits }
        ensures room { self.new.room ≡ self.old.room }
        ensures state { (host : List ℕ) (n : Numbers) → state_beside self.new.device host n ≡ gathered_state lease (state_beside self.old.device host n) }
    {
        self.lent = self.lent.saturating_sub(1);
        // The lease was compared with a copy that was kept when it was judged, so it isn't here.
        match self.environment.device.put_back(lease, false) {
            Ok(()) => {}
            Err((lease, _)) => lease.abandon(),
        }
    }
}
