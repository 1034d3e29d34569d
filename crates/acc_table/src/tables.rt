//! A table, and one call on it.

ghost use Rattle.std.specs.Prelude.{◌≡◌, ◌<◌, Ok, Err, IfOk, IfErr, OnOk, OnErr, MatchResult};
ghost use Rattle.acc_base.specs.declared.calls.Call.TheVariants.{Do, HostWrite, Lend, Gather};
ghost use Rattle.acc_base.specs.declared.events.Event.TheVariants.{Lent};
ghost use Rattle.acc_base.specs.declared.faults.Fault.TheVariants.{Memory};
ghost use Rattle.acc_base.specs.Judge.{Makes};
ghost use Rattle.acc_base.specs.Limits.{IsWithinBounds};
ghost use Rattle.acc_base.specs.Devices.{device_of_region};
ghost use Rattle.acc_base.specs.Calls.{ticket, allowance, trace_room, device_for, device_there, new_world, judge};
ghost use Rattle.acc_base.specs.Accounts.{IsAccounted};
ghost use Rattle.acc_table.specs.declared.calls.Reply.TheVariants.{Done};
ghost use Rattle.acc_table.specs.Calls.{IsDone, IsRefusal};
ghost use Rattle.acc_table.specs.Devices.{whole_of, AreSet};
ghost use Rattle.acc_table.specs.Tables.{IsTableSound, world_of};
ghost use Rattle.acc_table.specs.Making.{admitted, write_admitted, IsLoanJudged, IsLeaseJudged};

use crate::calls::{Call, Reply};
use crate::devices::Devices;
use crate::lending::{gather, lend};
use crate::making::{carry_out, copy_to_host, write_host};
use acc_base::{Config, Directive, Event, Fault, List, Loan, Section};
use acc_clauses::{Base, Plan, check_host, check_items};
use acc_lend::Lease;
use std::alloc::Global;
use std::marker::Model;

/// The data environment of one to four devices (OpenACC 3.3, sections 2.5 and 2.6). It has host memory, and the trace
/// of all events since its base. Of each device it has the memory, mapped ranges and blocks, open data regions, blocks
/// that are lent to kernels, and queues of transfers.
///
/// One call is one event or no change. Contracts see a table as a world: its limits, its history and what its devices
/// have.
pub struct Table {
    // One pointer: so a table is moved, and its owners are checked, as cheaply as a number.
    pub(crate) data: Box<TableData>,
}

// By hand, so that a crate above does not prove the drops of its parts again.
impl Drop for Table {
    fn drop(self) {
        let Table { data: _ } = self;
    }
}

/// What a table has.
#[derive(Drop)]
pub(crate) struct TableData {
    pub(crate) config: Config,
    pub(crate) devices: Devices,
    pub(crate) base: Base,
    // The events since the base.
    pub(crate) trace: Vec<Event>,
    // What was planned last; it stands here so that no call has to make one. It is large, and so in a box: less of the
    // stack is taken while a table is made.
    pub(crate) plan: Box<Plan>,
}

impl Model for Table {
    ghost use Rattle.acc_base.specs.Calls.{World};
    ghost use Rattle.acc_table.specs.Tables.{IsTableSound, world_of};
    ghost use Rattle.acc_table.specs.Devices.{whole_of, AreSet};

    ghost Value = { World };

    ghost view = { λ t. world_of t.data.value.config t.data.value.base (whole_of t.data.value.devices) t.data.value.trace.items };

    ghost invariant = { λ t. IsTableSound (world_of t.data.value.config t.data.value.base (whole_of t.data.value.devices) t.data.value.trace.items) × AreSet t.data.value.config t.data.value.devices };
}

/// What a new table has.
fn new_data(alloc: Global, config: Config) -> Result<TableData, Fault>
    ensures sound { IfOk result (λ k. IsTableSound (world_of k.config k.base (whole_of k.devices) k.trace.items) × AreSet k.config k.devices) }
    ensures new { IfOk result (λ k. world_of k.config k.base (whole_of k.devices) k.trace.items ≡ new_world config) }
    ensures err { IfErr result (λ fault. fault ≡ Memory) }
{
    config.laws();
    let devices = Devices::new(alloc, &config)?;
    let base = devices.base(alloc, &config, config.full(), 0)?;
    let plan = Box::new(alloc, Plan::new())?;
    Ok(TableData {
        config,
        devices,
        base,
        trace: Vec::new(alloc),
        plan,
    })
}

impl Table {
    /// A new table: nothing is mapped, no region is open, and host memory is zero.
    ///
    /// # Errors
    ///
    /// [`Fault::Memory`] alone.
    pub fn new(alloc: Global, config: Config) -> Result<Table, Fault>
        ensures ok { IfOk result (λ table. table ≡ new_world config) }
        ensures err { IfErr result (λ fault. fault ≡ Memory) }
    {
        let data = new_data(alloc, config)?;
        Ok(Table {
            data: Box::new(alloc, data)?,
        })
    }

    /// What holds of every table; [`laws::hold`](crate::laws::hold) says it law by law. On each device mapped ranges
    /// and blocks are apart and account for every used byte. Each range has a block of its own, and each other block is
    /// named by a queued transfer. No range has both counters zero. Every counter is what the events of the device
    /// give, and within its limit; a structured counter is how often open regions hold its block. Each queue is within
    /// its limit, and each queued transfer within its block. Each loan is of a section within a mapped block. Each
    /// memory has its size where it is not lent. The device has what its own events alone lead to. The history is
    /// legal. With full traces all memories are what the events give from the base on; of a lent block that is the copy
    /// that is kept. The limits are within their bounds. Nothing is done.
    pub fn laws(&self)
        ensures accounted { IsAccounted self.now }
        ensures bounds { IsWithinBounds self.now.limits }
    {
        self.data.config.laws();
    }

    /// Makes one call: an event, or no change (OpenACC 3.3, sections 2.6.5, 2.6.6 and 2.16, and the update and wait
    /// directives). The reply to the step of an empty queue is [`Reply::Idle`]: it is no event, allocates nothing, and
    /// changes nothing.
    ///
    /// The reply to [`Call::Lend`](acc_base::Call::Lend) is a lease, which has the bytes of the block of its section
    /// (OpenACC 3.3, sections 2.5 and 2.6). [`Call::Gather`](acc_base::Call::Gather) moves them back. Until then no
    /// call reads or writes them.
    ///
    /// # Errors
    ///
    /// The call comes back, a lease with its bytes, and nothing changed. The fault is the first of these that holds:
    ///
    /// - [`Fault::NoTickets`] where there are as many events as tickets;
    /// - [`Fault::NoAllowance`] where a region is entered and as many are open as the limit says;
    /// - [`Fault::TooManyItems`] where a directive has more than 64 items;
    /// - [`Fault::TraceFull`] where the stored trace has as many events as it may;
    /// - [`Fault::NoDevice`] where a directive names a device that is not there;
    /// - [`Fault::NoRegion`] where no region of the number is open that is exited;
    /// - [`Fault::NoQueue`] where the directive names a queue above 15;
    /// - then, for the items in the order in which they act, the first of those below. Each item is judged in what
    ///   those before it leave. A refusal that names an item has its place in the written list:
    ///   - for a section that is not empty, [`Fault::OutOfHost`] where it is not in host memory;
    ///   - for the pointer of an item, [`Fault::OutOfHost`] where its eight bytes are not, and [`Fault::Misaligned`]
    ///     where its address is no multiple of 8;
    ///   - [`Fault::PartlyPresent`] where some of the section's addresses are mapped but no one range has them all;
    ///   - [`Fault::NotPresent`] where `present`, or `update` without `if_present`, names a section that is absent;
    ///   - [`Fault::CounterFull`] where an entry would raise a reference counter above the limit;
    ///   - [`Fault::DeviceFull`] where an entry needs a new block that fits nowhere;
    ///   - [`Fault::Lent`] where it would detach a pointer in a block that is lent;
    ///   - [`Fault::Lent`] where its step would take a counter from a block that is lent, or copy its bytes at once;
    ///   - [`Fault::QueueFull`] where its transfer is put into a queue that has as many as the limit says;
    ///   - [`Fault::Lent`] where an entry would attach its pointer, after its step, in a block that is lent;
    ///   - [`Fault::CounterFull`] where that would raise the attachment counter above the limit;
    /// - for a `wait`, or the step of a queue, [`Fault::Lent`] at the first transfer that it makes whose block is lent;
    /// - for a host write of some bytes, [`Fault::OutOfHost`] with item 0 where one of the addresses is not in host
    ///   memory;
    /// - for a loan, the first of those below, the three of its section with item 0:
    ///   - [`Fault::NoRegion`] where no region of the number is open;
    ///   - [`Fault::OutOfHost`] where the section is not empty and not in host memory;
    ///   - [`Fault::PartlyPresent`] where some of its addresses are mapped but no one range has them all;
    ///   - [`Fault::NotPresent`] where it is absent or empty;
    ///   - [`Fault::Lent`] where its block is lent;
    /// - for a lease that comes back, [`Fault::NoLease`] where one of those below holds:
    ///   - its block is not lent on its device under its serial number, place and length;
    ///   - it has not as many bytes as its block;
    ///   - with full traces, one of its bytes outside of the section is not what it was when the block was lent;
    /// - last [`Fault::Memory`], where there is no other refusal, something to do, and memory cannot be allocated.
    #[inline(always)]
    pub fn apply(&mut self, call: Call) -> Result<Reply, (Call, Fault)>
        ensures done { IfOk result (λ reply. IsDone self.old call reply self.new) }
        ensures refused { IfErr result (λ back. IsRefusal self.old call back.1) }
        ensures same { IfErr result (λ back. (back.0 ≡ call) × (self.new ≡ self.old)) }
    {
        match call {
            Call::Do(directive) => match self.direct(directive) {
                Ok(reply) => Ok(reply),
                Err((directive, fault)) => Err((Call::Do(directive), fault)),
            },
            Call::HostWrite { addr, bytes } => match self.write(addr, bytes) {
                Ok(reply) => Ok(reply),
                Err((bytes, fault)) => Err((Call::HostWrite { addr, bytes }, fault)),
            },
            Call::Lend { region, section } => match self.lend(region, section) {
                Ok(reply) => Ok(reply),
                Err(fault) => Err((Call::Lend { region, section }, fault)),
            },
            Call::Gather(lease) => match self.gather(lease) {
                Ok(reply) => Ok(reply),
                Err((lease, fault)) => Err((Call::Gather(lease), fault)),
            },
        }
    }

    /// Writes into host memory from an address on, as [`Call::HostWrite`](acc_base::Call::HostWrite) does. The bytes
    /// stay the caller's, and are copied once; with full traces the event has a second copy.
    ///
    /// # Errors
    ///
    /// The refusals of a host write that [`Table::apply`] lists, and in their order. Nothing changed.
    #[tactic(auto, using(crate::proofs::Verdicts::judge_write))]
    pub fn host_write(&mut self, addr: u64, bytes: &[u8]) -> Result<(), Fault>
        ensures done { OnOk result (IsDone self.old (HostWrite addr bytes.now) Done self.new) }
        ensures refused { IfErr result (IsRefusal self.old (HostWrite addr bytes.now)) }
        ensures same { OnErr result (self.new ≡ self.old) }
    {
        self.admit_write(Section {
            start: addr,
            len: bytes.len() as u64,
        })?;
        let data = &mut *self.data;
        let full = data.config.full();
        copy_to_host(&mut data.devices.shared, &mut data.trace, full, addr, bytes)?;
        Ok(())
    }

    /// Carries out a directive, or hands it back with what it is refused for.
    #[tactic(auto, using(crate::proofs::Verdicts::refused_before))]
    #[inline(always)]
    pub(crate) fn direct(&mut self, directive: Directive) -> Result<Reply, (Directive, Fault)>
        ensures done { IfOk result (λ reply. IsDone self.old (Do directive) reply self.new) }
        ensures refused { IfErr result (λ back. IsRefusal self.old (Do directive) back.1) }
        ensures same { IfErr result (λ back. (back.0 ≡ directive) × (self.new ≡ self.old)) }
    {
        let device = match self.admit(&directive) {
            Ok(device) => device,
            Err(fault) => return Err((directive, fault)),
        };
        let data = &mut *self.data;
        let devices = &mut data.devices;
        carry_out(
            &mut devices.each[device as usize],
            &mut devices.shared,
            &mut data.trace,
            &mut *data.plan,
            directive,
        )
    }

    /// There is a ticket for one more event.
    pub(crate) fn admit_ticket(&self) -> Result<(), Fault>
        ensures { result ≡ ticket self.now }
    {
        if self.data.config.tickets() <= self.events() {
            Err(Fault::NoTickets { left: 0 })
        } else {
            Ok(())
        }
    }

    /// There is an allowance for one more region, where the directive enters one.
    fn admit_region(&self, directive: &Directive) -> Result<(), Fault>
        ensures { result ≡ allowance self.now directive.now }
    {
        match directive {
            Directive::Enter { .. } => {
                if self.data.config.regions() <= self.regions() {
                    Err(Fault::NoAllowance { left: 0 })
                } else {
                    Ok(())
                }
            }
            _ => Ok(()),
        }
    }

    /// There is room in the trace for one more event.
    pub(crate) fn admit_event(&self) -> Result<(), Fault>
        ensures { result ≡ trace_room self.now }
    {
        let events = self.data.trace.len() as u64;
        if self.data.config.trace_cap() <= events {
            Err(Fault::TraceFull { len: events })
        } else {
            Ok(())
        }
    }

    /// There is such a device.
    fn admit_device(&self, device: u64) -> Result<(), Fault>
        ensures { result ≡ device_there self.now device }
    {
        if self.data.config.devices() <= device {
            Err(Fault::NoDevice { device })
        } else {
            Ok(())
        }
    }

    /// The device of a directive, or what is refused before its items are judged.
    #[tactic(auto, unfolding(crate::specs::Making::admitted))]
    #[inline(always)]
    pub(crate) fn admit(&self, directive: &Directive) -> Result<u64, Fault>
        ensures { MatchResult result (λ device. (device ≡ device_for directive.now self.now.state) × (admitted self.now directive.now ≡ Ok tt)) (λ fault. admitted self.now directive.now ≡ Err fault) }
    {
        self.admit_ticket()?;
        self.admit_region(directive)?;
        check_items(directive)?;
        self.admit_event()?;
        let device = self.device_for(directive);
        self.admit_device(device)?;
        Ok(device)
    }

    /// What a write of the host into this section is refused for.
    #[tactic(auto, unfolding(crate::specs::Making::write_admitted))]
    fn admit_write(&self, section: Section) -> Result<(), Fault>
        ensures { result ≡ write_admitted self.now section }
    {
        self.admit_ticket()?;
        self.admit_event()?;
        check_host(self.data.config.host(), 0, section)
    }

    /// Writes into host memory, or hands the bytes back with what that is refused for.
    #[tactic(auto, using(crate::proofs::Verdicts::judge_write))]
    pub(crate) fn write(&mut self, addr: u64, bytes: List<u8>) -> Result<Reply, (List<u8>, Fault)>
        ensures done { IfOk result (λ reply. IsDone self.old (HostWrite addr bytes) reply self.new) }
        ensures refused { IfErr result (λ back. IsRefusal self.old (HostWrite addr bytes) back.1) }
        ensures same { IfErr result (λ back. (back.0 ≡ bytes) × (self.new ≡ self.old)) }
    {
        let section = Section {
            start: addr,
            len: bytes.as_slice().len() as u64,
        };
        match self.admit_write(section) {
            Ok(()) => {
                let data = &mut *self.data;
                let full = data.config.full();
                write_host(&mut data.devices.shared, &mut data.trace, full, addr, bytes)?;
                Ok(Reply::Done)
            }
            Err(fault) => Err((bytes, fault)),
        }
    }

    /// Plans the loan of a section in an open region, on the region's device.
    #[tactic(auto, unfolding(acc_base::specs::Calls::judge))]
    fn admit_loan(&self, device: u64, region: u64, section: Section) -> Result<Loan, Fault>
        requires placed { device ≡ device_of_region region self.now.state }
        requires there { device < self.now.limits.devices }
        ensures { IsLoanJudged self.now region section result }
    {
        self.admit_ticket()?;
        self.admit_event()?;
        let devices = &self.data.devices;
        devices.each[device as usize].plan_loan(&devices.shared, region, section)
    }

    /// Lends the block of a section, and returns its lease.
    pub(crate) fn lend(&mut self, region: u64, section: Section) -> Result<Reply, Fault>
        ensures done { IfOk result (λ reply. IsDone self.old (Lend region section) reply self.new) }
        ensures refused { IfErr result (IsRefusal self.old (Lend region section)) }
        ensures same { OnErr result (self.new ≡ self.old) }
    {
        let device = self.device_of_region(region);
        let loan = self.admit_loan(device, region, section)?;
        let data = &mut *self.data;
        let devices = &mut data.devices;
        lend(
            &mut devices.each[device as usize],
            &mut devices.shared,
            &mut data.trace,
            region,
            section,
            loan,
        )
    }

    /// What bringing back a lease is refused for. With full traces it compares its bytes outside of the section.
    #[tactic(auto, unfolding(acc_base::specs::Calls::judge))]
    pub(crate) fn admit_lease(&self, lease: &Lease) -> Result<(), Fault>
        ensures judged { IsLeaseJudged self.now lease.now result }
        ensures there { OnOk result (lease.now.device < self.now.limits.devices) }
    {
        self.admit_ticket()?;
        self.admit_event()?;
        let devices = &self.data.devices;
        match devices.each.get(lease.device() as usize) {
            Some(device) => device.check_lease(&devices.shared, lease),
            None => Err(Fault::NoLease {
                serial: lease.serial(),
            }),
        }
    }

    /// Brings a lease back, or hands it back with what it is refused for.
    fn gather(&mut self, lease: Lease) -> Result<Reply, (Lease, Fault)>
        ensures done { IfOk result (λ reply. IsDone self.old (Gather lease) reply self.new) }
        ensures refused { IfErr result (λ back. IsRefusal self.old (Gather lease) back.1) }
        ensures same { IfErr result (λ back. (back.0 ≡ lease) × (self.new ≡ self.old)) }
    {
        match self.admit_lease(&lease) {
            Ok(()) => {
                let data = &mut *self.data;
                let full = data.config.full();
                let device = &mut data.devices.each[lease.device() as usize];
                gather(device, &mut data.trace, full, lease)
            }
            Err(fault) => Err((lease, fault)),
        }
    }
}
