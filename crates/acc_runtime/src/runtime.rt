//! The calls on a table under one lock, for any number of threads.

ghost use Rattle.std.specs.Prelude.{◌≡◌, ◌≤◌, if◌then◌else◌, length, vec_len, vec_capacity, Ok, IfOk, IfErr, OnOk, OnErr, MatchResult};
ghost use Rattle.std.specs.Fn.{FnOnceReturnsAt, FnOnceTakesAt};
ghost use Rattle.acc_base.specs.declared.calls.Call.TheVariants.{Do, HostWrite, Lend, Gather};
ghost use Rattle.acc_base.specs.declared.directives.Directive.TheVariants.{Enter, Exit, EnterData, ExitData, Update, Wait as WaitFor, Step};
ghost use Rattle.acc_base.specs.declared.faults.Fault.TheVariants.{Memory};
ghost use Rattle.acc_base.specs.Calls.{World};
ghost use Rattle.acc_base.specs.Clauses.{in_host};
ghost use Rattle.acc_table.specs.declared.calls.Reply.TheVariants.{Done, Entered, Drained, Idle, Lease as Lent};
ghost use Rattle.acc_table.specs.Replies.{IsReplyTo};
ghost use Rattle.acc_runtime.specs.Books.{IsSettled};
ghost use Rattle.acc_runtime.specs.Shared.{WasAccepted, WasRefused, WasRead, WasRebased};

use crate::callers::Caller;
use crate::calls;
use crate::ledgers::{Blanks, Limited};
use crate::lock::Runtime;
use crate::locked::Locked;
use crate::outcomes::{Outcome, done, drained, entered, exited, gathered, leased, stepped};
use crate::regions::Region;
use acc_base::{
    Config, EnterClause, ExitClause, Fault, HOST_BASE, Item, RegionClause, Section, UpdateClause,
};
use acc_lend::Lease;
use acc_table::{Call, Folded, Table};
use std::sync::Wait;
use std::sync::ledger::{Blank, Ledger};

impl<Regions: Limited, Tickets: Ledger, Events: Ledger> Runtime<Regions, Tickets, Events> {
    /// A runtime with a new table: nothing is mapped, no region is open, and host memory is zero. And its first caller,
    /// which has all regions and all tickets, and made no event. The blanks are those that [`blanks`] makes of the same
    /// configuration, each for the ledger whose type stands for it. That of the regions has the configuration as its
    /// limits ([`Limited`]).
    ///
    /// # Errors
    ///
    /// [`Fault::Memory`] alone.
    pub fn new<R: AllocGlobal>(
        rt: &R,
        config: Config,
        blanks: Blanks,
    ) -> Result<
        (
            Runtime<Regions, Tickets, Events>,
            Caller<Regions, Tickets, Events>,
        ),
        Fault,
    >
        requires regions { (blanks.regions.name ≡ Regions.name) × (blanks.regions.parts ≡ Regions.parts) × (config.regions ≡ Regions.parts) }
        requires tickets { (blanks.tickets.name ≡ Tickets.name) × (blanks.tickets.parts ≡ Tickets.parts) × (config.tickets ≡ Tickets.parts) }
        requires events { (blanks.events.name ≡ Events.name) × (blanks.events.parts ≡ Events.parts) × (config.tickets ≡ Events.parts) }
        requires limits { config ≡ Regions.limits }
        ensures runtime { IfOk result (λ made. made.0 ≡ config) }
        ensures caller { IfOk result (λ made. made.1 ≡ record { allowance = config.regions; tickets = config.tickets; made = 0 }) }
        ensures err { IfErr result (λ fault. fault ≡ Memory) }
    {
        let (locked, caller) = Locked::new(rt.alloc(), config, blanks)?;
        Ok((Runtime::of(locked), caller))
    }

    /// Makes one call, with the lock held for no longer.
    fn act<R: Wait>(
        &self,
        rt: &R,
        caller: &mut Caller<Regions, Tickets, Events>,
        call: Call,
    ) -> Outcome
        ensures accepted { IfOk result (λ reply. WasAccepted self.now caller.old call reply caller.new) }
        ensures reply { IfOk result (IsReplyTo call) }
        ensures refused { IfErr result (λ back. WasRefused self.now caller.old call back.1) }
        ensures same { IfErr result (λ back. (back.0 ≡ call) × (caller.new ≡ caller.old)) }
    {
        let mut locked = self.lock(rt);
        locked.laws();
        let outcome = locked.act(caller, call);
        locked.laws();
        outcome
    }

    /// Enters a data region on a device (OpenACC 3.3, section 2.6.5, data construct).
    ///
    /// # Errors
    ///
    /// Those of [`Locked::act`].
    pub fn enter<R: Wait>(
        &self,
        rt: &R,
        caller: &mut Caller<Regions, Tickets, Events>,
        device: u64,
        items: Vec<Item<RegionClause>>,
    ) -> Result<Region, Fault>
        ensures accepted { IfOk result (λ region. WasAccepted self.now caller.old (Do (Enter device items.items)) (Entered region) caller.new) }
        ensures refused { IfErr result (WasRefused self.now caller.old (Do (Enter device items.items))) }
        ensures same { OnErr result (caller.new ≡ caller.old) }
    {
        entered(self.act(rt, caller, calls::enter(device, items)))
    }

    /// Exits from an open data region, which is spent, on its own device (OpenACC 3.3, section 2.6.5, data construct).
    ///
    /// # Errors
    ///
    /// Those of [`Locked::act`]. The region comes back.
    pub fn exit<R: Wait>(
        &self,
        rt: &R,
        caller: &mut Caller<Regions, Tickets, Events>,
        region: Region,
    ) -> Result<(), (Region, Fault)>
        ensures accepted { OnOk result (WasAccepted self.now caller.old (Do (Exit region)) Done caller.new) }
        ensures refused { IfErr result (λ back. WasRefused self.now caller.old (Do (Exit region)) back.1) }
        ensures same { IfErr result (λ back. (back.0 ≡ region) × (caller.new ≡ caller.old)) }
    {
        let outcome = self.act(rt, caller, calls::exit(&region));
        exited(outcome, region)
    }

    /// Carries out an `enter data` directive on a device, with an `async` clause where a queue is named (OpenACC 3.3,
    /// section 2.6.6).
    ///
    /// # Errors
    ///
    /// Those of [`Locked::act`].
    pub fn enter_data<R: Wait>(
        &self,
        rt: &R,
        caller: &mut Caller<Regions, Tickets, Events>,
        device: u64,
        items: Vec<Item<EnterClause>>,
        queue: Option<u64>,
    ) -> Result<(), Fault>
        ensures accepted { OnOk result (WasAccepted self.now caller.old (Do (EnterData device items.items queue)) Done caller.new) }
        ensures refused { IfErr result (WasRefused self.now caller.old (Do (EnterData device items.items queue))) }
        ensures same { OnErr result (caller.new ≡ caller.old) }
    {
        done(self.act(rt, caller, calls::enter_data(device, items, queue)))
    }

    /// Carries out an `exit data` directive on a device (OpenACC 3.3, section 2.6.6), with a `finalize` clause or
    /// without. Where a queue is named, it has an `async` clause.
    ///
    /// # Errors
    ///
    /// Those of [`Locked::act`].
    pub fn exit_data<R: Wait>(
        &self,
        rt: &R,
        caller: &mut Caller<Regions, Tickets, Events>,
        device: u64,
        items: Vec<Item<ExitClause>>,
        finalize: bool,
        queue: Option<u64>,
    ) -> Result<(), Fault>
        ensures accepted { OnOk result (WasAccepted self.now caller.old (Do (ExitData device items.items finalize queue)) Done caller.new) }
        ensures refused { IfErr result (WasRefused self.now caller.old (Do (ExitData device items.items finalize queue))) }
        ensures same { OnErr result (caller.new ≡ caller.old) }
    {
        done(self.act(rt, caller, calls::exit_data(device, items, finalize, queue)))
    }

    /// Carries out an `update` directive on a device (OpenACC 3.3, the update directive), with an `if_present` clause
    /// or without. Where a queue is named, it has an `async` clause.
    ///
    /// # Errors
    ///
    /// Those of [`Locked::act`].
    pub fn update<R: Wait>(
        &self,
        rt: &R,
        caller: &mut Caller<Regions, Tickets, Events>,
        device: u64,
        items: Vec<Item<UpdateClause>>,
        if_present: bool,
        queue: Option<u64>,
    ) -> Result<(), Fault>
        ensures accepted { OnOk result (WasAccepted self.now caller.old (Do (Update device items.items if_present queue)) Done caller.new) }
        ensures refused { IfErr result (WasRefused self.now caller.old (Do (Update device items.items if_present queue))) }
        ensures same { OnErr result (caller.new ≡ caller.old) }
    {
        done(self.act(rt, caller, calls::update(device, items, if_present, queue)))
    }

    /// Makes the transfers that wait in a queue of a device, or in all its queues (OpenACC 3.3, the wait directive). It
    /// returns how many they were.
    ///
    /// # Errors
    ///
    /// Those of [`Locked::act`].
    pub fn wait<R: Wait>(
        &self,
        rt: &R,
        caller: &mut Caller<Regions, Tickets, Events>,
        device: u64,
        queue: Option<u64>,
    ) -> Result<u64, Fault>
        ensures accepted { IfOk result (λ count. WasAccepted self.now caller.old (Do (WaitFor device queue)) (Drained count) caller.new) }
        ensures refused { IfErr result (WasRefused self.now caller.old (Do (WaitFor device queue))) }
        ensures same { OnErr result (caller.new ≡ caller.old) }
    {
        drained(self.act(rt, caller, calls::wait(device, queue)))
    }

    /// Makes the next transfer of a queue of a device (OpenACC 3.3, section 2.16), and returns whether there was one.
    /// The step of an empty queue is no event.
    ///
    /// # Errors
    ///
    /// Those of [`Locked::act`].
    pub fn step<R: Wait>(
        &self,
        rt: &R,
        caller: &mut Caller<Regions, Tickets, Events>,
        device: u64,
        queue: u64,
    ) -> Result<bool, Fault>
        ensures accepted { IfOk result (λ made. WasAccepted self.now caller.old (Do (Step device queue)) (if made then Done else Idle) caller.new) }
        ensures refused { IfErr result (WasRefused self.now caller.old (Do (Step device queue))) }
        ensures same { OnErr result (caller.new ≡ caller.old) }
    {
        stepped(self.act(rt, caller, calls::step(device, queue)))
    }

    /// Writes bytes into host memory, from a host address on.
    ///
    /// # Errors
    ///
    /// Those of [`Locked::act`].
    pub fn host_write<R: Wait>(
        &self,
        rt: &R,
        caller: &mut Caller<Regions, Tickets, Events>,
        addr: u64,
        bytes: Vec<u8>,
    ) -> Result<(), Fault>
        ensures accepted { OnOk result (WasAccepted self.now caller.old (HostWrite addr bytes.items) Done caller.new) }
        ensures refused { IfErr result (WasRefused self.now caller.old (HostWrite addr bytes.items)) }
        ensures same { OnErr result (caller.new ≡ caller.old) }
    {
        done(self.act(rt, caller, calls::host_write(addr, bytes)))
    }

    /// Lends the block of a section that is mapped on the device of an open data region (OpenACC 3.3, section 2.5,
    /// compute constructs). It returns the lease.
    ///
    /// # Errors
    ///
    /// Those of [`Locked::act`].
    pub fn lend<R: Wait>(
        &self,
        rt: &R,
        caller: &mut Caller<Regions, Tickets, Events>,
        region: &Region,
        section: Section,
    ) -> Result<Lease, Fault>
        ensures accepted { IfOk result (λ lease. WasAccepted self.now caller.old (Lend region.now section) (Lent lease) caller.new) }
        ensures len { IfOk result (λ lease. lease.len ≡ section.len) }
        ensures refused { IfErr result (WasRefused self.now caller.old (Lend region.now section)) }
        ensures same { OnErr result (caller.new ≡ caller.old) }
    {
        leased(self.act(rt, caller, calls::lend(region, section)))
    }

    /// Brings a lease back, which is spent, to its own device (OpenACC 3.3, section 2.5, compute constructs).
    ///
    /// # Errors
    ///
    /// Those of [`Locked::act`]. The lease comes back with its bytes.
    pub fn gather<R: Wait>(
        &self,
        rt: &R,
        caller: &mut Caller<Regions, Tickets, Events>,
        lease: Lease,
    ) -> Result<(), (Lease, Fault)>
        ensures accepted { OnOk result (WasAccepted self.now caller.old (Gather lease) Done caller.new) }
        ensures refused { IfErr result (λ back. WasRefused self.now caller.old (Gather lease) back.1) }
        ensures same { IfErr result (λ back. (back.0 ≡ lease) × (caller.new ≡ caller.old)) }
    {
        gathered(self.act(rt, caller, Call::Gather(lease)))
    }

    /// The bytes of a section of host memory, as many as it is long; an empty one has none, wherever it starts.
    ///
    /// # Errors
    ///
    /// [`Fault::OutOfHost`] with item 0, exactly where the section is not empty and not in host memory; else
    /// [`Fault::Memory`] alone.
    pub fn host_read<R: Wait + AllocGlobal>(
        &self,
        rt: &R,
        section: Section,
    ) -> Result<Vec<u8>, Fault>
        ensures inside { OnOk result (in_host self.now 0 section ≡ Ok tt) }
        ensures bytes { IfOk result (λ bytes. WasRead self.now section bytes.items) }
        ensures len { IfOk result (λ bytes. vec_len bytes ≡ section.len) }
        ensures err { IfErr result (λ fault. MatchResult (in_host self.now 0 section) (λ _. fault ≡ Memory) (λ outside. fault ≡ outside)) }
    {
        check_host(self.config(), section)?;
        let copy = Vec::with_capacity(rt.alloc(), section.len as usize)?;
        Ok(self.copied(rt, section, copy))
    }

    /// Copies the bytes of a section of host memory, with the lock held for no longer.
    #[tactic(auto, using(crate::proofs::Lengths::read_long))]
    fn copied<R: Wait>(&self, rt: &R, section: Section, copy: Vec<u8>) -> Vec<u8>
        requires inside { in_host self.now 0 section ≡ Ok tt }
        requires empty { vec_len copy ≡ 0 }
        requires room { section.len ≤ vec_capacity copy }
        ensures bytes { WasRead self.now section result.items }
        ensures len { vec_len result ≡ section.len }
    {
        let locked = self.lock(rt);
        locked.laws();
        match locked.host_read(section, copy) {
            Some(bytes) => bytes,
            None => unreachable!(),
        }
    }

    /// Makes what the table has its base, and returns how many events were stored, as [`Table::rebase`] does. It is no
    /// event and takes no caller. A program that runs for long calls it now and then, so that the trace never gets
    /// full. The old base and the events are freed when the lock is free again.
    ///
    /// # Errors
    ///
    /// [`Fault::Memory`] alone, and nothing changed.
    pub fn rebase<R: Wait>(&self, rt: &R) -> Result<u64, Fault>
        ensures folded { IfOk result (WasRebased self.now) }
        ensures err { IfErr result (λ fault. fault ≡ Memory) }
    {
        Ok(self.fold(rt)?.count())
    }

    /// Makes what the table has its base, with the lock held for no longer, and returns what the table no longer needs.
    fn fold<R: Wait>(&self, rt: &R) -> Result<Folded, Fault>
        ensures folded { IfOk result (λ folded. WasRebased self.now (length folded.trace)) }
        ensures err { IfErr result (λ fault. fault ≡ Memory) }
    {
        let mut locked = self.lock(rt);
        locked.laws();
        let outcome = locked.fold();
        locked.laws();
        outcome
    }

    /// Calls `look` once on the table, and returns what it returns. The table is as it was when the lock was taken. All
    /// laws of [`Locked`] hold of it, and all that [`Locked::settled`] says of this caller. So with the whole allowance
    /// no region is open there, and every structured counter of each device is zero. Until `look` returns, no other
    /// thread gets on, and a call that it makes itself on the same runtime waits for ever.
    pub fn look<R: Wait, T, F: FnOnce(&Table) -> T>(
        &self,
        rt: &R,
        caller: &mut Caller<Regions, Tickets, Events>,
        look: F,
    ) -> T
        requires { (w : World) → IsSettled self.now Regions.parts Tickets.parts caller.old w → FnOnceTakesAt F.FnOnce look w }
        ensures same { caller.new ≡ caller.old }
        ensures called { (w : World) × IsSettled self.now Regions.parts Tickets.parts caller.old w × FnOnceReturnsAt F.FnOnce look w result }
    {
        self.lock(rt).look(caller, look)
    }
}

/// The blanks of the ledgers of a runtime. They have a part for each region that may be open, one for each ticket, and
/// one for each event.
pub fn blanks(config: &Config) -> Blanks
    ensures regions { result.regions.parts ≡ config.now.regions }
    ensures tickets { result.tickets.parts ≡ config.now.tickets }
    ensures events { result.events.parts ≡ config.now.tickets }
{
    Blanks {
        regions: Blank::new(config.regions()),
        tickets: Blank::new(config.tickets()),
        events: Blank::new(config.tickets()),
    }
}

/// The section is empty, or lies in host memory.
fn check_host(config: Config, section: Section) -> Result<(), Fault>
    ensures { result ≡ in_host config 0 section }
{
    let inside = match section.start.checked_sub(HOST_BASE) {
        Some(offset) => section.len <= config.host() && offset <= config.host() - section.len,
        None => false,
    };
    if section.len == 0 || inside {
        Ok(())
    } else {
        Err(Fault::OutOfHost { item: 0 })
    }
}
