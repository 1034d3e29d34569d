//! The ten calls that make events, on the table behind the lock. Each is one [`Locked::act`] of the call that its name
//! says, with exactly what was handed in, and returns its outcome. A call that is refused changes nothing, neither the
//! table nor the shares of its caller.

ghost use Rattle.std.specs.Prelude.{◌≡◌, if◌then◌else◌, IfOk, IfErr, OnOk, OnErr};
ghost use Rattle.acc_base.specs.declared.calls.Call.TheVariants.{Do, HostWrite, Lend, Gather};
ghost use Rattle.acc_base.specs.declared.directives.Directive.TheVariants.{Enter, Exit, EnterData, ExitData, Update, Wait, Step};
ghost use Rattle.acc_table.specs.declared.calls.Reply.TheVariants.{Done, Entered, Drained, Idle, Lease as Lent};
ghost use Rattle.acc_runtime.specs.Acts.{IsActed, IsDenied};

use crate::callers::Caller;
use crate::calls;
use crate::ledgers::Limited;
use crate::locked::Locked;
use crate::outcomes::{done, drained, entered, exited, gathered, leased, stepped};
use crate::regions::Region;
use acc_base::{EnterClause, ExitClause, Fault, Item, RegionClause, Section, UpdateClause};
use acc_lend::Lease;
use acc_table::Call;
use std::sync::ledger::Ledger;

impl<Regions: Limited, Tickets: Ledger, Events: Ledger> Locked<Regions, Tickets, Events> {
    /// Enters a data region on a device (OpenACC 3.3, section 2.6.5, data construct).
    ///
    /// # Errors
    ///
    /// Those of [`act`](Locked::act).
    pub fn enter(
        &mut self,
        caller: &mut Caller<Regions, Tickets, Events>,
        device: u64,
        items: Vec<Item<RegionClause>>,
    ) -> Result<Region, Fault>
        ensures done { IfOk result (λ region. IsActed caller.old self.old (Do (Enter device items.items)) (Entered region) caller.new self.new) }
        ensures refused { IfErr result (IsDenied caller.old self.old (Do (Enter device items.items))) }
        ensures same { OnErr result ((self.new ≡ self.old) × (caller.new ≡ caller.old)) }
    {
        entered(self.act(caller, calls::enter(device, items)))
    }

    /// Exits from an open data region, which is spent, on its own device (OpenACC 3.3, section 2.6.5, data construct).
    ///
    /// # Errors
    ///
    /// Those of [`act`](Locked::act). The region comes back.
    pub fn exit(
        &mut self,
        caller: &mut Caller<Regions, Tickets, Events>,
        region: Region,
    ) -> Result<(), (Region, Fault)>
        ensures done { OnOk result (IsActed caller.old self.old (Do (Exit region)) Done caller.new self.new) }
        ensures refused { IfErr result (λ back. IsDenied caller.old self.old (Do (Exit region)) back.1) }
        ensures same { IfErr result (λ back. (back.0 ≡ region) × (self.new ≡ self.old) × (caller.new ≡ caller.old)) }
    {
        let outcome = self.act(caller, calls::exit(&region));
        exited(outcome, region)
    }

    /// Carries out an `enter data` directive on a device (OpenACC 3.3, section 2.6.6).
    ///
    /// # Errors
    ///
    /// Those of [`act`](Locked::act).
    pub fn enter_data(
        &mut self,
        caller: &mut Caller<Regions, Tickets, Events>,
        device: u64,
        items: Vec<Item<EnterClause>>,
        queue: Option<u64>,
    ) -> Result<(), Fault>
        ensures done { OnOk result (IsActed caller.old self.old (Do (EnterData device items.items queue)) Done caller.new self.new) }
        ensures refused { IfErr result (IsDenied caller.old self.old (Do (EnterData device items.items queue))) }
        ensures same { OnErr result ((self.new ≡ self.old) × (caller.new ≡ caller.old)) }
    {
        done(self.act(caller, calls::enter_data(device, items, queue)))
    }

    /// Carries out an `exit data` directive on a device (OpenACC 3.3, section 2.6.6).
    ///
    /// # Errors
    ///
    /// Those of [`act`](Locked::act).
    pub fn exit_data(
        &mut self,
        caller: &mut Caller<Regions, Tickets, Events>,
        device: u64,
        items: Vec<Item<ExitClause>>,
        finalize: bool,
        queue: Option<u64>,
    ) -> Result<(), Fault>
        ensures done { OnOk result (IsActed caller.old self.old (Do (ExitData device items.items finalize queue)) Done caller.new self.new) }
        ensures refused { IfErr result (IsDenied caller.old self.old (Do (ExitData device items.items finalize queue))) }
        ensures same { OnErr result ((self.new ≡ self.old) × (caller.new ≡ caller.old)) }
    {
        done(self.act(caller, calls::exit_data(device, items, finalize, queue)))
    }

    /// Carries out an `update` directive on a device (OpenACC 3.3, the update directive).
    ///
    /// # Errors
    ///
    /// Those of [`act`](Locked::act).
    pub fn update(
        &mut self,
        caller: &mut Caller<Regions, Tickets, Events>,
        device: u64,
        items: Vec<Item<UpdateClause>>,
        if_present: bool,
        queue: Option<u64>,
    ) -> Result<(), Fault>
        ensures done { OnOk result (IsActed caller.old self.old (Do (Update device items.items if_present queue)) Done caller.new self.new) }
        ensures refused { IfErr result (IsDenied caller.old self.old (Do (Update device items.items if_present queue))) }
        ensures same { OnErr result ((self.new ≡ self.old) × (caller.new ≡ caller.old)) }
    {
        done(self.act(caller, calls::update(device, items, if_present, queue)))
    }

    /// Makes the transfers of a queue of a device, or of all its queues (OpenACC 3.3, the wait directive), and returns
    /// how many they were.
    ///
    /// # Errors
    ///
    /// Those of [`act`](Locked::act).
    pub fn wait(
        &mut self,
        caller: &mut Caller<Regions, Tickets, Events>,
        device: u64,
        queue: Option<u64>,
    ) -> Result<u64, Fault>
        ensures done { IfOk result (λ count. IsActed caller.old self.old (Do (Wait device queue)) (Drained count) caller.new self.new) }
        ensures refused { IfErr result (IsDenied caller.old self.old (Do (Wait device queue))) }
        ensures same { OnErr result ((self.new ≡ self.old) × (caller.new ≡ caller.old)) }
    {
        drained(self.act(caller, calls::wait(device, queue)))
    }

    /// Makes the next transfer of a queue of a device (OpenACC 3.3, section 2.16), and returns whether there was one.
    /// The step of an empty queue is no event.
    ///
    /// # Errors
    ///
    /// Those of [`act`](Locked::act).
    pub fn step(
        &mut self,
        caller: &mut Caller<Regions, Tickets, Events>,
        device: u64,
        queue: u64,
    ) -> Result<bool, Fault>
        ensures done { IfOk result (λ made. IsActed caller.old self.old (Do (Step device queue)) (if made then Done else Idle) caller.new self.new) }
        ensures refused { IfErr result (IsDenied caller.old self.old (Do (Step device queue))) }
        ensures same { OnErr result ((self.new ≡ self.old) × (caller.new ≡ caller.old)) }
    {
        stepped(self.act(caller, calls::step(device, queue)))
    }

    /// Writes bytes into host memory, from a host address on.
    ///
    /// # Errors
    ///
    /// Those of [`act`](Locked::act).
    pub fn host_write(
        &mut self,
        caller: &mut Caller<Regions, Tickets, Events>,
        addr: u64,
        bytes: Vec<u8>,
    ) -> Result<(), Fault>
        ensures done { OnOk result (IsActed caller.old self.old (HostWrite addr bytes.items) Done caller.new self.new) }
        ensures refused { IfErr result (IsDenied caller.old self.old (HostWrite addr bytes.items)) }
        ensures same { OnErr result ((self.new ≡ self.old) × (caller.new ≡ caller.old)) }
    {
        done(self.act(caller, calls::host_write(addr, bytes)))
    }

    /// Lends the block of a section, in an open data region and on its device (OpenACC 3.3, section 2.5, compute
    /// constructs).
    ///
    /// # Errors
    ///
    /// Those of [`act`](Locked::act).
    pub fn lend(
        &mut self,
        caller: &mut Caller<Regions, Tickets, Events>,
        region: &Region,
        section: Section,
    ) -> Result<Lease, Fault>
        ensures done { IfOk result (λ lease. IsActed caller.old self.old (Lend region.now section) (Lent lease) caller.new self.new) }
        ensures len { IfOk result (λ lease. lease.len ≡ section.len) }
        ensures refused { IfErr result (IsDenied caller.old self.old (Lend region.now section)) }
        ensures same { OnErr result ((self.new ≡ self.old) × (caller.new ≡ caller.old)) }
    {
        leased(self.act(caller, calls::lend(region, section)))
    }

    /// Brings a lease back, which is spent, to its own device (OpenACC 3.3, section 2.5, compute constructs).
    ///
    /// # Errors
    ///
    /// Those of [`act`](Locked::act). The lease comes back with its bytes.
    pub fn gather(
        &mut self,
        caller: &mut Caller<Regions, Tickets, Events>,
        lease: Lease,
    ) -> Result<(), (Lease, Fault)>
        ensures done { OnOk result (IsActed caller.old self.old (Gather lease) Done caller.new self.new) }
        ensures refused { IfErr result (λ back. IsDenied caller.old self.old (Gather lease) back.1) }
        ensures same { IfErr result (λ back. (back.0 ≡ lease) × (self.new ≡ self.old) × (caller.new ≡ caller.old)) }
    {
        gathered(self.act(caller, Call::Gather(lease)))
    }
}
