//! A directive or a loan on one device of a table, beside what all devices share.

ghost use Rattle.std.specs.Prelude.{ℕ, ◌≡◌, ◌+◌, ◌<◌, ◌≤◌, ◌^◌, [], IfOk, IfErr, OnOk, OnErr, MatchResult, Ok, Err, length, true};
ghost use Rattle.acc_base.specs.declared.faults.Fault.TheVariants.{Memory};
ghost use Rattle.acc_base.specs.Acting.{after};
ghost use Rattle.acc_base.specs.declared.items.Section.{Section};
ghost use Rattle.acc_base.specs.declared.events.Event.TheVariants.{Lent};
ghost use Rattle.acc_base.specs.Judge.{few_items, device_named, own_device, verdict_of, plan_of, lend_event, leased, gathered, gather_event};
ghost use Rattle.acc_clauses.specs.Lending.{IsLoanPlanned};
ghost use Rattle.acc_clauses.specs.Stored.{AreContentsSound};
ghost use Rattle.acc_clauses.specs.Devices.{SharedContents, HaveRisen, contents_with};
ghost use Rattle.acc_clauses.specs.Planned.{IsPlanOf, state_by};
ghost use Rattle.acc_clauses.specs.Acts.{HasPlanRoom, LacksPlanRoom, lens_born};

use crate::devices::DeviceData;
use crate::effects::puts_in;
use crate::finishing::finish;
use crate::lending::{check_lease, plan_loan};
use crate::notes::count_holdings;
use crate::planning::{self, regions_entered};
use crate::plans::Plan;
use crate::running::act_all;
use crate::shared::Shared;
use acc_base::{Directive, Fault, Loan, Section};
use acc_lend::Lease;

impl DeviceData {
    /// Judges a directive whole, which names no other device ([`DeviceData::number`]) and no more items than it may
    /// ([`check_items`](crate::check_items)). It returns the first refusal, or writes what each item will do over what
    /// the plan held. It allocates nothing, and nothing changes.
    ///
    /// # Errors
    ///
    /// `NoRegion` where the region is not open. `NoQueue` where there is no such queue. Then the first refusal of the
    /// items in the order in which they act. An item is refused for these, in this order. First what the clause tables
    /// refuse: `OutOfHost`, `Misaligned`, `PartlyPresent`, `NotPresent`, `CounterFull` or `DeviceFull`. Then `Lent` for
    /// the block in which it detaches a pointer. Then `Lent` for the block from which its step takes a counter, or
    /// whose bytes it copies at once. Then `QueueFull`. An entry attaches its pointer after its step: then `Lent`, and
    /// last `CounterFull`. Of a wait or a step it is `Lent` at the first transfer whose block is lent. The plan is then
    /// of no use.
    pub fn plan(&self, shared: &Shared, directive: &Directive, plan: &mut Plan) -> Result<(), Fault>
        requires items { few_items directive.now ≡ Ok tt }
        requires own { own_device self.now.limits.number (device_named directive.now) ≡ Ok tt }
        requires sound { AreContentsSound (contents_with self.now shared.now) }
        requires births { self.now.device.records.births < 2 ^ 48 }
        ensures judged { let c = contents_with self.now shared.now in MatchResult result (λ _. plan_of c.limits directive.now c.state ≡ Ok (verdict_of c.limits.number directive.now c.state plan.new.dids)) (λ fault. plan_of c.limits directive.now c.state ≡ Err fault) }
        ensures planned { let c = contents_with self.now shared.now in OnOk result (IsPlanOf c.limits directive.now c.state plan.new) }
    {
        planning::plan(&self.view(shared), directive, plan)
    }

    /// Makes all room that a directive needs. This plan was made for it on this state of the device. Nothing else
    /// changes, also where it is refused. No bytes are kept for births of other plans.
    ///
    /// # Errors
    ///
    /// [`Fault::Memory`] alone, and only where some of that room was missing. Then no bytes are kept for births. A plan
    /// with a birth always allocates for the bytes of the block.
    pub fn reserve(&mut self, directive: &Directive, plan: &Plan) -> Result<(), Fault>
        requires planned { (s : SharedContents) × let c = contents_with self.old s in AreContentsSound c × IsPlanOf c.limits directive.now c.state plan.now }
        ensures limits { self.new.limits ≡ self.old.limits }
        ensures device { self.new.device ≡ self.old.device }
        ensures room { OnOk result (HasPlanRoom directive.now plan.now self.new.room) }
        ensures births { OnOk result (self.new.room.births ≡ lens_born plan.now.tasks plan.now.dids) }
        ensures refused { OnErr result (self.new.room.births ≡ []) }
        ensures only { IfErr result (λ fault. fault ≡ Memory) }
        ensures needed { OnErr result (LacksPlanRoom directive.now plan.now self.old.room) }
    {
        self.laws();
        let acts = plan.acts();
        // What was made for births that never came is given up before all else. Bytes for births are made last, so that
        // none stay where other room is refused.
        self.give_up_births();
        match plan.queue() {
            Some(q) => self.reserve_puts(q, puts_in(q, acts))?,
            None => {}
        }
        let regions = regions_entered(directive);
        let holdings = count_holdings(directive, acts);
        self.reserve_parts(plan.lens(), regions, holdings, plan.draft.pointers())
    }

    /// Does a directive for which this plan was made on this state of the device, and for which room was made. It
    /// allocates nothing and is never refused. Each of the plan's births, at most 64, has fewer than 2^48 before it,
    /// and so has the region that it enters. Afterwards the state is that after the event of the directive on this
    /// device. It stays where there is nothing to do.
    pub fn commit(&mut self, shared: &mut Shared, directive: &Directive, plan: &Plan)
        requires sound { AreContentsSound (contents_with self.old shared.old) }
        requires planned { let c = contents_with self.old shared.old in IsPlanOf c.limits directive.now c.state plan.now }
        requires births { self.old.device.records.births + 64 ≤ 2 ^ 48 }
        requires next { shared.old.numbers.region < 2 ^ 48 }
        requires room { HasPlanRoom directive.now plan.now self.old.room }
        ensures limits { self.new.limits ≡ self.old.limits }
        ensures state { let c = contents_with self.old shared.old in (contents_with self.new shared.new).state ≡ state_by c.limits.full (verdict_of c.limits.number directive.now c.state plan.now.dids) c.state }
        ensures sound { AreContentsSound (contents_with self.new shared.new) }
        ensures risen { HaveRisen shared.old shared.new }
    {
        self.laws();
        act_all(self, &mut shared.host, plan.acts(), plan.draft.places());
        finish(
            self,
            &mut shared.host,
            &mut shared.next_region,
            directive,
            plan,
        );
        self.laws();
    }

    /// Plans the loan of a section of host memory in a region that is open on this device (OpenACC 3.3, sections 2.5
    /// and 2.6). It allocates nothing, and nothing changes.
    ///
    /// # Errors
    ///
    /// `NoRegion` where the region is not open here. Then, with item 0, `OutOfHost` where the section is not empty and
    /// some address of it is outside of host memory. `PartlyPresent` where some of its addresses are mapped but no one
    /// range has them all. `NotPresent` where it is absent or empty. Last `Lent` where its block is lent.
    pub fn plan_loan(&self, shared: &Shared, region: u64, section: Section) -> Result<Loan, Fault>
        requires { length shared.now.host ≡ self.now.limits.host }
        ensures { let c = contents_with self.now shared.now in MatchResult result (λ loan. IsLoanPlanned c.limits region section c.state loan) (λ fault. lend_event c.limits c.limits.number region section c.state ≡ Err fault) }
    {
        plan_loan(&self.view(shared), region, section)
    }

    /// Lends the block of a loan that was planned on this state: its bytes are moved into the lease, which names this
    /// device. With full traces a copy of them stays; else it allocates nothing and is never refused.
    ///
    /// # Errors
    ///
    /// [`Fault::Memory`], and with full traces alone. Nothing changed.
    pub fn lend(&mut self, shared: &mut Shared, loan: Loan) -> Result<Lease, Fault>
        requires sound { AreContentsSound (contents_with self.old shared.old) }
        requires planned { let c = contents_with self.old shared.old in (region : ℕ) × (section : Section) × IsLoanPlanned c.limits region section c.state loan }
        requires serial { shared.old.numbers.serial < 2 ^ 48 }
        ensures lease { let c = contents_with self.old shared.old in IfOk result (λ lease. lease ≡ leased c.limits.number loan c.state) }
        ensures limits { self.new.limits ≡ self.old.limits }
        ensures room { self.new.room ≡ self.old.room }
        ensures state { let c = contents_with self.old shared.old in OnOk result ((region : ℕ) (section : Section) → IsLoanPlanned c.limits region section c.state loan → (contents_with self.new shared.new).state ≡ after c.limits.full (Lent c.limits.number region section loan.block loan.serial) [] c.state) }
        ensures sound { AreContentsSound (contents_with self.new shared.new) }
        ensures risen { HaveRisen shared.old shared.new }
        ensures same { OnErr result (self.new.device ≡ self.old.device) }
        ensures same_shared { OnErr result (shared.new ≡ shared.old) }
        ensures only { IfErr result (λ fault. (self.old.limits.full ≡ true) × (fault ≡ Memory)) }
    {
        self.laws();
        let lease = self.take_out(loan)?;
        shared.next_serial += 1;
        Ok(lease)
    }

    /// What bringing a lease back is refused for. It allocates nothing, and nothing changes.
    ///
    /// # Errors
    ///
    /// `NoLease` with the serial number of the lease, unless all of this holds. The lease is of this device, the one of
    /// [`DeviceData::number`]. A block is lent here under its serial number, with its number of the block, and its place
    /// and length of the section. It has as many bytes as the block. With full traces its bytes outside of the section
    /// are those that were kept.
    pub fn check_lease(&self, shared: &Shared, lease: &Lease) -> Result<(), Fault>
        requires { length shared.now.host ≡ self.now.limits.host }
        ensures { let c = contents_with self.now shared.now in MatchResult result (λ _. gather_event c.limits lease.now c.state ≡ Ok (gathered c.limits.full lease.now)) (λ fault. gather_event c.limits lease.now c.state ≡ Err fault) }
    {
        check_lease(&self.view(shared), lease)
    }

    /// Takes a block back that is lent, by a lease that [`DeviceData::check_lease`] does not refuse: its bytes are moved
    /// out of the lease. It allocates nothing and is never refused.
    pub fn gather(&mut self, lease: Lease)
        requires planned { (s : SharedContents) × let c = contents_with self.old s in AreContentsSound c × (gather_event c.limits lease c.state ≡ Ok (gathered c.limits.full lease)) }
        ensures limits { self.new.limits ≡ self.old.limits }
        ensures room { self.new.room ≡ self.old.room }
        ensures state { (s : SharedContents) → (contents_with self.new s).state ≡ after self.old.limits.full (gathered self.old.limits.full lease) lease.bytes (contents_with self.old s).state }
        ensures sound { (s : SharedContents) → AreContentsSound (contents_with self.old s) → AreContentsSound (contents_with self.new s) }
    {
        self.laws();
        self.put_back(lease);
    }
}
