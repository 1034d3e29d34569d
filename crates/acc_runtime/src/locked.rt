//! The type behind the lock, with what it keeps in every value that the lock hands out.

ghost use Rattle.std.specs.Prelude.{ℕ, ◌≡◌, ◌<◌, ◌≤◌, ◌↔◌, true, false, IsTrue, [], length, vec_len, vec_capacity, option_map, IfOk, IfErr, OnOk, OnErr};
ghost use Rattle.std.specs.Fn.{FnOnceReturnsAt, FnOnceTakesAt};
ghost use Rattle.std.specs.List.{AllByRecursion};
ghost use Rattle.acc_base.specs.declared.mappings.Range.{Range};
ghost use Rattle.acc_base.specs.declared.faults.Fault.TheVariants.{Memory};
ghost use Rattle.acc_base.specs.Calls.{new_world, rebased, event_count};
ghost use Rattle.acc_base.specs.Devices.{view, open_regions};
ghost use Rattle.acc_table.specs.Calls.{IsDone, IsRefusal};
ghost use Rattle.acc_table.specs.Counts.{is_entry, is_exit, answers_idle, is_shortage, IsCountedOnce};
ghost use Rattle.acc_table.specs.Laws.{IsLawful};
ghost use Rattle.acc_table.specs.Queries.{host_read_of};
ghost use Rattle.acc_table.specs.Replies.{IsReplyTo};
ghost use Rattle.acc_runtime.specs.Acts.{IsActed, IsDenied};
ghost use Rattle.acc_runtime.specs.Books.{IsSettled};

use crate::callers::{Caller, is_entry};
use crate::ledgers::{Blanks, Limited};
use crate::outcomes::{Outcome, answers_idle};
use acc_base::{Config, Directive, Fault, Section};
use acc_table::laws::hold;
use acc_table::{Call, Folded, Reply, Table};
use std::alloc::Global;
use std::marker::Model;
use std::sync::ledger::{Book, Ledger, Share};

mod events;

/// What the lock guards: a table, and the books of the shares of all callers. Its type keeps, whenever the lock is
/// free, that
///
/// - on each device mapped ranges are not empty, lie in host memory, and do not overlap;
/// - there blocks and holes are the device, with no address in two of them;
/// - there each range has a block of its own, and each other block is named by a queued transfer;
/// - no range has both counters zero, and each counter is the count over what happened on its device;
/// - the structured counter of a block is how often open regions of its device hold it;
/// - each device has what its own events alone lead to, and no region is open on two devices;
/// - its limits are those of the type of its regions' ledger;
/// - the history is legal, and there are no more events than tickets and no more open regions than the limit says;
/// - the allowances of all callers and the open regions make up all regions;
/// - the tickets of all callers and the events make up all tickets;
/// - the events are what all callers made.
///
/// Contracts see the world of the table: its limits, its history and its state. Each call is one
/// [`act`](Locked::act).
pub struct Locked<Regions: Limited, Tickets: Ledger, Events: Ledger> {
    table: Table,
    books: Books<Regions, Tickets, Events>,
}

// By hand, so that a crate above does not prove the drops of its parts again.
impl<Regions: Limited, Tickets: Ledger, Events: Ledger> Drop for Locked<Regions, Tickets, Events> {
    fn drop(self) {
        let Locked { table: _, books: _ } = self;
    }
}

/// The sums of what all callers have left, and of what they made.
#[derive(Drop)]
struct Books<Regions: Ledger, Tickets: Ledger, Events: Ledger> {
    allowances: Book<Regions>,
    tickets: Book<Tickets>,
    made: Book<Events>,
    // The parts of open regions and of used tickets, which no caller has.
    entered: Share<Regions>,
    used: Share<Tickets>,
}

impl<Regions: Limited, Tickets: Ledger, Events: Ledger> Model for Locked<Regions, Tickets, Events> {
    ghost use Rattle.std.specs.Prelude.{◌≡◌};
    ghost use Rattle.acc_base.specs.Calls.{World, event_count};
    ghost use Rattle.acc_base.specs.Devices.{open_regions};
    ghost use Rattle.acc_table.specs.Laws.{IsLawful};
    ghost use Rattle.acc_runtime.specs.Books.{IsBooked};

    ghost Value = { World };

    ghost view = { λ locked. locked.table };

    ghost invariant = { λ locked.
        IsLawful locked.table
        × (locked.table.limits ≡ Regions.limits)
        × IsBooked Regions.parts Tickets.parts Events.parts (record { allowance = locked.books.allowances.total; tickets = locked.books.tickets.total; made = locked.books.made.total }) locked.table
        × (locked.books.entered.parts ≡ open_regions locked.table.state) × (locked.books.entered.amount ≡ 0)
        × (locked.books.used.parts ≡ event_count locked.table.history) × (locked.books.used.amount ≡ 0) };
}

/// The call exits from a data region.
fn is_exit(call: &Call) -> bool
    ensures { result ≡ is_exit call.now }
{
    matches!(call, Call::Do(Directive::Exit { .. }))
}

/// Makes one call on a table, which is counted once where it is accepted. With a ticket and a region left, it is not
/// refused for lack of them.
#[tactic(auto, using(acc_table::proofs::Replying::done_replied, acc_table::proofs::Tallied::done_counted, acc_table::proofs::Telling::refused_other))]
fn apply(table: &mut Table, call: Call) -> Outcome
    requires lawful { IsLawful table.old }
    requires tickets { event_count table.old.history < table.old.limits.tickets }
    requires regions { is_entry call ≡ true → open_regions table.old.state < table.old.limits.regions }
    ensures done { IfOk result (λ reply. IsDone table.old call reply table.new) }
    ensures counted { IfOk result (λ reply. IsCountedOnce call reply table.old table.new) }
    ensures reply { IfOk result (IsReplyTo call) }
    ensures refused { IfErr result (λ back. IsRefusal table.old call back.1) }
    ensures other { IfErr result (λ back. is_shortage back.1 ≡ false) }
    ensures same { IfErr result (λ back. (back.0 ≡ call) × (table.new ≡ table.old)) }
    ensures lawful { IsLawful table.new }
{
    let outcome = table.apply(call);
    hold(table);
    outcome
}

impl<Regions: Limited, Tickets: Ledger, Events: Ledger> Locked<Regions, Tickets, Events> {
    /// A new table: nothing is mapped, no region is open, and host memory is zero. And the caller that has all regions
    /// and all tickets, and made no event.
    ///
    /// # Errors
    ///
    /// [`Fault::Memory`] alone.
    pub fn new(
        alloc: Global,
        config: Config,
        blanks: Blanks,
    ) -> Result<
        (
            Locked<Regions, Tickets, Events>,
            Caller<Regions, Tickets, Events>,
        ),
        Fault,
    >
        requires regions { (blanks.regions.name ≡ Regions.name) × (blanks.regions.parts ≡ Regions.parts) × (config.regions ≡ Regions.parts) }
        requires tickets { (blanks.tickets.name ≡ Tickets.name) × (blanks.tickets.parts ≡ Tickets.parts) × (config.tickets ≡ Tickets.parts) }
        requires events { (blanks.events.name ≡ Events.name) × (blanks.events.parts ≡ Events.parts) × (config.tickets ≡ Events.parts) }
        requires limits { config ≡ Regions.limits }
        ensures locked { IfOk result (λ made. made.0 ≡ new_world config) }
        ensures caller { IfOk result (λ made. made.1 ≡ record { allowance = config.regions; tickets = config.tickets; made = 0 }) }
        ensures err { IfErr result (λ fault. fault ≡ Memory) }
    {
        let table = Table::new(alloc, config)?;
        Ok(open_books(table, config, blanks))
    }

    /// The limits, which the ledgers have too.
    pub fn config(&self) -> Config
        ensures value { result ≡ self.now.limits }
        ensures limits { self.now.limits ≡ Regions.limits }
        ensures parts { (self.now.limits.regions ≡ Regions.parts) × (self.now.limits.tickets ≡ Tickets.parts) × (self.now.limits.tickets ≡ Events.parts) }
    {
        self.table.config()
    }

    /// The laws hold, and the limits are those of the type. Nothing is done.
    pub fn laws(&self)
        ensures lawful { IsLawful self.now }
        ensures limits { self.now.limits ≡ Regions.limits }
    {
        let _ = &self.table;
    }

    /// Makes one call, as [`Table::apply`] does: an event, or no change. An event takes a ticket of its caller, and is
    /// one more that it made. An entry takes one region of its allowance, and an exit gives one to it.
    ///
    /// # Errors
    ///
    /// [`Fault::NoTickets`] where the caller has no ticket, and else [`Fault::NoAllowance`] where it enters a region
    /// and has no allowance. Then those of [`Table::apply`], in its order, but for these two, which never come there.
    /// The call comes back, a lease with its bytes, and nothing changed.
    pub fn act(
        &mut self,
        caller: &mut Caller<Regions, Tickets, Events>,
        call: Call,
    ) -> Result<Reply, (Call, Fault)>
        ensures done { IfOk result (λ reply. IsActed caller.old self.old call reply caller.new self.new) }
        ensures reply { IfOk result (IsReplyTo call) }
        ensures refused { IfErr result (λ back. IsDenied caller.old self.old call back.1) }
        ensures same { IfErr result (λ back. (back.0 ≡ call) × (self.new ≡ self.old) × (caller.new ≡ caller.old)) }
    {
        if let Err(fault) = caller.check(&call) {
            return Err((call, fault));
        }
        let enters = is_entry(&call);
        let exits = is_exit(&call);
        self.books.allowances.audit(&mut caller.regions);
        self.books.tickets.audit(&mut caller.uses);
        self.books.made.audit(&mut caller.events);
        let reply = match apply(&mut self.table, call) {
            Ok(reply) => reply,
            Err(refused) => return Err(refused),
        };
        if answers_idle(&reply) {
            return Ok(reply);
        }
        self.books.tickets.sub(&mut caller.uses, 1);
        caller.uses.give(&mut self.books.used, 1, 0);
        self.books.made.add(&mut caller.events, 1);
        caller.tickets -= 1;
        caller.made += 1;
        // Each way returns by itself, so that it is proved by itself.
        if enters {
            self.books.allowances.sub(&mut caller.regions, 1);
            caller.regions.give(&mut self.books.entered, 1, 0);
            caller.allowance -= 1;
            return Ok(reply);
        }
        if exits {
            self.books.entered.give(&mut caller.regions, 1, 0);
            self.books.allowances.add(&mut caller.regions, 1);
            caller.allowance += 1;
            return Ok(reply);
        }
        Ok(reply)
    }

    /// Makes what the table has its base, and returns how many events were stored, as [`Table::rebase`] does. It is no
    /// event: no caller's shares change, and no book.
    ///
    /// # Errors
    ///
    /// [`Fault::Memory`] alone, and nothing changed.
    pub fn rebase(&mut self) -> Result<u64, Fault>
        ensures folded { IfOk result (λ folded. folded ≡ length self.old.history.trace) }
        ensures rebased { OnOk result (self.new ≡ rebased self.old) }
        ensures same { OnErr result (self.new ≡ self.old) }
        ensures err { IfErr result (λ fault. fault ≡ Memory) }
    {
        Ok(self.fold()?.count())
    }

    /// As [`Locked::rebase`], but it returns what the table no longer needs, to be freed when the lock is free, as
    /// [`Table::fold`] does.
    ///
    /// # Errors
    ///
    /// [`Fault::Memory`] alone, and nothing changed.
    pub fn fold(&mut self) -> Result<Folded, Fault>
        ensures folded { IfOk result (λ folded. folded ≡ self.old.history) }
        ensures rebased { OnOk result (self.new ≡ rebased self.old) }
        ensures same { OnErr result (self.new ≡ self.old) }
        ensures err { IfErr result (λ fault. fault ≡ Memory) }
    {
        let outcome = self.table.fold();
        hold(&self.table);
        outcome
    }

    /// Compares the shares of a caller with the books, and returns whether it has the whole allowance. Then no region
    /// is open on any device, and every structured counter of each of them is zero. Nothing changes.
    #[tactic(auto, using(crate::proofs::Settling::none_anywhere))]
    pub fn settled(&mut self, caller: &mut Caller<Regions, Tickets, Events>) -> bool
        ensures same { (self.new ≡ self.old) × (caller.new ≡ caller.old) }
        ensures tells { IsSettled Regions.limits Regions.parts Tickets.parts caller.old self.old }
        ensures whole { IsTrue result ↔ caller.old.allowance ≡ self.old.limits.regions }
        ensures regions { result ≡ true → open_regions self.old.state ≡ 0 }
        ensures counters { result ≡ true → (d : ℕ) → AllByRecursion (λ (r : Range). r.structured ≡ 0) (view d self.old.state).records.ranges }
    {
        self.books.allowances.audit(&mut caller.regions);
        self.books.tickets.audit(&mut caller.uses);
        self.books.made.audit(&mut caller.events);
        caller.allowance == self.table.config().regions()
    }

    /// Calls `look` once on the table, of which all the laws hold, with all that [`settled`](Locked::settled) says of
    /// this caller, and returns what `look` returns. Nothing changes.
    pub fn look<T, F: FnOnce(&Table) -> T>(
        &mut self,
        caller: &mut Caller<Regions, Tickets, Events>,
        look: F,
    ) -> T
        requires { IsSettled Regions.limits Regions.parts Tickets.parts caller.old self.old → FnOnceTakesAt F.FnOnce look self.old }
        ensures same { (self.new ≡ self.old) × (caller.new ≡ caller.old) }
        ensures tells { IsSettled Regions.limits Regions.parts Tickets.parts caller.old self.old }
        ensures called { FnOnceReturnsAt F.FnOnce look self.old result }
    {
        self.settled(caller);
        look(&self.table)
    }

    /// The bytes of a section of host memory, copied into an empty list that has room for them. An empty section has
    /// none, wherever it starts. `None` where some address of the section is not in host memory.
    pub fn host_read(&self, section: Section, mut copy: Vec<u8>) -> Option<Vec<u8>>
        requires empty { vec_len copy ≡ 0 }
        requires room { section.len ≤ vec_capacity copy }
        ensures { option_map (λ bytes. bytes.items) result ≡ host_read_of section self.now.state.host }
    {
        let bytes = self.table.host_read(section)?;
        let Ok(()) = copy.extend_from_slice(bytes) else {
            unreachable!()
        };
        Some(copy)
    }
}

/// The books of a new table, and the caller that has all shares.
fn open_books<Regions: Limited, Tickets: Ledger, Events: Ledger>(
    table: Table,
    config: Config,
    blanks: Blanks,
) -> (
    Locked<Regions, Tickets, Events>,
    Caller<Regions, Tickets, Events>,
)
    requires new { table ≡ new_world config }
    requires regions { (blanks.regions.name ≡ Regions.name) × (blanks.regions.parts ≡ Regions.parts) × (config.regions ≡ Regions.parts) }
    requires tickets { (blanks.tickets.name ≡ Tickets.name) × (blanks.tickets.parts ≡ Tickets.parts) × (config.tickets ≡ Tickets.parts) }
    requires events { (blanks.events.name ≡ Events.name) × (blanks.events.parts ≡ Events.parts) × (config.tickets ≡ Events.parts) }
    requires limits { config ≡ Regions.limits }
    ensures locked { result.0 ≡ new_world config }
    ensures caller { result.1 ≡ record { allowance = config.regions; tickets = config.tickets; made = 0 } }
{
    hold(&table);
    config.laws();
    let Blanks {
        regions,
        tickets,
        events,
    } = blanks;
    let (mut allowances, mut regions) = regions.open::<Regions>();
    let (mut tickets, mut uses) = tickets.open::<Tickets>();
    let (made, events) = events.open::<Events>();
    allowances.add(&mut regions, config.regions());
    tickets.add(&mut uses, config.tickets());
    let entered = regions.empty();
    let used = uses.empty();
    let caller = Caller {
        allowance: config.regions(),
        tickets: config.tickets(),
        made: 0,
        regions,
        uses,
        events,
    };
    let books = Books {
        allowances,
        tickets,
        made,
        entered,
        used,
    };
    (Locked { table, books }, caller)
}
