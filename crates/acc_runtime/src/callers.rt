//! Who makes calls on a shared table, with shares of what all callers together may do.

ghost use Rattle.std.specs.Prelude.{◌≡◌, ◌+◌, ◌-◌, ◌<◌, ◌≤◌, ◌⊎◌, IfOk, IfErr, OnErr, OnOk};
ghost use Rattle.acc_base.specs.declared.faults.Fault.TheVariants.{NoTickets, NoAllowance};
ghost use Rattle.acc_table.specs.Counts.{is_entry};
ghost use Rattle.acc_runtime.specs.Shares.{IsEnough, enough_for};

use acc_base::{Directive, Fault};
use acc_table::Call;
use std::marker::Model;
use std::sync::ledger::{Ledger, Share};

/// A caller of a [`Runtime`](crate::Runtime), with its shares. Its allowance is how many more data regions it may have
/// open, and its tickets are how many more events it may make. It counts the events that it made.
///
/// [`Runtime::new`](crate::Runtime::new) returns the first caller, which has all regions and all tickets. A caller is
/// split for another thread, and merged when that is done. No share is ever made or lost on the way. So a caller that
/// has the whole allowance again knows that no region is open: [`Runtime::look`](crate::Runtime::look) promises it. A
/// caller that is dropped takes its shares with it.
///
/// Contracts see a caller as its `Shares`.
#[derive(Drop)]
pub struct Caller<Regions: Ledger, Tickets: Ledger, Events: Ledger> {
    pub(crate) allowance: u64,
    pub(crate) tickets: u64,
    pub(crate) made: u64,
    pub(crate) regions: Share<Regions>,
    pub(crate) uses: Share<Tickets>,
    pub(crate) events: Share<Events>,
}

impl<Regions: Ledger, Tickets: Ledger, Events: Ledger> Model for Caller<Regions, Tickets, Events> {
    ghost use Rattle.std.specs.Prelude.{◌≡◌, ◌+◌, ◌<◌, ◌^◌};
    ghost use Rattle.acc_runtime.specs.Shares.{Shares};

    ghost Value = { Shares };

    ghost view = { λ c. record { allowance = c.allowance; tickets = c.tickets; made = c.made } };

    ghost invariant = { λ c.
        (c.regions.parts ≡ c.allowance) × (c.regions.amount ≡ c.allowance)
        × (c.uses.parts ≡ c.tickets) × (c.uses.amount ≡ c.tickets)
        × (c.events.parts ≡ c.made + c.tickets) × (c.events.amount ≡ c.made)
        × (Regions.parts < 2 ^ 64) × (Tickets.parts < 2 ^ 64) × (Events.parts < 2 ^ 64) };
}

impl<Regions: Ledger, Tickets: Ledger, Events: Ledger> Caller<Regions, Tickets, Events> {
    /// Its allowance: how many more regions it may have open.
    pub fn allowance(&self) -> u64
        ensures { result ≡ self.now.allowance }
    {
        self.allowance
    }

    /// How many more events it may make.
    pub fn tickets(&self) -> u64
        ensures { result ≡ self.now.tickets }
    {
        self.tickets
    }

    /// How many events it made.
    pub fn made(&self) -> u64
        ensures { result ≡ self.now.made }
    {
        self.made
    }

    /// A caller with so many of this one's regions and tickets, which made no event.
    ///
    /// # Errors
    ///
    /// [`Fault::NoTickets`] where there are fewer tickets, and else [`Fault::NoAllowance`] where the allowance is less,
    /// with what is left. Nothing is split.
    pub fn split(
        &mut self,
        regions: u64,
        tickets: u64,
    ) -> Result<Caller<Regions, Tickets, Events>, Fault>
        ensures given { IfOk result (λ caller. caller ≡ record { allowance = regions; tickets = tickets; made = 0 }) }
        ensures enough { OnOk result ((tickets ≤ self.old.tickets) × (regions ≤ self.old.allowance)) }
        ensures left { OnOk result (self.new ≡ record { allowance = self.old.allowance - regions; tickets = self.old.tickets - tickets; made = self.old.made }) }
        ensures same { OnErr result (self.new ≡ self.old) }
        ensures err { IfErr result (λ fault. ((self.old.tickets < tickets) × (fault ≡ NoTickets self.old.tickets)) ⊎ ((tickets ≤ self.old.tickets) × (self.old.allowance < regions) × (fault ≡ NoAllowance self.old.allowance))) }
    {
        if self.tickets < tickets {
            return Err(Fault::NoTickets { left: self.tickets });
        }
        if self.allowance < regions {
            return Err(Fault::NoAllowance {
                left: self.allowance,
            });
        }
        self.allowance -= regions;
        self.tickets -= tickets;
        Ok(Caller {
            allowance: regions,
            tickets,
            made: 0,
            regions: self.regions.split_off(regions, regions),
            uses: self.uses.split_off(tickets, tickets),
            events: self.events.split_off(tickets, 0),
        })
    }

    /// Takes all shares of another caller, and what that made.
    pub fn merge(&mut self, other: Caller<Regions, Tickets, Events>)
        ensures sum { self.new ≡ record { allowance = self.old.allowance + other.allowance; tickets = self.old.tickets + other.tickets; made = self.old.made + other.made } }
        ensures regions { self.new.allowance ≤ Regions.parts }
        ensures tickets { self.new.tickets ≤ Tickets.parts }
        ensures events { self.new.made + self.new.tickets ≤ Events.parts }
    {
        let Caller {
            allowance,
            tickets,
            made,
            regions,
            uses,
            events,
        } = other;
        self.regions.merge(regions);
        self.uses.merge(uses);
        self.events.merge(events);
        self.allowance += allowance;
        self.tickets += tickets;
        self.made += made;
    }

    pub(crate) fn check(&self, call: &Call) -> Result<(), Fault>
        ensures told { result ≡ enough_for call.now self.now }
        ensures enough { OnOk result (IsEnough call.now self.now) }
    {
        if self.tickets == 0 {
            return Err(Fault::NoTickets { left: 0 });
        }
        if is_entry(call) && self.allowance == 0 {
            return Err(Fault::NoAllowance { left: 0 });
        }
        Ok(())
    }
}

/// The call enters a data region.
pub(crate) fn is_entry(call: &Call) -> bool
    ensures { result ≡ is_entry call.now }
{
    matches!(call, Call::Do(Directive::Enter { .. }))
}
