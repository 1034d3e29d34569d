//! A table under one lock, and its limits.

ghost use Rattle.std.specs.Prelude.{◌≡◌};

use crate::ledgers::Limited;
use crate::locked::Locked;
use acc_base::Config;
use std::marker::Model;
use std::sync::ledger::Ledger;
use std::sync::{Mutex, MutexGuard, Wait};

/// One table and its lock, which any number of threads share by reference.
///
/// Each call takes the lock once, and may wait for it. The lock covers one [`Table::apply`](acc_table::Table::apply)
/// with the moves of its caller's shares, one rebase, one look, or one copy. What is handed in is put together before
/// it is taken. What a refused call brought and what a rebase folded are freed after it is released. While the lock is
/// held, memory is allocated for what the table keeps of an event. The bytes of a host write that a counted trace does
/// not keep are freed then too. Whenever it is free, the laws of [`Locked`] hold of the table.
///
/// Which table a call meets is up to the threads. So contracts say that it met one of these limits of which the laws
/// hold, and what came of the call there. They see a runtime as its limits.
pub struct Runtime<Regions: Limited, Tickets: Ledger, Events: Ledger> {
    lock: Mutex<Locked<Regions, Tickets, Events>>,
    // A copy of the table's, to be read without the lock.
    config: Config,
}

// By hand, so that a crate above does not prove the drops of its parts again.
impl<Regions: Limited, Tickets: Ledger, Events: Ledger> Drop for Runtime<Regions, Tickets, Events> {
    fn drop(self) {
        let Runtime { lock: _, config: _ } = self;
    }
}

impl<Regions: Limited, Tickets: Ledger, Events: Ledger> Model
    for Runtime<Regions, Tickets, Events> {
    ghost use Rattle.acc_base.specs.Limits.{Limits};
    ghost use Rattle.acc_runtime.specs.Books.{IsTyped};

    ghost Value = { Limits };

    ghost view = { λ runtime. runtime.config };

    ghost invariant = { λ runtime. IsTyped Regions.limits Regions.parts Tickets.parts Events.parts runtime.config };
}

impl<Regions: Limited, Tickets: Ledger, Events: Ledger> Runtime<Regions, Tickets, Events> {
    /// The runtime of a table.
    pub(crate) fn of(locked: Locked<Regions, Tickets, Events>) -> Runtime<Regions, Tickets, Events>
        ensures { result ≡ locked.limits }
    {
        let config = locked.config();
        let lock = Mutex::new(locked);
        Runtime { lock, config }
    }

    /// The limits, which are those of the table behind the lock, and of the ledgers.
    pub fn config(&self) -> Config
        ensures value { result ≡ self.now }
        ensures limits { self.now ≡ Regions.limits }
        ensures parts { (self.now.regions ≡ Regions.parts) × (self.now.tickets ≡ Tickets.parts) × (self.now.tickets ≡ Events.parts) }
    {
        self.config
    }

    /// The table, as soon as the lock is free.
    pub(crate) fn lock<R: Wait>(&self, rt: &R) -> MutexGuard<'_, Locked<Regions, Tickets, Events>>
        ensures { self.now ≡ Regions.limits }
    {
        self.lock.lock(rt)
    }
}
