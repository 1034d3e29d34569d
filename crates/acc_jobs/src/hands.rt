//! What each thread does that shares a table with others.

use crate::desks::chance_bytes;
use crate::items::Row;
use crate::tallies::Tally;
use acc_base::{EnterClause, ExitClause, Fault, RegionClause, Section, UpdateClause};
use acc_lend::{Add, Lease, run_one};
use acc_runtime::{Caller, Limited, Region, Runtime};
use acc_trials::Chance;
use std::sync::Wait;
use std::sync::ledger::Ledger;

/// How many calls a thread may make.
const TICKETS: u64 = 1 << 36;

/// The arrays of a thread, of which the even ones stay mapped while it works.
const ARRAYS: Row = Row {
    first: 0,
    apart: 512,
    len: 64,
    count: 64,
};

/// What a thread has of its own.
#[derive(Drop)]
pub struct Worker<Regions: Ledger, Tickets: Ledger, Events: Ledger> {
    /// Its shares of the calls, regions and events that the table allows.
    pub caller: Caller<Regions, Tickets, Events>,
    /// A digest of what was answered.
    pub tally: Tally,
    chance: Chance,
    // The device on which it works, its queue, and its arrays.
    device: u64,
    queue: Option<u64>,
    arrays: Row,
}

impl<Regions: Ledger, Tickets: Ledger, Events: Ledger> Worker<Regions, Tickets, Events> {
    /// A worker of a number, with one region that it may enter.
    pub fn new(
        caller: &mut Caller<Regions, Tickets, Events>,
        seed: u64,
        number: u64,
    ) -> Result<Worker<Regions, Tickets, Events>, Fault> {
        Ok(Worker {
            caller: caller.split(1, TICKETS)?,
            tally: Tally::new(),
            chance: Chance::new(seed.wrapping_add(number)),
            device: number % 2,
            queue: Some(number % 16),
            arrays: Row {
                first: number.wrapping_mul(65_536),
                ..ARRAYS
            },
        })
    }
}

/// A worker at a table.
#[derive(Drop)]
pub struct Hand<'a, Regions: Limited, Tickets: Ledger, Events: Ledger, R> {
    /// The handle of its thread.
    pub rt: &'a R,
    /// The table.
    pub runtime: &'a Runtime<Regions, Tickets, Events>,
    /// Itself.
    pub worker: &'a mut Worker<Regions, Tickets, Events>,
}

impl<Regions: Limited, Tickets: Ledger, Events: Ledger, R: Wait + AllocGlobal> Hand<
    '_,
    Regions,
    Tickets,
    Events,
    R,
> {
    /// Fills all arrays, makes so many steps while the even ones are mapped, and reads all arrays back. It stops at the
    /// first fault.
    pub fn work(&mut self, steps: u64) -> Result<(), Fault> {
        for number in 0..ARRAYS.count {
            self.write(number)?;
        }
        self.map(0, 32)?;
        for _ in 0..steps {
            self.step()?;
        }
        self.unmap(0, 32)?;
        self.read(self.worker.arrays.all())
    }

    /// Makes each kind of call on one of its arrays. Between them the host writes other bytes, so that host and device
    /// differ.
    fn step(&mut self) -> Result<(), Fault> {
        let number = self.worker.chance.number();
        self.write(number)?;
        self.map(number, 1)?;
        self.enter(number)?;
        self.copy_both_ways(number)?;
        self.write(number)?;
        self.unmap(number, 1)?;
        self.read(self.worker.arrays.at(number))
    }

    fn copy_both_ways(&mut self, number: u64) -> Result<(), Fault> {
        self.write(number)?;
        self.update(UpdateClause::ToSelf, number)?;
        self.read(self.worker.arrays.at(number))?;
        self.write(number)?;
        self.update(UpdateClause::ToDevice, number)
    }

    /// The host writes bytes by chance into an array.
    fn write(&mut self, number: u64) -> Result<(), Fault> {
        let array = self.worker.arrays.at(number);
        let bytes = chance_bytes(self.rt.alloc(), &mut self.worker.chance, array.len)?;
        self.runtime
            .host_write(self.rt, &mut self.worker.caller, array.start, bytes)
    }

    /// Notes what the host has of a section.
    fn read(&mut self, section: Section) -> Result<(), Fault> {
        let bytes = self.runtime.host_read(self.rt, section)?;
        self.worker.tally.note_bytes(&bytes);
        Ok(())
    }

    /// Maps an array, and each second array behind it, `count` in all.
    fn map(&mut self, number: u64, count: u64) -> Result<(), Fault> {
        let (rt, device, arrays) = (self.rt, self.worker.device, self.worker.arrays);
        let items = arrays.items(rt.alloc(), EnterClause::Copyin, number, 2, count)?;
        self.runtime
            .enter_data(rt, &mut self.worker.caller, device, items, None)
    }

    /// Ends what [`Hand::map`] began.
    fn unmap(&mut self, number: u64, count: u64) -> Result<(), Fault> {
        let (rt, device, arrays) = (self.rt, self.worker.device, self.worker.arrays);
        let items = arrays.items(rt.alloc(), ExitClause::Copyout, number, 2, count)?;
        self.runtime
            .exit_data(rt, &mut self.worker.caller, device, items, false, None)
    }

    /// Copies an array one way through the queue of the thread, and waits for that.
    fn update(&mut self, clause: UpdateClause, number: u64) -> Result<(), Fault> {
        let (rt, device, queue) = (self.rt, self.worker.device, self.worker.queue);
        let items = self.worker.arrays.items(rt.alloc(), clause, number, 1, 1)?;
        let caller = &mut self.worker.caller;
        self.runtime
            .update(rt, caller, device, items, false, queue)?;
        let count = self.runtime.wait(rt, caller, device, queue)?;
        self.worker.tally.note(count);
        Ok(())
    }

    /// Enters a region over an array, works on it, and exits. The number of the region is not noted, since it depends
    /// on which thread came first.
    fn enter(&mut self, number: u64) -> Result<(), Fault> {
        let (rt, device, arrays) = (self.rt, self.worker.device, self.worker.arrays);
        let items = arrays.items(rt.alloc(), RegionClause::Present, number, 1, 1)?;
        let region = self
            .runtime
            .enter(rt, &mut self.worker.caller, device, items)?;
        let lent = self.lend(&region, arrays.at(number));
        exited(self.runtime.exit(rt, &mut self.worker.caller, region), lent)
    }

    /// Lends an array in a region, and lets a kernel work on it.
    fn lend(&mut self, region: &Region, array: Section) -> Result<(), Fault> {
        let mut lease = self
            .runtime
            .lend(self.rt, &mut self.worker.caller, region, array)?;
        self.worker.tally.note_lent(&lease);
        run_one(&mut lease, &Add(3), &[]);
        gathered(self.runtime.gather(self.rt, &mut self.worker.caller, lease))
    }
}

/// What came of a region: what came of the work in it, or why its exit was refused.
fn exited(outcome: Result<(), (Region, Fault)>, lent: Result<(), Fault>) -> Result<(), Fault> {
    match outcome {
        Ok(()) => lent,
        Err((region, fault)) => {
            region.abandon();
            Err(fault)
        }
    }
}

fn gathered(outcome: Result<(), (Lease, Fault)>) -> Result<(), Fault> {
    match outcome {
        Ok(()) => Ok(()),
        Err((lease, fault)) => {
            lease.abandon();
            Err(fault)
        }
    }
}
