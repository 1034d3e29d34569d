//! Who makes calls in a test: each names the one array, on the first device.

use crate::tests::same;
use acc_base::{
    EnterClause, ExitClause, Fault, HOST_BASE, Item, RegionClause, Section, UpdateClause,
};
use acc_lend::{Add, run_one};
use acc_runtime::{Caller, Lease, Limited, Region, Runtime};
use acc_table::Table;
use std::alloc::{AllocError, Global};
use std::process::Abort;
use std::sync::Wait;
use std::sync::ledger::Ledger;

/// The first 16 bytes of host memory.
pub const ARRAY: Section = Section {
    start: HOST_BASE,
    len: 16,
};

/// A region, which is left open where it is dropped.
pub struct Opened {
    region: Region,
}

impl Drop for Opened {
    fn drop(self) {
        let Opened { region } = self;
        region.abandon();
    }
}

impl Opened {
    fn into_region(self) -> Region {
        let Opened { region } = self;
        region
    }
}

/// A lease, whose block stays lent where it is dropped.
struct Loan {
    lease: Lease,
}

impl Drop for Loan {
    fn drop(self) {
        let Loan { lease } = self;
        lease.abandon();
    }
}

impl Loan {
    fn into_lease(self) -> Lease {
        let Loan { lease } = self;
        lease
    }
}

/// What is read from the table of a runtime.
#[derive(Clone, Copy)]
pub enum Asked {
    /// Whether the array is present: 1 or 0.
    IsPresent,
    /// How many regions are open.
    Regions,
    /// How many events are stored.
    Stored,
    /// How many bytes of the device are used.
    Used,
}

/// A call of an actor's. It returns a number: 1 or 0 for yes and no, and else 0 where it has none to return.
#[derive(Clone, Copy)]
pub enum Deed {
    /// A region over the array is entered: its number.
    Enter(RegionClause),
    /// The region that was entered last is exited.
    Exit,
    /// The array is mapped.
    EnterData,
    /// The array is dropped by `copyout` with `finalize`, and with `async` of this queue.
    ExitData(u64),
    /// The array is copied: with `async` of a queue, or else with `if_present`.
    Update(UpdateClause, Option<u64>),
    /// Transfers are made, of a queue or of all: how many.
    Wait(Option<u64>),
    /// A transfer of a queue is made: whether there was one.
    Step(u64),
    /// A byte is written into each place of the array.
    Write(u8),
    /// Whether each byte of the array in host memory is this one.
    Reads(u8),
    /// The array is lent in the region that was entered last, and a kernel adds 1 to each byte: the loan's serial number.
    Lend,
    /// The loan is brought back.
    Gather,
    /// The events are folded into the table's base: how many.
    Rebase,
    /// The table is read.
    Look(Asked),
}

/// A call, and what it returns.
pub type Row = (Deed, Result<u64, Fault>);

/// A caller with its runtime, and what it holds there.
#[derive(Drop)]
pub struct Actor<'a, Regions: Limited, Tickets: Ledger, Events: Ledger, R> {
    /// The handle of the process.
    pub rt: &'a R,
    /// The runtime that its calls are made on.
    pub runtime: &'a Runtime<Regions, Tickets, Events>,
    /// The caller that makes them.
    pub caller: Caller<Regions, Tickets, Events>,
    /// Whether memory may be refused for a call, which is then made once more.
    pub may_lack: bool,
    /// The open region that it entered last.
    pub region: Option<Opened>,
    loan: Option<Loan>,
}

/// The items of a directive that names the array in one clause.
fn items<C: Drop>(alloc: Global, clause: C) -> Result<Vec<Item<C>>, AllocError> {
    let mut items = Vec::new(alloc);
    items.push(Item {
        clause,
        section: ARRAY,
        pointer: None,
    })?;
    Ok(items)
}

/// What a table says.
fn answer(table: &Table, asked: Asked) -> u64 {
    match asked {
        Asked::IsPresent => u64::from(table.is_present(0, ARRAY)),
        Asked::Regions => table.regions(),
        Asked::Stored => table.trace().len() as u64,
        Asked::Used => table.used(0),
    }
}

/// How many events are stored behind the call of a row, before which so many were. One that is accepted makes an event,
/// but for the step of an empty queue.
fn stored_behind(row: Row, stored: u64) -> u64 {
    match row {
        (Deed::Rebase, Ok(_)) => 0,
        (Deed::Reads(_) | Deed::Look(_), _) => stored,
        (Deed::Step(_), Ok(0)) | (_, Err(_)) => stored,
        _ => stored.wrapping_add(1),
    }
}

impl<'a, Regions: Limited, Tickets: Ledger, Events: Ledger, R: Abort + Wait + AllocGlobal> Actor<
    'a,
    Regions,
    Tickets,
    Events,
    R,
> {
    /// An actor that holds nothing.
    pub fn new(
        rt: &'a R,
        runtime: &'a Runtime<Regions, Tickets, Events>,
        caller: Caller<Regions, Tickets, Events>,
        may_lack: bool,
    ) -> Actor<'a, Regions, Tickets, Events, R> {
        Actor {
            rt,
            runtime,
            caller,
            may_lack,
            region: None,
            loan: None,
        }
    }

    fn make(&mut self, deed: Deed) -> Result<u64, Fault> {
        let (rt, runtime) = (self.rt, self.runtime);
        match deed {
            Deed::Enter(clause) => self.enter(clause),
            Deed::Exit => self.exit(),
            Deed::Wait(queue) => runtime.wait(rt, &mut self.caller, 0, queue),
            Deed::Step(queue) => Ok(u64::from(runtime.step(rt, &mut self.caller, 0, queue)?)),
            Deed::Reads(byte) => self.reads(byte),
            Deed::Lend => self.lend(),
            Deed::Gather => self.gather(),
            Deed::Rebase => runtime.rebase(rt),
            Deed::Look(asked) => Ok(self.look(asked)),
            Deed::EnterData | Deed::ExitData(_) | Deed::Update(..) | Deed::Write(_) => {
                self.direct(deed).and(Ok(0))
            }
        }
    }

    fn enter(&mut self, clause: RegionClause) -> Result<u64, Fault> {
        let items = items(self.rt.alloc(), clause)?;
        let region = self.runtime.enter(self.rt, &mut self.caller, 0, items)?;
        let number = region.number();
        self.region = Some(Opened { region });
        Ok(number)
    }

    fn exit(&mut self) -> Result<u64, Fault> {
        let Some(opened) = self.region.take() else {
            return Err(Fault::NoRegion { number: 0 });
        };
        match self
            .runtime
            .exit(self.rt, &mut self.caller, opened.into_region())
        {
            Ok(()) => Ok(0),
            Err((region, fault)) => {
                self.region = Some(Opened { region });
                Err(fault)
            }
        }
    }

    /// Makes a call that returns no number. Any other deed maps the array.
    fn direct(&mut self, deed: Deed) -> Result<(), Fault> {
        let (rt, runtime) = (self.rt, self.runtime);
        match deed {
            Deed::ExitData(queue) => {
                let items = items(rt.alloc(), ExitClause::Copyout)?;
                runtime.exit_data(rt, &mut self.caller, 0, items, true, Some(queue))
            }
            Deed::Update(clause, queue) => {
                let items = items(rt.alloc(), clause)?;
                runtime.update(rt, &mut self.caller, 0, items, queue.is_none(), queue)
            }
            Deed::Write(byte) => {
                let bytes = Vec::from_slice(rt.alloc(), &[byte; 16])?;
                runtime.host_write(rt, &mut self.caller, ARRAY.start, bytes)
            }
            _ => {
                let items = items(rt.alloc(), EnterClause::Copyin)?;
                runtime.enter_data(rt, &mut self.caller, 0, items, None)
            }
        }
    }

    fn reads(&self, byte: u8) -> Result<u64, Fault> {
        let bytes = self.runtime.host_read(self.rt, ARRAY)?;
        Ok(u64::from(bytes.as_slice() == [byte; 16].as_slice()))
    }

    fn lend(&mut self) -> Result<u64, Fault> {
        let Some(opened) = &self.region else {
            return Err(Fault::NoRegion { number: 0 });
        };
        let mut lease = self
            .runtime
            .lend(self.rt, &mut self.caller, &opened.region, ARRAY)?;
        run_one(&mut lease, &Add(1), &[]);
        let serial = lease.serial();
        self.loan = Some(Loan { lease });
        Ok(serial)
    }

    fn gather(&mut self) -> Result<u64, Fault> {
        let Some(loan) = self.loan.take() else {
            return Err(Fault::NoLease { serial: 0 });
        };
        match self
            .runtime
            .gather(self.rt, &mut self.caller, loan.into_lease())
        {
            Ok(()) => Ok(0),
            Err((lease, fault)) => {
                self.loan = Some(Loan { lease });
                Err(fault)
            }
        }
    }

    fn look(&mut self, asked: Asked) -> u64 {
        self.runtime.look(
            self.rt,
            &mut self.caller,
            |table: &Table| answer(table, asked),
        )
    }

    /// Makes the call of a row, which returns what the row says, and stores an event where it has to. Where memory was
    /// refused for it, no event is stored and no block is kept, and it is made once more.
    pub fn make_row(&mut self, row: Row) {
        let before = (self.look(Asked::Stored), self.look(Asked::Used));
        let mut made = self.make(row.0);
        if made == Err(Fault::Memory) && self.may_lack {
            let found = (self.look(Asked::Stored), self.look(Asked::Used));
            same(self.rt, found, before);
            made = self.make(row.0);
        }
        let behind = self.look(Asked::Stored);
        same(
            self.rt,
            (made, behind),
            (row.1, stored_behind(row, before.0)),
        );
    }

    /// Makes the calls of rows.
    pub fn make_rows(&mut self, rows: &[Row]) {
        for &row in rows {
            self.make_row(row);
        }
    }
}
