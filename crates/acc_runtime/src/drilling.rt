//! Many threads that enter and exit data regions over one array, and what that leaves.

ghost use Rattle.std.specs.Prelude.{ℕ, ◌≡◌, ◌+◌, ◌-◌, ◌*◌, ◌<◌, ◌≤◌, ◌⊎◌, None, map, sum_by, All, vec_len, vec_capacity, IfOk, IfErr, IfNone, OnOk, OnErr};
ghost use Rattle.std.specs.List.{AllByRecursion};
ghost use Rattle.acc_base.specs.declared.mappings.Range.{Range};
ghost use Rattle.acc_base.specs.Devices.{view};
ghost use Rattle.acc_runtime.specs.Drills.{array_in, WasRound, WereRounds, WasStopped, WasStoppedWithin, HasRun, HasStopped, HasRounds, IsWorked, first_fault, HaveWorked, IsShort, WasCutShort, IsTold, WasTold};

use crate::callers::Caller;
use crate::ledgers::Limited;
use crate::lock::Runtime;
use acc_base::{Counters, EnterClause, Fault, HOST_BASE, Item, RegionClause, Section};
use acc_lend::Gate;
use acc_table::Table;
use std::alloc::{AllocError, Global};
use std::sync::Wait;
use std::sync::ledger::Ledger;
use std::thread::{Threads, for_each_mut};

/// The array that all threads of a drill name: the first 16 bytes of host memory.
const ARRAY: Section = Section {
    start: HOST_BASE,
    len: 16,
};

/// The device on which all threads of a drill work.
const DEVICE: u64 = 0;

/// What a drill left.
#[derive(Clone, Copy, Debug, PartialEq, Eq)]
pub struct Drilled {
    /// How many regions the caller may have open.
    pub allowance: u64,
    /// How many events were made on the table in all.
    pub events: u64,
    /// The structured reference counter of the array on the first device, 0 where it is not mapped there.
    pub structured: u64,
    /// The dynamic reference counter of the array on the first device, 0 where it is not mapped there.
    pub dynamic: u64,
}

/// A thread: its caller, and the fault that it met.
#[derive(Drop)]
struct Worker<Regions: Ledger, Tickets: Ledger, Events: Ledger> {
    caller: Caller<Regions, Tickets, Events>,
    fault: Option<Fault>,
}

/// The items of a directive that names the array in one clause.
fn array_in<C: Drop>(alloc: Global, clause: C) -> Result<Vec<Item<C>>, AllocError>
    ensures { IfOk result (λ items. items.items ≡ array_in clause) }
{
    let mut items = Vec::new(alloc);
    items.push(Item {
        clause,
        section: ARRAY,
        pointer: None,
    })?;
    Ok(items)
}

/// Enters a region and exits from it. A region that it cannot exit stays open.
fn make_round<Regions: Limited, Tickets: Ledger, Events: Ledger, R: Wait + AllocGlobal>(
    rt: &R,
    runtime: &Runtime<Regions, Tickets, Events>,
    caller: &mut Caller<Regions, Tickets, Events>,
) -> Result<(), Fault>
    ensures kept { caller.new.made + caller.new.tickets ≡ caller.old.made + caller.old.tickets }
    ensures accepted { OnOk result (WasRound runtime.now caller.old caller.new) }
    ensures made { OnOk result (caller.new.made ≡ caller.old.made + 2) }
    ensures back { OnOk result (caller.new.allowance ≡ caller.old.allowance) }
    ensures stopped { IfErr result (λ fault. WasStopped runtime.now caller.old fault caller.new) }
    ensures shares { OnErr result (HasStopped 0 caller.old caller.new) }
{
    let items = array_in(rt.alloc(), RegionClause::Copyin)?;
    let region = runtime.enter(rt, caller, DEVICE, items)?;
    if let Err((region, fault)) = runtime.exit(rt, caller, region) {
        region.abandon();
        return Err(fault);
    }
    Ok(())
}

/// Makes so many rounds, until a fault.
#[tactic(auto, using(crate::proofs::Rounds::one_round_more, crate::proofs::Rounds::stopped_within))]
fn make_rounds<Regions: Limited, Tickets: Ledger, Events: Ledger, R: Wait + AllocGlobal>(
    rt: &R,
    runtime: &Runtime<Regions, Tickets, Events>,
    caller: &mut Caller<Regions, Tickets, Events>,
    rounds: u64,
) -> Result<(), Fault>
    ensures kept { caller.new.made + caller.new.tickets ≡ caller.old.made + caller.old.tickets }
    ensures made { OnOk result (caller.new.made ≡ caller.old.made + 2 * rounds) }
    ensures back { OnOk result (caller.new.allowance ≡ caller.old.allowance) }
    ensures accepted { OnOk result (WereRounds runtime.now rounds caller.old caller.new) }
    ensures stopped { IfErr result (λ fault. WasStoppedWithin runtime.now rounds caller.old fault caller.new) }
    ensures shares { OnErr result ((done : ℕ) × (done < rounds) × HasStopped done caller.old caller.new) }
{
    for _i in 0..rounds {
        make_round(rt, runtime, caller)?;
    }
    Ok(())
}

fn work<Regions: Limited, Tickets: Ledger, Events: Ledger, R: Wait + AllocGlobal, G: Gate<R>>(
    rt: &R,
    runtime: &Runtime<Regions, Tickets, Events>,
    worker: &mut Worker<Regions, Tickets, Events>,
    number: usize,
    rounds: u64,
    gate: &G,
)
    requires { HasRounds rounds worker.old.caller }
    ensures run { HasRun runtime.now rounds worker.new.fault worker.new.caller }
    ensures worked { IsWorked rounds worker.new.caller worker.new.fault }
{
    gate.before(rt, number);
    worker.fault = make_rounds(rt, runtime, &mut worker.caller, rounds).err();
    gate.after(rt, number);
}

/// Each worker in a thread of its own.
fn work_each<
    Regions: Limited + Send + Sync,
    Tickets: Ledger + Send + Sync,
    Events: Ledger + Send + Sync,
    R: Threads + Wait + AllocGlobal + Sync,
    G: Gate<R> + Sync,
>(
    rt: &R,
    runtime: &Runtime<Regions, Tickets, Events>,
    workers: &mut [Worker<Regions, Tickets, Events>],
    rounds: u64,
    gate: &G,
)
    requires { All (λ w. HasRounds rounds w.caller) workers.old }
    ensures { All (λ w. HasRun runtime.now rounds w.fault w.caller × IsWorked rounds w.caller w.fault) workers.new }
{
    let threads = workers.len();
    if threads > 0 {
        for_each_mut(
            rt,
            workers,
            threads,
            &|number, worker| work(rt, runtime, worker, number, rounds, gate),
        );
    }
}

/// All workers, each in a thread of its own.
fn work_all<
    Regions: Limited + Send + Sync,
    Tickets: Ledger + Send + Sync,
    Events: Ledger + Send + Sync,
    R: Threads + Wait + AllocGlobal + Sync,
    G: Gate<R> + Sync,
>(
    rt: &R,
    runtime: &Runtime<Regions, Tickets, Events>,
    workers: &mut Vec<Worker<Regions, Tickets, Events>>,
    rounds: u64,
    gate: &G,
)
    requires { All (λ w. HasRounds rounds w.caller) workers.old.items }
    ensures run { All (λ w. HasRun runtime.now rounds w.fault w.caller) workers.new.items }
    ensures worked { All (λ w. IsWorked rounds w.caller w.fault) workers.new.items }
    ensures len { vec_len workers.new ≡ vec_len workers.old }
{
    work_each(rt, runtime, workers.as_mut_slice(), rounds, gate);
}

/// Splits a caller off for each thread, until a refusal.
fn split_all<Regions: Ledger, Tickets: Ledger, Events: Ledger>(
    caller: &mut Caller<Regions, Tickets, Events>,
    workers: &mut Vec<Worker<Regions, Tickets, Events>>,
    threads: usize,
    rounds: u64,
) -> Result<(), Fault>
    requires empty { vec_len workers.old ≡ 0 }
    requires room { threads ≤ vec_capacity workers.old }
    requires rounds { rounds ≤ 1000 }
    ensures fresh { All (λ w. HasRounds rounds w.caller) workers.new.items }
    ensures count { OnOk result (vec_len workers.new ≡ threads) }
    ensures allowance { caller.new.allowance + vec_len workers.new ≡ caller.old.allowance }
    ensures tickets { caller.new.tickets + 2 * rounds * vec_len workers.new ≡ caller.old.tickets }
    ensures made { caller.new.made ≡ caller.old.made }
    ensures short { IfErr result (IsShort threads rounds caller.old) }
{
    for _i in 0..threads {
        let caller = caller.split(1, 2 * rounds)?;
        workers.push_reserved(Worker {
            caller,
            fault: None,
        });
    }
    Ok(())
}

/// Takes the shares of workers back that did not work.
fn merge_back<Regions: Ledger, Tickets: Ledger, Events: Ledger>(
    caller: &mut Caller<Regions, Tickets, Events>,
    mut workers: Vec<Worker<Regions, Tickets, Events>>,
    rounds: u64,
)
    requires { All (λ w. HasRounds rounds w.caller) workers.items }
    ensures allowance { caller.new.allowance ≡ caller.old.allowance + vec_len workers }
    ensures tickets { caller.new.tickets ≡ caller.old.tickets + 2 * rounds * vec_len workers }
    ensures made { caller.new.made ≡ caller.old.made }
{
    while let Some(worker) = workers.pop() {
        caller.merge(worker.caller);
    }
}

/// Takes the shares of all workers back, and returns the fault of the first that met one.
fn merge_all<Regions: Ledger, Tickets: Ledger, Events: Ledger>(
    caller: &mut Caller<Regions, Tickets, Events>,
    mut workers: Vec<Worker<Regions, Tickets, Events>>,
    rounds: u64,
) -> Option<Fault>
    requires { All (λ w. IsWorked rounds w.caller w.fault) workers.items }
    ensures kept { caller.new.made + caller.new.tickets ≡ caller.old.made + caller.old.tickets + 2 * rounds * vec_len workers }
    ensures made { IfNone result (caller.new.made ≡ caller.old.made + 2 * rounds * vec_len workers) }
    ensures back { IfNone result (caller.new.allowance ≡ caller.old.allowance + vec_len workers) }
    ensures most { caller.new.allowance ≤ caller.old.allowance + vec_len workers }
    ensures entered { caller.old.allowance + vec_len workers + caller.old.made ≤ caller.new.allowance + caller.new.made }
    ensures more { (caller.old.allowance ≤ caller.new.allowance) × (caller.old.made ≤ caller.new.made) }
    ensures first { result ≡ first_fault (map (λ w. w.fault) workers.items) }
    ensures allowance { caller.new.allowance ≡ caller.old.allowance + sum_by (λ w. w.caller.allowance) workers.items }
    ensures tickets { caller.new.tickets ≡ caller.old.tickets + sum_by (λ w. w.caller.tickets) workers.items }
    ensures all { caller.new.made ≡ caller.old.made + sum_by (λ w. w.caller.made) workers.items }
{
    let mut first: Option<Fault> = None;
    while let Some(worker) = workers.pop() {
        let Worker {
            caller: theirs,
            fault,
        } = worker;
        caller.merge(theirs);
        first = fault.or(first);
    }
    first
}

/// What a table says of the array, to a caller with this allowance.
fn tell(table: &Table, allowance: u64) -> Drilled
    ensures allowance { result.allowance ≡ allowance }
    ensures told { IsTold table.now result }
    ensures structured { AllByRecursion (λ (r : Range). r.structured ≡ 0) (view 0 table.now.state).records.ranges → result.structured ≡ 0 }
{
    let told = table.counters(DEVICE, ARRAY);
    let counters = told.unwrap_or(Counters {
        structured: 0,
        dynamic: 0,
    });
    Drilled {
        allowance,
        events: table.events(),
        structured: counters.structured,
        dynamic: counters.dynamic,
    }
}

fn look<Regions: Limited, Tickets: Ledger, Events: Ledger, R: Wait>(
    rt: &R,
    runtime: &Runtime<Regions, Tickets, Events>,
    caller: &mut Caller<Regions, Tickets, Events>,
) -> Drilled
    ensures same { caller.new ≡ caller.old }
    ensures allowance { result.allowance ≡ caller.old.allowance }
    ensures events { caller.old.made + caller.old.tickets ≡ Tickets.parts → result.events ≡ caller.old.made }
    ensures idle { caller.old.allowance ≡ Regions.parts → result.structured ≡ 0 }
    ensures told { WasTold runtime.now Regions.parts Tickets.parts caller.old result }
{
    let allowance = caller.allowance();
    runtime.look(rt, caller, |table| tell(table, allowance))
}

/// Maps an array on the first device by `enter data copyin`, and lets threads enter and exit regions over it there
/// (OpenACC 3.3, section 2.6.5, data construct). Each thread has a caller of its own, with one region and as many
/// tickets as it needs. All are split off before any thread begins, and merged when all are done. A thread calls the
/// gate's `before` with its number, counted from 0, makes its rounds, and calls `after`. There are 1 to 64 threads, and
/// 1 to 1,000 rounds.
///
/// What it returns is read from the table: with the whole allowance back, no region of any thread is open.
///
/// # Errors
///
/// [`Fault::Memory`], and those of [`Runtime::enter_data`] and [`Caller::split`]. Where several threads meet a fault,
/// it is that of the first by number. It is of [`Runtime::enter`] or [`Runtime::exit`], and the thread stops there. A
/// region that it cannot exit stays open. What was done before stays done.
pub fn drill<
    Regions: Limited + Send + Sync,
    Tickets: Ledger + Send + Sync,
    Events: Ledger + Send + Sync,
    R: Threads + Wait + AllocGlobal + Sync,
    G: Gate<R> + Sync,
>(
    rt: &R,
    runtime: &Runtime<Regions, Tickets, Events>,
    caller: &mut Caller<Regions, Tickets, Events>,
    threads: usize,
    rounds: u64,
    gate: &G,
) -> Result<Drilled, Fault>
    requires threads { (0 < threads) × (threads ≤ 64) }
    requires rounds { (0 < rounds) × (rounds ≤ 1000) }
    ensures worked { OnOk result (HaveWorked runtime.now threads rounds caller.old None caller.new) }
    ensures made { OnOk result (caller.new.made ≡ caller.old.made + (1 + 2 * rounds * threads)) }
    ensures tickets { OnOk result (caller.new.tickets + (1 + 2 * rounds * threads) ≡ caller.old.tickets) }
    ensures allowance { IfOk result (λ left. (caller.new.allowance ≡ caller.old.allowance) × (left.allowance ≡ caller.old.allowance)) }
    ensures idle { IfOk result (λ left. caller.old.allowance ≡ Regions.parts → left.structured ≡ 0) }
    ensures events { IfOk result (λ left. caller.new.made + caller.new.tickets ≡ Tickets.parts → left.events ≡ caller.new.made) }
    ensures told { IfOk result (WasTold runtime.now Regions.parts Tickets.parts caller.new) }
    ensures kept { OnErr result (caller.new.made + caller.new.tickets ≡ caller.old.made + caller.old.tickets) }
    ensures short { (caller.old.allowance < threads) ⊎ (caller.old.tickets ≤ 2 * rounds * threads) → caller.new.allowance ≡ caller.old.allowance }
    ensures most { OnErr result ((caller.new.allowance ≤ caller.old.allowance) × (caller.old.allowance ≤ caller.new.allowance + threads)) }
    ensures entered { OnErr result (caller.old.allowance ≤ caller.new.allowance + (caller.new.made - (caller.old.made + 1))) }
    ensures fault { IfErr result (λ fault. WasCutShort runtime.now threads rounds caller.old fault caller.new) }
{
    let mut workers = Vec::with_capacity(rt.alloc(), threads)?;
    let mapped = array_in(rt.alloc(), EnterClause::Copyin)?;
    runtime.enter_data(rt, caller, DEVICE, mapped, None)?;
    if let Err(fault) = split_all(caller, &mut workers, threads, rounds) {
        merge_back(caller, workers, rounds);
        return Err(fault);
    }
    work_all(rt, runtime, &mut workers, rounds, gate);
    if let Some(fault) = merge_all(caller, workers, rounds) {
        return Err(fault);
    }
    Ok(look(rt, runtime, caller))
}
