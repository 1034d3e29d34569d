//! Threads that share a table, each with arrays and a queue of its own, and kernels that work in one to four threads.
//! The digest does not depend on which thread comes first, so serials and numbers of regions and blocks are left out.

ghost use Rattle.std.specs.Prelude.{◌≡◌};

use crate::desks::Desk;
use crate::hands::{Hand, Worker};
use crate::items::{one, section};
use crate::tallies::Tally;
use acc_base::{Config, EnterClause, ExitClause, Fault, RegionClause, Section};
use acc_lend::{Add, Cuts, Lease, Open, run_parts};
use acc_runtime::{Blanks, Caller, Limited, Runtime, blanks};
use acc_table::Call;
use std::alloc::Global;
use std::marker::Brand;
use std::sync::Wait;
use std::sync::ledger::Ledger;
use std::thread::{Threads, for_each_mut};

/// How many steps the threads of a table make in a round, all together.
const STEPS: u64 = 2_000;

/// The length of the array that kernels work on.
const LARGE: u64 = 4_194_304;

/// How many threads share a table, and how many rounds they make.
#[derive(Clone, Copy)]
pub struct Plan {
    pub seed: u64,
    pub rounds: u64,
    pub threads: u64,
}

/// Makes the rounds of a plan on a new table of two devices.
pub fn share<R: Threads + Wait + Sync + AllocGlobal>(
    rt: &R,
    config: Config,
    plan: Plan,
    tally: &mut Tally,
) -> Result<(), Fault> {
    let blanks = blanks(&config);
    share_new::<Brand, Brand, Brand, R>(rt, config, blanks, plan, tally)
}

fn share_new<
    Regions: Limited + Send + Sync,
    Tickets: Ledger + Send + Sync,
    Events: Ledger + Send + Sync,
    R: Threads + Wait + Sync + AllocGlobal,
>(rt: &R, config: Config, blanks: Blanks, plan: Plan, tally: &mut Tally) -> Result<(), Fault>
    requires regions { (blanks.regions.name ≡ Regions.name) × (blanks.regions.parts ≡ Regions.parts) × (config.regions ≡ Regions.parts) }
    requires tickets { (blanks.tickets.name ≡ Tickets.name) × (blanks.tickets.parts ≡ Tickets.parts) × (config.tickets ≡ Tickets.parts) }
    requires events { (blanks.events.name ≡ Events.name) × (blanks.events.parts ≡ Events.parts) × (config.tickets ≡ Events.parts) }
    requires limits { config ≡ Regions.limits }
{
    let (runtime, mut caller) = Runtime::<Regions, Tickets, Events>::new(rt, config, blanks)?;
    play(rt, &runtime, &mut caller, plan, tally)
}

/// Makes all rounds, and notes what each thread and the table have then.
fn play<
    Regions: Limited + Send + Sync,
    Tickets: Ledger + Send + Sync,
    Events: Ledger + Send + Sync,
    R: Threads + Wait + Sync + AllocGlobal,
>(
    rt: &R,
    runtime: &Runtime<Regions, Tickets, Events>,
    caller: &mut Caller<Regions, Tickets, Events>,
    plan: Plan,
    tally: &mut Tally,
) -> Result<(), Fault> {
    let mut workers = Vec::new(rt.alloc());
    hire(caller, plan, &mut workers)?;
    for _ in 0..plan.rounds {
        let steps = STEPS / plan.threads.max(1);
        work_all(rt, runtime, workers.as_mut_slice(), steps);
        tally.note_folded(runtime.rebase(rt));
    }
    note_workers(caller, workers, tally);
    note_table(rt, runtime, caller, tally);
    Ok(())
}

/// Splits a caller off for each thread, and adds its worker to the others.
fn hire<Regions: Ledger, Tickets: Ledger, Events: Ledger>(
    caller: &mut Caller<Regions, Tickets, Events>,
    plan: Plan,
    workers: &mut Vec<Worker<Regions, Tickets, Events>>,
) -> Result<(), Fault> {
    for number in 0..plan.threads {
        workers.push(Worker::new(caller, plan.seed, number)?)?;
    }
    Ok(())
}

/// Notes what the workers noted, in the order of their numbers, and takes their shares back.
fn note_workers<Regions: Ledger, Tickets: Ledger, Events: Ledger>(
    caller: &mut Caller<Regions, Tickets, Events>,
    workers: Vec<Worker<Regions, Tickets, Events>>,
    tally: &mut Tally,
) {
    for worker in workers {
        tally.note(worker.tally.digest);
        caller.merge(worker.caller);
    }
}

/// So many steps of each worker, each in a thread of its own.
fn work_all<
    Regions: Limited + Send + Sync,
    Tickets: Ledger + Send + Sync,
    Events: Ledger + Send + Sync,
    R: Threads + Wait + Sync + AllocGlobal,
>(
    rt: &R,
    runtime: &Runtime<Regions, Tickets, Events>,
    workers: &mut [Worker<Regions, Tickets, Events>],
    steps: u64,
) {
    let threads = workers.len().max(1);
    for_each_mut(
        rt,
        workers,
        threads,
        &|_, worker| work(rt, runtime, worker, steps),
    );
}

/// Makes the steps of a worker, until a fault, which is noted.
fn work<Regions: Limited, Tickets: Ledger, Events: Ledger, R: Wait + AllocGlobal>(
    rt: &R,
    runtime: &Runtime<Regions, Tickets, Events>,
    worker: &mut Worker<Regions, Tickets, Events>,
    steps: u64,
) {
    let mut hand = Hand {
        rt,
        runtime,
        worker,
    };
    if let Err(fault) = hand.work(steps) {
        worker.tally.refuse(fault);
    }
}

/// Notes how many events there were, and what is left.
fn note_table<Regions: Limited, Tickets: Ledger, Events: Ledger, R: Wait>(
    rt: &R,
    runtime: &Runtime<Regions, Tickets, Events>,
    caller: &mut Caller<Regions, Tickets, Events>,
    tally: &mut Tally,
) {
    let (events, regions, first, second) = runtime.look(
        rt,
        caller,
        |table| (
            table.events(),
            table.regions(),
            table.used(0),
            table.used(1),
        ),
    );
    tally.note(events);
    let left = regions.wrapping_add(first).wrapping_add(second);
    tally.left = tally.left.wrapping_add(left);
}

/// Maps the large array, and lets kernels work on all of it in one to four parts, so many times.
pub fn play_kernels<R: Threads + Wait + Sync>(rt: &R, desk: &mut Desk, rounds: u64) {
    let all = section(0, LARGE);
    desk.fill(all);
    desk.enter_data(one(EnterClause::Copyin, all));
    let region = desk.enter(one(RegionClause::Present, all));
    for round in 0..rounds.saturating_mul(8) {
        work_in(rt, desk, region, all, round % 4);
    }
    desk.exit(region);
    desk.exit_data(one(ExitClause::Copyout, all), None);
    desk.note_host(all);
}

/// Lends a section to a kernel, which works on it in one part more than `others`.
fn work_in<R: Threads + Wait + Sync>(
    rt: &R,
    desk: &mut Desk,
    region: u64,
    section: Section,
    others: u64,
) {
    if let Some(mut lease) = desk.lend(region, section) {
        let others = (others % 64) as usize;
        let added = add_evenly(rt, desk.alloc, &mut lease, others.wrapping_add(1));
        desk.tally.is_short |= added.is_err();
        desk.call(Call::Gather(lease));
    }
}

/// Runs a kernel on a lease, in so many parts of about the same length.
fn add_evenly<R: Threads + Wait + Sync>(
    rt: &R,
    alloc: Global,
    lease: &mut Lease,
    parts: usize,
) -> Result<(), Fault> {
    let cuts = Cuts::even(alloc, lease.len(), parts)?;
    run_parts(rt, lease, &cuts, &Add(3), &[], &Open);
    Ok(())
}
