//! Drills: many threads that enter and exit data regions on one table.

ghost use Rattle.std.specs.Prelude.{◌≡◌, ◌<◌, ◌≤◌};

use acc_base::{Config, Fault};
use acc_follow::Page;
use acc_runtime::{Blanks, Drilled, Limited, Open, Runtime, blanks, drill};
use acc_script::{Sink, Status, write_all};
use acc_terminal::Options;
use acc_trials::put_numbers;
use std::alloc::Global;
use std::marker::Brand;
use std::sync::Wait;
use std::sync::ledger::Ledger;
use std::thread::Threads;

/// Runs a drill with so many rounds in each thread on a new runtime, and writes the line of what it left.
///
/// # Errors
///
/// Those of [`Runtime::new`] and [`drill`]; [`Fault::Memory`] or [`Fault::Write`] where the line cannot be written.
pub fn run_drill<R: Threads + Wait + Sync + AllocGlobal, O: Sink>(
    rt: &R,
    options: Options<'_>,
    config: Config,
    rounds: u64,
    out: &mut O,
) -> Result<Status, Fault> {
    let (threads, rounds) = (options.thread_count(), rounds.clamp(1, 1_000));
    let blanks = blanks(&config);
    let left = drilled::<Brand, Brand, Brand, R>(rt, config, blanks, threads, rounds)?;
    write_left(rt.alloc(), out, left)
}

fn drilled<
    Regions: Limited + Send + Sync,
    Tickets: Ledger + Send + Sync,
    Events: Ledger + Send + Sync,
    R: Threads + Wait + Sync + AllocGlobal,
>(rt: &R, config: Config, blanks: Blanks, threads: usize, rounds: u64) -> Result<Drilled, Fault>
    requires regions { (blanks.regions.name ≡ Regions.name) × (blanks.regions.parts ≡ Regions.parts) × (config.regions ≡ Regions.parts) }
    requires tickets { (blanks.tickets.name ≡ Tickets.name) × (blanks.tickets.parts ≡ Tickets.parts) × (config.tickets ≡ Tickets.parts) }
    requires events { (blanks.events.name ≡ Events.name) × (blanks.events.parts ≡ Events.parts) × (config.tickets ≡ Events.parts) }
    requires limits { config ≡ Regions.limits }
    requires threads { (0 < threads) × (threads ≤ 64) }
    requires rounds { (0 < rounds) × (rounds ≤ 1000) }
{
    let (runtime, mut caller) = Runtime::<Regions, Tickets, Events>::new(rt, config, blanks)?;
    drill(rt, &runtime, &mut caller, threads, rounds, &Open)
}

fn write_left<O: Sink>(alloc: Global, out: &mut O, left: Drilled) -> Result<Status, Fault> {
    let mut page = Page::new(alloc);
    let numbers = [
        ("allowance ", left.allowance),
        (" events ", left.events),
        (" structured ", left.structured),
        (" dynamic ", left.dynamic),
    ];
    put_numbers(&mut page, &numbers, "\n");
    if write_all(out, page.whole()?) {
        Ok(Status::Clean)
    } else {
        Err(Fault::Write)
    }
}
