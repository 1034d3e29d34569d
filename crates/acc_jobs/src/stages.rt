//! The stages of all jobs. What a stage answers goes into the digest of its job.

use crate::desks::Desk;
use crate::tallies::Tally;
use crate::{awkward, bytes, holes, loops, pointers, scripts, threads, walks};
use acc_base::{Config, Fault};
use std::sync::Wait;
use std::thread::Threads;

/// What a stage does.
#[derive(Clone, Copy)]
enum Work {
    /// Time steps on a table on which so many arrays are mapped.
    Loop(u64),
    Holes,
    Pointers,
    Scripts,
    Large,
    Pages,
    Awkward,
    Refused,
    /// So many threads share a table.
    Threads(u64),
    Kernels,
    Walks,
    Pictures,
}

/// The stages: a job, what it does in the stage, and how many bytes of memory host and device have there. The stages of
/// a job are made in this order.
const STAGES: [(&str, Work, u64, u64); 17] = [
    ("loops", Work::Loop(1), 8_388_608, 8_388_608),
    ("loops", Work::Loop(1_000), 8_388_608, 8_388_608),
    ("loops", Work::Loop(10_000), 8_388_608, 8_388_608),
    ("loops", Work::Loop(100_000), 8_388_608, 8_388_608),
    ("holes", Work::Holes, 33_554_432, 4_194_304),
    ("pointers", Work::Pointers, 2_097_152, 2_097_152),
    ("scripts", Work::Scripts, 2_097_152, 2_097_152),
    ("bytes", Work::Large, 16_777_216, 16_777_216),
    ("bytes", Work::Pages, 1_048_576, 1_048_576),
    ("awkward", Work::Awkward, 2_097_152, 2_097_152),
    ("awkward", Work::Refused, 2_097_152, 2_097_152),
    ("threads", Work::Threads(1), 2_097_152, 2_097_152),
    ("threads", Work::Threads(2), 2_097_152, 2_097_152),
    ("threads", Work::Threads(4), 2_097_152, 2_097_152),
    ("threads", Work::Kernels, 4_194_304, 4_194_304),
    ("walks", Work::Walks, 2_097_152, 2_097_152),
    ("walks", Work::Pictures, 2_097_152, 2_097_152),
];

/// Does a job, stage by stage.
pub fn play_stages<R: Threads + Wait + Sync + AllocGlobal>(
    rt: &R,
    job: &str,
    seed: u64,
    rounds: u64,
) -> Result<Tally, Fault> {
    let mut tally = Tally::new();
    for (of, work, host, device) in &STAGES {
        if *of == job {
            let config = limits(*work, *host, *device)?;
            play_stage(rt, *work, config, seed, rounds, &mut tally)?;
        }
    }
    if tally.is_short {
        return Err(Fault::Memory);
    }
    Ok(tally)
}

/// The limits of the tables of a stage.
fn limits(work: Work, host: u64, device: u64) -> Result<Config, Fault> {
    let config = Config::new(
        host,
        device,
        65_536,
        1 << 40,
        4_294_967_295,
        4_096,
        1_048_576,
    )?;
    match work {
        Work::Pages => Ok(config.with_full_trace()),
        Work::Threads(_) | Work::Walks => config.with_devices(2),
        _ => Ok(config),
    }
}

/// Plays a stage, and adds what it answers to the digest.
fn play_stage<R: Threads + Wait + Sync + AllocGlobal>(
    rt: &R,
    work: Work,
    config: Config,
    seed: u64,
    rounds: u64,
    tally: &mut Tally,
) -> Result<(), Fault> {
    match work {
        Work::Scripts => scripts::play_apart(rt, config, seed, rounds, tally),
        Work::Refused => scripts::play(rt, config, &scripts::REFUSED, seed, rounds, tally),
        Work::Pictures => scripts::play(rt, config, &scripts::DRAWN, seed, rounds, tally),
        Work::Threads(threads) => {
            let plan = threads::Plan {
                seed,
                rounds,
                threads,
            };
            return threads::share(rt, config, plan, tally);
        }
        Work::Loop(count) => {
            let seed = seed.wrapping_add(count);
            return play_desk(rt, work, config, seed, rounds, tally);
        }
        _ => return play_desk(rt, work, config, seed, rounds, tally),
    }
    Ok(())
}

/// Plays a stage on a new table.
fn play_desk<R: Threads + Wait + Sync + AllocGlobal>(
    rt: &R,
    work: Work,
    config: Config,
    seed: u64,
    rounds: u64,
    tally: &mut Tally,
) -> Result<(), Fault> {
    let mut desk = Desk::new(rt.alloc(), config, seed, *tally)?;
    play_at(rt, &mut desk, work, rounds);
    *tally = desk.finish();
    Ok(())
}

fn play_at<R: Threads + Wait + Sync + AllocGlobal>(
    rt: &R,
    desk: &mut Desk,
    work: Work,
    rounds: u64,
) {
    match work {
        Work::Loop(count) => loops::play(desk, count, rounds),
        Work::Holes => holes::play(desk, rounds),
        Work::Pointers => pointers::play(desk, rounds),
        Work::Large => bytes::play_large(desk, rounds),
        Work::Pages => bytes::play_pages(desk, rounds),
        Work::Awkward => awkward::play(desk, rounds),
        Work::Kernels => threads::play_kernels(rt, desk, rounds),
        Work::Walks => walks::play(desk, rounds),
        _ => {}
    }
}
