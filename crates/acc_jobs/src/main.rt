//! Does jobs that users of a table wait for: `acc_jobs JOB SEED ROUNDS` makes its own input from the seed, and prints a
//! digest of all that the calls answered. With no round at all it prints what is left behind, without a digest.
#![tactic(auto)]

mod awkward;
mod bytes;
mod desks;
mod hands;
mod holes;
mod items;
mod loops;
mod numbers;
mod pointers;
mod scripts;
mod stages;
mod tallies;
mod texts;
mod threads;
mod walks;

use crate::stages::play_stages;
use crate::tallies::Tally;
use anyhow::Result;
use std::env;
use std::rt::Env;
use std::sync::Wait;
use std::thread::Threads;

/// All jobs.
const JOBS: [&str; 8] = [
    "loops", "holes", "pointers", "scripts", "bytes", "awkward", "threads", "walks",
];

fn main(rt: HostRuntime) -> Result<()> {
    let seed = number(&rt, 2)?;
    let rounds = number(&rt, 3)?;
    let job = word(&rt, 1)?;
    tell(&rt, &job, seed, rounds)
}

/// The word at a place of the command line; an empty one where there is none.
fn word<R: Env + AllocGlobal>(rt: &R, place: usize) -> Result<String> {
    match env::args(rt)?.nth(place) {
        Some(word) => Ok(word),
        None => Ok(String::new(rt.alloc())),
    }
}

/// The number at a place of the command line; 0 where there is none.
fn number<R: Env + AllocGlobal>(rt: &R, place: usize) -> Result<u64> {
    Ok(word(rt, place)?.parse::<u64>().unwrap_or(0))
}

/// Does a job, or all of them, and prints what came of it.
fn tell<R: Print + Threads + Wait + Sync + AllocGlobal>(
    rt: &R,
    job: &str,
    seed: u64,
    rounds: u64,
) -> Result<()> {
    let mut is_known = false;
    for name in &JOBS {
        if job == *name || job == "all" {
            is_known = true;
            tell_one(rt, name, seed, rounds)?;
        }
    }
    if is_known { Ok(()) } else { tell_usage(rt) }
}

fn tell_one<R: Print + Threads + Wait + Sync + AllocGlobal>(
    rt: &R,
    job: &str,
    seed: u64,
    rounds: u64,
) -> Result<()> {
    let tally = play_stages(rt, job, seed, rounds)?;
    tell_tally(rt, job, tally, rounds)
}

fn tell_tally<R: Print>(rt: &R, job: &str, tally: Tally, rounds: u64) -> Result<()> {
    let (left, digest) = (tally.left, tally.digest);
    if rounds == 0 {
        println!(rt; "{job}: {left} left")?;
    } else {
        println!(rt; "{job}: {left} left, digest {digest:016x}")?;
    }
    Ok(())
}

fn tell_usage<R: Print>(rt: &R) -> Result<()> {
    println!(rt;
        "usage: acc_jobs all|loops|holes|pointers|scripts|bytes|awkward|threads|walks SEED ROUNDS"
    )?;
    Ok(())
}
