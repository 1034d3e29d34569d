//! Scenes that are played on new runtimes.

use crate::tests::actors::{Actor, Row};
use crate::tests::drills::{LENT, OPEN};
use crate::tests::example::{LEFT, play_new};
use crate::tests::gates::Meeting;
use crate::tests::serving::Service;
use acc_base::{Config, Fault};
use acc_runtime::{Drilled, Limited};
use std::process::Abort;
use std::rt::Clock;
use std::sync::Wait;
use std::sync::ledger::Ledger;
use std::thread::Threads;

/// What is tried on a new runtime.
#[derive(Clone, Copy)]
pub enum Scene {
    /// Calls that follow one another.
    Life(&'static [Row]),
    /// A worker that receives which queues to serve.
    Serve(Service),
    /// Two threads that do their parts, of which that of the number comes first.
    Pair(usize),
    /// A drill: how many threads it has, which are held until that of the number is done, if any, and what it returns.
    /// Where that is a fault, the array is lent.
    Drill(usize, Option<usize>, Result<Drilled, Fault>),
}

/// The limits of the runtime of a scene.
fn limits_of(scene: Scene) -> Result<Config, Fault> {
    let counter_max = match scene {
        Scene::Drill(_, _, Err(_)) => 2,
        _ => 64,
    };
    Config::new(4_096, 4_096, 64, 100, counter_max, 4, 262_144)
}

/// The calls that are made before a scene, and behind it.
fn rows_around(scene: Scene) -> (&'static [Row], &'static [Row]) {
    match scene {
        Scene::Life(rows) => (rows, &[]),
        Scene::Pair(_) => (&[], &LEFT),
        Scene::Drill(_, _, Err(_)) => (&LENT, &OPEN),
        Scene::Serve(_) | Scene::Drill(..) => (&[], &[]),
    }
}

impl<
    Regions: Limited + Send + Sync,
    Tickets: Ledger + Send + Sync,
    Events: Ledger + Send + Sync,
    R: Abort + Clock + Threads + Wait + AllocGlobal + Sync,
> Actor<'_, Regions, Tickets, Events, R> {
    /// Plays a scene. Memory may be refused for a service or a drill, which is returned.
    pub fn play(&mut self, scene: Scene) -> Result<(), Fault> {
        let (before, behind) = rows_around(scene);
        self.make_rows(before);
        let played = match scene {
            Scene::Life(_) => Ok(()),
            Scene::Serve(service) => self.serve_in(service, &Meeting::new(None, 1), 0),
            Scene::Pair(first) => self.pair(first),
            Scene::Drill(threads, first, wanted) => self.drill(threads, first, wanted),
        };
        self.make_rows(behind);
        played
    }
}

/// Plays a scene on a new runtime. Where memory may be refused, and is, it is played on one more.
fn play_again<R: Abort + Clock + Threads + Wait + AllocGlobal + Sync>(
    rt: &R,
    scene: Scene,
    may_lack: bool,
) -> Result<(), Fault> {
    let config = limits_of(scene)?;
    let played = play_new(rt, scene, may_lack, config);
    if may_lack && played == Err(Fault::Memory) {
        return play_new(rt, scene, may_lack, config);
    }
    played
}

/// Plays each scene on a new runtime.
pub fn play_each<R: Abort + Clock + Threads + Wait + AllocGlobal + Sync>(
    rt: &R,
    scenes: &[Scene],
    may_lack: bool,
) -> Result<(), Fault> {
    for &scene in scenes {
        play_again(rt, scene, may_lack)?;
    }
    Ok(())
}
