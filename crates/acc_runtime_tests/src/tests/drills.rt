//! Drills: what they return and leave, and that their threads work at the same time.

use crate::tests::actors::{Actor, Asked, Deed, Row};
use crate::tests::gates::Meeting;
use crate::tests::same;
use crate::tests::scenes::{Scene, play_each};
use acc_base::{Fault, RegionClause};
use acc_runtime::{Drilled, Limited, drill};
use std::process::Abort;
use std::rt::Clock;
use std::sync::Wait;
use std::sync::ledger::Ledger;
use std::thread::Threads;

/// What a drill of two threads leaves: the array mapped once, and no region.
const LEFT: Drilled = Drilled {
    allowance: 64,
    events: 13,
    structured: 0,
    dynamic: 1,
};

/// A drill in which no thread is held.
const FREE: [Scene; 1] = [Scene::Drill(2, None, Ok(LEFT))];

/// Any thread may be the first that is done, while the others are held.
const HELD: [Scene; 3] = [
    Scene::Drill(2, Some(0), Ok(LEFT)),
    Scene::Drill(2, Some(1), Ok(LEFT)),
    Scene::Drill(4, Some(3), Ok(Drilled { events: 25, ..LEFT })),
];

/// The threads meet different faults. The drill returns that of the first by number, whichever came first.
const FAULTS: [Scene; 4] = [
    Scene::Drill(2, Some(0), Err(Fault::Lent { block: 1 })),
    Scene::Drill(2, Some(1), Err(Fault::CounterFull { item: 0 })),
    Scene::Drill(4, Some(0), Err(Fault::Lent { block: 1 })),
    Scene::Drill(4, Some(3), Err(Fault::CounterFull { item: 0 })),
];

/// Before a drill with a fault the array is lent in a region, so the thread of the number cannot exit. The counter is
/// at its limit then, so the others cannot enter.
pub const LENT: [Row; 2] = [
    (Deed::Enter(RegionClause::Create { zero: true }), Ok(1)),
    (Deed::Lend, Ok(1)),
];

/// The region of the thread of the number is open behind that, too.
pub const OPEN: [Row; 1] = [(Deed::Look(Asked::Regions), Ok(2))];

impl<
    Regions: Limited + Send + Sync,
    Tickets: Ledger + Send + Sync,
    Events: Ledger + Send + Sync,
    R: Abort + Clock + Threads + Wait + AllocGlobal + Sync,
> Actor<'_, Regions, Tickets, Events, R> {
    /// Makes a drill of three rounds, in which all threads wait for the one of the number, if any. It returns what it has
    /// to, but where memory may be refused for it.
    pub fn drill(
        &mut self,
        threads: usize,
        first: Option<usize>,
        wanted: Result<Drilled, Fault>,
    ) -> Result<(), Fault> {
        let meeting = Meeting::new(first, threads);
        let threads = threads.clamp(1, 64);
        let found = drill(
            self.rt,
            self.runtime,
            &mut self.caller,
            threads,
            3,
            &meeting,
        );
        if self.may_lack && found == Err(Fault::Memory) {
            return Err(Fault::Memory);
        }
        let wanted = (wanted, first.and(Some(0)));
        same(self.rt, (found, meeting.took_place()), wanted);
        Ok(())
    }
}

#[test]
fn drills_leave_what_they_should(rt: HostRuntime) -> Result<(), Fault> {
    play_each(&rt, &HELD, false)
}

#[test]
fn a_drill_tells_the_fault_of_its_first_thread(rt: HostRuntime) -> Result<(), Fault> {
    play_each(&rt, &FAULTS, false)
}

#[test]
fn a_refused_growth_ends_a_drill(rt: HostRuntime) -> Result<(), Fault> {
    play_each(&rt, &FREE, true)
}
