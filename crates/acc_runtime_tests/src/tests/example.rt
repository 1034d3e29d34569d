//! An example of a runtime: how one is made, and how two threads share it. Both map the same bytes, and each finds what
//! the other did.

ghost use Rattle.std.specs.Prelude.{◌≡◌};

use crate::tests::actors::{Actor, Asked, Deed, Opened, Row};
use crate::tests::gates::Meeting;
use crate::tests::same;
use crate::tests::scenes::{Scene, play_each};
use crate::tests::serving::Service;
use acc_base::{Config, Fault, RegionClause, UpdateClause};
use acc_runtime::{Blanks, Caller, Limited, Runtime, Served, blanks};
use std::marker::Brand;
use std::process::Abort;
use std::rt::Clock;
use std::sync::Wait;
use std::sync::ledger::Ledger;
use std::thread::{Threads, join};

/// Plays a scene on a new runtime for three ledgers, whose blanks are those of the configuration.
fn play_on_new<
    Regions: Limited + Send + Sync,
    Tickets: Ledger + Send + Sync,
    Events: Ledger + Send + Sync,
    R: Abort + Clock + Threads + Wait + AllocGlobal + Sync,
>(rt: &R, scene: Scene, may_lack: bool, config: Config, blanks: Blanks) -> Result<(), Fault>
    requires regions { (blanks.regions.name ≡ Regions.name) × (blanks.regions.parts ≡ Regions.parts) × (config.regions ≡ Regions.parts) }
    requires tickets { (blanks.tickets.name ≡ Tickets.name) × (blanks.tickets.parts ≡ Tickets.parts) × (config.tickets ≡ Tickets.parts) }
    requires events { (blanks.events.name ≡ Events.name) × (blanks.events.parts ≡ Events.parts) × (config.tickets ≡ Events.parts) }
    requires limits { config ≡ Regions.limits }
{
    let (runtime, caller) = Runtime::<Regions, Tickets, Events>::new(rt, config, blanks)?;
    Actor::new(rt, &runtime, caller, may_lack).play(scene)
}

/// Plays a scene on a new runtime with these limits. `Brand` stands for each ledger: whoever calls with it says in a
/// proof file which one that is.
pub fn play_new<R: Abort + Clock + Threads + Wait + AllocGlobal + Sync>(
    rt: &R,
    scene: Scene,
    may_lack: bool,
    config: Config,
) -> Result<(), Fault> {
    let blanks = blanks(&config);
    play_on_new::<Brand, Brand, Brand, R>(rt, scene, may_lack, config, blanks)
}

/// The thread that comes first maps the array by a region, and once more. It puts two copies of what the device has into
/// queues, makes the first, and stays in the region.
const FIRST: Service = Service {
    rows: &[
        (Deed::Write(7), Ok(0)),
        (Deed::Enter(RegionClause::Copy), Ok(1)),
        (Deed::EnterData, Ok(0)),
        (Deed::Write(9), Ok(0)),
        (Deed::Update(UpdateClause::ToSelf, Some(3)), Ok(0)),
        (Deed::Update(UpdateClause::ToSelf, Some(4)), Ok(0)),
    ],
    words: &[3],
    events: &[6, 1],
    served: ONE_STEP,
    behind: &[],
};

/// The other one makes the second copy, finds what both made, and maps the array.
const SECOND: Service = Service {
    rows: &[],
    words: &[4],
    events: &[0, 1],
    served: ONE_STEP,
    behind: &[
        (Deed::Look(Asked::IsPresent), Ok(1)),
        (Deed::Reads(7), Ok(1)),
        (Deed::EnterData, Ok(0)),
    ],
};

const ONE_STEP: Served = Served {
    steps: 1,
    refusals: 0,
};

/// What is found behind both, where the region of the first is exited.
pub const LEFT: [Row; 4] = [
    (Deed::Look(Asked::Regions), Ok(1)),
    (Deed::Exit, Ok(0)),
    (Deed::Look(Asked::Regions), Ok(0)),
    (Deed::Look(Asked::Used), Ok(16)),
];

/// What a thread gives back: its caller, the region that it is in, and a fault.
type Back<Regions, Tickets, Events> = (
    Caller<Regions, Tickets, Events>,
    Option<Opened>,
    Result<(), Fault>,
);

/// Two callers work at the same time, each in a thread of its own. That of the number comes first.
fn work_both<
    Regions: Limited + Send + Sync,
    Tickets: Ledger + Send + Sync,
    Events: Ledger + Send + Sync,
    R: Abort + Clock + Threads + Wait + AllocGlobal + Sync,
>(
    rt: &R,
    runtime: &Runtime<Regions, Tickets, Events>,
    one: Caller<Regions, Tickets, Events>,
    two: Caller<Regions, Tickets, Events>,
    meeting: &Meeting,
    first: usize,
) -> (
    Back<Regions, Tickets, Events>,
    Back<Regions, Tickets, Events>,
) {
    join(
        rt,
        move || Actor::new(rt, runtime, one, false).work(meeting, 0, first == 0),
        move || Actor::new(rt, runtime, two, false).work(meeting, 1, first == 1),
    )
}

impl<
    Regions: Limited + Send + Sync,
    Tickets: Ledger + Send + Sync,
    Events: Ledger + Send + Sync,
    R: Abort + Clock + Threads + Wait + AllocGlobal + Sync,
> Actor<'_, Regions, Tickets, Events, R> {
    /// Does the part of the thread of a number, and gives back what that has.
    fn work(
        mut self,
        meeting: &Meeting,
        number: usize,
        is_first: bool,
    ) -> Back<Regions, Tickets, Events> {
        let service = if is_first { FIRST } else { SECOND };
        let served = self.serve_in(service, meeting, number);
        let Actor { caller, region, .. } = self;
        (caller, region, served)
    }

    /// Splits two callers off, which work at the same time. That of the number comes first.
    pub fn pair(&mut self, first: usize) -> Result<(), Fault> {
        let one = self.caller.split(1, 10)?;
        let two = self.caller.split(1, 10)?;
        self.meet(one, two, first)
    }

    /// Two callers work at the same time, and are merged.
    fn meet(
        &mut self,
        one: Caller<Regions, Tickets, Events>,
        two: Caller<Regions, Tickets, Events>,
        first: usize,
    ) -> Result<(), Fault> {
        let meeting = Meeting::new(Some(first), 2);
        let ((one, region, served), (two, other, also)) = work_both(
            self.rt,
            self.runtime,
            one,
            two,
            &meeting,
            first,
        );
        self.caller.merge(one);
        self.caller.merge(two);
        self.region = region.or(other);
        same(self.rt, meeting.took_place(), Some(0));
        served.and(also)
    }
}

#[test]
fn two_threads_share_one_mapping(rt: HostRuntime) -> Result<(), Fault> {
    play_each(&rt, &[Scene::Pair(0), Scene::Pair(1)], false)
}
