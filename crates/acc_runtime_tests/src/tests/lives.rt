//! The life of an array, in calls that follow one another.

use crate::tests::actors::{Asked, Deed, Row};
use crate::tests::scenes::{Scene, play_each};
use acc_base::{Fault, RegionClause, UpdateClause};

/// A life from the first mapping to the end of the last, in 13 events. Ten are folded on the way: six while the block
/// is lent, and three while a copy waits.
const LIFE: [Row; 22] = [
    (Deed::EnterData, Ok(0)),
    (Deed::Enter(RegionClause::Present), Ok(1)),
    (Deed::Write(7), Ok(0)),
    (Deed::Update(UpdateClause::ToDevice, None), Ok(0)),
    (Deed::Write(0), Ok(0)),
    (Deed::Lend, Ok(1)),
    (Deed::Rebase, Ok(6)),
    (Deed::Exit, Err(Fault::Lent { block: 1 })),
    (Deed::Wait(None), Ok(0)),
    (Deed::Gather, Ok(0)),
    (Deed::Update(UpdateClause::ToSelf, Some(0)), Ok(0)),
    (Deed::Rebase, Ok(3)),
    (Deed::Step(0), Ok(1)),
    (Deed::Step(0), Ok(0)),
    (Deed::Rebase, Ok(1)),
    (Deed::Reads(8), Ok(1)),
    (Deed::ExitData(1), Ok(0)),
    (Deed::Look(Asked::IsPresent), Ok(1)),
    (Deed::Exit, Ok(0)),
    (Deed::Wait(Some(1)), Ok(0)),
    (Deed::Look(Asked::IsPresent), Ok(0)),
    (Deed::Rebase, Ok(3)),
];

#[test]
fn calls_follow_one_another(rt: HostRuntime) -> Result<(), Fault> {
    play_each(&rt, &[Scene::Life(&LIFE)], false)
}

/// Each call that memory is refused for changes nothing, and is accepted when it is made once more.
#[test]
fn a_refused_growth_changes_no_runtime(rt: HostRuntime) -> Result<(), Fault> {
    play_each(&rt, &[Scene::Life(&LIFE)], true)
}
