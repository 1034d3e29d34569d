//! What look-ups return after tasks that were judged and not done yet.

ghost use Rattle.std.specs.Prelude.{◌≡◌, ◌+◌, ◌<◌, ◌≤◌, ◌^◌, length};
ghost use Rattle.acc_clauses.specs.Overlays.{recount, are_zero, counters_by, counters_over, found_beside, found_by, found_over, tasks_in, dids_in, puts_by, puts_in};

use crate::acted::Acted;
use crate::rows::moves;
use acc_base::{Counters, Found, Range, Section, Step, Task};

/// What a task leaves of the counters of a range that it counts or drops.
pub fn recount(task: Task, counters: Counters) -> Counters
    requires structured { counters.structured < 2 ^ 40 }
    requires dynamic { counters.dynamic < 2 ^ 40 }
    ensures value { result ≡ recount task counters }
    ensures structured_most { result.structured ≤ counters.structured + 1 }
    ensures dynamic_most { result.dynamic ≤ counters.dynamic + 1 }
{
    let range = task.recounted(Range {
        section: Section { start: 0, len: 0 },
        block: 0,
        structured: counters.structured,
        dynamic: counters.dynamic,
    });
    Counters {
        structured: range.structured,
        dynamic: range.dynamic,
    }
}

/// Neither counter is above zero.
pub fn are_zero(counters: Counters) -> bool
    ensures { result ≡ are_zero counters }
{
    counters.structured == 0 && counters.dynamic == 0
}

// The counters of a block's range after one task.
fn counters_by(block: u64, counters: Counters, x: Acted) -> Counters
    requires structured { counters.structured < 2 ^ 40 }
    requires dynamic { counters.dynamic < 2 ^ 40 }
    ensures value { result ≡ counters_by block counters x.task x.did.step }
    ensures structured_most { result.structured ≤ counters.structured + 1 }
    ensures dynamic_most { result.dynamic ≤ counters.dynamic + 1 }
{
    let named = match x.did.step {
        Step::Counted { block } => Some(block),
        Step::Born { block, .. } => Some(block),
        Step::Dropped { block, .. } => Some(block),
        _ => None,
    };
    if named == Some(block) {
        recount(x.task, counters)
    } else {
        counters
    }
}

/// The counters of a block's range after tasks.
pub fn counters_over(block: u64, counters: Counters, acts: &[Acted]) -> Counters
    requires few { length acts.now ≤ 64 }
    requires structured { counters.structured < 2 ^ 32 }
    requires dynamic { counters.dynamic < 2 ^ 32 }
    ensures value { result ≡ counters_over block counters acts.now }
    ensures structured { result.structured < 2 ^ 33 }
    ensures dynamic { result.dynamic < 2 ^ 33 }
{
    let mut after = counters;
    for x in acts {
        after = counters_by(block, after, *x);
    }
    after
}

// Where a section lies once a range that it may touch is mapped to a new block.
fn found_beside(section: Section, range: Section, block: u64, found: Found) -> Found
    ensures { result ≡ found_beside section range block found }
{
    match found {
        Found::Absent => {
            if section.is_within(range) {
                let offset = section.start - range.start;
                return Found::Inside { block, offset };
            }
            if section.is_apart(range) {
                return Found::Absent;
            }
            Found::Partly
        }
        _ => found,
    }
}

// Where a section lies after one task.
fn found_by(section: Section, found: Found, x: Acted) -> Found
    ensures { result ≡ found_by section found x.task x.did.step }
{
    match x.did.step {
        Step::Born { block, .. } => found_beside(section, x.task.section(), block, found),
        _ => found,
    }
}

/// Where a section lies after tasks of which none ends a mapping.
pub fn found_over(section: Section, found: Found, acts: &[Acted]) -> Found
    ensures { result ≡ found_over section found acts.now }
{
    let mut after = found;
    for x in acts {
        after = found_by(section, after, *x);
    }
    after
}

// How many transfers a task puts into a queue.
fn puts_by(q: u64, x: Acted) -> u64
    ensures value { result ≡ puts_by q x.task x.did.step }
    ensures most { result ≤ 1 }
{
    if x.task.queue() == Some(q) && moves(x.task, x.did.step) {
        1
    } else {
        0
    }
}

/// How many transfers these tasks put into a queue.
pub fn puts_in(q: u64, acts: &[Acted]) -> u64
    requires few { length acts.now ≤ 64 }
    ensures value { result ≡ puts_in q (tasks_in acts.now) (dids_in acts.now) }
    ensures most { result ≤ 64 }
{
    let mut count = 0;
    for x in acts {
        count += puts_by(q, *x);
    }
    count
}
