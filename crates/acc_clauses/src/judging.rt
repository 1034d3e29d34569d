//! The clause tables: what a task does after those that were judged before it, or why it is refused.

ghost use Rattle.std.specs.Prelude.{ℕ, ◌≡◌, ◌+◌, ◌++◌, ◌∷◌, [], ◌<◌, ◌^◌, ◌&&◌, not, Option, Ok, Err, Some, IfSome, MatchResult, true};
ghost use Rattle.std.specs.List.{list_all};
ghost use Rattle.acc_base.specs.declared.addresses.TheConstants.{MEMORY_MAX};
ghost use Rattle.acc_base.specs.Limits.{Limits, IsFromOne};
ghost use Rattle.acc_base.specs.Ranges.{where_is, range_of};
ghost use Rattle.acc_base.specs.Records.{Records};
ghost use Rattle.acc_base.specs.Clauses.{in_host, pointer_checked, born, enter_absent, counted};
ghost use Rattle.acc_base.specs.Tasks.{section_of, queue_of, checked};
ghost use Rattle.acc_base.specs.Detaching.{block_aimed};
ghost use Rattle.acc_clauses.specs.Aims.{step_free};
ghost use Rattle.acc_base.specs.Steps.{block_needed, judge_row};
ghost use Rattle.acc_base.specs.Queues.{queue_named};
ghost use Rattle.acc_base.specs.Transfers.{transfer_of, room_for};
ghost use Rattle.acc_base.specs.declared.events.Step.TheVariants.{Dropped};
ghost use Rattle.acc_clauses.specs.Overlays.{IsPlanned, AreUnmixed, tasks_in, records_after, enters, are_zero, recount};

use crate::drafts::Draft;
use crate::effects::{are_zero, recount};
use crate::lending::not_lent;
use crate::readings::{counters_after, locate_after, number_after, place_after, queue_len_after};
use crate::rows::{moves, pointer_of};
use crate::sections::{POINTER_LEN, pointer_at};
use crate::views::View;
use acc_base::{
    Aim, Counter, Counters, ExitClause, Fault, Found, HOST_BASE, Holding, Item, Range,
    RegionClause, Section, Step, Task, UpdateClause,
};
use acc_placement::rounded;
use acc_present::{Located, Place};

/// A section that is not empty lies in host memory of so many bytes. Nothing of an empty one is checked.
///
/// # Errors
///
/// [`Fault::OutOfHost`] with the place of the item, where some address of the section is outside.
pub fn check_host(size: u64, n: u64, section: Section) -> Result<(), Fault>
    ensures { (l : Limits) → l.host ≡ size → result ≡ in_host l n section }
{
    let host = Section {
        start: HOST_BASE,
        len: size,
    };
    if section.len != 0 && !section.is_within(host) {
        return Err(Fault::OutOfHost { item: n });
    }
    Ok(())
}

/// A section that is not empty lies in host memory.
pub(crate) fn in_host(view: &View<'_>, n: u64, section: Section) -> Result<(), Fault>
    ensures { result ≡ in_host view.now.limits n section }
{
    check_host(view.host_size(), n, section)
}

// The eight bytes of an item's pointer, if it names one, lie in host memory, from a multiple of eight on.
fn pointer_checked(view: &View<'_>, n: u64, pointer: Option<u64>) -> Result<(), Fault>
    ensures { result ≡ pointer_checked view.now.limits n pointer }
{
    let Some(pointer) = pointer else {
        return Ok(());
    };
    let host = Section {
        start: HOST_BASE,
        len: view.host_size(),
    };
    if !pointer_at(pointer).is_within(host) {
        return Err(Fault::OutOfHost { item: n });
    }
    if pointer % POINTER_LEN != 0 {
        return Err(Fault::Misaligned { item: n });
    }
    Ok(())
}

// Section and pointer of a task, if it names them, may stand there.
fn checked(view: &View<'_>, n: u64, task: Task) -> Result<(), Fault>
    ensures { result ≡ checked view.now.limits n task }
{
    in_host(view, n, task.section())?;
    pointer_checked(view, n, pointer_of(task))
}

// The section is mapped to a new block, where the device has a place for it.
#[tactic(auto, using(crate::proofs::Laws::plan_laws))]
#[inline(never)]
fn born(view: &View<'_>, draft: &Draft, n: u64, section: Section) -> Result<Step, Fault>
    requires planned { IsPlanned view.now.limits draft.now view.now.state.records }
    requires entering { list_all enters (tasks_in draft.now) ≡ true }
    requires births { view.now.state.records.births < 2 ^ 48 }
    requires len { IsFromOne MEMORY_MAX section.len }
    ensures { result ≡ born view.now.limits n section (records_after draft.now view.now.state.records) }
{
    match place_after(view, draft, section.len) {
        Some(place) => {
            let block = number_after(view, draft);
            Ok(Step::Born { block, place })
        }
        None => {
            let need = rounded(section.len);
            Err(Fault::DeviceFull { item: n, need })
        }
    }
}

// The entry of an absent section.
#[inline(always)]
fn enter_absent(
    view: &View<'_>,
    draft: &Draft,
    n: u64,
    clause: RegionClause,
    section: Section,
) -> Result<Step, Fault>
    requires planned { IsPlanned view.now.limits draft.now view.now.state.records }
    requires entering { list_all enters (tasks_in draft.now) ≡ true }
    requires births { view.now.state.records.births < 2 ^ 48 }
    requires len { IsFromOne MEMORY_MAX section.len }
    ensures { result ≡ enter_absent clause view.now.limits n section (records_after draft.now view.now.state.records) }
{
    match clause {
        RegionClause::Copy
        | RegionClause::Copyin
        | RegionClause::Copyout { .. }
        | RegionClause::Create { .. } => born(view, draft, n, section),
        RegionClause::NoCreate | RegionClause::Attach => Ok(Step::Nothing),
        RegionClause::Present => Err(Fault::NotPresent { item: n }),
    }
}

// The counter of a mapped range rises, below its limit.
#[inline(always)]
fn counted(
    view: &View<'_>,
    draft: &Draft,
    n: u64,
    counter: Counter,
    block: u64,
    known: Option<Range>,
) -> Result<Step, Fault>
    requires known { IfSome known (λ range. range_of range.block view.now.state.records.ranges ≡ Some range) }
    requires planned { IsPlanned view.now.limits draft.now view.now.state.records }
    ensures { result ≡ counted view.now.limits counter n block (records_after draft.now view.now.state.records) }
{
    let counters = counters_after(view, draft, block, known);
    let count = match counter {
        Counter::Structured => counters.structured,
        Counter::Dynamic => counters.dynamic,
    };
    if view.counter_max() <= count {
        return Err(Fault::CounterFull { item: n });
    }
    Ok(Step::Counted { block })
}

// An item of a region's entry, or of `enter data`.
#[tactic(auto, using(crate::proofs::Laws::plan_laws), unfolding(acc_base::specs::Steps::judge_row))]
#[inline(always)]
fn enter(
    view: &View<'_>,
    draft: &Draft,
    n: u64,
    counter: Counter,
    item: Item<RegionClause>,
    queue: Option<u64>,
    located: Located,
) -> Result<Step, Fault>
    requires planned { IsPlanned view.now.limits draft.now view.now.state.records }
    requires entering { list_all enters (tasks_in draft.now) ≡ true }
    requires births { view.now.state.records.births < 2 ^ 48 }
    requires located { located.found ≡ where_is (section_of (Task.Enter counter item queue)) (records_after draft.now view.now.state.records).ranges }
    requires known { IfSome located.range (λ range. range_of range.block view.now.state.records.ranges ≡ Some range) }
    ensures { result ≡ judge_row view.now.limits n (Task.Enter counter item queue) (records_after draft.now view.now.state.records) }
{
    let task = Task::Enter {
        counter,
        item,
        queue,
    };
    checked(view, n, task)?;
    match located.found {
        Found::Empty => Ok(Step::Nothing),
        Found::Inside { block, .. } => counted(view, draft, n, counter, block, located.range),
        Found::Absent => enter_absent(view, draft, n, item.clause, task.section()),
        Found::Partly => Err(Fault::PartlyPresent { item: n }),
    }
}

// The drop of a block by a task, where its range has these counters. A range is mapped just as long as a counter of it
// is above zero.
fn dropped(task: Task, block: u64, counters: Counters) -> Step
    requires structured { counters.structured < 2 ^ 40 }
    requires dynamic { counters.dynamic < 2 ^ 40 }
    ensures { result ≡ Dropped block (not (are_zero counters) && are_zero (recount task counters)) }
{
    let ended = !are_zero(counters) && are_zero(recount(task, counters));
    Step::Dropped { block, ended }
}

// Undoes what an item of a region's entry counted, and nothing else. With the step comes where its range may stand.
#[tactic(auto, using(crate::proofs::Laws::plan_laws), unfolding(acc_base::specs::Steps::judge_row))]
#[inline(always)]
fn leave(view: &View<'_>, draft: &Draft, holding: Holding) -> (Step, Place)
    requires { IsPlanned view.now.limits draft.now view.now.state.records }
    ensures { (n : ℕ) → Ok result.0 ≡ judge_row view.now.limits n (Task.ExitRegion holding) (records_after draft.now view.now.state.records) }
{
    match holding.block {
        Some(block) => {
            let near = draft.near(holding.item.section.start);
            let (known, place) = view.range_near(block, near);
            let counters = counters_after(view, draft, block, known);
            (
                dropped(Task::ExitRegion { holding }, block, counters),
                place,
            )
        }
        None => (Step::Nothing, Place::default()),
    }
}

// An item of `exit data`.
#[tactic(auto, using(crate::proofs::Laws::plan_laws), unfolding(acc_base::specs::Steps::judge_row))]
#[inline(always)]
fn exit(
    view: &View<'_>,
    draft: &Draft,
    n: u64,
    finalize: bool,
    item: Item<ExitClause>,
    queue: Option<u64>,
    located: Located,
) -> Result<Step, Fault>
    requires planned { IsPlanned view.now.limits draft.now view.now.state.records }
    requires located { located.found ≡ where_is (section_of (Task.ExitData finalize item queue)) (records_after draft.now view.now.state.records).ranges }
    requires known { IfSome located.range (λ range. range_of range.block view.now.state.records.ranges ≡ Some range) }
    ensures { result ≡ judge_row view.now.limits n (Task.ExitData finalize item queue) (records_after draft.now view.now.state.records) }
{
    let task = Task::ExitData {
        finalize,
        item,
        queue,
    };
    checked(view, n, task)?;
    match located.found {
        Found::Empty => Ok(Step::Nothing),
        Found::Inside { block, .. } => {
            let counters = counters_after(view, draft, block, located.range);
            if counters.dynamic == 0 {
                return Ok(Step::Nothing);
            }
            Ok(dropped(task, block, counters))
        }
        Found::Absent => Ok(Step::Nothing),
        Found::Partly => Err(Fault::PartlyPresent { item: n }),
    }
}

// An item of `update`.
#[tactic(auto, unfolding(acc_base::specs::Steps::judge_row))]
#[inline(always)]
fn copy(
    view: &View<'_>,
    n: u64,
    if_present: bool,
    item: Item<UpdateClause>,
    found: Found,
) -> Result<Step, Fault>
    ensures { (queue : Option ℕ) (w : Records) → found ≡ where_is item.section w.ranges → result ≡ judge_row view.now.limits n (Task.Move if_present item queue) w }
{
    in_host(view, n, item.section)?;
    match found {
        Found::Empty => Ok(Step::Nothing),
        Found::Inside { block, .. } => Ok(Step::Moved { block }),
        Found::Absent => {
            if if_present {
                return Ok(Step::Nothing);
            }
            Err(Fault::NotPresent { item: n })
        }
        Found::Partly => Err(Fault::PartlyPresent { item: n }),
    }
}

/// What the clause tables say of the task of the item at place `n` after those that were judged before it, and where the
/// range may stand that it changes. The exit from a region knows its block, and so its section is not searched for.
#[tactic(auto, using(crate::proofs::Laws::kind_laws))]
#[inline(always)]
pub(crate) fn judge_row(
    view: &View<'_>,
    draft: &Draft,
    n: u64,
    task: Task,
) -> Result<(Step, Place), Fault>
    requires planned { IsPlanned view.now.limits draft.now view.now.state.records }
    requires unmixed { AreUnmixed (tasks_in draft.now ++ task ∷ []) }
    requires births { view.now.state.records.births < 2 ^ 48 }
    ensures { MatchResult result (λ told. judge_row view.now.limits n task (records_after draft.now view.now.state.records) ≡ Ok told.0) (λ fault. judge_row view.now.limits n task (records_after draft.now view.now.state.records) ≡ Err fault) }
{
    match task {
        Task::Enter {
            counter,
            item,
            queue,
        } => {
            let located = locate_after(view, draft, task.section());
            let step = enter(view, draft, n, counter, item, queue, located)?;
            Ok((step, located.place))
        }
        Task::ExitRegion { holding } => Ok(leave(view, draft, holding)),
        Task::ExitData {
            finalize,
            item,
            queue,
        } => {
            let located = locate_after(view, draft, task.section());
            let step = exit(view, draft, n, finalize, item, queue, located)?;
            Ok((step, located.place))
        }
        Task::Move {
            if_present,
            item,
            ..
        } => {
            let located = locate_after(view, draft, task.section());
            let step = copy(view, n, if_present, item, located.found)?;
            Ok((step, located.place))
        }
    }
}

// The queue of a task has room for the transfer of its step.
#[tactic(auto, using(crate::proofs::QueuesAfter::room_laws))]
#[inline(always)]
fn room_for(view: &View<'_>, draft: &Draft, task: Task, step: Step) -> Result<(), Fault>
    requires planned { IsPlanned view.now.limits draft.now view.now.state.records }
    requires known { queue_named (queue_of task) ≡ Ok tt }
    ensures { let w = records_after draft.now view.now.state.records in result ≡ room_for view.now.limits.queue_cap (queue_of task) (transfer_of task step w.ranges) w.queues }
{
    let Some(q) = task.queue() else {
        return Ok(());
    };
    if moves(task, step) && view.queue_cap() <= queue_len_after(view, draft, q) {
        return Err(Fault::QueueFull { q });
    }
    Ok(())
}

// The block that a step takes a counter from, or whose bytes it copies at once.
fn block_needed(task: Task, step: Step) -> Option<u64>
    ensures { result ≡ block_needed task step }
{
    match step {
        Step::Dropped { block, .. } => Some(block),
        Step::Moved { block } if task.queue().is_none() => Some(block),
        _ => None,
    }
}

// The block that holds the pointer of an attachment or a detachment.
fn block_aimed(aim: Aim) -> Option<u64>
    ensures { result ≡ block_aimed aim }
{
    match aim {
        Aim::None => None,
        Aim::New { block, .. } => Some(block),
        Aim::Again { block, .. } => Some(block),
        Aim::Less { block, .. } => Some(block),
        Aim::Cleared { block, .. } => Some(block),
    }
}

/// What the tables say of a task can be done. Neither the block in which it detaches a pointer before its step is lent,
/// nor the one that the step needs. And its queue has room.
#[inline(always)]
pub(crate) fn step_free(
    view: &View<'_>,
    draft: &Draft,
    task: Task,
    step: Step,
    before: Aim,
) -> Result<(), Fault>
    requires planned { IsPlanned view.now.limits draft.now view.now.state.records }
    requires known { queue_named (queue_of task) ≡ Ok tt }
    ensures { let w = records_after draft.now view.now.state.records in result ≡ step_free task step before view.now.limits.queue_cap w }
{
    not_lent(view, block_aimed(before))?;
    not_lent(view, block_needed(task, step))?;
    room_for(view, draft, task, step)
}
