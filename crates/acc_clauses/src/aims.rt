//! What becomes of an item's pointer after the tasks that were judged before it (OpenACC 3.3, sections 2.6.8 and
//! 2.7.2).

ghost use Rattle.std.specs.Prelude.{◌≡◌, Ok, Some, true};
ghost use Rattle.std.specs.List.{list_all};
ghost use Rattle.acc_base.specs.Attachments.{detach};
ghost use Rattle.acc_base.specs.Clauses.{pointer_checked};
ghost use Rattle.acc_base.specs.Detaching.{block_with, detach_if, judge_release};
ghost use Rattle.acc_base.specs.Pointers.{judge_attach};
ghost use Rattle.acc_clauses.specs.Aims.{aim_before};
ghost use Rattle.acc_clauses.specs.Overlays.{IsPlanned, AreUnmixed, tasks_in, records_after, state_after, enters};

use crate::drafts::Draft;
use crate::lending::not_lent;
use crate::rows::pointer_aimed;
use crate::targets::{address_after, block_after, count_after, value_after};
use crate::views::View;
use acc_base::{Aim, Fault, Step, Task};

/// What attaching a pointer does after the tasks, of which each enters.
pub(crate) fn attach(view: &View<'_>, draft: &Draft, n: u64, pointer: u64) -> Result<Aim, Fault>
    requires planned { IsPlanned view.now.limits draft.now view.now.state.records }
    requires entering { list_all enters (tasks_in draft.now) ≡ true }
    requires checked { pointer_checked view.now.limits n (Some pointer) ≡ Ok tt }
    ensures { result ≡ judge_attach view.now.limits n pointer (state_after draft.now view.now.state) }
{
    let Some(block) = block_after(view, draft, pointer) else {
        return Ok(Aim::None);
    };
    let Some(target) = address_after(view, draft, view.host_pointer(pointer)) else {
        return Ok(Aim::None);
    };
    not_lent(view, Some(block))?;
    let count = count_after(view, draft, block, pointer);
    if count == 0 || value_after(view, draft, block, pointer) != target {
        return Ok(Aim::New {
            pointer,
            block,
            target,
        });
    }
    if view.counter_max() <= count {
        return Err(Fault::CounterFull { item: n });
    }
    Ok(Aim::Again { pointer, block })
}

// Detaching a pointer that lies in a block: its counter falls by one, or at once to zero.
fn detach_from(view: &View<'_>, draft: &Draft, immediate: bool, block: u64, pointer: u64) -> Aim
    requires planned { IsPlanned view.now.limits draft.now view.now.state.records }
    requires there { block_with pointer (records_after draft.now view.now.state.records).ranges ≡ Some block }
    ensures { result ≡ detach immediate block pointer (records_after draft.now view.now.state.records).attached }
{
    if count_after(view, draft, block, pointer) == 0 {
        return Aim::None;
    }
    if immediate {
        Aim::Cleared { pointer, block }
    } else {
        Aim::Less { pointer, block }
    }
}

/// What detaching a pointer does after the tasks, if an item names one.
#[tactic(auto, unfolding(acc_base::specs::Detaching::judge_detach))]
fn detach(view: &View<'_>, draft: &Draft, immediate: bool, pointer: Option<u64>) -> Aim
    requires planned { IsPlanned view.now.limits draft.now view.now.state.records }
    requires unmixed { AreUnmixed (tasks_in draft.now) }
    ensures { result ≡ detach_if immediate pointer (records_after draft.now view.now.state.records) }
{
    let Some(pointer) = pointer else {
        return Aim::None;
    };
    match block_after(view, draft, pointer) {
        Some(block) => detach_from(view, draft, immediate, block, pointer),
        None => Aim::None,
    }
}

/// What detaching the pointer does that an entry to a region attached, after the tasks. `held` is that pointer, and the
/// block that held it then.
#[tactic(auto, unfolding(acc_base::specs::Detaching::judge_release))]
fn release(view: &View<'_>, draft: &Draft, held: Option<(u64, u64)>) -> Aim
    requires planned { IsPlanned view.now.limits draft.now view.now.state.records }
    requires unmixed { AreUnmixed (tasks_in draft.now) }
    ensures { result ≡ judge_release held (records_after draft.now view.now.state.records) }
{
    let Some((pointer, block)) = held else {
        return Aim::None;
    };
    match block_after(view, draft, pointer) {
        Some(holder) if holder == block => detach_from(view, draft, false, block, pointer),
        Some(_) | None => Aim::None,
    }
}

/// What becomes of the pointer of a task before its step, after the tasks: what leaves detaches it.
#[inline(always)]
pub(crate) fn aim_before(view: &View<'_>, draft: &Draft, task: Task, step: Step) -> Aim
    requires planned { IsPlanned view.now.limits draft.now view.now.state.records }
    requires unmixed { AreUnmixed (tasks_in draft.now) }
    ensures { result ≡ aim_before task step (records_after draft.now view.now.state.records) }
{
    match task {
        Task::Enter { .. } => Aim::None,
        Task::ExitRegion { holding } => release(view, draft, holding.aim),
        Task::ExitData { finalize, .. } => detach(view, draft, finalize, pointer_aimed(task, step)),
        Task::Move { .. } => Aim::None,
    }
}
