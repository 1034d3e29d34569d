//! One task after those that were judged before it: its step, and what becomes of its pointer.

ghost use Rattle.std.specs.Prelude.{[], ◌∷◌, ◌++◌, ◌≡◌, ◌<◌, ◌^◌, true, length, MatchResult, Ok, Err};
ghost use Rattle.acc_base.specs.Steps.{judge_step};
ghost use Rattle.acc_base.specs.Acting.{judge_task};
ghost use Rattle.acc_base.specs.Queues.{queue_named};
ghost use Rattle.acc_base.specs.Tasks.{queue_of};
ghost use Rattle.acc_clauses.specs.Overlays.{IsPlanned, AreUnmixed, enters, tasks_in, records_after, state_after};
ghost use Rattle.acc_clauses.specs.Planned.{IsJudgedNext};

use crate::acted::Acted;
use crate::aims::{aim_before, attach};
use crate::drafts::Draft;
use crate::judging::{judge_row, step_free};
use crate::rows::pointer_aimed;
use crate::views::View;
use acc_base::{Aim, Did, Fault, Step, Task};
use acc_present::Place;

// Adds an entry whose step is judged. Its pointer is attached in what the step leaves.
#[inline(always)]
fn enter(
    view: &View<'_>,
    draft: &mut Draft,
    n: u64,
    task: Task,
    step: Step,
    place: Place,
) -> Result<(), Fault>
    requires entry { enters task ≡ true }
    requires step { judge_step view.now.limits n task (records_after draft.old view.now.state.records) ≡ Ok step }
    requires planned { IsPlanned view.now.limits draft.old view.now.state.records }
    requires unmixed { AreUnmixed (tasks_in draft.old ++ task ∷ []) }
    requires place { n ≡ length draft.old }
    requires few { n < 64 }
    ensures { MatchResult result (λ _. IsJudgedNext view.now.limits n task view.now.state draft.old draft.new) (λ fault. judge_task view.now.limits n task (state_after draft.old view.now.state) ≡ Err fault) }
{
    let did = Did {
        step,
        aim: Aim::None,
    };
    draft.push(Acted { task, did }, place);
    if let Some(pointer) = pointer_aimed(task, step) {
        let aim = attach(view, draft, n, pointer)?;
        draft.aim(aim);
    }
    Ok(())
}

/// Judges the task of the item at place `n` after those before it, and adds it to them.
#[inline(always)]
pub(crate) fn judge(view: &View<'_>, draft: &mut Draft, n: u64, task: Task) -> Result<(), Fault>
    requires planned { IsPlanned view.now.limits draft.old view.now.state.records }
    requires unmixed { AreUnmixed (tasks_in draft.old ++ task ∷ []) }
    requires births { view.now.state.records.births < 2 ^ 48 }
    requires queue { queue_named (queue_of task) ≡ Ok tt }
    requires place { n ≡ length draft.old }
    requires few { n < 64 }
    ensures { MatchResult result (λ _. IsJudgedNext view.now.limits n task view.now.state draft.old draft.new) (λ fault. judge_task view.now.limits n task (state_after draft.old view.now.state) ≡ Err fault) }
{
    let (step, place) = judge_row(view, draft, n, task)?;
    let aim = aim_before(view, draft, task, step);
    step_free(view, draft, task, step, aim)?;
    if let Task::Enter { .. } = task {
        return enter(view, draft, n, task, step, place);
    }
    let did = Did { step, aim };
    draft.push(Acted { task, did }, place);
    Ok(())
}
