//! What a task's row of the clause tables says of its bytes (OpenACC 3.3, section 2.7).

ghost use Rattle.std.specs.Prelude.{◌≡◌};
ghost use Rattle.acc_base.specs.Tasks.{pointer_of};
ghost use Rattle.acc_base.specs.Steps.{pointer_aimed};
ghost use Rattle.acc_base.specs.Clauses.{pointer_named};
ghost use Rattle.acc_clauses.specs.Overlays.{moves};

use acc_base::{Section, Step, Task};

// The pointer that an item names; with an empty section it names none.
fn pointer_named(alone: bool, section: Section, pointer: Option<u64>) -> Option<u64>
    ensures { result ≡ pointer_named alone section pointer }
{
    if alone {
        Some(section.start)
    } else if section.len == 0 {
        None
    } else {
        pointer
    }
}

/// The pointer that it names; the exit from a region takes it from what the entry attached.
pub fn pointer_of(task: Task) -> Option<u64>
    ensures { result ≡ pointer_of task }
{
    match task {
        Task::Enter { item, .. } => {
            pointer_named(item.clause.is_attach(), item.section, item.pointer)
        }
        Task::ExitData { item, .. } => {
            pointer_named(item.clause.is_detach(), item.section, item.pointer)
        }
        _ => None,
    }
}

/// The pointer that an item attaches or detaches beside its step.
pub fn pointer_aimed(task: Task, step: Step) -> Option<u64>
    ensures { result ≡ pointer_aimed task step }
{
    let alone = match task {
        Task::Enter { item, .. } => item.clause.is_attach(),
        Task::ExitData { item, .. } => item.clause.is_detach(),
        _ => false,
    };
    if alone || !matches!(step, Step::Nothing) {
        pointer_of(task)
    } else {
        None
    }
}

/// The step has a transfer.
pub fn moves(task: Task, step: Step) -> bool
    ensures { result ≡ moves task step }
{
    match step {
        Step::Born { .. } => task.gets_bytes(),
        Step::Dropped { ended: true, .. } => task.gives_bytes(),
        Step::Moved { .. } => true,
        _ => false,
    }
}
