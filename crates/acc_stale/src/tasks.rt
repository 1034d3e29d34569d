//! What one item of a directive does to bytes (OpenACC 3.3, section 2.7).

ghost use Rattle.std.specs.Prelude.{◌≡◌, List, OnOk, IfErr};
ghost use Rattle.acc_base.specs.declared.faults.Fault.TheVariants.{Memory};
ghost use Rattle.acc_base.specs.declared.mappings.Range.{Range};
ghost use Rattle.acc_base.specs.Transfers.{transfer_of, at_once};
ghost use Rattle.acc_base.specs.Records.{State};
ghost use Rattle.acc_stale.specs.Events.{zeroes, known_stepped};
ghost use Rattle.acc_stale.specs.Told.{StartsAt, StartsIn, IsStepBlockTold, begun_told, made_told};

use crate::known::{Known, Placed};
use acc_base::{Attachment, Fault, Step, Task, Transfer};

/// The modifier `zero` fills the block that is born by this task.
fn zeroes(task: Task) -> bool
    ensures { result ≡ zeroes task }
{
    match task {
        Task::Enter { item, .. } => item.clause.is_zeroed(),
        _ => false,
    }
}

/// The transfer of a task whose step was this, made at once or put into a queue. `start` is the host address that is
/// mapped to the first byte of the block.
pub(crate) fn transfer_of(task: Task, step: Step, start: u64) -> Option<Transfer>
    ensures { (ranges : List Range) → StartsAt step start ranges → result ≡ transfer_of task step ranges }
{
    let section = task.section();
    let (block, offset) = match step {
        Step::Born { block, .. } if task.gets_bytes() => (block, 0),
        Step::Dropped { block, ended: true } if task.gives_bytes() => {
            (block, section.start.saturating_sub(start))
        }
        Step::Moved { block } => (block, section.start.saturating_sub(start)),
        _ => return None,
    };
    Some(Transfer {
        block,
        offset,
        section,
        out: task.goes_out(),
    })
}

/// The transfer of a step, whose block lies there.
pub(crate) fn transfer_in(block: Option<Placed>, task: Task, step: Step) -> Option<Transfer>
    ensures { (ranges : List Range) → StartsIn block step ranges → result ≡ transfer_of task step ranges }
{
    match block {
        Some(placed) => transfer_of(task, step, placed.start),
        None => None,
    }
}

impl Known {
    /// A task was done, whose step was this: the block that it made is filled, and its transfer is made, if it is not
    /// put into a queue. `block` is where the block of the step lies, and `attached` are the counters of the block's
    /// attached pointers.
    ///
    /// # Errors
    ///
    /// As [`Known::made`].
    #[tactic(auto, using(crate::proofs::Steps::stepped_told))]
    pub(crate) fn stepped(
        &mut self,
        block: Placed,
        task: Task,
        step: Step,
        attached: &[Attachment],
    ) -> Result<(), Fault>
        ensures ok { OnOk result ((s : State) → IsStepBlockTold block task step attached.now s → self.new ≡ known_stepped block.device task step s self.old) }
        ensures only { IfErr result (λ fault. fault ≡ Memory) }
    {
        let t = at_once(task.queue(), transfer_of(task, step, block.start));
        self.begin(block, task, step);
        self.make(block, t, attached)
    }

    /// The block is made that the step made, if it made one.
    fn begin(&mut self, block: Placed, task: Task, step: Step)
        ensures { self.new ≡ begun_told block task step self.old }
    {
        if let Step::Born { .. } = step {
            self.born(block, task.section(), zeroes(task));
        }
    }

    /// A transfer is made, if there is one.
    fn make(
        &mut self,
        block: Placed,
        t: Option<Transfer>,
        attached: &[Attachment],
    ) -> Result<(), Fault>
        ensures ok { OnOk result (self.new ≡ made_told block t attached.now self.old) }
        ensures only { IfErr result (λ fault. fault ≡ Memory) }
    {
        match t {
            Some(t) => self.made(block, t, attached),
            None => Ok(()),
        }
    }
}

/// With a queue a transfer is made later.
pub(crate) fn at_once(queue: Option<u64>, t: Option<Transfer>) -> Option<Transfer>
    ensures { result ≡ at_once queue t }
{
    match queue {
        Some(_) => None,
        None => t,
    }
}
