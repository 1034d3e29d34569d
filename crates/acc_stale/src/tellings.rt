//! What an account tells of the step and the pointer of an item, and what it keeps of them (OpenACC 3.3, sections 2.7
//! and 2.7.2).

ghost use Rattle.std.specs.Prelude.{◌≡◌, ◌<◌, ℕ, List, Option, Ok, OnOk, IfOk};
ghost use Rattle.acc_base.specs.declared.transfers.TheConstants.{QUEUE_COUNT};
ghost use Rattle.acc_base.specs.Waits.{stepped};
ghost use Rattle.acc_base.specs.Limits.{Limits, IsWithinBounds};
ghost use Rattle.acc_base.specs.Records.{State};
ghost use Rattle.acc_base.specs.Accounts.{AreRecordsSound};
ghost use Rattle.acc_base.specs.Acting.{judge_task, act_state};
ghost use Rattle.acc_base.specs.Steps.{act_step, records_aimed};
ghost use Rattle.acc_base.specs.Tasks.{section_of};
ghost use Rattle.acc_base.specs.Transfers.{transfer_of};
ghost use Rattle.acc_stale.specs.Accounts.{HasSameBlocks, attached_at};
ghost use Rattle.acc_stale.specs.Follows.{FollowsDevice, IsStepFit, IsAimFit};
ghost use Rattle.acc_stale.specs.Told.{before_step, IsStepTold, IsAimTold, IsItemTold};
ghost use Rattle.acc_stale.specs.Tells.{held_at, held_by, held_new, placed_by, IsStepKept, attached_by, waiting_after, pointer_held, count_left, placed_at, ended_at, IsMadeTold, LeavesOthers};

use crate::accounts::{Account, Held, Waiting};
use crate::items::{Holder, ItemDone, enters};
use crate::known::Placed;
use crate::tasks::transfer_in;
use acc_base::{Aim, Attachment, Did, Range, Step, Task, Transfer};
use std::alloc::AllocError;

/// What is told of the step of an item.
#[derive(Drop)]
pub(crate) struct StepTold {
    /// Its block as it leaves it, if it has one.
    pub held: Option<Held>,
    /// Where its block lies, if it touches the bytes of one.
    pub block: Option<Placed>,
    /// The attached pointers of that block.
    pub attached: Vec<Attachment>,
    /// What it copies, at once or when its queue does.
    pub transfer: Option<Transfer>,
}

/// What is told of an item.
#[derive(Drop)]
pub struct ItemTold {
    /// What it did, and where the blocks lie whose bytes it touched.
    pub item: ItemDone,
    /// The block of its step as the item leaves it, if it has one.
    pub held: Option<Held>,
    /// The attached pointers of the block of its step, right before the step.
    pub attached: Vec<Attachment>,
    /// What it copies, at once or when its queue does.
    pub transfer: Option<Transfer>,
}

/// What is told of a queued transfer.
#[derive(Drop)]
pub struct NextTold {
    /// Where its block lies.
    pub block: Placed,
    /// The attached pointers of that block.
    pub attached: Vec<Attachment>,
    /// What it copies.
    pub transfer: Transfer,
}

impl Account {
    /// Tells of an item, and keeps what it did. An item that enters attaches its pointer after its step, and others
    /// detach it before.
    ///
    /// # Errors
    ///
    /// `AllocError` alone. The account is not to be asked any more then.
    pub fn item(
        &mut self,
        device: u64,
        task: Task,
        did: Did,
        line: u64,
    ) -> Result<ItemTold, AllocError>
        ensures item { IfOk result (λ told. (told.item.device ≡ device) × (told.item.task ≡ task) × (told.item.did ≡ did)) }
        ensures told { IfOk result (λ told. (l : Limits) (n : ℕ) (s : State) → IsWithinBounds l → AreRecordsSound l s.records → judge_task l n task s ≡ Ok did → FollowsDevice device self.old s.records → IsItemTold told.item told.attached.items s) }
        ensures held { IfOk result (λ told. told.held ≡ held_by device did.step self.new) }
        ensures transfer { IfOk result (λ told. (l : Limits) (n : ℕ) (s : State) → IsWithinBounds l → AreRecordsSound l s.records → judge_task l n task s ≡ Ok did → FollowsDevice device self.old s.records → told.transfer ≡ transfer_of task did.step (before_step task did s).records.ranges) }
        ensures follows { OnOk result ((l : Limits) (n : ℕ) (s : State) → IsWithinBounds l → AreRecordsSound l s.records → judge_task l n task s ≡ Ok did → FollowsDevice device self.old s.records → FollowsDevice device self.new (act_state task did s).records) }
        ensures others { OnOk result (LeavesOthers device self.old self.new) }
        ensures regions { self.new.regions ≡ self.old.regions }
    {
        if enters(task) {
            let step = self.step(device, task, did.step, line)?;
            let holder = self.aim(device, did.aim)?;
            return Ok(told_by(device, task, did, step, holder));
        }
        let holder = self.aim(device, did.aim)?;
        let step = self.step(device, task, did.step, line)?;
        Ok(told_by(device, task, did, step, holder))
    }

    // ---- the step of an item

    /// Tells of the step of an item, and keeps what it does: a new block, with the line that made it, and a transfer
    /// that is put into a queue.
    pub(crate) fn step(
        &mut self,
        device: u64,
        task: Task,
        step: Step,
        line: u64,
    ) -> Result<StepTold, AllocError>
        ensures told { IfOk result (λ told. (l : Limits) (s : State) → FollowsDevice device self.old s.records → AreRecordsSound l s.records → IsStepFit step s.records → IsStepTold device told.block task step told.attached.items s) }
        ensures held { IfOk result (λ told. told.held ≡ held_by device step self.new) }
        ensures transfer { IfOk result (λ told. (l : Limits) (s : State) → FollowsDevice device self.old s.records → AreRecordsSound l s.records → IsStepFit step s.records → told.transfer ≡ transfer_of task step s.records.ranges) }
        ensures follows { OnOk result ((l : Limits) (s : State) → FollowsDevice device self.old s.records → AreRecordsSound l s.records → IsStepFit step s.records → FollowsDevice device self.new (act_step task step s.records)) }
        ensures others { OnOk result (LeavesOthers device self.old self.new) }
        ensures regions { self.new.regions ≡ self.old.regions }
    {
        let (block, attached, held) = self.place(device, task, step, line)?;
        let transfer = transfer_in(block, task, step);
        self.keep(device, task.queue(), transfer)?;
        Ok(StepTold {
            held,
            block,
            attached,
            transfer,
        })
    }

    /// The block whose mapping a step ends, if it ends one.
    pub(crate) fn ended(&self, device: u64, step: Step) -> Option<Held>
        ensures { result ≡ ended_at device step self.now }
    {
        match step {
            Step::Dropped { block, ended: true } => self.block(device, block),
            _ => None,
        }
    }

    /// Where the block lies whose bytes a step touches, its attached pointers, and the block of the step as it leaves it.
    /// What the step makes or counts is kept.
    fn place(
        &mut self,
        device: u64,
        task: Task,
        step: Step,
        line: u64,
    ) -> Result<(Option<Placed>, Vec<Attachment>, Option<Held>), AllocError>
        ensures told { IfOk result (λ told. told.0 ≡ placed_by device (section_of task) step self.old) }
        ensures held { IfOk result (λ told. told.2 ≡ held_by device step self.new) }
        ensures attached { IfOk result (λ told. told.1.items ≡ attached_by device step self.old) }
        ensures kept { OnOk result (IsStepKept device task line step self.old self.new) }
        ensures regions { self.new.regions ≡ self.old.regions }
    {
        match step {
            Step::Born { block, place } => {
                let held = held_new(device, task, line, block, place);
                self.born(held)?;
                Ok((Some(held.placed), Vec::new(self.alloc()), Some(held)))
            }
            Step::Counted { block } => {
                let held = self.recount(device, block, task);
                Ok((None, Vec::new(self.alloc()), held))
            }
            Step::Dropped {
                block,
                ended: false,
            } => {
                let held = self.recount(device, block, task);
                Ok((None, Vec::new(self.alloc()), held))
            }
            Step::Dropped { block, ended: true } => self.there(device, block),
            Step::Moved { block } => self.there(device, block),
            Step::Nothing => Ok((None, Vec::new(self.alloc()), None)),
        }
    }

    /// Where a block of a device lies, its attached pointers, and the block.
    fn there(
        &self,
        device: u64,
        block: u64,
    ) -> Result<(Option<Placed>, Vec<Attachment>, Option<Held>), AllocError>
        ensures placed { IfOk result (λ told. told.0 ≡ placed_at device block self.now) }
        ensures attached { IfOk result (λ told. told.1.items ≡ attached_at device block self.now) }
        ensures held { IfOk result (λ told. told.2 ≡ held_at device block self.now) }
    {
        match self.told(device, block)? {
            Some(told) => Ok((Some(told.held.placed), told.attached, Some(told.held))),
            None => Ok((None, Vec::new(self.alloc()), None)),
        }
    }

    /// Where a block of a device lies.
    fn placed(&self, device: u64, block: u64) -> Option<Placed>
        ensures { result ≡ placed_at device block self.now }
    {
        match self.block(device, block) {
            Some(held) => Some(held.placed),
            None => None,
        }
    }

    /// Puts a transfer into a queue, if there are both.
    fn keep(
        &mut self,
        device: u64,
        queue: Option<u64>,
        transfer: Option<Transfer>,
    ) -> Result<(), AllocError>
        ensures ok { OnOk result (self.new.waiting.items ≡ waiting_after device queue transfer self.old.waiting.items) }
        ensures blocks { HasSameBlocks self.old self.new }
        ensures regions { self.new.regions ≡ self.old.regions }
    {
        match (queue, transfer) {
            (Some(queue), Some(transfer)) => self.put(Waiting {
                device,
                queue,
                transfer,
            }),
            _ => Ok(()),
        }
    }

    // ---- its pointer

    /// Tells of the block that holds the pointer of an item, and keeps how often that is attached then.
    pub(crate) fn aim(&mut self, device: u64, aim: Aim) -> Result<Option<Holder>, AllocError>
        ensures told { IfOk result (λ holder. (l : Limits) (s : State) → FollowsDevice device self.old s.records → AreRecordsSound l s.records → IsAimFit aim s.records → IsAimTold device holder aim s) }
        ensures follows { OnOk result ((l : Limits) (s : State) → FollowsDevice device self.old s.records → AreRecordsSound l s.records → IsAimFit aim s.records → FollowsDevice device self.new (records_aimed aim s.records)) }
        ensures held { OnOk result ((d block : ℕ) → held_at d block self.new ≡ held_at d block self.old) }
        ensures others { OnOk result (LeavesOthers device self.old self.new) }
        ensures regions { self.new.regions ≡ self.old.regions }
    {
        let Some((pointer, block)) = pointer_held(aim) else {
            return Ok(None);
        };
        let Some(placed) = self.placed(device, block) else {
            return Ok(None);
        };
        let count = self.count(device, block, pointer);
        self.attach(device, block, pointer, count_left(aim, count))?;
        Ok(Some(Holder { placed, count }))
    }
}

impl Account {
    // ---- a queue

    /// Takes the first transfer out of a queue, and tells of it (OpenACC 3.3, section 2.16).
    ///
    /// # Errors
    ///
    /// `AllocError` alone. The account is not to be asked any more then.
    pub fn next(&mut self, device: u64, queue: u64) -> Result<Option<NextTold>, AllocError>
        ensures told { IfOk result (λ next. (l : Limits) (s : State) → FollowsDevice device self.old s.records → AreRecordsSound l s.records → queue < QUEUE_COUNT → IsMadeTold device queue next s) }
        ensures follows { OnOk result ((l : Limits) (s : State) → FollowsDevice device self.old s.records → AreRecordsSound l s.records → queue < QUEUE_COUNT → FollowsDevice device self.new (stepped queue s).records) }
        ensures others { OnOk result (LeavesOthers device self.old self.new) }
        ensures regions { self.new.regions ≡ self.old.regions }
    {
        let Some(transfer) = self.take(device, queue) else {
            return Ok(None);
        };
        let Some(told) = self.told(device, transfer.block)? else {
            return Ok(None);
        };
        Ok(Some(NextTold {
            block: told.held.placed,
            attached: told.attached,
            transfer,
        }))
    }
}

/// An item, by what is told of its step and its pointer.
fn told_by(device: u64, task: Task, did: Did, step: StepTold, holder: Option<Holder>) -> ItemTold
    ensures item { result.item ≡ record { device = device; task = task; did = did; block = step.block; holder = holder } }
    ensures attached { result.attached.items ≡ step.attached.items }
    ensures held { result.held ≡ step.held }
    ensures transfer { result.transfer ≡ step.transfer }
{
    ItemTold {
        item: ItemDone {
            device,
            task,
            did,
            block: step.block,
            holder,
        },
        held: step.held,
        attached: step.attached,
        transfer: step.transfer,
    }
}

/// A block that a task made, with the range that it maps.
fn held_new(device: u64, task: Task, line: u64, block: u64, place: u64) -> Held
    ensures { result ≡ held_new device task line block place }
{
    let section = task.section();
    let placed = Placed {
        device,
        block,
        start: section.start,
        place,
    };
    let range = task.recounted(Range {
        section,
        block,
        structured: 0,
        dynamic: 0,
    });
    Held {
        placed,
        range,
        line,
    }
}

/// A pointer and the block that holds it, if an attachment or a detachment names them.
fn pointer_held(aim: Aim) -> Option<(u64, u64)>
    ensures { result ≡ pointer_held aim }
{
    match aim {
        Aim::None => None,
        Aim::New { pointer, block, .. } => Some((pointer, block)),
        Aim::Again { pointer, block } => Some((pointer, block)),
        Aim::Less { pointer, block } => Some((pointer, block)),
        Aim::Cleared { pointer, block } => Some((pointer, block)),
    }
}

/// How often a pointer is attached then, that was so often before.
fn count_left(aim: Aim, count: u64) -> u64
    ensures { result ≡ count_left aim count }
{
    match aim {
        Aim::New { .. } => 1,
        Aim::Again { .. } => count.saturating_add(1),
        Aim::Less { .. } => count.saturating_sub(1),
        _ => 0,
    }
}
