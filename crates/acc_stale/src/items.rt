//! What an item does to what is known: its step and its pointer, in their order (OpenACC 3.3, sections 2.7 and 2.7.2).

ghost use Rattle.std.specs.Prelude.{◌≡◌, ℕ, List, Some, OnOk, IfErr, IfSome, option_map};
ghost use Rattle.acc_base.specs.declared.faults.Fault.TheVariants.{Memory};
ghost use Rattle.acc_base.specs.declared.mappings.Range.{Range};
ghost use Rattle.acc_base.specs.Tasks.{queue_of};
ghost use Rattle.acc_base.specs.Transfers.{transfer_of, at_once};
ghost use Rattle.acc_base.specs.Records.{State};
ghost use Rattle.acc_stale.specs.Events.{known_stepped, known_aimed, known_acted};
ghost use Rattle.acc_stale.specs.Told.{enters, StartsIn, IsStepTold, IsAimTold, IsHolder, IsItemTold};

use crate::accounts::Held;
use crate::known::{Known, Placed};
use crate::tasks::{at_once, transfer_in};
use acc_base::{Aim, Attachment, Did, Fault, Step, Task, Transfer};

/// An item that acted, and where the blocks lie whose bytes it touched.
#[derive(Clone, Copy, Debug)]
pub struct ItemDone {
    /// The number of the device.
    pub device: u64,
    /// What it asked.
    pub task: Task,
    /// What it did.
    pub did: Did,
    /// The block of its step, if that has one.
    pub block: Option<Placed>,
    /// The block that holds its pointer, if there is one.
    pub holder: Option<Holder>,
}

impl ItemDone {
    /// What its step copies at once, and where the block of that lies.
    pub fn copied(&self) -> Option<(Placed, Transfer)>
        ensures block { IfSome result (λ copy. self.now.block ≡ Some copy.0) }
        ensures transfer { (ranges : List Range) → StartsIn self.now.block self.now.did.step ranges → option_map (λ copy. copy.1) result ≡ at_once (queue_of self.now.task) (transfer_of self.now.task self.now.did.step ranges) }
    {
        let t = at_once(
            self.task.queue(),
            transfer_in(self.block, self.task, self.did.step),
        );
        match (self.block, t) {
            (Some(block), Some(t)) => Some((block, t)),
            _ => None,
        }
    }
}

/// A block that holds a pointer.
#[derive(Clone, Copy, Debug)]
pub struct Holder {
    /// Where it lies.
    pub placed: Placed,
    /// How often the pointer was attached before.
    pub count: u64,
}

/// Who looks at what is known while events are told, and notes what they do.
pub trait Watch {
    /// An item of a device is told next. `ends` is the block whose mapping its step ends, if it ends one.
    ///
    /// # Errors
    ///
    /// [`Fault::Memory`] alone, as with those that follow.
    fn before_item(&mut self, device: u64, step: Step, ends: Option<Held>) -> Result<(), Fault>
        ensures only { IfErr result (λ fault. fault ≡ Memory) };

    /// The step of the item is done next, so this is known right before it.
    fn before_step(&mut self, known: &Known, item: &ItemDone) -> Result<(), Fault>
        ensures only { IfErr result (λ fault. fault ≡ Memory) };

    /// The item was told. It copied this, or put it into a queue.
    fn after_item(&mut self, device: u64, t: Transfer, queue: Option<u64>) -> Result<(), Fault>
        ensures only { IfErr result (λ fault. fault ≡ Memory) };

    /// A queued transfer is made next, to or from a block that lies there.
    fn before_copy(&mut self, known: &Known, block: Placed, t: Transfer) -> Result<(), Fault>
        ensures only { IfErr result (λ fault. fault ≡ Memory) };
}

impl Known {
    /// An item acted. `attached` are the counters of the attached pointers in the block of its step: those before the
    /// item where it enters, and else those that its detachment left.
    ///
    /// # Errors
    ///
    /// As [`Known::made`].
    #[tactic(auto, using(crate::proofs::Steps::acted_enter, crate::proofs::Steps::acted_other))]
    pub fn acted<W: Watch>(
        &mut self,
        acted: &ItemDone,
        attached: &[Attachment],
        watch: &mut W,
    ) -> Result<(), Fault>
        ensures ok { OnOk result ((s : State) → IsItemTold acted.now attached.now s → self.new ≡ known_acted acted.now.device acted.now.task acted.now.did s self.old) }
        ensures only { IfErr result (λ fault. fault ≡ Memory) }
    {
        if enters(acted.task) {
            self.step(acted, attached, watch)?;
            self.aim(acted.did.aim, acted.holder);
            return Ok(());
        }
        self.aim(acted.did.aim, acted.holder);
        self.step(acted, attached, watch)
    }

    /// The step of an item was done, behind a look.
    #[tactic(auto, using(crate::proofs::Steps::none_touched))]
    fn step<W: Watch>(
        &mut self,
        acted: &ItemDone,
        attached: &[Attachment],
        watch: &mut W,
    ) -> Result<(), Fault>
        ensures ok { OnOk result ((s : State) → IsStepTold acted.now.device acted.now.block acted.now.task acted.now.did.step attached.now s → self.new ≡ known_stepped acted.now.device acted.now.task acted.now.did.step s self.old) }
        ensures only { IfErr result (λ fault. fault ≡ Memory) }
    {
        watch.before_step(self, acted)?;
        match acted.block {
            Some(block) => self.stepped(block, acted.task, acted.did.step, attached),
            None => Ok(()),
        }
    }

    /// What became of the pointer of an item.
    #[tactic(auto, using(crate::proofs::Aims::pointer_kept))]
    fn aim(&mut self, aim: Aim, holder: Option<Holder>)
        ensures { (d : ℕ) (s : State) → IsAimTold d holder aim s → self.new ≡ known_aimed d aim s self.old }
    {
        if let Some(holder) = holder {
            self.aimed(holder, aim);
        }
    }

    /// The pointer was attached, or detached for the last time, or neither.
    #[tactic(auto, using(crate::proofs::Aims::none_told, crate::proofs::Aims::again_told))]
    fn aimed(&mut self, holder: Holder, aim: Aim)
        ensures { (s : State) → IsHolder holder aim s → self.new ≡ known_aimed holder.placed.device aim s self.old }
    {
        match aim {
            Aim::New { pointer, .. } => self.pointer_aimed(holder.placed, pointer),
            Aim::Less { pointer, .. } => {
                if holder.count == 1 {
                    self.pointer_left(holder.placed, pointer);
                }
            }
            Aim::Cleared { pointer, .. } => self.pointer_left(holder.placed, pointer),
            Aim::None => {}
            Aim::Again { .. } => {}
        }
    }
}

/// An item that enters attaches its pointer after its step, and others detach it before.
pub(crate) fn enters(task: Task) -> bool
    ensures { result ≡ enters task }
{
    match task {
        Task::Enter { .. } => true,
        _ => false,
    }
}
