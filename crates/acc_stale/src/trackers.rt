//! What is known of all bytes, with the account that tells where they lie: kept by each item of an event.

ghost use Rattle.std.specs.Prelude.{◌≡◌, ◌<◌, ℕ, [], ◌∷◌, length, replicate, Ok, OnOk, IfOk, IfErr};
ghost use Rattle.acc_base.specs.declared.faults.Fault.TheVariants.{Memory};
ghost use Rattle.acc_base.specs.declared.transfers.TheConstants.{QUEUE_COUNT};
ghost use Rattle.acc_base.specs.Queues.{queue_at, queue_named};
ghost use Rattle.acc_base.specs.Waits.{steps_from, steps_of};
ghost use Rattle.acc_base.specs.Limits.{Limits, IsWithinBounds};
ghost use Rattle.acc_base.specs.Records.{State};
ghost use Rattle.acc_base.specs.Devices.{new_whole};
ghost use Rattle.acc_base.specs.Accounts.{AreRecordsSound};
ghost use Rattle.acc_base.specs.Acting.{judge_task, act_state};
ghost use Rattle.acc_stale.specs.Known.{all_new};
ghost use Rattle.acc_stale.specs.Events.{known_acted};
ghost use Rattle.acc_stale.specs.Follows.{FollowsDevice, FollowsWhole};
ghost use Rattle.acc_stale.specs.Tells.{LeavesOthers, IsDrained};

use crate::accounts::Account;
use crate::items::Watch;
use crate::known::Known;
use acc_base::{Did, Fault, QUEUE_COUNT, Task};
use std::alloc::Global;

/// What is known of all bytes, and the account of the events so far.
pub struct Tracker {
    /// What is known.
    pub known: Known,
    /// The account.
    pub account: Account,
}

// By hand, so that a crate above does not prove the drops of its parts again.
impl Drop for Tracker {
    fn drop(self) {
        let Tracker {
            known: _,
            account: _,
        } = self;
    }
}

impl Tracker {
    /// All bytes are new, and there was no event: those of a host memory of `host` bytes, and those of `count` devices
    /// of `device` bytes.
    ///
    /// # Errors
    ///
    /// [`Fault::Memory`] alone.
    pub fn new(alloc: Global, host: u32, count: usize, device: u32) -> Result<Tracker, Fault>
        ensures known { IfOk result (λ tracker. tracker.known ≡ all_new host count device) }
        ensures follows { IfOk result (λ tracker. (devices bytes : ℕ) → FollowsWhole tracker.account (new_whole devices bytes)) }
        ensures only { IfErr result (λ fault. fault ≡ Memory) }
    {
        Ok(Tracker {
            known: Known::new(alloc, host, count, device)?,
            account: Account::new(alloc),
        })
    }

    /// An item of an event acted, in a line of this number.
    ///
    /// # Errors
    ///
    /// As [`Known::made`].
    pub fn acted<W: Watch>(
        &mut self,
        device: u64,
        task: Task,
        did: Did,
        line: u64,
        watch: &mut W,
    ) -> Result<(), Fault>
        ensures known { OnOk result ((l : Limits) (n : ℕ) (s : State) → IsWithinBounds l → AreRecordsSound l s.records → judge_task l n task s ≡ Ok did → FollowsDevice device self.old.account s.records → self.new.known ≡ known_acted device task did s self.old.known) }
        ensures follows { OnOk result ((l : Limits) (n : ℕ) (s : State) → IsWithinBounds l → AreRecordsSound l s.records → judge_task l n task s ≡ Ok did → FollowsDevice device self.old.account s.records → FollowsDevice device self.new.account (act_state task did s).records) }
        ensures others { OnOk result (LeavesOthers device self.old.account self.new.account) }
        ensures regions { self.new.account.regions ≡ self.old.account.regions }
        ensures only { IfErr result (λ fault. fault ≡ Memory) }
    {
        let ends = self.account.ended(device, did.step);
        watch.before_item(device, did.step, ends)?;
        let told = self.account.item(device, task, did, line)?;
        self.known.acted(&told.item, &told.attached, watch)?;
        match told.transfer {
            Some(t) => watch.after_item(device, t, task.queue()),
            None => Ok(()),
        }
    }

    // ---- queues (OpenACC 3.3, section 2.16)

    /// A queue of a device made its first transfer, if there was one.
    ///
    /// # Errors
    ///
    /// As [`Known::made`].
    pub fn made<W: Watch>(&mut self, device: u64, queue: u64, watch: &mut W) -> Result<(), Fault>
        ensures drained { OnOk result ((l : Limits) (s : State) → FollowsDevice device self.old.account s.records → AreRecordsSound l s.records → queue < QUEUE_COUNT → IsDrained device (queue ∷ []) s self.old self.new) }
        ensures others { OnOk result (LeavesOthers device self.old.account self.new.account) }
        ensures regions { self.new.account.regions ≡ self.old.account.regions }
        ensures only { IfErr result (λ fault. fault ≡ Memory) }
    {
        if let Some(next) = self.account.next(device, queue)? {
            watch.before_copy(&self.known, next.block, next.transfer)?;
            self.known.made(next.block, next.transfer, &next.attached)?;
        }
        Ok(())
    }

    /// A queue of a device made all its transfers.
    ///
    /// # Errors
    ///
    /// As [`Known::made`].
    pub fn made_all<W: Watch>(
        &mut self,
        device: u64,
        queue: u64,
        watch: &mut W,
    ) -> Result<(), Fault>
        ensures drained { OnOk result ((l : Limits) (s : State) → FollowsDevice device self.old.account s.records → AreRecordsSound l s.records → queue < QUEUE_COUNT → IsDrained device (replicate (length (queue_at queue s.records.queues)) queue) s self.old self.new) }
        ensures others { OnOk result (LeavesOthers device self.old.account self.new.account) }
        ensures regions { self.new.account.regions ≡ self.old.account.regions }
        ensures only { IfErr result (λ fault. fault ≡ Memory) }
    {
        for _ in 0..self.account.count_in(device, queue) {
            self.made(device, queue, watch)?;
        }
        Ok(())
    }

    /// A queue of a device made all its transfers, or each queue did.
    ///
    /// # Errors
    ///
    /// As [`Known::made`].
    pub fn waited<W: Watch>(
        &mut self,
        device: u64,
        queue: Option<u64>,
        watch: &mut W,
    ) -> Result<(), Fault>
        ensures drained { OnOk result ((l : Limits) (s : State) → FollowsDevice device self.old.account s.records → AreRecordsSound l s.records → queue_named queue ≡ Ok tt → IsDrained device (steps_of queue s.records.queues) s self.old self.new) }
        ensures others { OnOk result (LeavesOthers device self.old.account self.new.account) }
        ensures regions { self.new.account.regions ≡ self.old.account.regions }
        ensures only { IfErr result (λ fault. fault ≡ Memory) }
    {
        match queue {
            Some(queue) => self.made_all(device, queue, watch),
            None => self.made_each(device, watch),
        }
    }

    /// Each queue of a device made all its transfers, from the first queue to the last.
    fn made_each<W: Watch>(&mut self, device: u64, watch: &mut W) -> Result<(), Fault>
        ensures drained { OnOk result ((l : Limits) (s : State) → FollowsDevice device self.old.account s.records → AreRecordsSound l s.records → IsDrained device (steps_from 0 s.records.queues) s self.old self.new) }
        ensures others { OnOk result (LeavesOthers device self.old.account self.new.account) }
        ensures regions { self.new.account.regions ≡ self.old.account.regions }
        ensures only { IfErr result (λ fault. fault ≡ Memory) }
    {
        for queue in 0..QUEUE_COUNT {
            self.made_all(device, queue, watch)?;
        }
        Ok(())
    }
}
