//! What an event does to what is known, and to the account.

ghost use Rattle.std.specs.Prelude.{◌≡◌, OnOk, IfErr};
ghost use Rattle.acc_base.specs.declared.faults.Fault.TheVariants.{Memory};
ghost use Rattle.acc_base.specs.Limits.{Limits};
ghost use Rattle.acc_base.specs.Records.{State};
ghost use Rattle.acc_base.specs.Walk.{asked_in, done_in};
ghost use Rattle.acc_base.specs.Devices.{Whole, device_in};
ghost use Rattle.acc_stale.specs.Follows.{FollowsState, FollowsWhole, IsEventIn, IsEventOf};
ghost use Rattle.acc_stale.specs.Tells.{LeavesOthers, AreActed, IsEventTold};

use crate::items::Watch;
use crate::trackers::Tracker;
use acc_base::{Event, Fault};

impl Tracker {
    /// An event was made, in a line of this number. Of a write of the host, and of a lease that is back, what follows
    /// from their bytes is told next: [`Known::wrote`] and [`Known::gathered`].
    ///
    /// # Errors
    ///
    /// As [`Known::made`].
    ///
    /// [`Known::wrote`]: crate::Known::wrote
    /// [`Known::gathered`]: crate::Known::gathered
    /// [`Known::made`]: crate::Known::made
    pub fn seen<W: Watch>(&mut self, event: &Event, line: u64, watch: &mut W) -> Result<(), Fault>
        ensures told { OnOk result ((l : Limits) (w : Whole) → IsEventOf l event.now w → FollowsWhole self.old.account w → IsEventTold event.now w self.old self.new) }
        ensures only { IfErr result (λ fault. fault ≡ Memory) }
    {
        self.items(event, line, watch)?;
        match event {
            Event::Entered { device, number, .. } => {
                self.account.open(*device, *number, event)?;
                Ok(())
            }
            Event::Left { device, number, .. } => {
                self.account.close(*device, *number);
                Ok(())
            }
            Event::Waited { device, queue, .. } => self.waited(*device, *queue, watch),
            Event::Stepped { device, queue, .. } => self.made(*device, *queue, watch),
            _ => Ok(()),
        }
    }

    /// The items of an event acted, in their order.
    fn items<W: Watch>(&mut self, event: &Event, line: u64, watch: &mut W) -> Result<(), Fault>
        ensures acted { OnOk result ((l : Limits) (s : State) → IsEventIn l event.now s → FollowsState (device_in event.now) self.old.account s → AreActed (device_in event.now) (asked_in event.now s.register) (done_in event.now) s self.old self.new) }
        ensures others { OnOk result (LeavesOthers (device_in event.now) self.old.account self.new.account) }
        ensures regions { self.new.account.regions ≡ self.old.account.regions }
        ensures only { IfErr result (λ fault. fault ≡ Memory) }
    {
        let device = event.device();
        for nth in 0..event.did().len() {
            if let Some((task, did)) = self.account.act(event, nth) {
                self.acted(device, task, did, line, watch)?;
            }
        }
        Ok(())
    }
}
