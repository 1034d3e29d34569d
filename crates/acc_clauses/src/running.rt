//! The steps of a whole directive, one after the other.

ghost use Rattle.std.specs.Prelude.{◌≡◌, ◌+◌, ◌≤◌, ◌^◌, length};
ghost use Rattle.acc_base.specs.Acting.{act_all_state};
ghost use Rattle.acc_base.specs.History.{AreJudged};
ghost use Rattle.acc_clauses.specs.Contents.{Numbers};
ghost use Rattle.acc_clauses.specs.Devices.{state_beside};
ghost use Rattle.acc_clauses.specs.Overlays.{tasks_in, dids_in, puts_in};
ghost use Rattle.acc_clauses.specs.Acts.{AreKnown, HasRoomFor, HasPutRoom, lens_born, pointers_in};

use crate::acted::Acted;
use crate::devices::DeviceData;
use acc_dev::HostMem;
use acc_present::Place;

/// Does the steps of these tasks, one after the other. Each was judged in what those before it leave, and there is room
/// for all. The range of each is not searched for where it stands at its place. It allocates nothing and is never
/// refused.
pub(crate) fn act_all(
    device: &mut DeviceData,
    host: &mut HostMem,
    acts: &[Acted],
    places: &[Place; 64],
)
    requires host { length host.old ≡ device.old.limits.host }
    requires judged { AreJudged device.old.limits 0 (tasks_in acts.now) (dids_in acts.now) device.old.device.records }
    requires known { AreKnown (tasks_in acts.now) (dids_in acts.now) device.old.device.records }
    requires few { length acts.now ≤ 64 }
    requires births { device.old.device.records.births + 64 ≤ 2 ^ 48 }
    requires room { HasRoomFor (lens_born (tasks_in acts.now) (dids_in acts.now)) device.old.room }
    requires pointers { pointers_in (dids_in acts.now) ≤ device.old.room.attachments }
    requires puts { HasPutRoom (λ q. puts_in q (tasks_in acts.now) (dids_in acts.now)) device.old.room }
    ensures limits { device.new.limits ≡ device.old.limits }
    ensures host { length host.new ≡ length host.old }
    ensures state { (n : Numbers) → state_beside device.new.device host.new n ≡ act_all_state (tasks_in acts.now) (dids_in acts.now) (state_beside device.old.device host.old n) }
    ensures room_regions { device.old.room.regions ≤ device.new.room.regions }
    ensures room_holdings { device.old.room.holdings ≤ device.new.room.holdings }
{
    for n in 0..acts.len() {
        device.act(host, &acts[n], places[n]);
    }
}
