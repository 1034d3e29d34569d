//! Queued transfers that are made one after the other (OpenACC 3.3, section 2.16 and the wait directive).

ghost use Rattle.std.specs.Prelude.{◌≡◌, length, replicate, Ok};
ghost use Rattle.acc_base.specs.Loans.{none_lent};
ghost use Rattle.acc_base.specs.Queues.{queue_at};
ghost use Rattle.acc_base.specs.Waits.{steps_of, transfers_of, drained};
ghost use Rattle.acc_clauses.specs.Contents.{Numbers};
ghost use Rattle.acc_clauses.specs.Devices.{state_beside};

use crate::devices::DeviceData;
use acc_base::QUEUE_COUNT;
use acc_dev::HostMem;

// Makes the transfers of one queue until it is empty. None is of a block that is lent.
fn drain_queue(device: &mut DeviceData, host: &mut HostMem, q: u64)
    requires host { length host.old ≡ device.old.limits.host }
    requires free { none_lent (queue_at q device.old.device.records.queues) device.old.device.records.loans ≡ Ok tt }
    ensures limits { device.new.limits ≡ device.old.limits }
    ensures host { length host.new ≡ length host.old }
    ensures state { (n : Numbers) → state_beside device.new.device host.new n ≡ drained (replicate (length (queue_at q device.old.device.records.queues)) q) (state_beside device.old.device host.old n) }
{
    let count = device.queue_len(q);
    for _ in 0..count {
        device.step(host, q);
    }
}

/// Makes the transfers of a queue, or those of all queues from the first to the last. None is of a block that is lent.
/// It allocates nothing.
pub(crate) fn drain(device: &mut DeviceData, host: &mut HostMem, queue: Option<u64>)
    requires host { length host.old ≡ device.old.limits.host }
    requires free { none_lent (transfers_of queue device.old.device.records.queues) device.old.device.records.loans ≡ Ok tt }
    ensures limits { device.new.limits ≡ device.old.limits }
    ensures host { length host.new ≡ length host.old }
    ensures state { (n : Numbers) → state_beside device.new.device host.new n ≡ drained (steps_of queue device.old.device.records.queues) (state_beside device.old.device host.old n) }
{
    match queue {
        Some(q) => drain_queue(device, host, q),
        None => {
            for q in 0..QUEUE_COUNT {
                drain_queue(device, host, q);
            }
            device.laws();
        }
    }
}
