//! What a directive does beside its tasks.

ghost use Rattle.std.specs.Prelude.{ℕ, ◌≡◌, ◌≤◌, length};
ghost use Rattle.acc_clauses.specs.Planned.{finished, holdings_by};
ghost use Rattle.acc_clauses.specs.Devices.{state_beside, contents_beside};
ghost use Rattle.acc_clauses.specs.Acts.{CanFinish};

use crate::devices::DeviceData;
use crate::draining::drain;
use crate::plans::Plan;
use acc_base::Directive;
use acc_dev::HostMem;

/// Does what a directive says of the register and the queues, where there is room for it. It allocates nothing and is
/// never refused. A region that it enters takes the number of the next one.
pub(crate) fn finish(
    device: &mut DeviceData,
    host: &mut HostMem,
    next_region: &mut u64,
    directive: &Directive,
    plan: &Plan,
)
    requires host { length host.old ≡ device.old.limits.host }
    requires can { (serial : ℕ) × CanFinish directive.now (length (holdings_by plan.now.tasks plan.now.dids)) (contents_beside device.old host.old (record { region = next_region.old; serial = serial })) }
    ensures limits { device.new.limits ≡ device.old.limits }
    ensures host { length host.new ≡ length host.old }
    ensures rises { next_region.old ≤ next_region.new }
    ensures state { (serial : ℕ) → state_beside device.new.device host.new (record { region = next_region.new; serial = serial }) ≡ finished directive.now plan.now (state_beside device.old.device host.old (record { region = next_region.old; serial = serial })) }
{
    match directive {
        Directive::Enter { .. } => {
            device.enter(*next_region, plan.acts());
            *next_region += 1;
        }
        Directive::Exit { number } => device.leave(*number),
        Directive::Wait { queue, .. } => drain(device, host, *queue),
        Directive::Step { queue, .. } => device.step(host, *queue),
        _ => {}
    }
}
