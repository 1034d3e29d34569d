//! Transfers between host memory and a block, made at once or put into a queue (OpenACC 3.3, sections 2.7 and 2.16).

ghost use Rattle.std.specs.Prelude.{ℕ, List, [], ◌≡◌, ◌-◌, Some};
ghost use Rattle.acc_base.specs.Ranges.{start_of};
ghost use Rattle.acc_base.specs.Bytes.{host_made, memories_made};
ghost use Rattle.acc_base.specs.Transfers.{transfer_at};
ghost use Rattle.acc_base.specs.Waits.{stepped};
ghost use Rattle.acc_present.specs.Present.{HasRange};
ghost use Rattle.acc_clauses.specs.Contents.{AreMarked, beside, bare_state};
ghost use Rattle.acc_clauses.specs.Acts.{CanTransfer, CanPut, CanMoveBytes, CanStep, IsMovedBy, IsSteppedBy};

use crate::copies::{copy_in, copy_out, start_of};
use crate::environments::Environment;
use acc_base::{Task, Transfer};
use acc_dev::HostMem;
use acc_present::Present;

/// The copy of a task's section between host memory and the block that it is mapped to.
pub(crate) fn transfer_at(present: &Present, task: &Task, block: u64) -> Transfer
    requires { HasRange present.now.table block }
    ensures { result ≡ transfer_at task.now block present.now.table.ranges }
{
    let section = task.section();
    let start = start_of(present, block);
    let offset = section.start.saturating_sub(start);
    Transfer {
        block,
        offset,
        section,
        out: task.goes_out(),
    }
}

/// Makes a transfer at once.
fn make(environment: &mut Environment, host: &mut HostMem, t: Transfer)
    requires can { CanTransfer t (bare_state (beside environment.old host.old)) }
    ensures blocks { let s = bare_state (beside environment.old host.old) in environment.new ≡ record environment.old { device = record environment.old.device { memories = memories_made (Some t) s.records.attached s.host s.memories } } }
    ensures host { let s = bare_state (beside environment.old host.old) in host.new ≡ host_made (Some t) s.records.attached s.memories s.host }
{
    let start = t.section.start.saturating_sub(t.offset);
    if t.out {
        copy_out(environment, host, t.section, t.block, start);
    } else {
        copy_in(environment, host, t.section, t.block, start);
    }
}

/// Puts a transfer into a queue, where it keeps its block.
fn put(environment: &mut Environment, q: u64, t: Transfer)
    requires can { CanPut q t environment.old.queues environment.old.device }
    requires marked { AreMarked (beside environment.old []) }
    ensures moved { (host : List ℕ) → IsMovedBy (Some q) t (beside environment.old host) (beside environment.new host) }
{
    environment.queues.laws();
    environment.queues.put_reserved(q, t);
    environment.device.pin(t.block);
}

/// Makes a transfer at once, or puts it into the queue that is named.
pub(crate) fn move_bytes(
    environment: &mut Environment,
    host: &mut HostMem,
    queue: Option<u64>,
    t: Transfer,
)
    requires can { CanMoveBytes queue t (beside environment.old host.old) }
    requires marked { AreMarked (beside environment.old host.old) }
    ensures moved { IsMovedBy queue t (beside environment.old host.old) (beside environment.new host.new) }
{
    match queue {
        Some(q) => put(environment, q, t),
        None => make(environment, host, t),
    }
}

/// Makes the first transfer of a queue, if it has one. A block whose mapping has ended is given back after its last
/// one.
pub(crate) fn step(environment: &mut Environment, host: &mut HostMem, q: u64)
    requires can { CanStep q (beside environment.old host.old) }
    requires marked { AreMarked (beside environment.old host.old) }
    ensures stepped { IsSteppedBy q (beside environment.old host.old) (beside environment.new host.new) }
{
    let Some(t) = environment.queues.pop(q) else {
        return;
    };
    make(environment, host, t);
    environment.device.laws();
    if environment.device.unpin(t.block) {
        environment.attached.forget(t.block);
    }
}
