//! What a step changes. Nothing is judged here, nothing is allocated, and nothing is refused.

ghost use Rattle.std.specs.Prelude.{◌≡◌, ◌∷◌, ◌<◌, ◌≤◌, [], ℕ, Some, true, false};
ghost use Rattle.acc_base.specs.Loans.{is_lent};
ghost use Rattle.acc_base.specs.Tasks.{section_of};
ghost use Rattle.acc_base.specs.Clauses.{is_attach, section_named, copies_in};
ghost use Rattle.acc_base.specs.declared.events.Step.TheVariants.{Born, Dropped, Moved};
ghost use Rattle.acc_clauses.specs.Contents.{AreMarked, beside, room_of, bare_state};
ghost use Rattle.acc_clauses.specs.Overlays.{puts_by};
ghost use Rattle.acc_clauses.specs.Acts.{IsEnter, CanAct, CanBear, CanMove, CanDrop, HasRoomFor, IsActedBy, CanMake, IsBlockMade, is_copied_now, birth_of, CanDo, IsDoneBy, pointers_of, CanPut, CanQueue, CanNeed, HasPutRoom, IsFilledLater, IsGivenBy};

use crate::acted::Acted;
use crate::environments::Environment;
use crate::pointers::aim_on;
use crate::transfers::{move_bytes, transfer_at};
use acc_base::{Item, Range, RegionClause, Section, Step, Task, Transfer};
use acc_dev::{Device, HostMem};
use acc_present::Place;

/// The section of a new block is copied there at once: by the clause, and without a queue.
fn is_copied_now(clause: RegionClause, queue: Option<u64>) -> bool
    ensures { result ≡ is_copied_now clause queue }
{
    clause.copies_in() && queue.is_none()
}

/// A new block for a section that is mapped by a clause, with its bytes: copied at once, or filled.
fn make_block(
    device: &mut Device,
    host: &HostMem,
    copied: bool,
    section: Section,
    clause: RegionClause,
)
    requires can { CanMake device.old host.now section }
    ensures { IsBlockMade device.old device.new copied section clause host.now }
{
    if copied {
        let Some(bytes) = host.read(section) else {
            unreachable!()
        };
        device.born_with_reserved(bytes);
    } else {
        device.born_reserved(section.len, clause.is_zeroed());
    }
}

/// Puts the copy to a new block into the queue that is named, if the clause copies.
fn fill_later(
    environment: &mut Environment,
    host: &mut HostMem,
    queue: Option<u64>,
    item: Item<RegionClause>,
    block: u64,
)
    requires can { (q : ℕ) → queue ≡ Some q → copies_in item.clause ≡ true → CanPut q (record { block = block; offset = 0; section = section_named (is_attach item.clause) item.section; out = false }) environment.old.queues environment.old.device }
    requires marked { AreMarked (beside environment.old host.old) }
    ensures filled { IsFilledLater queue item block (beside environment.old host.old) (beside environment.new host.new) }
{
    if queue.is_some() && item.clause.copies_in() {
        let section = item.section.named(item.clause.is_attach());
        let t = Transfer {
            block,
            offset: 0,
            section,
            out: false,
        };
        move_bytes(environment, host, queue, t);
    }
}

/// Maps the section of an entry to a new block, with a counter of one. No search comes first where the last range before
/// it stands at the place.
fn bear(
    environment: &mut Environment,
    host: &mut HostMem,
    task: &Task,
    block: u64,
    place: u64,
    near: Place,
)
    requires entry { IsEnter task.now }
    requires can { CanBear environment.old.present.table.counter_max environment.old.device.memory (section_of task.now) block place (bare_state (beside environment.old host.old)) }
    requires queue { CanQueue task.now (Born block place) (beside environment.old host.old) }
    requires room { HasRoomFor ((section_of task.now).len ∷ []) (room_of (beside environment.old host.old)) }
    requires puts { HasPutRoom (λ q. puts_by q task.now (Born block place)) (room_of (beside environment.old host.old)) }
    requires marked { AreMarked (beside environment.old host.old) }
    ensures acted { IsActedBy task.now (Born block place) (beside environment.old host.old) (beside environment.new host.new) }
{
    let Task::Enter { item, queue, .. } = *task else {
        unreachable!()
    };
    let section = task.section();
    let copied = is_copied_now(item.clause, queue);
    environment.device.laws();
    make_block(&mut environment.device, host, copied, section, item.clause);
    let range = task.recounted(Range {
        section,
        block,
        structured: 0,
        dynamic: 0,
    });
    environment.present.add_reserved(range, near);
    fill_later(environment, host, queue, item, block);
}

/// Where the task copies at the end of a mapping, host memory gets the bytes of the section, at once or later.
fn give_bytes(environment: &mut Environment, host: &mut HostMem, task: &Task, block: u64)
    requires can { CanMove (section_of task.now) block (bare_state (beside environment.old host.old)) }
    requires free { is_lent block environment.old.device.loans ≡ false }
    requires queue { CanQueue task.now (Dropped block true) (beside environment.old host.old) }
    requires puts { HasPutRoom (λ q. puts_by q task.now (Dropped block true)) (room_of (beside environment.old host.old)) }
    requires marked { AreMarked (beside environment.old host.old) }
    ensures given { IsGivenBy task.now block (beside environment.old host.old) (beside environment.new host.new) }
{
    if task.gives_bytes() {
        let t = transfer_at(&environment.present, task, block);
        move_bytes(environment, host, task.queue(), t);
    }
}

/// Ends the mapping to a block, whose range is not searched for where it stands at the place. A block that a queued
/// transfer names stays; else it is given back.
fn end(environment: &mut Environment, host: &mut HostMem, task: &Task, block: u64, near: Place)
    requires can { CanDrop task.now block true (bare_state (beside environment.old host.old)) }
    requires free { is_lent block environment.old.device.loans ≡ false }
    requires queue { CanQueue task.now (Dropped block true) (beside environment.old host.old) }
    requires puts { HasPutRoom (λ q. puts_by q task.now (Dropped block true)) (room_of (beside environment.old host.old)) }
    requires marked { AreMarked (beside environment.old host.old) }
    ensures acted { IsActedBy task.now (Dropped block true) (beside environment.old host.old) (beside environment.new host.new) }
{
    give_bytes(environment, host, task, block);
    environment.device.laws();
    environment.present.end_mapping(block, near);
    if environment.device.retire(block) {
        environment.attached.forget(block);
    }
}

/// Lowers the counters of a range, or ends its mapping where none is above zero then. It is not searched for where it
/// stands at the place.
#[inline(always)]
fn lower(
    environment: &mut Environment,
    host: &mut HostMem,
    task: &Task,
    block: u64,
    ended: bool,
    near: Place,
)
    requires can { CanDrop task.now block ended (bare_state (beside environment.old host.old)) }
    requires free { is_lent block environment.old.device.loans ≡ false }
    requires queue { CanQueue task.now (Dropped block ended) (beside environment.old host.old) }
    requires puts { HasPutRoom (λ q. puts_by q task.now (Dropped block ended)) (room_of (beside environment.old host.old)) }
    requires marked { AreMarked (beside environment.old host.old) }
    ensures acted { IsActedBy task.now (Dropped block ended) (beside environment.old host.old) (beside environment.new host.new) }
{
    if ended {
        end(environment, host, task, block, near);
    } else {
        environment.present.recount(task, block, near);
    }
}

/// Copies the section of an update, at once or later.
fn update(environment: &mut Environment, host: &mut HostMem, task: &Task, block: u64)
    requires can { CanMove (section_of task.now) block (bare_state (beside environment.old host.old)) }
    requires needed { CanNeed task.now (Moved block) (beside environment.old host.old) }
    requires queue { CanQueue task.now (Moved block) (beside environment.old host.old) }
    requires puts { HasPutRoom (λ q. puts_by q task.now (Moved block)) (room_of (beside environment.old host.old)) }
    requires marked { AreMarked (beside environment.old host.old) }
    ensures acted { IsActedBy task.now (Moved block) (beside environment.old host.old) (beside environment.new host.new) }
{
    let t = transfer_at(&environment.present, task, block);
    move_bytes(environment, host, task.queue(), t);
}

/// Does the step of a task. Its range is not searched for where it stands at the place.
#[inline(always)]
fn step_on(environment: &mut Environment, host: &mut HostMem, x: &Acted, near: Place)
    requires can { CanAct environment.old.present.table.counter_max environment.old.device.memory x.now.task x.now.did.step (bare_state (beside environment.old host.old)) }
    requires needed { CanNeed x.now.task x.now.did.step (beside environment.old host.old) }
    requires queue { CanQueue x.now.task x.now.did.step (beside environment.old host.old) }
    requires room { HasRoomFor (birth_of x.now.task x.now.did.step) (room_of (beside environment.old host.old)) }
    requires puts { HasPutRoom (λ q. puts_by q x.now.task x.now.did.step) (room_of (beside environment.old host.old)) }
    requires marked { AreMarked (beside environment.old host.old) }
    ensures acted { IsActedBy x.now.task x.now.did.step (beside environment.old host.old) (beside environment.new host.new) }
{
    match x.did.step {
        Step::Nothing => {}
        Step::Counted { block } => environment.present.recount(&x.task, block, near),
        Step::Born { block, place } => bear(environment, host, &x.task, block, place, near),
        Step::Dropped { block, ended } => lower(environment, host, &x.task, block, ended, near),
        Step::Moved { block } => update(environment, host, &x.task, block),
    }
}

/// Does what a task does: entry attaches after its step, and exit detaches before its step. Its range is not searched
/// for where it stands at the place.
#[inline(always)]
pub(crate) fn act_on(environment: &mut Environment, host: &mut HostMem, x: &Acted, near: Place)
    requires can { CanDo (beside environment.old host.old) x.now.task x.now.did }
    requires room { HasRoomFor (birth_of x.now.task x.now.did.step) (room_of (beside environment.old host.old)) }
    requires pointers { pointers_of x.now.did.aim ≤ (room_of (beside environment.old host.old)).attachments }
    requires puts { HasPutRoom (λ q. puts_by q x.now.task x.now.did.step) (room_of (beside environment.old host.old)) }
    requires marked { AreMarked (beside environment.old host.old) }
    ensures done { IsDoneBy x.now.task x.now.did (beside environment.old host.old) (beside environment.new host.new) }
{
    match x.task {
        Task::Enter { .. } => {
            step_on(environment, host, x, near);
            aim_on(environment, host, x.did.aim);
        }
        Task::ExitRegion { .. } | Task::ExitData { .. } | Task::Move { .. } => {
            aim_on(environment, host, x.did.aim);
            step_on(environment, host, x, near);
        }
    }
}
