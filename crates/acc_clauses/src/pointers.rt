//! What attaching and detaching a pointer changes. Nothing is judged here, nothing is allocated, and nothing is
//! refused.

ghost use Rattle.std.specs.Prelude.{ℕ, List, [], ◌≡◌, ◌-◌, ◌≤◌, slice_index};
ghost use Rattle.std.specs.Int.{w64, to_le_bytes};
ghost use Rattle.acc_base.specs.declared.attachments.Aim.TheVariants.{Less};
ghost use Rattle.acc_base.specs.Bytes.{host_byte};
ghost use Rattle.acc_base.specs.Pointers.{pointer_written};
ghost use Rattle.acc_clauses.specs.Contents.{AreMarked, beside, room_of, bare_state};
ghost use Rattle.acc_clauses.specs.Acts.{CanAttach, CanDetach, CanAim, IsAimedBy, pointers_of};

use crate::copies::{run_in, start_of};
use crate::environments::Environment;
use crate::sections::pointer_at;
use acc_base::Aim;
use acc_dev::HostMem;
use acc_present::Left;

/// Writes the device address of a target over a pointer in a block, which is not lent.
fn write_target(environment: &mut Environment, pointer: u64, block: u64, target: u64)
    requires can { (host : List ℕ) × CanAttach pointer block (bare_state (beside environment.old host)) }
    ensures { let s = bare_state (beside environment.old []) in environment.new ≡ record environment.old { device = record environment.old.device { memories = pointer_written block pointer (λ a. slice_index (to_le_bytes w64 target) (a - pointer)) s } } }
{
    environment.device.laws();
    let start = start_of(&environment.present, block);
    environment
        .device
        .write(block, pointer - start, &target.to_le_bytes());
}

/// Writes the eight bytes of the host's pointer over the pointer in a block, which is not lent.
fn write_back(environment: &mut Environment, host: &HostMem, pointer: u64, block: u64)
    requires can { CanAttach pointer block (bare_state (beside environment.old host.now)) }
    ensures { let s = bare_state (beside environment.old host.now) in environment.new ≡ record environment.old { device = record environment.old.device { memories = pointer_written block pointer (host_byte s.host) s } } }
{
    let start = start_of(&environment.present, block);
    run_in(
        &mut environment.device,
        host,
        pointer_at(pointer),
        block,
        start,
    );
}

/// Takes one from the counter of a pointer in a block; at zero its bytes there become those of the host's pointer.
fn lessen(environment: &mut Environment, host: &HostMem, pointer: u64, block: u64)
    requires can { CanDetach pointer block (bare_state (beside environment.old host.now)) }
    requires marked { AreMarked (beside environment.old host.now) }
    ensures aimed { IsAimedBy (Less pointer block) (beside environment.old host.now) (beside environment.new host.now) }
{
    match environment.attached.detach(block, pointer) {
        Left::Zero => write_back(environment, host, pointer, block),
        Left::Nothing | Left::Less => {}
    }
}

/// Attaches or detaches a pointer (OpenACC 3.3, section 2.7.2).
#[inline(always)]
pub(crate) fn aim_on(environment: &mut Environment, host: &HostMem, aim: Aim)
    requires can { CanAim environment.old.attached.counter_max aim (bare_state (beside environment.old host.now)) }
    requires room { pointers_of aim ≤ (room_of (beside environment.old host.now)).attachments }
    requires marked { AreMarked (beside environment.old host.now) }
    ensures aimed { IsAimedBy aim (beside environment.old host.now) (beside environment.new host.now) }
{
    match aim {
        Aim::None => {}
        Aim::New {
            pointer,
            block,
            target,
        } => {
            write_target(environment, pointer, block, target);
            environment.attached.aim_reserved(block, pointer);
        }
        Aim::Again { pointer, block } => environment.attached.aim_again(block, pointer),
        Aim::Less { pointer, block } => lessen(environment, host, pointer, block),
        Aim::Cleared { pointer, block } => {
            write_back(environment, host, pointer, block);
            environment.attached.detach_now(block, pointer);
        }
    }
}

/// How many attachment counters more an attachment takes.
pub(crate) fn pointers_of(aim: Aim) -> u64
    ensures value { result ≡ pointers_of aim }
    ensures most { result ≤ 1 }
{
    match aim {
        Aim::New { .. } => 1,
        Aim::None | Aim::Again { .. } | Aim::Less { .. } | Aim::Cleared { .. } => 0,
    }
}
