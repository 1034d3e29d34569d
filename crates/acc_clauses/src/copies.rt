//! Copies between host memory and a block: one slice over another, with no buffer between.

ghost use Rattle.std.specs.Prelude.{◌≡◌, ◌-◌, ◌<◌, length, map, true, false};
ghost use Rattle.acc_base.specs.Section.{covers, is_within, host_memory};
ghost use Rattle.acc_base.specs.Ranges.{start_of};
ghost use Rattle.acc_base.specs.Bytes.{bytes_of, is_moved, bytes_moved_in, bytes_moved_out, memory_changed};
ghost use Rattle.acc_base.specs.Loans.{is_lent};
ghost use Rattle.acc_dev.specs.Device.{HasBlock};
ghost use Rattle.acc_clauses.specs.Contents.{beside, bare_state};
ghost use Rattle.acc_clauses.specs.Acts.{CanCopy};
ghost use Rattle.acc_clauses.specs.Copies.{IsRunEnd};

use crate::environments::Environment;
use crate::sections::POINTER_LEN;
use acc_base::Section;
use acc_dev::{Device, HostMem};
use acc_present::{Attached, Place, Present};

/// Copies a run of bytes to host memory from a block that is not lent and is mapped from the host address `start` on.
fn run_out(device: &Device, host: &mut HostMem, run: Section, block: u64, start: u64)
    requires in_host { is_within run (host_memory (length host.old)) ≡ true }
    requires there { HasBlock device.now block }
    requires free { is_lent block device.now.loans ≡ false }
    requires within { is_within run (record { start = start; len = length (bytes_of block device.now.memories) }) ≡ true }
    ensures { host.new ≡ bytes_moved_out (covers run) (bytes_of block device.now.memories) start host.old }
{
    let from = (run.start - start) as usize;
    let Some(bytes) = device.bytes(block) else {
        unreachable!()
    };
    let Ok(()) = host.write(run.start, &bytes[from..from + run.len as usize]) else {
        unreachable!()
    };
}

/// Copies a run of bytes of host memory to a block that is not lent and is mapped from the host address `start` on.
pub(crate) fn run_in(device: &mut Device, host: &HostMem, run: Section, block: u64, start: u64)
    requires in_host { is_within run (host_memory (length host.now)) ≡ true }
    requires there { HasBlock device.old block }
    requires free { is_lent block device.old.loans ≡ false }
    requires within { is_within run (record { start = start; len = length (bytes_of block device.old.memories) }) ≡ true }
    ensures { device.new ≡ record device.old { memories = map (memory_changed block (bytes_moved_in (covers run) host.now start)) device.old.memories } }
{
    device.laws();
    let Some(bytes) = host.read(run) else {
        unreachable!()
    };
    device.write(block, run.start - start, bytes);
}

/// The host address at which the range that is mapped to a block begins; 0 where none is.
pub(crate) fn start_of(present: &Present, block: u64) -> u64
    ensures { result ≡ start_of block present.now.table.ranges }
{
    present.start(block).unwrap_or(0)
}

/// The end of the run of bytes, from the host address `at` on, that are of no attached pointer of the block. It is
/// `end`, or where the next attached pointer begins, which may be up to seven bytes below `at`. That pointer is looked
/// for first near a place, and its own place is answered too.
fn run_end(attached: &Attached, block: u64, at: u64, end: u64, near: Place) -> (u64, Place)
    requires { at < end }
    ensures { IsRunEnd block attached.now.attached at end result.0 }
{
    attached.laws();
    let from = at.saturating_sub(POINTER_LEN - 1);
    let (pointer, place) = attached.next_pointer_near(block, from, near);
    match pointer {
        Some(pointer) => (pointer.min(end), place),
        None => (end, place),
    }
}

/// The run from `at` to `stop`; it is empty where it stops before.
fn run_from(at: u64, stop: u64) -> Section
    ensures start { result.start ≡ at }
    ensures len { result.len ≡ stop - at }
{
    Section {
        start: at,
        len: stop.saturating_sub(at),
    }
}

/// Copies a section to host memory from a block whose bytes are those from the host address `start` on. The bytes of
/// attached pointers are left out.
pub(crate) fn copy_out(
    environment: &Environment,
    host: &mut HostMem,
    section: Section,
    block: u64,
    start: u64,
)
    requires can { CanCopy section block start (bare_state (beside environment.now host.old)) }
    ensures { let s = bare_state (beside environment.now host.old) in host.new ≡ bytes_moved_out (is_moved section block s.records.attached) (bytes_of block s.memories) start s.host }
{
    let end = section.start + section.len;
    let mut at = section.start;
    let mut near = Place::default();
    while at < end {
        let (stop, place) = run_end(&environment.attached, block, at, end, near);
        run_out(&environment.device, host, run_from(at, stop), block, start);
        at = stop + POINTER_LEN;
        near = place;
    }
}

/// Copies a section of host memory to a block whose bytes are those from the host address `start` on. The bytes of
/// attached pointers are left out.
pub(crate) fn copy_in(
    environment: &mut Environment,
    host: &HostMem,
    section: Section,
    block: u64,
    start: u64,
)
    requires can { CanCopy section block start (bare_state (beside environment.old host.now)) }
    ensures { let s = bare_state (beside environment.old host.now) in environment.new ≡ record environment.old { device = record environment.old.device { memories = map (memory_changed block (bytes_moved_in (is_moved section block s.records.attached) s.host start)) s.memories } } }
{
    let end = section.start + section.len;
    let mut at = section.start;
    let mut near = Place::default();
    while at < end {
        let (stop, place) = run_end(&environment.attached, block, at, end, near);
        run_in(
            &mut environment.device,
            host,
            run_from(at, stop),
            block,
            start,
        );
        at = stop + POINTER_LEN;
        near = place;
    }
}
