//! Calls of the crates below `acc_clauses` that no other crate makes. Their clauses say what each returns, or that memory
//! is refused.

ghost use Rattle.std.specs.Prelude.{◌<◌, ◌^◌};

use crate::tests::same;
use crate::tests::turns::section;
use acc_base::{Fault, Found, Range, Transfer};
use acc_dev::Device;
use acc_placement::Holes;
use acc_present::{Attached, Left, Place, Present, Queues};
use std::process::Abort;

/// Takes all of 64 bytes, in ranges of 16, and more.
fn check_taken(rt: &(impl Abort + AllocGlobal)) -> Result<(), Fault> {
    let mut holes = Holes::new(rt.alloc(), 0, 64)?;
    let found = [holes.take(16), holes.take(1), holes.take(32), holes.take(1)];
    let full = Fault::DeviceFull { item: 0, need: 16 };
    let wanted = [Ok(0), Ok(16), Ok(32), Err(full)];
    same(
        rt,
        found,
        wanted,
        "ranges in the first holes that are large enough",
    );
    Ok(())
}

/// Each byte of a new block of three is this one.
fn check_birth(rt: &impl Abort, device: &mut Device, zero: bool, byte: u8) -> Result<(), Fault>
    requires { device.old.births < 2 ^ 48 }
{
    let block = device.born(3, zero)?;
    same(rt, device.bytes(block), Some([byte; 3].as_slice()), zero);
    Ok(())
}

fn check_first_block(rt: &(impl Abort + AllocGlobal), zero: bool, byte: u8) -> Result<(), Fault> {
    let mut device = Device::new(rt.alloc(), 0, 65_536)?;
    check_birth(rt, &mut device, zero, byte)
}

/// A table of one region, where 16 bytes from 0x1000 on are mapped to block 1.
fn present(rt: &(impl Abort + AllocGlobal)) -> Result<Present, Fault> {
    let array = section((0x1000, 16));
    let mut present = Present::new(rt.alloc(), 2);
    assert!(rt; present.find(array) == Found::Absent);
    present.reserve(1, 1, 0)?;
    let range = Range {
        section: array,
        block: 1,
        structured: 0,
        dynamic: 0,
    };
    present.add_reserved(range, Place::default());
    present.enter_reserved(1, Vec::new(rt.alloc()));
    Ok(present)
}

fn check_present(rt: &(impl Abort + AllocGlobal)) -> Result<(), Fault> {
    let present = present(rt)?;
    let (block, offset) = (1, 15);
    let found = (present.find(section((0x100f, 1))), present.regions());
    same(
        rt,
        found,
        (Found::Inside { block, offset }, 1),
        "the last byte, and regions",
    );
    Ok(())
}

/// Attaches a pointer of block 1 twice, and detaches it at once.
fn check_pointer(rt: &(impl Abort + AllocGlobal)) -> Result<(), Fault> {
    let mut attached = Attached::new(rt.alloc(), 2);
    attached.reserve(1)?;
    let (block, pointer) = (1, 0x1008);
    attached.aim_reserved(block, pointer);
    attached.aim_again(block, pointer);
    let found = attached.count(block, pointer);
    let left = attached.detach_now(block, pointer);
    same(
        rt,
        (found, left),
        (2, Left::Zero),
        "a pointer that is detached at once",
    );
    Ok(())
}

fn check_queues(rt: &(impl Abort + AllocGlobal)) -> Result<(), Fault> {
    let mut queues = Queues::new(rt.alloc(), 64)?;
    let transfer = Transfer {
        block: 1,
        offset: 0,
        section: section((0x1000, 8)),
        out: false,
    };
    queues.reserve(3, 1)?;
    queues.put_reserved(3, transfer);
    same(
        rt,
        (queues.len(3), queues.len(16)),
        (1, 0),
        "one of sixteen queues",
    );
    Ok(())
}

#[test]
fn calls_of_each_layer_return_what_they_should(rt: HostRuntime) -> Result<(), Fault> {
    check_taken(&rt)?;
    check_first_block(&rt, false, 0xa5)?;
    check_first_block(&rt, true, 0)?;
    check_present(&rt)?;
    check_pointer(&rt)?;
    check_queues(&rt)
}
