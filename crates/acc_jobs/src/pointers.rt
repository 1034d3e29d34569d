//! Deep copies: structs that hold a pointer each, which is attached, updated and detached.

use crate::desks::Desk;
use crate::items::{Row, one, section};
use acc_base::{EnterClause, ExitClause, HOST_BASE, Item, List, Section, UpdateClause};

/// How many structs there are, of 16 bytes each. A pointer is its first eight bytes.
const STRUCTS: u64 = 20_000;

/// All structs and all targets.
const MEMORY: Section = Section {
    start: HOST_BASE,
    len: 1_280_000,
};

/// The targets of the pointers.
const TARGETS: Row = Row {
    first: 320_000,
    apart: 48,
    len: 32,
    count: STRUCTS,
};

/// Deep copies of all structs, so many times.
pub fn play(desk: &mut Desk, rounds: u64) {
    desk.fill(MEMORY);
    for _ in 0..rounds {
        copy_all(desk);
    }
}

/// The section of the struct of a number.
fn structure(nth: u64) -> Section {
    section((nth % STRUCTS).wrapping_mul(16), 16)
}

/// Copies all structs to the device with their targets, and back. It goes by a stride, so that one seldom
/// follows its neighbour. Once all are attached, the host writes other bytes, so that host and device differ.
fn copy_all(desk: &mut Desk) {
    let all = section(0, STRUCTS.wrapping_mul(16));
    desk.enter_data(one(EnterClause::Copyin, all));
    desk.note_device(all);
    let step = desk.stride(2_000);
    for nth in 0..STRUCTS {
        attach(desk, nth.wrapping_mul(step));
    }
    desk.fill(MEMORY);
    desk.update(one(UpdateClause::ToSelf, all), None);
    desk.update(one(UpdateClause::ToDevice, all), None);
    desk.note_device(all);
    for nth in 0..STRUCTS {
        detach(desk, nth.wrapping_mul(step));
    }
    desk.exit_data(one(ExitClause::Copyout, all), None);
    // No target is mapped any more, so these do nothing.
    desk.exit_row(TARGETS, ExitClause::Delete);
    desk.note_host(MEMORY);
    desk.fold();
}

/// Points a struct at its target, maps the target, attaches the pointer and updates the struct.
fn attach(desk: &mut Desk, nth: u64) {
    let (pointer, target) = (structure(nth).start, TARGETS.at(nth));
    let made = Vec::from_slice(desk.alloc, &target.start.to_le_bytes());
    desk.write(pointer, made);
    desk.enter_data(pointing(EnterClause::Copyin, nth));
    desk.update(one(UpdateClause::ToDevice, structure(nth)), None);
    let count = desk.table.attachment(0, pointer);
    desk.tally.note(count);
    desk.fold_when_due();
}

/// A list of one item: the target of a number, with the pointer to it.
fn pointing<C>(clause: C, nth: u64) -> List<Item<C>> {
    List::one(Item {
        clause,
        section: TARGETS.at(nth),
        pointer: Some(structure(nth).start),
    })
}

/// Updates a target, and detaches the pointer to it with its item.
fn detach(desk: &mut Desk, nth: u64) {
    desk.update(one(UpdateClause::ToSelf, TARGETS.at(nth)), None);
    desk.exit_data(pointing(ExitClause::Copyout, nth), None);
    desk.fold_when_due();
}
