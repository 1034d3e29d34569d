//! A loop over time steps: small directives on arrays that are mapped already.

use crate::desks::Desk;
use crate::items::{Row, one};
use acc_base::{EnterClause, ExitClause, HOST_BASE, RegionClause, Section, UpdateClause};

/// The scalars. They lie behind all arrays.
const SCALARS: Row = Row {
    first: 6_400_000,
    apart: 16,
    len: 8,
    count: 30,
};

/// All that lies behind the arrays: the scalars, and further arrays, which are mapped for one directive each time.
const BEHIND: Section = Section {
    start: HOST_BASE + 6_400_000,
    len: 73_728,
};

/// Maps so many arrays, makes the time steps, ends the mappings, and reads all back. Once the arrays are mapped, the
/// host writes other bytes, so that host and device differ.
pub fn play(desk: &mut Desk, count: u64, rounds: u64) {
    let arrays = Row {
        first: 0,
        apart: 64,
        len: 48,
        count,
    };
    desk.fill(BEHIND);
    desk.fill(arrays.all());
    desk.enter_row(arrays, EnterClause::Copyin);
    desk.fill(arrays.all());
    for _ in 0..rounds {
        step(desk, arrays);
    }
    desk.exit_row(arrays, ExitClause::Copyout);
    desk.note_host(BEHIND);
    desk.note_host(arrays.all());
}

/// One time step.
fn step(desk: &mut Desk, arrays: Row) {
    region(desk, arrays);
    for _ in 0..8u64 {
        pair(desk, arrays);
    }
    scalars(desk);
    if desk.below(8) == 0 {
        many(desk, arrays);
    }
    desk.fold_when_due();
}

/// A region over some arrays. In it the first bytes of one are updated on the host, and then on the device.
fn region(desk: &mut Desk, arrays: Row) {
    let count = desk.below(27).wrapping_add(4).min(arrays.count);
    let first = desk.below(arrays.count);
    let stride = desk.stride(100);
    let items = desk.items(arrays, RegionClause::Copy, first, stride, count);
    let number = desk.enter(items);
    let edge = Section {
        start: arrays.at(first).start,
        len: 8,
    };
    desk.update(one(UpdateClause::ToSelf, edge), None);
    desk.note_host(edge);
    desk.update(one(UpdateClause::ToDevice, edge), None);
    desk.exit(number);
}

/// An `enter data` of an array that is mapped, and its `exit data`.
fn pair(desk: &mut Desk, arrays: Row) {
    let number = desk.below(arrays.count);
    let array = arrays.at(number);
    desk.enter_data(one(EnterClause::Copyin, array));
    desk.note_presence(array);
    desk.exit_data(one(ExitClause::Delete, array), None);
}

/// Regions that map scalars and end the mappings: one for all thirty, and eight for one each.
fn scalars(desk: &mut Desk) {
    let items = desk.items(SCALARS, RegionClause::Copy, 0, 1, 30);
    desk.pass(items);
    for _ in 0..8u64 {
        let place = desk.below(30);
        desk.pass(one(RegionClause::Copy, SCALARS.at(place)));
    }
    desk.note_host(SCALARS.all());
}

/// Directives of 64 items: an `enter data` and an `exit data` of mapped arrays, and a region. The region is over other
/// arrays, which are mapped in it alone.
fn many(desk: &mut Desk, arrays: Row) {
    let first = desk.below(arrays.count);
    let stride = desk.stride(10);
    let items = desk.items(arrays, EnterClause::Copyin, first, stride, 64);
    desk.enter_data(items);
    let items = desk.items(arrays, ExitClause::Delete, first, stride, 64);
    desk.exit_data(items, None);
    let at = desk.below(1_000).wrapping_mul(64);
    let others = Row {
        first: SCALARS.first.wrapping_add(at).wrapping_add(4_096),
        apart: 64,
        len: 32,
        count: 64,
    };
    let items = desk.items(others, RegionClause::Copy, 0, 1, 64);
    desk.pass(items);
    desk.note_host(others.all());
}
