//! Calls in awkward orders. The oldest region or lease goes first, or the last of many items is refused.

use crate::desks::Desk;
use crate::items::{Row, item, one, section};
use acc_base::{EnterClause, ExitClause, Item, RegionClause};
use acc_lend::{Add, Lease, run_one};
use acc_table::Call;
use std::alloc::AllocError;
use std::collections::VecDeque;

/// Arrays of 48 bytes.
const ARRAYS: Row = Row {
    first: 0,
    apart: 64,
    len: 48,
    count: 20_000,
};

/// The arrays that are lent at once.
const LENT: Row = Row {
    count: 4_000,
    ..ARRAYS
};

/// The arrays that are mapped while directives are refused.
const MAPPED: Row = Row {
    count: 10_000,
    ..ARRAYS
};

/// How many directives are refused for their last item.
const REFUSED: u64 = 400;

/// Plays each awkward job so many times.
pub fn play(desk: &mut Desk, rounds: u64) {
    for _ in 0..rounds {
        regions(desk);
        leases(desk);
        last_refused(desk);
    }
}

/// Enters a region for each array, by a stride, and exits the oldest first. Before the exits the host writes other
/// bytes, so that host and device differ.
fn regions(desk: &mut Desk) {
    let mut last = 0;
    let step = desk.stride(2_000);
    desk.fill(ARRAYS.all());
    for nth in 0..ARRAYS.count {
        let array = ARRAYS.at(nth.wrapping_mul(step));
        last = desk.enter(one(RegionClause::Copy, array));
    }
    desk.fill(ARRAYS.all());
    // The number of a region is one more than that of the region before it.
    for younger in 0..ARRAYS.count {
        let after = ARRAYS.count.wrapping_sub(younger).wrapping_sub(1);
        desk.exit(last.wrapping_sub(after));
    }
    desk.note_host(ARRAYS.all());
    desk.fold();
}

/// Lends many arrays in a region, and gathers the oldest lease first.
fn leases(desk: &mut Desk) {
    desk.enter_row(LENT, EnterClause::Copyin);
    let region = desk.enter(one(RegionClause::Present, ARRAYS.at(0)));
    let mut out = VecDeque::new(desk.alloc);
    for nth in 0..LENT.count {
        lend(desk, region, nth, &mut out);
    }
    while let Some(lease) = out.pop_front() {
        desk.call(Call::Gather(lease));
    }
    out.destroy_empty();
    desk.exit(region);
    desk.exit_row(LENT, ExitClause::Copyout);
    desk.note_host(ARRAYS.all());
    desk.fold();
}

/// Lends an array, and works on it.
fn lend(desk: &mut Desk, region: u64, nth: u64, out: &mut VecDeque<Lease>) {
    if let Some(mut lease) = desk.lend(region, LENT.at(nth)) {
        run_one(&mut lease, &Add(1), &[]);
        if let Err(failed) = out.push_back(lease) {
            failed.value.abandon();
            desk.tally.is_short = true;
        }
    }
}

/// Directives of 64 items, each refused for its last item: that is only partly present.
fn last_refused(desk: &mut Desk) {
    desk.enter_row(MAPPED, EnterClause::Copyin);
    for _ in 0..REFUSED {
        let made = nearly_fit(desk);
        let items = desk.list(made);
        desk.enter_data(items);
    }
    desk.fill(ARRAYS.all());
    desk.exit_row(MAPPED, ExitClause::Copyout);
    desk.note_host(ARRAYS.all());
    desk.fold();
}

/// Items for 63 arrays, mapped or not, and for a section that begins in a mapped range and ends behind it.
fn nearly_fit(desk: &mut Desk) -> Result<Vec<Item<EnterClause>>, AllocError> {
    let first = desk.below(19_000);
    let stride = desk.below(31).wrapping_add(1);
    let mut made = ARRAYS.items(desk.alloc, EnterClause::Copyin, first, stride, 64);
    let at = desk.below(MAPPED.count).wrapping_mul(64).wrapping_add(40);
    if let Ok(items) = &mut made
        && let Some(last) = items.last_mut()
    {
        *last = item(EnterClause::Copyin, section(at, 16));
    }
    made
}
