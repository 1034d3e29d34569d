//! A table of a million mapped ranges. What a drop or a copy of them does must not go as deep as they are many.

use crate::tests::language::Line::{Maps, Rebases, Says};
use crate::tests::language::{Check, Limits, Row, WIDE};
use crate::tests::playing::{play_row, refusal};
use crate::tests::rows::A;
use crate::tests::turns::section;
use acc_base::{Directive, EnterClause, Fault, Item, List};
use acc_table::{Call, Table};
use std::alloc::{AllocError, Global};

/// How many directives make a million ranges, of as many items as a directive may have.
const DIRECTIVES: u64 = 15_625;

const MILLION: Row = Row {
    name: "a million ranges are mapped, and copied",
    limits: Limits {
        host: 67_108_864,
        device: 67_108_864,
        tickets: DIRECTIVES,
        trace_cap: DIRECTIVES,
        ..WIDE
    },
    lines: &[
        Maps(DIRECTIVES),
        Rebases(DIRECTIVES),
        Says(Check::Ranges(1_000_000)),
    ],
};

/// As many items as a directive may have, side by side from an address on.
fn items(alloc: Global, from: u64) -> Result<List<Item<EnterClause>>, AllocError> {
    let mut items = Vec::with_capacity(alloc, 64)?;
    for number in 0..64 {
        items.push(Item {
            clause: EnterClause::Create { zero: true },
            section: section((from.saturating_add(16 * number), 16)),
            pointer: None,
        })?;
    }
    Ok(List::from_vec(items))
}

/// Makes a directive of such items, and returns what it is refused for.
fn map_some(alloc: Global, table: &mut Table, from: u64) -> Result<Option<Fault>, AllocError> {
    let (device, items, queue) = (0, items(alloc, from)?, None);
    Ok(refusal(
        table,
        Call::Do(Directive::EnterData {
            device,
            items,
            queue,
        }),
    ))
}

/// Makes so many of these directives. Whether none is refused.
pub fn maps(alloc: Global, table: &mut Table, count: u64) -> Result<bool, AllocError> {
    for number in 0..count {
        let from = A.saturating_add(number.saturating_mul(1_024));
        if map_some(alloc, table, from)?.is_some() {
            return Ok(false);
        }
    }
    Ok(true)
}

#[test]
fn a_table_of_a_million_ranges_is_dropped(rt: HostRuntime) -> Result<(), Fault> {
    play_row(&rt, &MILLION)
}
