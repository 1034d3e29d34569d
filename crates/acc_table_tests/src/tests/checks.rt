//! What a table says, beside what a row says.

use crate::tests::language::{At, Check};
use crate::tests::turns::section;
use acc_base::{Counters, Event};
use acc_table::Table;

/// The bytes that an event has, where it may have some.
fn bytes_at(table: &Table, number: usize) -> Option<&[u8]> {
    match table.trace().get(number)? {
        Event::HostWritten { bytes, .. } | Event::Gathered { bytes, .. } => Some(bytes.as_slice()),
        _ => None,
    }
}

fn counted(table: &Table, device: u64, at: At) -> Option<(u64, u64)> {
    let Counters {
        structured,
        dynamic,
    } = table.counters(device, section(at))?;
    Some((structured, dynamic))
}

/// How many ranges the base of a table has on the first device.
fn ranges_in(table: &Table) -> Option<usize> {
    Some(table.base().devices().first()?.ranges().len())
}

/// Whether a table answers a query, of a device where it is asked of one, as the row says.
pub fn holds(table: &Table, device: u64, check: Check) -> bool {
    match check {
        Check::Counted(at, wanted) => counted(table, device, at) == wanted,
        Check::Host(at, wanted) => table.host_read(section(at)) == wanted,
        Check::Device(at, wanted) => table.device_read(device, section(at)) == wanted,
        Check::Bytes(number, wanted) => bytes_at(table, number) == wanted,
        Check::Stored(wanted) => table.trace().len() == wanted,
        Check::Queue(q, wanted) => table.queue_len(device, q) == wanted,
        Check::Used(wanted) => table.used(device) == wanted,
        Check::Events(wanted) => table.events() == wanted,
        Check::Ranges(wanted) => ranges_in(table) == Some(wanted),
    }
}
