//! Leases of a row: kernels work on them, and they are brought back. One that the table did not make is brought too.

use crate::tests::language::Loan;
use crate::tests::playing::refusal;
use crate::tests::turns::NO_CALL;
use acc_base::{Fault, MEMORY_MAX};
use acc_lend::{Add, run_one};
use acc_table::{Call, Lease, Table};
use std::alloc::Global;

/// The place of the lease of a serial number.
fn place_of(leases: &[Lease], serial: u64) -> Option<usize> {
    leases.iter().position(|lease| lease.serial() == serial)
}

/// A kernel adds a number to each byte that a lease lends. Whether the lease is out.
pub fn adds(leases: &mut [Lease], serial: u64, number: u8) -> bool {
    match place_of(leases, serial) {
        Some(at) if at < leases.len() => {
            run_one(&mut leases[at], &Add(number), &[]);
            true
        }
        _ => false,
    }
}

/// Brings the lease of a serial number back. Whether it is out, and taken.
pub fn gathers(table: &mut Table, leases: &mut Vec<Lease>, serial: u64) -> bool {
    match place_of(leases, serial) {
        Some(at) if at < leases.len() => {
            let lease = leases.remove(at);
            refusal(table, Call::Gather(lease)).is_none()
        }
        _ => false,
    }
}

/// Brings a lease that says to be of a loan, and returns what that is refused for.
pub fn brings(
    alloc: Global,
    table: &mut Table,
    loan: Loan,
    bytes: &[u8],
) -> Result<Option<Fault>, Fault> {
    let (serial, block, device) = (loan.serial, loan.block, loan.device);
    let (offset, len) = (loan.offset, loan.len);
    let bytes = Vec::from_slice(alloc, bytes)?;
    let most = bytes.len();
    if most > MEMORY_MAX as usize || offset > most || len > most - offset {
        return Err(NO_CALL);
    }
    let lease = Lease::of(serial, block, offset, len, bytes, device);
    Ok(refusal(table, Call::Gather(lease)))
}
