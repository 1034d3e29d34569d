//! Which lease brings a block back.

ghost use Rattle.std.specs.Prelude.{◌≡◌, length, is_some, IfSome};
ghost use Rattle.std.specs.List.{AllByRecursion};
ghost use Rattle.slab.specs.Slab.{get};
ghost use Rattle.acc_base.specs.Leases.{is_kept_outside, is_returnable};
ghost use Rattle.acc_index.specs.Indexed.{IsIndexRising};
ghost use Rattle.acc_dev.specs.Slots.{IsSlotOf};
ghost use Rattle.acc_dev.specs.Kept.{stored_len, slot_of, blocks_in, memories_in, loans_in, is_back_at, IsBacked};

use crate::entries::{Stored, slot};
use acc_index::Index;
use acc_lend::Lease;
use slab::Slab;

/// Whether a lease has as many bytes as a copy of its block, and the same ones before its section and behind it.
fn is_kept_outside(lease: &Lease, copy: &[u8]) -> bool
    ensures { result ≡ is_kept_outside lease.now copy.now }
{
    let from = lease.offset();
    let to = from + lease.len();
    let bytes = lease.block_bytes();
    copy.len() == bytes.len() && bytes[..from] == copy[..from] && bytes[to..] == copy[to..]
}

/// Whether a lease brings the block of a slot of a device back. The device is the lease's. The slot is lent under the
/// lease's serial number, for the same section. Its block is as long as the lease has bytes. Where a copy is kept, only
/// the section differs from it.
fn is_back_at(slab: &Slab<Stored>, slot: usize, device: u64, lease: &Lease, kept: bool) -> bool
    ensures { result ≡ is_back_at kept device lease.now (get slab.now slot) }
{
    let Some(stored) = slab.get(slot) else {
        return false;
    };
    let Some(loan) = stored.loan else {
        return false;
    };
    loan.serial == lease.serial()
        && loan.offset == lease.offset() as u64
        && loan.len == lease.len() as u64
        && stored.len == lease.block_bytes().len() as u64
        && lease.device() == device
        && (!kept || is_kept_outside(lease, stored.bytes.as_slice()))
}

/// The slot of a device whose block a lease brings back, if there is one.
pub fn slot_back(
    slab: &Slab<Stored>,
    index: &Index<usize>,
    device: u64,
    lease: &Lease,
    kept: bool,
) -> Option<usize>
    requires rising { IsIndexRising index.now.entries }
    requires backed { AllByRecursion (λ e. IsBacked e.0 (slot_of slab.now.slots e)) index.now.entries }
    ensures returnable { is_some result ≡ is_returnable kept device lease.now (blocks_in slab.now.slots index.now.entries) (loans_in slab.now.slots index.now.entries) (memories_in slab.now.slots index.now.entries) }
    ensures slot { IfSome result (IsSlotOf index.now.entries lease.now.block) }
    ensures len { IfSome result (λ slot. stored_len (get slab.now slot) ≡ length lease.now.bytes) }
{
    let slot = slot(index, lease.block())?;
    if is_back_at(slab, slot, device, lease, kept) {
        return Some(slot);
    }
    None
}
