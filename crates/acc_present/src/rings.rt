//! The rings that keep the queues: one each, by the queue's number.

ghost use Rattle.std.specs.Prelude.{◌≡◌, ◌<◌, ◌≤◌, map, vec_len, IfOk, IfErr, OnOk, OnErr};
ghost use Rattle.std.specs.Vec.{vec_items};
ghost use Rattle.acc_base.specs.Queues.{new_queues, head_of, put, popped};
ghost use Rattle.acc_present.specs.Queued.{spare_at, AreRoomsKept, IsRoomTaken};
ghost use Rattle.acc_present.specs.KeptRings.{queues_in, spares_in};

use crate::ring::Ring;
use acc_base::{Fault, QUEUE_COUNT, Transfer};
use std::alloc::Global;

/// A ring for each queue, with nothing in it.
pub fn new_rings(alloc: Global) -> Result<Vec<Ring>, Fault>
    ensures ok { IfOk result (λ rings. queues_in rings.items ≡ new_queues) }
    ensures only { IfErr result (λ fault. fault ≡ Fault.Memory) }
{
    let mut rings = Vec::with_capacity(alloc, QUEUE_COUNT as usize)?;
    for _ in 0..QUEUE_COUNT {
        rings.push(Ring::new(alloc))?;
    }
    Ok(rings)
}

/// The transfers of each ring in a vector of their own. It allocates exactly so many rings and transfers.
pub fn copy_rings(rings: &[Ring], alloc: Global) -> Result<Vec<Vec<Transfer>>, Fault>
    ensures ok { IfOk result (λ copied. map vec_items copied.items ≡ queues_in rings.now) }
    ensures only { IfErr result (λ fault. fault ≡ Fault.Memory) }
{
    let mut copied = Vec::with_capacity(alloc, rings.len())?;
    for ring in rings {
        copied.push(ring.copy(alloc)?)?;
    }
    Ok(copied)
}

/// Puts a transfer at the end of a queue that has room for it.
pub fn put_into(rings: &mut Vec<Ring>, q: u64, t: Transfer)
    requires known { q < vec_len rings.old }
    requires room { 1 ≤ spare_at q (spares_in rings.old.items) }
    ensures queues { queues_in rings.new.items ≡ put q t (queues_in rings.old.items) }
    ensures spare { IsRoomTaken q (spares_in rings.old.items) (spares_in rings.new.items) }
{
    rings[q as usize].put(t);
}

/// Takes out the first transfer of a queue.
pub fn pop_from(rings: &mut Vec<Ring>, q: u64) -> Option<Transfer>
    ensures first { result ≡ head_of q (queues_in rings.old.items) }
    ensures queues { queues_in rings.new.items ≡ popped q (queues_in rings.old.items) }
    ensures spare { AreRoomsKept (spares_in rings.old.items) (spares_in rings.new.items) }
{
    if q as usize >= rings.len() {
        return None;
    }
    rings[q as usize].pop()
}

/// Makes room for so many more transfers in a queue.
pub fn make_room(rings: &mut Vec<Ring>, q: u64, count: u64) -> Result<(), Fault>
    requires known { q < vec_len rings.old }
    ensures ok { OnOk result (count ≤ spare_at q (spares_in rings.new.items)) }
    ensures only { IfErr result (λ fault. fault ≡ Fault.Memory) }
    ensures needed { OnErr result (spare_at q (spares_in rings.old.items) < count) }
    ensures queues { queues_in rings.new.items ≡ queues_in rings.old.items }
    ensures spare { AreRoomsKept (spares_in rings.old.items) (spares_in rings.new.items) }
{
    rings[q as usize].reserve(count)
}
