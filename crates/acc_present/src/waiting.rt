//! The queues of transfers as one value.

ghost use Rattle.std.specs.Prelude.{◌≡◌, ◌<◌, ◌≤◌, length, map, slice_get, IfOk, IfErr, IfNone, OnOk, OnErr};
ghost use Rattle.std.specs.Option.{option_copied};
ghost use Rattle.std.specs.Vec.{vec_items};
ghost use Rattle.acc_base.specs.Limits.{IsFromOne};
ghost use Rattle.acc_base.specs.Queues.{new_queues, queue_at, head_of, put, popped};
ghost use Rattle.acc_present.specs.Queued.{AreQueues, spare_at, AreRoomsKept, IsRoomTaken};

use crate::ring::Ring;
use crate::rings::{copy_rings, make_room, new_rings, pop_from, put_into};
use acc_base::{Fault, QUEUE_COUNT, Transfer};
use std::alloc::{AllocError, Global};
use std::marker::Model;

/// The sixteen queues in which transfers wait to be made (OpenACC 3.3, section 2.16, asynchronous behavior).
///
/// Queues are numbered from 0 to 15. Each makes its transfers in the order in which they were put into it, and has at
/// most as many as a limit says.
///
/// Contracts see the limit, the transfers of each queue, the next one first, and for how many more each queue has room.
/// A refused call leaves the transfers as they were. Only `new`, `reserve`, `copy_queues` and `clone` allocate.
///
/// A look-up, `put_reserved` and a removal take the same time however many transfers wait. Where a queue's room grows, its
/// transfers may move.
pub struct Queues {
    cap: u64,
    rings: Vec<Ring>,
}

// By hand, so that a crate above does not prove the drops of its parts again.
impl Drop for Queues {
    fn drop(self) {
        let Queues { cap: _, rings: _ } = self;
    }
}

impl Model for Queues {
    ghost use Rattle.acc_present.specs.Queued.{QueuesState, AreQueues};
    ghost use Rattle.acc_present.specs.KeptRings.{queues_in, spares_in};

    ghost Value = { QueuesState };

    ghost view = { λ q. record {
      cap = q.cap;
      queues = queues_in q.rings.items;
      spare = spares_in q.rings.items;
    } };

    ghost invariant = { λ q. AreQueues q.cap (queues_in q.rings.items) };
}

impl Clone for Queues {
    ghost is_clone = { λ queues copy. (copy.cap ≡ queues.cap) × (copy.queues ≡ queues.queues) };

    /// The same transfers, which may have no room for more.
    ///
    /// # Errors
    ///
    /// [`AllocError`] where there is no memory for them.
    #[tactic(auto, using(crate::proofs::Copied::same_of_clones))]
    fn clone(&self) -> Result<Queues, AllocError> {
        Ok(Queues {
            cap: self.cap,
            rings: self.rings.clone()?,
        })
    }
}

impl Queues {
    /// Queues in which nothing waits. `cap` is how many transfers may wait in one queue, from 1 to 4,096.
    ///
    /// # Errors
    ///
    /// [`Fault::Memory`] alone.
    pub fn new(alloc: Global, cap: u64) -> Result<Queues, Fault>
        requires { IsFromOne 4096 cap }
        ensures queues { IfOk result (λ queues. queues.queues ≡ new_queues) }
        ensures cap { IfOk result (λ queues. queues.cap ≡ cap) }
        ensures only { IfErr result (λ fault. fault ≡ Fault.Memory) }
    {
        Ok(Queues {
            cap,
            rings: new_rings(alloc)?,
        })
    }

    /// What holds of the queues at all times. There are sixteen. Each has at most as many transfers as the limit says,
    /// and the limit is from 1 to 4,096. There is room in no other queue. Nothing is done.
    pub fn laws(&self)
        ensures queues { AreQueues self.now.cap self.now.queues }
        ensures spare { length self.now.spare ≡ QUEUE_COUNT }
    {
        let _ = &self.rings;
    }

    /// The transfer that a queue makes next. `None` exactly where nothing waits in it, or the number is above 15.
    pub fn head(&self, q: u64) -> Option<&Transfer>
        ensures { option_copied result ≡ head_of q self.now.queues }
    {
        self.at(q, 0)
    }

    /// Takes the transfer that a queue makes next out of it. `None` exactly where nothing waits in it, or the number is
    /// above 15; the queues are then as before.
    pub fn pop(&mut self, q: u64) -> Option<Transfer>
        ensures head { result ≡ head_of q self.old.queues }
        ensures queues { self.new.queues ≡ popped q self.old.queues }
        ensures unchanged { IfNone result (self.new.queues ≡ self.old.queues) }
        ensures cap { self.new.cap ≡ self.old.cap }
        ensures room { AreRoomsKept self.old.spare self.new.spare }
    {
        pop_from(&mut self.rings, q)
    }

    /// How many transfers wait in a queue: none where the number is above 15.
    pub fn len(&self, q: u64) -> u64
        ensures { result ≡ length (queue_at q self.now.queues) }
    {
        match self.rings.get(q as usize) {
            Some(ring) => ring.len(),
            None => 0,
        }
    }

    /// The transfer that a queue makes after `i` others. `None` exactly where not as many wait in it, or the number is
    /// above 15.
    pub fn at(&self, q: u64, i: u64) -> Option<&Transfer>
        ensures { option_copied result ≡ slice_get (queue_at q self.now.queues) i }
    {
        self.rings.get(q as usize)?.at(i)
    }

    /// The transfers of each queue in a vector of their own. The queues stand by rising number, and in each the
    /// transfer that it makes next at the front. The queues stay as they are.
    ///
    /// It allocates for the result alone, exactly so many queues and transfers, and copies each transfer once.
    ///
    /// # Errors
    ///
    /// [`Fault::Memory`] alone.
    pub fn copy_queues(&self, alloc: Global) -> Result<Vec<Vec<Transfer>>, Fault>
        ensures ok { IfOk result (λ queues. map vec_items queues.items ≡ self.now.queues) }
        ensures only { IfErr result (λ fault. fault ≡ Fault.Memory) }
    {
        copy_rings(&self.rings, alloc)
    }

    // ---- room

    /// Makes room for so many more transfers in a queue, so that [`Queues::put_reserved`] allocates nothing.
    ///
    /// # Errors
    ///
    /// [`Fault::Memory`] alone, only where that room was missing. No room has shrunk then.
    pub fn reserve(&mut self, q: u64, count: u64) -> Result<(), Fault>
        requires known { q < QUEUE_COUNT }
        ensures ok { OnOk result (count ≤ spare_at q self.new.spare) }
        ensures only { IfErr result (λ fault. fault ≡ Fault.Memory) }
        ensures needed { OnErr result (spare_at q self.old.spare < count) }
        ensures queues { self.new.queues ≡ self.old.queues }
        ensures cap { self.new.cap ≡ self.old.cap }
        ensures room { AreRoomsKept self.old.spare self.new.spare }
    {
        make_room(&mut self.rings, q, count)
    }

    /// Puts a transfer at the end of a queue that has fewer than the limit says, and room for one more. It allocates
    /// nothing. It takes at most one from the room of that queue, and none from that of the others.
    pub fn put_reserved(&mut self, q: u64, t: Transfer)
        requires known { q < QUEUE_COUNT }
        requires below { length (queue_at q self.old.queues) < self.old.cap }
        requires room { 1 ≤ spare_at q self.old.spare }
        ensures queues { self.new.queues ≡ put q t self.old.queues }
        ensures cap { self.new.cap ≡ self.old.cap }
        ensures room { IsRoomTaken q self.old.spare self.new.spare }
    {
        put_into(&mut self.rings, q, t);
    }
}
