//! One queue.

ghost use Rattle.std.specs.Prelude.{◌≡◌, ◌+◌, ◌<◌, ◌≤◌, [], ◌∷◌, ◌++◌, length, drop, slice_get, IfOk, IfErr, OnOk, OnErr};
ghost use Rattle.std.specs.Option.{option_copied};

use acc_base::{Fault, Transfer};
use std::alloc::{AllocError, Global};
use std::collections::VecDeque;
use std::marker::Model;

/// One queue: its transfers, the one that is next at the front.
///
/// Contracts see beside them for how many more there is room. A clone has the transfers, and may have no room for more.
#[derive(Drop)]
pub struct Ring {
    waiting: VecDeque<Transfer>,
}

impl Model for Ring {
    ghost use Rattle.std.specs.Prelude.{◌-◌};
    ghost use Rattle.std.specs.VecDeque.{deque_len, deque_capacity};
    ghost use Rattle.acc_present.specs.KeptRings.{RingState};

    ghost Value = { RingState };

    ghost view = { λ r. record {
      transfers = r.waiting.items;
      spare = deque_capacity r.waiting - deque_len r.waiting;
    } };
}

impl Clone for Ring {
    ghost is_clone = { λ ring copy. copy.transfers ≡ ring.transfers };

    fn clone(&self) -> Result<Ring, AllocError> {
        Ok(Ring {
            waiting: self.waiting.clone()?,
        })
    }
}

impl Ring {
    /// A queue of no transfers. It allocates nothing.
    pub fn new(alloc: Global) -> Ring
        ensures { result.transfers ≡ [] }
    {
        Ring {
            waiting: VecDeque::new(alloc),
        }
    }

    /// How many transfers it has.
    pub fn len(&self) -> u64
        ensures { result ≡ length self.now.transfers }
    {
        self.waiting.len() as u64
    }

    /// The transfer at a place, counted from the front.
    pub fn at(&self, i: u64) -> Option<&Transfer>
        ensures { option_copied result ≡ slice_get self.now.transfers i }
    {
        self.waiting.get(i as usize)
    }

    /// Its transfers in a vector of their own, the one that is next at the front. It allocates exactly so many.
    pub fn copy(&self, alloc: Global) -> Result<Vec<Transfer>, Fault>
        ensures ok { IfOk result (λ transfers. transfers.items ≡ self.now.transfers) }
        ensures only { IfErr result (λ fault. fault ≡ Fault.Memory) }
    {
        let (front, back) = self.waiting.as_slices();
        let mut transfers = Vec::with_capacity(alloc, self.waiting.len())?;
        transfers.extend_from_slice(front)?;
        transfers.extend_from_slice(back)?;
        Ok(transfers)
    }

    /// Puts a transfer at the end, where there is room for it.
    pub fn put(&mut self, t: Transfer)
        requires { 1 ≤ self.old.spare }
        ensures transfers { self.new.transfers ≡ self.old.transfers ++ t ∷ [] }
        ensures spare { self.old.spare ≤ self.new.spare + 1 }
    {
        let Ok(()) = self.waiting.push_back(t) else {
            unreachable!()
        };
    }

    /// Takes out the transfer at the front.
    pub fn pop(&mut self) -> Option<Transfer>
        ensures first { result ≡ slice_get self.old.transfers 0 }
        ensures transfers { self.new.transfers ≡ drop 1 self.old.transfers }
        ensures spare { self.old.spare ≤ self.new.spare }
    {
        self.waiting.pop_front()
    }

    /// Makes room for so many more transfers. It is refused only where that room was missing.
    pub fn reserve(&mut self, count: u64) -> Result<(), Fault>
        ensures ok { OnOk result (count ≤ self.new.spare) }
        ensures only { IfErr result (λ fault. fault ≡ Fault.Memory) }
        ensures needed { OnErr result (self.old.spare < count) }
        ensures transfers { self.new.transfers ≡ self.old.transfers }
        ensures spare { self.old.spare ≤ self.new.spare }
    {
        self.waiting.reserve(count as usize)?;
        Ok(())
    }
}
