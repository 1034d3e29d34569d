//! Gates that make pieces of work meet, and one that looks.

use acc_lend::Gate;
use acc_runtime::{Limited, Runtime};
use std::rt::Clock;
use std::sync::Wait;
use std::sync::atomic::{AtomicU64, Ordering};
use std::sync::ledger::Ledger;
use std::thread::sleep;
use std::time::Duration;

/// How often work that is held waits a millisecond before it gives up.
const WAITS: u32 = 10_000;

/// One of each number below eight, in a sum of how often each was there.
const EACH: u64 = 0x0101_0101_0101_0101;

/// One of a number below eight, in such a sum.
fn one_of(n: usize) -> u64 {
    1 << (8 * n.min(7))
}

/// Holds all work but that of one number before it begins, until that one is done. It holds that one behind its work
/// until all others are done. So they all are at work at the same time, and that one first. It keeps how often it was
/// called for each number. Where no number is named, it holds nothing.
#[derive(Drop)]
pub struct Meeting {
    // One of the number that comes first, and one of each number. Without a first one that is 0.
    first: u64,
    all: u64,
    begun: AtomicU64,
    done: AtomicU64,
    /// What the work itself counts.
    pub work: AtomicU64,
    // How much of that was there behind the work that comes first.
    seen: AtomicU64,
}

impl Meeting {
    /// A meeting of the work of each number below `count`, in which that of the number `first` comes first, if any.
    pub fn new(first: Option<usize>, count: usize) -> Meeting {
        Meeting {
            first: first.map_or(0, one_of),
            all: EACH >> (8 * (8 - count.clamp(1, 8))),
            begun: AtomicU64::new(0),
            done: AtomicU64::new(0),
            work: AtomicU64::new(0),
            seen: AtomicU64::new(0),
        }
    }

    /// How much work was there behind that which came first. None unless some came first, all work began once and was
    /// done once, and none waited in vain.
    pub fn took_place(&self) -> Option<u64> {
        let begun = self.begun.load(Ordering::SeqCst);
        let done = self.done.load(Ordering::SeqCst);
        let is_done = begun == self.all && done == self.all && self.first != 0;
        is_done.then_some(self.seen.load(Ordering::SeqCst))
    }

    /// Waits until this work is done. Where that takes too long, it counts the work of number 0 as begun once more.
    fn hold<R: Clock>(&self, rt: &R, work: u64) {
        for _ in 0..WAITS {
            if self.done.load(Ordering::SeqCst) & work == work {
                return;
            }
            sleep(rt, Duration::from_millis(1));
        }
        self.begun.fetch_add(1, Ordering::SeqCst);
    }
}

impl<R: Clock> Gate<R> for Meeting {
    fn before(&self, rt: &R, n: usize) {
        self.begun.fetch_add(one_of(n), Ordering::SeqCst);
        if one_of(n) != self.first {
            self.hold(rt, self.first);
        }
    }

    fn after(&self, rt: &R, n: usize) {
        let is_first = one_of(n) == self.first;
        if is_first {
            let seen = self.work.load(Ordering::SeqCst);
            self.seen.store(seen, Ordering::SeqCst);
        }
        self.done.fetch_add(one_of(n), Ordering::SeqCst);
        if is_first {
            self.hold(rt, self.all);
        }
    }
}

/// Lets a worker take part in a meeting, under a number of its own for all that it does. It folds the events when it is
/// called: before and after word 0, before and after word 1, and so on. So it knows how many there were since the call
/// before.
#[derive(Drop)]
pub struct Watch<'a, Regions: Limited, Tickets: Ledger, Events: Ledger> {
    pub meeting: &'a Meeting,
    pub number: usize,
    pub runtime: &'a Runtime<Regions, Tickets, Events>,
    /// How many events it folds at each call.
    pub wanted: &'a [u64],
    /// How many calls there were, each as it should be, and many more where one was not.
    pub calls: AtomicU64,
}

impl<Regions: Limited, Tickets: Ledger, Events: Ledger> Watch<'_, Regions, Tickets, Events> {
    /// Folds the events, once more where memory is refused for that, and returns how many they were.
    fn fold<R: Wait>(&self, rt: &R) -> Option<u64> {
        match self.runtime.rebase(rt) {
            Ok(count) => Some(count),
            Err(_) => self.runtime.rebase(rt).ok(),
        }
    }

    /// Looks at a call, where calls before and after each word are counted together from 0.
    fn see<R: Wait>(&self, rt: &R, place: usize) {
        let is_next = self.calls.load(Ordering::SeqCst) == place as u64;
        let is_right = is_next && self.fold(rt) == self.wanted.get(place).copied();
        let calls = if is_right { 1 } else { 1_000 };
        self.calls.fetch_add(calls, Ordering::SeqCst);
    }
}

impl<R: Clock + Wait, Regions: Limited, Tickets: Ledger, Events: Ledger> Gate<R>
    for Watch<'_, Regions, Tickets, Events> {
    fn before(&self, rt: &R, n: usize) {
        if n == 0 {
            self.meeting.before(rt, self.number);
        }
        self.see(rt, n.saturating_mul(2));
    }

    fn after(&self, rt: &R, n: usize) {
        self.see(rt, n.saturating_mul(2).saturating_add(1));
        if n == 0 {
            self.meeting.after(rt, self.number);
        }
    }
}
