//! A digest of what calls answered.

use crate::numbers::{Numbered, fields_of_aim, fields_of_event, fields_of_fault, fields_of_step};
use acc_base::{Aim, Did, Event, Fault, Item};
use acc_lend::Lease;
use acc_table::{Mapped, Reply};

/// What a sum is multiplied by for each number that it takes up. It is odd, so no number is lost.
const FACTOR: u64 = 0x9E37_79B9_7F4A_7C15;

/// How many bytes of a lease are noted at most. What is behind them is noted when the array is read back.
const FRONT: usize = 1_024;

/// A digest of all that was answered, and what was left behind.
#[derive(Clone, Copy)]
pub struct Tally {
    /// A digest of all numbers that were noted. It depends on their order.
    pub digest: u64,
    /// The sum of what is left at the end: bytes of device memory in use, open regions and mapped ranges.
    pub left: u64,
    /// Whether memory was refused for something beside a call. Then the digest does not count.
    pub is_short: bool,
}

/// A sum that has taken up one more word.
fn summed(sum: u64, word: [u8; 8]) -> u64 {
    (sum.rotate_left(5) ^ u64::from_le_bytes(word)).wrapping_mul(FACTOR)
}

impl Tally {
    /// A digest of nothing.
    pub fn new() -> Tally {
        Tally {
            digest: 0xCBF2_9CE4_8422_2325,
            left: 0,
            is_short: false,
        }
    }

    /// Notes a number.
    pub fn note(&mut self, number: u64) {
        let mixed = (self.digest ^ number).wrapping_mul(FACTOR);
        self.digest = mixed ^ (mixed >> 29);
    }

    /// Notes numbers.
    pub fn note_all(&mut self, numbers: &[u64]) {
        for number in numbers {
            self.note(*number);
        }
    }

    /// Notes how many bytes there are, and each of them, by words of eight as far as these go.
    pub fn note_bytes(&mut self, bytes: &[u8]) {
        self.note(bytes.len() as u64);
        let (words, rest) = bytes.as_chunks::<8>();
        let (fours, last) = words.as_chunks::<4>();
        self.note_fours(fours);
        for word in last {
            self.note(u64::from_le_bytes(*word));
        }
        for byte in rest {
            self.note(u64::from(*byte));
        }
    }

    /// Notes words by four sums. A sum must wait for its last multiplication, so three go on while one waits.
    fn note_fours(&mut self, fours: &[[[u8; 8]; 4]]) {
        let (mut one, mut two, mut three, mut four) = (1, 2, 3, 4);
        for [first, second, third, fourth] in fours {
            one = summed(one, *first);
            two = summed(two, *second);
            three = summed(three, *third);
            four = summed(four, *fourth);
        }
        self.note_all(&[one, two, three, four]);
    }

    /// Notes the reply of an accepted call, and returns the number that it holds: 0 for `Done`, 1 for `Idle`. It
    /// abandons a lease.
    pub fn accept(&mut self, reply: Reply) -> u64 {
        let (kind, number) = match reply {
            Reply::Done => (0, 0),
            Reply::Entered { number } => (1, number),
            Reply::Lease(lease) => {
                let serial = lease.serial();
                self.note_lease(&lease);
                lease.abandon();
                (2, serial)
            }
            Reply::Drained { count } => (3, count),
            Reply::Idle => (4, 1),
        };
        self.note_all(&[kind, number]);
        number
    }

    /// Notes a lease, and the first of the bytes that it lends.
    pub fn note_lease(&mut self, lease: &Lease) {
        self.note_all(&[lease.serial(), lease.block()]);
        self.note_lent(lease);
    }

    /// Notes a lease as [`Tally::note_lease`] does, but neither its serial nor its block. Where threads share a table,
    /// these two numbers depend on which thread came first.
    pub fn note_lent(&mut self, lease: &Lease) {
        self.note_all(&[lease.device(), lease.offset() as u64, lease.len() as u64]);
        let bytes = lease.bytes();
        self.note_bytes(bytes.get(..FRONT).unwrap_or(bytes));
    }

    /// Notes a refused call, and returns 0.
    pub fn refuse(&mut self, fault: Fault) -> u64 {
        let (first, second) = fields_of_fault(fault);
        self.note_all(&[fault.number().wrapping_add(1_000), first, second]);
        0
    }

    /// Notes how many events a fold of a trace took.
    pub fn note_folded(&mut self, folded: Result<u64, Fault>) {
        match folded {
            Ok(count) => self.note(count),
            Err(_) => self.is_short = true,
        }
    }

    /// Notes a mapped range.
    pub fn note_mapped(&mut self, range: Mapped) {
        let lent = u64::from(range.lent);
        self.note_all(&[range.start, range.len, range.place]);
        self.note_all(&[range.structured, range.dynamic, lent]);
    }

    /// Notes events.
    pub fn note_events(&mut self, events: &[Event]) {
        for event in events {
            self.note_event(event);
        }
    }

    fn note_event(&mut self, event: &Event) {
        self.note_all(&fields_of_event(event));
        self.note_items_of(event);
        for did in event.did() {
            self.note_did(*did);
        }
    }

    /// Notes the items or the bytes that an event has.
    fn note_items_of(&mut self, event: &Event) {
        match event {
            Event::Entered { items, .. } => self.note_items(items.as_slice()),
            Event::EnteredData { items, .. } => self.note_items(items.as_slice()),
            Event::ExitedData { items, .. } => self.note_items(items.as_slice()),
            Event::Updated { items, .. } => self.note_items(items.as_slice()),
            Event::HostWritten { bytes, .. } | Event::Gathered { bytes, .. } => {
                self.note_bytes(bytes.as_slice())
            }
            _ => {}
        }
    }

    fn note_items<C: Numbered>(&mut self, items: &[Item<C>]) {
        for item in items {
            self.note_item(item);
        }
    }

    fn note_item<C: Numbered>(&mut self, item: &Item<C>) {
        let kind = item.clause.number().wrapping_mul(2);
        let has_pointer = u64::from(item.pointer.is_some());
        let len = item.section.len.wrapping_mul(32);
        self.note(item.section.start);
        self.note(len.wrapping_add(kind).wrapping_add(has_pointer));
        if let Some(pointer) = item.pointer {
            self.note(pointer);
        }
    }

    fn note_did(&mut self, did: Did) {
        let (step, place) = fields_of_step(did.step);
        self.note(step);
        if place != 0 {
            self.note(place);
        }
        if did.aim != Aim::None {
            self.note_all(&fields_of_aim(did.aim));
        }
    }
}
