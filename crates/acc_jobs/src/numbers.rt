//! Answers as numbers: which kind each is, and each of its fields.

use acc_base::{
    Aim, Counters, Ended, EnterClause, Event, ExitClause, Fault, Found, RegionClause, Step,
    UpdateClause,
};

/// A clause that has a number, from 0 to 15.
pub trait Numbered: Copy {
    /// The number of the clause, with its modifier.
    fn number(self) -> u64;
}

impl Numbered for RegionClause {
    fn number(self) -> u64 {
        match self {
            RegionClause::Copy => 0,
            RegionClause::Copyin => 1,
            RegionClause::Copyout { zero } => u64::from(zero).wrapping_add(2),
            RegionClause::Create { zero } => u64::from(zero).wrapping_add(4),
            RegionClause::NoCreate => 6,
            RegionClause::Present => 7,
            RegionClause::Attach => 8,
        }
    }
}

impl Numbered for EnterClause {
    fn number(self) -> u64 {
        self.as_region().number()
    }
}

impl Numbered for ExitClause {
    fn number(self) -> u64 {
        match self {
            ExitClause::Delete => 0,
            ExitClause::Copyout => 1,
            ExitClause::Detach => 2,
        }
    }
}

impl Numbered for UpdateClause {
    fn number(self) -> u64 {
        u64::from(self.copies_out())
    }
}

/// A kind and a number, as one number.
fn kind_of(kind: u64, number: u64) -> u64 {
    number.wrapping_mul(16).wrapping_add(kind)
}

/// What a step did, to which block, and the place of a block that was born. The place is 0 for other steps.
pub fn fields_of_step(step: Step) -> (u64, u64) {
    match step {
        Step::Nothing => (0, 0),
        Step::Counted { block } => (kind_of(1, block), 0),
        Step::Born { block, place } => (kind_of(2, block), place),
        Step::Dropped { block, ended } => (kind_of(u64::from(ended).wrapping_add(3), block), 0),
        Step::Moved { block } => (kind_of(5, block), 0),
    }
}

/// What became of a pointer, in which block, the pointer, and its new target. What it has not is 0.
pub fn fields_of_aim(aim: Aim) -> [u64; 3] {
    match aim {
        Aim::None => [6, 0, 0],
        Aim::New {
            pointer,
            block,
            target,
        } => [kind_of(7, block), pointer, target],
        Aim::Again { pointer, block } => [kind_of(8, block), pointer, 0],
        Aim::Less { pointer, block } => [kind_of(9, block), pointer, 0],
        Aim::Cleared { pointer, block } => [kind_of(10, block), pointer, 0],
    }
}

/// A number that may be missing, as one number: 0 where it is missing, and else one more.
pub fn number_of(number: &Option<u64>) -> u64 {
    match number {
        Some(number) => number.wrapping_add(1),
        None => 0,
    }
}

/// Whether a section is mapped and to which block, and how far behind the start of its range it begins.
pub fn fields_of_found(found: Found) -> [u64; 2] {
    match found {
        Found::Empty => [0, 0],
        Found::Inside { block, offset } => [kind_of(1, block), offset],
        Found::Partly => [2, 0],
        Found::Absent => [3, 0],
    }
}

/// Whether there are counters, and both.
pub fn fields_of_counters(counters: Option<Counters>) -> [u64; 3] {
    match counters {
        Some(counters) => [1, counters.structured, counters.dynamic],
        None => [0, 0, 0],
    }
}

/// Whether there is a block whose mapping ended, its place, its size and its pins.
pub fn fields_of_ended(ended: Option<Ended>) -> [u64; 4] {
    match ended {
        Some(ended) => [1, ended.place, ended.size, ended.pins],
        None => [0, 0, 0, 0],
    }
}

/// Which event it is, on which device, for how many items it says what they did, and its other numbers.
pub fn fields_of_event(event: &Event) -> [u64; 6] {
    let count = event.did().len() as u64;
    let on = event.device();
    match event {
        Event::Entered { number, .. } => [kind_of(0, on), *number, count, 0, 0, 0],
        Event::Left { number, .. } => [kind_of(1, on), *number, count, 0, 0, 0],
        Event::EnteredData { queue, .. } => of_data(kind_of(2, on), queue, count, false),
        Event::ExitedData {
            finalize,
            queue,
            ..
        } => of_data(kind_of(3, on), queue, count, *finalize),
        Event::Updated {
            if_present,
            queue,
            ..
        } => of_data(kind_of(4, on), queue, count, *if_present),
        _ => fields_of_other(event, on),
    }
}

/// The fields of an event that may name a queue, and of whose directive an option is told.
fn of_data(kind: u64, queue: &Option<u64>, count: u64, option: bool) -> [u64; 6] {
    [kind, number_of(queue), count, u64::from(option), 0, 0]
}

/// [`fields_of_event`] for an event that has no items. `on` is its device.
fn fields_of_other(event: &Event, on: u64) -> [u64; 6] {
    match event {
        Event::Waited { queue, count, .. } => [kind_of(5, on), number_of(queue), *count, 0, 0, 0],
        Event::Stepped { queue, block, .. } => [kind_of(6, on), *queue, *block, 0, 0, 0],
        Event::HostWritten { addr, len, .. } => [kind_of(7, on), *addr, *len, 0, 0, 0],
        Event::Lent {
            region,
            section,
            block,
            serial,
            ..
        } => [
            kind_of(8, on),
            *region,
            section.start,
            section.len,
            *block,
            *serial,
        ],
        Event::Gathered { serial, block, .. } => [kind_of(9, on), *serial, *block, 0, 0, 0],
        _ => [kind_of(10, on), 0, 0, 0, 0, 0],
    }
}

/// The fields of a fault of a table, which has two at most. What it has not is 0.
pub fn fields_of_fault(fault: Fault) -> (u64, u64) {
    match fault {
        Fault::NoTickets { left } | Fault::NoAllowance { left } => (left, 0),
        Fault::TooManyItems { n } => (n, 0),
        Fault::TraceFull { len } => (len, 0),
        Fault::OutOfHost { item } | Fault::Misaligned { item } => (item, 0),
        Fault::PartlyPresent { item } | Fault::NotPresent { item } => (item, 0),
        Fault::CounterFull { item } => (item, 0),
        Fault::NoQueue { q } | Fault::QueueFull { q } => (q, 0),
        Fault::Lent { block } => (block, 0),
        Fault::DeviceFull { item, need } => (item, need),
        Fault::NoRegion { number } => (number, 0),
        Fault::NoLease { serial } => (serial, 0),
        Fault::NoDevice { device } => (device, 0),
        _ => (0, 0),
    }
}
