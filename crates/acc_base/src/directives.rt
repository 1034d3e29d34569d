//! What a program asks of the data environment.

ghost use Rattle.std.specs.Prelude.{◌≡◌, []};
ghost use Rattle.std.specs.List.{slice_get};
ghost use Rattle.acc_base.specs.Judge.{item_count, tasks_with};

use crate::tasks::{enter_data_at, entry_at, exit_data_at, update_at};
use crate::{EnterClause, ExitClause, Item, List, RegionClause, Task, UpdateClause};

/// A directive, with the items of its data clauses in written order. They act in that order, and on a region's exit in
/// reverse. A directive names the device on which it acts, as `acc_set_device_num` chooses it (OpenACC 3.3, section
/// 3.2). The exit from a region names none: its device is that of its entry.
#[derive(Debug, Drop)]
pub enum Directive {
    /// Entry to a structured data region: the start of a `data` construct (OpenACC 3.3, section 2.6.5).
    Enter {
        /// The number of the device, from 0 on.
        device: u64,
        /// The items of its data clauses, in written order.
        items: List<Item<RegionClause>>,
    },
    /// Exit from an open data region: the end of its `data` construct (OpenACC 3.3, section 2.6.5). It acts on the
    /// device on which the region was entered.
    Exit {
        /// The number of the region, which its entry returned.
        number: u64,
    },
    /// The `enter data` directive (OpenACC 3.3, section 2.6.6).
    EnterData {
        /// The number of the device, from 0 on.
        device: u64,
        /// The items of its data clauses, in written order.
        items: List<Item<EnterClause>>,
        /// The `async` clause (OpenACC 3.3, section 2.16): the number of the queue into which the copies of its items
        /// are put. `None` where each is made at once. Counters, mappings and pointers change at once in any case.
        queue: Option<u64>,
    },
    /// The `exit data` directive (OpenACC 3.3, section 2.6.6).
    ExitData {
        /// The number of the device, from 0 on.
        device: u64,
        /// The items of its data clauses, in written order.
        items: List<Item<ExitClause>>,
        /// The `finalize` clause: the dynamic counter of each range that an item names becomes zero, and does not fall
        /// by one.
        finalize: bool,
        /// The `async` clause, as that of `enter data`.
        queue: Option<u64>,
    },
    /// The `update` directive (OpenACC 3.3, the update directive).
    Update {
        /// The number of the device, from 0 on.
        device: u64,
        /// The items of its data clauses, in written order.
        items: List<Item<UpdateClause>>,
        /// The `if_present` clause: a section that is absent is passed over, and not refused.
        if_present: bool,
        /// The `async` clause, as that of `enter data`.
        queue: Option<u64>,
    },
    /// The `wait` directive (OpenACC 3.3, section 2.16): makes the transfers of a queue in the order in which they were
    /// put into it. Or makes those of all queues, from the first queue to the last.
    Wait {
        /// The number of the device, from 0 on.
        device: u64,
        /// The number of the queue, or `None` for all.
        queue: Option<u64>,
    },
    /// Makes the next transfer of a queue, as the device does while the host goes on (OpenACC 3.3, section 2.16).
    Step {
        /// The number of the device, from 0 on.
        device: u64,
        /// The number of the queue.
        queue: u64,
    },
}

impl Directive {
    /// How many items its clauses name; the exit from a region names none, nor do `wait` and the step of a queue.
    pub fn item_count(&self) -> usize
        ensures { result ≡ item_count self.now }
    {
        match self {
            Directive::Enter { items, .. } => items.as_slice().len(),
            Directive::EnterData { items, .. } => items.as_slice().len(),
            Directive::ExitData { items, .. } => items.as_slice().len(),
            Directive::Update { items, .. } => items.as_slice().len(),
            _ => 0,
        }
    }

    /// What its item of a place asks, from 0 on in written order. The exit from a region names no item.
    pub fn task(&self, place: usize) -> Option<Task>
        ensures { result ≡ slice_get (tasks_with self.now []) place }
    {
        match self {
            Directive::Enter { items, .. } => entry_at(items.as_slice(), place),
            Directive::EnterData { items, queue, .. } => enter_data_at(
                items.as_slice(),
                *queue,
                place,
            ),
            Directive::ExitData {
                items,
                finalize,
                queue,
                ..
            } => exit_data_at(items.as_slice(), *finalize, *queue, place),
            Directive::Update {
                items,
                if_present,
                queue,
                ..
            } => update_at(items.as_slice(), *if_present, *queue, place),
            _ => None,
        }
    }
}
