//! What an accepted call did, as it is kept in the trace of a table.

ghost use Rattle.std.specs.Prelude.{◌≡◌, map};
ghost use Rattle.std.specs.List.{slice_get};
ghost use Rattle.acc_base.specs.Devices.{device_in};
ghost use Rattle.acc_base.specs.Items.{tasks_named, tasks_undone, undone_by};
ghost use Rattle.acc_base.specs.Walk.{did_in, block_counted, holdings_of};

use crate::tasks::{enter_data_at, entry_at, exit_data_at, update_at};
use crate::{
    Aim, EnterClause, ExitClause, Holding, Item, List, RegionClause, Section, Task, UpdateClause,
};

/// What an item of a data clause did to mappings, counters and bytes.
#[derive(Clone, Copy, Debug, Default, PartialEq, Eq)]
pub enum Step {
    /// No action.
    #[default]
    Nothing,
    /// A reference counter of the range that is mapped to a block rose by one.
    Counted {
        /// The number of the block.
        block: u64,
    },
    /// The section was mapped to a new block, with a counter of one.
    Born {
        /// The number of the new block.
        block: u64,
        /// The device address of its first byte.
        place: u64,
    },
    /// A reference counter of the range that is mapped to a block fell by one, or was set to zero by `finalize`.
    Dropped {
        /// The number of the block.
        block: u64,
        /// Both counters are zero now, and the mapping has ended.
        ended: bool,
    },
    /// An `update` copied the bytes of the section, or put the copy into a queue.
    Moved {
        /// The number of the block from which or to which it copies.
        block: u64,
    },
}

impl Step {
    /// The block that it counted, if it counted one.
    pub fn block_counted(self) -> Option<u64>
        ensures { result ≡ block_counted self }
    {
        match self {
            Step::Counted { block } => Some(block),
            Step::Born { block, .. } => Some(block),
            _ => None,
        }
    }
}

/// What an item of a data clause did.
#[derive(Clone, Copy, Debug, Default, PartialEq, Eq)]
pub struct Did {
    /// What it did to mappings, counters and bytes.
    pub step: Step,
    /// What it did to its pointer.
    pub aim: Aim,
}

/// One accepted call: what the call named, and what each of its items did, in written order.
#[derive(Clone, Debug, Drop)]
pub enum Event {
    /// Entry to a data region.
    Entered {
        /// The number of the device on which it was entered.
        device: u64,
        /// The number that the region got: one more than that of the region before it.
        number: u64,
        /// The items that it named.
        items: List<Item<RegionClause>>,
        /// What each of them did.
        did: List<Did>,
    },
    /// Exit from a data region.
    Left {
        /// The number of the device, that of its entry.
        device: u64,
        /// The number of the region.
        number: u64,
        /// What undoing each item of the entry did. The last one acted first.
        did: List<Did>,
    },
    /// An `enter data` directive.
    EnteredData {
        /// The number of the device.
        device: u64,
        /// The items that it named.
        items: List<Item<EnterClause>>,
        /// The queue into which their copies were put, or `None` where each was made at once.
        queue: Option<u64>,
        /// What each of them did.
        did: List<Did>,
    },
    /// An `exit data` directive.
    ExitedData {
        /// The number of the device.
        device: u64,
        /// The items that it named.
        items: List<Item<ExitClause>>,
        /// Whether it had the `finalize` clause.
        finalize: bool,
        /// The queue into which their copies were put, or `None` where each was made at once.
        queue: Option<u64>,
        /// What each of them did.
        did: List<Did>,
    },
    /// An `update` directive.
    Updated {
        /// The number of the device.
        device: u64,
        /// The items that it named.
        items: List<Item<UpdateClause>>,
        /// Whether it had the `if_present` clause.
        if_present: bool,
        /// The queue into which their copies were put, or `None` where each was made at once.
        queue: Option<u64>,
        /// What each of them did.
        did: List<Did>,
    },
    /// A `wait` directive: the transfers of a queue were made, or those of all queues.
    Waited {
        /// The number of the device.
        device: u64,
        /// The queue, or `None` for all.
        queue: Option<u64>,
        /// How many transfers were made.
        count: u64,
    },
    /// The first transfer of a queue was made.
    Stepped {
        /// The number of the device.
        device: u64,
        /// The number of the queue.
        queue: u64,
        /// The number of the block that the transfer names.
        block: u64,
    },
    /// The host wrote into its memory.
    HostWritten {
        /// The first host address that was written.
        addr: u64,
        /// How many bytes were written.
        len: u64,
        /// The bytes that were written, where the trace is full; none where it is counted.
        bytes: List<u8>,
    },
    /// The block of a section was lent to a kernel.
    Lent {
        /// The number of the device, that of the region.
        device: u64,
        /// The number of the open region in which it was lent.
        region: u64,
        /// The section that the kernel may read and write.
        section: Section,
        /// The number of the block.
        block: u64,
        /// The serial number of the loan.
        serial: u64,
    },
    /// A lent block came back.
    Gathered {
        /// The number of the device, that of the loan.
        device: u64,
        /// The serial number of the loan.
        serial: u64,
        /// The number of the block.
        block: u64,
        /// The bytes with which the lent section came back, where the trace is full; none where it is counted.
        bytes: List<u8>,
    },
}

impl Event {
    /// The number of the device on which it acted; 0 for a write of the host, which is on none.
    pub fn device(&self) -> u64
        ensures { result ≡ device_in self.now }
    {
        match self {
            Event::Entered { device, .. } => *device,
            Event::Left { device, .. } => *device,
            Event::EnteredData { device, .. } => *device,
            Event::ExitedData { device, .. } => *device,
            Event::Updated { device, .. } => *device,
            Event::Waited { device, .. } => *device,
            Event::Stepped { device, .. } => *device,
            Event::HostWritten { .. } => 0,
            Event::Lent { device, .. } => *device,
            Event::Gathered { device, .. } => *device,
        }
    }

    /// What each of its items did, in written order; nothing where it has no items.
    pub fn did(&self) -> &[Did]
        ensures { result.now ≡ did_in self.now }
    {
        match self {
            Event::Entered { did, .. } => did.as_slice(),
            Event::Left { did, .. } => did.as_slice(),
            Event::EnteredData { did, .. } => did.as_slice(),
            Event::ExitedData { did, .. } => did.as_slice(),
            Event::Updated { did, .. } => did.as_slice(),
            Event::Waited { .. } | Event::Stepped { .. } | Event::HostWritten { .. } => &[],
            Event::Lent { .. } | Event::Gathered { .. } => &[],
        }
    }

    /// What its item of a place asked, from 0 on in written order. An exit from a region names no item: its entry tells
    /// what it asks ([`Event::exit_task`]).
    pub fn task(&self, place: usize) -> Option<Task>
        ensures { result ≡ slice_get (tasks_named self.now) place }
    {
        match self {
            Event::Entered { items, .. } => entry_at(items.as_slice(), place),
            Event::EnteredData { items, queue, .. } => enter_data_at(
                items.as_slice(),
                *queue,
                place,
            ),
            Event::ExitedData {
                items,
                finalize,
                queue,
                ..
            } => exit_data_at(items.as_slice(), *finalize, *queue, place),
            Event::Updated {
                items,
                if_present,
                queue,
                ..
            } => update_at(items.as_slice(), *if_present, *queue, place),
            _ => None,
        }
    }

    /// What the exit from a region asks of the item of a place, if this is the entry to the region: to undo what the
    /// item counted and attached.
    pub fn exit_task(&self, place: usize) -> Option<Task>
        ensures { result ≡ slice_get (tasks_undone self.now) place }
    {
        match self {
            Event::Entered { items, did, .. } => undone_at(items.as_slice(), did.as_slice(), place),
            _ => None,
        }
    }
}

/// What the exit from a region asks of the item of a place, whose entry named these items, and did this.
fn undone_at(items: &[Item<RegionClause>], did: &[Did], place: usize) -> Option<Task>
    ensures { result ≡ slice_get (map Task.ExitRegion (holdings_of items.now did.now)) place }
{
    undone_by(items.get(place).copied(), did.get(place).copied())
}

/// What the exit from a region asks of an item whose entry did this.
fn undone_by(item: Option<Item<RegionClause>>, did: Option<Did>) -> Option<Task>
    ensures { result ≡ undone_by item did }
{
    let (item, did) = (item?, did?);
    Some(Task::ExitRegion {
        holding: Holding {
            item,
            block: did.step.block_counted(),
            aim: did.aim.pointer_attached(),
        },
    })
}
