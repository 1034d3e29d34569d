//! What one item asks, whatever directive it stands in.

ghost use Rattle.std.specs.Prelude.{◌≡◌, ◌<◌, List, is_some, map};
ghost use Rattle.std.specs.List.{slice_get};
ghost use Rattle.acc_base.specs.declared.mappings.Range.{Range as Ranges};
ghost use Rattle.acc_base.specs.Items.{names_pointer, task_word};
ghost use Rattle.acc_base.specs.Tasks.{section_of, queue_of, recounted};
ghost use Rattle.acc_base.specs.Transfers.{gets_bytes, gives_bytes, goes_out, transfer_of};
ghost use Rattle.acc_base.specs.Walk.{enter_task, enter_data_task, exit_task, move_task};

use crate::{
    Counter, EnterClause, ExitClause, Holding, Item, Range, RegionClause, Section, Step,
    UpdateClause,
};

/// What one item of a directive asks of the data environment. Each row of the clause tables is a task.
#[derive(Clone, Copy, Debug, PartialEq, Eq)]
pub enum Task {
    /// Entry: an item of a `data` construct, on the structured counter, or of `enter data`, on the dynamic one.
    Enter {
        /// The counter that is raised.
        counter: Counter,
        /// The item. A clause of `enter data` stands as the clause of a region that does the same.
        item: Item<RegionClause>,
        /// The queue into which its copy is put, or `None` where the copy is made at once.
        queue: Option<u64>,
    },
    /// Exit from a region: what an item's entry counted is undone.
    ExitRegion {
        /// What the entry counted.
        holding: Holding,
    },
    /// An item of `exit data`.
    ExitData {
        /// Whether the directive has the `finalize` clause.
        finalize: bool,
        /// The clause with its section, and the pointer to that if one is named.
        item: Item<ExitClause>,
        /// The queue into which its copy is put, or `None` where the copy is made at once.
        queue: Option<u64>,
    },
    /// An item of `update`.
    Move {
        /// Whether the directive has the `if_present` clause.
        if_present: bool,
        /// The clause with its section. A pointer is not read.
        item: Item<UpdateClause>,
        /// The queue into which its copy is put, or `None` where the copy is made at once.
        queue: Option<u64>,
    },
}

// A task that asks for nothing: it stands in the unused places of an array.
impl Default for Task {
    fn default() -> Self {
        Task::Move {
            if_present: true,
            item: Item {
                clause: UpdateClause::ToSelf,
                section: Section { start: 0, len: 0 },
                pointer: None,
            },
            queue: None,
        }
    }
}

/// What the item of a place of a `data` construct asks on entry.
pub(crate) fn entry_at(items: &[Item<RegionClause>], place: usize) -> Option<Task>
    ensures { result ≡ slice_get (map enter_task items.now) place }
{
    let item = *items.get(place)?;
    Some(Task::Enter {
        counter: Counter::Structured,
        item,
        queue: None,
    })
}

/// What the item of a place of an `enter data` directive asks.
pub(crate) fn enter_data_at(
    items: &[Item<EnterClause>],
    queue: Option<u64>,
    place: usize,
) -> Option<Task>
    ensures { result ≡ slice_get (map (enter_data_task queue) items.now) place }
{
    let item = *items.get(place)?;
    Some(Task::of_enter_data(item, queue))
}

/// What the item of a place of an `exit data` directive asks.
pub(crate) fn exit_data_at(
    items: &[Item<ExitClause>],
    finalize: bool,
    queue: Option<u64>,
    place: usize,
) -> Option<Task>
    ensures { result ≡ slice_get (map (exit_task finalize queue) items.now) place }
{
    let item = *items.get(place)?;
    Some(Task::ExitData {
        finalize,
        item,
        queue,
    })
}

/// What the item of a place of an `update` directive asks.
pub(crate) fn update_at(
    items: &[Item<UpdateClause>],
    if_present: bool,
    queue: Option<u64>,
    place: usize,
) -> Option<Task>
    ensures { result ≡ slice_get (map (move_task if_present queue) items.now) place }
{
    let item = *items.get(place)?;
    Some(Task::Move {
        if_present,
        item,
        queue,
    })
}

impl Task {
    /// What an item of `enter data` asks (OpenACC 3.3, section 2.6.6).
    pub fn of_enter_data(item: Item<EnterClause>, queue: Option<u64>) -> Task
        ensures { result ≡ enter_data_task queue item }
    {
        let item = Item {
            clause: item.clause.as_region(),
            section: item.section,
            pointer: item.pointer,
        };
        Task::Enter {
            counter: Counter::Dynamic,
            item,
            queue,
        }
    }

    /// The word of its clause.
    pub fn word(self) -> &'static str
        ensures { result.now ≡ task_word self }
    {
        match self {
            Task::Enter { item, .. } => item.clause.word(),
            Task::ExitRegion { holding } => holding.item.clause.word(),
            Task::ExitData { item, .. } => item.clause.word(),
            Task::Move { item, .. } => item.clause.word(),
        }
    }

    /// Whether its clause is `attach` or `detach`, which names a pointer alone.
    pub fn names_pointer(self) -> bool
        ensures { result ≡ names_pointer self }
    {
        match self {
            Task::Enter { item, .. } => item.clause.is_attach(),
            Task::ExitRegion { holding } => holding.item.clause.is_attach(),
            Task::ExitData { item, .. } => item.clause.is_detach(),
            Task::Move { .. } => false,
        }
    }

    /// The section that it names. It is empty in an item of `attach` or `detach`, which names a pointer alone.
    pub fn section(self) -> Section
        ensures { result ≡ section_of self }
    {
        match self {
            Task::Enter { item, .. } => item.section.named(item.clause.is_attach()),
            Task::ExitRegion { holding } => holding.item.section,
            Task::ExitData { item, .. } => item.section.named(item.clause.is_detach()),
            Task::Move { item, .. } => item.section,
        }
    }

    /// The queue into which its transfer is put; without one it is made at once (OpenACC 3.3, section 2.16).
    pub fn queue(self) -> Option<u64>
        ensures { result ≡ queue_of self }
    {
        match self {
            Task::Enter { queue, .. } => queue,
            Task::ExitRegion { .. } => None,
            Task::ExitData { queue, .. } => queue,
            Task::Move { queue, .. } => queue,
        }
    }

    /// Whether a birth by it copies the section to the new block.
    pub fn gets_bytes(self) -> bool
        ensures { result ≡ gets_bytes self }
    {
        match self {
            Task::Enter { item, .. } => item.clause.copies_in(),
            _ => false,
        }
    }

    /// Whether the end of a mapping by it copies the section to the host.
    pub fn gives_bytes(self) -> bool
        ensures { result ≡ gives_bytes self }
    {
        match self {
            Task::ExitRegion { holding } => holding.item.clause.copies_out(),
            Task::ExitData { item, .. } => item.clause.copies_out(),
            _ => false,
        }
    }

    /// Whether a copy by it goes to the host, and not to the device.
    pub fn goes_out(self) -> bool
        ensures { result ≡ goes_out self }
    {
        match self {
            Task::Enter { .. } => false,
            Task::ExitRegion { .. } | Task::ExitData { .. } => true,
            Task::Move { item, .. } => item.clause.copies_out(),
        }
    }

    /// Whether it copied its section by this step, at once or by a queue.
    pub fn copies(self, step: Step) -> bool
        ensures { (ranges : List Ranges) → result ≡ is_some (transfer_of self step ranges) }
    {
        match step {
            Step::Born { .. } => self.gets_bytes(),
            Step::Dropped { ended: true, .. } => self.gives_bytes(),
            Step::Moved { .. } => true,
            _ => false,
        }
    }

    /// What it leaves of a range that it counts or drops, whose counters were these (OpenACC 3.3, section 2.6.7). A
    /// counter that is the last `u64` stays.
    pub fn recounted(self, range: Range) -> Range
        ensures { range.structured < u64.MAX → range.dynamic < u64.MAX → result ≡ recounted self range }
    {
        let Range {
            structured,
            dynamic,
            ..
        } = range;
        let (structured, dynamic) = match self {
            Task::Enter {
                counter: Counter::Structured,
                ..
            } => (structured.saturating_add(1), dynamic),
            Task::Enter {
                counter: Counter::Dynamic,
                ..
            } => (structured, dynamic.saturating_add(1)),
            Task::ExitRegion { .. } => (structured.saturating_sub(1), dynamic),
            Task::ExitData { finalize: true, .. } => (structured, 0),
            Task::ExitData {
                finalize: false,
                ..
            } => (structured, dynamic.saturating_sub(1)),
            Task::Move { .. } => (structured, dynamic),
        };
        Range {
            structured,
            dynamic,
            ..range
        }
    }
}
