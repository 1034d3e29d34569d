//! What the events of a table say of its blocks, pointers, queues and regions, as far as the marks have to be told it.

ghost use Rattle.std.specs.Prelude.{◌≡◌, ℕ, ◌&&◌, ◌==◌, ◌++◌, ◌∷◌, [], Option, Some, None, OnOk, IfOk, option_map, length, filter, map, reverse};
ghost use Rattle.std.specs.List.{find, position, slice_get};
ghost use Rattle.acc_base.specs.Attachments.{count_at};
ghost use Rattle.acc_base.specs.Devices.{new_whole};
ghost use Rattle.acc_base.specs.Items.{tasks_undone};
ghost use Rattle.acc_base.specs.Walk.{done_in};
ghost use Rattle.acc_stale.specs.Follows.{FollowsWhole};
ghost use Rattle.acc_stale.specs.Tells.{held_at};
ghost use Rattle.acc_stale.specs.Accounts.{is_in, without_first, counted, told_block, told_at, attached_at, IsChanged, IsCountKept, IsRecounted, HasSameBlocks, asked_by, act_at, IsRegionChanged};

use crate::known::Placed;
use acc_base::{Attachment, Did, Event, Range, Section, Task, Transfer};
use std::alloc::{AllocError, Global};
use std::collections::{BTreeMap, VecDeque};

/// A block with the line that made it.
#[derive(Clone, Copy, Debug)]
pub struct Held {
    /// Where it lies.
    pub placed: Placed,
    /// The range that is mapped to it. Where the mapping has ended it has the counters right before.
    pub range: Range,
    /// The number of the line.
    pub line: u64,
}

/// A transfer that waits in a queue of a device.
#[derive(Clone, Copy, Debug)]
pub struct Waiting {
    /// The number of the device.
    pub device: u64,
    /// The number of the queue.
    pub queue: u64,
    /// The transfer.
    pub transfer: Transfer,
}

/// A block, and its attached pointers.
#[derive(Drop)]
pub struct Told {
    /// The block.
    pub held: Held,
    /// Its pointers, by rising address.
    pub attached: Vec<Attachment>,
}

/// A block, and how often its pointers are attached.
#[derive(Drop)]
struct Block {
    held: Held,
    /// The counters above zero, by the addresses of the pointers.
    pointers: BTreeMap<u64, u64>,
}

/// What the events so far say.
#[derive(Drop)]
pub struct Account {
    alloc: Global,
    /// The blocks by their devices and numbers, those that were given back too.
    blocks: BTreeMap<(u64, u64), Block>,
    /// The transfers that wait, in the order in which they were put.
    waiting: VecDeque<Waiting>,
    /// What the exits from the open regions ask, of the first item first, by their devices and numbers.
    regions: BTreeMap<(u64, u64), Vec<Task>>,
}

impl Account {
    /// The account of no event.
    pub fn new(alloc: Global) -> Account
        ensures { (count host : ℕ) → FollowsWhole result (new_whole count host) }
    {
        Account {
            alloc,
            blocks: BTreeMap::new(alloc),
            waiting: VecDeque::new(alloc),
            regions: BTreeMap::new(alloc),
        }
    }

    /// Where it allocates.
    pub(crate) fn alloc(&self) -> Global {
        self.alloc
    }

    // ---- blocks

    /// Keeps a new block, which has no attached pointers.
    ///
    /// # Errors
    ///
    /// `AllocError` alone, as with those that follow. The account is not to be asked any more then.
    pub(crate) fn born(&mut self, held: Held) -> Result<(), AllocError>
        ensures ok { OnOk result (IsChanged held.placed.device held.placed.block (Some (record { held = held; attached = [] })) self.old self.new) }
        ensures regions { self.new.regions ≡ self.old.regions }
    {
        let key = (held.placed.device, held.placed.block);
        let pointers = BTreeMap::new(self.alloc);
        self.blocks.insert(key, Block { held, pointers })?;
        Ok(())
    }

    /// Keeps what a task leaves of the counters of a block's range, and returns the block.
    pub(crate) fn recount(&mut self, device: u64, block: u64, task: Task) -> Option<Held>
        ensures held { result ≡ held_at device block self.new }
        ensures counted { IsCountKept device block task self.old self.new }
        ensures regions { self.new.regions ≡ self.old.regions }
    {
        let found = self.blocks.get_mut(&(device, block))?;
        found.held.range = task.recounted(found.held.range);
        Some(found.held)
    }

    /// The block of a number on a device.
    pub fn block(&self, device: u64, block: u64) -> Option<Held>
        ensures { result ≡ option_map (λ t. t.held) (told_at device block self.now) }
    {
        match self.blocks.get(&(device, block)) {
            Some(found) => Some(found.held),
            None => None,
        }
    }

    /// The same, and its attached pointers.
    ///
    /// # Errors
    ///
    /// `AllocError` alone.
    pub fn told(&self, device: u64, block: u64) -> Result<Option<Told>, AllocError>
        ensures { IfOk result (λ told. option_map told_block told ≡ told_at device block self.now) }
    {
        let Some(found) = self.blocks.get(&(device, block)) else {
            return Ok(None);
        };
        Ok(Some(Told {
            held: found.held,
            attached: listed(self.alloc, block, &found.pointers)?,
        }))
    }

    // ---- pointers

    /// How often a pointer in a block is attached.
    pub(crate) fn count(&self, device: u64, block: u64, pointer: u64) -> u64
        ensures { result ≡ count_at block pointer (attached_at device block self.now) }
    {
        match self.blocks.get(&(device, block)) {
            Some(found) => found.pointers.get(&pointer).copied().unwrap_or(0),
            None => 0,
        }
    }

    /// Keeps how often a pointer in a block is attached now.
    pub(crate) fn attach(
        &mut self,
        device: u64,
        block: u64,
        pointer: u64,
        count: u64,
    ) -> Result<(), AllocError>
        ensures ok { OnOk result (IsRecounted device block pointer count self.old self.new) }
        ensures regions { self.new.regions ≡ self.old.regions }
    {
        let Some(found) = self.blocks.get_mut(&(device, block)) else {
            return Ok(());
        };
        if count == 0 {
            found.pointers.remove(&pointer);
        } else {
            found.pointers.insert(pointer, count)?;
        }
        Ok(())
    }

    /// The attached pointers of a block, by rising address.
    pub fn attached(&self, device: u64, block: u64) -> Result<Vec<Attachment>, AllocError>
        ensures ok { IfOk result (λ attached. attached.items ≡ attached_at device block self.now) }
    {
        match self.blocks.get(&(device, block)) {
            Some(found) => listed(self.alloc, block, &found.pointers),
            None => Ok(Vec::new(self.alloc)),
        }
    }

    // ---- queues

    /// Puts a transfer at the end of a queue (OpenACC 3.3, section 2.16).
    pub(crate) fn put(&mut self, waiting: Waiting) -> Result<(), AllocError>
        ensures ok { OnOk result (self.new.waiting.items ≡ self.old.waiting.items ++ waiting ∷ []) }
        ensures blocks { HasSameBlocks self.old self.new }
        ensures regions { self.new.regions ≡ self.old.regions }
    {
        self.waiting.push_back(waiting)?;
        Ok(())
    }

    /// Takes the first transfer out of a queue.
    pub(crate) fn take(&mut self, device: u64, queue: u64) -> Option<Transfer>
        ensures taken { result ≡ option_map (λ w. w.transfer) (find (is_in device queue) self.old.waiting.items) }
        ensures left { self.new.waiting.items ≡ without_first (is_in device queue) self.old.waiting.items }
        ensures blocks { HasSameBlocks self.old self.new }
        ensures regions { self.new.regions ≡ self.old.regions }
    {
        let nth = self.first_in(device, queue)?;
        match self.waiting.remove(nth) {
            Some(waiting) => Some(waiting.transfer),
            None => None,
        }
    }

    /// The place of the first transfer of a queue.
    fn first_in(&self, device: u64, queue: u64) -> Option<usize>
        ensures { result ≡ position (is_in device queue) self.now.waiting.items }
    {
        self.waiting
            .iter()
            .position(|w| w.device == device && w.queue == queue)
    }

    /// How many transfers wait in a queue.
    pub fn count_in(&self, device: u64, queue: u64) -> usize
        ensures { result ≡ length (filter (is_in device queue) self.now.waiting.items) }
    {
        self.waiting
            .iter()
            .filter(|w| w.device == device && w.queue == queue)
            .count()
    }

    /// The transfers that wait, in the order in which they were put.
    pub fn waiting(&self) -> &VecDeque<Waiting>
        ensures { result.now ≡ self.now.waiting }
    {
        &self.waiting
    }

    // ---- regions

    /// Keeps what the exit from a region asks that an event entered (OpenACC 3.3, section 2.6.5).
    ///
    /// # Errors
    ///
    /// `AllocError` alone.
    pub fn open(&mut self, device: u64, number: u64, entry: &Event) -> Result<(), AllocError>
        ensures ok { OnOk result (IsRegionChanged device number (Some (tasks_undone entry.now)) self.old self.new) }
    {
        let tasks = undone(self.alloc, entry)?;
        self.regions.insert((device, number), tasks)?;
        Ok(())
    }

    /// Drops a region that was left.
    pub fn close(&mut self, device: u64, number: u64)
        ensures closed { IsRegionChanged device number None self.old self.new }
    {
        let _ = self.regions.remove(&(device, number));
    }

    /// What the item of an event asked and did that acts as the nth, from 0 on. The last item of a region's entry is the
    /// first that its exit undoes.
    pub fn act(&self, event: &Event, nth: usize) -> Option<(Task, Did)>
        ensures { result ≡ act_at nth (asked_by event.now self.now) (done_in event.now) }
    {
        Some((self.asked(event, nth)?, done(event, nth)?))
    }

    fn asked(&self, event: &Event, nth: usize) -> Option<Task>
        ensures { result ≡ slice_get (asked_by event.now self.now) nth }
    {
        match event {
            Event::Left { device, number, .. } => {
                let tasks = self.regions.get(&(*device, *number))?;
                from_last(tasks, nth)
            }
            _ => event.task(nth),
        }
    }
}

/// What the exit from a region asks that an event entered, of the first item first.
fn undone(alloc: Global, entry: &Event) -> Result<Vec<Task>, AllocError>
    ensures { IfOk result (λ tasks. tasks.items ≡ tasks_undone entry.now) }
{
    let mut tasks = Vec::new(alloc);
    for place in 0..entry.did().len() {
        if let Some(task) = entry.exit_task(place) {
            tasks.push(task)?;
        }
    }
    Ok(tasks)
}

/// What the item of an event did that acts as the nth, from 0 on.
fn done(event: &Event, nth: usize) -> Option<Did>
    ensures { result ≡ slice_get (done_in event.now) nth }
{
    match event {
        Event::Left { did, .. } => from_last(did.as_slice(), nth),
        _ => event.did().get(nth).copied(),
    }
}

/// An element by its place from the last one on.
fn from_last<T: Copy>(all: &[T], nth: usize) -> Option<T>
    ensures { result ≡ slice_get (reverse all.now) nth }
{
    let place = all.len().checked_sub(nth)?.checked_sub(1)?;
    all.get(place).copied()
}

/// The attached pointers of a block, by rising address.
fn listed(
    alloc: Global,
    block: u64,
    pointers: &BTreeMap<u64, u64>,
) -> Result<Vec<Attachment>, AllocError>
    ensures { IfOk result (λ attached. attached.items ≡ map (counted block) pointers.now.entries) }
{
    let mut attached = Vec::new(alloc);
    for (pointer, count) in pointers {
        attached.push(Attachment {
            block,
            pointer: *pointer,
            count: *count,
        })?;
    }
    Ok(attached)
}

/// Whether an address is one of a section.
pub fn has_address(section: Section, address: u64) -> bool {
    section.start <= address && address - section.start < section.len
}
