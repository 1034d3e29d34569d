//! What is looked at right before the step of an item: newer bytes that it copies over or drops. What was found, and the
//! history of the lines.

ghost use Rattle.std.specs.Prelude.{◌≡◌, IfErr};
ghost use Rattle.acc_base.specs.declared.faults.Fault.TheVariants.{Memory};

use crate::events::behind;
use crate::findings::{Finding, Kind};
use crate::histories::{Block, Deed, Done, History};
use crate::notes::Advice;
use acc_base::{Aim, Fault, Section, Step, Task, Transfer};
use acc_stale::{Held, ItemDone, Known, Mark, Placed, Run, Watch, has_address, pointer_at};
use std::alloc::Global;

/// What a check looks at, and what it found.
#[derive(Drop)]
pub(crate) struct Looks {
    /// Whether that is told too which may be meant.
    all: bool,
    /// The number of the line that ran.
    pub line: u64,
    /// What the lines did to bytes.
    pub history: History,
    /// What was found in the line.
    pub findings: Vec<Finding>,
    /// Mappings that ended while the device had newer bytes, which nobody read so far.
    pub drops: Vec<Held>,
    /// The mapping that the next step ends.
    ends: Option<Held>,
    /// The block of the last item that had one.
    block: Block,
}

impl Looks {
    /// Nothing was found.
    pub fn new(alloc: Global, all: bool) -> Looks {
        Looks {
            all,
            line: 0,
            history: History::new(alloc),
            findings: Vec::new(alloc),
            drops: Vec::new(alloc),
            ends: None,
            block: Block::default(),
        }
    }

    // ---- the history

    /// Keeps what this line did to bytes, of a block or of host memory.
    pub fn note(&mut self, block: Block, deed: Deed, section: Section) -> Result<(), Fault>
        ensures only { IfErr result (λ fault. fault ≡ Memory) }
    {
        let line = self.line;
        self.history.add(Done {
            line,
            deed,
            block,
            section,
        })?;
        Ok(())
    }

    /// Keeps that a mapping ended, of the bytes that its step does not copy.
    fn note_end(&mut self, task: Task, step: Step, section: Section) -> Result<(), Fault>
        ensures only { IfErr result (λ fault. fault ≡ Memory) }
    {
        let block = self.block;
        if !task.copies(step) {
            return self.note(block, Deed::Ended, section);
        }
        let copied = task.section();
        let before = Section {
            start: section.start,
            len: copied.start.saturating_sub(section.start),
        };
        self.note(block, Deed::Ended, before)?;
        self.note(block, Deed::Ended, behind(section, copied))
    }

    /// Keeps that a step copied nothing where its clause could have: that a mapping goes on, or has no bytes yet.
    fn note_kept(&mut self, task: Task, step: Step) -> Result<(), Fault>
        ensures only { IfErr result (λ fault. fault ≡ Memory) }
    {
        let block = self.block;
        match step {
            Step::Born { .. } if !task.gets_bytes() => {
                self.note(block, Deed::Created, task.section())
            }
            Step::Dropped { ended: false, .. } if task.gives_bytes() => {
                self.note(block, Deed::KeptOut, task.section())
            }
            Step::Counted { .. } if task.gets_bytes() => {
                self.note(block, Deed::KeptIn, task.section())
            }
            _ => Ok(()),
        }
    }

    /// Keeps that the bytes of a pointer on a device became others: those of its target, or of the host's pointer.
    fn note_aim(&mut self, item: &ItemDone) -> Result<(), Fault>
        ensures only { IfErr result (λ fault. fault ≡ Memory) }
    {
        let (Some(holder), Some(pointer)) = (item.holder, pointer_written(item)) else {
            return Ok(());
        };
        let block = Block::of(holder.placed);
        self.note(block, Deed::CopiedIn, pointer_at(pointer))
    }

    /// Keeps that bytes of a block were copied, or that their copy was put into a queue.
    fn note_copy(&mut self, block: Block, t: Transfer, queue: Option<u64>) -> Result<(), Fault>
        ensures only { IfErr result (λ fault. fault ≡ Memory) }
    {
        let deed = match (queue, t.out) {
            (None, true) => Deed::CopiedOut,
            (None, false) => Deed::CopiedIn,
            (Some(_), true) => Deed::QueuedOut,
            (Some(_), false) => Deed::QueuedIn,
        };
        self.note(block, deed, t.section)
    }

    // ---- what may be meant

    /// Finds what a copy is about to overwrite that is newer.
    pub fn find_overwritten(
        &mut self,
        known: &Known,
        placed: Placed,
        t: Transfer,
    ) -> Result<(), Fault>
        ensures only { IfErr result (λ fault. fault ≡ Memory) }
    {
        if !self.all {
            return Ok(());
        }
        let (from, over) = if t.out {
            let from = known.stale_device(placed, t.section);
            (from, known.stale_host(t.section))
        } else {
            let from = known.stale_host(t.section);
            (from, known.stale_device(placed, t.section))
        };
        match from {
            Some(run) if run.mark == Mark::Behind && !is_stale_at(over, run) => {
                let section = part_of(t.section, run);
                self.findings.push(Finding {
                    kind: Kind::Overwritten,
                    section,
                    nth: 0,
                    advice: Advice::none(section),
                })?;
            }
            _ => {}
        }
        Ok(())
    }

    /// Keeps a mapping that ends, unless the device has older bytes than the host.
    fn note_drop(&mut self, known: &Known, held: Held) -> Result<(), Fault>
        ensures only { IfErr result (λ fault. fault ≡ Memory) }
    {
        if self.all && !is_behind(known.stale_device(held.placed, held.range.section)) {
            self.drops.push(held)?;
        }
        Ok(())
    }

    /// Leaves out mappings that ended of which the host is not behind: their bytes were copied, or written again.
    pub fn sift_drops(&mut self, known: &Known) {
        self.drops
            .retain(|held| is_behind(known.stale_host(held.range.section)));
    }

    /// Leaves out mappings that ended, since the host reads their bytes: that is told.
    pub fn forget_drops(&mut self, section: Section) {
        self.drops
            .retain(|held| !has_address(held.range.section, section.start));
    }
}

impl Watch for Looks {
    fn before_item(&mut self, device: u64, step: Step, ends: Option<Held>) -> Result<(), Fault> {
        let line = self.line;
        self.ends = ends.map(|held| Held { line, ..held });
        if let Some(number) = number_of(step) {
            self.block = Block { device, number };
        }
        Ok(())
    }

    fn before_step(&mut self, known: &Known, item: &ItemDone) -> Result<(), Fault> {
        self.note_aim(item)?;
        match self.ends {
            Some(held) => self.note_end(item.task, item.did.step, held.range.section)?,
            None => self.note_kept(item.task, item.did.step)?,
        }
        if !self.all {
            return Ok(());
        }
        if let Some(held) = self.ends {
            self.note_drop(known, held)?;
        }
        match item.copied() {
            Some((placed, t)) => self.find_overwritten(known, placed, t),
            None => Ok(()),
        }
    }

    fn after_item(&mut self, _device: u64, t: Transfer, queue: Option<u64>) -> Result<(), Fault> {
        self.note_copy(self.block, t, queue)
    }

    fn before_copy(&mut self, known: &Known, block: Placed, t: Transfer) -> Result<(), Fault> {
        self.find_overwritten(known, block, t)?;
        self.note_copy(Block::of(block), t, None)
    }
}

/// The pointer whose bytes on the device an item wrote: it was attached anew, or detached for the last time.
fn pointer_written(item: &ItemDone) -> Option<u64> {
    let count = item.holder.map_or(0, |holder| holder.count);
    match item.did.aim {
        Aim::New { pointer, .. } | Aim::Cleared { pointer, .. } => Some(pointer),
        Aim::Less { pointer, .. } if count == 1 => Some(pointer),
        _ => None,
    }
}

/// The number of the block of a step, if it has one.
fn number_of(step: Step) -> Option<u64> {
    match step {
        Step::Nothing => None,
        Step::Counted { block }
        | Step::Born { block, .. }
        | Step::Dropped { block, .. }
        | Step::Moved { block } => Some(block),
    }
}

/// Whether the first bytes that are not new are behind.
fn is_behind(run: Option<Run>) -> bool {
    run.map_or(false, |run| run.mark == Mark::Behind)
}

/// Whether bytes that are not new begin at or before those of another run, and reach it.
fn is_stale_at(over: Option<Run>, run: Run) -> bool {
    over.map_or(false, |over| {
        over.at <= run.at && run.at < over.at.saturating_add(over.len)
    })
}

/// The addresses of a run in a section.
pub(crate) fn part_of(section: Section, run: Run) -> Section {
    Section {
        start: section.start.saturating_add(run.at as u64),
        len: run.len as u64,
    }
}
