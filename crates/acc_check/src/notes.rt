//! What to write where bytes are read that are stale. It is told only where it brings the newest byte to the one that
//! reads, and takes none.

use crate::checks::{Check, rest_of};
use crate::events::behind;
use crate::findings::Kind;
use crate::histories::{Block, Cause, Deed};
use crate::looks::part_of;
use acc_base::{Fault, Found, QUEUE_COUNT, Section, Transfer};
use acc_stale::{Held, Known, Mark, Placed, Run, has_address, pointer_at};
use acc_table::Table;

/// What to write, where that is known.
#[derive(Clone, Copy, PartialEq, Eq)]
pub(crate) enum Note {
    /// It is not known.
    None,
    /// An `update self` before the line, on this device.
    UpdateSelf(u64),
    /// An `update device` before the line, on this device.
    UpdateDevice(u64),
    /// A `wait` before the line.
    Wait {
        /// The device.
        device: u64,
        /// The number of the queue.
        queue: u64,
    },
    /// A `copyout` where the mapping ended.
    Copyout,
    /// A `copyin` where the block was made.
    Copyin,
}

impl Note {
    /// The word before the parenthesis.
    pub fn word(self) -> &'static str {
        match self {
            Note::None => "",
            Note::UpdateSelf(_) => "update self",
            Note::UpdateDevice(_) => "update device",
            Note::Wait { .. } => "wait",
            Note::Copyout => "copyout",
            Note::Copyin => "copyin",
        }
    }

    /// Where it is to be written.
    pub fn place(self) -> &'static str {
        match self {
            Note::None => "",
            Note::UpdateSelf(_) | Note::UpdateDevice(_) | Note::Wait { .. } => "before it",
            Note::Copyout => "where its mapping ends",
            Note::Copyin => "where it is mapped, or update the device",
        }
    }

    /// The device that has to be the current one there, if one has to.
    fn device(self) -> Option<u64> {
        match self {
            Note::UpdateSelf(device) | Note::UpdateDevice(device) | Note::Wait { device, .. } => {
                Some(device)
            }
            Note::None | Note::Copyout | Note::Copyin => None,
        }
    }
}

/// A read of bytes that have one mark.
#[derive(Clone, Copy)]
pub(crate) struct Read {
    /// The block that is read, or `None` where host memory is.
    pub block: Option<Placed>,
    /// The mark.
    pub mark: Mark,
    /// The bytes.
    pub section: Section,
}

impl Read {
    /// What is wrong with it.
    pub fn kind(self) -> Kind {
        match (self.mark, self.block) {
            (Mark::Behind, None) => Kind::StaleHost,
            (Mark::Behind, Some(_)) => Kind::StaleDevice,
            _ => Kind::Unfilled,
        }
    }
}

/// Why bytes are stale, and what to write.
#[derive(Clone, Copy)]
pub(crate) struct Advice {
    /// Why the first byte is so.
    pub cause: Cause,
    /// What to write.
    pub note: Note,
    /// The device that the note has to name: where there are several.
    pub device: Option<u64>,
    /// The bytes for which it is to be written: as many of the first ones as it helps.
    pub section: Section,
}

impl Advice {
    /// Neither is known.
    pub fn none(section: Section) -> Advice {
        Advice {
            cause: Cause::default(),
            note: Note::None,
            device: None,
            section,
        }
    }

    /// Whether the same is to be written at the same line, for bytes of the same block.
    fn is_like(self, other: Advice) -> bool {
        let (own, others) = (self.cause, other.cause);
        self.note == other.note
            && own.missed.map(|done| done.line) == others.missed.map(|done| done.line)
            && own.missed.map(|done| done.block) == others.missed.map(|done| done.block)
            && own.written.map(|done| done.block) == others.written.map(|done| done.block)
    }
}

/// A copy of a byte that is wanted, between host memory and a block.
#[derive(Clone, Copy)]
struct Wanted {
    block: Block,
    /// The address of the byte.
    address: u64,
    /// Whether it goes to host memory.
    out: bool,
}

impl Wanted {
    /// Whether a transfer of the device is one.
    fn is_made_by(self, t: Transfer) -> bool {
        t.block == self.block.number && t.out == self.out && has_address(t.section, self.address)
    }

    /// Whether a transfer of the device copies the byte from another block.
    fn is_spoiled_by(self, t: Transfer) -> bool {
        t.block != self.block.number && t.out && has_address(t.section, self.address)
    }
}

/// What to write, and for which of the bytes.
type Noted = (Note, Section);

/// How many parts of the bytes that are read are looked at for one note at most.
const PARTS: usize = 16;

/// How many copies of a queue are looked at at most. Where more wait, no `wait` is told.
const COPIES: usize = 16;

impl Check {
    /// Why bytes that are read are stale, and what to write.
    pub(crate) fn advice(&self, table: &Table, read: Read) -> Result<Advice, Fault> {
        let mut advice = self.first_advice(table, read)?;
        if table.config().devices() > 1 {
            advice.device = advice.note.device();
        }
        for _ in 0..PARTS {
            let section = behind(read.section, advice.section);
            let is_whole = matches!(advice.note, Note::None | Note::Wait { .. });
            if is_whole || section.len == 0 {
                break;
            }
            let next = self.first_advice(table, Read { section, ..read })?;
            if !next.is_like(advice) {
                break;
            }
            advice.section.len = advice.section.len.saturating_add(next.section.len);
        }
        Ok(advice)
    }

    /// The same of the first of these bytes, to which the same was done.
    fn first_advice(&self, table: &Table, read: Read) -> Result<Advice, Fault> {
        let history = &self.looks.history;
        let block = read.block.map(Block::of);
        let cause = match read.mark {
            Mark::Unfilled => history.cause_unfilled(block, read.section.start),
            _ => history.cause(block, read.section.start),
        };
        let section = history.alike(read.section, cause.since);
        let (note, section) = match (read.block, read.mark) {
            (Some(placed), mark) => self.note_of_device(placed, mark, section),
            (None, Mark::Unfilled) => (Note::None, section),
            (None, _) => self.note_of_host(table, section, cause)?,
        };
        Ok(Advice {
            cause,
            note,
            device: None,
            section,
        })
    }

    // ---- what brings the newer bytes

    /// What to write where the host reads bytes that are behind for this cause. What wrote the newer ones has to have them
    /// still, or to have had them when its mapping ended.
    fn note_of_host(&self, table: &Table, section: Section, cause: Cause) -> Result<Noted, Fault> {
        let none = (Note::None, section);
        let missed = cause.missed.map(|done| done.deed);
        let Some(held) = self.block_written(cause) else {
            return Ok(none);
        };
        let Some(section) = self.beside_pointers(held, section)? else {
            return Ok(none);
        };
        match missed {
            Some(Deed::CopiedIn | Deed::CopiedOut) => return Ok(none),
            Some(Deed::Ended) => return Ok((Note::Copyout, section)),
            _ => {}
        }
        let stale = self.tracker.known.stale_device(held.placed, section);
        Ok(match before_run(section, stale) {
            Some(section) => (self.note_of_block(table, held.placed, section), section),
            None => none,
        })
    }

    /// What to write where the host reads bytes that a block has newer.
    fn note_of_block(&self, table: &Table, placed: Placed, section: Section) -> Note {
        let device = placed.device;
        let wanted = Wanted {
            block: Block::of(placed),
            address: section.start,
            out: true,
        };
        if let Some(queue) = self.queue_with(wanted) {
            Note::Wait { device, queue }
        } else if is_mapped(table, placed, section) {
            Note::UpdateSelf(device)
        } else {
            Note::None
        }
    }

    /// What to write where a kernel reads bytes of a block that have a mark. The host has to have the newest.
    fn note_of_device(&self, placed: Placed, mark: Mark, section: Section) -> Noted {
        let Some(section) = before_run(section, self.tracker.known.stale_host(section)) else {
            return (Note::None, section);
        };
        let (device, address) = (placed.device, section.start);
        let wanted = Wanted {
            block: Block::of(placed),
            address,
            out: false,
        };
        let history = &self.looks.history;
        let note = match (self.queue_with(wanted), mark) {
            (Some(queue), _) => Note::Wait { device, queue },
            (None, Mark::Unfilled) if history.is_kept_since_created(wanted.block, address) => {
                Note::Copyin
            }
            (None, _) => Note::UpdateDevice(device),
        };
        (note, section)
    }

    /// The block whose kernel wrote the newer byte of a cause.
    fn block_written(&self, cause: Cause) -> Option<Held> {
        let written = cause.written?;
        match written.deed {
            Deed::KernelWrote => self.held(written.block),
            _ => None,
        }
    }

    /// Where a block lies, and what was mapped to it.
    fn held(&self, block: Block) -> Option<Held> {
        self.tracker.account.block(block.device, block.number)
    }

    /// The first of these bytes that a copy of a block takes: `None` where the first is one of an attached pointer.
    fn beside_pointers(&self, held: Held, section: Section) -> Result<Option<Section>, Fault> {
        let (device, block) = (held.placed.device, held.placed.block);
        let mut len = section.len;
        for attached in self.tracker.account.attached(device, block)?.iter() {
            let pointer = pointer_at(attached.pointer);
            if has_address(pointer, section.start) {
                return Ok(None);
            }
            if pointer.start > section.start {
                len = len.min(pointer.start - section.start);
            }
        }
        Ok(Some(Section { len, ..section }))
    }

    // ---- queues

    /// The queue that can be waited for, so that a copy is made that waits there.
    fn queue_with(&self, wanted: Wanted) -> Option<u64> {
        for queue in 0..QUEUE_COUNT {
            if self.is_waiting(wanted, queue) && self.can_wait(wanted, queue) {
                return Some(queue);
            }
        }
        None
    }

    /// Whether a copy waits in a queue.
    fn is_waiting(&self, wanted: Wanted, queue: u64) -> bool {
        let mut waiting = self.tracker.account.waiting().iter();
        waiting.any(|w| w.device == wanted.block.device
            && w.queue == queue
            && wanted.is_made_by(w.transfer))
    }

    /// Whether no copy that waits in a queue would take newer bytes, or bring the wanted byte from another block.
    fn can_wait(&self, wanted: Wanted, queue: u64) -> bool {
        let device = wanted.block.device;
        let mut left = COPIES;
        for waiting in self.tracker.account.waiting().iter() {
            if waiting.device != device || waiting.queue != queue {
                continue;
            }
            let t = waiting.transfer;
            if left == 0 || wanted.is_spoiled_by(t) || self.takes_newer(device, t) {
                return false;
            }
            left = left.saturating_sub(1);
        }
        true
    }

    /// Whether a copy would take newer bytes. Of a block whose mapping has ended, and of another device, no mark says that
    /// its bytes are older.
    fn takes_newer(&self, device: u64, t: Transfer) -> bool {
        let block = Block {
            device,
            number: t.block,
        };
        let Some(held) = self.held(block) else {
            return true;
        };
        let (known, own) = (&self.tracker.known, Some(held.placed));
        if !t.out {
            return has_newer(known, None, own, t.section);
        }
        has_newer(known, own, None, t.section) || self.looks.history.is_outdated(block, t.section)
    }
}

/// Whether a section is mapped to a block.
fn is_mapped(table: &Table, placed: Placed, section: Section) -> bool {
    match table.find(placed.device, section) {
        Found::Inside { block, .. } => block == placed.block,
        _ => false,
    }
}

/// What of a section lies before a run of it; `None` where nothing does.
fn before_run(section: Section, run: Option<Run>) -> Option<Section> {
    let len = run.map_or(section.len, |run| run.at as u64);
    if len == 0 {
        None
    } else {
        Some(Section { len, ..section })
    }
}

/// The first bytes of a section that are not new, as a block has them, or host memory.
pub(crate) fn stale_in(known: &Known, block: Option<Placed>, section: Section) -> Option<Run> {
    match block {
        Some(placed) => known.stale_device(placed, section),
        None => known.stale_host(section),
    }
}

/// Whether a byte of a section is new over which a memory would copy one that is not.
fn has_newer(known: &Known, from: Option<Placed>, over: Option<Placed>, section: Section) -> bool {
    let mut rest = section;
    for _ in 0..section.len {
        let Some(run) = stale_in(known, from, rest) else {
            return false;
        };
        if has_new(known, over, part_of(rest, run)) {
            return true;
        }
        rest = rest_of(rest, run);
    }
    false
}

/// Whether a byte of a section is new, as a block has it, or host memory.
fn has_new(known: &Known, block: Option<Placed>, section: Section) -> bool {
    let mut rest = section;
    for _ in 0..section.len {
        match stale_in(known, block, rest) {
            Some(run) if run.at == 0 => rest = rest_of(rest, run),
            _ => break,
        }
    }
    rest.len > 0
}
