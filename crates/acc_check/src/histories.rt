//! What lines did to bytes, in their order: which line made a byte stale, and which could have copied it.

ghost use Rattle.std.specs.Prelude.{◌≤◌, length};

use crate::events::behind;
use acc_base::Section;
use acc_stale::{Placed, has_address};
use std::alloc::{AllocError, Global};

/// How many runs of bytes that one kernel wrote are kept apart.
const RUNS: u64 = 64;

/// How many bytes are compared at once where they are not alike.
const PART: usize = 64;

/// What was done to bytes.
#[derive(Clone, Copy, Debug, PartialEq, Eq)]
pub(crate) enum Deed {
    /// The host wrote them.
    HostWrote,
    /// A kernel wrote them on a device.
    KernelWrote,
    /// They were copied to host memory.
    CopiedOut,
    /// They were copied to a device.
    CopiedIn,
    /// They were mapped to a new block, and not copied.
    Created,
    /// Their mapping ended, and they were not copied.
    Ended,
    /// An end that copies to host memory copied nothing, since they stay mapped.
    KeptOut,
    /// An entry that copies to a device copied nothing, since they were mapped before.
    KeptIn,
    /// A copy to host memory was put into a queue.
    QueuedOut,
    /// A copy to a device was put into a queue.
    QueuedIn,
}

impl Deed {
    /// What a note says of it.
    pub fn text(self) -> &'static str {
        match self {
            Deed::HostWrote => "written by the host here",
            Deed::KernelWrote => "written on the device here",
            Deed::CopiedOut | Deed::CopiedIn => "overwritten here by older bytes",
            Deed::Created => "mapped here with no copy",
            Deed::Ended => "its mapping ended here with no copy",
            Deed::KeptOut => "not copied here, since it stays mapped",
            Deed::KeptIn => "not copied here, since it was mapped before",
            Deed::QueuedOut | Deed::QueuedIn => "its copy waits in a queue since here",
        }
    }

    /// Whether it could have copied to host memory, or to a device, and did not.
    fn missed(self, out: bool) -> bool {
        match self {
            Deed::KeptOut | Deed::QueuedOut => out,
            Deed::KeptIn | Deed::QueuedIn => !out,
            _ => false,
        }
    }

    /// Whether it left no newer byte in the memory from which such a copy had to come.
    fn lost(self, out: bool) -> bool {
        match self {
            Deed::Ended | Deed::CopiedIn => out,
            Deed::CopiedOut => !out,
            _ => false,
        }
    }
}

/// A block of a device, by the numbers of both.
#[derive(Clone, Copy, Default, PartialEq, Eq)]
pub(crate) struct Block {
    /// The number of the device.
    pub device: u64,
    /// The number of the block.
    pub number: u64,
}

impl Block {
    /// The block that lies there.
    pub fn of(placed: Placed) -> Block {
        Block {
            device: placed.device,
            number: placed.block,
        }
    }
}

/// What a line did to bytes.
#[derive(Clone, Copy)]
pub(crate) struct Done {
    /// The number of the line.
    pub line: u64,
    /// What it did.
    pub deed: Deed,
    /// The block that has them; any where the host wrote them.
    pub block: Block,
    /// The bytes.
    pub section: Section,
}

/// Why a byte is stale, as far as lines are known.
#[derive(Clone, Copy, Default)]
pub(crate) struct Cause {
    /// What wrote the newer byte.
    pub written: Option<Done>,
    /// What came behind that, and lost it, or could have copied it.
    pub missed: Option<Done>,
    /// The place in the history from which on it is told. No deed before that matters.
    pub since: usize,
}

impl Cause {
    /// None is known, as far as back to a place.
    fn unknown(since: usize) -> Cause {
        Cause {
            since,
            ..Cause::default()
        }
    }
}

/// How many parts of a section are looked at at most.
const PARTS: usize = 16;

/// How many deeds are looked at at most for what gave a block a byte.
const DEEDS: usize = 1_024;

/// What all lines so far did, in their order.
#[derive(Drop)]
pub(crate) struct History {
    all: Vec<Done>,
}

impl History {
    /// The history of no line.
    pub fn new(alloc: Global) -> History {
        History {
            all: Vec::new(alloc),
        }
    }

    /// Keeps what a line did.
    pub fn add(&mut self, done: Done) -> Result<(), AllocError> {
        if done.section.len > 0 {
            self.all.push(done)?;
        }
        Ok(())
    }

    /// Keeps what a kernel did, that found bytes in a section of a device and left others: only where they differ it
    /// wrote.
    pub fn add_kernel(
        &mut self,
        done: Done,
        before: &[u8],
        after: &[u8],
    ) -> Result<(), AllocError> {
        if !has_equal(before, after) {
            return self.add(done);
        }
        let mut runs = Runs {
            done,
            run: Run { start: 0, len: 0 },
            left: RUNS,
        };
        let parts = before.chunks(PART).zip(after.chunks(PART));
        for (nth, (b, a)) in parts.enumerate() {
            let at = (nth as u64).saturating_mul(PART as u64);
            if b == a {
                self.close(&mut runs)?;
            } else if has_equal(b, a) {
                self.add_part(&mut runs, at, b, a)?;
            } else {
                runs.run = runs.run.with(at, b.len() as u64);
            }
        }
        self.add(runs.run.of(done))
    }

    /// Keeps the runs of a part that begins at a place, byte by byte.
    fn add_part(
        &mut self,
        runs: &mut Runs,
        at: u64,
        before: &[u8],
        after: &[u8],
    ) -> Result<(), AllocError> {
        for (nth, (b, a)) in before.iter().zip(after).enumerate() {
            if b == a {
                self.close(runs)?;
            } else {
                runs.run = runs.run.with(at.saturating_add(nth as u64), 1);
            }
        }
        Ok(())
    }

    /// Keeps a run that ends, if it is not one of too many: then it goes on.
    fn close(&mut self, runs: &mut Runs) -> Result<(), AllocError> {
        if runs.run.len > 0 && runs.left > 0 {
            self.add(runs.run.of(runs.done))?;
            runs.run = Run { start: 0, len: 0 };
            runs.left -= 1;
        }
        Ok(())
    }

    /// Why a byte of host memory is stale, or of a block. The older byte is followed back to the memory that had it when
    /// the newer one was written elsewhere.
    pub fn cause(&self, block: Option<Block>, address: u64) -> Cause {
        let mut memory = block;
        let mut end = self.all.len();
        for at in (0..self.all.len()).rev() {
            let Some(done) = self.all.get(at) else {
                break;
            };
            if !has_address(done.section, address) {
                continue;
            }
            let is_here = memory == Some(done.block);
            match (done.deed, memory) {
                (Deed::KernelWrote, None) | (Deed::HostWrote, Some(_)) => {
                    return self.cause_between(at, end, memory, address);
                }
                (Deed::KernelWrote, Some(_)) if is_here => return Cause::unknown(at),
                (Deed::HostWrote, None) => return Cause::unknown(at),
                (Deed::CopiedOut, None) => {
                    memory = Some(done.block);
                    end = at.saturating_add(1);
                }
                (Deed::CopiedIn, Some(_)) if is_here => {
                    memory = None;
                    end = at.saturating_add(1);
                }
                _ => {}
            }
        }
        Cause::default()
    }

    /// The cause where the deed at a place wrote the newer byte, and a memory kept the older one up to the place `end`. If
    /// it was copied on there, only what lost the newer byte before that is told.
    fn cause_between(&self, at: usize, end: usize, memory: Option<Block>, address: u64) -> Cause {
        let deeds = self.all.get(at..end).unwrap_or(&[]);
        let is_copied = end < self.all.len();
        Cause {
            written: deeds.first().copied(),
            missed: missed_in(deeds, memory, address).filter(|done| !is_copied
                || done.deed.lost(memory.is_none())),
            since: at,
        }
    }

    /// The first bytes of a section to which the same was done from a place on.
    pub fn alike(&self, section: Section, since: usize) -> Section {
        let mut len = section.len;
        for done in self.all.get(since..).unwrap_or(&[]) {
            len = len.min(count_alike(done.section, section.start));
        }
        Section { len, ..section }
    }

    /// Whether the host has had the same byte since a block of it was made with no copy.
    pub fn is_kept_since_created(&self, block: Block, address: u64) -> bool {
        for done in self.all.iter().rev() {
            if !has_address(done.section, address) {
                continue;
            }
            match done.deed {
                Deed::Created if done.block == block => return true,
                Deed::HostWrote | Deed::KernelWrote | Deed::CopiedOut => return false,
                _ => {}
            }
        }
        false
    }

    /// Whether a byte of a section was written elsewhere since a block got its own, or may have been: not all is looked
    /// at.
    pub fn is_outdated(&self, block: Block, section: Section) -> bool {
        let mut rest = section;
        for _ in 0..PARTS {
            if rest.len == 0 {
                return false;
            }
            let Some(since) = self.own_since(block, rest.start) else {
                return true;
            };
            rest = behind(rest, self.alike(rest, since));
        }
        rest.len > 0
    }

    /// The place of the deed that gave a block its byte; `None` where the byte was written elsewhere since, or no deed of
    /// the last ones did.
    fn own_since(&self, block: Block, address: u64) -> Option<usize> {
        for (at, done) in self.all.iter().enumerate().rev().take(DEEDS) {
            if !has_address(done.section, address) {
                continue;
            }
            let is_here = done.block == block;
            match done.deed {
                Deed::KernelWrote | Deed::CopiedIn | Deed::Created if is_here => return Some(at),
                Deed::KernelWrote | Deed::HostWrote => return None,
                _ => {}
            }
        }
        (self.all.len() <= DEEDS).then_some(0)
    }

    /// Why nothing ever filled a byte of host memory, or of a block: what made its block, or put its copy into a queue.
    pub fn cause_unfilled(&self, block: Option<Block>, address: u64) -> Cause {
        let mut memory = block;
        let mut missed = None;
        let mut since = 0;
        for (at, done) in self.all.iter().enumerate().rev() {
            if !has_address(done.section, address) {
                continue;
            }
            let is_here = memory == Some(done.block);
            match done.deed {
                Deed::CopiedOut if memory.is_none() => memory = Some(done.block),
                Deed::CopiedIn if is_here => memory = None,
                Deed::QueuedIn if is_here && missed.is_none() => missed = Some(*done),
                Deed::Created if is_here => {
                    missed = missed.or(Some(*done));
                    since = at;
                    break;
                }
                _ => {}
            }
        }
        Cause {
            written: None,
            missed,
            since,
        }
    }
}

/// How many addresses, from one on, all lie in a section or all outside of it.
fn count_alike(section: Section, address: u64) -> u64 {
    let end = section.start.saturating_add(section.len);
    if address < section.start {
        section.start - address
    } else if address < end {
        end - address
    } else {
        u64::MAX
    }
}

/// What left a memory without a newer byte, of the deeds from the one on that wrote it. That is the first that lost it, or
/// else the last that could have copied it. While a copy waits, the end of its mapping loses nothing.
fn missed_in(deeds: &[Done], memory: Option<Block>, address: u64) -> Option<Done> {
    let written = deeds.first()?;
    let block = memory.unwrap_or(written.block);
    let out = memory.is_none();
    let mut missed: Option<Done> = None;
    let mut waits = false;
    for done in deeds {
        if done.block != block || !has_address(done.section, address) {
            continue;
        }
        match done.deed {
            Deed::Ended if waits => {}
            deed if deed.lost(out) => return Some(*done),
            deed if deed.missed(out) => {
                missed = Some(*done);
                waits |= deed == Deed::QueuedOut;
            }
            _ => {}
        }
    }
    missed
}

/// The runs of bytes that a kernel wrote, while they are looked for.
#[derive(Clone, Copy)]
struct Runs {
    /// What the kernel did.
    done: Done,
    /// The run that goes on, of no byte where there is none.
    run: Run,
    /// How many more are kept apart.
    left: u64,
}

/// Bytes that follow one another in a section.
#[derive(Clone, Copy)]
struct Run {
    start: u64,
    len: u64,
}

impl Run {
    /// With so many bytes from a place on too, and those before it.
    fn with(self, at: u64, count: u64) -> Run {
        let start = if self.len == 0 { at } else { self.start };
        let len = at.saturating_sub(start).saturating_add(count);
        Run { start, len }
    }

    /// What was done, of these bytes alone.
    fn of(self, done: Done) -> Done {
        let section = Section {
            start: done.section.start.saturating_add(self.start),
            len: self.len,
        };
        Done { section, ..done }
    }
}

/// Whether two lists of bytes have one alike at the same place.
fn has_equal(before: &[u8], after: &[u8]) -> bool {
    let count = before.len().min(after.len());
    has_equal_at_once(&before[..count], &after[..count])
}

/// The same of lists that are alike long. The loop has no branch, so that the compiler can take many places at once.
fn has_equal_at_once(before: &[u8], after: &[u8]) -> bool
    requires { length before.now ≤ length after.now }
{
    let mut found = 0;
    for (place, b) in before.iter().enumerate() {
        found |= u8::from(*b == after[place]);
    }
    found != 0
}
