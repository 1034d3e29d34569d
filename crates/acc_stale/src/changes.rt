//! What writes and copies make of marks, each by its place in a section.

ghost use Rattle.std.specs.Prelude.{◌≡◌, ℕ, ◌+◌, ◌<◌, ◌≤◌, min, length, Some, OnOk, OnErr, IfErr};
ghost use Rattle.std.specs.Prelude.{◌&&◌, ◌==◌};
ghost use Rattle.acc_base.specs.declared.faults.Fault.TheVariants.{Memory};
ghost use Rattle.acc_base.specs.Attachments.{is_skipped, pointer_at};
ghost use Rattle.acc_base.specs.Section.{covers};
ghost use Rattle.acc_stale.specs.declared.marks.Mark.TheVariants.{New};
ghost use Rattle.acc_stale.specs.Marks.{Change as Changes, each, beside_pointers, filled, copied, outdated, outrun, rewritten, against, IsKept};
ghost use Rattle.acc_stale.specs.MarkLaws.{outdated_past, outrun_all_past, outrun_past, rewritten_past};

use crate::marks::{Mark, clipped};
use acc_base::{Attachment, Fault};
use std::alloc::Global;

/// What becomes of each mark of a section.
pub(crate) trait Change {
    ghost change: { Self → Changes };

    /// Changes the marks of a section, each by its place.
    fn apply(&self, section: &mut [Mark])
        ensures { section.new ≡ each (change self.now) section.old };
}

/// All get one mark.
#[derive(Clone, Copy)]
pub(crate) struct Filled(pub Mark);

impl Change for Filled {
    ghost change = { λ f. filled f.0 };

    fn apply(&self, section: &mut [Mark]) {
        for mark in section.iter_mut() {
            *mark = self.0;
        }
    }
}

/// Each gets the mark of the byte that is copied.
#[derive(Clone, Copy)]
pub(crate) struct Copied<'a> {
    /// The marks of the memory that is read.
    pub from: &'a [Mark],
    /// The offset of the first byte that is read.
    pub at: u128,
}

impl Change for Copied<'_> {
    ghost change = { λ c. copied c.from.now c.at };

    fn apply(&self, section: &mut [Mark]) {
        let (from, count) = clipped(self.from.len(), self.at, section.len() as u64);
        section[..count].copy_from_slice(&self.from[from..from + count]);
    }
}

// ---- changes by bytes that are compared

/// What becomes of each mark of a section, by bytes at its place. The loop over them has no branch, so that the compiler
/// can take many places at once.
pub(crate) trait Compared {
    ghost use Rattle.acc_stale.specs.declared.marks.Mark.{Mark};

    ghost compared: { Self → Changes };

    ghost size: { Self → ℕ };

    /// How many bytes there are to compare. Marks behind them stay.
    fn len(&self) -> usize
        ensures { result ≡ size self.now };

    /// What becomes of the mark at a place of the section.
    fn mark(&self, place: usize, mark: Mark) -> Mark
        requires { place < size self.now }
        ensures { result ≡ compared self.now place mark };

    ghost stays: { (c : Self) (place : ℕ) (mark : Mark) → Self.size c ≤ place → Self.compared c place mark ≡ mark };
}

/// Changes each mark of a section, as far as there are bytes to compare.
fn change_each<B: Compared>(section: &mut [Mark], bytes: &B)
    ensures { section.new ≡ each (B.compared bytes.now) section.old }
{
    let count = section.len().min(bytes.len());
    change_all(&mut section[..count], bytes);
}

/// Changes each mark of a section.
fn change_all<B: Compared>(section: &mut [Mark], bytes: &B)
    requires { length section.old ≤ B.size bytes.now }
    ensures { section.new ≡ each (B.compared bytes.now) section.old }
{
    for (place, mark) in section.iter_mut().enumerate() {
        *mark = bytes.mark(place, *mark);
    }
}

/// The host wrote what a device has.
#[derive(Clone, Copy)]
pub(crate) struct Outdated<'a> {
    /// The bytes that the host wrote.
    pub written: &'a [u8],
    /// The bytes that the device has.
    pub own: &'a [u8],
}

impl Change for Outdated<'_> {
    ghost change = { λ c. outdated c.written.now c.own.now };

    fn apply(&self, section: &mut [Mark]) {
        change_each(section, self);
    }
}

impl Compared for Outdated<'_> {
    ghost compared = { λ c. outdated c.written.now c.own.now };

    ghost size = { λ c. min (length c.written.now) (length c.own.now) };

    fn len(&self) -> usize {
        self.written.len().min(self.own.len())
    }

    fn mark(&self, place: usize, mark: Mark) -> Mark {
        if mark.is(Mark::Unfilled) {
            mark
        } else {
            against(self.written[place], self.own[place])
        }
    }

    ghost stays = { λ c place mark past. outdated_past c.written.now c.own.now place mark past };
}

/// A kernel left other bytes on the device: these are new.
#[derive(Clone, Copy)]
pub(crate) struct Rewritten<'a> {
    /// The bytes as they were.
    pub before: &'a [u8],
    /// The bytes as the kernel left them.
    pub after: &'a [u8],
}

impl Change for Rewritten<'_> {
    ghost change = { λ c. rewritten c.before.now c.after.now (filled New) };

    fn apply(&self, section: &mut [Mark]) {
        change_each(section, self);
    }
}

impl Compared for Rewritten<'_> {
    ghost compared = { λ c. rewritten c.before.now c.after.now (filled New) };

    ghost size = { λ c. min (length c.before.now) (length c.after.now) };

    fn len(&self) -> usize {
        self.before.len().min(self.after.len())
    }

    fn mark(&self, place: usize, mark: Mark) -> Mark {
        if self.before[place] == self.after[place] {
            mark
        } else {
            Mark::New
        }
    }

    ghost stays = { λ c place mark past. rewritten_past c.before.now c.after.now place mark past };
}

/// A kernel left other bytes on the device than the host has: the host's are behind.
#[derive(Clone, Copy)]
pub(crate) struct Outrun<'a> {
    /// The bytes as they were.
    pub before: &'a [u8],
    /// The bytes as the kernel left them.
    pub after: &'a [u8],
    /// The bytes that the host has.
    pub own: &'a [u8],
}

impl Change for Outrun<'_> {
    ghost change = { λ c. rewritten c.before.now c.after.now (outrun c.after.now c.own.now) };

    fn apply(&self, section: &mut [Mark]) {
        change_each(section, self);
    }
}

impl Compared for Outrun<'_> {
    ghost compared = { λ c. rewritten c.before.now c.after.now (outrun c.after.now c.own.now) };

    ghost size = { λ c. min (min (length c.before.now) (length c.after.now)) (length c.own.now) };

    fn len(&self) -> usize {
        self.before.len().min(self.after.len()).min(self.own.len())
    }

    fn mark(&self, place: usize, mark: Mark) -> Mark {
        let written = against(self.after[place], self.own[place]);
        if self.before[place] == self.after[place] {
            mark
        } else {
            written
        }
    }

    ghost stays = { λ c place mark past. outrun_past c.before.now c.after.now c.own.now place mark past };
}

/// A kernel left each byte of the device another one: those of the host are behind that are not the same.
#[derive(Clone, Copy)]
pub(crate) struct Overrun<'a> {
    /// The bytes as the kernel left them.
    pub after: &'a [u8],
    /// The bytes that the host has.
    pub own: &'a [u8],
}

impl Change for Overrun<'_> {
    ghost change = { λ c. outrun c.after.now c.own.now };

    fn apply(&self, section: &mut [Mark]) {
        change_each(section, self);
    }
}

impl Compared for Overrun<'_> {
    ghost compared = { λ c. outrun c.after.now c.own.now };

    ghost size = { λ c. min (length c.after.now) (length c.own.now) };

    fn len(&self) -> usize {
        self.after.len().min(self.own.len())
    }

    fn mark(&self, place: usize, _mark: Mark) -> Mark {
        against(self.after[place], self.own[place])
    }

    ghost stays = { λ c place mark past. outrun_all_past c.after.now c.own.now place mark past };
}

/// The mark of a byte where the other memory was written.
fn against(written: u8, own: u8) -> Mark
    ensures { (mark : _) → result ≡ against (Some written) (Some own) mark }
{
    if written == own {
        Mark::New
    } else {
        Mark::Behind
    }
}

// ---- beside attached pointers

/// The pointers of a block whose bytes a change leaves out.
#[derive(Clone, Copy)]
pub(crate) struct Pointers<'a> {
    /// The number of the block.
    pub block: u64,
    /// Their attachment counters; those of other blocks may stand beside them.
    pub attached: &'a [Attachment],
    /// The host address at which the section begins.
    pub start: u64,
}

/// Changes the marks of a section, but those of attached pointers.
///
/// # Errors
///
/// [`Fault::Memory`] alone. Then the marks are as they were.
pub(crate) fn change_beside<C: Change>(
    alloc: Global,
    section: &mut [Mark],
    pointers: Pointers<'_>,
    change: &C,
) -> Result<(), Fault>
    ensures ok { OnOk result (section.new ≡ each (beside_pointers pointers.entry.block pointers.entry.attached.now pointers.entry.start (C.change change.now)) section.old) }
    ensures err { OnErr result (section.new ≡ section.old) }
    ensures only { IfErr result (λ fault. fault ≡ Memory) }
{
    if pointers.attached.is_empty() {
        change.apply(section);
        return Ok(());
    }
    let kept = Vec::from_slice(alloc, section)?;
    change.apply(section);
    put_back(section, &kept, pointers);
    Ok(())
}

/// Puts the marks of attached pointers back, as they were.
fn put_back(section: &mut [Mark], kept: &[Mark], pointers: Pointers<'_>)
    requires { length kept.now ≡ length section.old }
    ensures { IsKept (λ place. is_skipped pointers.entry.block pointers.entry.attached.now (pointers.entry.start + place)) kept.now section.old section.new }
{
    for a in pointers.attached {
        if a.block == pointers.block {
            put_back_at(section, kept, pointers.start, a.pointer);
        }
    }
}

/// Puts the marks of one pointer back.
fn put_back_at(section: &mut [Mark], kept: &[Mark], start: u64, pointer: u64)
    requires { length kept.now ≡ length section.old }
    ensures { IsKept (λ place. covers (pointer_at pointer) (start + place)) kept.now section.old section.new }
{
    let (start, pointer) = (u128::from(start), u128::from(pointer));
    let len = section.len() as u128;
    let end = (pointer + 8).saturating_sub(start).min(len);
    let from = pointer.saturating_sub(start).min(end);
    for place in from as usize..end as usize {
        section[place] = kept[place];
    }
}
