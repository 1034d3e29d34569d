//! What is known of the bytes of all memories.

ghost use Rattle.std.specs.Prelude.{◌≡◌, ℕ, ◌-◌, ◌≤◌, ◌<◌, OnOk, IfOk, IfErr, map, slice_set, slice_index_or, [], ◌∷◌, length, option_map};
ghost use Rattle.acc_base.specs.declared.faults.Fault.TheVariants.{Memory};
ghost use Rattle.acc_stale.specs.declared.marks.Mark.TheVariants.{New};
ghost use Rattle.acc_base.specs.Attachments.{pointer_at, count_at};
ghost use Rattle.acc_base.specs.Section.{host_base};
ghost use Rattle.acc_stale.specs.Marks.{filled};
ghost use Rattle.acc_base.specs.Records.{State};
ghost use Rattle.acc_stale.specs.Events.{mapped_at, mapped_behind, known_made, known_drained, known_gathered};
ghost use Rattle.acc_stale.specs.Told.{IsNextTold, IsLeaseTold};
ghost use Rattle.acc_stale.specs.Known.{all_new, on_host, on_device, on_mapped, on_section, born, copied_in, copied_out, pointer_aimed, pointer_left, host_wrote, device_outdated, kernel_wrote, kernel_wrote_all, mark_born, stale_host, stale_device};

use crate::changes::{Change, Copied, Filled, Outdated, Outrun, Overrun, Pointers, Rewritten};
use crate::marks::{Mark, Marks, Run};
use acc_base::{Attachment, DEVICE_BASE, Fault, HOST_BASE, Section, Transfer};
use std::alloc::Global;
use std::marker::Model;

/// A block of a device, and where its first byte lies.
#[derive(Clone, Copy, Debug, PartialEq, Eq)]
pub struct Placed {
    /// The number of the device.
    pub device: u64,
    /// The number of the block.
    pub block: u64,
    /// The host address that is mapped to the first byte.
    pub start: u64,
    /// The device address of the first byte.
    pub place: u64,
}

impl Placed {
    /// A section of the range that is mapped to the block.
    fn section(self, section: Section) -> Mapped
        ensures { result ≡ mapped_at self section }
    {
        self.behind(section.start.saturating_sub(self.start), section)
    }

    /// A section that begins so far behind the start of the block.
    fn behind(self, offset: u64, section: Section) -> Mapped
        ensures { result ≡ mapped_behind self offset section }
    {
        let base = (u128::from(self.device) + 1) * u128::from(DEVICE_BASE);
        let address = u128::from(self.place) + u128::from(offset);
        Mapped {
            device: self.device,
            block: self.block,
            section,
            at: address.saturating_sub(base),
        }
    }
}

/// Where the bytes of a section of host memory lie on a device.
#[derive(Clone, Copy)]
struct Mapped {
    /// The number of the device.
    device: u64,
    /// The number of the block.
    block: u64,
    /// The section.
    section: Section,
    /// The place of its first byte in the memory of the device, from 0 on.
    at: u128,
}

impl Mapped {
    /// These attached pointers of its block, to leave out of a change.
    fn beside<'a>(self, attached: &'a [Attachment]) -> Pointers<'a>
        ensures { result ≡ record { block = self.block; attached = attached.entry; start = self.section.start } }
    {
        Pointers {
            block: self.block,
            attached,
            start: self.section.start,
        }
    }
}

/// What is known of each byte of host memory and of the devices.
#[derive(Drop)]
pub struct Known {
    alloc: Global,
    host: Marks,
    devices: Vec<Marks>,
}

impl Model for Known {
    ghost use Rattle.acc_stale.specs.Known.{Known};

    ghost Value = { Known };

    ghost view = { λ k. record { host = k.host; devices = k.devices.items } };
}

impl Known {
    /// All bytes are new: those of a host memory of `host` bytes, and those of `count` devices of `device` bytes.
    ///
    /// # Errors
    ///
    /// [`Fault::Memory`] alone.
    pub fn new(alloc: Global, host: u32, count: usize, device: u32) -> Result<Known, Fault>
        ensures ok { IfOk result (λ known. known ≡ all_new host count device) }
        ensures only { IfErr result (λ fault. fault ≡ Memory) }
    {
        let mut devices = Vec::new(alloc);
        for _ in 0..count {
            devices.push(Marks::new(alloc, device)?)?;
        }
        Ok(Known {
            alloc,
            host: Marks::new(alloc, host)?,
            devices,
        })
    }

    /// The marks of a section of host memory change.
    fn change_host<C: Change>(&mut self, section: Section, change: &C)
        ensures { self.new ≡ on_host section (C.change change.now) self.old }
    {
        self.host.change(offset_of(section), section.len, change);
    }

    /// The marks of so many bytes of a device change.
    fn change_device<C: Change>(&mut self, p: Mapped, change: &C)
        ensures { self.new ≡ on_device p.device p.at p.section.len (C.change change.now) self.old }
    {
        if p.device < self.devices.len() as u64 {
            self.devices[p.device as usize].change(p.at, p.section.len, change);
        }
    }

    // ---- what happens to bytes. `attached` are the counters of the attached pointers of the block

    /// A block was made for a section (OpenACC 3.3, section 2.7). With the modifier `zero` its bytes are filled.
    pub(crate) fn born(&mut self, block: Placed, section: Section, zeroed: bool)
        ensures { self.new ≡ born (mapped_at block section) zeroed self.old }
    {
        self.change_device(block.section(section), &Filled(mark_born(zeroed)));
    }

    /// A transfer was made, to or from a block: with each byte went its mark. One with `async` is made when its queue
    /// makes it (OpenACC 3.3, section 2.16).
    ///
    /// # Errors
    ///
    /// [`Fault::Memory`] alone, as with those that follow. Marks are not to be asked for any more then.
    pub fn made(&mut self, block: Placed, t: Transfer, attached: &[Attachment]) -> Result<(), Fault>
        ensures ok { OnOk result (self.new ≡ known_made block t attached.now self.old) }
        ensures next { OnOk result ((q : ℕ) (s : State) → IsNextTold q block t attached.now s → self.new ≡ known_drained block.device (q ∷ []) s self.old) }
        ensures only { IfErr result (λ fault. fault ≡ Memory) }
    {
        let p = block.behind(t.offset, t.section);
        if t.out {
            self.copied_out(p, attached)
        } else {
            self.copied_in(p, attached)
        }
    }

    /// A pointer in a block was attached, where it was not aimed at its target already (OpenACC 3.3, section 2.7.2).
    /// The device has in it what it has to have.
    pub(crate) fn pointer_aimed(&mut self, block: Placed, pointer: u64)
        ensures { self.new ≡ pointer_aimed (mapped_at block (pointer_at pointer)) self.old }
    {
        self.change_device(block.section(pointer_at(pointer)), &Filled(Mark::New));
    }

    /// A pointer in a block was detached, and its counter is zero now. The device has the host's bytes in it.
    pub(crate) fn pointer_left(&mut self, block: Placed, pointer: u64)
        ensures { self.new ≡ pointer_left (mapped_at block (pointer_at pointer)) self.old }
    {
        let p = block.section(pointer_at(pointer));
        if p.device < self.devices.len() as u64 {
            let change = Copied {
                from: self.host.as_slice(),
                at: offset_of(p.section),
            };
            self.devices[p.device as usize].change(p.at, p.section.len, &change);
        }
    }

    /// The host wrote a section. For each mapped range that has part of it [`Known::range_outdated`] is told next.
    pub(crate) fn host_wrote(&mut self, section: Section)
        ensures { self.new ≡ host_wrote section self.old }
    {
        self.change_host(section, &Filled(Mark::New));
    }

    /// The host wrote these bytes into a section of a range, and the device has its own there: those that are others
    /// are behind.
    ///
    /// # Errors
    ///
    /// As [`Known::made`].
    pub(crate) fn range_outdated(
        &mut self,
        block: Placed,
        section: Section,
        attached: &[Attachment],
        written: &[u8],
        own: &[u8],
    ) -> Result<(), Fault>
        ensures ok { OnOk result (self.new ≡ device_outdated (mapped_at block section) attached.now written.now own.now self.old) }
        ensures only { IfErr result (λ fault. fault ≡ Memory) }
    {
        let p = block.section(section);
        self.change_mapped(p, attached, &Outdated { written, own })
    }

    /// A lease is back in a section of a block, with these bytes. `found` are those that the kernel found there, or
    /// `None` where it left each byte another one. `own` are those of the host.
    ///
    /// # Errors
    ///
    /// As [`Known::made`].
    pub fn gathered(
        &mut self,
        block: Placed,
        section: Section,
        attached: &[Attachment],
        found: Option<&[u8]>,
        after: &[u8],
        own: &[u8],
    ) -> Result<(), Fault>
        ensures ok { OnOk result ((s : State) → IsLeaseTold block section attached.now (option_map (λ bytes. bytes.now) found.entry) after.now own.now s → self.new ≡ known_gathered block.device block.block after.now s self.old) }
        ensures only { IfErr result (λ fault. fault ≡ Memory) }
    {
        match found {
            Some(before) => self.kernel_wrote(block, section, attached, before, after, own),
            None => self.kernel_wrote_all(block, section, attached, after, own),
        }
    }

    /// A kernel found bytes in a section, and left others. Where they differ it wrote: the device's byte is new. The
    /// host has its own bytes there; those that are others than the kernel wrote are behind.
    fn kernel_wrote(
        &mut self,
        block: Placed,
        section: Section,
        attached: &[Attachment],
        before: &[u8],
        after: &[u8],
        own: &[u8],
    ) -> Result<(), Fault>
        ensures ok { OnOk result (self.new ≡ kernel_wrote (mapped_at block section) attached.now before.now after.now own.now self.old) }
        ensures only { IfErr result (λ fault. fault ≡ Memory) }
    {
        let p = block.section(section);
        self.change_mapped(p, attached, &Rewritten { before, after })?;
        let change = Outrun { before, after, own };
        let at = offset_of(section);
        self.host
            .change_beside(self.alloc, at, section.len, p.beside(attached), &change)
    }

    /// The same of a kernel that left each byte of the section another one: the bytes as it found them are not asked for.
    fn kernel_wrote_all(
        &mut self,
        block: Placed,
        section: Section,
        attached: &[Attachment],
        after: &[u8],
        own: &[u8],
    ) -> Result<(), Fault>
        ensures ok { OnOk result (self.new ≡ kernel_wrote_all (mapped_at block section) attached.now after.now own.now self.old) }
        ensures only { IfErr result (λ fault. fault ≡ Memory) }
    {
        let p = block.section(section);
        self.change_mapped(p, attached, &Filled(Mark::New))?;
        let change = Overrun { after, own };
        let at = offset_of(section);
        self.host
            .change_beside(self.alloc, at, section.len, p.beside(attached), &change)
    }

    /// The marks of a section change on the device, but those of attached pointers.
    fn change_mapped<C: Change>(
        &mut self,
        p: Mapped,
        attached: &[Attachment],
        change: &C,
    ) -> Result<(), Fault>
        ensures ok { OnOk result (self.new ≡ on_mapped p attached.now (C.change change.now) self.old) }
        ensures only { IfErr result (λ fault. fault ≡ Memory) }
    {
        if p.device < self.devices.len() as u64 {
            let marks = &mut self.devices[p.device as usize];
            return marks.change_beside(self.alloc, p.at, p.section.len, p.beside(attached), change);
        }
        Ok(())
    }

    /// The bytes of a section were copied to the device. With each byte went its mark.
    fn copied_in(&mut self, p: Mapped, attached: &[Attachment]) -> Result<(), Fault>
        ensures ok { OnOk result (self.new ≡ copied_in p attached.now self.old) }
        ensures only { IfErr result (λ fault. fault ≡ Memory) }
    {
        if p.device < self.devices.len() as u64 {
            let change = Copied {
                from: self.host.as_slice(),
                at: offset_of(p.section),
            };
            let marks = &mut self.devices[p.device as usize];
            return marks.change_beside(
                self.alloc,
                p.at,
                p.section.len,
                p.beside(attached),
                &change,
            );
        }
        Ok(())
    }

    /// The bytes of a section were copied to host memory. With each byte went its mark.
    fn copied_out(&mut self, p: Mapped, attached: &[Attachment]) -> Result<(), Fault>
        ensures ok { OnOk result (self.new ≡ copied_out p attached.now self.old) }
        ensures only { IfErr result (λ fault. fault ≡ Memory) }
    {
        let from = match self.devices.get(p.device as usize) {
            Some(marks) => marks.as_slice(),
            None => &[],
        };
        let change = Copied { from, at: p.at };
        let at = offset_of(p.section);
        self.host
            .change_beside(self.alloc, at, p.section.len, p.beside(attached), &change)
    }

    // ---- questions

    /// The first bytes of a section of host memory that are not new, by their place in it: they have one mark, and are
    /// as many as follow one another.
    pub fn stale_host(&self, section: Section) -> Option<Run>
        ensures { result ≡ stale_host section self.now }
    {
        self.host.first_run(offset_of(section), section.len)
    }

    /// The same of a section as a device has it.
    pub fn stale_device(&self, block: Placed, section: Section) -> Option<Run>
        ensures { result ≡ stale_device (mapped_at block section) self.now }
    {
        let p = block.section(section);
        self.devices
            .get(p.device as usize)?
            .first_run(p.at, p.section.len)
    }
}

/// The mark of a new block's bytes.
fn mark_born(zeroed: bool) -> Mark
    ensures { result ≡ mark_born zeroed }
{
    if zeroed { Mark::New } else { Mark::Unfilled }
}

/// The place of a section's first byte in host memory, from 0 on.
fn offset_of(section: Section) -> u128
    ensures { result ≡ section.start - host_base }
{
    u128::from(section.start.saturating_sub(HOST_BASE))
}

/// The eight bytes of a pointer.
pub fn pointer_at(address: u64) -> Section
    ensures { result ≡ pointer_at address }
{
    Section {
        start: address,
        len: 8,
    }
}
