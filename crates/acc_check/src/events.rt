//! What each event does to the bytes that are told of it.

use crate::checks::Check;
use crate::histories::{Block, Deed, Done};
use acc_base::{Event, Fault, Found, Section};
use acc_stale::Part;
use acc_table::{Place, Table};

impl Check {
    /// Tells what an event did.
    pub(crate) fn see_event(&mut self, table: &Table, event: &Event) -> Result<(), Fault> {
        let line = self.looks.line;
        self.tracker.seen(event, line, &mut self.looks)?;
        match event {
            Event::HostWritten { addr, len, .. } => {
                let section = Section {
                    start: *addr,
                    len: *len,
                };
                self.see_write(table, section)
            }
            Event::Lent { device, block, .. } => self.find_in_kernel(table, *device, *block),
            Event::Gathered { device, block, .. } => self.see_kernel(table, *device, *block),
            _ => Ok(()),
        }
    }

    /// Tells what the host wrote, and which devices have part of it.
    fn see_write(&mut self, table: &Table, section: Section) -> Result<(), Fault> {
        let mut parts = Vec::new(self.alloc);
        for device in 0..table.config().devices() {
            match table.find(device, section) {
                Found::Inside { block, .. } => {
                    self.add_part(&mut parts, table, device, block, section)?;
                }
                Found::Partly => self.add_parts(&mut parts, table, device, section)?,
                Found::Empty | Found::Absent => {}
            }
        }
        self.tracker.known.wrote(section, &parts)?;
        self.looks.note(Block::default(), Deed::HostWrote, section)
    }

    /// Adds what each range of a device has of what the host wrote, by rising address.
    fn add_parts<'a>(
        &self,
        parts: &mut Vec<Part<'a>>,
        table: &'a Table,
        device: u64,
        section: Section,
    ) -> Result<(), Fault> {
        let mut rest = section;
        if let Some(block) = first_block(table, device, rest) {
            rest = self.add_part(parts, table, device, block, rest)?;
        }
        let mut near = Place::default();
        for _ in 0..section.len {
            let Some((range, place)) = table.mapped_near(device, rest.start, near) else {
                break;
            };
            near = place;
            let Some(next) = from_address(rest, range.start) else {
                break;
            };
            let Some(block) = first_block(table, device, next) else {
                break;
            };
            rest = self.add_part(parts, table, device, block, next)?;
        }
        Ok(())
    }

    /// Adds what a block has of what the host wrote, unless it is lent. The section begins in its range; what lies behind
    /// that is returned.
    fn add_part<'a>(
        &self,
        parts: &mut Vec<Part<'a>>,
        table: &'a Table,
        device: u64,
        block: u64,
        section: Section,
    ) -> Result<Section, Fault> {
        let Some(told) = self.tracker.account.told(device, block)? else {
            return Ok(Section { len: 0, ..section });
        };
        let range = told.held.range.section;
        let end = range.start.saturating_add(range.len);
        let part = Section {
            start: section.start,
            len: section.len.min(end.saturating_sub(section.start)),
        };
        if let (Some(written), Some(own)) = (
            table.host_read(part),
            table.device_read(device, part),
        ) {
            parts.push(Part {
                block: told.held.placed,
                section: part,
                attached: told.attached,
                written,
                own,
            })?;
        }
        Ok(behind(section, part))
    }

    /// Tells what a kernel left, whose block is back.
    fn see_kernel(&mut self, table: &Table, device: u64, block: u64) -> Result<(), Fault> {
        let (Some(kernel), Some(told)) = (
            self.kernel.take(),
            self.tracker.account.told(device, block)?,
        ) else {
            return Ok(());
        };
        let (placed, section) = (told.held.placed, kernel.section);
        let after = table.device_read(device, section);
        let (Some(after), Some(own)) = (after, table.host_read(section)) else {
            return Ok(());
        };
        let attached = told.attached;
        let found = kernel.before.as_deref();
        self.tracker
            .known
            .gathered(placed, section, &attached, found, after, own)?;
        let block = Block::of(placed);
        let Some(before) = found else {
            return self.looks.note(block, Deed::KernelWrote, section);
        };
        if before != after {
            let done = Done {
                line: self.looks.line,
                deed: Deed::KernelWrote,
                block,
                section,
            };
            self.looks.history.add_kernel(done, before, after)?;
        }
        Ok(())
    }
}

/// The block of a device that has the first byte of a section, if there is one.
fn first_block(table: &Table, device: u64, section: Section) -> Option<u64> {
    let first = Section {
        start: section.start,
        len: section.len.min(1),
    };
    match table.find(device, first) {
        Found::Inside { block, .. } => Some(block),
        _ => None,
    }
}

/// What of a section lies from an address on; `None` where none does, or that is before it.
fn from_address(section: Section, start: u64) -> Option<Section> {
    let len = section.len.checked_sub(start.checked_sub(section.start)?)?;
    Some(Section { start, len })
}

/// What of a section lies behind a part of it.
pub(crate) fn behind(section: Section, part: Section) -> Section {
    let start = part.start.saturating_add(part.len);
    let done = start.saturating_sub(section.start);
    Section {
        start,
        len: section.len.saturating_sub(done),
    }
}
