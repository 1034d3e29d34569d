//! The queries of a table. None allocates or is refused.

ghost use Rattle.std.specs.Prelude.{◌≡◌, ◌-◌, ◌<◌, ◌≤◌, ◌↔◌, None, IsSomeAnd, IsTrue, IfSome, IfNone, length, option_map, slice_get};
ghost use Rattle.acc_base.specs.Blocks.{used_bytes};
ghost use Rattle.acc_base.specs.Limits.{limits_on};
ghost use Rattle.acc_base.specs.Calls.{event_count, device_for};
ghost use Rattle.acc_base.specs.Devices.{device_at, new_device, view, open_regions, device_of_region};
ghost use Rattle.acc_base.specs.Register.{newest_region};
ghost use Rattle.acc_base.specs.Ranges.{where_is, IsPlacedAt};
ghost use Rattle.acc_base.specs.Pointers.{device_address_of, attachment_of};
ghost use Rattle.acc_base.specs.Queues.{queue_at};
ghost use Rattle.acc_base.specs.Section.{device_memory};
ghost use Rattle.acc_base.specs.Holes.{IsLeft, IsNextHole};
ghost use Rattle.acc_base.specs.Waits.{ended_from};
ghost use Rattle.acc_base.specs.Inside.{IsInsideOne};
ghost use Rattle.acc_table.specs.Queries.{is_inside, counters_of_section, mapped_from, first_attached, IsLeastFrom, host_read_of, device_read_of, holdings_of, later, newest_of, IsLastEntered};

use crate::calls::Mapped;
use crate::tables::Table;
use acc_base::{
    Attachment, Config, Counters, Directive, Ended, Event, Found, Free, Holding, Hole, Section,
    Transfer,
};
use acc_clauses::{Base, Place, View, device_named};

fn is_inside(found: Found) -> bool
    ensures { result ≡ is_inside found }
{
    matches!(found, Found::Inside { .. })
}

/// The later of two regions, by their numbers.
fn later(one: Option<u64>, other: Option<u64>) -> Option<u64>
    ensures { result ≡ later one other }
{
    let Some(number) = one else {
        return other;
    };
    let Some(next) = other else {
        return one;
    };
    Some(number.max(next))
}

impl Table {
    /// What a device has, to look at. `None` exactly where there is no such device.
    pub(crate) fn on(&self, device: u64) -> Option<View<'_>>
        ensures there { IfSome result (λ v. v ≡ record { limits = limits_on device self.now.limits; state = view device self.now.state }) }
        ensures known { IfSome result (λ _. device < self.now.limits.devices) }
        ensures none { IfNone result (self.now.limits.devices ≤ device) }
        ensures new { IfNone result (device_at device self.now.state.devices ≡ new_device) }
    {
        self.data.devices.view(device)
    }

    /// Where the section lies among the mapped ranges of a device: it is empty, inside one range, absent, or partly
    /// present. A device that is not there has what a new one has, so it maps nothing.
    pub fn find(&self, device: u64, section: Section) -> Found
        ensures value { result ≡ where_is section (view device self.now.state).records.ranges }
        ensures addresses { IsPlacedAt section (view device self.now.state).records.ranges result }
        ensures unknown { self.now.limits.devices ≤ device → device_at device self.now.state.devices ≡ new_device }
    {
        self.laws();
        match self.on(device) {
            Some(view) => view.find(section),
            None if section.len == 0 => Found::Empty,
            None => Found::Absent,
        }
    }

    /// Whether the section is not empty and each of its addresses is in one mapped range of a device.
    pub fn is_present(&self, device: u64, section: Section) -> bool
        ensures value { result ≡ is_inside (where_is section (view device self.now.state).records.ranges) }
        ensures addresses { IsTrue result ↔ IsInsideOne section (view device self.now.state).records.ranges }
    {
        self.laws();
        is_inside(self.find(device, section))
    }

    /// The device address that a host address is mapped to on a device, if it is.
    pub fn device_address(&self, device: u64, address: u64) -> Option<u64>
        ensures { result ≡ device_address_of address (view device self.now.state).records }
    {
        self.laws();
        let only = Section {
            start: address,
            len: 1,
        };
        let view = self.on(device)?;
        match view.find(only) {
            Found::Inside { block, offset } => Some(view.place(block) + offset),
            Found::Empty | Found::Partly | Found::Absent => None,
        }
    }

    /// How often the pointer at a host address is attached on a device, in the block to which its eight bytes are
    /// mapped. It is 0 where they are not inside one mapped range (OpenACC 3.3, section 2.6.8).
    pub fn attachment(&self, device: u64, pointer: u64) -> u64
        ensures { result ≡ attachment_of pointer (view device self.now.state).records }
    {
        match self.on(device) {
            Some(view) => view.attachment(pointer),
            None => 0,
        }
    }

    /// The attached pointer of least host address in a section, with its counter on a device (OpenACC 3.3, section
    /// 2.6.8). `None` where the section is not inside one mapped range. So a caller finds all of a range, one after the
    /// other.
    pub fn next_attached(&self, device: u64, section: Section) -> Option<Attachment>
        ensures { result ≡ first_attached section (view device self.now.state).records }
    {
        let view = self.on(device)?;
        // Where nothing is attached, no range need be looked for.
        if view.has_no_pointer() {
            return None;
        }
        match view.find(section) {
            Found::Inside { block, .. } => view.next_attached(block, section),
            Found::Empty | Found::Partly | Found::Absent => None,
        }
    }

    /// The reference counters of the mapped range of a device that the section is inside (OpenACC 3.3, section 2.6.7),
    /// if it is inside one.
    pub fn counters(&self, device: u64, section: Section) -> Option<Counters>
        ensures { result ≡ counters_of_section section (view device self.now.state).records }
    {
        let view = self.on(device)?;
        match view.find(section) {
            Found::Inside { block, .. } => Some(view.counters(block)),
            Found::Empty | Found::Partly | Found::Absent => None,
        }
    }

    /// The mapped range of a device of least start at or above a host address, if there is one.
    pub fn mapped(&self, device: u64, from: u64) -> Option<Mapped>
        ensures value { result ≡ mapped_from from (view device self.now.state).records }
        ensures least { IsLeastFrom from (view device self.now.state).records.ranges result }
    {
        self.laws();
        let (mapped, _) = self.mapped_near(device, from, Place::default())?;
        Some(mapped)
    }

    /// As [`Table::mapped`], and where that range stands. It is looked for first at a place and right behind it. So a
    /// caller that hands in where the last one stood finds all ranges without a search.
    pub fn mapped_near(&self, device: u64, from: u64, near: Place) -> Option<(Mapped, Place)>
        ensures { option_map (λ found. found.0) result ≡ mapped_from from (view device self.now.state).records }
    {
        let view = self.on(device)?;
        let (range, place) = view.next_range(from, near);
        let range = range?;
        let mapped = Mapped {
            start: range.section.start,
            len: range.section.len,
            place: view.place(range.block),
            structured: range.structured,
            dynamic: range.dynamic,
            lent: view.is_lent(range.block),
        };
        Some((mapped, place))
    }

    /// The bytes of a section of host memory, as many as it is long; an empty one has none, wherever it starts. `None`
    /// where some address of the section is not in host memory.
    pub fn host_read(&self, section: Section) -> Option<&[u8]>
        ensures { option_map (λ bytes. bytes.now) result ≡ host_read_of section self.now.state.host }
    {
        self.data.devices.shared.host_read(section)
    }

    /// The bytes that a device has of a section, as many as it is long. `None` where it is not inside one mapped range,
    /// or its block is lent (OpenACC 3.3, section 2.5, compute constructs). An empty one is inside none.
    pub fn device_read(&self, device: u64, section: Section) -> Option<&[u8]>
        ensures { option_map (λ bytes. bytes.now) result ≡ device_read_of section (view device self.now.state) }
    {
        self.laws();
        let view = self.on(device)?;
        match view.find(section) {
            Found::Inside { block, offset } => {
                let bytes = view.bytes(block)?;
                let from = offset as usize;
                Some(&bytes[from..from + section.len as usize])
            }
            Found::Empty | Found::Partly | Found::Absent => None,
        }
    }

    /// Of the blocks of a device whose mapping has ended, the one of least place at or above a device address. Such a
    /// block stays while a queued transfer names it (OpenACC 3.3, section 2.16, asynchronous behavior).
    pub fn ended(&self, device: u64, from: u64) -> Option<Ended>
        ensures { result ≡ ended_from from (view device self.now.state).records }
    {
        self.on(device)?.ended(from)
    }

    /// The hole of a device of least place at or above a device address: as many free device addresses side by side as
    /// there are. `None` also where there is no such device.
    pub fn hole(&self, device: u64, from: u64) -> Option<Hole>
        ensures there { device < self.now.limits.devices → IsNextHole from (device_memory (limits_on device self.now.limits)) (view device self.now.state).records.blocks result }
        ensures none { self.now.limits.devices ≤ device → result ≡ None }
    {
        self.on(device)?.hole(from)
    }

    /// What the blocks of a device leave of its memory (OpenACC 3.3, section 2.6, data environment). It is the size in
    /// bytes of the largest hole, the bytes of all holes, and how many they are. `None` exactly where there is no such
    /// device. No hole is looked for, so it takes constant time.
    pub fn free(&self, device: u64) -> Option<Free>
        ensures there { device < self.now.limits.devices → IsSomeAnd result (IsLeft (device_memory (limits_on device self.now.limits)) (view device self.now.state).records.blocks) }
        ensures none { self.now.limits.devices ≤ device → result ≡ None }
    {
        Some(self.on(device)?.free())
    }

    /// How many transfers wait in a queue of a device; 0 where there is no such queue (OpenACC 3.3, section 2.16).
    pub fn queue_len(&self, device: u64, q: u64) -> u64
        ensures { result ≡ length (queue_at q (view device self.now.state).records.queues) }
    {
        match self.on(device) {
            Some(view) => view.queue_len(q),
            None => 0,
        }
    }

    /// The transfer at a place of a queue of a device, counted from 0 for the one that it makes next (OpenACC 3.3, section
    /// 2.16). `None` exactly where not as many wait in it, or there is no such queue or device.
    pub fn queued(&self, device: u64, q: u64, place: u64) -> Option<Transfer>
        ensures { result ≡ slice_get (queue_at q (view device self.now.state).records.queues) place }
    {
        self.on(device)?.queued(q, place)
    }

    /// The bytes of the memory of a device that all blocks take, each rounded up to a multiple of 16.
    pub fn used(&self, device: u64) -> u64
        ensures { result ≡ used_bytes (view device self.now.state).records.blocks }
    {
        match self.on(device) {
            Some(view) => view.used(),
            None => 0,
        }
    }

    /// How many data regions are open, on all devices.
    pub fn regions(&self) -> u64
        ensures { result ≡ open_regions self.now.state }
    {
        self.data.devices.regions()
    }

    /// The device on which the region of a number is open; 0 where no such region is open.
    #[inline(never)]
    pub fn device_of_region(&self, number: u64) -> u64
        ensures value { result ≡ device_of_region number self.now.state }
        ensures there { result < self.now.limits.devices }
    {
        self.data.devices.device_of_region(number)
    }

    /// What each item of the entry of an open data region counted, in written order (OpenACC 3.3, sections 2.6.5 and
    /// 2.6.7). The exit from the region undoes that and nothing else. `None` exactly where no region of the number is
    /// open.
    pub fn holdings(&self, number: u64) -> Option<&[Holding]>
        ensures { option_map (λ holdings. holdings.now) result ≡ holdings_of number self.now.state }
    {
        self.on(self.device_of_region(number))?.holdings(number)
    }

    /// The device for which a directive is: the one that it names, or that of the region that it exits. It is 0 where
    /// no such region is open. It need not be there.
    #[inline(always)]
    pub fn device_for(&self, directive: &Directive) -> u64
        ensures { result ≡ device_for directive.now self.now.state }
    {
        match directive {
            Directive::Exit { number } => self.device_of_region(*number),
            _ => device_named(directive).unwrap_or(0),
        }
    }

    /// How many more data regions may be opened.
    pub fn region_book(&self) -> u64
        ensures { result ≡ self.now.limits.regions - open_regions self.now.state }
    {
        self.laws();
        self.config().regions() - self.regions()
    }

    /// The number of the open data region of a device that was entered last, if one is open.
    pub fn newest_region(&self, device: u64) -> Option<u64>
        ensures { result ≡ newest_region (view device self.now.state).register.regions }
    {
        self.on(device)?.newest_region()
    }

    /// The number of the open data region that was entered last, on whichever device, if one is open.
    pub fn innermost(&self) -> Option<u64>
        ensures value { result ≡ newest_of self.now.state.devices }
        ensures last { IsLastEntered self.now.state result }
    {
        self.laws();
        let mut newest = None;
        for device in 0..self.config().devices() {
            newest = later(newest, self.newest_region(device));
        }
        newest
    }

    /// How many events there were in all, those before the base too.
    pub fn events(&self) -> u64
        ensures { result ≡ event_count self.now.history }
    {
        self.laws();
        self.data.base.events() + self.data.trace.len() as u64
    }

    /// How many more events there may be.
    pub fn ticket_book(&self) -> u64
        ensures { result ≡ self.now.limits.tickets - event_count self.now.history }
    {
        self.laws();
        self.config().tickets() - self.events()
    }

    /// What the table had when its trace was last made empty by [`Table::rebase`]; before that, what a new table has.
    pub fn base(&self) -> &Base
        ensures { result.now ≡ self.now.history.base }
    {
        &self.data.base
    }

    /// The stored events, in the order in which they came: those since the base.
    pub fn trace(&self) -> &[Event]
        ensures { result.now ≡ self.now.history.trace }
    {
        &self.data.trace
    }

    /// The limits.
    pub fn config(&self) -> Config
        ensures { result ≡ self.now.limits }
    {
        self.data.config
    }
}
