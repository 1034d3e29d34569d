//! What a table has in host memory and on one device.

use crate::lists::List;
use crate::places::Addressed;
use acc_base::{Attachment, Did, Event, HOST_BASE, Section, Step};
use acc_read::Names;
use acc_table::{Mapped, Place, Table};
use std::alloc::Global;
use std::collections::BTreeMap;

/// Bytes of host memory that lie side by side: a mapped range, or bytes of an array that are not mapped.
#[derive(Clone, Copy)]
pub struct Part {
    /// The bytes.
    pub section: Section,
    /// The range, where they are mapped.
    pub mapped: Option<Mapped>,
}

impl Part {
    /// What its block is; a hole where it has none.
    pub fn kind(self) -> StretchKind {
        match self.mapped {
            None => StretchKind::Hole,
            Some(mapped) if mapped.lent => StretchKind::Lent,
            Some(_) => StretchKind::Mapped,
        }
    }
}

impl Addressed for Part {
    fn address(&self) -> u64 {
        self.section.start
    }
}

/// What some addresses of the device are.
#[derive(Clone, Copy)]
pub enum StretchKind {
    /// A block of a mapped range.
    Mapped,
    /// One that is lent.
    Lent,
    /// A block whose mapping has ended, with how many queued copies name it.
    Ended(u64),
    /// Free addresses between blocks.
    Hole,
}

impl StretchKind {
    /// The class of style of its shapes.
    pub fn class(self) -> &'static str {
        match self {
            StretchKind::Mapped => "mapped",
            StretchKind::Lent => "lent",
            StretchKind::Ended(_) => "ended",
            StretchKind::Hole => "hole",
        }
    }
}

/// Addresses of the device that lie side by side.
#[derive(Clone, Copy)]
pub struct Stretch {
    /// The first one.
    pub place: u64,
    /// How many they are.
    pub size: u64,
    /// What they are.
    pub kind: StretchKind,
    /// The host bytes that are mapped there, or were.
    pub section: Option<Section>,
}

/// Adds the mapped ranges of a device, and the bytes of arrays between them and behind them, by rising host address.
pub fn add_parts(table: &Table, names: &Names, device: u64, parts: &mut List<Part>) {
    let mut from = HOST_BASE;
    let mut near = Place::default();
    for _ in 0..u64::MAX {
        let mut next = None;
        if let Some((mapped, place)) = table.mapped_near(device, from, near) {
            next = Some(mapped);
            near = place;
        }
        let Some(part) = part_at(names, from, next) else {
            break;
        };
        parts.add(part);
        from = end_of(part.section);
    }
}

/// The host address behind a section.
pub fn end_of(section: Section) -> u64 {
    section.start.saturating_add(section.len)
}

/// What comes next from an address on, where this is the next mapped range.
fn part_at(names: &Names, from: u64, next: Option<Mapped>) -> Option<Part> {
    let limit = next.map_or(u64::MAX, |mapped| mapped.start);
    if let Some(section) = unmapped_at(names, from, limit) {
        let mapped = None;
        return Some(Part { section, mapped });
    }
    let mapped = next?;
    let section = Section {
        start: mapped.start,
        len: mapped.len,
    };
    Some(Part {
        section,
        mapped: next,
    })
}

/// The bytes below a limit that an array has from an address on, or the next array.
fn unmapped_at(names: &Names, from: u64, limit: u64) -> Option<Section> {
    let next = from.div_ceil(16).saturating_mul(16);
    let spot = names.spot(from).or(names.spot(next))?;
    let start = u64::from(spot.array.start).saturating_add(spot.offset);
    let len = u64::from(spot.array.end).min(limit).saturating_sub(start);
    (0 < len).then_some(Section { start, len })
}

/// Stretches of a device by their places. At each place the last one stays.
#[derive(Drop)]
pub struct Stretches {
    by_place: BTreeMap<u64, Stretch>,
    /// Whether there was no memory for some of them.
    wants: bool,
}

/// Adds the blocks and holes of a device, by rising device address. Births come first: what is there now goes over those
/// at the same places.
pub fn add_stretches(
    alloc: Global,
    table: &Table,
    device: u64,
    parts: &[Part],
    stretches: &mut List<Stretch>,
) {
    let mut found = Stretches {
        by_place: BTreeMap::new(alloc),
        wants: false,
    };
    found.gather(table, device, parts);
    found.list(stretches);
}

impl Stretches {
    fn gather(&mut self, table: &Table, device: u64, parts: &[Part]) {
        self.add_births(table, device);
        for part in parts {
            self.add_block(*part);
        }
        self.add_ended(table, device);
        self.add_holes(table, device);
    }

    fn add(&mut self, place: u64, size: u64, kind: StretchKind, section: Option<Section>) {
        let stretch = Stretch {
            place,
            size,
            kind,
            section,
        };
        self.wants |= self.by_place.insert(place, stretch).is_err();
    }

    /// Adds a stretch of no size for each block that was made since the base of the table.
    fn add_births(&mut self, table: &Table, device: u64) {
        for event in table.trace() {
            if event.device() == device {
                self.add_born(event, event.did());
            }
        }
    }

    fn add_born(&mut self, event: &Event, did: &[Did]) {
        for (nth, did) in did.iter().enumerate() {
            if let (Step::Born { place, .. }, Some(task)) = (did.step, event.task(nth)) {
                self.add(place, 0, StretchKind::Ended(0), Some(task.section()));
            }
        }
    }

    fn add_block(&mut self, part: Part) {
        if let Some(mapped) = part.mapped {
            let size = mapped.len.div_ceil(16).saturating_mul(16);
            self.add(mapped.place, size, part.kind(), Some(part.section));
        }
    }

    fn add_ended(&mut self, table: &Table, device: u64) {
        let mut from = 0;
        for _ in 0..u64::MAX {
            let Some(ended) = table.ended(device, from) else {
                break;
            };
            let section = self.section_at(ended.place);
            self.add(
                ended.place,
                ended.size,
                StretchKind::Ended(ended.pins),
                section,
            );
            from = ended.place.saturating_add(1);
        }
    }

    fn section_at(&self, place: u64) -> Option<Section> {
        self.by_place.get(&place)?.section
    }

    fn add_holes(&mut self, table: &Table, device: u64) {
        let mut from = 0;
        for _ in 0..u64::MAX {
            let Some(hole) = table.hole(device, from) else {
                break;
            };
            self.add(hole.place, hole.size, StretchKind::Hole, None);
            from = hole.place.saturating_add(1);
        }
    }

    /// Adds those that have a size to a list, by rising place.
    fn list(&self, all: &mut List<Stretch>) {
        all.wants |= self.wants;
        for (_, stretch) in self.by_place.iter() {
            if stretch.size > 0 {
                all.add(*stretch);
            }
        }
    }
}

/// Adds the attached pointers of a part, by rising host address (OpenACC 3.3, section 2.6.8).
pub fn add_attached(table: &Table, device: u64, part: Part, attached: &mut List<Attachment>) {
    let end = end_of(part.section);
    let mut start = part.section.start;
    for _ in 0..u64::MAX {
        let len = end.saturating_sub(start);
        let Some(next) = table.next_attached(device, Section { start, len }) else {
            break;
        };
        attached.add(next);
        start = next.pointer.saturating_add(1);
    }
}
