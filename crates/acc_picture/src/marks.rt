//! Bytes that are behind, or that nothing filled, as strips in the rows.

use crate::gathering::{Part, Stretch, StretchKind, end_of};
use crate::lists::List;
use crate::places::{ROW_HEIGHT, device_area, group_size, host_area};
use crate::shapes::{Area, Point, close_group, put_box, put_text};
use crate::styles::MARK_STYLE;
use acc_base::Section;
use acc_read::Page;
use acc_stale::{Known, Mark, Placed, Run};

/// How high a strip is, in pixels.
const HEIGHT: u64 = 4;

/// Where what the marks look like begins.
const LEGEND_X: u64 = 670;

/// The foot of its letters.
const LEGEND_Y: u64 = 40;

/// How far the next mark stands to the right.
const LEGEND_PITCH: u64 = 72;

/// Bytes of one mark, as a strip at the lower edge of their row.
#[derive(Clone, Copy)]
pub struct Strip {
    /// The class of style.
    class: &'static str,
    /// Where it lies.
    area: Area,
}

/// A row, and the addresses that it shows. Strips are to their scale.
#[derive(Clone, Copy)]
struct Row {
    area: Area,
    start: u64,
    end: u64,
}

impl Row {
    /// How far an address stands from the left edge of the row, in pixels.
    fn pixel(self, address: u64) -> u64 {
        let size = self.end.saturating_sub(self.start).max(1);
        let offset = address.saturating_sub(self.start).min(size);
        offset.saturating_mul(self.area.width) / size
    }

    /// Adds the strips of a section in host memory, or as a block has it.
    fn add(self, known: &Known, block: Option<Placed>, section: Section, strips: &mut List<Strip>) {
        let first = block.map_or(section.start, |block| block.place);
        let mut rest = section;
        for _ in 0..section.len {
            let run = match block {
                Some(block) => known.stale_device(block, rest),
                None => known.stale_host(rest),
            };
            let Some(run) = run else {
                break;
            };
            let start = rest.start.saturating_add(run.at as u64);
            let offset = start.saturating_sub(section.start);
            let strip = self.strip(first.saturating_add(offset), run.len as u64, run.mark);
            add(strip, strips);
            rest = behind(section, start, run);
        }
    }

    fn add_parts(self, known: &Known, parts: &[Part], strips: &mut List<Strip>) {
        for part in parts {
            self.add(known, None, part.section, strips);
        }
    }

    /// Adds the strips of those blocks that are mapped.
    fn add_blocks(self, known: &Known, device: u64, all: &[Stretch], strips: &mut List<Strip>) {
        for stretch in all {
            if let (Some(section), StretchKind::Mapped | StretchKind::Lent) = (
                stretch.section,
                stretch.kind,
            ) {
                let placed = Placed {
                    device,
                    block: 0,
                    start: section.start,
                    place: stretch.place,
                };
                self.add(known, Some(placed), section, strips);
            }
        }
    }

    /// The strip of so many addresses, at least one pixel wide.
    fn strip(self, start: u64, len: u64, mark: Mark) -> Strip {
        let from = self.pixel(start).min(self.area.width.saturating_sub(1));
        let until = self.pixel(start.saturating_add(len));
        Strip {
            class: class_of(mark),
            area: Area {
                x: self.area.x.saturating_add(from),
                y: self.area.y.saturating_add(ROW_HEIGHT - HEIGHT),
                width: until.saturating_sub(from).max(1),
                height: HEIGHT,
            },
        }
    }
}

fn class_of(mark: Mark) -> &'static str {
    match mark {
        Mark::Behind => "behind",
        _ => "unfilled",
    }
}

/// Adds the strips of host memory.
pub fn add_host_strips(known: &Known, parts: &[Part], strips: &mut List<Strip>) {
    for (nth, group) in parts.chunks(group_size(parts.len())).enumerate() {
        if let (Some(first), Some(last)) = (group.first(), group.last()) {
            let (start, end) = (first.section.start, end_of(last.section));
            let area = host_area(nth);
            Row { area, start, end }.add_parts(known, group, strips);
        }
    }
}

/// Adds the strips of a device.
pub fn add_device_strips(known: &Known, device: u64, all: &[Stretch], strips: &mut List<Strip>) {
    for (nth, group) in all.chunks(group_size(all.len())).enumerate() {
        if let (Some(first), Some(last)) = (group.first(), group.last()) {
            let (start, end) = (first.place, last.place.saturating_add(last.size));
            let area = device_area(nth);
            Row { area, start, end }.add_blocks(known, device, group, strips);
        }
    }
}

/// Adds a strip, unless the one before covers it.
fn add(strip: Strip, strips: &mut List<Strip>) {
    match strips.all.last() {
        Some(last) if last.covers(strip) => {}
        _ => strips.add(strip),
    }
}

impl Strip {
    /// Whether another one in the same row ends where this ends, or before.
    fn covers(self, other: Strip) -> bool {
        let (own, its) = (self.area, other.area);
        own.y == its.y
            && own.x <= its.x
            && its.x.saturating_add(its.width) <= own.x.saturating_add(own.width)
    }
}

/// What of a section lies behind a run that begins at an address.
fn behind(section: Section, start: u64, run: Run) -> Section {
    let start = start.saturating_add(run.len as u64);
    Section {
        start,
        len: end_of(section).saturating_sub(start),
    }
}

/// Puts the strips of a device's picture, and what they mean.
pub fn put_strips(page: &mut Page, device: u64, strips: &[Strip]) {
    if device == 0 {
        page.text(MARK_STYLE);
    }
    page.text("<g class=\"stretches\">\n");
    put_legend(page, Mark::Behind, 0);
    put_legend(page, Mark::Unfilled, LEGEND_PITCH);
    for strip in strips {
        put_box(page, strip.class, strip.area);
    }
    close_group(page);
}

/// Puts what the strips of a mark look like, and its name.
fn put_legend(page: &mut Page, mark: Mark, right: u64) {
    let x = LEGEND_X.saturating_add(right);
    put_box(
        page,
        class_of(mark),
        Area {
            x,
            y: LEGEND_Y.saturating_sub(HEIGHT),
            width: 12,
            height: HEIGHT,
        },
    );
    let text = Point {
        x: x.saturating_add(16),
        y: LEGEND_Y,
    };
    put_text(page, "number", text, class_of(mark));
}
