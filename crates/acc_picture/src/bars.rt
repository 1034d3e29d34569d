//! Host memory and the device's to scale, as bars.

use crate::gathering::{Part, Stretch, StretchKind};
use crate::places::{BAR_HEIGHT, BAR_WIDTH, BAR_X, MARGIN};
use crate::shapes::{Area, Point, close_group, close_text, open_text, put_box};
use acc_base::{DEVICE_BASE, HOST_BASE};
use acc_read::Page;

/// A bar that stands for a memory.
#[derive(Clone, Copy)]
struct Bar {
    /// Its upper edge.
    y: u64,
    /// The first address.
    base: u64,
    /// How many addresses there are.
    size: u64,
}

impl Bar {
    fn put_outline(self, page: &mut Page, name: &str) {
        let y = self.y.saturating_add(12);
        open_text(page, "name", Point { x: MARGIN, y });
        page.text(name);
        page.number(self.size);
        close_text(page);
        self.put_box(page, "bar", 0, BAR_WIDTH);
        page.text("<g class=\"stretches\">\n");
    }

    fn put_box(self, page: &mut Page, class: &str, from: u64, until: u64) {
        put_box(
            page,
            class,
            Area {
                x: BAR_X.saturating_add(from),
                y: self.y,
                width: until.saturating_sub(from),
                height: BAR_HEIGHT,
            },
        );
    }

    /// Where an address lies, in pixels from the left end.
    fn pixel(self, address: u64) -> u64 {
        let offset = address.saturating_sub(self.base).min(self.size);
        offset.saturating_mul(BAR_WIDTH) / self.size.max(1)
    }

    /// Puts some addresses, at least one pixel wide, and returns behind which pixel all is free. A hole is left out,
    /// and so is what ends where something was put before.
    fn put_next(self, page: &mut Page, put: u64, kind: StretchKind, start: u64, len: u64) -> u64 {
        let from = self.pixel(start).min(BAR_WIDTH - 1);
        let until = self
            .pixel(start.saturating_add(len))
            .max(from.saturating_add(1));
        if until <= put || matches!(kind, StretchKind::Hole) {
            return put;
        }
        self.put_box(page, kind.class(), from, until);
        until
    }
}

/// Puts the bar of host memory of `size` bytes, with the mapped ranges, at an upper edge.
pub fn put_host_bar(page: &mut Page, y: u64, size: u64, parts: &[Part]) {
    let base = HOST_BASE;
    let bar = Bar { y, base, size };
    bar.put_outline(page, "host ");
    let mut put = 0;
    for part in parts {
        put = bar.put_next(page, put, part.kind(), part.section.start, part.section.len);
    }
    close_group(page);
}

/// Puts the bar of a device's memory of `size` bytes, with its blocks, at an upper edge.
pub fn put_device_bar(page: &mut Page, y: u64, size: u64, device: u64, stretches: &[Stretch]) {
    let base = DEVICE_BASE.saturating_mul(device.saturating_add(1));
    let bar = Bar { y, base, size };
    bar.put_outline(page, "device ");
    let mut put = 0;
    for stretch in stretches {
        put = bar.put_next(page, put, stretch.kind, stretch.place, stretch.size);
    }
    close_group(page);
}
