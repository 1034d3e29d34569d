//! The rows of the device: blocks and holes.

use crate::gathering::{Stretch, StretchKind};
use crate::places::{
    ATTACHED, Addressed, DEVICE_ADDRESS, DEVICE_BYTES, NAME, STATE, device_area, text_in,
};
use crate::shapes::{
    Area, close_group, close_text, close_title, open_text, open_titled, put_address, put_box,
    put_number, put_text,
};
use crate::short_names::put_short_name;
use acc_base::Attachment;
use acc_read::{Names, Page};
use std::alloc::Global;

/// Blocks and holes that share a row.
#[derive(Clone, Copy)]
pub struct DeviceRow {
    /// The first of them.
    first: Stretch,
    /// How many they are.
    count: u64,
    /// Their bytes.
    bytes: u64,
    /// How many are blocks.
    blocks: u64,
    /// How often queued copies name those whose mapping has ended.
    pins: u64,
    /// The first of the attached pointers.
    attached: Option<Attachment>,
    /// How many these are.
    pointers: u64,
}

/// The row of some blocks and holes that lie one behind the other, if there are any.
pub fn device_row(stretches: &[Stretch]) -> Option<DeviceRow> {
    let mut row = DeviceRow {
        first: *stretches.first()?,
        count: stretches.len() as u64,
        bytes: 0,
        blocks: 0,
        pins: 0,
        attached: None,
        pointers: 0,
    };
    for stretch in stretches {
        row.add(*stretch);
    }
    Some(row)
}

impl DeviceRow {
    fn add(&mut self, stretch: Stretch) {
        self.bytes = self.bytes.saturating_add(stretch.size);
        if !matches!(stretch.kind, StretchKind::Hole) {
            self.blocks = self.blocks.saturating_add(1);
        }
        if let StretchKind::Ended(pins) = stretch.kind {
            self.pins = self.pins.saturating_add(pins);
        }
    }

    /// Adds an attached pointer that lies in the row; the first one is shown.
    pub fn attach(&mut self, attached: Attachment) {
        self.attached = self.attached.or(Some(attached));
        self.pointers = self.pointers.saturating_add(1);
    }

    /// Puts the row as the one of a number, counted from 0.
    pub fn put(&self, page: &mut Page, alloc: Global, names: &Names, nth: usize) {
        let area = device_area(nth);
        open_titled(page);
        self.put_title(page);
        close_title(page);
        put_box(page, self.class(), area);
        self.put_name(page, alloc, names, area);
        self.put_state(page, area);
        put_address(page, text_in(area, DEVICE_ADDRESS), self.first.place);
        put_number(page, text_in(area, DEVICE_BYTES), self.bytes);
        self.put_attached(page, names, area);
        close_group(page);
    }

    fn class(&self) -> &'static str {
        if self.count > 1 {
            "group"
        } else {
            self.first.kind.class()
        }
    }

    fn put_title(&self, page: &mut Page) {
        page.text("blocks ");
        page.number(self.blocks);
        page.text(", pins ");
        page.number(self.pins);
        page.text(", attached pointers ");
        page.number(self.pointers);
    }

    fn put_name(&self, page: &mut Page, alloc: Global, names: &Names, area: Area) {
        open_text(page, "name", text_in(area, NAME));
        if self.count > 1 {
            page.text("blocks ");
            page.number(self.blocks);
        } else if let Some(section) = self.first.section {
            put_short_name(page, alloc, names, section);
        } else {
            page.text(self.class());
        }
        close_text(page);
    }

    fn put_state(&self, page: &mut Page, area: Area) {
        if self.count == 1 && matches!(self.first.kind, StretchKind::Lent | StretchKind::Ended(_)) {
            put_text(page, "number", text_in(area, STATE), self.class());
        }
    }

    fn put_attached(&self, page: &mut Page, names: &Names, area: Area) {
        let Some(attached) = self.attached else {
            return;
        };
        open_text(page, "number", text_in(area, ATTACHED));
        put_counter(page, names, attached);
        if self.pointers > 1 {
            page.text(" +");
            page.number(self.pointers.saturating_sub(1));
        }
        close_text(page);
    }
}

/// Puts the byte of its array at which a pointer lies, and how often it is attached.
fn put_counter(page: &mut Page, names: &Names, attached: Attachment) {
    if let Some(spot) = names.spot(attached.pointer) {
        page.text("[");
        page.number(spot.offset);
        page.text("]");
    }
    page.text(" x");
    page.number(attached.count);
}

impl Addressed for DeviceRow {
    fn address(&self) -> u64 {
        self.first.place
    }
}
