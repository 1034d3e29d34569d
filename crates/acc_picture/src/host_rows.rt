//! The rows of host memory: mapped ranges, and bytes of arrays that are not mapped.

use crate::gathering::{Part, end_of};
use crate::places::{DYNAMIC, HOST_ADDRESS, HOST_BYTES, NAME, STRUCTURED, host_area, text_in};
use crate::shapes::{
    Area, close_group, close_text, close_title, open_text, open_titled, put_address, put_box,
    put_number, put_text,
};
use crate::short_names::put_short_name;
use acc_read::{Names, Page};
use acc_table::Mapped;
use std::alloc::Global;

/// Parts of host memory that share a row.
#[derive(Clone, Copy)]
pub struct HostRow {
    /// The first of them.
    first: Part,
    /// The address behind the last one.
    end: u64,
    /// How many they are.
    count: u64,
    /// Their bytes.
    bytes: u64,
    /// How many are mapped ranges.
    mapped: u64,
    /// The sum of their structured counters.
    structured: u64,
    /// The sum of their dynamic counters.
    dynamic: u64,
    /// How many of them are lent.
    lent: u64,
}

/// The row of some parts of host memory that lie one behind the other, if there are any.
pub fn host_row(parts: &[Part]) -> Option<HostRow> {
    let mut row = HostRow {
        first: *parts.first()?,
        end: end_of(parts.last()?.section),
        count: parts.len() as u64,
        bytes: 0,
        mapped: 0,
        structured: 0,
        dynamic: 0,
        lent: 0,
    };
    for part in parts {
        row.bytes = row.bytes.saturating_add(part.section.len);
        row.add(part.mapped);
    }
    Some(row)
}

impl HostRow {
    fn add(&mut self, mapped: Option<Mapped>) {
        if let Some(mapped) = mapped {
            self.mapped = self.mapped.saturating_add(1);
            self.structured = self.structured.saturating_add(mapped.structured);
            self.dynamic = self.dynamic.saturating_add(mapped.dynamic);
            self.lent = self.lent.saturating_add(u64::from(mapped.lent));
        }
    }

    /// Puts the row as the one of a number, counted from 0.
    pub fn put(&self, page: &mut Page, alloc: Global, names: &Names, nth: usize) {
        let area = host_area(nth);
        open_titled(page);
        self.put_title(page, names);
        close_title(page);
        put_box(page, self.class(), area);
        self.put_name(page, alloc, names, area);
        put_address(page, text_in(area, HOST_ADDRESS), self.first.section.start);
        put_number(page, text_in(area, HOST_BYTES), self.bytes);
        self.put_counters(page, area);
        close_group(page);
    }

    fn class(&self) -> &'static str {
        if self.lent > 0 {
            "lent"
        } else if self.mapped > 0 {
            "mapped"
        } else {
            "hole"
        }
    }

    fn put_title(&self, page: &mut Page, names: &Names) {
        if self.count > 1 {
            page.text("up to ");
            page.address(self.end);
            page.text(", mapped ");
            page.number(self.mapped);
        } else {
            put_range_title(page, names, self.first);
        }
    }

    fn put_name(&self, page: &mut Page, alloc: Global, names: &Names, area: Area) {
        open_text(page, "name", text_in(area, NAME));
        if self.count > 1 {
            page.text("ranges ");
            page.number(self.count);
        } else {
            put_short_name(page, alloc, names, self.first.section);
        }
        close_text(page);
    }

    fn put_counters(&self, page: &mut Page, area: Area) {
        if self.mapped > 0 {
            put_number(page, text_in(area, STRUCTURED), self.structured);
            put_number(page, text_in(area, DYNAMIC), self.dynamic);
        } else {
            put_text(page, "number", text_in(area, STRUCTURED), "not mapped");
        }
    }
}

fn put_range_title(page: &mut Page, names: &Names, part: Part) {
    if let Some(spot) = names.within(part.section) {
        spot.put_part(page, part.section.len);
    }
    match part.mapped {
        None => page.text(" not mapped"),
        Some(mapped) => {
            page.text(" mapped to ");
            page.address(mapped.place);
        }
    }
}
