//! Data regions as nested blocks.

use crate::directives::put_call;
use crate::items::{Written, fit_one_directive};
use crate::sheets::Sheet;
use acc_base::{Did, Event};

/// An open data region.
#[derive(Drop)]
pub struct NestedRegion {
    /// The items of its start; from the last to the first, once they are undone.
    pub items: Vec<Written>,
    /// The place in the trace of its entry.
    pub entry: usize,
    /// Whether it is one directive, with one block; else each item has a block of its own.
    is_one: bool,
}

impl NestedRegion {
    /// Returns a region with these items, whose entry stands at a place of the trace.
    pub fn new(sheet: &Sheet, entry: usize, items: Vec<Written>) -> NestedRegion {
        NestedRegion {
            entry,
            is_one: fit_one_directive(&sheet.names, &items),
            items,
        }
    }

    /// Notes what undoing each of its items did, by the event that entered it.
    pub fn undo(&mut self, entry: &Event, did: &[Did]) {
        for (place, did) in did.iter().enumerate() {
            if let (Some(item), Some(task)) = (self.items.get_mut(place), entry.exit_task(place)) {
                *item = Written::new(task, *did);
            }
        }
        self.items.reverse();
    }

    /// Closes its blocks, behind a directive that does not return.
    pub fn close_blocks(&self, sheet: &mut Sheet) {
        if self.is_one {
            return sheet.close_block(true);
        }
        for item in self.items.iter().rev() {
            sheet.close_block(item.is_clause());
        }
    }

    /// Closes its blocks at its end, each behind the detachment of its item.
    pub fn put_end(&self, sheet: &mut Sheet) {
        for item in &self.items {
            put_call(sheet, "acc_detach", item.pointer());
            if !self.is_one {
                sheet.close_block(item.is_clause());
            }
        }
        if self.is_one {
            sheet.close_block(true);
        }
    }
}
