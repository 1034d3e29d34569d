//! The copies that wait in the queues of a device.

use crate::lists::List;
use crate::places::{LINE_PITCH, MARGIN};
use crate::shapes::{Point, close_text, open_text};
use crate::short_names::put_short_name;
use acc_base::{QUEUE_COUNT, Transfer};
use acc_read::{Names, Page};
use acc_table::Table;
use std::alloc::Global;

/// A queue that is not empty.
#[derive(Drop)]
pub struct QueueLine {
    number: u64,
    /// How many copies wait.
    len: u64,
    /// Those that are named, the next one first.
    shown: List<Transfer>,
}

/// How many copies of a queue are named at most.
const COPY_LIMIT: u64 = 3;

/// Adds the queues of a device that are not empty, by rising number (OpenACC 3.3, section 2.16).
pub fn add_queues(alloc: Global, table: &Table, device: u64, queues: &mut List<QueueLine>) {
    for number in 0..QUEUE_COUNT {
        let len = table.queue_len(device, number);
        if len > 0 {
            let mut shown = List::new(alloc);
            for place in 0..COPY_LIMIT {
                if let Some(copy) = table.queued(device, number, place) {
                    shown.add(copy);
                }
            }
            queues.wants |= shown.wants;
            queues.add(QueueLine { number, len, shown });
        }
    }
}

/// Puts a line for each of some queues, the first one line below a height.
pub fn put_queues(page: &mut Page, alloc: Global, names: &Names, queues: &[QueueLine], y: u64) {
    let mut y = y;
    for queue in queues {
        y = y.saturating_add(LINE_PITCH);
        queue.put(page, alloc, names, y);
    }
}

impl QueueLine {
    fn put(&self, page: &mut Page, alloc: Global, names: &Names, y: u64) {
        open_text(page, "name", Point { x: MARGIN, y });
        page.text("queue ");
        page.number(self.number);
        page.text(" waits to copy ");
        let shown = &self.shown.all;
        put_copies(page, alloc, names, shown);
        self.put_rest(page, shown.len() as u64);
        close_text(page);
    }

    fn put_rest(&self, page: &mut Page, shown: u64) {
        let rest = self.len.saturating_sub(shown);
        if rest > 0 {
            page.text(", and ");
            page.number(rest);
            page.text(" more");
        }
    }
}

fn put_copies(page: &mut Page, alloc: Global, names: &Names, copies: &[Transfer]) {
    let mut before = "";
    for copy in copies {
        page.text(before);
        put_short_name(page, alloc, names, copy.section);
        page.text(if copy.out { " to host" } else { " to device" });
        before = ", ";
    }
}
