//! What a device has, as a picture shows it.

use crate::device_rows::{DeviceRow, device_row};
use crate::gathering::{Part, Stretch, add_attached, add_parts, add_stretches};
use crate::lists::List;
use crate::marks::{Strip, add_device_strips, add_host_strips};
use crate::places::{LINE_PITCH, MARGIN, group_size, last_from, row_y};
use crate::queues::{QueueLine, add_queues};
use acc_base::Attachment;
use acc_read::Names;
use acc_stale::Known;
use acc_table::Table;
use std::alloc::Global;

/// What a device has.
pub struct DevicePicture {
    /// The number of the device.
    pub device: u64,
    /// Mapped ranges and other bytes of arrays, by rising host address.
    pub parts: List<Part>,
    /// Its blocks and holes, by rising device address.
    pub stretches: List<Stretch>,
    /// The rows of these.
    pub rows: List<DeviceRow>,
    /// Its attached pointers.
    pub attached: List<Attachment>,
    /// Its queues that are not empty.
    pub queues: List<QueueLine>,
    /// Whether it is known which bytes are behind or unfilled.
    pub is_known: bool,
    /// Bytes that are behind or unfilled.
    pub strips: List<Strip>,
}

// By hand, so that a crate above does not prove the drops of its parts again.
impl Drop for DevicePicture {
    fn drop(self) {
        let DevicePicture {
            device: _,
            parts: _,
            stretches: _,
            rows: _,
            attached: _,
            queues: _,
            is_known: _,
            strips: _,
        } = self;
    }
}

impl DevicePicture {
    /// What a device of a table has. Where it is known which bytes are behind or unfilled, these are added.
    pub fn new(
        alloc: Global,
        table: &Table,
        names: &Names,
        known: Option<&Known>,
        device: u64,
    ) -> DevicePicture {
        let mut scene = DevicePicture {
            device,
            parts: List::new(alloc),
            stretches: List::new(alloc),
            rows: List::new(alloc),
            attached: List::new(alloc),
            queues: List::new(alloc),
            is_known: known.is_some(),
            strips: List::new(alloc),
        };
        scene.gather(alloc, table, names);
        scene.mark(known);
        scene
    }

    fn gather(&mut self, alloc: Global, table: &Table, names: &Names) {
        add_parts(table, names, self.device, &mut self.parts);
        add_stretches(
            alloc,
            table,
            self.device,
            &self.parts.all,
            &mut self.stretches,
        );
        self.add_rows();
        self.attach(table);
        add_queues(alloc, table, self.device, &mut self.queues);
    }

    fn mark(&mut self, known: Option<&Known>) {
        if let Some(known) = known {
            add_host_strips(known, &self.parts.all, &mut self.strips);
            add_device_strips(known, self.device, &self.stretches.all, &mut self.strips);
        }
    }

    fn add_rows(&mut self) {
        let stretches = &self.stretches.all;
        for group in stretches.chunks(group_size(stretches.len())) {
            if let Some(row) = device_row(group) {
                self.rows.add(row);
            }
        }
    }

    fn attach(&mut self, table: &Table) {
        for part in &self.parts.all {
            add_attached(table, self.device, *part, &mut self.attached);
        }
        for attached in &self.attached.all {
            let place = table.device_address(self.device, attached.pointer);
            attach(&mut self.rows.all, place, *attached);
        }
    }

    /// Whether there was no memory for some of it.
    pub fn wants(&self) -> bool {
        let host = self.parts.wants | self.strips.wants | self.queues.wants;
        host | self.stretches.wants | self.rows.wants | self.attached.wants
    }

    /// The lower edge of its rows, in pixels.
    pub fn foot(&self) -> u64 {
        let count = self.parts.all.len();
        let host = count.div_ceil(group_size(count));
        row_y(host.max(self.rows.all.len()))
    }

    /// The height of its picture, in pixels.
    pub fn height(&self) -> u64 {
        let lines = LINE_PITCH.saturating_mul(self.queues.all.len() as u64);
        self.foot().saturating_add(lines).saturating_add(MARGIN)
    }
}

fn attach(rows: &mut [DeviceRow], place: Option<u64>, attached: Attachment) {
    let Some(place) = place else {
        return;
    };
    let nth = last_from(rows, place).unwrap_or(0);
    if let Some(row) = rows.get_mut(nth) {
        row.attach(attached);
    }
}
