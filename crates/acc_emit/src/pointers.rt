//! The pointers that a script wrote.

use crate::twins::DEVICE;
use acc_base::Section;
use acc_table::Table;

/// How many bytes a pointer has.
pub const POINTER_LEN: u64 = 8;

/// A host address that `point` wrote.
#[derive(Clone, Copy)]
pub struct Pointer {
    /// The host address of the pointer.
    pub place: u64,
    /// The host address that it got.
    pub target: u64,
    /// Whether nothing else has been written there since, and no copy that waits may do so.
    pub stands: bool,
}

/// Returns the section of the eight bytes of a pointer.
pub fn pointer_section(place: u64) -> Section {
    Section {
        start: place,
        len: POINTER_LEN,
    }
}

/// Returns whether the pointer at a host address is attached.
pub fn is_attached(table: &Table, place: u64) -> bool {
    table.attachment(DEVICE, place) > 0
}

/// Returns the bytes of a section, in host memory or on the device, if it has all of them.
pub fn bytes_at(table: &Table, section: Section, on_device: bool) -> Option<&[u8]> {
    if on_device {
        table.device_read(DEVICE, section)
    } else {
        table.host_read(section)
    }
}

/// Returns the address that the eight bytes at a place hold, the lowest byte first; 0 where they are not there.
pub fn word_at(table: &Table, place: u64, on_device: bool) -> u64 {
    let bytes = bytes_at(table, pointer_section(place), on_device).unwrap_or(&[]);
    u64::from_le_bytes(<[u8; 8]>::try_from(bytes).unwrap_or([0; 8]))
}
