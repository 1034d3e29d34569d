//! Where the parts of a picture lie.

ghost use Rattle.std.specs.Prelude.{◌≤◌};

use crate::shapes::{Area, Point};

/// How far the picture's content stands from its edges. All lengths here are pixels.
pub const MARGIN: u64 = 10;

/// The width of the picture: that of a page of text.
pub const WIDTH: u64 = 830;

/// The left edge of the bars.
pub const BAR_X: u64 = 130;

/// The width of a bar, in pixels: that of the whole memory.
pub const BAR_WIDTH: u64 = 690;

/// The height of a bar, in pixels.
pub const BAR_HEIGHT: u64 = 16;

/// The upper edge of the first row.
pub const ROWS_Y: u64 = 116;

/// The height of a row, in pixels.
pub const ROW_HEIGHT: u64 = 18;

/// How far a row stands below the one before.
pub const ROW_PITCH: u64 = 23;

/// How far a line of text stands below the one before.
pub const LINE_PITCH: u64 = 18;

/// The left edge of the rows of host memory.
pub const HOST_X: u64 = MARGIN;

/// The right edge of the rows of host memory.
pub const HOST_END: u64 = 380;

/// The left edge of the rows of the device.
pub const DEVICE_X: u64 = 420;

/// The right edge of the rows of the device.
pub const DEVICE_END: u64 = 784;

/// Where the name of a row begins, from the row's left edge; so are the columns below.
pub const NAME: u64 = 6;

/// Where the address of a row of host memory begins.
pub const HOST_ADDRESS: u64 = 98;

/// Where the bytes of a row of host memory begin.
pub const HOST_BYTES: u64 = 170;

/// Where the structured counter of a row of host memory begins.
pub const STRUCTURED: u64 = 234;

/// Where the dynamic counter of a row of host memory begins.
pub const DYNAMIC: u64 = 313;

/// Where a row of the device says that its block is lent, or its mapping has ended.
pub const STATE: u64 = 97;

/// Where the address of a row of the device begins.
pub const DEVICE_ADDRESS: u64 = 142;

/// Where the bytes of a row of the device begin.
pub const DEVICE_BYTES: u64 = 231;

/// Where the attached pointers of a row of the device begin.
pub const ATTACHED: u64 = 294;

/// How many letters of a name are shown at most.
pub const NAME_LIMIT: usize = 12;

/// How many rows a memory has at most before neighbours share one.
pub const ROW_LIMIT: usize = 130;

/// How many rows there are at most where neighbours share one.
pub const GROUP_LIMIT: usize = 64;

/// The upper edge of the row of a number, counted from 0.
pub fn row_y(nth: usize) -> u64 {
    ROWS_Y.saturating_add(ROW_PITCH.saturating_mul(nth as u64))
}

/// Where the row of a number lies in host memory's column.
pub fn host_area(nth: usize) -> Area {
    Area {
        x: HOST_X,
        y: row_y(nth),
        width: HOST_END - HOST_X,
        height: ROW_HEIGHT,
    }
}

/// Where the row of a number lies in the device's column.
pub fn device_area(nth: usize) -> Area {
    Area {
        x: DEVICE_X,
        y: row_y(nth),
        width: DEVICE_END - DEVICE_X,
        height: ROW_HEIGHT,
    }
}

/// Where a text begins that stands `x` from the left edge of a row.
pub fn text_in(area: Area, x: u64) -> Point {
    Point {
        x: area.x.saturating_add(x),
        y: area.y.saturating_add(13),
    }
}

/// The point at `x` half way down the row of a number.
pub fn middle_of(nth: usize, x: u64) -> Point {
    Point {
        x,
        y: row_y(nth).saturating_add(ROW_HEIGHT / 2),
    }
}

/// How many neighbours share a row, where there are so many stretches; 1 up to `ROW_LIMIT`.
pub fn group_size(count: usize) -> usize
    ensures { 1 ≤ result }
{
    if count <= ROW_LIMIT {
        1
    } else {
        count.div_ceil(GROUP_LIMIT)
    }
}

/// What has addresses that lie side by side.
pub trait Addressed {
    /// The first of them.
    fn address(&self) -> u64;
}

/// The number of the last one that begins at an address or below it, counted from 0, where all lie by rising address.
pub fn last_from<T: Addressed>(all: &[T], address: u64) -> Option<usize> {
    let mut last = None;
    for (nth, one) in all.iter().enumerate() {
        if address < one.address() {
            break;
        }
        last = Some(nth);
    }
    last
}
