//! A picture of host memory and of each device's memory, as a file of SVG that a browser opens. Devices stand one below
//! the other.
//!
//! Two bars show the memories to scale. Below them mapped ranges, blocks and holes are rows by rising address. Rows are
//! not to scale, so that each has room for its text. Where there are many, neighbours share a row.
#![tactic(auto)]

mod arrows;
mod bars;
mod device_pictures;
mod device_rows;
mod gathering;
mod host_rows;
mod links;
mod lists;
mod marks;
mod pictures;
mod places;
mod queues;
mod shapes;
mod short_names;
mod styles;

pub use pictures::{Caption, put_picture};
