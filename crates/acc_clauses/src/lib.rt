//! The clauses of data directives, and their queues, on one device at a time. A directive is judged whole, then all
//! room is made, and then it is done.
//!
//! Judging allocates nothing and changes nothing. Making room changes nothing else. Doing allocates nothing and is
//! never refused.
#![tactic(auto)]

mod acted;
mod acting;
mod aim_effects;
mod aims;
mod bases;
mod carrying;
mod comparing;
mod copies;
mod devices;
mod drafts;
mod draining;
mod effects;
mod environments;
mod finishing;
mod items;
mod judging;
mod lending;
mod notes;
mod outlines;
mod planning;
mod plans;
mod pointers;
mod readings;
mod recent;
mod rows;
mod running;
mod sections;
mod shared;
mod slates;
mod spans;
mod targets;
mod transfers;
mod views;

pub use acc_present::Place;
pub use acted::Acted;
pub use bases::{Base, DeviceBase};
pub use devices::DeviceData;
pub use judging::check_host;
pub use planning::{check_items, device_named};
pub use plans::Plan;
pub use shared::Shared;
pub use views::View;
