//! Which bytes are stale: those of which another memory has had a newer one, and those that nothing ever filled. And an
//! account, which tells what each item of an event did, and what it left of blocks, counters, pointers and queues.
#![tactic(auto)]

mod accounts;
mod changes;
mod events;
mod items;
mod known;
mod marks;
mod tasks;
mod tellings;
mod trackers;
mod writes;

pub use accounts::{Account, Held, Told, has_address};
pub use items::{Holder, ItemDone, Watch};
pub use known::{Known, Placed, pointer_at};
pub use marks::{Mark, Run};
pub use tellings::{ItemTold, NextTold};
pub use trackers::Tracker;
pub use writes::Part;
