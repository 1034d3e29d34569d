//! The words of an OpenACC 3.3 data runtime: sections, data clause items, directives, events, faults and limits. And
//! the definitions that the contracts of every crate cite.
//!
//! `specs/` says what a directive does, in OpenACC's words and apart from any code; `docs/MODEL.md` says the same in
//! prose.
#![tactic(auto)]

mod addresses;
mod attachments;
mod calls;
mod configs;
mod directives;
mod events;
mod faults;
mod items;
mod lists;
mod loans;
mod mappings;
mod regions;
mod steps;
mod tasks;
mod transfers;

pub use addresses::{DEVICE_BASE, HOST_BASE, MEMORY_MAX};
pub use attachments::{Aim, Attachment};
pub use calls::Call;
pub use configs::Config;
pub use directives::Directive;
pub use events::{Did, Event, Step};
pub use faults::{Fault, ScriptFault};
pub use items::{EnterClause, ExitClause, Item, RegionClause, Section, UpdateClause};
pub use lists::List;
pub use loans::Loan;
pub use mappings::{Block, Counter, Counters, Ended, Found, Free, Hole, Range};
pub use regions::Holding;
pub use steps::Steps;
pub use tasks::Task;
pub use transfers::{QUEUE_COUNT, Transfer};
