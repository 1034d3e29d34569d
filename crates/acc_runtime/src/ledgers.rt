//! The ledgers of which callers have shares, before they are opened, and the limits that go with them.

ghost use Rattle.std.specs.Prelude.{false};
ghost use Rattle.acc_base.specs.Limits.{Limits, limits_of};

use std::marker::Brand;
use std::sync::ledger::{Blank, Ledger};

/// The ledger of the regions of a runtime. Its type also has the limits of that runtime: so the table behind a lock has
/// the limits that are read without it.
pub trait Limited: Ledger {
    /// The limits of the runtime.
    ghost limits: { Limits };
}

impl Limited for Brand {
    ghost limits = { limits_of 0 0 0 0 0 0 0 false 0 };
}

/// The blanks of the three ledgers of a runtime: [`blanks`](crate::blanks) makes them, and
/// [`Runtime::new`](crate::Runtime::new) opens them. They take no bytes.
#[derive(Drop)]
pub struct Blanks {
    /// One part for each region that may be open.
    pub regions: Blank,
    /// One part for each ticket.
    pub tickets: Blank,
    /// One part for each event that may be made.
    pub events: Blank,
}
