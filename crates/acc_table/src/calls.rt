//! The calls on a table, their replies, and lists of turns.

use acc_base::{Directive, Fault, List, Section};
use acc_lend::Lease;

/// A call on a table, which may bring a lease back.
pub type Call = acc_base::Call<Lease>;

/// Lets a call go that is not made, as one that was refused and came back. A lease that it brings is abandoned: its
/// block stays lent for good.
pub fn abandon(call: Call) {
    match call {
        Call::Gather(lease) => lease.abandon(),
        Call::Do(directive) => drop(directive),
        Call::HostWrite { addr: _, bytes } => drop(bytes),
        Call::Lend {
            region: _,
            section: _,
        } => {}
    }
}

/// Abandons each lease of a list, as [`Table::run`](crate::Table::run) may leave it: their blocks stay lent for good.
pub fn abandon_all(leases: Vec<Lease>) {
    let mut leases = leases;
    while let Some(lease) = leases.pop() {
        lease.abandon();
    }
    leases.destroy_empty();
}

/// The reply to an accepted call. It has to be spent where it may hold a lease.
pub enum Reply {
    /// It is done, and there is nothing more to say.
    Done,
    /// A data region was entered.
    Entered {
        /// The number of the region, by which it is exited. Numbers rise from 1, and none is used twice.
        number: u64,
    },
    /// A block was lent (OpenACC 3.3, section 2.5, compute constructs). Its bytes are in this lease until it is
    /// gathered.
    Lease(Lease),
    /// The queued transfers that a `wait` named were made.
    Drained {
        /// How many they were.
        count: u64,
    },
    /// The queue of a step was empty: there was nothing to do, and it is no event.
    Idle,
}

impl Reply {
    /// Lets the reply go. A lease is abandoned: its block stays lent for good.
    pub fn abandon(self) {
        match self {
            Reply::Lease(lease) => lease.abandon(),
            Reply::Done => {}
            Reply::Entered { number: _ } => {}
            Reply::Drained { count: _ } => {}
            Reply::Idle => {}
        }
    }
}

/// One of a list of calls that are made one after the other.
#[derive(Debug, Drop)]
pub enum Turn {
    /// Carry out a directive.
    Do(Directive),
    /// Write into host memory.
    HostWrite {
        /// The first host address.
        addr: u64,
        /// The bytes to write from there on.
        bytes: List<u8>,
    },
    /// Lend the block of a section in an open data region (OpenACC 3.3, section 2.5, compute constructs).
    Lend {
        /// The number of the region.
        region: u64,
        /// The section of host memory whose bytes on the device are lent.
        section: Section,
    },
    /// Write bytes over those that a lease lends, and bring it back.
    Back {
        /// The serial number of the loan.
        serial: u64,
        /// The bytes, as many as are lent.
        bytes: List<u8>,
    },
}

/// What came of a turn.
#[derive(Clone, Copy, Debug, PartialEq, Eq)]
pub enum Answer {
    /// It was accepted.
    Replied {
        /// The number of the region that it entered, or the serial number of the loan that it made, and else 0.
        number: u64,
        /// How many transfers it made, where it was a `wait`, and else 0.
        count: u64,
    },
    /// It was the step of an empty queue: there was nothing to do, and it is no event.
    Idle,
    /// It was refused, and nothing changed.
    Refused(Fault),
}

/// A mapped range, as it is reported.
#[derive(Clone, Copy, Debug, PartialEq, Eq)]
pub struct Mapped {
    /// The first host address.
    pub start: u64,
    /// The length in bytes.
    pub len: u64,
    /// The device address that the first host address is mapped to.
    pub place: u64,
    /// The structured reference counter.
    pub structured: u64,
    /// The dynamic reference counter.
    pub dynamic: u64,
    /// Whether its block is lent, so that its bytes on the device are in a lease.
    pub lent: bool,
}
