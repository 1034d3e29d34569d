//! Why a call was refused.

ghost use Rattle.std.specs.Prelude.{◌≡◌};

use std::alloc::{AllocError, AllocFailed};
use std::error::Error;
use std::fmt;

/// Why a call was refused, or why the run of a script ended early.
///
/// A refused call on a table changes nothing; what the run of a script wrote before its fault stands.
///
/// An `item` is the item's place in the directive's written list, counted from 0. `Display` writes the number, the
/// name, and each field with its value, as `14 DeviceFull item 0 need 32`.
#[derive(Clone, Copy, Debug, PartialEq, Eq)]
pub enum Fault {
    /// There was no memory for the call.
    Memory,
    /// A limit of the configuration is out of its bounds.
    BadConfig,
    /// There is no ticket for one more event.
    NoTickets {
        /// How many tickets are left.
        left: u64,
    },
    /// No further data region may be opened.
    NoAllowance {
        /// How many regions may still be opened.
        left: u64,
    },
    /// The directive has more items than are allowed.
    TooManyItems {
        /// How many it has.
        n: u64,
    },
    /// The stored trace is full.
    TraceFull {
        /// How many events it has.
        len: u64,
    },
    /// A section that is not empty, or a pointer's eight bytes, are not in host memory.
    OutOfHost {
        /// The item's place in the written list, from 0.
        item: u64,
    },
    /// The address of a pointer is not a multiple of 8.
    Misaligned {
        /// The item's place in the written list, from 0.
        item: u64,
    },
    /// There is no such queue.
    NoQueue {
        /// The number of the queue.
        q: u64,
    },
    /// Some addresses of the section are mapped, but no one mapped range has them all.
    PartlyPresent {
        /// The item's place in the written list, from 0.
        item: u64,
    },
    /// The section has to be present and is not.
    NotPresent {
        /// The item's place in the written list, from 0.
        item: u64,
    },
    /// A reference or attachment counter is at its limit.
    CounterFull {
        /// The item's place in the written list, from 0.
        item: u64,
    },
    /// The block is out on loan to a kernel.
    Lent {
        /// The number of the block.
        block: u64,
    },
    /// No free part of device memory is large enough for a new block.
    DeviceFull {
        /// The item's place in the written list, from 0.
        item: u64,
        /// The length of the block in bytes, rounded up to a multiple of 16.
        need: u64,
    },
    /// The queue has no room for one more transfer.
    QueueFull {
        /// The number of the queue.
        q: u64,
    },
    /// No region of that number is open.
    NoRegion {
        /// The number of the region.
        number: u64,
    },
    /// The lease fits no loan.
    NoLease {
        /// The serial number of the lease.
        serial: u64,
    },
    /// The parts that a loan is to be cut into are none, too many, empty, or too long in all.
    BadCuts,
    /// A line of a script is at fault.
    Script {
        /// The number of the line, counted from 1.
        line: u64,
        /// What is wrong with it.
        kind: ScriptFault,
    },
    /// The reader failed, or gave more than 16,777,216 bytes.
    Read,
    /// The writer failed.
    Write,
    /// There is no such device.
    NoDevice {
        /// The number of the device.
        device: u64,
    },
}

/// What is wrong with a line of a script. `Display` writes the name.
#[derive(Clone, Copy, Debug, PartialEq, Eq)]
pub enum ScriptFault {
    /// The line has more than 4,096 bytes.
    TooLong,
    /// There is a byte before any comment that is no printable ASCII character, blank or tab.
    NotText,
    /// A token does not fit, is missing, or is one too many.
    Syntax,
    /// A number is out of its bounds.
    Number,
    /// No earlier line declared the name.
    UnknownName,
    /// The name is declared already.
    NameTaken,
    /// The array does not end within host memory.
    HostFull,
    /// No region is open.
    NoOpenRegion,
    /// The input ends with an open region.
    Unclosed,
}

impl Fault {
    ghost use Rattle.acc_base.specs.Faults.{number_of, name_of};

    /// The number of the fault, from 1 to 22.
    pub fn number(&self) -> u64
        ensures { result ≡ number_of self.now }
    {
        match self {
            Fault::Memory => 1,
            Fault::BadConfig => 2,
            Fault::NoTickets { .. } => 3,
            Fault::NoAllowance { .. } => 4,
            Fault::TooManyItems { .. } => 5,
            Fault::TraceFull { .. } => 6,
            Fault::OutOfHost { .. } => 7,
            Fault::Misaligned { .. } => 8,
            Fault::NoQueue { .. } => 9,
            Fault::PartlyPresent { .. } => 10,
            Fault::NotPresent { .. } => 11,
            Fault::CounterFull { .. } => 12,
            Fault::Lent { .. } => 13,
            Fault::DeviceFull { .. } => 14,
            Fault::QueueFull { .. } => 15,
            Fault::NoRegion { .. } => 16,
            Fault::NoLease { .. } => 17,
            Fault::BadCuts => 18,
            Fault::Script { .. } => 19,
            Fault::Read => 20,
            Fault::Write => 21,
            Fault::NoDevice { .. } => 22,
        }
    }

    /// The name of the fault, as its variant is written.
    pub fn name(&self) -> &'static str
        ensures { result.now ≡ name_of self.now }
    {
        match self {
            Fault::Memory => "Memory",
            Fault::BadConfig => "BadConfig",
            Fault::NoTickets { .. } => "NoTickets",
            Fault::NoAllowance { .. } => "NoAllowance",
            Fault::TooManyItems { .. } => "TooManyItems",
            Fault::TraceFull { .. } => "TraceFull",
            Fault::OutOfHost { .. } => "OutOfHost",
            Fault::Misaligned { .. } => "Misaligned",
            Fault::NoQueue { .. } => "NoQueue",
            Fault::PartlyPresent { .. } => "PartlyPresent",
            Fault::NotPresent { .. } => "NotPresent",
            Fault::CounterFull { .. } => "CounterFull",
            Fault::Lent { .. } => "Lent",
            Fault::DeviceFull { .. } => "DeviceFull",
            Fault::QueueFull { .. } => "QueueFull",
            Fault::NoRegion { .. } => "NoRegion",
            Fault::NoLease { .. } => "NoLease",
            Fault::BadCuts => "BadCuts",
            Fault::Script { .. } => "Script",
            Fault::Read => "Read",
            Fault::Write => "Write",
            Fault::NoDevice { .. } => "NoDevice",
        }
    }
}

impl ScriptFault {
    ghost use Rattle.acc_base.specs.Faults.{kind_name_of};

    /// The name of the kind, as its variant is written.
    pub fn name(&self) -> &'static str
        ensures { result.now ≡ kind_name_of self.now }
    {
        match self {
            ScriptFault::TooLong => "TooLong",
            ScriptFault::NotText => "NotText",
            ScriptFault::Syntax => "Syntax",
            ScriptFault::Number => "Number",
            ScriptFault::UnknownName => "UnknownName",
            ScriptFault::NameTaken => "NameTaken",
            ScriptFault::HostFull => "HostFull",
            ScriptFault::NoOpenRegion => "NoOpenRegion",
            ScriptFault::Unclosed => "Unclosed",
        }
    }
}

impl fmt::Display for ScriptFault {
    ghost use Rattle.std.specs.Prelude.{Some};
    ghost use Rattle.acc_base.specs.Faults.{kind_name_of};

    ghost output = { λ kind. Some (kind_name_of kind) };

    fn fmt<W: fmt::Write>(&self, f: &mut fmt::Formatter<W>) -> fmt::Result {
        f.write_str(self.name())
    }
}

impl fmt::Display for Fault {
    ghost use Rattle.std.specs.Prelude.{Some};
    ghost use Rattle.acc_base.specs.Faults.{fault_text};

    ghost output = { λ fault. Some (fault_text fault) };

    fn fmt<W: fmt::Write>(&self, f: &mut fmt::Formatter<W>) -> fmt::Result {
        let number = self.number();
        let name = self.name();
        match *self {
            Fault::Memory | Fault::BadConfig | Fault::BadCuts | Fault::Read | Fault::Write => {
                write!(f, "{number} {name}")
            }
            Fault::NoTickets { left } | Fault::NoAllowance { left } => {
                write!(f, "{number} {name} left {left}")
            }
            Fault::TooManyItems { n } => write!(f, "{number} {name} n {n}"),
            Fault::TraceFull { len } => write!(f, "{number} {name} len {len}"),
            Fault::OutOfHost { item }
            | Fault::Misaligned { item }
            | Fault::PartlyPresent { item }
            | Fault::NotPresent { item }
            | Fault::CounterFull { item } => write!(f, "{number} {name} item {item}"),
            Fault::NoQueue { q } | Fault::QueueFull { q } => write!(f, "{number} {name} q {q}"),
            Fault::Lent { block } => write!(f, "{number} {name} block {block}"),
            Fault::DeviceFull { item, need } => {
                write!(f, "{number} {name} item {item} need {need}")
            }
            Fault::NoRegion { number: region } => write!(f, "{number} {name} number {region}"),
            Fault::NoDevice { device } => write!(f, "{number} {name} device {device}"),
            Fault::NoLease { serial } => write!(f, "{number} {name} serial {serial}"),
            Fault::Script { line, kind } => write!(f, "{number} {name} line {line} kind {kind}"),
        }
    }
}

impl Error for Fault {}

impl From<AllocError> for Fault {
    ghost use Rattle.std.specs.Prelude.{◌≡◌};
    ghost use Rattle.acc_base.specs.declared.faults.Fault.TheVariants.{Memory};

    ghost from_gives = { λ _ fault. fault ≡ Memory };

    fn from(_error: AllocError) -> Fault {
        Fault::Memory
    }
}

impl<T: Drop> From<AllocFailed<T>> for Fault {
    ghost use Rattle.std.specs.Prelude.{◌≡◌};
    ghost use Rattle.acc_base.specs.declared.faults.Fault.TheVariants.{Memory};

    ghost from_gives = { λ _ fault. fault ≡ Memory };

    fn from(_error: AllocFailed<T>) -> Fault {
        Fault::Memory
    }
}
