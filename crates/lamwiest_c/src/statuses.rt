//! What a call returns to C: a status, and the fields of a refusal.

ghost use Rattle.std.specs.Prelude.{◌≡◌, Option};
ghost use Rattle.acc_base.specs.Faults.{number_of};
ghost use Rattle.lamwiest_c.specs.Statuses.{kind_number, kind_of, item_of, value_of, status_of, fields_of, status_in, fields_in, number_after, refusal_in};

use acc_base::{Fault, ScriptFault};
use std::alloc::{AllocError, AllocFailed};

/// It is done.
pub const DONE: u32 = 0;

/// The handle has no table: none was made, or it was ended.
pub const ENDED: u32 = 32;

/// The clause number of an item is none of the directive's.
pub const BAD_CLAUSE: u32 = 33;

/// A buffer is too short for the text, or has another length than the lease has bytes.
pub const BAD_LENGTH: u32 = 34;

/// There is no such thing: nothing is mapped there, or no refusal has that status.
pub const ABSENT: u32 = 35;

/// The program was compiled with another header than the library's.
pub const BAD_VERSION: u32 = 36;

/// Why a call from C was refused. A refused call changes nothing; a script that ends at a fault has printed.
#[derive(Clone, Copy)]
pub enum Refusal {
    /// The handle has no table.
    Ended,
    /// The clause number of an item is none of the directive's.
    BadClause {
        /// The place of the item in the array, counted from 0.
        item: u64,
    },
    /// The length of a buffer is not the one that is expected.
    BadLength {
        /// The length that is expected, in bytes.
        len: u64,
    },
    /// There is no such thing.
    Absent,
    /// The program was compiled with another header than the library's, and no version of it that the library knows.
    BadVersion {
        /// The version of the library.
        library: u64,
    },
    /// The table refused the call.
    OfTable(Fault),
}

/// A refusal as C sees it: its status, and its fields. All are 0 where a call was done.
#[repr(C)]
#[derive(Clone, Copy)]
pub struct FaultFields {
    /// The status: the number of the refusal.
    pub status: u32,
    /// The place of the item that is refused, counted from 0; 0 where the refusal names none. Of a script's line it is
    /// what is wrong there, from 1 to 9.
    pub item: u64,
    /// The other number of the refusal; 0 where it has none. It is how many tickets or regions are left, or how many
    /// items or events there are. Or it is the queue, block, region, lease or device that is meant, how many bytes are
    /// wanted, the version of the library, or the line of a script.
    pub value: u64,
}

/// The number of what is wrong with a line of a script.
fn kind_number(kind: ScriptFault) -> u64
    ensures { result ≡ kind_number kind }
{
    match kind {
        ScriptFault::TooLong => 1,
        ScriptFault::NotText => 2,
        ScriptFault::Syntax => 3,
        ScriptFault::Number => 4,
        ScriptFault::UnknownName => 5,
        ScriptFault::NameTaken => 6,
        ScriptFault::HostFull => 7,
        ScriptFault::NoOpenRegion => 8,
        ScriptFault::Unclosed => 9,
    }
}

fn kind_of(number: u64) -> Option<ScriptFault>
    ensures { result ≡ kind_of number }
{
    match number {
        1 => Some(ScriptFault::TooLong),
        2 => Some(ScriptFault::NotText),
        3 => Some(ScriptFault::Syntax),
        4 => Some(ScriptFault::Number),
        5 => Some(ScriptFault::UnknownName),
        6 => Some(ScriptFault::NameTaken),
        7 => Some(ScriptFault::HostFull),
        8 => Some(ScriptFault::NoOpenRegion),
        9 => Some(ScriptFault::Unclosed),
        _ => None,
    }
}

fn item_of(fault: Fault) -> u64
    ensures { result ≡ item_of fault }
{
    match fault {
        Fault::OutOfHost { item }
        | Fault::Misaligned { item }
        | Fault::PartlyPresent { item }
        | Fault::NotPresent { item }
        | Fault::CounterFull { item }
        | Fault::DeviceFull { item, .. } => item,
        Fault::Script { kind, .. } => kind_number(kind),
        _ => 0,
    }
}

fn value_of(fault: Fault) -> u64
    ensures { result ≡ value_of fault }
{
    match fault {
        Fault::NoTickets { left } | Fault::NoAllowance { left } => left,
        Fault::TooManyItems { n } => n,
        Fault::TraceFull { len } => len,
        Fault::NoQueue { q } | Fault::QueueFull { q } => q,
        Fault::Lent { block } => block,
        Fault::DeviceFull { need, .. } => need,
        Fault::NoRegion { number } => number,
        Fault::NoLease { serial } => serial,
        Fault::NoDevice { device } => device,
        Fault::Script { line, .. } => line,
        _ => 0,
    }
}

fn number_of(fault: Fault) -> u32
    ensures { result ≡ number_of fault }
{
    fault.number() as u32
}

impl Refusal {
    /// The status: that of a table's fault is its number.
    pub fn status(self) -> u32
        ensures { result ≡ status_of self }
    {
        match self {
            Refusal::Ended => ENDED,
            Refusal::BadClause { .. } => BAD_CLAUSE,
            Refusal::BadLength { .. } => BAD_LENGTH,
            Refusal::Absent => ABSENT,
            Refusal::BadVersion { .. } => BAD_VERSION,
            Refusal::OfTable(fault) => number_of(fault),
        }
    }

    /// The refusal as C sees it: its status and its fields.
    pub fn fields(self) -> FaultFields
        ensures { result ≡ fields_of self }
    {
        let (item, value) = match self {
            Refusal::Ended | Refusal::Absent => (0, 0),
            Refusal::BadClause { item } => (item, 0),
            Refusal::BadLength { len: value } | Refusal::BadVersion { library: value } => (
                0, value,
            ),
            Refusal::OfTable(fault) => (item_of(fault), value_of(fault)),
        };
        FaultFields {
            status: self.status(),
            item,
            value,
        }
    }
}

impl FaultFields {
    /// The refusal that has these fields, if its status is that of one.
    pub fn refusal(&self) -> Option<Refusal>
        ensures { result ≡ refusal_in self.now }
    {
        let item = self.item;
        let value = self.value;
        match self.status {
            1 => Some(Refusal::OfTable(Fault::Memory)),
            2 => Some(Refusal::OfTable(Fault::BadConfig)),
            3 => Some(Refusal::OfTable(Fault::NoTickets { left: value })),
            4 => Some(Refusal::OfTable(Fault::NoAllowance { left: value })),
            5 => Some(Refusal::OfTable(Fault::TooManyItems { n: value })),
            6 => Some(Refusal::OfTable(Fault::TraceFull { len: value })),
            7 => Some(Refusal::OfTable(Fault::OutOfHost { item })),
            8 => Some(Refusal::OfTable(Fault::Misaligned { item })),
            9 => Some(Refusal::OfTable(Fault::NoQueue { q: value })),
            10 => Some(Refusal::OfTable(Fault::PartlyPresent { item })),
            11 => Some(Refusal::OfTable(Fault::NotPresent { item })),
            12 => Some(Refusal::OfTable(Fault::CounterFull { item })),
            13 => Some(Refusal::OfTable(Fault::Lent { block: value })),
            14 => Some(Refusal::OfTable(Fault::DeviceFull { item, need: value })),
            15 => Some(Refusal::OfTable(Fault::QueueFull { q: value })),
            16 => Some(Refusal::OfTable(Fault::NoRegion { number: value })),
            17 => Some(Refusal::OfTable(Fault::NoLease { serial: value })),
            19 => Some(Refusal::OfTable(Fault::Script {
                line: value,
                kind: kind_of(item)?,
            })),
            22 => Some(Refusal::OfTable(Fault::NoDevice { device: value })),
            ENDED => Some(Refusal::Ended),
            BAD_CLAUSE => Some(Refusal::BadClause { item }),
            BAD_LENGTH => Some(Refusal::BadLength { len: value }),
            ABSENT => Some(Refusal::Absent),
            BAD_VERSION => Some(Refusal::BadVersion { library: value }),
            _ => None,
        }
    }
}

impl From<Fault> for Refusal {
    ghost use Rattle.std.specs.Prelude.{◌≡◌};
    ghost use Rattle.lamwiest_c.specs.declared.statuses.Refusal.TheVariants.{OfTable};

    ghost from_gives = { λ fault refusal. refusal ≡ OfTable fault };

    fn from(fault: Fault) -> Refusal {
        Refusal::OfTable(fault)
    }
}

impl From<AllocError> for Refusal {
    ghost use Rattle.std.specs.Prelude.{◌≡◌};
    ghost use Rattle.acc_base.specs.declared.faults.Fault.TheVariants.{Memory};
    ghost use Rattle.lamwiest_c.specs.declared.statuses.Refusal.TheVariants.{OfTable};

    ghost from_gives = { λ _ refusal. refusal ≡ OfTable Memory };

    fn from(_error: AllocError) -> Refusal {
        Refusal::OfTable(Fault::Memory)
    }
}

impl<T: Drop> From<AllocFailed<T>> for Refusal {
    ghost use Rattle.std.specs.Prelude.{◌≡◌};
    ghost use Rattle.acc_base.specs.declared.faults.Fault.TheVariants.{Memory};
    ghost use Rattle.lamwiest_c.specs.declared.statuses.Refusal.TheVariants.{OfTable};

    ghost from_gives = { λ _ refusal. refusal ≡ OfTable Memory };

    fn from(_error: AllocFailed<T>) -> Refusal {
        Refusal::OfTable(Fault::Memory)
    }
}

/// Gives C the outcome of a call: its status, the fields of its refusal, and the number that it returned. Of a refused
/// call the number stays as it was.
pub fn tell_number(made: Result<u64, Refusal>, number: &mut u64, fault: &mut FaultFields) -> u32
    ensures status { result ≡ status_in made }
    ensures fields { fault.new ≡ fields_in made }
    ensures number { number.new ≡ number_after made number.old }
{
    if let Ok(told) = made {
        *number = told;
    }
    tell(made, fault)
}

/// Gives C the outcome of a call that returns no number: its status, and the fields of its refusal.
pub fn tell(made: Result<u64, Refusal>, fault: &mut FaultFields) -> u32
    ensures status { result ≡ status_in made }
    ensures fields { fault.new ≡ fields_in made }
{
    match made {
        Ok(_) => {
            *fault = FaultFields {
                status: DONE,
                item: 0,
                value: 0,
            };
            DONE
        }
        Err(refusal) => {
            *fault = refusal.fields();
            refusal.status()
        }
    }
}
