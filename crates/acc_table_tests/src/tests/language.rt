//! What a row says: limits, and lines with calls and queries of a table and their answers.

use acc_base::Fault;

/// The limits in which rows differ.
#[derive(Clone, Copy)]
pub struct Limits {
    /// How many bytes host memory has.
    pub host: u64,
    /// How many bytes the memory of each device has.
    pub device: u64,
    pub regions: u64,
    pub tickets: u64,
    pub counter_max: u64,
    pub queue_cap: u64,
    pub trace_cap: u64,
    /// Whether events store bytes too.
    pub full: bool,
    pub devices: u64,
}

/// Limits that no turn reaches, but for room in a queue for one transfer.
pub const WIDE: Limits = Limits {
    host: 64,
    device: 64,
    regions: 2,
    tickets: 100,
    counter_max: 100,
    queue_cap: 1,
    trace_cap: 100,
    full: false,
    devices: 1,
};

/// The same, with full traces.
pub const FULL: Limits = Limits { full: true, ..WIDE };

/// The first host address of a section, and its length.
pub type At = (u64, u64);

/// A call on a table.
#[derive(Clone, Copy)]
pub enum Ask {
    /// What a line of a script says, where the first 16 bytes of host memory are the array `a`, and the next ones `b`.
    Do(&'static str),
    /// The exit from the region of this number.
    Exit(u64),
    /// A loan: the number of the region, and the section.
    Lend(u64, At),
    /// The bytes that a lease brings back, and the serial number of its loan. It stands in lists of turns alone.
    Back(u64, &'static [u8]),
}

/// Which loan a lease says that it is of.
#[derive(Clone, Copy)]
pub struct Loan {
    pub device: u64,
    pub serial: u64,
    pub block: u64,
    /// The place of the section in the block.
    pub offset: usize,
    /// The length of the section.
    pub len: usize,
}

/// A query with its answer.
#[derive(Clone, Copy)]
pub enum Check {
    /// The structured and the dynamic counter of a section.
    Counted(At, Option<(u64, u64)>),
    /// Bytes of host memory.
    Host(At, Option<&'static [u8]>),
    /// Bytes of device memory.
    Device(At, Option<&'static [u8]>),
    /// The bytes that the stored event of this number has.
    Bytes(usize, Option<&'static [u8]>),
    /// How many events are stored.
    Stored(usize),
    /// How many transfers wait in a queue.
    Queue(u64, u64),
    /// How many bytes of the device are used.
    Used(u64),
    /// How many events there are in all.
    Events(u64),
    /// How many ranges the base has on device 0.
    Ranges(usize),
}

/// A line of a row.
#[derive(Clone, Copy)]
pub enum Line {
    /// The call is done, with nothing more to say.
    Does(Ask),
    /// The call is done, and returns the number of the region that it enters, or of the loan that it makes.
    Gives(Ask, u64),
    /// The call is a `wait`, which makes so many transfers.
    Makes(Ask, u64),
    /// The call is the step of an empty queue.
    Idles(Ask),
    /// The call is refused.
    Refuses(Ask, Fault),
    /// The calls of these lines are made as a list of turns.
    Runs(&'static [Line]),
    /// The query is answered so.
    Says(Check),
    /// What follows is for the device of this number, where it is for one. At first it is for device 0.
    On(u64),
    /// So many directives map 64 ranges of 16 bytes each, side by side from the first host address on.
    Maps(u64),
    /// A rebase folds so many events.
    Rebases(u64),
    /// A kernel adds a number to each byte that the lease of this serial number lends.
    Adds(u64, u8),
    /// The lease of this serial number is brought back.
    Gathers(u64),
    /// A lease that the table did not make is brought, with these bytes as those of the whole block. It is refused for
    /// this or taken.
    Brings(Loan, &'static [u8], Option<Fault>),
}

/// Calls and queries of a new table with their answers.
pub struct Row {
    /// What it shows.
    pub name: &'static str,
    /// The limits of the table.
    pub limits: Limits,
    /// What is asked, and answered.
    pub lines: &'static [Line],
}
