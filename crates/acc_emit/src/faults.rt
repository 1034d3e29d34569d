//! Why a script cannot be emitted.

use acc_base::Fault;

/// What an OpenACC program cannot have.
#[derive(Clone, Copy)]
pub enum Reason {
    /// The statement is refused, and a program that goes on cannot have it.
    Refused,
    /// The refusal comes from a limit of the table, and not from OpenACC.
    Limit,
    /// A section, or a place, is not in one array.
    OutsideArray,
    /// A pointer is attached whose bytes no `point` wrote.
    Unpointed,
    /// A mapping ends, or a pointer is attached, while a copy of its bytes waits in another queue.
    Unsettled,
    /// A copy has a pointer that is attached.
    AttachedCopied,
    /// Another device than the first is chosen.
    OtherDevice,
    /// A program up to the first refusal is asked for, and no statement is refused.
    NothingRefused,
    /// The output that is given has fewer lines than the script prints.
    OutputEnds,
    /// It has more.
    OutputGoesOn,
}

impl Reason {
    /// Returns what is printed for it, behind the number of the line.
    pub fn text(self) -> &'static str {
        match self {
            Reason::Refused => "the statement is refused",
            Reason::Limit => "the refusal comes from a limit of this table",
            Reason::OutsideArray => "a section does not lie in one array",
            Reason::Unpointed => "a pointer is attached that no 'point' wrote",
            Reason::Unsettled => "the outcome depends on when a queued copy is made",
            Reason::AttachedCopied => "a copy has an attached pointer, which OpenACC leaves open",
            Reason::OtherDevice => "a program has device 0 alone",
            Reason::NothingRefused => "no statement was refused",
            Reason::OutputEnds => "the given output has no line for it",
            Reason::OutputGoesOn => "the given output has more lines than the script prints",
        }
    }
}

/// Why a script gives no program.
#[derive(Clone, Copy)]
pub enum EmitFault {
    /// A fault of the script, or lack of memory.
    Run(Fault),
    /// A line cannot be emitted.
    Line {
        /// The number of the line, counted from 1.
        line: u64,
        /// Why it cannot be emitted.
        reason: Reason,
    },
}

impl From<Fault> for EmitFault {
    fn from(fault: Fault) -> EmitFault {
        EmitFault::Run(fault)
    }
}
