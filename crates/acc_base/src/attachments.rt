//! The attachment counters of pointers on the device.

ghost use Rattle.std.specs.Prelude.{◌≡◌};
ghost use Rattle.acc_base.specs.Walk.{pointer_attached};

/// The attachment counter of a pointer, which is above zero (OpenACC 3.3, section 2.6.8).
#[derive(Clone, Copy, Debug, PartialEq, Eq)]
pub struct Attachment {
    /// The number of the block that holds the pointer.
    pub block: u64,
    /// The host address of the pointer, which is eight bytes long.
    pub pointer: u64,
    /// How often it is attached.
    pub count: u64,
}

/// What an attachment or a detachment did to a pointer in a block (OpenACC 3.3, sections 2.6.8 and 2.7.2).
#[derive(Clone, Copy, Debug, Default, PartialEq, Eq)]
pub enum Aim {
    /// No attachment counter changed.
    #[default]
    None,
    /// The pointer was aimed at another target: the target's device address was written over its eight bytes on the
    /// device, and its counter is one.
    New {
        /// The host address of the pointer.
        pointer: u64,
        /// The number of the block that holds it.
        block: u64,
        /// The device address of the target.
        target: u64,
    },
    /// The pointer was aimed at the same target again: its counter rose by one.
    Again {
        /// The host address of the pointer.
        pointer: u64,
        /// The number of the block that holds it.
        block: u64,
    },
    /// The pointer's counter fell by one. At zero its eight bytes on the device became those of the host's pointer.
    Less {
        /// The host address of the pointer.
        pointer: u64,
        /// The number of the block that holds it.
        block: u64,
    },
    /// The pointer was detached at once: its counter is zero, and its eight bytes on the device became those of the
    /// host's pointer.
    Cleared {
        /// The host address of the pointer.
        pointer: u64,
        /// The number of the block that holds it.
        block: u64,
    },
}

impl Aim {
    /// The pointer that was attached, and the block that holds it, if one was.
    pub fn pointer_attached(self) -> Option<(u64, u64)>
        ensures { result ≡ pointer_attached self }
    {
        match self {
            Aim::New { pointer, block, .. } => Some((pointer, block)),
            Aim::Again { pointer, block } => Some((pointer, block)),
            _ => None,
        }
    }
}
