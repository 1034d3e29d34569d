//! Why a line of a script gives no statement.

ghost use Rattle.std.specs.Prelude.{◌≡◌};
ghost use Rattle.acc_read.specs.declared.troubles.Trouble.TheVariants.{Memory, Line};

use acc_base::ScriptFault;
use std::alloc::AllocError;

/// Why a line gives no statement.
#[derive(Clone, Copy)]
pub enum Trouble {
    /// There was no memory for it.
    Memory,
    /// The line is at fault.
    Line(ScriptFault),
}

impl From<ScriptFault> for Trouble {
    ghost from_gives = { λ kind trouble. trouble ≡ Line kind };

    fn from(kind: ScriptFault) -> Trouble {
        Trouble::Line(kind)
    }
}

impl From<AllocError> for Trouble {
    ghost from_gives = { λ _ trouble. trouble ≡ Memory };

    fn from(_error: AllocError) -> Trouble {
        Trouble::Memory
    }
}
