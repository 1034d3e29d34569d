//! The bytes of a pointer.

ghost use Rattle.std.specs.Prelude.{◌≡◌};
ghost use Rattle.acc_base.specs.Attachments.{pointer_at};

use acc_base::Section;

/// How many bytes a pointer has.
pub const POINTER_LEN: u64 = 8;

/// The bytes of the pointer at a host address.
pub fn pointer_at(address: u64) -> Section
    ensures { result ≡ pointer_at address }
{
    Section {
        start: address,
        len: POINTER_LEN,
    }
}
