//! What a write of the host makes of what is known, on each device that has part of it.

ghost use Rattle.std.specs.Prelude.{◌≡◌, ℕ, List, length, OnOk, IfErr};
ghost use Rattle.acc_base.specs.declared.faults.Fault.TheVariants.{Memory};
ghost use Rattle.acc_base.specs.Devices.{Whole};
ghost use Rattle.acc_stale.specs.Known.{host_wrote};
ghost use Rattle.acc_stale.specs.Events.{known_of_devices};
ghost use Rattle.acc_stale.specs.Parts.{AreParts, told_part, part_outdated};

use crate::known::{Known, Placed};
use acc_base::{Attachment, Fault, Section};

/// What one mapped range has of the bytes that the host wrote.
#[derive(Drop)]
pub struct Part<'a> {
    /// Where the block of the range lies.
    pub block: Placed,
    /// The addresses.
    pub section: Section,
    /// The counters of the attached pointers of the block.
    pub attached: Vec<Attachment>,
    /// The bytes that the host wrote there.
    pub written: &'a [u8],
    /// The bytes that the device has there.
    pub own: &'a [u8],
}

impl Known {
    /// The host wrote a section. These are all parts of it that are mapped, by device and by rising address: what the
    /// device has of them is behind where it differs.
    ///
    /// # Errors
    ///
    /// As [`Known::made`].
    pub fn wrote(&mut self, section: Section, parts: &[Part<'_>]) -> Result<(), Fault>
        ensures ok { OnOk result ((w : Whole) (bytes : List ℕ) → AreParts parts.now section bytes w → self.new ≡ known_of_devices 0 section.start bytes w w.devices (host_wrote (record { start = section.start; len = length bytes }) self.old)) }
        ensures only { IfErr result (λ fault. fault ≡ Memory) }
    {
        self.host_wrote(section);
        for part in parts {
            self.outdate(part)?;
        }
        Ok(())
    }

    /// The device's bytes of a part are behind where the host wrote others.
    fn outdate(&mut self, part: &Part<'_>) -> Result<(), Fault>
        ensures ok { OnOk result (self.new ≡ part_outdated (told_part part.now) self.old) }
        ensures only { IfErr result (λ fault. fault ≡ Memory) }
    {
        self.range_outdated(
            part.block,
            part.section,
            &part.attached,
            part.written,
            part.own,
        )
    }
}
