//! What a statement has to print.

ghost use Rattle.std.specs.Prelude.{◌≡◌};
ghost use Rattle.acc_script.specs.Ends.{Wrote};
ghost use Rattle.acc_script.specs.Scripts.{is_refused, effect_text};

use crate::Sink;
use crate::ends::whole::write_all;
use crate::print::answers::{write_place, write_presence, write_read};
use crate::print::refusals::write_refusal;
use crate::print::reports::write_report;
use acc_base::{Fault, Section};
use acc_table::Table;

/// What a statement has to print.
#[derive(Clone, Copy)]
pub enum Effect {
    /// Nothing, as for a blank line, a declaration, and a call that was done.
    Nothing,
    /// That the queue of a step was empty.
    EmptyQueue,
    /// That its line was refused.
    Refused(Fault),
    /// The bytes of a section of host memory.
    HostBytes(Section),
    /// The bytes that a device has of a section of host memory, if it is present there.
    DeviceBytes {
        /// The number of the device.
        device: u64,
        /// The section of host memory.
        section: Section,
    },
    /// Whether a section is present.
    Presence(bool),
    /// A device address, if there is one.
    Place(Option<u64>),
    /// The report of the table.
    Reported,
}

impl Effect {
    /// Whether the line was refused.
    pub fn is_refused(self) -> bool
        ensures { result ≡ is_refused self }
    {
        matches!(self, Effect::Refused(_))
    }
}

/// Writes what the line of a number has to print; false where the sink failed.
#[inline(always)]
#[tactic(auto, using(crate::proofs::Fronts::took_nothing, crate::proofs::Fronts::took_untold))]
pub fn write_effect<W: Sink>(writer: &mut W, number: u64, table: &Table, effect: Effect) -> bool
    ensures { Wrote (W.told writer.old) (W.told writer.new) (effect_text number table.now effect) result }
{
    match effect {
        Effect::Nothing => true,
        Effect::EmptyQueue => write_all(writer, b"idle\n"),
        Effect::Refused(fault) => write_refusal(writer, number, fault),
        Effect::HostBytes(section) => write_read(writer, table.host_read(section)),
        Effect::DeviceBytes { device, section } => {
            write_read(writer, table.device_read(device, section))
        }
        Effect::Presence(present) => write_presence(writer, present),
        Effect::Place(place) => write_place(writer, place),
        Effect::Reported => !writer.takes_reports() || write_report(table, writer),
    }
}
