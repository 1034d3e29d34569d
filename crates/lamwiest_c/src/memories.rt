//! The bytes of the two memories.

ghost use Rattle.std.specs.Prelude.{◌≡◌, Ok, length};
ghost use Rattle.acc_base.specs.declared.calls.Call.TheVariants.{HostWrite};
ghost use Rattle.acc_base.specs.declared.faults.Fault.TheVariants.{OutOfHost};
ghost use Rattle.acc_base.specs.Devices.{view};
ghost use Rattle.acc_table.specs.Queries.{host_read_of, device_read_of};
ghost use Rattle.lamwiest_c.specs.declared.statuses.Refusal.TheVariants.{Absent, OfTable};
ghost use Rattle.lamwiest_c.specs.Statuses.{IsAnswered, IsNumberAnswered};
ghost use Rattle.lamwiest_c.specs.Answers.{section_at, IsMadeIn, IsOf};
ghost use Rattle.lamwiest_c.specs.Finds.{IsCopied, array_at};

use crate::environments::TableWithLeases;
use crate::handles::{Handle, put_back, take_out};
use crate::statuses::{FaultFields, Refusal, tell, tell_number};
use acc_base::{Fault, HOST_BASE, Section};
use std::alloc::Global;

impl TableWithLeases {
    /// Where an array of so many bytes comes behind others, which take so many bytes from the front of host memory.
    fn array(&self, used: u64, len: u64) -> Result<u64, Refusal>
        ensures { result ≡ array_at used len self.now.world.limits.host }
    {
        let host = self.table.config().host();
        if used > host || len > host {
            return Err(Refusal::OfTable(Fault::OutOfHost { item: 0 }));
        }
        let before = 16 * ((used + 15) / 16);
        if before + len > host {
            return Err(Refusal::OfTable(Fault::OutOfHost { item: 0 }));
        }
        Ok(HOST_BASE + before)
    }

    /// Copies bytes of host memory from a host address on, as many as the buffer has.
    fn host_read(&self, start: u64, into: &mut [u8]) -> Result<u64, Refusal>
        ensures { IsCopied (host_read_of (section_at start (length into.old)) self.now.world.state.host) (OfTable (OutOfHost 0)) into.old into.new (λ r. result ≡ r) }
    {
        let len = into.len() as u64;
        match self.table.host_read(Section { start, len }) {
            Some(bytes) => {
                into.copy_from_slice(bytes);
                Ok(len)
            }
            None => Err(Refusal::OfTable(Fault::OutOfHost { item: 0 })),
        }
    }

    /// Copies the bytes that the device has from a host address on, as many as the buffer has.
    fn device_read(&self, device: u64, start: u64, into: &mut [u8]) -> Result<u64, Refusal>
        ensures { IsCopied (device_read_of (section_at start (length into.old)) (view device self.now.world.state)) Absent into.old into.new (λ r. result ≡ r) }
    {
        self.table.laws();
        let len = into.len() as u64;
        match self.table.device_read(device, Section { start, len }) {
            Some(bytes) => {
                into.copy_from_slice(bytes);
                Ok(len)
            }
            None => Err(Refusal::Absent),
        }
    }
}

/// Writes where an array of so many bytes comes in host memory: behind others, which take `used` bytes from its front,
/// at the least multiple of 16, as the arrays of a script. It is `OutOfHost` where it does not end in host memory.
#[unsafe(no_mangle)]
pub extern "C" fn lamwiest_array(
    alloc: Global,
    table: &mut Handle,
    used: u64,
    len: u64,
    start: &mut u64,
    fault: &mut FaultFields,
) -> u32
    ensures { IsOf table.old.value table.new.value (IsNumberAnswered result fault.new start.old start.new)
        (λ e v. IsNumberAnswered result fault.new start.old start.new (array_at used len e.world.limits.host) × (v ≡ e)) }
{
    let Some(environment) = take_out(alloc, table) else {
        return tell_number(Err(Refusal::Ended), start, fault);
    };
    let made = environment.array(used, len);
    put_back(table, environment);
    tell_number(made, start, fault)
}

/// The host writes bytes into its memory, from a host address on. The device's bytes stay as they are until an
/// `update`, as OpenACC has it.
#[unsafe(no_mangle)]
pub extern "C" fn lamwiest_host_write(
    alloc: Global,
    table: &mut Handle,
    start: u64,
    bytes: &[u8],
    fault: &mut FaultFields,
) -> u32
    ensures { IsOf table.old.value table.new.value (IsAnswered result fault.new)
        (λ e v. IsMadeIn e (HostWrite start bytes.now) (IsAnswered result fault.new) v) }
{
    let Some(mut environment) = take_out(alloc, table) else {
        return tell(Err(Refusal::Ended), fault);
    };
    let made = environment.host_write(start, bytes);
    put_back(table, environment);
    tell(made, fault)
}

/// Copies bytes of host memory from a host address on, as many as the buffer has. It is `OutOfHost` where some of them
/// are not in host memory.
#[unsafe(no_mangle)]
pub extern "C" fn lamwiest_host_read(
    alloc: Global,
    table: &mut Handle,
    start: u64,
    bytes: &mut [u8],
    fault: &mut FaultFields,
) -> u32
    ensures { IsOf table.old.value table.new.value (IsAnswered result fault.new)
        (λ e v. IsCopied (host_read_of (section_at start (length bytes.old)) e.world.state.host) (OfTable (OutOfHost 0)) bytes.old bytes.new (IsAnswered result fault.new) × (v ≡ e)) }
{
    let Some(environment) = take_out(alloc, table) else {
        return tell(Err(Refusal::Ended), fault);
    };
    let made = environment.host_read(start, bytes);
    put_back(table, environment);
    tell(made, fault)
}

/// Copies the bytes that the device has from a host address on, as many as the buffer has. It is `ABSENT` where they
/// are not inside one mapped range, as no byte is, or their block is lent (OpenACC 3.3, section 2.6).
#[unsafe(no_mangle)]
pub extern "C" fn lamwiest_device_read(
    alloc: Global,
    table: &mut Handle,
    device: u64,
    start: u64,
    bytes: &mut [u8],
    fault: &mut FaultFields,
) -> u32
    ensures { IsOf table.old.value table.new.value (IsAnswered result fault.new)
        (λ e v. IsCopied (device_read_of (section_at start (length bytes.old)) (view device e.world.state)) Absent bytes.old bytes.new (IsAnswered result fault.new) × (v ≡ e)) }
{
    let Some(environment) = take_out(alloc, table) else {
        return tell(Err(Refusal::Ended), fault);
    };
    let made = environment.device_read(device, start, bytes);
    put_back(table, environment);
    tell(made, fault)
}
