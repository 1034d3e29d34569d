//! Loans of blocks to kernels: a block is lent, the bytes of its lease are read and written, and it is brought back.

ghost use Rattle.std.specs.Prelude.{◌≡◌, ◌<◌, ◌≤◌, ◌++◌, IsSome, IfErr, OnOk, OnErr, MatchOption, None, Some};
ghost use Rattle.std.specs.List.{AllByRecursion};
ghost use Rattle.acc_base.specs.declared.faults.Fault.TheVariants.{Memory};
ghost use Rattle.acc_index.specs.Indexed.{value_at, with_other};
ghost use Rattle.lamwiest_c.specs.Statuses.{IsAnswered, IsNumberAnswered};
ghost use Rattle.lamwiest_c.specs.Answers.{number_in, section_at, IsLent, IsGathered, IsOf};
ghost use Rattle.lamwiest_c.specs.Leases.{IsLeaseRead, IsLeaseWritten, IsLeasePlaced};
ghost use Rattle.lamwiest_c.specs.Keeps.{kept, lease_of_nothing, entries_by, restored};

use crate::environments::{KeptLease, TableWithLeases, number_in};
use crate::handles::{Handle, put_back, take_out};
use crate::statuses::{FaultFields, Refusal, tell, tell_number};
use acc_base::{Fault, Section};
use acc_index::Index;
use acc_lend::Lease;
use acc_table::{Call, Reply, abandon};
use std::alloc::Global;
use std::mem;

/// Where the bytes of a lease lie.
#[repr(C)]
#[derive(Drop)]
pub struct RawPlace {
    /// The first byte of its block.
    pub block: *mut u8,
    /// The place in the block of the first byte that is lent.
    pub offset: u64,
    /// How many bytes are lent.
    pub len: u64,
}

/// Makes room for one lease more.
///
/// # Errors
///
/// Where there is no memory for it, and only where that room was missing.
fn make_place(leases: &mut Index<KeptLease>) -> Result<(), Fault>
    ensures same { leases.new.entries ≡ leases.old.entries }
    ensures place { OnOk result (1 ≤ leases.new.room) }
    ensures needed { OnErr result (leases.old.room < 1) }
    ensures only { IfErr result (λ fault. fault ≡ Memory) }
{
    leases.reserve(1)
}

/// Puts the lease of a reply behind the others, where there is room for it, and returns the number of the reply.
fn keep(reply: Reply, leases: &mut Index<KeptLease>) -> u64
    requires above { AllByRecursion (λ e. e.0 < number_in reply) leases.old.entries }
    requires room { 1 ≤ leases.old.room }
    ensures value { result ≡ number_in reply }
    ensures leases { leases.new.entries ≡ leases.old.entries ++ entries_by reply }
{
    match reply {
        Reply::Lease(lease) => {
            let serial = lease.serial();
            leases.push(serial, KeptLease { lease });
            serial
        }
        Reply::Done => 1,
        Reply::Entered { number } => number,
        Reply::Drained { count } => count,
        Reply::Idle => 0,
    }
}

/// Puts a lease in the place of that of a serial number, which it returns. The number is looked for at a place first.
fn exchange(leases: &mut Index<KeptLease>, serial: u64, place: usize, lease: Lease) -> Lease
    requires { IsSome (value_at serial leases.old.entries) }
    ensures value { value_at serial leases.old.entries ≡ Some (kept result) }
    ensures leases { leases.new.entries ≡ with_other serial (kept lease) leases.old.entries }
{
    let own = leases.value_mut_near(serial, place);
    mem::replace(&mut own.lease, lease)
}

/// Takes the lease of a serial number, if it is there. One of no bytes stands in its place until it comes back.
fn take_lease(
    alloc: Global,
    leases: &mut Index<KeptLease>,
    serial: u64,
    place: usize,
) -> Option<Lease>
    ensures { MatchOption result ((value_at serial leases.old.entries ≡ None) × (leases.new.entries ≡ leases.old.entries)) (λ lease. (value_at serial leases.old.entries ≡ Some (kept lease)) × (leases.new.entries ≡ with_other serial (kept lease_of_nothing) leases.old.entries)) }
{
    if leases.get_near(serial, place).is_none() {
        return None;
    }
    let nothing = Lease::of(0, 0, 0, 0, Vec::new(alloc), 0);
    Some(exchange(leases, serial, place, nothing))
}

/// Puts the lease of a call that came back at its place.
fn restore(call: Call, leases: &mut Index<KeptLease>, serial: u64, place: usize)
    requires { IsSome (value_at serial leases.old.entries) }
    ensures { leases.new.entries ≡ restored call serial leases.old.entries }
{
    match call {
        Call::Gather(lease) => exchange(leases, serial, place, lease).abandon(),
        Call::Do(_) | Call::HostWrite { .. } | Call::Lend { .. } => abandon(call),
    }
}

/// A lease, and where its bytes lie: they do not move until it is spent.
fn placed(lease: Lease) -> (Lease, RawPlace)
    ensures same { result.0 ≡ lease }
    ensures place { (result.1.offset ≡ lease.offset) × (result.1.len ≡ lease.len) }
{
    let (device, serial, block) = (lease.device(), lease.serial(), lease.block());
    let (offset, len) = (lease.offset(), lease.len());
    let mut bytes = lease.into_block();
    let place = RawPlace {
        block: bytes.as_mut_ptr(),
        offset: offset as u64,
        len: len as u64,
    };
    let lease = Lease::of(serial, block, offset, len, bytes, device);
    (lease, place)
}

impl TableWithLeases {
    /// Lends the block of a section in an open data region, and returns the serial number of its lease.
    fn lend(&mut self, region: u64, section: Section) -> Result<u64, Refusal>
        ensures { IsLent self.old region section (λ r. result ≡ r) self.new }
    {
        make_place(&mut self.leases)?;
        match self.table.apply(Call::Lend { region, section }) {
            Ok(reply) => Ok(keep(reply, &mut self.leases)),
            Err((call, fault)) => {
                abandon(call);
                Err(Refusal::OfTable(fault))
            }
        }
    }

    /// Brings back the lease of a serial number. Where that is refused it stays as it is.
    fn gather(&mut self, alloc: Global, serial: u64) -> Result<u64, Refusal>
        ensures { IsGathered self.old serial (λ r. result ≡ r) self.new }
    {
        self.leases.laws();
        let place = self.leases.place(serial);
        let Some(lease) = take_lease(alloc, &mut self.leases, serial, place) else {
            return Err(Refusal::OfTable(Fault::NoLease { serial }));
        };
        match self.table.apply(Call::Gather(lease)) {
            Ok(reply) => {
                drop(self.leases.take_out_near(serial, place));
                Ok(number_in(reply))
            }
            Err((call, fault)) => {
                restore(call, &mut self.leases, serial, place);
                Err(Refusal::OfTable(fault))
            }
        }
    }

    /// Copies the bytes of a lease.
    fn lease_read(&self, serial: u64, into: &mut [u8]) -> Result<u64, Refusal>
        ensures { IsLeaseRead self.now serial into.old into.new (λ r. result ≡ r) }
    {
        let Some(own) = self.leases.get(serial) else {
            return Err(Refusal::OfTable(Fault::NoLease { serial }));
        };
        let bytes = own.lease.bytes();
        let len = bytes.len() as u64;
        if into.len() != bytes.len() {
            return Err(Refusal::BadLength { len });
        }
        into.copy_from_slice(bytes);
        Ok(len)
    }

    /// Where the bytes of a lease lie.
    fn lease_place(
        &mut self,
        alloc: Global,
        serial: u64,
        place: &mut RawPlace,
    ) -> Result<u64, Refusal>
        ensures place { IsLeasePlaced self.old serial place.old place.new (λ r. result ≡ r) }
        ensures same { self.new ≡ self.old }
    {
        self.leases.laws();
        let near = self.leases.place(serial);
        let Some(lease) = take_lease(alloc, &mut self.leases, serial, near) else {
            return Err(Refusal::OfTable(Fault::NoLease { serial }));
        };
        let len = lease.len() as u64;
        let (lease, told) = placed(lease);
        exchange(&mut self.leases, serial, near, lease).abandon();
        *place = told;
        Ok(len)
    }

    /// Writes bytes over those of a lease.
    fn lease_write(&mut self, serial: u64, bytes: &[u8]) -> Result<u64, Refusal>
        ensures { IsLeaseWritten self.old serial bytes.now (λ r. result ≡ r) self.new }
    {
        self.leases.laws();
        let place = self.leases.place(serial);
        let Some(own) = self.leases.get_near(serial, place) else {
            return Err(Refusal::OfTable(Fault::NoLease { serial }));
        };
        let len = own.lease.len() as u64;
        if bytes.len() as u64 != len {
            return Err(Refusal::BadLength { len });
        }
        let own = self.leases.value_mut_near(serial, place);
        own.lease.overwrite(bytes);
        Ok(len)
    }
}

/// Lends the device's bytes of a section to a kernel in an open data region (OpenACC 3.3, section 2.5, compute
/// constructs). Where it is done, `lease` is the number of the lease. Until [`lamwiest_gather`] spends it no other call reads
/// or writes these bytes; the kernel reads them by [`lamwiest_lease_read`], and writes them by [`lamwiest_lease_write`].
#[unsafe(no_mangle)]
pub extern "C" fn lamwiest_lend(
    alloc: Global,
    table: &mut Handle,
    region: u64,
    start: u64,
    len: u64,
    lease: &mut u64,
    fault: &mut FaultFields,
) -> u32
    ensures { IsOf table.old.value table.new.value (IsNumberAnswered result fault.new lease.old lease.new)
        (λ e v. IsLent e region (section_at start len) (IsNumberAnswered result fault.new lease.old lease.new) v) }
{
    let Some(mut environment) = take_out(alloc, table) else {
        return tell_number(Err(Refusal::Ended), lease, fault);
    };
    let made = environment.lend(region, Section { start, len });
    put_back(table, environment);
    tell_number(made, lease, fault)
}

/// Brings a lease back, with its bytes as they were last written (OpenACC 3.3, section 2.5, compute constructs). A
/// lease that is refused stays, with its bytes; one that was spent is `NoLease`.
#[unsafe(no_mangle)]
pub extern "C" fn lamwiest_gather(
    alloc: Global,
    table: &mut Handle,
    lease: u64,
    fault: &mut FaultFields,
) -> u32
    ensures { IsOf table.old.value table.new.value (IsAnswered result fault.new)
        (λ e v. IsGathered e lease (IsAnswered result fault.new) v) }
{
    let Some(mut environment) = take_out(alloc, table) else {
        return tell(Err(Refusal::Ended), fault);
    };
    let made = environment.gather(alloc, lease);
    put_back(table, environment);
    tell(made, fault)
}

/// Copies the bytes of a lease into a buffer that is as long as its section.
#[unsafe(no_mangle)]
pub extern "C" fn lamwiest_lease_read(
    alloc: Global,
    table: &mut Handle,
    lease: u64,
    bytes: &mut [u8],
    fault: &mut FaultFields,
) -> u32
    ensures { IsOf table.old.value table.new.value (IsAnswered result fault.new)
        (λ e v. IsLeaseRead e lease bytes.old bytes.new (IsAnswered result fault.new) × (v ≡ e)) }
{
    let Some(environment) = take_out(alloc, table) else {
        return tell(Err(Refusal::Ended), fault);
    };
    let made = environment.lease_read(lease, bytes);
    put_back(table, environment);
    tell(made, fault)
}

/// Writes bytes over those of a lease, as many as its section has.
#[unsafe(no_mangle)]
pub extern "C" fn lamwiest_lease_write(
    alloc: Global,
    table: &mut Handle,
    lease: u64,
    bytes: &[u8],
    fault: &mut FaultFields,
) -> u32
    ensures { IsOf table.old.value table.new.value (IsAnswered result fault.new)
        (λ e v. IsLeaseWritten e lease bytes.now (IsAnswered result fault.new) v) }
{
    let Some(mut environment) = take_out(alloc, table) else {
        return tell(Err(Refusal::Ended), fault);
    };
    let made = environment.lease_write(lease, bytes);
    put_back(table, environment);
    tell(made, fault)
}

/// Writes where the bytes of a lease lie, so that a kernel reads and writes them there. They do not move until
/// [`lamwiest_gather`] spends it.
#[unsafe(no_mangle)]
pub extern "C" fn lamwiest_lease_place(
    alloc: Global,
    table: &mut Handle,
    lease: u64,
    place: &mut RawPlace,
    fault: &mut FaultFields,
) -> u32
    ensures { IsOf table.old.value table.new.value (IsAnswered result fault.new)
        (λ e v. IsLeasePlaced e lease place.old place.new (IsAnswered result fault.new) × (v ≡ e)) }
{
    let Some(mut environment) = take_out(alloc, table) else {
        return tell(Err(Refusal::Ended), fault);
    };
    let made = environment.lease_place(alloc, lease, place);
    put_back(table, environment);
    tell(made, fault)
}
