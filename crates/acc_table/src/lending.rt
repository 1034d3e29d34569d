//! How a block is lent, and how it comes back, each with its event. Room in the trace comes before the first change.

ghost use Rattle.std.specs.Prelude.{◌≡◌, ◌<◌, ◌^◌, [], false, vec_len, vec_capacity, Ok, IsOk, IfOk, IfErr, OnOk, OnErr};
ghost use Rattle.acc_base.specs.declared.events.Event.TheVariants.{Lent};
ghost use Rattle.acc_base.specs.Limits.{recorded};
ghost use Rattle.acc_base.specs.Leases.{section_bytes};
ghost use Rattle.acc_base.specs.declared.faults.Fault.TheVariants.{Memory};
ghost use Rattle.acc_base.specs.Judge.{gathered, gather_event};
ghost use Rattle.acc_clauses.specs.Lending.{IsLoanPlanned};
ghost use Rattle.acc_clauses.specs.Stored.{AreContentsSound};
ghost use Rattle.acc_clauses.specs.Devices.{SharedContents, HaveRisen, contents_with};
ghost use Rattle.acc_table.specs.Making.{IsMadeInto, IsAsBefore};

use crate::calls::Reply;
use acc_base::{Event, Fault, List, Loan, Section};
use acc_clauses::{DeviceData, Shared};
use acc_lend::Lease;

/// Makes room for the event of a loan that was planned, lends its block and stores the event, and returns the lease.
///
/// # Errors
///
/// [`Fault::Memory`] alone, and nothing changed. There was no room in the trace for one event more, or with full traces
/// none for the copy of the block that stays.
pub fn lend(
    device: &mut DeviceData,
    shared: &mut Shared,
    trace: &mut Vec<Event>,
    region: u64,
    section: Section,
    loan: Loan,
) -> Result<Reply, Fault>
    requires sound { AreContentsSound (contents_with device.old shared.old) }
    requires planned { let c = contents_with device.old shared.old in IsLoanPlanned c.limits region section c.state loan }
    requires serial { shared.old.numbers.serial < 2 ^ 48 }
    ensures done { let c = contents_with device.old shared.old in IfOk result (λ reply. IsMadeInto (Lent c.limits.number region section loan.block loan.serial) [] reply c (contents_with device.new shared.new) trace.old.items trace.new.items) }
    ensures only { IfErr result (λ fault. fault ≡ Memory) }
    ensures succeeds { device.old.limits.full ≡ false → vec_len trace.old < vec_capacity trace.old → IsOk result }
    ensures same { OnErr result (IsAsBefore (contents_with device.old shared.old) (contents_with device.new shared.new) trace.old.items trace.new.items) }
    ensures sound { AreContentsSound (contents_with device.new shared.new) }
    ensures risen { HaveRisen shared.old shared.new }
{
    trace.reserve(1)?;
    let block = loan.block;
    let serial = loan.serial;
    let lease = device.lend(shared, loan)?;
    trace.push_reserved(Event::Lent {
        device: device.number(),
        region,
        section,
        block,
        serial,
    });
    Ok(Reply::Lease(lease))
}

/// Takes the block of a lease back that may come back, and stores the event, for which there is room.
/// These are the bytes that it stores: with full traces those of the section.
pub fn take_back(
    device: &mut DeviceData,
    trace: &mut Vec<Event>,
    lease: Lease,
    bytes: List<u8>,
) -> Reply
    requires ready { (s : SharedContents) × let c = contents_with device.old s in AreContentsSound c × (gather_event c.limits lease c.state ≡ Ok (gathered c.limits.full lease)) }
    requires stored { bytes ≡ recorded device.old.limits.full (section_bytes lease) }
    requires place { vec_len trace.old < vec_capacity trace.old }
    ensures made { (s : SharedContents) → IsMadeInto (gathered device.old.limits.full lease) lease.bytes result (contents_with device.old s) (contents_with device.new s) trace.old.items trace.new.items }
    ensures sound { (s : SharedContents) → AreContentsSound (contents_with device.old s) → AreContentsSound (contents_with device.new s) }
{
    let number = lease.device();
    let serial = lease.serial();
    let block = lease.block();
    device.gather(lease);
    trace.push_reserved(Event::Gathered {
        device: number,
        serial,
        block,
        bytes,
    });
    Reply::Done
}

/// Makes room in the trace for the event of a lease, and returns the bytes that it stores. With full traces these are a
/// copy of those of the section.
fn make_room(trace: &mut Vec<Event>, lease: &Lease, full: bool) -> Result<List<u8>, Fault>
    ensures bytes { IfOk result (λ bytes. bytes ≡ recorded full (section_bytes lease.now)) }
    ensures same { trace.new.items ≡ trace.old.items }
    ensures place { OnOk result (vec_len trace.new < vec_capacity trace.new) }
    ensures succeeds { full ≡ false → vec_len trace.old < vec_capacity trace.old → IsOk result }
    ensures only { IfErr result (λ fault. fault ≡ Memory) }
{
    trace.reserve(1)?;
    let alloc = *trace.allocator();
    if full {
        Ok(List::from_vec(Vec::from_slice(alloc, lease.bytes())?))
    } else {
        Ok(List::from_vec(Vec::new(alloc)))
    }
}

/// Makes room for the event of a lease that may come back, takes its block back and stores the event. A lease for which
/// there is no room comes back whole.
///
/// # Errors
///
/// [`Fault::Memory`] alone, and nothing changed. There was no room in the trace for one event more, or with full traces
/// none for the bytes of the section.
pub fn gather(
    device: &mut DeviceData,
    trace: &mut Vec<Event>,
    full: bool,
    lease: Lease,
) -> Result<Reply, (Lease, Fault)>
    requires full { full ≡ device.old.limits.full }
    requires ready { (s : SharedContents) × let c = contents_with device.old s in AreContentsSound c × (gather_event c.limits lease c.state ≡ Ok (gathered c.limits.full lease)) }
    ensures done { (s : SharedContents) → IfOk result (λ reply. IsMadeInto (gathered device.old.limits.full lease) lease.bytes reply (contents_with device.old s) (contents_with device.new s) trace.old.items trace.new.items) }
    ensures succeeds { device.old.limits.full ≡ false → vec_len trace.old < vec_capacity trace.old → IsOk result }
    ensures back { IfErr result (λ back. back.0 ≡ lease) }
    ensures only { IfErr result (λ back. back.1 ≡ Memory) }
    ensures same { (s : SharedContents) → OnErr result (IsAsBefore (contents_with device.old s) (contents_with device.new s) trace.old.items trace.new.items) }
    ensures sound { (s : SharedContents) → AreContentsSound (contents_with device.old s) → AreContentsSound (contents_with device.new s) }
{
    match make_room(trace, &lease, full) {
        Ok(bytes) => Ok(take_back(device, trace, lease, bytes)),
        Err(fault) => Err((lease, fault)),
    }
}
