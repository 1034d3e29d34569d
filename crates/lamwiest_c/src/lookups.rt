//! What a table has beside its mapped ranges: attached pointers, ended blocks, holes, open regions, leases that are out,
//! its limits and what is left of them. These are queries as those of `queries.rt`.

ghost use Rattle.std.specs.Prelude.{◌≡◌, Some, option_map};
ghost use Rattle.acc_base.specs.Devices.{view};
ghost use Rattle.acc_base.specs.Waits.{ended_from};
ghost use Rattle.acc_table.specs.Queries.{first_attached, newest_of};
ghost use Rattle.lamwiest_c.specs.Answers.{section_at};
ghost use Rattle.lamwiest_c.specs.Finds.{IsAskedOf, IsHoleAsked, raw_attached, raw_ended, raw_hole, raw_limits, left_of};
ghost use Rattle.lamwiest_c.specs.Keeps.{leases_in, told_from};
ghost use Rattle.lamwiest_c.specs.Leases.{raw_lease, lease_from};

use crate::environments::KeptLease;
use crate::handles::{Handle, put_back, take_out};
use crate::queries::{found, number_of_bool};
use crate::statuses::{ABSENT, ENDED};
use crate::tables::RawLimits;
use acc_base::{Attachment, Config, Ended, Hole, Section};
use acc_index::{Index, IndexEntry};
use acc_lend::Lease;
use acc_table::Table;
use std::alloc::Global;

/// An attached pointer (OpenACC 3.3, section 2.6.8).
#[repr(C)]
#[derive(Clone, Copy)]
pub struct RawAttached {
    /// The host address of the pointer.
    pub pointer: u64,
    /// How often it is attached.
    pub count: u64,
    /// The number of the block that has its copy.
    pub block: u64,
}

/// A block whose mapping has ended, and which waiting copies keep (OpenACC 3.3, section 2.16).
#[repr(C)]
#[derive(Clone, Copy)]
pub struct RawEnded {
    /// The device address of its first byte.
    pub place: u64,
    /// How many bytes of device memory it takes.
    pub size: u64,
    /// How many copies that wait name it.
    pub pins: u64,
}

/// Free addresses of a device that lie side by side, as many as there are.
#[repr(C)]
#[derive(Clone, Copy)]
pub struct RawHole {
    /// The device address of its first byte.
    pub place: u64,
    /// Its size in bytes.
    pub size: u64,
}

/// What is left of two limits of a table.
#[repr(C)]
#[derive(Clone, Copy)]
pub struct RawLeft {
    /// How many more events there may be.
    pub tickets: u64,
    /// How many more data regions may be open.
    pub regions: u64,
}

/// A lease that is out.
#[repr(C)]
#[derive(Clone, Copy)]
pub struct RawLease {
    /// Its serial number.
    pub number: u64,
    /// The number of the device.
    pub device: u64,
    /// The number of the block.
    pub block: u64,
    /// The place in the block of the first byte that is lent.
    pub offset: u64,
    /// How many bytes are lent.
    pub len: u64,
}

fn raw_attached(attached: Attachment) -> RawAttached
    ensures { result ≡ raw_attached attached }
{
    RawAttached {
        pointer: attached.pointer,
        count: attached.count,
        block: attached.block,
    }
}

fn raw_ended(ended: Ended) -> RawEnded
    ensures { result ≡ raw_ended ended }
{
    RawEnded {
        place: ended.place,
        size: ended.size,
        pins: ended.pins,
    }
}

fn raw_hole(hole: Hole) -> RawHole
    ensures { result ≡ raw_hole hole }
{
    RawHole {
        place: hole.place,
        size: hole.size,
    }
}

fn raw_lease(lease: &Lease) -> RawLease
    ensures { result ≡ raw_lease lease.now }
{
    RawLease {
        number: lease.serial(),
        device: lease.device(),
        block: lease.block(),
        offset: lease.offset() as u64,
        len: lease.len() as u64,
    }
}

fn raw_limits(config: Config) -> RawLimits
    ensures { result ≡ raw_limits config }
{
    RawLimits {
        host: config.host(),
        device: config.device(),
        regions: config.regions(),
        tickets: config.tickets(),
        counter_max: config.counter_max(),
        queue_cap: config.queue_cap(),
        trace_cap: config.trace_cap(),
        full: number_of_bool(config.full()),
        devices: config.devices(),
    }
}

/// Writes the attached pointer of least host address that begins in a section inside one mapped range; returns `ABSENT`
/// where there is none (OpenACC 3.3, section 2.6.8).
#[unsafe(no_mangle)]
pub extern "C" fn lw_attached(
    alloc: Global,
    table: &mut Handle,
    device: u64,
    start: u64,
    len: u64,
    attached: &mut RawAttached,
) -> u32
    ensures { IsAskedOf table.old.value table.new.value (λ e. option_map raw_attached (first_attached (section_at start len) (view device e.world.state).records)) result attached.old attached.new }
{
    let Some(environment) = take_out(alloc, table) else {
        return ENDED;
    };
    let answer = environment
        .table
        .next_attached(device, Section { start, len });
    put_back(table, environment);
    match answer {
        Some(told) => found(Some(raw_attached(told)), attached),
        None => ABSENT,
    }
}

/// Writes the block of least place, at or above a device address, whose mapping has ended; returns `ABSENT` where there
/// is none (OpenACC 3.3, section 2.16).
#[unsafe(no_mangle)]
pub extern "C" fn lw_ended_block(
    alloc: Global,
    table: &mut Handle,
    device: u64,
    from: u64,
    ended: &mut RawEnded,
) -> u32
    ensures { IsAskedOf table.old.value table.new.value (λ e. option_map raw_ended (ended_from from (view device e.world.state).records)) result ended.old ended.new }
{
    let Some(environment) = take_out(alloc, table) else {
        return ENDED;
    };
    let answer = environment.table.ended(device, from);
    put_back(table, environment);
    match answer {
        Some(told) => found(Some(raw_ended(told)), ended),
        None => ABSENT,
    }
}

/// Writes the hole of a device of least place at or above a device address; returns `ABSENT` where there is none.
#[unsafe(no_mangle)]
pub extern "C" fn lw_hole(
    alloc: Global,
    table: &mut Handle,
    device: u64,
    from: u64,
    hole: &mut RawHole,
) -> u32
    ensures { IsHoleAsked table.old.value table.new.value device from result hole.old hole.new }
{
    let Some(environment) = take_out(alloc, table) else {
        return ENDED;
    };
    let answer = environment.table.hole(device, from);
    put_back(table, environment);
    match answer {
        Some(told) => found(Some(raw_hole(told)), hole),
        None => ABSENT,
    }
}

/// Writes the number of the open data region that was entered last, on whichever device; returns `ABSENT` where none is
/// open.
#[unsafe(no_mangle)]
pub extern "C" fn lw_innermost(alloc: Global, table: &mut Handle, region: &mut u64) -> u32
    ensures { IsAskedOf table.old.value table.new.value (λ e. newest_of e.world.state.devices) result region.old region.new }
{
    let Some(environment) = take_out(alloc, table) else {
        return ENDED;
    };
    let answer = environment.table.innermost();
    put_back(table, environment);
    found(answer, region)
}

/// Writes the limits of the table. One that was 0 when the table began is told as it is by default.
#[unsafe(no_mangle)]
pub extern "C" fn lamwiest_limits_of(
    alloc: Global,
    table: &mut Handle,
    limits: &mut RawLimits,
) -> u32
    ensures { IsAskedOf table.old.value table.new.value (λ e. Some (raw_limits e.world.limits)) result limits.old limits.new }
{
    let Some(environment) = take_out(alloc, table) else {
        return ENDED;
    };
    let answer = raw_limits(environment.table.config());
    put_back(table, environment);
    found(Some(answer), limits)
}

#[tactic(auto, unfolding(crate::specs::Finds::left_of))]
fn left_of(table: &Table) -> RawLeft
    ensures { result ≡ left_of table.now }
{
    RawLeft {
        tickets: table.ticket_book(),
        regions: table.region_book(),
    }
}

/// Writes how many more events there may be, and how many more data regions may be open.
#[unsafe(no_mangle)]
pub extern "C" fn lw_left(alloc: Global, table: &mut Handle, left: &mut RawLeft) -> u32
    ensures { IsAskedOf table.old.value table.new.value (λ e. Some (left_of e.world)) result left.old left.new }
{
    let Some(environment) = take_out(alloc, table) else {
        return ENDED;
    };
    let answer = left_of(&environment.table);
    put_back(table, environment);
    found(Some(answer), left)
}

/// What is told of the lease at a place, if it is not gone and its number is at least this.
fn told_from(entry: &IndexEntry<KeptLease>, from: u64) -> Option<RawLease>
    ensures { result ≡ told_from from entry.now }
{
    let own = entry.value.as_ref()?;
    if own.lease.serial() < from {
        return None;
    }
    Some(raw_lease(&own.lease))
}

/// The lease of least number at or above a number, if one is out.
pub fn lease_from(leases: &Index<KeptLease>, from: u64) -> Option<RawLease>
    ensures { result ≡ lease_from from (leases_in leases.now.entries) }
{
    let items = leases.items();
    for entry in items {
        if let Some(told) = told_from(entry, from) {
            return Some(told);
        }
    }
    None
}

/// Writes the lease of least number, at or above a number, that is out; returns `ABSENT` where there is none.
#[unsafe(no_mangle)]
pub extern "C" fn lw_lease(
    alloc: Global,
    table: &mut Handle,
    from: u64,
    lease: &mut RawLease,
) -> u32
    ensures { IsAskedOf table.old.value table.new.value (λ e. lease_from from e.leases) result lease.old lease.new }
{
    let Some(environment) = take_out(alloc, table) else {
        return ENDED;
    };
    let answer = lease_from(&environment.leases, from);
    put_back(table, environment);
    found(answer, lease)
}
