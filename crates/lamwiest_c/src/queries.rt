//! The queries of a table. None allocates, changes anything or is refused. Where there is nothing to find, a query
//! returns `ABSENT`; where the handle has no table, it returns `ENDED`. Then the place of the result keeps its value. On
//! a device that is not there nothing is mapped or waits.

ghost use Rattle.std.specs.Prelude.{◌≡◌, Some, length, option_map};
ghost use Rattle.acc_base.specs.Blocks.{used_bytes};
ghost use Rattle.acc_base.specs.Devices.{view, open_regions};
ghost use Rattle.acc_base.specs.Calls.{event_count};
ghost use Rattle.acc_base.specs.Pointers.{device_address_of, attachment_of};
ghost use Rattle.acc_base.specs.Queues.{queue_at};
ghost use Rattle.acc_base.specs.Ranges.{where_is};
ghost use Rattle.acc_table.specs.Queries.{is_inside, counters_of_section, mapped_from};
ghost use Rattle.lamwiest_c.specs.Answers.{section_at};
ghost use Rattle.lamwiest_c.specs.Finds.{number_of_bool, raw_counters, raw_mapped, range_at, IsFoundOrAbsent, IsAskedOf};

use crate::handles::{Handle, put_back, take_out};
use crate::statuses::{ABSENT, DONE, ENDED};
use acc_base::{Counters, Found, Section};
use acc_table::{Mapped, Table};
use std::alloc::Global;

/// The two reference counters of a mapped range (OpenACC 3.3, section 2.6.7).
#[repr(C)]
#[derive(Clone, Copy)]
pub struct RawCounters {
    /// The structured reference counter.
    pub structured: u64,
    /// The dynamic reference counter.
    pub dynamic: u64,
}

/// A mapped range.
#[repr(C)]
#[derive(Clone, Copy)]
pub struct RawMapped {
    /// The first host address.
    pub start: u64,
    /// The length in bytes.
    pub len: u64,
    /// The device address that the first host address is mapped to.
    pub place: u64,
    /// The structured reference counter.
    pub structured: u64,
    /// The dynamic reference counter.
    pub dynamic: u64,
    /// 1 while its block is lent, and else 0.
    pub lent: u64,
}

/// 1 for yes and 0 for no, as C reads them.
pub fn number_of_bool(truth: bool) -> u64
    ensures { result ≡ number_of_bool truth }
{
    if truth { 1 } else { 0 }
}

fn raw_counters(counters: Counters) -> RawCounters
    ensures { result ≡ raw_counters counters }
{
    RawCounters {
        structured: counters.structured,
        dynamic: counters.dynamic,
    }
}

fn raw_mapped(mapped: Mapped) -> RawMapped
    ensures { result ≡ raw_mapped mapped }
{
    RawMapped {
        start: mapped.start,
        len: mapped.len,
        place: mapped.place,
        structured: mapped.structured,
        dynamic: mapped.dynamic,
        lent: number_of_bool(mapped.lent),
    }
}

/// Writes what was found into its place, and returns the status; `ABSENT` where nothing was found.
pub fn found<T: Copy + Drop>(answer: Option<T>, place: &mut T) -> u32
    ensures { IsFoundOrAbsent answer result place.old place.new }
{
    match answer {
        Some(told) => {
            *place = told;
            DONE
        }
        None => ABSENT,
    }
}

/// Writes 1 where the section is not empty and each of its addresses is in one mapped range, and else 0.
#[unsafe(no_mangle)]
pub extern "C" fn lw_is_present(
    alloc: Global,
    table: &mut Handle,
    device: u64,
    start: u64,
    len: u64,
    present: &mut u64,
) -> u32
    ensures { IsAskedOf table.old.value table.new.value (λ e. Some (number_of_bool (is_inside (where_is (section_at start len) (view device e.world.state).records.ranges)))) result present.old present.new }
{
    let Some(environment) = take_out(alloc, table) else {
        return ENDED;
    };
    let answer = number_of_bool(environment.table.is_present(device, Section { start, len }));
    put_back(table, environment);
    found(Some(answer), present)
}

/// Writes the device address that a host address is mapped to; returns `ABSENT` where it is in no mapped range.
#[unsafe(no_mangle)]
pub extern "C" fn lw_device_address(
    alloc: Global,
    table: &mut Handle,
    device: u64,
    address: u64,
    place: &mut u64,
) -> u32
    ensures { IsAskedOf table.old.value table.new.value (λ e. device_address_of address (view device e.world.state).records) result place.old place.new }
{
    let Some(environment) = take_out(alloc, table) else {
        return ENDED;
    };
    let answer = environment.table.device_address(device, address);
    put_back(table, environment);
    found(answer, place)
}

/// Writes the reference counters of the mapped range that the section is inside (OpenACC 3.3, section 2.6.7).
#[unsafe(no_mangle)]
pub extern "C" fn lw_counters(
    alloc: Global,
    table: &mut Handle,
    device: u64,
    start: u64,
    len: u64,
    counters: &mut RawCounters,
) -> u32
    ensures { IsAskedOf table.old.value table.new.value (λ e. option_map raw_counters (counters_of_section (section_at start len) (view device e.world.state).records)) result counters.old counters.new }
{
    let Some(environment) = take_out(alloc, table) else {
        return ENDED;
    };
    let answer = environment.table.counters(device, Section { start, len });
    put_back(table, environment);
    match answer {
        Some(told) => found(Some(raw_counters(told)), counters),
        None => ABSENT,
    }
}

/// Writes how often the pointer at a host address is attached (OpenACC 3.3, section 2.6.8).
#[unsafe(no_mangle)]
pub extern "C" fn lw_attachment(
    alloc: Global,
    table: &mut Handle,
    device: u64,
    pointer: u64,
    count: &mut u64,
) -> u32
    ensures { IsAskedOf table.old.value table.new.value (λ e. Some (attachment_of pointer (view device e.world.state).records)) result count.old count.new }
{
    let Some(environment) = take_out(alloc, table) else {
        return ENDED;
    };
    let answer = environment.table.attachment(device, pointer);
    put_back(table, environment);
    found(Some(answer), count)
}

/// Writes the mapped range of least start at or above a host address. So a caller finds all of them, one after the
/// other.
#[unsafe(no_mangle)]
pub extern "C" fn lw_mapped(
    alloc: Global,
    table: &mut Handle,
    device: u64,
    from: u64,
    mapped: &mut RawMapped,
) -> u32
    ensures { IsAskedOf table.old.value table.new.value (λ e. option_map raw_mapped (mapped_from from (view device e.world.state).records)) result mapped.old mapped.new }
{
    let Some(environment) = take_out(alloc, table) else {
        return ENDED;
    };
    let answer = environment.table.mapped(device, from);
    put_back(table, environment);
    match answer {
        Some(told) => found(Some(raw_mapped(told)), mapped),
        None => ABSENT,
    }
}

/// The mapped range that a host address is in.
fn range_at(table: &Table, device: u64, address: u64) -> Option<Mapped>
    ensures { result ≡ range_at address (view device table.now.state).records }
{
    let only = Section {
        start: address,
        len: 1,
    };
    match table.find(device, only) {
        Found::Inside { offset, .. } => table.mapped(device, address.saturating_sub(offset)),
        Found::Empty | Found::Partly | Found::Absent => None,
    }
}

/// Writes the mapped range that a host address is in, with its counters; returns `ABSENT` where it is in none.
#[unsafe(no_mangle)]
pub extern "C" fn lw_range_at(
    alloc: Global,
    table: &mut Handle,
    device: u64,
    address: u64,
    mapped: &mut RawMapped,
) -> u32
    ensures { IsAskedOf table.old.value table.new.value (λ e. option_map raw_mapped (range_at address (view device e.world.state).records)) result mapped.old mapped.new }
{
    let Some(environment) = take_out(alloc, table) else {
        return ENDED;
    };
    let answer = range_at(&environment.table, device, address);
    put_back(table, environment);
    match answer {
        Some(told) => found(Some(raw_mapped(told)), mapped),
        None => ABSENT,
    }
}

/// Writes how many transfers wait in a queue; 0 where there is no such queue (OpenACC 3.3, section 2.16).
#[unsafe(no_mangle)]
pub extern "C" fn lw_queue_len(
    alloc: Global,
    table: &mut Handle,
    device: u64,
    queue: u64,
    len: &mut u64,
) -> u32
    ensures { IsAskedOf table.old.value table.new.value (λ e. Some (length (queue_at queue (view device e.world.state).records.queues))) result len.old len.new }
{
    let Some(environment) = take_out(alloc, table) else {
        return ENDED;
    };
    let answer = environment.table.queue_len(device, queue);
    put_back(table, environment);
    found(Some(answer), len)
}

/// Writes how many bytes of device memory all blocks take, each rounded up to a multiple of 16.
#[unsafe(no_mangle)]
pub extern "C" fn lw_used(alloc: Global, table: &mut Handle, device: u64, used: &mut u64) -> u32
    ensures { IsAskedOf table.old.value table.new.value (λ e. Some (used_bytes (view device e.world.state).records.blocks)) result used.old used.new }
{
    let Some(environment) = take_out(alloc, table) else {
        return ENDED;
    };
    let answer = environment.table.used(device);
    put_back(table, environment);
    found(Some(answer), used)
}

/// Writes how many data regions are open.
#[unsafe(no_mangle)]
pub extern "C" fn lw_regions(alloc: Global, table: &mut Handle, regions: &mut u64) -> u32
    ensures { IsAskedOf table.old.value table.new.value (λ e. Some (open_regions e.world.state)) result regions.old regions.new }
{
    let Some(environment) = take_out(alloc, table) else {
        return ENDED;
    };
    let answer = environment.table.regions();
    put_back(table, environment);
    found(Some(answer), regions)
}

/// Writes how many events there were in all.
#[unsafe(no_mangle)]
pub extern "C" fn lw_events(alloc: Global, table: &mut Handle, events: &mut u64) -> u32
    ensures { IsAskedOf table.old.value table.new.value (λ e. Some (event_count e.world.history)) result events.old events.new }
{
    let Some(environment) = take_out(alloc, table) else {
        return ENDED;
    };
    let answer = environment.table.events();
    put_back(table, environment);
    found(Some(answer), events)
}
