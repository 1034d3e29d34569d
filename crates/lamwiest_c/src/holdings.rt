//! What waits in the queues of a device, and what open regions hold, one by one. These are queries as those of
//! `queries.rt`.

ghost use Rattle.std.specs.Prelude.{◌≡◌, option_map};
ghost use Rattle.std.specs.List.{slice_get};
ghost use Rattle.acc_base.specs.Devices.{view};
ghost use Rattle.acc_base.specs.Queues.{queue_at};
ghost use Rattle.lamwiest_c.specs.Finds.{IsAskedOf};
ghost use Rattle.lamwiest_c.specs.Holdings.{raw_transfer, raw_holding, holding_at};

use crate::events::item_asked;
use crate::handles::{Handle, put_back, take_out};
use crate::items::RawItem;
use crate::queries::found;
use crate::statuses::{ABSENT, ENDED};
use acc_base::{Holding, Task, Transfer};
use acc_table::Table;
use std::alloc::Global;

/// A copy that waits in a queue (OpenACC 3.3, section 2.16).
#[repr(C)]
#[derive(Clone, Copy)]
pub struct RawTransfer {
    /// The number of the block.
    pub block: u64,
    /// How far behind the first byte of the block its bytes begin.
    pub offset: u64,
    /// The first host address.
    pub start: u64,
    /// How many bytes it copies.
    pub len: u64,
    /// Which way, as `LW_IN`.
    pub way: u64,
}

/// What an item of an open data region holds (OpenACC 3.3, sections 2.6.5 and 2.6.7).
#[repr(C)]
#[derive(Clone, Copy)]
pub struct RawHolding {
    /// The item as the entry named it.
    pub item: RawItem,
    /// The number of the block whose structured counter it raised; 0 where it raised none.
    pub block: u64,
    /// The host address of the pointer that it attached; 0 where it attached none.
    pub pointer: u64,
    /// The number of the block that has the pointer's copy; 0 where it attached none.
    pub holder: u64,
}

fn raw_transfer(transfer: Transfer) -> RawTransfer
    ensures { result ≡ raw_transfer transfer }
{
    RawTransfer {
        block: transfer.block,
        offset: transfer.offset,
        start: transfer.section.start,
        len: transfer.section.len,
        way: if transfer.out { 2 } else { 1 },
    }
}

fn raw_holding(holding: Holding) -> RawHolding
    ensures { result ≡ raw_holding holding }
{
    let (pointer, holder) = holding.aim.unwrap_or((0, 0));
    RawHolding {
        item: item_asked(Task::ExitRegion { holding }),
        block: holding.block.unwrap_or(0),
        pointer,
        holder,
    }
}

/// Writes the transfer at a place of a queue of a device, from 0 on for the one that it makes next; returns `ABSENT`
/// where not as many wait (OpenACC 3.3, section 2.16).
#[unsafe(no_mangle)]
pub extern "C" fn lw_transfer(
    alloc: Global,
    table: &mut Handle,
    device: u64,
    queue: u64,
    place: u64,
    transfer: &mut RawTransfer,
) -> u32
    ensures { IsAskedOf table.old.value table.new.value (λ e. option_map raw_transfer (slice_get (queue_at queue (view device e.world.state).records.queues) place)) result transfer.old transfer.new }
{
    let Some(environment) = take_out(alloc, table) else {
        return ENDED;
    };
    let answer = environment.table.queued(device, queue, place);
    put_back(table, environment);
    match answer {
        Some(told) => found(Some(raw_transfer(told)), transfer),
        None => ABSENT,
    }
}

/// What the item at a place of the entry of an open region holds.
fn holding_at(table: &Table, region: u64, item: usize) -> Option<RawHolding>
    ensures { result ≡ holding_at region item table.now }
{
    let holdings = table.holdings(region)?;
    Some(raw_holding(*holdings.get(item)?))
}

/// Writes what an item of an open data region holds, from 0 on in the written order of its entry; returns `ABSENT` where
/// no region of the number is open, or it has no such item.
#[unsafe(no_mangle)]
pub extern "C" fn lw_held(
    alloc: Global,
    table: &mut Handle,
    region: u64,
    item: u64,
    holding: &mut RawHolding,
) -> u32
    ensures { IsAskedOf table.old.value table.new.value (λ e. holding_at region item e.world) result holding.old holding.new }
{
    let Some(environment) = take_out(alloc, table) else {
        return ENDED;
    };
    let answer = holding_at(&environment.table, region, item as usize);
    put_back(table, environment);
    found(answer, holding)
}
