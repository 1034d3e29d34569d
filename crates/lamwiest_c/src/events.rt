//! The stored trace, event by event: what each call named, and the bytes that it brought where the trace is full.

ghost use Rattle.std.specs.Prelude.{◌≡◌, option_map};
ghost use Rattle.std.specs.List.{slice_get};
ghost use Rattle.lamwiest_c.specs.Statuses.{IsAnswered};
ghost use Rattle.lamwiest_c.specs.Answers.{IsOf};
ghost use Rattle.lamwiest_c.specs.Finds.{IsAskedOf};
ghost use Rattle.lamwiest_c.specs.Events.{kind_of, queue_or_none, option_number, bytes_in, asked_beside, told_beside, raw_event, region_number, exit_number, update_number, item_asked, event_at, item_at, IsWhole, IsEventRead};

use crate::environments::TableWithLeases;
use crate::handles::{Handle, put_back, take_out};
use crate::items::{
    ATTACH, COPY, COPYIN, COPYOUT, COPYOUT_ZERO, CREATE, CREATE_ZERO, DELETE, DETACH, DEVICE,
    NO_CREATE, NO_QUEUE_GIVEN, PRESENT, RawItem, SELF,
};
use crate::queries::found;
use crate::statuses::{ENDED, FaultFields, Refusal, tell};
use acc_base::{Event, ExitClause, RegionClause, Section, Task, UpdateClause};
use acc_table::Table;
use std::alloc::Global;

/// An event of the stored trace. All numbers that do not apply are 0.
#[repr(C)]
#[derive(Clone, Copy)]
pub struct RawEvent {
    /// What was done, as `LW_ENTERED`.
    pub kind: u32,
    /// 1 where it had the `finalize` or the `if_present` clause, else 0.
    pub option: u32,
    /// The number of the device.
    pub device: u64,
    /// The queue, or `NO_QUEUE_GIVEN` where it names none.
    pub queue: u64,
    /// The number of the region.
    pub region: u64,
    /// The number of the lease.
    pub lease: u64,
    /// The number of the block.
    pub block: u64,
    /// The first host address.
    pub start: u64,
    /// The length in bytes.
    pub len: u64,
    /// How many items it has; of a wait, how many transfers it made.
    pub count: u64,
    /// How many bytes are stored with it.
    pub stored: u64,
}

fn kind_of(event: &Event) -> u32
    ensures { result ≡ kind_of event.now }
{
    match event {
        Event::Entered { .. } => 1,
        Event::Left { .. } => 2,
        Event::EnteredData { .. } => 3,
        Event::ExitedData { .. } => 4,
        Event::Updated { .. } => 5,
        Event::Waited { .. } => 6,
        Event::Stepped { .. } => 7,
        Event::HostWritten { .. } => 8,
        Event::Lent { .. } => 9,
        Event::Gathered { .. } => 10,
    }
}

fn queue_or_none(queue: Option<u64>) -> u64
    ensures { result ≡ queue_or_none queue }
{
    queue.unwrap_or(NO_QUEUE_GIVEN)
}

fn option_number(option: bool) -> u32
    ensures { result ≡ option_number option }
{
    if option { 1 } else { 0 }
}

/// The bytes that are stored with an event: those that a full trace keeps of a write, or of a lease that came back.
fn bytes_in(event: &Event) -> &[u8]
    ensures { result.now ≡ bytes_in event.now }
{
    match event {
        Event::HostWritten { bytes, .. } => bytes.as_slice(),
        Event::Gathered { bytes, .. } => bytes.as_slice(),
        _ => &[],
    }
}

/// Tells what there is of a directive that has items, beside what is told of each event.
fn tell_asked(event: &Event, told: &mut RawEvent)
    ensures { told.new ≡ asked_beside event.now told.old }
{
    match event {
        Event::Entered { number, .. } | Event::Left { number, .. } => told.region = *number,
        Event::EnteredData { queue, .. } => told.queue = queue_or_none(*queue),
        Event::ExitedData {
            finalize,
            queue,
            ..
        } => {
            told.option = option_number(*finalize);
            told.queue = queue_or_none(*queue);
        }
        Event::Updated {
            if_present,
            queue,
            ..
        } => {
            told.option = option_number(*if_present);
            told.queue = queue_or_none(*queue);
        }
        _ => {}
    }
}

/// Tells what there is of an event alone, beside what is told of each.
fn tell_beside(event: &Event, told: &mut RawEvent)
    ensures { told.new ≡ told_beside event.now told.old }
{
    match event {
        Event::Waited { queue, count, .. } => {
            told.queue = queue_or_none(*queue);
            told.count = *count;
        }
        Event::Stepped { queue, block, .. } => {
            told.queue = *queue;
            told.block = *block;
        }
        Event::HostWritten { addr, len, .. } => {
            told.start = *addr;
            told.len = *len;
        }
        Event::Lent {
            region,
            section,
            block,
            serial,
            ..
        } => {
            told.region = *region;
            told.lease = *serial;
            told.block = *block;
            told.start = section.start;
            told.len = section.len;
        }
        Event::Gathered { serial, block, .. } => {
            told.lease = *serial;
            told.block = *block;
        }
        _ => tell_asked(event, told),
    }
}

fn raw_event(event: &Event) -> RawEvent
    ensures { result ≡ raw_event event.now }
{
    let mut told = RawEvent {
        kind: kind_of(event),
        option: 0,
        device: event.device(),
        queue: NO_QUEUE_GIVEN,
        region: 0,
        lease: 0,
        block: 0,
        start: 0,
        len: 0,
        count: event.did().len() as u64,
        stored: bytes_in(event).len() as u64,
    };
    tell_beside(event, &mut told);
    told
}

fn region_number(clause: RegionClause) -> u32
    ensures { result ≡ region_number clause }
{
    match clause {
        RegionClause::Copy => COPY,
        RegionClause::Copyin => COPYIN,
        RegionClause::Copyout { zero: false } => COPYOUT,
        RegionClause::Copyout { zero: true } => COPYOUT_ZERO,
        RegionClause::Create { zero: false } => CREATE,
        RegionClause::Create { zero: true } => CREATE_ZERO,
        RegionClause::NoCreate => NO_CREATE,
        RegionClause::Present => PRESENT,
        RegionClause::Attach => ATTACH,
    }
}

fn exit_number(clause: ExitClause) -> u32
    ensures { result ≡ exit_number clause }
{
    match clause {
        ExitClause::Delete => DELETE,
        ExitClause::Copyout => COPYOUT,
        ExitClause::Detach => DETACH,
    }
}

fn update_number(clause: UpdateClause) -> u32
    ensures { result ≡ update_number clause }
{
    match clause {
        UpdateClause::ToSelf => SELF,
        UpdateClause::ToDevice => DEVICE,
    }
}

/// The item that asked a task, as C writes it. The clauses of `enter data` have the numbers of those of a region.
pub fn item_asked(task: Task) -> RawItem
    ensures { result ≡ item_asked task }
{
    let (clause, section, pointer) = match task {
        Task::Enter { item, .. } => (region_number(item.clause), item.section, item.pointer),
        Task::ExitRegion { holding } => {
            let item = holding.item;
            (region_number(item.clause), item.section, item.pointer)
        }
        Task::ExitData { item, .. } => (exit_number(item.clause), item.section, item.pointer),
        Task::Move { item, .. } => (update_number(item.clause), item.section, item.pointer),
    };
    let Section { start, len } = section;
    RawItem {
        clause,
        start,
        len,
        pointer: pointer.unwrap_or(0),
    }
}

/// The stored event of a place.
fn event_at(table: &Table, place: usize) -> Option<RawEvent>
    ensures { result ≡ event_at place table.now }
{
    Some(raw_event(table.trace().get(place)?))
}

/// What the stored event of a place named as its item of another one.
fn item_at(table: &Table, place: usize, item: usize) -> Option<RawItem>
    ensures { result ≡ item_at place item table.now }
{
    let event = table.trace().get(place)?;
    Some(item_asked(event.task(item)?))
}

/// Copies bytes into a buffer that is as long.
fn copy_whole(bytes: &[u8], into: &mut [u8]) -> Result<u64, Refusal>
    ensures { IsWhole bytes.now into.old into.new (λ r. result ≡ r) }
{
    let len = bytes.len() as u64;
    if into.len() != bytes.len() {
        return Err(Refusal::BadLength { len });
    }
    into.copy_from_slice(bytes);
    Ok(len)
}

impl TableWithLeases {
    /// Copies the bytes that are stored with the event of a place.
    fn event_bytes(&self, place: usize, into: &mut [u8]) -> Result<u64, Refusal>
        ensures { IsEventRead self.now place into.old into.new (λ r. result ≡ r) }
    {
        match self.table.trace().get(place) {
            Some(event) => copy_whole(bytes_in(event), into),
            None => Err(Refusal::Absent),
        }
    }
}

/// Writes the stored event of a place, from 0 on; returns `ABSENT` where there are no so many. Those that were folded
/// into a base are not stored any more.
#[unsafe(no_mangle)]
pub extern "C" fn lw_event(
    alloc: Global,
    table: &mut Handle,
    place: u64,
    event: &mut RawEvent,
) -> u32
    ensures { IsAskedOf table.old.value table.new.value (λ e. event_at place e.world) result event.old event.new }
{
    let Some(environment) = take_out(alloc, table) else {
        return ENDED;
    };
    let answer = event_at(&environment.table, place as usize);
    put_back(table, environment);
    found(answer, event)
}

/// Writes an item that the stored event of a place named; returns `ABSENT` where it named no so many. An exit from a
/// region names none: its items are those of the entry.
#[unsafe(no_mangle)]
pub extern "C" fn lw_event_item(
    alloc: Global,
    table: &mut Handle,
    place: u64,
    item: u64,
    named: &mut RawItem,
) -> u32
    ensures { IsAskedOf table.old.value table.new.value (λ e. item_at place item e.world) result named.old named.new }
{
    let Some(environment) = take_out(alloc, table) else {
        return ENDED;
    };
    let answer = item_at(&environment.table, place as usize, item as usize);
    put_back(table, environment);
    found(answer, named)
}

/// Copies the bytes that are stored with the event of a place into a buffer that is as long: those that were written
/// into host memory, or with which a lease came back, where the trace is full; else none.
#[unsafe(no_mangle)]
pub extern "C" fn lamwiest_event_bytes(
    alloc: Global,
    table: &mut Handle,
    place: u64,
    bytes: &mut [u8],
    fault: &mut FaultFields,
) -> u32
    ensures { IsOf table.old.value table.new.value (IsAnswered result fault.new)
        (λ e v. IsEventRead e place bytes.old bytes.new (IsAnswered result fault.new) × (v ≡ e)) }
{
    let Some(environment) = take_out(alloc, table) else {
        return tell(Err(Refusal::Ended), fault);
    };
    let made = environment.event_bytes(place as usize, bytes);
    put_back(table, environment);
    tell(made, fault)
}
