//! What each item of the last directive did, so that a caller reads it and computes nothing.

ghost use Rattle.std.specs.Prelude.{◌≡◌, Some};
ghost use Rattle.std.specs.List.{slice_get};
ghost use Rattle.acc_base.specs.Devices.{view};
ghost use Rattle.lamwiest_c.specs.Finds.{IsAskedOf};
ghost use Rattle.lamwiest_c.specs.Dids.{step_fields, aim_fields, comes_back, way_of, copy_of, raw_did, times_of, dids_in, did_in, did_at, told_over};

use crate::handles::{Handle, put_back, take_out};
use crate::queries::found;
use crate::statuses::{DONE, ENDED};
use acc_base::{Aim, Counter, Did, Event, Step, Task};
use acc_table::Table;
use std::alloc::Global;

/// What an item of the last event did.
#[repr(C)]
#[derive(Clone, Copy)]
pub struct RawDid {
    /// What it did to mappings, counters and bytes, as `LW_COUNTED`; 0 where it did nothing.
    pub step: u32,
    /// What it did to its pointer, as `LW_AIMED`; 0 where it did nothing.
    pub aim: u32,
    /// Which way its section was copied or put into a queue, as `LW_IN`; 0 where no byte was.
    pub way: u32,
    /// Of an entry to a region: 1 where the exit copies the section to the host, if it ends the mapping; else 0.
    pub back: u32,
    /// How many bytes were copied or put into a queue.
    pub len: u64,
    /// The number of the block that the step names; 0 where it names none.
    pub block: u64,
    /// The device address of the first byte of a new block; else 0.
    pub place: u64,
    /// The host address of the pointer that it attached or detached; else 0.
    pub pointer: u64,
    /// The number of the block that holds the pointer; else 0.
    pub holder: u64,
    /// The device address at which the pointer is aimed now; 0 where it was not aimed anew.
    pub target: u64,
    /// How often the pointer is attached behind the event; 0 where it did nothing to a pointer.
    pub times: u64,
}

struct StepFields {
    step: u32,
    block: u64,
    place: u64,
}

struct CopyFields {
    way: u32,
    back: u32,
    len: u64,
}

struct AimFields {
    aim: u32,
    pointer: u64,
    holder: u64,
    target: u64,
}

fn step_fields(step: Step) -> StepFields
    ensures { result ≡ step_fields step }
{
    let (step, block, place) = match step {
        Step::Nothing => (0, 0, 0),
        Step::Counted { block } => (1, block, 0),
        Step::Born { block, place } => (2, block, place),
        Step::Dropped {
            block,
            ended: false,
        } => (3, block, 0),
        Step::Dropped { block, ended: true } => (4, block, 0),
        Step::Moved { block } => (5, block, 0),
    };
    StepFields { step, block, place }
}

fn aim_fields(aim: Aim) -> AimFields
    ensures { result ≡ aim_fields aim }
{
    let (aim, pointer, holder, target) = match aim {
        Aim::None => (0, 0, 0, 0),
        Aim::New {
            pointer,
            block,
            target,
        } => (1, pointer, block, target),
        Aim::Again { pointer, block } => (2, pointer, block, 0),
        Aim::Less { pointer, block } => (3, pointer, block, 0),
        Aim::Cleared { pointer, block } => (4, pointer, block, 0),
    };
    AimFields {
        aim,
        pointer,
        holder,
        target,
    }
}

/// Whether the exit from its region copies an item to the host that enters it, if it ends the mapping.
fn comes_back(task: Task) -> bool
    ensures { result ≡ comes_back task }
{
    match task {
        Task::Enter {
            counter: Counter::Structured,
            item,
            ..
        } => item.clause.copies_out(),
        _ => false,
    }
}

/// Which way an item was copied, or put into a queue.
fn way_of(task: Task, step: Step) -> u32
    ensures { result ≡ way_of task step }
{
    match (task.copies(step), task.goes_out()) {
        (false, _) => 0,
        (true, false) => 1,
        (true, true) => 2,
    }
}

/// The copy of an item that asked this, if the event names what it asked.
fn copy_of(task: Option<Task>, step: Step) -> CopyFields
    ensures { result ≡ copy_of task step }
{
    let Some(task) = task else {
        return CopyFields {
            way: 0,
            back: 0,
            len: 0,
        };
    };
    CopyFields {
        way: way_of(task, step),
        back: if comes_back(task) { 1 } else { 0 },
        len: if task.copies(step) {
            task.section().len
        } else {
            0
        },
    }
}

/// How often the pointer of an item is attached on a device now, where the item did something to it.
fn times_of(table: &Table, device: u64, aim: Aim) -> u64
    ensures { result ≡ times_of aim (view device table.now.state).records }
{
    match aim {
        Aim::None => 0,
        Aim::New { pointer, .. }
        | Aim::Again { pointer, .. }
        | Aim::Less { pointer, .. }
        | Aim::Cleared { pointer, .. } => table.attachment(device, pointer),
    }
}

fn raw_did(did: Did, copy: CopyFields, times: u64) -> RawDid
    ensures { result ≡ raw_did did copy times }
{
    let StepFields { step, block, place } = step_fields(did.step);
    let AimFields {
        aim,
        pointer,
        holder,
        target,
    } = aim_fields(did.aim);
    let CopyFields { way, back, len } = copy;
    RawDid {
        step,
        aim,
        way,
        back,
        len,
        block,
        place,
        pointer,
        holder,
        target,
        times,
    }
}

/// What the item of a place did in an event. The step of a queue is one item, which moved bytes.
fn did_in(event: &Event, place: usize) -> Option<Did>
    ensures { result ≡ slice_get (dids_in event.now) place }
{
    match event {
        Event::Stepped { block, .. } if place == 0 => Some(Did {
            step: Step::Moved { block: *block },
            aim: Aim::None,
        }),
        _ => event.did().get(place).copied(),
    }
}

/// What the item of a place did in the last event of a table.
fn did_at(table: &Table, place: usize) -> Option<RawDid>
    ensures { result ≡ did_at place table.now }
{
    let event = table.trace().last()?;
    let did = did_in(event, place)?;
    let copy = copy_of(event.task(place), did.step);
    let times = times_of(table, event.device(), did.aim);
    Some(raw_did(did, copy, times))
}

/// Writes into `did` what the item of a place, from 0 on, did in the last event. It returns `ABSENT` where there is no
/// such item, as behind a rebase, which leaves no event stored. The items of an exit from a region are those of its
/// entry, in the same order.
#[unsafe(no_mangle)]
pub extern "C" fn lw_did(alloc: Global, table: &mut Handle, item: u64, did: &mut RawDid) -> u32
    ensures { IsAskedOf table.old.value table.new.value (λ e. did_at item e.world) result did.old did.new }
{
    let Some(environment) = take_out(alloc, table) else {
        return ENDED;
    };
    let answer = did_at(&environment.table, item as usize);
    put_back(table, environment);
    found(answer, did)
}

/// Writes into each element what the item of its place did in the last event. An element stays where the event has no
/// item of its place.
fn tell_all(table: &Table, dids: &mut [RawDid])
    ensures { dids.new ≡ told_over (λ place. did_at place table.now) 0 dids.old }
{
    let mut place = 0;
    while place < dids.len() {
        match did_at(table, place) {
            Some(told) => dids[place] = told,
            None => {}
        }
        place += 1;
    }
}

/// Writes what the items of the last event did, from the first on, as [`lw_did`] writes each. An element behind them
/// stays.
#[unsafe(no_mangle)]
pub extern "C" fn lw_dids(alloc: Global, table: &mut Handle, dids: &mut [RawDid]) -> u32
    ensures { IsAskedOf table.old.value table.new.value (λ e. Some (told_over (λ place. did_at place e.world) 0 dids.old)) result dids.old dids.new }
{
    let Some(environment) = take_out(alloc, table) else {
        return ENDED;
    };
    tell_all(&environment.table, dids);
    put_back(table, environment);
    DONE
}
