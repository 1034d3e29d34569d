//! Questions and reports about 20,000 mapped ranges on each of two devices, and copies that wait in queues.

use crate::desks::Desk;
use crate::items::{Row, one};
use crate::numbers::{fields_of_counters, fields_of_ended, fields_of_found, number_of};
use acc_base::{Directive, EnterClause, ExitClause, Section, UpdateClause};
use acc_script::{MemorySink, report};
use acc_table::Call;

/// How many devices there are.
const DEVICES: u64 = 2;

/// How many queues of each device are used.
const QUEUES: u64 = 16;

/// Arrays of 48 bytes, which each device maps.
const ARRAYS: Row = Row {
    first: 0,
    apart: 64,
    len: 48,
    count: 20_000,
};

/// Maps all arrays on each device, makes so many rounds of questions, and ends the mappings. The host writes other
/// bytes for each device.
pub fn play(desk: &mut Desk, rounds: u64) {
    for device in 0..DEVICES {
        desk.device = device;
        desk.fill(ARRAYS.all());
        desk.enter_row(ARRAYS, EnterClause::Copyin);
    }
    for _ in 0..rounds {
        walk_all(desk);
    }
    for device in 0..DEVICES {
        desk.device = device;
        desk.exit_row(ARRAYS, ExitClause::Copyout);
        desk.note_host(ARRAYS.all());
    }
}

/// One round on each device, a report of all, and a fold.
fn walk_all(desk: &mut Desk) {
    for device in 0..DEVICES {
        desk.device = device;
        walk(desk);
    }
    put_report(desk);
    desk.fold();
}

/// Puts copies into queues, asks about all arrays while the copies wait, and makes the copies.
fn walk(desk: &mut Desk) {
    for queue in 0..QUEUES {
        put_off(desk, queue);
    }
    desk.note_ranges();
    let step = desk.stride(2_000);
    for nth in 0..ARRAYS.count {
        ask(desk, nth.wrapping_mul(step));
    }
    for queue in 0..QUEUES {
        make_up(desk, queue);
    }
    desk.note_host(ARRAYS.all());
}

/// Notes where sixteen bytes of an array lie on the device, their address there, and the counters of their range.
fn ask(desk: &mut Desk, nth: u64) {
    let section = Section {
        start: ARRAYS.at(nth).start.wrapping_add(nth % 32),
        len: 16,
    };
    let device = desk.device;
    let found = desk.table.find(device, section);
    let address = desk.table.device_address(device, section.start);
    let counters = desk.table.counters(device, section);
    desk.tally.note_all(&fields_of_found(found));
    desk.tally.note(number_of(&address));
    desk.tally.note_all(&fields_of_counters(counters));
}

/// Puts copies both ways into a queue, and the end of a mapping with its copy.
fn put_off(desk: &mut Desk, queue: u64) {
    for _ in 0..16u64 {
        let (one_way, other_way) = (desk.below(ARRAYS.count), desk.below(ARRAYS.count));
        let to_self = one(UpdateClause::ToSelf, ARRAYS.at(one_way));
        desk.update(to_self, Some(queue));
        let to_device = one(UpdateClause::ToDevice, ARRAYS.at(other_way));
        desk.update(to_device, Some(queue));
    }
    desk.exit_data(one(ExitClause::Copyout, ARRAYS.at(queue)), Some(queue));
}

/// Makes the copies of a queue, the first of them alone, and maps the array again whose mapping ended.
fn make_up(desk: &mut Desk, queue: u64) {
    let device = desk.device;
    let ended = desk.table.ended(device, 0);
    let len = desk.table.queue_len(device, queue);
    desk.tally.note_all(&fields_of_ended(ended));
    desk.tally.note(len);
    desk.call(Call::Do(Directive::Step { device, queue }));
    desk.call(Call::Do(Directive::Wait {
        device,
        queue: Some(queue),
    }));
    desk.fill(ARRAYS.at(queue));
    desk.enter_data(one(EnterClause::Copyin, ARRAYS.at(queue)));
}

/// Notes the report of the table.
fn put_report(desk: &mut Desk) {
    let mut sink = MemorySink::new(desk.alloc);
    desk.tally.is_short |= report(&desk.table, &mut sink).is_err();
    desk.tally.note_bytes(sink.as_slice());
}
