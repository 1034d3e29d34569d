//! Large copies: an array of 16 MiB that is mapped, updated and worked on. And pages on a table with full traces, whose
//! events hold all bytes.

use crate::desks::Desk;
use crate::items::{Row, one, section};
use acc_base::{EnterClause, ExitClause, HOST_BASE, RegionClause, Section, UpdateClause};
use acc_lend::{Add, run_one};
use acc_table::Call;

/// The length of the large array.
const LARGE: u64 = 16_777_216;

/// How many bytes of it a round reads back on each side. To read all would take longer than the rest of the round.
const PART: u64 = LARGE / 64;

/// Arrays of 4 KiB.
const PAGES: Row = Row {
    first: 0,
    apart: 4_096,
    len: 4_096,
    count: 256,
};

/// So many rounds on the large array. Each reads another of its 64 parts back, and what the last leaves is read whole.
pub fn play_large(desk: &mut Desk, rounds: u64) {
    desk.fill(section(0, LARGE));
    for round in 0..rounds {
        let at = (round % 64).wrapping_mul(PART);
        large(desk, section(at, PART));
    }
    desk.note_host(section(0, LARGE));
}

/// Maps the large array, changes it on the host and by kernels, updates it both ways, and ends the mapping.
fn large(desk: &mut Desk, part: Section) {
    let all = section(0, LARGE);
    desk.enter_data(one(EnterClause::Copyin, all));
    desk.note_device(part);
    let start = large_page(desk);
    write(desk, start);
    desk.update(one(UpdateClause::ToDevice, all), None);
    let region = desk.enter(one(RegionClause::Present, all));
    for _ in 0..64u64 {
        let start = large_page(desk);
        work(desk, region, start);
    }
    desk.exit(region);
    desk.update(one(UpdateClause::ToSelf, all), None);
    desk.exit_data(one(ExitClause::Copyout, all), None);
    desk.note_host(part);
}

/// Where 4 KiB of the large array begin, by chance.
fn large_page(desk: &mut Desk) -> u64 {
    HOST_BASE.wrapping_add(desk.below(LARGE - 4_096))
}

/// The host writes 4 KiB of one byte by chance.
fn write(desk: &mut Desk, start: u64) {
    let byte = (desk.below(256) & 0xFF) as u8;
    let made = vec![in desk.alloc; byte; 4_096];
    desk.write(start, made);
}

/// A kernel over 4 KiB in a region.
fn work(desk: &mut Desk, region: u64, start: u64) {
    let page = Section { start, len: 4_096 };
    if let Some(mut lease) = desk.lend(region, page) {
        run_one(&mut lease, &Add(3), &[]);
        desk.call(Call::Gather(lease));
    }
}

/// Fills and maps all pages, makes so many rounds in a region over one of them, ends the mappings, and reads all back.
pub fn play_pages(desk: &mut Desk, rounds: u64) {
    desk.fill(PAGES.all());
    desk.enter_row(PAGES, EnterClause::Copyin);
    for nth in 0..PAGES.count {
        desk.note_device(PAGES.at(nth));
    }
    let region = desk.enter(one(RegionClause::Present, PAGES.at(0)));
    for _ in 0..rounds {
        full(desk, region);
    }
    desk.exit(region);
    desk.exit_row(PAGES, ExitClause::Copyout);
    desk.note_host(PAGES.all());
}

/// A hundred times five events on a page by chance, and a fold.
fn full(desk: &mut Desk, region: u64) {
    for _ in 0..100u64 {
        let page = PAGES.at(desk.chance.number());
        write(desk, page.start);
        desk.update(one(UpdateClause::ToDevice, page), None);
        work(desk, region, page.start);
        desk.update(one(UpdateClause::ToSelf, page), None);
    }
    desk.fold();
}
