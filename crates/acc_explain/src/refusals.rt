//! Why a statement was refused.

use crate::sources::{put_cause, put_place};
use acc_base::{Fault, Found, HOST_BASE, QUEUE_COUNT, Section, Task};
use acc_read::{Names, Page, ScriptKernel, Statement};
use acc_table::{Mapped, Place, Table};

/// How many ranges that a section meets are shown at most.
const TOLD: u64 = 8;

#[derive(Clone, Copy)]
struct DeviceView<'a> {
    table: &'a Table,
    device: u64,
}

impl DeviceView<'_> {
    /// Puts which device it is, where there are several.
    fn put_device(self, page: &mut Page) {
        if self.table.config().devices() > 1 {
            page.text(" on device ");
            page.number(self.device);
        }
    }
}

/// Puts why the statement of a line was refused, on the table that it left as it was; behind the place in the script's
/// file, if it has one. It names the item by its array.
/// The mapped ranges that the item meets on its device follow with their counters, and the holes of a full device.
pub fn explain_refusal(
    page: &mut Page,
    table: &Table,
    names: &Names,
    file: Option<&str>,
    number: u64,
    statement: &Statement<'_>,
    fault: Fault,
) {
    let device = device_of(table, statement);
    let view = DeviceView { table, device };
    let has_file = put_place(page, file, number, None);
    page.text(if has_file {
        ": refused\n"
    } else {
        " is refused\n"
    });
    if let Some((nth, named)) = item_of(statement, fault) {
        put_item(page, names, nth, named);
        if is_of_ranges(fault) {
            put_meetings(page, view, names, statement, nth, named.0);
        }
    }
    put_fault(page, view, fault);
}

/// The device that a statement is for; 0 for one that is for none.
fn device_of(table: &Table, statement: &Statement<'_>) -> u64 {
    match statement {
        Statement::Direct(directive) => table.device_for(directive),
        Statement::Kernel { region, .. } => table.device_of_region(*region),
        _ => 0,
    }
}

/// Whether a refusal depends on the mapped ranges that the item meets.
fn is_of_ranges(fault: Fault) -> bool {
    matches!(
        fault,
        Fault::PartlyPresent { .. } | Fault::NotPresent { .. } | Fault::CounterFull { .. }
    )
}

/// What an item names: a section, and the pointer to it, if there is one.
type Named = (Section, Option<u64>);

/// The item that a refusal names, by its place, and what it names.
fn item_of(statement: &Statement<'_>, fault: Fault) -> Option<(u64, Named)> {
    let nth = match fault {
        Fault::OutOfHost { item }
        | Fault::Misaligned { item }
        | Fault::PartlyPresent { item }
        | Fault::NotPresent { item }
        | Fault::CounterFull { item }
        | Fault::DeviceFull { item, .. } => item,
        _ => return None,
    };
    Some((nth, item_in(statement, nth)?))
}

fn item_in(statement: &Statement<'_>, nth: u64) -> Option<Named> {
    let section = match statement {
        Statement::Direct(directive) => return named_by(directive.task(nth as usize)?),
        // Of a kernel's items 0 is what it changes, and 1 its source.
        Statement::Kernel {
            kernel: ScriptKernel::Plus(source),
            ..
        } if nth == 1 => *source,
        Statement::Kernel { section, .. } => *section,
        Statement::Write { addr, bytes } => section_of(*addr, bytes.len() as u64),
        Statement::Point { addr, .. } => section_of(*addr, 8),
        Statement::Show(section) => *section,
        _ => return None,
    };
    Some((section, None))
}

fn section_of(start: u64, len: u64) -> Section {
    Section { start, len }
}

fn named_by(task: Task) -> Option<Named> {
    match task {
        Task::Enter { item, .. } => Some((item.section, item.pointer)),
        Task::ExitData { item, .. } => Some((item.section, item.pointer)),
        Task::Move { item, .. } => Some((item.section, item.pointer)),
        Task::ExitRegion { .. } => None,
    }
}

fn put_item(page: &mut Page, names: &Names, nth: u64, named: Named) {
    put_cause(page);
    put_limit(page, "item ", nth, " is ");
    put_section(page, names, named.0);
    if let Some(pointer) = named.1 {
        page.text(" via the pointer ");
        put_byte(page, names, pointer);
    }
    page.text("\n");
}

/// Puts a section by the name of its array, its length and its first address.
fn put_section(page: &mut Page, names: &Names, section: Section) {
    if let Some(spot) = names.within(section) {
        spot.put_part(page, section.len);
        page.text(", ");
    }
    page.number(section.len);
    page.text(" bytes from ");
    put_byte(page, names, section.start);
    page.text(" on");
}

/// Puts an address, with the name of the byte where an array has it.
fn put_byte(page: &mut Page, names: &Names, address: u64) {
    page.address(address);
    if let Some(spot) = names.spot(address) {
        page.text(" (");
        spot.put_byte(page);
        page.text(")");
    }
}

/// Puts the mapped ranges that a section meets, and the items before it in the same directive that meet it.
fn put_meetings(
    page: &mut Page,
    view: DeviceView<'_>,
    names: &Names,
    statement: &Statement<'_>,
    nth: u64,
    section: Section,
) {
    let told = put_ranges(page, view, names, section);
    if told == 0 {
        put_cause(page);
        page.text("before the line no mapped range has any of these bytes");
        view.put_device(page);
        page.text("\n");
    }
    if let Statement::Direct(directive) = statement {
        for other in 0..nth {
            put_other(page, names, other, directive.task(other as usize), section);
        }
    }
}

/// Puts the mapped ranges that a section meets; returns how many they are. Ranges come by rising start, and no two of
/// them have an address in common, so those that meet it stand together.
fn put_ranges(page: &mut Page, view: DeviceView<'_>, names: &Names, section: Section) -> u64 {
    let mut told = 0;
    let mut from = first_from(view, section);
    let mut near = Place::default();
    for _ in 0..u64::MAX {
        let Some((mapped, place)) = view.table.mapped_near(view.device, from, near) else {
            break;
        };
        if section.end() <= u128::from(mapped.start) {
            break;
        }
        if meets(range_of(mapped), section) {
            told = u64::saturating_add(told, 1);
            if told <= TOLD {
                put_range(page, names, mapped);
            }
        }
        from = mapped.start.saturating_add(1);
        near = place;
    }
    put_others(page, told);
    told
}

/// The start of the mapped range that has the first address of a section, or that address where none has it. No range
/// that starts before meets the section.
fn first_from(view: DeviceView<'_>, section: Section) -> u64 {
    let first = Section {
        start: section.start,
        len: 1,
    };
    match view.table.find(view.device, first) {
        Found::Inside { offset, .. } => section.start.saturating_sub(offset),
        Found::Empty | Found::Partly | Found::Absent => section.start,
    }
}

/// Puts how many ranges the section meets beside those that were shown.
fn put_others(page: &mut Page, told: u64) {
    if told > TOLD {
        put_cause(page);
        put_limit(page, "and ", told.saturating_sub(TOLD), " more\n");
    }
}

fn range_of(mapped: Mapped) -> Section {
    Section {
        start: mapped.start,
        len: mapped.len,
    }
}

/// Whether two sections have an address in common.
fn meets(one: Section, other: Section) -> bool {
    one.len > 0 && other.len > 0 && !one.is_apart(other)
}

fn put_range(page: &mut Page, names: &Names, mapped: Mapped) {
    put_cause(page);
    page.text("it meets the mapping of ");
    put_section(page, names, range_of(mapped));
    page.text(", at ");
    page.address(mapped.place);
    put_limit(page, ", structured ", mapped.structured, ", dynamic ");
    page.number(mapped.dynamic);
    page.text(if mapped.lent { ", lent\n" } else { "\n" });
}

/// Puts an item of the same directive, before the refused one, that names some of the same bytes.
fn put_other(page: &mut Page, names: &Names, other: u64, task: Option<Task>, section: Section) {
    if let Some((named, _)) = task.and_then(named_by) {
        if meets(named, section) {
            put_cause(page);
            put_limit(
                page,
                "item ",
                other,
                " of the same directive acts first, on ",
            );
            put_section(page, names, named);
            page.text("\n");
        }
    }
}

fn put_fault(page: &mut Page, view: DeviceView<'_>, fault: Fault) {
    put_cause(page);
    match fault {
        Fault::OutOfHost { .. } => put_host(page, view.table),
        Fault::DeviceFull { need, .. } => put_holes(page, view, need),
        Fault::NoDevice { device } => put_devices(page, view.table, device),
        Fault::QueueFull { q } => put_queue(page, view, q),
        Fault::TooManyItems { n } => {
            put_limit(page, "the directive has ", n, " items, and may have 64")
        }
        Fault::NoQueue { q } => put_limit(page, "there is no queue ", q, "; they are 0 to 15"),
        Fault::NoAllowance { .. } => {
            let behind = " data regions are open, and no more may be";
            put_limit(page, "", view.table.regions(), behind)
        }
        Fault::TraceFull { len } => {
            put_limit(
                page,
                "the trace has ",
                len,
                " events, and no room for one more",
            )
        }
        Fault::Misaligned { .. } => page.text("a pointer lies at a multiple of 8"),
        Fault::PartlyPresent { .. } => {
            page.text("some of its bytes are mapped, and no one range has all of them")
        }
        Fault::NotPresent { .. } => page.text("it has to be mapped here"),
        Fault::CounterFull { .. } => page.text("a counter is at its limit"),
        _ => page.fault(fault),
    }
    page.text("\n");
}

fn put_limit(page: &mut Page, before: &str, number: u64, behind: &str) {
    page.text(before);
    page.number(number);
    page.text(behind);
}

/// Puts which addresses host memory has.
fn put_host(page: &mut Page, table: &Table) {
    page.text("host memory has the addresses from ");
    page.address(HOST_BASE);
    page.text(" up to ");
    let end = HOST_BASE.saturating_add(table.config().host());
    page.address(end.saturating_sub(1));
}

fn put_devices(page: &mut Page, table: &Table, device: u64) {
    let count = table.config().devices();
    put_limit(page, "there is no device ", device, "; ");
    if count > 1 {
        put_limit(page, "they are 0 to ", count.saturating_sub(1), "");
    } else {
        page.text("there is 0 alone: --devices N makes more of them");
    }
}

fn put_queue(page: &mut Page, view: DeviceView<'_>, q: u64) {
    if q < QUEUE_COUNT {
        let len = view.table.queue_len(view.device, q);
        put_limit(page, "", len, " copies wait in the queue, and no more may");
    }
}

fn put_holes(page: &mut Page, view: DeviceView<'_>, need: u64) {
    if let Some(free) = view.table.free(view.device) {
        put_limit(page, "the block takes ", need, " bytes; before the line ");
        put_limit(page, "the largest hole has ", free.largest, ", and ");
        put_limit(page, "", free.bytes, " bytes are free in ");
        let holes = if free.count == 1 { " hole" } else { " holes" };
        put_limit(page, "", free.count, holes);
        view.put_device(page);
    }
}
