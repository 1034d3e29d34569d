//! What a line prints as an object of JSON.

ghost use Rattle.std.specs.Prelude.{◌≡◌, ◌≤◌, [], length};

use acc_base::{QUEUE_COUNT, Section};
use acc_read::Page;
use acc_script::{Effect, Line};
use acc_table::{Mapped, Place, Table};

/// Puts the statement of a line, if it has one.
pub fn put_statement(page: &mut Page, number: u64, text: &[u8]) {
    if !text.is_empty() {
        open(page, number, "statement");
        page.text_field("text", text);
        page.close_object();
    }
}

/// Puts what the line of a number prints, if it prints something. Addresses are decimal numbers.
pub fn put_effect(page: &mut Page, number: u64, table: &Table, effect: Effect) {
    match effect {
        Effect::Nothing => return,
        Effect::EmptyQueue => open(page, number, "idle"),
        Effect::Refused(fault) => {
            open(page, number, "refused");
            page.fault_field(fault);
        }
        Effect::HostBytes(section) => {
            open(page, number, "show");
            put_bytes(page, table.host_read(section));
        }
        Effect::DeviceBytes { device, section } => {
            open(page, number, "peek");
            put_bytes(page, table.device_read(device, section));
        }
        Effect::Presence(is_present) => {
            open(page, number, "present");
            page.name_field("present");
            page.text(if is_present { "true" } else { "false" });
        }
        Effect::Place(place) => {
            open(page, number, "address");
            page.maybe_field("address", place);
        }
        Effect::Reported => {
            open(page, number, "report");
            put_report(page, table);
        }
    }
    page.close_object();
}

fn open(page: &mut Page, number: u64, kind: &str) {
    page.open_object(kind);
    page.number_field("line", number);
}

/// Puts the bytes that a memory has, if it has them, as digits.
fn put_bytes(page: &mut Page, bytes: Option<&[u8]>) {
    let Some(bytes) = bytes else {
        return page.null_field("bytes");
    };
    page.name_field("bytes");
    page.text("\"");
    page.digits(bytes);
    page.text("\"");
}

/// Puts what the lines of a report say, in their order, for one device as for several.
fn put_report(page: &mut Page, table: &Table) {
    let config = table.config();
    page.number_field("host", config.host());
    page.number_field("device", config.device());
    page.name_field("devices");
    for device in 0..config.devices() {
        page.text(if device == 0 { "[" } else { "," });
        put_device(page, table, device);
    }
    page.text("]");
    page.number_field("regions", table.regions());
    page.number_field("events", table.events());
}

fn put_device(page: &mut Page, table: &Table, device: u64) {
    put_field(page, "{\"used\":", table.used(device));
    page.text(",\"ranges\":[");
    put_ranges(page, table, device);
    page.text("],\"ended\":[");
    put_all_ended(page, table, device);
    page.text("],\"queues\":[");
    put_queues(page, table, device);
    page.text("]}");
}

fn put_comma(page: &mut Page, is_first: bool) {
    if !is_first {
        page.text(",");
    }
}

/// Puts a number behind what stands before it in its object, its name too.
fn put_field(page: &mut Page, before: &str, number: u64) {
    page.text(before);
    page.number(number);
}

/// The mapped ranges by rising start, each with the attached pointers in it.
fn put_ranges(page: &mut Page, table: &Table, device: u64) {
    let mut from = 0;
    let mut near = Place::default();
    for nth in 0..u64::MAX {
        let Some((mapped, place)) = table.mapped_near(device, from, near) else {
            return;
        };
        put_range(page, table, device, mapped, nth == 0);
        from = mapped.start.saturating_add(1);
        near = place;
    }
}

fn put_range(page: &mut Page, table: &Table, device: u64, mapped: Mapped, is_first: bool) {
    put_mapped(page, mapped, is_first);
    put_pointers(page, table, device, mapped);
    page.text("]}");
}

/// Puts a mapped range up to its pointers, in one piece that is put together from its end.
fn put_mapped(page: &mut Page, mapped: Mapped, is_first: bool) {
    let mut line = Line::new();
    put_lent(&mut line, mapped.lent);
    line.put_number(mapped.dynamic);
    line.put(b",\"dynamic\":");
    line.put_number(mapped.structured);
    line.put(b",\"structured\":");
    line.put_number(mapped.place);
    line.put(b",\"place\":");
    line.put_number(mapped.len);
    line.put(b",\"length\":");
    line.put_number(mapped.start);
    line.put(b"{\"start\":");
    if !is_first {
        line.put(b",");
    }
    page.bytes(line.as_slice());
}

/// Puts whether the block of a range is lent, and where its pointers begin.
#[inline(always)]
fn put_lent(line: &mut Line, is_lent: bool)
    requires none { line.old ≡ [] }
    ensures length { length line.new ≤ 26 }
{
    if is_lent {
        line.put(b",\"lent\":true,\"pointers\":[");
    } else {
        line.put(b",\"lent\":false,\"pointers\":[");
    }
}

/// The attached pointers of a mapped range, by rising address.
fn put_pointers(page: &mut Page, table: &Table, device: u64, mapped: Mapped) {
    let end = mapped.start.saturating_add(mapped.len);
    let mut start = mapped.start;
    for nth in 0..u64::MAX {
        let len = end.saturating_sub(start);
        let Some(attached) = table.next_attached(device, Section { start, len }) else {
            return;
        };
        put_comma(page, nth == 0);
        put_field(page, "{\"address\":", attached.pointer);
        put_field(page, ",\"count\":", attached.count);
        page.text("}");
        start = attached.pointer.saturating_add(1);
    }
}

/// The blocks whose mapping has ended, by rising place.
fn put_all_ended(page: &mut Page, table: &Table, device: u64) {
    let mut from = 0;
    for nth in 0..u64::MAX {
        let Some(ended) = table.ended(device, from) else {
            return;
        };
        put_comma(page, nth == 0);
        put_field(page, "{\"place\":", ended.place);
        put_field(page, ",\"size\":", ended.size);
        put_field(page, ",\"pins\":", ended.pins);
        page.text("}");
        from = ended.place.saturating_add(1);
    }
}

/// The queues that are not empty, by rising number.
fn put_queues(page: &mut Page, table: &Table, device: u64) {
    let mut is_first = true;
    for queue in 0..QUEUE_COUNT {
        let length = table.queue_len(device, queue);
        if length > 0 {
            put_comma(page, is_first);
            put_field(page, "{\"queue\":", queue);
            put_field(page, ",\"length\":", length);
            page.text("}");
            is_first = false;
        }
    }
}
