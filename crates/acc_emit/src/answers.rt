//! Questions of a script, and the answers that have to come.

use crate::emitters::Emitter;
use crate::languages::Language;
use crate::marks::Marks;
use crate::pieces::Piece;
use crate::pointers::{POINTER_LEN, bytes_at, is_attached, pointer_section};
use crate::sheets::Sheet;
use crate::twins::DEVICE;
use acc_base::{HOST_BASE, Section};
use acc_table::Table;

/// How many expected bytes stand on one line of the program.
const BYTES_ON_LINE: u64 = 32;

/// Emits a question for the bytes of a section, in host memory or on the device, and for its pointers.
pub fn emit_bytes(emitter: &mut Emitter<'_>, own: &Table, section: Section, on_device: bool) {
    let Emitter {
        twin,
        marks,
        sheet,
        wanted,
        ..
    } = emitter;
    let question = if on_device { "peek" } else { "show" };
    sheet.need(section.len);
    let bytes = bytes_at(own, section, on_device);
    let others = bytes_at(&twin.table, section, on_device);
    let (Some(bytes), Some(others)) = (bytes, others) else {
        return sheet.ask(question, section, wanted.line.unwrap_or(b"none"));
    };
    match wanted.line {
        Some(line) if !is_of_bytes(line, section.len) => sheet.ask(question, section, line),
        line => {
            let pieces = [
                Piece::Text(question),
                Piece::Number(sheet.line),
                Piece::Argument(section),
            ];
            sheet.line("%(%, %", "call %(%, %", &pieces);
            put_bytes(sheet, marks, section, bytes, others, line);
            put_pointers(sheet, marks, own, section, on_device);
        }
    }
}

/// Whether a line has two digits for each of so many bytes, where `?` is any digit.
fn is_of_bytes(line: &[u8], count: u64) -> bool {
    for digit in line {
        if !digit.is_ascii_hexdigit() && *digit != b'?' {
            return false;
        }
    }
    line.len() as u64 == count.saturating_mul(2)
}

/// Emits a question for the presence of a section.
pub fn emit_present(emitter: &mut Emitter<'_>, own: &Table, section: Section) {
    let word = if own.is_present(DEVICE, section) {
        "yes"
    } else {
        "no"
    };
    let answer = emitter.wanted.line.unwrap_or(word.as_bytes());
    emitter.sheet.ask("present", section, answer);
}

/// Puts the bytes that have to come, and that the twin has too: those of the line that is given, if one is. A byte that is
/// not compared is `??`.
fn put_bytes(
    sheet: &mut Sheet,
    marks: &Marks,
    section: Section,
    bytes: &[u8],
    others: &[u8],
    line: Option<&[u8]>,
) {
    for (at, (byte, other)) in bytes.iter().zip(others).enumerate() {
        let from = at.saturating_mul(2);
        let digits = line.unwrap_or(&[]).get(from..from.saturating_add(2));
        let at = at as u64;
        let is_open = *byte != *other || marks.is_open(section.start.saturating_add(at));
        put_break(sheet, at);
        let piece = match digits {
            _ if is_open => Piece::Text("??"),
            Some(digits) => Piece::Literal(digits),
            None => Piece::Digits(*byte),
        };
        sheet.put("%", &[piece]);
    }
    sheet.pick("\");\n", "\")\n", &[]);
}

/// Begins a line of expected bytes where the one at a place is the first on it.
fn put_break(sheet: &mut Sheet, at: u64) {
    if at % BYTES_ON_LINE == 0 {
        if at == 0 {
            sheet.pick(",\n", ", &\n", &[]);
        } else {
            sheet.pick("\"\n", "\" // &\n", &[]);
        }
        sheet.line("    \"", "    \"", &[]);
    }
}

/// Puts a question for each pointer of a section whose target is known.
fn put_pointers(
    sheet: &mut Sheet,
    marks: &Marks,
    table: &Table,
    section: Section,
    on_device: bool,
) {
    let end = section.start.saturating_add(section.len) / POINTER_LEN;
    for nth in section.start.div_ceil(POINTER_LEN)..end {
        let place = nth.saturating_mul(POINTER_LEN);
        if marks.is_pointer(place)
            && let Some(target) = marks.target(table, place, on_device)
        {
            let is_attached = on_device && is_attached(table, place);
            put_pointer(sheet, place, on_device, target, is_attached);
        }
    }
}

/// Puts a question for a pointer. Attached it holds the device address of its target, and else the host address.
fn put_pointer(sheet: &mut Sheet, place: u64, on_device: bool, target: u64, is_attached: bool) {
    let host = sheet.language.pick("(void *)", "c_loc");
    let pieces = [
        Piece::Text(if on_device { "peek" } else { "show" }),
        Piece::Number(sheet.line),
        Piece::Start(pointer_section(place)),
        Piece::Text(if is_attached { "acc_deviceptr" } else { host }),
        Piece::Byte(target),
    ];
    sheet.call("%_pointer(%, %, %(%))", &pieces);
}

/// Emits a report: a comment with what the table says, and questions for each array and each mapped range.
pub fn emit_report(emitter: &mut Emitter<'_>, own: &Table, report: &[u8]) {
    put_comment(&mut emitter.sheet, report);
    for nth in 0..own.config().host() / 16 {
        let address = HOST_BASE.saturating_add(nth.saturating_mul(16));
        let Some(spot) = emitter.sheet.names.spot(address) else {
            break;
        };
        let whole = spot.array.whole();
        if whole.start == address {
            emit_present(emitter, own, whole);
            emit_bytes(emitter, own, whole, false);
        }
    }
    emit_ranges(emitter, own);
}

/// Emits a question for the bytes of each mapped range on the device.
fn emit_ranges(emitter: &mut Emitter<'_>, own: &Table) {
    let mut from = HOST_BASE;
    for _ in 0..own.config().host() {
        let Some(range) = own.mapped(DEVICE, from) else {
            break;
        };
        let (start, len) = (range.start, range.len);
        emit_bytes(emitter, own, Section { start, len }, true);
        from = start.saturating_add(len);
    }
}

/// Puts what no OpenACC program can see, as a comment with what the table says.
pub fn put_comment(sheet: &mut Sheet, text: &[u8]) {
    let head = [Piece::Text("no program can see this; the table says:")];
    sheet.line("/* %\n", "! %\n", &head);
    for line in text.trim_ascii_end().split(|byte| *byte == b'\n') {
        sheet.line("     %\n", "!    %\n", &[Piece::Bytes(line)]);
    }
    if sheet.language == Language::C {
        sheet.line("*/\n", "", &[]);
    }
}
