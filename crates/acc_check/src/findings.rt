//! What is found, and how it is told.

use crate::checks::{Line, Needless};
use crate::histories::Done;
use crate::notes::{Advice, Note};
use crate::objects::{open_object, put_note_fields, put_section_fields};
use acc_base::Section;
use acc_read::{Names, Page, before_comment, is_word_byte};
use acc_table::Mapped;

/// What is wrong with bytes that are read.
#[derive(Clone, Copy)]
pub(crate) enum Kind {
    /// The host reads them, and a kernel wrote others on the device.
    StaleHost,
    /// A kernel reads them, and the host wrote others.
    StaleDevice,
    /// Nothing ever filled them.
    Unfilled,
    /// They are newer than those that were copied over them.
    Overwritten,
}

impl Kind {
    fn name(self) -> &'static str {
        match self {
            Kind::StaleHost => "stale-host",
            Kind::StaleDevice => "stale-device",
            Kind::Unfilled => "unfilled",
            Kind::Overwritten => "overwritten",
        }
    }
}

/// Bytes that are read and stale.
#[derive(Clone, Copy)]
pub(crate) struct Finding {
    /// What is wrong.
    pub kind: Kind,
    /// The bytes.
    pub section: Section,
    /// Which reference of the line names them, from the last one on.
    pub nth: usize,
    /// Why they are so, and what to write.
    pub advice: Advice,
}

/// Where a finding is told, and how.
#[derive(Clone, Copy)]
pub(crate) struct Origin<'a> {
    /// The file of the script, if it has one.
    pub file: Option<&'a str>,
    /// The number of the line.
    pub line: u64,
    /// The column in it, from 1 on.
    pub column: u64,
    /// Whether it is told as an object of JSON.
    pub json: bool,
}

impl<'a> Origin<'a> {
    /// A whole line.
    pub fn line(file: Option<&'a str>, line: u64, json: bool) -> Origin<'a> {
        Origin {
            file,
            line,
            column: 1,
            json,
        }
    }
}

/// Puts a finding of a line, and what to write.
pub(crate) fn put_finding(
    page: &mut Page,
    names: &Names,
    line: Line<'_>,
    json: bool,
    finding: Finding,
) {
    let origin = Origin {
        file: line.file,
        line: line.number,
        column: column_of(line.text, finding.nth),
        json,
    };
    open(page, names, origin, finding.kind.name(), finding.section);
    if json {
        put_note_fields(page, names, finding.advice);
        return close(page, origin);
    }
    close(page, origin);
    put_done(page, origin, finding.advice.cause.written);
    put_done(page, origin, finding.advice.cause.missed);
    put_note(page, names, origin, finding.advice);
}

/// Begins a finding of a kind about some bytes.
fn open(page: &mut Page, names: &Names, origin: Origin<'_>, kind: &str, section: Section) {
    open_kind(page, origin, kind);
    if origin.json {
        put_section_fields(page, names, section);
    } else {
        put_section(page, names, section);
    }
}

/// Begins a finding of a kind.
fn open_kind(page: &mut Page, origin: Origin<'_>, kind: &str) {
    if origin.json {
        return open_object(page, origin, kind);
    }
    put_place(page, origin);
    page.text("warning: ");
    page.text(kind);
    page.text(": ");
}

fn close(page: &mut Page, origin: Origin<'_>) {
    if origin.json {
        page.close_object();
    } else {
        page.text("\n");
    }
}

/// Puts what a line did that a finding comes from.
fn put_done(page: &mut Page, origin: Origin<'_>, done: Option<Done>) {
    let Some(done) = done else {
        return;
    };
    let (line, column) = (done.line, 1);
    put_place(
        page,
        Origin {
            line,
            column,
            ..origin
        },
    );
    page.text("note: ");
    page.text(done.deed.text());
    page.text("\n");
}

fn put_note(page: &mut Page, names: &Names, origin: Origin<'_>, advice: Advice) {
    if advice.note == Note::None {
        return;
    }
    put_place(page, origin);
    page.text("note: write '");
    put_clause(page, names, advice);
    page.text("' ");
    put_where(page, advice);
    page.text("\n");
}

/// Puts what to write.
pub(crate) fn put_clause(page: &mut Page, names: &Names, advice: Advice) {
    page.text(advice.note.word());
    page.text("(");
    match advice.note {
        Note::Wait { queue, .. } => page.number(queue),
        _ => put_section(page, names, advice.section),
    }
    page.text(")");
}

/// Puts where it is to be written.
pub(crate) fn put_where(page: &mut Page, advice: Advice) {
    page.text(advice.note.place());
    if let Some(device) = advice.device {
        page.text(", on device ");
        page.number(device);
    }
}

/// Puts a mapping that ended while the device had newer bytes, which nobody read.
pub(crate) fn put_drop(page: &mut Page, names: &Names, origin: Origin<'_>, section: Section) {
    open(page, names, origin, "dropped", section);
    close(page, origin);
}

/// Puts how much was copied by updates that was equal already.
pub(crate) fn put_needless(page: &mut Page, origin: Origin<'_>, needless: Needless) {
    open_kind(page, origin, "needless");
    if origin.json {
        page.number_field("bytes", needless.bytes);
        page.number_field("copies", needless.copies);
    } else {
        page.number(needless.bytes);
        page.text(" bytes in ");
        page.number(needless.copies);
        page.text(" copies");
    }
    close(page, origin);
}

/// Puts a range that is mapped still, at the line that mapped it.
pub(crate) fn put_leak(page: &mut Page, names: &Names, origin: Origin<'_>, range: Mapped) {
    let section = Section {
        start: range.start,
        len: range.len,
    };
    open(page, names, origin, "leaked", section);
    put_counter(page, origin, "structured", range.structured);
    put_counter(page, origin, "dynamic", range.dynamic);
    close(page, origin);
}

fn put_counter(page: &mut Page, origin: Origin<'_>, name: &str, count: u64) {
    if origin.json {
        return page.number_field(name, count);
    }
    page.text(" ");
    page.text(name);
    page.text(" ");
    page.number(count);
}

fn put_place(page: &mut Page, origin: Origin<'_>) {
    match origin.file {
        Some(name) => {
            page.text(name);
            page.text(":");
            page.number(origin.line);
            page.text(":");
            page.number(origin.column);
        }
        None => {
            page.text("accrun: line ");
            page.number(origin.line);
        }
    }
    page.text(": ");
}

/// Puts a section as scripts name it; by its addresses where no array has all of it.
fn put_section(page: &mut Page, names: &Names, section: Section) {
    match names.within(section) {
        Some(spot) => spot.put_part(page, section.len),
        None => {
            page.address(section.start);
            page.text(":");
            page.number(section.len);
        }
    }
}

/// The column, from 1 on, of a reference in a line, from the last one on. A reference begins with a letter, and so does
/// no number in its brackets.
fn column_of(line: &[u8], nth: usize) -> u64 {
    let text = before_comment(line);
    let mut left = nth;
    for at in (0..text.len()).rev() {
        if begins_name(text, at) {
            if left == 0 {
                return (at as u64).saturating_add(1);
            }
            left -= 1;
        }
    }
    1
}

fn begins_name(text: &[u8], at: usize) -> bool {
    let before = at.checked_sub(1).and_then(|at| text.get(at));
    let is_first = before.map_or(true, |b| !is_word_byte(*b));
    is_first && text.get(at).map_or(false, |b| b.is_ascii_lowercase())
}
