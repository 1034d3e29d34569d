//! What is found, as objects of JSON.

use crate::findings::{Origin, put_clause, put_where};
use crate::histories::Done;
use crate::notes::{Advice, Note};
use acc_base::Section;
use acc_read::{Names, Page};

/// Begins the object of a finding of a kind. What follows are fields, and then its end.
pub(crate) fn open_object(page: &mut Page, origin: Origin<'_>, kind: &str) {
    page.open_object(kind);
    match origin.file {
        Some(file) => page.text_field("file", file.as_bytes()),
        None => page.null_field("file"),
    }
    page.number_field("line", origin.line);
    page.number_field("column", origin.column);
}

/// Puts the bytes of a finding: the array that has all of them, if one has, and where they lie in host memory.
pub(crate) fn put_section_fields(page: &mut Page, names: &Names, section: Section) {
    page.spot_fields(names.within(section));
    page.number_field("address", section.start);
    page.number_field("length", section.len);
}

/// Puts what a finding comes from, and what to write.
pub(crate) fn put_note_fields(page: &mut Page, names: &Names, advice: Advice) {
    put_done_field(page, "written", advice.cause.written);
    put_done_field(page, "missed", advice.cause.missed);
    if advice.note == Note::None {
        page.null_field("write");
        return page.null_field("where");
    }
    page.name_field("write");
    page.text("\"");
    put_clause(page, names, advice);
    page.text("\"");
    page.name_field("where");
    page.text("\"");
    put_where(page, advice);
    page.text("\"");
}

/// Puts what a line did, with its number.
fn put_done_field(page: &mut Page, name: &str, done: Option<Done>) {
    let Some(done) = done else {
        return page.null_field(name);
    };
    page.name_field(name);
    page.text("{\"line\":");
    page.number(done.line);
    page.text_field("text", done.deed.text().as_bytes());
    page.text("}");
}
