//! The line that tells a fault.

use acc_base::Fault;
use acc_read::Page;
use acc_script::{Sink, write_all};
use acc_trials::put_texts;
use arrayvec::ArrayString;
use std::alloc::Global;
use std::fmt::{self, Write};

/// Writes the one line of a fault. That of a line of a file has its place in front, with the column unless that is 0. A
/// failure of the sink changes nothing.
pub fn tell_fault<E: Sink>(
    alloc: Global,
    err: &mut E,
    file: Option<&str>,
    column: u64,
    fault: Fault,
) {
    if let (Some(name), Fault::Script { line, kind }) = (file, fault) {
        let mut page = Page::new(alloc);
        put_place(&mut page, name, line, column);
        put_texts(&mut page, &[": error: ", kind.name(), "\n"]);
        tell_placed(err, &page, fault);
    } else {
        tell(err, fault);
    }
}

fn tell_placed<E: Sink>(err: &mut E, page: &Page, fault: Fault) {
    match page.whole() {
        Ok(text) => {
            let _ = write_all(err, text);
        }
        // There is no memory for the file's name.
        Err(_) => tell(err, fault),
    }
}

/// Puts a place of a file: its name, and the line and the column, unless these are 0.
pub fn put_place(page: &mut Page, name: &str, line: u64, column: u64) {
    page.text(name);
    put_part(page, line);
    put_part(page, column);
}

fn put_part(page: &mut Page, number: u64) {
    if number > 0 {
        page.text(":");
        page.number(number);
    }
}

/// Writes the one line of a fault, in one piece and without allocation. A failure of the sink changes nothing.
pub fn tell<E: Sink>(err: &mut E, fault: Fault) {
    // The longest line has 74 bytes: that of `DeviceFull` with two numbers of 20 digits.
    let mut line = ArrayString::<80>::new();
    let _ = write_fault(&mut line, fault);
    let _ = write_all(err, line.as_bytes());
}

fn write_fault<W: Write>(line: &mut W, fault: Fault) -> fmt::Result {
    match fault {
        Fault::Script { line: number, kind } => writeln!(line, "accrun: line {number}: {kind}"),
        _ => writeln!(line, "accrun: {fault}"),
    }
}
