//! How the program ends, and what it writes then.

use crate::picture_files::put_numbered;
use acc_base::Fault;
use acc_emit::{EmitFault, Reason};
use acc_follow::{Difference, Page};
use acc_script::{Sink, write_all};
use acc_terminal::{put_place, tell, tell_fault};
use acc_trials::{Machine, put_numbers, put_texts};
use std::alloc::Global;

/// Why the program ends with status 2.
#[derive(Clone, Copy)]
pub enum Mishap<'a> {
    /// A fault of a run, or of the limits.
    Fault(Fault),
    /// The options in the first line of a file are wrong, which is told as the reason.
    FirstLine,
    /// Some lines are at fault, which is told already.
    Told,
    /// A fault of the script in a file of this name, one of several, and its column; 0 where none is known.
    Within(&'a str, u64, Fault),
    /// A file of this name cannot be read, and why.
    Unread(&'a str, &'static str),
    /// The line of a number cannot be emitted, and why.
    Unfit(u64, Reason),
    /// A picture, a page or JUnit cannot be written to a file of this name, and why; with the line's number, for one of
    /// many.
    Unwritten(&'a str, Option<u64>, &'static str),
}

impl Mishap<'_> {
    /// The number of the line that is at fault; 0 where none is.
    pub fn line(self) -> u64 {
        match self {
            Mishap::Fault(Fault::Script { line, .. }) => line,
            _ => 0,
        }
    }
}

impl From<Fault> for Mishap<'_> {
    fn from(fault: Fault) -> Self {
        Mishap::Fault(fault)
    }
}

impl From<EmitFault> for Mishap<'_> {
    fn from(fault: EmitFault) -> Self {
        match fault {
            EmitFault::Run(fault) => Mishap::Fault(fault),
            EmitFault::Line { line, reason } => Mishap::Unfit(line, reason),
        }
    }
}

/// Writes why the program ends with status 2, in one piece. A fault of a script in a file has its place in front, with
/// the column unless that is 0. A failure of the sink changes nothing.
pub fn tell_mishap<E: Sink>(
    alloc: Global,
    err: &mut E,
    file: Option<&str>,
    column: u64,
    mishap: Mishap<'_>,
) {
    match mishap {
        Mishap::Fault(fault) => tell_fault(alloc, err, file, column, fault),
        Mishap::Within(name, column, fault) => tell_fault(alloc, err, Some(name), column, fault),
        _ => {
            let mut page = Page::new(alloc);
            put_mishap(&mut page, file, mishap);
            let _ = write_all(err, page.as_slice());
        }
    }
}

fn put_mishap(page: &mut Page, file: Option<&str>, mishap: Mishap<'_>) {
    match mishap {
        Mishap::Unread(name, reason) => {
            page.text("accrun: cannot read ");
            page.text(name);
            put_texts(page, &[": ", reason, "\n"]);
        }
        Mishap::Unwritten(name, line, reason) => {
            page.text("accrun: cannot write ");
            match line {
                Some(line) => put_numbered(page, name, line),
                None => page.text(name),
            }
            put_texts(page, &[": ", reason, "\n"]);
        }
        Mishap::Unfit(line, reason) => put_unfit(page, file, line, reason.text()),
        // These are told elsewhere.
        Mishap::FirstLine | Mishap::Told | Mishap::Fault(_) | Mishap::Within(..) => {}
    }
}

/// Writes which sizes there are, one of which is no multiple of 16; the fault alone where there is no memory for them. A
/// failure of the sink changes nothing.
pub fn tell_sizes<E: Sink>(alloc: Global, err: &mut E, machine: Machine) {
    let mut page = Page::new(alloc);
    page.text("accrun: 2 BadConfig: ");
    put_sizes(&mut page, machine);
    match page.whole() {
        Ok(text) => {
            let _ = write_all(err, text);
        }
        // There is no memory for the sizes.
        Err(_) => tell(err, Fault::BadConfig),
    }
}

/// Puts these sizes.
pub fn put_sizes(page: &mut Page, machine: Machine) {
    let sizes = [("--host ", machine.host), (" --device ", machine.device)];
    put_numbers(page, &sizes, ": a size has to be a multiple of 16\n");
}

fn put_unfit(page: &mut Page, file: Option<&str>, line: u64, reason: &str) {
    match file {
        Some(name) => {
            put_place(page, name, line, 0);
            page.text(": error:");
        }
        None => put_numbers(page, &[("accrun: line ", line)], ""),
    }
    put_texts(page, &[" cannot be emitted: ", reason, "\n"]);
}

/// Writes where the output of a file's script, or of the program, differs from the expected one. A failure of the sink
/// changes nothing.
pub fn tell_difference<E: Sink>(
    alloc: Global,
    err: &mut E,
    file: Option<&str>,
    difference: Difference<'_>,
) {
    let mut page = Page::new(alloc);
    page.text(file.unwrap_or("accrun"));
    let end = " of the output is not as expected\n";
    put_numbers(&mut page, &[(": line ", difference.line)], end);
    put_line(&mut page, "expected: ", difference.expected);
    put_line(&mut page, "found:    ", difference.found);
    let _ = write_all(err, page.as_slice());
}

fn put_line(page: &mut Page, whose: &str, line: Option<&[u8]>) {
    page.text(whose);
    match line {
        Some(line) => page.bytes(line),
        None => page.text("no more lines"),
    }
    page.text("\n");
}
