//! Colours of what is told at a terminal.

use acc_read::Page;
use std::env::{self, Env, VarError};

/// The codes of a terminal before a line, and behind each that has one.
const BOLD: &str = "\x1b[1m";

const RED: &str = "\x1b[31m";

const CYAN: &str = "\x1b[36m";

const PLAIN: &str = "\x1b[0m";

/// Whether a person wants colours: the variable `NO_COLOR` is not there, or empty.
pub fn are_wanted<R: Env + AllocGlobal>(rt: &R) -> bool {
    match env::var(rt, "NO_COLOR") {
        Ok(text) => text.is_empty(),
        Err(VarError::NotPresent) => true,
        Err(_) => false,
    }
}

/// Puts lines, with colours for a fault or a refusal, for a mark, and for what is said under them.
pub fn put_coloured(page: &mut Page, text: &[u8]) {
    for line in text.split_inclusive(|byte| *byte == b'\n') {
        match colour_of(line) {
            Some(colour) => put_line(page, colour, line),
            None => page.bytes(line),
        }
    }
}

fn put_line(page: &mut Page, colour: &str, line: &[u8]) {
    page.text(colour);
    page.bytes(line.strip_suffix(b"\n".as_slice()).unwrap_or(line));
    page.text(PLAIN);
    page.text("\n");
}

fn colour_of(line: &[u8]) -> Option<&'static str> {
    let text = line.trim_ascii_start();
    if line.starts_with(b"accrun: ") || has_fault(line) || line.ends_with(b": refused\n") {
        return Some(BOLD);
    }
    if text.starts_with(b"= ") {
        return Some(CYAN);
    }
    let behind = text.strip_prefix(b"| ".as_slice())?;
    behind.trim_ascii_start().starts_with(b"^").then_some(RED)
}

/// Whether a line tells a fault of a file, behind its place.
fn has_fault(line: &[u8]) -> bool {
    const FAULT: &[u8] = b": error: ";
    line.windows(FAULT.len()).any(|part| part == FAULT)
}
