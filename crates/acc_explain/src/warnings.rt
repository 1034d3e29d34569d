//! What the author of a script may not mean, though no line is at fault for it.

use crate::sources::put_place;
use crate::tokens::{Token, bytes_of, next_token, nth_bytes, nth_token};
use acc_base::{Fault, MEMORY_MAX};
use acc_read::{Arrays, Page, Statement, before_comment, is_text, line_at, next_line};
use std::alloc::Global;
use std::collections::BTreeMap;

/// An array that a script declares.
#[derive(Clone, Copy)]
struct Declared {
    line: u64,
    token: Token,
    /// How many bytes it has.
    bytes: u64,
    is_used: bool,
}

/// What is known of a script, up to a line.
#[derive(Drop)]
struct Warner<'a> {
    alloc: Global,
    arrays: BTreeMap<&'a [u8], Declared>,
    /// The same for the reader, in host memory of the greatest size.
    read: Arrays,
    /// The file of the script.
    file: Option<&'a str>,
    /// Whether a section may reach past its array.
    has_long_sections: bool,
    /// Whether an array may be unused.
    has_unused_names: bool,
    /// Whether there was no memory for some array.
    wants: bool,
    warnings: Page,
}

/// Warns of each section of a script that reaches past its array, and then of each array that no line uses. After a line
/// `# wants: past-the-end` no section is warned of, and with a line `# wants: unused-names` no array. It warns of another
/// `# wants:` too, and of a line `# options:` that is not the first. A warning is a line that begins with its place, with
/// the name of the script's file, if it has one.
///
/// # Errors
///
/// [`Fault::Memory`].
pub fn warnings_of<'a>(
    alloc: Global,
    file: Option<&'a str>,
    script: &'a [u8],
) -> Result<Page, Fault> {
    let mut warner = Warner {
        alloc,
        arrays: BTreeMap::new(alloc),
        read: Arrays::new(alloc, MEMORY_MAX as u32),
        file,
        has_long_sections: false,
        has_unused_names: false,
        wants: false,
        warnings: Page::new(alloc),
    };
    warner.read(script);
    warner.end();
    if warner.wants {
        return Err(Fault::Memory);
    }
    warner.warnings.whole()?;
    Ok(warner.warnings)
}

impl<'a> Warner<'a> {
    fn read(&mut self, script: &'a [u8]) {
        let mut rest = script;
        for index in 0..script.len() {
            if rest.is_empty() {
                break;
            }
            let (line, after) = next_line(rest);
            self.read_line(index.saturating_add(1) as u64, line);
            rest = after;
        }
    }

    fn read_line(&mut self, line: u64, text: &'a [u8]) {
        self.read_note(line, text);
        if !self.declare(line, text) {
            self.read_tokens(line, before_comment(text));
        }
    }

    fn read_tokens(&mut self, line: u64, text: &'a [u8]) {
        let mut from = 0;
        for _ in 0..text.len() {
            let token = next_token(text, from);
            if token.end == from {
                break;
            }
            self.note(line, text, token);
            from = token.end;
        }
    }

    fn read_note(&mut self, line: u64, text: &[u8]) {
        if line > 1 && text.starts_with(b"# options:") {
            self.warn(line, 0, b"'# options:' counts in the first line alone\n");
        }
        if let Some(wants) = text.strip_prefix(b"# wants:".as_slice()) {
            self.read_wants(line, wants.trim_ascii());
        }
    }

    fn read_wants(&mut self, line: u64, wants: &[u8]) {
        match wants {
            b"past-the-end" => self.has_long_sections = true,
            b"unused-names" => self.has_unused_names = true,
            _ => {
                self.warn(line, 0, b"unknown '# wants: ");
                self.warnings.bytes(wants);
                self.warnings.text("'\n");
            }
        }
    }

    /// Notes the array that a line declares; returns whether it does. A line at fault declares none.
    fn declare(&mut self, line: u64, text: &'a [u8]) -> bool {
        if !is_text(nth_bytes(text, 0), "array") {
            return false;
        }
        let Ok(Statement::Declare { name, array }) = line_at(self.alloc, &self.read, 0, None, text)
        else {
            return false;
        };
        let declared = Declared {
            line,
            token: nth_token(text, 1),
            bytes: array.whole().len,
            is_used: false,
        };
        self.wants |= self.read.insert(name, array).is_err();
        self.wants |= self.arrays.insert(name, declared).is_err();
        true
    }

    /// Notes that a line uses an array, if that is what a token names.
    fn note(&mut self, line: u64, text: &'a [u8], token: Token) {
        let name = bytes_of(text, token);
        if let Some(array) = self.arrays.get_mut(&name) {
            array.is_used = true;
            let bytes = array.bytes;
            let (from, len) = section_at(text, token).unwrap_or((0, 0));
            if bytes < from.saturating_add(len) && !self.has_long_sections {
                self.warn(line, token.start, name);
                put_section(&mut self.warnings, from, len, bytes);
            }
        }
    }

    fn end(&mut self) {
        for (name, array) in &self.arrays {
            if !array.is_used && !self.has_unused_names {
                put_warning(
                    &mut self.warnings,
                    self.file,
                    array.line,
                    array.token.start,
                    name,
                );
                self.warnings.text(" is never used\n");
            }
        }
    }

    /// Begins a warning of a place of a line.
    fn warn(&mut self, line: u64, place: usize, text: &[u8]) {
        put_warning(&mut self.warnings, self.file, line, place, text);
    }
}

fn put_warning(page: &mut Page, file: Option<&str>, line: u64, place: usize, text: &[u8]) {
    put_place(page, file, line, Some((place as u64).saturating_add(1)));
    page.text(": warning: ");
    page.bytes(text);
}

fn put_section(page: &mut Page, from: u64, len: u64, bytes: u64) {
    page.text("[");
    page.number(from);
    page.text(":");
    page.number(len);
    page.text("] reaches past its ");
    page.number(bytes);
    page.text(" bytes\n");
}

/// The offset and the length of a section, in bytes, that stand in brackets behind a token.
fn section_at(text: &[u8], token: Token) -> Option<(u64, u64)> {
    let bracket = next_token(text, token.end);
    let from = next_token(text, bracket.end);
    let colon = next_token(text, from.end);
    if !is_text(bytes_of(text, bracket), "[") || !is_text(bytes_of(text, colon), ":") {
        return None;
    }
    let len = number_in(text, next_token(text, colon.end))?;
    Some((number_in(text, from)?, len))
}

fn number_in(text: &[u8], token: Token) -> Option<u64> {
    str::from_utf8(bytes_of(text, token)).ok()?.parse().ok()
}
