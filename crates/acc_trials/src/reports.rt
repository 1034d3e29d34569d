//! What is told of tests: lines of TAP 14, and JUnit.

use crate::notes::lines_of;
use crate::told_names::{put_letter, told_letter};
use crate::trials::{Trial, put_numbers, put_texts};
use acc_base::Fault;
use acc_read::Page;
use std::alloc::Global;
use std::slice;

/// What ends a run of tests for lack of memory, in place of the lines that are left.
pub const BAIL_OUT: &[u8] = b"Bail out! There is no memory.\n";

/// What came of tests so far.
#[derive(Drop)]
pub struct Report {
    all: u64,
    failed: u64,
    /// How many failed as they have to, or were not run.
    noted: u64,
    /// The lines of TAP that are not written yet.
    pub tap: Page,
    /// The elements of JUnit.
    elements: Page,
}

impl Report {
    /// The report of so many tests, before the first one.
    pub fn new(alloc: Global, count: usize) -> Report {
        let mut tap = Page::new(alloc);
        put_numbers(&mut tap, &[("TAP version 14\n1..", count as u64)], "\n");
        Report {
            all: 0,
            failed: 0,
            noted: 0,
            tap,
            elements: Page::new(alloc),
        }
    }

    /// Counts a test, and puts what came of it.
    ///
    /// # Errors
    ///
    /// That of the test; [`Fault::Memory`].
    pub fn add(
        &mut self,
        alloc: Global,
        name: &str,
        trial: &Result<Trial, Fault>,
    ) -> Result<(), Fault> {
        match trial {
            Ok(trial) => self.add_trial(alloc, name, trial),
            Err(fault) => Err(*fault),
        }
    }

    fn add_trial(&mut self, alloc: Global, name: &str, trial: &Trial) -> Result<(), Fault> {
        let note = trial.note.whole()?;
        let wrong = lines_of(alloc, trial.wrong.whole()?)?;
        let warnings = lines_of(alloc, trial.warnings.as_slice())?;
        self.failed = self.failed.saturating_add(u64::from(trial.is_failed()));
        self.add_lines(name, note, &wrong, &warnings);
        Ok(())
    }

    fn add_lines(&mut self, name: &str, note: &[u8], wrong: &[&[u8]], warnings: &[&[u8]]) {
        self.all = self.all.saturating_add(1);
        self.noted = self.noted.saturating_add(u64::from(!note.is_empty()));
        put_trial(&mut self.tap, self.all, name, note, wrong);
        put_all_shown(&mut self.tap, "# ", warnings);
        put_element(&mut self.elements, name, note, wrong);
    }

    /// Puts how many tests there were.
    pub fn put_counts(&mut self) {
        let numbers = [
            ("# ", self.all),
            (" tests: ", self.failed),
            (" failed, ", self.noted),
        ];
        put_numbers(&mut self.tap, &numbers, " skipped or expected to fail\n");
    }

    /// All of it as JUnit.
    ///
    /// # Errors
    ///
    /// [`Fault::Memory`].
    pub fn junit(&self, alloc: Global) -> Result<Page, Fault> {
        let elements = self.elements.whole()?;
        let mut page = Page::new(alloc);
        page.text("<?xml version=\"1.0\" encoding=\"UTF-8\"?>\n<testsuite name=\"accrun\"");
        let (all, failed, skipped) = (" tests=\"", "\" failures=\"", "\" skipped=\"");
        let numbers = [
            (all, self.all),
            (failed, self.failed),
            (skipped, self.noted),
        ];
        put_numbers(&mut page, &numbers, "\">\n");
        page.bytes(elements);
        page.text("</testsuite>\n");
        Ok(page)
    }

    /// Whether a test failed.
    pub fn has_failed(&self) -> bool {
        self.failed > 0
    }
}

/// Puts what came of the test of a number: its note, and the lines that say what is wrong.
fn put_trial(page: &mut Page, number: u64, name: &str, note: &[u8], wrong: &[&[u8]]) {
    let result = if wrong.is_empty() { "ok " } else { "not ok " };
    let mark = if note.is_empty() { "" } else { " # " };
    put_numbers(page, &[(result, number)], " - ");
    put_name(page, name);
    put_shown(page, mark, note.trim_ascii_end());
    if !wrong.is_empty() {
        page.text("  ---\n  message: |\n");
        put_all_shown(page, "    ", wrong);
        page.text("  ...\n");
    }
}

/// Puts lines as [`put_shown`] does.
fn put_all_shown(page: &mut Page, mark: &str, lines: &[&[u8]]) {
    for line in lines {
        put_shown(page, mark, line);
    }
}

/// Puts a line behind a mark; a question mark for a control character but the tab.
fn put_shown(page: &mut Page, mark: &str, line: &[u8]) {
    page.text(mark);
    for byte in line {
        let is_hidden = byte.is_ascii_control() && *byte != b'\t';
        page.bytes(slice::from_ref(if is_hidden { &b'?' } else { byte }));
    }
    page.text("\n");
}

/// Puts a name as TAP has it; a question mark for a control character.
fn put_name(page: &mut Page, name: &str) {
    for letter in name.chars() {
        put_name_letter(page, letter);
    }
}

fn put_name_letter(page: &mut Page, letter: char) {
    match letter {
        '#' => page.text("\\#"),
        '\\' => page.text("\\\\"),
        _ => put_letter(page, told_letter(letter)),
    }
}

fn put_element(page: &mut Page, name: &str, note: &[u8], wrong: &[&[u8]]) {
    page.text("  <testcase classname=\"accrun\" name=\"");
    for letter in name.chars() {
        put_escaped_letter(page, told_letter(letter));
    }
    page.text("\">");
    if !note.is_empty() {
        put_outcome(page, "skipped", note, wrong);
    } else if let Some(first) = wrong.first() {
        put_outcome(page, "failure", first, wrong);
    }
    page.text("</testcase>\n");
}

/// Puts why a test failed or was skipped, and the lines that say what is wrong.
fn put_outcome(page: &mut Page, tag: &str, message: &[u8], wrong: &[&[u8]]) {
    put_texts(page, &["<", tag, " message=\""]);
    put_escaped(page, message);
    page.text("\">\n");
    for line in wrong {
        put_escaped(page, line);
        page.text("\n");
    }
    put_texts(page, &["</", tag, ">"]);
}

/// Puts bytes as text of XML. Where they are not UTF-8, a question mark stands for each that is not ASCII.
fn put_escaped(page: &mut Page, bytes: &[u8]) {
    if let Ok(text) = str::from_utf8(bytes) {
        for letter in text.chars() {
            put_escaped_letter(page, letter);
        }
    } else {
        for byte in bytes {
            let letter = if *byte < 128 { char::from(*byte) } else { '?' };
            put_escaped_letter(page, letter);
        }
    }
}

/// Puts a letter as XML has it, in a value too; a question mark for one that may not stand there.
fn put_escaped_letter(page: &mut Page, letter: char) {
    match letter {
        '&' => page.text("&amp;"),
        '<' => page.text("&lt;"),
        '>' => page.text("&gt;"),
        '"' => page.text("&quot;"),
        '\t' => page.text("&#9;"),
        '\u{fffe}' | '\u{ffff}' => page.text("?"),
        _ => put_letter(page, told_letter(letter)),
    }
}
