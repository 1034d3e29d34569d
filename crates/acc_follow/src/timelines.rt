//! The page that shows a script step by step.

use crate::page_text::{HEAD, TAIL};
use crate::ran_lines::RanLine;
use acc_base::{Fault, ScriptFault};
use acc_check::Check;
use acc_read::{Names, Page};
use acc_script::{Effect, MemorySink};
use std::alloc::Global;
use std::collections::BTreeMap;

/// What each line of a script did, as data of the page.
///
/// A state is a report and a picture. Its pieces are lines, and groups with a title. Each is stored once.
#[derive(Drop)]
pub struct Timeline {
    alloc: Global,
    /// The pieces, as strings of JSON.
    pieces: Page,
    /// The number of each piece.
    numbers: BTreeMap<Vec<u8>, u64>,
    /// The lines of the script, as arrays of JSON.
    lines: Page,
    /// Whether there was no memory for some of it.
    wants: bool,
}

impl Timeline {
    /// Returns a timeline of no line.
    pub fn new(alloc: Global) -> Timeline {
        Timeline {
            alloc,
            pieces: Page::new(alloc),
            numbers: BTreeMap::new(alloc),
            lines: Page::new(alloc),
            wants: false,
        }
    }

    /// Adds a line that ran, with what it printed, why it was refused, and the state that it left.
    ///
    /// # Errors
    ///
    /// [`Fault::Memory`] where there is none for them.
    pub fn add_line(
        &mut self,
        names: &Names,
        check: Option<&Check>,
        ran: RanLine<'_>,
        effect: Effect,
    ) -> Result<(), Fault> {
        let mut printed = MemorySink::new(self.alloc);
        let mut reason = Page::new(self.alloc);
        self.wants |= !ran.print(&mut printed, effect);
        // A page is of one script, so it names no file.
        ran.explain(&mut reason, self.alloc, names, None, effect);
        self.wants |= reason.whole().is_err();
        self.open_line(ran.line, printed.as_slice(), reason.as_slice());
        self.add_state(names, check, ran, effect);
        self.lines.text("]");
        self.kept()
    }

    fn kept(&self) -> Result<(), Fault> {
        if self.wants {
            return Err(Fault::Memory);
        }
        Ok(())
    }

    /// Adds a line that is at fault, where `entries` are the lines of the open data regions.
    pub fn add_fault(&mut self, ran: RanLine<'_>, entries: &[u64], kind: ScriptFault) {
        let mut reason = Page::new(self.alloc);
        ran.explain_fault(&mut reason, self.alloc, entries, kind);
        self.open_line(ran.line, kind.name().as_bytes(), reason.as_slice());
        self.lines.text("]");
    }

    fn open_line(&mut self, line: &[u8], printed: &[u8], reason: &[u8]) {
        let is_first = self.lines.as_slice().is_empty();
        self.lines.text(if is_first { "[" } else { ",\n[" });
        self.lines.string(line);
        self.lines.text(",");
        self.lines.string(printed);
        self.lines.text(",");
        self.lines.string(reason);
    }

    /// Adds the state that a line left, where it may have changed something. A kernel that is refused may keep a block
    /// lent.
    fn add_state(
        &mut self,
        names: &Names,
        check: Option<&Check>,
        ran: RanLine<'_>,
        effect: Effect,
    ) {
        let may_change = matches!(effect, Effect::Nothing | Effect::Refused(_));
        if ran.statement().is_empty() || (!may_change && !self.numbers.is_empty()) {
            return;
        }
        let mut report = MemorySink::new(self.alloc);
        let mut picture = Page::new(self.alloc);
        let mut state = Vec::new(self.alloc);
        self.wants |= !ran.print(&mut report, Effect::Reported);
        self.add_pieces(report.as_slice(), &mut state);
        self.wants |= !ran.draw(&mut picture, self.alloc, names, check);
        self.add_pieces(picture.as_slice(), &mut state);
        put_runs(&mut self.lines, &state);
    }

    /// Adds the pieces of a text, which is UTF-8, to a state.
    fn add_pieces(&mut self, text: &[u8], state: &mut Vec<u64>) {
        let mut piece = Page::new(self.alloc);
        for line in str::from_utf8(text).unwrap_or("").lines() {
            self.add_text(line, &mut piece, state);
        }
    }

    /// Adds a line of a state to the piece that it continues or begins. Unless that goes on, it is added.
    fn add_text(&mut self, line: &str, piece: &mut Page, state: &mut Vec<u64>) {
        piece.text(line);
        if piece.as_slice().starts_with(b"<g><title>") && line != "</g>" {
            return piece.text("\n");
        }
        self.wants |= piece.whole().is_err() || self.add_piece(piece.as_slice(), state).is_err();
        piece.clear();
    }

    fn add_piece(&mut self, piece: &[u8], state: &mut Vec<u64>) -> Result<(), Fault> {
        let number = match self.numbers.get(piece).copied() {
            Some(number) => number,
            None => self.add_new(piece)?,
        };
        Ok(state.push(number)?)
    }

    fn add_new(&mut self, piece: &[u8]) -> Result<u64, Fault> {
        let number = self.numbers.len() as u64;
        let key = Vec::from_slice(self.alloc, piece)?;
        self.numbers.insert(key, number)?;
        self.pieces.text(if number == 0 { "" } else { ",\n" });
        self.pieces.string(piece);
        Ok(number)
    }

    /// Puts the page, which needs no other file.
    ///
    /// # Errors
    ///
    /// [`Fault::Memory`] where there was none for some of it.
    pub fn put(&self, page: &mut Page) -> Result<(), Fault> {
        self.kept()?;
        page.text(HEAD);
        page.text("{\"pieces\":[\n");
        page.bytes(self.pieces.whole()?);
        page.text("\n],\"lines\":[\n");
        page.bytes(self.lines.whole()?);
        page.text("\n]}");
        page.text(TAIL);
        page.whole()?;
        Ok(())
    }
}

/// Puts numbers as a text of runs: ` 3-5 9` for 3, 4, 5 and 9.
fn put_runs(page: &mut Page, numbers: &[u64]) {
    page.text(",\"");
    let mut first = 0;
    let mut count = 0;
    for number in numbers {
        if *number != u64::saturating_add(first, count) {
            put_run(page, first, count);
            first = *number;
            count = 0;
        }
        count = u64::saturating_add(count, 1);
    }
    put_run(page, first, count);
    page.text("\"");
}

/// Puts a run of so many numbers, if there are some.
fn put_run(page: &mut Page, first: u64, count: u64) {
    if count > 0 {
        page.text(" ");
        page.number(first);
    }
    if count > 1 {
        page.text("-");
        page.number(first.saturating_add(count - 1));
    }
}
