//! What came of a script as a test, by what it printed and what it had to print.

use crate::notes::{line_at, lines_of, note_behind};
use crate::told_names::put_told;
use acc_base::Fault;
use acc_read::Page;
use std::alloc::{AllocError, Global};

/// What stands in front of a line that has to be printed, behind the statement that prints it.
const MARK: &[u8] = b"#>";

/// How many bytes a line that is printed may have to stand behind `#> ` in a line of a script.
const MARKED_MAX: usize = 4_093;

/// The heading of why a script has to fail.
const XFAIL: &str = "# xfail:";

/// What came of a test. There was memory for all that it says.
#[derive(Drop)]
pub struct Trial {
    /// Why it was skipped, or failed as it has to, as TAP says it; nothing of others.
    pub(crate) note: Page,
    /// Where and how it failed; nothing where it did not.
    pub(crate) wrong: Page,
    /// What its author may not mean, each line behind its place.
    pub warnings: Page,
}

impl Trial {
    /// A test with a note, and with what is wrong, if these say something.
    ///
    /// # Errors
    ///
    /// [`Fault::Memory`], of what is wrong too.
    pub fn noted(alloc: Global, texts: &[&str], wrong: Page) -> Result<Trial, Fault> {
        let mut note = Page::new(alloc);
        put_texts(&mut note, texts);
        note.whole()?;
        wrong.whole()?;
        let warnings = Page::new(alloc);
        Ok(Trial {
            note,
            wrong,
            warnings,
        })
    }

    /// Whether it failed, and has not to.
    pub fn is_failed(&self) -> bool {
        self.note.as_slice().is_empty() && !self.wrong.as_slice().is_empty()
    }

    /// A test that failed for what these texts say, one of which is a name.
    ///
    /// # Errors
    ///
    /// [`Fault::Memory`].
    pub fn failed(alloc: Global, texts: &[&str]) -> Result<Trial, Fault> {
        let mut wrong = Page::new(alloc);
        for text in texts {
            put_told(&mut wrong, text);
        }
        wrong.text("\n");
        Trial::noted(alloc, &[], wrong)
    }

    /// A test that failed for what these texts say of a line of a script.
    ///
    /// # Errors
    ///
    /// [`Fault::Memory`].
    pub fn failed_at(alloc: Global, name: &str, line: u64, texts: &[&str]) -> Result<Trial, Fault> {
        let mut wrong = Page::new(alloc);
        put_told(&mut wrong, name);
        put_numbers(&mut wrong, &[(":", line)], ": ");
        put_texts(&mut wrong, texts);
        wrong.text("\n");
        Trial::noted(alloc, &[], wrong)
    }
}

/// A script that ran.
#[derive(Clone, Copy)]
pub struct Played<'a> {
    /// The name of its file.
    pub name: &'a str,
    /// Its lines.
    pub lines: &'a [&'a [u8]],
    /// The lines that it printed.
    pub printed: &'a [&'a [u8]],
    /// For each of these the number of the line that printed it, and then that of the line that ended the script.
    pub places: &'a [u64],
}

impl Played<'_> {
    /// Whether it has to fail.
    pub fn has_to_fail(self) -> bool {
        note_behind(self.lines, XFAIL, 0).is_some()
    }

    /// Why what it printed cannot be stored in the file that has this text; `None` where it can.
    pub fn unstorable(self, text: &[u8]) -> Option<&'static str> {
        for pair in text.windows(2) {
            if pair == b"\r\n".as_slice() {
                return Some("its lines end in CR LF, which '--bless' does not keep");
            }
        }
        for line in self.printed {
            if line.len() > MARKED_MAX && is_marked(self) {
                return Some("a line of the output is too long for '#>'; store it in a file .out");
            }
        }
        None
    }
}

/// Whether a script says itself what it has to print.
fn is_marked(played: Played<'_>) -> bool {
    count_marks(played.lines) > 0
}

/// How many of some lines say what has to be printed.
fn count_marks(lines: &[&[u8]]) -> usize {
    let mut count = 0usize;
    for line in lines {
        count = count.saturating_add(usize::from(is_mark(*line)));
    }
    count
}

/// Whether a line says what has to be printed. One that is indented differs from what stands there if it is blessed.
fn is_mark(line: &[u8]) -> bool {
    line.trim_ascii_start().starts_with(MARK)
}

/// The name of the file that says what a script has to print: its own, or that of [`output_name`].
///
/// # Errors
///
/// That there is no memory for it.
pub fn expectation(alloc: Global, played: Played<'_>) -> Result<String, AllocError> {
    if is_marked(played) {
        return String::from_str(alloc, played.name);
    }
    output_name(alloc, played.name)
}

/// The name of the file that says what a script has to print, where the script does not: `life.out` for `life.acc`.
///
/// # Errors
///
/// That there is no memory for it.
pub fn output_name(alloc: Global, script: &str) -> Result<String, AllocError> {
    let stem = script.strip_suffix(".acc").unwrap_or(script);
    let mut name = String::from_str(alloc, stem)?;
    name.push_str(".out")?;
    Ok(name)
}

/// What that file has to say of what was printed: all of it, or each line behind the statement that printed it.
pub fn blessed(alloc: Global, played: Played<'_>) -> Page {
    let mut page = Page::new(alloc);
    if !is_marked(played) {
        put_lines(&mut page, "", played.printed);
        return page;
    }
    let mut done = 0;
    for (index, line) in played.lines.iter().enumerate() {
        if !is_mark(*line) {
            put_line(&mut page, "", line);
        }
        done = put_printed(&mut page, played, done, index.saturating_add(1) as u64);
    }
    put_printed(&mut page, played, done, u64::MAX);
    page
}

/// Puts what was printed up to a line of the script, but for so many lines, and returns how many there are then.
fn put_printed(page: &mut Page, played: Played<'_>, done: usize, number: u64) -> usize {
    for nth in done..played.printed.len() {
        if number < played.places.get(nth).copied().unwrap_or(0) {
            return nth;
        }
        put_line(page, "#> ", line_at(played.printed, nth));
    }
    played.printed.len()
}

/// Puts texts, one behind the other.
pub fn put_texts(page: &mut Page, texts: &[&str]) {
    for text in texts {
        page.text(text);
    }
}

/// Puts numbers, each behind a text, and what stands behind the last one.
pub fn put_numbers(page: &mut Page, numbers: &[(&str, u64)], end: &str) {
    for (text, number) in numbers {
        page.text(text);
        page.number(*number);
    }
    page.text(end);
}

/// Puts lines, each behind a mark.
fn put_lines(page: &mut Page, mark: &str, lines: &[&[u8]]) {
    for line in lines {
        put_line(page, mark, line);
    }
}

/// Puts a line behind a mark.
fn put_line(page: &mut Page, mark: &str, line: &[u8]) {
    page.text(mark);
    page.bytes(line);
    page.text("\n");
}

/// What came of a script, by the text of the file of a name, and by the one that it should have.
///
/// # Errors
///
/// [`Fault::Memory`].
pub fn compared(
    alloc: Global,
    played: Played<'_>,
    name: &str,
    wanted: &[u8],
    found: &[u8],
) -> Result<Trial, Fault> {
    let (wanted, found) = (lines_of(alloc, wanted)?, lines_of(alloc, found)?);
    let wrong = difference(alloc, played, name, &wanted, &found);
    judged(alloc, played, wrong)
}

/// What came of a script with this wrong, by whether it has to fail.
fn judged(alloc: Global, played: Played<'_>, wrong: Page) -> Result<Trial, Fault> {
    match note_behind(played.lines, XFAIL, 0) {
        None => Trial::noted(alloc, &[], wrong),
        Some(note) if wrong.whole()?.is_empty() => {
            let told = "it passes, in spite of '# xfail:'";
            Trial::failed_at(alloc, played.name, note.line, &[told])
        }
        Some(note) => Trial::noted(alloc, &["TODO ", note.text], wrong),
    }
}

/// Where and how what was printed is not as wanted, by the lines of that file; nothing where it is.
fn difference(
    alloc: Global,
    played: Played<'_>,
    name: &str,
    wanted: &[&[u8]],
    found: &[&[u8]],
) -> Page {
    let mut page = Page::new(alloc);
    let front = same_front(wanted, found);
    if front < wanted.len().max(found.len()) {
        put_difference(&mut page, played, name, front, wanted, found);
    }
    page
}

/// How many of the first lines of two texts are the same.
fn same_front(wanted: &[&[u8]], found: &[&[u8]]) -> usize {
    let most = wanted.len().min(found.len());
    for nth in 0..most {
        if line_at(wanted, nth) != line_at(found, nth) {
            return nth;
        }
    }
    most
}

/// How many of the last lines of two texts are the same, behind so many first ones.
fn same_back(front: usize, wanted: &[&[u8]], found: &[&[u8]]) -> usize {
    let most = wanted.len().min(found.len()).saturating_sub(front);
    for nth in 0..most {
        let behind = nth.saturating_add(1);
        let line = line_at(wanted, wanted.len().saturating_sub(behind));
        if line != line_at(found, found.len().saturating_sub(behind)) {
            return nth;
        }
    }
    most
}

/// Puts how lines differ behind so many that are the same.
fn put_difference(
    page: &mut Page,
    played: Played<'_>,
    name: &str,
    front: usize,
    wanted: &[&[u8]],
    found: &[&[u8]],
) {
    let index = printed_before(played, found, front);
    let place = place_of(played, found, front, index);
    let statement = line_at(played.lines, place.wrapping_sub(1) as usize);
    put_heading(page, played.name, name, place, index.saturating_add(1));
    put_diff(page, front, wanted, found, statement);
}

/// Puts the line of the script and the line of its output, and whose lines the piece behind has.
fn put_heading(page: &mut Page, script: &str, name: &str, place: u64, number: usize) {
    let numbers = [(":", place), (": line ", number as u64)];
    put_told(page, script);
    put_numbers(page, &numbers, " of the output is not as expected\n");
    for mark in ["--- ", "+++ "] {
        page.text(mark);
        put_told(page, name);
        page.text("\n");
    }
}

/// The number of the line that printed a line of the output, or had to print one that is missing.
fn place_of(played: Played<'_>, found: &[&[u8]], front: usize, index: usize) -> u64 {
    let place = if is_marked(played) {
        statement_before(found, front) as u64
    } else {
        played.places.get(index).copied().unwrap_or(1)
    };
    place.clamp(1, (played.lines.len() as u64).max(1))
}

/// The number of the last of the first lines of a script that does not say what has to be printed; 0 where all do.
fn statement_before(lines: &[&[u8]], front: usize) -> usize {
    for nth in 0..front {
        let number = front.saturating_sub(nth);
        if !is_mark(line_at(lines, number.saturating_sub(1))) {
            return number;
        }
    }
    0
}

/// How many of the first lines of a file were printed.
fn printed_before(played: Played<'_>, found: &[&[u8]], front: usize) -> usize {
    if is_marked(played) {
        count_marks(found.get(..front).unwrap_or(found))
    } else {
        front
    }
}

/// Puts how lines differ, as `diff -U0` does, in one piece. Behind its place stands the statement that printed its
/// first line.
fn put_diff(page: &mut Page, front: usize, wanted: &[&[u8]], found: &[&[u8]], statement: &[u8]) {
    let back = same_back(front, wanted, found);
    let wanted = wanted
        .get(front..wanted.len().saturating_sub(back))
        .unwrap_or(&[]);
    let found = found
        .get(front..found.len().saturating_sub(back))
        .unwrap_or(&[]);
    page.text("@@");
    put_piece(page, " -", front, wanted.len());
    put_piece(page, " +", front, found.len());
    put_line(page, " @@ ", statement);
    put_lines(page, "-", wanted);
    put_lines(page, "+", found);
}

/// Puts where a piece begins, behind so many lines, and how many it has.
fn put_piece(page: &mut Page, sign: &str, behind: usize, count: usize) {
    let first = behind.saturating_add(count.min(1));
    put_numbers(page, &[(sign, first as u64), (",", count as u64)], "");
}
