//! A line of a script with a mark under a place.

use acc_read::Page;

/// How many bytes of a line stand at most before the place that is marked.
const BEFORE: usize = 60;

/// How many bytes of a line are shown at most.
const SHOWN: usize = 100;

/// Puts a line behind its number, and under it a mark at a place. The line of the mark is left open. Of a long line the
/// part around the place is shown.
pub fn put_source(page: &mut Page, number: u64, line: &[u8], place: usize) {
    let from = place.saturating_sub(BEFORE);
    page.text("  ");
    page.number(number);
    page.text(" | ");
    put_part(page, line, from);
    page.text("\n");
    put_gutter(page, number, " | ");
    put_blanks(
        page,
        place.saturating_sub(from).saturating_add(cut_len(from)),
    );
    page.text("^ ");
}

/// Begins a line that says more, under the line of a number.
pub fn put_note(page: &mut Page, number: u64) {
    put_gutter(page, number, " = ");
}

/// Begins a line that is for a line of a script: with its place in the script's file, if that has one. Returns whether it
/// has.
pub fn put_place(page: &mut Page, file: Option<&str>, line: u64, column: Option<u64>) -> bool {
    page.text(file.unwrap_or("accrun: line "));
    page.text(if file.is_some() { ":" } else { "" });
    page.number(line);
    if let (Some(_), Some(column)) = (file, column) {
        page.text(":");
        page.number(column);
    }
    file.is_some()
}

/// Begins a line that says more, under a line that shows what became of a statement.
pub fn put_cause(page: &mut Page) {
    page.text("    = ");
}

/// Puts what stands before a line that is not itself part of the script.
fn put_gutter(page: &mut Page, number: u64, mark: &str) {
    let digits = number.checked_ilog10().unwrap_or(0) as usize;
    put_blanks(page, digits.saturating_add(3));
    page.text(mark);
}

/// Puts a part of a line, with dots where it is cut.
fn put_part(page: &mut Page, line: &[u8], from: usize) {
    if cut_len(from) > 0 {
        page.text("..");
    }
    let rest = line.get(from..).unwrap_or(&[]);
    for byte in rest.get(..SHOWN).unwrap_or(rest) {
        put_byte(page, *byte);
    }
    if rest.len() > SHOWN {
        page.text("..");
    }
}

fn cut_len(from: usize) -> usize {
    if from > 0 { 2 } else { 0 }
}

/// Puts a byte as one column: a blank for a tab, and `?` for what cannot be printed.
fn put_byte(page: &mut Page, byte: u8) {
    match byte {
        b' '..=b'~' => page.bytes(&[byte]),
        b'\t' => page.text(" "),
        _ => page.text("?"),
    }
}

fn put_blanks(page: &mut Page, count: usize) {
    for _ in 0..count {
        page.text(" ");
    }
}
