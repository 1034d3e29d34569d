//! What the comments of a script say to the program.

use acc_read::next_line;
use std::alloc::{AllocError, Global};

/// A comment that says something of its script.
#[derive(Clone, Copy)]
pub struct Note<'a> {
    /// The number of its line.
    pub line: u64,
    /// What stands behind its heading; a question mark where that is not UTF-8.
    pub text: &'a str,
}

/// The lines of a text, without what ends them.
///
/// # Errors
///
/// That there is no memory for their places.
pub fn lines_of(alloc: Global, text: &[u8]) -> Result<Vec<&[u8]>, AllocError> {
    let mut lines = Vec::new(alloc);
    let mut rest = text;
    for _ in 0..text.len() {
        if rest.is_empty() {
            break;
        }
        let (line, after) = next_line(rest);
        lines.push(line)?;
        rest = after;
    }
    Ok(lines)
}

/// What stands behind `# options:` in the first line of a script, if it begins so.
pub fn options_in(script: &[u8]) -> Option<&[u8]> {
    if script.is_empty() {
        return None;
    }
    let (line, _) = next_line(script);
    line.strip_prefix(b"# options:")
}

/// The words of a first line for the parser: one in place of the program's name, and those of what [`options_in`]
/// returned.
///
/// # Errors
///
/// That there is no memory for their places.
pub fn first_words(alloc: Global, text: &str) -> Result<Vec<&str>, AllocError> {
    let mut words = Vec::new(alloc);
    words.push("options:")?;
    for word in text.split_ascii_whitespace() {
        words.push(word)?;
    }
    Ok(words)
}

/// The first comment that begins with a heading, behind so many lines.
pub fn note_behind<'a>(lines: &[&'a [u8]], heading: &str, count: usize) -> Option<Note<'a>> {
    for nth in count..lines.len() {
        if let Some(text) = text_behind(line_at(lines, nth), heading) {
            let line = nth.saturating_add(1) as u64;
            return Some(Note { line, text });
        }
    }
    None
}

/// The line of a number, counted from 0; an empty one where there are fewer.
pub fn line_at<'a>(lines: &[&'a [u8]], nth: usize) -> &'a [u8] {
    lines.get(nth).copied().unwrap_or(&[])
}

fn text_behind<'a>(line: &'a [u8], heading: &str) -> Option<&'a str> {
    let text = line.strip_prefix(heading.as_bytes())?;
    Some(str::from_utf8(text.trim_ascii()).unwrap_or("?"))
}
