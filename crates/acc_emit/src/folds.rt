//! Lines of Fortran, of which none is longer than Fortran 2018 allows.

use acc_read::Page;

/// How many characters a line may have (Fortran 2018, section 6.3.2.1).
const LONGEST: usize = 132;

/// How many of them stand on one line where it is broken. What joins it to its neighbours takes the others.
const ROOM: usize = 116;

/// From which place on a comment is broken within a word, if it has no blank before.
const WORD_END: usize = 100;

/// A call of the macro of the harness. It is not broken, since not each preprocessor knows lines that go on.
const MACRO: &[u8] = b"BYTE(";

/// How much longer such a call is behind the preprocessor.
const MACRO_GROWTH: usize = 27;

/// What a line is, by which it goes on.
#[derive(Clone, Copy, PartialEq, Eq)]
enum LineKind {
    Comment,
    Directive,
    Statement,
}

impl LineKind {
    fn of(line: &[u8]) -> LineKind {
        let line = line.trim_ascii_start();
        if line.starts_with(b"!$acc") {
            LineKind::Directive
        } else if line.starts_with(b"!") {
            LineKind::Comment
        } else {
            LineKind::Statement
        }
    }

    /// What stands between the parts of a line that is broken.
    fn joint(self, within_text: bool) -> &'static str {
        match self {
            LineKind::Comment => "\n    !    ",
            LineKind::Directive => " &\n        !$acc ",
            LineKind::Statement if within_text => "\" // &\n        \"",
            LineKind::Statement => " &\n        ",
        }
    }
}

/// Where a line is broken.
#[derive(Clone, Copy)]
struct Break {
    /// How many bytes stand before it.
    at: usize,
    /// Whether it is within a text in quotes.
    within_text: bool,
}

/// Puts lines of a program, and breaks those that are too long.
pub fn put_folded(page: &mut Page, lines: &[u8]) {
    for (nth, line) in lines.split(|byte| *byte == b'\n').enumerate() {
        if nth > 0 {
            page.text("\n");
        }
        put_line(page, line);
    }
}

fn put_line(page: &mut Page, line: &[u8]) {
    let kind = LineKind::of(line);
    let mut rest = line;
    let mut next = if length_of(line, kind) > LONGEST {
        last_break(line, kind, false)
    } else {
        None
    };
    // Each part has a byte.
    for _ in 0..line.len() {
        let Some(Break { at, within_text }) = next else {
            break;
        };
        let (front, behind) = rest.split_at(at.min(rest.len()));
        page.bytes(front);
        page.text(kind.joint(within_text));
        rest = if within_text {
            behind
        } else {
            behind.trim_ascii_start()
        };
        next = if rest.len() > ROOM {
            last_break(rest, kind, within_text)
        } else {
            None
        };
    }
    page.bytes(rest);
}

/// How long a line is behind the preprocessor. It may be less where a text has the name of the macro.
fn length_of(line: &[u8], kind: LineKind) -> usize {
    let calls = kind == LineKind::Statement && line.windows(MACRO.len()).any(|part| part == MACRO);
    let growth = if calls { MACRO_GROWTH } else { 0 };
    line.len().saturating_add(growth)
}

/// The last place in the front of a line where it may be broken: at a blank, or within a text in quotes. The line begins
/// within such a text, or it does not.
fn last_break(line: &[u8], kind: LineKind, begins_within: bool) -> Option<Break> {
    let least = if begins_within { 1 } else { least_break(line) };
    let mut found = None;
    let mut within_text = begins_within;
    let mut last = b' ';
    for (at, byte) in line.iter().enumerate().take(ROOM) {
        if kind == LineKind::Statement && !within_text && has_at(line, at, MACRO) {
            break;
        }
        let is_late = found.is_none() && at >= WORD_END;
        let is_fit = match kind {
            LineKind::Comment => is_fit_in_comment(last, *byte, is_late),
            _ => within_text || *byte == b' ',
        };
        if is_fit && at >= least {
            found = Some(Break { at, within_text });
        }
        within_text ^= kind == LineKind::Statement && *byte == b'"';
        last = *byte;
    }
    found
}

/// Whether a line has a word at a place.
fn has_at(line: &[u8], at: usize, word: &[u8]) -> bool {
    line.get(at..).is_some_and(|rest| rest.starts_with(word))
}

/// Whether a comment may be broken between two bytes: at a blank, or late on also within a word. What ends with a
/// backslash would go on for the preprocessor.
fn is_fit_in_comment(last: u8, byte: u8, is_late: bool) -> bool {
    last != b'\\' && (byte == b' ' || is_late && byte.is_ascii())
}

/// The first place where a line may be broken: behind the first two bytes that are no indentation, as `! `.
fn least_break(line: &[u8]) -> usize {
    let indentation = line.len().saturating_sub(line.trim_ascii_start().len());
    indentation.saturating_add(2)
}
