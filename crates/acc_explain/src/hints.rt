//! What to write in place of what was found.

use crate::readers::Reader;
use crate::routines::LISTS;
use crate::sources::{put_note, put_place};
use crate::tokens::{front_of, nth_bytes, nth_token};
use acc_base::ScriptFault;
use acc_read::{Page, is_text};

/// A line at fault, with the number of the token that is wrong.
#[derive(Clone, Copy)]
pub struct Finding<'a> {
    /// What the line has before a comment.
    pub text: &'a [u8],
    /// The number of the wrong token, from 0 on; or how many there are where one is missing.
    pub nth: usize,
    /// What is wrong.
    pub kind: ScriptFault,
}

impl<'a> Finding<'a> {
    /// The bytes of the token that is wrong; none where one is missing.
    pub fn found(self) -> &'a [u8] {
        nth_bytes(self.text, self.nth)
    }

    /// Where that token begins; where it is missing, the end of the last one.
    pub fn place(self) -> usize {
        nth_token(self.text, self.nth).start
    }

    /// The bytes of the token before the wrong one; none where that is the first.
    fn before(self) -> &'a [u8] {
        match self.nth.checked_sub(1) {
            Some(nth) => nth_bytes(self.text, nth),
            None => &[],
        }
    }

    /// Whether a colon stands behind the wrong token.
    fn is_before_colon(self) -> bool {
        is_text(nth_bytes(self.text, self.nth.saturating_add(1)), ":")
    }

    /// The number of the parenthesis behind which the wrong token stands as a modifier, or is the colon of one.
    fn open_of_modifier(self) -> Option<usize> {
        let is_colon = is_text(self.found(), ":");
        let word = self.nth.checked_sub(usize::from(is_colon))?;
        let open = word.checked_sub(1)?;
        let is_modifier = matches!(self.kind, ScriptFault::Syntax)
            && (is_colon || self.is_before_colon())
            && is_text(nth_bytes(self.text, open), "(");
        is_modifier.then_some(open)
    }

    /// Whether the line begins with a word.
    fn is_of(self, word: &str) -> bool {
        is_text(nth_bytes(self.text, 0), word)
    }

    /// Whether the wrong token stands where `write` has its digits.
    fn is_digits(self) -> bool {
        self.is_of("write") && is_text(self.before(), "]")
    }
}

/// What to write: words, bytes of the line, more words and more bytes.
type Hint<'a> = (&'static str, &'a [u8], &'static str, &'a [u8]);

/// Puts what to write in place of what was found, under the line of a number, where that is known.
pub fn put_hint(page: &mut Page, reader: Reader<'_>, number: u64, finding: Finding<'_>) {
    if let Some(open) = finding.open_of_modifier() {
        put_modifiers(page, reader, number, finding.text, open);
    } else if let Some((words, bytes, more, last)) = hint_of(finding) {
        put_note(page, number);
        page.text(words);
        page.bytes(bytes);
        page.text(more);
        page.bytes(last);
        page.text("\n");
    } else if matches!(finding.kind, ScriptFault::NameTaken) {
        put_taken(page, reader, number, finding.found());
    }
}

/// Puts which modifier a clause has, by the number of its parenthesis.
fn put_modifiers(page: &mut Page, reader: Reader<'_>, number: u64, text: &[u8], open: usize) {
    put_note(page, number);
    page.text("a word before a colon is a modifier, and ");
    page.bytes(nth_bytes(text, open.saturating_sub(1)));
    page.text(" has ");
    let front = front_of(text, open.saturating_add(1));
    page.text(if reader.fits(front, "readonly: a)") {
        "readonly\n"
    } else if reader.fits(front, "zero: a)") {
        "zero\n"
    } else {
        "none\n"
    });
}

/// Puts the length of the array that has that name already.
fn put_taken(page: &mut Page, reader: Reader<'_>, number: u64, name: &[u8]) {
    if let Some(array) = reader.arrays.get(name) {
        put_note(page, number);
        page.text("a line before declares it, with ");
        page.number(array.whole().len);
        page.text(" bytes\n");
    }
}

fn hint_of(finding: Finding<'_>) -> Option<Hint<'_>> {
    match finding.kind {
        ScriptFault::Syntax => syntax_hint(finding),
        ScriptFault::Number => words(number_hint(finding)),
        ScriptFault::UnknownName => Some(unknown_hint(finding)),
        ScriptFault::HostFull => words("--host BYTES makes host memory larger, up to 64M"),
        ScriptFault::NoOpenRegion => words("data enters one, and end data exits from it"),
        _ => None,
    }
}

/// A hint without bytes of the line.
fn words(words: &'static str) -> Option<Hint<'static>> {
    Some((words, &[], "", &[]))
}

fn syntax_hint(finding: Finding<'_>) -> Option<Hint<'_>> {
    if is_option_again(finding) {
        return words("an option stands once");
    }
    if let Some((first, second)) = advice_of(finding) {
        return Some((first, &[], second, &[]));
    }
    match finding.found() {
        b"[" if finding.is_of("array") => Some(array_hint(finding)),
        b"," if finding.is_of("wait") || finding.is_of("step") => {
            words("it names one queue: write a line for each")
        }
        found if found.starts_with(b"0x") || found.starts_with(b"0X") => {
            if !finding.is_digits() {
                return words("numbers are decimal");
            }
            let digits = found.get(2..).unwrap_or(&[]);
            Some(("the digits stand without 0x: ", digits, "", &[]))
        }
        found if has_capitals(found) => {
            words("a name has lower-case letters, digits and '_', and begins with a letter")
        }
        _ => None,
    }
}

/// The advice for a word of OpenACC that scripts do not have there, in two parts.
fn advice_of(finding: Finding<'_>) -> Option<(&'static str, &'static str)> {
    let found = finding.found();
    for (front, list, is_first) in LISTS {
        if finding.nth == 0 || !*is_first {
            if let Some(advice) = advice_in(list, found) {
                return Some((*front, advice));
            }
        }
    }
    let is_routine = finding.nth == 0 && found.starts_with(b"acc_");
    is_routine.then_some(("a script has directives, and no routines", ""))
}

/// The advice that a list has for a word.
fn advice_in(list: &'static str, found: &[u8]) -> Option<&'static str> {
    for line in list.split('\n') {
        let (words, advice) = line.split_once(": ").unwrap_or(("", ""));
        if has_word(words, found) {
            return Some(advice);
        }
    }
    None
}

/// Whether a word is one of some words with blanks between them.
fn has_word(words: &str, found: &[u8]) -> bool {
    for word in words.split(' ') {
        if !found.is_empty() && word.as_bytes() == found {
            return true;
        }
    }
    false
}

/// Whether the wrong token is an option that stands in the line already.
fn is_option_again(finding: Finding<'_>) -> bool {
    let found = finding.found();
    if !has_word("finalize if_present async", found) {
        return false;
    }
    for nth in 0..finding.nth {
        if nth_bytes(finding.text, nth) == found {
            return true;
        }
    }
    false
}

fn has_capitals(word: &[u8]) -> bool {
    for byte in word {
        if byte.is_ascii_uppercase() {
            return true;
        }
    }
    false
}

/// How to declare an array whose length stands in brackets.
fn array_hint(finding: Finding<'_>) -> Hint<'_> {
    let len = match nth_bytes(finding.text, finding.nth.saturating_add(1)) {
        [] | b"]" => b"BYTES".as_slice(),
        len => len,
    };
    let words = "the length stands behind the name, in bytes: array ";
    (words, finding.before(), " ", len)
}

fn number_hint(finding: Finding<'_>) -> &'static str {
    if finding.is_of("kernel") && finding.nth == 2 {
        "the number of a kernel is from 0 to 255"
    } else if finding.is_of("array") {
        "the length of an array is from 1 to 4294967295"
    } else if finding.is_digits() {
        "each byte has two digits, and one write has 64 bytes at most"
    } else {
        "a number is from 0 to 4294967295"
    }
}

fn unknown_hint(finding: Finding<'_>) -> Hint<'_> {
    let found = finding.found();
    if has_word("zero readonly", found) {
        if finding.is_before_colon() {
            return (
                "a modifier stands once, and first in the parentheses",
                &[],
                "",
                &[],
            );
        }
        return ("a modifier has a colon behind it: ", found, ": REF", &[]);
    }
    let words = "no line before declares it; that is done by: array ";
    (words, found, " BYTES", &[])
}

/// Whether a line begins with `#pragma acc`, as in C. In a script it is a comment.
pub fn is_pragma(line: &[u8]) -> bool {
    let Some(rest) = line.trim_ascii().strip_prefix(b"#".as_slice()) else {
        return false;
    };
    let Some(rest) = rest.trim_ascii_start().strip_prefix(b"pragma".as_slice()) else {
        return false;
    };
    rest.trim_ascii_start().starts_with(b"acc")
}

/// Puts a warning for such a line, by its number; behind its place in the script's file, if it has one.
pub fn warn_of_pragma(page: &mut Page, file: Option<&str>, number: u64, line: &[u8]) {
    let blanks = line.len().saturating_sub(line.trim_ascii_start().len());
    let column = blanks.saturating_add(1) as u64;
    if put_place(page, file, number, Some(column)) {
        page.text(": warning: this");
    }
    page.text(" is a comment, since it begins with #: a directive stands without #pragma acc\n");
}
