//! The output that a program has to have, where it is given.

use crate::languages::Language;
use acc_read::{Page, next_line};
use std::slice;

/// The output that a script has to have, where it is given.
#[derive(Clone, Copy)]
pub struct Wanted<'a> {
    /// The lines that are not printed yet, if it is given.
    rest: Option<&'a [u8]>,
    /// The one that this line of the script has to print, where it is given.
    pub line: Option<&'a [u8]>,
}

impl<'a> Wanted<'a> {
    /// Returns an output of which nothing is printed yet, or none.
    pub fn new(output: Option<&'a [u8]>) -> Wanted<'a> {
        Wanted {
            rest: output,
            line: None,
        }
    }

    /// Whether the output has lines that are not printed yet.
    pub fn goes_on(&self) -> bool {
        !self.rest.unwrap_or(&[]).is_empty()
    }

    /// Passes as many lines as a line of the script printed; returns false where fewer are left.
    pub fn pass(&mut self, printed: &[u8]) -> bool {
        let Some(mut rest) = self.rest else {
            return true;
        };
        let mut is_first = true;
        self.line = None;
        for byte in printed {
            if *byte == b'\n' {
                if rest.is_empty() {
                    return false;
                }
                let (line, after) = next_line(rest);
                self.line = is_first.then_some(line);
                is_first = false;
                rest = after;
            }
        }
        self.rest = Some(rest);
        true
    }
}

/// Puts a piece of a line within a text of the program.
pub fn put_literal(page: &mut Page, language: Language, piece: &[u8]) {
    for byte in piece {
        match *byte {
            b'"' => page.text(language.pick("\\\"", "\"\"")),
            b'\\' => page.text(language.pick("\\\\", "\\")),
            b' '..=b'~' => page.bytes(slice::from_ref(byte)),
            _ => put_escape(page, language, *byte),
        }
    }
}

fn put_escape(page: &mut Page, language: Language, byte: u8) {
    let byte = byte as u64;
    if language == Language::Fortran {
        page.text("\" // achar(");
        page.number(byte);
        return page.text(") // \"");
    }
    page.text("\\");
    for place in [64, 8, 1] {
        page.number(byte / place % 8);
    }
}
