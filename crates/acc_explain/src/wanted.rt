//! What could stand at a place of a line.

use crate::readers::Reader;
use crate::sentences::SENTENCES;
use crate::tokens::{Token, bytes_of, is_mark};
use acc_read::Page;
use std::alloc::AllocError;

/// What a token is that could stand at a place.
#[derive(Clone, Copy)]
enum Kind {
    Name,
    Digits,
    Word,
    /// A modifier of a clause, with the colon behind it.
    Modifier,
    /// A mark, as a comma or a parenthesis.
    Mark,
    /// A number, or the end of the line.
    Other,
}

/// A token, or kind of token, that could stand at a place, with its word.
#[derive(Clone, Copy)]
struct Wanted {
    kind: Kind,
    word: &'static [u8],
}

/// All that could stand at a place, each once.
#[derive(Drop)]
struct AllWanted {
    all: Vec<Wanted>,
    has_name: bool,
    has_digits: bool,
    /// Whether there was no memory for some of it.
    wants: bool,
}

/// Puts all that could stand behind a front part of a line, each once; nothing where nothing could.
///
/// # Errors
///
/// [`AllocError`] where there is no memory. What found some is put.
pub fn put_wanted(page: &mut Page, reader: Reader<'_>, front: &[u8]) -> Result<(), AllocError> {
    let mut wanted = AllWanted {
        all: Vec::new(reader.alloc),
        has_name: false,
        has_digits: false,
        wants: false,
    };
    wanted.gather(reader, front);
    wanted.put(page, front.last() == Some(&b'('));
    if wanted.wants {
        Err(AllocError)
    } else {
        Ok(())
    }
}

impl AllWanted {
    fn gather(&mut self, reader: Reader<'_>, front: &[u8]) {
        for sentence in SENTENCES {
            self.gather_from(reader, front, sentence);
        }
        if reader.fits(front, "") {
            self.add(Wanted {
                kind: Kind::Other,
                word: b"the end of the line",
            });
        }
    }

    /// Adds the first token of each tail of a sentence that could stand there.
    fn gather_from(&mut self, reader: Reader<'_>, front: &[u8], sentence: &'static str) {
        let mut from = 0;
        for _ in 0..sentence.len() {
            let Some(token) = reader.next_fit(front, sentence, from) else {
                break;
            };
            self.add(wanted_at(sentence.as_bytes(), token));
            from = token.end;
        }
    }

    fn add(&mut self, wanted: Wanted) {
        for other in &self.all {
            if other.word == wanted.word {
                return;
            }
        }
        self.has_name |= matches!(wanted.kind, Kind::Name);
        self.has_digits |= matches!(wanted.kind, Kind::Digits);
        self.wants |= self.all.push(wanted).is_err();
    }

    /// Whether it is shown. The reader takes any word for a name, so keywords seem to fit where a name does, and
    /// modifiers fit only behind a parenthesis. It takes numbers and names for digits too.
    fn is_told(&self, kind: Kind, is_open: bool) -> bool {
        match kind {
            Kind::Digits => true,
            _ if self.has_digits => false,
            Kind::Word => !self.has_name,
            Kind::Modifier => is_open,
            _ => true,
        }
    }

    /// Puts what is shown, with `or` before the last one.
    fn put(&self, page: &mut Page, is_open: bool) {
        let mut left = 0usize;
        for wanted in &self.all {
            left = left.saturating_add(usize::from(self.is_told(wanted.kind, is_open)));
        }
        let mut before = ", wanted ";
        for wanted in &self.all {
            if self.is_told(wanted.kind, is_open) {
                put_one(page, before, *wanted);
                left = left.saturating_sub(1);
                before = if left == 1 { " or " } else { ", " };
            }
        }
    }
}

/// The token, or kind of token, that a token of a sentence stands for.
fn wanted_at(sentence: &'static [u8], token: Token) -> Wanted {
    let word = bytes_of(sentence, token);
    let (kind, word) = match word {
        b"a" => (Kind::Name, b"a name".as_slice()),
        b"0" | b"1" => (Kind::Other, b"a number".as_slice()),
        b"0f" => (Kind::Digits, b"hexadecimal digits".as_slice()),
        [byte] if is_mark(*byte) => (Kind::Mark, word),
        _ if sentence.get(token.end) == Some(&b':') => (Kind::Modifier, word),
        _ => (Kind::Word, word),
    };
    Wanted { kind, word }
}

fn put_one(page: &mut Page, before: &str, wanted: Wanted) {
    let (quote, mark) = match wanted.kind {
        Kind::Word | Kind::Mark => ("'", ""),
        Kind::Modifier => ("'", ":"),
        _ => ("", ""),
    };
    page.text(before);
    page.text(quote);
    page.bytes(wanted.word);
    page.text(mark);
    page.text(quote);
}
