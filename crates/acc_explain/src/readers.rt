//! The reader of scripts, run on front parts of a line.

use crate::sentences::SENTENCES;
use crate::tokens::{Token, front_of, next_token};
use acc_base::ScriptFault;
use acc_read::{Arrays, Page, Trouble, line_at};
use std::alloc::Global;

/// The reader with the arrays that a line finds.
#[derive(Clone, Copy)]
pub struct Reader<'a> {
    /// The allocator.
    pub alloc: Global,
    /// The arrays that were declared before the line.
    pub arrays: &'a Arrays,
}

impl Reader<'_> {
    /// Returns what is wrong with a text as a line, if something is. A region counts as open; no fault depends on the
    /// device.
    pub fn fault(self, text: &[u8]) -> Option<ScriptFault> {
        match line_at(self.alloc, self.arrays, 0, Some(1), text).err()? {
            Trouble::Line(kind) => Some(kind),
            Trouble::Memory => None,
        }
    }

    /// Returns whether a front part with this tail is a line whose tokens all stand where they may. The tail may name
    /// arrays that are not declared, and the front part may not.
    pub fn fits(self, front: &[u8], tail: &str) -> bool {
        match self.fault_with(front, tail) {
            Some(ScriptFault::Syntax | ScriptFault::TooLong) => false,
            Some(ScriptFault::UnknownName) => !self.has_unknown(front, tail),
            _ => true,
        }
    }

    fn fault_with(self, front: &[u8], tail: &str) -> Option<ScriptFault> {
        let mut page = Page::new(self.alloc);
        page.bytes(front);
        page.text(" ");
        page.text(tail);
        self.fault(page.as_slice())
    }

    /// Whether a front part names an array that is not declared. Its last word may be a modifier before a colon.
    fn has_unknown(self, front: &[u8], tail: &str) -> bool {
        let is_colon = tail.as_bytes().first() == Some(&b':');
        let next = if is_colon { ":" } else { "" };
        self.fault_with(front, next) == Some(ScriptFault::UnknownName)
    }

    /// Returns whether some tail of a sentence makes a front part such a line.
    pub fn can_go_on(self, front: &[u8]) -> bool {
        for sentence in SENTENCES {
            if self.next_fit(front, sentence, 0).is_some() {
                return true;
            }
        }
        self.fits(front, "")
    }

    /// Returns the first token of a sentence, from a place on, whose tail makes a front part such a line.
    pub fn next_fit(self, front: &[u8], sentence: &str, from: usize) -> Option<Token> {
        let mut from = from;
        for _ in from..sentence.len() {
            let token = next_token(sentence.as_bytes(), from);
            if token.end == from {
                return None;
            }
            if self.fits(front, sentence.get(token.start..).unwrap_or("")) {
                return Some(token);
            }
            from = token.end;
        }
        None
    }

    /// Returns the number, from 0 on, of the token for which a text has this fault. Where a token is missing, it is the
    /// number of tokens.
    pub fn place(self, text: &[u8], kind: ScriptFault) -> usize {
        match kind {
            ScriptFault::Syntax => self.first_unfit(text),
            ScriptFault::NoOpenRegion => 0,
            _ => self.first_with(text, kind),
        }
    }

    /// The first token with which a text can no more become a line. What stands behind such a token fits no better, so
    /// this is a search by halves.
    fn first_unfit(self, text: &[u8]) -> usize {
        let mut fit = 0usize;
        let mut unfit = token_count(text).saturating_add(1);
        for _ in 0..text.len() {
            let middle = fit.midpoint(unfit);
            if middle <= fit {
                break;
            }
            if self.can_go_on(front_of(text, middle)) {
                fit = middle;
            } else {
                unfit = middle;
            }
        }
        unfit.saturating_sub(1)
    }

    /// The first token with which a text has this fault, and has it with the next one too. For a word before a colon is
    /// no name.
    fn first_with(self, text: &[u8], kind: ScriptFault) -> usize {
        let count = token_count(text);
        for nth in 1..=count {
            let next = nth.saturating_add(1);
            if self.fault(front_of(text, nth)) == Some(kind)
                && self.fault(front_of(text, next)) == Some(kind)
            {
                return nth.saturating_sub(1);
            }
        }
        count
    }
}

/// How many tokens a text has.
fn token_count(text: &[u8]) -> usize {
    let mut from = 0;
    for nth in 0..text.len() {
        let end = next_token(text, from).end;
        if end == from {
            return nth;
        }
        from = end;
    }
    text.len()
}
