//! What scripts require of the machine that runs them.

use crate::notes::{Note, note_behind};
use crate::trials::Trial;
use acc_base::Fault;
use acc_read::Page;
use std::alloc::Global;

/// What runs a script.
#[derive(Clone, Copy)]
pub struct Machine {
    /// The size of host memory in bytes.
    pub host: u64,
    /// The size of each device's memory in bytes.
    pub device: u64,
    /// How many devices there are.
    pub devices: u64,
}

impl Machine {
    /// What comes of a script that is not run, since it requires what is unknown, or what this machine lacks.
    ///
    /// # Errors
    ///
    /// [`Fault::Memory`].
    pub fn unmet(self, alloc: Global, name: &str, lines: &[&[u8]]) -> Result<Option<Trial>, Fault> {
        if let Some(note) = self.requirement(lines, None) {
            let texts = ["unknown '# requires: ", note.text, "'"];
            return Ok(Some(Trial::failed_at(alloc, name, note.line, &texts)?));
        }
        let Some(note) = self.requirement(lines, Some(false)) else {
            return Ok(None);
        };
        let texts = ["SKIP requires ", note.text];
        Ok(Some(Trial::noted(alloc, &texts, Page::new(alloc))?))
    }

    /// The first comment that requires what is unknown, or else the first that requires what this machine lacks.
    pub fn lack<'x>(self, lines: &[&'x [u8]]) -> Option<Note<'x>> {
        match self.requirement(lines, None) {
            None => self.requirement(lines, Some(false)),
            unknown => unknown,
        }
    }

    /// The first comment with a requirement that is met so.
    fn requirement<'x>(self, lines: &[&'x [u8]], met: Option<bool>) -> Option<Note<'x>> {
        let mut done = 0;
        for _ in 0..lines.len() {
            let note = note_behind(lines, "# requires:", done)?;
            if self.meets(note.text) == met {
                return Some(note);
            }
            done = note.line as usize;
        }
        None
    }

    /// Whether it has what a text requires, as `devices 2` or `host 1M`; `None` where that is unknown.
    fn meets(self, text: &str) -> Option<bool> {
        let (name, amount) = text.split_once(' ')?;
        let most = match name {
            "devices" => self.devices,
            "device" => self.device,
            "host" => self.host,
            _ => return None,
        };
        Some(bytes_of(amount.trim_ascii())? <= most)
    }
}

/// The number of bytes that a text says: decimal digits, and behind them K for 1,024 bytes or M for 1,048,576, if any.
pub fn bytes_of(text: &str) -> Option<u64> {
    let (digits, unit) = unit_of(text);
    // A sign is no digit.
    match digits.as_bytes().first() {
        Some(b'0'..=b'9') => Some(digits.parse::<u64>().ok()?.saturating_mul(unit)),
        _ => None,
    }
}

fn unit_of(text: &str) -> (&str, u64) {
    match (text.strip_suffix('K'), text.strip_suffix('M')) {
        (Some(digits), _) => (digits, 1_024),
        (_, Some(digits)) => (digits, 1_048_576),
        _ => (text, 1),
    }
}
